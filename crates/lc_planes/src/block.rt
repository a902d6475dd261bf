//! Blocks: the four planes of 64 symbols. Bit e of plane t is bit t of symbol e, and there are zeros after the last symbol.

ghost use Rattle.std.specs.Prelude.{◌≡◌, ℕ, ◌+◌, ◌*◌, ◌/◌, ◌^◌, ◌<◌, ◌≤◌, length, slice_index, slice_index_or, bit_or, bit_xor, count_ones};
ghost use Rattle.std.specs.Int.{bit_at};
ghost use Rattle.lc_planes.specs.Planes.{plane, symbol_in, symbols_of, AreBlocks, AreSums};
ghost use Rattle.lc_algebra.specs.Word.{weight};

use std::simd::prelude::*;

/// Bit `bit` of each of 64 symbols, from 0 to 7: the first symbol's is the lowest.
pub fn plane_of(symbols: &[u8; 64], bit: usize) -> u64
    requires bit { bit < 8 }
    ensures is { result ≡ plane bit symbols.now }
{
    let ones = u8x64::from_array(*symbols) & u8x64::splat(1 << bit);
    ones.simd_ne(u8x64::splat(0)).to_bitmask()
}

// At most 64 symbols, and then zeros.
fn padded(symbols: &[u8]) -> [u8; 64]
    requires few { length symbols.now ≤ 64 }
    ensures planes { (t : ℕ) → plane t result ≡ plane t symbols.now }
{
    let mut all = [0; 64];
    for e in 0..symbols.len() {
        all[e] = symbols[e];
    }
    all
}

/// The block of at most 64 symbols.
pub(crate) fn block_of(symbols: &[u8]) -> [u64; 4]
    requires few { length symbols.now ≤ 64 }
    ensures are { (t : ℕ) → t < 4 → slice_index result t ≡ plane t symbols.now }
{
    let all = padded(symbols);
    let mut block = [0; 4];
    for t in 0..4 {
        block[t] = plane_of(&all, t);
    }
    block
}

// The exclusive or of two blocks.
#[inline]
fn exclusive(u: &[u64; 4], v: &[u64; 4]) -> [u64; 4]
    ensures is { (t : ℕ) → t < 4 → slice_index result t ≡ bit_xor (slice_index u.now t) (slice_index v.now t) }
{
    [u[0] ^ v[0], u[1] ^ v[1], u[2] ^ v[2], u[3] ^ v[3]]
}

/// Adds some blocks to as many others, by exclusive or.
pub(crate) fn add_blocks(to: &mut [[u64; 4]], from: &[[u64; 4]])
    requires many { length to.old ≡ length from.now }
    ensures are { AreSums to.old from.now to.new }
{
    for b in 0..to.len() {
        to[b] = exclusive(&to[b], &from[b]);
    }
}

/// Makes some blocks the exclusive or of as many others.
pub(crate) fn put_blocks(to: &mut [[u64; 4]], first: &[[u64; 4]], second: &[[u64; 4]])
    requires to { length to.old ≡ length first.now }
    requires many { length first.now ≡ length second.now }
    ensures are { AreSums first.now second.now to.new }
{
    for b in 0..to.len() {
        to[b] = exclusive(&first[b], &second[b]);
    }
}

// How many of the symbols of a block are not 0.
#[inline]
fn ones_of(block: &[u64; 4]) -> u32
    ensures is { result ≡ count_ones (bit_or (slice_index block.now 3)
        (bit_or (slice_index block.now 2) (bit_or (slice_index block.now 1) (slice_index block.now 0)))) }
{
    let low = block[1] | block[0];
    let any = block[3] | (block[2] | low);
    any.count_ones()
}

/// How many of the first symbols of some blocks are not 0, of which the blocks are the planes.
pub(crate) fn ones_in(blocks: &[[u64; 4]], len: usize) -> usize
    requires are { AreBlocks (symbols_of len blocks.now) blocks.now }
    requires small { (i : ℕ) → slice_index (symbols_of len blocks.now) i < 16 }
    ensures is { result ≡ weight (symbols_of len blocks.now) }
{
    let mut ones = 0;
    for b in 0..blocks.len() {
        ones += ones_of(&blocks[b]) as usize;
    }
    ones
}

// Bit e of a plane.
#[inline]
fn bit_of(plane: u64, e: usize) -> u8
    requires bit { e < 64 }
    ensures is { result ≡ bit_at plane e }
    ensures small { result < 2 }
{
    ((plane >> e) % 2) as u8
}

/// Symbol e of a block, from 0.
#[inline]
pub(crate) fn symbol_of(block: &[u64; 4], e: usize) -> u8
    requires symbol { e < 64 }
    ensures is { result ≡ symbol_in block.now e }
{
    let low = bit_of(block[0], e) + 2 * bit_of(block[1], e);
    low + 4 * bit_of(block[2], e) + 8 * bit_of(block[3], e)
}
