//! Words over any field as bits: in parts of 64 columns, each part as planes. Two words differ at a column where one of their
//! planes does.
ghost use Rattle.std.specs.Prelude.{◌≡◌, ℕ, ◌*◌, ◌<◌, ◌≤◌, length, slice_index, IfOk};
ghost use Rattle.lc_algebra.specs.Span.{below};
ghost use Rattle.lc_planes.specs.Planes.{plane, part_at, plane_at};
ghost use Rattle.lc_planes.specs.Packing.{IsPacked, ArePacked, planes_apart, places_apart};

use crate::block::plane_of;
use lc_field::NoMemory;
use lc_vec::Word;
use std::alloc::Global;

/// Some words as bits, in their order: the first P planes of their first N parts, each at most 4.
pub fn pack_words<const P: usize, const N: usize>(
    alloc: Global,
    words: &[Word],
) -> Result<Vec<[[u64; P]; N]>, NoMemory>
    requires planes { P ≤ 4 }
    requires parts { N ≤ 4 }
    ensures are { IfOk result (λ bits. ArePacked P N words.now bits.items) }
{
    let mut bits = Vec::with_capacity(alloc, words.len())?;
    for i in 0..words.len() {
        bits.push(pack::<P, N>(words[i].symbols()))?;
    }
    Ok(bits)
}

/// A word as bits: the first P planes of its first N parts, each at most 4. P planes hold the symbols of a field of at most 2^P
/// elements, and N parts 64 N columns; there are zeros after the last symbol.
pub fn pack<const P: usize, const N: usize>(word: &[u8]) -> [[u64; P]; N]
    requires planes { P ≤ 4 }
    requires parts { N ≤ 4 }
    ensures is { IsPacked P N word.now result }
{
    let mut bits = [[0; P]; N];
    for i in 0..N {
        bits[i] = pack_part::<P>(word, i);
    }
    bits
}

// The first P planes of a part of a word.
fn pack_part<const P: usize>(word: &[u8], i: usize) -> [u64; P]
    requires planes { P ≤ 4 }
    requires part { i < 4 }
    ensures are { (p : ℕ) → p < P → slice_index result p ≡ plane_at p (part_at (below (length word.now)) i) word.now }
{
    let block = part_of(word, i);
    let mut bits = [0; P];
    for p in 0..P {
        bits[p] = plane_of(&block, p);
    }
    bits
}

// The symbols of a part of a word, at most 64, and then zeros.
fn part_of(word: &[u8], i: usize) -> [u8; 64]
    requires part { i < 4 }
    ensures planes { (j : ℕ) → plane j result ≡ plane_at j (part_at (below (length word.now)) i) word.now }
{
    let start = (64 * i).min(word.len());
    let many = (word.len() - start).min(64);
    let mut block = [0; 64];
    for t in 0..many {
        block[t] = word[start + t];
    }
    block
}

/// At how many places two words differ, given as bits by `pack`: by their first P planes, in their first N parts, at most 4.
#[inline]
pub fn places_apart<const P: usize, const N: usize>(
    head: &[[u64; P]; N],
    tail: &[[u64; P]; N],
) -> usize
    requires parts { N ≤ 4 }
    ensures is { result ≡ places_apart P N head.now tail.now }
    ensures most { result ≤ 64 * N }
{
    let mut places = 0;
    for i in 0..N {
        places += bits_apart(&head[i], &tail[i]).count_ones() as usize;
    }
    places
}

// The bits at which one of the planes of two parts differs.
#[inline]
fn bits_apart<const P: usize>(head: &[u64; P], tail: &[u64; P]) -> u64
    ensures is { result ≡ planes_apart P head.now tail.now }
{
    let mut bits = 0;
    for p in 0..P {
        bits = (head[p] ^ tail[p]) | bits;
    }
    bits
}
