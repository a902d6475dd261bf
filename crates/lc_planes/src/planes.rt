//! Words that are kept as planes of bits.

ghost use Rattle.std.specs.Prelude.{◌≡◌, ℕ, ◌+◌, ◌*◌, ◌<◌, ◌≤◌, IsTrue, IfOk, length, slice_index};
ghost use Rattle.lc_algebra.specs.Field.{size, shape_of, is_symbol};
ghost use Rattle.lc_algebra.specs.Word.{Fits, word_sum, weight as weight_of};
ghost use Rattle.lc_planes.specs.Planes.{symbols_of, AreBlocks, ArePlanes};

use crate::block::{add_blocks, block_of, ones_in, put_blocks, symbol_of};
use lc_algebra::FieldName;
use lc_field::{Field, NoMemory};
use std::alloc::Global;
use std::marker::Model;

/// A word over a field of 2, 4, 8 or 16 elements, of any length, as planes of bits: plane t has bit t of the number of
/// each symbol, 64 symbols in each `u64`. A field of fewer than 16 elements leaves the upper planes 0. In characteristic
/// 2 the planes of a sum are the exclusive or of the planes (Lidl and Niederreiter, Finite Fields, chapter 1), and the
/// weight is the number of ones in the or of all planes.
///
/// Contracts see it as its field and the list of its symbols, from the left.
#[derive(Drop)]
pub struct Planes {
    field: FieldName,
    len: usize,
    // the planes of each 64 symbols
    blocks: Vec<[u64; 4]>,
}

impl Model for Planes {
    ghost use Rattle.lc_planes.specs.Planes.{PlanesState, ArePlanes, symbols_of};

    ghost Value = { PlanesState };

    ghost view = { λ s. record { field = s.field; symbols = symbols_of s.len s.blocks.items } };

    ghost invariant = { λ s. ArePlanes s.field (symbols_of s.len s.blocks.items) s.blocks.items };
}

impl Planes {
    /// The word with these symbols, over a field of 2, 4, 8 or 16 elements.
    ///
    /// The symbols are elements of the field.
    pub fn from_symbols(alloc: Global, field: &Field, symbols: &[u8]) -> Result<Planes, NoMemory>
        requires symbol { IsTrue (is_symbol field.now) }
        requires even { (shape_of field.now).characteristic ≡ 2 }
        requires fits { Fits field.now symbols.now }
        ensures field { IfOk result (λ p. p.field ≡ field.now) }
        ensures symbols { IfOk result (λ p. p.symbols ≡ symbols.now) }
    {
        Ok(Planes {
            field: name_of(field),
            len: symbols.len(),
            blocks: blocks_of(alloc, symbols)?,
        })
    }

    /// Adds another word, symbol by symbol. It is over the same field and has the same length. Takes no memory.
    pub fn add(&mut self, other: &Planes)
        requires field { other.now.field ≡ self.old.field }
        requires lengths { length other.now.symbols ≡ length self.old.symbols }
        ensures is { self.new.symbols ≡ word_sum self.old.field self.old.symbols other.now.symbols }
        ensures field { self.new.field ≡ self.old.field }
    {
        add_blocks(&mut self.blocks, &other.blocks);
    }

    /// Makes it the sum of two words, symbol by symbol. All are over the same field and have the same length. Takes no
    /// memory.
    pub fn put_added(&mut self, first: &Planes, second: &Planes)
        requires to { first.now.field ≡ self.old.field }
        requires field { second.now.field ≡ self.old.field }
        requires long { length first.now.symbols ≡ length self.old.symbols }
        requires lengths { length second.now.symbols ≡ length self.old.symbols }
        ensures is { self.new.symbols ≡ word_sum self.old.field first.now.symbols second.now.symbols }
        ensures field { self.new.field ≡ self.old.field }
    {
        put_blocks(&mut self.blocks, &first.blocks, &second.blocks);
    }

    /// The number of nonzero symbols: the Hamming weight (MacWilliams and Sloane, chapter 1).
    pub fn weight(&self) -> usize
        ensures is { result ≡ weight_of self.now.symbols }
    {
        ones_in(&self.blocks, self.len)
    }

    /// The number of symbols.
    pub fn len(&self) -> usize
        ensures is { result ≡ length self.now.symbols }
    {
        self.len
    }

    /// Symbol `i`, from 0. It is below the length.
    pub fn symbol(&self, i: usize) -> u8
        requires inside { i < length self.now.symbols }
        ensures is { result ≡ slice_index self.now.symbols i }
        ensures fits { result < size self.now.field }
    {
        symbol_of(&self.blocks[i / 64], i % 64)
    }
}

// The name of a field of 2, 4, 8 or 16 elements.
#[tactic(auto, using(crate::proofs::BlockLaws::name_laws))]
fn name_of(field: &Field) -> FieldName
    requires symbol { IsTrue (is_symbol field.now) }
    requires even { (shape_of field.now).characteristic ≡ 2 }
    ensures is { result ≡ field.now }
{
    let size = field.size();
    if size == 2 {
        return FieldName::Gf2;
    }
    if size == 4 {
        return FieldName::Gf4;
    }
    if size == 8 {
        return FieldName::Gf8;
    }
    FieldName::Gf16
}

// The planes of some symbols, 64 at a time.
fn blocks_of(alloc: Global, symbols: &[u8]) -> Result<Vec<[u64; 4]>, NoMemory>
    ensures are { IfOk result (λ blocks. AreBlocks symbols.now blocks.items) }
{
    let many = symbols.len().div_ceil(64);
    let mut blocks = Vec::with_capacity(alloc, many)?;
    for b in 0..many {
        let from = 64 * b;
        let to = from + (symbols.len() - from).min(64);
        blocks.push(block_of(&symbols[from..to]))?;
    }
    Ok(blocks)
}

// Proved only where its argument may go to another thread and be shared with it.
fn crosses_threads<T: Send + Sync>(_value: &T) {}

// A word as planes is `Send` and `Sync`.
fn planes_cross_threads(planes: &Planes) {
    crosses_threads(planes);
}
