//! The nonzero multiples of the rows of all sets.

ghost use Rattle.std.specs.Prelude.{◌≡◌, ◌+◌, ◌-◌, ◌*◌, ◌/◌, ◌%◌, ◌^◌, ◌<◌, ◌≤◌, [], length, slice_index_or, IfOk};
ghost use Rattle.lc_algebra.specs.Field.{size};
ghost use Rattle.lc_algebra.specs.Word.{IsWord, scale};
ghost use Rattle.lc_enumeration.specs.Search.{set_count, generator_at};
ghost use Rattle.lc_kernel.specs.Sums.{AreMultiples, multiple_at, multiple_index};

use lc_field::NoMemory;
use lc_infoset::Sets;
use lc_vec::Word;
use std::alloc::Global;

/// The nonzero multiples of the rows of one set, among those of all sets.
#[derive(Clone, Copy)]
pub(crate) struct RowMultiples<'a> {
    pub(crate) sets: &'a Sets,
    pub(crate) words: &'a [Word],
    pub(crate) set: usize,
}

/// The multiples, set by set, row by row, by the nonzero elements in their order.
#[tactic(auto, using(crate::proofs::MultipleLaws::multiples_made))]
pub(crate) fn multiples_of(alloc: Global, sets: &Sets) -> Result<Vec<Word>, NoMemory>
    ensures are { IfOk result (λ ws. AreMultiples sets.now ws.items) }
{
    let _n = sets.length();
    let many = sets.count() * sets.dimension() * nonzero(sets);
    let mut words = Vec::with_capacity(alloc, many)?;
    for index in 0..many {
        words.push(multiple(alloc, sets, index)?)?;
    }
    Ok(words)
}

/// How many nonzero elements the field has.
pub(crate) fn nonzero(sets: &Sets) -> usize
    ensures is { result ≡ size sets.now.field - 1 }
    ensures least { 1 ≤ result }
    ensures most { result ≤ 15 }
{
    sets.field().size() as usize - 1
}

// The multiple at an index.
fn multiple(alloc: Global, sets: &Sets, index: usize) -> Result<Word, NoMemory>
    requires inside { index < set_count sets.now * length sets.now.rows * (size sets.now.field - 1) }
    ensures is { IfOk result (λ w. w ≡ multiple_at sets.now index) }
    ensures word { IfOk result (λ w. IsWord sets.now.field sets.now.columns w) }
{
    let elements = nonzero(sets);
    let k = sets.dimension();
    let n = sets.length();
    let row = index / elements;
    let zero = Word::zero(alloc, n)?;
    let mut word = Word::zero(alloc, n)?;
    let c = (index % elements) as u8 + 1;
    word.put_sum(sets.field(), zero.symbols(), sets.row(row / k, row % k), c);
    Ok(word)
}

/// The multiple by the nonzero element `c` of row `i` of set `j`.
pub(crate) fn multiple_of<'a>(
    sets: &Sets,
    multiples: &'a [Word],
    j: usize,
    i: usize,
    c: u8,
) -> &'a Word
    requires multiples { AreMultiples sets.now multiples.now }
    requires set { j < set_count sets.now }
    requires row { i < length sets.now.rows }
    requires element { (1 ≤ c) × (c < size sets.now.field) }
    ensures is { result.now ≡ scale sets.now.field c (slice_index_or (generator_at sets.now j) i []) }
    ensures word { IsWord sets.now.field sets.now.columns result.now }
{
    &multiples[place_in(sets, j, i, c)]
}

/// The index of the multiple by the nonzero element `c` of row `i` of set `j`.
#[inline]
pub(crate) fn place_in(sets: &Sets, j: usize, i: usize, c: u8) -> usize
    requires set { j < set_count sets.now }
    requires row { i < length sets.now.rows }
    requires element { (1 ≤ c) × (c < size sets.now.field) }
    ensures is { result ≡ multiple_index sets.now j i (c - 1) }
    ensures few { result < 2 ^ 21 }
{
    let _n = sets.length();
    let _m = sets.count();
    let _f = sets.field();
    let row = j * sets.dimension() + i;
    row * nonzero(sets) + (c as usize - 1)
}
