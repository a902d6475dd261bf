//! What all blocks of a search share, and its phases.

ghost use Rattle.std.specs.Prelude.{◌≡◌, ℕ, ◌+◌, ◌-◌, ◌<◌, ◌≤◌, List, [], length, slice_index_or, IfOk};
ghost use Rattle.lc_algebra.specs.Word.{IsWord, zero_word};
ghost use Rattle.lc_algebra.specs.Span.{combine, AreIndependent};
ghost use Rattle.lc_algebra.specs.Matrix.{AreRows};
ghost use Rattle.lc_algebra.specs.SpanLaws.{restrict};
ghost use Rattle.lc_enumeration.specs.Search.{set_count, generator_at};
ghost use Rattle.lc_infoset.specs.Bound.{set_at};
ghost use Rattle.lc_coset.specs.Near.{near_left, AreLefts};

use lc_field::NoMemory;
use lc_infoset::Sets;
use lc_place::Plan;
use lc_vec::{Word, add_scaled};
use std::alloc::Global;

/// The information sets of a code, a word, and what the first word of each set leaves of it.
#[derive(Drop)]
pub(crate) struct Given {
    pub(crate) sets: Sets,
    pub(crate) word: Word,
    pub(crate) lefts: Vec<Word>,
}

/// What all blocks of a search share: the information sets of the code, a plan that steps through the error patterns, the
/// given word, and what the first word of each set leaves of it.
#[derive(Drop)]
pub(crate) struct Frame {
    pub(crate) sets: Sets,
    pub(crate) plan: Plan,
    pub(crate) word: Word,
    pub(crate) lefts: Vec<Word>,
}

/// What the first word of each set leaves of a word: the word of the code that equals it on the basis.
pub(crate) fn lefts_of(alloc: Global, sets: &Sets, word: &Word) -> Result<Vec<Word>, NoMemory>
    requires word { IsWord sets.now.field sets.now.columns word.now }
    ensures are { IfOk result (λ ls. AreLefts sets.now word.now ls.items) }
{
    let many = sets.count();
    let mut lefts = Vec::with_capacity(alloc, many)?;
    for j in 0..many {
        lefts.push(left_of(alloc, sets, word, j)?)?;
    }
    Ok(lefts)
}

// What the first word of a set leaves of a word.
fn left_of(alloc: Global, sets: &Sets, word: &Word, j: usize) -> Result<Word, NoMemory>
    requires set { j < set_count sets.now }
    requires word { IsWord sets.now.field sets.now.columns word.now }
    ensures is { IfOk result (λ w. w ≡ near_left sets.now word.now j) }
{
    let _k = sets.dimension();
    let n = sets.length();
    let field = sets.field();
    let mut first = vec![in alloc; 0u8; n]?;
    add_first(sets, word.symbols(), j, &mut first);
    let mut left = Word::zero(alloc, n)?;
    left.put_sum(field, word.symbols(), &first, field.neg(1));
    Ok(left)
}

// Makes a zero word the first word of a set: the word of the code that equals `word` on the basis.
fn add_first(sets: &Sets, word: &[u8], j: usize, first: &mut [u8])
    requires set { j < set_count sets.now }
    requires word { IsWord sets.now.field sets.now.columns word.now }
    requires zero { first.old ≡ zero_word sets.now.columns }
    ensures is { first.new ≡ combine sets.now.field sets.now.columns (restrict (set_at sets.now j).basis word.now)
        (generator_at sets.now j) }
{
    let basis = sets.basis(j);
    let mut i = sets.dimension();
    while i > 0 {
        i -= 1;
        add_scaled(sets.field(), first, sets.row(j, i), word[basis[i]]);
    }
}
