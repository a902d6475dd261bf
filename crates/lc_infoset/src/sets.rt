//! The information sets of a code.

ghost use Rattle.std.specs.Prelude.{◌≡◌, ℕ, ◌+◌, ◌<◌, ◌≤◌, ◌++◌, List, [], length, slice_index_or, All, IsTrue, IfOk};
ghost use Rattle.std.specs.Bool.{OnTrue, OnFalse};
ghost use Rattle.lc_algebra.specs.Field.{is_symbol};
ghost use Rattle.lc_algebra.specs.Word.{IsWord};
ghost use Rattle.lc_algebra.specs.Span.{AreIndependent};
ghost use Rattle.lc_algebra.specs.Matrix.{AreRows};
ghost use Rattle.lc_algebra.specs.Divisor.{divisor_of};
ghost use Rattle.lc_enumeration.specs.Search.{set_count, generator_at};
ghost use Rattle.lc_infoset.specs.Bound.{set_at};
ghost use Rattle.lc_infoset.specs.Kept.{SetState, states_after};

use crate::choose::{next_set, unused_columns};
use crate::kept::KeptSet;
use lc_field::{Field, NoMemory};
use lc_matrix::Matrix;
use std::alloc::Global;
use std::marker::Model;

/// The information sets of a code, each with the columns that it brings first and with the rows of the code that are the
/// identity on it (Grassl, Searching for linear codes with large minimum distance).
///
/// Contracts see it as the code: its field, its length and the independent rows that it was built from. The sets are those of
/// `lc_enumeration` for this code.
#[derive(Drop)]
pub struct Sets {
    code: Matrix,
    divisor: u64,
    sets: Vec<KeptSet>,
}

impl Model for Sets {
    ghost use Rattle.lc_algebra.specs.Matrix.{Matrix};
    ghost use Rattle.lc_infoset.specs.Kept.{IsKept};

    ghost Value = { Matrix };

    ghost view = { λ s. s.code };

    ghost invariant = { λ s. IsKept s.code s.divisor s.sets.items };
}

impl Sets {
    /// The information sets of the code of the rows, each with its fresh columns and its generator matrix: the first one, and
    /// each next one as long as its fresh columns are at least half of k.
    ///
    /// The field has at most 16 elements, there are 1 to 255 columns, and at least one row, and the rows are independent, as
    /// those of a code's matrix are.
    #[tactic(auto, using(crate::proofs::BuildLaws::all_states))]
    pub fn build(alloc: Global, rows: &Matrix) -> Result<Sets, NoMemory>
        requires symbol { IsTrue (is_symbol rows.now.field) }
        requires least { 1 ≤ rows.now.columns }
        requires most { rows.now.columns ≤ 255 }
        requires some { 0 < length rows.now.rows }
        requires independent { AreIndependent rows.now.field rows.now.columns rows.now.rows }
        ensures code { IfOk result (λ s. s ≡ rows.now) }
    {
        let _height = rows.rows();
        let mut used = Vec::new(alloc);
        let mut sets = Vec::new(alloc);
        let first = next_set(alloc, rows, &used)?;
        used.extend_from_slice(&first.fresh)?;
        sets.push(first)?;
        push_sets(alloc, rows, &mut used, &mut sets)?;
        Ok(Sets {
            code: rows.copy(alloc)?,
            divisor: rows.divisor(),
            sets,
        })
    }

    /// The code that the sets are of: the matrix that they were built from.
    pub fn code(&self) -> &Matrix
        ensures is { result.now ≡ self.now }
    {
        &self.code
    }

    /// The field of the symbols; it has at most 16 elements.
    pub fn field(&self) -> &Field
        ensures is { result.now ≡ self.now.field }
        ensures symbol { IsTrue (is_symbol self.now.field) }
    {
        self.code.field()
    }

    /// The dimension k of the code, at least 1.
    #[tactic(auto, using(crate::proofs::KeptLaws::dimension_few))]
    pub fn dimension(&self) -> usize
        ensures is { result ≡ length self.now.rows }
        ensures least { 1 ≤ result }
        ensures most { result ≤ self.now.columns }
        ensures rows { AreRows self.now.field self.now.columns self.now.rows }
        ensures independent { AreIndependent self.now.field self.now.columns self.now.rows }
    {
        self.code.rows()
    }

    /// The length n of the code, 1 to 255.
    pub fn length(&self) -> usize
        ensures is { result ≡ self.now.columns }
        ensures least { 1 ≤ result }
        ensures most { result ≤ 255 }
    {
        self.code.cols()
    }

    /// The number of sets, 1 to n.
    #[tactic(auto, using(crate::proofs::KeptLaws::count_laws))]
    pub fn count(&self) -> usize
        ensures is { result ≡ set_count self.now }
        ensures least { 1 ≤ result }
        ensures most { result ≤ self.now.columns }
    {
        self.sets.len()
    }

    /// The k columns of set `j`, rising: an information set. Sets are counted from 0, and there is a set `j`.
    pub fn basis(&self, j: usize) -> &[usize]
        requires set { j < set_count self.now }
        ensures is { result.now ≡ (set_at self.now j).basis }
        ensures count { length result.now ≡ length self.now.rows }
        ensures inside { All (λ c. c < self.now.columns) result.now }
    {
        &self.set(j).basis
    }

    /// The columns that set `j` brings first, rising: those of its basis that no earlier set brought. There is a set `j`.
    pub fn fresh(&self, j: usize) -> &[usize]
        requires set { j < set_count self.now }
        ensures is { result.now ≡ (set_at self.now j).fresh }
        ensures few { length result.now ≤ length self.now.rows }
    {
        &self.set(j).fresh
    }

    /// Row `i` of the generator matrix of set `j`: the word of the code that is 1 at column `i` of the basis and 0 at its
    /// others. There is a set `j`, and `i` is below the dimension.
    pub fn row(&self, j: usize, i: usize) -> &[u8]
        requires set { j < set_count self.now }
        requires row { i < length self.now.rows }
        ensures is { result.now ≡ slice_index_or (generator_at self.now j) i [] }
        ensures word { IsWord self.now.field self.now.columns result.now }
    {
        self.set(j).generator.row(i)
    }

    // Set j with its generator.
    #[tactic(auto, using(crate::proofs::KeptLaws::set_laws))]
    fn set(&self, j: usize) -> &KeptSet
        requires set { j < set_count self.now }
        ensures basis { result.now.set.basis ≡ (set_at self.now j).basis }
        ensures fresh { result.now.set.fresh ≡ (set_at self.now j).fresh }
        ensures generator { result.now.generator.rows ≡ generator_at self.now j }
        ensures field { result.now.generator.field ≡ self.now.field }
        ensures columns { result.now.generator.columns ≡ self.now.columns }
        ensures count { length result.now.set.basis ≡ length self.now.rows }
        ensures inside { All (λ c. c < self.now.columns) result.now.set.basis }
        ensures few { length result.now.set.fresh ≤ length self.now.rows }
        ensures rows { length result.now.generator.rows ≡ length self.now.rows }
    {
        &self.sets[j]
    }

    /// The number that divides the weights of the code: over 2 elements 4 if all are divisible by 4, else 2 if all are even;
    /// over 3 elements 3 if all are divisible by 3; else 1 (Ward, Divisible codes).
    #[tactic(auto, using(crate::proofs::KeptLaws::divisor_laws))]
    pub fn divisor(&self) -> u64
        ensures is { result ≡ divisor_of self.now }
        ensures least { 1 ≤ result }
        ensures most { result ≤ 4 }
    {
        self.divisor
    }
}

// Pushes the sets after those whose fresh columns are used. No more than n of them have a fresh column.
#[tactic(auto, using(crate::proofs::BuildLaws::none_after))]
fn push_sets(
    alloc: Global,
    code: &Matrix,
    used: &mut Vec<usize>,
    sets: &mut Vec<KeptSet>,
) -> Result<(), NoMemory>
    requires independent { AreIndependent code.now.field code.now.columns code.now.rows }
    ensures are { IfOk result
        (λ _. sets.new.items ≡ sets.old.items ++ states_after code.now used.old.items code.now.columns) }
{
    for _i in 0..code.cols() {
        if !push_next(alloc, code, used, sets)? {
            return Ok(());
        }
    }
    Ok(())
}

// Pushes the next set if its fresh columns are at least half of k, and uses them. Returns whether it did. The set isn't looked for
// if the columns that aren't used are fewer than half of k.
#[tactic(auto, using(crate::proofs::BuildLaws::one_after, crate::proofs::BuildLaws::short_after))]
fn push_next(
    alloc: Global,
    code: &Matrix,
    used: &mut Vec<usize>,
    sets: &mut Vec<KeptSet>,
) -> Result<bool, NoMemory>
    requires independent { AreIndependent code.now.field code.now.columns code.now.rows }
    ensures more { IfOk result
        (λ more. OnTrue more ((m : ℕ) → sets.old.items ++ states_after code.now used.old.items (m + 1)
        ≡ sets.new.items ++ states_after code.now used.new.items m)) }
    ensures done { IfOk result
        (λ more. OnFalse more
        ((m : ℕ) → sets.old.items ++ states_after code.now used.old.items (m + 1) ≡ sets.new.items)) }
    ensures kept { IfOk result (λ more. OnFalse more (used.new.items ≡ used.old.items)) }
{
    if has_too_few(alloc, code, used)? {
        return Ok(false);
    }
    let set = next_set(alloc, code, used)?;
    if 2 * set.fresh.len() < code.rows() {
        return Ok(false);
    }
    used.extend_from_slice(&set.fresh)?;
    sets.push(set)?;
    Ok(true)
}

// Whether the columns that aren't used are fewer than half of k.
fn has_too_few(alloc: Global, code: &Matrix, used: &[usize]) -> Result<bool, NoMemory>
    ensures few { IfOk result
        (λ few. OnTrue few ((old : List SetState) (m : ℕ) → old ++ states_after code.now used.now (m + 1) ≡ old)) }
{
    let n = code.cols();
    let unused = unused_columns(alloc, n, used)?;
    Ok(2 * unused.len() < code.rows())
}

// Proved only where its argument may go to another thread and be shared with it.
fn crosses_threads<T: Send + Sync>(_value: &T) {}

// The sets are `Send` and `Sync`.
fn sets_cross_threads(sets: &Sets) {
    crosses_threads(sets);
}
