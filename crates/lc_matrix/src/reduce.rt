//! Elimination over a list of columns.
ghost use Rattle.std.specs.Prelude.{◌≡◌, ◌≢◌, ℕ, ◌+◌, ◌<◌, ◌≤◌, [], length, set, slice_index, slice_index_or, All, IfOk, IfSome, IfNone};
ghost use Rattle.std.specs.Bool.{OnTrue, OnFalse};
ghost use Rattle.lc_algebra.specs.Field.{neg};
ghost use Rattle.lc_algebra.specs.Word.{IsWord, word_sum, scale};
ghost use Rattle.lc_algebra.specs.Span.{SameSpan};
ghost use Rattle.lc_algebra.specs.Matrix.{AreRows, entry};
ghost use Rattle.lc_matrix.specs.Elimination.{KeepsWords, IsClearedTo, IsReducedTo};

use crate::matrix::Matrix;
use lc_field::NoMemory;
use std::alloc::Global;

impl Matrix {
    // Row-reduces, trying columns in `order`. Returns, for each pivot row, the index in `order` of its pivot column.
    #[tactic(auto, using(crate::proofs::EliminationLaws::reduce_laws))]
    pub(crate) fn reduce(&mut self, alloc: Global, order: &[usize]) -> Result<Vec<usize>, NoMemory>
        requires inside { All (λ c. c < self.old.columns) order.now }
        ensures field { self.new.field ≡ self.old.field }
        ensures columns { self.new.columns ≡ self.old.columns }
        ensures count { length self.new.rows ≡ length self.old.rows }
        ensures words { AreRows self.new.field self.new.columns self.new.rows }
        ensures same { SameSpan self.old.field self.old.columns self.old.rows self.new.rows }
        ensures reduced { IfOk result (λ at. IsReducedTo order.now (length order.now) at.items self.new.rows) }
    {
        let _height = self.rows();
        let mut at = Vec::new(alloc);
        let mut pivot = vec![in alloc; 0u8; self.cols()]?;
        for t in 0..order.len() {
            self.read_column(order, t, &mut at, &mut pivot)?;
        }
        Ok(at)
    }

    // Reads the column at place t of the order, and takes the place at which the column isn't 0 from the rows on that have none.
    #[tactic(auto, using(crate::proofs::EliminationLaws::read_column_laws))]
    fn read_column(
        &mut self,
        order: &[usize],
        t: usize,
        at: &mut Vec<usize>,
        pivot: &mut [u8],
    ) -> Result<(), NoMemory>
        requires inside { All (λ c. c < self.old.columns) order.now }
        requires place { t < length order.now }
        requires state { IsReducedTo order.now t at.old.items self.old.rows }
        requires room { length pivot.old ≡ self.old.columns }
        ensures field { self.new.field ≡ self.old.field }
        ensures columns { self.new.columns ≡ self.old.columns }
        ensures count { length self.new.rows ≡ length self.old.rows }
        ensures words { AreRows self.new.field self.new.columns self.new.rows }
        ensures same { SameSpan self.old.field self.old.columns self.old.rows self.new.rows }
        ensures state { IfOk result (λ _. IsReducedTo order.now (t + 1) at.new.items self.new.rows) }
    {
        if !self.take_column(at.len(), order[t], pivot) {
            return Ok(());
        }
        at.push(t)?;
        Ok(())
    }

    // Makes column `c` a pivot column with its 1 in row `r`, using the rows `r..`. Returns false, changing nothing, if they are
    // all 0 there.
    #[tactic(auto, using(crate::proofs::EliminationLaws::take_column_laws))]
    fn take_column(&mut self, r: usize, c: usize, pivot: &mut [u8]) -> bool
        requires column { c < self.old.columns }
        requires room { length pivot.old ≡ self.old.columns }
        ensures field { self.new.field ≡ self.old.field }
        ensures columns { self.new.columns ≡ self.old.columns }
        ensures keeps { KeepsWords self.old.field self.old.columns r self.old.rows self.new.rows }
        ensures row { OnTrue result (r < length self.old.rows) }
        ensures leads { OnTrue result (entry self.new.rows r c ≡ 1) }
        ensures clears { OnTrue result ((j : ℕ) → j < length self.old.rows → r ≢ j → entry self.new.rows j c ≡ 0) }
        ensures nothing { OnFalse result (self.new.rows ≡ self.old.rows) }
        ensures zeros { OnFalse result ((j : ℕ) → r ≤ j → j < length self.old.rows → entry self.old.rows j c ≡ 0) }
    {
        let _height = self.rows();
        match self.find(r, c) {
            Some(i) => {
                self.lead(r, i, c, pivot);
                self.clear(r, c, pivot);
                true
            }
            None => false,
        }
    }

    // The first row from r on that isn't 0 at column c.
    fn find(&self, r: usize, c: usize) -> Option<usize>
        requires column { c < self.now.columns }
        ensures from { IfSome result (λ i. r ≤ i) }
        ensures row { IfSome result (λ i. i < length self.now.rows) }
        ensures nonzero { IfSome result (λ i. 0 < entry self.now.rows i c) }
        ensures first { IfSome result (λ i. (j : ℕ) → r ≤ j → j < i → entry self.now.rows j c ≡ 0) }
        ensures none { IfNone result ((j : ℕ) → r ≤ j → j < length self.now.rows → entry self.now.rows j c ≡ 0) }
    {
        for i in r..self.rows() {
            if self.symbol(i, c) != 0 {
                return Some(i);
            }
        }
        None
    }

    // Makes the symbol of row r at column c a 1 and lends the row in the buffer; row i is the first from r on that isn't 0 there.
    #[tactic(auto, using(crate::proofs::EliminationLaws::lead_laws))]
    fn lead(&mut self, r: usize, i: usize, c: usize, pivot: &mut [u8])
        requires column { c < self.old.columns }
        requires from { r ≤ i }
        requires row { i < length self.old.rows }
        requires nonzero { 0 < entry self.old.rows i c }
        requires first { (j : ℕ) → r ≤ j → j < i → entry self.old.rows j c ≡ 0 }
        requires room { length pivot.old ≡ self.old.columns }
        ensures field { self.new.field ≡ self.old.field }
        ensures columns { self.new.columns ≡ self.old.columns }
        ensures keeps { KeepsWords self.old.field self.old.columns r self.old.rows self.new.rows }
        ensures leads { entry self.new.rows r c ≡ 1 }
        ensures lent { pivot.new ≡ slice_index_or self.new.rows r [] }
    {
        self.raise(r, i, c, pivot);
        let inverse = self.field().inv(self.symbol(r, c));
        self.scale_row(r, inverse);
        pivot.copy_from_slice(self.row(r));
    }

    // Makes the symbol of row r at column c nonzero; row i is the first from r on that isn't 0 there.
    #[tactic(auto, using(crate::proofs::EliminationLaws::raise_laws))]
    fn raise(&mut self, r: usize, i: usize, c: usize, pivot: &mut [u8])
        requires column { c < self.old.columns }
        requires from { r ≤ i }
        requires row { i < length self.old.rows }
        requires nonzero { 0 < entry self.old.rows i c }
        requires first { (j : ℕ) → r ≤ j → j < i → entry self.old.rows j c ≡ 0 }
        requires room { length pivot.old ≡ self.old.columns }
        ensures field { self.new.field ≡ self.old.field }
        ensures columns { self.new.columns ≡ self.old.columns }
        ensures keeps { KeepsWords self.old.field self.old.columns r self.old.rows self.new.rows }
        ensures nonzero { 0 < entry self.new.rows r c }
    {
        let _height = self.rows();
        if r == i {
            return;
        }
        pivot.copy_from_slice(self.row(i));
        self.add_to_row(r, pivot, 1);
    }

    // Makes column `c` 0 in all rows but row `r`, which has a 1 there and is the word in `pivot`.
    #[tactic(auto, using(crate::proofs::EliminationLaws::clear_laws))]
    fn clear(&mut self, r: usize, c: usize, pivot: &[u8])
        requires column { c < self.old.columns }
        requires row { r < length self.old.rows }
        requires leads { entry self.old.rows r c ≡ 1 }
        requires lent { pivot.now ≡ slice_index_or self.old.rows r [] }
        requires word { IsWord self.old.field self.old.columns pivot.now }
        ensures field { self.new.field ≡ self.old.field }
        ensures columns { self.new.columns ≡ self.old.columns }
        ensures keeps { KeepsWords self.old.field self.old.columns r self.old.rows self.new.rows }
        ensures leads { entry self.new.rows r c ≡ 1 }
        ensures clears { (j : ℕ) → j < length self.old.rows → r ≢ j → entry self.new.rows j c ≡ 0 }
    {
        for j in 0..self.rows() {
            self.clear_row(j, r, c, pivot);
        }
    }

    // Makes row `j` 0 at column `c` with the word in `pivot`, which has a 1 there. Leaves row `r` as it is.
    #[tactic(auto, using(crate::proofs::EliminationLaws::nothing_cleared))]
    fn clear_row(&mut self, j: usize, r: usize, c: usize, pivot: &[u8])
        requires column { c < self.old.columns }
        requires row { j < length self.old.rows }
        requires word { IsWord self.old.field self.old.columns pivot.now }
        ensures field { self.new.field ≡ self.old.field }
        ensures columns { self.new.columns ≡ self.old.columns }
        ensures left { j ≡ r → self.new.rows ≡ self.old.rows }
        ensures cleared { j ≢ r →
            self.new.rows ≡ set self.old.rows j
            (word_sum self.old.field (slice_index_or self.old.rows j [])
            (scale self.old.field (neg self.old.field (entry self.old.rows j c)) pivot.now)) }
    {
        if j == r {
            return;
        }
        let a = self.symbol(j, c);
        if a == 0 {
            let _row = self.row(j);
            return;
        }
        let b = self.field().neg(a);
        self.add_to_row(j, pivot, b);
    }
}
