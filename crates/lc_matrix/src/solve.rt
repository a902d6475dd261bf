//! Linear systems.
ghost use Rattle.std.specs.Prelude.{◌≡◌, ℕ, ◌+◌, ◌^◌, ◌<◌, ◌↔◌, List, [], ◌∷◌, ◌++◌, length, slice_index, slice_index_or, EachIndex, IfOk, IfSome, IsSome};
ghost use Rattle.lc_algebra.specs.Field.{size};
ghost use Rattle.lc_algebra.specs.Word.{IsWord};
ghost use Rattle.lc_algebra.specs.Matrix.{HasPivots};
ghost use Rattle.lc_matrix.specs.Solve.{augmented, Solves, IsSolutionWord};

use crate::kernel::holds;
use crate::matrix::Matrix;
use lc_field::NoMemory;
use lc_vec::Word;
use std::alloc::Global;

impl Matrix {
    /// A word whose dot with row i is symbol i of the right side, for each row: None exactly if there is none. The right
    /// side has one symbol for each row, an element of the field; the word has one for each column (any textbook of linear
    /// algebra: elimination on the augmented matrix).
    pub fn solve(&self, alloc: Global, right: &[u8]) -> Result<Option<Word>, NoMemory>
        requires right { IsWord self.now.field (length self.now.rows) right.now }
        ensures word { IfOk result (λ o. IfSome o (λ w. IsWord self.now.field self.now.columns w)) }
        ensures solves { IfOk result (λ o. IfSome o (λ w. Solves self.now.field self.now.rows right.now w)) }
        ensures exact { IfOk result
            (λ o. IsSome o ↔ ((w : List ℕ) × IsWord self.now.field self.now.columns w
            × Solves self.now.field self.now.rows right.now w)) }
    {
        let _height = self.rows();
        let matrix = self.augment(alloc, right)?;
        let (reduced, places) = matrix.pivoted(alloc)?;
        if holds(&places, self.cols()) {
            return Ok(None);
        }
        let word = reduced.solution(alloc, self.cols(), &places)?;
        Ok(Some(word))
    }

    // Each row, with its right side after it.
    #[tactic(auto, using(crate::proofs::SolutionLaws::augment_laws))]
    fn augment(&self, alloc: Global, right: &[u8]) -> Result<Matrix, NoMemory>
        requires right { IsWord self.now.field (length self.now.rows) right.now }
        ensures field { IfOk result (λ m. m.field ≡ self.now.field) }
        ensures columns { IfOk result (λ m. m.columns ≡ self.now.columns + 1) }
        ensures rows { IfOk result (λ m. m.rows ≡ augmented self.now.rows right.now) }
    {
        let mut row = vec![in alloc; 0u8; self.cols()]?;
        row.push(0)?;
        let mut matrix = Matrix::empty(alloc, self.field(), row.len())?;
        for i in 0..self.rows() {
            self.push_augmented(i, right[i], &mut row, &mut matrix)?;
        }
        Ok(matrix)
    }

    // Puts row i and its right side below the rows of the matrix; the buffer gives the room.
    #[tactic(auto, using(crate::proofs::SolveLaws::word_behind))]
    fn push_augmented(
        &self,
        i: usize,
        b: u8,
        row: &mut Vec<u8>,
        matrix: &mut Matrix,
    ) -> Result<(), NoMemory>
        requires row { i < length self.now.rows }
        requires element { b < size self.now.field }
        requires field { matrix.old.field ≡ self.now.field }
        requires columns { matrix.old.columns ≡ self.now.columns + 1 }
        requires room { length matrix.old.rows + 1 < 2 ^ 64 }
        ensures field { matrix.new.field ≡ self.now.field }
        ensures columns { matrix.new.columns ≡ self.now.columns + 1 }
        ensures rows { IfOk result
            (λ _. matrix.new.rows ≡ matrix.old.rows ++ (slice_index_or self.now.rows i [] ++ b ∷ []) ∷ []) }
    {
        row.clear();
        row.extend_from_slice(self.row(i))?;
        row.push(b)?;
        matrix.push(row)?;
        Ok(())
    }

    // The word of n symbols that is the last symbol of row i at place i, and 0 elsewhere. The rows are reduced, with these
    // pivots, none of them in the last column.
    #[tactic(auto, using(crate::proofs::SolutionLaws::solution_laws))]
    fn solution(&self, alloc: Global, n: usize, places: &[usize]) -> Result<Word, NoMemory>
        requires columns { self.now.columns ≡ n + 1 }
        requires pivots { HasPivots self.now.columns places.now self.now.rows }
        requires inside { EachIndex places.now (λ i. slice_index places.now i < n) }
        ensures is { IfOk result (λ w. IsSolutionWord self.now.field n places.now self.now.rows w) }
    {
        let mut word = vec![in alloc; 0u8; n]?;
        for i in 0..places.len() {
            word[places[i]] = self.symbol(i, n);
        }
        Ok(Word::from_vec(word))
    }
}
