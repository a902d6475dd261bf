//! What divides the weights of all words of the rows.
ghost use Rattle.std.specs.Prelude.{◌≡◌, ℕ, ◌%◌, ◌<◌, ◌↔◌, [], slice_index_or, All, AllPairs, Contains, IsTrue, length};
ghost use Rattle.std.specs.Bool.{OnTrue, OnFalse};
ghost use Rattle.lc_algebra.specs.Field.{size};
ghost use Rattle.lc_algebra.specs.Word.{weight as weight_of, word_dot};
ghost use Rattle.lc_algebra.specs.Divisor.{IsDivisible, possible_divisors, weight_divisor, divisor_of};

use crate::matrix::Matrix;
use lc_vec::{dot, weight};

impl Matrix {
    /// The number that divides the weights of all words of the rows: over 2 elements 4 if all are divisible by 4, else 2 if
    /// all are even; over 3 elements 3 if all are divisible by 3; else 1 (Ward, Divisible codes).
    ///
    /// The weights and dots of the rows alone determine it (MacWilliams and Sloane, chapter 19).
    #[tactic(auto, using(crate::proofs::DivisibleLaws::divisor_laws))]
    pub fn divisor(&self) -> u64
        ensures is { result ≡ divisor_of self.now }
    {
        match self.field().size() {
            2 => self.binary_divisor(),
            3 => self.ternary_divisor(),
            _ => 1,
        }
    }

    #[tactic(auto, using(crate::proofs::DivisibleLaws::binary_divisor_laws))]
    fn binary_divisor(&self) -> u64
        requires binary { size self.now.field ≡ 2 }
        ensures is { result ≡ weight_divisor self.now.field self.now.columns self.now.rows }
    {
        if self.is_divisible(4) {
            return 4;
        }
        if self.is_divisible(2) {
            return 2;
        }
        1
    }

    #[tactic(auto, using(crate::proofs::DivisibleLaws::ternary_divisor_laws))]
    fn ternary_divisor(&self) -> u64
        requires ternary { size self.now.field ≡ 3 }
        ensures is { result ≡ weight_divisor self.now.field self.now.columns self.now.rows }
    {
        if self.is_divisible(3) {
            return 3;
        }
        1
    }

    // Whether d divides the weight of each word of the rows. It does if it divides those of the rows, and if all dots of two
    // rows are 0, which isn't asked for 2.
    fn is_divisible(&self, d: usize) -> bool
        requires possible { Contains (possible_divisors self.now.field) d }
        ensures is { IsTrue result ↔ IsDivisible self.now.field self.now.columns self.now.rows d }
    {
        let _height = self.rows();
        if !self.rows_are_divisible(d) {
            return false;
        }
        d == 2 || self.rows_are_orthogonal()
    }

    // Whether d divides the weight of each row.
    fn rows_are_divisible(&self, d: usize) -> bool
        requires positive { 0 < d }
        ensures yes { OnTrue result (All (λ row. weight_of row % d ≡ 0) self.now.rows) }
        ensures no { OnFalse result (All (λ row. weight_of row % d ≡ 0) self.now.rows → ⊥) }
    {
        for i in 0..self.rows() {
            if weight(self.row(i)) % d != 0 {
                return false;
            }
        }
        true
    }

    // Whether the dot of every two different rows is 0.
    #[tactic(auto, using(crate::proofs::DivisorLaws::pairs_from_earlier))]
    fn rows_are_orthogonal(&self) -> bool
        ensures yes { OnTrue result (AllPairs (λ u v. word_dot self.now.field u v ≡ 0) self.now.rows) }
        ensures no { OnFalse result (AllPairs (λ u v. word_dot self.now.field u v ≡ 0) self.now.rows → ⊥) }
    {
        for j in 0..self.rows() {
            if !self.is_orthogonal_to_earlier(j) {
                return false;
            }
        }
        true
    }

    // Whether the dot of row j and each row before it is 0.
    fn is_orthogonal_to_earlier(&self, j: usize) -> bool
        requires row { j < length self.now.rows }
        ensures yes { OnTrue result
            ((i : ℕ) → i < j → word_dot self.now.field (slice_index_or self.now.rows i [])
            (slice_index_or self.now.rows j []) ≡ 0) }
        ensures no { OnFalse result
            (((i : ℕ) → i < j → word_dot self.now.field (slice_index_or self.now.rows i [])
            (slice_index_or self.now.rows j []) ≡ 0) → ⊥) }
    {
        for i in 0..j {
            if dot(self.field(), self.row(i), self.row(j)) != 0 {
                return false;
            }
        }
        true
    }
}
