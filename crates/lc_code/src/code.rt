//! Linear codes.
ghost use Rattle.std.specs.Prelude.{◌≡◌, ℕ, ◌<◌, ◌≤◌, ◌↔◌, List, [], length, IfOk, IsTrue, slice_index_or};
ghost use Rattle.lc_algebra.specs.Field.{is_symbol};
ghost use Rattle.lc_algebra.specs.Word.{IsWord};
ghost use Rattle.lc_algebra.specs.Matrix.{AreRows, IsReduced};
ghost use Rattle.lc_algebra.specs.Divisor.{divisor_of};
ghost use Rattle.lc_constructions.specs.Code.{longest, InCode, IsCode, CheckedBy};
ghost use Rattle.lc_constructions.specs.Basic.{GeneratedBy};
ghost use Rattle.lc_constructions.specs.Combined.{InDual};
ghost use Rattle.lc_code.specs.Kept.{IsCleared};

use lc_field::{Field, NoMemory};
use lc_matrix::Matrix;
use lc_vec::{Word, add_scaled, first_nonzero, weight};
use std::alloc::Global;
use std::marker::Model;

/// A linear code: a set of words of one length n, 1 to 255, over a field of at most 16 elements, closed under sums and multiples.
///
/// Contracts see it as the record of its field, its length and the rows of its reduced generator matrix, the one reduced row
/// echelon matrix whose sums of multiples of rows are the words of the code (MacWilliams and Sloane, The Theory of
/// Error-Correcting Codes, chapter 1).
#[derive(Drop)]
pub struct Code {
    matrix: Matrix,
}

impl Model for Code {
    ghost use Rattle.std.specs.Prelude.{◌≡◌};
    ghost use Rattle.lc_algebra.specs.Matrix.{Matrix};
    ghost use Rattle.lc_code.specs.Kept.{IsKept};

    ghost Value = { Matrix };

    ghost view = { λ c. c.matrix };

    ghost invariant = { λ c. IsKept c.matrix };
}

impl Code {
    /// The code of all sums of multiples of the rows, none of which need be independent of the others.
    ///
    /// The field has at most 16 elements, `n` is 1 to 255, and the rows are words of `n` symbols of the field.
    #[tactic(auto, using(crate::proofs::CodeLaws::from_rows_laws))]
    pub fn from_rows(
        alloc: Global,
        field: &Field,
        n: usize,
        rows: &[Word],
    ) -> Result<Code, NoMemory>
        requires symbol { IsTrue (is_symbol field.now) }
        requires least { 1 ≤ n }
        requires most { n ≤ longest }
        requires rows { AreRows field.now n rows.now }
        ensures code { IfOk result (λ c. IsCode field.now n (GeneratedBy field.now n rows.now) c) }
    {
        let matrix = Matrix::from_rows(alloc, field, n, rows)?;
        Ok(Code {
            matrix: matrix.echelon(alloc)?,
        })
    }

    /// The code of all words that have dot 0 with each of the checks, which need not be independent (MacWilliams and Sloane,
    /// chapter 1).
    ///
    /// The field has at most 16 elements, `n` is 1 to 255, and the checks are words of `n` symbols of the field.
    #[tactic(auto, using(crate::proofs::CodeLaws::from_checks_laws))]
    pub fn from_checks(
        alloc: Global,
        field: &Field,
        n: usize,
        checks: &[Word],
    ) -> Result<Code, NoMemory>
        requires symbol { IsTrue (is_symbol field.now) }
        requires least { 1 ≤ n }
        requires most { n ≤ longest }
        requires checks { AreRows field.now n checks.now }
        ensures code { IfOk result (λ c. IsCode field.now n (CheckedBy field.now checks.now) c) }
    {
        let matrix = Matrix::from_rows(alloc, field, n, checks)?;
        Ok(Code {
            matrix: matrix.kernel(alloc)?,
        })
    }

    /// The same code, with rows of its own.
    #[tactic(auto, using(crate::proofs::CodeLaws::rows_kept, crate::proofs::CodeLaws::same_matrix))]
    pub fn copy(&self, alloc: Global) -> Result<Code, NoMemory>
        ensures same { IfOk result (λ c. c ≡ self.now) }
    {
        let rows = copied_rows(alloc, &self.matrix)?;
        Ok(Code {
            matrix: Matrix::from_rows(alloc, self.matrix.field(), self.matrix.cols(), &rows)?,
        })
    }

    /// The field of the symbols; it has at most 16 elements.
    pub fn field(&self) -> &Field
        ensures is { result.now ≡ self.now.field }
        ensures symbol { IsTrue (is_symbol self.now.field) }
    {
        self.matrix.field()
    }

    /// The number n of symbols of each word, 1 to 255.
    pub fn length(&self) -> usize
        ensures is { result ≡ self.now.columns }
        ensures least { 1 ≤ result }
        ensures most { result ≤ longest }
    {
        self.matrix.cols()
    }

    /// The dimension k: the number of rows, at most n. The code has q^k words over a field of q elements.
    #[tactic(auto, using(crate::proofs::CodeLaws::rows_at_most))]
    pub fn dimension(&self) -> usize
        ensures is { result ≡ length self.now.rows }
        ensures most { result ≤ self.now.columns }
    {
        self.matrix.rows()
    }

    /// Row `i` of the reduced generator matrix, from 0; `i` is below the dimension.
    pub fn row(&self, i: usize) -> &[u8]
        requires inside { i < length self.now.rows }
        ensures is { result.now ≡ slice_index_or self.now.rows i [] }
        ensures word { IsWord self.now.field self.now.columns result.now }
    {
        self.matrix.row(i)
    }

    /// The reduced generator matrix: each row begins with a 1 that is alone in its column, further right than in the row above.
    pub fn matrix(&self) -> &Matrix
        ensures is { result.now ≡ self.now }
        ensures rows { AreRows self.now.field self.now.columns self.now.rows }
        ensures reduced { IsReduced self.now.columns self.now.rows }
    {
        &self.matrix
    }

    /// The number that divides the weights of the code: over 2 elements 4 if all are divisible by 4, else 2 if all are even;
    /// over 3 elements 3 if all are divisible by 3; else 1 (Ward, Divisible codes). No memory is taken.
    pub fn divisor(&self) -> u64
        ensures is { result ≡ divisor_of self.now }
    {
        self.matrix.divisor()
    }

    /// Whether the word is in the code.
    ///
    /// The word has n symbols of the field. The buffer has n symbols too, of any value, and holds any symbols afterwards; no
    /// memory is taken.
    #[tactic(auto, using(crate::proofs::TriedLaws::contains_laws))]
    pub fn contains(&self, word: &[u8], buf: &mut [u8]) -> bool
        requires word { IsWord self.now.field self.now.columns word.now }
        requires buffer { length buf.old ≡ self.now.columns }
        ensures is { IsTrue result ↔ InCode self.now word.now }
        ensures length { length buf.new ≡ length buf.old }
    {
        buf.copy_from_slice(word);
        for i in 0..self.matrix.rows() {
            clear(&self.matrix, i, buf);
        }
        weight(buf) == 0
    }

    /// The dual code: the words that have dot 0 with each word of the code (MacWilliams and Sloane, chapter 1).
    #[tactic(auto, using(crate::proofs::CodeLaws::dual_kept, crate::proofs::CodeLaws::dual_code))]
    pub fn dual(&self, alloc: Global) -> Result<Code, NoMemory>
        ensures code { IfOk result (λ c. IsCode self.now.field self.now.columns (InDual self.now) c) }
    {
        Ok(Code {
            matrix: self.matrix.kernel(alloc)?,
        })
    }
}

// The rows of a matrix, as words of their own.
fn copied_rows(alloc: Global, matrix: &Matrix) -> Result<Vec<Word>, NoMemory>
    ensures are { IfOk result (λ rows. rows.items ≡ matrix.now.rows) }
{
    let mut rows = Vec::with_capacity(alloc, matrix.rows())?;
    for i in 0..matrix.rows() {
        rows.push(Word::from_slice(alloc, matrix.row(i))?)?;
    }
    Ok(rows)
}

// Takes that multiple of row i from the word that leaves 0 where the row begins.
fn clear(matrix: &Matrix, i: usize, word: &mut [u8])
    requires inside { i < length matrix.now.rows }
    requires rows { AreRows matrix.now.field matrix.now.columns matrix.now.rows }
    requires word { IsWord matrix.now.field matrix.now.columns word.old }
    ensures cleared { IsCleared matrix.now i word.old word.new }
    ensures fits { IsWord matrix.now.field matrix.now.columns word.new }
{
    let field = matrix.field();
    let row = matrix.row(i);
    if let Some(p) = first_nonzero(row) {
        let c = field.neg(word[p]);
        add_scaled(field, word, row, c);
    }
}

// Proved only where its argument may go to another thread and be shared with it.
fn crosses_threads<T: Send + Sync>(_value: &T) {}

// A code is `Send` and `Sync`.
fn code_crosses_threads(code: &Code) {
    crosses_threads(code);
}
