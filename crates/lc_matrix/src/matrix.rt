//! A matrix, with its rows in one flat array.
ghost use Rattle.std.specs.Prelude.{◌≡◌, ℕ, ◌+◌, ◌^◌, ◌<◌, ◌≤◌, List, [], ◌∷◌, ◌++◌, length, set, take, slice_index_or, All, IfOk, OnErr, IsErr};
ghost use Rattle.lc_algebra.specs.Field.{size};
ghost use Rattle.lc_algebra.specs.Word.{Fits, IsWord, word_sum, scale as scale_of};
ghost use Rattle.lc_algebra.specs.Matrix.{AreRows, entry};

use lc_field::{Field, NoMemory};
use lc_vec::{Word, add_scaled, scale};
use std::alloc::Global;
use std::marker::Model;

/// A matrix: a field, a number of columns and a list of rows, which are words of that many symbols over the field.
///
/// Contracts see it as the record `Matrix` of `lc_algebra`: field, columns and rows. There may be no row, and no column.
#[derive(Drop)]
pub struct Matrix {
    field: Field,
    width: usize,
    height: usize,
    symbols: Vec<u8>,
}

impl Model for Matrix {
    ghost use Rattle.lc_algebra.specs.Matrix.{Matrix as MatrixValue};
    ghost use Rattle.lc_matrix.specs.Rows.{rows_of, IsFlat};

    ghost Value = { MatrixValue };

    ghost view = { λ m. record { field = m.field; columns = m.width; rows = rows_of m.width m.height m.symbols.items } };

    ghost invariant = { λ m. IsFlat m.field m.width m.height m.symbols.items };
}

impl Matrix {
    /// The matrix of these rows over the field. Each row has `cols` symbols, elements of the field; there may be no row, and
    /// no column.
    pub fn from_rows(
        alloc: Global,
        field: &Field,
        cols: usize,
        rows: &[Word],
    ) -> Result<Matrix, NoMemory>
        requires words { AreRows field.now cols rows.now }
        ensures field { IfOk result (λ m. m.field ≡ field.now) }
        ensures columns { IfOk result (λ m. m.columns ≡ cols) }
        ensures rows { IfOk result (λ m. m.rows ≡ rows.now) }
    {
        let mut matrix = Matrix::empty(alloc, field, cols)?;
        for row in rows {
            matrix.push(row.symbols())?;
        }
        Ok(matrix)
    }

    /// The field of the symbols.
    pub fn field(&self) -> &Field
        ensures is { result.now ≡ self.now.field }
    {
        &self.field
    }

    /// The number of rows.
    #[tactic(auto, using(crate::proofs::FlatLaws::rows_laws))]
    pub fn rows(&self) -> usize
        ensures is { result ≡ length self.now.rows }
        ensures words { AreRows self.now.field self.now.columns self.now.rows }
    {
        self.height
    }

    /// The number of columns.
    pub fn cols(&self) -> usize
        ensures is { result ≡ self.now.columns }
    {
        self.width
    }

    /// The symbols of row `i`, from the left. There is a row `i`: rows are counted from 0.
    #[tactic(auto, using(crate::proofs::FlatLaws::row_laws))]
    pub fn row(&self, i: usize) -> &[u8]
        requires row { i < length self.now.rows }
        ensures is { result.now ≡ slice_index_or self.now.rows i [] }
        ensures word { IsWord self.now.field self.now.columns result.now }
    {
        &self.symbols[i * self.width..i * self.width + self.width]
    }

    // The matrix without rows.
    #[tactic(auto, using(crate::proofs::FlatLaws::rows_none, crate::proofs::FlatLaws::flat_none))]
    pub(crate) fn empty(alloc: Global, field: &Field, cols: usize) -> Result<Matrix, NoMemory>
        ensures field { IfOk result (λ m. m.field ≡ field.now) }
        ensures columns { IfOk result (λ m. m.columns ≡ cols) }
        ensures rows { IfOk result (λ m. m.rows ≡ []) }
    {
        Ok(Matrix {
            field: field.copy(alloc)?,
            width: cols,
            height: 0,
            symbols: Vec::new(alloc),
        })
    }

    // A further row, below the others.
    #[tactic(auto, using(crate::proofs::FlatLaws::push_laws))]
    pub(crate) fn push(&mut self, row: &[u8]) -> Result<(), NoMemory>
        requires room { length self.old.rows + 1 < 2 ^ 64 }
        requires word { IsWord self.old.field self.old.columns row.now }
        ensures field { self.new.field ≡ self.old.field }
        ensures columns { self.new.columns ≡ self.old.columns }
        ensures rows { IfOk result (λ _. self.new.rows ≡ self.old.rows ++ row.now ∷ []) }
    {
        self.symbols.extend_from_slice(row)?;
        self.height += 1;
        Ok(())
    }

    // The symbol of row i at column c.
    pub(crate) fn symbol(&self, i: usize, c: usize) -> u8
        requires row { i < length self.now.rows }
        requires column { c < self.now.columns }
        ensures is { result ≡ entry self.now.rows i c }
        ensures below { result < size self.now.field }
    {
        self.row(i)[c]
    }

    // Adds c times the word to row i.
    #[tactic(auto, using(crate::proofs::FlatLaws::add_to_row_laws))]
    pub(crate) fn add_to_row(&mut self, i: usize, from: &[u8], c: u8)
        requires row { i < length self.old.rows }
        requires word { IsWord self.old.field self.old.columns from.now }
        requires element { c < size self.old.field }
        ensures field { self.new.field ≡ self.old.field }
        ensures columns { self.new.columns ≡ self.old.columns }
        ensures rows { self.new.rows
            ≡ set self.old.rows i
            (word_sum self.old.field (slice_index_or self.old.rows i []) (scale_of self.old.field c from.now)) }
    {
        let start = i * self.width;
        add_scaled(
            &self.field,
            &mut self.symbols[start..start + self.width],
            from,
            c,
        );
    }

    // Multiplies row i by c.
    #[tactic(auto, using(crate::proofs::FlatLaws::add_to_row_laws))]
    pub(crate) fn scale_row(&mut self, i: usize, c: u8)
        requires row { i < length self.old.rows }
        requires element { c < size self.old.field }
        ensures field { self.new.field ≡ self.old.field }
        ensures columns { self.new.columns ≡ self.old.columns }
        ensures rows { self.new.rows
            ≡ set self.old.rows i (scale_of self.old.field c (slice_index_or self.old.rows i [])) }
    {
        let start = i * self.width;
        scale(&self.field, &mut self.symbols[start..start + self.width], c);
    }

    // Leaves the first k rows.
    #[tactic(auto, using(crate::proofs::FlatLaws::keep_laws))]
    pub(crate) fn keep(&mut self, k: usize)
        requires count { k ≤ length self.old.rows }
        ensures field { self.new.field ≡ self.old.field }
        ensures columns { self.new.columns ≡ self.old.columns }
        ensures rows { self.new.rows ≡ take k self.old.rows }
    {
        self.symbols.truncate(k * self.width);
        self.height = k;
    }

    /// The same matrix, with a field and rows of its own.
    pub fn copy(&self, alloc: Global) -> Result<Matrix, NoMemory>
        ensures same { IfOk result (λ m. m ≡ self.now) }
    {
        Ok(Matrix {
            field: self.field.copy(alloc)?,
            width: self.width,
            height: self.height,
            symbols: self.symbols.to_vec(alloc)?,
        })
    }
}

// Proved only where its argument may go to another thread and be shared with it.
fn crosses_threads<T: Send + Sync>(_value: &T) {}

// A matrix is `Send` and `Sync`.
fn matrix_crosses_threads(matrix: &Matrix) {
    crosses_threads(matrix);
}
