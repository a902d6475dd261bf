//! Reduced forms, ranks, systematic matrices and spans.
ghost use Rattle.std.specs.Prelude.{◌≡◌, ℕ, ◌+◌, ◌<◌, ◌↔◌, List, [], length, map, slice_index, slice_index_or, All, IfOk, IfSome, IsSome, IsTrue};
ghost use Rattle.lc_algebra.specs.Field.{neg};
ghost use Rattle.lc_algebra.specs.Word.{IsWord, word_sum, scale};
ghost use Rattle.lc_algebra.specs.Span.{InSpan, SameSpan};
ghost use Rattle.lc_algebra.specs.Matrix.{AreRows, HasPivots, IsEchelon, IsSystematic, AreIndependentColumns};
ghost use Rattle.lc_matrix.specs.Elimination.{IsReducedTo, IsInOrder, IsRest};

use crate::matrix::Matrix;
use lc_field::NoMemory;
use lc_vec::{add_scaled, weight};
use std::alloc::Global;

impl Matrix {
    /// The reduced row echelon form: the one matrix with the same words whose rows begin with a 1 that is alone in its column,
    /// at rising columns, without zero rows (MacWilliams and Sloane, chapter 1; any textbook of linear algebra).
    pub fn echelon(&self, alloc: Global) -> Result<Matrix, NoMemory>
        ensures field { IfOk result (λ m. m.field ≡ self.now.field) }
        ensures columns { IfOk result (λ m. m.columns ≡ self.now.columns) }
        ensures echelon { IfOk result (λ m. IsEchelon self.now.field self.now.columns self.now.rows m.rows) }
    {
        let (matrix, _places) = self.pivoted(alloc)?;
        Ok(matrix)
    }

    /// The rank: the number of rows of the reduced row echelon form.
    pub fn rank(&self, alloc: Global) -> Result<usize, NoMemory>
        ensures is { IfOk result (λ r. (e : List (List ℕ)) → IsEchelon self.now.field self.now.columns self.now.rows e →
            length e ≡ r) }
    {
        let matrix = self.echelon(alloc)?;
        Ok(matrix.rows())
    }

    /// The matrix with the same words that is the identity on the columns of the set, in its order: None exactly if these
    /// columns are dependent. The set has one column for each row, each below the number of columns.
    pub fn systematic_on(&self, alloc: Global, set: &[usize]) -> Result<Option<Matrix>, NoMemory>
        requires count { length set.now ≡ length self.now.rows }
        requires inside { All (λ c. c < self.now.columns) set.now }
        ensures field { IfOk result (λ o. IfSome o (λ m. m.field ≡ self.now.field)) }
        ensures columns { IfOk result (λ o. IfSome o (λ m. m.columns ≡ self.now.columns)) }
        ensures systematic { IfOk result
            (λ o. IfSome o (λ m. IsSystematic self.now.field self.now.columns self.now.rows set.now m.rows)) }
        ensures exact { IfOk result (λ o. IsSome o ↔ AreIndependentColumns self.now.field self.now.rows set.now) }
    {
        let _height = self.rows();
        let mut matrix = self.copy(alloc)?;
        let at = matrix.reduce(alloc, set)?;
        if at.len() < set.len() {
            return Ok(None);
        }
        Ok(Some(matrix))
    }

    /// Row-reduces the rows, trying the columns in `order`. Returns the rows that come of it, the last of which may be zero on the
    /// order, and for each row that isn't the index in `order` of its pivot column. If the order leaves columns out, other rows may
    /// come of it as well.
    pub fn reduced_in(
        &self,
        alloc: Global,
        order: &[usize],
    ) -> Result<(Matrix, Vec<usize>), NoMemory>
        requires inside { All (λ c. c < self.now.columns) order.now }
        ensures field { IfOk result (λ p. p.0.field ≡ self.now.field) }
        ensures columns { IfOk result (λ p. p.0.columns ≡ self.now.columns) }
        ensures count { IfOk result (λ p. length p.0.rows ≡ length self.now.rows) }
        ensures words { IfOk result (λ p. AreRows self.now.field self.now.columns p.0.rows) }
        ensures same { IfOk result (λ p. SameSpan self.now.field self.now.columns self.now.rows p.0.rows) }
        ensures reduced { IfOk result (λ p. IsReducedTo order.now (length order.now) p.1.items p.0.rows) }
    {
        let mut matrix = self.copy(alloc)?;
        let at = matrix.reduce(alloc, order)?;
        Ok((matrix, at))
    }

    /// The matrix of the rows at these indexes, in their order.
    pub fn rows_at(&self, alloc: Global, indexes: &[usize]) -> Result<Matrix, NoMemory>
        requires inside { All (λ i. i < length self.now.rows) indexes.now }
        ensures field { IfOk result (λ m. m.field ≡ self.now.field) }
        ensures columns { IfOk result (λ m. m.columns ≡ self.now.columns) }
        ensures rows { IfOk result (λ m. m.rows ≡ map (λ i. slice_index_or self.now.rows i []) indexes.now) }
    {
        let mut matrix = Matrix::empty(alloc, self.field(), self.cols())?;
        for i in indexes {
            matrix.push(self.row(*i))?;
        }
        Ok(matrix)
    }

    /// Whether the word is a sum of multiples of the rows. It has one symbol for each column, an element of the field.
    pub fn in_span(&self, alloc: Global, word: &[u8]) -> Result<bool, NoMemory>
        requires word { IsWord self.now.field self.now.columns word.now }
        ensures is { IfOk result
            (λ inside. IsTrue inside ↔ InSpan self.now.field self.now.columns self.now.rows word.now) }
    {
        let (matrix, places) = self.pivoted(alloc)?;
        let mut rest = Vec::from_slice(alloc, word)?;
        Ok(matrix.has(&places, &mut rest))
    }

    // Whether the word is one of the rows' words; leaves something else in its place. The rows are reduced, with these pivots.
    fn has(&self, places: &[usize], word: &mut [u8]) -> bool
        requires pivots { HasPivots self.now.columns places.now self.now.rows }
        requires word { IsWord self.now.field self.now.columns word.old }
        ensures is { IsTrue result ↔ InSpan self.now.field self.now.columns self.now.rows word.old }
    {
        let _height = self.rows();
        self.subtract_rows(places, word);
        weight(word) == 0
    }

    // Takes off the multiples of all rows that make the symbols of the word at their places 0.
    #[tactic(auto, using(crate::proofs::FormLaws::rest_none, crate::proofs::FormLaws::rest_more))]
    fn subtract_rows(&self, places: &[usize], rest: &mut [u8])
        requires pivots { HasPivots self.now.columns places.now self.now.rows }
        requires word { IsWord self.now.field self.now.columns rest.old }
        ensures rest { IsRest self.now.field self.now.columns places.now self.now.rows rest.old
            (length places.now) rest.new }
    {
        let _height = self.rows();
        for i in 0..places.len() {
            self.subtract_row(i, places[i], rest);
        }
    }

    // Takes off the multiple of row i that makes the symbol of the word at column p a 0, if the row is a 1.
    fn subtract_row(&self, i: usize, p: usize, rest: &mut [u8])
        requires row { i < length self.now.rows }
        requires column { p < self.now.columns }
        requires word { IsWord self.now.field self.now.columns rest.old }
        ensures is { rest.new
            ≡ word_sum self.now.field rest.old
            (scale self.now.field (neg self.now.field (slice_index rest.old p)) (slice_index_or self.now.rows i [])) }
    {
        let field = self.field();
        let c = field.neg(rest[p]);
        add_scaled(field, rest, self.row(i), c);
    }

    // The reduced row echelon form and the places of its pivots.
    pub(crate) fn pivoted(&self, alloc: Global) -> Result<(Matrix, Vec<usize>), NoMemory>
        ensures field { IfOk result (λ p. p.0.field ≡ self.now.field) }
        ensures columns { IfOk result (λ p. p.0.columns ≡ self.now.columns) }
        ensures echelon { IfOk result (λ p. IsEchelon self.now.field self.now.columns self.now.rows p.0.rows) }
        ensures pivots { IfOk result (λ p. HasPivots self.now.columns p.1.items p.0.rows) }
    {
        let mut matrix = self.copy(alloc)?;
        let order = columns(alloc, self.cols())?;
        let at = matrix.reduce(alloc, &order)?;
        matrix.keep(at.len());
        Ok((matrix, at))
    }
}

// The columns 0 to n - 1.
fn columns(alloc: Global, n: usize) -> Result<Vec<usize>, NoMemory>
    ensures are { IfOk result (λ order. IsInOrder n order.items) }
    ensures inside { IfOk result (λ order. All (λ c. c < n) order.items) }
{
    let mut order = Vec::new(alloc);
    for c in 0..n {
        order.push(c)?;
    }
    Ok(order)
}
