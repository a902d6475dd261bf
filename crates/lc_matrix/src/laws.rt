//! Laws of matrices, each on a function that does nothing.
ghost use Rattle.std.specs.Prelude.{◌≡◌, ℕ, ◌+◌, List, length};
ghost use Rattle.lc_algebra.specs.Matrix.{IsEchelon, IsReducedGenerator, IsOrthogonal};

use crate::matrix::Matrix;

/// The rank of the kernel: a reduced matrix of the words that have dot 0 with each row has as many rows as the matrix has
/// columns, less its rank (MacWilliams and Sloane, chapter 1: the dual code).
pub fn rank_of_kernel(matrix: &Matrix)
    ensures is { (e k : List (List ℕ)) → IsEchelon matrix.now.field matrix.now.columns matrix.now.rows e →
        IsReducedGenerator matrix.now.field matrix.now.columns (IsOrthogonal matrix.now.field matrix.now.rows) k →
        length k + length e ≡ matrix.now.columns }
{
    let _height = matrix.rows();
}
