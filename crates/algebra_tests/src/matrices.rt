//! Tests of what the contracts are meant to say, by values that `tools/linear_algebra.py` prints; each call is seen to answer.
use lc_field::{FieldRefusal, NoMemory};
use lc_matrix::{Matrix, rank_of_kernel};
use lc_vec::{Word, dot, fits, weight};
use std::alloc::Global;
use test_rows::{Rows, matrix_of};

// The size of a field, a number of columns, and rows.
pub(crate) type Given = (u64, usize, Rows);

// The matrix that is given.
fn given_matrix(alloc: Global, given: &Given) -> Result<Matrix, FieldRefusal> {
    matrix_of(alloc, given.0, given.1, given.2)
}

// Whether these are the rows of the matrix.
fn has_rows(matrix: &Matrix, rows: Rows) -> bool {
    if matrix.rows() != rows.len() {
        return false;
    }
    for i in 0..matrix.rows() {
        if matrix.row(i) != rows[i] {
            return false;
        }
    }
    true
}

// A matrix, and the rows of its reduced form and of its kernel, as tools/linear_algebra.py prints them. They are the generator matrix
// of its code and that of the dual code.
pub(crate) static FORMS: [(Given, Rows, Rows); 11] = [
    (
        (
            2,
            5,
            &[&[1, 1, 0, 1, 0], &[0, 1, 1, 0, 1], &[1, 0, 1, 1, 1]],
        ),
        &[&[1, 0, 1, 1, 1], &[0, 1, 1, 0, 1]],
        &[&[1, 0, 0, 1, 0], &[0, 1, 0, 1, 1], &[0, 0, 1, 0, 1]],
    ),
    (
        (3, 3, &[&[1, 2, 0], &[2, 1, 1]]),
        &[&[1, 2, 0], &[0, 0, 1]],
        &[&[1, 1, 0]],
    ),
    (
        (4, 4, &[&[0, 2, 3, 1], &[2, 1, 0, 3], &[2, 3, 3, 2]]),
        &[&[1, 0, 1, 0], &[0, 1, 2, 3]],
        &[&[1, 0, 1, 3], &[0, 1, 0, 2]],
    ),
    (
        (9, 4, &[&[3, 4, 5, 0], &[6, 8, 7, 1]]),
        &[&[1, 3, 8, 0], &[0, 0, 0, 1]],
        &[&[1, 0, 8, 0], &[0, 1, 5, 0]],
    ),
    (
        (16, 4, &[&[0, 7, 9, 2], &[5, 1, 0, 14]]),
        &[&[1, 0, 14, 5], &[0, 1, 3, 12]],
        &[&[1, 0, 9, 15], &[0, 1, 2, 3]],
    ),
    ((3, 2, &[]), &[], &[&[1, 0], &[0, 1]]),
    (
        (9, 2, &[&[0, 0], &[0, 0], &[0, 0]]),
        &[],
        &[&[1, 0], &[0, 1]],
    ),
    ((4, 1, &[&[0], &[3], &[2]]), &[&[1]], &[]),
    ((4, 1, &[&[0]]), &[], &[&[1]]),
    ((5, 2, &[]), &[], &[&[1, 0], &[0, 1]]),
    ((7, 1, &[&[3]]), &[&[1]], &[]),
];

// Whether there is a matrix, and these are its rows.
fn is_matrix(matrix: Result<Matrix, NoMemory>, rows: Rows) -> bool {
    match matrix {
        Ok(matrix) => has_rows(&matrix, rows),
        Err(NoMemory) => false,
    }
}

// Whether the matrix has this reduced form and rank, and this kernel.
fn are_forms(alloc: Global, matrix: &Matrix, reduced: Rows, kernel: Rows) -> bool {
    rank_of_kernel(matrix);
    is_matrix(matrix.echelon(alloc), reduced)
        && matrix.rank(alloc) == Ok(reduced.len())
        && is_matrix(matrix.kernel(alloc), kernel)
}

// The same for the matrix that is given.
fn has_forms(alloc: Global, given: &Given, reduced: Rows, kernel: Rows) -> bool {
    match given_matrix(alloc, given) {
        Ok(matrix) => are_forms(alloc, &matrix, reduced, kernel),
        Err(_refusal) => false,
    }
}

#[test]
fn forms_over_fields(rt: HostRuntime) {
    for row in &FORMS {
        let is_right = has_forms(rt.alloc(), &row.0, row.1, row.2);
        assert!(rt; is_right, "over {}, {} columns", row.0.0, row.0.1);
    }
}

#[test]
fn forms_without_columns(rt: HostRuntime) {
    assert!(rt; has_forms(rt.alloc(), &(2, 0, &[&[], &[]]), &[], &[]));
}

// A matrix, a set of columns, and the rows of the matrix that is the identity there; none, if there is no such matrix.
static SETS: [(Given, &[usize], Rows); 7] = [
    (
        (3, 3, &[&[1, 2, 0], &[2, 1, 1]]),
        &[1, 2],
        &[&[2, 1, 0], &[0, 0, 1]],
    ),
    (
        (3, 3, &[&[1, 2, 0], &[2, 1, 1]]),
        &[2, 1],
        &[&[0, 0, 1], &[2, 1, 0]],
    ),
    ((3, 3, &[&[1, 2, 0], &[2, 1, 1]]), &[0, 1], &[]),
    ((3, 3, &[&[1, 2, 0], &[2, 1, 1]]), &[2, 2], &[]),
    (
        (9, 4, &[&[3, 4, 5, 0], &[6, 8, 7, 1]]),
        &[2, 3],
        &[&[4, 7, 1, 0], &[0, 0, 0, 1]],
    ),
    ((9, 4, &[&[3, 4, 5, 0], &[6, 8, 7, 1]]), &[0, 2], &[]),
    (
        (16, 4, &[&[0, 7, 9, 2], &[5, 1, 0, 14]]),
        &[0, 3],
        &[&[1, 4, 2, 0], &[0, 10, 13, 1]],
    ),
];

// Whether the matrix that is the identity on the set has these rows; none, if there is no such matrix.
fn has_identity(alloc: Global, matrix: &Matrix, set: &[usize], rows: Rows) -> bool {
    let n = matrix.cols();
    if set.len() != matrix.rows() || !set.iter().all(|c| *c < n) {
        return false;
    }
    match matrix.systematic_on(alloc, set) {
        Ok(Some(systematic)) => has_rows(&systematic, rows),
        Ok(None) => rows.is_empty(),
        Err(NoMemory) => false,
    }
}

// The same for the matrix that is given.
fn is_systematic(alloc: Global, given: &Given, set: &[usize], rows: Rows) -> bool {
    match given_matrix(alloc, given) {
        Ok(matrix) => has_identity(alloc, &matrix, set, rows),
        Err(_refusal) => false,
    }
}

#[test]
fn systematic_matrices(rt: HostRuntime) {
    for row in &SETS {
        let is_right = is_systematic(rt.alloc(), &row.0, row.1, row.2);
        assert!(rt; is_right, "over {}", row.0.0);
    }
}

// A matrix, a right side and whether there is a solution.
static SYSTEMS: [(Given, &[u8], bool); 8] = [
    ((3, 3, &[&[1, 2, 0], &[2, 1, 0]]), &[1, 1], false),
    ((3, 3, &[&[1, 2, 0], &[2, 1, 0]]), &[0, 0], true),
    (
        (
            2,
            5,
            &[&[1, 1, 0, 1, 0], &[0, 1, 1, 0, 1], &[1, 0, 1, 1, 1]],
        ),
        &[1, 0, 1],
        true,
    ),
    (
        (
            2,
            5,
            &[&[1, 1, 0, 1, 0], &[0, 1, 1, 0, 1], &[1, 0, 1, 1, 1]],
        ),
        &[1, 0, 0],
        false,
    ),
    (
        (4, 4, &[&[0, 2, 3, 1], &[2, 1, 0, 3], &[2, 3, 3, 2]]),
        &[2, 3, 1],
        true,
    ),
    ((9, 4, &[&[3, 4, 5, 0], &[6, 8, 7, 1]]), &[4, 2], true),
    ((16, 4, &[&[0, 7, 9, 2], &[5, 1, 0, 14]]), &[6, 11], true),
    ((2, 2, &[]), &[], true),
];

// Whether the word has these dots with the rows.
fn has_dots(matrix: &Matrix, word: &[u8], right: &[u8]) -> bool {
    let field = matrix.field();
    if word.len() != matrix.cols() || !fits(field, word) || right.len() != matrix.rows() {
        return false;
    }
    for i in 0..matrix.rows() {
        if dot(field, matrix.row(i), word) != right[i] {
            return false;
        }
    }
    true
}

// Whether there is a solution exactly if there is to be one, and the one that is given is one.
fn is_solution(
    matrix: &Matrix,
    found: Result<Option<Word>, NoMemory>,
    right: &[u8],
    expected: bool,
) -> bool {
    match found {
        Ok(Some(word)) => expected && has_dots(matrix, word.symbols(), right),
        Ok(None) => !expected,
        Err(NoMemory) => false,
    }
}

// Whether this is so of the right side, which has a symbol for each row.
fn has_solution(alloc: Global, matrix: &Matrix, right: &[u8], expected: bool) -> bool {
    if right.len() != matrix.rows() || !fits(matrix.field(), right) {
        return false;
    }
    is_solution(matrix, matrix.solve(alloc, right), right, expected)
}

// Whether this is so of the matrix that is given.
fn is_solved(alloc: Global, given: &Given, right: &[u8], expected: bool) -> bool {
    match given_matrix(alloc, given) {
        Ok(matrix) => has_solution(alloc, &matrix, right, expected),
        Err(_refusal) => false,
    }
}

#[test]
fn linear_systems(rt: HostRuntime) {
    for row in &SYSTEMS {
        assert!(rt; is_solved(rt.alloc(), &row.0, row.1, row.2), "over {}", row.0.0);
    }
}

// Whether the solution for two ones has 2 at place 2.
fn has_symbol(alloc: Global, matrix: &Matrix) -> bool {
    let right = [1, 1];
    if matrix.rows() != 2 || !fits(matrix.field(), &right) {
        return false;
    }
    match matrix.solve(alloc, &right) {
        Ok(Some(word)) => word.symbols().get(2) == Some(&2),
        Ok(None) => false,
        Err(NoMemory) => false,
    }
}

// The same for the matrix over 3 elements.
fn is_fixed(alloc: Global) -> bool {
    match matrix_of(alloc, 3, 3, &[&[1, 2, 0], &[2, 1, 1]]) {
        Ok(matrix) => has_symbol(alloc, &matrix),
        Err(_refusal) => false,
    }
}

#[test]
fn the_one_symbol_of_all_solutions(rt: HostRuntime) {
    assert!(rt; is_fixed(rt.alloc()));
}

// A matrix, a word and whether it is a sum of multiples of the rows.
static SPANS: [(Given, &[u8], bool); 7] = [
    ((3, 3, &[&[1, 2, 0], &[2, 1, 1]]), &[2, 1, 2], true),
    ((3, 3, &[&[1, 2, 0], &[2, 1, 1]]), &[2, 2, 0], false),
    ((9, 4, &[&[3, 4, 5, 0], &[6, 8, 7, 1]]), &[3, 4, 5, 8], true),
    (
        (16, 4, &[&[0, 7, 9, 2], &[5, 1, 0, 14]]),
        &[1, 1, 13, 9],
        true,
    ),
    (
        (16, 4, &[&[0, 7, 9, 2], &[5, 1, 0, 14]]),
        &[1, 1, 13, 8],
        false,
    ),
    ((2, 2, &[]), &[0, 0], true),
    ((2, 2, &[]), &[0, 1], false),
];

// Whether the word, if it is one, is a sum of multiples of the rows exactly if it is to be one.
fn has_word(alloc: Global, matrix: &Matrix, word: &[u8], expected: bool) -> bool {
    word.len() == matrix.cols()
        && fits(matrix.field(), word)
        && matrix.in_span(alloc, word) == Ok(expected)
}

// Whether this is so of the rows of the matrix that is given.
fn is_inside(alloc: Global, given: &Given, word: &[u8], expected: bool) -> bool {
    match given_matrix(alloc, given) {
        Ok(matrix) => has_word(alloc, &matrix, word, expected),
        Err(_refusal) => false,
    }
}

#[test]
fn spans_of_rows(rt: HostRuntime) {
    for row in &SPANS {
        assert!(rt; is_inside(rt.alloc(), &row.0, row.1, row.2), "over {}", row.0.0);
    }
}

// Whether each row is 1 at its own place and at the last column, and 0 elsewhere.
fn ends_in_ones(matrix: &Matrix) -> bool {
    for i in 0..matrix.rows() {
        let row = matrix.row(i);
        if weight(row) != 2 || row.get(i) != Some(&1) || row.last() != Some(&1) {
            return false;
        }
    }
    true
}

// Whether the kernel of the row of 255 ones has 254 such rows, and its kernel is that row.
fn has_kernels(alloc: Global, matrix: &Matrix) -> bool {
    match matrix.kernel(alloc) {
        Ok(kernel) => {
            kernel.rows() == 254
                && kernel.cols() == 255
                && ends_in_ones(&kernel)
                && is_matrix(kernel.kernel(alloc), &[&[1; 255]])
        }
        Err(NoMemory) => false,
    }
}

// The same for the matrix that has this row.
fn are_kernels(alloc: Global) -> bool {
    match matrix_of(alloc, 2, 255, &[&[1; 255]]) {
        Ok(matrix) => has_kernels(alloc, &matrix),
        Err(_refusal) => false,
    }
}

#[test]
fn columns_up_to_255(rt: HostRuntime) {
    assert!(rt; are_kernels(rt.alloc()));
}
