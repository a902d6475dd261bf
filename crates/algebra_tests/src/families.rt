//! Tests of what the contracts are meant to say, by values from outside; each call is seen to answer.
use crate::shapes::{Made, Shape, dual, have_shapes, is_code, made_over};
use lc_code::CodeRefusal;
use std::alloc::Global;
use test_rows::Rows;

// Hamming codes: the size of the field, the number of checks, and the length and the dimension or why there is no code.
static HAMMING: [(u64, Made, Shape); 11] = [
    (2, Made::Hamming(2), Ok((3, 1))),
    (2, Made::Hamming(3), Ok((7, 4))),
    (2, Made::Hamming(8), Ok((255, 247))),
    (2, Made::Hamming(9), Err(CodeRefusal::BadLength)),
    (2, Made::Hamming(u64::MAX), Err(CodeRefusal::BadLength)),
    (2, Made::Hamming(1), Err(CodeRefusal::BadArgument(1))),
    (3, Made::Hamming(3), Ok((13, 10))),
    (9, Made::Hamming(2), Ok((10, 8))),
    (16, Made::Hamming(2), Ok((17, 15))),
    (16, Made::Hamming(3), Err(CodeRefusal::BadLength)),
    (25, Made::Hamming(0), Err(CodeRefusal::FieldTooLarge)),
];

// Reed-Muller codes, likewise, by their orders and numbers of variables.
static REED_MULLER: [(u64, Made, Shape); 8] = [
    (2, Made::ReedMuller(1, 3), Ok((8, 4))),
    (2, Made::ReedMuller(2, 5), Ok((32, 16))),
    (2, Made::ReedMuller(7, 7), Ok((128, 128))),
    (2, Made::ReedMuller(0, 7), Ok((128, 1))),
    (2, Made::ReedMuller(0, 0), Ok((1, 1))),
    (2, Made::ReedMuller(4, 3), Err(CodeRefusal::BadArgument(1))),
    (
        2,
        Made::ReedMuller(u64::MAX, 8),
        Err(CodeRefusal::BadLength),
    ),
    (
        2,
        Made::ReedMuller(1, u64::MAX),
        Err(CodeRefusal::BadLength),
    ),
];

// Codes of a length.
static LENGTHS: [(u64, Made, Shape); 18] = [
    (5, Made::Repetition(4), Ok((4, 1))),
    (5, Made::Whole(4), Ok((4, 4))),
    (5, Made::Null(4), Ok((4, 0))),
    (16, Made::Repetition(1), Ok((1, 1))),
    (16, Made::Whole(1), Ok((1, 1))),
    (16, Made::Null(1), Ok((1, 0))),
    (2, Made::Repetition(255), Ok((255, 1))),
    (2, Made::Whole(255), Ok((255, 255))),
    (2, Made::Null(255), Ok((255, 0))),
    (5, Made::Repetition(0), Err(CodeRefusal::BadLength)),
    (5, Made::Whole(0), Err(CodeRefusal::BadLength)),
    (5, Made::Null(0), Err(CodeRefusal::BadLength)),
    (5, Made::Repetition(256), Err(CodeRefusal::BadLength)),
    (5, Made::Whole(256), Err(CodeRefusal::BadLength)),
    (5, Made::Null(256), Err(CodeRefusal::BadLength)),
    (25, Made::Repetition(0), Err(CodeRefusal::FieldTooLarge)),
    (25, Made::Whole(0), Err(CodeRefusal::FieldTooLarge)),
    (25, Made::Null(0), Err(CodeRefusal::FieldTooLarge)),
];

// Codes of a matrix.
static MATRICES: [(u64, Made, Shape); 16] = [
    (3, Made::Generated(&[&[1, 1, 1]]), Ok((3, 1))),
    (3, Made::Checked(&[&[1, 1, 1]]), Ok((3, 2))),
    (
        2,
        Made::Generated(&[&[1, 1, 0, 1, 0], &[0, 1, 1, 0, 1], &[1, 0, 1, 1, 1]]),
        Ok((5, 2)),
    ),
    (
        2,
        Made::Checked(&[&[1, 1, 0, 1, 0], &[0, 1, 1, 0, 1], &[1, 0, 1, 1, 1]]),
        Ok((5, 3)),
    ),
    (16, Made::Generated(&[&[0, 0]]), Ok((2, 0))),
    (16, Made::Checked(&[&[0, 0]]), Ok((2, 2))),
    (
        3,
        Made::Generated(&[&[1, 3, 1], &[1, 0]]),
        Err(CodeRefusal::LengthsDiffer),
    ),
    (
        3,
        Made::Checked(&[&[1, 3, 1], &[1, 0]]),
        Err(CodeRefusal::LengthsDiffer),
    ),
    (
        3,
        Made::Generated(&[&[1, 2, 1], &[1, 0, 3]]),
        Err(CodeRefusal::BadArgument(1)),
    ),
    (
        3,
        Made::Checked(&[&[1, 2, 1], &[1, 0, 3]]),
        Err(CodeRefusal::BadArgument(1)),
    ),
    (3, Made::Generated(&[]), Err(CodeRefusal::BadLength)),
    (3, Made::Checked(&[]), Err(CodeRefusal::BadLength)),
    (
        3,
        Made::Generated(&[&[], &[1]]),
        Err(CodeRefusal::BadLength),
    ),
    (3, Made::Checked(&[&[], &[1]]), Err(CodeRefusal::BadLength)),
    (25, Made::Generated(&[]), Err(CodeRefusal::FieldTooLarge)),
    (25, Made::Checked(&[]), Err(CodeRefusal::FieldTooLarge)),
];

#[test]
fn plain_codes_have_their_lengths_and_dimensions(rt: HostRuntime) {
    let alloc = rt.alloc();
    assert!(rt; have_shapes(alloc, &HAMMING));
    assert!(rt; have_shapes(alloc, &REED_MULLER));
    assert!(rt; have_shapes(alloc, &LENGTHS));
    assert!(rt; have_shapes(alloc, &MATRICES));
}

// The size of the field, a code, and the rows of its generator matrix: of Hamming codes and of codes of a matrix, as
// tools/linear_algebra.py prints them, and of the Reed-Muller code of order 1 in 3 variables.
static ROWS: [(u64, Made, Rows); 8] = [
    (
        2,
        Made::Hamming(3),
        &[
            &[1, 0, 0, 0, 0, 1, 1],
            &[0, 1, 0, 0, 1, 0, 1],
            &[0, 0, 1, 0, 1, 1, 0],
            &[0, 0, 0, 1, 1, 1, 1],
        ],
    ),
    (3, Made::Hamming(2), &[&[1, 0, 1, 2], &[0, 1, 1, 1]]),
    (
        2,
        Made::ReedMuller(1, 3),
        &[
            &[1, 0, 0, 1, 0, 1, 1, 0],
            &[0, 1, 0, 1, 0, 1, 0, 1],
            &[0, 0, 1, 1, 0, 0, 1, 1],
            &[0, 0, 0, 0, 1, 1, 1, 1],
        ],
    ),
    (
        2,
        Made::Generated(&[&[1, 1, 0, 1, 0], &[0, 1, 1, 0, 1], &[1, 0, 1, 1, 1]]),
        &[&[1, 0, 1, 1, 1], &[0, 1, 1, 0, 1]],
    ),
    (
        3,
        Made::Generated(&[&[1, 2, 0], &[2, 1, 1]]),
        &[&[1, 2, 0], &[0, 0, 1]],
    ),
    (
        4,
        Made::Generated(&[&[0, 2, 3, 1], &[2, 1, 0, 3], &[2, 3, 3, 2]]),
        &[&[1, 0, 1, 0], &[0, 1, 2, 3]],
    ),
    (
        9,
        Made::Generated(&[&[3, 4, 5, 0], &[6, 8, 7, 1]]),
        &[&[1, 3, 8, 0], &[0, 0, 0, 1]],
    ),
    (
        16,
        Made::Generated(&[&[0, 7, 9, 2], &[5, 1, 0, 14]]),
        &[&[1, 0, 14, 5], &[0, 1, 3, 12]],
    ),
];

// Whether the code has the rows, and so has the dual of its dual.
fn is_twice_dual(alloc: Global, row: &(u64, Made, Rows)) -> bool {
    is_code(made_over(alloc, row.0, &row.1), row.2)
        && is_code(
            dual(alloc, dual(alloc, made_over(alloc, row.0, &row.1))),
            row.2,
        )
}

// Whether this is so of all rows.
fn are_twice_dual(alloc: Global) -> bool {
    for row in &ROWS {
        if !is_twice_dual(alloc, row) {
            return false;
        }
    }
    true
}

// The rows of the dual of the ternary repetition code of length 4.
const DUAL: Rows = &[&[1, 0, 0, 2], &[0, 1, 0, 2], &[0, 0, 1, 2]];

#[test]
fn a_code_has_its_rows_and_is_the_dual_of_its_dual(rt: HostRuntime) {
    assert!(rt; are_twice_dual(rt.alloc()));
    let code = dual(rt.alloc(), made_over(rt.alloc(), 3, &Made::Repetition(4)));
    assert!(rt; is_code(code, DUAL));
}
