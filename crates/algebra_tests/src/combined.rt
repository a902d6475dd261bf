//! Tests of codes from codes, by their lengths and dimensions.
use crate::shapes::{Made, Shape, made_over, shape};
use lc_code::{Code, CodeRefusal};
use lc_combine::{
    concatenated, direct_product, direct_sum, even_weight, extended, intersection, punctured,
    shortened, uuv,
};
use lc_cyclic::{binary_golay, ternary_golay};
use lc_field::NoMemory;
use lc_relations::{augmented, union_of};
use std::alloc::Global;
use test_rows::{Rows, words_of};

// A code made from one code.
enum Change {
    Extended,
    Even,
    Punctured(&'static [u64]),
    Shortened(&'static [u64]),
    Augmented(Rows),
}

fn augmented_by(alloc: Global, code: &Code, rows: Rows) -> Result<Code, CodeRefusal> {
    let words = words_of(alloc, rows)?;
    augmented(alloc, code, &words)
}

fn changed(alloc: Global, code: &Code, change: &Change) -> Result<Code, CodeRefusal> {
    match change {
        Change::Extended => extended(alloc, code),
        Change::Even => even_weight(alloc, code),
        Change::Punctured(coordinates) => punctured(alloc, code, coordinates),
        Change::Shortened(coordinates) => shortened(alloc, code, coordinates),
        Change::Augmented(rows) => augmented_by(alloc, code, rows),
    }
}

// What is made of the binary Hamming code of length 7.
static CHANGES: [(Change, Shape); 9] = [
    (Change::Extended, Ok((8, 4))),
    (Change::Even, Ok((7, 3))),
    (Change::Punctured(&[0]), Ok((6, 4))),
    (Change::Shortened(&[0]), Ok((6, 3))),
    (Change::Punctured(&[1, 1]), Err(CodeRefusal::BadPositions)),
    // the word of ones is in the code, and no word of weight 1
    (Change::Augmented(&[&[1, 1, 1, 1, 1, 1, 1]]), Ok((7, 4))),
    (Change::Augmented(&[&[1, 0, 0, 0, 0, 0, 0]]), Ok((7, 5))),
    (Change::Augmented(&[]), Ok((7, 4))),
    (Change::Augmented(&[&[2]]), Err(CodeRefusal::LengthsDiffer)),
];

// Whether it is so of this code.
fn are_changed(alloc: Global, code: &Code) -> bool {
    for row in &CHANGES {
        if shape(changed(alloc, code, &row.0)) != row.1 {
            return false;
        }
    }
    true
}

fn are_changes_of_hamming(alloc: Global) -> bool {
    match made_over(alloc, 2, &Made::Hamming(3)) {
        Ok(code) => are_changed(alloc, &code),
        Err(_) => false,
    }
}

#[test]
fn codes_from_a_hamming_code(rt: HostRuntime) {
    assert!(rt; are_changes_of_hamming(rt.alloc()));
}

// The length, the dimension and the divisor of the extended code.
fn extended_shape(
    alloc: Global,
    code: Result<Code, NoMemory>,
) -> Result<(usize, usize, u64), CodeRefusal> {
    let code = extended(alloc, &code?)?;
    Ok((code.length(), code.dimension(), code.divisor()))
}

// Both extended Golay codes are self-dual, so their weights have a divisor (MacWilliams and Sloane, chapter 19).
#[test]
fn extended_golay_codes(rt: HostRuntime) {
    let binary = extended_shape(rt.alloc(), binary_golay(rt.alloc()));
    let ternary = extended_shape(rt.alloc(), ternary_golay(rt.alloc()));
    assert!(rt; binary == Ok((24, 12, 4)) && ternary == Ok((12, 6, 3)));
}

// A way to make a code of two.
enum Way {
    Sum,
    Product,
    Uuv,
    Intersection,
    Concatenated,
    Union,
}

fn combined(alloc: Global, a: &Code, b: &Code, way: &Way) -> Result<Code, CodeRefusal> {
    match way {
        Way::Sum => direct_sum(alloc, a, b),
        Way::Product => direct_product(alloc, a, b),
        Way::Uuv => uuv(alloc, a, b),
        Way::Intersection => intersection(alloc, a, b),
        Way::Concatenated => concatenated(alloc, a, b),
        Way::Union => union_of(alloc, a, b),
    }
}

// The simplex code of length 7, which the rows of the Hamming code check.
const SIMPLEX: Made = Made::Checked(&[
    &[1, 0, 0, 0, 0, 1, 1],
    &[0, 1, 0, 0, 1, 0, 1],
    &[0, 0, 1, 0, 1, 1, 0],
    &[0, 0, 0, 1, 1, 1, 1],
]);

// The size of a field and a code over it, such another code, and what is made of both.
type Pair = (u64, Made, u64, Made, Way, Shape);

// The third is a Reed-Muller code made from two others (MacWilliams and Sloane, chapter 13). The code that a row of ones checks is that
// of the words of even weight. The Reed-Solomon code is over 4 elements.
static PAIRS: [Pair; 9] = [
    (
        2,
        Made::Repetition(2),
        2,
        Made::Repetition(3),
        Way::Sum,
        Ok((5, 2)),
    ),
    (
        2,
        Made::Repetition(2),
        2,
        Made::Repetition(3),
        Way::Product,
        Ok((6, 1)),
    ),
    (
        2,
        Made::ReedMuller(1, 2),
        2,
        Made::ReedMuller(0, 2),
        Way::Uuv,
        Ok((8, 4)),
    ),
    (
        2,
        Made::Checked(&[&[1, 1, 1, 1]]),
        2,
        Made::Repetition(4),
        Way::Intersection,
        Ok((4, 1)),
    ),
    (
        4,
        Made::ReedSolomon(3, 2),
        2,
        Made::Checked(&[&[1, 1, 1]]),
        Way::Concatenated,
        Ok((9, 4)),
    ),
    (
        2,
        Made::Repetition(2),
        2,
        Made::Repetition(3),
        Way::Uuv,
        Err(CodeRefusal::LengthsDiffer),
    ),
    (
        4,
        Made::ReedSolomon(3, 2),
        2,
        Made::Repetition(3),
        Way::Concatenated,
        Err(CodeRefusal::InnerDimension(1, 2)),
    ),
    (2, SIMPLEX, 2, Made::Repetition(7), Way::Union, Ok((7, 4))),
    (
        2,
        SIMPLEX,
        2,
        Made::Repetition(6),
        Way::Union,
        Err(CodeRefusal::LengthsDiffer),
    ),
];

// What is made of the first code and a second.
fn with_second(alloc: Global, a: &Code, row: &Pair) -> Shape {
    match made_over(alloc, row.2, &row.3) {
        Ok(b) => shape(combined(alloc, a, &b, &row.4)),
        Err(refusal) => Err(refusal),
    }
}

fn of_two(alloc: Global, row: &Pair) -> Shape {
    match made_over(alloc, row.0, &row.1) {
        Ok(a) => with_second(alloc, &a, row),
        Err(refusal) => Err(refusal),
    }
}

// Whether this is so of all rows.
fn are_pairs(alloc: Global) -> bool {
    for row in &PAIRS {
        if of_two(alloc, row) != row.5 {
            return false;
        }
    }
    true
}

#[test]
fn codes_from_two_codes(rt: HostRuntime) {
    assert!(rt; are_pairs(rt.alloc()));
}
