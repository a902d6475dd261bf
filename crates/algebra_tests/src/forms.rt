//! Tests of cyclic, BCH, Reed-Solomon, Goppa and alternant codes, by dimensions from the literature; each refusal is seen.
ghost use Rattle.lc_constructions.specs.Alternant.{IsFormOf};

use crate::shapes::{Made, Shape, have_shapes, is_made};
use lc_code::{CodeRefusal, FormedCode, alternant_code};
use lc_cyclic::reed_solomon;
use std::alloc::Global;
use test_rows::Rows;

// Binary primitive BCH codes by their lengths and design distances (MacWilliams and Sloane, chapter 9).
static PRIMITIVE: [(u64, Made, Shape); 24] = [
    (2, Made::Bch(7, 1, 3), Ok((7, 4))),
    (2, Made::Bch(7, 1, 5), Ok((7, 1))),
    (2, Made::Bch(7, 1, 7), Ok((7, 1))),
    (2, Made::Bch(15, 1, 3), Ok((15, 11))),
    (2, Made::Bch(15, 1, 5), Ok((15, 7))),
    (2, Made::Bch(15, 1, 7), Ok((15, 5))),
    (2, Made::Bch(15, 1, 9), Ok((15, 1))),
    (2, Made::Bch(15, 1, 15), Ok((15, 1))),
    (2, Made::Bch(31, 1, 3), Ok((31, 26))),
    (2, Made::Bch(31, 1, 5), Ok((31, 21))),
    (2, Made::Bch(31, 1, 7), Ok((31, 16))),
    (2, Made::Bch(31, 1, 11), Ok((31, 11))),
    (2, Made::Bch(31, 1, 15), Ok((31, 6))),
    (2, Made::Bch(31, 1, 31), Ok((31, 1))),
    (2, Made::Bch(63, 1, 3), Ok((63, 57))),
    (2, Made::Bch(63, 1, 5), Ok((63, 51))),
    (2, Made::Bch(63, 1, 7), Ok((63, 45))),
    (2, Made::Bch(63, 1, 9), Ok((63, 39))),
    (2, Made::Bch(63, 1, 11), Ok((63, 36))),
    (2, Made::Bch(63, 1, 13), Ok((63, 30))),
    (2, Made::Bch(63, 1, 15), Ok((63, 24))),
    (2, Made::Bch(63, 1, 21), Ok((63, 18))),
    (2, Made::Bch(63, 1, 23), Ok((63, 16))),
    (2, Made::Bch(63, 1, 31), Ok((63, 7))),
];

// BCH codes by the size of the field, the length, the first exponent and the design distance. The dimensions are those of the
// cyclotomic sets.
static BCH: [(u64, Made, Shape); 12] = [
    (2, Made::Bch(15, 0, 4), Ok((15, 10))),
    (2, Made::Bch(15, 16, 5), Ok((15, 7))),
    (2, Made::Bch(17, 1, 3), Ok((17, 9))),
    (3, Made::Bch(8, 1, 3), Ok((8, 4))),
    (4, Made::Bch(15, 1, 3), Ok((15, 11))),
    (4, Made::Bch(5, 1, 3), Ok((5, 1))),
    (16, Made::Bch(15, 2, 5), Ok((15, 11))),
    (25, Made::Bch(0, 1, 3), Err(CodeRefusal::FieldTooLarge)),
    (2, Made::Bch(256, 1, 3), Err(CodeRefusal::BadLength)),
    (2, Made::Bch(23, 1, 5), Err(CodeRefusal::NoRoot)),
    (2, Made::Bch(15, 1, 16), Err(CodeRefusal::BadDelta)),
    (2, Made::Bch(15, 1, 1), Err(CodeRefusal::BadDelta)),
];

// Reed-Solomon codes by their lengths and design distances.
static REED_SOLOMON: [(u64, Made, Shape); 13] = [
    (2, Made::ReedSolomon(1, 1), Ok((1, 1))),
    (2, Made::ReedSolomon(2, 2), Ok((2, 1))),
    (2, Made::ReedSolomon(3, 2), Ok((3, 2))),
    (2, Made::ReedSolomon(4, 3), Ok((4, 2))),
    (2, Made::ReedSolomon(6, 3), Ok((6, 4))),
    (2, Made::ReedSolomon(7, 5), Ok((7, 3))),
    (2, Made::ReedSolomon(8, 4), Ok((8, 5))),
    (2, Made::ReedSolomon(10, 6), Ok((10, 5))),
    (2, Made::ReedSolomon(12, 5), Ok((12, 8))),
    (2, Made::ReedSolomon(15, 5), Ok((15, 11))),
    (
        2,
        Made::ReedSolomon(5, 3),
        Err(CodeRefusal::NoFieldOfLength),
    ),
    (
        2,
        Made::ReedSolomon(24, 3),
        Err(CodeRefusal::NoFieldOfLength),
    ),
    (2, Made::ReedSolomon(15, 16), Err(CodeRefusal::BadDelta)),
];

// Cyclic codes by the size of the field, the length and the coefficients of a polynomial.
static CYCLIC: [(u64, Made, Shape); 26] = [
    (2, Made::Cyclic(4, &[1, 1]), Ok((4, 3))),
    (2, Made::CyclicChecked(4, &[1, 1]), Ok((4, 1))),
    (2, Made::Cyclic(4, &[1, 1, 0, 0, 0, 0]), Ok((4, 3))),
    (2, Made::CyclicChecked(4, &[1, 1, 0, 0, 0, 0]), Ok((4, 1))),
    (2, Made::Cyclic(7, &[1, 1, 0, 1]), Ok((7, 4))),
    (2, Made::CyclicChecked(7, &[1, 1, 0, 1]), Ok((7, 3))),
    (3, Made::Cyclic(4, &[2, 1]), Ok((4, 3))),
    (3, Made::CyclicChecked(4, &[2, 1]), Ok((4, 1))),
    (2, Made::Cyclic(4, &[1, 0, 0, 0, 1]), Ok((4, 0))),
    (2, Made::CyclicChecked(4, &[1, 0, 0, 0, 1]), Ok((4, 4))),
    (2, Made::Cyclic(4, &[1]), Ok((4, 4))),
    (2, Made::CyclicChecked(4, &[1]), Ok((4, 0))),
    (
        2,
        Made::Cyclic(4, &[1, 1, 1]),
        Err(CodeRefusal::NotADivisor),
    ),
    (
        2,
        Made::CyclicChecked(4, &[1, 1, 1]),
        Err(CodeRefusal::NotADivisor),
    ),
    (
        2,
        Made::Cyclic(4, &[1, 0, 0, 0, 0, 1]),
        Err(CodeRefusal::NotADivisor),
    ),
    (
        2,
        Made::CyclicChecked(4, &[1, 0, 0, 0, 0, 1]),
        Err(CodeRefusal::NotADivisor),
    ),
    (
        2,
        Made::Cyclic(4, &[0, 0]),
        Err(CodeRefusal::BadArgument(1)),
    ),
    (
        2,
        Made::CyclicChecked(4, &[0, 0]),
        Err(CodeRefusal::BadArgument(1)),
    ),
    (
        2,
        Made::Cyclic(4, &[1, 2]),
        Err(CodeRefusal::BadArgument(1)),
    ),
    (
        2,
        Made::CyclicChecked(4, &[1, 2]),
        Err(CodeRefusal::BadArgument(1)),
    ),
    (2, Made::Cyclic(0, &[2]), Err(CodeRefusal::BadLength)),
    (2, Made::CyclicChecked(0, &[2]), Err(CodeRefusal::BadLength)),
    (2, Made::Cyclic(256, &[1, 1]), Err(CodeRefusal::BadLength)),
    (
        2,
        Made::CyclicChecked(256, &[1, 1]),
        Err(CodeRefusal::BadLength),
    ),
    (25, Made::Cyclic(0, &[0]), Err(CodeRefusal::FieldTooLarge)),
    (
        25,
        Made::CyclicChecked(0, &[0]),
        Err(CodeRefusal::FieldTooLarge),
    ),
];

// Golay codes.
static GOLAY: [(u64, Made, Shape); 2] = [
    (2, Made::BinaryGolay, Ok((23, 12))),
    (3, Made::TernaryGolay, Ok((11, 6))),
];

// Binary Goppa codes by a polynomial and points in the field of 8 elements. The first is the code of length 8 of MacWilliams and
// Sloane, chapter 12. The last is an alternant code over 5 elements.
static GOPPA: [(u64, Made, Shape); 6] = [
    (
        2,
        Made::Goppa(&[1, 1, 1], &[0, 1, 2, 3, 4, 5, 6, 7]),
        Ok((8, 2)),
    ),
    (
        2,
        Made::Goppa(&[1, 1, 1], &[0, 1, 1]),
        Err(CodeRefusal::RepeatedPoint(1, 2)),
    ),
    (
        2,
        Made::Goppa(&[0, 1], &[1, 0]),
        Err(CodeRefusal::RootAt(1)),
    ),
    (
        2,
        Made::Goppa(&[1, 0], &[1]),
        Err(CodeRefusal::BadArgument(1)),
    ),
    (
        2,
        Made::Goppa(&[1, 1], &[8]),
        Err(CodeRefusal::BadArgument(2)),
    ),
    (5, Made::Alternant(2, &[0, 1, 2, 3, 4]), Ok((5, 3))),
];

#[test]
fn cyclic_codes_have_their_dimensions(rt: HostRuntime) {
    let alloc = rt.alloc();
    assert!(rt; have_shapes(alloc, &PRIMITIVE));
    assert!(rt; have_shapes(alloc, &BCH));
    assert!(rt; have_shapes(alloc, &REED_SOLOMON));
    assert!(rt; have_shapes(alloc, &CYCLIC));
    assert!(rt; have_shapes(alloc, &GOLAY));
}

#[test]
fn goppa_and_alternant_codes_have_their_dimensions(rt: HostRuntime) {
    assert!(rt; have_shapes(rt.alloc(), &GOPPA));
}

// Whether the code of the form has these rows.
fn has_form(alloc: Global, formed: &FormedCode, rows: Rows) -> bool
    requires formed { IsFormOf formed.now.code formed.now.form }
{
    is_made(
        alternant_code(alloc, formed.code.field(), &formed.form),
        rows,
    )
}

// The same for the form of the Reed-Solomon code of length n and design distance d.
fn reed_solomon_form(alloc: Global, n: u64, d: u64, rows: Rows) -> bool {
    match reed_solomon(alloc, n, d) {
        Ok(formed) => has_form(alloc, &formed, rows),
        Err(_) => false,
    }
}

// The length, the design distance, and the rows of Reed-Solomon codes. The generator polynomial of the first is
// (x - 2)(x - 4) over 5 elements. With a zero at each element but 0 and 1 the words are the multiples of that of ones.
static FORMS: [(u64, u64, Rows); 4] = [
    (4, 3, &[&[1, 0, 3, 4], &[0, 1, 3, 2]]),
    (4, 4, &[&[1, 1, 1, 1]]),
    (2, 2, &[&[1, 1]]),
    (2, 1, &[&[1, 0], &[0, 1]]),
];

#[test]
fn codes_of_alternant_forms(rt: HostRuntime) {
    for row in &FORMS {
        assert!(rt; reed_solomon_form(rt.alloc(), row.0, row.1, row.2));
    }
}
