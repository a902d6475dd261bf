//! Tests of circulant and quasi-cyclic codes and of construction X: the codes are in MacWilliams and Sloane, chapters 16 and 18.
use crate::shapes::{Made, Shape, have_shapes, is_code, made_over};
use lc_code::{Code, CodeRefusal};
use lc_extend::{ExtensionRefusal, construction_x};
use std::alloc::Global;

// The size of a field, a code of shifts, and its length and dimension or why there is none.
static SHIFTED: [(u64, Made, Shape); 5] = [
    (2, Made::Circulant(&[1, 1, 0, 1, 0, 0, 0], 7), Ok((7, 4))),
    (3, Made::Circulant(&[2, 2, 2, 2], 4), Ok((4, 1))),
    (
        2,
        Made::Circulant(&[1, 1], 3),
        Err(CodeRefusal::LengthsDiffer),
    ),
    (
        2,
        Made::Circulant(&[2], 1),
        Err(CodeRefusal::BadArgument(1)),
    ),
    (2, Made::QuasiCyclic(&[], 3), Err(CodeRefusal::BadLength)),
];

#[test]
fn shifts_of_a_word_span_a_cyclic_code(rt: HostRuntime) {
    assert!(rt; have_shapes(rt.alloc(), &SHIFTED));
}

#[test]
fn each_part_is_shifted_by_itself(rt: HostRuntime) {
    let code = made_over(
        rt.alloc(),
        2,
        &Made::QuasiCyclic(&[&[1, 0, 0], &[0, 1, 1]], 3),
    );
    assert!(rt;
        is_code(
            code,
            &[
                &[1, 0, 0, 0, 1, 1],
                &[0, 1, 0, 1, 0, 1],
                &[0, 0, 1, 1, 1, 0]
            ]
        )
    );
}

// The length, and 256 times the dimension, of a code and one in it with tails.
fn tailed(alloc: Global, c: &Code, d: &Code, e: &Code) -> Result<usize, ExtensionRefusal> {
    match construction_x(alloc, c, d, e) {
        Ok(code) => Ok(code.length() + 256 * code.dimension()),
        Err(refusal) => Err(refusal),
    }
}

// The same with tails that are made.
fn with_tails(alloc: Global, c: &Code, d: &Code, e: &Made) -> Result<usize, ExtensionRefusal> {
    match made_over(alloc, 2, e) {
        Ok(e) => tailed(alloc, c, d, &e),
        Err(refusal) => Err(ExtensionRefusal::Codes(refusal)),
    }
}

// The same of a part that is made.
fn with_part(alloc: Global, c: &Code, d: &Made, e: &Made) -> Result<usize, ExtensionRefusal> {
    match made_over(alloc, 2, d) {
        Ok(d) => with_tails(alloc, c, &d, e),
        Err(refusal) => Err(ExtensionRefusal::Codes(refusal)),
    }
}

// The same of codes over two elements.
fn extended(alloc: Global, c: &Made, d: &Made, e: &Made) -> Result<usize, ExtensionRefusal> {
    match made_over(alloc, 2, c) {
        Ok(c) => with_part(alloc, &c, d, e),
        Err(refusal) => Err(ExtensionRefusal::Codes(refusal)),
    }
}

// The Hamming code, the repetition code in it, and tails.
const HAMMING: Made = Made::Hamming(3);

const ONES: Made = Made::Repetition(7);

const FOUR: Made = Made::Generated(&[&[1, 0, 0, 1], &[0, 1, 0, 1], &[0, 0, 1, 1]]);

const TWO: Made = Made::Repetition(2);

#[test]
fn construction_x_adds_tails(rt: HostRuntime) {
    let alloc = rt.alloc();
    assert!(rt; extended(alloc, &HAMMING, &ONES, &FOUR) == Ok(11 + 256 * 4));
    assert!(rt;
        extended(alloc, &HAMMING, &ONES, &TWO)
            == Err(ExtensionRefusal::Codes(CodeRefusal::InnerDimension(1, 3)))
    );
    assert!(rt; extended(alloc, &ONES, &HAMMING, &ONES) == Err(ExtensionRefusal::NotASubcode));
}
