//! Tests of residual codes: that of the simplex code, of the Hamming code, and at words that have no 0 (MacWilliams and Sloane,
//! chapter 17).
use crate::shapes::{Made, is_code, made_over, shape};
use lc_code::{Code, CodeRefusal};
use lc_residual::residual;
use lc_vec::fits;
use std::alloc::Global;

// The residual code at a word. Refused as `residual`, and with LengthsDiffer too if the word is not in the code.
fn residual_at(alloc: Global, code: &Code, word: &[u8]) -> Result<Code, CodeRefusal> {
    let Ok(mut rest) = vec![in alloc; 0u8; code.length()] else {
        return Err(CodeRefusal::NoMemory);
    };
    if word.len() != code.length() || !fits(code.field(), word) || !code.contains(word, &mut rest) {
        return Err(CodeRefusal::LengthsDiffer);
    }
    residual(alloc, code, word)
}

// That of a code over q elements.
fn residual_of(alloc: Global, q: u64, code: &Made, word: &[u8]) -> Result<Code, CodeRefusal> {
    match made_over(alloc, q, code) {
        Ok(code) => residual_at(alloc, &code, word),
        Err(refusal) => Err(refusal),
    }
}

// The Hamming code of length 7, and the simplex code, which its rows check.
const HAMMING: Made = Made::Hamming(3);

const SIMPLEX: Made = Made::Checked(&[
    &[1, 0, 0, 0, 0, 1, 1],
    &[0, 1, 0, 0, 1, 0, 1],
    &[0, 0, 1, 0, 1, 1, 0],
    &[0, 0, 0, 1, 1, 1, 1],
]);

const REPETITION: Made = Made::Repetition(4);

#[test]
fn a_residual_code_has_the_words_off_the_support(rt: HostRuntime) {
    let alloc = rt.alloc();
    let of_hamming = residual_of(alloc, 2, &HAMMING, &[1, 0, 0, 0, 0, 1, 1]);
    assert!(rt; is_code(of_hamming, &[&[1, 0, 0, 1], &[0, 1, 0, 1], &[0, 0, 1, 1]]));
    let of_simplex = residual_of(alloc, 2, &SIMPLEX, &[1, 0, 1, 0, 1, 0, 1]);
    assert!(rt; is_code(of_simplex, &[&[1, 0, 1], &[0, 1, 1]]));
    let at_zero = residual_of(alloc, 3, &REPETITION, &[0, 0, 0, 0]);
    assert!(rt; is_code(at_zero, &[&[1, 1, 1, 1]]));
    let at_twos = residual_of(alloc, 3, &REPETITION, &[2, 2, 2, 2]);
    assert!(rt; shape(at_twos) == Err(CodeRefusal::BadLength));
}
