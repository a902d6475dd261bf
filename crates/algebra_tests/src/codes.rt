//! Tests of what the contracts are meant to say, by values from outside; each call is seen to answer.
use crate::matrices::{FORMS, Given};
use crate::shapes::is_made;
use lc_code::{Code, CodeRefusal};
use lc_field::{Field, NoMemory};
use lc_vec::{Word, fits};
use std::alloc::Global;
use test_rows::{Rows, are_words, generated, has_rows, words_of};

// Refusals, their numbers, and how many values each carries.
static REFUSALS: [(CodeRefusal, u8, usize); 5] = [
    (CodeRefusal::BadLength, 2, 0),
    (CodeRefusal::RepeatedPoint(1, 2), 8, 2),
    (CodeRefusal::BadPositions, 13, 0),
    (CodeRefusal::InnerDimension(1, 2), 14, 2),
    (CodeRefusal::FieldTooLarge, 17, 0),
];

// Whether the refusal has this number and carries so many values.
fn is_numbered(alloc: Global, refusal: &CodeRefusal, number: u8, count: usize) -> bool {
    match refusal.values(alloc) {
        Ok(values) => refusal.number() == number && values.len() == count,
        Err(NoMemory) => false,
    }
}

#[test]
fn numbers_of_refusals(rt: HostRuntime) {
    for row in &REFUSALS {
        assert!(rt; is_numbered(rt.alloc(), &row.0, row.1, row.2), "{}", row.1);
    }
}

// The code over a field of checks that are words of n symbols. Refuses with BadLength if they aren't, or if there is no such code.
fn checked_in(
    alloc: Global,
    field: &Field,
    n: usize,
    checks: &[Word],
) -> Result<Code, CodeRefusal> {
    if !field.is_symbol() || n < 1 || n > 255 || !are_words(field, n, checks) {
        return Err(CodeRefusal::BadLength);
    }
    Ok(Code::from_checks(alloc, field, n, checks)?)
}

// The same over q elements.
fn checked_by(alloc: Global, q: u64, n: usize, checks: &[Word]) -> Result<Code, CodeRefusal> {
    match Field::of(alloc, q) {
        Ok(field) => checked_in(alloc, &field, n, checks),
        Err(_) => Err(CodeRefusal::BadLength),
    }
}

// The code of the checks that are given.
fn checked(alloc: Global, given: &Given) -> Result<Code, CodeRefusal> {
    let words = words_of(alloc, given.2)?;
    checked_by(alloc, given.0, given.1, &words)
}

// Whether the dual of the code's dual has these rows.
fn is_twice_dual(alloc: Global, code: &Code, rows: Rows) -> bool {
    match code.dual(alloc) {
        Ok(dual) => is_made(dual.dual(alloc), rows),
        Err(NoMemory) => false,
    }
}

// Whether the code of these rows has the reduced rows, its dual those of the kernel, and the dual's dual the reduced rows again.
fn has_dual(alloc: Global, given: &Given, reduced: Rows, others: Rows) -> bool {
    match generated(alloc, given.0, given.1, given.2) {
        Ok(code) => {
            has_rows(&code, reduced)
                && is_made(code.dual(alloc), others)
                && is_twice_dual(alloc, &code, reduced)
        }
        Err(_refusal) => false,
    }
}

// Whether the code of these checks, and a copy of it, has these rows, and the copy the length.
fn is_checked(alloc: Global, given: &Given, rows: Rows) -> bool {
    match checked(alloc, given) {
        Ok(code) => code.length() == given.1
            && has_rows(&code, rows)
            && is_made(code.copy(alloc), rows),
        Err(_refusal) => false,
    }
}

#[test]
fn codes_of_rows_and_of_checks_have_their_duals(rt: HostRuntime) {
    for row in &FORMS {
        assert!(rt; has_dual(rt.alloc(), &row.0, row.1, row.2), "over {}", row.0.0);
        assert!(rt; is_checked(rt.alloc(), &row.0, row.2), "over {}", row.0.0);
    }
}

// Whether the word, if it is one, is in the code; the buffer holds something else before.
fn holds(alloc: Global, code: &Code, word: &[u8]) -> bool {
    let Ok(mut buf) = vec![in alloc; 1u8; code.length()] else {
        return false;
    };
    word.len() == code.length() && fits(code.field(), word) && code.contains(word, &mut buf)
}

// The size of the field, the length, rows, a word, and whether it is in their code, as tools/linear_algebra.py prints it.
static MEMBERS: [(Given, &[u8], bool); 8] = [
    ((3, 3, &[&[1, 2, 0], &[2, 1, 1]]), &[2, 1, 2], true),
    ((3, 3, &[&[1, 2, 0], &[2, 1, 1]]), &[2, 2, 0], false),
    ((9, 4, &[&[3, 4, 5, 0], &[6, 8, 7, 1]]), &[3, 4, 5, 8], true),
    (
        (9, 4, &[&[3, 4, 5, 0], &[6, 8, 7, 1]]),
        &[3, 4, 0, 8],
        false,
    ),
    (
        (16, 4, &[&[0, 7, 9, 2], &[5, 1, 0, 14]]),
        &[1, 1, 13, 9],
        true,
    ),
    (
        (16, 4, &[&[0, 7, 9, 2], &[5, 1, 0, 14]]),
        &[1, 1, 13, 8],
        false,
    ),
    ((2, 2, &[]), &[0, 0], true),
    ((2, 2, &[]), &[0, 1], false),
];

// Whether the word is in the code of these rows exactly if it is to be.
fn is_member(alloc: Global, given: &Given, word: &[u8], expected: bool) -> bool {
    match generated(alloc, given.0, given.1, given.2) {
        Ok(code) => holds(alloc, &code, word) == expected,
        Err(_refusal) => false,
    }
}

#[test]
fn members_of_codes(rt: HostRuntime) {
    for row in &MEMBERS {
        assert!(rt; is_member(rt.alloc(), &row.0, row.1, row.2), "over {}", row.0.0);
    }
}
