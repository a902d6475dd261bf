//! Tests of syndromes, messages, distances and comparisons on the Hamming code of length 7, whose matrices are in MacWilliams and
//! Sloane, chapter 1, and on small codes that can be gone through by hand.
use crate::shapes::{Made, made_over};
use lc_code::{Code, CodeRefusal};
use lc_field::{Field, NoMemory};
use lc_relations::{
    add_words, encode, hamming_distance, is_cyclic, is_same_code, is_self_dual, is_self_orthogonal,
    is_subcode, message_of, scale_word, syndrome,
};
use lc_vec::Word;
use std::alloc::Global;
use test_rows::is_word;

// A received word, its syndrome, and its message: no symbols if it is no codeword.
static WORDS: [(&[u8], &[u8], &[u8]); 3] = [
    (&[1, 0, 1, 1, 0, 1, 0], &[0, 0, 0], &[1, 0, 1, 1]),
    (&[1, 0, 1, 1, 1, 1, 0], &[1, 0, 1], &[]),
    (&[1, 0, 0, 0, 0, 0, 0], &[1, 0, 0], &[]),
];

// Whether these are the symbols of the word that is found.
fn is_found(found: Result<Word, NoMemory>, wanted: &[u8]) -> bool {
    match found {
        Ok(word) => word.symbols() == wanted,
        Err(_) => false,
    }
}

// The same, and none if no word is found.
fn is_message(found: Result<Option<Word>, NoMemory>, wanted: &[u8]) -> bool {
    match found {
        Ok(Some(word)) => word.symbols() == wanted,
        Ok(None) => wanted.is_empty(),
        Err(_) => false,
    }
}

// Whether this is so of the words of a code.
fn are_received(alloc: Global, code: &Code) -> bool {
    for row in &WORDS {
        if !is_word(code.field(), code.length(), row.0)
            || !is_found(syndrome(alloc, code, row.0), row.1)
            || !is_message(message_of(alloc, code, row.0), row.2)
        {
            return false;
        }
    }
    true
}

// The symbols of a word, or why there is none.
type Answer = Result<&'static [u8], CodeRefusal>;

// Whether a word is found that has these symbols, or it is refused so.
fn is_answer(found: Result<Word, CodeRefusal>, wanted: &Answer) -> bool {
    match found {
        Ok(word) => match wanted {
            Ok(symbols) => word.symbols() == *symbols,
            Err(_) => false,
        },
        Err(refusal) => match wanted {
            Ok(_) => false,
            Err(other) => refusal == *other,
        },
    }
}

// Messages, and their codewords or why there are none.
static MESSAGES: [(&[u8], Answer); 3] = [
    (&[1, 0, 1, 1], Ok(&[1, 0, 1, 1, 0, 1, 0])),
    (&[1, 0, 1], Err(CodeRefusal::LengthsDiffer)),
    (&[1, 0, 1, 2], Err(CodeRefusal::BadArgument(2))),
];

// Whether this is so of the messages of a code.
fn are_encoded(alloc: Global, code: &Code) -> bool {
    for row in &MESSAGES {
        if !is_answer(encode(alloc, code, row.0), &row.1) {
            return false;
        }
    }
    true
}

// Whether both are so of the Hamming code.
fn is_hamming(alloc: Global) -> bool {
    match made_over(alloc, 2, &Made::Hamming(3)) {
        Ok(code) => are_received(alloc, &code) && are_encoded(alloc, &code),
        Err(_) => false,
    }
}

#[test]
fn words_have_their_syndromes_and_messages_their_codewords(rt: HostRuntime) {
    assert!(rt; is_hamming(rt.alloc()));
}

// Whether this is the sum of two words over q elements.
fn is_sum(alloc: Global, q: u64, x: &[u8], y: &[u8], sum: &Answer) -> bool {
    match Field::of(alloc, q) {
        Ok(field) => is_answer(add_words(alloc, &field, x, y), sum),
        Err(_) => false,
    }
}

// Whether this is c times a word over q elements.
fn is_multiple(alloc: Global, q: u64, c: u8, x: &[u8], multiple: &Answer) -> bool {
    match Field::of(alloc, q) {
        Ok(field) => is_answer(scale_word(alloc, &field, c, x), multiple),
        Err(_) => false,
    }
}

// Sizes of fields, two words, and their sum.
static SUMS: [(u64, &[u8], &[u8], Answer); 3] = [
    (4, &[1, 2, 3], &[3, 3, 3], Ok(&[2, 1, 0])),
    (25, &[1], &[], Err(CodeRefusal::FieldTooLarge)),
    (3, &[3], &[3], Err(CodeRefusal::BadArgument(1))),
];

// Elements of the field of 4, words, and the multiples.
static MULTIPLES: [(u8, &[u8], Answer); 2] = [
    (2, &[1, 2, 3], Ok(&[2, 3, 1])),
    (4, &[4], Err(CodeRefusal::BadArgument(1))),
];

#[test]
fn words_are_added_and_multiplied(rt: HostRuntime) {
    for row in &SUMS {
        assert!(rt; is_sum(rt.alloc(), row.0, row.1, row.2, &row.3));
    }
    for row in &MULTIPLES {
        assert!(rt; is_multiple(rt.alloc(), 4, row.0, row.1, &row.2));
    }
    assert!(rt; hamming_distance(&[1, 0, 2, 1], &[1, 2, 2, 0]) == Ok(2));
    assert!(rt; hamming_distance(&[1], &[]) == Err(CodeRefusal::LengthsDiffer));
}

// The size of a field, a code, another one, and whether the code lies in its dual, is its dual, is cyclic, lies in the other code and
// is the same.
type Facts = (u64, Made, Made, [bool; 5]);

// The simplex code is checked by the rows of the Hamming code; the extended Hamming code is its own dual; the words of sum 0 over 3
// elements are checked by a row of ones.
static FACTS: [Facts; 3] = [
    (
        2,
        Made::Checked(&[
            &[1, 0, 0, 0, 0, 1, 1],
            &[0, 1, 0, 0, 1, 0, 1],
            &[0, 0, 1, 0, 1, 1, 0],
            &[0, 0, 0, 1, 1, 1, 1],
        ]),
        Made::Hamming(3),
        [true, false, false, true, false],
    ),
    (
        2,
        Made::ReedMuller(1, 3),
        Made::Generated(&[
            &[1, 0, 0, 1, 0, 1, 1, 0],
            &[0, 1, 0, 1, 0, 1, 0, 1],
            &[0, 0, 1, 1, 0, 0, 1, 1],
            &[0, 0, 0, 0, 1, 1, 1, 1],
        ]),
        [true, true, false, true, true],
    ),
    (
        3,
        Made::Repetition(3),
        Made::Checked(&[&[1, 1, 1]]),
        [true, false, true, true, false],
    ),
];

// What is so of a code and another one.
fn facts(alloc: Global, code: &Code, other: &Code) -> Result<[bool; 5], CodeRefusal> {
    Ok([
        is_self_orthogonal(code),
        is_self_dual(alloc, code)?,
        is_cyclic(alloc, code)?,
        is_subcode(alloc, code, other)?,
        is_same_code(code, other)?,
    ])
}

fn are_facts_of(alloc: Global, code: &Code, row: &Facts) -> bool {
    match made_over(alloc, row.0, &row.2) {
        Ok(other) => facts(alloc, code, &other) == Ok(row.3),
        Err(_) => false,
    }
}

fn are_facts(alloc: Global, row: &Facts) -> bool {
    match made_over(alloc, row.0, &row.1) {
        Ok(code) => are_facts_of(alloc, &code, row),
        Err(_) => false,
    }
}

#[test]
fn codes_are_told_apart(rt: HostRuntime) {
    for row in &FACTS {
        assert!(rt; are_facts(rt.alloc(), row));
    }
}
