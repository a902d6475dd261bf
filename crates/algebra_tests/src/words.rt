//! Tests of what the contracts are meant to say, by values from outside.
use lc_field::{Field, NoMemory};
use lc_vec::{Word, add_scaled, dot, first_nonzero, fits, scale, weight};
use std::alloc::Global;

// The size of a field, an element, a word and an element.
type Row = (u64, u8, [u8; 4], u8);

// Over fields of 3, 4, 9 and 16 elements: c, the sum of [0, 1, 2, q - 1] and c times [1, 2, q - 1, q - 1], and the dot of
// both words, as tools/linear_algebra.py prints them.
static WORDS: [Row; 4] = [
    (3, 2, [2, 2, 0, 0], 1),
    (4, 3, [3, 0, 0, 1], 1),
    (9, 8, [8, 5, 1, 7], 5),
    (16, 15, [15, 12, 8, 5], 5),
];

// Whether weights and first nonzero coordinates of such words are so.
fn has_weights(top: u8) -> bool {
    weight(&[1, 2, top, top]) == 4
        && weight(&[0, 1, 2, top]) == 3
        && first_nonzero(&[0, 1, 2, top]) == Some(1)
}

// Whether the field has the row's dot and sum, and the multiple by 0 has no nonzero symbol.
fn has_sums(field: &Field, row: &Row, top: u8) -> bool {
    let mut to = [0, 1, 2, top];
    let from = [1, 2, top, top];
    if !fits(field, &to) || !fits(field, &from) || field.size() <= row.1 as u16 {
        return false;
    }
    let product = dot(field, &to, &from);
    add_scaled(field, &mut to, &from, row.1);
    let is_right = product == row.3 && to == row.2;
    scale(field, &mut to, 0);
    is_right && first_nonzero(&to).is_none()
}

// Whether the number of elements is no element of the field, and the words are as the row says.
fn is_right(field: &Field, row: &Row) -> bool {
    let size = field.size();
    if size < 3 || 16 < size {
        return false;
    }
    let top = (size - 1) as u8;
    !fits(field, &[0, size as u8]) && has_weights(top) && has_sums(field, row, top)
}

// Whether this is so in the field of the row.
fn has_row(alloc: Global, row: &Row) -> bool {
    match Field::of(alloc, row.0) {
        Ok(field) => is_right(&field, row),
        Err(_refusal) => false,
    }
}

#[test]
fn words_over_fields(rt: HostRuntime) {
    for row in &WORDS {
        assert!(rt; has_row(rt.alloc(), row), "over {}", row.0);
    }
}

// Whether there is a word, and it has these symbols.
fn is_word(word: Result<Word, NoMemory>, symbols: &[u8]) -> bool {
    match word {
        Ok(word) => word.symbols() == symbols && word.len() == symbols.len(),
        Err(NoMemory) => false,
    }
}

// Whether a copy of the word of these symbols has them.
fn is_kept(alloc: Global, symbols: &[u8]) -> bool {
    match Word::from_slice(alloc, symbols) {
        Ok(word) => is_word(word.copy(alloc), symbols),
        Err(NoMemory) => false,
    }
}

#[test]
fn words_are_kept(rt: HostRuntime) {
    assert!(rt; is_kept(rt.alloc(), &[2, 0, 1]));
    assert!(rt; is_word(Word::zero(rt.alloc(), 3), &[0, 0, 0]));
    assert!(rt; is_word(Word::zero(rt.alloc(), 0), &[]));
}
