//! Rows of symbols for the crates of tests, as lists and as text: the words that they are, whether they are words of a length over a
//! field, and the matrix and the code that they make.
#![tactic(auto)]

ghost use Rattle.std.specs.Prelude.{IsTrue};
ghost use Rattle.lc_algebra.specs.Word.{IsWord};
ghost use Rattle.lc_algebra.specs.Matrix.{AreRows};

use lc_code::{Code, CodeRefusal};
use lc_field::{Field, FieldRefusal, NoMemory};
use lc_matrix::Matrix;
use lc_vec::{Word, fits};
use std::alloc::Global;

/// Rows of symbols.
pub type Rows = &'static [&'static [u8]];

/// Whether the word has n symbols of the field.
pub fn is_word(field: &Field, n: usize, word: &[u8]) -> bool
    ensures is { IsTrue result → IsWord field.now n word.now }
{
    word.len() == n && fits(field, word)
}

/// Whether the words have n symbols of the field.
pub fn are_words(field: &Field, n: usize, words: &[Word]) -> bool
    ensures is { IsTrue result → AreRows field.now n words.now }
{
    for word in words {
        if !is_word(field, n, word.symbols()) {
            return false;
        }
    }
    true
}

/// The words of these symbols.
pub fn words_of(alloc: Global, rows: Rows) -> Result<Vec<Word>, NoMemory> {
    let mut words = Vec::new(alloc);
    for row in rows {
        words.push(Word::from_slice(alloc, row)?)?;
    }
    Ok(words)
}

/// The number of a digit: 0 to 9, and then a to z. 255 if it is none.
pub fn number_of(digit: u8) -> u8 {
    match digit {
        b'0'..=b'9' => digit - b'0',
        b'a'..=b'z' => digit - b'a' + 10,
        _ => 255,
    }
}

// The word whose symbols are these digits.
fn word_in(alloc: Global, digits: &[u8]) -> Result<Word, NoMemory> {
    let mut symbols = Vec::new(alloc);
    for digit in digits {
        symbols.push(number_of(*digit))?;
    }
    Ok(Word::from_vec(symbols))
}

/// The words of a text, whose symbols are digits, with spaces between each two words.
pub fn words_in(alloc: Global, text: &str) -> Result<Vec<Word>, NoMemory> {
    let mut words = Vec::new(alloc);
    for digits in text.split_whitespace() {
        words.push(word_in(alloc, digits.as_bytes())?)?;
    }
    Ok(words)
}

// The matrix over a field of words of n symbols. Refuses with NotAField if they aren't.
fn matrix_over(
    alloc: Global,
    field: &Field,
    n: usize,
    words: &[Word],
) -> Result<Matrix, FieldRefusal> {
    if !are_words(field, n, words) {
        return Err(FieldRefusal::NotAField);
    }
    Ok(Matrix::from_rows(alloc, field, n, words)?)
}

// The same over q elements. Refuses with NotAField too if there is no such field.
fn matrix_of_words(
    alloc: Global,
    q: u64,
    n: usize,
    words: &[Word],
) -> Result<Matrix, FieldRefusal> {
    let field = Field::of(alloc, q)?;
    matrix_over(alloc, &field, n, words)
}

/// The matrix over q elements of rows that are words of n symbols. Refuses with NotAField if they aren't, or if there is no such
/// field.
pub fn matrix_of(alloc: Global, q: u64, n: usize, rows: Rows) -> Result<Matrix, FieldRefusal> {
    let words = words_of(alloc, rows)?;
    matrix_of_words(alloc, q, n, &words)
}

// The code over a field of words of n symbols. Refuses with BadLength if they aren't, or if there is no such code.
fn code_over(alloc: Global, field: &Field, n: usize, words: &[Word]) -> Result<Code, CodeRefusal> {
    if !field.is_symbol() || n < 1 || n > 255 || !are_words(field, n, words) {
        return Err(CodeRefusal::BadLength);
    }
    Ok(Code::from_rows(alloc, field, n, words)?)
}

/// The code over q elements of words of n symbols. Refuses with BadLength if they aren't, or if there is no such code.
pub fn code_of(alloc: Global, q: u64, n: usize, words: &[Word]) -> Result<Code, CodeRefusal> {
    match Field::of(alloc, q) {
        Ok(field) => code_over(alloc, &field, n, words),
        Err(_refusal) => Err(CodeRefusal::BadLength),
    }
}

/// The code over q elements of rows that are words of n symbols. Refuses with BadLength if they aren't, or if there is no such
/// code.
pub fn generated(alloc: Global, q: u64, n: usize, rows: Rows) -> Result<Code, CodeRefusal> {
    let words = words_of(alloc, rows)?;
    code_of(alloc, q, n, &words)
}

/// The same for the words of a text.
pub fn generated_by(alloc: Global, q: u64, n: usize, text: &str) -> Result<Code, CodeRefusal> {
    let words = words_in(alloc, text)?;
    code_of(alloc, q, n, &words)
}

/// Whether these are the rows of the code.
pub fn has_rows(code: &Code, rows: Rows) -> bool {
    if code.dimension() != rows.len() {
        return false;
    }
    for i in 0..code.dimension() {
        if code.row(i) != rows[i] {
            return false;
        }
    }
    true
}
