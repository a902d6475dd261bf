//! Words that own their symbols.
ghost use Rattle.std.specs.Prelude.{◌≡◌, ℕ, ◌<◌, List, [], length, IsOk, IfOk};
ghost use Rattle.lc_algebra.specs.Field.{size};
ghost use Rattle.lc_algebra.specs.Word.{Fits, zero_word, word_sum, scale as scale_of};

use crate::slices::{put_added, put_sum};
use lc_field::{Field, NoMemory};
use std::alloc::Global;
use std::marker::Model;

/// A word: a list of symbols, each the number of an element of some field, so at most 255.
///
/// Contracts see it as the list of its symbols, from the left.
#[derive(Drop)]
pub struct Word {
    symbols: Vec<u8>,
}

impl Model for Word {
    ghost Value = { List ℕ };

    ghost view = { λ w. w.symbols.items };
}

impl Word {
    /// The word with these symbols. Any list of symbols is a word; which field they belong to is the caller's to know. A word of no
    /// symbols takes no memory.
    pub fn from_slice(alloc: Global, symbols: &[u8]) -> Result<Word, NoMemory>
        ensures is { IfOk result (λ w. w ≡ symbols.now) }
        ensures nothing { symbols.now ≡ [] → IsOk result }
    {
        let mut list = Vec::new(alloc);
        list.extend_from_slice(symbols)?;
        Ok(Word { symbols: list })
    }

    /// The word with these symbols, whose memory it keeps; no other is taken.
    pub fn from_vec(symbols: Vec<u8>) -> Word
        ensures is { result ≡ symbols.items }
    {
        Word { symbols }
    }

    /// The zero word of `n` symbols.
    pub fn zero(alloc: Global, n: usize) -> Result<Word, NoMemory>
        ensures is { IfOk result (λ w. w ≡ zero_word n) }
    {
        Ok(Word {
            symbols: vec![in alloc; 0u8; n]?,
        })
    }

    /// The same word, with symbols of its own.
    pub fn copy(&self, alloc: Global) -> Result<Word, NoMemory>
        ensures same { IfOk result (λ w. w ≡ self.now) }
    {
        Word::from_slice(alloc, &self.symbols)
    }

    /// The symbols, from the left.
    pub fn symbols(&self) -> &[u8]
        ensures are { result.now ≡ self.now }
    {
        &self.symbols
    }

    /// Makes it the sum of the word `word` and `c` times the word `from`.
    ///
    /// All have the same length, and the symbols of `word` and `from` and `c` are elements of the field.
    pub fn put_sum(&mut self, field: &Field, word: &[u8], from: &[u8], c: u8)
        requires to { length self.old ≡ length word.now }
        requires lengths { length word.now ≡ length from.now }
        requires word { Fits field.now word.now }
        requires from { Fits field.now from.now }
        requires element { c < size field.now }
        ensures is { self.new ≡ word_sum field.now word.now (scale_of field.now c from.now) }
        ensures fits { Fits field.now self.new }
    {
        put_sum(field, &mut self.symbols, word, from, c);
    }

    /// Makes it the sum of two words.
    ///
    /// All have the same length, and the symbols of the two are elements of the field.
    pub fn put_added(&mut self, field: &Field, word: &[u8], other: &[u8])
        requires to { length self.old ≡ length word.now }
        requires lengths { length word.now ≡ length other.now }
        requires word { Fits field.now word.now }
        requires other { Fits field.now other.now }
        ensures is { self.new ≡ word_sum field.now word.now other.now }
        ensures fits { Fits field.now self.new }
    {
        put_added(field, &mut self.symbols, word, other);
    }

    /// The number of symbols.
    pub fn len(&self) -> usize
        ensures is { result ≡ length self.now }
    {
        self.symbols.len()
    }
}

// Proved only where its argument may go to another thread and be shared with it.
fn crosses_threads<T: Send + Sync>(_value: &T) {}

// A word is `Send` and `Sync`.
fn word_crosses_threads(word: &Word) {
    crosses_threads(word);
}
