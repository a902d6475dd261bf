//! Functions on words that are borrowed as slices of symbols. None of them takes memory.
ghost use Rattle.std.specs.Prelude.{◌≡◌, ◌<◌, ◌↔◌, IsTrue, length};
ghost use Rattle.lc_algebra.specs.Field.{size, shape_of, add};
ghost use Rattle.lc_algebra.specs.Word.{Fits, word_sum, scale as scale_of, weight as weight_of, word_dot, first_nonzero as first_nonzero_of};

use lc_field::Field;

/// Whether each symbol is an element of the field: its number is below the field's size.
pub fn fits(field: &Field, symbols: &[u8]) -> bool
    ensures is { IsTrue result ↔ Fits field.now symbols.now }
{
    let size = field.size();
    for a in symbols {
        if *a as u16 >= size {
            return false;
        }
    }
    true
}

/// Adds `c` times the word `from` to the word `to`, symbol by symbol.
///
/// Both words have the same length, and their symbols and `c` are elements of the field.
#[inline]
#[tactic(auto, using(crate::proofs::SymbolLaws::word_sum_made, lc_algebra::proofs::WordLaws::one_scale))]
pub fn add_scaled(field: &Field, to: &mut [u8], from: &[u8], c: u8)
    requires lengths { length to.old ≡ length from.now }
    requires to { Fits field.now to.old }
    requires from { Fits field.now from.now }
    requires element { c < size field.now }
    ensures is { to.new ≡ word_sum field.now to.old (scale_of field.now c from.now) }
    ensures fits { Fits field.now to.new }
{
    if c == 1 && field.characteristic() == 2 {
        add_exclusive(field, to, from);
        return;
    }
    for i in 0..to.len() {
        to[i] = field.add(to[i], field.mul(c, from[i]));
    }
}

// Adds the word `from` to the word `to` in characteristic 2, by exclusive or: a loop that the compiler does on many symbols at
// once.
#[tactic(auto, using(crate::proofs::SymbolLaws::sum_made))]
fn add_exclusive(field: &Field, to: &mut [u8], from: &[u8])
    requires even { (shape_of field.now).characteristic ≡ 2 }
    requires lengths { length to.old ≡ length from.now }
    requires to { Fits field.now to.old }
    requires from { Fits field.now from.now }
    ensures is { to.new ≡ word_sum field.now to.old from.now }
    ensures fits { Fits field.now to.new }
{
    for i in 0..to.len() {
        to[i] = exclusive(field, to[i], from[i]);
    }
}

/// Makes `to` the sum of the word `word` and `c` times the word `from`, symbol by symbol.
///
/// The three words have the same length, and the symbols of the last two and `c` are elements of the field.
#[inline]
#[tactic(auto, using(crate::proofs::SymbolLaws::word_sum_made))]
pub fn put_sum(field: &Field, to: &mut [u8], word: &[u8], from: &[u8], c: u8)
    requires to { length to.old ≡ length word.now }
    requires lengths { length word.now ≡ length from.now }
    requires word { Fits field.now word.now }
    requires from { Fits field.now from.now }
    requires element { c < size field.now }
    ensures is { to.new ≡ word_sum field.now word.now (scale_of field.now c from.now) }
    ensures fits { Fits field.now to.new }
{
    for i in 0..to.len() {
        to[i] = field.add(word[i], field.mul(c, from[i]));
    }
}

/// Makes `to` the sum of two words, symbol by symbol.
///
/// The three words have the same length, and the symbols of the last two are elements of the field.
#[inline]
#[tactic(auto, using(crate::proofs::SymbolLaws::sum_made))]
pub fn put_added(field: &Field, to: &mut [u8], word: &[u8], other: &[u8])
    requires to { length to.old ≡ length word.now }
    requires lengths { length word.now ≡ length other.now }
    requires word { Fits field.now word.now }
    requires other { Fits field.now other.now }
    ensures is { to.new ≡ word_sum field.now word.now other.now }
    ensures fits { Fits field.now to.new }
{
    if field.characteristic() == 2 {
        put_exclusive(field, to, word, other);
        return;
    }
    for i in 0..to.len() {
        to[i] = field.add(word[i], other[i]);
    }
}

// The same in characteristic 2, by exclusive or: a loop that the compiler does on many symbols at once.
#[tactic(auto, using(crate::proofs::SymbolLaws::sum_made))]
fn put_exclusive(field: &Field, to: &mut [u8], word: &[u8], other: &[u8])
    requires even { (shape_of field.now).characteristic ≡ 2 }
    requires to { length to.old ≡ length word.now }
    requires lengths { length word.now ≡ length other.now }
    requires word { Fits field.now word.now }
    requires other { Fits field.now other.now }
    ensures is { to.new ≡ word_sum field.now word.now other.now }
    ensures fits { Fits field.now to.new }
{
    for i in 0..to.len() {
        to[i] = exclusive(field, word[i], other[i]);
    }
}

// The sum of two elements in characteristic 2.
#[inline]
#[tactic(auto, using(lc_field::proofs::SumLaws::xor_add, lc_field::proofs::SumLaws::xor_below))]
fn exclusive(_field: &Field, a: u8, b: u8) -> u8
    requires even { (shape_of _field.now).characteristic ≡ 2 }
    requires first { a < size _field.now }
    requires second { b < size _field.now }
    ensures is { result ≡ add _field.now a b }
    ensures below { result < size _field.now }
{
    a ^ b
}

/// Multiplies each symbol of the word by `c`.
///
/// The symbols and `c` are elements of the field.
#[inline]
#[tactic(auto, using(crate::proofs::SymbolLaws::scale_made))]
pub fn scale(field: &Field, to: &mut [u8], c: u8)
    requires word { Fits field.now to.old }
    requires element { c < size field.now }
    ensures is { to.new ≡ scale_of field.now c to.old }
    ensures fits { Fits field.now to.new }
{
    for i in 0..to.len() {
        to[i] = field.mul(c, to[i]);
    }
}

/// The number of nonzero symbols: the Hamming weight (MacWilliams and Sloane, chapter 1).
#[inline]
pub fn weight(symbols: &[u8]) -> usize
    ensures is { result ≡ weight_of symbols.now }
{
    symbols.iter().filter(|a| **a != 0).count()
}

/// The sum of the products of the symbols of two words, coordinate by coordinate.
///
/// Both words have the same length, and their symbols are elements of the field.
#[inline]
#[tactic(auto, using(crate::proofs::SymbolLaws::dot_laws))]
pub fn dot(field: &Field, a: &[u8], b: &[u8]) -> u8
    requires lengths { length a.now ≡ length b.now }
    requires first { Fits field.now a.now }
    requires second { Fits field.now b.now }
    ensures is { result ≡ word_dot field.now a.now b.now }
    ensures below { result < size field.now }
{
    let mut sum = 0;
    for i in 0..a.len() {
        sum = field.add(sum, field.mul(a[i], b[i]));
    }
    sum
}

/// The coordinate of the first nonzero symbol, from 0; None exactly if all symbols are 0.
#[inline]
pub fn first_nonzero(symbols: &[u8]) -> Option<usize>
    ensures is { result ≡ first_nonzero_of symbols.now }
{
    symbols.iter().position(|a| *a != 0)
}
