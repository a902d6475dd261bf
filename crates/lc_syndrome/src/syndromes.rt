//! Syndromes as numbers.
ghost use Rattle.std.specs.Prelude.{◌≡◌, ℕ, ◌+◌, ◌-◌, ◌*◌, ◌^◌, ◌<◌, ◌≤◌, List, drop, length, IfOk, IsTrue};
ghost use Rattle.lc_algebra.specs.Field.{size, is_symbol, shape_of};
ghost use Rattle.lc_algebra.specs.Residue.{number};
ghost use Rattle.lc_algebra.specs.Word.{IsWord, zero_word, Fits};
ghost use Rattle.lc_algebra.specs.Matrix.{AreRows};
ghost use Rattle.lc_constructions.specs.Code.{longest};
ghost use Rattle.lc_constructions.specs.Coset.{syndrome};
ghost use Rattle.lc_syndrome.specs.Syndrome.{syndrome_number, coset_count, unit, sum_number, IsNumberedTo};

use lc_field::{Field, NoMemory};
use lc_matrix::Matrix;
use lc_vec::dot;
use std::alloc::Global;
use std::marker::Model;

/// The rows of a check matrix, with the syndromes of all words that have one nonzero symbol.
///
/// Contracts see it as the matrix. The syndrome of a word is written as the number whose digits are its symbols, the first one
/// lowest; there are at most 2^20.
#[derive(Drop)]
pub(crate) struct Syndromes {
    checks: Matrix,
    numbers: Vec<u32>,
}

impl Model for Syndromes {
    ghost use Rattle.lc_algebra.specs.Matrix.{Matrix as MatrixValue};
    ghost use Rattle.lc_syndrome.specs.Syndrome.{IsNumbered};

    ghost Value = { MatrixValue };

    ghost view = { λ s. s.checks };

    ghost invariant = { λ s. IsNumbered s.checks s.numbers.items };
}

impl Syndromes {
    /// The syndromes by these checks.
    pub(crate) fn build(alloc: Global, checks: Matrix) -> Result<Syndromes, NoMemory>
        requires symbol { IsTrue (is_symbol checks.field) }
        requires most { checks.columns ≤ longest }
        requires few { coset_count checks ≤ 2 ^ 20 }
        ensures is { IfOk result (λ s. s ≡ checks) }
    {
        let numbers = unit_numbers(alloc, &checks)?;
        Ok(Syndromes { checks, numbers })
    }

    /// The field of the symbols.
    pub(crate) fn field(&self) -> &Field
        ensures is { result.now ≡ self.now.field }
        ensures symbol { IsTrue (is_symbol self.now.field) }
    {
        self.checks.field()
    }

    /// The length of the words.
    pub(crate) fn length(&self) -> usize
        ensures is { result ≡ self.now.columns }
        ensures most { result ≤ longest }
    {
        self.checks.cols()
    }

    /// The number of syndromes of so many symbols: q^m for m checks over q elements.
    #[tactic(auto, using(crate::proofs::NumberLaws::few_checks))]
    pub(crate) fn cosets(&self) -> usize
        ensures is { result ≡ coset_count self.now }
        ensures few { result ≤ 2 ^ 20 }
    {
        (self.checks.field().size() as usize).pow(self.checks.rows() as u32)
    }

    /// The number of the syndrome of the word that has c at coordinate i and zeros elsewhere.
    #[inline]
    #[tactic(auto, using(crate::proofs::NumberLaws::of_symbol_laws))]
    pub(crate) fn of_symbol(&self, i: usize, c: u8) -> u32
        requires inside { i < self.now.columns }
        requires element { c < size self.now.field }
        ensures is { result ≡ syndrome_number self.now (unit self.now.columns i c) }
        ensures below { result < coset_count self.now }
    {
        self.numbers[i * self.checks.field().size() as usize + c as usize]
    }

    /// The number of the sum of the syndromes with these numbers.
    #[inline]
    #[tactic(auto, using(crate::proofs::NumberLaws::sum_laws))]
    pub(crate) fn sum(&self, a: u32, b: u32) -> u32
        requires first { a < coset_count self.now }
        requires second { b < coset_count self.now }
        ensures is { result ≡ sum_number self.now.field (length self.now.rows) a b }
        ensures below { result < coset_count self.now }
    {
        if self.checks.field().characteristic() == 2 {
            return a ^ b;
        }
        digit_sum(self.checks.field(), self.checks.rows(), a, b)
    }

    /// The number of the syndrome of a word: symbol by symbol in characteristic 2, in which sums are fast, else check by check.
    #[tactic(auto, using(crate::proofs::NumberLaws::of_laws))]
    pub(crate) fn of(&self, word: &[u8]) -> u32
        requires word { IsWord self.now.field self.now.columns word.now }
        ensures is { result ≡ syndrome_number self.now word.now }
        ensures below { result < coset_count self.now }
    {
        if self.checks.field().characteristic() != 2 {
            return number_of(&self.checks, word);
        }
        let mut number = 0;
        for i in 0..word.len() {
            number = self.sum(number, self.of_symbol(i, word[i]));
        }
        number
    }
}

// The sum of two syndromes of m symbols, digit by digit.
#[tactic(auto, using(crate::proofs::NumberLaws::digit_sum_laws))]
fn digit_sum(field: &Field, m: usize, a: u32, b: u32) -> u32
    requires few { size field.now ^ m ≤ 2 ^ 20 }
    ensures is { result ≡ sum_number field.now m a b }
    ensures below { result < size field.now ^ m }
{
    if m == 0 {
        return 0;
    }
    let q = field.size() as u32;
    let rest = digit_sum(field, m - 1, a / q, b / q);
    field.add((a % q) as u8, (b % q) as u8) as u32 + q * rest
}

// The numbers of the syndromes of the words with one nonzero symbol: at q i + c for the symbol c at coordinate i.
#[tactic(auto, using(crate::proofs::NumberLaws::unit_numbers_laws))]
fn unit_numbers(alloc: Global, checks: &Matrix) -> Result<Vec<u32>, NoMemory>
    requires most { checks.now.columns ≤ longest }
    requires few { coset_count checks.now ≤ 2 ^ 20 }
    ensures are { IfOk result
        (λ numbers. IsNumberedTo checks.now (checks.now.columns * size checks.now.field) numbers.items) }
{
    let q = checks.field().size() as usize;
    let mut word = vec![in alloc; 0u8; checks.cols()]?;
    let mut numbers = Vec::new(alloc);
    for t in 0..checks.cols() * q {
        word[t / q] = (t % q) as u8;
        numbers.push(number_of(checks, &word))?;
        word[t / q] = 0;
    }
    Ok(numbers)
}

// The number of the syndrome of a word, check by check.
#[tactic(auto, using(crate::proofs::NumberLaws::number_of_laws))]
fn number_of(checks: &Matrix, word: &[u8]) -> u32
    requires word { IsWord checks.now.field checks.now.columns word.now }
    requires few { coset_count checks.now ≤ 2 ^ 20 }
    ensures is { result ≡ syndrome_number checks.now word.now }
{
    let field = checks.field();
    let q = field.size() as u32;
    let m = checks.rows();
    let mut number: u32 = 0;
    for t in 0..m {
        number = dot(field, checks.row(m - 1 - t), word) as u32 + q * number;
    }
    number
}
