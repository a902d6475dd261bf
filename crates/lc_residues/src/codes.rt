//! Quadratic residue codes.
ghost use Rattle.std.specs.Prelude.{◌≡◌, ◌<◌, ◌≤◌, ◌↔◌, false, None, length, IfOk, IfSome, IsSome, IsOk, IsTrue};
ghost use Rattle.lc_algebra.specs.Field.{size, is_symbol};
ghost use Rattle.lc_constructions.specs.Code.{longest, IsCode};
ghost use Rattle.lc_constructions.specs.Refusal.{first_refusal, IsRefusedAs, RefusesFirst};
ghost use Rattle.lc_constructions.specs.Refusals.{length_refusals};
ghost use Rattle.lc_language.specs.QuadraticResidues.{is_residue_length, period, residue_symbol, residue_word, cyclic_shift, residue_rows, InResidueCode};

use crate::periods::period;
use crate::residues::{is_residue, is_residue_length};
use lc_basic::check_length;
use lc_code::{Code, CodeRefusal};
use lc_field::{Field, NoMemory};
use lc_vec::Word;
use std::alloc::Global;

/// A quadratic residue code of length `n` over the field, the sums of multiples of the word of ones and of the cyclic shifts of one
/// word: 1 at the quadratic residues modulo n, minus t at 0, and 0 elsewhere, where t is the Gaussian period with the least number
/// (MacWilliams and Sloane, chapter 16; GUAVA manual, `QRCode`). None exactly if `n` is no odd prime modulo which the size of the
/// field is a quadratic residue.
///
/// Its dimension is (n + 1) / 2. Refused in this order, before that is looked at: the field has more than 16 elements,
/// FieldTooLarge; `n` is 0 or above 255, BadLength. Fails if memory runs out.
#[tactic(auto, using(lc_constructions::proofs::RefusalLaws::refused_or_not))]
pub fn quadratic_residue(alloc: Global, n: u64, field: &Field) -> Result<Option<Code>, CodeRefusal>
    ensures code { IfOk result (λ o.
        IfSome o (λ c. IsCode field.now n (InResidueCode field.now n (period field.now n)) c)) }
    ensures exact { IfOk result (λ o. IsSome o ↔ IsTrue (is_residue_length (size field.now) n)) }
    ensures refused { IsRefusedAs result (first_refusal (length_refusals field.now n)) }
    ensures first { RefusesFirst result (first_refusal (length_refusals field.now n)) }
    ensures none { first_refusal (length_refusals field.now n) ≡ None →
        is_residue_length (size field.now) n ≡ false → IsOk result }
{
    check_length(field, n)?;
    if !is_residue_length(field.size() as u64, n) {
        return Ok(None);
    }
    Ok(Some(residue_code(alloc, n as usize, field)?))
}

// The code of the least period.
#[tactic(auto, using(crate::proofs::CodeLaws::residue_code_laws))]
fn residue_code(alloc: Global, n: usize, field: &Field) -> Result<Code, NoMemory>
    requires symbol { IsTrue (is_symbol field.now) }
    requires least { 1 ≤ n }
    requires most { n ≤ longest }
    requires length { IsTrue (is_residue_length (size field.now) n) }
    ensures code { IfOk result (λ c. IsCode field.now n (InResidueCode field.now n (period field.now n)) c) }
{
    let rows = residue_rows(alloc, n, field, period(field, n as u64))?;
    Ok(Code::from_rows(alloc, field, n, &rows)?)
}

// The word of ones, and the cyclic shifts of the residue word.
#[tactic(auto, using(crate::proofs::CodeLaws::residue_rows_laws))]
fn residue_rows(alloc: Global, n: usize, field: &Field, t: u8) -> Result<Vec<Word>, NoMemory>
    requires least { 1 ≤ n }
    requires most { n ≤ longest }
    requires element { t < size field.now }
    ensures are { IfOk result (λ rows. rows.items ≡ residue_rows field.now n t) }
{
    let word = residue_word(alloc, n, field, t)?;
    let ones = Word::from_vec(vec![in alloc; 1u8; n]?);
    let mut rows = vec![in alloc; ones]?;
    for k in 0..n {
        rows.push(cyclic_shift(alloc, n, k, &word)?)?;
    }
    Ok(rows)
}

// Minus t at 0, 1 at the residues and 0 at the other coordinates.
#[tactic(auto, using(crate::proofs::CodeLaws::residue_word_laws))]
fn residue_word(alloc: Global, n: usize, field: &Field, t: u8) -> Result<Vec<u8>, NoMemory>
    requires least { 1 ≤ n }
    requires most { n ≤ longest }
    requires element { t < size field.now }
    ensures is { IfOk result (λ w. w.items ≡ residue_word field.now n t) }
{
    let mut symbols = Vec::with_capacity(alloc, n)?;
    for i in 0..n {
        symbols.push(residue_symbol(field, n, t, i))?;
    }
    Ok(symbols)
}

// The symbol of this word at the coordinate i.
#[tactic(auto, unfolding(lc_language::specs::QuadraticResidues::residue_symbol))]
fn residue_symbol(field: &Field, n: usize, t: u8, i: usize) -> u8
    requires least { 1 ≤ n }
    requires most { n ≤ longest }
    requires element { t < size field.now }
    ensures is { result ≡ residue_symbol field.now n t i }
{
    if i == 0 {
        field.neg(t)
    } else if is_residue(n as u64, i as u64) {
        1
    } else {
        0
    }
}

// A word of n symbols, moved on by k coordinates.
#[tactic(auto, using(crate::proofs::CodeLaws::cyclic_shift_laws))]
fn cyclic_shift(alloc: Global, n: usize, k: usize, word: &[u8]) -> Result<Word, NoMemory>
    requires most { n ≤ longest }
    requires shift { k < n }
    requires long { length word.now ≡ n }
    ensures is { IfOk result (λ w. w ≡ cyclic_shift n k word.now) }
{
    let mut symbols = Vec::with_capacity(alloc, n)?;
    for i in 0..n {
        symbols.push(word[(i + (n - k)) % n])?;
    }
    Ok(Word::from_vec(symbols))
}
