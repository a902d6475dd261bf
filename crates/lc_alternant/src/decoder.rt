//! Decoding within half of the number of checks.
ghost use Rattle.std.specs.Prelude.{◌≡◌, ℕ, ◌*◌, ◌<◌, ◌↔◌, List, length, map, Some, IfOk, IfSome, IsTrue};
ghost use Rattle.lc_algebra.specs.Field.{size, add, neg};
ghost use Rattle.lc_algebra.specs.Embedding.{IsSubfield, embed};
ghost use Rattle.lc_algebra.specs.Word.{Fits, IsWord, difference, distance};
ghost use Rattle.lc_constructions.specs.Alternant.{IsFormOf};
ghost use Rattle.lc_constructions.specs.Nearest.{IsWithin, IsDecoded};
ghost use Rattle.lc_alternant.specs.Checks.{AreSyndromes, IsReach};

use crate::checks::syndromes;
use crate::errors::errors_at_zeros;
use crate::key::key_values;
use lc_code::{Alternant, Code};
use lc_field::{Field, NoMemory};
use lc_vec::{Word, put_sum, weight};
use std::alloc::Global;

/// Decodes a received word. Returns the word of the code that differs from it in at most half of r symbols, rounded down; r is
/// the number of checks of the code's alternant form. None exactly if there is no such word. There is never more than one, since
/// each nonzero word of the code has a weight above r (MacWilliams and Sloane, The Theory of Error-Correcting Codes, chapter 12).
///
/// The form is one of the code's: a constructor that makes a code with a form gives both. The word has the code's length, and its
/// symbols are elements of the code's field. Binary Goppa codes with a square-free polynomial could correct more errors; that
/// isn't used.
pub fn decode(
    alloc: Global,
    code: &Code,
    form: &Alternant,
    word: &[u8],
) -> Result<Option<Word>, NoMemory>
    requires form { IsFormOf code.now form.now }
    requires word { IsWord code.now.field code.now.columns word.now }
    ensures decoded { IfOk result (λ o. IsDecoded code.now form.now word.now o) }
{
    let t = reach(form);
    let mut rest = vec![in alloc; 0u8; word.len()]?;
    match candidate(alloc, code, form, word, t)? {
        Some(near) => {
            if is_within(code, word, near.symbols(), t, &mut rest) {
                return Ok(Some(near));
            }
            Ok(None)
        }
        None => Ok(None),
    }
}

// The number of errors that are corrected: half of the number of checks, but no more than there are coordinates.
fn reach(form: &Alternant) -> usize
    ensures is { IsReach form.now result }
{
    let t = form.r / 2;
    if t < form.points.len() {
        t
    } else {
        form.points.len()
    }
}

// Whether a word is in the code and differs from the received word at no more than t coordinates. The buffer has the words' length.
fn is_within(code: &Code, word: &[u8], near: &[u8], t: usize, rest: &mut [u8]) -> bool
    requires word { IsWord code.now.field code.now.columns word.now }
    requires near { IsWord code.now.field code.now.columns near.now }
    requires buffer { length rest.old ≡ code.now.columns }
    ensures is { IsTrue result ↔ IsWithin code.now word.now t near.now }
{
    distance(code.field(), word, near, rest) <= t && code.contains(near, rest)
}

// The number of coordinates at which two words of one length differ. The buffer has that length too.
#[tactic(auto, using(crate::proofs::DecodedLaws::distance_laws))]
fn distance(field: &Field, word: &[u8], near: &[u8], rest: &mut [u8]) -> usize
    requires word { Fits field.now word.now }
    requires near { Fits field.now near.now }
    requires lengths { length near.now ≡ length word.now }
    requires buffer { length rest.old ≡ length word.now }
    ensures is { result ≡ distance field.now word.now near.now }
    ensures length { length rest.new ≡ length rest.old }
{
    put_sum(field, rest, word, near, field.neg(1));
    weight(rest)
}

// The only word that can be a word of the code within t of the received word, if any can.
fn candidate(
    alloc: Global,
    code: &Code,
    form: &Alternant,
    word: &[u8],
    t: usize,
) -> Result<Option<Word>, NoMemory>
    requires form { IsFormOf code.now form.now }
    requires word { IsWord code.now.field code.now.columns word.now }
    requires reach { IsReach form.now t }
    ensures word { IfOk result (λ o. IfSome o (λ w. IsWord code.now.field code.now.columns w)) }
    ensures one { IfOk result (λ o. (u : List ℕ) → IsWithin code.now word.now t u → o ≡ Some u) }
{
    let syndromes = syndromes(alloc, code.field(), form, word, 2 * t)?;
    corrected(alloc, code, form, word, &syndromes, t)
}

// The same, from the first 2 t syndromes.
fn corrected(
    alloc: Global,
    code: &Code,
    form: &Alternant,
    word: &[u8],
    syndromes: &[u8],
    t: usize,
) -> Result<Option<Word>, NoMemory>
    requires form { IsFormOf code.now form.now }
    requires word { IsWord code.now.field code.now.columns word.now }
    requires reach { IsReach form.now t }
    requires fits { Fits form.now.locator syndromes.now }
    requires syndromes { AreSyndromes code.now.field form.now word.now (2 * t) syndromes.now }
    ensures word { IfOk result (λ o. IfSome o (λ w. IsWord code.now.field code.now.columns w)) }
    ensures one { IfOk result (λ o. (u : List ℕ) → IsWithin code.now word.now t u → o ≡ Some u) }
{
    let locator = &form.locator;
    let values = key_values(alloc, locator, &form.points, syndromes, t)?;
    match errors_at_zeros(
        alloc,
        locator,
        &form.points,
        &form.multipliers,
        &values,
        &syndromes[..t],
    )? {
        Some(errors) => {
            let near = subtracted(alloc, code.field(), locator, word, errors.symbols())?;
            Ok(near)
        }
        None => Ok(None),
    }
}

// The received word less the errors, which are given in the locator field: None if one of them isn't in the field of the word.
fn subtracted(
    alloc: Global,
    field: &Field,
    locator: &Field,
    word: &[u8],
    errors: &[u8],
) -> Result<Option<Word>, NoMemory>
    requires subfield { IsSubfield field.now locator.now }
    requires word { Fits field.now word.now }
    requires errors { IsWord locator.now (length word.now) errors.now }
    ensures word { IfOk result (λ o. IfSome o (λ w. IsWord field.now (length word.now) w)) }
    ensures one { IfOk result (λ o. (u : List ℕ) → IsWord field.now (length word.now) u →
        errors.now ≡ map (embed field.now locator.now) (difference field.now word.now u) → o ≡ Some u) }
{
    let mut symbols = Vec::with_capacity(alloc, word.len())?;
    for i in 0..word.len() {
        match locator.unembed(field, errors[i]) {
            Some(error) => symbols.push(subtract(field, word[i], error))?,
            None => return Ok(None),
        }
    }
    Ok(Some(Word::from_vec(symbols)))
}

// The difference of two elements.
fn subtract(field: &Field, a: u8, b: u8) -> u8
    requires first { a < size field.now }
    requires second { b < size field.now }
    ensures is { result ≡ add field.now a (neg field.now b) }
    ensures below { result < size field.now }
{
    field.add(a, field.neg(b))
}
