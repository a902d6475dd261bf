//! Messages and their codewords.
ghost use Rattle.std.specs.Prelude.{◌≡◌, ◌↔◌, length, IfOk, IfSome, IsSome};
ghost use Rattle.lc_algebra.specs.Word.{IsWord, zero_word};
ghost use Rattle.lc_algebra.specs.Span.{combine};
ghost use Rattle.lc_constructions.specs.Code.{InCode};
ghost use Rattle.lc_constructions.specs.Refusal.{first_refusal, IsRefusedAs, RefusesFirst};
ghost use Rattle.lc_language.specs.Relations.{IsMessageOf, message_refusals};
ghost use Rattle.lc_relations.specs.Leads.{leading_symbol, leading_symbols};

use crate::refusal::check_message;
use lc_code::{Code, CodeRefusal};
use lc_field::NoMemory;
use lc_vec::{Word, add_scaled, first_nonzero};
use std::alloc::Global;

/// The codeword of a message: the sum of its symbols times the rows of the reduced generator matrix (MacWilliams and Sloane,
/// chapter 1).
///
/// Refused in this order: the message hasn't as many symbols as the code has dimensions, LengthsDiffer; a symbol is no element of the
/// code's field, BadArgument(2).
#[tactic(auto, using(lc_constructions::proofs::RefusalLaws::refused_or_not))]
pub fn encode(alloc: Global, code: &Code, message: &[u8]) -> Result<Word, CodeRefusal>
    ensures is { IfOk result (λ w. w ≡ combine code.now.field code.now.columns message.now code.now.rows) }
    ensures refused { IsRefusedAs result (first_refusal (message_refusals code.now message.now)) }
    ensures first { RefusesFirst result (first_refusal (message_refusals code.now message.now)) }
{
    check_message(code, message)?;
    Ok(codeword_of(alloc, code, message)?)
}

/// The codeword of a message, which has as many symbols of the code's field as the code has dimensions.
pub fn codeword_of(alloc: Global, code: &Code, message: &[u8]) -> Result<Word, NoMemory>
    requires message { IsWord code.now.field (length code.now.rows) message.now }
    ensures is { IfOk result (λ w. w ≡ combine code.now.field code.now.columns message.now code.now.rows) }
{
    let mut sum = vec![in alloc; 0u8; code.length()]?;
    put_encoded(code, message, &mut sum);
    Ok(Word::from_vec(sum))
}

// Puts this sum into a buffer of as many zeros as a row has symbols, from the last row on.
fn put_encoded(code: &Code, message: &[u8], sum: &mut [u8])
    requires message { IsWord code.now.field (length code.now.rows) message.now }
    requires zeros { sum.old ≡ zero_word code.now.columns }
    ensures is { sum.new ≡ combine code.now.field code.now.columns message.now code.now.rows }
{
    let k = code.dimension();
    for i in 0..k {
        let row = k - 1 - i;
        add_scaled(code.field(), sum, code.row(row), message[row]);
    }
}

/// The message of a codeword, which has one alone; None exactly if the word is not in the code (Sage manual, `unencode`; GUAVA manual,
/// `InformationWord`).
///
/// The word has as many symbols of the code's field as the code's length.
#[tactic(auto, using(crate::proofs::EncodingLaws::message_is))]
pub fn message_of(alloc: Global, code: &Code, word: &[u8]) -> Result<Option<Word>, NoMemory>
    requires word { IsWord code.now.field code.now.columns word.now }
    ensures is { IfOk result (λ o. IfSome o (λ u. IsMessageOf code.now word.now u)) }
    ensures exact { IfOk result (λ o. IsSome o ↔ InCode code.now word.now) }
{
    let _matrix = code.matrix();
    let mut rest = word.to_vec(alloc)?;
    if !code.contains(word, &mut rest) {
        return Ok(None);
    }
    Ok(Some(leading_symbols(alloc, code, word)?))
}

// The symbols of the word where the rows begin.
#[tactic(auto, unfolding(crate::specs::Leads::leading_symbols))]
fn leading_symbols(alloc: Global, code: &Code, word: &[u8]) -> Result<Word, NoMemory>
    requires word { IsWord code.now.field code.now.columns word.now }
    ensures are { IfOk result (λ u. u ≡ leading_symbols code.now.rows word.now) }
{
    let mut symbols = Vec::with_capacity(alloc, code.dimension())?;
    for i in 0..code.dimension() {
        symbols.push(leading_symbol(code.row(i), word))?;
    }
    Ok(Word::from_vec(symbols))
}

// The symbol of the word where the row begins; 0 for a row of zeros.
fn leading_symbol(row: &[u8], word: &[u8]) -> u8
    requires lengths { length row.now ≡ length word.now }
    ensures is { result ≡ leading_symbol word.now row.now }
{
    match first_nonzero(row) {
        Some(p) => word[p],
        None => 0,
    }
}
