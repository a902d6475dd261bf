//! What calls on words, on a code and a word, and on two codes give.
ghost use Rattle.std.specs.Prelude.{◌≡◌, ◌≢◌, [], Err, IfOk, IfErr, IsOk};
ghost use Rattle.lc_constructions.specs.Refusal.{refusal_values};
ghost use Rattle.lc_language.specs.Calls as bound;
ghost use Rattle.lc_language.specs.Value as language;
ghost use Rattle.lc_language.specs.Evaluation.{AppliesTo};
ghost use Rattle.lc_calls.specs.Applied.{Answers};
ghost use Rattle.lc_calls.specs.Made.{IsMadeAs};
ghost use Rattle.lc_calls.specs.Value.{rows_of};

use crate::decoding::{checked, word_value};
use crate::made::made;
use crate::rows::{word_of, words_of};
use lc_calls::{NOT_A_CODEWORD, Stop, Value, fault, refused_as};
use lc_code::{Code, CodeRefusal};
use lc_field::Field;
use lc_vec::Word;
use std::alloc::Global;

// A truth value, or the refusal of its arguments at this offset.
fn truth(alloc: Global, offset: usize, answer: Result<bool, CodeRefusal>) -> Result<Value, Stop>
    ensures is { IsMadeAs language.truth answer offset result }
    ensures told { IfErr answer (λ e. e ≢ CodeRefusal.NoMemory → refusal_values e ≡ [] → result ≢ Err Stop.NoMemory) }
    ensures given { IfOk answer (λ _. IsOk result) }
{
    match answer {
        Ok(holds) => Ok(Value::Truth(holds)),
        Err(refusal) => Err(refused_as(alloc, offset, refusal)),
    }
}

// A number, or the refusal of its arguments at this offset.
fn number(alloc: Global, offset: usize, answer: Result<usize, CodeRefusal>) -> Result<Value, Stop>
    ensures is { IsMadeAs language.number answer offset result }
    ensures told { IfErr answer (λ e. e ≢ CodeRefusal.NoMemory → refusal_values e ≡ [] → result ≢ Err Stop.NoMemory) }
    ensures given { IfOk answer (λ _. IsOk result) }
{
    match answer {
        Ok(number) => Ok(Value::Number(number as u64)),
        Err(refusal) => Err(refused_as(alloc, offset, refusal)),
    }
}

// A word, or the refusal of its arguments at this offset.
fn made_word(alloc: Global, offset: usize, word: Result<Word, CodeRefusal>) -> Result<Value, Stop>
    ensures is { IsMadeAs language.numbers word offset result }
{
    match word {
        Ok(word) => Ok(word_value(alloc, word.symbols())?),
        Err(refusal) => Err(refused_as(alloc, offset, refusal)),
    }
}

/// The syndrome of a list of symbols.
pub(crate) fn syndrome(
    alloc: Global,
    offset: usize,
    code: &Code,
    list: &[u64],
) -> Result<Value, Stop>
    ensures { Answers result (AppliesTo offset (bound.syndrome_of code.now list.now)) }
{
    let word = checked(alloc, offset, code, list)?;
    let dots = lc_relations::syndrome(alloc, code, word.symbols())?;
    Ok(word_value(alloc, dots.symbols())?)
}

/// Whether each word of the first code is one of the second.
pub(crate) fn is_subcode(alloc: Global, offset: usize, a: &Code, b: &Code) -> Result<Value, Stop>
    ensures { Answers result (AppliesTo offset (bound.is_subcode a.now b.now)) }
{
    truth(alloc, offset, lc_relations::is_subcode(alloc, a, b))
}

/// Whether two codes have the same words.
pub(crate) fn is_same_code(alloc: Global, offset: usize, a: &Code, b: &Code) -> Result<Value, Stop>
    ensures { Answers result (AppliesTo offset (bound.is_same_code a.now b.now)) }
{
    truth(alloc, offset, lc_relations::is_same_code(a, b))
}

/// The sum of two lists of symbols.
pub(crate) fn add_words(
    alloc: Global,
    offset: usize,
    x: &[u64],
    y: &[u64],
    field: &Field,
) -> Result<Value, Stop>
    ensures { Answers result (AppliesTo offset (bound.add_words x.now y.now field.now)) }
{
    let u = word_of(alloc, x)?;
    let v = word_of(alloc, y)?;
    made_word(
        alloc,
        offset,
        lc_relations::add_words(alloc, field, u.symbols(), v.symbols()),
    )
}

/// The multiple of a list of symbols by an element.
pub(crate) fn scale_word(
    alloc: Global,
    offset: usize,
    c: u64,
    x: &[u64],
    field: &Field,
) -> Result<Value, Stop>
    ensures { Answers result (AppliesTo offset (bound.scale_word c x.now field.now)) }
{
    let u = word_of(alloc, x)?;
    let element = c.min(255) as u8;
    made_word(
        alloc,
        offset,
        lc_relations::scale_word(alloc, field, element, u.symbols()),
    )
}

/// The number of coordinates in which two lists differ.
pub(crate) fn distance_codeword(
    alloc: Global,
    offset: usize,
    x: &[u64],
    y: &[u64],
) -> Result<Value, Stop>
    ensures { Answers result (AppliesTo offset (bound.distance_codeword x.now y.now)) }
{
    number(alloc, offset, lc_relations::hamming_distance(x, y))
}

/// The codeword of a list of symbols, its message.
pub(crate) fn encode(alloc: Global, offset: usize, code: &Code, list: &[u64]) -> Result<Value, Stop>
    ensures { Answers result (AppliesTo offset (bound.encode code.now list.now)) }
{
    let _field = code.field();
    let message = word_of(alloc, list)?;
    made_word(
        alloc,
        offset,
        lc_relations::encode(alloc, code, message.symbols()),
    )
}

/// The message of a codeword.
pub(crate) fn information_word(
    alloc: Global,
    offset: usize,
    code: &Code,
    list: &[u64],
) -> Result<Value, Stop>
    ensures { Answers result (AppliesTo offset (bound.information_word code.now list.now)) }
{
    let word = checked(alloc, offset, code, list)?;
    match lc_relations::message_of(alloc, code, word.symbols())? {
        Some(message) => Ok(word_value(alloc, message.symbols())?),
        None => Err(Stop::Refused(fault(alloc, NOT_A_CODEWORD, offset))),
    }
}

/// A code with further rows.
#[tactic(auto, using(crate::proofs::RelationLaws::augmented_applies))]
pub(crate) fn augmented_code(
    alloc: Global,
    offset: usize,
    code: &Code,
    rows: &[Vec<u64>],
) -> Result<Value, Stop>
    ensures { Answers result (AppliesTo offset (bound.augmented_code code.now (rows_of rows.now))) }
{
    let _field = code.field();
    let words = words_of(alloc, rows)?;
    made(alloc, offset, lc_relations::augmented(alloc, code, &words))
}
