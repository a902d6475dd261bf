//! The words of a code that are near to a list of symbols.
ghost use Rattle.std.specs.Prelude.{◌≡◌, ℕ, ◌∷◌, [], IfOk, Some, None};
ghost use Rattle.lc_language.specs.Calls as bound;
ghost use Rattle.lc_language.specs.Value as language;
ghost use Rattle.lc_language.specs.Meaning.{decoded as decoded_value};
ghost use Rattle.lc_language.specs.Print.{value_line};
ghost use Rattle.lc_language.specs.Evaluation.{AppliesTo, QueriesTo, refused, refuse_call};
ghost use Rattle.lc_language.specs.Refusal.{refuse};
ghost use Rattle.lc_calls.specs.Applied.{Answers};
ghost use Rattle.lc_eval.specs.Checked.{IsChecked};
ghost use Rattle.lc_eval.specs.Evaluated.{AffectsOrFails};
ghost use Rattle.lc_calls.specs.Value.{refused_of, value_of};

use crate::rows::{list_of, word_of};
use crate::statement::Effect;
use crate::stock::Stock;
use lc_alternant::decode as decode_by_form;
use lc_calls::{CodeValue, NO_FORM, Refused, Stop, TOO_MANY_COSETS, Value, fault, refused_as};
use lc_code::{Code, CodeRefusal};
use lc_field::NoMemory;
use lc_print::{list_line, none_line};
use lc_syndrome::SyndromeRefusal;
use lc_vec::{Word, fits};
use std::alloc::Global;
use std::rc::Rc;

/// The list, the second argument of a call on a code, as a word of the code's length with symbols of its field; or its refusal
/// at this offset.
pub(crate) fn checked(alloc: Global, offset: usize, code: &Code, list: &[u64]) -> Result<Word, Stop>
    ensures { IsChecked code.now list.now offset result }
{
    if list.len() != code.length() {
        return Err(refused_as(alloc, offset, CodeRefusal::LengthsDiffer));
    }
    let word = word_of(alloc, list)?;
    if !fits(code.field(), word.symbols()) {
        return Err(refused_as(alloc, offset, CodeRefusal::BadArgument(2)));
    }
    Ok(word)
}

/// Whether a list of numbers is a word of a code.
pub(crate) fn is_codeword(
    alloc: Global,
    offset: usize,
    code: &Code,
    list: &[u64],
) -> Result<Value, Stop>
    ensures { Answers result (AppliesTo offset (bound.is_codeword code.now list.now)) }
{
    let word = checked(alloc, offset, code, list)?;
    let mut rest = word.symbols().to_vec(alloc)?;
    Ok(Value::Truth(code.contains(word.symbols(), &mut rest)))
}

// More cosets than a decoder keeps, n - k being this number.
#[tactic(auto, unfolding(lc_calls::proofs::Opened::refusals_of_calls))]
fn too_many_cosets(alloc: Global, offset: usize, n: usize) -> Result<Refused, NoMemory>
    ensures { IfOk result (λ r. refused (refused_of r) ≡ refuse_call offset (refuse 15 (n ∷ []))) }
{
    let values = vec![in alloc; n as u64; 1]?;
    Ok(Refused {
        number: TOO_MANY_COSETS,
        offset,
        values,
    })
}

/// A word as a value.
pub(crate) fn word_value(alloc: Global, symbols: &[u8]) -> Result<Value, NoMemory>
    ensures { IfOk result (λ v. value_of v ≡ language.numbers symbols.now) }
{
    Ok(Value::Numbers(Rc::new(alloc, list_of(alloc, symbols)?)?))
}

/// The word of a code that is nearest to a list of symbols.
pub(crate) fn decode(
    alloc: Global,
    stock: &mut Stock,
    offset: usize,
    code: &Code,
    list: &[u64],
) -> Result<Value, Stop>
    ensures { Answers result (AppliesTo offset (bound.decode code.now list.now)) }
{
    let word = checked(alloc, offset, code, list)?;
    match stock.nearest(alloc, code, word.symbols()) {
        Ok(near) => Ok(word_value(alloc, &near)?),
        Err(SyndromeRefusal::TooManyCosets(n)) => {
            Err(Stop::Refused(too_many_cosets(alloc, offset, n)?))
        }
        Err(SyndromeRefusal::NoMemory) => Err(Stop::NoMemory),
    }
}

// The line of a decoder's answer.
#[tactic(auto, unfolding(crate::proofs::Opened::lines_of_values))]
fn decoded_line(alloc: Global, decoded: Option<Word>) -> Result<Vec<u8>, NoMemory>
    ensures { IfOk result (λ l. l.items ≡ value_line (decoded_value decoded)) }
{
    match decoded {
        Some(word) => {
            let list = list_of(alloc, word.symbols())?;
            Ok(list_line(alloc, &list)?)
        }
        None => Ok(none_line(alloc)?),
    }
}

/// The word of a code within half of the checks of its alternant form, or that there is none.
pub(crate) fn algebraic_decode(
    alloc: Global,
    offset: usize,
    code: &CodeValue,
    list: &[u64],
) -> Result<Effect, Stop>
    ensures { AffectsOrFails result (QueriesTo offset (bound.algebraic_decode code.now.code code.now.form list.now)) }
{
    let Some(form) = &code.form else {
        return Err(Stop::Refused(fault(alloc, NO_FORM, offset)));
    };
    let word = checked(alloc, offset, &code.code, list)?;
    let decoded = decode_by_form(alloc, &code.code, form, word.symbols())?;
    Ok(Effect::Prints(decoded_line(alloc, decoded)?))
}
