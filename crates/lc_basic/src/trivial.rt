//! Repetition codes, the whole space and the null code.
ghost use Rattle.std.specs.Prelude.{◌≡◌, ◌≤◌, replicate, IfOk, IsTrue};
ghost use Rattle.lc_algebra.specs.Field.{is_symbol};
ghost use Rattle.lc_constructions.specs.Code.{longest, IsCode};
ghost use Rattle.lc_constructions.specs.Basic.{IsConstant, IsAny, IsZero};
ghost use Rattle.lc_constructions.specs.Refusal.{first_refusal, IsRefusedAs, RefusesFirst};
ghost use Rattle.lc_constructions.specs.Refusals.{length_refusals};

use crate::refusal::check_length;
use lc_code::{Code, CodeRefusal};
use lc_field::{Field, NoMemory};
use lc_vec::Word;
use std::alloc::Global;

/// The repetition code of length `n`: the words whose symbols are all equal (GUAVA manual, `RepetitionCode`).
///
/// Refused in this order: the field has more than 16 elements, FieldTooLarge; `n` is 0 or above 255, BadLength.
#[tactic(auto, using(lc_constructions::proofs::RefusalLaws::refused_or_not))]
pub fn repetition(alloc: Global, n: u64, field: &Field) -> Result<Code, CodeRefusal>
    ensures code { IfOk result (λ c. IsCode field.now n IsConstant c) }
    ensures refused { IsRefusedAs result (first_refusal (length_refusals field.now n)) }
    ensures first { RefusesFirst result (first_refusal (length_refusals field.now n)) }
{
    check_length(field, n)?;
    Ok(constant_words(alloc, n as usize, field)?)
}

#[tactic(auto, using(crate::proofs::FamilyLaws::constant_words_laws))]
fn constant_words(alloc: Global, n: usize, field: &Field) -> Result<Code, NoMemory>
    requires symbol { IsTrue (is_symbol field.now) }
    requires least { 1 ≤ n }
    requires most { n ≤ longest }
    ensures code { IfOk result (λ c. IsCode field.now n IsConstant c) }
{
    let rows = vec![in alloc; ones(alloc, n)?]?;
    Ok(Code::from_rows(alloc, field, n, &rows)?)
}

// The word of n ones.
pub(crate) fn ones(alloc: Global, n: usize) -> Result<Word, NoMemory>
    ensures is { IfOk result (λ w. w ≡ replicate n 1) }
{
    Ok(Word::from_vec(vec![in alloc; 1u8; n]?))
}

/// The code of all words of length `n` (GUAVA manual, `WholeSpaceCode`).
///
/// Refused in this order: the field has more than 16 elements, FieldTooLarge; `n` is 0 or above 255, BadLength.
#[tactic(auto, using(lc_constructions::proofs::RefusalLaws::refused_or_not))]
pub fn whole_space(alloc: Global, n: u64, field: &Field) -> Result<Code, CodeRefusal>
    ensures code { IfOk result (λ c. IsCode field.now n IsAny c) }
    ensures refused { IsRefusedAs result (first_refusal (length_refusals field.now n)) }
    ensures first { RefusesFirst result (first_refusal (length_refusals field.now n)) }
{
    check_length(field, n)?;
    Ok(all_words(alloc, n as usize, field)?)
}

#[tactic(auto, using(crate::proofs::FamilyLaws::no_rows, crate::proofs::FamilyLaws::any_code))]
fn all_words(alloc: Global, n: usize, field: &Field) -> Result<Code, NoMemory>
    requires symbol { IsTrue (is_symbol field.now) }
    requires least { 1 ≤ n }
    requires most { n ≤ longest }
    ensures code { IfOk result (λ c. IsCode field.now n IsAny c) }
{
    let checks = Vec::new(alloc);
    Ok(Code::from_checks(alloc, field, n, &checks)?)
}

/// The null code of length `n`, of the zero word alone (GUAVA manual, `NullCode`).
///
/// Refused in this order: the field has more than 16 elements, FieldTooLarge; `n` is 0 or above 255, BadLength.
#[tactic(auto, using(lc_constructions::proofs::RefusalLaws::refused_or_not))]
pub fn null_code(alloc: Global, n: u64, field: &Field) -> Result<Code, CodeRefusal>
    ensures code { IfOk result (λ c. IsCode field.now n IsZero c) }
    ensures refused { IsRefusedAs result (first_refusal (length_refusals field.now n)) }
    ensures first { RefusesFirst result (first_refusal (length_refusals field.now n)) }
{
    check_length(field, n)?;
    Ok(zero_words(alloc, n as usize, field)?)
}

#[tactic(auto, using(crate::proofs::FamilyLaws::no_rows, crate::proofs::FamilyLaws::zero_code))]
fn zero_words(alloc: Global, n: usize, field: &Field) -> Result<Code, NoMemory>
    requires symbol { IsTrue (is_symbol field.now) }
    requires least { 1 ≤ n }
    requires most { n ≤ longest }
    ensures code { IfOk result (λ c. IsCode field.now n IsZero c) }
{
    let rows = Vec::new(alloc);
    Ok(Code::from_rows(alloc, field, n, &rows)?)
}
