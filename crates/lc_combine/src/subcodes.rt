//! Words of even weight, and words of two codes.
ghost use Rattle.std.specs.Prelude.{◌≡◌, [], ◌∷◌, ◌++◌, replicate, IfOk};
ghost use Rattle.lc_algebra.specs.declared.FieldName.TheVariants.{Gf2};
ghost use Rattle.lc_constructions.specs.Code.{IsCode};
ghost use Rattle.lc_constructions.specs.Combined.{InEvenWeight, InIntersection};
ghost use Rattle.lc_constructions.specs.Refusal.{first_refusal, IsRefusedAs, RefusesFirst};
ghost use Rattle.lc_constructions.specs.Refusals.{even_weight_refusals, intersection_refusals};

use crate::refusal::{check_even_weight, check_intersection};
use lc_code::{Code, CodeRefusal, push_rows};
use lc_field::NoMemory;
use lc_vec::Word;
use std::alloc::Global;

/// The words of even weight of a binary code (MacWilliams and Sloane, chapter 1; GUAVA manual, `EvenWeightSubcode`).
///
/// Refused: the field hasn't 2 elements, BadArgument(1).
#[tactic(auto, using(lc_constructions::proofs::RefusalLaws::refused_or_not))]
pub fn even_weight(alloc: Global, code: &Code) -> Result<Code, CodeRefusal>
    ensures code { IfOk result (λ c. IsCode code.now.field code.now.columns (InEvenWeight code.now) c) }
    ensures refused { IsRefusedAs result (first_refusal (even_weight_refusals code.now)) }
    ensures first { RefusesFirst result (first_refusal (even_weight_refusals code.now)) }
{
    check_even_weight(code)?;
    Ok(even_words(alloc, code)?)
}

// The words that have dot 0 with the dual code and with the word of ones.
fn even_words(alloc: Global, code: &Code) -> Result<Code, NoMemory>
    requires binary { code.now.field ≡ Gf2 }
    ensures code { IfOk result (λ c. IsCode code.now.field code.now.columns (InEvenWeight code.now) c) }
{
    let _matrix = code.matrix();
    let dual = code.dual(alloc)?;
    let checks = even_checks(alloc, &dual)?;
    Ok(Code::from_checks(alloc, code.field(), code.length(), &checks)?)
}

// The rows of the dual code and the word of ones.
fn even_checks(alloc: Global, dual: &Code) -> Result<Vec<Word>, NoMemory>
    ensures are { IfOk result (λ rows. rows.items ≡ dual.now.rows ++ replicate dual.now.columns 1 ∷ []) }
{
    let mut checks = Vec::new(alloc);
    push_rows(alloc, dual, &mut checks)?;
    checks.push(Word::from_vec(vec![in alloc; 1u8; dual.length()]?))?;
    Ok(checks)
}

/// The words of both codes (MacWilliams and Sloane, chapter 1; GUAVA manual, `IntersectionCode`).
///
/// Refused in this order: the fields differ, FieldsDiffer; the lengths differ, LengthsDiffer.
#[tactic(auto, using(lc_constructions::proofs::RefusalLaws::refused_or_not))]
pub fn intersection(alloc: Global, a: &Code, b: &Code) -> Result<Code, CodeRefusal>
    ensures code { IfOk result (λ c. IsCode a.now.field a.now.columns (InIntersection a.now b.now) c) }
    ensures refused { IsRefusedAs result (first_refusal (intersection_refusals a.now b.now)) }
    ensures first { RefusesFirst result (first_refusal (intersection_refusals a.now b.now)) }
{
    check_intersection(a, b)?;
    Ok(common_words(alloc, a, b)?)
}

// The words that have dot 0 with both dual codes.
fn common_words(alloc: Global, a: &Code, b: &Code) -> Result<Code, NoMemory>
    requires field { a.now.field ≡ b.now.field }
    requires columns { a.now.columns ≡ b.now.columns }
    ensures code { IfOk result (λ c. IsCode a.now.field a.now.columns (InIntersection a.now b.now) c) }
{
    let _first = a.matrix();
    let _second = b.matrix();
    let left = a.dual(alloc)?;
    let right = b.dual(alloc)?;
    let checks = common_checks(alloc, &left, &right)?;
    Ok(Code::from_checks(alloc, a.field(), a.length(), &checks)?)
}

// The rows of both codes.
fn common_checks(alloc: Global, a: &Code, b: &Code) -> Result<Vec<Word>, NoMemory>
    ensures are { IfOk result (λ rows. rows.items ≡ a.now.rows ++ b.now.rows) }
{
    let mut checks = Vec::new(alloc);
    push_rows(alloc, a, &mut checks)?;
    push_rows(alloc, b, &mut checks)?;
    Ok(checks)
}
