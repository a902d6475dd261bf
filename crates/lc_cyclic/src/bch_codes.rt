//! BCH codes.
ghost use Rattle.std.specs.Prelude.{◌≡◌, ◌≤◌, ◌<◌, ◌%◌, Some, option_map, IfOk, IsTrue};
ghost use Rattle.lc_algebra.specs.Field.{size, is_symbol};
ghost use Rattle.lc_constructions.specs.Code.{longest, is_length, IsCode};
ghost use Rattle.lc_constructions.specs.Cyclic.{IsLocatorField, locator_field, IsBchWord};
ghost use Rattle.lc_constructions.specs.Alternant.{IsFormOf, bch_form};
ghost use Rattle.lc_constructions.specs.Refusal.{first_refusal, IsChecked, IsRefusedAs, RefusesFirst};
ghost use Rattle.lc_constructions.specs.Refusals.{bch_refusals};

use crate::fields::locator_size;
use crate::forms::form_of;
use crate::generators::bch_code;
use lc_code::{CodeRefusal, FormedCode};
use lc_constructions::is_length;
use lc_field::{Field, FieldRefusal, NoMemory};
use std::alloc::Global;

/// The BCH code of length `n` with design distance `d` over the field: the words whose polynomials are 0 at the powers `b` to
/// `b + d - 2` of an element of order n, with their alternant form (MacWilliams and Sloane, chapters 7 and 9; GUAVA manual,
/// `BCHCode`). The element lies in the locator field, the least of the eighteen fields that contain the field and have an element of
/// order n, and is the power (Q - 1) / n of its primitive element, where Q is its size. `b` counts modulo n.
///
/// Refused in this order: the field has more than 16 elements, FieldTooLarge; `n` is 0 or above 255, BadLength; there is no locator
/// field, NoRoot; `d` is below 2 or above n, BadDelta. `b` may be any number.
#[tactic(auto, using(lc_constructions::proofs::RefusalLaws::refused_or_not))]
pub fn bch(alloc: Global, n: u64, b: u64, d: u64, field: &Field) -> Result<FormedCode, CodeRefusal>
    ensures code { IfOk result (λ c. IsCode field.now n (IsBchWord field.now c.form.locator n b d) c.code) }
    ensures locator { IfOk result (λ c. IsLocatorField field.now n c.form.locator) }
    ensures form { IfOk result (λ c. c.form ≡ bch_form c.form.locator n (b % n) d) }
    ensures formed { IfOk result (λ c. IsFormOf c.code c.form) }
    ensures refused { IsRefusedAs result (first_refusal (bch_refusals field.now n d)) }
    ensures first { RefusesFirst result (first_refusal (bch_refusals field.now n d)) }
{
    let size = check_bch(field, n, d)?;
    let locator = locator_of(alloc, field, n, size)?;
    Ok(formed_bch(alloc, field, locator, n, b % n, d)?)
}

// The BCH code, beside its form.
fn formed_bch(
    alloc: Global,
    field: &Field,
    locator: Field,
    n: u64,
    b: u64,
    d: u64,
) -> Result<FormedCode, NoMemory>
    requires symbol { IsTrue (is_symbol field.now) }
    requires length { IsTrue (is_length n) }
    requires least { 1 ≤ n }
    requires most { n ≤ longest }
    requires locator { IsLocatorField field.now n locator }
    requires first { b < 256 }
    requires least_delta { 1 ≤ d }
    requires most_delta { d ≤ n }
    ensures code { IfOk result (λ c. IsCode field.now n (IsBchWord field.now c.form.locator n b d) c.code) }
    ensures locator { IfOk result (λ c. IsLocatorField field.now n c.form.locator) }
    ensures form { IfOk result (λ c. c.form ≡ bch_form c.form.locator n b d) }
    ensures formed { IfOk result (λ c. IsFormOf c.code c.form) }
{
    let code = bch_code(alloc, field, &locator, n, b, d)?;
    let form = form_of(alloc, locator, n, b, d)?;
    Ok(FormedCode { code, form })
}

// Checks the arguments of a BCH code. Gives the size of its locator field.
#[tactic(auto, using(crate::proofs::BchLaws::check_bch_laws))]
fn check_bch(field: &Field, n: u64, d: u64) -> Result<u64, CodeRefusal>
    ensures is { IsChecked result (first_refusal (bch_refusals field.now n d)) }
    ensures symbol { IfOk result (λ _. IsTrue (is_symbol field.now)) }
    ensures length { IfOk result (λ _. IsTrue (is_length n)) }
    ensures least { IfOk result (λ _. 1 ≤ n) }
    ensures most { IfOk result (λ _. n ≤ longest) }
    ensures least_delta { IfOk result (λ _. 2 ≤ d) }
    ensures most_delta { IfOk result (λ _. d ≤ n) }
    ensures size { IfOk result (λ q. option_map size (locator_field field.now n) ≡ Some q) }
{
    if !field.is_symbol() {
        return Err(CodeRefusal::FieldTooLarge);
    }
    if !is_length(n) {
        return Err(CodeRefusal::BadLength);
    }
    match locator_size(field, n) {
        None => Err(CodeRefusal::NoRoot),
        Some(size) => {
            if n < d || d < 2 {
                return Err(CodeRefusal::BadDelta);
            }
            Ok(size)
        }
    }
}

// The locator field, whose size is known.
#[tactic(auto, using(crate::proofs::BchLaws::locator_told, crate::proofs::BchLaws::locator_there))]
fn locator_of(alloc: Global, field: &Field, n: u64, elements: u64) -> Result<Field, NoMemory>
    requires least { 1 ≤ n }
    requires found { option_map size (locator_field field.now n) ≡ Some elements }
    ensures is { IfOk result (λ K. IsLocatorField field.now n K) }
{
    match Field::of(alloc, elements) {
        Ok(locator) => Ok(locator),
        Err(FieldRefusal::NoMemory) => Err(NoMemory),
        Err(FieldRefusal::NotAField) => unreachable!(),
    }
}
