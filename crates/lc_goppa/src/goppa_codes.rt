//! Goppa codes.
ghost use Rattle.std.specs.Prelude.{◌≡◌, ℕ, ◌<◌, ◌≤◌, length, slice_index, IfOk, IsTrue, AllPairs};
ghost use Rattle.lc_algebra.specs.Polynomial.{value_at, trimmed};
ghost use Rattle.lc_algebra.specs.Word.{Fits};
ghost use Rattle.lc_constructions.specs.Code.{IsCode};
ghost use Rattle.lc_constructions.specs.Alternant.{IsForm, IsFormOf, goppa_multipliers, goppa_form, IsGoppaWord};
ghost use Rattle.lc_constructions.specs.Refusal.{first_refusal, IsChecked, IsRefusedAs, RefusesFirst};
ghost use Rattle.lc_constructions.specs.Refusals.{goppa_refusals, root_at};
ghost use Rattle.lc_goppa.specs.Checked.{IsGoppaInput};

use crate::alternant_codes::form_of;
use crate::points::repeated_point;
use crate::polynomials::{is_goppa_polynomial, root_at};
use crate::refusal::{are_elements, is_subfield};
use lc_code::{Alternant, CodeRefusal, FormedCode, formed};
use lc_constructions::is_length;
use lc_field::{Field, NoMemory};
use lc_poly::{coefficient_count, value};
use std::alloc::Global;

/// The Goppa code of the polynomial G with these coefficients, from the constant upwards, and these points: the words over `field`
/// whose sums of w_i a_i^j / G(a_i) are 0 for each j below the degree of G, with their alternant form
/// (MacWilliams and Sloane, chapter 12; GUAVA manual, `GoppaCode`). Zeros at the end of the list don't count.
///
/// Refused in this order: the field has more than 16 elements, FieldTooLarge; it doesn't lie in the locator field, NotASubfield;
/// there is no point, or more than 255, BadLength; a coefficient isn't an element of the locator field, or the degree isn't 1 to 255,
/// BadArgument(1); a point isn't an element of the locator field, BadArgument(2); two points coincide, RepeatedPoint with their indices;
/// G is 0 at a point, RootAt with its index.
#[tactic(auto, using(crate::proofs::GoppaLaws::goppa_laws))]
pub fn goppa(
    alloc: Global,
    list: &[u8],
    points: &[u8],
    locator: &Field,
    field: &Field,
) -> Result<FormedCode, CodeRefusal>
    ensures code { IfOk result
        (λ c. IsCode field.now (length points.now)
        (IsGoppaWord field.now locator.now (trimmed list.now) points.now) c.code) }
    ensures form { IfOk result (λ c. c.form ≡ goppa_form locator.now (trimmed list.now) points.now) }
    ensures formed { IfOk result (λ c. IsFormOf c.code c.form) }
    ensures refused { IsRefusedAs result (first_refusal (goppa_refusals field.now locator.now list.now points.now)) }
    ensures first { RefusesFirst result (first_refusal (goppa_refusals field.now locator.now list.now points.now)) }
{
    check_goppa(field, locator, list, points)?;
    let form = goppa_form(alloc, locator, list, points)?;
    Ok(formed(alloc, field, form)?)
}

// Checks the arguments of a Goppa code.
#[tactic(auto, using(crate::proofs::GoppaRefusals::check_goppa_laws))]
fn check_goppa(
    field: &Field,
    locator: &Field,
    list: &[u8],
    points: &[u8],
) -> Result<(), CodeRefusal>
    ensures is { IsChecked result (first_refusal (goppa_refusals field.now locator.now list.now points.now)) }
    ensures input { IfOk result (λ _. IsGoppaInput field.now locator.now list.now points.now) }
{
    if !field.is_symbol() {
        return Err(CodeRefusal::FieldTooLarge);
    }
    if !is_subfield(field, locator) {
        return Err(CodeRefusal::NotASubfield);
    }
    if !is_length(points.len() as u64) {
        return Err(CodeRefusal::BadLength);
    }
    if !is_goppa_polynomial(locator, list) {
        return Err(CodeRefusal::BadArgument(1));
    }
    if !are_elements(locator, points) {
        return Err(CodeRefusal::BadArgument(2));
    }
    match repeated_point(points) {
        Some(refusal) => Err(refusal),
        None => check_values(locator, list, points),
    }
}

// Checks that the polynomial is 0 at no point.
fn check_values(locator: &Field, list: &[u8], points: &[u8]) -> Result<(), CodeRefusal>
    requires list { Fits locator.now list.now }
    requires points { Fits locator.now points.now }
    ensures is { IsChecked result (root_at locator.now list.now points.now) }
    ensures nonzero { IfOk result
        (λ _. (i : ℕ) → i < length points.now → 0 < value_at locator.now list.now (slice_index points.now i)) }
{
    match root_at(locator, list, points) {
        Some(refusal) => Err(refusal),
        None => Ok(()),
    }
}

// The form of a Goppa code.
#[tactic(auto, using(crate::proofs::GoppaLaws::goppa_form_told))]
fn goppa_form(
    alloc: Global,
    locator: &Field,
    list: &[u8],
    points: &[u8],
) -> Result<Alternant, NoMemory>
    requires list { Fits locator.now list.now }
    requires points { Fits locator.now points.now }
    requires degree { 2 ≤ length (trimmed list.now) }
    requires nonzero { (i : ℕ) → i < length points.now → 0 < value_at locator.now list.now (slice_index points.now i) }
    ensures is { IfOk result (λ form. form ≡ goppa_form locator.now (trimmed list.now) points.now) }
{
    let multipliers = multipliers_of(alloc, locator, list, points)?;
    let degree = coefficient_count(list) - 1;
    Ok(form_of(alloc, locator, points, &multipliers, degree)?)
}

// The inverses of the polynomial's values at the points.
#[tactic(auto, using(crate::proofs::GoppaLaws::multipliers_of_laws))]
fn multipliers_of(
    alloc: Global,
    locator: &Field,
    list: &[u8],
    points: &[u8],
) -> Result<Vec<u8>, NoMemory>
    requires list { Fits locator.now list.now }
    requires points { Fits locator.now points.now }
    requires nonzero { (i : ℕ) → i < length points.now → 0 < value_at locator.now list.now (slice_index points.now i) }
    ensures are { IfOk result (λ ys. ys.items ≡ goppa_multipliers locator.now (trimmed list.now) points.now) }
{
    let mut multipliers = Vec::with_capacity(alloc, points.len())?;
    for i in 0..points.len() {
        let value = value(locator, list, points[i]);
        multipliers.push(locator.inv(value))?;
    }
    Ok(multipliers)
}
