//! Alternant codes.
ghost use Rattle.std.specs.Prelude.{◌≡◌, ℕ, nat_lt, length, IfOk};
ghost use Rattle.lc_constructions.specs.Code.{IsCode};
ghost use Rattle.lc_constructions.specs.Alternant.{IsForm, IsFormOf, IsAlternantWord};
ghost use Rattle.lc_constructions.specs.Refusal.{first_refusal, IsChecked, IsRefusedAs, RefusesFirst};
ghost use Rattle.lc_constructions.specs.Refusals.{form_refusals, alternant_refusals};
ghost use Rattle.lc_goppa.specs.Form.{alternant_form};

use crate::refusal::check_form;
use lc_code::{Alternant, Code, CodeRefusal, FormedCode, alternant_code, formed};
use lc_field::{Field, NoMemory};
use std::alloc::Global;

/// The alternant code with these points and multipliers over the locator field, and `r` checks: the words over `field` whose sums of
/// w_i y_i a_i^j are 0 for each j below `r`, with their form (MacWilliams and Sloane, chapter 12; GUAVA manual, `AlternantCode`).
///
/// Refused in this order: the field has more than 16 elements, FieldTooLarge; it doesn't lie in the locator field, NotASubfield;
/// there is no point, or more than 255, BadLength; there are more or fewer multipliers than points, LengthsDiffer; `r` is 0 or above
/// the number of points, BadArgument(1); a point isn't an element of the locator field, BadArgument(2); a multiplier isn't, or is 0,
/// BadArgument(3); two points coincide, RepeatedPoint with their indices.
#[tactic(auto, using(lc_constructions::proofs::RefusalLaws::refused_or_not))]
pub fn alternant(
    alloc: Global,
    r: u64,
    points: &[u8],
    multipliers: &[u8],
    locator: &Field,
    field: &Field,
) -> Result<FormedCode, CodeRefusal>
    ensures code { IfOk result
        (λ c. IsCode field.now (length points.now)
        (IsAlternantWord field.now (alternant_form locator.now points.now multipliers.now r)) c.code) }
    ensures form { IfOk result (λ c. c.form ≡ alternant_form locator.now points.now multipliers.now r) }
    ensures formed { IfOk result (λ c. IsFormOf c.code c.form) }
    ensures refused { IsRefusedAs result
        (first_refusal (alternant_refusals field.now locator.now r points.now multipliers.now)) }
    ensures first { RefusesFirst result
        (first_refusal (alternant_refusals field.now locator.now r points.now multipliers.now)) }
{
    check_alternant(field, locator, r, points, multipliers)?;
    let form = form_of(alloc, locator, points, multipliers, r as usize)?;
    Ok(formed(alloc, field, form)?)
}

/// The subfield subcode over `field` of the generalized Reed–Solomon code over the locator field whose `r` checks have these points and
/// multipliers: the words whose sums of w_i y_i a_i^j are 0 for each j below `r` (MacWilliams and Sloane, chapters 10 and 12). It is
/// what `alternant` gives, and for `r` 0, which that refuses, the whole space.
///
/// Refused in this order: the field has more than 16 elements, FieldTooLarge; it doesn't lie in the locator field, NotASubfield;
/// there is no point, or more than 255, BadLength; there are more or fewer multipliers than points, LengthsDiffer; `r` is above the
/// number of points, BadArgument(1); a point isn't an element of the locator field, BadArgument(2); a multiplier isn't, or is 0,
/// BadArgument(3); two points coincide, RepeatedPoint with their indices.
#[tactic(auto, using(lc_constructions::proofs::RefusalLaws::refused_or_not))]
pub fn subfield_subcode(
    alloc: Global,
    r: u64,
    points: &[u8],
    multipliers: &[u8],
    locator: &Field,
    field: &Field,
) -> Result<Code, CodeRefusal>
    ensures code { IfOk result
        (λ c. IsCode field.now (length points.now)
        (IsAlternantWord field.now (alternant_form locator.now points.now multipliers.now r)) c) }
    ensures refused { IsRefusedAs result
        (first_refusal (form_refusals field.now locator.now
        (nat_lt (length points.now) r) points.now multipliers.now)) }
    ensures first { RefusesFirst result
        (first_refusal (form_refusals field.now locator.now
        (nat_lt (length points.now) r) points.now multipliers.now)) }
{
    let bad_count = (points.len() as u64) < r;
    check_form(field, locator, bad_count, points, multipliers)?;
    let parts = form_of(alloc, locator, points, multipliers, r as usize)?;
    Ok(alternant_code(alloc, field, &parts)?)
}

// The form with these parts, copied.
pub(crate) fn form_of(
    alloc: Global,
    locator: &Field,
    points: &[u8],
    multipliers: &[u8],
    r: usize,
) -> Result<Alternant, NoMemory>
    ensures is { IfOk result (λ form. form ≡ alternant_form locator.now points.now multipliers.now r) }
{
    Ok(Alternant {
        locator: locator.copy(alloc)?,
        points: points.to_vec(alloc)?,
        multipliers: multipliers.to_vec(alloc)?,
        r,
    })
}

// Checks the arguments of an alternant code.
#[tactic(auto, unfolding(lc_constructions::specs::Refusals::alternant_refusals))]
fn check_alternant(
    field: &Field,
    locator: &Field,
    r: u64,
    points: &[u8],
    multipliers: &[u8],
) -> Result<(), CodeRefusal>
    ensures is { IsChecked result
        (first_refusal (alternant_refusals field.now locator.now r points.now multipliers.now)) }
    ensures form { IfOk result
        (λ _. (s : ℕ) → IsForm field.now (alternant_form locator.now points.now multipliers.now s)) }
{
    let bad_count = r == 0 || (points.len() as u64) < r;
    check_form(field, locator, bad_count, points, multipliers)
}
