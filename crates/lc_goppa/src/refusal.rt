//! When alternant codes are refused.
ghost use Rattle.std.specs.Prelude.{◌≡◌, ℕ, ◌==◌, length, IsTrue, IfOk};
ghost use Rattle.std.specs.List.{list_any};
ghost use Rattle.lc_algebra.specs.Field.{is_symbol};
ghost use Rattle.lc_algebra.specs.Embedding.{IsSubfield, is_subfield};
ghost use Rattle.lc_algebra.specs.Word.{Fits};
ghost use Rattle.lc_constructions.specs.Alternant.{IsForm};
ghost use Rattle.lc_constructions.specs.Refusal.{first_refusal, IsChecked};
ghost use Rattle.lc_constructions.specs.Refusals.{are_elements, form_refusals};
ghost use Rattle.lc_goppa.specs.Form.{alternant_form};

use crate::points::repeated_point;
use lc_code::CodeRefusal;
use lc_constructions::is_length;
use lc_field::Field;
use lc_vec::fits;

// Whether the field lies in the locator field.
pub(crate) fn is_subfield(field: &Field, locator: &Field) -> bool
    ensures is { result ≡ is_subfield field.now locator.now }
    ensures subfield { IsTrue result → IsSubfield field.now locator.now }
{
    locator.holds(field)
}

// Whether each entry is an element of the field.
pub(crate) fn are_elements(field: &Field, entries: &[u8]) -> bool
    ensures is { result ≡ are_elements field.now entries.now }
    ensures fits { IsTrue result → Fits field.now entries.now }
{
    fits(field, entries)
}

// Whether an entry is 0.
fn has_zero(entries: &[u8]) -> bool
    ensures is { result ≡ list_any (λ y. y == 0) entries.now }
{
    entries.iter().any(|y| *y == 0)
}

// Checks the parts of an alternant form; `bad_count` says whether its number of checks is refused.
#[tactic(auto, using(crate::proofs::RefusalLaws::check_form_laws))]
pub(crate) fn check_form(
    field: &Field,
    locator: &Field,
    bad_count: bool,
    points: &[u8],
    multipliers: &[u8],
) -> Result<(), CodeRefusal>
    ensures is { IsChecked result
        (first_refusal (form_refusals field.now locator.now bad_count points.now multipliers.now)) }
    ensures form { IfOk result
        (λ _. (r : ℕ) → IsForm field.now (alternant_form locator.now points.now multipliers.now r)) }
{
    if !field.is_symbol() {
        return Err(CodeRefusal::FieldTooLarge);
    }
    if !is_subfield(field, locator) {
        return Err(CodeRefusal::NotASubfield);
    }
    if !is_length(points.len() as u64) {
        return Err(CodeRefusal::BadLength);
    }
    if points.len() != multipliers.len() {
        return Err(CodeRefusal::LengthsDiffer);
    }
    if bad_count {
        return Err(CodeRefusal::BadArgument(1));
    }
    if !are_elements(locator, points) {
        return Err(CodeRefusal::BadArgument(2));
    }
    if !are_elements(locator, multipliers) || has_zero(multipliers) {
        return Err(CodeRefusal::BadArgument(3));
    }
    match repeated_point(points) {
        Some(refusal) => Err(refusal),
        None => Ok(()),
    }
}
