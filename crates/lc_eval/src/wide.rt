//! Refusals of codes by their points, if a list holds a number above 255, which is an element of no field.
ghost use Rattle.std.specs.Prelude.{◌≡◌, ℕ, ◌-◌, ◌<◌, ◌≤◌, ◌==◌, ◌||◌, nat_lt, true, length, slice_index, Some};
ghost use Rattle.lc_algebra.specs.Embedding.{is_subfield};
ghost use Rattle.lc_algebra.specs.Polynomial.{trimmed};
ghost use Rattle.lc_constructions.specs.Refusal.{first_refusal};
ghost use Rattle.lc_constructions.specs.Refusals.{are_elements, is_goppa_polynomial, goppa_refusals, alternant_refusals};
ghost use Rattle.lc_eval.specs.Rows.{has_wide};

use lc_code::CodeRefusal;
use lc_constructions::is_length;
use lc_field::Field;

/// Whether a number is above 255.
pub(crate) fn is_wide(list: &[u64]) -> bool
    ensures { result ≡ has_wide list.now }
{
    list.iter().any(|a| 255 < *a)
}

// Whether all numbers are elements of the field.
#[tactic(auto, unfolding(lc_constructions::specs::Refusals::are_elements))]
fn are_elements(field: &Field, list: &[u64]) -> bool
    ensures { result ≡ are_elements field.now list.now }
{
    let size = u64::from(field.size());
    list.iter().all(|a| *a < size)
}

// Whether the field lies in the locator field.
fn is_subfield(field: &Field, locator: &Field) -> bool
    ensures { result ≡ is_subfield field.now locator.now }
{
    locator.holds(field)
}

// The number of coefficients without the last zeros.
#[tactic(auto, using(lc_poly::proofs::TrimLaws::length_trimmed))]
fn coefficient_count(list: &[u64]) -> usize
    ensures { result ≡ length (trimmed list.now) }
{
    significant(list)
}

// The length without the zeros at the end.
fn significant(list: &[u64]) -> usize
    ensures within { result ≤ length list.now }
    ensures leads { 0 < result → 0 < slice_index list.now (result - 1) }
    ensures zeros { (i : ℕ) → result ≤ i → slice_index list.now i ≡ 0 }
{
    let mut count = list.len();
    while count > 0 && list[count - 1] == 0 {
        count -= 1;
    }
    count
}

// Whether the list gives a polynomial over the locator field of degree 1 to 255.
#[tactic(auto, unfolding(lc_constructions::specs::Refusals::is_goppa_polynomial))]
fn is_goppa_polynomial(locator: &Field, list: &[u64]) -> bool
    ensures { result ≡ is_goppa_polynomial locator.now list.now }
{
    let count = coefficient_count(list);
    are_elements(locator, list) && (2 <= count && count <= 256)
}

/// The refusal of a Goppa code by lists of which one holds a number above 255.
pub(crate) fn refuse_goppa(
    field: &Field,
    locator: &Field,
    list: &[u64],
    points: &[u64],
) -> CodeRefusal
    requires wide { (has_wide list.now || has_wide points.now) ≡ true }
    ensures { first_refusal (goppa_refusals field.now locator.now list.now points.now) ≡ Some result }
{
    if !field.is_symbol() {
        return CodeRefusal::FieldTooLarge;
    }
    if !is_subfield(field, locator) {
        return CodeRefusal::NotASubfield;
    }
    if !is_length(points.len() as u64) {
        return CodeRefusal::BadLength;
    }
    if !is_goppa_polynomial(locator, list) {
        return CodeRefusal::BadArgument(1);
    }
    CodeRefusal::BadArgument(2)
}

// Whether r is 0 or above n.
fn is_bad_count(r: u64, n: usize) -> bool
    ensures { result ≡ ((r == 0) || nat_lt n r) }
{
    r == 0 || (n as u64) < r
}

/// The refusal of an alternant code by lists of which one holds a number above 255.
pub(crate) fn refuse_alternant(
    field: &Field,
    locator: &Field,
    r: u64,
    points: &[u64],
    multipliers: &[u64],
) -> CodeRefusal
    requires wide { (has_wide points.now || has_wide multipliers.now) ≡ true }
    ensures { first_refusal (alternant_refusals field.now locator.now r points.now multipliers.now) ≡ Some result }
{
    if !field.is_symbol() {
        return CodeRefusal::FieldTooLarge;
    }
    if !is_subfield(field, locator) {
        return CodeRefusal::NotASubfield;
    }
    if !is_length(points.len() as u64) {
        return CodeRefusal::BadLength;
    }
    if points.len() != multipliers.len() {
        return CodeRefusal::LengthsDiffer;
    }
    if is_bad_count(r, points.len()) {
        return CodeRefusal::BadArgument(1);
    }
    if !are_elements(locator, points) {
        return CodeRefusal::BadArgument(2);
    }
    CodeRefusal::BadArgument(3)
}
