//! Goppa polynomials, given by any list of their coefficients, and the points where they are 0.
ghost use Rattle.std.specs.Prelude.{◌≡◌, ℕ, ◌<◌, length, slice_index, IsNone, IsTrue};
ghost use Rattle.lc_algebra.specs.Word.{Fits};
ghost use Rattle.lc_algebra.specs.Polynomial.{value_at, trimmed};
ghost use Rattle.lc_constructions.specs.Refusals.{is_goppa_polynomial, root_at};

use crate::refusal::are_elements;
use lc_code::CodeRefusal;
use lc_field::Field;
use lc_poly::{coefficient_count, value};

// Whether the list gives a polynomial over the locator field of degree 1 to 255.
#[tactic(auto, unfolding(lc_constructions::specs::Refusals::is_goppa_polynomial))]
pub(crate) fn is_goppa_polynomial(locator: &Field, list: &[u8]) -> bool
    ensures is { result ≡ is_goppa_polynomial locator.now list.now }
    ensures fits { IsTrue result → Fits locator.now list.now }
{
    let count = coefficient_count(list);
    are_elements(locator, list) && (2 <= count && count <= 256)
}

// The refusal of the first point where the polynomial is 0, if there is one.
#[tactic(auto, using(crate::proofs::GoppaLaws::root_told, crate::proofs::GoppaLaws::root_none))]
pub(crate) fn root_at(locator: &Field, list: &[u8], points: &[u8]) -> Option<CodeRefusal>
    requires list { Fits locator.now list.now }
    requires points { Fits locator.now points.now }
    ensures is { result ≡ root_at locator.now list.now points.now }
    ensures nonzero { IsNone result → (i : ℕ) → i < length points.now →
        0 < value_at locator.now list.now (slice_index points.now i) }
{
    for i in 0..points.len() {
        if value(locator, list, points[i]) == 0 {
            return Some(CodeRefusal::RootAt(i));
        }
    }
    None
}
