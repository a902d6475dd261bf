//! The laws of the number that divides the weights of a code.

ghost use Rattle.std.specs.Prelude.{◌≡◌, ℕ, ◌*◌, ◌<◌, ◌≤◌, List};
ghost use Rattle.lc_algebra.specs.Span.{SameSpan};
ghost use Rattle.lc_algebra.specs.Divisor.{weight_divisor, IsWeightDivisor, rounded, IsLeastMultiple};

use crate::FieldName;

/// The divisor of the weights is the greatest of the numbers that are asked for over the field, and is
/// no other number; rows with the same words have the same.
pub fn weights_have_a_divisor(field: FieldName)
    ensures greatest { (n : ℕ) (rows : List (List ℕ)) → IsWeightDivisor field n rows (weight_divisor field n rows) }
    ensures one { (n d e : ℕ) (rows : List (List ℕ)) → IsWeightDivisor field n rows d → IsWeightDivisor field n rows e →
        d ≡ e }
    ensures positive { (n : ℕ) (rows : List (List ℕ)) → 1 ≤ weight_divisor field n rows }
    ensures told_by_words { (n : ℕ) (rows others : List (List ℕ)) → SameSpan field n rows others →
        weight_divisor field n rows ≡ weight_divisor field n others }
{}

/// Rounding up gives the least multiple that is at least the number; so a multiple that is at least the
/// number is at least the rounded one.
pub fn rounding_up_is_least()
    ensures least { (d t : ℕ) → 0 < d → IsLeastMultiple d t (rounded d t) }
    ensures within { (d t w : ℕ) → 0 < d → ((m : ℕ) × (w ≡ m * d)) → t ≤ w → rounded d t ≤ w }
    ensures by_one { (t : ℕ) → rounded 1 t ≡ t }
{}
