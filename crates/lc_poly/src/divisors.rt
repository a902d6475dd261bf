//! Divisors of x^n - 1, given by any list of their coefficients.
ghost use Rattle.std.specs.Prelude.{◌≡◌, ℕ, ◌+◌, ◌<◌, ◌≤◌, ◌↔◌, length, replicate, slice_index, IsTrue};
ghost use Rattle.lc_algebra.specs.Word.{Fits};
ghost use Rattle.lc_algebra.specs.Polynomial.{trimmed, x_power_minus_one, IsPolynomial, Divides};

use crate::arithmetic::{divide_in_place, lower, significant, write_ends};
use lc_field::Field;

/// The number of coefficients of a list without the zeros at its end: one more than the degree, and 0 for the zero polynomial.
pub fn coefficient_count(list: &[u8]) -> usize
    ensures is { result ≡ length (trimmed list.now) }
{
    significant(list)
}

/// The coefficients of a list without the zeros at its end.
pub fn trimmed(list: &[u8]) -> &[u8]
    ensures is { result.now ≡ trimmed list.now }
{
    lower(list, significant(list))
}

/// Whether the polynomial with the coefficients of `list`, from the constant upwards, divides x^n - 1. Each coefficient is below
/// the field's size, one of them isn't 0, and `n` is 1 to 255. No memory is taken. (MacWilliams and Sloane, The Theory of
/// Error-Correcting Codes, chapter 7.)
pub fn divides_x_power_minus_one(field: &Field, list: &[u8], n: usize) -> bool
    requires list { Fits field.now list.now }
    requires nonzero { 0 < length (trimmed list.now) }
    requires least { 1 ≤ n }
    requires most { n ≤ 255 }
    ensures is { IsTrue result ↔ Divides field.now (trimmed list.now) (x_power_minus_one field.now n) }
{
    let mut zeros = [0u8; 256];
    divides_over(field, &mut zeros[..n + 1], trimmed(list), n)
}

// Whether the polynomial divides x^n - 1, which is written over n + 1 zeros.
#[tactic(auto, using(lc_algebra::proofs::FieldLaws::one_inside))]
fn divides_over(field: &Field, zeros: &mut [u8], by: &[u8], n: usize) -> bool
    requires by { IsPolynomial field.now by.now }
    requires nonzero { 0 < length by.now }
    requires least { 1 ≤ n }
    requires zeros { zeros.old ≡ replicate (n + 1) 0 }
    ensures is { IsTrue result ↔ Divides field.now by.now (x_power_minus_one field.now n) }
{
    write_ends(zeros, field.neg(1));
    divide_in_place(field, zeros, by);
    are_zeros(lower(zeros, by.len() - 1))
}

// Whether all entries are 0.
fn are_zeros(list: &[u8]) -> bool
    ensures zeros { IsTrue result → (i : ℕ) → slice_index list.now i ≡ 0 }
    ensures nonzero { ((i : ℕ) → slice_index list.now i ≡ 0) → IsTrue result }
{
    significant(list) == 0
}
