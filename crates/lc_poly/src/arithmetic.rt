//! Values, products and remainders on lists of coefficients, from the constant upwards.
ghost use Rattle.std.specs.Prelude.{◌≡◌, ℕ, ◌+◌, ◌-◌, ◌<◌, ◌≤◌, IfOk, length, replicate, slice_index, slice_set as set, take, drop};
ghost use Rattle.lc_algebra.specs.Field.{size, add, mul};
ghost use Rattle.lc_algebra.specs.Word.{Fits};
ghost use Rattle.lc_algebra.specs.Polynomial.{value_at, poly_sum, poly_product, x_power_minus_one, SamePolynomial};

use lc_field::{Field, NoMemory};
use std::alloc::Global;

// The number of coefficients up to the last nonzero one.
pub(crate) fn significant(list: &[u8]) -> usize
    ensures within { result ≤ length list.now }
    ensures leads { 0 < result → 0 < slice_index list.now (result - 1) }
    ensures zeros { (i : ℕ) → result ≤ i → slice_index list.now i ≡ 0 }
{
    let mut count = list.len();
    while count > 0 && list[count - 1] == 0 {
        count -= 1;
    }
    count
}

/// The value at an element of the polynomial with these coefficients, from the constant upwards, by Horner's rule from the last
/// coefficient down. The element and each coefficient are below the field's size.
#[tactic(auto, using(crate::proofs::ListLaws::value_none, crate::proofs::ListLaws::value_step))]
pub fn value(field: &Field, coefficients: &[u8], at: u8) -> u8
    requires coefficients { Fits field.now coefficients.now }
    requires element { at < size field.now }
    ensures is { result ≡ value_at field.now coefficients.now at }
    ensures below { result < size field.now }
{
    let mut value = 0;
    let mut place = coefficients.len();
    while place > 0 {
        place -= 1;
        value = field.add(coefficients[place], field.mul(at, value));
    }
    value
}

// Adds `factor` times `from` to the coefficients of `to` from place `at` on.
pub(crate) fn add_multiple(field: &Field, to: &mut [u8], at: usize, from: &[u8], factor: u8)
    requires to { Fits field.now to.old }
    requires from { Fits field.now from.now }
    requires factor { factor < size field.now }
    requires room { at + length from.now ≤ length to.old }
    ensures length { length to.new ≡ length to.old }
    ensures fits { Fits field.now to.new }
    ensures before { (i : ℕ) → i < at → slice_index to.new i ≡ slice_index to.old i }
    ensures sum { (i : ℕ) →
        slice_index to.new (at + i)
        ≡ add field.now (slice_index to.old (at + i)) (mul field.now factor (slice_index from.now i)) }
{
    for i in 0..from.len() {
        to[at + i] = field.add(to[at + i], field.mul(factor, from[i]));
    }
}

// A copy of a list.
pub(crate) fn copied(alloc: Global, list: &[u8]) -> Result<Vec<u8>, NoMemory>
    ensures { IfOk result (λ copy. copy.items ≡ list.now) }
{
    Ok(list.to_vec(alloc)?)
}

// n zeros.
pub(crate) fn zeros(alloc: Global, n: usize) -> Result<Vec<u8>, NoMemory>
    ensures { IfOk result (λ zeros. zeros.items ≡ replicate n 0) }
{
    Ok(vec![in alloc; 0u8; n]?)
}

// The first `count` entries of a list, or all.
pub(crate) fn lower(list: &[u8], count: usize) -> &[u8]
    ensures { result.now ≡ take count list.now }
{
    if count < list.len() {
        &list[..count]
    } else {
        list
    }
}

// The entries of a list after the first `count`.
pub(crate) fn upper(list: &[u8], count: usize) -> &[u8]
    ensures { result.now ≡ drop count list.now }
{
    if count < list.len() {
        &list[count..]
    } else {
        &list[list.len()..]
    }
}

// Writes the product of two polynomials over zeros: it has zeros at its end.
pub(crate) fn multiply_into(field: &Field, product: &mut [u8], first: &[u8], second: &[u8])
    requires first { Fits field.now first.now }
    requires second { Fits field.now second.now }
    requires room { length product.old ≡ length first.now + length second.now }
    requires zeros { (i : ℕ) → slice_index product.old i ≡ 0 }
    ensures length { length product.new ≡ length product.old }
    ensures fits { Fits field.now product.new }
    ensures product { SamePolynomial product.new (poly_product field.now first.now second.now) }
{
    let mut at = first.len();
    while at > 0 {
        at -= 1;
        add_multiple(field, product, at, second, first[at]);
    }
}

// The product of two polynomials, with zeros at its end.
pub(crate) fn product(
    alloc: Global,
    field: &Field,
    first: &[u8],
    second: &[u8],
) -> Result<Vec<u8>, NoMemory>
    requires first { Fits field.now first.now }
    requires second { Fits field.now second.now }
    ensures fits { IfOk result (λ p. Fits field.now p.items) }
    ensures product { IfOk result (λ p. SamePolynomial p.items (poly_product field.now first.now second.now)) }
{
    let mut product = zeros(alloc, first.len() + second.len())?;
    multiply_into(field, &mut product, first, second);
    Ok(product)
}

// Divides the polynomial `work` by `by`, of degree d: then its first d coefficients are the remainder, and the others the
// quotient.
pub(crate) fn divide_in_place(field: &Field, work: &mut [u8], by: &[u8])
    requires work { Fits field.now work.old }
    requires by { Fits field.now by.now }
    requires nonzero { 0 < length by.now }
    requires leads { 0 < slice_index by.now (length by.now - 1) }
    ensures length { length work.new ≡ length work.old }
    ensures fits { Fits field.now work.new }
    ensures division { SamePolynomial work.old
        (poly_sum field.now (poly_product field.now (drop (length by.now - 1) work.new) by.now)
        (take (length by.now - 1) work.new)) }
{
    let degree = by.len() - 1;
    if work.len() <= degree {
        return;
    }
    let inverse = field.inv(by[degree]);
    let mut at = work.len() - degree;
    while at > 0 {
        at -= 1;
        let factor = field.mul(work[at + degree], inverse);
        add_multiple(field, work, at, by, field.neg(factor));
        work[at + degree] = factor;
    }
}

// What `divide_in_place` leaves of a copy of `list`.
pub(crate) fn divided(
    alloc: Global,
    field: &Field,
    list: &[u8],
    by: &[u8],
) -> Result<Vec<u8>, NoMemory>
    requires list { Fits field.now list.now }
    requires by { Fits field.now by.now }
    requires nonzero { 0 < length by.now }
    requires leads { 0 < slice_index by.now (length by.now - 1) }
    ensures fits { IfOk result (λ w. Fits field.now w.items) }
    ensures division { IfOk result
        (λ w. SamePolynomial list.now
        (poly_sum field.now (poly_product field.now (drop (length by.now - 1) w.items) by.now)
        (take (length by.now - 1) w.items))) }
{
    let mut work = copied(alloc, list)?;
    divide_in_place(field, &mut work, by);
    Ok(work)
}

// Writes `first` at the first place of a list, and 1 at the last one.
pub(crate) fn write_ends(list: &mut [u8], first: u8)
    requires { 0 < length list.old }
    ensures { list.new ≡ set (set list.old 0 first) (length list.old - 1) 1 }
{
    let last = list.len() - 1;
    list[0] = first;
    list[last] = 1;
}

// The coefficients of x^n - 1.
#[tactic(auto, using(lc_algebra::proofs::FieldLaws::one_inside))]
pub(crate) fn x_power_list(alloc: Global, field: &Field, n: usize) -> Result<Vec<u8>, NoMemory>
    requires least { 1 ≤ n }
    requires most { n ≤ 255 }
    ensures { IfOk result (λ list. list.items ≡ x_power_minus_one field.now n) }
{
    let mut list = zeros(alloc, n + 1)?;
    write_ends(&mut list, field.neg(1));
    Ok(list)
}
