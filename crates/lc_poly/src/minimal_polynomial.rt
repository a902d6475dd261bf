//! Minimal polynomials.
ghost use Rattle.std.specs.Prelude.{◌≡◌, ℕ, ◌+◌, ◌<◌, ◌≤◌, ◌↔◌, IfOk, IsTrue, replicate};
ghost use Rattle.lc_algebra.specs.Field.{size};
ghost use Rattle.lc_algebra.specs.Word.{Fits};
ghost use Rattle.lc_algebra.specs.Embedding.{IsSubfield, IsMinimal};
ghost use Rattle.lc_poly.specs.Minimal.{next_value, CanVanish};

use crate::arithmetic::zeros;
use crate::poly::Poly;
use lc_field::{Field, NoMemory};
use std::alloc::Global;

/// The minimal polynomial over `small` of the element `a` of `large`: the monic polynomial of least degree with coefficients in
/// `small` that has `a` as a zero in `large`. `small` is a subfield of `large`, and `a` is below the size of `large`.
/// (MacWilliams and Sloane, The Theory of Error-Correcting Codes, chapter 4.)
#[tactic(auto, using(crate::proofs::MinimalLaws::minimal_trimmed))]
pub fn minimal(alloc: Global, large: &Field, small: &Field, a: u8) -> Result<Poly, NoMemory>
    requires subfield { IsSubfield small.now large.now }
    requires element { a < size large.now }
    ensures field { IfOk result (λ p. p.field ≡ small.now) }
    ensures minimal { IfOk result (λ p. IsMinimal small.now large.now a p.coefficients) }
{
    let list = minimal_list(alloc, large, small, a)?;
    Poly::from_list(alloc, small, &list)
}

// The coefficients of the minimal polynomial.
fn minimal_list(alloc: Global, large: &Field, small: &Field, a: u8) -> Result<Vec<u8>, NoMemory>
    requires subfield { IsSubfield small.now large.now }
    requires element { a < size large.now }
    ensures fits { IfOk result (λ list. Fits small.now list.items) }
    ensures minimal { IfOk result (λ list. IsMinimal small.now large.now a list.items) }
{
    let degree = least_degree(large, small, a);
    let mut list = zeros(alloc, degree + 1)?;
    write_minimal(large, small, a, degree, &mut list);
    Ok(list)
}

// The least number of coefficients below a last 1 that give a polynomial with the zero.
#[tactic(auto, using(crate::proofs::MinimalLaws::size_reached))]
fn least_degree(large: &Field, small: &Field, a: u8) -> usize
    requires subfield { IsSubfield small.now large.now }
    requires element { a < size large.now }
    ensures most { result ≤ 256 }
    ensures reached { CanVanish small.now large.now a result 1 }
    ensures least { (n : ℕ) → n < result → CanVanish small.now large.now a n 1 → ⊥ }
{
    let most = large.size() as usize;
    for degree in 0..most {
        if can_vanish(large, small, a, degree, 1) {
            return degree;
        }
    }
    most
}

// Writes over zeros the coefficients of a polynomial of that degree with the zero, from the last one down.
fn write_minimal(large: &Field, small: &Field, a: u8, degree: usize, list: &mut [u8])
    requires subfield { IsSubfield small.now large.now }
    requires element { a < size large.now }
    requires zeros { list.old ≡ replicate (degree + 1) 0 }
    requires reached { CanVanish small.now large.now a degree 1 }
    requires least { (n : ℕ) → n < degree → CanVanish small.now large.now a n 1 → ⊥ }
    ensures fits { Fits small.now list.new }
    ensures minimal { IsMinimal small.now large.now a list.new }
{
    list[degree] = 1;
    let mut value = 1;
    let mut place = degree;
    while place > 0 {
        place -= 1;
        let c = next_coefficient(large, small, a, place, value);
        value = next_value(large, small, a, c, value);
        list[place] = c;
    }
}

// A coefficient by which the value can still be made 0 with `depth` more.
fn next_coefficient(large: &Field, small: &Field, a: u8, depth: usize, value: u8) -> u8
    requires subfield { IsSubfield small.now large.now }
    requires element { a < size large.now }
    requires value { value < size large.now }
    requires reached { CanVanish small.now large.now a (depth + 1) value }
    ensures below { result < size small.now }
    ensures reaches { CanVanish small.now large.now a depth (next_value small.now large.now a result value) }
{
    for c in 0..small.size() {
        if can_vanish(
            large,
            small,
            a,
            depth,
            next_value(large, small, a, c as u8, value),
        ) {
            return c as u8;
        }
    }
    0
}

// Whether some `depth` coefficients below those that gave `value` make it 0.
fn can_vanish(large: &Field, small: &Field, a: u8, depth: usize, value: u8) -> bool
    requires subfield { IsSubfield small.now large.now }
    requires element { a < size large.now }
    requires value { value < size large.now }
    ensures is { IsTrue result ↔ CanVanish small.now large.now a depth value }
{
    if depth == 0 {
        return value == 0;
    }
    for c in 0..small.size() {
        if can_vanish(
            large,
            small,
            a,
            depth - 1,
            next_value(large, small, a, c as u8, value),
        ) {
            return true;
        }
    }
    false
}

// The value at `a`, one coefficient further down.
fn next_value(large: &Field, small: &Field, a: u8, c: u8, value: u8) -> u8
    requires subfield { IsSubfield small.now large.now }
    requires element { a < size large.now }
    requires coefficient { c < size small.now }
    requires value { value < size large.now }
    ensures is { result ≡ next_value small.now large.now a c value }
    ensures below { result < size large.now }
{
    large.add(large.embed(small, c), large.mul(a, value))
}
