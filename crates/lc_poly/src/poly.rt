//! A polynomial that knows its field.
ghost use Rattle.std.specs.Prelude.{◌≡◌, ◌≢◌, ◌<◌, ◌≤◌, ◌↔◌, IfOk, IsTrue, [], length};
ghost use Rattle.lc_algebra.specs.Field.{size};
ghost use Rattle.lc_algebra.specs.Word.{Fits};
ghost use Rattle.lc_algebra.specs.Polynomial.{trimmed, value_at, poly_product, x_power_minus_one, IsPolynomial, IsDivision, Divides};

use crate::arithmetic::{copied, divided, lower, product, significant, upper, value, x_power_list};
use lc_field::{Field, NoMemory};
use std::alloc::Global;
use std::marker::Model;

/// A polynomial over one of the eighteen fields, with its field.
///
/// Contracts see the field's name and the list of coefficients from the constant upwards. The last coefficient isn't 0; the zero
/// polynomial has none (MacWilliams and Sloane, The Theory of Error-Correcting Codes, chapter 4).
#[derive(Drop)]
pub struct Poly {
    field: Field,
    coefficients: Vec<u8>,
}

impl Model for Poly {
    ghost use Rattle.lc_algebra.specs.Polynomial.{IsPolynomial};
    ghost use Rattle.lc_poly.specs.Poly.{Polynomial};

    ghost Value = { Polynomial };

    ghost view = { λ p. record { field = p.field; coefficients = p.coefficients.items } };

    ghost invariant = { λ p. IsPolynomial p.field p.coefficients.items };
}

impl Poly {
    /// The polynomial with the coefficients of `list`, from the constant upwards: zeros at its end are dropped. Each
    /// coefficient is below the field's size.
    #[tactic(auto, using(crate::proofs::ListLaws::taken_trimmed))]
    pub fn from_list(alloc: Global, field: &Field, list: &[u8]) -> Result<Poly, NoMemory>
        requires list { Fits field.now list.now }
        ensures field { IfOk result (λ p. p.field ≡ field.now) }
        ensures coefficients { IfOk result (λ p. p.coefficients ≡ trimmed list.now) }
    {
        let coefficients = copied(alloc, &list[..significant(list)])?;
        Ok(Poly {
            field: field.copy(alloc)?,
            coefficients,
        })
    }

    /// The coefficients from the constant upwards: the last one isn't 0, and the zero polynomial has none.
    pub fn coefficients(&self) -> &[u8]
        ensures are { result.now ≡ self.now.coefficients }
        ensures polynomial { IsPolynomial self.now.field self.now.coefficients }
    {
        &self.coefficients
    }

    /// Whether this is the zero polynomial.
    pub fn is_zero(&self) -> bool
        ensures is { IsTrue result ↔ (self.now.coefficients ≡ []) }
    {
        self.coefficients.is_empty()
    }

    /// The value at an element of the field, a number below its size.
    pub fn eval(&self, at: u8) -> u8
        requires element { at < size self.now.field }
        ensures is { result ≡ value_at self.now.field self.now.coefficients at }
        ensures below { result < size self.now.field }
    {
        value(&self.field, &self.coefficients, at)
    }

    /// The product. Both polynomials have the same field.
    pub fn mul(&self, alloc: Global, other: &Poly) -> Result<Poly, NoMemory>
        requires field { self.now.field ≡ other.now.field }
        ensures field { IfOk result (λ p. p.field ≡ self.now.field) }
        ensures product { IfOk result
            (λ p. p.coefficients ≡ trimmed (poly_product self.now.field self.now.coefficients other.now.coefficients)) }
    {
        let product = product(alloc, &self.field, &self.coefficients, &other.coefficients)?;
        Poly::from_list(alloc, &self.field, &product)
    }

    /// The quotient and the remainder on division by a polynomial over the same field that isn't zero: the remainder has fewer
    /// coefficients than `by`.
    pub fn divide(&self, alloc: Global, by: &Poly) -> Result<(Poly, Poly), NoMemory>
        requires field { self.now.field ≡ by.now.field }
        requires nonzero { by.now.coefficients ≢ [] }
        ensures quotient_field { IfOk result (λ p. p.0.field ≡ self.now.field) }
        ensures remainder_field { IfOk result (λ p. p.1.field ≡ self.now.field) }
        ensures division { IfOk result (λ p. IsDivision self.now.field
            self.now.coefficients by.now.coefficients p.0.coefficients p.1.coefficients) }
    {
        parts(alloc, &self.field, &self.coefficients, &by.coefficients)
    }

    /// Whether `other` is a multiple of this polynomial, which isn't zero. Both have the same field.
    pub fn divides(&self, alloc: Global, other: &Poly) -> Result<bool, NoMemory>
        requires field { self.now.field ≡ other.now.field }
        requires nonzero { self.now.coefficients ≢ [] }
        ensures is { IfOk result (λ b. IsTrue b ↔ Divides self.now.field self.now.coefficients other.now.coefficients) }
    {
        let _ = &self.coefficients;
        let (_quotient, remainder) = other.divide(alloc, self)?;
        Ok(remainder.is_zero())
    }
}

/// The polynomial x^n - 1 over a field, for n from 1 to 255.
#[tactic(auto, using(crate::proofs::DivisionLaws::x_power_minus_one_laws))]
pub fn x_power_minus_one(alloc: Global, field: &Field, n: usize) -> Result<Poly, NoMemory>
    requires least { 1 ≤ n }
    requires most { n ≤ 255 }
    ensures field { IfOk result (λ p. p.field ≡ field.now) }
    ensures coefficients { IfOk result (λ p. p.coefficients ≡ x_power_minus_one field.now n) }
{
    let list = x_power_list(alloc, field, n)?;
    Poly::from_list(alloc, field, &list)
}

// The quotient and the remainder on division by a polynomial that isn't zero.
fn parts(alloc: Global, field: &Field, list: &[u8], by: &[u8]) -> Result<(Poly, Poly), NoMemory>
    requires list { Fits field.now list.now }
    requires by { IsPolynomial field.now by.now }
    requires nonzero { 0 < length by.now }
    ensures quotient_field { IfOk result (λ p. p.0.field ≡ field.now) }
    ensures remainder_field { IfOk result (λ p. p.1.field ≡ field.now) }
    ensures division { IfOk result (λ p. IsDivision field.now list.now by.now p.0.coefficients p.1.coefficients) }
{
    let work = divided(alloc, field, list, by)?;
    let degree = by.len() - 1;
    let quotient = Poly::from_list(alloc, field, upper(&work, degree))?;
    let remainder = Poly::from_list(alloc, field, lower(&work, degree))?;
    Ok((quotient, remainder))
}

// Proved only where its argument may go to another thread and be shared with it.
fn crosses_threads<T: Send + Sync>(_value: &T) {}

// A polynomial is `Send` and `Sync`.
fn poly_crosses_threads(poly: &Poly) {
    crosses_threads(poly);
}
