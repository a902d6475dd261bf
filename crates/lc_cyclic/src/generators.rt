//! BCH codes by their generator polynomials.
ghost use Rattle.std.specs.Prelude.{◌≡◌, ◌≢◌, ℕ, ◌-◌, ◌<◌, ◌≤◌, List, IfOk, IsTrue};
ghost use Rattle.lc_algebra.specs.Field.{size, is_symbol};
ghost use Rattle.lc_algebra.specs.Word.{Fits};
ghost use Rattle.lc_algebra.specs.Polynomial.{trimmed, poly_product};
ghost use Rattle.lc_algebra.specs.Embedding.{IsSubfield, IsMinimal};
ghost use Rattle.lc_constructions.specs.Code.{longest, IsCode};
ghost use Rattle.lc_constructions.specs.Cyclic.{IsLocatorField, value_in, IsBchWord};
ghost use Rattle.lc_cyclic.specs.Generator.{IsGenerator};

use crate::cyclic_codes::generated;
use crate::forms::root_of_unity;
use lc_code::Code;
use lc_field::{Field, NoMemory};
use lc_poly::{Poly, minimal};
use std::alloc::Global;

// The BCH code, by the product of the minimal polynomials of its zeros.
pub(crate) fn bch_code(
    alloc: Global,
    field: &Field,
    locator: &Field,
    n: u64,
    b: u64,
    d: u64,
) -> Result<Code, NoMemory>
    requires symbol { IsTrue (is_symbol field.now) }
    requires least { 1 ≤ n }
    requires most { n ≤ longest }
    requires locator { IsLocatorField field.now n locator.now }
    requires first { b < 256 }
    requires least_delta { 1 ≤ d }
    requires most_delta { d ≤ n }
    ensures code { IfOk result (λ c. IsCode field.now n (IsBchWord field.now locator.now n b d) c) }
{
    let root = root_of_unity(locator, n);
    let generator = generator(alloc, field, locator, root, b, d - 1)?;
    Ok(generated(alloc, field, generator.coefficients(), n as usize)?)
}

// The polynomial of least degree that is 0 at the powers b to b + count - 1 of the root.
fn generator(
    alloc: Global,
    field: &Field,
    locator: &Field,
    root: u8,
    b: u64,
    count: u64,
) -> Result<Poly, NoMemory>
    requires subfield { IsSubfield field.now locator.now }
    requires root { root < size locator.now }
    requires first { b < 256 }
    requires most { count < 256 }
    ensures field { IfOk result (λ g. g.field ≡ field.now) }
    ensures generator { IfOk result (λ g. IsGenerator field.now locator.now root b count g.coefficients) }
{
    let mut generator = Poly::from_list(alloc, field, &[1])?;
    for i in 0..count {
        let zero = locator.pow(root, b + i);
        if value_in(field, locator, generator.coefficients(), zero) != 0 {
            generator = with_zero(alloc, field, locator, &generator, zero)?;
        }
    }
    Ok(generator)
}

// The product with the minimal polynomial of an element.
fn with_zero(
    alloc: Global,
    field: &Field,
    locator: &Field,
    generator: &Poly,
    zero: u8,
) -> Result<Poly, NoMemory>
    requires field { generator.now.field ≡ field.now }
    requires subfield { IsSubfield field.now locator.now }
    requires element { zero < size locator.now }
    ensures field { IfOk result (λ p. p.field ≡ field.now) }
    ensures product { IfOk result
        (λ p. (u : List ℕ) × IsMinimal field.now locator.now zero u
        × (p.coefficients ≡ trimmed (poly_product field.now generator.now.coefficients u))) }
{
    let factor = minimal(alloc, locator, field, zero)?;
    Ok(generator.mul(alloc, &factor)?)
}

// The value in the locator field of a polynomial over the field, by Horner's rule.
#[tactic(auto, using(crate::proofs::GeneratorLaws::value_in_laws))]
fn value_in(field: &Field, locator: &Field, list: &[u8], at: u8) -> u8
    requires list { Fits field.now list.now }
    requires subfield { IsSubfield field.now locator.now }
    requires element { at < size locator.now }
    ensures is { result ≡ value_in field.now locator.now list.now at }
{
    let mut value = 0;
    let mut place = list.len();
    while place > 0 {
        place -= 1;
        value = locator.add(locator.embed(field, list[place]), locator.mul(at, value));
    }
    value
}
