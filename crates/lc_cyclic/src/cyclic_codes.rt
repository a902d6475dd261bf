//! Cyclic codes by a generator polynomial or a check polynomial.
ghost use Rattle.std.specs.Prelude.{◌≡◌, ◌+◌, ◌<◌, ◌≤◌, Bool, length, IfOk, IsTrue};
ghost use Rattle.lc_algebra.specs.Field.{is_symbol};
ghost use Rattle.lc_algebra.specs.Word.{Fits};
ghost use Rattle.lc_algebra.specs.Polynomial.{trimmed, poly_product, x_power_minus_one, SamePolynomial, IsPolynomial, Divides};
ghost use Rattle.lc_constructions.specs.Code.{longest, IsCode};
ghost use Rattle.lc_constructions.specs.Cyclic.{IsMultipleOf, IsCheckedBy};
ghost use Rattle.lc_constructions.specs.Refusal.{first_refusal, IsChecked, IsRefusedAs, RefusesFirst};
ghost use Rattle.lc_constructions.specs.Refusals.{are_elements, DividesPowerLess, cyclic_refusals};
ghost use Rattle.lc_cyclic.specs.Shifts.{shifted, shifts, shift_count};

use lc_code::{Code, CodeRefusal};
use lc_constructions::is_length;
use lc_field::{Field, NoMemory};
use lc_poly::{Poly, coefficient_count, divides_x_power_minus_one, trimmed, x_power_minus_one};
use lc_vec::{Word, fits};
use std::alloc::Global;

/// The cyclic code of length `n` with the generator polynomial whose coefficients are in `list`, from the constant upwards: the words
/// whose polynomials are multiples of it modulo x^n - 1 (MacWilliams and Sloane, chapter 7; GUAVA manual, `GeneratorPolCode`). Zeros
/// at the end of the list don't count.
///
/// Its dimension is `n` less the degree of the polynomial. Refused in this order: the field has more than 16 elements,
/// FieldTooLarge; `n` is 0 or above 255, BadLength; a coefficient isn't below the size of the field, or all are 0, BadArgument(1);
/// the polynomial doesn't divide x^n - 1, NotADivisor.
pub fn generator_pol(alloc: Global, list: &[u8], n: u64, field: &Field) -> Result<Code, CodeRefusal>
    ensures code { IfOk result (λ c. IsCode field.now n (IsMultipleOf field.now n (trimmed list.now)) c) }
    ensures refused { (divides : Bool) → DividesPowerLess field.now list.now n divides →
        IsRefusedAs result (first_refusal (cyclic_refusals field.now list.now n divides)) }
    ensures first { (divides : Bool) → DividesPowerLess field.now list.now n divides →
        RefusesFirst result (first_refusal (cyclic_refusals field.now list.now n divides)) }
{
    check_cyclic(field, list, n)?;
    Ok(generated(alloc, field, trimmed(list), n as usize)?)
}

/// The cyclic code of length `n` with the check polynomial whose coefficients are in `list`, from the constant upwards: the words
/// whose polynomials times it are 0 modulo x^n - 1 (MacWilliams and Sloane, chapter 7; GUAVA manual, `CheckPolCode`). Zeros at the
/// end of the list don't count.
///
/// Its dimension is the degree of the polynomial. Refused as `generator_pol` is, in the same order.
pub fn check_pol(alloc: Global, list: &[u8], n: u64, field: &Field) -> Result<Code, CodeRefusal>
    ensures code { IfOk result (λ c. IsCode field.now n (IsCheckedBy field.now n (trimmed list.now)) c) }
    ensures refused { (divides : Bool) → DividesPowerLess field.now list.now n divides →
        IsRefusedAs result (first_refusal (cyclic_refusals field.now list.now n divides)) }
    ensures first { (divides : Bool) → DividesPowerLess field.now list.now n divides →
        RefusesFirst result (first_refusal (cyclic_refusals field.now list.now n divides)) }
{
    check_cyclic(field, list, n)?;
    Ok(checked(alloc, field, list, n as usize)?)
}

// Checks the arguments of a cyclic code.
#[tactic(auto, using(crate::proofs::CyclicRefusals::check_cyclic_laws))]
fn check_cyclic(field: &Field, list: &[u8], n: u64) -> Result<(), CodeRefusal>
    ensures is { (divides : Bool) → DividesPowerLess field.now list.now n divides →
        IsChecked result (first_refusal (cyclic_refusals field.now list.now n divides)) }
    ensures symbol { IfOk result (λ _. IsTrue (is_symbol field.now)) }
    ensures least { IfOk result (λ _. 1 ≤ n) }
    ensures most { IfOk result (λ _. n ≤ longest) }
    ensures fits { IfOk result (λ _. Fits field.now list.now) }
    ensures nonzero { IfOk result (λ _. 0 < length (trimmed list.now)) }
    ensures divides { IfOk result (λ _. Divides field.now (trimmed list.now) (x_power_minus_one field.now n)) }
{
    if !field.is_symbol() {
        return Err(CodeRefusal::FieldTooLarge);
    }
    if !is_length(n) {
        return Err(CodeRefusal::BadLength);
    }
    if !are_elements(field, list) {
        return Err(CodeRefusal::BadArgument(1));
    }
    if coefficient_count(list) == 0 {
        return Err(CodeRefusal::BadArgument(1));
    }
    if !divides_x_power_minus_one(field, list, n as usize) {
        return Err(CodeRefusal::NotADivisor);
    }
    Ok(())
}

// Whether each entry is an element of the field.
fn are_elements(field: &Field, list: &[u8]) -> bool
    ensures is { result ≡ are_elements field.now list.now }
    ensures fits { IsTrue result → Fits field.now list.now }
{
    fits(field, list)
}

// The code that a divisor of x^n - 1 generates.
pub(crate) fn generated(
    alloc: Global,
    field: &Field,
    polynomial: &[u8],
    n: usize,
) -> Result<Code, NoMemory>
    requires symbol { IsTrue (is_symbol field.now) }
    requires least { 1 ≤ n }
    requires most { n ≤ longest }
    requires polynomial { IsPolynomial field.now polynomial.now }
    requires divides { Divides field.now polynomial.now (x_power_minus_one field.now n) }
    ensures code { IfOk result (λ c. IsCode field.now n (IsMultipleOf field.now n polynomial.now) c) }
{
    let rows = shifts(alloc, polynomial, n)?;
    Ok(Code::from_rows(alloc, field, n, &rows)?)
}

// The code whose words a divisor of x^n - 1 checks: the one that its cofactor generates.
fn checked(alloc: Global, field: &Field, list: &[u8], n: usize) -> Result<Code, NoMemory>
    requires symbol { IsTrue (is_symbol field.now) }
    requires least { 1 ≤ n }
    requires most { n ≤ longest }
    requires list { Fits field.now list.now }
    requires nonzero { 0 < length (trimmed list.now) }
    requires divides { Divides field.now (trimmed list.now) (x_power_minus_one field.now n) }
    ensures code { IfOk result (λ c. IsCode field.now n (IsCheckedBy field.now n (trimmed list.now)) c) }
{
    let cofactor = cofactor(alloc, field, list, n)?;
    Ok(generated(alloc, field, cofactor.coefficients(), n)?)
}

// The quotient of x^n - 1 by a divisor.
fn cofactor(alloc: Global, field: &Field, list: &[u8], n: usize) -> Result<Poly, NoMemory>
    requires least { 1 ≤ n }
    requires most { n ≤ longest }
    requires list { Fits field.now list.now }
    requires nonzero { 0 < length (trimmed list.now) }
    requires divides { Divides field.now (trimmed list.now) (x_power_minus_one field.now n) }
    ensures field { IfOk result (λ p. p.field ≡ field.now) }
    ensures cofactor { IfOk result
        (λ p. SamePolynomial (x_power_minus_one field.now n)
        (poly_product field.now p.coefficients (trimmed list.now))) }
{
    let polynomial = Poly::from_list(alloc, field, list)?;
    let power = x_power_minus_one(alloc, field, n)?;
    let (quotient, _remainder) = power.divide(alloc, &polynomial)?;
    Ok(quotient)
}

// The shifts of a polynomial that generate its code.
#[tactic(auto, using(crate::proofs::CyclicLaws::shifts_laws))]
fn shifts(alloc: Global, polynomial: &[u8], n: usize) -> Result<Vec<Word>, NoMemory>
    requires most { n ≤ longest }
    requires room { length polynomial.now ≤ n + 1 }
    requires nonzero { 0 < length polynomial.now }
    ensures are { IfOk result (λ rows. rows.items ≡ shifts polynomial.now n (shift_count polynomial.now n)) }
{
    let mut rows = Vec::new(alloc);
    for i in 0..n + 1 - polynomial.len() {
        rows.push(shifted(alloc, polynomial, n, i)?)?;
    }
    Ok(rows)
}

// The polynomial times x^i, as a word of n symbols.
#[tactic(auto, unfolding(crate::specs::Shifts::shifted))]
fn shifted(alloc: Global, polynomial: &[u8], n: usize, i: usize) -> Result<Word, NoMemory>
    requires room { i + length polynomial.now ≤ n }
    ensures is { IfOk result (λ w. w ≡ shifted polynomial.now n i) }
{
    let mut symbols = vec![in alloc; 0u8; i]?;
    symbols.extend_from_slice(polynomial)?;
    symbols.resize(n, 0)?;
    Ok(Word::from_vec(symbols))
}
