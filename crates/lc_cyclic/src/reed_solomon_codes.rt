//! Reed-Solomon codes.
ghost use Rattle.std.specs.Prelude.{◌≡◌, ◌+◌, ◌≤◌, IfOk, IsTrue};
ghost use Rattle.lc_algebra.specs.Field.{size};
ghost use Rattle.lc_constructions.specs.Code.{IsCode};
ghost use Rattle.lc_constructions.specs.Cyclic.{IsReedSolomonWord};
ghost use Rattle.lc_constructions.specs.Alternant.{IsFormOf, bch_form};
ghost use Rattle.lc_constructions.specs.Refusal.{first_refusal, IsChecked, IsRefusedAs, RefusesFirst};
ghost use Rattle.lc_constructions.specs.Refusals.{is_size_of_symbol_field, reed_solomon_refusals};

use crate::fields::is_symbol_size;
use crate::forms::form_of;
use lc_code::{CodeRefusal, FormedCode, formed};
use lc_field::{Field, FieldRefusal, NoMemory};
use std::alloc::Global;

/// The Reed-Solomon code of length `n` with design distance `d`, over the field of n + 1 elements: the words whose polynomials are 0
/// at the powers 1 to `d - 1` of the primitive element, with their alternant form (MacWilliams and Sloane, chapter 10; GUAVA manual,
/// `ReedSolomonCode`).
///
/// Refused in this order: no field of at most 16 elements has n + 1 of them, NoFieldOfLength; `d` is 0 or above n, BadDelta.
#[tactic(auto, using(lc_constructions::proofs::RefusalLaws::refused_or_not))]
pub fn reed_solomon(alloc: Global, n: u64, d: u64) -> Result<FormedCode, CodeRefusal>
    ensures size { IfOk result (λ c. size c.code.field ≡ n + 1) }
    ensures code { IfOk result (λ c. IsCode c.code.field n (IsReedSolomonWord c.code.field d) c.code) }
    ensures form { IfOk result (λ c. c.form ≡ bch_form c.code.field n 1 d) }
    ensures formed { IfOk result (λ c. IsFormOf c.code c.form) }
    ensures refused { IsRefusedAs result (first_refusal (reed_solomon_refusals n d)) }
    ensures first { RefusesFirst result (first_refusal (reed_solomon_refusals n d)) }
{
    check_reed_solomon(n, d)?;
    let field = field_of(alloc, n + 1)?;
    let form = form_of(alloc, field.copy(alloc)?, n, 1, d)?;
    Ok(formed(alloc, &field, form)?)
}

// Checks the arguments of a Reed-Solomon code.
#[tactic(auto, using(crate::proofs::ReedSolomonLaws::check_reed_solomon_laws))]
fn check_reed_solomon(n: u64, d: u64) -> Result<(), CodeRefusal>
    ensures is { IsChecked result (first_refusal (reed_solomon_refusals n d)) }
    ensures there { IfOk result (λ _. IsTrue (is_size_of_symbol_field (n + 1))) }
    ensures least { IfOk result (λ _. 1 ≤ n) }
    ensures most { IfOk result (λ _. n ≤ 15) }
    ensures least_delta { IfOk result (λ _. 1 ≤ d) }
{
    if !is_length(n) {
        return Err(CodeRefusal::NoFieldOfLength);
    }
    if n < d || d < 1 {
        return Err(CodeRefusal::BadDelta);
    }
    Ok(())
}

// Whether some symbol field has n + 1 elements.
#[tactic(auto, using(crate::proofs::ReedSolomonLaws::is_length_laws))]
fn is_length(n: u64) -> bool
    ensures is { result ≡ is_size_of_symbol_field (n + 1) }
    ensures least { IsTrue result → 1 ≤ n }
    ensures most { IsTrue result → n ≤ 15 }
{
    if n < 1 {
        return false;
    }
    if n > 15 {
        return false;
    }
    is_symbol_size(n + 1)
}

// The field with that many elements.
#[tactic(auto, using(crate::proofs::ReedSolomonLaws::size_there))]
pub(crate) fn field_of(alloc: Global, elements: u64) -> Result<Field, NoMemory>
    requires there { IsTrue (is_size_of_symbol_field elements) }
    ensures size { IfOk result (λ f. size f ≡ elements) }
{
    match Field::of(alloc, elements) {
        Ok(field) => Ok(field),
        Err(FieldRefusal::NoMemory) => Err(NoMemory),
        Err(FieldRefusal::NotAField) => unreachable!(),
    }
}
