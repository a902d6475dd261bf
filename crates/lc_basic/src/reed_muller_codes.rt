//! Reed-Muller codes.
ghost use Rattle.std.specs.Prelude.{◌≡◌, ◌+◌, ◌^◌, ◌≤◌, ◌++◌, ◌∷◌, [], IfOk};
ghost use Rattle.lc_algebra.specs.declared.FieldName.TheVariants.{Gf2};
ghost use Rattle.lc_constructions.specs.Code.{IsCode};
ghost use Rattle.lc_constructions.specs.Basic.{GeneratedBy, reed_muller_rows};
ghost use Rattle.lc_constructions.specs.Refusal.{first_refusal, IsRefusedAs, RefusesFirst};
ghost use Rattle.lc_constructions.specs.Refusals.{reed_muller_refusals};
ghost use Rattle.lc_basic.specs.Checked.{IsChecked};
ghost use Rattle.lc_basic.specs.Product.{times_all, products};

use crate::hamming_codes::power;
use crate::trivial::ones;
use lc_code::{Code, CodeRefusal};
use lc_field::{Field, FieldRefusal, NoMemory};
use lc_vec::Word;
use std::alloc::Global;

/// The binary Reed-Muller code of order `r` in `m` variables: the value lists, over all coordinates i, of the polynomials of degree
/// at most `r`, where the bits of i are the variables (MacWilliams and Sloane, chapter 13; GUAVA manual, `ReedMullerCode`).
///
/// Its length is 2^m. Refused in this order: 2^m is above 255, BadLength; `r` is above `m`, BadArgument(1). Both may be any numbers.
#[tactic(auto, using(lc_constructions::proofs::RefusalLaws::refused_or_not))]
pub fn reed_muller(alloc: Global, r: u64, m: u64) -> Result<Code, CodeRefusal>
    ensures code { IfOk result (λ c. IsCode Gf2 (2 ^ m) (GeneratedBy Gf2 (2 ^ m) (reed_muller_rows r m)) c) }
    ensures refused { IsRefusedAs result (first_refusal (reed_muller_refusals r m)) }
    ensures first { RefusesFirst result (first_refusal (reed_muller_refusals r m)) }
{
    check_reed_muller(r, m)?;
    Ok(code_of_products(alloc, r, m)?)
}

// Checks an order and a number of variables.
#[tactic(auto, using(crate::proofs::ProductLaws::check_reed_muller_laws))]
fn check_reed_muller(r: u64, m: u64) -> Result<(), CodeRefusal>
    ensures is { IsChecked result (first_refusal (reed_muller_refusals r m)) }
    ensures most { IfOk result (λ _. m ≤ 7) }
{
    if m > 7 {
        return Err(CodeRefusal::BadLength);
    }
    if r > m {
        return Err(CodeRefusal::BadArgument(1));
    }
    Ok(())
}

#[tactic(auto, using(crate::proofs::ProductLaws::code_of_products_laws))]
fn code_of_products(alloc: Global, r: u64, m: u64) -> Result<Code, NoMemory>
    requires most { m ≤ 7 }
    ensures code { IfOk result (λ c. IsCode Gf2 (2 ^ m) (GeneratedBy Gf2 (2 ^ m) (reed_muller_rows r m)) c) }
{
    let field = binary(alloc)?;
    let rows = product_rows(alloc, r, m)?;
    Ok(Code::from_rows(alloc, &field, places(m), &rows)?)
}

// The field of two elements.
#[tactic(auto, using(crate::proofs::ProductLaws::binary_laws))]
pub(crate) fn binary(alloc: Global) -> Result<Field, NoMemory>
    ensures is { IfOk result (λ f. f ≡ Gf2) }
{
    match Field::of(alloc, 2) {
        Ok(field) => Ok(field),
        Err(FieldRefusal::NoMemory) => Err(NoMemory),
        Err(FieldRefusal::NotAField) => unreachable!(),
    }
}

// The number of places of m variables.
#[tactic(auto, using(crate::proofs::ProductLaws::places_laws))]
fn places(m: u64) -> usize
    requires most { m ≤ 7 }
    ensures is { result ≡ 2 ^ m }
    ensures least { 1 ≤ result }
    ensures most { result ≤ 128 }
{
    power(2, m) as usize
}

// The value lists of the products of at most r of the m variables.
#[tactic(auto, using(crate::proofs::ProductLaws::products_rows))]
fn product_rows(alloc: Global, r: u64, m: u64) -> Result<Vec<Word>, NoMemory>
    requires most { m ≤ 7 }
    ensures are { IfOk result (λ rows. rows.items ≡ reed_muller_rows r m) }
{
    let mut rows = Vec::new(alloc);
    let constant = ones(alloc, places(m))?;
    add_products(alloc, &mut rows, constant.symbols(), 0, m, r)?;
    Ok(rows)
}

// The values times each product of at most r of the variables v to v + left - 1.
#[tactic(auto, using(crate::proofs::ProductLaws::add_products_laws))]
fn add_products(
    alloc: Global,
    rows: &mut Vec<Word>,
    values: &[u8],
    v: u64,
    left: u64,
    r: u64,
) -> Result<(), NoMemory>
    requires most { v + left ≤ 7 }
    ensures added { IfOk result (λ _. rows.new.items ≡ rows.old.items ++ products values.now v left r) }
{
    if left == 0 || r == 0 {
        rows.push(Word::from_slice(alloc, values)?)?;
        return Ok(());
    }
    let product = times_variable(alloc, values, v)?;
    add_products(alloc, rows, &product, v + 1, left - 1, r - 1)?;
    add_products(alloc, rows, values, v + 1, left - 1, r)?;
    Ok(())
}

// The values, each times the value of the variable v there.
#[tactic(auto, using(crate::proofs::ProductLaws::times_variable_laws))]
fn times_variable(alloc: Global, values: &[u8], v: u64) -> Result<Vec<u8>, NoMemory>
    requires most { v ≤ 7 }
    ensures is { IfOk result (λ new. new.items ≡ times_all values.now (v ∷ [])) }
{
    let unit = places(v);
    let mut symbols = Vec::with_capacity(alloc, values.len())?;
    for place in 0..values.len() {
        symbols.push(if place / unit % 2 == 1 {
            values[place]
        } else {
            0
        })?;
    }
    Ok(symbols)
}
