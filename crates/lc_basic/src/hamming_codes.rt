//! Hamming codes.
ghost use Rattle.std.specs.Prelude.{◌≡◌, ℕ, ◌+◌, ◌-◌, ◌^◌, ◌<◌, ◌≤◌, ◌++◌, map, IfOk, IsTrue};
ghost use Rattle.lc_algebra.specs.Field.{size, is_symbol};
ghost use Rattle.lc_constructions.specs.Code.{longest, IsCode, CheckedBy};
ghost use Rattle.lc_constructions.specs.Basic.{hamming_checks, hamming_length};
ghost use Rattle.lc_constructions.specs.Refusal.{first_refusal, IsRefusedAs, RefusesFirst};
ghost use Rattle.lc_constructions.specs.Refusals.{hamming_refusals};
ghost use Rattle.lc_basic.specs.Checked.{IsChecked};
ghost use Rattle.lc_basic.specs.Column.{points, digits_from, digits_of};

use lc_code::{Code, CodeRefusal};
use lc_constructions::is_length;
use lc_field::{Field, NoMemory};
use lc_vec::Word;
use std::alloc::Global;

/// The Hamming code with `r` checks: the code whose check columns are the words of `r` symbols with first nonzero symbol 1, in
/// lexicographic order (MacWilliams and Sloane, chapters 1 and 7; GUAVA manual, `HammingCode`).
///
/// Its length n is (q^r - 1) / (q - 1) over a field of q elements, and its dimension n - r. Refused in this order: the field has
/// more than 16 elements, FieldTooLarge; `r` is below 2, BadArgument(1); n is above 255, BadLength. `r` may be any number.
#[tactic(auto, using(lc_constructions::proofs::RefusalLaws::refused_or_not))]
pub fn hamming(alloc: Global, r: u64, field: &Field) -> Result<Code, CodeRefusal>
    ensures code { IfOk result
        (λ c. IsCode field.now (hamming_length (size field.now) r)
        (CheckedBy field.now (hamming_checks (size field.now) r)) c) }
    ensures refused { IsRefusedAs result (first_refusal (hamming_refusals field.now r)) }
    ensures first { RefusesFirst result (first_refusal (hamming_refusals field.now r)) }
{
    check_hamming(field, r)?;
    Ok(code_of_columns(alloc, r as usize, field)?)
}

// Checks a field and a number of checks.
#[tactic(auto, using(crate::proofs::HammingLaws::check_hamming_laws))]
fn check_hamming(field: &Field, r: u64) -> Result<(), CodeRefusal>
    ensures is { IsChecked result (first_refusal (hamming_refusals field.now r)) }
    ensures symbol { IfOk result (λ _. IsTrue (is_symbol field.now)) }
    ensures least { IfOk result (λ _. 2 ≤ r) }
    ensures most { IfOk result (λ _. hamming_length (size field.now) r ≤ longest) }
{
    if !field.is_symbol() {
        return Err(CodeRefusal::FieldTooLarge);
    }
    if r < 2 {
        return Err(CodeRefusal::BadArgument(1));
    }
    if !is_length(length_of(field.size() as u64, r)) {
        return Err(CodeRefusal::BadLength);
    }
    Ok(())
}

// The length, or some number above 255 if the length is above 255.
#[tactic(auto, using(crate::proofs::HammingLaws::length_of_laws))]
fn length_of(q: u64, r: u64) -> u64
    requires least { 1 < q }
    requires most { q ≤ 16 }
    requires checks { 1 ≤ r }
    ensures is { result ≤ 255 → result ≡ hamming_length q r }
    ensures long { 255 < result → 255 < hamming_length q r }
    ensures positive { 1 ≤ result }
{
    let mut n = 0;
    let mut power = 1;
    for _i in 0..r {
        n += power;
        if n > 255 {
            return n;
        }
        power *= q;
    }
    n
}

#[tactic(auto, using(crate::proofs::ColumnLaws::checks_rows))]
fn code_of_columns(alloc: Global, r: usize, field: &Field) -> Result<Code, NoMemory>
    requires symbol { IsTrue (is_symbol field.now) }
    requires least { 2 ≤ r }
    requires most { hamming_length (size field.now) r ≤ 255 }
    ensures code { IfOk result
        (λ c. IsCode field.now (hamming_length (size field.now) r)
        (CheckedBy field.now (hamming_checks (size field.now) r)) c) }
{
    let q = field.size() as u64;
    let checks = check_rows(alloc, q, r as u64)?;
    Ok(Code::from_checks(alloc, field, whole_length(field, r as u64), &checks)?)
}

// The length, if it isn't above 255.
#[tactic(auto, using(crate::proofs::HammingLaws::length_fits))]
fn whole_length(field: &Field, r: u64) -> usize
    requires symbol { IsTrue (is_symbol field.now) }
    requires least { 2 ≤ r }
    requires most { hamming_length (size field.now) r ≤ 255 }
    ensures is { result ≡ hamming_length (size field.now) r }
    ensures least { 1 ≤ result }
{
    length_of(field.size() as u64, r) as usize
}

// The check matrix: row i holds the digits that count q^(r - 1 - i).
#[tactic(auto, using(crate::proofs::ColumnLaws::check_rows_laws))]
fn check_rows(alloc: Global, q: u64, r: u64) -> Result<Vec<Word>, NoMemory>
    requires least { 1 < q }
    requires most { q ≤ 16 }
    requires points { points q r ≤ 255 }
    ensures are { IfOk result (λ rows. rows.items ≡ hamming_checks q r) }
{
    let mut rows = Vec::new(alloc);
    for i in 0..r {
        let unit = power(q, r - 1 - i);
        rows.push(digits_of(alloc, q, unit, r)?)?;
    }
    Ok(rows)
}

// q to the power e.
#[tactic(auto, using(crate::proofs::HammingLaws::power_laws))]
pub(crate) fn power(q: u64, e: u64) -> u64
    requires least { 1 < q }
    requires most { q ≤ 16 }
    requires points { points q e ≤ 255 }
    ensures is { result ≡ q ^ e }
    ensures positive { 0 < result }
{
    let mut power = 1;
    for _i in 0..e {
        power *= q;
    }
    power
}

// The digits that count units, of all columns of at most r digits.
#[tactic(auto, using(crate::proofs::HammingLaws::digits_of_laws))]
fn digits_of(alloc: Global, q: u64, unit: u64, r: u64) -> Result<Word, NoMemory>
    requires least { 1 < q }
    requires most { q ≤ 16 }
    requires unit { 0 < unit }
    requires points { points q r ≤ 255 }
    ensures are { IfOk result (λ w. w ≡ digits_of q unit r) }
{
    let mut symbols = Vec::new(alloc);
    let mut first = 1;
    for _m in 0..r {
        add_block(&mut symbols, q, unit, first)?;
        first *= q;
    }
    Ok(Word::from_vec(symbols))
}

// The digits that count units, of the columns first to 2 first - 1.
#[tactic(auto, using(crate::proofs::ColumnLaws::add_block_laws))]
fn add_block(symbols: &mut Vec<u8>, q: u64, unit: u64, first: u64) -> Result<(), NoMemory>
    requires least { 1 < q }
    requires most { q ≤ 16 }
    requires unit { 0 < unit }
    requires first { first ≤ 3826 }
    ensures added { IfOk result (λ _. symbols.new.items ≡ symbols.old.items ++ digits_from q unit first first) }
{
    for v in 0..first {
        symbols.push(((first + v) / unit % q) as u8)?;
    }
    Ok(())
}
