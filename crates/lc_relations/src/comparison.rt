//! Whether one code lies in another, or is the same.
ghost use Rattle.std.specs.Prelude.{◌≡◌, ◌↔◌, None, All, length, IsTrue, IfOk, IsOk};
ghost use Rattle.lc_constructions.specs.Code.{InCode};
ghost use Rattle.lc_constructions.specs.Refusal.{first_refusal, IsRefusedAs, RefusesFirst};
ghost use Rattle.lc_constructions.specs.Refusals.{intersection_refusals};
ghost use Rattle.lc_language.specs.Relations.{IsSubcode, IsSameCode};

use crate::refusal::check_pair;
use lc_code::{Code, CodeRefusal};
use lc_field::NoMemory;
use std::alloc::Global;

/// Whether each word of `a` is a word of `b`.
///
/// Refused in this order: the fields differ, FieldsDiffer; the lengths differ, LengthsDiffer.
#[tactic(auto, using(lc_constructions::proofs::RefusalLaws::refused_or_not))]
pub fn is_subcode(alloc: Global, a: &Code, b: &Code) -> Result<bool, CodeRefusal>
    ensures is { IfOk result (λ t. IsTrue t ↔ IsSubcode a.now b.now) }
    ensures refused { IsRefusedAs result (first_refusal (intersection_refusals a.now b.now)) }
    ensures first { RefusesFirst result (first_refusal (intersection_refusals a.now b.now)) }
{
    check_pair(a, b)?;
    Ok(lies_in(alloc, a, b)?)
}

/// Whether each word of `a` is a word of `b`. Both codes are over one field and have one length. The rows are tried.
pub fn lies_in(alloc: Global, a: &Code, b: &Code) -> Result<bool, NoMemory>
    requires field { a.now.field ≡ b.now.field }
    requires columns { a.now.columns ≡ b.now.columns }
    ensures is { IfOk result (λ t. IsTrue t ↔ IsSubcode a.now b.now) }
{
    let _first = a.matrix();
    let _second = b.matrix();
    let mut rest = vec![in alloc; 0u8; b.length()]?;
    Ok(rows_lie_in(a, b, &mut rest))
}

// Whether each row of the first code is in the second. The buffer has as many symbols as a row.
fn rows_lie_in(a: &Code, b: &Code, rest: &mut [u8]) -> bool
    requires field { a.now.field ≡ b.now.field }
    requires columns { a.now.columns ≡ b.now.columns }
    requires buffer { length rest.old ≡ b.now.columns }
    ensures is { IsTrue result ↔ All (InCode b.now) a.now.rows }
{
    for i in 0..a.dimension() {
        if !b.contains(a.row(i), rest) {
            return false;
        }
    }
    true
}

/// Whether two codes have the same words. No memory is taken, so there is always an answer or a refusal.
///
/// Refused in this order: the fields differ, FieldsDiffer; the lengths differ, LengthsDiffer.
#[tactic(auto, using(lc_constructions::proofs::RefusalLaws::refused_or_not))]
pub fn is_same_code(a: &Code, b: &Code) -> Result<bool, CodeRefusal>
    ensures is { IfOk result (λ t. IsTrue t ↔ IsSameCode a.now b.now) }
    ensures refused { IsRefusedAs result (first_refusal (intersection_refusals a.now b.now)) }
    ensures first { RefusesFirst result (first_refusal (intersection_refusals a.now b.now)) }
    ensures answered { first_refusal (intersection_refusals a.now b.now) ≡ None → IsOk result }
{
    check_pair(a, b)?;
    Ok(have_same_words(a, b))
}

// Whether two codes of one length over one field have the same words.
fn have_same_words(a: &Code, b: &Code) -> bool
    requires field { a.now.field ≡ b.now.field }
    requires columns { a.now.columns ≡ b.now.columns }
    ensures is { IsTrue result ↔ IsSameCode a.now b.now }
{
    let _first = a.matrix();
    let _second = b.matrix();
    have_same_rows(a, b)
}

// Whether two codes have the same reduced generator matrix.
#[tactic(auto, using(crate::proofs::ComparisonLaws::same_rows_laws))]
pub(crate) fn have_same_rows(a: &Code, b: &Code) -> bool
    ensures is { IsTrue result ↔ (a.now.rows ≡ b.now.rows) }
{
    if a.dimension() != b.dimension() {
        return false;
    }
    for i in 0..a.dimension() {
        if a.row(i) != b.row(i) {
            return false;
        }
    }
    true
}
