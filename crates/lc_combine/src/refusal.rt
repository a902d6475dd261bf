//! When the combinators refuse their arguments.
ghost use Rattle.std.specs.Prelude.{◌≡◌, ◌+◌, ◌*◌, ◌<◌, ◌≤◌, ◌==◌, ◌||◌, not, nat_le, length, Some, IfOk};
ghost use Rattle.std.specs.List.{list_any};
ghost use Rattle.lc_algebra.specs.Field.{size};
ghost use Rattle.lc_algebra.specs.declared.FieldName.TheVariants.{Gf2};
ghost use Rattle.lc_constructions.specs.Code.{longest};
ghost use Rattle.lc_constructions.specs.Refusal.{first_refusal, IsChecked};
ghost use Rattle.lc_constructions.specs.Refusals.{is_rising, extended_refusals, deleted_refusals, even_weight_refusals, direct_sum_refusals, uuv_refusals, direct_product_refusals, intersection_refusals, degree_over, concatenated_refusals};

use lc_code::{Code, CodeRefusal};
use lc_constructions::is_rising;

// Checks a code that gets a further symbol.
#[tactic(auto, using(crate::proofs::RefusalLaws::check_extended_laws))]
pub(crate) fn check_extended(code: &Code) -> Result<(), CodeRefusal>
    ensures is { IsChecked result (first_refusal (extended_refusals code.now)) }
    ensures most { IfOk result (λ _. code.now.columns < longest) }
{
    if code.length() == 255 {
        return Err(CodeRefusal::BadLength);
    }
    Ok(())
}

// Checks a code whose words of even weight are asked for.
#[tactic(auto, using(crate::proofs::RefusalLaws::check_even_weight_laws))]
pub(crate) fn check_even_weight(code: &Code) -> Result<(), CodeRefusal>
    ensures is { IsChecked result (first_refusal (even_weight_refusals code.now)) }
    ensures binary { IfOk result (λ _. code.now.field ≡ Gf2) }
{
    if code.field().size() != 2 {
        return Err(CodeRefusal::BadArgument(1));
    }
    Ok(())
}

// Checks two codes that are multiplied.
#[tactic(auto, using(crate::proofs::RefusalLaws::check_direct_product_laws))]
pub(crate) fn check_direct_product(a: &Code, b: &Code) -> Result<(), CodeRefusal>
    ensures is { IsChecked result (first_refusal (direct_product_refusals a.now b.now)) }
    ensures field { IfOk result (λ _. a.now.field ≡ b.now.field) }
    ensures least { IfOk result (λ _. 1 ≤ a.now.columns * b.now.columns) }
    ensures most { IfOk result (λ _. a.now.columns * b.now.columns ≤ longest) }
{
    if a.field().size() != b.field().size() {
        return Err(CodeRefusal::FieldsDiffer);
    }
    if product(a.length(), b.length()) > 255 {
        return Err(CodeRefusal::BadLength);
    }
    Ok(())
}

// The product of two lengths.
#[tactic(auto, using(crate::proofs::RefusalLaws::product_laws))]
fn product(n: usize, m: usize) -> usize
    requires first_least { 1 ≤ n }
    requires first { n ≤ longest }
    requires second_least { 1 ≤ m }
    requires second { m ≤ longest }
    ensures is { result ≡ n * m }
    ensures least { 1 ≤ result }
{
    n * m
}

// Checks two codes for their common words.
#[tactic(auto, using(lc_constructions::proofs::RefusalLaws::alike_or_refused))]
pub(crate) fn check_intersection(a: &Code, b: &Code) -> Result<(), CodeRefusal>
    ensures is { IsChecked result (first_refusal (intersection_refusals a.now b.now)) }
    ensures field { IfOk result (λ _. a.now.field ≡ b.now.field) }
    ensures columns { IfOk result (λ _. a.now.columns ≡ b.now.columns) }
{
    if a.field().size() != b.field().size() {
        return Err(CodeRefusal::FieldsDiffer);
    }
    if a.length() != b.length() {
        return Err(CodeRefusal::LengthsDiffer);
    }
    Ok(())
}

// Checks the coordinates to be deleted from the words of a code.
#[tactic(auto, using(crate::proofs::RefusalLaws::check_deleted_laws))]
pub(crate) fn check_deleted(code: &Code, coordinates: &[u64]) -> Result<(), CodeRefusal>
    ensures is { IsChecked result (first_refusal (deleted_refusals code.now coordinates.now)) }
    ensures count { IfOk result (λ _. length coordinates.now < code.now.columns) }
{
    if are_bad(coordinates, code.length()) {
        return Err(CodeRefusal::BadPositions);
    }
    Ok(())
}

// Whether the coordinates don't rise, one is n or more, or there are n of them.
fn are_bad(coordinates: &[u64], n: usize) -> bool
    ensures is { result
        ≡ (not (is_rising coordinates.now) || (list_any (nat_le n) coordinates.now || (length coordinates.now == n))) }
{
    let rising = is_rising(coordinates);
    let outside = leave(coordinates, n);
    !rising || (outside || coordinates.len() == n)
}

// Whether a coordinate is n or more.
fn leave(coordinates: &[u64], n: usize) -> bool
    ensures is { result ≡ list_any (nat_le n) coordinates.now }
{
    coordinates.iter().any(|p| n as u64 <= *p)
}

// Checks two codes that follow each other.
#[tactic(auto, using(crate::proofs::RefusalLaws::check_direct_sum_laws))]
pub(crate) fn check_direct_sum(a: &Code, b: &Code) -> Result<(), CodeRefusal>
    ensures is { IsChecked result (first_refusal (direct_sum_refusals a.now b.now)) }
    ensures field { IfOk result (λ _. a.now.field ≡ b.now.field) }
    ensures most { IfOk result (λ _. a.now.columns + b.now.columns ≤ longest) }
{
    if a.field().size() != b.field().size() {
        return Err(CodeRefusal::FieldsDiffer);
    }
    if a.length() + b.length() > 255 {
        return Err(CodeRefusal::BadLength);
    }
    Ok(())
}

// Checks two codes for the words u followed by u + v.
#[tactic(auto, using(crate::proofs::RefusalLaws::check_uuv_laws))]
pub(crate) fn check_uuv(a: &Code, b: &Code) -> Result<(), CodeRefusal>
    ensures is { IsChecked result (first_refusal (uuv_refusals a.now b.now)) }
    ensures field { IfOk result (λ _. a.now.field ≡ b.now.field) }
    ensures columns { IfOk result (λ _. a.now.columns ≡ b.now.columns) }
    ensures most { IfOk result (λ _. a.now.columns + b.now.columns ≤ longest) }
{
    if a.field().size() != b.field().size() {
        return Err(CodeRefusal::FieldsDiffer);
    }
    if a.length() != b.length() {
        return Err(CodeRefusal::LengthsDiffer);
    }
    if a.length() + b.length() > 255 {
        return Err(CodeRefusal::BadLength);
    }
    Ok(())
}

// Checks an outer and an inner code.
#[tactic(auto, using(crate::proofs::NestedLaws::check_concatenated_laws))]
pub(crate) fn check_concatenated(outer: &Code, inner: &Code) -> Result<(), CodeRefusal>
    ensures is { IsChecked result (first_refusal (concatenated_refusals outer.now inner.now)) }
    ensures degree { IfOk result
        (λ _. degree_over (size inner.now.field) (size outer.now.field) ≡ Some (length inner.now.rows)) }
    ensures least { IfOk result (λ _. 1 ≤ outer.now.columns * inner.now.columns) }
    ensures most { IfOk result (λ _. outer.now.columns * inner.now.columns ≤ longest) }
{
    match degree_over(inner.field().size() as u64, outer.field().size() as u64) {
        None => Err(CodeRefusal::FieldsDiffer),
        Some(s) => check_nested(outer, inner, s),
    }
}

// Checks an outer and an inner code whose fields have q^s and q elements.
#[tactic(auto, using(crate::proofs::NestedLaws::check_nested_laws))]
fn check_nested(outer: &Code, inner: &Code, s: usize) -> Result<(), CodeRefusal>
    requires degree { degree_over (size inner.now.field) (size outer.now.field) ≡ Some s }
    ensures is { IsChecked result (first_refusal (concatenated_refusals outer.now inner.now)) }
    ensures degree { IfOk result
        (λ _. degree_over (size inner.now.field) (size outer.now.field) ≡ Some (length inner.now.rows)) }
    ensures least { IfOk result (λ _. 1 ≤ outer.now.columns * inner.now.columns) }
    ensures most { IfOk result (λ _. outer.now.columns * inner.now.columns ≤ longest) }
{
    if inner.dimension() != s {
        return Err(CodeRefusal::InnerDimension(inner.dimension(), s));
    }
    if product(outer.length(), inner.length()) > 255 {
        return Err(CodeRefusal::BadLength);
    }
    Ok(())
}

// The exponent s from 1 to 8 for which q^s is the size.
#[tactic(auto, using(crate::proofs::NestedLaws::degree_over_laws))]
fn degree_over(q: u64, size: u64) -> Option<usize>
    requires most { q ≤ 16 }
    ensures is { result ≡ degree_over q size }
{
    let mut power = 1;
    for s in 1..9 {
        power *= q;
        if power == size {
            return Some(s);
        }
    }
    None
}
