//! The sets of a certificate by levels: whether each is an information set, whether their fresh coordinates are apart, and what
//! their levels give.

ghost use Rattle.std.specs.Prelude.{◌≡◌, ℕ, cond, ◌+◌, ◌-◌, ◌<◌, ◌≤◌, max, min, length, map, count_by, All, Some, None, IfOk, IfErr};
ghost use Rattle.lc_algebra.specs.Divisor.{divisor_of, rounded};
ghost use Rattle.lc_enumeration.specs.InformationSet.{is_member};
ghost use Rattle.lc_enumeration.specs.Search.{bound_sum};
ghost use Rattle.lc_formats.specs.Certificate.{Certificate, code_length, is_information_set, first_dependent, least_overlap};
ghost use Rattle.lc_formats.specs.Shape.{IsShapedSet};
ghost use Rattle.lc_certificate.specs.Seen.{claim_of};
ghost use Rattle.lc_checker.specs.Sets.{IsCodeOf};

use lc_certificate::SetClaim;
use lc_field::NoMemory;
use lc_matrix::Matrix;
use std::alloc::Global;

// The number, from 1, of the first set whose basis is no information set.
pub(crate) fn first_dependent(
    alloc: Global,
    code: &Matrix,
    claims: &[SetClaim],
) -> Result<Option<u64>, NoMemory>
    requires shaped { All (IsShapedSet code.now.columns) (map claim_of claims.now) }
    ensures is { IfOk result (λ o. (c : Certificate) → IsCodeOf c code.now →
        o ≡ first_dependent c 1 (map claim_of claims.now)) }
{
    for i in 0..claims.len() {
        if !is_information_set(alloc, code, &claims[i].basis)? {
            return Ok(Some(i as u64 + 1));
        }
    }
    Ok(None)
}

// Whether the basis has as many columns as the code's dimension, and they are independent.
fn is_information_set(alloc: Global, code: &Matrix, basis: &[u64]) -> Result<bool, NoMemory>
    requires inside { All (λ c. c < code.now.columns) basis.now }
    ensures is { IfOk result (λ b. (c : Certificate) → IsCodeOf c code.now → b ≡ is_information_set c basis.now) }
    ensures needed { IfErr result (λ _. length basis.now ≡ length code.now.rows) }
{
    if basis.len() != code.rows() {
        return Ok(false);
    }
    let set = columns_of(alloc, basis)?;
    let generator = code.systematic_on(alloc, &set)?;
    Ok(generator.is_some())
}

// The coordinates as indexes of columns.
pub(crate) fn columns_of(alloc: Global, basis: &[u64]) -> Result<Vec<usize>, NoMemory>
    ensures are { IfOk result (λ columns. columns.items ≡ basis.now) }
{
    let mut columns = Vec::with_capacity(alloc, basis.len())?;
    for c in basis {
        columns.push(*c as usize)?;
    }
    Ok(columns)
}

// The least coordinate below `n` that is fresh in two sets.
pub(crate) fn least_overlap(n: usize, claims: &[SetClaim]) -> Option<u64>
    ensures is { (c : Certificate) → code_length c ≡ n → result ≡ least_overlap c (map claim_of claims.now) }
{
    for place in 0..n as u64 {
        if 1 < fresh_in(claims, place) {
            return Some(place);
        }
    }
    None
}

// In how many sets the coordinate is fresh.
fn fresh_in(claims: &[SetClaim], place: u64) -> usize
    ensures is { result ≡ count_by (λ claim. is_member claim.fresh place) (map claim_of claims.now) }
{
    let mut count = 0;
    for i in 0..claims.len() {
        count += times_fresh(&claims[i].fresh, place);
    }
    count
}

// 1 if the coordinate is one of these, and else 0.
fn times_fresh(fresh: &[u64], place: u64) -> usize
    ensures is { result ≡ cond (is_member fresh.now place) 1 0 }
{
    if fresh.contains(&place) { 1 } else { 0 }
}

// The bound that the levels give: the least multiple of the divisor of the weights that is at least 1 and at least the sum.
#[tactic(auto, using(crate::proofs::SetLaws::claimed_sum_laws))]
pub(crate) fn claimed_sum(rows: &Matrix, k: usize, claims: &[SetClaim]) -> u64
    requires few { length claims.now ≤ 255 }
    requires dimension { k ≤ 255 }
    requires shaped { All (IsShapedSet rows.now.columns) (map claim_of claims.now) }
    ensures is { result ≡ rounded (divisor_of rows.now)
        (max 1 (bound_sum k (map (λ claim. length claim.fresh) (map claim_of claims.now))
        (map (λ claim. min claim.level k) (map claim_of claims.now)))) }
{
    let d = rows.divisor();
    let sum = sum_of(k, claims);
    let least = sum.max(1);
    (least + (d - 1)) / d * d
}

// The sum over the sets of level + 1 - (k - fresh columns), where that is positive.
fn sum_of(k: usize, claims: &[SetClaim]) -> u64
    requires few { length claims.now ≤ 255 }
    requires dimension { k ≤ 255 }
    ensures is { result ≡ bound_sum k (map (λ claim. length claim.fresh) (map claim_of claims.now))
        (map (λ claim. min claim.level k) (map claim_of claims.now)) }
    ensures few { result ≤ 65280 }
{
    let mut sum = 0;
    for i in 0..claims.len() {
        sum += least_on(k, &claims[i]);
    }
    sum
}

// What the level of a set gives: level + 1 - (k - fresh columns), where that is positive.
fn least_on(k: usize, claim: &SetClaim) -> u64
    requires dimension { k ≤ 255 }
    ensures is { result ≡ (min claim.now.level k + 1) - (k - length claim.now.fresh.items) }
    ensures few { result ≤ 256 }
{
    (claim.level.min(k as u64) + 1).saturating_sub(k.saturating_sub(claim.fresh.len()) as u64)
}

// Whether a level is the whole dimension.
pub(crate) fn has_whole_level(k: usize, claims: &[SetClaim]) -> bool
    ensures is { result ≡ is_member (map (λ claim. min claim.level k) (map claim_of claims.now)) k }
{
    for i in 0..claims.len() {
        if k as u64 <= claims[i].level {
            return true;
        }
    }
    false
}
