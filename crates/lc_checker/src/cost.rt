//! What a check costs, counted as far as the greatest number of 64 bits.

ghost use Rattle.std.specs.Prelude.{◌≡◌, ℕ, ◌+◌, ◌-◌, ◌*◌, ◌^◌, ◌<◌, ◌≤◌, min, length, map, sum, IfOk};
ghost use Rattle.lc_formats.specs.Certificate.{messages_through};
ghost use Rattle.lc_certificate.specs.Seen.{claim_of};
ghost use Rattle.lc_checker.specs.Cost.{capped, IsChooseRow, IsThrough};

use lc_certificate::SetClaim;
use lc_field::NoMemory;
use std::alloc::Global;

// The number of words of a code of dimension `k` over `q` elements.
pub(crate) fn words_of(k: usize, q: u64) -> u64
    requires field { q ≤ 256 }
    ensures is { result ≡ capped (q ^ k) }
{
    let mut words: u64 = 1;
    for _i in 0..k {
        words = words.saturating_mul(q);
    }
    words
}

// The number of messages of the levels of the sets.
pub(crate) fn messages_of(
    alloc: Global,
    k: usize,
    q: u64,
    claims: &[SetClaim],
) -> Result<u64, NoMemory>
    requires dimension { k ≤ 255 }
    requires field { (1 ≤ q) × (q ≤ 256) }
    ensures is { IfOk result
        (λ n. n ≡ capped (sum (map (λ claim. messages_through k q (min claim.level k)) (map claim_of claims.now)))) }
{
    let through = messages_up_to(alloc, k, q)?;
    Ok(sum_of(k, q, &through, claims))
}

// The sum over the sets of what the table has for their levels.
fn sum_of(k: usize, _q: u64, through: &[u64], claims: &[SetClaim]) -> u64
    requires table { IsThrough k _q (k + 1) through.now }
    ensures is { result ≡ capped
        (sum (map (λ claim. messages_through k _q (min claim.level k)) (map claim_of claims.now))) }
{
    let mut total: u64 = 0;
    for i in 0..claims.len() {
        total = total.saturating_add(through[claims[i].level.min(k as u64) as usize]);
    }
    total
}

// The numbers of messages of the levels 1 to w, for w from 0 to k.
fn messages_up_to(alloc: Global, k: usize, q: u64) -> Result<Vec<u64>, NoMemory>
    requires dimension { k ≤ 255 }
    requires field { (1 ≤ q) × (q ≤ 256) }
    ensures are { IfOk result (λ t. IsThrough k q (k + 1) t.items) }
{
    let chooses = chooses_of(alloc, k)?;
    let mut table = Vec::with_capacity(alloc, k + 1)?;
    let mut total: u64 = 0;
    let mut power: u64 = 1;
    table.push(total)?;
    for level in 1..k + 1 {
        total = total.saturating_add(chooses[level].saturating_mul(power));
        power = power.saturating_mul(q - 1);
        table.push(total)?;
    }
    Ok(table)
}

// The numbers of sets of 0 to `n` among `n`.
fn chooses_of(alloc: Global, n: usize) -> Result<Vec<u64>, NoMemory>
    requires few { n ≤ 255 }
    ensures are { IfOk result (λ t. IsChooseRow n (n + 1) t.items) }
{
    let mut row = first_row(alloc, n + 1)?;
    for i in 0..n {
        row = next_row(alloc, i, &row)?;
    }
    Ok(row)
}

// The numbers of sets among none: one empty set.
fn first_row(alloc: Global, many: usize) -> Result<Vec<u64>, NoMemory>
    requires some { 0 < many }
    ensures are { IfOk result (λ t. IsChooseRow 0 many t.items) }
{
    let mut row = Vec::with_capacity(alloc, many)?;
    row.push(1)?;
    for _j in 1..many {
        row.push(0)?;
    }
    Ok(row)
}

// The row for one element more: a set has it or hasn't.
fn next_row(alloc: Global, _n: usize, row: &[u64]) -> Result<Vec<u64>, NoMemory>
    requires some { 0 < length row.now }
    requires row { IsChooseRow _n (length row.now) row.now }
    ensures are { IfOk result (λ t. IsChooseRow (_n + 1) (length row.now) t.items) }
{
    let mut next = Vec::with_capacity(alloc, row.len())?;
    next.push(1)?;
    for j in 1..row.len() {
        next.push(row[j - 1].saturating_add(row[j]))?;
    }
    Ok(next)
}
