//! Cyclotomic sets.
ghost use Rattle.std.specs.Prelude.{◌≡◌, ℕ, ◌*◌, ◌%◌, ◌^◌, ◌<◌, ◌≤◌, ◌↔◌, IfOk, true, false, length, replicate, Contains, slice_index_or};
ghost use Rattle.std.specs.List.Sorted.{IsStrictlyIncreasing};
ghost use Rattle.lc_algebra.specs.Embedding.{IsCyclotomicSet};

use lc_field::NoMemory;
use std::alloc::Global;

/// The cyclotomic set of `i` modulo `n` for `q`: the numbers i, i q, i q^2, .. modulo n, rising, each once. `n` is 1 to 255, `q` is
/// 2 to 16, and `i` is below `n`. (MacWilliams and Sloane, The Theory of Error-Correcting Codes, chapter 4.)
#[tactic(auto, using(crate::proofs::CyclotomicLaws::members_told))]
pub fn cyclotomic_set(alloc: Global, n: u64, q: u64, i: u64) -> Result<Vec<u64>, NoMemory>
    requires least_n { 1 ≤ n }
    requires most_n { n ≤ 255 }
    requires least_q { 2 ≤ q }
    requires most_q { q ≤ 16 }
    requires inside { i < n }
    ensures set { IfOk result (λ xs. IsCyclotomicSet n q i xs.items) }
{
    let seen = marked(alloc, n, q, i)?;
    let xs = members(alloc, &seen)?;
    Ok(xs)
}

// Whether each number below n is one of the set.
fn marked(alloc: Global, n: u64, q: u64, i: u64) -> Result<Vec<bool>, NoMemory>
    requires most_n { n ≤ 255 }
    requires most_q { q ≤ 16 }
    requires inside { i < n }
    ensures length { IfOk result (λ seen. length seen.items ≡ n) }
    ensures marks { IfOk result
        (λ seen. (x : ℕ) → (slice_index_or seen.items x false ≡ true) ↔ ((j : ℕ) × (x ≡ (i * q ^ j) % n))) }
{
    let mut seen = unmarked(alloc, n as usize)?;
    mark(&mut seen, n, q, i);
    Ok(seen)
}

// n times false.
fn unmarked(alloc: Global, n: usize) -> Result<Vec<bool>, NoMemory>
    ensures { IfOk result (λ seen. seen.items ≡ replicate n false) }
{
    Ok(vec![in alloc; false; n]?)
}

// Marks i, i q, i q^2 and so on modulo n, until a number comes again.
fn mark(seen: &mut [bool], n: u64, q: u64, i: u64)
    requires length { length seen.old ≡ n }
    requires unmarked { seen.old ≡ replicate n false }
    requires most_n { n ≤ 255 }
    requires most_q { q ≤ 16 }
    requires inside { i < n }
    ensures length { length seen.new ≡ n }
    ensures marks { (x : ℕ) → (slice_index_or seen.new x false ≡ true) ↔ ((j : ℕ) × (x ≡ (i * q ^ j) % n)) }
{
    let mut x = i;
    while !seen[x as usize] {
        seen[x as usize] = true;
        x = x * q % n;
    }
}

// The numbers that are marked, rising.
fn members(alloc: Global, seen: &[bool]) -> Result<Vec<u64>, NoMemory>
    ensures rises { IfOk result (λ xs. IsStrictlyIncreasing xs.items) }
    ensures members { IfOk result (λ xs. (x : ℕ) → Contains xs.items x ↔ (slice_index_or seen.now x false ≡ true)) }
{
    let mut xs = Vec::new(alloc);
    for x in 0..seen.len() {
        if seen[x] {
            xs.push(x as u64)?;
        }
    }
    Ok(xs)
}
