//! The weight distribution of a code, from that of its dual.
ghost use Rattle.std.specs.Prelude.{◌≡◌, ◌+◌, ◌^◌, ◌<◌, ◌≤◌, length, IfOk};
ghost use Rattle.lc_algebra.specs.Field.{size};
ghost use Rattle.lc_enumeration.specs.Distribution.{count_of_weight, distribution_of};
ghost use Rattle.lc_place.specs.Tables.{IsTable};
ghost use Rattle.lc_macwilliams.specs.Solving.{IsDualDistribution, choose_at, terms, IsSolved};

use lc_code::Code;
use lc_field::NoMemory;
use std::alloc::Global;

/// The weight distribution of a code: how many of its words have weight 0, 1, and so on up to the length n.
///
/// `counts` is that of its dual. With q elements, q^n is at most 2^63; then n is at most 63, and no number on the way is
/// above 2^126. The equations of the binomial moments are solved for the weights 0, 1, and so on, each from the numbers
/// found before it (MacWilliams and Sloane, The Theory of Error-Correcting Codes, chapter 5).
pub fn from_dual(alloc: Global, code: &Code, counts: &[u64]) -> Result<Vec<u64>, NoMemory>
    requires dual { IsDualDistribution code.now counts.now }
    requires small { size code.now.field ^ code.now.columns ≤ 2 ^ 63 }
    ensures is { IfOk result (λ found. found.items ≡ distribution_of code.now) }
{
    let n = code.length();
    let table = chooses(alloc)?;
    let mut found: Vec<u64> = Vec::with_capacity(alloc, n + 1)?;
    for t in 0..n + 1 {
        let number = solve(code, &table, counts, &found, t);
        found.push(number)?;
    }
    Ok(found)
}

// The number of words of weight t, from those of the weights below t.
fn solve(code: &Code, table: &[u64], counts: &[u64], found: &[u64], t: usize) -> u64
    requires dual { IsDualDistribution code.now counts.now }
    requires small { size code.now.field ^ code.now.columns ≤ 2 ^ 63 }
    requires table { IsTable choose_at 4096 table.now }
    requires weight { t ≤ code.now.columns }
    requires found { IsSolved code.now t found.now }
    ensures is { result ≡ count_of_weight code.now.field code.now.columns code.now.rows t }
{
    let n = code.length();
    let _matrix = code.matrix();
    let q = u64::from(code.field().size());
    let v = n - t;
    let right = sum_of(table, counts, n, t, v + 1);
    let left = sum_of(table, found, n, v, t);
    let whole = right * power(q, code.dimension()) / power(q, v);
    (whole - left) as u64
}

// The sum of (n - j choose v) times count j, over the j below m.
fn sum_of(table: &[u64], counts: &[u64], n: usize, v: usize, m: usize) -> u128
    requires table { IsTable choose_at 4096 table.now }
    requires short { n < 64 }
    requires inside { v ≤ n }
    requires many { m ≤ length counts.now }
    requires all { m ≤ n + 1 }
    requires small { terms counts.now n v m ≤ 2 ^ 126 }
    ensures is { result ≡ terms counts.now n v m }
{
    let mut sum: u128 = 0;
    for j in 0..m {
        sum += u128::from(table[(n - j) * 64 + v]) * u128::from(counts[j]);
    }
    sum
}

// q^e.
#[tactic(auto, using(crate::proofs::SolveLaws::power_laws))]
fn power(q: u64, e: usize) -> u128
    requires base { 1 < q }
    requires small { q ^ e ≤ 2 ^ 63 }
    ensures is { result ≡ q ^ e }
{
    let mut product: u128 = 1;
    for _counter in 0..e {
        product *= u128::from(q);
    }
    product
}

// How many sets of j there are among n, for both below 64, at index 64 n + j.
#[tactic(auto, using(crate::proofs::PascalLaws::chooses_laws))]
fn chooses(alloc: Global) -> Result<Vec<u64>, NoMemory>
    ensures are { IfOk result (λ t. IsTable choose_at 4096 t.items) }
{
    let mut table: Vec<u64> = Vec::with_capacity(alloc, 4096)?;
    for index in 0..4096_usize {
        let entry = next_choose(&table, index);
        table.push(entry)?;
    }
    Ok(table)
}

// The entry at `index`, from those before it, by Pascal's rule.
#[tactic(auto, using(crate::proofs::PascalLaws::pascal_laws))]
fn next_choose(table: &[u64], index: usize) -> u64
    requires small { index < 4096 }
    requires before { IsTable choose_at index table.now }
    ensures is { result ≡ choose_at index }
{
    if index % 64 == 0 {
        return 1;
    }
    if index < 64 {
        return 0;
    }
    table[index - 65] + table[index - 64]
}
