//! The innermost loop of the kernel alone: how fast a search of symbols of 1 to 4 bits could be over long runs.

ghost use Rattle.std.specs.Prelude.{◌≡◌, ◌*◌, ◌≤◌, length, IfOk};

use crate::rate::{Failure, Rate};
use crate::words::step;
use std::alloc::{AllocError, AllocGlobal, Global};
use std::rt::Clock;
use std::time::Instant;

/// How many words a run has.
const RUN: usize = 1_024;

/// How many runs are looked at.
const PASSES: u64 = 200_000;

// The next of some pseudo-random numbers.
fn next(state: &mut u64) -> u64 {
    let number = step(state);
    number ^ (number >> 29)
}

// The planes of a run: pseudo-random numbers.
fn numbers(alloc: Global) -> Result<Vec<u64>, AllocError>
    ensures long { IfOk result (λ ns. length ns.items ≡ 4 * RUN) }
{
    let mut state = 1;
    let mut numbers = Vec::new(alloc);
    for _ in 0..4 * RUN {
        numbers.push(next(&mut state))?;
    }
    Ok(numbers)
}

// The least number of columns at which a word of the run differs from the prefix, by one plane.
fn least_by_one(ones: &[u64], p: u64) -> u32 {
    let mut least = 64;
    for i in 0..ones.len() {
        let apart = p ^ ones[i];
        least = least.min(apart.count_ones());
    }
    least
}

// The same by two planes.
fn least_by_two(ones: &[u64], twos: &[u64], p: u64, r: u64) -> u32
    requires twos { length twos.now ≡ length ones.now }
{
    let mut least = 64;
    for i in 0..ones.len() {
        let apart = (r ^ twos[i]) | (p ^ ones[i]);
        least = least.min(apart.count_ones());
    }
    least
}

// The same by three planes.
fn least_by_three(ones: &[u64], twos: &[u64], fours: &[u64], p: u64, r: u64, s: u64) -> u32
    requires twos { length twos.now ≡ length ones.now }
    requires fours { length fours.now ≡ length ones.now }
{
    let mut least = 64;
    for i in 0..ones.len() {
        let apart = (s ^ fours[i]) | ((r ^ twos[i]) | (p ^ ones[i]));
        least = least.min(apart.count_ones());
    }
    least
}

// The same by four planes.
fn least_by_four(
    ones: &[u64],
    twos: &[u64],
    fours: &[u64],
    eights: &[u64],
    p: u64,
    r: u64,
    s: u64,
    t: u64,
) -> u32
    requires twos { length twos.now ≡ length ones.now }
    requires fours { length fours.now ≡ length ones.now }
    requires eights { length eights.now ≡ length ones.now }
{
    let mut least = 64;
    for i in 0..ones.len() {
        let low = (r ^ twos[i]) | (p ^ ones[i]);
        let apart = (t ^ eights[i]) | ((s ^ fours[i]) | low);
        least = least.min(apart.count_ones());
    }
    least
}

// The least of a run by so many planes, 4 at most, with the prefix whose planes are made of `p`.
fn least(planes: u32, ones: &[u64], twos: &[u64], fours: &[u64], eights: &[u64], p: u64) -> u32
    requires twos { length twos.now ≡ length ones.now }
    requires fours { length fours.now ≡ length ones.now }
    requires eights { length eights.now ≡ length ones.now }
{
    let r = p ^ (p >> 7);
    let s = p ^ (p >> 11);
    let t = p ^ (p >> 13);
    match planes {
        1 => least_by_one(ones, p),
        2 => least_by_two(ones, twos, p, r),
        3 => least_by_three(ones, twos, fours, p, r, s),
        _ => least_by_four(ones, twos, fours, eights, p, r, s, t),
    }
}

// The sum of the leasts of all runs.
fn look(planes: u32, ones: &[u64], twos: &[u64], fours: &[u64], eights: &[u64]) -> u64
    requires twos { length twos.now ≡ length ones.now }
    requires fours { length fours.now ≡ length ones.now }
    requires eights { length eights.now ≡ length ones.now }
{
    let mut state = 2;
    let mut sum: u64 = 0;
    for _ in 0..PASSES {
        let least = least(planes, ones, twos, fours, eights, next(&mut state));
        sum = sum.saturating_add(u64::from(least));
    }
    sum
}

// The sum for the planes of one list, one after the other.
fn look_at(planes: u32, bits: &[u64]) -> u64
    requires long { length bits.now ≡ 4 * RUN }
{
    let (low, high) = bits.split_at(2 * RUN);
    let (ones, twos) = low.split_at(RUN);
    let (fours, eights) = high.split_at(RUN);
    look(planes, ones, twos, fours, eights)
}

/// The rate of the innermost loop for symbols of so many bits, in words of up to 64 columns.
pub fn limit_rate<R: Clock + AllocGlobal>(rt: &R, planes: u32) -> Result<Rate, Failure> {
    let bits = numbers(rt.alloc())?;
    let start = Instant::now(rt)?;
    let sum = look_at(planes, &bits);
    let elapsed = start.elapsed(rt)?;
    // the sum is used, so that no compiler leaves the loop out
    if sum == 0 {
        return Err(Failure::Refused);
    }
    Ok(Rate {
        count: PASSES * RUN as u64,
        what: "words",
        elapsed,
    })
}
