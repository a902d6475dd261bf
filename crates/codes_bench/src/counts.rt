//! The words of a code, counted by their weights.

use crate::rate::{Failure, Rate};
use crate::words::random_code;
use lc_code::Code;
use lc_macwilliams::refusal;
use lc_weights::distribution;
use std::alloc::{AllocGlobal, Global};
use std::rt::Clock;
use std::thread::Threads;
use std::time::Instant;

/// The length of the codes.
const LENGTH: usize = 64;

// How many words were counted.
fn total_of(counts: &[u64]) -> u64 {
    let mut total: u64 = 0;
    for count in counts {
        total = total.saturating_add(*count);
    }
    total
}

// The rate at which one worker counts the words of a code.
fn rate_of<R: Clock + AllocGlobal + Threads + Sync>(
    rt: &R,
    alloc: Global,
    code: &Code,
) -> Result<Rate, Failure> {
    let None = refusal(code) else {
        return Err(Failure::Refused);
    };
    let start = Instant::now(rt)?;
    let counts = distribution(rt, alloc, code, 1)?;
    let elapsed = start.elapsed(rt)?;
    Ok(Rate {
        count: total_of(&counts),
        what: "words",
        elapsed,
    })
}

/// The rate at which one worker counts the words of a pseudo-random code of length 64 with `k` rows over `q` elements
/// by their weights.
pub fn count_rate<R: Clock + AllocGlobal + Threads + Sync>(
    rt: &R,
    q: u64,
    k: usize,
) -> Result<Rate, Failure> {
    let code = random_code(rt.alloc(), q, LENGTH, k)?;
    rate_of(rt, rt.alloc(), &code)
}
