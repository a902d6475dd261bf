//! Nearest words by error patterns.

use crate::rate::{Failure, Rate};
use crate::words::{random_code, symbols};
use lc_code::Code;
use lc_coset::nearest;
use std::alloc::AllocGlobal;
use std::rt::Clock;
use std::thread::Threads;
use std::time::Instant;

/// How many blocks are done.
const BLOCKS: u64 = 100_000;

// The rate of a search for a word of the code that is nearest to a pseudo-random one, with one worker, in words.
fn near_of<R: Clock + AllocGlobal + Threads + Sync>(rt: &R, code: &Code) -> Result<Rate, Failure> {
    if code.dimension() == 0 {
        return Err(Failure::Refused);
    }
    let mut state = 7;
    let word = symbols(rt.alloc(), code.field(), code.length(), &mut state)?;
    let start = Instant::now(rt)?;
    let near = nearest(rt, rt.alloc(), code, &word, BLOCKS, 1)?;
    let elapsed = start.elapsed(rt)?;
    Ok(Rate {
        count: near.blocks.saturating_mul(4096),
        what: "words",
        elapsed,
    })
}

/// The rate of `nearest` for a pseudo-random word and a pseudo-random code of length `n` with `k` rows over `q` elements, in
/// words, of which a block is taken to have 4,096.
pub fn near_rate<R: Clock + AllocGlobal + Threads + Sync>(
    rt: &R,
    q: u64,
    n: usize,
    k: usize,
) -> Result<Rate, Failure> {
    let code = random_code(rt.alloc(), q, n, k)?;
    near_of(rt, &code)
}
