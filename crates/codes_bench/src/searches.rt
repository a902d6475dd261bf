//! Rounds of searches, and whole searches by several workers.

ghost use Rattle.std.specs.Prelude.{◌≤◌};

use crate::codes::bch_code;
use crate::kernel::plan_of;
use crate::rate::{Failure, Rate};
use crate::words::random_code;
use lc_code::Code;
use lc_field::NoMemory;
use lc_infoset::Sets;
use lc_io::OpenGate;
use lc_place::Plan;
use lc_search::{Answer, Search};
use std::alloc::{AllocGlobal, Global};
use std::rt::Clock;
use std::thread::Threads;
use std::time::{Duration, Instant};

/// How many rounds are done, at least.
const ROUNDS: u64 = 20_000;

/// The budget of a search, in blocks.
const BUDGET: u64 = 1 << 40;

// Does rounds until the search ends, and answers how many rounds and blocks.
fn run<R: Threads + Sync>(
    rt: &R,
    alloc: Global,
    search: &mut Search,
    workers: u32,
    limit: u64,
) -> Result<(u64, u64), NoMemory>
    requires workers { (1 ≤ workers) × (workers ≤ 256) }
    requires limit { 1 ≤ limit }
{
    let mut rounds: u64 = 0;
    loop {
        if let Some(answer) = search.finished() {
            return Ok((rounds, blocks_of(answer)));
        }
        let _record = search.round(rt, alloc, workers, limit, &OpenGate)?;
        rounds = rounds.saturating_add(1);
    }
}

// How many blocks were done for the answer.
fn blocks_of(answer: Answer) -> u64 {
    match answer {
        Answer::Exact { blocks, .. } => blocks,
        Answer::Bracket { blocks, .. } => blocks,
    }
}

// How many rounds and blocks a search did, and in which time, its start not counted.
#[derive(Clone, Copy, Drop)]
struct Course {
    rounds: u64,
    blocks: u64,
    elapsed: Duration,
}

// Does rounds until the search ends.
fn time<R: Clock + AllocGlobal + Threads + Sync>(
    rt: &R,
    search: &mut Search,
    workers: u32,
    limit: u64,
) -> Result<Course, Failure>
    requires workers { (1 ≤ workers) × (workers ≤ 256) }
    requires limit { 1 ≤ limit }
{
    let start = Instant::now(rt)?;
    let (rounds, blocks) = run(rt, rt.alloc(), search, workers, limit)?;
    Ok(Course {
        rounds,
        blocks,
        elapsed: start.elapsed(rt)?,
    })
}

// The search of a code of dimension at least 1, at its start.
fn start_of(alloc: Global, code: &Code) -> Result<Search, Failure> {
    if code.dimension() == 0 {
        return Err(Failure::Refused);
    }
    Ok(Search::start(alloc, code, BUDGET)?)
}

// Searches in rounds of as many blocks as there are workers.
fn search_once<R: Clock + AllocGlobal + Threads + Sync>(
    rt: &R,
    code: &Code,
    workers: u32,
) -> Result<Course, Failure>
    requires workers { (1 ≤ workers) × (workers ≤ 256) }
{
    let mut search = start_of(rt.alloc(), code)?;
    time(rt, &mut search, workers, u64::from(workers))
}

// The rate of searches of the code, again and again, in rounds of as many blocks as there are workers.
fn search_often<R: Clock + AllocGlobal + Threads + Sync>(
    rt: &R,
    code: &Code,
    workers: u32,
) -> Result<Rate, Failure>
    requires workers { (1 ≤ workers) × (workers ≤ 256) }
{
    let mut count: u64 = 0;
    let mut elapsed = Duration::ZERO;
    for _ in 0..ROUNDS {
        if count >= ROUNDS {
            break;
        }
        let course = search_once(rt, code, workers)?;
        count = count.saturating_add(course.rounds);
        elapsed = elapsed.saturating_add(course.elapsed);
    }
    Ok(Rate {
        count,
        what: "rounds",
        elapsed,
    })
}

/// The rate of `Search::round` over searches of a pseudo-random binary code of length `n` with `k` rows, in rounds.
pub fn rounds_rate<R: Clock + AllocGlobal + Threads + Sync>(
    rt: &R,
    n: usize,
    k: usize,
    workers: u32,
) -> Result<Rate, Failure> {
    if workers == 0 || workers > 256 {
        return Err(Failure::Refused);
    }
    let code = random_code(rt.alloc(), 2, n, k)?;
    search_often(rt, &code, workers)
}

// How many words the first blocks of a plan have.
fn words_below(plan: &Plan, blocks: u64) -> u64 {
    let mut count: u64 = 0;
    for block in 0..plan.total() {
        if blocks <= block {
            break;
        }
        count = count.saturating_add(plan.block_len(block));
    }
    count
}

// How many words the first blocks of the plan of all these sets have.
fn words_of(alloc: Global, sets: &Sets, blocks: u64) -> Result<u64, Failure> {
    let plan = plan_of(alloc, sets, sets.count())?;
    Ok(words_below(&plan, blocks))
}

// The rate of a whole search, in words.
fn search_of<R: Clock + AllocGlobal + Threads + Sync>(
    rt: &R,
    code: &Code,
    workers: u32,
) -> Result<Rate, Failure>
    requires workers { (1 ≤ workers) × (workers ≤ 256) }
{
    let mut search = start_of(rt.alloc(), code)?;
    let course = time(rt, &mut search, workers, u64::MAX)?;
    Ok(Rate {
        count: words_of(rt.alloc(), search.sets(), course.blocks)?,
        what: "words",
        elapsed: course.elapsed,
    })
}

/// The rate of the search of the BCH code of length 63 and dimension 36 with so many workers, in words.
pub fn search_rate<R: Clock + AllocGlobal + Threads + Sync>(
    rt: &R,
    workers: u32,
) -> Result<Rate, Failure> {
    if workers == 0 || workers > 256 {
        return Err(Failure::Refused);
    }
    let formed = bch_code(rt.alloc(), 2, 63, 11)?;
    search_of(rt, &formed.code, workers)
}
