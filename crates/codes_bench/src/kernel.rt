//! The least words of the blocks of a level.

ghost use Rattle.std.specs.Prelude.{◌≡◌, ◌≤◌, ◌<◌, IfOk};
ghost use Rattle.lc_enumeration.specs.Plan.{total};
ghost use Rattle.lc_kernel.specs.Kernel.{IsPlanOf};

use crate::linear::sets_of;
use crate::messages::first_block;
use crate::rate::{Failure, Rate};
use crate::words::random_code;
use lc_code::Code;
use lc_infoset::Sets;
use lc_kernel::{Scratch, least};
use lc_place::Plan;
use std::alloc::{AllocGlobal, Global};
use std::rt::Clock;
use std::time::Instant;

/// How many blocks are looked at.
const BLOCKS: u64 = 20_000;

// Looks at the blocks of the phase that begins with one, again and again, and answers how many words they have, and their
// least value.
fn look(sets: &Sets, plan: &Plan, first: u64, scratch: &mut Scratch) -> (u64, u64)
    requires plan { IsPlanOf plan.now sets.now }
    requires first { first < total plan.now.k plan.now.q plan.now.m }
    requires scratch { scratch.old ≡ sets.now }
{
    let end = plan.phase_end(first).min(plan.total());
    let mut block = first;
    let mut count: u64 = 0;
    let mut value = u64::MAX;
    for _ in 0..BLOCKS {
        value = value.min(least(sets, plan, block, scratch));
        count = count.saturating_add(plan.block_len(block));
        block = if block + 1 < end { block + 1 } else { first };
    }
    (count, value)
}

// The rate over the blocks of a level, in words.
fn level_rate<R: Clock + AllocGlobal>(
    rt: &R,
    sets: &Sets,
    plan: &Plan,
    level: usize,
) -> Result<Rate, Failure>
    requires plan { IsPlanOf plan.now sets.now }
{
    let Some(block) = first_block(plan, level) else {
        return Err(Failure::Refused);
    };
    let mut scratch = Scratch::new(rt.alloc(), sets)?;
    let start = Instant::now(rt)?;
    let (count, value) = look(sets, plan, block, &mut scratch);
    let elapsed = start.elapsed(rt)?;
    // the value is used, so that no compiler leaves a part of the kernel out
    if value == u64::MAX {
        return Err(Failure::Refused);
    }
    Ok(Rate {
        count,
        what: "words",
        elapsed,
    })
}

/// The plan of the first `count` of these sets, at least one.
pub(crate) fn plan_of(alloc: Global, sets: &Sets, count: usize) -> Result<Plan, Failure>
    ensures is { IfOk result (λ p. IsPlanOf p sets.now) }
{
    let size = u64::from(sets.field().size());
    let _n = sets.length();
    if size < 2 || size > 16 || count == 0 || count > sets.count() {
        return Err(Failure::Refused);
    }
    Ok(Plan::build(alloc, sets.dimension(), size, count)?)
}

// The rate over the blocks of a level of these sets, the first one alone, in words.
fn least_by<R: Clock + AllocGlobal>(rt: &R, sets: &Sets, level: usize) -> Result<Rate, Failure> {
    let plan = plan_of(rt.alloc(), sets, 1)?;
    level_rate(rt, sets, &plan, level)
}

// The same of a code.
fn least_of<R: Clock + AllocGlobal>(rt: &R, code: &Code, level: usize) -> Result<Rate, Failure> {
    let sets = sets_of(rt.alloc(), code)?;
    least_by(rt, &sets, level)
}

/// The rate of `least` over the blocks of a level of a pseudo-random code of length `n` with `k` rows over
/// `q` elements, in words.
pub fn least_rate<R: Clock + AllocGlobal>(
    rt: &R,
    q: u64,
    n: usize,
    k: usize,
    level: usize,
) -> Result<Rate, Failure> {
    let code = random_code(rt.alloc(), q, n, k)?;
    least_of(rt, &code, level)
}
