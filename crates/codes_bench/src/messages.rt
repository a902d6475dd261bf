//! Stepping through the messages of a level.

ghost use Rattle.std.specs.Prelude.{◌≡◌, ◌<◌, ◌≤◌, length, Contains, IfSome};
ghost use Rattle.lc_enumeration.specs.Message.{messages};
ghost use Rattle.lc_enumeration.specs.Plan.{total};
ghost use Rattle.lc_place.specs.Place.{spot_message};

use crate::rate::{Failure, Rate};
use lc_place::{Plan, Spot};
use std::alloc::AllocGlobal;
use std::rt::Clock;
use std::time::Instant;

/// How often the level is listed.
const PASSES: u64 = 20;

/// The first block of a level, if the plan has it.
pub(crate) fn first_block(plan: &Plan, level: usize) -> Option<u64>
    ensures { IfSome result (λ b. b < total plan.now.k plan.now.q plan.now.m) }
{
    for block in 0..plan.total() {
        if plan.phase_of(block).level >= level {
            return Some(block);
        }
    }
    None
}

// Steps to the last message of the level, and answers how many messages that were, with the first one.
fn list_level(plan: &Plan, spot: &mut Spot) -> u64
    requires { Contains (messages plan.now.k plan.now.q (length spot.old.support)) (spot_message spot.old) }
    ensures room { spot.new.room ≡ spot.old.room }
{
    for steps in 0..1_000_000_000u64 {
        if plan.step(spot).is_none() {
            return steps + 1;
        }
    }
    1_000_000_000
}

// Lists a level from its first block, again and again, and answers how many messages that were.
fn list_often(plan: &Plan, spot: &mut Spot, block: u64) -> u64
    requires inside { block < total plan.now.k plan.now.q plan.now.m }
    requires room { plan.now.k ≤ spot.old.room }
{
    let mut count: u64 = 0;
    for _ in 0..PASSES {
        plan.start_of(block, spot);
        count = count.saturating_add(list_level(plan, spot));
    }
    count
}

// The rate of `Plan::step` from a block, with the spot that it needs.
fn steps_from<R: Clock>(rt: &R, plan: &Plan, spot: &mut Spot, block: u64) -> Result<Rate, Failure>
    requires inside { block < total plan.now.k plan.now.q plan.now.m }
    requires room { plan.now.k ≤ spot.old.room }
{
    let start = Instant::now(rt)?;
    let count = list_often(plan, spot, block);
    Ok(Rate {
        count,
        what: "messages",
        elapsed: start.elapsed(rt)?,
    })
}

// The rate of `Plan::step` over the messages of weight `width` of a plan for dimension `k`.
fn steps_of<R: Clock + AllocGlobal>(
    rt: &R,
    plan: &Plan,
    k: usize,
    width: usize,
) -> Result<Rate, Failure>
    requires dimension { plan.now.k ≡ k }
{
    let Some(block) = first_block(plan, width) else {
        return Err(Failure::Refused);
    };
    let mut spot = Spot::new(rt.alloc(), k)?;
    steps_from(rt, plan, &mut spot, block)
}

/// The rate of `Plan::step` over the messages of weight `width` and length `k` over `q` elements.
pub fn step_rate<R: Clock + AllocGlobal>(
    rt: &R,
    k: usize,
    width: usize,
    q: u64,
) -> Result<Rate, Failure>
    requires dimension { (1 ≤ k) × (k ≤ 255) }
    requires field { (2 ≤ q) × (q ≤ 16) }
{
    let plan = Plan::build(rt.alloc(), k, q, 1)?;
    steps_of(rt, &plan, k, width)
}
