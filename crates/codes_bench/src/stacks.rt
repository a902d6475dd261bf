//! Going from message to message with a stack of sums.

ghost use Rattle.std.specs.Prelude.{◌≡◌, ◌<◌};
ghost use Rattle.lc_enumeration.specs.Plan.{total};
ghost use Rattle.lc_kernel.specs.Kernel.{IsPlanOf};

use crate::kernel::plan_of;
use crate::linear::sets_of;
use crate::messages::first_block;
use crate::rate::{Failure, Rate};
use crate::words::random_code;
use lc_code::Code;
use lc_infoset::Sets;
use lc_kernel::Stack;
use lc_place::Plan;
use std::alloc::AllocGlobal;
use std::rt::Clock;
use std::time::Instant;

/// How many words are weighed.
const WORDS: u64 = 4_000_000;

/// The dimension of the code, and the level of the messages.
const ROWS: usize = 32;

const LEVEL: usize = 4;

// Weighs the words of the messages from the first one of a block on, up to the end of their level, and again from the
// first one. Answers the least weight.
fn weigh(sets: &Sets, plan: &Plan, block: u64, stack: &mut Stack) -> usize
    requires plan { IsPlanOf plan.now sets.now }
    requires block { block < total plan.now.k plan.now.q plan.now.m }
    requires stack { stack.old.code ≡ sets.now }
{
    stack.start(sets, plan, block);
    let mut least = stack.weight();
    for _ in 1..WORDS {
        if stack.advance(sets, plan).is_none() {
            stack.start(sets, plan, block);
        }
        least = least.min(stack.weight());
    }
    least
}

// The rate over the messages of the level, in words.
fn stack_by<R: Clock + AllocGlobal>(rt: &R, sets: &Sets) -> Result<Rate, Failure> {
    let plan = plan_of(rt.alloc(), sets, 1)?;
    let Some(block) = first_block(&plan, LEVEL) else {
        return Err(Failure::Refused);
    };
    let mut stack = Stack::new(rt.alloc(), sets)?;
    let start = Instant::now(rt)?;
    let least = weigh(sets, &plan, block, &mut stack);
    let elapsed = start.elapsed(rt)?;
    // the weight is used, so that no compiler leaves a part of the stack out
    if least == usize::MAX {
        return Err(Failure::Refused);
    }
    Ok(Rate {
        count: WORDS,
        what: "words",
        elapsed,
    })
}

// The same of a code.
fn stack_of<R: Clock + AllocGlobal>(rt: &R, code: &Code) -> Result<Rate, Failure> {
    let sets = sets_of(rt.alloc(), code)?;
    stack_by(rt, &sets)
}

/// The rate of `Stack::advance` and `Stack::weight` over the messages of level 4 of a pseudo-random code of length `n`
/// and dimension 32 over `q` elements, in words.
pub fn stack_rate<R: Clock + AllocGlobal>(rt: &R, q: u64, n: usize) -> Result<Rate, Failure> {
    let code = random_code(rt.alloc(), q, n, ROWS)?;
    stack_of(rt, &code)
}
