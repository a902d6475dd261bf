//! The word at a place.

ghost use Rattle.std.specs.Prelude.{◌≡◌, ◌<◌, IfOk, IsOk, None, length};
ghost use Rattle.lc_enumeration.specs.Search.{word_at as word_at_place};
ghost use Rattle.lc_kernel.specs.Kernel.{IsPlanOf, top_sum};

use crate::stack::Stack;
use lc_enumeration::BLOCK;
use lc_field::NoMemory;
use lc_infoset::Sets;
use lc_place::Plan;
use lc_vec::Word;
use std::alloc::Global;

/// The word at a place: its block times 4,096 plus its offset in the block. None exactly if the plan has no
/// such block, or the block no such word, and then no memory is taken.
///
/// The plan is one of these sets.
pub fn word_at(
    alloc: Global,
    sets: &Sets,
    plan: &Plan,
    place: u64,
) -> Result<Option<Word>, NoMemory>
    requires plan { IsPlanOf plan.now sets.now }
    ensures at { IfOk result (λ w. w ≡ word_at_place sets.now plan.now.m place) }
    ensures none { word_at_place sets.now plan.now.m place ≡ None → IsOk result }
{
    let block = place / BLOCK;
    let offset = place % BLOCK;
    if block >= plan.total() {
        return Ok(None);
    }
    let _phase = plan.phase_of(block);
    if offset >= plan.block_len(block) {
        return Ok(None);
    }
    let mut stack = Stack::new(alloc, sets)?;
    stack.go_to(sets, plan, block, offset);
    Ok(Some(word_of(alloc, &stack)?))
}

// The word of a stack's message.
fn word_of(alloc: Global, stack: &Stack) -> Result<Word, NoMemory>
    requires at { 0 < length stack.now.spot.support }
    ensures is { IfOk result (λ w. w ≡ top_sum stack.now) }
{
    let n = stack.length();
    let mut symbols = Vec::with_capacity(alloc, n)?;
    for i in 0..n {
        symbols.push(stack.symbol(i))?;
    }
    Ok(Word::from_vec(symbols))
}
