//! Tests of the stack beside a spot: its words are the plain ones, and it makes as many sums again as the spot's steps say.
ghost use Rattle.std.specs.Prelude.{◌≡◌, ◌<◌, ◌≤◌, length};
ghost use Rattle.std.specs.List.{Contains};
ghost use Rattle.lc_enumeration.specs.Message.{messages};
ghost use Rattle.lc_enumeration.specs.Plan.{total};
ghost use Rattle.lc_kernel.specs.Kernel.{IsPlanOf, IsStackAt};
ghost use Rattle.lc_place.specs.Place.{spot_message};

use crate::plain::{Sums, put_word, sums_over, weight_of};
use crate::shapes::{Columns, Shape};
use crate::tasks::{Task, shape_does};
use lc_infoset::Sets;
use lc_kernel::Stack;
use lc_place::{Plan, Spot};
use std::alloc::Global;

// Whether the stack's word is this one.
fn has_word(sets: &Sets, stack: &Stack, word: &[u8]) -> bool
    requires at { 0 < length stack.now.spot.support }
    requires code { stack.now.code ≡ sets.now }
{
    if word.len() != sets.length() {
        return false;
    }
    for column in 0..word.len() {
        if stack.symbol(column) != word[column] {
            return false;
        }
    }
    stack.weight() as u64 == weight_of(word)
}

// Goes with both to the next message of the level. Answers whether the stack made the sums from the spot's first changed entry on
// again, or neither has a next message.
fn step_both(sets: &Sets, plan: &Plan, stack: &mut Stack, spot: &mut Spot) -> bool
    requires plan { IsPlanOf plan.now sets.now }
    requires at { IsStackAt sets.now plan.now.m stack.old }
    requires message { Contains (messages plan.now.k plan.now.q (length spot.old.support)) (spot_message spot.old) }
    ensures at { IsStackAt sets.now plan.now.m stack.new }
    ensures message { Contains (messages plan.now.k plan.now.q (length spot.new.support)) (spot_message spot.new) }
    ensures room { spot.new.room ≡ spot.old.room }
{
    let made = stack.advance(sets, plan);
    match plan.step(spot) {
        Some(first) => made == spot.support().len().checked_sub(first),
        None => made.is_none(),
    }
}

// Whether this is so of each message of a block, and after it: at the end of a level the stack stays.
fn block_is_walked(
    sets: &Sets,
    sums: &Sums,
    plan: &Plan,
    block: u64,
    stack: &mut Stack,
    spot: &mut Spot,
    word: &mut [u8],
) -> bool
    requires plan { IsPlanOf plan.now sets.now }
    requires block { block < total plan.now.k plan.now.q plan.now.m }
    requires stack { stack.old.code ≡ sets.now }
    requires room { plan.now.k ≤ spot.old.room }
    ensures stack { stack.new.code ≡ sets.now }
    ensures room { spot.new.room ≡ spot.old.room }
{
    stack.start(sets, plan, block);
    plan.start_of(block, spot);
    for _offset in 0..plan.block_len(block) {
        if !put_word(sets, sums, spot, word)
            || !has_word(sets, stack, word)
            || !step_both(sets, plan, stack, spot)
        {
            return false;
        }
    }
    put_word(sets, sums, spot, word) && has_word(sets, stack, word)
}

// Whether this is so of the first blocks.
fn are_walked(
    sets: &Sets,
    plan: &Plan,
    most: u64,
    stack: &mut Stack,
    spot: &mut Spot,
    word: &mut [u8],
) -> bool
    requires plan { IsPlanOf plan.now sets.now }
    requires stack { stack.old.code ≡ sets.now }
    requires room { plan.now.k ≤ spot.old.room }
{
    let sums = sums_over(sets.field());
    for block in 0..plan.total().min(most) {
        if !block_is_walked(sets, &sums, plan, block, stack, spot, word) {
            return false;
        }
    }
    true
}

// Whether this is so by a word of its own.
fn spot_walks(
    alloc: Global,
    sets: &Sets,
    plan: &Plan,
    most: u64,
    stack: &mut Stack,
    spot: &mut Spot,
) -> bool
    requires plan { IsPlanOf plan.now sets.now }
    requires stack { stack.old.code ≡ sets.now }
    requires room { plan.now.k ≤ spot.old.room }
{
    match vec![in alloc; 0u8; sets.length()] {
        Ok(mut word) => are_walked(sets, plan, most, stack, spot, &mut word),
        Err(_) => false,
    }
}

// Whether this is so by a spot of its own.
fn stack_walks(alloc: Global, sets: &Sets, plan: &Plan, most: u64, stack: &mut Stack) -> bool
    requires plan { IsPlanOf plan.now sets.now }
    requires stack { stack.old.code ≡ sets.now }
{
    match Spot::new(alloc, sets.dimension()) {
        Ok(mut spot) => spot_walks(alloc, sets, plan, most, stack, &mut spot),
        Err(_) => false,
    }
}

// Whether this is so for another stack, which shares the multiples of the first.
fn another_walks(alloc: Global, sets: &Sets, plan: &Plan, most: u64, first: &Stack) -> bool
    requires plan { IsPlanOf plan.now sets.now }
    requires stack { first.now.code ≡ sets.now }
{
    match first.another(alloc) {
        Ok(mut stack) => stack_walks(alloc, sets, plan, most, &mut stack),
        Err(_) => false,
    }
}

// Whether a stack walks through the first blocks.
pub(crate) fn blocks_are_walked(alloc: Global, sets: &Sets, plan: &Plan, most: u64) -> bool
    requires plan { IsPlanOf plan.now sets.now }
{
    match Stack::new(alloc, sets) {
        Ok(first) => another_walks(alloc, sets, plan, most, &first),
        Err(_) => false,
    }
}

// Fields, with lengths and dimensions of codes, whose first blocks are walked.
static WALKED: [(u64, usize, usize, u64); 16] = [
    (2, 9, 5, 40),
    (2, 65, 16, 9),
    (3, 8, 4, 40),
    (3, 66, 5, 12),
    (4, 7, 3, 40),
    (5, 6, 3, 40),
    (7, 6, 3, 40),
    (8, 5, 3, 40),
    (9, 5, 3, 40),
    (11, 5, 2, 40),
    (13, 4, 2, 40),
    (16, 4, 2, 40),
    (2, 255, 3, 9),
    (4, 63, 3, 9),
    (8, 64, 2, 9),
    (16, 65, 2, 9),
];

#[test]
fn stacks_walk_through_blocks(rt: HostRuntime) {
    for row in &WALKED {
        let shape = Shape {
            length: row.1,
            dimension: row.2,
            columns: Columns::Dense,
        };
        let walked = shape_does(rt.alloc(), row.0, &shape, Task::Walk(row.3));
        assert!(rt; walked, "{} {}", row.0, row.1);
    }
}

// How many sums the steps of a level make again: of level 2 over 2 elements with four rows, and over 3 elements with two.
static MADE: [(u64, usize, &'static [Option<usize>]); 2] = [
    (2, 4, &[Some(1), Some(1), Some(2), Some(1), Some(2), None]),
    (3, 2, &[Some(1), None]),
];

// Whether the steps of a block make so many sums again.
fn makes(sets: &Sets, plan: &Plan, block: u64, stack: &mut Stack, made: &[Option<usize>]) -> bool
    requires plan { IsPlanOf plan.now sets.now }
    requires stack { stack.old.code ≡ sets.now }
{
    if plan.total() <= block {
        return false;
    }
    stack.start(sets, plan, block);
    for many in made {
        if stack.advance(sets, plan) != *many {
            return false;
        }
    }
    true
}

// Whether this is so of the first block of level 2, which comes after one for each set.
pub(crate) fn steps_make(alloc: Global, sets: &Sets, plan: &Plan, made: &[Option<usize>]) -> bool
    requires plan { IsPlanOf plan.now sets.now }
{
    match Stack::new(alloc, sets) {
        Ok(mut stack) => makes(sets, plan, sets.count() as u64, &mut stack, made),
        Err(_) => false,
    }
}

#[test]
fn steps_make_sums_again(rt: HostRuntime) {
    for row in &MADE {
        let shape = Shape {
            length: row.1.saturating_add(3),
            dimension: row.1,
            columns: Columns::Dense,
        };
        assert!(rt;
            shape_does(rt.alloc(), row.0, &shape, Task::Made(row.2)),
            "{}",
            row.0
        );
    }
}
