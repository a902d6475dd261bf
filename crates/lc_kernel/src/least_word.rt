//! The least word of a block.

ghost use Rattle.std.specs.Prelude.{◌≡◌, ◌+◌, ◌*◌, ◌^◌, ◌<◌, ◌≤◌, Some, length, option_map};
ghost use Rattle.lc_algebra.specs.Word.{weight};
ghost use Rattle.lc_enumeration.specs.Plan.{total};
ghost use Rattle.lc_enumeration.specs.Search.{block_least, board_value};
ghost use Rattle.lc_kernel.specs.Kernel.{IsPlanOf, top_sum};
ghost use Rattle.lc_kernel.specs.Block.{IsLeastIn};
ghost use Rattle.lc_kernel.specs.Tables.{AreTables};
ghost use Rattle.lc_kernel.specs.Grids.{AreGrids};
ghost use Rattle.lc_kernel.specs.Room.{IsWorkRoom, IsGridRoom, HasSizesOf};

use crate::block::Block;
use crate::grid::Grid;
use crate::room::Room;
use crate::runs::by_runs;
use crate::scratch::Scratch;
use crate::stack::Stack;
use crate::table::Table;
use crate::tails::by_tails;
use lc_enumeration::{BLOCK, PLACES};
use lc_infoset::Sets;
use lc_place::Plan;

/// The least value of a block on the board: the weight times 2^52 plus the place of the lightest word of the
/// block, the first of these.
///
/// The plan is one of these sets, the block is below its total, and the scratch was made for these sets.
/// It takes no memory.
pub fn least(sets: &Sets, plan: &Plan, block: u64, scratch: &mut Scratch) -> u64
    requires plan { IsPlanOf plan.now sets.now }
    requires block { block < total plan.now.k plan.now.q plan.now.m }
    requires scratch { scratch.old ≡ sets.now }
    ensures scratch { scratch.new ≡ scratch.old }
    ensures is { option_map board_value (block_least sets.now plan.now.m block) ≡ Some result }
{
    least_in(
        &Block::of(sets, plan, block),
        &scratch.tables,
        &scratch.grids,
        &mut scratch.room,
        &mut scratch.stack,
    )
}

// The same in parts: by runs if its set has a table with tails that its level can have, and else message by
// message.
fn least_in(
    block: &Block<'_>,
    tables: &[Table],
    grids: &[Grid],
    room: &mut Room,
    stack: &mut Stack,
) -> u64
    requires tables { AreTables block.now.sets.now tables.now }
    requires grids { AreGrids block.now.sets.now grids.now }
    requires room { IsWorkRoom (length block.now.sets.now.rows) room.old }
    requires grid_room { 0 < length grids.now → IsGridRoom (length block.now.sets.now.rows) room.old }
    requires stack { stack.old.code ≡ block.now.sets.now }
    ensures room { HasSizesOf room.old room.new }
    ensures stack { stack.new.code ≡ stack.old.code }
    ensures is { IsLeastIn block.now result }
{
    block.plan.start_of(block.number, &mut room.spot);
    let set = room.spot.set();
    let level = room.spot.support().len();
    if level >= 3 && set < grids.len() {
        return by_tails(block, &grids[set], room);
    }
    if set < tables.len() {
        let table = &tables[set];
        if level >= table.tail {
            return by_runs(block, table, &mut room.spot, &mut room.counts);
        }
    }
    scan(block, stack)
}

// The same by a step for each message.
fn scan(block: &Block<'_>, stack: &mut Stack) -> u64
    requires stack { stack.old.code ≡ block.now.sets.now }
    ensures code { stack.new.code ≡ stack.old.code }
    ensures is { IsLeastIn block.now result }
{
    stack.start_block(block.sets, block.plan, block.number);
    let first = block.number * BLOCK;
    let mut best = value_of(stack, first);
    for offset in 1..block.plan.block_len(block.number) {
        stack.step_in_block(block.sets, block.plan, block.number, offset);
        best = best.min(value_of(stack, first + offset));
    }
    best
}

// The value of the word of a stack at a place.
fn value_of(stack: &Stack, place: u64) -> u64
    requires at { 0 < length stack.now.spot.support }
    requires few { stack.now.code.columns ≤ 255 }
    requires place { place < 2 ^ 52 }
    ensures is { result ≡ weight (top_sum stack.now) * 2 ^ 52 + place }
{
    stack.weight() as u64 * PLACES + place
}
