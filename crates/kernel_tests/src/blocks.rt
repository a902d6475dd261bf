//! Blocks of codes over each field, at lengths around the borders of the kernel's words of 64 columns, against a plain scan.
ghost use Rattle.std.specs.Prelude.{◌≡◌, ◌<◌, ◌≤◌};
ghost use Rattle.lc_enumeration.specs.Plan.{total};
ghost use Rattle.lc_kernel.specs.Kernel.{IsPlanOf};

use crate::plain::{Sums, plain_least, sums_over};
use crate::shapes::{Columns, FIELDS, Over, Shape};
use crate::tasks::{Task, shape_does};
use lc_infoset::Sets;
use lc_kernel::{Scratch, least};
use lc_place::{Plan, Spot};
use std::alloc::Global;

// Which blocks are looked at: the first ones of the plan, or of each phase of some levels its first, its last and one in the
// middle, of the set whose number is this one modulo their count.
#[derive(Clone, Copy)]
pub(crate) enum Blocks {
    First(u64),
    Phases {
        first: usize,
        last: usize,
        set: usize,
    },
}

impl Blocks {
    // Whether a block is looked at.
    fn has(&self, sets: &Sets, plan: &Plan, block: u64) -> bool
        requires block { block < total plan.now.k plan.now.q plan.now.m }
    {
        let phase = plan.phase_of(block);
        match self {
            Blocks::First(most) => block < *most,
            Blocks::Phases { first, last, set } => {
                *first <= phase.level
                    && phase.level <= *last
                    && phase.set == *set % sets.count()
                    && (block == phase.start
                        || block == phase.start.midpoint(phase.end)
                        || block.saturating_add(1) == phase.end)
            }
        }
    }
}

// Whether the block has the least value of a plain scan.
fn block_agrees(
    sets: &Sets,
    sums: &Sums,
    plan: &Plan,
    block: u64,
    scratch: &mut Scratch,
    spot: &mut Spot,
    word: &mut [u8],
) -> bool
    requires plan { IsPlanOf plan.now sets.now }
    requires block { block < total plan.now.k plan.now.q plan.now.m }
    requires scratch { scratch.old ≡ sets.now }
    requires room { plan.now.k ≤ spot.old.room }
    ensures scratch { scratch.new ≡ scratch.old }
    ensures room { spot.new.room ≡ spot.old.room }
{
    let value = least(sets, plan, block, scratch);
    plain_least(sets, sums, plan, block, spot, word) == Some(value)
}

// Whether this is so of these blocks.
fn all_agree(
    sets: &Sets,
    plan: &Plan,
    blocks: Blocks,
    scratch: &mut Scratch,
    spot: &mut Spot,
    word: &mut [u8],
) -> bool
    requires plan { IsPlanOf plan.now sets.now }
    requires scratch { scratch.old ≡ sets.now }
    requires room { plan.now.k ≤ spot.old.room }
{
    let sums = sums_over(sets.field());
    for block in 0..plan.total().min(4096) {
        if blocks.has(sets, plan, block)
            && !block_agrees(sets, &sums, plan, block, scratch, spot, word)
        {
            return false;
        }
    }
    true
}

// Whether this is so by a word of its own.
fn spot_agrees(
    alloc: Global,
    sets: &Sets,
    plan: &Plan,
    blocks: Blocks,
    scratch: &mut Scratch,
    spot: &mut Spot,
) -> bool
    requires plan { IsPlanOf plan.now sets.now }
    requires scratch { scratch.old ≡ sets.now }
    requires room { plan.now.k ≤ spot.old.room }
{
    match vec![in alloc; 0u8; sets.length()] {
        Ok(mut word) => all_agree(sets, plan, blocks, scratch, spot, &mut word),
        Err(_) => false,
    }
}

// Whether this is so by a spot of its own.
fn scratch_agrees(
    alloc: Global,
    sets: &Sets,
    plan: &Plan,
    blocks: Blocks,
    scratch: &mut Scratch,
) -> bool
    requires plan { IsPlanOf plan.now sets.now }
    requires scratch { scratch.old ≡ sets.now }
{
    match Spot::new(alloc, sets.dimension()) {
        Ok(mut spot) => spot_agrees(alloc, sets, plan, blocks, scratch, &mut spot),
        Err(_) => false,
    }
}

// Whether this is so for the memory of another worker.
fn another_agrees(alloc: Global, sets: &Sets, plan: &Plan, blocks: Blocks, first: &Scratch) -> bool
    requires plan { IsPlanOf plan.now sets.now }
    requires scratch { first.now ≡ sets.now }
{
    match first.another(alloc) {
        Ok(mut scratch) => scratch_agrees(alloc, sets, plan, blocks, &mut scratch),
        Err(_) => false,
    }
}

// Whether these blocks have the least values of a plain scan.
pub(crate) fn blocks_agree(alloc: Global, sets: &Sets, plan: &Plan, blocks: Blocks) -> bool
    requires plan { IsPlanOf plan.now sets.now }
{
    match Scratch::new(alloc, sets) {
        Ok(first) => another_agrees(alloc, sets, plan, blocks, &first),
        Err(_) => false,
    }
}

// Whether this is so of the code of a shape, in its phases of some levels.
fn shape_agrees(alloc: Global, q: u64, shape: &Shape, first: usize, last: usize) -> bool {
    let set = shape.length;
    let blocks = Blocks::Phases { first, last, set };
    shape_does(alloc, q, shape, Task::Least(blocks))
}

// The lengths that are looked at.
static LENGTHS: [usize; 10] = [1, 63, 64, 65, 127, 128, 129, 192, 193, 255];

// How many columns there are beside those of an information set, in further codes.
static OUTSIDE: [usize; 4] = [0, 2, 64, 65];

// Whether small codes of the lengths agree at all levels.
fn lengths_agree(alloc: Global, over: &Over) -> bool {
    for length in &LENGTHS {
        let shape = Shape {
            length: *length,
            dimension: over.small,
            columns: Columns::Sparse,
        };
        if !shape_agrees(alloc, over.q, &shape, 1, over.small) {
            return false;
        }
    }
    true
}

// Whether codes of so many columns outside agree at the level of several blocks.
fn levels_agree(alloc: Global, over: &Over) -> bool {
    for outside in &OUTSIDE {
        let shape = Shape {
            length: over.dimension.saturating_add(*outside),
            dimension: over.dimension,
            columns: over.columns,
        };
        if !shape_agrees(alloc, over.q, &shape, over.level, over.level) {
            return false;
        }
    }
    true
}

// Whether the code of repeated columns agrees at the level of several blocks. Many of its words have one weight.
fn ties_agree(alloc: Global, over: &Over) -> bool {
    let shape = Shape {
        length: over.dimension.saturating_mul(4),
        dimension: over.dimension,
        columns: Columns::Repeated,
    };
    shape_agrees(alloc, over.q, &shape, over.level, over.level)
}

#[test]
fn blocks_of_codes_of_many_lengths(rt: HostRuntime) {
    for over in &FIELDS {
        assert!(rt; lengths_agree(rt.alloc(), over), "{}", over.q);
    }
}

#[test]
fn full_blocks(rt: HostRuntime) {
    for over in &FIELDS {
        assert!(rt; levels_agree(rt.alloc(), over), "{}", over.q);
    }
}

#[test]
fn ties_in_blocks(rt: HostRuntime) {
    for over in &FIELDS {
        assert!(rt; ties_agree(rt.alloc(), over), "{}", over.q);
    }
}

// So many rows over 16 elements that a set has too many tails for a table.
#[test]
fn blocks_without_tables(rt: HostRuntime) {
    let shape = Shape {
        length: 55,
        dimension: 35,
        columns: Columns::Dense,
    };
    assert!(rt; shape_agrees(rt.alloc(), 16, &shape, 2, 3));
}

// So many rows over 2 elements that the sums of three of them are too many for a table.
#[test]
fn blocks_with_sums_of_two_rows(rt: HostRuntime) {
    let shape = Shape {
        length: 136,
        dimension: 68,
        columns: Columns::Dense,
    };
    assert!(rt; shape_agrees(rt.alloc(), 2, &shape, 2, 4));
}
