//! The values are those of `tools/plan_numbers.py`, which counts and lists without this crate.
ghost use Rattle.std.specs.Prelude.{◌≡◌, ◌≤◌};

use lc_place::{NoMemory, Plan, Spot};
use std::alloc::Global;

fn crosses<T: Send>(_value: &T) {}

fn is_shared<T: Send + Sync>(_value: &T) {}

// Whether the spot has this set, this support and these coefficients.
fn is_at(spot: &Spot, set: usize, support: &[usize], coefficients: &[u8]) -> bool {
    spot.set() == set && spot.support() == support && spot.coefficients() == coefficients
}

// Whether the steps from block 1 of dimension 4 over 2 elements, to its last message, change from these places on.
fn are_binary_steps(plan: &Plan, spot: &mut Spot) -> bool
    requires room { plan.now.k ≤ spot.old.room }
{
    if plan.total() != 4 {
        return false;
    }
    plan.start_of(1, spot);
    let is_first = is_at(spot, 0, &[0, 1], &[1, 1]);
    let changes = [
        plan.step(spot),
        plan.step(spot),
        plan.step(spot),
        plan.step(spot),
    ];
    let goes_on = plan.next(spot);
    let ends = plan.step(spot).is_none() && !plan.next(spot);
    is_first
        && changes == [Some(1), Some(1), Some(0), Some(1)]
        && goes_on
        && ends
        && is_at(spot, 0, &[2, 3], &[1, 1])
}

// Whether block 1 of dimension 2 over 3 elements has two messages.
fn has_a_pair(plan: &Plan, spot: &mut Spot) -> bool
    requires room { plan.now.k ≤ spot.old.room }
{
    if plan.total() != 2 {
        return false;
    }
    plan.start_of(1, spot);
    plan.step(spot) == Some(1) && plan.step(spot).is_none()
}

// Whether the first steps from block 2 of dimension 4 over 3 elements change from these places on.
fn are_ternary_steps(plan: &Plan, spot: &mut Spot) -> bool
    requires room { plan.now.k ≤ spot.old.room }
{
    if plan.total() != 4 {
        return false;
    }
    plan.start_of(2, spot);
    let changes = [
        plan.step(spot),
        plan.step(spot),
        plan.step(spot),
        plan.step(spot),
    ];
    changes == [Some(2), Some(1), Some(2), Some(1)] && is_at(spot, 0, &[0, 1, 3], &[1, 1, 1])
}

// Of the plan of dimension 45 over 2 elements a block, the level of its phase, where the phase begins and ends, and how many messages
// the block has.
static PHASES: [(u64, usize, u64, u64, u64); 6] = [
    (0, 1, 0, 1, 45),
    (1, 2, 1, 2, 990),
    (4, 3, 2, 6, 4096),
    (5, 3, 2, 6, 1902),
    (6, 4, 6, 43, 4096),
    (342, 6, 342, 2331, 4096),
];

// Whether the block's phase is so, in set 0.
fn is_phase(plan: &Plan, row: &(u64, usize, u64, u64, u64)) -> bool {
    if plan.total() <= row.0 {
        return false;
    }
    let phase = plan.phase_of(row.0);
    phase.level == row.1
        && phase.set == 0
        && phase.start == row.2
        && phase.end == row.3
        && plan.phase_end(row.0) == row.3
        && plan.block_len(row.0) == row.4
}

// Whether this is so of each row.
fn are_phases(plan: &Plan) -> bool {
    for row in &PHASES {
        if !is_phase(plan, row) {
            return false;
        }
    }
    true
}

// Whether the set's phase at level 1 is one block of one message.
fn is_one_message(plan: &Plan, spot: &mut Spot, set: u8) -> bool
    requires room { plan.now.k ≤ spot.old.room }
    ensures room { spot.new.room ≡ spot.old.room }
{
    let block = u64::from(set);
    if plan.total() <= block {
        return false;
    }
    let phase = plan.phase_of(block);
    plan.start_of(block, spot);
    phase.level == 1
        && phase.set == usize::from(set)
        && phase.start == block
        && phase.end == block + 1
        && plan.block_len(block) == 1
        && is_at(spot, usize::from(set), &[0], &[1])
}

// Whether this is so of four sets.
fn are_one_message(plan: &Plan, spot: &mut Spot) -> bool
    requires room { plan.now.k ≤ spot.old.room }
{
    is_one_message(plan, spot, 0)
        && is_one_message(plan, spot, 1)
        && is_one_message(plan, spot, 2)
        && is_one_message(plan, spot, 3)
}

// Whether the plan of dimension 255 over 16 elements is cut at 2^40, in a phase of level 6.
fn is_cut(plan: &Plan) -> bool {
    let total = plan.total();
    if total != 1_099_511_627_776 {
        return false;
    }
    let phase = plan.phase_of(total - 1);
    phase.level == 6
        && phase.start == 106_897_980_921
        && phase.end == total
        && plan.block_len(total - 1) == 4096
}

// Whether the last phase of dimension 7 over 5 elements fills its one block.
fn is_filled(plan: &Plan) -> bool {
    plan.total() == 9 && plan.block_len(8) == 4096 && plan.phase_of(8).start == 8
}

// Whether the block begins in set 0, with this support and these coefficients.
fn begins(plan: &Plan, spot: &mut Spot, block: u64, support: &[usize], coefficients: &[u8]) -> bool
    requires room { plan.now.k ≤ spot.old.room }
{
    if plan.total() <= block {
        return false;
    }
    plan.start_of(block, spot);
    is_at(spot, 0, support, coefficients)
}

// What is asked of a plan: its steps over 2 or 3 elements, its phases, or that a block begins with this support and these coefficients.
enum Asked {
    BinarySteps,
    Pair,
    TernarySteps,
    Phases,
    OneMessage,
    Cut,
    Filled,
    Begins(u64, &'static [usize], &'static [u8]),
}

// Whether the plan is as it is to be, by this spot.
fn is_right(plan: &Plan, spot: &mut Spot, asked: &Asked) -> bool
    requires room { plan.now.k ≤ spot.old.room }
{
    match asked {
        Asked::BinarySteps => are_binary_steps(plan, spot),
        Asked::Pair => has_a_pair(plan, spot),
        Asked::TernarySteps => are_ternary_steps(plan, spot),
        Asked::Phases => plan.total() == 8_589_934_619 && are_phases(plan),
        Asked::OneMessage => plan.total() == 4 && are_one_message(plan, spot),
        Asked::Cut => is_cut(plan),
        Asked::Filled => is_filled(plan),
        Asked::Begins(block, support, coefficients) => {
            begins(plan, spot, *block, support, coefficients)
        }
    }
}

// The same by a spot of its own. Threads may share the plan, and spots may go from one to another.
fn is_right_plan(alloc: Global, plan: &Plan, asked: &Asked) -> bool
    requires room { plan.now.k ≤ 255 }
{
    is_shared(plan);
    match Spot::new(alloc, 255) {
        Ok(mut spot) => {
            crosses(&spot);
            is_right(plan, &mut spot, asked)
        }
        Err(NoMemory) => false,
    }
}

// The same of the plan of dimension k over q elements with so many sets.
fn is_planned(alloc: Global, k: usize, q: u64, sets: usize, asked: &Asked) -> bool {
    if k < 1 || k > 255 || q < 2 || q > 16 || sets < 1 || sets > 255 {
        return false;
    }
    match Plan::build(alloc, k, q, sets) {
        Ok(plan) => is_right_plan(alloc, &plan, asked),
        Err(NoMemory) => false,
    }
}

// Dimensions, sizes of fields, how many sets there are, and what is asked: the places from which steps change, over 2 elements from the
// first that moves, and over 3 from the coefficients that begin anew; the phases of each level, and those of several sets; a plan that
// is cut, and a phase that fills its block; blocks that begin in the middle of a level.
static PLANS: [(usize, u64, usize, Asked); 9] = [
    (4, 2, 1, Asked::BinarySteps),
    (2, 3, 1, Asked::Pair),
    (4, 3, 1, Asked::TernarySteps),
    (45, 2, 1, Asked::Phases),
    (1, 3, 4, Asked::OneMessage),
    (255, 16, 1, Asked::Cut),
    (7, 5, 1, Asked::Filled),
    (
        45,
        2,
        1,
        Asked::Begins(341, &[32, 33, 38, 40, 42], &[1, 1, 1, 1, 1]),
    ),
    (20, 4, 2, Asked::Begins(11, &[0, 1, 17, 19], &[1, 3, 1, 2])),
];

#[test]
fn plans_have_their_phases_blocks_and_steps(rt: HostRuntime) {
    for row in &PLANS {
        assert!(rt;
            is_planned(rt.alloc(), row.0, row.1, row.2, &row.3),
            "{} {}",
            row.0,
            row.1
        );
    }
}
