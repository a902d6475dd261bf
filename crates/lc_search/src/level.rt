//! Which levels are done after some blocks, and whether a search may end there.
ghost use Rattle.std.specs.Prelude.{◌≡◌, ℕ, ◌+◌, ◌-◌, ◌*◌, ◌≤◌, ◌<◌, ◌⊎◌, length, cond, nat_lt};
ghost use Rattle.lc_enumeration.specs.Search.{set_count, level_below, levels_below, may_end};
ghost use Rattle.lc_search.specs.State.{whole_plan};
ghost use Rattle.lc_search.specs.Levels.{IsOpenAt};

use lc_enumeration::CUT;
use lc_infoset::Sets;
use lc_place::Plan;

// The first phase that isn't done wholly after so many blocks: its level and its set. The level after the last one if all are.
fn open_phase(plan: &Plan, dimension: usize, blocks: u64) -> (usize, usize)
    requires dimension { (dimension ≡ plan.now.k) × (dimension ≤ 255) }
    requires sets { 1 ≤ plan.now.m }
    ensures level { (1 ≤ result.0) × (result.0 ≤ plan.now.k + 1) }
    ensures set { result.1 < plan.now.m }
    ensures listed { (result.0 ≤ plan.now.k) ⊎ (result.1 ≡ 0) }
    ensures first { IsOpenAt plan.now.k plan.now.q plan.now.m blocks ((result.0 - 1) * plan.now.m + result.1) }
{
    let total = plan.total();
    if blocks >= total && total < CUT {
        return (dimension + 1, 0);
    }
    let phase = plan.phase_of(blocks.min(total - 1));
    (phase.level, phase.set)
}

// The last level of set j that is done wholly, if the first phase that isn't is of this level and this set.
fn level_of(level: usize, set: usize, j: usize) -> u64
    requires level { 1 ≤ level }
    ensures before { j < set → result ≡ level }
    ensures after { set ≤ j → result + 1 ≡ level }
{
    if j < set {
        level as u64
    } else {
        level as u64 - 1
    }
}

/// Puts the last level of each set that is done wholly after so many blocks at the set's place, 0 if none is. There is room for
/// all sets, and the plan goes through them.
#[tactic(auto, using(crate::proofs::LevelLaws::put_levels_laws))]
pub(crate) fn put_levels(sets: &Sets, plan: &Plan, blocks: u64, levels: &mut [u64])
    requires plan { plan.now ≡ whole_plan sets.now }
    requires room { length levels.old ≡ set_count sets.now }
    ensures are { levels.new ≡ levels_below sets.now blocks }
{
    let _most = sets.length();
    let _least = sets.count();
    let (level, set) = open_phase(plan, sets.dimension(), blocks);
    for j in 0..levels.len() {
        levels[j] = level_of(level, set, j);
    }
}

/// Whether a search may be exact after so many blocks: no block is done, or a phase ends there, or the plan, which isn't cut.
/// The plan goes through all sets.
pub(crate) fn may_be_exact(sets: &Sets, plan: &Plan, blocks: u64) -> bool
    requires plan { plan.now ≡ whole_plan sets.now }
    ensures is { result ≡ may_end sets.now blocks }
{
    let _some = sets.dimension();
    let _least = sets.count();
    if blocks == 0 {
        return true;
    }
    if blocks >= plan.total() {
        return plan.total() < CUT;
    }
    plan.phase_of(blocks).start == blocks
}
