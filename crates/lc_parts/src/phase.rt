//! What a search knows at its next block.

ghost use Rattle.std.specs.Prelude.{◌≡◌, ℕ, ◌+◌, ◌-◌, ◌^◌, ◌<◌, ◌≤◌, min, length, slice_index};
ghost use Rattle.lc_enumeration.specs.Plan.{total};
ghost use Rattle.lc_enumeration.specs.Search.{bound_sum};
ghost use Rattle.lc_parts.specs.Part.{Facts as SeenFacts};
ghost use Rattle.lc_parts.specs.Along.{end_by, is_answered};
ghost use Rattle.lc_parts.specs.Joined.{AreUsable};
ghost use Rattle.lc_parts.specs.Levels.{level_in, levels_in, bound_in, plan_by};
ghost use Rattle.lc_parts.specs.Seen.{facts_seen};

use crate::part::Facts;
use lc_place::Plan;

// The last level of set j that is done, if the next block is in a phase of this level and this set.
fn level_of(level: usize, set: usize, j: usize) -> u64
    requires level { 1 ≤ level }
    ensures is { result ≡ level_in level set j }
    ensures most { result ≤ level }
{
    if j < set {
        level as u64
    } else {
        level as u64 - 1
    }
}

// What the level of a set gives to the bound: level + 1 - (k - fresh columns), where that is positive.
fn least_on(k: u64, rank: u64, level: u64) -> u64
    requires level { level ≤ 255 }
    ensures is { result ≡ (level + 1) - (k - rank) }
    ensures few { result ≤ 256 }
{
    (level + 1).saturating_sub(k.saturating_sub(rank))
}

// The sum over the sets of level + 1 - (k - fresh columns), where that is positive, if the next block is in a phase of this level
// and this set.
#[tactic(auto, using(crate::proofs::BoundLaws::sum_laws))]
fn sum_of(facts: &Facts, level: usize, set: usize) -> u64
    requires level { (1 ≤ level) × (level ≤ 255) }
    requires sets { length facts.now.ranks.items ≤ 255 }
    ensures is { result ≡ bound_sum facts.now.k facts.now.ranks.items
        (levels_in level set (length facts.now.ranks.items)) }
    ensures few { result < 2 ^ 17 }
{
    let mut sum = 0;
    for j in 0..facts.ranks.len() {
        sum += least_on(facts.k, facts.ranks[j], level_of(level, set, j));
    }
    sum
}

// The bound if the next block is in a phase of this level and this set.
fn bound_of(facts: &Facts, level: usize, set: usize, weight: u64) -> u64
    requires facts { AreUsable (facts_seen facts.now) }
    requires level { (1 ≤ level) × (level ≤ facts.now.k) }
    requires set { set < length facts.now.ranks.items }
    ensures is { result ≡ bound_in (facts_seen facts.now) level set weight }
{
    if level as u64 == facts.k && set > 0 {
        return weight;
    }
    let least = sum_of(facts, level, set).max(1);
    (least + (facts.divisor - 1)) / facts.divisor * facts.divisor
}

/// Whether a search is answered after so many blocks with a word of this weight, wherever it is. The plan is that of the facts.
pub(crate) fn is_answered_at(
    facts: &Facts,
    plan: &Plan,
    budget: u64,
    blocks: u64,
    weight: u64,
) -> bool
    requires facts { AreUsable (facts_seen facts.now) }
    requires plan { plan.now ≡ plan_by (facts_seen facts.now) }
    requires budget { (budget ≤ 2 ^ 40) × (blocks ≤ budget) }
    ensures is { (place : ℕ) → result ≡ is_answered (facts_seen facts.now) budget (record {
      blocks = blocks;
      weight = weight;
      place = place;
    }) }
{
    if blocks == budget {
        return true;
    }
    if blocks >= plan.total() {
        return true;
    }
    let phase = plan.phase_of(blocks);
    if phase.start != blocks {
        return false;
    }
    weight <= bound_of(facts, phase.level, phase.set, weight)
}

/// The end of the phase of a block below the plan's total, or the budget if that is less.
pub(crate) fn end_within(plan: &Plan, budget: u64, block: u64) -> u64
    requires inside { block < total plan.now.k plan.now.q plan.now.m }
    requires budget { block < budget }
    ensures is { (f : SeenFacts) → plan.now ≡ plan_by f → result ≡ min (end_by f block) budget }
    ensures more { block < result }
    ensures few { result ≤ budget }
{
    plan.phase_end(block).min(budget)
}
