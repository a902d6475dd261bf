//! Parts that are joined, one after another.

ghost use Rattle.std.specs.Prelude.{◌≡◌, ◌+◌, ◌^◌, ◌<◌, ◌≤◌, ◌↔◌, true, false, nat_le, nat_lt, ◌&&◌, IfOk};
ghost use Rattle.std.specs.Bool.{OnTrue};
ghost use Rattle.lc_enumeration.specs.Search.{beats};
ghost use Rattle.lc_parts.specs.Part.{part_end, found_in};
ghost use Rattle.lc_parts.specs.Along.{is_answered, end_wanted, continues};
ghost use Rattle.lc_parts.specs.Joined.{AreUsable, first_state, with_line};
ghost use Rattle.lc_parts.specs.Seen.{part_of, facts_seen};

use crate::part::{Facts, Part};
use crate::phase::{end_within, is_answered_at};
use lc_place::{NoMemory, Plan};
use std::alloc::Global;
use std::marker::Model;

/// The first search of a script, as far as the parts that were taken bring it.
///
/// Contracts see it as a `JoinState`: the digest of the script, the facts of the search, the budget, and how far the search is. It
/// keeps this one state, however many parts it takes.
#[derive(Drop)]
pub struct Joined {
    script: [u8; 32],
    facts: Facts,
    budget: u64,
    plan: Plan,
    blocks: u64,
    weight: u64,
    place: u64,
}

impl Model for Joined {
    ghost use Rattle.lc_parts.specs.Joined.{JoinState, IsKept};
    ghost use Rattle.lc_parts.specs.Seen.{part_of, facts_seen};

    ghost Value = { JoinState };

    ghost view = { λ s. record { script = s.script; facts = facts_seen s.facts; budget = s.budget; progress = record { blocks = s.blocks; weight = s.weight; place = s.place } } };

    ghost invariant = { λ s. IsKept (facts_seen s.facts) s.plan s.budget s.blocks };
}

impl Joined {
    /// The search of these facts, before its first part: no block is done, and its word is the one at place 0.
    ///
    /// `script` is the SHA-256 of the script, and `budget` a number of blocks, at most 2^40. Fails if memory runs out.
    #[tactic(auto, unfolding(crate::specs::Joined::first_state, crate::specs::Along::first_by))]
    pub fn start(
        alloc: Global,
        script: [u8; 32],
        facts: Facts,
        budget: u64,
    ) -> Result<Joined, NoMemory>
        requires facts { AreUsable (facts_seen facts) }
        requires budget { budget ≤ 2 ^ 40 }
        ensures is { IfOk result (λ s. s ≡ first_state script (facts_seen facts) budget) }
    {
        let plan = Plan::build(alloc, facts.k as usize, facts.q, facts.ranks.len())?;
        let weight = facts.first;
        Ok(Joined {
            script,
            facts,
            budget,
            plan,
            blocks: 0,
            weight,
            place: 0,
        })
    }

    /// The digest of the script.
    pub fn script(&self) -> &[u8; 32]
        ensures is { result.now ≡ self.now.script }
    {
        &self.script
    }

    /// The facts of the search.
    pub fn facts(&self) -> &Facts
        ensures is { facts_seen result.now ≡ self.now.facts }
    {
        &self.facts
    }

    /// How many blocks are joined.
    pub fn blocks(&self) -> u64
        ensures is { result ≡ self.now.progress.blocks }
        ensures few { result ≤ self.now.budget }
    {
        self.blocks
    }

    /// The weight of the least word in them.
    pub fn weight(&self) -> u64
        ensures is { result ≡ self.now.progress.weight }
    {
        self.weight
    }

    /// The place of this word.
    pub fn place(&self) -> u64
        ensures is { result ≡ self.now.progress.place }
    {
        self.place
    }

    /// Whether the search is answered: exactly, at the beginning or at the end of a phase, or by the end of the budget. It takes no
    /// memory.
    pub fn is_answered(&self) -> bool
        ensures is { result ≡ is_answered self.now.facts self.now.budget self.now.progress }
    {
        is_answered_at(
            &self.facts,
            &self.plan,
            self.budget,
            self.blocks,
            self.weight,
        )
    }

    /// How far the part may reach that is taken next: to the end of the phase of the next block, and no farther than the budget.
    /// The search isn't answered.
    pub fn wanted(&self) -> u64
        requires going { is_answered self.now.facts self.now.budget self.now.progress ≡ false }
        ensures is { result ≡ end_wanted self.now.facts self.now.budget self.now.progress }
        ensures more { self.now.progress.blocks < result }
        ensures few { result ≤ self.now.budget }
    {
        end_within(&self.plan, self.budget, self.blocks)
    }

    // Whether a part goes on from here. The search isn't answered.
    fn goes_on(&self, part: &Part) -> bool
        requires going { is_answered self.now.facts self.now.budget self.now.progress ≡ false }
        ensures is { result ≡ continues self.now.facts self.now.budget self.now.progress (part_of part.now) }
        ensures within { OnTrue result (part.now.start + part.now.count ≤ self.now.budget) }
    {
        let wanted = self.wanted();
        reaches(part, self.blocks, wanted)
    }

    /// Whether a line is of this search: it names this script and these facts.
    pub fn is_of(&self, script: &[u8; 32], facts: &Facts) -> bool
        ensures is { (result ≡ true) ↔ ((script.now ≡ self.now.script) × (facts_seen facts.now ≡ self.now.facts)) }
    {
        self.script == *script && are_same(&self.facts, facts)
    }

    /// Takes one more part. If the search isn't answered, and the part has the next block and reaches no farther than it may, the
    /// search goes to the part's end, with the lesser of both words; else the part is passed over.
    pub fn take(&mut self, part: Part)
        ensures is { self.new ≡ with_line self.old (part_of part) }
    {
        if self.is_answered() {
            return;
        }
        if !self.goes_on(&part) {
            return;
        }
        self.blocks = part.start + part.count;
        if is_lesser(&part, self.weight, self.place) {
            self.weight = part.weight;
            self.place = part.place;
        }
    }
}

// Whether two searches have the same facts.
fn are_same(facts: &Facts, others: &Facts) -> bool
    ensures is { (result ≡ true) ↔ (facts_seen others.now ≡ facts_seen facts.now) }
{
    facts.k == others.k
        && facts.q == others.q
        && facts.divisor == others.divisor
        && facts.first == others.first
        && facts.ranks.as_slice() == others.ranks.as_slice()
}

// Whether a part has a block, and ends at most at a number of blocks beyond it.
#[tactic(auto, unfolding(crate::specs::Part::part_end))]
fn reaches(part: &Part, block: u64, most: u64) -> bool
    requires more { block < most }
    ensures is { result ≡ (nat_le part.now.start block && (nat_lt block (part_end (part_of part.now))
        && nat_le (part_end (part_of part.now)) most)) }
    ensures within { OnTrue result (part.now.start + part.now.count ≤ most) }
{
    if part.start > block {
        return false;
    }
    let done = block - part.start;
    part.count > done && part.count - done <= most - block
}

// Whether the word of a part beats a word of this weight at this place.
#[tactic(auto, unfolding(lc_enumeration::specs::Search::beats, crate::specs::Part::found_in))]
fn is_lesser(part: &Part, weight: u64, place: u64) -> bool
    ensures is { result ≡ beats (found_in (part_of part.now)) (record { weight = weight; place = place }) }
{
    part.weight < weight || part.weight == weight && part.place < place
}
