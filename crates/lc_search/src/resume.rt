//! A search that goes on from a record.
ghost use Rattle.std.specs.Prelude.{◌≡◌, ◌≢◌, ℕ, ◌*◌, ◌^◌, ◌≤◌, ◌<◌, ◌⊎◌, length, MatchResult};
ghost use Rattle.std.specs.Bool.{OnTrue, OnFalse};
ghost use Rattle.lc_search.specs.Resuming.{IsResumed, IsUnfit};
ghost use Rattle.lc_search.specs.declared.resume.ResumeRefusal.TheVariants as refusal;

use crate::answer::Best;
use crate::parts::{plan_of, sets_of, weight_at};
use crate::search::{Search, search_at};
use lc_code::Code;
use lc_enumeration::BLOCK;
use lc_field::NoMemory;
use std::alloc::Global;

/// Why no search goes on from a record.
#[derive(Clone, Copy, Debug, PartialEq, Eq, Drop)]
pub enum ResumeRefusal {
    /// The record doesn't fit the code.
    Unfit {
        /// The weight of the word at the record's place, 0 if there is no word.
        found: u64,
    },
    /// No memory is left.
    NoMemory,
}

impl From<NoMemory> for ResumeRefusal {
    ghost from_gives = { λ _ e. e ≡ refusal.NoMemory };

    fn from(_error: NoMemory) -> ResumeRefusal {
        ResumeRefusal::NoMemory
    }
}

// Whether the weight found is the one told, and the place is 0 or one of these blocks.
fn is_fit(blocks: u64, weight: u64, place: u64, found: u64) -> bool
    requires blocks { blocks ≤ 2 ^ 40 }
    ensures fit { OnTrue result ((found ≡ weight) × ((place ≡ 0) ⊎ (place < blocks * 4096))) }
    ensures unfit { OnFalse result ((found ≢ weight) ⊎ ((place ≢ 0) × (blocks * 4096 ≤ place))) }
{
    if found != weight {
        return false;
    }
    if place == 0 {
        return true;
    }
    place < blocks * BLOCK
}

impl Search {
    /// A search of the code that has done `blocks` blocks and has the word of `weight` at `place` for its best.
    ///
    /// The code has dimension at least 1, `budget` is at most 2^40, and `blocks` at most the budget. Refused with `Unfit`
    /// and the weight found unless the record fits: its place is 0 or below `blocks` times 4,096, there is a word, and it has
    /// this weight. That no lighter word is among these blocks is not tried.
    pub fn resume_at(
        alloc: Global,
        code: &Code,
        budget: u64,
        blocks: u64,
        weight: u64,
        place: u64,
    ) -> Result<Search, ResumeRefusal>
        requires dimension { 0 < length code.now.rows }
        requires budget { budget ≤ 2 ^ 40 }
        requires blocks { blocks ≤ budget }
        ensures resumed { MatchResult result (λ s. IsResumed code.now budget blocks weight place s)
            (λ e. IsUnfit code.now blocks weight place e) }
    {
        let sets = sets_of(alloc, code)?;
        let plan = plan_of(alloc, &sets)?;
        let found = match weight_at(alloc, &sets, &plan, place)? {
            Some(found) => found,
            None => return Err(ResumeRefusal::Unfit { found: 0 }),
        };
        if !is_fit(blocks, weight, place, found) {
            return Err(ResumeRefusal::Unfit { found });
        }
        let best = Best { weight, place };
        let search = search_at(alloc, sets, plan, budget, blocks, best)?;
        Ok(search)
    }
}
