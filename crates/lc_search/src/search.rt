//! A search for the minimum distance of a code.
ghost use Rattle.std.specs.Prelude.{◌≡◌, ℕ, ◌+◌, ◌^◌, ◌≤◌, ◌<◌, length, All, Some, None, true, IfOk, OnErr, option_map, is_some};
ghost use Rattle.lc_algebra.specs.Divisor.{divisor_of};
ghost use Rattle.lc_enumeration.specs.Search.{set_count, level_below, bound, word_at as word_at_place};
ghost use Rattle.lc_enumeration.specs.Records.{default_round, round_length};
ghost use Rattle.lc_enumeration.specs.Plan.{total};
ghost use Rattle.lc_algebra.specs.Field.{size};
ghost use Rattle.lc_search.specs.State.{SearchState, first_state, answer_in, answer_of, whole_plan, after_search_round, IsRecordOf};

use crate::answer::{Answer, Best, RoundRecord};
use crate::blocks::SearchBlocks;
use crate::level::{may_be_exact, put_levels};
use crate::parts::{bound_of_levels, plan_of, sets_of, weight_at};
use crate::round::find_in_round;
use lc_code::Code;
use lc_crew::Crew;
use lc_field::NoMemory;
use lc_infoset::Sets;
use lc_io::Gate;
use lc_kernel::{Scratch, word_at};
use lc_place::Plan;
use lc_vec::Word;
use std::alloc::Global;
use std::marker::Model;
use std::thread::Threads;

// At most so many blocks are done in one round, unless another longest round is asked for.
const DEFAULT_ROUND: u64 = 256;

/// A search for the minimum distance of a code by the method of Brouwer and Zimmermann (Grassl, Searching for linear codes
/// with large minimum distance). It does the blocks of its plan one after the other, in rounds, up to its budget.
///
/// Contracts see it as its code, its budget, and how far it is: the blocks done, and the weight and the place of the best word.
#[derive(Drop)]
pub struct Search {
    sets: Sets,
    plan: Plan,
    budget: u64,
    blocks: u64,
    best: Best,
    // the last level of each set that is done wholly
    levels: Vec<u64>,
    // what the workers of earlier rounds worked in
    spare: Vec<Scratch>,
}

impl Model for Search {
    ghost use Rattle.std.specs.Prelude.{◌≡◌, All};
    ghost use Rattle.lc_search.specs.State.{SearchState, IsKept};

    ghost Value = { SearchState };

    ghost view = { λ s. record { code = s.sets; budget = s.budget; progress = record { blocks = s.blocks; weight = s.best.weight; place = s.best.place } } };

    ghost invariant = { λ s. IsKept s.sets s.plan s.budget (record { blocks = s.blocks; weight = s.best.weight; place = s.best.place }) s.levels.items × All (λ c. c ≡ s.sets) s.spare.items };
}

/// A search after so many blocks with this best word.
pub(crate) fn search_at(
    alloc: Global,
    sets: Sets,
    plan: Plan,
    budget: u64,
    blocks: u64,
    best: Best,
) -> Result<Search, NoMemory>
    requires plan { plan ≡ whole_plan sets }
    requires budget { (budget ≤ 2 ^ 40) × (blocks ≤ budget) }
    requires word { (best.weight ≤ 255) × (best.place < 2 ^ 52) }
    ensures is { IfOk result (λ s. s ≡ record {
      code = sets;
      budget = budget;
      progress = record {
        blocks = blocks;
        weight = best.weight;
        place = best.place;
      };
    }) }
{
    let mut levels = vec![in alloc; 0u64; sets.count()]?;
    put_levels(&sets, &plan, blocks, &mut levels);
    Ok(Search {
        sets,
        plan,
        budget,
        blocks,
        best,
        levels,
        spare: Vec::new(alloc),
    })
}

impl Search {
    /// A search that has done no block of the code; its best word is the one at place 0. The code has dimension at least 1.
    /// `budget` is a number of blocks, at most 2^40.
    #[tactic(auto, using(crate::proofs::StateLaws::start_laws))]
    pub fn start(alloc: Global, code: &Code, budget: u64) -> Result<Search, NoMemory>
        requires dimension { 0 < length code.now.rows }
        requires budget { budget ≤ 2 ^ 40 }
        ensures first { IfOk result (λ s. s ≡ first_state code.now budget) }
    {
        let sets = sets_of(alloc, code)?;
        let plan = plan_of(alloc, &sets)?;
        let Some(weight) = weight_at(alloc, &sets, &plan, 0)? else {
            unreachable!()
        };
        let best = Best { weight, place: 0 };
        let search = search_at(alloc, sets, plan, budget, 0, best)?;
        Ok(search)
    }

    /// The information sets of the code.
    pub fn sets(&self) -> &Sets
        ensures is { result.now ≡ self.now.code }
    {
        &self.sets
    }

    /// The last level of set `set` whose messages are all done, 0 if there is none. Sets are counted from 0, and there is such
    /// a set.
    #[tactic(auto, using(crate::proofs::StateLaws::level_of_laws))]
    pub fn level_of(&self, set: usize) -> u64
        requires set { set < set_count self.now.code }
        ensures is { result ≡ level_below self.now.code self.now.progress.blocks set }
    {
        self.levels[set]
    }

    /// The word at a place: its block times 4,096 plus its offset in the block. There is one.
    #[tactic(auto, using(crate::proofs::StateLaws::plan_for))]
    pub fn word(&self, alloc: Global, place: u64) -> Result<Word, NoMemory>
        requires word { is_some (word_at_place self.now.code (set_count self.now.code) place) ≡ true }
        ensures at { IfOk result (λ w. word_at_place self.now.code (set_count self.now.code) place ≡ Some w) }
    {
        let _some = self.sets.count();
        let Some(word) = word_at(alloc, &self.sets, &self.plan, place)? else {
            unreachable!()
        };
        Ok(word)
    }

    // The bound after the blocks that are done: each nonzero codeword of which no multiple was seen in them has at least this
    // weight.
    #[tactic(auto, using(crate::proofs::StateLaws::bound_laws))]
    fn bound(&self) -> u64
        ensures is { result ≡ bound (divisor_of self.now.code) self.now.code self.now.progress.blocks
            self.now.progress.weight }
    {
        bound_of_levels(&self.sets, &self.levels, self.best.weight)
    }

    /// What the search answers: the weight of the best word, as the minimum distance, if the bound after some whole phases has
    /// reached it; else, if the budget is used up, the bracket from the bound to this weight. None if the search goes on. It takes
    /// no memory.
    pub fn finished(&self) -> Option<Answer>
        ensures is { option_map answer_of result ≡ answer_in self.now }
    {
        let low = self.bound();
        if may_be_exact(&self.sets, &self.plan, self.blocks) && self.best.weight <= low {
            return Some(Answer::Exact {
                weight: self.best.weight,
                place: self.best.place,
                blocks: self.blocks,
            });
        }
        if self.blocks == self.budget {
            return Some(Answer::Bracket {
                low,
                weight: self.best.weight,
                place: self.best.place,
                blocks: self.blocks,
            });
        }
        None
    }

    // How many blocks a round does, if the search goes on: what is left of the phase, of the budget and of the limit, and no
    // more than the longest one.
    fn length_of_round(&self, longest: u64, limit: u64) -> u64
        requires going { answer_in self.now ≡ None }
        requires longest { 1 ≤ longest }
        requires limit { 1 ≤ limit }
        ensures is { result ≡ round_length self.now.code self.now.budget longest (Some limit)
            self.now.progress.blocks }
        ensures some { 1 ≤ result }
        ensures few { result ≤ longest }
        ensures limited { result ≤ limit }
        ensures inside { self.now.progress.blocks + result ≤ total (length self.now.code.rows)
            (size self.now.code.field) (set_count self.now.code) }
        ensures within { self.now.progress.blocks + result ≤ self.now.budget }
    {
        let _some = self.sets.dimension();
        let left = self.plan.phase_end(self.blocks) - self.blocks;
        limit.min(longest.min(left.min(self.budget - self.blocks)))
    }

    // Goes on by so many blocks, after which this is the best word.
    fn move_on(&mut self, done: u64, best: Best)
        requires blocks { self.old.progress.blocks + done ≤ self.old.budget }
        requires word { (best.weight ≤ 255) × (best.place < 2 ^ 52) }
        ensures is { self.new ≡ record {
          code = self.old.code;
          budget = self.old.budget;
          progress = record {
            blocks =
                self.old.progress.blocks + done;
            weight = best.weight;
            place = best.place;
          };
        } }
    {
        self.blocks += done;
        self.best = best;
        put_levels(&self.sets, &self.plan, self.blocks, &mut self.levels);
    }

    /// Does the next blocks: as many as are left of the phase, of the budget and of `limit`, at most 256, by so many workers, or
    /// by fewer where there are few blocks. Afterwards the best word is the least of the one before and of the words of these blocks.
    ///
    /// The search isn't finished, there are 1 to 256 workers, and the limit is at least 1. Workers are numbered from 0; each
    /// passes the gate before each of its reports. One worker starts no thread. All memory is taken before the first claim; if
    /// there is none, the search is as before.
    #[tactic(auto, unfolding(lc_enumeration::specs::Records::default_round))]
    pub fn round<R: Threads + Sync, G: Gate + Sync>(
        &mut self,
        rt: &R,
        alloc: Global,
        workers: u32,
        limit: u64,
        gate: &G,
    ) -> Result<RoundRecord, NoMemory>
        requires going { answer_in self.old ≡ None }
        requires workers { (1 ≤ workers) × (workers ≤ 256) }
        requires limit { 1 ≤ limit }
        ensures state { IfOk result (λ _. self.new ≡ after_search_round self.old default_round limit) }
        ensures record { IfOk result (λ r. IsRecordOf self.new
            (round_length self.old.code self.old.budget default_round (Some limit) self.old.progress.blocks) r) }
        ensures kept { (self.new.code ≡ self.old.code) × (self.new.budget ≡ self.old.budget) }
        ensures more { IfOk result (λ r. (1 ≤ r.done) × (r.done ≤ limit)
            × (self.new.progress.blocks ≡ self.old.progress.blocks + r.done)
            × (self.new.progress.blocks ≤ self.new.budget)) }
        ensures no_memory { OnErr result (self.new ≡ self.old) }
    {
        let crew = Crew {
            rt,
            alloc,
            workers,
            gate,
        };
        self.round_within(&crew, DEFAULT_ROUND, limit)
    }

    /// Does the next blocks as `round` does, by the workers of a crew, in a round of at most `longest` blocks, which is 1 to 2^20.
    ///
    /// The search isn't finished, and the limit is at least 1. Workers are numbered from 0; each passes the gate before each of
    /// its reports. One worker starts no thread. All memory is taken before the first claim; if there is none, the search is as
    /// before.
    pub fn round_within<R: Threads + Sync, G: Gate + Sync>(
        &mut self,
        crew: &Crew<'_, R, G>,
        longest: u64,
        limit: u64,
    ) -> Result<RoundRecord, NoMemory>
        requires going { answer_in self.old ≡ None }
        requires longest { (1 ≤ longest) × (longest ≤ 2 ^ 20) }
        requires limit { 1 ≤ limit }
        ensures state { IfOk result (λ _. self.new ≡ after_search_round self.old longest limit) }
        ensures record { IfOk result (λ r. IsRecordOf self.new
            (round_length self.old.code self.old.budget longest (Some limit) self.old.progress.blocks) r) }
        ensures kept { (self.new.code ≡ self.old.code) × (self.new.budget ≡ self.old.budget) }
        ensures more { IfOk result (λ r. (1 ≤ r.done) × (r.done ≤ limit)
            × (self.new.progress.blocks ≡ self.old.progress.blocks + r.done)
            × (self.new.progress.blocks ≤ self.new.budget)) }
        ensures no_memory { OnErr result (self.new ≡ self.old) }
    {
        let done = self.length_of_round(longest, limit);
        let planned = SearchBlocks {
            sets: &self.sets,
            plan: &self.plan,
        };
        let (start, spare) = (self.blocks, &mut self.spare);
        let found = find_in_round(crew, &planned, start, done, self.best, spare)?;
        self.move_on(done, found.best);
        Ok(RoundRecord {
            blocks: self.blocks,
            bound: self.bound(),
            best: self.best.weight,
            done,
            closed: found.closed,
        })
    }
}
