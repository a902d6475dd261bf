//! One round of a session's search.
ghost use Rattle.std.specs.Prelude.{◌≡◌, ℕ, ◌+◌, ◌^◌, ◌<◌, ◌≤◌, List, length, true, false, Some, None, Option, IfOk, IfSome, OnErr};
ghost use Rattle.lc_algebra.specs.Matrix.{Matrix};
ghost use Rattle.lc_enumeration.specs.Records.{Progress, found_of, is_used_up, less_slice, round_length};
ghost use Rattle.lc_enumeration.specs.Search.{fits};
ghost use Rattle.lc_formats.specs.Checkpoint.{IsProgress};
ghost use Rattle.lc_search.specs.State.{answer_in};
ghost use Rattle.lc_session_rules.specs.Session.{record_of};
ghost use Rattle.lc_rounds.specs.Step.{next_state, after_next, next_step, IsDone, at_round};

use crate::pace::Pace;
use lc_crew::Crew;
use lc_enumeration::PLACES;
use lc_field::NoMemory;
use lc_io::{Gate, Record};
use lc_search::{RoundRecord, Search};
use std::thread::Threads;

// How many blocks the next round may do at most.
#[tactic(auto, using(crate::proofs::SliceLaws::limit_of_laws))]
fn limit_of(longest: u64, slice: Option<u64>) -> u64
    requires longest { 1 ≤ longest }
    requires left { is_used_up slice ≡ false }
    ensures some { 1 ≤ result }
    ensures within { IfSome slice (λ left. result ≤ left) }
    ensures is { (C : Matrix) (budget l : ℕ) →
        round_length C budget longest (Some result) l ≡ round_length C budget longest slice l }
{
    match slice {
        Some(left) => left,
        None => longest,
    }
}

// What is left of the slice after so many blocks.
#[tactic(auto, unfolding(lc_enumeration::specs::Records::less_slice))]
fn left_of(slice: Option<u64>, done: u64) -> Option<u64>
    requires within { IfSome slice (λ left. done ≤ left) }
    ensures is { result ≡ less_slice slice done }
{
    match slice {
        Some(left) => Some(left - done),
        None => None,
    }
}

// Does the next round of the search.
fn next_round<R: Threads + Sync, G: Gate + Sync>(
    crew: &Crew<'_, R, G>,
    pace: &Pace,
    search: &mut Search,
) -> Result<RoundRecord, NoMemory>
    requires budget { search.old.budget ≤ 2 ^ 40 }
    requires fitting { fits search.old.code search.old.progress.blocks (found_of search.old.progress) ≡ true }
    requires going { answer_in search.old ≡ None }
    requires longest { (1 ≤ pace.now.longest) × (pace.now.longest ≤ 2 ^ 20) }
    requires left { is_used_up pace.now.slice ≡ false }
    ensures done { IfOk result (λ r. IsDone pace.now search.old search.new r) }
    ensures short { IfOk result (λ r. IfSome pace.now.slice (λ left. r.done ≤ left)) }
    ensures no_memory { OnErr result (search.new ≡ search.old) }
{
    let sets = search.sets();
    let _dimension = sets.dimension();
    let _length = sets.length();
    let limit = limit_of(pace.longest, pace.slice);
    let round = search.round_within(crew, pace.longest, limit)?;
    Ok(round)
}

/// Does the next round of the search, and puts into the next checkpoint where the search is then. Returns the record of the
/// round.
#[tactic(auto, using(crate::proofs::DoneLaws::note_is, crate::proofs::DoneLaws::pace_is))]
pub(crate) fn do_round<R: Threads + Sync, G: Gate + Sync>(
    crew: &Crew<'_, R, G>,
    pace: &mut Pace,
    search: &mut Search,
) -> Result<Record, NoMemory>
    requires budget { search.old.budget ≤ 2 ^ 40 }
    requires fitting { fits search.old.code search.old.progress.blocks (found_of search.old.progress) ≡ true }
    requires going { answer_in search.old ≡ None }
    requires longest { (1 ≤ pace.old.longest) × (pace.old.longest ≤ 2 ^ 20) }
    requires left { is_used_up pace.old.slice ≡ false }
    ensures search { IfOk result (λ _. search.new ≡ after_next pace.old search.old) }
    ensures further { IfOk result (λ _. search.old.progress.blocks < search.new.progress.blocks) }
    ensures progress { IfOk result (λ _. IsProgress search.old.budget (next_state pace.old search.old)) }
    ensures fitting { IfOk result (λ _. fits search.new.code search.new.progress.blocks (found_of search.new.progress)
        ≡ true) }
    ensures record { IfOk result (λ r. r ≡ record_of (next_step pace.old search.old).note) }
    ensures pace { IfOk result (λ _. pace.new ≡ at_round pace.old search.old) }
    ensures no_memory { OnErr result ((search.new ≡ search.old) × (pace.new ≡ pace.old)) }
{
    let round = next_round(crew, pace, search)?;
    pace.slice = left_of(pace.slice, round.done);
    pace.point.blocks = round.blocks;
    pace.point.weight = round.best;
    pace.point.place = round.closed.best() % PLACES;
    Ok(Record {
        query: pace.point.settled.len() as u64,
        blocks: round.blocks,
        bound: round.bound,
        best: round.best,
    })
}
