//! The rounds of one search of a session.
ghost use Rattle.std.specs.Prelude.{◌≡◌, ◌+◌, ◌-◌, ◌^◌, ◌<◌, ◌≤◌, List, [], ◌++◌, ◌∷◌, length, map, All, true, false, Some, IfOk, None, OnOk, MatchResult};
ghost use Rattle.lc_enumeration.specs.Records.{SessionStep, found_of, is_used_up, last_state};
ghost use Rattle.lc_enumeration.specs.Search.{fits};
ghost use Rattle.lc_formats.specs.Checkpoint.{IsProgress};
ghost use Rattle.lc_checkpoint.specs.Seen.{settled_of};
ghost use Rattle.lc_search.specs.State.{answer_in, answer_of};
ghost use Rattle.lc_rounds.specs.Step.{next_step, after_step, after_next, IsSameSession, StopsAt};
ghost use Rattle.lc_rounds.specs.Way.{rounds_left, steps_left, Origin, IsOnItsWay, HasStopped, Went};
ghost use Rattle.lc_rounds.specs.Surroundings.{seen, seen_after};

use crate::keeping::{Unkept, has_bytes, keep_point};
use crate::pace::Pace;
use crate::round::do_round;
use crate::surroundings::Surroundings;
use lc_crew::Crew;
use lc_field::NoMemory;
use lc_io::{Gate, Vault, Watcher};
use lc_search::{Answer, Search, tell};
use std::thread::Threads;

/// Why a session stops before its search is answered.
#[derive(Clone, Copy, Debug, PartialEq, Eq)]
pub enum Stop {
    /// Checkpoints are kept, and a watcher answered Pause to the last record, or the slice is used up and a round would follow.
    Paused,
    /// The store of the next checkpoint failed.
    VaultFault,
    /// Memory was refused.
    NoMemory,
}

// Whether nothing is left of the slice.
#[tactic(auto, unfolding(lc_enumeration::specs::Records::is_used_up))]
fn is_used_up(slice: Option<u64>) -> bool
    ensures is { result ≡ is_used_up slice }
{
    match slice {
        Some(left) => left == 0,
        None => false,
    }
}

// Does a round of the search, stores its checkpoint, if the session keeps its checkpoints, and tells its record.
fn pass_round<R: Threads + Sync, V: Vault, W: Watcher, G: Gate + Sync>(
    crew: &Crew<'_, R, G>,
    surroundings: Surroundings<'_, V, W>,
    pace: &mut Pace,
    search: &mut Search,
) -> Result<(), Stop>
    requires budget { (search.old.budget ≤ 2 ^ 40) × (pace.old.point.budget ≡ search.old.budget) }
    requires fitting { fits search.old.code search.old.progress.blocks (found_of search.old.progress) ≡ true }
    requires going { answer_in search.old ≡ None }
    requires longest { (1 ≤ pace.old.longest) × (pace.old.longest ≤ 2 ^ 20) }
    requires left { is_used_up pace.old.slice ≡ false }
    requires version { pace.old.point.version ≡ 2 }
    requires turn { pace.old.point.turn ≤ 2 ^ 60 }
    requires few { length pace.old.point.settled.items < 70000 }
    requires settled { All (IsProgress search.old.budget) (map settled_of pace.old.point.settled.items) }
    requires room { pace.old.told + (search.old.budget - search.old.progress.blocks) < 2 ^ 64 }
    ensures goes { (o : Origin) (told : List SessionStep) →
        IsOnItsWay o told pace.old (seen V.Vault W.Watcher surroundings.entry) →
        MatchResult result (λ _. IsOnItsWay o (told ++ next_step pace.old search.old ∷ []) pace.new
        (seen_after V.Vault W.Watcher surroundings.exit))
        (λ stop. StopsAt o told (next_step pace.old search.old) pace.new
        (seen_after V.Vault W.Watcher surroundings.exit) stop) }
    ensures pace { OnOk result (pace.new ≡ after_step pace.old search.old) }
    ensures search { OnOk result (search.new ≡ after_next pace.old search.old) }
    ensures further { OnOk result ((search.old.progress.blocks < search.new.progress.blocks)
        × (search.new.progress.blocks ≤ search.old.budget)) }
    ensures same { IsSameSession pace.old pace.new × (search.new.code ≡ search.old.code)
        × (search.new.budget ≡ search.old.budget) }
    ensures onward { search.old.progress.blocks ≤ search.new.progress.blocks }
    ensures turn { pace.new.point.turn ≤ 2 ^ 60 }
    ensures fitting { fits search.new.code search.new.progress.blocks (found_of search.new.progress) ≡ true }
    ensures told { pace.new.told ≤ pace.old.told + (search.new.progress.blocks - search.old.progress.blocks) }
{
    let record = match do_round(crew, pace, search) {
        Ok(record) => record,
        Err(NoMemory) => return Err(Stop::NoMemory),
    };
    has_bytes(&pace.point.script);
    match keep_point(crew.alloc, surroundings.vault, pace.keep, &pace.point) {
        Ok(()) => {}
        Err(Unkept::VaultFault) => return Err(Stop::VaultFault),
        Err(Unkept::NoMemory) => return Err(Stop::NoMemory),
    }
    pace.count(record);
    let paused = tell(surroundings.watchers, &record);
    if pace.keep && paused {
        return Err(Stop::Paused);
    }
    Ok(())
}

/// Does the rounds of a search until it is answered. After each round its checkpoint is stored, if the session keeps its
/// checkpoints, and then its record is told to the watchers.
///
/// A round has 1 to 2^20 blocks at most. The search has the budget of the session's checkpoint, and its state fits its code.
/// Fewer than 70,000 needs are settled. The turn is at most 2^60.
pub fn search_need<R: Threads + Sync, V: Vault, W: Watcher, G: Gate + Sync>(
    crew: &Crew<'_, R, G>,
    surroundings: Surroundings<'_, V, W>,
    pace: &mut Pace,
    search: &mut Search,
) -> Result<Answer, Stop>
    requires budget { (search.old.budget ≤ 2 ^ 40) × (pace.old.point.budget ≡ search.old.budget) }
    requires fitting { fits search.old.code search.old.progress.blocks (found_of search.old.progress) ≡ true }
    requires version { pace.old.point.version ≡ 2 }
    requires turn { pace.old.point.turn ≤ 2 ^ 60 }
    requires few { length pace.old.point.settled.items < 70000 }
    requires settled { All (IsProgress search.old.budget) (map settled_of pace.old.point.settled.items) }
    requires room { pace.old.told + search.old.budget < 2 ^ 64 }
    requires longest { (1 ≤ pace.old.longest) × (pace.old.longest ≤ 2 ^ 20) }
    requires slice { pace.old.keep ≡ false → pace.old.slice ≡ None }
    ensures goes { (o : Origin) (before : List SessionStep) →
        IsOnItsWay o before pace.old (seen V.Vault W.Watcher surroundings.entry) →
        Went before (steps_left pace.old search.old)
        (λ told left. MatchResult result
        (λ _. (left ≡ []) × ((rounds_left pace.old search.old).is_stopped ≡ false)
        × IsOnItsWay o told pace.new (seen_after V.Vault W.Watcher surroundings.exit))
        (λ stop. HasStopped o told left (rounds_left pace.old search.old).is_stopped pace.new
        (seen_after V.Vault W.Watcher surroundings.exit) stop)) }
    ensures answer { IfOk result (λ a. answer_in search.new ≡ Some (answer_of a)) }
    ensures state { IfOk result (λ _. search.new.progress
        ≡ last_state search.old.progress (rounds_left pace.old search.old).states) }
    ensures search { (search.new.code ≡ search.old.code) × (search.new.budget ≡ search.old.budget) }
    ensures fitting { fits search.new.code search.new.progress.blocks (found_of search.new.progress) ≡ true }
    ensures slice { IfOk result (λ _. pace.new.slice ≡ (rounds_left pace.old search.old).left) }
    ensures longest { pace.new.longest ≡ pace.old.longest }
    ensures pace { (pace.new.keep ≡ pace.old.keep)
        × (pace.new.told ≤ pace.old.told + (search.new.progress.blocks - search.old.progress.blocks)) }
    ensures point { (pace.new.point.version ≡ 2) × (pace.new.point.script ≡ pace.old.point.script)
        × (pace.new.point.budget ≡ pace.old.point.budget) × (pace.new.point.settled ≡ pace.old.point.settled)
        × (pace.new.point.turn ≤ 2 ^ 60) }
{
    let Surroundings { vault, watchers } = surroundings;
    loop {
        if let Some(answer) = search.finished() {
            return Ok(answer);
        }
        if is_used_up(pace.slice) {
            return Err(Stop::Paused);
        }
        match pass_round(crew, Surroundings { vault, watchers }, pace, search) {
            Ok(()) => {}
            Err(stop) => return Err(stop),
        }
    }
}
