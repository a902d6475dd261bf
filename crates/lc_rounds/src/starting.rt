//! A session at the first statement of its script.
ghost use Rattle.std.specs.Prelude.{◌≡◌, ◌≤◌, ◌<◌, ◌^◌, [], map, true, false, None, is_some, IfSome};
ghost use Rattle.lc_formats.specs.Checkpoint.{IsInRange, current_of};
ghost use Rattle.lc_checkpoint.specs.Seen.{point_of, settled_of};
ghost use Rattle.lc_session_rules.specs.Slots.{next_turn};
ghost use Rattle.lc_rounds.specs.Way.{Around};
ghost use Rattle.lc_session_rules.specs.Course.{afresh, after};
ghost use Rattle.lc_rounds.specs.Going.{IsRanged, Goes, started};

use crate::course::Course;
use crate::pace::{Pace, following_turn};
use lc_checkpoint::{Checkpoint, Settled};
use lc_io::Record;
use std::alloc::Global;

// A record that no one is told.
fn no_record() -> Record {
    Record {
        query: 0,
        blocks: 0,
        bound: 0,
        best: 0,
    }
}

/// A session that starts afresh, with this budget of blocks for each search, rounds of at most `longest` blocks, and this slice if
/// it has one, of at least one block. `script` is the SHA-256 of its script.
///
/// The budget is at most 2^40, and `longest` is 1 to 2^20. There is a slice only if checkpoints are kept.
pub fn afresh(
    alloc: Global,
    keep: bool,
    longest: u64,
    slice: Option<u64>,
    budget: u64,
    script: [u8; 32],
) -> Course
    requires budget { budget ≤ 2 ^ 40 }
    requires longest { (1 ≤ longest) × (longest ≤ 2 ^ 20) }
    requires slice { IfSome slice (λ n. 0 < n) }
    requires kept { keep ≡ false → slice ≡ None }
    ensures ranged { IsRanged result }
    ensures unmet { result.met ≡ 0 }
    ensures fresh { is_some result.current ≡ false }
    ensures starts { (now : Around) → Goes (started afresh budget longest slice keep script 0 now) [] [] result now }
{
    Course {
        pace: Pace {
            keep,
            told: 0,
            last: no_record(),
            longest,
            slice,
            point: Checkpoint {
                version: 2,
                script,
                budget,
                turn: 0,
                settled: Vec::new(alloc),
                blocks: 0,
                weight: 1,
                place: 0,
            },
        },
        met: 0,
        version: 2,
        current: None,
    }
}

/// A session that starts from a checkpoint of its script and budget.
///
/// The checkpoint is in range, and `longest` and the slice are as for one that starts afresh.
#[tactic(auto, unfolding(crate::proofs::Opened::points_and_turns))]
pub fn resumed(keep: bool, longest: u64, slice: Option<u64>, point: Checkpoint) -> Course
    requires ranged { IsInRange (point_of point) }
    requires longest { (1 ≤ longest) × (longest ≤ 2 ^ 20) }
    requires slice { IfSome slice (λ n. 0 < n) }
    requires kept { keep ≡ false → slice ≡ None }
    ensures ranged { IsRanged result }
    ensures unmet { result.met ≡ 0 }
    ensures starts { (now : Around) → Goes (started
        (after point.version (map settled_of point.settled.items)
        (current_of (point_of point))) point.budget longest slice keep point.script
        (next_turn point.turn) now) [] [] result now }
{
    let version = point.version;
    let current = Settled {
        blocks: point.blocks,
        weight: point.weight,
        place: point.place,
    };
    let turn = following_turn(point.turn);
    Course {
        pace: Pace {
            keep,
            told: 0,
            last: no_record(),
            longest,
            slice,
            point: Checkpoint {
                version: 2,
                turn,
                ..point
            },
        },
        met: 0,
        version,
        current: Some(current),
    }
}
