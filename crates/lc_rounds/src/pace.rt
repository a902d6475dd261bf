//! How far a session is between two rounds.

ghost use Rattle.std.specs.Prelude.{◌≡◌, ◌+◌, ◌^◌, ◌<◌, ◌≤◌};
ghost use Rattle.lc_session_rules.specs.Slots.{next_turn};
ghost use Rattle.lc_rounds.specs.Step.{once_told};

use lc_checkpoint::{Checkpoint, LAST_TURN};
use lc_io::Record;

/// How far a session is between two rounds: what its next checkpoint says, and what it counts.
#[derive(Drop)]
pub struct Pace {
    /// Whether checkpoints are kept.
    pub keep: bool,
    /// How many records were told.
    pub told: u64,
    /// The last record told; any record if none was.
    pub last: Record,
    /// How many blocks a round does at most, 1 to 2^20.
    pub longest: u64,
    /// How many blocks the session may still do, if it has a slice.
    pub slice: Option<u64>,
    /// The next checkpoint: its version is 2, its turn is that of the next checkpoint, and its settled needs are those of the
    /// session. Its blocks, weight and place are set when it is stored.
    pub point: Checkpoint,
}

// The turn of the checkpoint after one with this turn; the greatest turn stays.
#[tactic(auto, unfolding(lc_session_rules::specs::Slots::next_turn))]
pub(crate) fn following_turn(turn: u64) -> u64
    requires turn { turn ≤ 2 ^ 60 }
    ensures is { result ≡ next_turn turn }
    ensures early { result ≤ 2 ^ 60 }
{
    LAST_TURN.min(turn + 1)
}

impl Pace {
    // Counts a record that was told: the next checkpoint has the next turn.
    pub(crate) fn count(&mut self, note: Record)
        requires room { self.old.told + 1 < 2 ^ 64 }
        requires turn { self.old.point.turn ≤ 2 ^ 60 }
        ensures is { self.new ≡ once_told self.old note }
        ensures early { self.new.point.turn ≤ 2 ^ 60 }
    {
        self.told += 1;
        self.last = note;
        self.point.turn = following_turn(self.point.turn);
    }
}
