//! The phases: a level with a set, and the blocks of its messages.

ghost use Rattle.std.specs.Prelude.{◌≡◌, ℕ, ◌+◌, ◌-◌, ◌*◌, ◌^◌, ◌<◌, ◌≤◌, length, slice_index};
ghost use Rattle.lc_enumeration.specs.Plan.{phase_at, IsInPhase};
ghost use Rattle.lc_place.specs.Place.{plan_phase};
ghost use Rattle.lc_place.specs.Tables.{IsTable, count_entry, start_entry};

use crate::table::Size;
use lc_enumeration::{BLOCK, CUT};

/// The messages of one level with one information set: the level, from 1, the index of the set, from 0,
/// the first block and the block after the last one.
#[derive(Clone, Copy, Debug, PartialEq, Eq, Drop)]
pub struct Phase {
    /// how many nonzero entries its messages have
    pub level: usize,
    /// the index of the information set
    pub set: usize,
    /// its first block
    pub start: u64,
    /// the block after its last one, at most 2^40
    pub end: u64,
}

/// The last entry of a rising table that is at most `block`.
fn level_of(starts: &[u64], block: u64) -> usize
    requires some { 2 ≤ length starts.now }
    requires first { slice_index starts.now 0 ≤ block }
    requires last { block < slice_index starts.now (length starts.now - 1) }
    ensures inside { result + 1 < length starts.now }
    ensures after { slice_index starts.now result ≤ block }
    ensures before { block < slice_index starts.now (result + 1) }
{
    let mut level = 0;
    while starts[level + 1] <= block {
        level += 1;
    }
    level
}

impl Size {
    /// The phase of a block below the last entry of the table of first blocks.
    pub(crate) fn phase(&self, starts: &[u64], counts: &[u64], block: u64) -> Phase
        requires starts { IsTable (start_entry self.now.k self.now.q self.now.m) (self.now.k + 1) starts.now }
        requires counts { IsTable (count_entry self.now.k self.now.q) self.now.k counts.now }
        requires inside { block < start_entry self.now.k self.now.q self.now.m self.now.k }
        ensures found { (p : ℕ) × IsInPhase self.now.k self.now.q self.now.m p block
            × (plan_phase result ≡ phase_at self.now.k self.now.q self.now.m p) }
        ensures level { (1 ≤ result.level) × (result.level ≤ self.now.k) }
        ensures set { result.set < self.now.m }
    {
        let level = level_of(starts, block);
        let left = block - starts[level];
        let blocks = (counts[level] + (BLOCK - 1)) / BLOCK;
        let start = block - left % blocks;
        Phase {
            level: level + 1,
            set: (left / blocks) as usize,
            start,
            end: (start + blocks).min(CUT),
        }
    }
}
