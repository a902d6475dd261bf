//! What a worker does, block by block.
ghost use Rattle.std.specs.Prelude.{◌≡◌, ℕ, ◌+◌, ◌^◌, ◌<◌, ◌≤◌, IfOk};
ghost use Rattle.lc_crew.specs.Crew.{IsFresh};

use lc_board::NoMemory;
use std::alloc::Global;

/// Blocks, numbered from 0, of which each has a value and adds to some counts. The workers of a round share them; each
/// has a room of its own, which holds what it works in and what it has counted.
pub trait Blocks {
    /// What a worker works in.
    type Room: Drop + Send;

    /// How many blocks there are.
    ghost total: { Self → ℕ };

    /// The value of a block.
    ghost value: { Self → ℕ → ℕ };

    /// How much a block adds to each count.
    ghost share: { Self → ℕ → ℕ → ℕ };

    /// A room was made for these blocks.
    ghost fits: { Self → Self.Room → Type 0 };

    /// The counts that a room holds.
    ghost tally: { Self → Self.Room → ℕ → ℕ };

    /// Returns the value of a block, and adds what the block adds, at most 4,096, to each count of the room, none of which
    /// is above 2^53. It takes no memory.
    fn value_of(&self, block: u64, room: &mut Self::Room) -> u64
        requires inside { block < Self.total self.now }
        requires room { Self.fits self.now room.old }
        requires low { (j : ℕ) → Self.tally self.now room.old j ≤ 2 ^ 53 }
        ensures is { result ≡ Self.value self.now block }
        ensures room { Self.fits self.now room.new }
        ensures added { (j : ℕ) →
            Self.tally self.now room.new j ≡ Self.tally self.now room.old j + Self.share self.now block j }
        ensures few { (j : ℕ) → Self.share self.now block j ≤ 4096 };

    /// Makes one room more, whose counts are 0, beside another, with which it may share what no block changes. Refused only
    /// if no memory is left.
    fn another(&self, alloc: Global, room: &Self::Room) -> Result<Self::Room, NoMemory>
        requires room { Self.fits self.now room.now }
        ensures { IfOk result (IsFresh (Self.fits self.now) (Self.tally self.now)) };
}
