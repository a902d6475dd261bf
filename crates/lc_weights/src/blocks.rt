//! The blocks of the words of a code, which are counted.
ghost use Rattle.std.specs.Prelude.{◌≡◌, ℕ, ◌+◌, ◌*◌, ◌<◌, ◌≤◌, length, slice_index, IfOk};
ghost use Rattle.lc_crew.specs.Crew.{IsFresh};
ghost use Rattle.lc_weights.specs.Counts.{block_count, IsRoomOf};

use crate::walk::tally;
use lc_crew::{Blocks, NoMemory};
use std::alloc::Global;

/// How many words a worker has counted of each weight from 0 up.
#[derive(Drop)]
pub(crate) struct CountRoom {
    pub(crate) counts: Vec<u64>,
}

/// The blocks of the words of a code, by two lists of words given as bits, heads and tails: a block adds to each count how
/// many tails differ from its head at so many places as the count's index, and has the value 0.
#[derive(Clone, Copy)]
pub(crate) struct CountBlocks<'a, const P: usize, const N: usize> {
    pub(crate) heads: &'a [[[u64; P]; N]],
    pub(crate) tails: &'a [[[u64; P]; N]],
}

impl<'a, const P: usize, const N: usize> Blocks for CountBlocks<'a, P, N> {
    type Room = CountRoom;

    ghost total = { λ s. length s.heads.now };

    ghost value = { λ s b. 0 };

    ghost share = { λ s b j. block_count P N s.heads.now s.tails.now b j };

    ghost fits = { λ s room. IsRoomOf P N (length s.tails.now) room };

    ghost tally = { λ s room j. slice_index room.counts.items j };

    fn value_of(&self, block: u64, room: &mut CountRoom) -> u64 {
        tally(&self.heads[block as usize], self.tails, &mut room.counts);
        0
    }

    fn another(&self, alloc: Global, room: &CountRoom) -> Result<CountRoom, NoMemory> {
        Ok(CountRoom {
            counts: vec![in alloc; 0u64; room.counts.len()]?,
        })
    }
}
