//! The memory that a worker goes through a block in.

ghost use Rattle.std.specs.Prelude.{◌≡◌, true, IfOk};
ghost use Rattle.lc_kernel.specs.Room.{IsWorkRoom, IsGridRoom};

use crate::sweeps::MOST_HEADS;
use lc_enumeration::BLOCK;
use lc_field::NoMemory;
use lc_place::Spot;
use std::alloc::Global;

/// What a worker goes through a block in: the spot of a message, a count for each word of a block, and what only grids
/// need, if there are any.
#[derive(Drop)]
pub(crate) struct Room {
    pub(crate) spot: Spot,
    // only for grids: the planes, at a part of the columns, of the zero word, and then of the sums of the entries of a
    // message but the last two
    pub(crate) fronts: Vec<[u64; 4]>,
    // likewise: a support, and the planes of the words of its first places
    pub(crate) places: Vec<usize>,
    pub(crate) tops: Vec<[u64; 4]>,
    pub(crate) counts: Vec<u32>,
}

impl Room {
    /// The room for messages of a code of dimension k, with what grids need if there are any.
    pub(crate) fn new(alloc: Global, k: usize, has_grids: bool) -> Result<Room, NoMemory>
        ensures work { IfOk result (λ room. IsWorkRoom k room) }
        ensures grids { IfOk result (λ room. has_grids ≡ true → IsGridRoom k room) }
    {
        let spot = Spot::new(alloc, k)?;
        let fronts = vec![in alloc; [0u64; 4]; if_wanted(has_grids, k + 1)]?;
        let places = vec![in alloc; 0usize; if_wanted(has_grids, k)]?;
        let tops = vec![in alloc; [0u64; 4]; if_wanted(has_grids, MOST_HEADS)]?;
        let counts = vec![in alloc; 0u32; BLOCK as usize]?;
        Ok(Room {
            spot,
            fronts,
            places,
            tops,
            counts,
        })
    }
}

// How many elements a list has that is `size` long if it is wanted, and else empty.
fn if_wanted(wanted: bool, size: usize) -> usize
    ensures is { wanted ≡ true → result ≡ size }
{
    if wanted {
        return size;
    }
    0
}
