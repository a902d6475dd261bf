//! The least value of a block of words over more than 2 elements, and its runs: the messages that share all but their
//! last two coefficients.

ghost use Rattle.std.specs.Prelude.{◌≡◌, ℕ, ◌+◌, ◌-◌, ◌*◌, ◌<◌, ◌≤◌, length};
ghost use Rattle.std.specs.List.{Contains};
ghost use Rattle.lc_algebra.specs.Field.{size};
ghost use Rattle.lc_enumeration.specs.Message.{messages};
ghost use Rattle.lc_enumeration.specs.Search.{set_count};
ghost use Rattle.lc_place.specs.Place.{spot_message};
ghost use Rattle.lc_kernel.specs.Block.{words_in, IsSpotIn, IsLeastIn};
ghost use Rattle.lc_kernel.specs.Grid.{tail_count, tail_index};
ghost use Rattle.lc_kernel.specs.Grids.{IsGrid};
ghost use Rattle.lc_kernel.specs.Room.{IsWorkRoom, IsGridRoom, HasSizesOf};
ghost use Rattle.lc_kernel.specs.Sums.{front_word};

use crate::block::Block;
use crate::fronts::least_words;
use crate::grid::{Grid, GridBlock};
use crate::multiples::nonzero;
use crate::room::Room;
use lc_enumeration::{BLOCK, PLACES};
use lc_infoset::Sets;
use lc_place::Spot;

/// The index of the pair of the last two coefficients of a spot.
pub(crate) fn tail_of(sets: &Sets, spot: &Spot) -> usize
    requires message { Contains (messages (length sets.now.rows) (size sets.now.field) (length spot.now.support))
        (spot_message spot.now) }
    requires level { 3 ≤ length spot.now.support }
    ensures is { result ≡ tail_index sets.now spot.now }
    ensures inside { result < tail_count sets.now }
{
    let elements = nonzero(sets);
    let _k = sets.dimension();
    let coefficients = spot.coefficients();
    let first = coefficients[coefficients.len() - 2] as usize - 1;
    let second = coefficients[coefficients.len() - 1] as usize - 1;
    first * elements + second
}

/// Goes from a message at an offset of a block, with so many left in its run, to the first one after the run.
/// Returns how many of the first entries stayed.
pub(crate) fn pass(block: &Block<'_>, spot: &mut Spot, done: u64, count: u64) -> usize
    requires at { IsSpotIn block.now done spot.old }
    requires level { 3 ≤ length spot.old.support }
    requires some { 0 < count }
    requires end { tail_index block.now.sets.now spot.old + count ≡ tail_count block.now.sets.now }
    requires inside { done + count < length (words_in block.now) }
    ensures at { IsSpotIn block.now (done + count) spot.new }
    ensures level { length spot.new.support ≡ length spot.old.support }
    ensures set { spot.new.set ≡ spot.old.set }
    ensures room { spot.new.room ≡ spot.old.room }
    ensures few { result ≤ length spot.old.support - 2 }
    ensures same { (i : ℕ) → i ≤ result →
        front_word block.now.sets.now spot.new i ≡ front_word block.now.sets.now spot.old i }
{
    let most = spot.support().len() - 2;
    spot.to_last_tail(nonzero(block.sets) as u8);
    match block.plan.step(spot) {
        Some(first) => most.min(first),
        None => most,
    }
}

/// The least value of a block of a level of at least 3, over more than 2 elements, from its first message on.
pub(crate) fn by_tails(block: &Block<'_>, grid: &Grid, room: &mut Room) -> u64
    requires set { room.old.spot.set < set_count block.now.sets.now }
    requires at { IsSpotIn block.now 0 room.old.spot }
    requires level { 3 ≤ length room.old.spot.support }
    requires grid { IsGrid block.now.sets.now room.old.spot.set grid.now }
    requires room { IsWorkRoom (length block.now.sets.now.rows) room.old }
    requires grid_room { IsGridRoom (length block.now.sets.now.rows) room.old }
    ensures is { IsLeastIn block.now result }
    ensures room { HasSizesOf room.old room.new }
{
    let level = room.spot.support().len() as u64;
    let (least, at) = least_words(
        &GridBlock { block, grid },
        &mut room.spot,
        &mut room.fronts,
        &mut room.places,
        &mut room.tops,
        &mut room.counts,
    );
    (level + least as u64) * PLACES + (block.number * BLOCK + at as u64)
}
