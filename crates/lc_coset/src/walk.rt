//! The words of a phase, one after another.

ghost use Rattle.std.specs.Prelude.{◌≡◌, ℕ, ◌+◌, ◌-◌, ◌*◌, ◌^◌, ◌<◌, ◌≤◌, ◌∷◌, List, [], Some, suc, length, set, slice_index, slice_index_or, Contains, IfOk};
ghost use Rattle.lc_algebra.specs.Field.{size};
ghost use Rattle.lc_algebra.specs.Word.{IsWord, Fits, word_sum, scale, weight as weight_of};
ghost use Rattle.lc_algebra.specs.Matrix.{AreRows};
ghost use Rattle.lc_enumeration.specs.Message.{messages};
ghost use Rattle.lc_enumeration.specs.Search.{set_count, generator_at};
ghost use Rattle.lc_enumeration.specs.NearWord.{pattern_count};
ghost use Rattle.lc_place.specs.Place.{spot_message};
ghost use Rattle.lc_coset.specs.Near.{walk_plan, walk_matrix, IsWalk, IsRoomOf, IsAtRank, AreLong};

use lc_enumeration::PLACES;
use lc_field::{Field, NoMemory};
use lc_infoset::Sets;
use lc_place::{Plan, Spot};
use lc_vec::{Word, weight};
use std::alloc::Global;

/// What a worker works in: a spot that steps through the patterns, and the words of the fronts of its message.
#[derive(Drop)]
pub(crate) struct Room {
    pub(crate) spot: Spot,
    pub(crate) sums: Vec<Word>,
}

impl Room {
    /// A room for codes of the dimension and length of this one, which is at no pattern yet.
    pub(crate) fn new(alloc: Global, sets: &Sets) -> Result<Room, NoMemory>
        ensures room { IfOk result (IsRoomOf sets.now) }
    {
        let _long = sets.length();
        let many = sets.dimension() + 2;
        let n = sets.length();
        let spot = Spot::new(alloc, sets.dimension() + 1)?;
        let mut sums = Vec::with_capacity(alloc, many)?;
        for _i in 0..many {
            sums.push(Word::zero(alloc, n)?)?;
        }
        Ok(Room { spot, sums })
    }
}

/// A walk over a set: the information sets of a code, the index of the set, and what the first word of the set leaves of the
/// given word.
#[derive(Clone, Copy)]
pub(crate) struct Walk<'a> {
    pub(crate) sets: &'a Sets,
    pub(crate) set: usize,
    pub(crate) left: &'a Word,
}

// Row i of a walk: what the first word of the set leaves, and then the rows of the set's generator matrix.
fn row_of<'a>(walk: &Walk<'a>, i: usize) -> &'a [u8]
    requires set { walk.now.set < set_count walk.now.sets.now }
    requires left { IsWord walk.now.sets.now.field walk.now.sets.now.columns walk.now.left.now }
    requires row { i < length walk.now.sets.now.rows + 1 }
    ensures is { result.now
        ≡ slice_index_or (walk.now.left.now ∷ generator_at walk.now.sets.now walk.now.set) i [] }
    ensures word { IsWord walk.now.sets.now.field walk.now.sets.now.columns result.now }
{
    if i == 0 {
        return walk.left.symbols();
    }
    walk.sets.row(walk.set, i - 1)
}

// Makes `to` the sum of a word and of c times a row.
#[tactic(auto, using(crate::proofs::WalkLaws::sum_of_one))]
fn put_multiple(field: &Field, to: &mut Word, word: &[u8], row: &[u8], c: u8)
    requires to { length to.old ≡ length word.now }
    requires lengths { length word.now ≡ length row.now }
    requires word { Fits field.now word.now }
    requires row { Fits field.now row.now }
    requires element { c < size field.now }
    ensures is { to.new ≡ word_sum field.now word.now (scale field.now c row.now) }
{
    if c == 1 {
        to.put_added(field, word, row);
    } else {
        to.put_sum(field, word, row, c);
    }
}

// Makes the sum of entry i from the one before it.
fn extend(walk: &Walk<'_>, spot: &Spot, sums: &mut [Word], i: usize)
    requires set { walk.now.set < set_count walk.now.sets.now }
    requires left { IsWord walk.now.sets.now.field walk.now.sets.now.columns walk.now.left.now }
    requires entry { i < length spot.now.support }
    requires entries { length spot.now.coefficients ≡ length spot.now.support }
    requires row { slice_index spot.now.support i < length walk.now.sets.now.rows + 1 }
    requires element { slice_index spot.now.coefficients i < size walk.now.sets.now.field }
    requires many { i + 1 < length sums.old }
    requires word { IsWord walk.now.sets.now.field walk.now.sets.now.columns (slice_index_or sums.old i []) }
    requires long { length (slice_index_or sums.old (i + 1) []) ≡ walk.now.sets.now.columns }
    ensures is { sums.new ≡ set sums.old (i + 1)
        (word_sum walk.now.sets.now.field (slice_index_or sums.old i [])
        (scale walk.now.sets.now.field (slice_index spot.now.coefficients i)
        (slice_index_or (walk.now.left.now ∷ generator_at walk.now.sets.now walk.now.set)
        (slice_index spot.now.support i) []))) }
{
    let row = row_of(walk, spot.support()[i]);
    let c = spot.coefficients()[i];
    let (before, rest) = sums.split_at_mut(i + 1);
    put_multiple(walk.sets.field(), &mut rest[0], before[i].symbols(), row, c);
}

// Makes the sums of the entries from `from` on again, up to all `to`, those of the first `from` being there.
fn refresh(walk: &Walk<'_>, spot: &Spot, sums: &mut [Word], from: usize, to: usize)
    requires set { walk.now.set < set_count walk.now.sets.now }
    requires left { IsWord walk.now.sets.now.field walk.now.sets.now.columns walk.now.left.now }
    requires message { Contains
        (messages (suc (length walk.now.sets.now.rows)) (size walk.now.sets.now.field) (length spot.now.support))
        (spot_message spot.now) }
    requires walk { IsWalk (walk_matrix walk.now.sets.now walk.now.left.now walk.now.set) spot.now from sums.old }
    requires order { from ≤ to }
    requires inside { to ≤ length spot.now.support }
    ensures walk { IsWalk (walk_matrix walk.now.sets.now walk.now.left.now walk.now.set) spot.now to sums.new }
{
    let _k = walk.sets.dimension();
    for i in from..to {
        extend(walk, spot, sums, i);
    }
}

/// Puts a room at the pattern of a level whose number is `rank`, in a walk.
pub(crate) fn go_to(walk: &Walk<'_>, plan: &Plan, level: usize, rank: u64, room: &mut Room)
    requires plan { plan.now ≡ walk_plan walk.now.sets.now }
    requires set { walk.now.set < set_count walk.now.sets.now }
    requires left { IsWord walk.now.sets.now.field walk.now.sets.now.columns walk.now.left.now }
    requires level { level ≤ length walk.now.sets.now.rows }
    requires small { rank < 2 ^ 52 }
    requires inside { rank < pattern_count (length walk.now.sets.now.rows) (size walk.now.sets.now.field) level }
    requires room { IsRoomOf walk.now.sets.now room.old }
    ensures at { IsAtRank walk.now.sets.now walk.now.left.now walk.now.set level rank room.new }
{
    let _k = walk.sets.dimension();
    plan.go_to(walk.set, level + 1, rank, &mut room.spot);
    refresh(walk, &room.spot, &mut room.sums, 0, level + 1);
}

/// Goes from a pattern of a level to the next one, in a walk.
pub(crate) fn step(walk: &Walk<'_>, plan: &Plan, level: usize, rank: u64, room: &mut Room)
    requires plan { plan.now ≡ walk_plan walk.now.sets.now }
    requires set { walk.now.set < set_count walk.now.sets.now }
    requires left { IsWord walk.now.sets.now.field walk.now.sets.now.columns walk.now.left.now }
    requires level { level ≤ length walk.now.sets.now.rows }
    requires inside { rank + 1 < pattern_count (length walk.now.sets.now.rows) (size walk.now.sets.now.field) level }
    requires at { IsAtRank walk.now.sets.now walk.now.left.now walk.now.set level rank room.old }
    ensures at { IsAtRank walk.now.sets.now walk.now.left.now walk.now.set level (rank + 1) room.new }
{
    let _k = walk.sets.dimension();
    let _n = walk.sets.length();
    let Some(first) = plan.step(&mut room.spot) else {
        unreachable!()
    };
    refresh(walk, &room.spot, &mut room.sums, first, level + 1);
}

/// What the word of the pattern leaves of the given word.
pub(crate) fn top(room: &Room, level: usize) -> &Word
    requires inside { level + 1 < length room.now.sums.items }
    ensures is { result.now ≡ slice_index_or room.now.sums.items (level + 1) [] }
{
    &room.sums[level + 1]
}

/// The value on the board of the word of the pattern, at a place.
pub(crate) fn value_here(room: &Room, level: usize, place: u64) -> u64
    requires inside { level + 1 < length room.now.sums.items }
    requires few { length (slice_index_or room.now.sums.items (level + 1) []) ≤ 255 }
    requires place { place < 2 ^ 52 }
    ensures is { result ≡ weight_of (slice_index_or room.now.sums.items (level + 1) []) * 2 ^ 52 + place }
{
    weight(top(room, level).symbols()) as u64 * PLACES + place
}
