//! The least value of a block of words over 2 elements, by runs of messages that share all but their last
//! entries: as many as the tails of the set's table have places, two or three.

ghost use Rattle.std.specs.Prelude.{◌≡◌, ℕ, ◌+◌, ◌-◌, ◌*◌, ◌<◌, ◌≤◌, Some, length, take, slice_get, slice_index};
ghost use Rattle.std.specs.List.{Contains};
ghost use Rattle.lc_algebra.specs.Field.{size};
ghost use Rattle.lc_enumeration.specs.Message.{messages, supports_from};
ghost use Rattle.lc_enumeration.specs.Search.{set_count};
ghost use Rattle.lc_place.specs.Place.{spot_message};
ghost use Rattle.lc_kernel.specs.Block.{words_in, IsSpotIn, IsLeastIn};
ghost use Rattle.lc_kernel.specs.Packed.{others, bits_at, tail_of, pair_of, AreStarts};
ghost use Rattle.lc_planes.specs.Planes.{part_at};
ghost use Rattle.lc_kernel.specs.Tables.{IsTable};
ghost use Rattle.lc_distances.specs.Least.{AreCounted};
ghost use Rattle.lc_kernel.specs.Sums.{front_word};

use crate::block::Block;
use crate::table::Table;
use lc_distances::{add_ones, first_least, put_ones};
use lc_enumeration::{BLOCK, PLACES};
use lc_infoset::Sets;
use lc_place::Spot;

// A run: the spot of its first message, the index of the tail of that message, and its offset in the block.
#[derive(Clone, Copy)]
struct Run<'a> {
    spot: &'a Spot,
    start: usize,
    done: u64,
}

/// The index of the pair of the last two places of a spot.
pub(crate) fn pair_index(sets: &Sets, starts: &[usize], spot: &Spot) -> usize
    requires message { Contains (messages (length sets.now.rows) (size sets.now.field) (length spot.now.support))
        (spot_message spot.now) }
    requires level { 2 ≤ length spot.now.support }
    requires starts { AreStarts (length sets.now.rows) 2 starts.now }
    ensures is { slice_get (supports_from 0 (length sets.now.rows) 2) result ≡ Some (pair_of spot.now) }
    ensures inside { result < length (supports_from 0 (length sets.now.rows) 2) }
    ensures from { slice_index starts.now (slice_index spot.now.support (length spot.now.support - 2)) ≤ result }
{
    let _k = sets.dimension();
    let _n = sets.length();
    let support = spot.support();
    let first = support[support.len() - 2];
    let last = support[support.len() - 1];
    starts[first] + (last - first - 1)
}

// The index of the tail of a spot: of its last places, as many as the tails of the table have.
fn tail_index(sets: &Sets, table: &Table, spot: &Spot) -> usize
    requires message { Contains (messages (length sets.now.rows) (size sets.now.field) (length spot.now.support))
        (spot_message spot.now) }
    requires level { table.now.tail ≤ length spot.now.support }
    requires table { IsTable sets.now spot.now.set table.now }
    ensures is { slice_get (supports_from 0 (length sets.now.rows) table.now.tail) result
        ≡ Some (tail_of table.now.tail spot.now) }
    ensures inside { result < length (supports_from 0 (length sets.now.rows) table.now.tail) }
{
    let _k = sets.dimension();
    let _n = sets.length();
    let pair = pair_index(sets, &table.pairs, spot);
    if table.tail == 2 {
        return pair;
    }
    let support = spot.support();
    let first = support[support.len() - 3];
    table.starts[first] + (pair - table.pairs[first + 1])
}

// The bits, in a part of the columns, of the word of the entries of a spot before its tail.
fn head_bits(sets: &Sets, table: &Table, part: usize, spot: &Spot) -> u64
    requires set { spot.now.set < set_count sets.now }
    requires message { Contains (messages (length sets.now.rows) (size sets.now.field) (length spot.now.support))
        (spot_message spot.now) }
    requires level { table.now.tail ≤ length spot.now.support }
    requires table { IsTable sets.now spot.now.set table.now }
    requires part { part < length table.now.parts.items }
    ensures is { result ≡ bits_at (part_at (others sets.now spot.now.set) part)
        (front_word sets.now spot.now (length spot.now.support - table.now.tail)) }
{
    let _k = sets.dimension();
    let _n = sets.length();
    let rows = table.parts[part].rows.as_slice();
    let mut bits = 0;
    for i in 0..spot.support().len() - table.tail {
        bits ^= rows[spot.support()[i]];
    }
    bits
}

// Counts for a run what a part of the columns has: puts what the first part has in place of the old counts,
// and adds what another has.
fn count_part(block: &Block<'_>, table: &Table, part: usize, run: &Run<'_>, counts: &mut [u32])
    requires set { run.now.spot.now.set < set_count block.now.sets.now }
    requires at { IsSpotIn block.now run.now.done run.now.spot.now }
    requires level { table.now.tail ≤ length run.now.spot.now.support }
    requires table { IsTable block.now.sets.now run.now.spot.now.set table.now }
    requires part { part < length table.now.parts.items }
    requires start { slice_get (supports_from 0 (length block.now.sets.now.rows) table.now.tail) run.now.start
        ≡ Some (tail_of table.now.tail run.now.spot.now) }
    requires tails { run.now.start + length counts.old
        ≤ length (supports_from 0 (length block.now.sets.now.rows) table.now.tail) }
    requires words { run.now.done + length counts.old ≤ length (words_in block.now) }
    requires counted { 0 < part → AreCounted (take (64 * part) (others block.now.sets.now run.now.spot.now.set))
        (words_in block.now) run.now.done (length counts.old) counts.old }
    ensures counted { AreCounted (take (64 * (part + 1)) (others block.now.sets.now run.now.spot.now.set))
        (words_in block.now) run.now.done (length counts.old) counts.new }
{
    let prefix = head_bits(block.sets, table, part, run.spot);
    let sums = table.parts[part].sums.as_slice();
    let start = run.start;
    let end = start + counts.len();
    if part == 0 {
        put_ones(&sums[start..end], prefix, counts);
        return;
    }
    add_ones(&sums[start..end], prefix, counts);
}

// Counts the nonzero symbols, outside the basis, of the words of a run.
fn count_run(block: &Block<'_>, table: &Table, run: &Run<'_>, counts: &mut [u32])
    requires set { run.now.spot.now.set < set_count block.now.sets.now }
    requires at { IsSpotIn block.now run.now.done run.now.spot.now }
    requires level { table.now.tail ≤ length run.now.spot.now.support }
    requires table { IsTable block.now.sets.now run.now.spot.now.set table.now }
    requires start { slice_get (supports_from 0 (length block.now.sets.now.rows) table.now.tail) run.now.start
        ≡ Some (tail_of table.now.tail run.now.spot.now) }
    requires tails { run.now.start + length counts.old
        ≤ length (supports_from 0 (length block.now.sets.now.rows) table.now.tail) }
    requires words { run.now.done + length counts.old ≤ length (words_in block.now) }
    ensures counted { AreCounted (others block.now.sets.now run.now.spot.now.set) (words_in block.now) run.now.done
        (length counts.old) counts.new }
{
    for part in 0..table.parts.len() {
        count_part(block, table, part, run, counts);
    }
}

// Goes from a message at an offset of a block, whose run ends before another offset, to that offset.
fn next_head(block: &Block<'_>, table: &Table, spot: &mut Spot, from: u64, done: u64)
    requires at { IsSpotIn block.now from spot.old }
    requires level { table.now.tail ≤ length spot.old.support }
    requires table { IsTable block.now.sets.now spot.old.set table.now }
    requires later { from < done }
    requires end { (r : ℕ) × (slice_get (supports_from 0 (length block.now.sets.now.rows) table.now.tail) r
        ≡ Some (tail_of table.now.tail spot.old))
        × (r + (done - from) ≡ length (supports_from 0 (length block.now.sets.now.rows) table.now.tail)) }
    requires inside { done < length (words_in block.now) }
    ensures at { IsSpotIn block.now done spot.new }
    ensures level { length spot.new.support ≡ length spot.old.support }
    ensures set { spot.new.set ≡ spot.old.set }
    ensures room { spot.new.room ≡ spot.old.room }
{
    let k = block.sets.dimension();
    spot.to_last_places(table.tail, k);
    let _first = block.plan.step(spot);
}

// Counts the words of a block up to the end of a run that begins at an offset. Returns how many words the
// run has.
fn one_run(block: &Block<'_>, table: &Table, spot: &Spot, done: usize, counts: &mut [u32]) -> usize
    requires set { spot.now.set < set_count block.now.sets.now }
    requires at { IsSpotIn block.now done spot.now }
    requires level { table.now.tail ≤ length spot.now.support }
    requires table { IsTable block.now.sets.now spot.now.set table.now }
    requires some { done < length counts.old }
    requires words { length counts.old ≡ length (words_in block.now) }
    requires counted { AreCounted (others block.now.sets.now spot.now.set)
        (words_in block.now) 0 done counts.old }
    ensures counted { AreCounted (others block.now.sets.now spot.now.set) (words_in block.now) 0
        (done + result) counts.new }
    ensures some { 0 < result }
    ensures within { done + result ≤ length counts.old }
    ensures end { done + result < length counts.old →
        (r : ℕ) × (slice_get (supports_from 0 (length block.now.sets.now.rows) table.now.tail) r
        ≡ Some (tail_of table.now.tail spot.now))
        × (r + result ≡ length (supports_from 0 (length block.now.sets.now.rows) table.now.tail)) }
{
    let start = tail_index(block.sets, table, spot);
    let tails = table.parts[0].sums.len();
    let count = (tails - start).min(counts.len() - done);
    let end = done + count;
    let run = Run {
        spot,
        start,
        done: done as u64,
    };
    count_run(block, table, &run, &mut counts[done..end]);
    count
}

// Counts the nonzero symbols, outside the basis, of the words of a block of a level that has tails, from its first
// message on.
fn count_block(block: &Block<'_>, table: &Table, spot: &mut Spot, counts: &mut [u32])
    requires set { spot.old.set < set_count block.now.sets.now }
    requires at { IsSpotIn block.now 0 spot.old }
    requires level { table.now.tail ≤ length spot.old.support }
    requires table { IsTable block.now.sets.now spot.old.set table.now }
    requires some { 0 < length counts.old }
    requires words { length counts.old ≡ length (words_in block.now) }
    ensures counted { AreCounted (others block.now.sets.now spot.old.set) (words_in block.now) 0
        (length counts.old) counts.new }
    ensures room { spot.new.room ≡ spot.old.room }
{
    let mut done = 0;
    loop {
        let count = one_run(block, table, spot, done, counts);
        if done + count >= counts.len() {
            return;
        }
        next_head(block, table, spot, done as u64, (done + count) as u64);
        done += count;
    }
}

/// The least value of a block over 2 elements, from its first message on. Its messages have at least as many
/// entries as the tails of the table have places.
pub(crate) fn by_runs(block: &Block<'_>, table: &Table, spot: &mut Spot, counts: &mut [u32]) -> u64
    requires set { spot.old.set < set_count block.now.sets.now }
    requires at { IsSpotIn block.now 0 spot.old }
    requires level { table.now.tail ≤ length spot.old.support }
    requires table { IsTable block.now.sets.now spot.old.set table.now }
    requires room { length counts.old ≡ 4096 }
    ensures is { IsLeastIn block.now result }
    ensures room { spot.new.room ≡ spot.old.room }
    ensures long { length counts.new ≡ length counts.old }
{
    let level = spot.support().len() as u64;
    let len = block.plan.block_len(block.number) as usize;
    count_block(block, table, spot, &mut counts[..len]);
    let (least, at) = first_least(&counts[..len]);
    (level + least as u64) * PLACES + (block.number * BLOCK + at as u64)
}
