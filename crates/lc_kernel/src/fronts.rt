//! The counts of a block of words by runs, over more than 2 elements, part by part of the columns outside the basis. The
//! planes of the sums of the first entries of a message are kept from run to run, and come from those of the rows.

ghost use Rattle.std.specs.Prelude.{◌≡◌, ℕ, ◌+◌, ◌-◌, ◌*◌, ◌<◌, ◌≤◌, ◌/◌, ◌%◌, [], Some, length, take, slice_index, slice_index_or, IfOk};
ghost use Rattle.std.specs.List.{Contains};
ghost use Rattle.lc_algebra.specs.Field.{size};
ghost use Rattle.lc_algebra.specs.Word.{weight};
ghost use Rattle.lc_algebra.specs.SpanLaws.{restrict};
ghost use Rattle.lc_enumeration.specs.Message.{messages};
ghost use Rattle.lc_enumeration.specs.Search.{set_count};
ghost use Rattle.lc_place.specs.Place.{spot_message};
ghost use Rattle.lc_kernel.specs.Block.{words_in, IsSpotIn};
ghost use Rattle.lc_kernel.specs.Packed.{others};
ghost use Rattle.lc_planes.specs.Planes.{part_at};
ghost use Rattle.lc_kernel.specs.Grid.{tail_count, tail_index};
ghost use Rattle.lc_kernel.specs.Grids.{IsGrid};
ghost use Rattle.lc_kernel.specs.Fronts.{AreRowPlanes, AreFrontPlanes, ArePlanes};
ghost use Rattle.lc_distances.specs.Least.{IsFirstLeast, AreCounted, ArePartCounted};
ghost use Rattle.lc_kernel.specs.Sums.{front_word, AreMultiples};

use crate::block::Block;
use crate::grid::{Grid, GridAt, GridBlock};
use crate::multiples::{RowMultiples, multiple_of, nonzero};
use crate::part_counts::count_sweeps;
use crate::runs::pair_index;
use crate::sweeps::{head_count, least_sweeps};
use crate::tails::{pass, tail_of};
use lc_distances::{add_apart, first_least, pack, sum_planes};
use lc_field::NoMemory;
use lc_infoset::Sets;
use lc_place::Spot;
use std::alloc::Global;

/// The planes at some columns of the nonzero multiples of the rows of a set, row by row, in the order of the elements.
pub(crate) fn row_planes(
    alloc: Global,
    rows: &RowMultiples<'_>,
    columns: &[usize],
    planes: usize,
) -> Result<Vec<[u64; 4]>, NoMemory>
    requires multiples { AreMultiples rows.now.sets.now rows.now.words.now }
    requires set { rows.now.set < set_count rows.now.sets.now }
    requires few { length columns.now ≤ 64 }
    requires inside { (t : ℕ) → t < length columns.now → slice_index columns.now t < rows.now.sets.now.columns }
    requires planes { planes ≤ 4 }
    ensures are { IfOk result (λ all. AreRowPlanes rows.now.sets.now rows.now.set columns.now planes
        (length rows.now.sets.now.rows * (size rows.now.sets.now.field - 1)) all.items) }
{
    let sets = rows.sets;
    let elements = nonzero(sets);
    let k = sets.dimension();
    let _n = sets.length();
    let mut all = Vec::new(alloc);
    for index in 0..k * elements {
        let c = (index % elements) as u8 + 1;
        let word = multiple_of(sets, rows.words, rows.set, index / elements, c);
        all.push(pack(word.symbols(), columns, planes))?;
    }
    Ok(all)
}

// The planes of the sum of the first i + 1 entries, from those of the first i.
fn next_front(sets: &Sets, table: &GridAt<'_>, spot: &Spot, front: &[u64; 4], i: usize) -> [u64; 4]
    requires set { spot.now.set < set_count sets.now }
    requires message { Contains (messages (length sets.now.rows) (size sets.now.field) (length spot.now.support))
        (spot_message spot.now) }
    requires grid { IsGrid sets.now spot.now.set table.now.grid.now }
    requires part { table.now.part < length table.now.grid.now.parts.items }
    requires entry { i < length spot.now.support }
    requires front { ArePlanes (part_at (others sets.now spot.now.set) table.now.part) table.now.grid.now.planes
        (front_word sets.now spot.now i) front.now }
    ensures is { ArePlanes (part_at (others sets.now spot.now.set) table.now.part) table.now.grid.now.planes
        (front_word sets.now spot.now (i + 1)) result }
{
    let _k = sets.dimension();
    let _n = sets.length();
    let support = spot.support();
    let coefficients = spot.coefficients();
    let part = &table.grid.parts[table.part];
    let row = support[i] * nonzero(sets);
    let element = coefficients[i] as usize - 1;
    sum_planes(sets.field(), front, &part.rows[row + element])
}

// Makes the planes of the sums of the first `to` entries again, those of the first `from` being there.
fn refresh_planes(
    sets: &Sets,
    table: &GridAt<'_>,
    spot: &Spot,
    fronts: &mut [[u64; 4]],
    from: usize,
    to: usize,
)
    requires set { spot.now.set < set_count sets.now }
    requires message { Contains (messages (length sets.now.rows) (size sets.now.field) (length spot.now.support))
        (spot_message spot.now) }
    requires grid { IsGrid sets.now spot.now.set table.now.grid.now }
    requires part { table.now.part < length table.now.grid.now.parts.items }
    requires many { length fronts.old ≡ length sets.now.rows + 1 }
    requires fronts { AreFrontPlanes sets.now spot.now table.now.part table.now.grid.now.planes from fronts.old }
    requires order { from ≤ to }
    requires inside { to ≤ length spot.now.support }
    ensures fronts { AreFrontPlanes sets.now spot.now table.now.part table.now.grid.now.planes to fronts.new }
{
    let _k = sets.dimension();
    let _n = sets.length();
    for i in from..to {
        let front = next_front(sets, table, spot, &fronts[i], i);
        fronts[i + 1] = front;
    }
}

// Adds what a part of the columns has to the counts of a run that begins at an offset of a block, up to the block's end.
// Returns how many words the run has.
fn one_front(
    block: &Block<'_>,
    table: &GridAt<'_>,
    spot: &Spot,
    head: &[u64; 4],
    done: usize,
    counts: &mut [u32],
) -> usize
    requires set { spot.now.set < set_count block.now.sets.now }
    requires at { IsSpotIn block.now done spot.now }
    requires level { 3 ≤ length spot.now.support }
    requires grid { IsGrid block.now.sets.now spot.now.set table.now.grid.now }
    requires part { table.now.part < length table.now.grid.now.parts.items }
    requires head { ArePlanes (part_at (others block.now.sets.now spot.now.set) table.now.part)
        table.now.grid.now.planes (front_word block.now.sets.now spot.now (length spot.now.support - 2)) head.now }
    requires some { done < length counts.old }
    requires words { length counts.old ≡ length (words_in block.now) }
    requires counted { ArePartCounted (others block.now.sets.now spot.now.set) table.now.part (words_in block.now) done
        (length counts.old) counts.old }
    ensures counted { ArePartCounted (others block.now.sets.now spot.now.set) table.now.part (words_in block.now)
        (done + result) (length counts.old) counts.new }
    ensures some { 0 < result }
    ensures within { done + result ≤ length counts.old }
    ensures end { done + result < length counts.old →
        tail_index block.now.sets.now spot.now + result ≡ tail_count block.now.sets.now }
{
    let grid = table.grid;
    let elements = nonzero(block.sets);
    let tail = tail_of(block.sets, spot);
    let start = pair_index(block.sets, &grid.starts, spot) * elements * elements + tail;
    let count = (elements * elements - tail).min(counts.len() - done);
    let end = done + count;
    let part = &grid.parts[table.part];
    let tails = part.bits.as_slice();
    let run = &mut counts[done..end];
    add_apart(grid.planes, tails, grid.tails, start, head, run);
    count
}

// Adds what a part of the columns has to the counts of the words of a block of a level of at least 3, from its first
// message on.
fn add_fronts(
    block: &Block<'_>,
    table: &GridAt<'_>,
    spot: &mut Spot,
    fronts: &mut [[u64; 4]],
    counts: &mut [u32],
)
    requires set { spot.old.set < set_count block.now.sets.now }
    requires at { IsSpotIn block.now 0 spot.old }
    requires level { 3 ≤ length spot.old.support }
    requires grid { IsGrid block.now.sets.now spot.old.set table.now.grid.now }
    requires part { table.now.part < length table.now.grid.now.parts.items }
    requires many { length fronts.old ≡ length block.now.sets.now.rows + 1 }
    requires some { 0 < length counts.old }
    requires words { length counts.old ≡ length (words_in block.now) }
    requires counted { AreCounted (take (64 * table.now.part) (others block.now.sets.now spot.old.set))
        (words_in block.now) 0 (length counts.old) counts.old }
    ensures counted { AreCounted (take (64 * (table.now.part + 1)) (others block.now.sets.now spot.old.set))
        (words_in block.now) 0 (length counts.old) counts.new }
    ensures set { spot.new.set ≡ spot.old.set }
    ensures room { spot.new.room ≡ spot.old.room }
{
    let level = spot.support().len();
    fronts[0] = [0; 4];
    let mut done = 0;
    let mut stayed = 0;
    loop {
        refresh_planes(block.sets, table, spot, fronts, stayed, level - 2);
        let count = one_front(block, table, spot, &fronts[level - 2], done, counts);
        if done + count >= counts.len() {
            return;
        }
        stayed = pass(block, spot, done as u64, count as u64);
        done += count;
    }
}

// Counts the nonzero symbols, outside the basis, of the words of a block of a level of at least 3, part by part.
fn count_fronts(
    block: &Block<'_>,
    grid: &Grid,
    spot: &mut Spot,
    fronts: &mut [[u64; 4]],
    counts: &mut [u32],
)
    requires set { spot.old.set < set_count block.now.sets.now }
    requires at { IsSpotIn block.now 0 spot.old }
    requires level { 3 ≤ length spot.old.support }
    requires grid { IsGrid block.now.sets.now spot.old.set grid.now }
    requires room { spot.old.room ≡ length block.now.sets.now.rows }
    requires many { length fronts.old ≡ length block.now.sets.now.rows + 1 }
    requires some { 0 < length counts.old }
    requires words { length counts.old ≡ length (words_in block.now) }
    ensures counted { AreCounted (others block.now.sets.now spot.old.set) (words_in block.now) 0
        (length counts.old) counts.new }
    ensures room { spot.new.room ≡ spot.old.room }
{
    counts.fill(0);
    for part in 0..grid.parts.len() {
        block.plan.start_of(block.number, spot);
        add_fronts(block, &GridAt { grid, part }, spot, fronts, counts);
    }
}

// The least of the counts of a block, and the first word that has it.
fn first_counted(block: &Block<'_>, set: usize, counts: &[u32]) -> (u32, usize)
    requires some { 0 < length counts.now }
    requires counted { AreCounted (others block.now.sets.now set) (words_in block.now) 0
        (length counts.now) counts.now }
    ensures is { IsFirstLeast (length counts.now)
        (λ i. weight (restrict (others block.now.sets.now set)
        (slice_index_or (words_in block.now) i []))) result.0 result.1 }
    ensures few { result.0 ≤ 255 }
{
    first_least(counts)
}

/// The least number of nonzero symbols, outside the basis, of the words of a block of a level of at least 3, from its
/// first message on, and the first word that has it: support by support if a support hasn't too many heads, and else run
/// by run. There are at least as many counts as a block has words.
pub(crate) fn least_words(
    at: &GridBlock<'_>,
    spot: &mut Spot,
    fronts: &mut [[u64; 4]],
    places: &mut [usize],
    tops: &mut [[u64; 4]],
    counts: &mut [u32],
) -> (u32, usize)
    requires set { spot.old.set < set_count at.now.block.now.sets.now }
    requires at { IsSpotIn at.now.block.now 0 spot.old }
    requires level { 3 ≤ length spot.old.support }
    requires grid { IsGrid at.now.block.now.sets.now spot.old.set at.now.grid.now }
    requires room { spot.old.room ≡ length at.now.block.now.sets.now.rows }
    requires many { length fronts.old ≡ length at.now.block.now.sets.now.rows + 1 }
    requires places { length places.old ≡ length at.now.block.now.sets.now.rows }
    requires tops { length tops.old ≡ 1024 }
    requires counts { length counts.old ≡ 4096 }
    ensures is { IsFirstLeast (length (words_in at.now.block.now))
        (λ i. weight (restrict (others at.now.block.now.sets.now spot.old.set)
        (slice_index_or (words_in at.now.block.now) i []))) result.0 result.1 }
    ensures few { result.0 ≤ 255 }
    ensures room { spot.new.room ≡ spot.old.room }
{
    let GridBlock { block, grid } = *at;
    let set = spot.set();
    let level = spot.support().len();
    let len = block.plan.block_len(block.number) as usize;
    let counts = &mut counts[..len];
    let Some(many) = head_count(block.sets, level) else {
        count_fronts(block, grid, spot, fronts, counts);
        return first_counted(block, set, counts);
    };
    let support = &mut places[..level];
    let heads = &mut tops[..many];
    if grid.parts.len() == 1 {
        return least_sweeps(block, grid, spot, support, heads, counts);
    }
    count_sweeps(block, grid, spot, support, heads, counts);
    first_counted(block, set, counts)
}
