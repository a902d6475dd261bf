//! The counts of a block of words by supports, over more than 2 elements, part by part of the columns outside the basis.

ghost use Rattle.std.specs.Prelude.{◌≡◌, ◌+◌, ◌-◌, ◌*◌, ◌<◌, ◌≤◌, length, take};
ghost use Rattle.lc_enumeration.specs.Search.{set_count};
ghost use Rattle.lc_kernel.specs.Block.{IsSpotIn, words_in};
ghost use Rattle.lc_kernel.specs.Packed.{others};
ghost use Rattle.lc_kernel.specs.Grids.{IsGrid};
ghost use Rattle.lc_distances.specs.Least.{AreCounted};
ghost use Rattle.lc_kernel.specs.Sweeps.{list_count, IsListed, AreHeadsOf};

use crate::block::Block;
use crate::grid::{Grid, GridAt};
use crate::multiples::nonzero;
use crate::sweeps::{Listed, Sweep, halves_of, list_of, make_heads, turn, words_left};
use lc_distances::add_halves;
use lc_place::Spot;

// Adds what a part of the columns has to the counts of words of a block with one support, from one of its lists on.
fn add_support(sweep: &Sweep<'_>, at: &Listed<'_>, heads: &[[u64; 4]], counts: &mut [u32])
    requires set { sweep.now.set < set_count sweep.now.block.sets.now }
    requires at { IsListed sweep.now at.now.done at.now.support.now at.now.list }
    requires grid { IsGrid sweep.now.block.sets.now sweep.now.set sweep.now.grid.now }
    requires part { sweep.now.part < length sweep.now.grid.now.parts.items }
    requires many { length heads.now ≡ list_count sweep.now.block.sets.now (length at.now.support.now - 2) }
    requires few { length heads.now ≤ 1024 }
    requires heads { AreHeadsOf sweep.now at.now.support.now (length at.now.support.now - 2) heads.now }
    requires lists { at.now.list + length counts.old ≤ list_count sweep.now.block.sets.now (length at.now.support.now) }
    requires words { at.now.done + length counts.old ≤ length (words_in sweep.now.block) }
    requires counted { AreCounted (take (64 * sweep.now.part) (others sweep.now.block.sets.now sweep.now.set))
        (words_in sweep.now.block) at.now.done (length counts.old) counts.old }
    ensures counted { AreCounted (take (64 * (sweep.now.part + 1)) (others sweep.now.block.sets.now sweep.now.set))
        (words_in sweep.now.block) at.now.done (length counts.old) counts.new }
{
    let halves = halves_of(sweep, at.support, heads);
    add_halves(&halves, at.list, counts);
}

// Adds what a part of the columns has to the counts of the words of a block of a level of at least 3, from its first
// message on, by the heads of its supports.
fn add_sweep(
    block: &Block<'_>,
    table: &GridAt<'_>,
    spot: &Spot,
    support: &mut [usize],
    heads: &mut [[u64; 4]],
    counts: &mut [u32],
)
    requires set { spot.now.set < set_count block.now.sets.now }
    requires at { IsSpotIn block.now 0 spot.now }
    requires level { 3 ≤ length spot.now.support }
    requires grid { IsGrid block.now.sets.now spot.now.set table.now.grid.now }
    requires part { table.now.part < length table.now.grid.now.parts.items }
    requires places { length support.old ≡ length spot.now.support }
    requires many { length heads.old ≡ list_count block.now.sets.now (length spot.now.support - 2) }
    requires few { length heads.old ≤ 1024 }
    requires some { 0 < length counts.old }
    requires words { length counts.old ≡ length (words_in block.now) }
    requires counted { AreCounted (take (64 * table.now.part) (others block.now.sets.now spot.now.set))
        (words_in block.now) 0 (length counts.old) counts.old }
    ensures counted { AreCounted (take (64 * (table.now.part + 1)) (others block.now.sets.now spot.now.set))
        (words_in block.now) 0 (length counts.old) counts.new }
{
    let elements = nonzero(block.sets);
    let set = spot.set();
    let sweep = Sweep {
        block: *block,
        grid: table.grid,
        part: table.part,
        set,
    };
    let mut list = list_of(block.sets, spot);
    support.copy_from_slice(spot.support());
    make_heads(&sweep, support, heads);
    let lists = heads.len() * (elements * elements);
    let mut done = 0;
    loop {
        let count = words_left(lists, list, counts.len() - done);
        let end = done + count;
        let piece = &mut counts[done..end];
        let listed = Listed {
            support,
            list,
            done,
        };
        add_support(&sweep, &listed, heads, piece);
        if end >= counts.len() {
            return;
        }
        turn(&sweep, support, heads, list, done, count);
        done = end;
        list = 0;
    }
}

/// Counts the nonzero symbols, outside the basis, of the words of a block of a level of at least 3, from its first
/// message on, by the heads of its supports.
pub(crate) fn count_sweeps(
    block: &Block<'_>,
    grid: &Grid,
    spot: &Spot,
    support: &mut [usize],
    heads: &mut [[u64; 4]],
    counts: &mut [u32],
)
    requires set { spot.now.set < set_count block.now.sets.now }
    requires at { IsSpotIn block.now 0 spot.now }
    requires level { 3 ≤ length spot.now.support }
    requires grid { IsGrid block.now.sets.now spot.now.set grid.now }
    requires places { length support.old ≡ length spot.now.support }
    requires many { length heads.old ≡ list_count block.now.sets.now (length spot.now.support - 2) }
    requires few { length heads.old ≤ 1024 }
    requires some { 0 < length counts.old }
    requires words { length counts.old ≡ length (words_in block.now) }
    ensures counted { AreCounted (others block.now.sets.now spot.now.set) (words_in block.now) 0
        (length counts.old) counts.new }
{
    counts.fill(0);
    for part in 0..grid.parts.len() {
        add_sweep(block, &GridAt { grid, part }, spot, support, heads, counts);
    }
}
