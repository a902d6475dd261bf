//! The words of blocks by supports, over more than 2 elements. The planes of the words of the first places of a support,
//! with all lists of coefficients, at a part of the columns outside the basis, are its heads; they are kept from support
//! to support. If that part has all these columns, no word is counted unless it may be lighter than all before.

ghost use Rattle.std.specs.Prelude.{◌≡◌, ℕ, ◌+◌, ◌-◌, ◌*◌, ◌^◌, ◌<◌, ◌≤◌, [], Some, None, length, take, slice_get, slice_index, slice_index_or, IfSome, IfNone};
ghost use Rattle.std.specs.List.{Contains};
ghost use Rattle.lc_algebra.specs.Field.{size};
ghost use Rattle.lc_algebra.specs.Word.{weight};
ghost use Rattle.lc_algebra.specs.SpanLaws.{restrict};
ghost use Rattle.lc_enumeration.specs.Message.{messages, supports_from, leading_lists};
ghost use Rattle.lc_enumeration.specs.Search.{set_count};
ghost use Rattle.lc_place.specs.Place.{spot_message};
ghost use Rattle.lc_kernel.specs.Block.{IsSpotIn, words_in};
ghost use Rattle.lc_kernel.specs.Packed.{others};
ghost use Rattle.lc_kernel.specs.Grids.{IsGrid};
ghost use Rattle.lc_distances.specs.Least.{IsFirstBelow};
ghost use Rattle.lc_kernel.specs.Sweeps.{list_count, IsListed, AreHeadsOf, AreHalvesOf, TooManyHeads};

use crate::block::Block;
use crate::grid::Grid;
use crate::multiples::nonzero;
use lc_distances::{Halves, joined, nearest, sum_planes};
use lc_infoset::Sets;
use lc_place::{Spot, move_on};

/// A way through the words of a block, support by support, at one part of the columns outside the basis: the block, the
/// table of its set, the index of the part, and that of the set.
#[derive(Clone, Copy)]
pub(crate) struct Sweep<'a> {
    pub(crate) block: Block<'a>,
    pub(crate) grid: &'a Grid,
    pub(crate) part: usize,
    pub(crate) set: usize,
}

/// A message on the way: its support, the index of its coefficients among the lists of its level, and its offset in the
/// block.
#[derive(Clone, Copy)]
pub(crate) struct Listed<'a> {
    pub(crate) support: &'a [usize],
    pub(crate) list: usize,
    pub(crate) done: usize,
}

/// The most heads that a support has.
pub(crate) const MOST_HEADS: usize = 1024;

/// So many heads, times the nonzero elements, are too many: most of them would be made for the words of other blocks.
const TOO_MANY: usize = 4096;

/// How many heads a support of a level of at least 3 has. None exactly if there are too many: more than 1,024, or 4,096
/// or more with one coefficient more.
#[tactic(auto, using(crate::proofs::TableCounts::heads_below))]
pub(crate) fn head_count(sets: &Sets, level: usize) -> Option<usize>
    requires level { 3 ≤ level }
    ensures is { IfSome result (λ many. many ≡ list_count sets.now (level - 2)) }
    ensures few { IfSome result (λ many. many ≤ 1024) }
    ensures under { IfSome result (λ many. many * (size sets.now.field - 1) < 4096) }
    ensures none { IfNone result (TooManyHeads sets.now level) }
{
    let elements = nonzero(sets);
    let mut many = 1;
    for _place in 3..level {
        many *= elements;
        if many > MOST_HEADS {
            return None;
        }
    }
    if many * elements >= TOO_MANY {
        return None;
    }
    Some(many)
}

/// The index of the coefficients of a spot among the lists of its level.
pub(crate) fn list_of(sets: &Sets, spot: &Spot) -> usize
    requires message { Contains (messages (length sets.now.rows) (size sets.now.field) (length spot.now.support))
        (spot_message spot.now) }
    requires level { 3 ≤ length spot.now.support }
    requires few { list_count sets.now (length spot.now.support) ≤ 2 ^ 18 }
    ensures is { slice_get (leading_lists (size sets.now.field) (length spot.now.support)) result
        ≡ Some spot.now.coefficients }
{
    let elements = nonzero(sets);
    let coefficients = spot.coefficients();
    let mut list = 0;
    for i in 1..coefficients.len() {
        list = list * elements + (coefficients[i] as usize - 1);
    }
    list
}

// The row and the column of the place before a place, in rows of so many columns.
#[inline]
fn place_before(row: usize, column: usize, columns: usize) -> (usize, usize)
    requires some { 0 < columns }
    requires inside { column < columns }
    requires later { column ≡ 0 → 0 < row }
    ensures place { result.0 * columns + result.1 + 1 ≡ row * columns + column }
    ensures inside { result.1 < columns }
{
    if column == 0 {
        return (row - 1, columns - 1);
    }
    (row, column - 1)
}

// Makes the heads of one place more, from those of the first i.
fn grow(sweep: &Sweep<'_>, support: &[usize], i: usize, many: usize, heads: &mut [[u64; 4]])
    requires set { sweep.now.set < set_count sweep.now.block.sets.now }
    requires rises { Contains (supports_from 0 (length sweep.now.block.sets.now.rows) (length support.now))
        support.now }
    requires grid { IsGrid sweep.now.block.sets.now sweep.now.set sweep.now.grid.now }
    requires part { sweep.now.part < length sweep.now.grid.now.parts.items }
    requires some { 1 ≤ i }
    requires entry { i < length support.now }
    requires many { many ≡ list_count sweep.now.block.sets.now (i + 1) }
    requires room { many ≤ length heads.old }
    requires heads { AreHeadsOf sweep.now support.now i heads.old }
    ensures heads { AreHeadsOf sweep.now support.now (i + 1) heads.new }
{
    let sets = sweep.block.sets;
    let elements = nonzero(sets);
    let table = &sweep.grid.parts[sweep.part];
    let row = support[i] * elements;
    let mut e = many;
    let mut head = many / elements;
    let mut element = many % elements;
    while e > 0 {
        e -= 1;
        let (above, last) = place_before(head, element, elements);
        let sum = sum_planes(sets.field(), &heads[above], &table.rows[row + last]);
        heads[e] = sum;
        head = above;
        element = last;
    }
}

/// Makes the heads of a support at a part of the columns.
pub(crate) fn make_heads(sweep: &Sweep<'_>, support: &[usize], heads: &mut [[u64; 4]])
    requires set { sweep.now.set < set_count sweep.now.block.sets.now }
    requires rises { Contains (supports_from 0 (length sweep.now.block.sets.now.rows) (length support.now))
        support.now }
    requires grid { IsGrid sweep.now.block.sets.now sweep.now.set sweep.now.grid.now }
    requires part { sweep.now.part < length sweep.now.grid.now.parts.items }
    requires level { 3 ≤ length support.now }
    requires room { list_count sweep.now.block.sets.now (length support.now - 2) ≤ length heads.old }
    requires few { list_count sweep.now.block.sets.now (length support.now - 2) ≤ 1024 }
    ensures heads { AreHeadsOf sweep.now support.now (length support.now - 2) heads.new }
{
    let elements = nonzero(sweep.block.sets);
    let table = &sweep.grid.parts[sweep.part];
    heads[0] = table.rows[support[0] * elements];
    let mut many = 1;
    for i in 1..support.len() - 2 {
        many *= elements;
        grow(sweep, support, i, many, heads);
    }
}

/// The words with a support, as its heads and the tails of its last two places, at a part of the columns.
pub(crate) fn halves_of<'a>(
    sweep: &Sweep<'a>,
    support: &[usize],
    heads: &'a [[u64; 4]],
) -> Halves<'a>
    requires set { sweep.now.set < set_count sweep.now.block.sets.now }
    requires rises { Contains (supports_from 0 (length sweep.now.block.sets.now.rows) (length support.now))
        support.now }
    requires level { 3 ≤ length support.now }
    requires grid { IsGrid sweep.now.block.sets.now sweep.now.set sweep.now.grid.now }
    requires part { sweep.now.part < length sweep.now.grid.now.parts.items }
    requires many { length heads.now ≡ list_count sweep.now.block.sets.now (length support.now - 2) }
    requires few { length heads.now ≤ 1024 }
    requires heads { AreHeadsOf sweep.now support.now (length support.now - 2) heads.now }
    ensures are { AreHalvesOf sweep.now.block.sets.now sweep.now.set support.now sweep.now.part result }
{
    let elements = nonzero(sweep.block.sets);
    let tails = elements * elements;
    let first = support[support.len() - 2];
    let last = support[support.len() - 1];
    let pair = sweep.grid.starts[first] + (last - first - 1);
    let table = &sweep.grid.parts[sweep.part];
    Halves {
        planes: sweep.grid.planes,
        bits: table.bits.as_slice(),
        words: sweep.grid.tails,
        start: pair * tails,
        tails,
        heads,
    }
}

// The least number of nonzero symbols, outside the basis, of words of a block with one support, one for each count,
// from one of its lists on, and the first of them that has it: if it is below the bound.
fn least_support(
    sweep: &Sweep<'_>,
    at: &Listed<'_>,
    heads: &[[u64; 4]],
    bound: u32,
    counts: &mut [u32],
) -> (u32, usize)
    requires set { sweep.now.set < set_count sweep.now.block.sets.now }
    requires at { IsListed sweep.now at.now.done at.now.support.now at.now.list }
    requires grid { IsGrid sweep.now.block.sets.now sweep.now.set sweep.now.grid.now }
    requires alone { length sweep.now.grid.now.parts.items ≡ 1 }
    requires part { sweep.now.part < length sweep.now.grid.now.parts.items }
    requires many { length heads.now ≡ list_count sweep.now.block.sets.now (length at.now.support.now - 2) }
    requires few { length heads.now ≤ 1024 }
    requires heads { AreHeadsOf sweep.now at.now.support.now (length at.now.support.now - 2) heads.now }
    requires lists { at.now.list + length counts.old ≤ list_count sweep.now.block.sets.now (length at.now.support.now) }
    requires words { at.now.done + length counts.old ≤ length (words_in sweep.now.block) }
    ensures is { IsFirstBelow (length counts.old)
        (λ i. weight (restrict (others sweep.now.block.sets.now sweep.now.set)
        (slice_index_or (words_in sweep.now.block) (at.now.done + i) []))) bound result.0 result.1 }
{
    let halves = halves_of(sweep, at.support, heads);
    nearest(&halves, at.list, bound, counts)
}

// Goes to the next support among k places. Returns the first place that changed. None if there is no next
// one.
fn next_support(support: &mut [usize], k: usize) -> Option<usize>
    requires few { k ≤ 255 }
    requires rises { Contains (supports_from 0 k (length support.old)) support.old }
    ensures next { IfSome result (λ _. (n : ℕ) → slice_get (supports_from 0 k (length support.old)) n
        ≡ Some support.old → slice_get (supports_from 0 k (length support.old)) (n + 1) ≡ Some support.new) }
    ensures inside { IfSome result (λ i. i < length support.old) }
    ensures same { IfSome result (λ i. take i support.new ≡ take i support.old) }
    ensures last { IfNone result ((n : ℕ) → slice_get (supports_from 0 k (length support.old)) n ≡ Some support.old →
        slice_get (supports_from 0 k (length support.old)) (n + 1) ≡ None) }
    ensures kept { IfNone result (support.new ≡ support.old) }
{
    let many = support.len();
    let mut place = many;
    while place > 0 {
        place -= 1;
        if support[place] + (many - place) < k {
            move_on(support, place);
            return Some(place);
        }
    }
    None
}

/// Goes from a list of a support, with so many lists left, to the first one of the next support, and makes its
/// heads.
pub(crate) fn turn(
    sweep: &Sweep<'_>,
    support: &mut [usize],
    heads: &mut [[u64; 4]],
    list: usize,
    done: usize,
    count: usize,
)
    requires set { sweep.now.set < set_count sweep.now.block.sets.now }
    requires at { IsListed sweep.now done support.old list }
    requires grid { IsGrid sweep.now.block.sets.now sweep.now.set sweep.now.grid.now }
    requires part { sweep.now.part < length sweep.now.grid.now.parts.items }
    requires some { 0 < count }
    requires end { list + count ≡ list_count sweep.now.block.sets.now (length support.old) }
    requires inside { done + count < length (words_in sweep.now.block) }
    requires few { list_count sweep.now.block.sets.now (length support.old - 2) ≤ 1024 }
    requires room { list_count sweep.now.block.sets.now (length support.old - 2) ≤ length heads.old }
    requires heads { AreHeadsOf sweep.now support.old (length support.old - 2) heads.old }
    ensures at { IsListed sweep.now (done + count) support.new 0 }
    ensures heads { AreHeadsOf sweep.now support.new (length support.old - 2) heads.new }
{
    let k = sweep.block.sets.dimension();
    let Some(place) = next_support(support, k) else {
        return;
    };
    if place + 2 < support.len() {
        make_heads(sweep, support, heads);
    }
}

/// How many words come up to the end of a support, from a list on, or to the end of the block, so many words on.
pub(crate) fn words_left(lists: usize, list: usize, left: usize) -> usize
    requires inside { list < lists }
    requires some { 0 < left }
    ensures some { 0 < result }
    ensures within { result ≤ left }
    ensures lists { list + result ≤ lists }
    ensures end { result < left → list + result ≡ lists }
{
    (lists - list).min(left)
}

/// The least number of nonzero symbols, outside the basis, of the words of a block of a level of at least 3, from its
/// first message on, and the first word that has it, by the heads of its supports. There is a count for each word.
pub(crate) fn least_sweeps(
    block: &Block<'_>,
    grid: &Grid,
    spot: &Spot,
    support: &mut [usize],
    heads: &mut [[u64; 4]],
    counts: &mut [u32],
) -> (u32, usize)
    requires set { spot.now.set < set_count block.now.sets.now }
    requires at { IsSpotIn block.now 0 spot.now }
    requires level { 3 ≤ length spot.now.support }
    requires grid { IsGrid block.now.sets.now spot.now.set grid.now }
    requires alone { length grid.now.parts.items ≡ 1 }
    requires places { length support.old ≡ length spot.now.support }
    requires many { length heads.old ≡ list_count block.now.sets.now (length spot.now.support - 2) }
    requires few { length heads.old ≤ 1024 }
    requires some { 0 < length counts.old }
    requires counts { length counts.old ≤ 4096 }
    requires words { length counts.old ≡ length (words_in block.now) }
    ensures is { IsFirstBelow (length counts.old)
        (λ i. weight (restrict (others block.now.sets.now spot.now.set)
        (slice_index_or (words_in block.now) i []))) 256 result.0 result.1 }
{
    let elements = nonzero(block.sets);
    let set = spot.set();
    let sweep = Sweep {
        block: *block,
        grid,
        part: 0,
        set,
    };
    let mut list = list_of(block.sets, spot);
    support.copy_from_slice(spot.support());
    make_heads(&sweep, support, heads);
    let lists = heads.len() * (elements * elements);
    let mut least = 256;
    let mut at = 0;
    let mut done = 0;
    loop {
        let count = words_left(lists, list, counts.len() - done);
        let part = &mut counts[..count];
        let listed = Listed {
            support,
            list,
            done,
        };
        let (other, place) = least_support(&sweep, &listed, heads, least, part);
        let (best, index) = joined(least, at, other, place, done);
        if done + count >= counts.len() {
            return (best, index);
        }
        turn(&sweep, support, heads, list, done, count);
        least = best;
        at = index;
        done += count;
        list = 0;
    }
}
