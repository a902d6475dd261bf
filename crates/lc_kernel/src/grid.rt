//! The table of an information set over more than 2 elements: the words that end messages, as bits.

ghost use Rattle.std.specs.Prelude.{◌≡◌, ℕ, ◌+◌, ◌-◌, ◌*◌, ◌^◌, ◌<◌, ◌≤◌, ◌∷◌, [], Some, None, true, false, length, slice_get, slice_index, slice_index_or, IfOk};
ghost use Rattle.lc_algebra.specs.Field.{size};
ghost use Rattle.lc_algebra.specs.Word.{IsWord};
ghost use Rattle.lc_enumeration.specs.Message.{supports_from};
ghost use Rattle.lc_enumeration.specs.Search.{set_count};
ghost use Rattle.lc_kernel.specs.Packed.{others, EndsAt};
ghost use Rattle.lc_planes.specs.Planes.{plane_at, negative};
ghost use Rattle.lc_kernel.specs.Sums.{AreMultiples};
ghost use Rattle.lc_kernel.specs.Grid.{tail_count, tail_word, tails_in, AreTails, ArePlanesOf};
ghost use Rattle.lc_kernel.specs.Grids.{HasRoom, LacksRoom, IsGridPart, AreGridParts, IsGrid};

use crate::block::Block;
use crate::fronts::row_planes;
use crate::multiples::{RowMultiples, multiple_of, nonzero};
use crate::parts::pair_starts;
use crate::table::columns_outside;
use lc_distances::gather;
use lc_field::NoMemory;
use lc_infoset::Sets;
use lc_planes::plane_of;
use lc_vec::{Word, put_added, scale};
use std::alloc::Global;

/// The most tails that a table has.
const MOST: usize = 262_144;

/// For at most 64 columns outside the basis of a set: the planes there of the nonzero multiples of the rows, and of the
/// negatives of all tails, plane by plane.
#[derive(Drop)]
pub(crate) struct GridPart {
    pub(crate) rows: Vec<[u64; 4]>,
    pub(crate) bits: Vec<u64>,
}

/// For one set: how many planes the symbols have, how many tails there are, the parts for the columns outside its
/// basis, 64 columns each but the last, and for each row the index of its first pair.
#[derive(Drop)]
pub(crate) struct Grid {
    pub(crate) planes: usize,
    pub(crate) tails: usize,
    pub(crate) parts: Vec<GridPart>,
    pub(crate) starts: Vec<usize>,
}

/// A table at one part of the columns: the table, and the index of the part.
#[derive(Clone, Copy)]
pub(crate) struct GridAt<'a> {
    pub(crate) grid: &'a Grid,
    pub(crate) part: usize,
}

/// A block and the table of its set.
#[derive(Clone, Copy)]
pub(crate) struct GridBlock<'a> {
    pub(crate) block: &'a Block<'a>,
    pub(crate) grid: &'a Grid,
}

// The negative of the sum of multiples of rows a and b: tail t.
fn tail(
    alloc: Global,
    rows: &RowMultiples<'_>,
    a: usize,
    b: usize,
    t: usize,
) -> Result<Word, NoMemory>
    requires multiples { AreMultiples rows.now.sets.now rows.now.words.now }
    requires set { rows.now.set < set_count rows.now.sets.now }
    requires first { a < length rows.now.sets.now.rows }
    requires second { b < length rows.now.sets.now.rows }
    requires tail { t < tail_count rows.now.sets.now }
    ensures is { IfOk result (λ w. w ≡ negative rows.now.sets.now.field
        (tail_word rows.now.sets.now rows.now.set a b t)) }
    ensures word { IfOk result (λ w. IsWord rows.now.sets.now.field rows.now.sets.now.columns w) }
{
    let sets = rows.sets;
    let elements = nonzero(sets);
    let n = sets.length();
    let first = multiple_of(sets, rows.words, rows.set, a, (t / elements) as u8 + 1);
    let second = multiple_of(sets, rows.words, rows.set, b, (t % elements) as u8 + 1);
    let mut symbols = vec![in alloc; 0u8; n]?;
    put_added(
        sets.field(),
        &mut symbols,
        first.symbols(),
        second.symbols(),
    );
    scale(sets.field(), &mut symbols, sets.field().neg(1));
    Ok(Word::from_vec(symbols))
}

// Pushes the tails of rows a and b, whose pair has this index.
fn push_tails(
    alloc: Global,
    rows: &RowMultiples<'_>,
    a: usize,
    b: usize,
    pair: usize,
    words: &mut Vec<Word>,
) -> Result<(), NoMemory>
    requires multiples { AreMultiples rows.now.sets.now rows.now.words.now }
    requires set { rows.now.set < set_count rows.now.sets.now }
    requires first { a < length rows.now.sets.now.rows }
    requires second { b < length rows.now.sets.now.rows }
    requires pair { slice_get (supports_from 0 (length rows.now.sets.now.rows) 2) pair ≡ Some (a ∷ b ∷ []) }
    requires tails { AreTails rows.now.sets.now rows.now.set (pair * tail_count rows.now.sets.now) words.old.items }
    ensures tails { IfOk result (λ _. AreTails rows.now.sets.now rows.now.set
        ((pair + 1) * tail_count rows.now.sets.now) words.new.items) }
{
    let sets = rows.sets;
    let elements = nonzero(sets);
    for t in 0..elements * elements {
        words.push(tail(alloc, rows, a, b, t)?)?;
    }
    Ok(())
}

// Pushes the tails of row a and each later row, the first of whose pairs has this index.
fn push_row(
    alloc: Global,
    rows: &RowMultiples<'_>,
    a: usize,
    first: usize,
    words: &mut Vec<Word>,
) -> Result<(), NoMemory>
    requires multiples { AreMultiples rows.now.sets.now rows.now.words.now }
    requires set { rows.now.set < set_count rows.now.sets.now }
    requires row { a < length rows.now.sets.now.rows }
    requires first { EndsAt (length rows.now.sets.now.rows) 2 a first }
    requires tails { AreTails rows.now.sets.now rows.now.set (first * tail_count rows.now.sets.now) words.old.items }
    ensures tails { IfOk result (λ _. AreTails rows.now.sets.now rows.now.set
        ((first + (length rows.now.sets.now.rows - a - 1)) * tail_count rows.now.sets.now) words.new.items) }
{
    let sets = rows.sets;
    let _n = sets.length();
    let k = sets.dimension();
    for b in a + 1..k {
        push_tails(alloc, rows, a, b, first + (b - a - 1), words)?;
    }
    Ok(())
}

// The negatives of all tails of a set.
fn all_tails(alloc: Global, rows: &RowMultiples<'_>) -> Result<Vec<Word>, NoMemory>
    requires multiples { AreMultiples rows.now.sets.now rows.now.words.now }
    requires set { rows.now.set < set_count rows.now.sets.now }
    ensures are { IfOk result (λ ws. AreTails rows.now.sets.now rows.now.set (tails_in rows.now.sets.now) ws.items) }
    ensures few { IfOk result (λ ws. length ws.items
        ≤ length rows.now.sets.now.rows * length rows.now.sets.now.rows * tail_count rows.now.sets.now) }
{
    let sets = rows.sets;
    let _n = sets.length();
    let k = sets.dimension();
    let mut words = Vec::new(alloc);
    let mut pair = 0;
    for a in 0..k {
        push_row(alloc, rows, a, pair, &mut words)?;
        pair += k - a - 1;
    }
    Ok(words)
}

// Pushes a plane of the words at some columns.
fn push_plane(
    words: &[Word],
    columns: &[usize],
    plane: usize,
    bits: &mut Vec<u64>,
) -> Result<(), NoMemory>
    requires few { length columns.now ≤ 64 }
    requires plane { plane < 8 }
    requires inside { (i t : ℕ) → i < length words.now → t < length columns.now →
        slice_index columns.now t < length (slice_index_or words.now i []) }
    ensures long { IfOk result (λ _. length bits.new.items ≡ length bits.old.items + length words.now) }
    ensures before { IfOk result (λ _. (i : ℕ) → i < length bits.old.items →
        slice_index bits.new.items i ≡ slice_index bits.old.items i) }
    ensures after { IfOk result (λ _. (e : ℕ) → e < length words.now →
        slice_index bits.new.items (length bits.old.items + e)
        ≡ plane_at plane columns.now (slice_index_or words.now e [])) }
{
    for e in 0..words.len() {
        let block = gather(words[e].symbols(), columns);
        bits.push(plane_of(&block, plane))?;
    }
    Ok(())
}

// The planes of the words at some columns, plane by plane.
fn planes_of(
    alloc: Global,
    words: &[Word],
    columns: &[usize],
    planes: usize,
) -> Result<Vec<u64>, NoMemory>
    requires few { length columns.now ≤ 64 }
    requires planes { planes ≤ 4 }
    requires inside { (i t : ℕ) → i < length words.now → t < length columns.now →
        slice_index columns.now t < length (slice_index_or words.now i []) }
    ensures are { IfOk result (λ bits. ArePlanesOf columns.now planes words.now bits.items) }
{
    let mut bits = Vec::new(alloc);
    for plane in 0..planes {
        push_plane(words, columns, plane, &mut bits)?;
    }
    Ok(bits)
}

// Pushes the parts for these columns.
fn push_parts(
    alloc: Global,
    rows: &RowMultiples<'_>,
    columns: &[usize],
    words: &[Word],
    planes: usize,
    parts: &mut Vec<GridPart>,
) -> Result<(), NoMemory>
    requires multiples { AreMultiples rows.now.sets.now rows.now.words.now }
    requires set { rows.now.set < set_count rows.now.sets.now }
    requires columns { columns.now ≡ others rows.now.sets.now rows.now.set }
    requires words { AreTails rows.now.sets.now rows.now.set (tails_in rows.now.sets.now) words.now }
    requires planes { planes ≤ 4 }
    requires none { parts.old.items ≡ [] }
    ensures wide { IfOk result (λ _. length columns.now ≤ 64 * length parts.new.items) }
    ensures are { IfOk result (λ _. AreGridParts rows.now.sets.now rows.now.set planes parts.new.items) }
{
    let mut start = 0;
    while start < columns.len() {
        let end = columns.len().min(start + 64);
        let cut = &columns[start..end];
        parts.push(grid_part(alloc, rows, cut, words, planes)?)?;
        start = end;
    }
    Ok(())
}

// The part for these columns.
fn grid_part(
    alloc: Global,
    rows: &RowMultiples<'_>,
    columns: &[usize],
    words: &[Word],
    planes: usize,
) -> Result<GridPart, NoMemory>
    requires multiples { AreMultiples rows.now.sets.now rows.now.words.now }
    requires set { rows.now.set < set_count rows.now.sets.now }
    requires few { length columns.now ≤ 64 }
    requires inside { (t : ℕ) → t < length columns.now → slice_index columns.now t < rows.now.sets.now.columns }
    requires words { AreTails rows.now.sets.now rows.now.set (tails_in rows.now.sets.now) words.now }
    requires planes { planes ≤ 4 }
    ensures is { IfOk result (λ p. IsGridPart rows.now.sets.now rows.now.set columns.now planes
        p.rows.items p.bits.items) }
{
    let rows = row_planes(alloc, rows, columns, planes)?;
    let bits = planes_of(alloc, words, columns, planes)?;
    Ok(GridPart { rows, bits })
}

// How many planes the symbols of the field have.
fn plane_count(sets: &Sets) -> usize
    ensures all { size sets.now.field ≤ 2 ^ result }
    ensures least { 2 ≤ result }
    ensures few { result ≤ 4 }
{
    let size = sets.field().size();
    if size <= 4 {
        return 2;
    }
    if size <= 8 {
        return 3;
    }
    4
}

// Whether there is room for the tails of a set.
fn has_room(sets: &Sets) -> bool
    ensures yes { result ≡ true → HasRoom sets.now }
    ensures no { result ≡ false → LacksRoom sets.now }
{
    let _n = sets.length();
    let k = sets.dimension();
    let elements = nonzero(sets);
    if k * k * (elements * elements) > MOST {
        return false;
    }
    true
}

/// The table of set `j`. None exactly if the squares of the dimension and of the number of nonzero elements have a
/// product above `MOST`, so that there may be too many tails.
pub(crate) fn grid_of(
    alloc: Global,
    sets: &Sets,
    multiples: &[Word],
    j: usize,
) -> Result<Option<Grid>, NoMemory>
    requires multiples { AreMultiples sets.now multiples.now }
    requires set { j < set_count sets.now }
    ensures is { IfOk result (λ o. (g : _) → o ≡ Some g → IsGrid sets.now j g) }
    ensures some { IfOk result (λ o. (g : _) → o ≡ Some g → HasRoom sets.now) }
    ensures none { IfOk result (λ o. o ≡ None → LacksRoom sets.now) }
{
    let _n = sets.length();
    if !has_room(sets) {
        return Ok(None);
    }
    let starts = pair_starts(alloc, sets.dimension())?;
    let rows = RowMultiples {
        sets,
        words: multiples,
        set: j,
    };
    let words = all_tails(alloc, &rows)?;
    let tails = words.len();
    let planes = plane_count(sets);
    let parts = parts_of(alloc, &rows, &words, planes)?;
    Ok(Some(Grid {
        planes,
        tails,
        parts,
        starts,
    }))
}

// The parts of a set.
fn parts_of(
    alloc: Global,
    rows: &RowMultiples<'_>,
    words: &[Word],
    planes: usize,
) -> Result<Vec<GridPart>, NoMemory>
    requires multiples { AreMultiples rows.now.sets.now rows.now.words.now }
    requires set { rows.now.set < set_count rows.now.sets.now }
    requires words { AreTails rows.now.sets.now rows.now.set (tails_in rows.now.sets.now) words.now }
    requires planes { planes ≤ 4 }
    ensures wide { IfOk result (λ ps. length (others rows.now.sets.now rows.now.set) ≤ 64 * length ps.items) }
    ensures are { IfOk result (λ ps. AreGridParts rows.now.sets.now rows.now.set planes ps.items) }
{
    let sets = rows.sets;
    let columns = columns_outside(alloc, sets.length(), sets.basis(rows.set))?;
    let mut parts = Vec::new(alloc);
    push_parts(alloc, rows, &columns, words, planes, &mut parts)?;
    Ok(parts)
}
