//! The sums of two or three rows of an information set over 2 elements, as bits.

ghost use Rattle.std.specs.Prelude.{◌≡◌, ℕ, suc, ◌+◌, ◌<◌, ◌≤◌, length, slice_index, bit_xor, IfOk};
ghost use Rattle.lc_algebra.specs.declared.FieldName.TheVariants.{Gf2};
ghost use Rattle.lc_algebra.specs.Word.{Fits};
ghost use Rattle.lc_enumeration.specs.Message.{supports_from};
ghost use Rattle.lc_enumeration.specs.Search.{set_count};
ghost use Rattle.lc_kernel.specs.Packed.{bits_at, AreStarts, AreRowSums, AreRowBits, IsPart};

use lc_field::NoMemory;
use lc_infoset::Sets;
use std::alloc::Global;

/// For at most 64 columns outside the basis of a set: the bits of the set's rows there, and those of the sums
/// of the rows at each tail of two or three places, in the order of the tails.
#[derive(Drop)]
pub(crate) struct Part {
    pub(crate) rows: Vec<u64>,
    pub(crate) sums: Vec<u64>,
}

/// The tails of messages: how many places they have, two or three, and for each row the index of its first pair.
#[derive(Clone, Copy)]
pub(crate) struct Tails<'a> {
    pub(crate) places: usize,
    pub(crate) pairs: &'a [usize],
}

/// The part for these columns, at most 64, of set `j` over 2 elements, with these tails.
pub(crate) fn part_of(
    alloc: Global,
    sets: &Sets,
    j: usize,
    tails: &Tails<'_>,
    columns: &[usize],
) -> Result<Part, NoMemory>
    requires set { j < set_count sets.now }
    requires field { sets.now.field ≡ Gf2 }
    requires least { 2 ≤ tails.now.places }
    requires most { tails.now.places ≤ 3 }
    requires pairs { AreStarts (length sets.now.rows) 2 tails.now.pairs.now }
    requires few { length columns.now ≤ 64 }
    requires inside { (t : ℕ) → t < length columns.now → slice_index columns.now t < sets.now.columns }
    ensures is { IfOk result (λ p. IsPart sets.now j tails.now.places columns.now p.rows.items p.sums.items) }
{
    let _k = sets.dimension();
    let _n = sets.length();
    let rows = row_bits(alloc, sets, j, columns)?;
    let sums = tail_sums(alloc, tails, &rows)?;
    Ok(Part { rows, sums })
}

// The bits of the rows of set j at these columns.
fn row_bits(alloc: Global, sets: &Sets, j: usize, columns: &[usize]) -> Result<Vec<u64>, NoMemory>
    requires set { j < set_count sets.now }
    requires field { sets.now.field ≡ Gf2 }
    requires few { length columns.now ≤ 64 }
    requires inside { (t : ℕ) → t < length columns.now → slice_index columns.now t < sets.now.columns }
    ensures are { IfOk result (λ rows. AreRowBits sets.now j columns.now rows.items) }
{
    let mut rows = Vec::with_capacity(alloc, sets.dimension())?;
    for i in 0..sets.dimension() {
        rows.push(bits_of(sets.row(j, i), columns))?;
    }
    Ok(rows)
}

// The bits of a word over 2 elements at these columns.
fn bits_of(word: &[u8], columns: &[usize]) -> u64
    requires bits { Fits Gf2 word.now }
    requires few { length columns.now ≤ 64 }
    requires inside { (t : ℕ) → t < length columns.now → slice_index columns.now t < length word.now }
    ensures is { result ≡ bits_at columns.now word.now }
{
    let mut bits = 0;
    let mut t = columns.len();
    while t > 0 {
        t -= 1;
        bits = bits * 2 + word[columns[t]] as u64;
    }
    bits
}

/// For each of k rows, k at most 255, the index of its first pair, and how many pairs there are.
pub(crate) fn pair_starts(alloc: Global, k: usize) -> Result<Vec<usize>, NoMemory>
    requires few { k ≤ 255 }
    ensures are { IfOk result (λ starts. AreStarts k 2 starts.items) }
{
    let rows = row_starts(alloc, k)?;
    longer_starts(alloc, k, 1, &rows, k)
}

/// For each of k rows, k at most 255, the index of its first tail of two or three places, and how many tails
/// there are. For each row it needs the index of its first pair.
pub(crate) fn tail_starts(
    alloc: Global,
    k: usize,
    tail: usize,
    pairs: &[usize],
) -> Result<Vec<usize>, NoMemory>
    requires few { k ≤ 255 }
    requires least { 2 ≤ tail }
    requires most { tail ≤ 3 }
    requires pairs { AreStarts k 2 pairs.now }
    ensures are { IfOk result (λ starts. AreStarts k tail starts.items) }
{
    if tail == 2 {
        let starts = pair_starts(alloc, k)?;
        return Ok(starts);
    }
    longer_starts(alloc, k, 2, pairs, pairs[k])
}

// For each of k rows its own index, and k.
fn row_starts(alloc: Global, k: usize) -> Result<Vec<usize>, NoMemory>
    requires few { k ≤ 255 }
    ensures are { IfOk result (λ starts. AreStarts k 1 starts.items) }
{
    let mut starts = Vec::with_capacity(alloc, k + 1)?;
    for a in 0..k + 1 {
        starts.push(a)?;
    }
    Ok(starts)
}

// The first tails of one place more than those with these starts, of which there are `many`.
fn longer_starts(
    alloc: Global,
    k: usize,
    places: usize,
    starts: &[usize],
    many: usize,
) -> Result<Vec<usize>, NoMemory>
    requires few { k ≤ 255 }
    requires small { length (supports_from 0 k (suc places)) ≤ 16581375 }
    requires starts { AreStarts k places starts.now }
    requires many { many ≡ length (supports_from 0 k places) }
    ensures are { IfOk result (λ longer. AreStarts k (suc places) longer.items) }
{
    let mut longer = Vec::with_capacity(alloc, k + 1)?;
    let mut first = 0;
    for a in 0..k {
        longer.push(first)?;
        first += many - starts[a + 1];
    }
    longer.push(first)?;
    Ok(longer)
}

// The sums of the rows at each tail of two or three places.
fn tail_sums(alloc: Global, tails: &Tails<'_>, rows: &[u64]) -> Result<Vec<u64>, NoMemory>
    requires few { length rows.now ≤ 255 }
    requires least { 2 ≤ tails.now.places }
    requires most { tails.now.places ≤ 3 }
    requires pairs { AreStarts (length rows.now) 2 tails.now.pairs.now }
    ensures are { IfOk result (λ sums. AreRowSums (length rows.now) tails.now.places rows.now sums.items) }
{
    let k = rows.len();
    let starts = row_starts(alloc, k)?;
    let sums = longer_sums(alloc, 1, &starts, rows, rows, k * k / 2)?;
    if tails.places == 2 {
        return Ok(sums);
    }
    longer_sums(alloc, 2, tails.pairs, rows, &sums, k * k * k / 6)
}

// The sums of the rows at each tail of one place more than those with these starts and sums. It asks for room
// for so many at once.
fn longer_sums(
    alloc: Global,
    places: usize,
    starts: &[usize],
    rows: &[u64],
    sums: &[u64],
    room: usize,
) -> Result<Vec<u64>, NoMemory>
    requires starts { AreStarts (length rows.now) places starts.now }
    requires sums { AreRowSums (length rows.now) places rows.now sums.now }
    ensures are { IfOk result (λ longer. AreRowSums (length rows.now) (suc places) rows.now longer.items) }
{
    let mut longer = Vec::with_capacity(alloc, room)?;
    for a in 0..rows.len() {
        push_sums(rows[a], &sums[starts[a + 1]..], &mut longer)?;
    }
    Ok(longer)
}

// Pushes the sums of a row and each of some sums.
fn push_sums(row: u64, sums: &[u64], longer: &mut Vec<u64>) -> Result<(), NoMemory>
    ensures long { IfOk result (λ _. length longer.new.items ≡ length longer.old.items + length sums.now) }
    ensures before { IfOk result (λ _. (r : ℕ) → r < length longer.old.items →
        slice_index longer.new.items r ≡ slice_index longer.old.items r) }
    ensures after { IfOk result (λ _. (x : ℕ) → x < length sums.now →
        slice_index longer.new.items (length longer.old.items + x) ≡ bit_xor row (slice_index sums.now x)) }
{
    for i in 0..sums.len() {
        longer.push(row ^ sums[i])?;
    }
    Ok(())
}
