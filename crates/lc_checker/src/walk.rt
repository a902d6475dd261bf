//! The walk through the words of the messages of some levels, in the order of the messages, to the first one that is lighter.

ghost use Rattle.std.specs.Prelude.{◌≡◌, ℕ, ◌+◌, ◌-◌, ◌<◌, ◌≤◌, false, List, [], length, set, take, drop, find, slice_index, slice_index_or, All, Some, None, IfOk, IfSome, IfNone};
ghost use Rattle.lc_algebra.specs.Field.{size};
ghost use Rattle.lc_algebra.specs.Word.{IsWord, zero_word, word_sum, scale};
ghost use Rattle.lc_formats.specs.Certificate.{is_lighter};
ghost use Rattle.lc_checker.specs.Packed.{ArePacked};
ghost use Rattle.lc_checker.specs.Walk.{AreSums, words_along, support_words, words_over, words_from, found};

use crate::bits::{lighter_in_bits, packed_rows};
use crate::blocks::has_light;
use crate::heads::spans_lighter;
use crate::sums::has_lighter_sum;
use lc_field::NoMemory;
use lc_matrix::Matrix;
use lc_vec::{Word, weight};
use std::alloc::Global;

/// A walk through the words of a level, to one that is lighter than the distance. They are sums of nonzero multiples of `width`
/// rows. The rows are also there as bits, or `bits` is empty.
#[derive(Clone, Copy)]
pub(crate) struct Walk<'a> {
    pub(crate) rows: &'a Matrix,
    pub(crate) bits: &'a [u64],
    pub(crate) distance: u64,
    pub(crate) width: usize,
}

// The first word of the levels 1 to `level` over these rows that is lighter than the distance, and not zero. Whether there is
// one is seen first, in the quickest order.
pub(crate) fn first_lighter(
    alloc: Global,
    rows: &Matrix,
    distance: u64,
    level: usize,
) -> Result<Option<Word>, NoMemory>
    requires level { level ≤ length rows.now.rows }
    requires rows { length rows.now.rows ≤ 255 }
    ensures is { IfOk result
        (λ w. w ≡ find (is_lighter distance) (words_from rows.now.field rows.now.columns rows.now.rows 1 level)) }
{
    if !has_lighter(alloc, rows, distance, level)? {
        return Ok(None);
    }
    first_in_order(alloc, rows, distance, level)
}

// Whether there is such a word, or, for all levels at once, a lighter word at all.
#[tactic(auto, using(crate::proofs::PackedLaws::binary_field))]
fn has_lighter(alloc: Global, rows: &Matrix, distance: u64, level: usize) -> Result<bool, NoMemory>
    requires level { level ≤ length rows.now.rows }
    requires rows { length rows.now.rows ≤ 255 }
    ensures none { IfOk result
        (λ b. b ≡ false → None
        ≡ find (is_lighter distance) (words_from rows.now.field rows.now.columns rows.now.rows 1 level)) }
{
    if level == rows.rows() && rows.field().size() <= 16 && rows.cols() <= 256 {
        let light = spans_lighter(alloc, rows, distance)?;
        return Ok(light);
    }
    if rows.field().size() != 2 || 256 < rows.cols() {
        return has_lighter_sum(alloc, rows, distance, level);
    }
    if rows.cols() <= 64 {
        return has_light::<1>(alloc, rows, distance, level);
    }
    if rows.cols() <= 128 {
        return has_light::<2>(alloc, rows, distance, level);
    }
    has_light::<4>(alloc, rows, distance, level)
}

// The first such word, in the order of the messages.
#[tactic(auto, using(crate::proofs::WalkLaws::sums_zero))]
fn first_in_order(
    alloc: Global,
    rows: &Matrix,
    distance: u64,
    level: usize,
) -> Result<Option<Word>, NoMemory>
    requires level { level ≤ length rows.now.rows }
    requires rows { length rows.now.rows ≤ 255 }
    ensures is { IfOk result
        (λ w. w ≡ find (is_lighter distance) (words_from rows.now.field rows.now.columns rows.now.rows 1 level)) }
{
    let mut sums = zeros(alloc, level + 1, rows.cols())?;
    let mut support = vec![in alloc; 0usize; level]?;
    let bits = packed_rows(alloc, rows)?;
    let Some(w) = lighter_through(rows, &bits, distance, level, &mut support, &mut sums) else {
        return Ok(None);
    };
    Ok(Some(Word::from_slice(alloc, sums[w].symbols())?))
}

// Looks at the words of the levels 1 to `level`. If one of them is lighter, leaves the first such in the sum after all rows of
// its support, and returns how many they are.
fn lighter_through(
    rows: &Matrix,
    bits: &[u64],
    distance: u64,
    level: usize,
    support: &mut [usize],
    sums: &mut [Word],
) -> Option<usize>
    requires level { level ≤ length rows.now.rows }
    requires rows { length rows.now.rows ≤ 255 }
    requires packed { 0 < length bits.now → ArePacked rows.now bits.now }
    requires support { length support.old ≡ level }
    requires many { level < length sums.old }
    requires sums { AreSums rows.now sums.old }
    ensures inside { IfSome result (λ w. w ≤ level) }
    ensures some { IfSome result
        (λ w. Some (slice_index_or sums.new w [])
        ≡ find (is_lighter distance) (words_from rows.now.field rows.now.columns rows.now.rows 1 level)) }
    ensures none { IfNone result
        (None ≡ find (is_lighter distance) (words_from rows.now.field rows.now.columns rows.now.rows 1 level)) }
{
    for width in 1..level + 1 {
        let walk = Walk {
            rows,
            bits,
            distance,
            width,
        };
        if lighter_on_level(&walk, support, sums) {
            return Some(width);
        }
    }
    None
}

// Looks at the words of a level. If one of them is lighter, leaves the first such in the sum after all rows of its support.
#[tactic(auto, using(crate::proofs::PackedLaws::front_start))]
fn lighter_on_level(walk: &Walk<'_>, support: &mut [usize], sums: &mut [Word]) -> bool
    requires some { 0 < walk.now.width }
    requires width { walk.now.width ≤ length support.old }
    requires rows { length walk.now.rows.now.rows ≤ 255 }
    requires many { walk.now.width < length sums.old }
    requires sums { AreSums walk.now.rows.now sums.old }
    requires packed { 0 < length walk.now.bits.now → ArePacked walk.now.rows.now walk.now.bits.now }
    ensures is { found result (slice_index_or sums.new walk.now.width [])
        ≡ find (is_lighter walk.now.distance)
        (words_over walk.now.rows.now.field walk.now.rows.now.columns walk.now.rows.now.rows [] 0
        (length walk.now.rows.now.rows - 0) (walk.now.width - 0)) }
    ensures sums { AreSums walk.now.rows.now sums.new }
    ensures long { length support.new ≡ length support.old }
{
    if walk.bits.len() == 0 {
        return lighter_over(walk, support, sums, 0, 0);
    }
    lighter_in_bits(walk, support, sums, 0, 0, 0)
}

// So many zero words of n symbols.
pub(crate) fn zeros(alloc: Global, many: usize, n: usize) -> Result<Vec<Word>, NoMemory>
    ensures many { IfOk result (λ ws. length ws.items ≡ many) }
    ensures zero { IfOk result (λ ws. (i : ℕ) → i < many → slice_index_or ws.items i [] ≡ zero_word n) }
{
    let mut words = Vec::with_capacity(alloc, many)?;
    for _i in 0..many {
        words.push(Word::zero(alloc, n)?)?;
    }
    Ok(words)
}

// Looks at the words of the supports of a walk that begin with the first `depth` places of the support and go on from row
// `from`. If one of them is lighter, leaves the first such in the sum after all rows of its support.
fn lighter_over(
    walk: &Walk<'_>,
    support: &mut [usize],
    sums: &mut [Word],
    depth: usize,
    from: usize,
) -> bool
    requires some { 0 < walk.now.width }
    requires width { walk.now.width ≤ length support.old }
    requires depth { depth ≤ walk.now.width }
    requires from { from ≤ length walk.now.rows.now.rows }
    requires rows { length walk.now.rows.now.rows ≤ 255 }
    requires many { walk.now.width < length sums.old }
    requires sums { AreSums walk.now.rows.now sums.old }
    requires front { (t : ℕ) → t < depth → slice_index support.old t < length walk.now.rows.now.rows }
    ensures is { found result (slice_index_or sums.new walk.now.width [])
        ≡ find (is_lighter walk.now.distance)
        (words_over walk.now.rows.now.field walk.now.rows.now.columns walk.now.rows.now.rows
        (take depth support.old) from (length walk.now.rows.now.rows - from) (walk.now.width - depth)) }
    ensures sums { AreSums walk.now.rows.now sums.new }
    ensures long { length support.new ≡ length support.old }
    ensures front { take depth support.new ≡ take depth support.old }
{
    let k = walk.rows.rows();
    let width = walk.width;
    if depth == width {
        return lighter_on(walk.rows, walk.distance, &support[..width], sums);
    }
    for place in from..(k + 1 + depth).saturating_sub(width) {
        support[depth] = place;
        if lighter_over(walk, support, sums, depth + 1, place + 1) {
            return true;
        }
    }
    false
}

// Looks at the words of the messages with this support. If one of them is lighter, leaves the first such in the sum after all
// of its rows.
pub(crate) fn lighter_on(rows: &Matrix, distance: u64, support: &[usize], sums: &mut [Word]) -> bool
    requires some { 0 < length support.now }
    requires inside { All (λ p. p < length rows.now.rows) support.now }
    requires many { length support.now < length sums.old }
    requires sums { AreSums rows.now sums.old }
    ensures is { found result (slice_index_or sums.new (length support.now) [])
        ≡ find (is_lighter distance) (support_words rows.now.field rows.now.columns rows.now.rows support.now) }
    ensures sums { AreSums rows.now sums.new }
{
    put_row(rows, support[0], 1, sums, 0);
    lighter_along(rows, distance, support, sums, 1)
}

// Looks at the sums of the sum after `depth` rows of the support and nonzero multiples of its other rows.
fn lighter_along(
    rows: &Matrix,
    distance: u64,
    support: &[usize],
    sums: &mut [Word],
    depth: usize,
) -> bool
    requires depth { depth ≤ length support.now }
    requires inside { All (λ p. p < length rows.now.rows) support.now }
    requires many { length support.now < length sums.old }
    requires sums { AreSums rows.now sums.old }
    ensures is { found result (slice_index_or sums.new (length support.now) [])
        ≡ find (is_lighter distance)
        (words_along rows.now.field rows.now.rows (slice_index_or sums.old depth []) (drop depth support.now)) }
    ensures sums { AreSums rows.now sums.new }
    ensures kept { (t : ℕ) → t ≤ depth → slice_index_or sums.new t [] ≡ slice_index_or sums.old t [] }
{
    if depth == support.len() {
        return is_lighter(sums[depth].symbols(), distance);
    }
    for c in 1..rows.field().size() {
        put_row(rows, support[depth], c as u8, sums, depth);
        if lighter_along(rows, distance, support, sums, depth + 1) {
            return true;
        }
    }
    false
}

// Makes the sum after `depth` + 1 rows from the one after `depth`: adds `c` times the row at `place`.
fn put_row(rows: &Matrix, place: usize, c: u8, sums: &mut [Word], depth: usize)
    requires row { place < length rows.now.rows }
    requires element { c < size rows.now.field }
    requires many { depth + 1 < length sums.old }
    requires sums { AreSums rows.now sums.old }
    ensures is { slice_index_or sums.new (depth + 1) []
        ≡ word_sum rows.now.field (slice_index_or sums.old depth [])
        (scale rows.now.field c (slice_index_or rows.now.rows place [])) }
    ensures sums { AreSums rows.now sums.new }
    ensures kept { (t : ℕ) → t ≤ depth → slice_index_or sums.new t [] ≡ slice_index_or sums.old t [] }
{
    let (before, rest) = sums.split_at_mut(depth + 1);
    rest[0].put_sum(rows.field(), before[depth].symbols(), rows.row(place), c);
}

// Whether the word isn't zero and is lighter than the distance.
#[tactic(auto, unfolding(lc_formats::specs::Certificate::is_lighter))]
pub(crate) fn is_lighter(symbols: &[u8], distance: u64) -> bool
    ensures is { result ≡ is_lighter distance symbols.now }
{
    let w = weight(symbols) as u64;
    0 < w && w < distance
}
