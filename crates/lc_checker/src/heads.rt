//! The walk through all words that some rows span, over any field. Each is the sum of a word of the first rows, a head, and one of
//! the others, a tail, of which there are at most 4,096. The negatives of the tails are the tails again, so a sum has the weight of
//! a difference: the number of places at which two words, given as bits, differ. Of the heads it takes those whose first
//! coefficient other than 0 is 1, since nonzero multiples have one weight.

ghost use Rattle.std.specs.Prelude.{◌≡◌, ℕ, suc, ◌+◌, ◌-◌, ◌*◌, ◌^◌, ◌<◌, ◌≤◌, false, List, [], length, drop, slice_index_or, None, find, IfOk};
ghost use Rattle.lc_algebra.specs.Field.{size};
ghost use Rattle.lc_algebra.specs.Span.{InSpan, words};
ghost use Rattle.lc_planes.specs.Packing.{ArePacked, places_apart as apart};
ghost use Rattle.lc_formats.specs.Certificate.{is_lighter};
ghost use Rattle.lc_checker.specs.Walk.{AreSums, words_from};
ghost use Rattle.lc_checker.specs.Heavy.{AreAllHeavy, AreMultiples, is_few};

use crate::sums::{Multiples, multiples_of, put_multiple};
use crate::walk::zeros;
use lc_field::NoMemory;
use lc_matrix::Matrix;
use lc_planes::{pack, pack_words, places_apart};
use lc_span::{tail_rows, words_of};
use lc_vec::Word;
use std::alloc::Global;

/// Tails: the words that the rows from `split` on span, as bits.
#[derive(Clone, Copy)]
struct Tails<'a, const P: usize, const N: usize> {
    split: usize,
    words: &'a [[[u64; P]; N]],
}

// Whether some word that these rows span isn't zero and is lighter than the distance. So if there is none, the words of no level
// are.
pub(crate) fn spans_lighter(alloc: Global, rows: &Matrix, distance: u64) -> Result<bool, NoMemory>
    requires symbol { size rows.now.field ≤ 16 }
    requires narrow { rows.now.columns ≤ 256 }
    requires rows { length rows.now.rows ≤ 255 }
    ensures none { IfOk result (λ b. b ≡ false → (level : ℕ) → None
        ≡ find (is_lighter distance) (words_from rows.now.field rows.now.columns rows.now.rows 1 level)) }
{
    let size = rows.field().size();
    if size == 2 {
        return by_length::<1>(alloc, rows, distance);
    }
    if size <= 4 {
        return by_length::<2>(alloc, rows, distance);
    }
    if size <= 8 {
        return by_length::<3>(alloc, rows, distance);
    }
    by_length::<4>(alloc, rows, distance)
}

// The same with P planes.
fn by_length<const P: usize>(alloc: Global, rows: &Matrix, distance: u64) -> Result<bool, NoMemory>
    requires symbol { size rows.now.field ≤ 16 }
    requires planes { (P ≤ 4) × (size rows.now.field ≤ 2 ^ P) }
    requires narrow { rows.now.columns ≤ 256 }
    requires rows { length rows.now.rows ≤ 255 }
    ensures none { IfOk result (λ b. b ≡ false → (level : ℕ) → None
        ≡ find (is_lighter distance) (words_from rows.now.field rows.now.columns rows.now.rows 1 level)) }
{
    if rows.cols() <= 64 {
        return in_parts::<P, 1>(alloc, rows, distance);
    }
    if rows.cols() <= 128 {
        return in_parts::<P, 2>(alloc, rows, distance);
    }
    if rows.cols() <= 192 {
        return in_parts::<P, 3>(alloc, rows, distance);
    }
    in_parts::<P, 4>(alloc, rows, distance)
}

// The same with P planes of N parts.
fn in_parts<const P: usize, const N: usize>(
    alloc: Global,
    rows: &Matrix,
    distance: u64,
) -> Result<bool, NoMemory>
    requires symbol { size rows.now.field ≤ 16 }
    requires planes { (P ≤ 4) × (size rows.now.field ≤ 2 ^ P) }
    requires parts { (N ≤ 4) × (rows.now.columns ≤ 64 * N) }
    requires rows { length rows.now.rows ≤ 255 }
    ensures none { IfOk result (λ b. b ≡ false → (level : ℕ) → None
        ≡ find (is_lighter distance) (words_from rows.now.field rows.now.columns rows.now.rows 1 level)) }
{
    let split = split_of(rows);
    let list = words_of(alloc, rows, split, rows.rows())?;
    let packed = pack_words::<P, N>(alloc, list.as_slice())?;
    let words = multiples_of(alloc, rows)?;
    let mut sums = zeros(alloc, split + 2, rows.cols())?;
    let multiples = Multiples {
        rows,
        words: &words,
    };
    let tails = Tails {
        split,
        words: &packed,
    };
    let light = some_lead::<P, N>(&multiples, &tails, distance, &mut sums);
    Ok(light)
}

// How many of the first rows make up heads: the others, which make up tails, have at most 4,096 words, and as many as may be.
fn split_of(rows: &Matrix) -> usize
    requires symbol { size rows.now.field ≤ 16 }
    ensures most { result ≤ length rows.now.rows }
    ensures few { size rows.now.field ^ (length rows.now.rows - result) ≤ 4096 }
    ensures greatest { 0 < result → 4096 < size rows.now.field ^ suc (length rows.now.rows - result) }
{
    let k = rows.rows();
    k - tail_rows(rows.field().size() as u64, k)
}

// Whether some word that isn't zero is lighter than the distance: the words of the tails, and those that begin with a row.
fn some_lead<const P: usize, const N: usize>(
    multiples: &Multiples<'_>,
    tails: &Tails<'_, P, N>,
    distance: u64,
    sums: &mut [Word],
) -> bool
    requires planes { (P ≤ 4) × (size multiples.now.rows.now.field ≤ 2 ^ P) }
    requires parts { (N ≤ 4) × (multiples.now.rows.now.columns ≤ 64 * N) }
    requires rows { length multiples.now.rows.now.rows ≤ 255 }
    requires split { tails.now.split ≤ length multiples.now.rows.now.rows }
    requires tails { ArePacked P N
        (words multiples.now.rows.now.field multiples.now.rows.now.columns
        (drop tails.now.split multiples.now.rows.now.rows)) tails.now.words.now }
    requires room { tails.now.split + 1 < length sums.old }
    requires multiples { AreMultiples multiples.now.rows.now multiples.now.words.now }
    requires sums { AreSums multiples.now.rows.now sums.old }
    ensures heavy { result ≡ false → (w : List ℕ) →
        InSpan multiples.now.rows.now.field multiples.now.rows.now.columns multiples.now.rows.now.rows w →
        is_lighter distance w ≡ false }
{
    if has_light_tail(&pack::<P, N>(sums[0].symbols()), tails.words, distance) {
        return true;
    }
    for place in 0..tails.split {
        put_multiple(multiples, place, 1, sums, 0);
        if some_head::<P, N>(multiples, tails, distance, place + 1, sums, 1) {
            return true;
        }
    }
    false
}

// Whether some sum of the sum after `depth` rows and a word of the rows from `from` on isn't zero and is lighter than the distance.
fn some_head<const P: usize, const N: usize>(
    multiples: &Multiples<'_>,
    tails: &Tails<'_, P, N>,
    distance: u64,
    from: usize,
    sums: &mut [Word],
    depth: usize,
) -> bool
    requires planes { (P ≤ 4) × (size multiples.now.rows.now.field ≤ 2 ^ P) }
    requires parts { (N ≤ 4) × (multiples.now.rows.now.columns ≤ 64 * N) }
    requires rows { length multiples.now.rows.now.rows ≤ 255 }
    requires split { tails.now.split ≤ length multiples.now.rows.now.rows }
    requires from { from ≤ tails.now.split }
    requires tails { ArePacked P N
        (words multiples.now.rows.now.field multiples.now.rows.now.columns
        (drop tails.now.split multiples.now.rows.now.rows)) tails.now.words.now }
    requires room { depth + (tails.now.split - from) + 1 < length sums.old }
    requires multiples { AreMultiples multiples.now.rows.now multiples.now.words.now }
    requires sums { AreSums multiples.now.rows.now sums.old }
    ensures heavy { result ≡ false →
        AreAllHeavy distance multiples.now.rows.now (slice_index_or sums.old depth []) from }
    ensures sums { AreSums multiples.now.rows.now sums.new }
    ensures kept { (t : ℕ) → t ≤ depth → slice_index_or sums.new t [] ≡ slice_index_or sums.old t [] }
{
    if has_light_tail(&pack::<P, N>(sums[depth].symbols()), tails.words, distance) {
        return true;
    }
    for place in from..tails.split {
        for c in 1..multiples.rows.field().size() {
            put_multiple(multiples, place, c as u8, sums, depth);
            if some_head::<P, N>(multiples, tails, distance, place + 1, sums, depth + 1) {
                return true;
            }
        }
    }
    false
}

// Whether a head differs from some tail at fewer places than the distance, but at one at least.
fn has_light_tail<const P: usize, const N: usize>(
    head: &[[u64; P]; N],
    tails: &[[[u64; P]; N]],
    distance: u64,
) -> bool
    requires parts { N ≤ 4 }
    ensures none { result ≡ false → (e : ℕ) → e < length tails.now →
        is_few distance (apart P N head.now (slice_index_or tails.now e [])) ≡ false }
{
    let mut light: u64 = 0;
    for i in 0..tails.len() {
        let places = places_apart(head, &tails[i]) as u64;
        if 0 < places && places < distance {
            light += 1;
        }
    }
    0 < light
}
