//! The walk through words over 2 elements with at most 64 symbols, each as the bits of a number.

ghost use Rattle.std.specs.Prelude.{◌≡◌, ℕ, ◌+◌, ◌-◌, ◌<◌, ◌≤◌, ◌&&◌, [], nat_lt, count_ones, length, take, find, slice_index, slice_index_or, IfOk};
ghost use Rattle.lc_algebra.specs.declared.FieldName.TheVariants.{Gf2};
ghost use Rattle.lc_algebra.specs.Word.{Fits};
ghost use Rattle.lc_formats.specs.Certificate.{is_lighter};
ghost use Rattle.lc_checker.specs.Walk.{AreSums, words_over, found};
ghost use Rattle.lc_vec.specs.Packed.{packed};
ghost use Rattle.lc_checker.specs.Packed.{front_bits, ArePacked};

use crate::walk::{Walk, lighter_on};
use lc_field::NoMemory;
use lc_matrix::Matrix;
use lc_vec::Word;
use std::alloc::Global;

// The rows as numbers of bits; none if the field hasn't 2 elements, or there are more than 64 columns.
#[tactic(auto, using(crate::proofs::PackedLaws::binary_field))]
pub(crate) fn packed_rows(alloc: Global, rows: &Matrix) -> Result<Vec<u64>, NoMemory>
    ensures are { IfOk result (λ bits. 0 < length bits.items → ArePacked rows.now bits.items) }
{
    if rows.field().size() != 2 || rows.cols() > 64 {
        return Ok(Vec::new(alloc));
    }
    bits_of_rows(alloc, rows)
}

// The rows as numbers of bits.
fn bits_of_rows(alloc: Global, rows: &Matrix) -> Result<Vec<u64>, NoMemory>
    requires binary { rows.now.field ≡ Gf2 }
    requires narrow { rows.now.columns ≤ 64 }
    ensures are { IfOk result (λ bits. ArePacked rows.now bits.items) }
{
    let mut bits = Vec::with_capacity(alloc, rows.rows())?;
    for i in 0..rows.rows() {
        bits.push(bits_of(rows.row(i)))?;
    }
    Ok(bits)
}

// The bits of a word over 2 elements, the first symbol the lowest.
#[tactic(auto, using(crate::proofs::PackedLaws::bits_of_laws))]
pub(crate) fn bits_of(word: &[u8]) -> u64
    requires bits { Fits Gf2 word.now }
    requires few { length word.now ≤ 64 }
    ensures is { result ≡ packed word.now }
{
    let mut bits = 0;
    let mut i = word.len();
    while i > 0 {
        i -= 1;
        bits = bits * 2 + word[i] as u64;
    }
    bits
}

// Looks at the words of the supports of a walk that begin with the first `depth` places of the support and go on from row
// `from`, with the packed sum of the rows so far. If one of them is lighter, leaves the first such in the sum after all rows of
// its support.
pub(crate) fn lighter_in_bits(
    walk: &Walk<'_>,
    support: &mut [usize],
    sums: &mut [Word],
    depth: usize,
    from: usize,
    sum: u64,
) -> bool
    requires some { 0 < walk.now.width }
    requires width { walk.now.width ≤ length support.old }
    requires depth { depth ≤ walk.now.width }
    requires from { from ≤ length walk.now.rows.now.rows }
    requires rows { length walk.now.rows.now.rows ≤ 255 }
    requires many { walk.now.width < length sums.old }
    requires sums { AreSums walk.now.rows.now sums.old }
    requires packed { ArePacked walk.now.rows.now walk.now.bits.now }
    requires front { (t : ℕ) → t < depth → slice_index support.old t < length walk.now.rows.now.rows }
    requires sum { sum ≡ front_bits walk.now.rows.now (take depth support.old) }
    ensures is { found result (slice_index_or sums.new walk.now.width [])
        ≡ find (is_lighter walk.now.distance)
        (words_over walk.now.rows.now.field walk.now.rows.now.columns walk.now.rows.now.rows
        (take depth support.old) from (length walk.now.rows.now.rows - from) (walk.now.width - depth)) }
    ensures sums { AreSums walk.now.rows.now sums.new }
    ensures long { length support.new ≡ length support.old }
    ensures front { take depth support.new ≡ take depth support.old }
{
    let k = walk.rows.rows();
    let width = walk.width;
    if depth == width {
        return lighter_on(walk.rows, walk.distance, &support[..width], sums);
    }
    for place in from..(k + 1 + depth).saturating_sub(width) {
        let next = sum ^ walk.bits[place];
        if depth + 1 == width && !is_light(next, walk.distance) {
            continue;
        }
        support[depth] = place;
        if lighter_in_bits(walk, support, sums, depth + 1, place + 1, next) {
            return true;
        }
    }
    false
}

// Whether the word with these bits isn't zero and is lighter than the distance.
fn is_light(bits: u64, distance: u64) -> bool
    ensures is { result ≡ (nat_lt 0 (count_ones bits) && nat_lt (count_ones bits) distance) }
{
    let w = bits.count_ones() as u64;
    0 < w && w < distance
}
