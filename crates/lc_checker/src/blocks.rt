//! Whether a word over 2 elements is light, each word as numbers of 64 bits.

ghost use Rattle.std.specs.Prelude.{◌≡◌, ℕ, ◌*◌, ◌<◌, ◌≤◌, false, List, length, take, drop, count_ones, None, find, IfOk};
ghost use Rattle.lc_algebra.specs.declared.FieldName.TheVariants.{Gf2};
ghost use Rattle.lc_algebra.specs.Word.{IsWord, Fits, word_sum};
ghost use Rattle.lc_algebra.specs.Matrix.{Matrix as MatrixValue};
ghost use Rattle.lc_formats.specs.Certificate.{is_lighter};
ghost use Rattle.lc_checker.specs.Walk.{words_from};
ghost use Rattle.lc_checker.specs.Blocks.{AreBlocks, AreInBlocks};
ghost use Rattle.lc_checker.specs.Heavy.{AreHeavy};

use crate::bits::bits_of;
use lc_field::NoMemory;
use lc_matrix::Matrix;
use std::alloc::Global;

// Whether some word of the levels 1 to `level` over these rows isn't zero and is lighter than the distance.
pub(crate) fn has_light<const N: usize>(
    alloc: Global,
    rows: &Matrix,
    distance: u64,
    level: usize,
) -> Result<bool, NoMemory>
    requires binary { rows.now.field ≡ Gf2 }
    requires narrow { rows.now.columns ≤ 64 * N }
    requires few { N ≤ 4 }
    ensures none { IfOk result
        (λ b. b ≡ false → None
        ≡ find (is_lighter distance) (words_from rows.now.field rows.now.columns rows.now.rows 1 level)) }
{
    let bits = rows_in_blocks::<N>(alloc, rows)?;
    let light = some_light(&bits, distance, level, 0, [0; N]);
    Ok(light)
}

// The rows in blocks.
fn rows_in_blocks<const N: usize>(alloc: Global, rows: &Matrix) -> Result<Vec<[u64; N]>, NoMemory>
    requires binary { rows.now.field ≡ Gf2 }
    requires narrow { rows.now.columns ≤ 64 * N }
    requires few { N ≤ 4 }
    ensures are { IfOk result (λ bits. AreInBlocks rows.now N bits.items) }
{
    let mut bits = Vec::with_capacity(alloc, rows.rows())?;
    for i in 0..rows.rows() {
        bits.push(blocks_of::<N>(rows.row(i)))?;
    }
    Ok(bits)
}

// The symbols of a word over 2 elements in blocks of 64.
fn blocks_of<const N: usize>(word: &[u8]) -> [u64; N]
    requires bits { Fits Gf2 word.now }
    requires few { N ≤ 4 }
    ensures are { AreBlocks N result word.now }
{
    let mut bits = [0; N];
    for i in 0..N {
        bits[i] = bits_of(block(word, i));
    }
    bits
}

// The symbols 64 i to 64 i + 63, as far as there are any.
fn block(word: &[u8], i: usize) -> &[u8]
    requires few { i < 4 }
    ensures is { result.now ≡ take 64 (drop (64 * i) word.now) }
{
    let rest = &word[(64 * i).min(word.len())..];
    &rest[..rest.len().min(64)]
}

// The bits of the sum of two words.
#[inline]
fn sum_of<const N: usize>(sum: [u64; N], row: &[u64; N]) -> [u64; N]
    ensures are { (u v : List ℕ) → length u ≡ length v → Fits Gf2 u → Fits Gf2 v → AreBlocks N sum.entry u →
        AreBlocks N row.now v → AreBlocks N result (word_sum Gf2 u v) }
{
    let mut next = sum;
    for i in 0..N {
        next[i] = sum[i] ^ row[i];
    }
    next
}

// The number of symbols in a block that aren't 0.
#[inline]
#[tactic(auto, using(crate::proofs::BlockLaws::ones_few))]
fn ones_of(block: u64) -> u64
    ensures is { result ≡ count_ones block }
    ensures few { result ≤ 64 }
{
    block.count_ones() as u64
}

// Whether the word with these bits isn't zero and is lighter than the distance.
#[inline]
fn is_light<const N: usize>(bits: &[u64; N], distance: u64) -> bool
    requires few { N ≤ 4 }
    ensures is { (w : List ℕ) → Fits Gf2 w → length w ≤ 64 * N → AreBlocks N bits.now w →
        result ≡ is_lighter distance w }
{
    let mut w = 0;
    for i in 0..N {
        w += ones_of(bits[i]);
    }
    0 < w && w < distance
}

// Whether some sum of the word with the bits `sum` and 1 to `width` rows, from row `from` on, isn't zero and is lighter than
// the distance. Each sum is made of the one before it by one addition.
fn some_light<const N: usize>(
    bits: &[[u64; N]],
    distance: u64,
    width: usize,
    from: usize,
    sum: [u64; N],
) -> bool
    requires few { N ≤ 4 }
    ensures heavy { result ≡ false → (C : MatrixValue) (a : List ℕ) → AreInBlocks C N bits.now →
        IsWord C.field C.columns a → AreBlocks N sum.entry a → AreHeavy distance C a from width }
{
    for place in from..bits.len() {
        let next = sum_of(sum, &bits[place]);
        if is_light(&next, distance) {
            return true;
        }
        if 1 < width && some_light(bits, distance, width - 1, place + 1, next) {
            return true;
        }
    }
    false
}
