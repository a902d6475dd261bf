//! The walk through words over any field that keeps no order: each sum is made of the one before it by one addition.

ghost use Rattle.std.specs.Prelude.{◌≡◌, ℕ, ◌+◌, ◌-◌, ◌*◌, ◌<◌, ◌≤◌, false, List, [], length, slice_index_or, None, find, IfOk};
ghost use Rattle.lc_algebra.specs.Field.{size};
ghost use Rattle.lc_algebra.specs.Word.{word_sum, scale};
ghost use Rattle.lc_formats.specs.Certificate.{is_lighter as lighter_than};
ghost use Rattle.lc_checker.specs.Walk.{AreSums, row_of, words_from};
ghost use Rattle.lc_checker.specs.Heavy.{AreHeavy, AreMultiples};

use crate::walk::{is_lighter, zeros};
use lc_field::NoMemory;
use lc_matrix::Matrix;
use lc_vec::{Word, scale};
use std::alloc::Global;

/// Rows, and their multiples by 1, 2, .., row by row.
#[derive(Clone, Copy)]
pub(crate) struct Multiples<'a> {
    pub(crate) rows: &'a Matrix,
    pub(crate) words: &'a [Word],
}

// Whether some word of the levels 1 to `level` over these rows isn't zero and is lighter than the distance.
pub(crate) fn has_lighter_sum(
    alloc: Global,
    rows: &Matrix,
    distance: u64,
    level: usize,
) -> Result<bool, NoMemory>
    requires rows { length rows.now.rows ≤ 255 }
    requires level { level ≤ length rows.now.rows }
    ensures none { IfOk result
        (λ b. b ≡ false → None
        ≡ find (lighter_than distance) (words_from rows.now.field rows.now.columns rows.now.rows 1 level)) }
{
    let words = multiples_of(alloc, rows)?;
    let mut sums = zeros(alloc, level + 2, rows.cols())?;
    let multiples = Multiples {
        rows,
        words: &words,
    };
    let light = some_lighter_word(&multiples, distance, level, &mut sums);
    Ok(light)
}

// The multiples of the rows by 1, 2, .., row by row.
pub(crate) fn multiples_of(alloc: Global, rows: &Matrix) -> Result<Vec<Word>, NoMemory>
    requires rows { length rows.now.rows ≤ 255 }
    ensures are { IfOk result (λ ms. AreMultiples rows.now ms.items) }
{
    let m = rows.field().size() as usize - 1;
    let mut multiples = Vec::with_capacity(alloc, rows.rows() * m)?;
    for t in 0..rows.rows() * m {
        multiples.push(multiple(alloc, rows, t / m, (t % m) as u8 + 1)?)?;
    }
    Ok(multiples)
}

// `c` times row `i`.
fn multiple(alloc: Global, rows: &Matrix, i: usize, c: u8) -> Result<Word, NoMemory>
    requires row { i < length rows.now.rows }
    requires element { c < size rows.now.field }
    ensures is { IfOk result (λ w. w ≡ scale rows.now.field c (row_of rows.now.rows i)) }
{
    let mut symbols = rows.row(i).to_vec(alloc)?;
    scale(rows.field(), &mut symbols, c);
    Ok(Word::from_vec(symbols))
}

// Makes the sum after `depth` + 1 rows from the one after `depth`: adds `c` times the row at `place`.
pub(crate) fn put_multiple(
    multiples: &Multiples<'_>,
    place: usize,
    c: u8,
    sums: &mut [Word],
    depth: usize,
)
    requires row { place < length multiples.now.rows.now.rows }
    requires rows { length multiples.now.rows.now.rows ≤ 255 }
    requires element { (0 < c) × (c < size multiples.now.rows.now.field) }
    requires many { depth + 1 < length sums.old }
    requires multiples { AreMultiples multiples.now.rows.now multiples.now.words.now }
    requires sums { AreSums multiples.now.rows.now sums.old }
    ensures is { slice_index_or sums.new (depth + 1) []
        ≡ word_sum multiples.now.rows.now.field (slice_index_or sums.old depth [])
        (scale multiples.now.rows.now.field c (slice_index_or multiples.now.rows.now.rows place [])) }
    ensures sums { AreSums multiples.now.rows.now sums.new }
    ensures kept { (t : ℕ) → t ≤ depth → slice_index_or sums.new t [] ≡ slice_index_or sums.old t [] }
{
    let Multiples { rows, words } = *multiples;
    let row = &words[place * (rows.field().size() as usize - 1) + (c as usize - 1)];
    let (before, rest) = sums.split_at_mut(depth + 1);
    rest[0].put_added(rows.field(), before[depth].symbols(), row.symbols());
}

// Whether some sum of the sum after `depth` rows and nonzero multiples of 1 to `width` rows, from row `from` on, isn't zero and
// is lighter than the distance.
fn some_lighter(
    multiples: &Multiples<'_>,
    distance: u64,
    width: usize,
    from: usize,
    sums: &mut [Word],
    depth: usize,
) -> bool
    requires room { depth + width + 1 < length sums.old }
    requires rows { length multiples.now.rows.now.rows ≤ 255 }
    requires multiples { AreMultiples multiples.now.rows.now multiples.now.words.now }
    requires sums { AreSums multiples.now.rows.now sums.old }
    ensures heavy { result ≡ false →
        AreHeavy distance multiples.now.rows.now (slice_index_or sums.old depth []) from width }
    ensures sums { AreSums multiples.now.rows.now sums.new }
    ensures kept { (t : ℕ) → t ≤ depth → slice_index_or sums.new t [] ≡ slice_index_or sums.old t [] }
{
    let rows = multiples.rows;
    for place in from..rows.rows() {
        for c in 1..rows.field().size() {
            put_multiple(multiples, place, c as u8, sums, depth);
            if is_lighter(sums[depth + 1].symbols(), distance) {
                return true;
            }
            if 1 < width
                && some_lighter(multiples, distance, width - 1, place + 1, sums, depth + 1)
            {
                return true;
            }
        }
    }
    false
}

// Whether some word of the levels 1 to `level` over these rows isn't zero and is lighter than the distance. Messages begin with
// a 1.
fn some_lighter_word(
    multiples: &Multiples<'_>,
    distance: u64,
    level: usize,
    sums: &mut [Word],
) -> bool
    requires room { level + 1 < length sums.old }
    requires rows { length multiples.now.rows.now.rows ≤ 255 }
    requires multiples { AreMultiples multiples.now.rows.now multiples.now.words.now }
    requires sums { AreSums multiples.now.rows.now sums.old }
    ensures none { result ≡ false →
        None ≡ find (lighter_than distance)
        (words_from multiples.now.rows.now.field multiples.now.rows.now.columns multiples.now.rows.now.rows 1 level) }
    ensures sums { AreSums multiples.now.rows.now sums.new }
{
    let rows = multiples.rows;
    for place in 0..rows.rows() {
        put_multiple(multiples, place, 1, sums, 0);
        if is_lighter(sums[1].symbols(), distance) {
            return true;
        }
        if 1 < level && some_lighter(multiples, distance, level - 1, place + 1, sums, 1) {
            return true;
        }
    }
    false
}
