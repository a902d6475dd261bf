//! The words that some rows span, one after another.
ghost use Rattle.std.specs.Prelude.{◌≡◌, suc, ◌-◌, ◌^◌, ◌<◌, ◌≤◌, ◌++◌, length, take, drop, map, flat_map, IfOk, IfErr, OnErr};
ghost use Rattle.lc_algebra.specs.Field.{size};
ghost use Rattle.lc_algebra.specs.Word.{Fits, word_sum, scale as scale_of};
ghost use Rattle.lc_algebra.specs.Matrix.{AreRows};
ghost use Rattle.lc_algebra.specs.Span.{below, words};

use lc_field::{Field, NoMemory};
use lc_matrix::Matrix;
use lc_vec::{Word, scale};
use std::alloc::Global;

/// All words that the rows from `from` up to the one before `to` of a matrix span, for each list of coefficients one, in the order
/// of the lists. `to` is at most the number of rows, and `from` at most `to`. Fails if memory runs out.
pub fn words_of(alloc: Global, rows: &Matrix, from: usize, to: usize) -> Result<Vec<Word>, NoMemory>
    requires from { from ≤ to }
    requires to { to ≤ length rows.now.rows }
    ensures are { IfOk result (λ ws. ws.items
        ≡ words rows.now.field rows.now.columns (take (to - from) (drop from rows.now.rows))) }
{
    let _words = rows.rows();
    let mut list = Vec::with_capacity(alloc, 1)?;
    list.push(Word::zero(alloc, rows.cols())?)?;
    let mut i = to;
    while i > from {
        i -= 1;
        list = with_row(alloc, rows.field(), rows.row(i), list)?;
    }
    Ok(list)
}

// The sums of each multiple of a row and each of some words, multiple by multiple. Those of the multiple by 0 are the words
// themselves.
fn with_row(
    alloc: Global,
    field: &Field,
    row: &[u8],
    list: Vec<Word>,
) -> Result<Vec<Word>, NoMemory>
    requires row { Fits field.now row.now }
    requires words { AreRows field.now (length row.now) list.items }
    ensures are { IfOk result (λ ws. ws.items
        ≡ flat_map (λ c. map (word_sum field.now (scale_of field.now c row.now)) list.items) (below (size field.now))) }
{
    let mut list = list;
    let mut sums = Vec::new(alloc);
    for c in 1..field.size() {
        let multiple = multiple_of(alloc, field, row, c as u8)?;
        push_sums(alloc, field, multiple.symbols(), list.as_slice(), &mut sums)?;
    }
    list.append(&mut sums)?;
    Ok(list)
}

// `c` times a row.
fn multiple_of(alloc: Global, field: &Field, row: &[u8], c: u8) -> Result<Word, NoMemory>
    requires row { Fits field.now row.now }
    requires element { c < size field.now }
    ensures is { IfOk result (λ w. w ≡ scale_of field.now c row.now) }
    ensures fits { IfOk result (Fits field.now) }
{
    let mut symbols = row.to_vec(alloc)?;
    scale(field, &mut symbols, c);
    Ok(Word::from_vec(symbols))
}

/// Pushes the sums of a word and each of some words, which have its length. If memory runs out, the list is as before; for no words
/// none is taken.
pub fn push_sums(
    alloc: Global,
    field: &Field,
    word: &[u8],
    list: &[Word],
    sums: &mut Vec<Word>,
) -> Result<(), NoMemory>
    requires word { Fits field.now word.now }
    requires words { AreRows field.now (length word.now) list.now }
    ensures are { IfOk result (λ _. sums.new.items ≡ sums.old.items ++ map (word_sum field.now word.now) list.now) }
    ensures kept { OnErr result (sums.new.items ≡ sums.old.items) }
    ensures needed { IfErr result (λ _. 0 < length list.now) }
{
    let start = sums.len();
    let pushed = push_each(alloc, field, word, list, sums);
    if pushed.is_err() {
        sums.truncate(start);
    }
    pushed
}

// The same. If memory runs out, some of the sums may be in the list.
fn push_each(
    alloc: Global,
    field: &Field,
    word: &[u8],
    list: &[Word],
    sums: &mut Vec<Word>,
) -> Result<(), NoMemory>
    requires word { Fits field.now word.now }
    requires words { AreRows field.now (length word.now) list.now }
    ensures are { IfOk result (λ _. sums.new.items ≡ sums.old.items ++ map (word_sum field.now word.now) list.now) }
    ensures front { take (length sums.old.items) sums.new.items ≡ sums.old.items }
    ensures needed { IfErr result (λ _. 0 < length list.now) }
{
    for i in 0..list.len() {
        let mut sum = Word::zero(alloc, word.len())?;
        sum.put_added(field, list[i].symbols(), word);
        sums.push(sum)?;
    }
    Ok(())
}

/// As many of k rows over q elements as have at most 4,096 words: those of the tails, where each word of a code is the sum of a word
/// of its first rows, a head, and one of the others, a tail. q is 2 to 16.
pub fn tail_rows(q: u64, k: usize) -> usize
    requires elements { (2 ≤ q) × (q ≤ 16) }
    ensures most { result ≤ k }
    ensures few { q ^ result ≤ 4096 }
    ensures greatest { result < k → 4096 < q ^ suc result }
{
    let mut words = 1;
    let mut rows = 0;
    while rows < k && words * q <= 4096 {
        words *= q;
        rows += 1;
    }
    rows
}
