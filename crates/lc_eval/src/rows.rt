//! Lists of numbers as words, and words as lists of numbers.
ghost use Rattle.std.specs.Prelude.{◌≡◌, map, IfOk};
ghost use Rattle.lc_algebra.specs.Matrix.{AreRows};
ghost use Rattle.lc_eval.specs.Rows.{clamped};

use lc_code::Code;
use lc_field::NoMemory;
use lc_vec::Word;
use std::alloc::Global;

/// The numbers as symbols; each above 255, which is no element of a field, as 255.
pub(crate) fn word_of(alloc: Global, list: &[u64]) -> Result<Word, NoMemory>
    ensures { IfOk result (λ w. w ≡ clamped list.now) }
{
    let symbols: Vec<u8> = list.iter().map(|a| (*a).min(255) as u8).collect(alloc)?;
    Ok(Word::from_vec(symbols))
}

/// The rows as words, as `word_of` makes them.
pub(crate) fn words_of(alloc: Global, rows: &[Vec<u64>]) -> Result<Vec<Word>, NoMemory>
    ensures { IfOk result (λ words. words.items ≡ map (λ row. clamped row.items) rows.now) }
{
    let mut words = Vec::with_capacity(alloc, rows.len())?;
    for row in rows {
        words.push(word_of(alloc, row)?)?;
    }
    Ok(words)
}

/// The symbols of a word as numbers.
pub(crate) fn list_of(alloc: Global, symbols: &[u8]) -> Result<Vec<u64>, NoMemory>
    ensures { IfOk result (λ list. list.items ≡ symbols.now) }
{
    Ok(symbols.iter().map(|a| u64::from(*a)).collect(alloc)?)
}

/// The rows of a code as lists of numbers.
pub(crate) fn lists_of(alloc: Global, code: &Code) -> Result<Vec<Vec<u64>>, NoMemory>
    ensures { IfOk result (λ lists. map (λ list. list.items) lists.items ≡ code.now.rows) }
{
    let mut lists = Vec::with_capacity(alloc, code.dimension())?;
    for i in 0..code.dimension() {
        lists.push(list_of(alloc, code.row(i))?)?;
    }
    Ok(lists)
}

/// The rows of a code as words.
pub(crate) fn rows_of(alloc: Global, code: &Code) -> Result<Vec<Word>, NoMemory>
    ensures are { IfOk result (λ rows. rows.items ≡ code.now.rows) }
    ensures words { IfOk result (λ _. AreRows code.now.field code.now.columns code.now.rows) }
{
    let matrix = code.matrix();
    let mut rows = Vec::with_capacity(alloc, matrix.rows())?;
    for i in 0..matrix.rows() {
        rows.push(Word::from_slice(alloc, matrix.row(i))?)?;
    }
    Ok(rows)
}
