//! The rows of a code, pushed into a list of words.
ghost use Rattle.std.specs.Prelude.{◌≡◌, ◌+◌, ◌<◌, ◌≤◌, ◌++◌, length, take, IfOk, IfErr, OnErr};
ghost use Rattle.lc_constructions.specs.Code.{longest};
ghost use Rattle.lc_code.specs.Rows.{left_rows};

use crate::code::Code;
use lc_field::NoMemory;
use lc_vec::Word;
use std::alloc::Global;

/// Pushes each row of the code. If memory runs out, the list is as before; without rows none is taken.
pub fn push_rows(alloc: Global, code: &Code, rows: &mut Vec<Word>) -> Result<(), NoMemory>
    ensures pushed { IfOk result (λ _. rows.new.items ≡ rows.old.items ++ code.now.rows) }
    ensures kept { OnErr result (rows.new.items ≡ rows.old.items) }
    ensures needed { IfErr result (λ _. 0 < length code.now.rows) }
{
    let start = rows.len();
    let pushed = push_each(alloc, code, rows);
    if pushed.is_err() {
        rows.truncate(start);
    }
    pushed
}

// The same. If memory runs out, some of the rows may be in the list.
fn push_each(alloc: Global, code: &Code, rows: &mut Vec<Word>) -> Result<(), NoMemory>
    ensures pushed { IfOk result (λ _. rows.new.items ≡ rows.old.items ++ code.now.rows) }
    ensures front { take (length rows.old.items) rows.new.items ≡ rows.old.items }
    ensures needed { IfErr result (λ _. 0 < length code.now.rows) }
{
    for i in 0..code.dimension() {
        rows.push(Word::from_slice(alloc, code.row(i))?)?;
    }
    Ok(())
}

/// Pushes each row of the code, followed by `n` zeros. The length of the code and n add up to at most 255. If memory runs out, the
/// list is as before; without rows none is taken.
pub fn push_left(alloc: Global, a: &Code, n: usize, rows: &mut Vec<Word>) -> Result<(), NoMemory>
    requires most { a.now.columns + n ≤ longest }
    ensures pushed { IfOk result (λ _. rows.new.items ≡ rows.old.items ++ left_rows n a.now.rows) }
    ensures kept { OnErr result (rows.new.items ≡ rows.old.items) }
    ensures needed { IfErr result (λ _. 0 < length a.now.rows) }
{
    let start = rows.len();
    let pushed = push_each_left(alloc, a, n, rows);
    if pushed.is_err() {
        rows.truncate(start);
    }
    pushed
}

// The same. If memory runs out, some of the rows may be in the list.
fn push_each_left(alloc: Global, a: &Code, n: usize, rows: &mut Vec<Word>) -> Result<(), NoMemory>
    requires most { a.now.columns + n ≤ longest }
    ensures pushed { IfOk result (λ _. rows.new.items ≡ rows.old.items ++ left_rows n a.now.rows) }
    ensures front { take (length rows.old.items) rows.new.items ≡ rows.old.items }
    ensures needed { IfErr result (λ _. 0 < length a.now.rows) }
{
    for i in 0..a.dimension() {
        let mut symbols = Vec::with_capacity(alloc, a.length() + n)?;
        symbols.extend_from_slice(a.row(i))?;
        symbols.resize(a.length() + n, 0)?;
        rows.push(Word::from_vec(symbols))?;
    }
    Ok(())
}
