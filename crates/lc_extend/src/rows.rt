//! Rows that generate or check the codes of construction X.
ghost use Rattle.std.specs.Prelude.{◌≡◌, ◌+◌, ◌≤◌, ◌++◌, map, length, IfOk};
ghost use Rattle.lc_constructions.specs.Code.{longest};
ghost use Rattle.lc_code.specs.Rows.{left_rows};
ghost use Rattle.lc_extend.specs.Rows.{lead_word, side_rows};

use lc_code::{Code, push_left, push_rows};
use lc_field::NoMemory;
use lc_vec::{Word, first_nonzero};
use std::alloc::Global;

// The rows of d, followed by zeros, and those of b, each followed by that of e.
pub(crate) fn extended_rows(
    alloc: Global,
    d: &Code,
    b: &Code,
    e: &Code,
) -> Result<Vec<Word>, NoMemory>
    requires count { length b.now.rows ≡ length e.now.rows }
    requires part { d.now.columns + e.now.columns ≤ longest }
    requires most { b.now.columns + e.now.columns ≤ longest }
    ensures are { IfOk result
        (λ rows. rows.items ≡ left_rows e.now.columns d.now.rows ++ side_rows b.now.rows e.now.rows) }
{
    let mut rows = Vec::new(alloc);
    push_left(alloc, d, e.length(), &mut rows)?;
    push_side(alloc, b, e, &mut rows)?;
    Ok(rows)
}

// Pushes each row of the first code, followed by that of the second.
#[tactic(auto, using(crate::proofs::RowLaws::push_side_laws))]
fn push_side(alloc: Global, b: &Code, e: &Code, rows: &mut Vec<Word>) -> Result<(), NoMemory>
    requires count { length b.now.rows ≡ length e.now.rows }
    requires most { b.now.columns + e.now.columns ≤ longest }
    ensures pushed { IfOk result (λ _. rows.new.items ≡ rows.old.items ++ side_rows b.now.rows e.now.rows) }
{
    for i in 0..e.dimension() {
        let mut symbols = Vec::with_capacity(alloc, b.length() + e.length())?;
        symbols.extend_from_slice(b.row(i))?;
        symbols.extend_from_slice(e.row(i))?;
        rows.push(Word::from_vec(symbols))?;
    }
    Ok(())
}

// The rows of the dual, and a unit word for each row of d.
pub(crate) fn complement_checks(alloc: Global, dual: &Code, d: &Code) -> Result<Vec<Word>, NoMemory>
    ensures are { IfOk result (λ rows. rows.items ≡ dual.now.rows ++ map lead_word d.now.rows) }
{
    let mut checks = Vec::new(alloc);
    push_rows(alloc, dual, &mut checks)?;
    push_leads(alloc, d, &mut checks)?;
    Ok(checks)
}

// Pushes a unit word for each row.
fn push_leads(alloc: Global, d: &Code, checks: &mut Vec<Word>) -> Result<(), NoMemory>
    ensures pushed { IfOk result (λ _. checks.new.items ≡ checks.old.items ++ map lead_word d.now.rows) }
{
    for i in 0..d.dimension() {
        checks.push(lead_word(alloc, d.row(i))?)?;
    }
    Ok(())
}

// The word that is 1 where the row begins, and 0 elsewhere.
#[tactic(auto, unfolding(crate::specs::Rows::lead_word))]
fn lead_word(alloc: Global, row: &[u8]) -> Result<Word, NoMemory>
    ensures is { IfOk result (λ w. w ≡ lead_word row.now) }
{
    let mut symbols = vec![in alloc; 0u8; row.len()]?;
    if let Some(p) = first_nonzero(row) {
        symbols[p] = 1;
    }
    Ok(Word::from_vec(symbols))
}
