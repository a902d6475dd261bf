//! The next information set, by one elimination over the columns in their order.

ghost use Rattle.std.specs.Prelude.{◌≡◌, ℕ, ◌+◌, ◌≤◌, ◌<◌, ◌++◌, List, [], length, map, filter, not, slice_index, All, IfOk, IfSome, IfNone, true, false};
ghost use Rattle.lc_algebra.specs.Span.{below, AreIndependent};
ghost use Rattle.lc_algebra.specs.Matrix.{AreRows};
ghost use Rattle.lc_enumeration.specs.InformationSet.{is_member, columns_in_order, next_set as next_set_of};
ghost use Rattle.lc_infoset.specs.Kept.{set_state};
ghost use Rattle.lc_infoset.specs.Choice.{AreTurned};

use crate::kept::KeptSet;
use lc_field::NoMemory;
use lc_matrix::Matrix;
use std::alloc::Global;

// The set of the code after those whose fresh columns are used, with its generator.
#[tactic(auto, using(crate::proofs::NextLaws::next_set_laws))]
pub(crate) fn next_set(alloc: Global, code: &Matrix, used: &[usize]) -> Result<KeptSet, NoMemory>
    requires independent { AreIndependent code.now.field code.now.columns code.now.rows }
    ensures is { IfOk result
        (λ s. s ≡ set_state code.now (next_set_of code.now.field code.now.columns code.now.rows used.now)) }
{
    let _height = code.rows();
    let n = code.cols();
    let order = columns_in_order(alloc, n, used)?;
    let (reduced, at) = code.reduced_in(alloc, &order)?;
    let pivots = picked(alloc, &order, &at)?;
    let (basis, turn) = rising(alloc, n, &pivots)?;
    let fresh = unused_of(alloc, used, &basis)?;
    let generator = reduced.rows_at(alloc, &turn)?;
    Ok(KeptSet {
        basis,
        fresh,
        generator,
    })
}

// The columns below n: those that aren't used, rising, and then those that are.
#[tactic(auto, unfolding(lc_enumeration::specs::InformationSet::columns_in_order))]
fn columns_in_order(alloc: Global, n: usize, used: &[usize]) -> Result<Vec<usize>, NoMemory>
    ensures are { IfOk result (λ order. order.items ≡ columns_in_order n used.now) }
{
    let mut order = unused_columns(alloc, n, used)?;
    push_used(n, used, &mut order)?;
    Ok(order)
}

// The columns below n that aren't used, rising.
pub(crate) fn unused_columns(
    alloc: Global,
    n: usize,
    used: &[usize],
) -> Result<Vec<usize>, NoMemory>
    ensures are { IfOk result (λ columns. columns.items ≡ filter (λ c. not (is_member used.now c)) (below n)) }
{
    let mut columns = Vec::new(alloc);
    push_unused(n, used, &mut columns)?;
    Ok(columns)
}

#[tactic(auto, using(crate::proofs::NextLaws::push_unused_laws))]
fn push_unused(n: usize, used: &[usize], order: &mut Vec<usize>) -> Result<(), NoMemory>
    ensures are { IfOk result
        (λ _. order.new.items ≡ order.old.items ++ filter (λ c. not (is_member used.now c)) (below n)) }
{
    for c in 0..n {
        if !holds(used, c) {
            order.push(c)?;
        }
    }
    Ok(())
}

#[tactic(auto, using(crate::proofs::NextLaws::push_unused_laws))]
fn push_used(n: usize, used: &[usize], order: &mut Vec<usize>) -> Result<(), NoMemory>
    ensures are { IfOk result (λ _. order.new.items ≡ order.old.items ++ filter (is_member used.now) (below n)) }
{
    for c in 0..n {
        if holds(used, c) {
            order.push(c)?;
        }
    }
    Ok(())
}

// Whether c is one of the columns.
#[tactic(auto, using(lc_enumeration::proofs::MemberLaws::told_member))]
fn holds(columns: &[usize], c: usize) -> bool
    ensures is { result ≡ is_member columns.now c }
{
    columns.contains(&c)
}

// The columns at these indexes of the order.
fn picked(alloc: Global, order: &[usize], at: &[usize]) -> Result<Vec<usize>, NoMemory>
    requires inside { (i : ℕ) → i < length at.now → slice_index at.now i < length order.now }
    ensures are { IfOk result (λ columns. columns.items ≡ map (slice_index order.now) at.now) }
{
    let mut columns = Vec::with_capacity(alloc, at.len())?;
    for t in at {
        columns.push(order[*t])?;
    }
    Ok(columns)
}

// The pivot columns below n, rising, and for each of them the index at which it is one of the pivots.
#[tactic(auto, using(crate::proofs::NextLaws::rising_laws))]
fn rising(alloc: Global, n: usize, pivots: &[usize]) -> Result<(Vec<usize>, Vec<usize>), NoMemory>
    ensures columns { IfOk result (λ p. p.0.items ≡ filter (is_member pivots.now) (below n)) }
    ensures turned { IfOk result (λ p. AreTurned p.0.items pivots.now p.1.items) }
{
    let mut columns = Vec::new(alloc);
    let mut turn = Vec::new(alloc);
    for c in 0..n {
        push_pivot(pivots, c, &mut columns, &mut turn)?;
    }
    Ok((columns, turn))
}

#[tactic(auto, using(crate::proofs::NextLaws::push_pivot_laws))]
fn push_pivot(
    pivots: &[usize],
    c: usize,
    columns: &mut Vec<usize>,
    turn: &mut Vec<usize>,
) -> Result<(), NoMemory>
    requires columns { columns.old.items ≡ filter (is_member pivots.now) (below c) }
    requires turned { AreTurned columns.old.items pivots.now turn.old.items }
    ensures columns { IfOk result (λ _. columns.new.items ≡ filter (is_member pivots.now) (below (c + 1))) }
    ensures turned { IfOk result (λ _. AreTurned columns.new.items pivots.now turn.new.items) }
{
    if let Some(r) = place_of(pivots, c) {
        columns.push(c)?;
        turn.push(r)?;
    }
    Ok(())
}

// An index at which c is one of the columns. They differ, so it is the only one.
#[tactic(auto, using(crate::proofs::NextLaws::member_at, crate::proofs::NextLaws::not_member))]
fn place_of(columns: &[usize], c: usize) -> Option<usize>
    ensures inside { IfSome result (λ r. r < length columns.now) }
    ensures is { IfSome result (λ r. slice_index columns.now r ≡ c) }
    ensures member { IfSome result (λ _. is_member columns.now c ≡ true) }
    ensures none { IfNone result (is_member columns.now c ≡ false) }
{
    for r in 0..columns.len() {
        if columns[r] == c {
            return Some(r);
        }
    }
    None
}

// The columns that aren't used, in their order.
fn unused_of(alloc: Global, used: &[usize], columns: &[usize]) -> Result<Vec<usize>, NoMemory>
    ensures are { IfOk result (λ fresh. fresh.items ≡ filter (λ c. not (is_member used.now c)) columns.now) }
{
    let mut fresh = Vec::new(alloc);
    for c in columns {
        if !holds(used, *c) {
            fresh.push(*c)?;
        }
    }
    Ok(fresh)
}
