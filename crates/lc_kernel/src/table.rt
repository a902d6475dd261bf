//! The table of an information set over 2 elements: its parts, for 64 columns each.

ghost use Rattle.std.specs.Prelude.{◌≡◌, ◌*◌, ◌<◌, ◌≤◌, [], length, IfOk};
ghost use Rattle.lc_algebra.specs.declared.FieldName.TheVariants.{Gf2};
ghost use Rattle.lc_enumeration.specs.InformationSet.{is_member};
ghost use Rattle.lc_enumeration.specs.Search.{set_count};
ghost use Rattle.lc_kernel.specs.Packed.{outside, others, AreStarts};
ghost use Rattle.lc_kernel.specs.Tables.{AreParts, IsTable, sum_estimate};

use crate::parts::{Part, Tails, pair_starts, part_of, tail_starts};
use lc_field::NoMemory;
use lc_infoset::Sets;
use std::alloc::Global;

/// For one set: the parts for the columns outside its basis, 64 columns each but the last; how many places a
/// tail has, 2 or 3; and for each row the index of its first pair and of its first tail.
#[derive(Drop)]
pub(crate) struct Table {
    pub(crate) parts: Vec<Part>,
    pub(crate) tail: usize,
    pub(crate) pairs: Vec<usize>,
    pub(crate) starts: Vec<usize>,
}

// About the most sums of three rows that the tables of all sets have: 0.7 megabytes of them.
const MOST_SUMS: usize = 90_000;

/// The table of set `j`, over 2 elements.
pub(crate) fn table_of(alloc: Global, sets: &Sets, j: usize) -> Result<Table, NoMemory>
    requires set { j < set_count sets.now }
    requires field { sets.now.field ≡ Gf2 }
    ensures is { IfOk result (λ t. IsTable sets.now j t) }
{
    let _n = sets.length();
    let k = sets.dimension();
    let tail = tail_places(sets);
    let pairs = pair_starts(alloc, k)?;
    let starts = tail_starts(alloc, k, tail, &pairs)?;
    let tails = Tails {
        places: tail,
        pairs: &pairs,
    };
    let parts = parts_of(alloc, sets, j, &tails)?;
    Ok(Table {
        parts,
        tail,
        pairs,
        starts,
    })
}

// How many places the tails of the sets have: three, if that doesn't take too many sums, and else two.
fn tail_places(sets: &Sets) -> usize
    ensures least { 2 ≤ result }
    ensures most { result ≤ 3 }
    ensures few { sum_estimate sets.now ≤ 90000 → result ≡ 3 }
    ensures many { 90000 < sum_estimate sets.now → result ≡ 2 }
{
    let k = sets.dimension();
    let parts = (sets.length() - k) / 64 + 1;
    if k * k * k / 6 * parts * sets.count() > MOST_SUMS {
        return 2;
    }
    3
}

// The parts of set j.
fn parts_of(alloc: Global, sets: &Sets, j: usize, tails: &Tails<'_>) -> Result<Vec<Part>, NoMemory>
    requires set { j < set_count sets.now }
    requires field { sets.now.field ≡ Gf2 }
    requires least { 2 ≤ tails.now.places }
    requires most { tails.now.places ≤ 3 }
    requires pairs { AreStarts (length sets.now.rows) 2 tails.now.pairs.now }
    ensures some { IfOk result (λ ps. 0 < length ps.items) }
    ensures wide { IfOk result (λ ps. length (others sets.now j) ≤ 64 * length ps.items) }
    ensures are { IfOk result (λ ps. AreParts sets.now j tails.now.places ps.items) }
{
    let columns = columns_outside(alloc, sets.length(), sets.basis(j))?;
    let mut parts = Vec::new(alloc);
    push_parts(alloc, sets, j, tails, &columns, &mut parts)?;
    Ok(parts)
}

// Pushes the parts for these columns, one at least.
fn push_parts(
    alloc: Global,
    sets: &Sets,
    j: usize,
    tails: &Tails<'_>,
    columns: &[usize],
    parts: &mut Vec<Part>,
) -> Result<(), NoMemory>
    requires set { j < set_count sets.now }
    requires field { sets.now.field ≡ Gf2 }
    requires least { 2 ≤ tails.now.places }
    requires most { tails.now.places ≤ 3 }
    requires pairs { AreStarts (length sets.now.rows) 2 tails.now.pairs.now }
    requires columns { columns.now ≡ others sets.now j }
    requires none { parts.old.items ≡ [] }
    ensures some { IfOk result (λ _. 0 < length parts.new.items) }
    ensures wide { IfOk result (λ _. length columns.now ≤ 64 * length parts.new.items) }
    ensures are { IfOk result (λ _. AreParts sets.now j tails.now.places parts.new.items) }
{
    let mut start = 0;
    loop {
        let end = columns.len().min(start + 64);
        parts.push(part_of(alloc, sets, j, tails, &columns[start..end])?)?;
        if end == columns.len() {
            return Ok(());
        }
        start = end;
    }
}

/// The columns below n that aren't in the set.
#[tactic(auto, using(crate::proofs::TableLaws::outside_laws))]
pub(crate) fn columns_outside(
    alloc: Global,
    n: usize,
    set: &[usize],
) -> Result<Vec<usize>, NoMemory>
    ensures are { IfOk result (λ cs. cs.items ≡ outside n set.now) }
{
    let mut columns = Vec::new(alloc);
    for c in 0..n {
        if !holds(set, c) {
            columns.push(c)?;
        }
    }
    Ok(columns)
}

// Whether c is one of the columns.
#[tactic(auto, using(lc_enumeration::proofs::MemberLaws::told_member))]
fn holds(columns: &[usize], c: usize) -> bool
    ensures is { result ≡ is_member columns.now c }
{
    columns.contains(&c)
}
