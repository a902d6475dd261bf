//! Does a part of a search.
ghost use Rattle.std.specs.Prelude.{◌≡◌, ◌≤◌, ◌<◌, ◌+◌, ◌^◌, length, All, IfOk, MatchOption, true, false};
ghost use Rattle.std.specs.Bool.{OnTrue, OnFalse};
ghost use Rattle.lc_enumeration.specs.Plan.{total};
ghost use Rattle.lc_enumeration.specs.Search.{set_count, ranks_of, found_first};
ghost use Rattle.lc_search.specs.State.{whole_plan};
ghost use Rattle.lc_parts.specs.Part.{IsTruePart, facts_of};
ghost use Rattle.lc_parts.specs.Seen.{part_of, facts_seen};
ghost use Rattle.lc_part_search.specs.Done.{IsInside, IsDoneFor};

use crate::done::Done;
use lc_code::Code;
use lc_crew::Crew;
use lc_field::NoMemory;
use lc_infoset::Sets;
use lc_io::Gate;
use lc_parts::{Facts, Part};
use lc_place::Plan;
use lc_search::{Best, SearchBlocks, find_in_round, plan_of, sets_of, weight_at};
use std::alloc::Global;
use std::thread::Threads;

// How many fresh columns each set has.
#[tactic(auto, using(crate::proofs::PartLaws::ranks_laws))]
fn ranks_of(alloc: Global, sets: &Sets) -> Result<Vec<u64>, NoMemory>
    ensures is { IfOk result (λ ranks. ranks.items ≡ ranks_of sets.now) }
{
    let count = sets.count();
    let mut ranks = Vec::with_capacity(alloc, count)?;
    for j in 0..count {
        ranks.push(sets.fresh(j).len() as u64)?;
    }
    Ok(ranks)
}

// What the plan and the bound of a search are made of, if `first` is the weight of the word at place 0.
#[tactic(auto, unfolding(crate::proofs::Opened::facts))]
fn facts_of(alloc: Global, sets: &Sets, first: u64) -> Result<Facts, NoMemory>
    requires first { first ≡ (found_first sets.now (set_count sets.now)).weight }
    ensures is { IfOk result (λ facts. facts_seen facts ≡ facts_of sets.now) }
{
    let ranks = ranks_of(alloc, sets)?;
    Ok(Facts {
        k: sets.dimension() as u64,
        q: sets.field().size() as u64,
        ranks,
        divisor: sets.divisor(),
        first,
    })
}

// Whether there is a block, and all of them are of the plan.
fn is_inside(plan: &Plan, start: u64, count: u64) -> bool
    ensures inside { OnTrue result ((1 ≤ count) × (start + count ≤ total plan.now.k plan.now.q plan.now.m)) }
    ensures outside { OnFalse result ((1 ≤ count) × (start + count ≤ total plan.now.k plan.now.q plan.now.m) → ⊥) }
{
    let all = plan.total();
    if count == 0 {
        return false;
    }
    if all < count {
        return false;
    }
    start <= all - count
}

// The least of the word at place 0, whose weight is `first`, and the words of these blocks.
fn least_of<R: Threads + Sync, G: Gate + Sync>(
    crew: &Crew<'_, R, G>,
    blocks: &SearchBlocks<'_>,
    start: u64,
    count: u64,
    first: u64,
) -> Result<Part, NoMemory>
    requires plan { blocks.now.plan.now ≡ whole_plan blocks.now.sets.now }
    requires some { 1 ≤ count }
    requires blocks { start + count ≤ total blocks.now.plan.now.k blocks.now.plan.now.q blocks.now.plan.now.m }
    requires first { (first ≡ (found_first blocks.now.sets.now (set_count blocks.now.sets.now)).weight)
        × (first ≤ 255) }
    ensures range { IfOk result (λ p. (p.start ≡ start) × (p.count ≡ count)) }
    ensures is_true { IfOk result (λ p. IsTruePart blocks.now.sets.now (part_of p)) }
{
    let mut spare = Vec::new(crew.alloc);
    let best = Best {
        weight: first,
        place: 0,
    };
    let found = find_in_round(crew, blocks, start, count, best, &mut spare)?;
    Ok(Part {
        start,
        count,
        weight: found.best.weight,
        place: found.best.place,
    })
}

// The part of the plan of these sets, which has it.
fn done_in<R: Threads + Sync, G: Gate + Sync>(
    crew: &Crew<'_, R, G>,
    blocks: &SearchBlocks<'_>,
    start: u64,
    count: u64,
) -> Result<Done, NoMemory>
    requires plan { blocks.now.plan.now ≡ whole_plan blocks.now.sets.now }
    requires some { 1 ≤ count }
    requires blocks { start + count ≤ total blocks.now.plan.now.k blocks.now.plan.now.q blocks.now.plan.now.m }
    ensures is { IfOk result (IsDoneFor blocks.now.sets.now start count) }
{
    let _some = blocks.sets.dimension();
    let Some(first) = weight_at(crew.alloc, blocks.sets, blocks.plan, 0)? else {
        unreachable!()
    };
    let facts = facts_of(crew.alloc, blocks.sets, first)?;
    let part = least_of(crew, blocks, start, count, first)?;
    Ok(Done { facts, part })
}

/// Does the `count` blocks from `start` on of the search of a code of dimension at least 1, by the workers of a crew, and returns
/// the least of the word at place 0 and of the words of these blocks, with what the plan and the bound of the search are made of
/// (Grassl, Searching for linear codes with large minimum distance). None exactly if `count` is 0 or the plan doesn't have all
/// of these blocks. Fails if memory runs out.
///
/// The blocks are done in one round, whatever the search would answer on the way. Workers are numbered from 0; each passes the
/// gate before each of its reports. One worker starts no thread. All memory is taken before the first claim.
pub fn find_part<R: Threads + Sync, G: Gate + Sync>(
    crew: &Crew<'_, R, G>,
    code: &Code,
    start: u64,
    count: u64,
) -> Result<Option<Done>, NoMemory>
    requires dimension { 0 < length code.now.rows }
    ensures found { IfOk result (λ o. MatchOption o (¬ IsInside code.now start count)
        (λ d. IsInside code.now start count × IsDoneFor code.now start count d)) }
{
    let sets = sets_of(crew.alloc, code)?;
    let plan = plan_of(crew.alloc, &sets)?;
    if !is_inside(&plan, start, count) {
        return Ok(None);
    }
    let blocks = SearchBlocks {
        sets: &sets,
        plan: &plan,
    };
    let done = done_in(crew, &blocks, start, count)?;
    Ok(Some(done))
}
