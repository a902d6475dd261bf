//! One round: so many blocks, by so many workers.
ghost use Rattle.std.specs.Prelude.{◌≡◌, ◌+◌, ◌^◌, ◌≤◌, ◌<◌, length, All, IfOk};
ghost use Rattle.lc_enumeration.specs.Plan.{total};
ghost use Rattle.lc_kernel.specs.Kernel.{IsPlanOf};
ghost use Rattle.lc_search.specs.Work.{block_value};
ghost use Rattle.lc_search.specs.State.{whole_plan};
ghost use Rattle.lc_search.specs.Found.{IsFoundIn};
ghost use Rattle.lc_crew.specs.Crew.{least_over};

use crate::answer::Best;
use crate::blocks::SearchBlocks;
use lc_board::RoundResult;
use lc_crew::{Crew, run_round as run_blocks};
use lc_enumeration::PLACES;
use lc_field::NoMemory;
use lc_infoset::Sets;
use lc_io::Gate;
use lc_kernel::Scratch;
use std::alloc::Global;
use std::thread::Threads;

// Makes a scratch for these sets if there is none.
fn provide(alloc: Global, sets: &Sets, spare: &mut Vec<Scratch>) -> Result<(), NoMemory>
    requires spare { All (λ s. s ≡ sets.now) spare.old.items }
    ensures spare { All (λ s. s ≡ sets.now) spare.new.items }
    ensures some { IfOk result (λ _. 0 < length spare.new.items) }
{
    if spare.is_empty() {
        let scratch = Scratch::new(alloc, sets)?;
        spare.push(scratch)?;
    }
    Ok(())
}

/// Does the `count` blocks from `start` on, by the workers of a crew. `first` is the least value before.
///
/// All memory is taken before the first claim. `spare` holds scratches that earlier rounds made; those of this round are kept
/// there.
pub(crate) fn run_round<R: Threads + Sync, G: Gate + Sync>(
    crew: &Crew<'_, R, G>,
    blocks: &SearchBlocks<'_>,
    start: u64,
    count: u64,
    first: u64,
    spare: &mut Vec<Scratch>,
) -> Result<RoundResult, NoMemory>
    requires count { count ≤ 2 ^ 40 }
    requires plan { IsPlanOf blocks.now.plan.now blocks.now.sets.now }
    requires blocks { start + count ≤ total blocks.now.plan.now.k blocks.now.plan.now.q blocks.now.plan.now.m }
    requires spare { All (λ s. s ≡ blocks.now.sets.now) spare.old.items }
    ensures spare { All (λ s. s ≡ blocks.now.sets.now) spare.new.items }
    ensures count { IfOk result (λ r. r.count ≡ count) }
    ensures claimed { IfOk result (λ r. r.claimed ≡ count) }
    ensures best { IfOk result (λ r. r.best
        ≡ least_over (block_value blocks.now.sets.now blocks.now.plan.now.m) first start count) }
{
    provide(crew.alloc, blocks.sets, spare)?;
    let Ok(closed) = run_blocks(crew, blocks, start, count, first, spare) else {
        return Err(NoMemory);
    };
    Ok(closed)
}

/// The best word after a round, and what the board showed.
#[derive(Drop)]
pub struct RoundFound {
    /// The best word.
    pub best: Best,
    /// What the board of the round showed when it was closed.
    pub closed: RoundResult,
}

/// Does the `count` blocks from `start` on, after which the best word is the least of them and of the one before, `best`, whose
/// weight is at most 255 and whose place is below 2^52. Fails if memory runs out.
///
/// The plan goes through all sets and has these blocks. The workers are those of the crew, or fewer where there are few blocks,
/// numbered from 0; each passes the gate before each of its reports. One worker starts no thread. All memory is taken before the
/// first claim. `spare` holds scratches that were made for these sets; those of this round are kept there.
pub fn find_in_round<R: Threads + Sync, G: Gate + Sync>(
    crew: &Crew<'_, R, G>,
    blocks: &SearchBlocks<'_>,
    start: u64,
    count: u64,
    best: Best,
    spare: &mut Vec<Scratch>,
) -> Result<RoundFound, NoMemory>
    requires plan { blocks.now.plan.now ≡ whole_plan blocks.now.sets.now }
    requires blocks { start + count ≤ total blocks.now.plan.now.k blocks.now.plan.now.q blocks.now.plan.now.m }
    requires word { (best.weight ≤ 255) × (best.place < 2 ^ 52) }
    requires spare { All (λ s. s ≡ blocks.now.sets.now) spare.old.items }
    ensures spare { All (λ s. s ≡ blocks.now.sets.now) spare.new.items }
    ensures found { IfOk result (λ r. IsFoundIn blocks.now.sets.now start count best.weight best.place r) }
{
    let _some = blocks.sets.count();
    let _few = blocks.plan.total();
    let first = best.weight * PLACES + best.place;
    let closed = run_round(crew, blocks, start, count, first, spare)?;
    let best = Best {
        weight: closed.best() / PLACES,
        place: closed.best() % PLACES,
    };
    Ok(RoundFound { best, closed })
}
