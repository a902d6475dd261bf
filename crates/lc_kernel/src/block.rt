//! A block of a search, and how it is gone through.
//!
//! The words of a block are those of up to 4,096 messages one after another, all of one level and one information set.
//! A word's symbols at the basis of the set are those of its message, so only the columns outside it are counted, in
//! parts of at most 64. A word is the sum of a head, which is the word of all but the last two or three places of its
//! support, and of a tail, which is that of these places. Over 2 elements the messages are taken by runs, which share
//! their head (`runs.rt`). Over more elements they are taken support by support, all heads of it times all tails, and
//! the heads are made once for each support (`sweeps.rt`, `part_counts.rt`), or by runs if a support has too many heads
//! (`fronts.rt`, `tails.rt`). A level without tails, or a set without a table, is gone through message by message
//! (`least_word.rt`).

ghost use Rattle.std.specs.Prelude.{◌≡◌, ◌<◌, ◌≤◌, ◌^◌, length};
ghost use Rattle.lc_algebra.specs.Span.{AreIndependent};
ghost use Rattle.lc_algebra.specs.Matrix.{AreRows};
ghost use Rattle.lc_enumeration.specs.Plan.{total};
ghost use Rattle.lc_kernel.specs.Kernel.{IsPlanOf};

use lc_infoset::Sets;
use lc_place::Plan;

/// A block of a plan: its number, the plan, and the sets that the plan is for.
#[derive(Clone, Copy)]
pub(crate) struct Block<'a> {
    pub(crate) sets: &'a Sets,
    pub(crate) plan: &'a Plan,
    pub(crate) number: u64,
    ghost planned: { IsPlanOf plan.now sets.now },
    ghost inside: { number < total plan.now.k plan.now.q plan.now.m },
    ghost small: { number < 2 ^ 40 },
    ghost some: { 1 ≤ length sets.now.rows },
    ghost few: { length sets.now.rows ≤ 255 },
    ghost short: { sets.now.columns ≤ 255 },
    ghost rows: { AreRows sets.now.field sets.now.columns sets.now.rows },
    ghost independent: { AreIndependent sets.now.field sets.now.columns sets.now.rows },
}

impl<'a> Block<'a> {
    /// A block of a plan of these sets. Its number is below the plan's total.
    pub(crate) fn of(sets: &'a Sets, plan: &'a Plan, number: u64) -> Block<'a>
        requires plan { IsPlanOf plan.now sets.now }
        requires block { number < total plan.now.k plan.now.q plan.now.m }
        ensures sets { result.sets.now ≡ sets.now }
        ensures plan { result.plan.now ≡ plan.now }
        ensures number { result.number ≡ number }
    {
        let _few = plan.total();
        let _k = sets.dimension();
        let _n = sets.length();
        Block { sets, plan, number }
    }
}
