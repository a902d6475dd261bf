//! What is asked of the sets and the plan of a code.
ghost use Rattle.std.specs.Prelude.{IfOk};
ghost use Rattle.lc_kernel.specs.Kernel.{IsPlanOf};

use crate::blocks::{Blocks, blocks_agree};
use crate::kernel::{has_words, words_are_at_ends};
use crate::planted::{Planted, is_least};
use crate::shapes::{Shape, shaped};
use crate::stack::{blocks_are_walked, steps_make};
use lc_code::{Code, CodeRefusal};
use lc_infoset::Sets;
use lc_place::{NoMemory, Plan};
use std::alloc::Global;

// A question: whether blocks have the least values of a plain scan, whether the first blocks are walked through by a stack, how
// many sums a stack makes again, whether the words of a table are at their places, whether the words at the ends of the blocks of a
// level are, and whether a planted word is found.
#[derive(Clone, Copy)]
pub(crate) enum Task {
    Least(Blocks),
    Walk(u64),
    Made(&'static [Option<usize>]),
    Words,
    Ends(usize),
    Found(Planted),
}

// The information sets of a code, if it has words.
#[tactic(auto, using(lc_algebra::proofs::ReducedLaws::reduced_independent))]
pub(crate) fn sets_of(alloc: Global, code: &Code) -> Option<Sets> {
    let _symbol = code.field();
    let _long = code.length();
    if code.dimension() == 0 {
        return None;
    }
    match Sets::build(alloc, code.matrix()) {
        Ok(sets) => Some(sets),
        Err(_) => None,
    }
}

// The plan of all sets of a code.
fn plan_of(alloc: Global, sets: &Sets) -> Result<Plan, NoMemory>
    ensures is { IfOk result (λ p. IsPlanOf p sets.now) }
{
    let _n = sets.length();
    Ok(Plan::build(
        alloc,
        sets.dimension(),
        sets.field().size() as u64,
        sets.count(),
    )?)
}

// Whether it is so for the plan.
fn plan_does(alloc: Global, sets: &Sets, plan: &Plan, task: Task) -> bool
    requires plan { IsPlanOf plan.now sets.now }
{
    match task {
        Task::Least(blocks) => blocks_agree(alloc, sets, plan, blocks),
        Task::Walk(most) => blocks_are_walked(alloc, sets, plan, most),
        Task::Made(made) => steps_make(alloc, sets, plan, made),
        Task::Words => has_words(alloc, sets, plan),
        Task::Ends(level) => words_are_at_ends(alloc, sets, plan, level),
        Task::Found(planted) => is_least(alloc, sets, plan, planted),
    }
}

// Whether it is so for the sets.
fn sets_do(alloc: Global, sets: &Sets, task: Task) -> bool {
    match plan_of(alloc, sets) {
        Ok(plan) => plan_does(alloc, sets, &plan, task),
        Err(_) => false,
    }
}

// Whether it is so for a code.
pub(crate) fn code_does(alloc: Global, code: &Code, task: Task) -> bool {
    match sets_of(alloc, code) {
        Some(sets) => sets_do(alloc, &sets, task),
        None => false,
    }
}

// Whether there is a code, and it is so for it.
pub(crate) fn made_does(alloc: Global, code: Result<Code, CodeRefusal>, task: Task) -> bool {
    match code {
        Ok(code) => code_does(alloc, &code, task),
        Err(_) => false,
    }
}

// Whether it is so for the code of a shape over q elements.
pub(crate) fn shape_does(alloc: Global, q: u64, shape: &Shape, task: Task) -> bool {
    made_does(alloc, shaped(alloc, q, shape), task)
}
