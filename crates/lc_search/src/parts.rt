//! What a search is made of.
ghost use Rattle.std.specs.Prelude.{◌≡◌, ℕ, ◌≤◌, ◌<◌, None, length, All, IfOk, IsOk, IfSome, option_map};
ghost use Rattle.lc_algebra.specs.Word.{weight as weight_of};
ghost use Rattle.lc_algebra.specs.Divisor.{divisor_of};
ghost use Rattle.lc_enumeration.specs.Search.{set_count, ranks_of, word_at as word_at_place, bound_of};
ghost use Rattle.lc_search.specs.State.{whole_plan};

use lc_code::Code;
use lc_field::NoMemory;
use lc_infoset::Sets;
use lc_kernel::word_at;
use lc_place::Plan;
use lc_vec::weight;
use std::alloc::Global;

/// The information sets of a code of dimension at least 1. Fails if memory runs out.
#[tactic(auto, using(lc_algebra::proofs::ReducedLaws::reduced_independent))]
pub fn sets_of(alloc: Global, code: &Code) -> Result<Sets, NoMemory>
    requires dimension { 0 < length code.now.rows }
    ensures code { IfOk result (λ s. s ≡ code.now) }
{
    let _symbol = code.field();
    let _long = code.length();
    Sets::build(alloc, code.matrix())
}

/// The plan that goes through all sets. Fails if memory runs out.
#[tactic(auto, using(lc_code::proofs::CoordinateSteps::small_size))]
pub fn plan_of(alloc: Global, sets: &Sets) -> Result<Plan, NoMemory>
    ensures whole { IfOk result (λ p. p ≡ whole_plan sets.now) }
{
    let _long = sets.length();
    Plan::build(
        alloc,
        sets.dimension(),
        sets.field().size() as u64,
        sets.count(),
    )
}

/// The weight of the word at a place; None if there is none, and then no memory is taken. The plan goes through all sets. Fails if
/// memory runs out.
#[tactic(auto, using(crate::proofs::StateLaws::plan_for, crate::proofs::StateLaws::light_word))]
pub fn weight_at(
    alloc: Global,
    sets: &Sets,
    plan: &Plan,
    place: u64,
) -> Result<Option<u64>, NoMemory>
    requires plan { plan.now ≡ whole_plan sets.now }
    ensures is { IfOk result (λ w. w ≡ option_map weight_of (word_at_place sets.now (set_count sets.now) place)) }
    ensures none { word_at_place sets.now (set_count sets.now) place ≡ None → IsOk result }
    ensures few { IfOk result (λ w. IfSome w (λ n. n ≤ 255)) }
{
    let _rows = sets.dimension();
    let _long = sets.length();
    let _some = sets.count();
    let Some(word) = word_at(alloc, sets, plan, place)? else {
        return Ok(None);
    };
    Ok(Some(weight(word.symbols()) as u64))
}

/// The bound if these levels are done, one for each set, and a word of this weight was found: each nonzero codeword of which no
/// multiple was seen has at least this weight (Brouwer and Zimmermann).
#[tactic(auto, using(crate::proofs::StateLaws::bound_whole, crate::proofs::StateLaws::all_below))]
pub(crate) fn bound_of_levels(sets: &Sets, levels: &[u64], weight: u64) -> u64
    requires count { length levels.now ≡ set_count sets.now }
    requires most { All (λ w. w ≤ length sets.now.rows) levels.now }
    ensures is { result ≡ bound_of (divisor_of sets.now) (length sets.now.rows) (ranks_of sets.now) levels.now weight }
{
    let _long = sets.length();
    let k = sets.dimension() as u64;
    if levels.contains(&k) {
        return weight;
    }
    sets.bound(levels)
}
