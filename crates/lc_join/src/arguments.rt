//! The arguments of `join`.
ghost use Rattle.std.specs.Prelude.{◌≡◌, ◌≤◌, ◌^◌, codes, IfOk, IfSome};
ghost use Rattle.lc_formats.specs.Text.{same_bytes};
ghost use Rattle.lc_arguments.specs.Asked.{words_of};
ghost use Rattle.lc_join.specs.Asked.{budget_in, join_options};
ghost use Rattle.lc_join.specs.Seen.{options_of};

use lc_enumeration::{CUT, DEFAULT_BUDGET};
use lc_json::is_same;
use lc_share::{value_in, word};

// The budget: 2^20 blocks if there is no argument for it.
#[tactic(auto, using(crate::proofs::OptionLaws::budget_laws))]
fn budget_in(arguments: &[String]) -> Option<u64>
    ensures is { result ≡ budget_in (words_of arguments.now) }
    ensures range { IfSome result (λ n. n ≤ 2 ^ 40) }
{
    if arguments.len() <= 1 {
        return Some(DEFAULT_BUDGET);
    }
    value_in(word(arguments, 1), "budget", 0, CUT)
}

// Whether the first argument names the command.
fn is_join(argument: &str) -> bool
    ensures { result ≡ same_bytes (codes "join") argument.now }
{
    is_same("join".as_bytes(), argument.as_bytes())
}

/// The budget that the arguments ask for, or the index of the first one that is refused.
#[tactic(auto, using(crate::proofs::OptionLaws::options_laws))]
pub(crate) fn join_options(arguments: &[String]) -> Result<u64, usize>
    ensures is { options_of result ≡ join_options (words_of arguments.now) }
    ensures few { IfOk result (λ n. n ≤ 2 ^ 40) }
{
    if !is_join(word(arguments, 0)) {
        return Err(0);
    }
    let Some(budget) = budget_in(arguments) else {
        return Err(1);
    };
    if arguments.len() > 2 {
        return Err(2);
    }
    Ok(budget)
}
