//! The arguments of `part`.
ghost use Rattle.std.specs.Prelude.{◌≡◌, ◌≤◌, codes, IfOk, IfSome};
ghost use Rattle.lc_formats.specs.Text.{same_bytes};
ghost use Rattle.lc_arguments.specs.Asked.{words_of};
ghost use Rattle.lc_share.specs.Asked.{word_at, value_in, workers_in, part_options};
ghost use Rattle.lc_share.specs.Seen.{options_of};

use lc_arguments::{number_within, parts_of};
use lc_enumeration::CUT;
use lc_json::is_same;

/// What the arguments of `part` ask for.
#[derive(Clone, Copy)]
pub(crate) struct PartAsked {
    // The first block.
    pub(crate) start: u64,
    // How many blocks.
    pub(crate) count: u64,
    // How many workers, 1 to 256.
    pub(crate) workers: u32,
}

/// The argument of an index, from 0; the empty one if there is none.
#[tactic(auto, using(crate::proofs::WordLaws::word_laws))]
pub fn word(arguments: &[String], i: usize) -> &str
    ensures { result.now ≡ word_at (words_of arguments.now) i }
{
    if i < arguments.len() {
        return arguments[i].as_str();
    }
    ""
}

/// The number of key=number, if the argument is that with this key and the number is in the range from `low` to `high`.
#[tactic(auto, using(crate::proofs::WordLaws::value_laws))]
pub fn value_in(argument: &str, key: &str, low: u64, high: u64) -> Option<u64>
    ensures is { result ≡ value_in key.now low high argument.now }
    ensures range { IfSome result (λ n. (low ≤ n) × (n ≤ high)) }
{
    match parts_of(argument) {
        Some((name, value)) => {
            if !is_same(key.as_bytes(), name.as_bytes()) {
                return None;
            }
            number_within(value, low, high)
        }
        None => None,
    }
}

// The number of workers.
#[tactic(auto, using(crate::proofs::WordLaws::workers_laws))]
fn workers_in(arguments: &[String]) -> Option<u64>
    ensures is { result ≡ workers_in (words_of arguments.now) }
    ensures range { IfSome result (λ n. (1 ≤ n) × (n ≤ 256)) }
{
    if arguments.len() <= 3 {
        return Some(1);
    }
    value_in(word(arguments, 3), "workers", 1, 256)
}

// Whether the first argument names the command.
fn is_part(argument: &str) -> bool
    ensures { result ≡ same_bytes (codes "part") argument.now }
{
    is_same("part".as_bytes(), argument.as_bytes())
}

/// What the arguments ask for, or the index of the first one that is refused.
#[tactic(auto, using(crate::proofs::WordLaws::options_laws))]
pub(crate) fn part_options(arguments: &[String]) -> Result<PartAsked, usize>
    ensures is { options_of result ≡ part_options (words_of arguments.now) }
    ensures workers { IfOk result (λ a. (1 ≤ a.workers) × (a.workers ≤ 256)) }
{
    if !is_part(word(arguments, 0)) {
        return Err(0);
    }
    let Some(start) = value_in(word(arguments, 1), "from", 0, CUT) else {
        return Err(1);
    };
    let Some(count) = value_in(word(arguments, 2), "count", 1, CUT) else {
        return Err(2);
    };
    let Some(workers) = workers_in(arguments) else {
        return Err(3);
    };
    if arguments.len() > 4 {
        return Err(4);
    }
    Ok(PartAsked {
        start,
        count,
        workers: workers as u32,
    })
}
