//! The kinds of arguments.
ghost use Rattle.std.specs.Prelude.{◌≡◌};
ghost use Rattle.lc_language.specs.Value as language;
ghost use Rattle.lc_language.specs.Evaluation as evaluation;
ghost use Rattle.lc_language.specs.Evaluation.{refuse_at};
ghost use Rattle.lc_parse.specs.Views.{trees_of};
ghost use Rattle.lc_calls.specs.Value.{value_of, values_of};
ghost use Rattle.lc_calls.specs.Applied.{IsStop};

use crate::refusals::{MISFIT, Stop, fault};
use crate::values::Value;
use lc_language::Kind;
use lc_parse::Expr;
use std::alloc::Global;

// Whether the value is of the kind.
fn is_kind(kind: Kind, value: &Value) -> bool
    ensures { result ≡ language.is_kind kind (value_of value.now) }
{
    match kind {
        Kind::Number => value.number().is_some(),
        Kind::Field => value.field().is_some(),
        Kind::Numbers => value.numbers().is_some(),
        Kind::Lists => value.lists().is_some(),
        Kind::Code => value.code().is_some(),
    }
}

// The offset of the first argument whose value is not of its kind.
fn first_misfit(kinds: &[Kind], arguments: &[Expr], values: &[Value]) -> Option<usize>
    ensures { result ≡ evaluation.first_misfit kinds.now (trees_of arguments.now) (values_of values.now) }
{
    let (kind, kinds) = kinds.split_first()?;
    let (argument, arguments) = arguments.split_first()?;
    let (value, values) = values.split_first()?;
    if is_kind(*kind, value) {
        first_misfit(kinds, arguments, values)
    } else {
        Some(argument.offset)
    }
}

/// The fault of arguments that are not of their kinds: it is at the first that isn't, and at `offset`, that of the call, if there is
/// none.
#[tactic(auto, unfolding(lc_language::specs::Evaluation::misfit_offset))]
pub fn misfit(
    alloc: Global,
    offset: usize,
    kinds: &[Kind],
    arguments: &[Expr],
    values: &[Value],
) -> Stop
    ensures { IsStop result (refuse_at 45 (evaluation.misfit_offset offset kinds.now (trees_of arguments.now)
        (values_of values.now))) }
{
    let first = first_misfit(kinds, arguments, values).unwrap_or(offset);
    Stop::Refused(fault(alloc, MISFIT, first))
}
