//! The values of expressions.
ghost use Rattle.std.specs.Prelude.{◌≡◌, ◌≢◌, ℕ, length, None, Err, IfOk, IsOk};
ghost use Rattle.lc_grammar.specs.Tree as tree;
ghost use Rattle.lc_language.specs.Value.{value_named};
ghost use Rattle.lc_language.specs.Evaluation.{Evaluates, EvaluatesAll, EvaluatesList, nothing_yet};
ghost use Rattle.lc_parse.specs.Views.{tree_of, trees_of};
ghost use Rattle.lc_calls.specs.Built.{built_calls};
ghost use Rattle.lc_calls.specs.Applied.{Answers};
ghost use Rattle.lc_eval.specs.Evaluated.{AnswersAll};

use crate::apply::apply;
use crate::stock::Stock;
use lc_calls::{
    Call, Listed, MISFIT, Names, Stop, UNKNOWN_NAME, Value, WRONG_COUNT, bind, fault, misfit,
    row_named,
};
use lc_parse::{Expr, Node};
use std::alloc::Global;

// The value of a name that stands alone.
fn named(alloc: Global, names: &Names, offset: usize, name: &str) -> Result<Value, Stop>
    ensures is { Answers result (Evaluates built_calls names.now (tree.name offset name.now)) }
    ensures told { value_named name.now names.now ≡ None → result ≢ Err Stop.NoMemory }
{
    match names.value_of(name) {
        Some(value) => Ok(value.share()?),
        None => Err(Stop::Refused(fault(alloc, UNKNOWN_NAME, offset))),
    }
}

// The value of an expression, or its fault.
#[cycle(evaluation)]
pub(crate) fn evaluate(
    alloc: Global,
    names: &Names,
    stock: &mut Stock,
    expr: &Expr,
) -> Result<Value, Stop>
    ensures is { Answers result (Evaluates built_calls names.now (tree_of expr.now)) }
    ensures number { (offset n : ℕ) → tree_of expr.now ≡ tree.number offset n → IsOk result }
{
    match &expr.node {
        Node::Number(n) => Ok(Value::Number(*n)),
        Node::Name(name) => named(alloc, names, expr.offset, name.as_str()),
        Node::List(elements) => list(alloc, names, stock, elements),
        Node::Call(name, arguments) => {
            call(alloc, names, stock, expr.offset, name.as_str(), arguments)
        }
    }
}

// The value of the list of these elements, from the left: each is evaluated, and must then fit those before it.
#[cycle(evaluation)]
fn list(alloc: Global, names: &Names, stock: &mut Stock, elements: &[Expr]) -> Result<Value, Stop>
    ensures { Answers result (EvaluatesList built_calls names.now (trees_of elements.now) nothing_yet) }
{
    let mut found = Listed::Nothing;
    for element in elements {
        let value = evaluate(alloc, names, stock, element)?;
        found = found.with(alloc, element.offset, &value)?;
    }
    Ok(found.value(alloc)?)
}

// The value of the call of this name with these arguments.
#[cycle(evaluation)]
fn call(
    alloc: Global,
    names: &Names,
    stock: &mut Stock,
    offset: usize,
    name: &str,
    arguments: &[Expr],
) -> Result<Value, Stop>
    ensures { Answers result (Evaluates built_calls names.now (tree.call offset name.now (trees_of arguments.now))) }
{
    let Some(row) = row_named(name) else {
        return Err(Stop::Refused(fault(alloc, UNKNOWN_NAME, offset)));
    };
    let Call::Value(call) = row.call else {
        return Err(Stop::Refused(fault(alloc, MISFIT, offset)));
    };
    let Some(kinds) = row.kinds(arguments.len()) else {
        return Err(Stop::Refused(fault(alloc, WRONG_COUNT, offset)));
    };
    let values = evaluate_all(alloc, names, stock, arguments)?;
    match bind(call, &values) {
        Some(bound) => apply(alloc, stock, offset, bound),
        None => Err(misfit(alloc, offset, kinds, arguments, &values)),
    }
}

// The values of expressions, from the left, or the first fault.
#[cycle(evaluation)]
pub(crate) fn evaluate_all(
    alloc: Global,
    names: &Names,
    stock: &mut Stock,
    exprs: &[Expr],
) -> Result<Vec<Value>, Stop>
    ensures { AnswersAll result (EvaluatesAll built_calls names.now (trees_of exprs.now)) }
{
    let mut values = Vec::new(alloc);
    for expr in exprs {
        values.push(evaluate(alloc, names, stock, expr)?)?;
    }
    Ok(values)
}
