//! What a statement does.
ghost use Rattle.std.specs.Prelude.{◌≡◌, ℕ, List, Some, None, IfOk};
ghost use Rattle.lc_grammar.specs.Tree as tree;
ghost use Rattle.lc_language.specs.Evaluation.{Steps, StepsOf, StepsAsQuery};
ghost use Rattle.lc_parse.specs.Views.{tree_of, trees_of, statement_of};
ghost use Rattle.lc_calls.specs.Built.{built_calls, query_call_of, forms_of, IsAsked};
ghost use Rattle.lc_eval.specs.Evaluated.{Affects, AffectsOrFails, IsQueryOf};

use crate::evaluate::{evaluate, evaluate_all};
use crate::lines::value_line;
use crate::machine::Query;
use crate::queries::answer;
use crate::stock::Stock;
use lc_calls::{
    Binding, Call, Names, QueryCall, Row, Stop, WRONG_COUNT, bind_query, fault, misfit, row_named,
};
use lc_code::Code;
use lc_field::NoMemory;
use lc_parse::{Expr, Node, Statement};
use lc_print::fault_line;
use lc_vec::Word;
use std::alloc::Global;

/// What a statement does.
#[derive(Drop)]
pub(crate) enum Effect {
    /// it binds a name to a value
    Binds(Binding),
    /// it prints a line
    Prints(Vec<u8>),
    /// it needs the answer of a query
    Needs(Query),
    /// it needs the weight distribution of a code
    Counts(Code),
    /// it needs a word of a code that is nearest to a word
    Nears(Code, Word),
    /// it has a fault, whose line this is
    Fails(Vec<u8>),
}

/// A query that an expression asks: its row of the table, its call, and its arguments.
#[derive(Clone, Copy)]
pub(crate) struct Asked<'a> {
    pub(crate) row: &'static Row,
    pub(crate) call: QueryCall,
    pub(crate) arguments: &'a [Expr],
}

/// What a statement does.
pub(crate) fn effect_of(
    alloc: Global,
    names: &Names,
    stock: &mut Stock,
    statement: &Statement,
) -> Result<Effect, NoMemory>
    ensures { IfOk result (λ effect. Affects effect (Steps built_calls names.now (statement_of statement.now))) }
{
    match done(alloc, names, stock, statement) {
        Ok(effect) => Ok(effect),
        Err(Stop::Refused(refused)) => {
            let line = fault_line(alloc, refused.number, refused.offset, &refused.values)?;
            Ok(Effect::Fails(line))
        }
        Err(Stop::NoMemory) => Err(NoMemory),
    }
}

// What a statement does, or its fault.
fn done(
    alloc: Global,
    names: &Names,
    stock: &mut Stock,
    statement: &Statement,
) -> Result<Effect, Stop>
    ensures { AffectsOrFails result (Steps built_calls names.now (statement_of statement.now)) }
{
    match &statement.target {
        Some(name) => {
            let value = evaluate(alloc, names, stock, &statement.expr)?;
            let name = name.clone()?;
            Ok(Effect::Binds(Binding { name, value }))
        }
        None => alone(alloc, names, stock, &statement.expr),
    }
}

// What an expression does that stands alone.
fn alone(alloc: Global, names: &Names, stock: &mut Stock, expr: &Expr) -> Result<Effect, Stop>
    ensures { AffectsOrFails result (StepsOf built_calls names.now None (tree_of expr.now)) }
{
    match query_of(expr) {
        Some(asked) => ask(alloc, names, stock, expr.offset, &asked),
        None => {
            let value = evaluate(alloc, names, stock, expr)?;
            Ok(Effect::Prints(value_line(alloc, &value)?))
        }
    }
}

// The query that an expression asks.
fn query_of(expr: &Expr) -> Option<Asked<'_>>
    ensures { IsQueryOf expr.now result }
{
    let Node::Call(name, arguments) = &expr.node else {
        return None;
    };
    let row = row_named(name.as_str())?;
    match row.call {
        Call::Query(call) => Some(Asked {
            row,
            call,
            arguments: arguments.as_slice(),
        }),
        Call::Value(_) => None,
    }
}

// What a query at this offset does.
fn ask(
    alloc: Global,
    names: &Names,
    stock: &mut Stock,
    offset: usize,
    asked: &Asked<'_>,
) -> Result<Effect, Stop>
    requires row { IsAsked asked.now.row.now asked.now.call }
    ensures { (x : List ℕ) → AffectsOrFails result
        (StepsAsQuery built_calls names.now (query_call_of asked.now.call)
        (tree.call offset x (trees_of asked.now.arguments.now))) }
{
    let Asked {
        row,
        call,
        arguments,
    } = *asked;
    let Some(kinds) = row.kinds(arguments.len()) else {
        return Err(Stop::Refused(fault(alloc, WRONG_COUNT, offset)));
    };
    let values = evaluate_all(alloc, names, stock, arguments)?;
    match bind_query(call, &values) {
        Some(query) => answer(alloc, offset, query),
        None => Err(misfit(alloc, offset, kinds, arguments, &values)),
    }
}
