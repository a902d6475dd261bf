//! Queries, with the arguments that they are bound to.
ghost use Rattle.std.specs.Prelude.{◌≡◌, [], ◌∷◌, option_map};
ghost use Rattle.lc_language.specs.Calls as language;
ghost use Rattle.lc_calls.specs.Built.{query_call_of};
ghost use Rattle.lc_calls.specs.Value.{value_of, values_of};

use crate::bound::{Asks, BoundQuery};
use crate::table::QueryCall;
use crate::values::Value;

/// The query with these arguments; None exactly if it has no form with as many, each of its kind.
#[tactic(auto, unfolding(crate::proofs::Opened::bound_queries))]
pub fn bind_query(call: QueryCall, arguments: &[Value]) -> Option<BoundQuery<'_>>
    ensures { option_map ⟦<BoundQuery<'static> as Asks>⟧.asked result
        ≡ language.bind_query (query_call_of call) (values_of arguments.now) }
{
    match arguments {
        [a] => query_of_one(call, a),
        [a, b] => query_of_two(call, a, b),
        [a, b, c] => query_of_three(call, a, b, c),
        _ => None,
    }
}

// The query with one argument.
#[tactic(auto, unfolding(crate::proofs::Opened::bound_queries))]
fn query_of_one(call: QueryCall, a: &Value) -> Option<BoundQuery<'_>>
    ensures { option_map ⟦<BoundQuery<'static> as Asks>⟧.asked result
        ≡ language.bind_query (query_call_of call) (value_of a.now ∷ []) }
{
    match call {
        QueryCall::MinimumDistance => Some(BoundQuery::MinimumDistance(&a.code()?.code)),
        QueryCall::Certificate => Some(BoundQuery::Certificate(&a.code()?.code)),
        QueryCall::ScanCertificate => Some(BoundQuery::ScanCertificate(&a.code()?.code)),
        QueryCall::WeightDistribution => Some(BoundQuery::WeightDistribution(&a.code()?.code)),
        _ => None,
    }
}

// The query with two arguments.
#[tactic(auto, unfolding(crate::proofs::Opened::bound_queries))]
fn query_of_two<'a>(call: QueryCall, a: &'a Value, b: &'a Value) -> Option<BoundQuery<'a>>
    ensures { option_map ⟦<BoundQuery<'static> as Asks>⟧.asked result
        ≡ language.bind_query (query_call_of call) (value_of a.now ∷ value_of b.now ∷ []) }
{
    match call {
        QueryCall::AlgebraicDecode => { Some(BoundQuery::AlgebraicDecode(a.code()?, b.numbers()?)) }
        QueryCall::LeastWord => Some(BoundQuery::LeastWord(a.lists()?, b.field()?)),
        QueryCall::AlternantCertificate => {
            Some(BoundQuery::AlternantCertificate(a.code()?, b.numbers()?))
        }
        QueryCall::NearestWord => Some(BoundQuery::NearestWord(&a.code()?.code, b.numbers()?)),
        _ => None,
    }
}

// The query with three arguments.
#[tactic(auto, unfolding(crate::proofs::Opened::bound_queries))]
fn query_of_three<'a>(
    call: QueryCall,
    a: &'a Value,
    b: &'a Value,
    c: &'a Value,
) -> Option<BoundQuery<'a>>
    ensures { option_map ⟦<BoundQuery<'static> as Asks>⟧.asked result
        ≡ language.bind_query (query_call_of call) (value_of a.now ∷ value_of b.now ∷ value_of c.now ∷ []) }
{
    match call {
        QueryCall::FillErasures => {
            let code = &a.code()?.code;
            Some(BoundQuery::FillErasures(code, b.numbers()?, c.numbers()?))
        }
        _ => None,
    }
}
