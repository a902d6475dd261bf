//! Calls that give a value, with the arguments that they are bound to.
//!
//! `bind` goes by the number of the arguments, and with two or three of them by the kind of the first one.
ghost use Rattle.std.specs.Prelude.{◌≡◌, [], ◌∷◌, option_map, None};
ghost use Rattle.lc_language.specs.Calls as language;
ghost use Rattle.lc_language.specs.Value.{code as language_code, field as language_field};
ghost use Rattle.lc_language.specs.Value.{number as language_number, code_in, field_in, number_in};
ghost use Rattle.lc_calls.specs.Value.{value_of, values_of};

use crate::bound::{BoundCall, Means};
use crate::code_value::CodeValue;
use crate::values::Value;
use lc_field::Field;
use lc_language::ValueCall;

/// The call with these arguments; None exactly if it has no form with as many, each of its kind.
#[tactic(auto, unfolding(crate::proofs::Opened::bound_calls))]
pub fn bind(call: ValueCall, arguments: &[Value]) -> Option<BoundCall<'_>>
    ensures { option_map ⟦<BoundCall<'static> as Means>⟧.meaning result ≡ language.bind call (values_of arguments.now) }
{
    match arguments {
        [] => with_none(call),
        [a] => with_one(call, a),
        [a, b] => with_two(call, a, b),
        [a, b, c] => with_three(call, a, b, c),
        [a, b, c, d] => with_four(call, a, b, c, d),
        [a, b, c, d, e] => with_five(call, a, b, c, d, e),
        _ => None,
    }
}

// The call without arguments.
#[tactic(auto, unfolding(crate::proofs::Opened::bound_calls))]
fn with_none(call: ValueCall) -> Option<BoundCall<'static>>
    ensures { option_map ⟦<BoundCall<'static> as Means>⟧.meaning result ≡ language.bind call ([]) }
{
    match call {
        ValueCall::BinaryGolayCode => Some(BoundCall::BinaryGolayCode),
        ValueCall::TernaryGolayCode => Some(BoundCall::TernaryGolayCode),
        ValueCall::ExtendedBinaryGolayCode => Some(BoundCall::ExtendedBinaryGolayCode),
        ValueCall::ExtendedTernaryGolayCode => Some(BoundCall::ExtendedTernaryGolayCode),
        _ => None,
    }
}

// The call with one argument.
#[tactic(auto, unfolding(crate::proofs::Opened::bound_calls))]
fn with_one<'a>(call: ValueCall, a: &'a Value) -> Option<BoundCall<'a>>
    ensures { option_map ⟦<BoundCall<'static> as Means>⟧.meaning result ≡ language.bind call (value_of a.now ∷ []) }
{
    match call {
        ValueCall::Gf => Some(BoundCall::Gf(a.number()?)),
        ValueCall::DualCode => Some(BoundCall::DualCode(&a.code()?.code)),
        ValueCall::ExtendedCode => Some(BoundCall::ExtendedCode(&a.code()?.code)),
        ValueCall::EvenWeightSubcode => Some(BoundCall::EvenWeightSubcode(&a.code()?.code)),
        ValueCall::Dimension => Some(BoundCall::Dimension(&a.code()?.code)),
        ValueCall::WordLength => Some(BoundCall::WordLength(&a.code()?.code)),
        ValueCall::GeneratorMat => Some(BoundCall::GeneratorMat(&a.code()?.code)),
        ValueCall::CheckMat => Some(BoundCall::CheckMat(&a.code()?.code)),
        ValueCall::Weight => Some(BoundCall::Weight(a.numbers()?)),
        ValueCall::IsSelfOrthogonalCode => Some(BoundCall::IsSelfOrthogonalCode(&a.code()?.code)),
        ValueCall::IsSelfDualCode => Some(BoundCall::IsSelfDualCode(&a.code()?.code)),
        ValueCall::IsCyclicCode => Some(BoundCall::IsCyclicCode(&a.code()?.code)),
        _ => None,
    }
}

// The call with two arguments.
#[tactic(auto, unfolding(crate::proofs::Opened::bound_values))]
fn with_two<'a>(call: ValueCall, a: &'a Value, b: &'a Value) -> Option<BoundCall<'a>>
    ensures { option_map ⟦<BoundCall<'static> as Means>⟧.meaning result
        ≡ language.bind call (value_of a.now ∷ value_of b.now ∷ []) }
{
    match a {
        Value::Code(code) => with_code(call, code, b),
        _ => without_code(call, a, b),
    }
}

// The call with a code and another argument.
#[tactic(auto, unfolding(crate::proofs::Opened::bound_values))]
fn with_code<'a>(call: ValueCall, a: &'a CodeValue, b: &'a Value) -> Option<BoundCall<'a>>
    ensures { option_map ⟦<BoundCall<'static> as Means>⟧.meaning result
        ≡ language.bind call (language_code a.now.code a.now.form ∷ value_of b.now ∷ []) }
{
    match b {
        Value::Code(other) => with_two_codes(call, a, other),
        Value::Field(field) => with_code_and_field(call, a, field),
        _ => with_code_and_list(call, a, b),
    }
}

// The call with two codes.
#[tactic(auto, unfolding(crate::proofs::Opened::bound_values))]
fn with_two_codes<'a>(call: ValueCall, a: &'a CodeValue, b: &'a CodeValue) -> Option<BoundCall<'a>>
    ensures { option_map ⟦<BoundCall<'static> as Means>⟧.meaning result
        ≡ language.bind call (language_code a.now.code a.now.form ∷ language_code b.now.code b.now.form ∷ []) }
{
    match call {
        ValueCall::DirectSumCode => Some(BoundCall::DirectSumCode(&a.code, &b.code)),
        ValueCall::UuvCode => Some(BoundCall::UuvCode(&a.code, &b.code)),
        ValueCall::DirectProductCode => Some(BoundCall::DirectProductCode(&a.code, &b.code)),
        ValueCall::IntersectionCode => Some(BoundCall::IntersectionCode(&a.code, &b.code)),
        ValueCall::ConcatenatedCode => Some(BoundCall::ConcatenatedCode(&a.code, &b.code)),
        ValueCall::IsSubcode => Some(BoundCall::IsSubcode(&a.code, &b.code)),
        ValueCall::IsSameCode => Some(BoundCall::IsSameCode(&a.code, &b.code)),
        ValueCall::UnionCode => Some(BoundCall::UnionCode(&a.code, &b.code)),
        _ => None,
    }
}

// The call with a code and a field.
#[tactic(auto, unfolding(crate::proofs::Opened::bound_values))]
fn with_code_and_field<'a>(call: ValueCall, a: &'a CodeValue, b: &'a Field) -> Option<BoundCall<'a>>
    ensures { option_map ⟦<BoundCall<'static> as Means>⟧.meaning result
        ≡ language.bind call (language_code a.now.code a.now.form ∷ language_field b.now ∷ []) }
{
    match call {
        ValueCall::TraceCode => Some(BoundCall::TraceCode(&a.code, b)),
        ValueCall::SubfieldSubcode => Some(BoundCall::SubfieldSubcode(&a.code, b)),
        _ => None,
    }
}

// The call with a code and an argument that is neither a code nor a field.
#[tactic(auto, unfolding(crate::proofs::Opened::bound_values))]
fn with_code_and_list<'a>(call: ValueCall, a: &'a CodeValue, b: &'a Value) -> Option<BoundCall<'a>>
    requires no_code { code_in (value_of b.now) ≡ None }
    requires no_field { field_in (value_of b.now) ≡ None }
    ensures { option_map ⟦<BoundCall<'static> as Means>⟧.meaning result
        ≡ language.bind call (language_code a.now.code a.now.form ∷ value_of b.now ∷ []) }
{
    let code = &a.code;
    match call {
        ValueCall::PuncturedCode => Some(BoundCall::PuncturedCode(code, b.numbers()?)),
        ValueCall::ShortenedCode => Some(BoundCall::ShortenedCode(code, b.numbers()?)),
        ValueCall::IsCodeword => Some(BoundCall::IsCodeword(code, b.numbers()?)),
        ValueCall::Decode => Some(BoundCall::Decode(code, b.numbers()?)),
        ValueCall::Syndrome => Some(BoundCall::Syndrome(code, b.numbers()?)),
        ValueCall::Encode => Some(BoundCall::Encode(code, b.numbers()?)),
        ValueCall::InformationWord => Some(BoundCall::InformationWord(code, b.numbers()?)),
        ValueCall::ResidueCode => Some(BoundCall::ResidueCode(code, b.numbers()?)),
        ValueCall::AugmentedCode => Some(BoundCall::AugmentedCode(code, b.lists()?)),
        _ => None,
    }
}

// The call with two arguments of which the first is no code.
#[tactic(auto, unfolding(crate::proofs::Opened::bound_values))]
fn without_code<'a>(call: ValueCall, a: &'a Value, b: &'a Value) -> Option<BoundCall<'a>>
    requires { code_in (value_of a.now) ≡ None }
    ensures { option_map ⟦<BoundCall<'static> as Means>⟧.meaning result
        ≡ language.bind call (value_of a.now ∷ value_of b.now ∷ []) }
{
    match call {
        ValueCall::GeneratorMatCode => Some(BoundCall::GeneratorMatCode(a.lists()?, b.field()?)),
        ValueCall::CheckMatCode => Some(BoundCall::CheckMatCode(a.lists()?, b.field()?)),
        ValueCall::RepetitionCode => Some(BoundCall::RepetitionCode(a.number()?, b.field()?)),
        ValueCall::WholeSpaceCode => Some(BoundCall::WholeSpaceCode(a.number()?, b.field()?)),
        ValueCall::NullCode => Some(BoundCall::NullCode(a.number()?, b.field()?)),
        ValueCall::HammingCode => Some(BoundCall::HammingCode(a.number()?, b.field()?)),
        ValueCall::ReedMullerCode => Some(BoundCall::ReedMullerCode(a.number()?, b.number()?)),
        ValueCall::QrCode => Some(BoundCall::QrCode(a.number()?, b.field()?)),
        ValueCall::ReedSolomonCode => Some(BoundCall::ReedSolomonCode(a.number()?, b.number()?)),
        ValueCall::DistanceCodeword => {
            Some(BoundCall::DistanceCodeword(a.numbers()?, b.numbers()?))
        }
        _ => None,
    }
}

// The call with three arguments.
#[tactic(auto, unfolding(crate::proofs::Opened::bound_values))]
fn with_three<'a>(
    call: ValueCall,
    a: &'a Value,
    b: &'a Value,
    c: &'a Value,
) -> Option<BoundCall<'a>>
    ensures { option_map ⟦<BoundCall<'static> as Means>⟧.meaning result
        ≡ language.bind call (value_of a.now ∷ value_of b.now ∷ value_of c.now ∷ []) }
{
    match a {
        Value::Number(n) => with_number_and_two(call, *n, b, c),
        Value::Code(code) => with_code_and_two(call, code, b, c),
        _ => with_list_and_two(call, a, b, c),
    }
}

// The call with a number and two more arguments.
#[tactic(auto, unfolding(crate::proofs::Opened::bound_values))]
fn with_number_and_two<'a>(
    call: ValueCall,
    a: u64,
    b: &'a Value,
    c: &'a Value,
) -> Option<BoundCall<'a>>
    ensures { option_map ⟦<BoundCall<'static> as Means>⟧.meaning result
        ≡ language.bind call (language_number a ∷ value_of b.now ∷ value_of c.now ∷ []) }
{
    match call {
        ValueCall::BchCode => Some(BoundCall::BchCode(a, 1, b.number()?, c.field()?)),
        ValueCall::ScaleWord => Some(BoundCall::ScaleWord(a, b.numbers()?, c.field()?)),
        _ => None,
    }
}

// The call with a code and two more arguments.
#[tactic(auto, unfolding(crate::proofs::Opened::bound_values))]
fn with_code_and_two<'a>(
    call: ValueCall,
    a: &'a CodeValue,
    b: &'a Value,
    c: &'a Value,
) -> Option<BoundCall<'a>>
    ensures { option_map ⟦<BoundCall<'static> as Means>⟧.meaning result
        ≡ language.bind call (language_code a.now.code a.now.form ∷ value_of b.now ∷ value_of c.now ∷ []) }
{
    match call {
        ValueCall::ConstructionXCode => Some(BoundCall::ConstructionXCode(
            &a.code,
            &b.code()?.code,
            &c.code()?.code,
        )),
        _ => None,
    }
}

// The call with three arguments of which the first is neither a number nor a code.
#[tactic(auto, unfolding(crate::proofs::Opened::bound_values))]
fn with_list_and_two<'a>(
    call: ValueCall,
    a: &'a Value,
    b: &'a Value,
    c: &'a Value,
) -> Option<BoundCall<'a>>
    requires no_number { number_in (value_of a.now) ≡ None }
    requires no_code { code_in (value_of a.now) ≡ None }
    ensures { option_map ⟦<BoundCall<'static> as Means>⟧.meaning result
        ≡ language.bind call (value_of a.now ∷ value_of b.now ∷ value_of c.now ∷ []) }
{
    match call {
        ValueCall::GeneratorPolCode => Some(BoundCall::GeneratorPolCode(
            a.numbers()?,
            b.number()?,
            c.field()?,
        )),
        ValueCall::CheckPolCode => Some(BoundCall::CheckPolCode(
            a.numbers()?,
            b.number()?,
            c.field()?,
        )),
        ValueCall::AddWords => Some(BoundCall::AddWords(a.numbers()?, b.numbers()?, c.field()?)),
        ValueCall::CirculantCode => Some(BoundCall::CirculantCode(
            a.numbers()?,
            b.number()?,
            c.field()?,
        )),
        ValueCall::QuasiCyclicCode => Some(BoundCall::QuasiCyclicCode(
            a.lists()?,
            b.number()?,
            c.field()?,
        )),
        _ => None,
    }
}

// The call with four arguments.
#[tactic(auto, unfolding(crate::proofs::Opened::bound_calls))]
fn with_four<'a>(
    call: ValueCall,
    a: &'a Value,
    b: &'a Value,
    c: &'a Value,
    d: &'a Value,
) -> Option<BoundCall<'a>>
    ensures { option_map ⟦<BoundCall<'static> as Means>⟧.meaning result
        ≡ language.bind call (value_of a.now ∷ value_of b.now ∷ value_of c.now ∷ value_of d.now ∷ []) }
{
    match call {
        ValueCall::GoppaCode => Some(BoundCall::GoppaCode(
            a.numbers()?,
            b.numbers()?,
            c.field()?,
            d.field()?,
        )),
        ValueCall::BchCode => Some(BoundCall::BchCode(
            a.number()?,
            b.number()?,
            c.number()?,
            d.field()?,
        )),
        _ => None,
    }
}

// The call with five arguments.
#[tactic(auto, unfolding(crate::proofs::Opened::bound_calls))]
fn with_five<'a>(
    call: ValueCall,
    a: &'a Value,
    b: &'a Value,
    c: &'a Value,
    d: &'a Value,
    e: &'a Value,
) -> Option<BoundCall<'a>>
    ensures { option_map ⟦<BoundCall<'static> as Means>⟧.meaning result
        ≡ language.bind call (value_of a.now ∷ value_of b.now ∷ value_of c.now ∷ value_of d.now ∷ value_of e.now ∷ []) }
{
    match call {
        ValueCall::AlternantCode => Some(BoundCall::AlternantCode(
            a.number()?,
            b.numbers()?,
            c.numbers()?,
            d.field()?,
            e.field()?,
        )),
        _ => None,
    }
}
