//! A field, a code, the rows of a code and the weight of a word, as what calls give.
ghost use Rattle.std.specs.Prelude.{◌≡◌, ◌≢◌, ℕ, [], Err, None, IfOk, IfErr};
ghost use Rattle.lc_constructions.specs.Refusal.{refusal_values};
ghost use Rattle.lc_algebra.specs.declared.FieldName.{FieldName};
ghost use Rattle.lc_algebra.specs.Field.{size};
ghost use Rattle.lc_algebra.specs.Word.{weight as weight_of};
ghost use Rattle.lc_language.specs.Calls as bound;
ghost use Rattle.lc_language.specs.Value as language;
ghost use Rattle.lc_language.specs.Evaluation.{AppliesTo};
ghost use Rattle.lc_calls.specs.Value.{value_of, rows_of};
ghost use Rattle.lc_calls.specs.Applied.{Answers};
ghost use Rattle.lc_calls.specs.Made.{IsMade};

use crate::rows::{lists_of, words_of};
use crate::stock::Stock;
use lc_calls::{CodeValue, NOT_A_FIELD, Stop, Value, fault, refused_as};
use lc_code::{Code, CodeRefusal};
use lc_field::{Field, FieldRefusal, NoMemory};
use std::alloc::Global;
use std::rc::Rc;

/// A code without an alternant form, as a value.
pub(crate) fn code_value(alloc: Global, code: Code) -> Result<Value, NoMemory>
    ensures { IfOk result (λ v. value_of v ≡ language.code code None) }
{
    Ok(Value::Code(Rc::new(alloc, CodeValue { code, form: None })?))
}

/// The rows of the reduced generator matrix of a code, as a value.
pub(crate) fn rows_value(alloc: Global, code: &Code) -> Result<Value, NoMemory>
    ensures { IfOk result (λ v. value_of v ≡ language.lists code.now.rows) }
{
    let rows = lists_of(alloc, code)?;
    Ok(Value::Lists(Rc::new(alloc, rows)?))
}

/// A code, or its refusal at this offset. A refusal that carries no numbers takes no memory.
pub(crate) fn made(
    alloc: Global,
    offset: usize,
    code: Result<Code, CodeRefusal>,
) -> Result<Value, Stop>
    ensures is { IsMade code offset result }
    ensures told { IfErr code (λ e. e ≢ CodeRefusal.NoMemory → refusal_values e ≡ [] → result ≢ Err Stop.NoMemory) }
{
    match code {
        Ok(code) => Ok(code_value(alloc, code)?),
        Err(refusal) => Err(refused_as(alloc, offset, refusal)),
    }
}

/// The field with a number of elements. That there is none is answered whether or not there is memory.
#[tactic(auto, using(crate::proofs::CallLaws::gf_field, crate::proofs::CallLaws::gf_refused))]
pub(crate) fn gf(alloc: Global, stock: &mut Stock, offset: usize, q: u64) -> Result<Value, Stop>
    ensures is { Answers result (AppliesTo offset (bound.gf q)) }
    ensures told { ((f : FieldName) → size f ≢ q) → result ≢ Err Stop.NoMemory }
{
    match stock.field(alloc, q) {
        Ok(field) => Ok(Value::Field(field)),
        Err(FieldRefusal::NotAField) => Err(Stop::Refused(fault(alloc, NOT_A_FIELD, offset))),
        Err(FieldRefusal::NoMemory) => Err(Stop::NoMemory),
    }
}

/// The code with a generator matrix over a field.
#[tactic(auto, using(crate::proofs::CallLaws::generator_applies))]
pub(crate) fn generator_mat_code(
    alloc: Global,
    offset: usize,
    rows: &[Vec<u64>],
    field: &Field,
) -> Result<Value, Stop>
    ensures { Answers result (AppliesTo offset (bound.generator_mat_code (rows_of rows.now) field.now)) }
{
    let words = words_of(alloc, rows)?;
    made(alloc, offset, lc_basic::generator_mat(alloc, &words, field))
}

/// The code with a check matrix over a field.
#[tactic(auto, using(crate::proofs::CallLaws::check_applies))]
pub(crate) fn check_mat_code(
    alloc: Global,
    offset: usize,
    rows: &[Vec<u64>],
    field: &Field,
) -> Result<Value, Stop>
    ensures { Answers result (AppliesTo offset (bound.check_mat_code (rows_of rows.now) field.now)) }
{
    let words = words_of(alloc, rows)?;
    made(alloc, offset, lc_basic::check_mat(alloc, &words, field))
}

/// The number of nonzero numbers.
pub(crate) fn nonzero(list: &[u64]) -> usize
    ensures { result ≡ weight_of list.now }
{
    list.iter().filter(|a| **a != 0).count()
}
