//! Codes by circulant matrices, construction X, and residual codes.
ghost use Rattle.lc_language.specs.Calls as bound;
ghost use Rattle.lc_language.specs.Evaluation.{AppliesTo};
ghost use Rattle.lc_calls.specs.Applied.{Answers};
ghost use Rattle.lc_calls.specs.Value.{rows_of};

use crate::decoding::checked;
use crate::made::{code_value, made};
use crate::rows::{word_of, words_of};
use lc_calls::{NOT_A_CODEWORD, NOT_A_SUBCODE, Stop, Value, fault, refused_as};
use lc_code::Code;
use lc_extend::ExtensionRefusal;
use lc_field::Field;
use std::alloc::Global;

/// The code of the cyclic shifts of a list of symbols.
#[tactic(auto, using(crate::proofs::ConstructionCalls::circulant_applies))]
pub(crate) fn circulant_code(
    alloc: Global,
    offset: usize,
    x: &[u64],
    n: u64,
    field: &Field,
) -> Result<Value, Stop>
    ensures { Answers result (AppliesTo offset (bound.circulant_code x.now n field.now)) }
{
    let word = word_of(alloc, x)?;
    made(
        alloc,
        offset,
        lc_circulant::circulant(alloc, word.symbols(), n, field),
    )
}

/// The code of the circulant matrices of some lists of symbols, side by side.
#[tactic(auto, using(crate::proofs::ConstructionCalls::quasi_applies))]
pub(crate) fn quasi_cyclic_code(
    alloc: Global,
    offset: usize,
    lists: &[Vec<u64>],
    n: u64,
    field: &Field,
) -> Result<Value, Stop>
    ensures { Answers result (AppliesTo offset (bound.quasi_cyclic_code (rows_of lists.now) n field.now)) }
{
    let words = words_of(alloc, lists)?;
    made(
        alloc,
        offset,
        lc_circulant::quasi_cyclic(alloc, &words, n, field),
    )
}

/// The code of construction X.
#[tactic(auto, using(crate::proofs::ConstructionCalls::construction_x_laws))]
pub(crate) fn construction_x_code(
    alloc: Global,
    offset: usize,
    c: &Code,
    d: &Code,
    e: &Code,
) -> Result<Value, Stop>
    ensures { Answers result (AppliesTo offset (bound.construction_x_code c.now d.now e.now)) }
{
    match lc_extend::construction_x(alloc, c, d, e) {
        Ok(code) => Ok(code_value(alloc, code)?),
        Err(ExtensionRefusal::NotASubcode) => {
            Err(Stop::Refused(fault(alloc, NOT_A_SUBCODE, offset)))
        }
        Err(ExtensionRefusal::Codes(refusal)) => Err(refused_as(alloc, offset, refusal)),
    }
}

/// The residual code at a list of symbols, which should be a word of the code.
pub(crate) fn residue_code(
    alloc: Global,
    offset: usize,
    code: &Code,
    list: &[u64],
) -> Result<Value, Stop>
    ensures { Answers result (AppliesTo offset (bound.residue_code code.now list.now)) }
{
    let word = checked(alloc, offset, code, list)?;
    let mut rest = word.symbols().to_vec(alloc)?;
    if !code.contains(word.symbols(), &mut rest) {
        return Err(Stop::Refused(fault(alloc, NOT_A_CODEWORD, offset)));
    }
    made(
        alloc,
        offset,
        lc_residual::residual(alloc, code, word.symbols()),
    )
}
