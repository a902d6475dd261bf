//! What the calls give that make a cyclic code by its polynomial, a quadratic residue code, or an extended Golay code.
ghost use Rattle.lc_language.specs.Calls as bound;
ghost use Rattle.lc_language.specs.Evaluation.{AppliesTo};
ghost use Rattle.lc_calls.specs.Applied.{Answers};

use crate::made::{code_value, made};
use crate::rows::word_of;
use lc_calls::{NO_RESIDUE_LENGTH, Stop, Value, fault, refused_as};
use lc_field::Field;
use std::alloc::Global;

/// The cyclic code with a generator polynomial.
#[tactic(auto, using(crate::proofs::CyclicCalls::generator_pol_applies))]
pub(crate) fn generator_pol_code(
    alloc: Global,
    offset: usize,
    list: &[u64],
    n: u64,
    field: &Field,
) -> Result<Value, Stop>
    ensures { Answers result (AppliesTo offset (bound.generator_pol_code list.now n field.now)) }
{
    let x = word_of(alloc, list)?;
    made(
        alloc,
        offset,
        lc_cyclic::generator_pol(alloc, x.symbols(), n, field),
    )
}

/// The cyclic code with a check polynomial.
#[tactic(auto, using(crate::proofs::CyclicCalls::check_pol_applies))]
pub(crate) fn check_pol_code(
    alloc: Global,
    offset: usize,
    list: &[u64],
    n: u64,
    field: &Field,
) -> Result<Value, Stop>
    ensures { Answers result (AppliesTo offset (bound.check_pol_code list.now n field.now)) }
{
    let x = word_of(alloc, list)?;
    made(
        alloc,
        offset,
        lc_cyclic::check_pol(alloc, x.symbols(), n, field),
    )
}

/// A quadratic residue code.
pub(crate) fn qr_code(alloc: Global, offset: usize, n: u64, field: &Field) -> Result<Value, Stop>
    ensures { Answers result (AppliesTo offset (bound.qr_code n field.now)) }
{
    match lc_residues::quadratic_residue(alloc, n, field) {
        Ok(Some(code)) => Ok(code_value(alloc, code)?),
        Ok(None) => Err(Stop::Refused(fault(alloc, NO_RESIDUE_LENGTH, offset))),
        Err(refusal) => Err(refused_as(alloc, offset, refusal)),
    }
}

/// The extended binary Golay code.
#[tactic(auto, using(crate::proofs::CyclicCalls::extended_binary_applies))]
pub(crate) fn extended_binary_golay_code(alloc: Global, offset: usize) -> Result<Value, Stop>
    ensures { Answers result (AppliesTo offset bound.extended_binary_golay_code) }
{
    let code = lc_cyclic::binary_golay(alloc)?;
    made(alloc, offset, lc_combine::extended(alloc, &code))
}

/// The extended ternary Golay code.
#[tactic(auto, using(crate::proofs::CyclicCalls::extended_ternary_applies))]
pub(crate) fn extended_ternary_golay_code(alloc: Global, offset: usize) -> Result<Value, Stop>
    ensures { Answers result (AppliesTo offset bound.extended_ternary_golay_code) }
{
    let code = lc_cyclic::ternary_golay(alloc)?;
    made(alloc, offset, lc_combine::extended(alloc, &code))
}
