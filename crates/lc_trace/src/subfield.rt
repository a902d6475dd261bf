//! Subfield subcodes.
ghost use Rattle.std.specs.Prelude.{IsTrue, IfOk};
ghost use Rattle.lc_algebra.specs.Field.{is_symbol};
ghost use Rattle.lc_algebra.specs.Embedding.{IsSubfield};
ghost use Rattle.lc_constructions.specs.Code.{IsCode};
ghost use Rattle.lc_constructions.specs.Refusal.{first_refusal, IsRefusedAs, RefusesFirst};
ghost use Rattle.lc_language.specs.Trace.{InSubfieldSubcode, subfield_refusals};

use crate::refusal::check_subfield;
use crate::trace::traced;
use lc_code::{Code, CodeRefusal};
use lc_field::{Field, NoMemory};
use std::alloc::Global;

/// The subfield subcode: the words over `field`, a subfield of the code's field, whose symbols as elements of the code's field make
/// a word of the code (MacWilliams and Sloane, chapter 7; Magma and Sage have it under this name). The field may be the code's own.
///
/// Refused in this order: the field has more than 16 elements, FieldTooLarge; it isn't a subfield of the code's field, NotASubfield.
/// Fails if memory runs out.
#[tactic(auto, using(lc_constructions::proofs::RefusalLaws::refused_or_not))]
pub fn subfield_subcode(alloc: Global, code: &Code, field: &Field) -> Result<Code, CodeRefusal>
    ensures code { IfOk result
        (λ c. IsCode field.now code.now.columns (InSubfieldSubcode code.now field.now) c) }
    ensures refused { IsRefusedAs result (first_refusal (subfield_refusals code.now field.now)) }
    ensures first { RefusesFirst result (first_refusal (subfield_refusals code.now field.now)) }
{
    check_subfield(code, field)?;
    Ok(subcode(alloc, code, field)?)
}

// The dual of the trace code of the dual.
fn subcode(alloc: Global, code: &Code, field: &Field) -> Result<Code, NoMemory>
    requires symbol { IsTrue (is_symbol field.now) }
    requires subfield { IsSubfield field.now code.now.field }
    ensures code { IfOk result
        (λ c. IsCode field.now code.now.columns (InSubfieldSubcode code.now field.now) c) }
{
    let _matrix = code.matrix();
    let _field = code.field();
    let dual = code.dual(alloc)?;
    let traces = traced(alloc, &dual, field)?;
    Ok(traces.dual(alloc)?)
}
