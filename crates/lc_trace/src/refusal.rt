//! When the functions of this crate refuse their arguments.
ghost use Rattle.std.specs.Prelude.{◌≡◌, IsTrue, IfOk};
ghost use Rattle.lc_algebra.specs.Field.{is_symbol};
ghost use Rattle.lc_algebra.specs.Embedding.{IsSubfield};
ghost use Rattle.lc_constructions.specs.Refusal.{first_refusal, IsChecked};
ghost use Rattle.lc_language.specs.Trace.{subfield_refusals};

use lc_code::{Code, CodeRefusal};
use lc_field::Field;

// Checks a field that should be a symbol field in that of a code.
#[tactic(auto, using(crate::proofs::RefusalLaws::check_subfield_laws))]
pub(crate) fn check_subfield(code: &Code, field: &Field) -> Result<(), CodeRefusal>
    ensures is { IsChecked result (first_refusal (subfield_refusals code.now field.now)) }
    ensures symbol { IfOk result (λ _. IsTrue (is_symbol field.now)) }
    ensures subfield { IfOk result (λ _. IsSubfield field.now code.now.field) }
{
    if !field.is_symbol() {
        return Err(CodeRefusal::FieldTooLarge);
    }
    if !code.field().holds(field) {
        return Err(CodeRefusal::NotASubfield);
    }
    Ok(())
}
