//! When construction X refuses its arguments.
ghost use Rattle.std.specs.Prelude.{◌≡◌, ◌+◌, ◌-◌, ◌≤◌, length, IfOk};
ghost use Rattle.lc_constructions.specs.Code.{longest};
ghost use Rattle.lc_constructions.specs.Refusal.{first_refusal, IsChecked};
ghost use Rattle.lc_constructions.specs.declared.refusal.CodeRefusal.TheVariants as code_refusal;
ghost use Rattle.lc_language.specs.ConstructionX.{unlike_codes, unfit_tail};
ghost use Rattle.lc_extend.specs.declared.refusal.ExtensionRefusal.TheVariants as refusal;

use lc_code::{Code, CodeRefusal};
use lc_field::NoMemory;

/// Why construction X gives no code.
#[derive(Clone, Copy, Debug, PartialEq, Eq)]
pub enum ExtensionRefusal {
    /// The codes don't fit each other, or no memory is left.
    Codes(CodeRefusal),
    /// The second code is not a subcode of the first.
    NotASubcode,
}

impl From<CodeRefusal> for ExtensionRefusal {
    ghost from_gives = { λ r e. e ≡ refusal.Codes r };

    fn from(r: CodeRefusal) -> ExtensionRefusal {
        ExtensionRefusal::Codes(r)
    }
}

impl From<NoMemory> for ExtensionRefusal {
    ghost from_gives = { λ _ e. e ≡ refusal.Codes code_refusal.NoMemory };

    fn from(_e: NoMemory) -> ExtensionRefusal {
        ExtensionRefusal::Codes(CodeRefusal::NoMemory)
    }
}

// Checks that all codes are over one field, and the first two of one length.
#[tactic(auto, using(crate::proofs::RefusalLaws::check_alike_laws))]
pub(crate) fn check_alike(c: &Code, d: &Code, e: &Code) -> Result<(), CodeRefusal>
    ensures is { IsChecked result (first_refusal (unlike_codes c.now d.now e.now)) }
    ensures field { IfOk result (λ _. c.now.field ≡ d.now.field) }
    ensures tail_field { IfOk result (λ _. c.now.field ≡ e.now.field) }
    ensures columns { IfOk result (λ _. c.now.columns ≡ d.now.columns) }
{
    if c.field().size() != d.field().size() {
        return Err(CodeRefusal::FieldsDiffer);
    }
    if c.field().size() != e.field().size() {
        return Err(CodeRefusal::FieldsDiffer);
    }
    if c.length() != d.length() {
        return Err(CodeRefusal::LengthsDiffer);
    }
    Ok(())
}

// Checks that there is a tail for each message, and that the words don't get too long.
#[tactic(auto, using(crate::proofs::RefusalLaws::check_tail_laws))]
pub(crate) fn check_tail(c: &Code, d: &Code, e: &Code) -> Result<(), CodeRefusal>
    ensures is { IsChecked result (first_refusal (unfit_tail c.now d.now e.now)) }
    ensures dimension { IfOk result (λ _. length e.now.rows ≡ length c.now.rows - length d.now.rows) }
    ensures most { IfOk result (λ _. c.now.columns + e.now.columns ≤ longest) }
{
    let free = c.dimension().saturating_sub(d.dimension());
    if e.dimension() != free {
        return Err(CodeRefusal::InnerDimension(e.dimension(), free));
    }
    if c.length() + e.length() > 255 {
        return Err(CodeRefusal::BadLength);
    }
    Ok(())
}
