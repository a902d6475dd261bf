//! When the functions of this crate refuse their arguments.
ghost use Rattle.std.specs.Prelude.{◌≡◌, ◌<◌, length, All, IsTrue, IfOk, ◌==◌, ◌↔◌};
ghost use Rattle.std.specs.List.{list_all};
ghost use Rattle.lc_algebra.specs.Field.{size, is_symbol};
ghost use Rattle.lc_algebra.specs.Word.{Fits, IsWord};
ghost use Rattle.lc_algebra.specs.Matrix.{AreRows};
ghost use Rattle.lc_constructions.specs.Refusal.{first_refusal, IsChecked};
ghost use Rattle.lc_constructions.specs.Refusals.{intersection_refusals};
ghost use Rattle.lc_language.specs.Relations.{add_refusals, scale_refusals, message_refusals, augmented_refusals};

use lc_code::{Code, CodeRefusal};
use lc_field::Field;
use lc_vec::{Word, fits};

// Checks two codes that are compared or added.
#[tactic(auto, using(lc_constructions::proofs::RefusalLaws::alike_or_refused))]
pub(crate) fn check_pair(a: &Code, b: &Code) -> Result<(), CodeRefusal>
    ensures is { IsChecked result (first_refusal (intersection_refusals a.now b.now)) }
    ensures field { IfOk result (λ _. a.now.field ≡ b.now.field) }
    ensures columns { IfOk result (λ _. a.now.columns ≡ b.now.columns) }
{
    if a.field().size() != b.field().size() {
        return Err(CodeRefusal::FieldsDiffer);
    }
    if a.length() != b.length() {
        return Err(CodeRefusal::LengthsDiffer);
    }
    Ok(())
}

// Checks two words that are added.
#[tactic(auto, using(crate::proofs::RefusalLaws::check_add_laws))]
pub(crate) fn check_add(field: &Field, x: &[u8], y: &[u8]) -> Result<(), CodeRefusal>
    ensures is { IsChecked result (first_refusal (add_refusals field.now x.now y.now)) }
    ensures lengths { IfOk result (λ _. length x.now ≡ length y.now) }
    ensures first { IfOk result (λ _. Fits field.now x.now) }
    ensures second { IfOk result (λ _. Fits field.now y.now) }
{
    if !field.is_symbol() {
        return Err(CodeRefusal::FieldTooLarge);
    }
    if x.len() != y.len() {
        return Err(CodeRefusal::LengthsDiffer);
    }
    if !fits(field, x) {
        return Err(CodeRefusal::BadArgument(1));
    }
    if !fits(field, y) {
        return Err(CodeRefusal::BadArgument(2));
    }
    Ok(())
}

// Checks an element and a word that is multiplied by it.
#[tactic(auto, using(crate::proofs::RefusalLaws::check_scale_laws))]
pub(crate) fn check_scale(field: &Field, c: u8, x: &[u8]) -> Result<(), CodeRefusal>
    ensures is { IsChecked result (first_refusal (scale_refusals field.now c x.now)) }
    ensures element { IfOk result (λ _. c < size field.now) }
    ensures word { IfOk result (λ _. Fits field.now x.now) }
{
    if !field.is_symbol() {
        return Err(CodeRefusal::FieldTooLarge);
    }
    if c as u64 >= field.size() as u64 {
        return Err(CodeRefusal::BadArgument(1));
    }
    if !fits(field, x) {
        return Err(CodeRefusal::BadArgument(2));
    }
    Ok(())
}

// Checks a message of a code.
#[tactic(auto, using(crate::proofs::RefusalLaws::check_message_laws))]
pub(crate) fn check_message(code: &Code, message: &[u8]) -> Result<(), CodeRefusal>
    ensures is { IsChecked result (first_refusal (message_refusals code.now message.now)) }
    ensures word { IfOk result (λ _. IsWord code.now.field (length code.now.rows) message.now) }
{
    if message.len() != code.dimension() {
        return Err(CodeRefusal::LengthsDiffer);
    }
    if !fits(code.field(), message) {
        return Err(CodeRefusal::BadArgument(2));
    }
    Ok(())
}

/// Whether each row has `n` entries.
pub fn are_long(n: usize, rows: &[Word]) -> bool
    ensures is { result ≡ list_all (λ row. length row == n) rows.now }
{
    rows.iter().all(|row| row.len() == n)
}

/// Whether each entry of the rows is an element of the field.
pub fn have_elements(field: &Field, rows: &[Word]) -> bool
    ensures is { IsTrue result ↔ All (Fits field.now) rows.now }
{
    for row in rows {
        if !fits(field, row.symbols()) {
            return false;
        }
    }
    true
}

// Checks rows that are added to a code.
#[tactic(auto, using(crate::proofs::RefusalLaws::check_augmented_laws))]
pub(crate) fn check_augmented(code: &Code, rows: &[Word]) -> Result<(), CodeRefusal>
    ensures is { IsChecked result (first_refusal (augmented_refusals code.now rows.now)) }
    ensures rows { IfOk result (λ _. AreRows code.now.field code.now.columns rows.now) }
{
    if !are_long(code.length(), rows) {
        return Err(CodeRefusal::LengthsDiffer);
    }
    if !have_elements(code.field(), rows) {
        return Err(CodeRefusal::BadArgument(2));
    }
    Ok(())
}
