//! When the plain constructors refuse their arguments.
ghost use Rattle.std.specs.Prelude.{◌≡◌, ℕ, ◌≤◌, ◌==◌, length, IsTrue, IfOk, ◌↔◌, All};
ghost use Rattle.std.specs.List.{list_all};
ghost use Rattle.lc_algebra.specs.Field.{is_symbol};
ghost use Rattle.lc_algebra.specs.Word.{Fits};
ghost use Rattle.lc_algebra.specs.Matrix.{AreRows};
ghost use Rattle.lc_constructions.specs.Code.{longest};
ghost use Rattle.lc_constructions.specs.Refusal.{first_refusal};
ghost use Rattle.lc_constructions.specs.Refusals.{columns_of, are_equally_long, length_refusals, matrix_refusals};
ghost use Rattle.lc_basic.specs.Checked.{IsChecked};

use lc_code::CodeRefusal;
use lc_constructions::is_length;
use lc_field::Field;
use lc_vec::{Word, fits};

/// Checks the field and the length of a code. Refused in this order: the field has more than 16 elements, FieldTooLarge; `n` is 0 or
/// above 255, BadLength. No memory is taken.
#[tactic(auto, using(crate::proofs::RefusalLaws::check_length_laws))]
pub fn check_length(field: &Field, n: u64) -> Result<(), CodeRefusal>
    ensures is { IsChecked result (first_refusal (length_refusals field.now n)) }
    ensures symbol { IfOk result (λ _. IsTrue (is_symbol field.now)) }
    ensures least { IfOk result (λ _. 1 ≤ n) }
    ensures most { IfOk result (λ _. n ≤ longest) }
{
    if !field.is_symbol() {
        return Err(CodeRefusal::FieldTooLarge);
    }
    if !is_length(n) {
        return Err(CodeRefusal::BadLength);
    }
    Ok(())
}

// The length of the first row; without rows 0.
#[tactic(auto, unfolding(lc_constructions::specs::Refusals::columns_of))]
pub(crate) fn columns_of(rows: &[Word]) -> usize
    ensures is { result ≡ columns_of rows.now }
{
    if rows.is_empty() { 0 } else { rows[0].len() }
}

// Whether each row has the length of the first one.
#[tactic(auto, unfolding(lc_constructions::specs::Refusals::are_equally_long))]
fn are_equally_long(rows: &[Word]) -> bool
    ensures is { result ≡ are_equally_long rows.now }
{
    let n = columns_of(rows);
    rows.iter().all(|row| row.len() == n)
}

// Whether each entry is an element of the field.
fn have_elements(field: &Field, rows: &[Word]) -> bool
    ensures is { IsTrue result ↔ All (Fits field.now) rows.now }
{
    for row in rows {
        if !fits(field, row.symbols()) {
            return false;
        }
    }
    true
}

// Checks a field and a matrix.
#[tactic(auto, using(crate::proofs::RefusalLaws::check_matrix_laws))]
pub(crate) fn check_matrix(field: &Field, rows: &[Word]) -> Result<(), CodeRefusal>
    ensures is { IsChecked result (first_refusal (matrix_refusals field.now rows.now)) }
    ensures symbol { IfOk result (λ _. IsTrue (is_symbol field.now)) }
    ensures least { IfOk result (λ _. 1 ≤ columns_of rows.now) }
    ensures most { IfOk result (λ _. columns_of rows.now ≤ longest) }
    ensures rows { IfOk result (λ _. AreRows field.now (columns_of rows.now) rows.now) }
{
    if !field.is_symbol() {
        return Err(CodeRefusal::FieldTooLarge);
    }
    if !is_length(columns_of(rows) as u64) {
        return Err(CodeRefusal::BadLength);
    }
    if !are_equally_long(rows) {
        return Err(CodeRefusal::LengthsDiffer);
    }
    if !have_elements(field, rows) {
        return Err(CodeRefusal::BadArgument(1));
    }
    Ok(())
}
