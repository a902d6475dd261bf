//! When circulant and quasi-cyclic codes refuse their arguments.
ghost use Rattle.std.specs.Prelude.{◌≡◌, ◌*◌, ◌≤◌, length, IfOk, IsTrue};
ghost use Rattle.lc_algebra.specs.Field.{is_symbol};
ghost use Rattle.lc_algebra.specs.Word.{Fits};
ghost use Rattle.lc_algebra.specs.Matrix.{AreRows};
ghost use Rattle.lc_constructions.specs.Code.{longest, is_length};
ghost use Rattle.lc_constructions.specs.Refusal.{first_refusal, IsChecked};
ghost use Rattle.lc_language.specs.Circulant.{circulant_refusals, quasi_cyclic_refusals};

use lc_code::CodeRefusal;
use lc_field::Field;
use lc_relations::{are_long, have_elements};
use lc_vec::{Word, fits};

// Whether so many words of n symbols, one after the other, have the length of a code.
#[tactic(auto, using(crate::proofs::RefusalLaws::makes_length_laws))]
fn makes_length(count: usize, n: u64) -> bool
    ensures is { result ≡ is_length (count * n) }
{
    if n == 0 || 255 < n || count == 0 || 255 < count {
        return false;
    }
    count as u64 * n <= 255
}

// Checks a word whose shifts span a code.
#[tactic(auto, using(crate::proofs::RefusalLaws::check_circulant_laws))]
pub(crate) fn check_circulant(field: &Field, x: &[u8], n: u64) -> Result<(), CodeRefusal>
    ensures is { IsChecked result (first_refusal (circulant_refusals field.now x.now n)) }
    ensures symbol { IfOk result (λ _. IsTrue (is_symbol field.now)) }
    ensures least { IfOk result (λ _. 1 ≤ n) }
    ensures most { IfOk result (λ _. n ≤ longest) }
    ensures long { IfOk result (λ _. length x.now ≡ n) }
    ensures fits { IfOk result (λ _. Fits field.now x.now) }
{
    if !field.is_symbol() {
        return Err(CodeRefusal::FieldTooLarge);
    }
    if !makes_length(1, n) {
        return Err(CodeRefusal::BadLength);
    }
    if x.len() as u64 != n {
        return Err(CodeRefusal::LengthsDiffer);
    }
    if !fits(field, x) {
        return Err(CodeRefusal::BadArgument(1));
    }
    Ok(())
}

// Checks words whose circulant matrices are put side by side.
#[tactic(auto, using(crate::proofs::RefusalLaws::check_quasi_cyclic_laws))]
pub(crate) fn check_quasi_cyclic(field: &Field, words: &[Word], n: u64) -> Result<(), CodeRefusal>
    ensures is { IsChecked result (first_refusal (quasi_cyclic_refusals field.now words.now n)) }
    ensures symbol { IfOk result (λ _. IsTrue (is_symbol field.now)) }
    ensures least { IfOk result (λ _. 1 ≤ length words.now * n) }
    ensures most { IfOk result (λ _. length words.now * n ≤ longest) }
    ensures words { IfOk result (λ _. AreRows field.now n words.now) }
{
    if !field.is_symbol() {
        return Err(CodeRefusal::FieldTooLarge);
    }
    if !makes_length(words.len(), n) {
        return Err(CodeRefusal::BadLength);
    }
    if !are_long(n as usize, words) {
        return Err(CodeRefusal::LengthsDiffer);
    }
    if !have_elements(field, words) {
        return Err(CodeRefusal::BadArgument(1));
    }
    Ok(())
}
