//! When the functions of this crate refuse their arguments.
ghost use Rattle.std.specs.Prelude.{◌≡◌, nat_le};
ghost use Rattle.std.specs.List.{list_any};
ghost use Rattle.lc_constructions.specs.Refusal.{first_refusal, IsChecked};
ghost use Rattle.lc_language.specs.Erasures.{erased_refusals};

use lc_code::{Code, CodeRefusal};
use lc_constructions::is_rising;

// Checks the coordinates of erased symbols.
#[tactic(auto, using(crate::proofs::RefusalLaws::check_erased_laws))]
pub(crate) fn check_erased(code: &Code, erased: &[u64]) -> Result<(), CodeRefusal>
    ensures is { IsChecked result (first_refusal (erased_refusals code.now erased.now)) }
{
    if !is_rising(erased) {
        return Err(CodeRefusal::BadPositions);
    }
    if leave(erased, code.length()) {
        return Err(CodeRefusal::BadPositions);
    }
    Ok(())
}

// Whether a coordinate is n or more.
fn leave(coordinates: &[u64], n: usize) -> bool
    ensures is { result ≡ list_any (nat_le n) coordinates.now }
{
    coordinates.iter().any(|p| n as u64 <= *p)
}
