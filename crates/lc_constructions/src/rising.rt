//! Lists of numbers that rise.
ghost use Rattle.std.specs.Prelude.{◌≡◌};
ghost use Rattle.lc_constructions.specs.Refusals.{is_rising};

/// Whether each number is below the next one.
#[tactic(auto, using(crate::proofs::RisingLaws::is_rising_laws))]
pub fn is_rising(numbers: &[u64]) -> bool
    ensures is { result ≡ is_rising numbers.now }
{
    for i in 1..numbers.len() {
        if numbers[i] <= numbers[i - 1] {
            return false;
        }
    }
    true
}
