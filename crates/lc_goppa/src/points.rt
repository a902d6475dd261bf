//! Points that occur twice.
ghost use Rattle.std.specs.Prelude.{◌≡◌, ◌≢◌, ℕ, ◌<◌, length, slice_index, IsNone, AllPairs};
ghost use Rattle.lc_constructions.specs.Refusals.{first_index, repeated_point};

use lc_code::CodeRefusal;

// The refusal of the first point that an earlier one is equal to, if there is one.
#[tactic(auto, using(crate::proofs::PointLaws::repeated_point_laws))]
pub(crate) fn repeated_point(points: &[u8]) -> Option<CodeRefusal>
    ensures is { result ≡ repeated_point points.now }
    ensures distinct { IsNone result → AllPairs (λ a b. a ≢ b) points.now }
{
    for j in 0..points.len() {
        let first = first_index(points, j);
        if first < j {
            return Some(CodeRefusal::RepeatedPoint(first, j));
        }
    }
    None
}

// The first index of the point with index j.
#[tactic(auto, using(crate::proofs::PointLaws::index_told))]
fn first_index(points: &[u8], j: usize) -> usize
    requires index { j < length points.now }
    ensures is { result ≡ first_index points.now j }
    ensures apart { (k : ℕ) → k < result → slice_index points.now k ≢ slice_index points.now j }
{
    for i in 0..j {
        if points[i] == points[j] {
            return i;
        }
    }
    j
}
