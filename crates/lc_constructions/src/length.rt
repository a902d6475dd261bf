//! The lengths of codes.
ghost use Rattle.std.specs.Prelude.{◌≡◌, ◌≤◌, IsTrue};
ghost use Rattle.lc_constructions.specs.Code.{is_length, longest};

/// The greatest length of a code.
pub const LONGEST: u64 = 255;

/// Whether `n` is the length of a code: 1 to 255.
#[tactic(auto, unfolding(crate::specs::Code::is_length))]
pub fn is_length(n: u64) -> bool
    ensures is { result ≡ is_length n }
    ensures least { IsTrue result → 1 ≤ n }
    ensures most { IsTrue result → n ≤ longest }
{
    1 <= n && n <= LONGEST
}
