//! What comes of a claim when it is tried.
ghost use Rattle.std.specs.Prelude.{◌≡◌, ℕ, ◌≤◌};
ghost use Rattle.lc_formats.specs.Claim.{claim_total};
ghost use Rattle.lc_certificate.specs.Trees.{claim_of};
ghost use Rattle.lc_trees.specs.Outcome.{own_of, stop_of};
ghost use Rattle.lc_trees.specs.declared.outcome.Stop.TheVariants as stop;

use lc_certificate::Claim;
use lc_code::{Code, CodeRefusal};
use lc_field::NoMemory;

// The code that a claim defines, with its bound, which is at most 256.
#[derive(Drop)]
pub(crate) struct Made {
    pub(crate) code: Code,
    pub(crate) bound: u16,
}

// Why a claim defines none.
#[derive(Drop)]
pub(crate) enum Stop {
    // The number of the claim of the tree that is refused, and that of its refusal.
    Refused(u64, u8),
    // No memory is left.
    NoMemory,
}

impl From<NoMemory> for Stop {
    ghost from_gives = { λ _ e. e ≡ stop.NoMemory };

    fn from(_e: NoMemory) -> Stop {
        Stop::NoMemory
    }
}

// What comes of the claim of this number, whose parts gave codes, if it makes this code of them, or refuses to.
#[tactic(auto, unfolding(crate::specs::Outcome::own_of))]
pub(crate) fn own(number: u64, code: Result<Code, CodeRefusal>, bound: u64) -> Result<Made, Stop>
    ensures is { result ≡ own_of number bound code }
{
    match code {
        Ok(code) => Ok(Made {
            code,
            bound: bound.min(256) as u16,
        }),
        Err(refusal) => Err(stop_of(number, &refusal)),
    }
}

// The refusal of the claim of this number.
#[tactic(auto, unfolding(crate::specs::Outcome::stop_of))]
fn stop_of(number: u64, refusal: &CodeRefusal) -> Stop
    ensures is { result ≡ stop_of number refusal.now }
{
    let refused = refusal.number();
    if refused == 0 {
        return Stop::NoMemory;
    }
    Stop::Refused(number, refused)
}

// How many claims the claim is made of, itself counted.
#[tactic(auto, unfolding(crate::proofs::Opened::claims))]
pub(crate) fn total(claim: &Claim) -> u64
    requires few { claim_total (claim_of claim.now) ≤ 1024 }
    ensures is { result ≡ claim_total (claim_of claim.now) }
{
    match claim {
        Claim::Search(_) => 1,
        Claim::Alternant { .. } => 1,
        Claim::Pair(_, left, right) => 1 + (total(left) + total(right)),
        Claim::Concat { outer, inner, .. } => 1 + (total(outer) + total(inner)),
        Claim::Subcode { of, .. } => 1 + total(of),
        Claim::Places(_, of, _) => 1 + total(of),
        Claim::Extend(of) => 1 + total(of),
    }
}
