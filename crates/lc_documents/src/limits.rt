//! The limits of certificates by construction.
ghost use Rattle.std.specs.Prelude.{◌≡◌, ◌||◌, nat_lt, min, length};
ghost use Rattle.std.specs.List.{list_any};
ghost use Rattle.lc_formats.specs.Claim.{claim_total, claim_depth};
ghost use Rattle.lc_formats.specs.Check.{above};
ghost use Rattle.lc_formats.specs.Document.{is_long, is_tree_beyond_limit};
ghost use Rattle.lc_certificate.specs.Trees.{claim_of, built_of};

use lc_certificate::{Built, Claim, is_beyond_limit};
use lc_vec::Word;

// Whether one of the rows is longer than 255.
#[tactic(auto, unfolding(lc_formats::specs::Check::above))]
fn has_long_row(rows: &[Word]) -> bool
    ensures is { result ≡ list_any (λ row. above (length row)) rows.now }
{
    rows.iter().any(|row| row.len() > 255)
}

// Whether there are more than 255 rows, or one of them is longer.
#[tactic(auto, unfolding(lc_formats::specs::Check::above))]
fn are_long(rows: &[Word]) -> bool
    ensures is { result ≡ (above (length rows.now) || list_any (λ row. above (length row)) rows.now) }
{
    rows.len() > 255 || has_long_row(rows)
}

// Whether a list of the claim has more than 255 entries.
#[tactic(auto, unfolding(crate::proofs::Opened::long_claims))]
fn is_long(claim: &Claim) -> bool
    ensures is { result ≡ is_long (claim_of claim.now) }
{
    match claim {
        Claim::Search(cert) => is_beyond_limit(cert),
        Claim::Alternant {
            points,
            multipliers,
            ..
        } => points.len() > 255 || multipliers.len() > 255,
        Claim::Pair(_, left, right) => is_long(left) || is_long(right),
        Claim::Concat { outer, inner, .. } => is_long(outer) || is_long(inner),
        Claim::Subcode { of, rows } => is_long(of) || are_long(rows),
        Claim::Places(_, of, places) => is_long(of) || places.len() > 255,
        Claim::Extend(of) => is_long(of),
    }
}

// How many claims the claim is made of, itself counted; 1,025 if they are more.
#[tactic(auto, using(crate::proofs::LimitLaws::total_laws), unfolding(crate::proofs::Opened::totals))]
fn total(claim: &Claim) -> u64
    ensures is { result ≡ min (claim_total (claim_of claim.now)) 1025 }
{
    match claim {
        Claim::Search(_) => 1,
        Claim::Alternant { .. } => 1,
        Claim::Pair(_, left, right) => (1 + (total(left) + total(right))).min(1025),
        Claim::Concat { outer, inner, .. } => (1 + (total(outer) + total(inner))).min(1025),
        Claim::Subcode { of, .. } => (1 + total(of)).min(1025),
        Claim::Places(_, of, _) => (1 + total(of)).min(1025),
        Claim::Extend(of) => (1 + total(of)).min(1025),
    }
}

// How deep the claim is nested; 33 if it is deeper.
#[tactic(auto, using(crate::proofs::LimitLaws::depth_laws), unfolding(crate::proofs::Opened::depths))]
fn depth(claim: &Claim) -> u64
    ensures is { result ≡ min (claim_depth (claim_of claim.now)) 33 }
{
    match claim {
        Claim::Search(_) => 1,
        Claim::Alternant { .. } => 1,
        Claim::Pair(_, left, right) => (1 + depth(left).max(depth(right))).min(33),
        Claim::Concat { outer, inner, .. } => (1 + depth(outer).max(depth(inner))).min(33),
        Claim::Subcode { of, .. } => (1 + depth(of)).min(33),
        Claim::Places(_, of, _) => (1 + depth(of)).min(33),
        Claim::Extend(of) => (1 + depth(of)).min(33),
    }
}

// Whether the claim is made of more than 1,024.
#[tactic(auto, using(crate::proofs::LimitLaws::many_claims))]
fn is_large(claim: &Claim) -> bool
    ensures is { result ≡ nat_lt 1024 (claim_total (claim_of claim.now)) }
{
    total(claim) > 1024
}

// Whether the claim is more than 32 deep.
#[tactic(auto, using(crate::proofs::LimitLaws::deep_claims))]
fn is_deep(claim: &Claim) -> bool
    ensures is { result ≡ nat_lt 32 (claim_depth (claim_of claim.now)) }
{
    depth(claim) > 32
}

// Whether a list has more than 255 entries, or the claims are more than 1,024 or more than 32 deep.
#[tactic(auto, unfolding(crate::proofs::Opened::limits))]
pub(crate) fn is_beyond(built: &Built) -> bool
    ensures is { result ≡ is_tree_beyond_limit (built_of built.now) }
{
    built.word.len() > 255
        || is_long(&built.claim)
        || is_large(&built.claim)
        || is_deep(&built.claim)
}
