//! The sets of a certificate by levels.
ghost use Rattle.std.specs.Prelude.{◌≡◌, ◌<◌, map, IfOk};
ghost use Rattle.lc_algebra.specs.Span.{below};
ghost use Rattle.lc_enumeration.specs.Search.{set_count};
ghost use Rattle.lc_certificate.specs.Seen.{claim_of};
ghost use Rattle.lc_certify.specs.Claims.{claim_at};

use lc_certificate::SetClaim;
use lc_field::NoMemory;
use lc_search::Search;
use std::alloc::Global;

// The columns as numbers of 64 bits.
fn numbers_of(alloc: Global, columns: &[usize]) -> Result<Vec<u64>, NoMemory>
    ensures are { IfOk result (λ v. v.items ≡ columns.now) }
{
    let mut numbers = Vec::with_capacity(alloc, columns.len())?;
    for i in 0..columns.len() {
        numbers.push(columns[i] as u64)?;
    }
    Ok(numbers)
}

// Set `j` of the code, with the last level of it that is done.
#[tactic(auto, unfolding(lc_certificate::specs::Seen::claim_of))]
fn claim_at(alloc: Global, search: &Search, j: usize) -> Result<SetClaim, NoMemory>
    requires set { j < set_count search.now.code }
    ensures is { IfOk result (λ c. claim_of c ≡ claim_at search.now.code search.now.progress.blocks j) }
{
    let sets = search.sets();
    let basis = numbers_of(alloc, sets.basis(j))?;
    let fresh = numbers_of(alloc, sets.fresh(j))?;
    Ok(SetClaim {
        basis,
        fresh,
        level: search.level_of(j),
    })
}

/// All sets of the code, each with the last level of it that is done.
#[tactic(auto, using(crate::proofs::ClaimLaws::claims_none, crate::proofs::ClaimLaws::claims_more))]
pub(crate) fn claims_of(alloc: Global, search: &Search) -> Result<Vec<SetClaim>, NoMemory>
    ensures are { IfOk result (λ v. map claim_of v.items
        ≡ map (claim_at search.now.code search.now.progress.blocks) (below (set_count search.now.code))) }
{
    let many = search.sets().count();
    let mut claims = Vec::with_capacity(alloc, many)?;
    for j in 0..many {
        let claim = claim_at(alloc, search, j)?;
        claims.push(claim)?;
    }
    Ok(claims)
}
