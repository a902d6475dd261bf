//! Reads claims without parts.
ghost use Rattle.std.specs.Prelude.{◌≡◌, codes, option_map, IfOk, IfErr};
ghost use Rattle.serde_json.specs.View.{view};
ghost use Rattle.lc_formats.specs.Json.{member_count};
ghost use Rattle.lc_formats.specs.Check.{reads_as, parts_in};
ghost use Rattle.lc_formats.specs.Document.{search_of};
ghost use Rattle.lc_json.specs.Inside.{members_in};
ghost use Rattle.lc_certificate.specs.Reading.{HasArray};
ghost use Rattle.lc_certificate.specs.Seen.{certificate_of};
ghost use Rattle.lc_certificate.specs.Trees.{claim_of};
ghost use Rattle.lc_documents.specs.Parts.{form_in};

use crate::lists::bytes_at;
use lc_algebra::FieldName;
use lc_certificate::{CertRefusal, Certificate, Claim, key_count, parts_of};
use lc_field::NoMemory;
use lc_json::{has_keys, number_at};
use serde_json::Value;
use std::alloc::Global;

// The search over the field that an object states.
#[tactic(auto, using(crate::proofs::LeafLaws::search_at_laws), unfolding(lc_certificate::specs::Trees::claim_of))]
pub(crate) fn search_at(
    alloc: Global,
    object: &Value,
    field: FieldName,
) -> Result<Option<Claim>, NoMemory>
    ensures is { IfOk result
        (λ o. option_map claim_of o
        ≡ search_of (members_in (view object.now)) (parts_in (members_in (view object.now)) field)) }
    ensures needed { IfErr result (λ _. HasArray (codes "rows") (members_in (view object.now))) }
{
    match parts_of(alloc, object, field) {
        Ok(cert) => Ok(search_with(object, cert)),
        Err(CertRefusal::NoMemory) => Err(NoMemory),
        Err(CertRefusal::NotJson) => Ok(None),
        Err(CertRefusal::Shape(_)) => Ok(None),
        Err(CertRefusal::Limit) => Ok(None),
    }
}

// The search of a certificate, if the object has no keys but those of the claim.
#[tactic(auto, using(crate::proofs::LeafLaws::search_with_laws), unfolding(lc_certificate::specs::Trees::claim_of))]
fn search_with(object: &Value, cert: Certificate) -> Option<Claim>
    ensures is { option_map claim_of result
        ≡ search_of (members_in (view object.now)) (reads_as (certificate_of cert)) }
{
    if !has_keys(object, key_count(&cert.basis_of) - 1) {
        return None;
    }
    Some(Claim::Search(cert))
}

// The alternant form that an object states.
#[tactic(auto, using(crate::proofs::LeafLaws::form_at_laws), unfolding(lc_certificate::specs::Trees::claim_of))]
pub(crate) fn form_at(alloc: Global, object: &Value) -> Result<Option<Claim>, NoMemory>
    ensures is { IfOk result (λ o. option_map claim_of o ≡ form_in (members_in (view object.now))) }
    ensures needed { IfErr result (λ _. member_count (members_in (view object.now)) ≡ 5) }
{
    if !has_keys(object, 5) {
        return Ok(None);
    }
    let Some(locator) = number_at(object, "locator") else {
        return Ok(None);
    };
    let Some(points) = bytes_at(alloc, object, "points")? else {
        return Ok(None);
    };
    let Some(multipliers) = bytes_at(alloc, object, "multipliers")? else {
        return Ok(None);
    };
    let Some(r) = number_at(object, "r") else {
        return Ok(None);
    };
    Ok(Some(Claim::Alternant {
        locator,
        points,
        multipliers,
        r,
    }))
}
