//! Reads claims with their parts.
ghost use Rattle.std.specs.Prelude.{◌≡◌, ◌<◌, codes, option_map, option_and_then, IsSome, IfOk, IfErr};
ghost use Rattle.serde_json.specs.View.{view};
ghost use Rattle.lc_formats.specs.Json.{number_at, member_count};
ghost use Rattle.lc_formats.specs.Document.{symbol_field, of_pair, of_concat, of_subcode, of_places, of_extend, kind_at, object_at, claim_from};
ghost use Rattle.lc_json.specs.Inside.{members_in};
ghost use Rattle.lc_certificate.specs.Trees.{pair_of, place_of, claim_of};
ghost use Rattle.lc_documents.specs.Parts.{part_of, kind_claim};

use crate::kinds::{Kind, kind_at, object_at};
use crate::leaves::{form_at, search_at};
use crate::lists::words_at;
use lc_algebra::FieldName;
use lc_certificate::{Claim, PairKind, PlaceKind, size_of, symbol_field};
use lc_field::NoMemory;
use lc_json::{has_keys, list_at, number_at};
use serde_json::Value;
use std::alloc::Global;

// The claim over the field that an object states; claims more than `most` deep are none.
#[cycle(claims)]
#[tactic(auto, using(crate::proofs::ClaimLaws::claim_from_laws), unfolding(crate::specs::Parts::kind_of))]
fn claim_from(
    alloc: Global,
    most: u8,
    object: &Value,
    field: FieldName,
) -> Result<Option<Claim>, NoMemory>
    ensures is { IfOk result (λ o. option_map claim_of o ≡ claim_from most field (members_in (view object.now))) }
    ensures needed { IfErr result (λ _. (0 < most) × IsSome (kind_at (members_in (view object.now)))) }
{
    if most == 0 {
        return Ok(None);
    }
    let Some(kind) = kind_at(object) else {
        return Ok(None);
    };
    match kind {
        Kind::Search => search_at(alloc, object, field),
        Kind::Form => form_at(alloc, object),
        Kind::Pair(kind) => pair_at(alloc, most - 1, object, field, kind),
        Kind::Concat => concat_at(alloc, most - 1, object, field),
        Kind::Subcode => subcode_at(alloc, most - 1, object, field),
        Kind::Places(kind) => places_at(alloc, most - 1, object, field, kind),
        Kind::Extend => extend_at(alloc, most - 1, object, field),
    }
}

// The claim over the field at a key of an object.
#[cycle(claims)]
#[tactic(auto, using(crate::proofs::ClaimLaws::part_of_laws))]
pub(crate) fn part_of(
    alloc: Global,
    most: u8,
    object: &Value,
    key: &str,
    field: FieldName,
) -> Result<Option<Claim>, NoMemory>
    ensures is { IfOk result (λ o. option_map claim_of o ≡ part_of most field key.now (members_in (view object.now))) }
    ensures needed { IfErr result (λ _. IsSome (object_at key.now (members_in (view object.now)))) }
{
    let Some(part) = object_at(object, key) else {
        return Ok(None);
    };
    claim_from(alloc, most, part, field)
}

// Two claims combined.
#[cycle(claims)]
#[tactic(auto, using(crate::proofs::ClaimLaws::pair_at_laws), unfolding(lc_certificate::specs::Trees::claim_of))]
fn pair_at(
    alloc: Global,
    most: u8,
    object: &Value,
    field: FieldName,
    kind: PairKind,
) -> Result<Option<Claim>, NoMemory>
    ensures is { IfOk result
        (λ o. option_map claim_of o ≡ kind_claim most field (members_in (view object.now)) (of_pair (pair_of kind))) }
    ensures needed { IfErr result (λ _. member_count (members_in (view object.now)) ≡ 3) }
{
    if !has_keys(object, 3) {
        return Ok(None);
    }
    let Some(left) = part_of(alloc, most, object, "left", field)? else {
        return Ok(None);
    };
    let Some(right) = part_of(alloc, most, object, "right", field)? else {
        return Ok(None);
    };
    let left = Box::new(alloc, left)?;
    let right = Box::new(alloc, right)?;
    Ok(Some(Claim::Pair(kind, left, right)))
}

// A concatenation.
#[cycle(claims)]
#[tactic(auto, using(crate::proofs::ClaimLaws::concat_at_laws), unfolding(lc_certificate::specs::Trees::claim_of))]
fn concat_at(
    alloc: Global,
    most: u8,
    object: &Value,
    field: FieldName,
) -> Result<Option<Claim>, NoMemory>
    ensures is { IfOk result
        (λ o. option_map claim_of o ≡ kind_claim most field (members_in (view object.now)) of_concat) }
    ensures needed { IfErr result (λ _. (member_count (members_in (view object.now)) ≡ 4)
        × IsSome (option_and_then symbol_field (number_at (codes "large") (members_in (view object.now))))) }
{
    if !has_keys(object, 4) {
        return Ok(None);
    }
    let Some(larger) = larger_field(object) else {
        return Ok(None);
    };
    let Some(outer) = part_of(alloc, most, object, "outer", larger)? else {
        return Ok(None);
    };
    let Some(inner) = part_of(alloc, most, object, "inner", field)? else {
        return Ok(None);
    };
    let outer = Box::new(alloc, outer)?;
    let inner = Box::new(alloc, inner)?;
    Ok(Some(Claim::Concat {
        large: size_of(larger),
        outer,
        inner,
    }))
}

// The field of the outer claim of a concatenation.
#[tactic(auto, using(crate::proofs::ClaimLaws::larger_field_laws))]
fn larger_field(object: &Value) -> Option<FieldName>
    ensures is { result ≡ option_and_then symbol_field (number_at (codes "large") (members_in (view object.now))) }
{
    match number_at(object, "large") {
        Some(q) => symbol_field(q),
        None => None,
    }
}

// The span of some rows.
#[cycle(claims)]
#[tactic(auto, using(crate::proofs::ClaimLaws::subcode_at_laws), unfolding(lc_certificate::specs::Trees::claim_of))]
fn subcode_at(
    alloc: Global,
    most: u8,
    object: &Value,
    field: FieldName,
) -> Result<Option<Claim>, NoMemory>
    ensures is { IfOk result
        (λ o. option_map claim_of o ≡ kind_claim most field (members_in (view object.now)) of_subcode) }
    ensures needed { IfErr result (λ _. member_count (members_in (view object.now)) ≡ 3) }
{
    if !has_keys(object, 3) {
        return Ok(None);
    }
    let Some(of) = part_of(alloc, most, object, "of", field)? else {
        return Ok(None);
    };
    let Some(rows) = words_at(alloc, object, field)? else {
        return Ok(None);
    };
    let of = Box::new(alloc, of)?;
    Ok(Some(Claim::Subcode { of, rows }))
}

// A code punctured or shortened.
#[cycle(claims)]
#[tactic(auto, using(crate::proofs::ClaimLaws::places_at_laws), unfolding(lc_certificate::specs::Trees::claim_of))]
fn places_at(
    alloc: Global,
    most: u8,
    object: &Value,
    field: FieldName,
    kind: PlaceKind,
) -> Result<Option<Claim>, NoMemory>
    ensures is { IfOk result
        (λ o. option_map claim_of o
        ≡ kind_claim most field (members_in (view object.now)) (of_places (place_of kind))) }
    ensures needed { IfErr result (λ _. member_count (members_in (view object.now)) ≡ 3) }
{
    if !has_keys(object, 3) {
        return Ok(None);
    }
    let Some(of) = part_of(alloc, most, object, "of", field)? else {
        return Ok(None);
    };
    let Some(places) = list_at(alloc, object, "places")? else {
        return Ok(None);
    };
    let of = Box::new(alloc, of)?;
    Ok(Some(Claim::Places(kind, of, places)))
}

// An extended code.
#[cycle(claims)]
#[tactic(auto, using(crate::proofs::ClaimLaws::extend_at_laws), unfolding(lc_certificate::specs::Trees::claim_of))]
fn extend_at(
    alloc: Global,
    most: u8,
    object: &Value,
    field: FieldName,
) -> Result<Option<Claim>, NoMemory>
    ensures is { IfOk result
        (λ o. option_map claim_of o ≡ kind_claim most field (members_in (view object.now)) of_extend) }
    ensures needed { IfErr result (λ _. member_count (members_in (view object.now)) ≡ 2) }
{
    if !has_keys(object, 2) {
        return Ok(None);
    }
    let Some(of) = part_of(alloc, most, object, "of", field)? else {
        return Ok(None);
    };
    let of = Box::new(alloc, of)?;
    Ok(Some(Claim::Extend(of)))
}
