//! Reads the sets of a certificate, and how its distance is proved.
ghost use Rattle.std.specs.Prelude.{◌≡◌, nat_lt, is_some, ◌<◌, ◌==◌, map, All, Option, option_map, Some, false, IsErrOf, IsSome, IfOk, IfErr};
ghost use Rattle.std.specs.List.{list_all};
ghost use Rattle.std.specs.List.Sorted.{IsStrictlyIncreasing};
ghost use Rattle.serde_json.specs.Find.{as_object};
ghost use Rattle.serde_json.specs.View.{view};
ghost use Rattle.lc_enumeration.specs.InformationSet.{is_member};
ghost use Rattle.lc_formats.specs.Certificate as formats;
ghost use Rattle.lc_formats.specs.Json.{list_at, each, provided, member_count};
ghost use Rattle.lc_formats.specs.Check.{reads_as, is_scan, are_places, claim_in, sets_at, fresh_in_basis, sets_in, way_in, are_set_keys};
ghost use Rattle.lc_json.specs.Inside.{members_in};
ghost use Rattle.lc_certificate.specs.Seen.{claim_of, proof_of};
ghost use Rattle.lc_certificate.specs.Reading.{IsRefusedAs, way_at};

use crate::certificate::{Proof, SetClaim};
use crate::refusal::CertRefusal;
use lc_constructions::is_rising;
use lc_field::NoMemory;
use lc_json::{array_at, has_keys, is_same, list_at, number_at, text_at};
use serde_json::Value;
use std::alloc::Global;

// Whether all numbers are below n.
fn are_below(n: u64, places: &[u64]) -> bool
    ensures is { result ≡ list_all (λ place. nat_lt place n) places.now }
{
    places.iter().all(|place| *place < n)
}

// Whether the numbers are rising coordinates of words of length n.
#[tactic(auto, unfolding(lc_formats::specs::Check::are_places))]
fn are_places(n: u64, places: &[u64]) -> bool
    ensures is { result ≡ are_places n places.now }
{
    is_rising(places) && are_below(n, places)
}

// The coordinates listed at a key of a set.
#[tactic(auto, using(crate::proofs::SetLaws::places_at_laws))]
fn places_at(alloc: Global, set: &Value, key: &str, n: u64) -> Result<Option<Vec<u64>>, NoMemory>
    ensures is { IfOk result
        (λ o. option_map (λ v. v.items) o ≡ provided (are_places n) (list_at key.now (members_in (view set.now)))) }
{
    let Some(places) = list_at(alloc, set, key)? else {
        return Ok(None);
    };
    if !are_places(n, &places) {
        return Ok(None);
    }
    Ok(Some(places))
}

// The set that an object states.
#[tactic(auto, using(crate::proofs::SetLaws::set_of_laws), unfolding(crate::specs::Seen::claim_of))]
fn set_of(alloc: Global, n: u64, set: &Value) -> Result<Option<SetClaim>, NoMemory>
    ensures is { IfOk result (λ o. option_map claim_of o ≡ claim_in n (members_in (view set.now))) }
{
    let Some(basis) = places_at(alloc, set, "basis", n)? else {
        return Ok(None);
    };
    let Some(fresh) = places_at(alloc, set, "fresh", n)? else {
        return Ok(None);
    };
    let Some(level) = number_at(set, "level") else {
        return Ok(None);
    };
    Ok(Some(SetClaim {
        basis,
        fresh,
        level,
    }))
}

// The sets that objects state.
#[tactic(auto, using(crate::proofs::SetLaws::sets_of_laws))]
fn sets_of(alloc: Global, n: u64, sets: &[Value]) -> Result<Option<Vec<SetClaim>>, NoMemory>
    ensures is { IfOk result
        (λ o. option_map (λ v. map claim_of v.items) o ≡ each (map (λ v. claim_in n (members_in (view v))) sets.now)) }
{
    let mut claims = Vec::with_capacity(alloc, sets.len())?;
    for set in sets {
        match set_of(alloc, n, set)? {
            Some(claim) => claims.push(claim)?,
            None => return Ok(None),
        }
    }
    Ok(Some(claims))
}

// Whether all values are objects.
fn are_objects(items: &[Value]) -> bool
    ensures is { result ≡ list_all (λ v. is_some (as_object (view v))) items.now }
{
    items.iter().all(|item| item.is_object())
}

// Whether all values have three keys.
fn have_three_keys(items: &[Value]) -> bool
    ensures is { result ≡ list_all (λ v. member_count (members_in (view v)) == 3) items.now }
{
    items.iter().all(|item| has_keys(item, 3))
}

// The values that state the sets of an object: at least one, and all of them objects.
#[tactic(auto, using(crate::proofs::SetLaws::sets_at_laws))]
fn sets_at(object: &Value) -> Option<&Vec<Value>>
    ensures is { option_map (λ v. map (λ x. members_in (view x)) v.now.items) result
        ≡ sets_at (members_in (view object.now)) }
{
    let items = array_at(object, "sets")?;
    if items.is_empty() || !are_objects(items) {
        return None;
    }
    Some(items)
}

/// Whether each set at `sets` of the object has its three keys and no other. There are none if no nonempty list of objects is there.
#[tactic(auto, using(crate::proofs::SetLaws::keys_of_sets, crate::proofs::SetLaws::keys_of_none))]
pub fn are_set_keys(object: &Value) -> bool
    ensures is { result ≡ are_set_keys (members_in (view object.now)) }
{
    match sets_at(object) {
        Some(sets) => have_three_keys(sets),
        None => true,
    }
}

// Whether a coordinate is among those of a list that rises.
#[tactic(auto, using(crate::proofs::SetLaws::search_member))]
fn has(places: &[u64], place: u64) -> bool
    requires rises { IsStrictlyIncreasing places.now }
    ensures is { result ≡ is_member places.now place }
{
    places.binary_search(&place).is_ok()
}

// Whether each fresh coordinate of a set is in its basis. The basis rises.
#[tactic(auto, using(crate::proofs::SetLaws::is_fresh_in_basis_laws))]
fn is_fresh_in_basis(claim: &SetClaim) -> bool
    requires rises { IsStrictlyIncreasing claim.now.basis.items }
    ensures is { result ≡ fresh_in_basis (claim_of claim.now) }
{
    for place in &claim.fresh {
        if !has(&claim.basis, *place) {
            return false;
        }
    }
    true
}

// Whether the fresh coordinates of each set are in its basis. The bases rise.
#[tactic(auto, using(crate::proofs::SetLaws::are_fresh_in_bases_laws))]
fn are_fresh_in_bases(claims: &[SetClaim]) -> bool
    requires rise { All (λ claim. IsStrictlyIncreasing claim.basis.items) claims.now }
    ensures is { result ≡ list_all fresh_in_basis (map claim_of claims.now) }
{
    for claim in claims {
        if !is_fresh_in_basis(claim) {
            return false;
        }
    }
    true
}

// Whether the text at `by` says that the proof is a scan; none if it is neither of the two words.
#[tactic(auto, unfolding(lc_formats::specs::Check::is_scan))]
fn is_scan(text: &[u8]) -> Option<bool>
    ensures is { result ≡ is_scan text.now }
{
    if is_same(text, b"scan") {
        return Some(true);
    }
    if is_same(text, b"levels") {
        return Some(false);
    }
    None
}

// The word at `by` of an object.
#[tactic(auto, using(crate::proofs::SetLaws::way_found, crate::proofs::SetLaws::way_nowhere))]
fn way_at(object: &Value) -> Option<bool>
    ensures is { result ≡ way_at (members_in (view object.now)) }
{
    match text_at(object, "by") {
        Some(text) => is_scan(text.as_bytes()),
        None => None,
    }
}

// The proof by levels that an object states, for words of length n.
#[tactic(auto, using(crate::proofs::SetLaws::levels_at_laws))]
fn levels_at(alloc: Global, object: &Value, n: u64) -> Result<Proof, CertRefusal>
    ensures is { IfOk result (λ p. (make : formats.Proof → formats.Certificate)
        → sets_in n make (sets_at (members_in (view object.now))) ≡ reads_as (make (proof_of p))) }
    ensures refused { IfErr result (λ e. (make : formats.Proof → formats.Certificate)
        → IsRefusedAs e (sets_in n make (sets_at (members_in (view object.now))))) }
    ensures needed { IsErrOf result CertRefusal.NoMemory → IsSome (sets_at (members_in (view object.now))) }
{
    let Some(sets) = sets_at(object) else {
        return Err(CertRefusal::Shape(8));
    };
    let Some(claims) = sets_of(alloc, n, sets)? else {
        return Err(CertRefusal::Shape(9));
    };
    if !are_fresh_in_bases(&claims) {
        return Err(CertRefusal::Shape(10));
    }
    Ok(Proof::Levels(claims))
}

// How the distance is proved, as an object states it, for words of length n.
#[tactic(auto, using(crate::proofs::SetLaws::proof_at_laws))]
pub(crate) fn proof_at(alloc: Global, object: &Value, n: u64) -> Result<Proof, CertRefusal>
    ensures is { IfOk result (λ p. (make : formats.Proof → formats.Certificate)
        → way_in (members_in (view object.now)) n make (way_at (members_in (view object.now)))
        ≡ reads_as (make (proof_of p))) }
    ensures refused { IfErr result (λ e. (make : formats.Proof → formats.Certificate)
        → IsRefusedAs e (way_in (members_in (view object.now)) n make (way_at (members_in (view object.now))))) }
    ensures needed { IsErrOf result CertRefusal.NoMemory →
        (way_at (members_in (view object.now)) ≡ Some false) × IsSome (sets_at (members_in (view object.now))) }
{
    match way_at(object) {
        Some(true) => {
            if object.get("sets").is_some() {
                return Err(CertRefusal::Shape(8));
            }
            Ok(Proof::Scan)
        }
        Some(false) => levels_at(alloc, object, n),
        None => Err(CertRefusal::Shape(7)),
    }
}
