//! How bytes are read as a certificate of either version.
ghost use Rattle.std.specs.Prelude.{◌≡◌, ◌≢◌, ◌<◌, codes, option_and_then, option_map, Err, IsSome, IsErrOf, IfOk, IfErr};
ghost use Rattle.serde_json.specs.Data.{members_depth};
ghost use Rattle.serde_json.specs.Find.{as_object};
ghost use Rattle.serde_json.specs.View.{view};
ghost use Rattle.lc_formats.specs.Check.{field_at, is_version};
ghost use Rattle.lc_formats.specs.Claim.{tree};
ghost use Rattle.lc_formats.specs.Document.{claim_from, object_at, all_of, are_closed, document, tree_closed, tree_field_in, document_in};
ghost use Rattle.lc_json.specs.Inside.{members_in};
ghost use Rattle.lc_certificate.specs.Trees.{claim_of, built_of, document_of};
ghost use Rattle.lc_documents.specs.Reading.{IsUnreadAs, IsShapedDocument};

use crate::claims::part_of;
use crate::closing::are_closed_at;
use crate::limits::is_beyond;
use crate::lists::tree_word;
use lc_algebra::FieldName;
use lc_certificate::{
    Built, CertRefusal, Claim, Document, certificate_from, distance_at, field_at,
};
use lc_field::NoMemory;
use lc_json::{has_keys, number_at, read};
use serde_json::Value;
use std::alloc::Global;

// Whether a value is an object whose version is 2.
#[tactic(auto, using(crate::proofs::DocumentLaws::is_tree_laws))]
fn is_tree(value: &Value) -> bool
    ensures is { result ≡ is_version 2 (members_in (view value.now)) }
{
    number_at(value, "version") == Some(2)
}

// The claim over the field at `claim` of an object, which nests at most 126 deep.
#[tactic(auto, using(crate::proofs::DocumentLaws::top_claim_laws))]
fn top_claim(alloc: Global, value: &Value, field: FieldName) -> Result<Option<Claim>, NoMemory>
    requires nests { members_depth (members_in (view value.now)) < 127 }
    ensures is { IfOk result
        (λ o. option_map claim_of o ≡ option_and_then (claim_from (members_depth (members_in (view value.now))) field)
        (object_at (codes "claim") (members_in (view value.now)))) }
{
    part_of(alloc, 127, value, "claim", field)
}

// Whether the sets of the searches of an object, which nests at most 126 deep, have no other keys.
#[tactic(auto, using(crate::proofs::DocumentLaws::are_sets_closed_laws))]
fn are_sets_closed(value: &Value) -> bool
    requires nests { members_depth (members_in (view value.now)) < 127 }
    ensures is { result ≡ all_of (are_closed (members_depth (members_in (view value.now))))
        (object_at (codes "claim") (members_in (view value.now))) }
{
    are_closed_at(127, value, "claim")
}

// Checks that an object and the sets of its searches have no other keys, and that what it states is within the limits.
#[tactic(auto, using(crate::proofs::DocumentLaws::check_closed_laws))]
fn check_closed(value: &Value, built: &Built) -> Result<(), CertRefusal>
    requires nests { members_depth (members_in (view value.now)) < 127 }
    ensures is { IfOk result
        (λ _. tree_closed (members_in (view value.now)) (built_of built.now) ≡ document (tree (built_of built.now))) }
    ensures refused { IfErr result
        (λ e. IsUnreadAs e (tree_closed (members_in (view value.now)) (built_of built.now))) }
    ensures told { result ≢ Err CertRefusal.NoMemory }
{
    if !has_keys(value, 5) || !are_sets_closed(value) {
        return Err(CertRefusal::Shape(11));
    }
    if is_beyond(built) {
        return Err(CertRefusal::Limit);
    }
    Ok(())
}

// The certificate by construction that an object of version 2 is. It nests at most 126 deep.
#[tactic(auto, using(crate::proofs::DocumentLaws::built_from_laws))]
fn built_from(alloc: Global, value: &Value) -> Result<Built, CertRefusal>
    requires nests { members_depth (members_in (view value.now)) < 127 }
    ensures is { IfOk result (λ b. tree_field_in (members_in (view value.now)) (field_at (members_in (view value.now)))
        ≡ document (tree (built_of b))) }
    ensures refused { IfErr result
        (λ e. IsUnreadAs e (tree_field_in (members_in (view value.now)) (field_at (members_in (view value.now))))) }
    ensures needed { IsErrOf result CertRefusal.NoMemory → IsSome (field_at (members_in (view value.now))) }
{
    let Some(field) = field_at(value) else {
        return Err(CertRefusal::Shape(3));
    };
    let Some(claim) = top_claim(alloc, value, field)? else {
        return Err(CertRefusal::Shape(12));
    };
    let Some(word) = tree_word(alloc, value, field)? else {
        return Err(CertRefusal::Shape(5));
    };
    let Some(distance) = distance_at(value) else {
        return Err(CertRefusal::Shape(6));
    };
    let built = Built {
        field,
        claim,
        word,
        distance,
    };
    check_closed(value, &built)?;
    Ok(built)
}

/// The certificate of either version that the bytes are.
///
/// Bytes that are no JSON object whose `version` is 2 are read as by `lc_certificate::parse`, with its refusals: so a version that is
/// neither 1 nor 2 is `Shape(2)`. For version 2 the rules of shape are, in this order, 3: `field` is the size of a symbol field;
/// 12: `claim` is a claim over it; 5: `word` is a nonempty list of its elements; 6: `distance` is a whole number of at least 1;
/// 11: there is no other key, in the object and in the sets of its searches. A claim has one of the ten kinds, the keys of that kind
/// and no other. Refused with `Shape` and the number of the first rule that is broken, else with `Limit` if a list has more than 255
/// entries, or there are more than 1,024 claims, or claims more than 32 deep. Fails with `NoMemory` if memory runs out.
#[tactic(auto, using(crate::proofs::DocumentLaws::parse_document_laws))]
pub fn parse_document(alloc: Global, bytes: &[u8]) -> Result<Document, CertRefusal>
    ensures is { IfOk result (λ d. document_in bytes.now ≡ document (document_of d)) }
    ensures refused { IfErr result (λ e. IsUnreadAs e (document_in bytes.now)) }
    ensures shaped { IfOk result (λ d. IsShapedDocument (document_of d)) }
{
    let Some(value) = read(alloc, bytes)? else {
        return Err(CertRefusal::NotJson);
    };
    if is_tree(&value) {
        let built = built_from(alloc, &value)?;
        return Ok(Document::Tree(built));
    }
    let cert = certificate_from(alloc, &value)?;
    Ok(Document::Plain(cert))
}
