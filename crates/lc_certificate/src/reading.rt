//! How bytes are read as a certificate.
ghost use Rattle.std.specs.Prelude.{◌≡◌, ◌≢◌, codes, Err, IsTrue, IsSome, IsErrOf, IfOk, IfErr};
ghost use Rattle.serde_json.specs.Find.{as_object};
ghost use Rattle.serde_json.specs.View.{view};
ghost use Rattle.lc_constructions.specs.Refusals.{columns_of};
ghost use Rattle.lc_formats.specs.Certificate as formats;
ghost use Rattle.lc_formats.specs.Json.{number_at};
ghost use Rattle.lc_formats.specs.Shape.{IsShaped};
ghost use Rattle.lc_formats.specs.Document.{symbol_field};
ghost use Rattle.lc_formats.specs.Check.{certificate_in, reads_as, field_at, parts_in, key_count, set_total, is_beyond_limit, closed, is_version, object_in};
ghost use Rattle.lc_json.specs.Inside.{members_in};
ghost use Rattle.lc_certificate.specs.Seen.{proof_of, certificate_of};
ghost use Rattle.lc_certificate.specs.Reading.{IsRefusedAs, HasArray, distance_at};

use crate::certificate::{Certificate, Proof};
use crate::refusal::CertRefusal;
use crate::rows::{rows_at, word_at};
use crate::sets::{are_set_keys, proof_at};
use lc_algebra::FieldName;
use lc_json::{has_keys, number_at, read};
use lc_vec::Word;
use serde_json::Value;
use std::alloc::Global;

/// The symbol field of q elements, one of at most 16; `None` if there is none.
#[tactic(auto, unfolding(crate::proofs::Opened::symbol_fields))]
pub fn symbol_field(q: u64) -> Option<FieldName>
    ensures is { result ≡ symbol_field q }
{
    match q {
        2 => Some(FieldName::Gf2),
        3 => Some(FieldName::Gf3),
        4 => Some(FieldName::Gf4),
        5 => Some(FieldName::Gf5),
        7 => Some(FieldName::Gf7),
        8 => Some(FieldName::Gf8),
        9 => Some(FieldName::Gf9),
        11 => Some(FieldName::Gf11),
        13 => Some(FieldName::Gf13),
        16 => Some(FieldName::Gf16),
        _ => None,
    }
}

/// The field of the object: the symbol field whose size stands at `field`.
#[tactic(auto, using(crate::proofs::PartLaws::field_found, crate::proofs::PartLaws::field_nowhere))]
pub fn field_at(object: &Value) -> Option<FieldName>
    ensures is { result ≡ field_at (members_in (view object.now)) }
{
    match number_at(object, "field") {
        Some(q) => symbol_field(q),
        None => None,
    }
}

/// The distance of the object: a whole number of at least 1, at `distance`.
#[tactic(auto, using(crate::proofs::PartLaws::distance_at_laws))]
pub fn distance_at(object: &Value) -> Option<u64>
    ensures is { result ≡ distance_at (members_in (view object.now)) }
{
    match number_at(object, "distance") {
        Some(distance) => {
            if distance == 0 {
                return None;
            }
            Some(distance)
        }
        None => None,
    }
}

// The length of the first row; without rows 0.
#[tactic(auto, unfolding(lc_constructions::specs::Refusals::columns_of))]
fn columns_of(rows: &[Word]) -> usize
    ensures is { result ≡ columns_of rows.now }
{
    if rows.is_empty() { 0 } else { rows[0].len() }
}

/// The certificate over the field that the parts of the object make: its rows, its word, its distance, and how that is proved. Its
/// other keys aren't looked at. Refused with `Shape` and the number of the first rule from 4 to 10 that is broken.
#[tactic(auto, using(crate::proofs::PartLaws::parts_of_laws))]
pub fn parts_of(alloc: Global, object: &Value, field: FieldName) -> Result<Certificate, CertRefusal>
    ensures is { IfOk result (λ c. parts_in (members_in (view object.now)) field ≡ reads_as (certificate_of c)) }
    ensures refused { IfErr result (λ e. IsRefusedAs e (parts_in (members_in (view object.now)) field)) }
    // It takes memory only for an object that has an array of rows.
    ensures needed { IsErrOf result CertRefusal.NoMemory → HasArray (codes "rows") (members_in (view object.now)) }
{
    let Some(rows) = rows_at(alloc, object, field)? else {
        return Err(CertRefusal::Shape(4));
    };
    let columns = columns_of(&rows);
    let Some(word) = word_at(alloc, object, "word", field, columns)? else {
        return Err(CertRefusal::Shape(5));
    };
    let Some(distance) = distance_at(object) else {
        return Err(CertRefusal::Shape(6));
    };
    let basis_of = proof_at(alloc, object, word.len() as u64)?;
    Ok(Certificate {
        field,
        rows,
        word,
        distance,
        basis_of,
    })
}

/// How many keys the object of a certificate that is proved so has.
#[tactic(auto, unfolding(lc_formats::specs::Check::key_count, crate::specs::Seen::proof_of))]
pub fn key_count(proof: &Proof) -> usize
    ensures is { result ≡ key_count (proof_of proof.now) }
{
    match proof {
        Proof::Scan => 6,
        Proof::Levels(_) => 7,
    }
}

// The number of sets; a scan has none.
#[tactic(auto, unfolding(lc_formats::specs::Check::set_total, crate::specs::Seen::proof_of))]
fn set_total(proof: &Proof) -> usize
    ensures is { result ≡ set_total (proof_of proof.now) }
{
    match proof {
        Proof::Scan => 0,
        Proof::Levels(claims) => claims.len(),
    }
}

/// Whether the length, the number of rows or the number of sets is above 255.
#[tactic(auto, unfolding(crate::proofs::Opened::limits))]
pub fn is_beyond_limit(cert: &Certificate) -> bool
    ensures is { result ≡ is_beyond_limit (certificate_of cert.now) }
{
    cert.word.len() > 255 || cert.rows.len() > 255 || set_total(&cert.basis_of) > 255
}

// Checks that the object of a certificate has no other keys, and that the certificate is within the limits.
#[tactic(auto, using(crate::proofs::PartLaws::check_closed_laws))]
fn check_closed(object: &Value, cert: &Certificate) -> Result<(), CertRefusal>
    ensures is { IfOk result
        (λ _. closed (members_in (view object.now)) (reads_as (certificate_of cert.now))
        ≡ reads_as (certificate_of cert.now)) }
    ensures refused { IfErr result
        (λ e. IsRefusedAs e (closed (members_in (view object.now)) (reads_as (certificate_of cert.now)))) }
    ensures told { result ≢ Err CertRefusal.NoMemory }
{
    if !has_keys(object, key_count(&cert.basis_of)) || !are_set_keys(object) {
        return Err(CertRefusal::Shape(11));
    }
    if is_beyond_limit(cert) {
        return Err(CertRefusal::Limit);
    }
    Ok(())
}

/// The certificate that the JSON value is. Refused as by `parse`, but for `NotJson`.
#[tactic(auto, using(crate::proofs::PartLaws::certificate_from_laws))]
pub fn certificate_from(alloc: Global, value: &Value) -> Result<Certificate, CertRefusal>
    ensures is { IfOk result (λ c. object_in (as_object (view value.now)) ≡ reads_as (certificate_of c)) }
    ensures refused { IfErr result (λ e. IsRefusedAs e (object_in (as_object (view value.now)))) }
    // It takes memory only for an object whose version and field are right, and that has an array of rows.
    ensures needed { IsErrOf result CertRefusal.NoMemory →
        IsTrue (is_version 1 (members_in (view value.now))) × IsSome (field_at (members_in (view value.now)))
        × HasArray (codes "rows") (members_in (view value.now)) }
{
    if !value.is_object() {
        return Err(CertRefusal::Shape(1));
    }
    if number_at(value, "version") != Some(1) {
        return Err(CertRefusal::Shape(2));
    }
    let Some(field) = field_at(value) else {
        return Err(CertRefusal::Shape(3));
    };
    let cert = parts_of(alloc, value, field)?;
    check_closed(value, &cert)?;
    Ok(cert)
}

/// The certificate that the bytes are. Refused with `NotJson` exactly if `lc_json::read` finds no value: they are no JSON in UTF-8,
/// nest more than 127 deep, have a number that no float holds, or escape a surrogate without its pair; else with `Shape` and the
/// number of the first rule of shape that is broken, else with `Limit` if the length, the number of rows or the number of sets is
/// above 255.
#[tactic(auto, using(crate::proofs::PartLaws::no_json, crate::proofs::PartLaws::json_is))]
pub fn parse(alloc: Global, bytes: &[u8]) -> Result<Certificate, CertRefusal>
    ensures is { IfOk result (λ c. certificate_in bytes.now ≡ reads_as (certificate_of c)) }
    ensures refused { IfErr result (λ e. IsRefusedAs e (certificate_in bytes.now)) }
    ensures shaped { IfOk result (λ c. IsShaped (certificate_of c)) }
{
    match read(alloc, bytes)? {
        Some(value) => certificate_from(alloc, &value),
        None => Err(CertRefusal::NotJson),
    }
}
