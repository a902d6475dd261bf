//! The reasons that come before the seen words: what the check costs, the word, and the sets.

ghost use Rattle.std.specs.Prelude.{◌≡◌, ◌≤◌, length, map, not, All, None, IfOk, IsOk};
ghost use Rattle.lc_formats.specs.Certificate.{Certificate as FormatsCertificate, Verdict as FormatsVerdict, scan, levels, bound_short, claimed_sum as claimed_sum_of, first_dependent as first_dependent_of, cost as cost_of, reaches, or_else, when, set_reasons};
ghost use Rattle.lc_algebra.specs.Matrix.{Matrix as MatrixValue};
ghost use Rattle.lc_formats.specs.Shape.{IsShaped, IsShapedSet};
ghost use Rattle.lc_certificate.specs.Seen.{certificate_of, claim_of};
ghost use Rattle.lc_checker.specs.Cost.{capped};
ghost use Rattle.lc_checker.specs.Sets.{IsMatrixOf, IsCodeOf, word_reasons};
ghost use Rattle.lc_checker.specs.Verdict.{reasons_of};

use crate::cost::{messages_of, words_of};
use crate::sets::{claimed_sum, first_dependent, has_whole_level, least_overlap};
use crate::verdict::Reason;
use lc_certificate::{Certificate, Proof, SetClaim};
use lc_field::NoMemory;
use lc_matrix::Matrix;
use lc_vec::weight;
use std::alloc::Global;

/// The greatest cost of a certificate that is checked.
pub const MOST_WORDS: u64 = 4_294_967_296;

// The first reason that has to do with the cost and the word.
pub(crate) fn word_reason(
    alloc: Global,
    cert: &Certificate,
    rows: &Matrix,
    code: &Matrix,
) -> Result<Option<Reason>, NoMemory>
    requires shaped { IsShaped (certificate_of cert.now) }
    requires rows { IsMatrixOf (certificate_of cert.now) rows.now }
    requires code { IsCodeOf (certificate_of cert.now) code.now }
    ensures is { IfOk result
        (λ o. (later : FormatsVerdict) → word_reasons (certificate_of cert.now) later ≡ or_else (reasons_of o) later) }
{
    let words = cost(alloc, cert, code)?;
    if MOST_WORDS < words {
        return Ok(Some(Reason::TooCostly(words)));
    }
    if !rows.in_span(alloc, cert.word.symbols())? {
        return Ok(Some(Reason::WordNotInCode));
    }
    let w = weight(cert.word.symbols()) as u64;
    if w != cert.distance {
        return Ok(Some(Reason::WordWeight(w)));
    }
    Ok(None)
}

// The cost of the check, or the greatest number of 64 bits if it is more.
pub(crate) fn cost(alloc: Global, cert: &Certificate, code: &Matrix) -> Result<u64, NoMemory>
    requires shaped { IsShaped (certificate_of cert.now) }
    requires code { IsCodeOf (certificate_of cert.now) code.now }
    ensures is { IfOk result (λ n. n ≡ capped (cost_of (certificate_of cert.now))) }
    ensures scan { (certificate_of cert.now).proof ≡ scan → IsOk result }
{
    let k = code.rows();
    let q = cert.field_size();
    match &cert.basis_of {
        Proof::Scan => Ok(words_of(k, q)),
        Proof::Levels(claims) => {
            let words = messages_of(alloc, k, q, claims)?;
            Ok(words)
        }
    }
}

// The first reason that has to do with the sets.
pub(crate) fn set_reason(
    alloc: Global,
    cert: &Certificate,
    rows: &Matrix,
    code: &Matrix,
) -> Result<Option<Reason>, NoMemory>
    requires shaped { IsShaped (certificate_of cert.now) }
    requires rows { IsMatrixOf (certificate_of cert.now) rows.now }
    requires code { IsCodeOf (certificate_of cert.now) code.now }
    ensures is { IfOk result
        (λ o. (later : FormatsVerdict) → set_reasons (certificate_of cert.now) (certificate_of cert.now).proof later
        ≡ or_else (reasons_of o) later) }
    ensures scan { (certificate_of cert.now).proof ≡ scan → IsOk result }
{
    match &cert.basis_of {
        Proof::Scan => Ok(None),
        Proof::Levels(claims) => {
            let reason = levels_reason(alloc, rows, code, cert.distance, claims)?;
            Ok(reason)
        }
    }
}

// The first reason that has to do with these sets: a basis is no information set, a coordinate is fresh in two sets, or the levels
// give too little.
fn levels_reason(
    alloc: Global,
    rows: &Matrix,
    code: &Matrix,
    distance: u64,
    claims: &[SetClaim],
) -> Result<Option<Reason>, NoMemory>
    requires few { length claims.now ≤ 255 }
    requires dimension { length code.now.rows ≤ 255 }
    requires columns { rows.now.columns ≡ code.now.columns }
    requires shaped { All (IsShapedSet code.now.columns) (map claim_of claims.now) }
    ensures is { IfOk result (λ o. (c : FormatsCertificate) → IsMatrixOf c rows.now → IsCodeOf c code.now →
        c.distance ≡ distance → (later : FormatsVerdict) → set_reasons c (levels (map claim_of claims.now)) later
        ≡ or_else (reasons_of o) later) }
{
    match first_dependent(alloc, code, claims)? {
        Some(number) => Ok(Some(Reason::SetNotInformation(number))),
        None => Ok(apart_reason(rows, code, distance, claims)),
    }
}

// The first reason that has to do with these information sets: a coordinate is fresh in two of them, or the levels give too little.
fn apart_reason(rows: &Matrix, code: &Matrix, distance: u64, claims: &[SetClaim]) -> Option<Reason>
    requires few { length claims.now ≤ 255 }
    requires dimension { length code.now.rows ≤ 255 }
    requires columns { rows.now.columns ≡ code.now.columns }
    requires shaped { All (IsShapedSet code.now.columns) (map claim_of claims.now) }
    ensures is { (c : FormatsCertificate) → IsMatrixOf c rows.now → IsCodeOf c code.now → c.distance ≡ distance →
        None ≡ first_dependent_of c 1 (map claim_of claims.now) → (later : FormatsVerdict) →
        set_reasons c (levels (map claim_of claims.now)) later ≡ or_else (reasons_of result) later }
{
    match least_overlap(code.cols(), claims) {
        Some(place) => Some(Reason::FreshOverlap(place)),
        None => bound_reason(rows, code.rows(), distance, claims),
    }
}

// The reason that the levels give too little.
fn bound_reason(rows: &Matrix, k: usize, distance: u64, claims: &[SetClaim]) -> Option<Reason>
    requires few { length claims.now ≤ 255 }
    requires dimension { k ≤ 255 }
    requires shaped { All (IsShapedSet rows.now.columns) (map claim_of claims.now) }
    ensures is { (c : FormatsCertificate) (code : MatrixValue) → IsMatrixOf c rows.now → IsCodeOf c code →
        length code.rows ≡ k → c.distance ≡ distance →
        reasons_of result ≡ when (not (reaches c (map claim_of claims.now)))
        (bound_short (claimed_sum_of c (map claim_of claims.now))) }
{
    if has_whole_level(k, claims) {
        return None;
    }
    let sum = claimed_sum(rows, k, claims);
    if distance <= sum {
        return None;
    }
    Some(Reason::BoundShort(sum))
}
