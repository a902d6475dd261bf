//! The first seen word that is lighter than the distance.

ghost use Rattle.std.specs.Prelude.{◌≡◌, ◌<◌, ◌≤◌, find, length, map, All, IfOk};
ghost use Rattle.lc_algebra.specs.Matrix.{AreIndependentColumns};
ghost use Rattle.lc_enumeration.specs.InformationSet.{systematic};
ghost use Rattle.lc_formats.specs.Certificate.{Certificate as FormatsCertificate, levels, scan, code_length, code_dimension, level_in, words_through, seen_by, is_lighter, first_lighter as first_lighter_of, or_else, set_reasons, Verdict as FormatsVerdict};
ghost use Rattle.lc_formats.specs.Shape.{IsShaped, IsShapedSet};
ghost use Rattle.lc_certificate.specs.Seen.{certificate_of, claim_of};
ghost use Rattle.lc_checker.specs.Sets.{IsCodeOf, IsSetOf};

use crate::sets::columns_of;
use crate::walk::first_lighter;
use lc_certificate::{Certificate, Proof, SetClaim};
use lc_field::NoMemory;
use lc_matrix::Matrix;
use lc_vec::Word;
use std::alloc::Global;

// The first seen word that isn't zero and is lighter than the distance. There is no reason against the sets.
pub(crate) fn seen_lighter(
    alloc: Global,
    cert: &Certificate,
    code: &Matrix,
) -> Result<Option<Word>, NoMemory>
    requires shaped { IsShaped (certificate_of cert.now) }
    requires code { IsCodeOf (certificate_of cert.now) code.now }
    requires sets { (later : FormatsVerdict) →
        set_reasons (certificate_of cert.now) (certificate_of cert.now).proof later ≡ later }
    ensures is { IfOk result (λ w. w ≡ first_lighter_of (certificate_of cert.now)) }
{
    match &cert.basis_of {
        Proof::Scan => {
            let word = first_lighter(alloc, code, cert.distance, code.rows())?;
            Ok(word)
        }
        Proof::Levels(claims) => {
            let word = sets_lighter(alloc, code, cert.distance, claims)?;
            Ok(word)
        }
    }
}

// The first such word of these sets.
fn sets_lighter(
    alloc: Global,
    code: &Matrix,
    distance: u64,
    claims: &[SetClaim],
) -> Result<Option<Word>, NoMemory>
    requires dimension { length code.now.rows ≤ 255 }
    requires shaped { All (IsShapedSet code.now.columns) (map claim_of claims.now) }
    requires sets { All (IsSetOf code.now) (map claim_of claims.now) }
    ensures is { IfOk result (λ w. (c : FormatsCertificate) → IsCodeOf c code.now →
        w ≡ find (is_lighter distance) (seen_by c (levels (map claim_of claims.now)))) }
{
    for i in 0..claims.len() {
        match set_lighter(alloc, code, distance, &claims[i])? {
            Some(word) => return Ok(Some(word)),
            None => {}
        }
    }
    Ok(None)
}

// The first such word of a set.
fn set_lighter(
    alloc: Global,
    code: &Matrix,
    distance: u64,
    claim: &SetClaim,
) -> Result<Option<Word>, NoMemory>
    requires dimension { length code.now.rows ≤ 255 }
    requires inside { All (λ c. c < code.now.columns) (claim_of claim.now).basis }
    requires set { IsSetOf code.now (claim_of claim.now) }
    ensures is { IfOk result (λ w. (c : FormatsCertificate) → IsCodeOf c code.now →
        w ≡ find (is_lighter distance)
        (words_through c.field (code_length c) (systematic c.field (code_length c) c.rows (claim_of claim.now).basis)
        (code_dimension c) (level_in c (claim_of claim.now)))) }
{
    let k = code.rows();
    let set = columns_of(alloc, &claim.basis)?;
    let level = claim.level.min(k as u64) as usize;
    match code.systematic_on(alloc, &set)? {
        Some(generator) => {
            let word = first_lighter(alloc, &generator, distance, level)?;
            Ok(word)
        }
        None => Ok(None),
    }
}
