//! The check of a certificate.

ghost use Rattle.std.specs.Prelude.{◌≡◌, ◌-◌, ◌^◌, ◌↔◌, min, IfOk};
ghost use Rattle.lc_formats.specs.Certificate.{Verdict as FormatsVerdict, accepted, cost as cost_of, set_reasons, verdict, IsValid};
ghost use Rattle.lc_formats.specs.Shape.{IsShaped};
ghost use Rattle.lc_certificate.specs.Seen.{certificate_of};
ghost use Rattle.lc_checker.specs.Sets.{IsMatrixOf, IsCodeOf, word_reasons};
ghost use Rattle.lc_checker.specs.Verdict.{verdict_of};

use crate::reasons::{cost, set_reason, word_reason};
use crate::seen::seen_lighter;
use crate::verdict::{Reason, Verdict};
use lc_certificate::Certificate;
use lc_field::{Field, NoMemory};
use lc_matrix::Matrix;
use std::alloc::Global;

/// Checks the certificate. Returns `Accepted` exactly if it is valid, and so proves its distance, and else the first reason with
/// its values, in this order: the cost is above 2^32; the word isn't in the code; its weight isn't the distance; by levels, a
/// basis is no information set, a coordinate is fresh in two sets, the levels give too little; a seen word is lighter.
///
/// The certificate has the shape, as one that was read has. The bound that the levels give is that of Brouwer and Zimmermann
/// (Grassl, Searching for linear codes with large minimum distance).
pub fn check(alloc: Global, cert: &Certificate) -> Result<Verdict, NoMemory>
    requires shaped { IsShaped (certificate_of cert.now) }
    ensures is { IfOk result (λ v. verdict_of v ≡ verdict (certificate_of cert.now)) }
    ensures accepted { IfOk result (λ v. (verdict_of v ≡ accepted) ↔ IsValid (certificate_of cert.now)) }
{
    let rows = matrix_of(alloc, cert)?;
    let code = rows.echelon(alloc)?;
    let verdict = verdict_on(alloc, cert, &rows, &code)?;
    Ok(verdict)
}

/// The cost of a check of the certificate: by levels the number of messages of all levels of all sets, by scan q^k for dimension k
/// over q elements; 2^64 - 1 if it is more.
///
/// The certificate has the shape, as one that was read has.
pub fn checking_cost(alloc: Global, cert: &Certificate) -> Result<u64, NoMemory>
    requires shaped { IsShaped (certificate_of cert.now) }
    ensures is { IfOk result (λ n. n ≡ min (cost_of (certificate_of cert.now)) (2 ^ 64 - 1)) }
{
    let rows = matrix_of(alloc, cert)?;
    let code = rows.echelon(alloc)?;
    cost(alloc, cert, &code)
}

// The matrix of the certificate's rows.
fn matrix_of(alloc: Global, cert: &Certificate) -> Result<Matrix, NoMemory>
    requires shaped { IsShaped (certificate_of cert.now) }
    ensures is { IfOk result (λ m. IsMatrixOf (certificate_of cert.now) m) }
{
    let Ok(field) = Field::of(alloc, cert.field_size()) else {
        return Err(NoMemory);
    };
    let rows = Matrix::from_rows(alloc, &field, cert.word.len(), &cert.rows)?;
    Ok(rows)
}

// The verdict, from the matrix of the rows and the reduced one.
fn verdict_on(
    alloc: Global,
    cert: &Certificate,
    rows: &Matrix,
    code: &Matrix,
) -> Result<Verdict, NoMemory>
    requires shaped { IsShaped (certificate_of cert.now) }
    requires rows { IsMatrixOf (certificate_of cert.now) rows.now }
    requires code { IsCodeOf (certificate_of cert.now) code.now }
    ensures is { IfOk result (λ v. verdict_of v ≡ verdict (certificate_of cert.now)) }
{
    match word_reason(alloc, cert, rows, code)? {
        Some(reason) => Ok(Verdict::Rejected(reason)),
        None => {
            let verdict = verdict_of_sets(alloc, cert, rows, code)?;
            Ok(verdict)
        }
    }
}

// The verdict on a certificate that can be afforded and whose word is right.
fn verdict_of_sets(
    alloc: Global,
    cert: &Certificate,
    rows: &Matrix,
    code: &Matrix,
) -> Result<Verdict, NoMemory>
    requires shaped { IsShaped (certificate_of cert.now) }
    requires rows { IsMatrixOf (certificate_of cert.now) rows.now }
    requires code { IsCodeOf (certificate_of cert.now) code.now }
    requires word { (later : FormatsVerdict) → word_reasons (certificate_of cert.now) later ≡ later }
    ensures is { IfOk result (λ v. verdict_of v ≡ verdict (certificate_of cert.now)) }
{
    match set_reason(alloc, cert, rows, code)? {
        Some(reason) => Ok(Verdict::Rejected(reason)),
        None => {
            let verdict = verdict_of_words(alloc, cert, code)?;
            Ok(verdict)
        }
    }
}

// The verdict on a certificate whose word and sets are right.
fn verdict_of_words(alloc: Global, cert: &Certificate, code: &Matrix) -> Result<Verdict, NoMemory>
    requires shaped { IsShaped (certificate_of cert.now) }
    requires code { IsCodeOf (certificate_of cert.now) code.now }
    requires word { (later : FormatsVerdict) → word_reasons (certificate_of cert.now) later ≡ later }
    requires sets { (later : FormatsVerdict) →
        set_reasons (certificate_of cert.now) (certificate_of cert.now).proof later ≡ later }
    ensures is { IfOk result (λ v. verdict_of v ≡ verdict (certificate_of cert.now)) }
{
    match seen_lighter(alloc, cert, code)? {
        Some(word) => Ok(Verdict::Rejected(Reason::SeenLighter(word))),
        None => Ok(Verdict::Accepted),
    }
}
