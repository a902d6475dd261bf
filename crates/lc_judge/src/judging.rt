//! The verdict on bytes, and the line that says it.
ghost use Rattle.std.specs.Prelude.{◌≡◌, ℕ, IfOk, Some, None};
ghost use Rattle.lc_formats.specs.Check.{reason_line, line_of_verdict};
ghost use Rattle.lc_formats.specs.Document.{document_in, document, IsCheckText};
ghost use Rattle.lc_formats.specs.Proven.{IsVerdict};
ghost use Rattle.lc_certificate.specs.Trees.{document_of};
ghost use Rattle.lc_checker.specs.Verdict.{reason_of, verdict_of};
ghost use Rattle.lc_documents.specs.Reading.{IsShapedDocument};
ghost use Rattle.lc_judge.specs.Judged.{judgment, IsAcceptedRead, IsSaid};

use lc_certificate::{CertRefusal, Document};
use lc_checker::{Reason, Verdict, check};
use lc_documents::parse_document;
use lc_field::NoMemory;
use lc_print::{accepted_line, rejected_line};
use lc_trees::check_built;
use std::alloc::Global;

/// What is said of bytes as a certificate of either version.
#[derive(Drop)]
pub struct Judged {
    /// The line that says it, with its newline.
    pub text: Vec<u8>,
    /// Why they are rejected; `None` if they are accepted.
    pub reason: Option<Reason>,
}

// Bytes that are rejected for this reason.
#[tactic(auto, unfolding(lc_formats::specs::Check::reason_line))]
fn rejected(alloc: Global, reason: Reason) -> Result<Judged, NoMemory>
    ensures text { IfOk result (λ j. j.text.items ≡ reason_line (reason_of reason)) }
    ensures reason { IfOk result (λ j. j.reason ≡ Some reason) }
{
    let values = reason.values(alloc)?;
    let text = rejected_line(alloc, reason.number(), &values)?;
    Ok(Judged {
        text,
        reason: Some(reason),
    })
}

// A certificate of this distance, on which this is the verdict.
#[tactic(auto, using(crate::proofs::JudgeLaws::verdict_laws))]
fn said(alloc: Global, distance: u64, verdict: Verdict) -> Result<Judged, NoMemory>
    ensures text { IfOk result (λ j. j.text.items ≡ line_of_verdict distance (verdict_of verdict)) }
    ensures verdict { IfOk result (λ j. judgment j.reason ≡ verdict_of verdict) }
{
    match verdict {
        Verdict::Accepted => {
            let text = accepted_line(alloc, distance)?;
            Ok(Judged { text, reason: None })
        }
        Verdict::Rejected(reason) => Ok(rejected(alloc, reason)?),
    }
}

// A certificate that was read.
fn said_of(alloc: Global, read: &Document) -> Result<Judged, NoMemory>
    requires shaped { IsShapedDocument (document_of read.now) }
    ensures { IfOk result (λ j. IsSaid (document (document_of read.now)) j.text.items j.reason) }
{
    match read {
        Document::Plain(certificate) => {
            let verdict = check(alloc, certificate)?;
            Ok(said(alloc, certificate.distance, verdict)?)
        }
        Document::Tree(built) => {
            let verdict = check_built(alloc, built)?;
            Ok(said(alloc, built.distance, verdict)?)
        }
    }
}

// The bytes, unless they are too many for the memory that is left.
fn said_in(alloc: Global, bytes: &[u8]) -> Result<Judged, NoMemory>
    ensures { IfOk result (λ j. IsSaid (document_in bytes.now) j.text.items j.reason) }
{
    match parse_document(alloc, bytes) {
        Ok(read) => Ok(said_of(alloc, &read)?),
        Err(CertRefusal::NotJson) => Ok(rejected(alloc, Reason::NotJson)?),
        Err(CertRefusal::Shape(rule)) => Ok(rejected(alloc, Reason::Shape(rule))?),
        Err(CertRefusal::Limit) => Ok(rejected(alloc, Reason::Limit)?),
        Err(CertRefusal::NoMemory) => Err(NoMemory),
    }
}

/// What is said of the bytes as a certificate of either version: that it proves its distance, or the first reason for which it is
/// rejected. Fails if memory runs out.
///
/// If they are accepted, the stated distance is the minimum distance of the rows, or of the code that the claim defines.
pub fn judge(alloc: Global, bytes: &[u8]) -> Result<Judged, NoMemory>
    ensures text { IfOk result (λ j. IsCheckText bytes.now j.text.items) }
    ensures verdict { IfOk result (λ j. IsVerdict (document_in bytes.now) (judgment j.reason)) }
    ensures proves { IfOk result (λ j. j.reason ≡ None → IsAcceptedRead (document_in bytes.now)) }
{
    said_in(alloc, bytes)
}
