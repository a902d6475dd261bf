//! The check of a certificate by construction.
ghost use Rattle.std.specs.Prelude.{◌≡◌, ◌↔◌, length, Err, IfOk, IfErr};
ghost use Rattle.lc_algebra.specs.Word.{Fits};
ghost use Rattle.lc_formats.specs.Certificate.{accepted};
ghost use Rattle.lc_formats.specs.Claim.{Built as FormatsBuilt};
ghost use Rattle.lc_formats.specs.ClaimMeaning.{HasOutcome, in_code, tree_reasons, IsTreeVerdict, IsValidTree};
ghost use Rattle.lc_formats.specs.Document.{IsShapedTree};
ghost use Rattle.lc_certificate.specs.Trees.{built_of};
ghost use Rattle.lc_checker.specs.Verdict.{verdict_of};
ghost use Rattle.lc_trees.specs.Outcome.{IsOutcomeOf};
ghost use Rattle.lc_formats.specs.Proven.{IsProvenTree};

use crate::claims::made;
use crate::outcome::{Made, Stop};
use lc_certificate::Built;
use lc_checker::{Reason, Verdict};
use lc_code::Code;
use lc_field::{Field, NoMemory};
use lc_vec::weight;
use std::alloc::Global;

/// Checks the certificate by construction. Returns `Accepted` exactly if it is valid, and then it proves its distance, and else the
/// first reason with its values, in this order: a claim is refused, with its number and that of the refusal, where each claim is
/// tried after its parts; the word isn't in the code that the claim defines; its weight isn't the distance; the bound of the claim
/// is below the distance.
///
/// Claims are numbered from 0: a claim before its parts, the left one before the right one, the outer one before the inner one. The
/// certificate has the shape, as one that was read has. Each of its searches costs up to 2^32 words, as in `lc_checker::check`.
pub fn check_built(alloc: Global, built: &Built) -> Result<Verdict, NoMemory>
    requires shaped { IsShapedTree (built_of built.now) }
    ensures is { IfOk result (λ v. IsTreeVerdict (built_of built.now) (verdict_of v)) }
    ensures accepted { IfOk result (λ v. (verdict_of v ≡ accepted) ↔ IsValidTree (built_of built.now)) }
    ensures proves { IfOk result (λ v. verdict_of v ≡ accepted → IsProvenTree (built_of built.now)) }
{
    let Ok(field) = Field::of(alloc, built.field_size()) else {
        return Err(NoMemory);
    };
    match made(alloc, &field, &built.claim, 0) {
        Ok(top) => {
            let verdict = verdict_on(alloc, built, &top)?;
            Ok(verdict)
        }
        Err(stop) => {
            let rejected = stopped(&stop)?;
            Ok(rejected)
        }
    }
}

// The verdict if a claim is refused.
#[tactic(auto, using(crate::proofs::VerdictLaws::stopped), unfolding(crate::proofs::Opened::seen))]
fn stopped(stop: &Stop) -> Result<Verdict, NoMemory>
    ensures is { IfOk result (λ v. (b : FormatsBuilt) → IsOutcomeOf (Err stop.now) (HasOutcome b.field 0 b.claim) →
        IsTreeVerdict b (verdict_of v)) }
    ensures told { IfErr result (λ _. stop.now ≡ Stop.NoMemory) }
{
    match stop {
        Stop::Refused(number, refusal) => {
            Ok(Verdict::Rejected(Reason::PartRefused(*number, *refusal)))
        }
        Stop::NoMemory => Err(NoMemory),
    }
}

// The verdict, from the code and the bound of the claim.
#[tactic(auto, using(crate::proofs::VerdictLaws::judged), unfolding(crate::proofs::Opened::tree))]
fn verdict_on(alloc: Global, built: &Built, top: &Made) -> Result<Verdict, NoMemory>
    requires word { Fits top.now.code.field built.now.word }
    ensures is { IfOk result (λ v. verdict_of v ≡ tree_reasons (built_of built.now) top.now.code top.now.bound) }
{
    if !is_inside(alloc, &top.code, built.word.symbols())? {
        return Ok(Verdict::Rejected(Reason::WordNotInCode));
    }
    let w = weight(built.word.symbols()) as u64;
    if w != built.distance {
        return Ok(Verdict::Rejected(Reason::WordWeight(w)));
    }
    let bound = top.bound as u64;
    if bound < built.distance {
        return Ok(Verdict::Rejected(Reason::ClaimShort(bound)));
    }
    Ok(Verdict::Accepted)
}

// Whether the symbols are a word of the code.
#[tactic(auto, using(crate::proofs::VerdictLaws::is_inside_laws))]
fn is_inside(alloc: Global, code: &Code, word: &[u8]) -> Result<bool, NoMemory>
    requires word { Fits code.now.field word.now }
    ensures is { IfOk result (λ b. b ≡ in_code code.now word.now) }
    ensures needed { IfErr result (λ _. length word.now ≡ code.now.columns) }
{
    let _matrix = code.matrix();
    if word.len() != code.length() {
        return Ok(false);
    }
    let mut buffer = vec![in alloc; 0u8; code.length()]?;
    let inside = code.contains(word, &mut buffer);
    Ok(inside)
}
