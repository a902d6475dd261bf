//! The laws of certificates and checkpoints.
//!
//! Each function proves what its clauses say and does nothing when it is run.

ghost use Rattle.std.specs.Prelude.{◌≡◌, ◌<◌, ◌≤◌, ◌↔◌, ℕ, List, length, take};
ghost use Rattle.lc_algebra.specs.declared.FieldName.{FieldName};
ghost use Rattle.lc_formats.specs.Certificate.{Certificate, Reason, Verdict, verdict, accepted, rejected, IsValid};
ghost use Rattle.lc_formats.specs.CertificateText.{certificate_text};
ghost use Rattle.lc_formats.specs.Shape.{IsShaped};
ghost use Rattle.lc_formats.specs.Check.{certificate_in, reads_as};
ghost use Rattle.lc_formats.specs.Claim.{Claim, Built, plain, tree, built_text};
ghost use Rattle.lc_formats.specs.Document.{document_in, document, IsShapedTree};
ghost use Rattle.lc_formats.specs.ClaimMeaning.{Outcome, HasOutcome, IsValidTree, IsTreeVerdict};
ghost use Rattle.lc_formats.specs.Checkpoint.{Checkpoint, IsInRange, checkpoint_text, checkpoint_in, point};

/// A certificate that was read has the shape, and each certificate that has it is read back from its text.
pub fn certificates_are_read_back()
    ensures shaped { (bytes : List ℕ) (c : Certificate) → certificate_in bytes ≡ reads_as c → IsShaped c }
    ensures back { (c : Certificate) → IsShaped c → certificate_in (certificate_text c) ≡ reads_as c }
{}

/// Among certificates that have the shape, the verdict accepts exactly the valid ones, and rejects the
/// others for a reason.
pub fn valid_certificates_are_accepted()
    ensures accepted { (c : Certificate) → IsShaped c → (verdict c ≡ accepted) ↔ IsValid c }
    ensures rejected { (c : Certificate) → IsShaped c → ((r : Reason) × (verdict c ≡ rejected r)) ↔ ¬ IsValid c }
{}

/// A checkpoint that was read is in range, and each checkpoint in range is read back from its text if the
/// text isn't too long. With fewer than 70,000 settled needs it isn't. Bytes that are too long are damaged,
/// and it is enough to read one more than are allowed.
pub fn checkpoints_are_read_back()
    ensures ranged { (bytes : List ℕ) (p : Checkpoint) → checkpoint_in bytes ≡ point p → IsInRange p }
    ensures back { (p : Checkpoint) → IsInRange p → length (checkpoint_text p) ≤ 4194304 →
        checkpoint_in (checkpoint_text p) ≡ point p }
    ensures short { (p : Checkpoint) → IsInRange p → length p.settled < 70000 → length (checkpoint_text p) ≤ 4194304 }
    ensures longer { (bytes : List ℕ) → checkpoint_in (take 4194305 bytes) ≡ checkpoint_in bytes }
{}

/// A certificate of either version that was read has the shape, and each one by construction that has it is
/// read back from its text.
pub fn documents_are_read_back()
    ensures plain { (bytes : List ℕ) (c : Certificate) → document_in bytes ≡ document (plain c) → IsShaped c }
    ensures tree { (bytes : List ℕ) (b : Built) → document_in bytes ≡ document (tree b) → IsShapedTree b }
    ensures back { (b : Built) → IsShapedTree b → document_in (built_text b) ≡ document (tree b) }
{}

/// A claim has at most one outcome, and a certificate by construction at most one verdict. It is accepted
/// exactly if it is valid.
pub fn valid_trees_are_accepted()
    ensures outcome { (f : FieldName) (number : ℕ) (claim : Claim) (o p : Outcome) → HasOutcome f number claim o →
        HasOutcome f number claim p → o ≡ p }
    ensures verdict { (b : Built) (v w : Verdict) → IsTreeVerdict b v → IsTreeVerdict b w → v ≡ w }
    ensures accepted { (b : Built) → IsTreeVerdict b accepted ↔ IsValidTree b }
{}
