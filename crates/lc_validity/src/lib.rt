//! A valid certificate proves its distance, and a true checkpoint starts a true session. What certificates
//! and checkpoints are, and when they are valid or true, is in `lc_formats`.
#![tactic(auto)]

ghost use Rattle.std.specs.Prelude.{◌≡◌, ℕ, ◌<◌, List, length, Option, None, All};
ghost use Rattle.lc_algebra.specs.Span.{IsDistance};
ghost use Rattle.lc_algebra.specs.Matrix.{Matrix, AreRows, AreIndependentColumns, IsSystematic};
ghost use Rattle.lc_enumeration.specs.InformationSet.{dimension, systematic};
ghost use Rattle.lc_algebra.specs.Divisor.{divisor_of};
ghost use Rattle.lc_enumeration.specs.Truth.{IsTrueStart};
ghost use Rattle.lc_formats.specs.Checkpoint.{Checkpoint};
ghost use Rattle.lc_formats.specs.Truth.{IsTrueFor, start_of, misfit_of};
ghost use Rattle.lc_formats.specs.Certificate.{Certificate, verdict, accepted, code_length};
ghost use Rattle.lc_formats.specs.Shape.{Sound};
ghost use Rattle.lc_formats.specs.Check.{certificate_in, reads_as};

use lc_algebra::FieldName;

/// Every valid certificate that has the shape proves its distance, by a scan and by levels. So does each
/// one that bytes read as and that the verdict accepts.
pub fn valid_certificates_prove_the_distance()
    ensures sound { Sound }
    ensures checked { (bytes : List ℕ) (c : Certificate) → certificate_in bytes ≡ reads_as c → verdict c ≡ accepted →
        IsDistance c.field (code_length c) c.rows c.distance }
{}

/// Rows that may be dependent have a systematic matrix on each set of columns that is independent and has
/// as many of them as the dimension.
pub fn information_sets_have_systematic_matrices(field: FieldName)
    ensures systematic { (n : ℕ) (rows : List (List ℕ)) (set : List ℕ) → AreRows field n rows →
        length set ≡ dimension field n rows → AreIndependentColumns field rows set →
        IsSystematic field n rows set (systematic field n rows set) }
    ensures unique { (n : ℕ) (rows : List (List ℕ)) (set : List ℕ) (e : List (List ℕ)) → AreRows field n rows →
        length set ≡ dimension field n rows → AreIndependentColumns field rows set → IsSystematic field n rows set e →
        systematic field n rows set ≡ e }
{}

/// The records of a true checkpoint of either version that a session uses start it truly, with the codes'
/// own divisors, and all of them fit.
pub fn true_checkpoints_start_true_sessions()
    ensures starts { (needs : List Matrix) (digest : List ℕ) (budget : ℕ) (p : Checkpoint) →
        IsTrueFor needs digest budget p → IsTrueStart divisor_of needs budget (start_of needs p) }
    ensures fits { (needs : List Matrix) (digest : List ℕ) (budget : ℕ) (p : Checkpoint) →
        All (λ (C : Matrix). 0 < length C.rows) needs → IsTrueFor needs digest budget p →
        misfit_of needs budget p ≡ None }
{}
