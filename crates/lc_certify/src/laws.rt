//! The laws of the certificates that queries print.
//!
//! Each function proves what its clauses say and does nothing when it is run.
ghost use Rattle.std.specs.Prelude.{◌≡◌, ℕ, ◌^◌, ◌≤◌, ◌⊎◌, List};
ghost use Rattle.lc_algebra.specs.Word.{IsWord};
ghost use Rattle.lc_algebra.specs.Matrix.{Matrix};
ghost use Rattle.lc_algebra.specs.Divisor.{divisor_of};
ghost use Rattle.lc_enumeration.specs.Search.{Found, exact, answer};
ghost use Rattle.lc_formats.specs.Certificate.{cost, IsValid};
ghost use Rattle.lc_formats.specs.Shape.{IsShaped};
ghost use Rattle.lc_language.specs.Query.{QueryKind, word_at_place, certificate_of, certificate_answer_line};
ghost use Rattle.lc_certify.specs.Accepted.{IsSearchable, IsExactAt, SaysNone, IsAcceptedFor};

/// What the queries for a certificate print is accepted. The certificate of an exact answer has the shape, and is valid if its cost
/// is at most 2^32. So the line that such a query prints, for any searchable code and any budget, either says that there is none, or
/// `check` answers to it that it is accepted, with the minimum distance of the code.
pub fn printed_certificates_are_accepted()
    ensures shaped { (kind : QueryKind) (C : Matrix) (w : List ℕ) (d l : ℕ) → IsSearchable C →
        IsWord C.field C.columns w → IsExactAt C w d l → IsShaped (certificate_of kind C w d l) }
    ensures valid { (kind : QueryKind) (C : Matrix) (w : List ℕ) (d l : ℕ) → IsSearchable C →
        IsWord C.field C.columns w → IsExactAt C w d l → cost (certificate_of kind C w d l) ≤ 2 ^ 32 →
        IsValid (certificate_of kind C w d l) }
    ensures exact { (C : Matrix) (budget l : ℕ) (x : Found) → IsSearchable C →
        answer (divisor_of C) C budget ≡ exact x l →
        IsExactAt C (word_at_place C x.place) x.weight l × IsWord C.field C.columns (word_at_place C x.place) }
    ensures printed { (kind : QueryKind) (C : Matrix) (budget : ℕ) → IsSearchable C →
        SaysNone (certificate_answer_line kind C (answer (divisor_of C) C budget))
        ⊎ IsAcceptedFor C (certificate_answer_line kind C (answer (divisor_of C) C budget)) }
{}
