//! The dimensions of the plain families.
ghost use Rattle.std.specs.Prelude.{◌≡◌, ℕ, ◌+◌, ◌^◌, ◌≤◌, length};
ghost use Rattle.std.specs.List.{sum_by};
ghost use Rattle.lc_algebra.specs.declared.FieldName.TheVariants.{Gf2};
ghost use Rattle.lc_algebra.specs.Field.{size};
ghost use Rattle.lc_algebra.specs.Span.{below, AreIndependent};
ghost use Rattle.lc_algebra.specs.Matrix.{Matrix};
ghost use Rattle.lc_constructions.specs.Code.{IsCode, CheckedBy};
ghost use Rattle.lc_constructions.specs.Basic.{GeneratedBy, IsConstant, IsAny, IsZero, hamming_checks, hamming_length, reed_muller_rows};
ghost use Rattle.lc_enumeration.specs.Message.{choose};

use lc_algebra::FieldName;

/// Repetition codes have dimension 1, the whole space has dimension n and null codes have dimension 0 (MacWilliams and Sloane,
/// chapter 1).
#[tactic(auto, using(crate::proofs::TrivialLaws::dimensions_of_trivial_codes_laws))]
pub fn dimensions_of_trivial_codes(field: FieldName)
    ensures repetition { (n : ℕ) (C : Matrix) → 1 ≤ n → IsCode field n IsConstant C → length C.rows ≡ 1 }
    ensures whole { (n : ℕ) (C : Matrix) → IsCode field n IsAny C → length C.rows ≡ n }
    ensures null { (n : ℕ) (C : Matrix) → IsCode field n IsZero C → length C.rows ≡ 0 }
{}

/// Hamming codes with `r` checks have dimension n - r, where n is their length (MacWilliams and Sloane, chapter 1).
#[tactic(auto, using(crate::proofs::HammingDimension::hamming_dimension))]
pub fn dimension_of_hamming_codes(field: FieldName)
    ensures hamming { (r : ℕ) (C : Matrix) →
        IsCode field (hamming_length (size field) r) (CheckedBy field (hamming_checks (size field) r)) C →
        length C.rows + r ≡ hamming_length (size field) r }
{}

/// The rows of a Reed-Muller code of order `r` in `m` variables, one for each product of at most `r` of them, are independent; so its
/// dimension is the sum of the binomial coefficients of m over 0 to r (MacWilliams and Sloane, chapter 13).
#[tactic(auto, using(crate::proofs::ReedMullerDimension::dimension_of_reed_muller_codes_laws))]
pub fn dimension_of_reed_muller_codes()
    ensures rows { (r m : ℕ) → AreIndependent Gf2 (2 ^ m) (reed_muller_rows r m) }
    ensures dimension { (r m : ℕ) (C : Matrix) → IsCode Gf2 (2 ^ m) (GeneratedBy Gf2 (2 ^ m) (reed_muller_rows r m)) C →
        length C.rows ≡ sum_by (choose m) (below (r + 1)) }
{}
