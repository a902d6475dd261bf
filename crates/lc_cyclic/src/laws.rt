//! The dimensions of cyclic codes, as the contracts of functions that do nothing.
ghost use Rattle.std.specs.Prelude.{◌≡◌, ◌≢◌, ◌↔◌, ℕ, ◌+◌, ◌-◌, ◌≤◌, List, length, AllPairs, Contains};
ghost use Rattle.lc_algebra.specs.declared.FieldName.TheVariants.{Gf2, Gf3};
ghost use Rattle.lc_algebra.specs.Field.{size};
ghost use Rattle.lc_algebra.specs.Polynomial.{poly_product, x_power_minus_one, SamePolynomial, IsPolynomial, Divides};
ghost use Rattle.lc_algebra.specs.Matrix.{Matrix};
ghost use Rattle.lc_constructions.specs.Code.{IsCode};
ghost use Rattle.lc_constructions.specs.Cyclic.{IsMultipleOf, IsCheckedBy, binary_golay_generator, ternary_golay_generator, IsLocatorField, exponents_from, IsBchWord, IsReedSolomonWord};
ghost use Rattle.lc_cyclic.specs.Exponents.{IsZeroExponent};

use lc_algebra::FieldName;

/// A cyclic code with a generator polynomial that divides x^n - 1 has dimension n less its degree, and one with a check polynomial
/// that divides it has the degree as its dimension. If the product of two polynomials is x^n - 1, the code that one of them generates
/// is the code that the other one checks (MacWilliams and Sloane, chapter 7).
pub fn dimensions_of_cyclic_codes(field: FieldName)
    ensures generator { (n : ℕ) (g : List ℕ) (C : Matrix) → 1 ≤ n → IsPolynomial field g →
        Divides field g (x_power_minus_one field n) → IsCode field n (IsMultipleOf field n g) C →
        length C.rows ≡ n - (length g - 1) }
    ensures check { (n : ℕ) (h : List ℕ) (C : Matrix) → 1 ≤ n → IsPolynomial field h →
        Divides field h (x_power_minus_one field n) → IsCode field n (IsCheckedBy field n h) C →
        length C.rows ≡ length h - 1 }
    ensures same { (n : ℕ) (g h : List ℕ) (C : Matrix) → 1 ≤ n → IsPolynomial field g → IsPolynomial field h →
        SamePolynomial (x_power_minus_one field n) (poly_product field g h) →
        IsCode field n (IsMultipleOf field n g) C ↔ IsCode field n (IsCheckedBy field n h) C }
{}

/// The binary Golay code has dimension 12, the ternary one 6 (MacWilliams and Sloane, chapter 20).
#[tactic(auto, using(crate::proofs::GolayLaws::dimensions_of_golay_codes_laws))]
pub fn dimensions_of_golay_codes()
    ensures binary { (C : Matrix) → IsCode Gf2 23 (IsMultipleOf Gf2 23 binary_golay_generator) C → length C.rows ≡ 12 }
    ensures ternary { (C : Matrix) → IsCode Gf3 11 (IsMultipleOf Gf3 11 ternary_golay_generator) C → length C.rows ≡ 6 }
{}

/// The dimension of a BCH code is its length less the number of exponents in the cyclotomic sets of `b` to `b + d - 2` modulo n, each
/// counted once. That of a Reed-Solomon code with design distance d is n - d + 1 (MacWilliams and Sloane, chapters 7 and 10).
pub fn dimensions_of_bch_codes(small: FieldName, large: FieldName)
    ensures bch { (n b d : ℕ) (xs : List ℕ) (C : Matrix) → 1 ≤ n → IsLocatorField small n large →
        AllPairs (λ x y. x ≢ y) xs →
        ((k : ℕ) → Contains xs k ↔ IsZeroExponent (size small) n (exponents_from b (d - 1)) k) →
        IsCode small n (IsBchWord small large n b d) C → length C.rows ≡ n - length xs }
    ensures reed_solomon { (n d : ℕ) (C : Matrix) → size small ≡ n + 1 → 1 ≤ d → d ≤ n →
        IsCode small n (IsReedSolomonWord small d) C → length C.rows ≡ n - d + 1 }
{}
