//! What circulant and quasi-cyclic codes obey, as the contract of a function that does nothing.
ghost use Rattle.std.specs.Prelude.{◌≡◌, ℕ, ◌*◌, ◌≤◌, List, [], ◌∷◌, length};
ghost use Rattle.lc_algebra.specs.declared.FieldName.{FieldName};
ghost use Rattle.lc_algebra.specs.Word.{IsWord};
ghost use Rattle.lc_algebra.specs.Matrix.{Matrix, AreRows};
ghost use Rattle.lc_constructions.specs.Code.{InCode, IsCode};
ghost use Rattle.lc_constructions.specs.Basic.{GeneratedBy};
ghost use Rattle.lc_language.specs.Relations.{IsSubcode, IsCyclic};
ghost use Rattle.lc_language.specs.Circulant.{circulant, circulants, joined, IsQuasiCyclic};

/// The code of the circulant matrices of some words is quasi-cyclic, contains the words one after the other, and lies in each
/// quasi-cyclic code that contains them. That of one word is its circulant code, which is cyclic and lies in each cyclic code
/// that contains the word (MacWilliams and Sloane, chapter 16).
pub fn circulants_shift()
    ensures closed { (f : FieldName) (n : ℕ) (xs : List (List ℕ)) (C : Matrix) → 1 ≤ n → AreRows f n xs →
        IsCode f (length xs * n) (GeneratedBy f (length xs * n) (circulants n xs)) C → IsQuasiCyclic n C }
    ensures contains { (f : FieldName) (n : ℕ) (xs : List (List ℕ)) (C : Matrix) → 1 ≤ n → AreRows f n xs →
        IsCode f (length xs * n) (GeneratedBy f (length xs * n) (circulants n xs)) C → InCode C (joined xs) }
    ensures smallest { (f : FieldName) (n : ℕ) (xs : List (List ℕ)) (C D : Matrix) → AreRows f n xs →
        IsCode f (length xs * n) (GeneratedBy f (length xs * n) (circulants n xs)) C →
        AreRows D.field D.columns D.rows → D.field ≡ f → D.columns ≡ length xs * n →
        IsQuasiCyclic n D → InCode D (joined xs) → IsSubcode C D }
    ensures one { (n : ℕ) (x : List ℕ) → circulants n (x ∷ []) ≡ circulant n x }
    ensures cyclic { (f : FieldName) (n : ℕ) (x : List ℕ) (C : Matrix) → 1 ≤ n → IsWord f n x →
        IsCode f n (GeneratedBy f n (circulant n x)) C → IsCyclic C }
    ensures smallest_cyclic { (f : FieldName) (n : ℕ) (x : List ℕ) (C D : Matrix) → 1 ≤ n → IsWord f n x →
        IsCode f n (GeneratedBy f n (circulant n x)) C → AreRows D.field D.columns D.rows → D.field ≡ f →
        D.columns ≡ n → IsCyclic D → InCode D x → IsSubcode C D }
{}
