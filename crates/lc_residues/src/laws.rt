//! What quadratic residue codes obey, as the contracts of functions that do nothing.
ghost use Rattle.std.specs.Prelude.{◌≡◌, ◌≢◌, ◌↔◌, ℕ, ◌+◌, ◌/◌, ◌<◌, ◌≤◌, ◌%◌, true, false, IsTrue, List, length, replicate};
ghost use Rattle.lc_algebra.specs.Field.{size, is_symbol};
ghost use Rattle.lc_algebra.specs.Matrix.{Matrix};
ghost use Rattle.lc_constructions.specs.Code.{InCode, IsCode};
ghost use Rattle.lc_constructions.specs.Basic.{IsConstant};
ghost use Rattle.lc_language.specs.Relations.{IsCyclic};
ghost use Rattle.lc_language.specs.QuadraticResidues.{is_odd_prime, is_residue, is_residue_length, is_period, period};
ghost use Rattle.lc_language.specs.QuadraticResidues.{residue_word, InResidueCode, multiplied, IsQuadraticResidueCode};
ghost use Rattle.lc_residues.specs.Periods.{other_period};

use lc_algebra::FieldName;

/// C is the code of the element t, and D that of -1 - t; both are of the same length n, an odd prime. C is cyclic, it has the word of
/// ones and the residue word of t, and it is kept if the coordinates are multiplied by a quadratic residue; the words of D are exactly
/// those of C with their coordinates multiplied by another number, so that both are equivalent (MacWilliams and Sloane, chapter 16).
pub fn residue_codes_have_their_symmetries(field: FieldName)
    ensures cyclic { (n t : ℕ) (C : Matrix) → IsCode field n (InResidueCode field n t) C → IsCyclic C }
    ensures ones { (n t : ℕ) (C : Matrix) → IsCode field n (InResidueCode field n t) C → InCode C (replicate n 1) }
    ensures word { (n t : ℕ) (C : Matrix) → 0 < n → IsCode field n (InResidueCode field n t) C →
        InCode C (residue_word field n t) }
    ensures kept { (n t r : ℕ) (C : Matrix) (w : List ℕ) → n ≤ 255 → is_odd_prime n ≡ true →
        IsTrue (is_residue n r) → IsCode field n (InResidueCode field n t) C → InCode C w →
        InCode C (multiplied n r w) }
    ensures exchanged { (n t r : ℕ) (C D : Matrix) (w : List ℕ) → n ≤ 255 → is_odd_prime n ≡ true → r % n ≢ 0 →
        is_residue n r ≡ false → IsCode field n (InResidueCode field n t) C →
        IsCode field n (InResidueCode field n (other_period field t)) D → length w ≡ n →
        InCode C w ↔ InCode D (multiplied n r w) }
{}

/// The size of the field is a quadratic residue modulo n, an odd prime below 256. Then the least period is a period, no period has a
/// smaller number, and there is another one; the code of each period has dimension (n + 1) / 2; a word of the codes of both has equal
/// symbols; and the code of the least period is a quadratic residue code: it is given by its reduced generator matrix, is cyclic, has
/// the word of ones and this dimension, and the multiplication of the coordinates by a residue keeps it (MacWilliams and Sloane,
/// chapter 16).
pub fn quadratic_residue_codes(field: FieldName)
    ensures least { (n : ℕ) → IsTrue (is_symbol field) → n ≤ 255 → IsTrue (is_residue_length (size field) n) →
        (period field n < size field) × IsTrue (is_period field n (period field n)) }
    ensures first { (n t : ℕ) → t < size field → IsTrue (is_period field n t) → period field n ≤ t }
    ensures other { (n t : ℕ) → IsTrue (is_symbol field) → n ≤ 255 → IsTrue (is_residue_length (size field) n) →
        t < size field → IsTrue (is_period field n t) →
        (other_period field t < size field) × IsTrue (is_period field n (other_period field t)) ×
        (t ≢ other_period field t) }
    ensures dimension { (n t : ℕ) (C : Matrix) → IsTrue (is_symbol field) → n ≤ 255 →
        IsTrue (is_residue_length (size field) n) → t < size field → IsTrue (is_period field n t) →
        IsCode field n (InResidueCode field n t) C → length C.rows ≡ (n + 1) / 2 }
    ensures common { (n t : ℕ) (C D : Matrix) (w : List ℕ) → IsTrue (is_symbol field) → n ≤ 255 →
        IsTrue (is_residue_length (size field) n) → t < size field → IsTrue (is_period field n t) →
        IsCode field n (InResidueCode field n t) C →
        IsCode field n (InResidueCode field n (other_period field t)) D → InCode C w → InCode D w → IsConstant w }
    ensures code { (n : ℕ) (C : Matrix) → IsTrue (is_symbol field) → n ≤ 255 →
        IsTrue (is_residue_length (size field) n) → IsCode field n (InResidueCode field n (period field n)) C →
        IsQuadraticResidueCode field n C }
{}
