//! What syndromes, distances, messages and sums of codes obey, as the contracts of functions that do nothing.
ghost use Rattle.std.specs.Prelude.{◌≡◌, ℕ, ◌+◌, ◌≤◌, ◌↔◌, List, length};
ghost use Rattle.lc_algebra.specs.declared.FieldName.{FieldName};
ghost use Rattle.lc_algebra.specs.Word.{IsWord, zero_word, distance};
ghost use Rattle.lc_algebra.specs.Span.{combine};
ghost use Rattle.lc_algebra.specs.Matrix.{Matrix, AreRows, IsReduced};
ghost use Rattle.lc_constructions.specs.Code.{InCode, IsCode};
ghost use Rattle.lc_constructions.specs.Basic.{GeneratedBy};
ghost use Rattle.lc_constructions.specs.Combined.{InDual, InIntersection};
ghost use Rattle.lc_constructions.specs.Coset.{AreInOneCoset, syndrome};
ghost use Rattle.lc_language.specs.Relations.{hamming_distance, IsMessageOf, InAugmented, InUnion};

/// The syndrome of a word is zero exactly if the word is in the code, and two words have one syndrome exactly if they differ by a
/// word of the code. H is the dual code of C (MacWilliams and Sloane, chapter 1).
pub fn syndromes_tell_cosets()
    ensures zero { (C H : Matrix) (x : List ℕ) → AreRows C.field C.columns C.rows → IsReduced C.columns C.rows →
        IsCode C.field C.columns (InDual C) H → IsWord C.field C.columns x →
        (syndrome C.field H.rows x ≡ zero_word (length H.rows)) ↔ InCode C x }
    ensures same { (C H : Matrix) (x y : List ℕ) → AreRows C.field C.columns C.rows → IsReduced C.columns C.rows →
        IsCode C.field C.columns (InDual C) H → IsWord C.field C.columns x → IsWord C.field C.columns y →
        (syndrome C.field H.rows x ≡ syndrome C.field H.rows y) ↔ AreInOneCoset C x y }
{}

/// The Hamming distance is a metric on the lists of one length: it is 0 exactly for equal lists, it is the same from either side,
/// and no shorter by way of a third list. Of words over a field it is the weight of their difference (MacWilliams and Sloane,
/// chapter 1).
pub fn distance_is_a_metric()
    ensures zero { (x y : List ℕ) → length x ≡ length y → (hamming_distance x y ≡ 0) ↔ (x ≡ y) }
    ensures turned { (x y : List ℕ) → hamming_distance x y ≡ hamming_distance y x }
    ensures triangle { (x y z : List ℕ) → length x ≡ length y → length y ≡ length z →
        hamming_distance x z ≤ hamming_distance x y + hamming_distance y z }
    ensures weight { (f : FieldName) (n : ℕ) (x y : List ℕ) → IsWord f n x → IsWord f n y →
        hamming_distance x y ≡ distance f x y }
{}

/// Each message has a codeword, each codeword is that of exactly one message, and the message of the codeword of a message is this
/// message (MacWilliams and Sloane, chapter 1).
pub fn encoding_is_one_to_one()
    ensures inside { (C : Matrix) (u : List ℕ) → IsWord C.field (length C.rows) u →
        InCode C (combine C.field C.columns u C.rows) }
    ensures some { (C : Matrix) (c : List ℕ) → AreRows C.field C.columns C.rows → IsReduced C.columns C.rows →
        InCode C c → (u : List ℕ) × IsMessageOf C c u }
    ensures back { (C : Matrix) (u : List ℕ) → AreRows C.field C.columns C.rows → IsReduced C.columns C.rows →
        IsWord C.field (length C.rows) u → IsMessageOf C (combine C.field C.columns u C.rows) u }
{}

/// U is the sum of C and D, I their intersection, H and K are the duals of C and D, and E is that of U. The dual of the sum is the
/// intersection of the duals; the dimensions of the sum and of the intersection add up to those of C and D; and a code with further
/// rows is the sum of the code and of the one that the rows generate (MacWilliams and Sloane, chapter 1; any textbook's linear
/// algebra).
pub fn sums_of_codes()
    ensures dual { (C D U H K E : Matrix) → C.field ≡ D.field → C.columns ≡ D.columns →
        AreRows C.field C.columns C.rows → AreRows D.field D.columns D.rows → IsCode C.field C.columns (InUnion C D) U →
        IsCode C.field C.columns (InDual C) H → IsCode C.field C.columns (InDual D) K →
        IsCode C.field C.columns (InDual U) E →
        IsCode C.field C.columns (InIntersection H K) E }
    ensures dimension { (C D U I : Matrix) → C.field ≡ D.field → C.columns ≡ D.columns →
        AreRows C.field C.columns C.rows → IsReduced C.columns C.rows → AreRows D.field D.columns D.rows →
        IsReduced D.columns D.rows → IsCode C.field C.columns (InUnion C D) U →
        IsCode C.field C.columns (InIntersection C D) I →
        length U.rows + length I.rows ≡ length C.rows + length D.rows }
    ensures augmented { (C D E : Matrix) (rows : List (List ℕ)) → AreRows C.field C.columns rows →
        IsCode C.field C.columns (GeneratedBy C.field C.columns rows) D →
        IsCode C.field C.columns (InAugmented C rows) E → IsCode C.field C.columns (InUnion C D) E }
{}
