//! What filling in erased symbols obeys, as the contracts of functions that do nothing.
ghost use Rattle.std.specs.Prelude.{◌≡◌, ◌≢◌, ◌<◌, ◌↔◌, ℕ, List, None, length};
ghost use Rattle.lc_algebra.specs.Word.{IsWord, zero_word};
ghost use Rattle.lc_algebra.specs.Span.{IsDistance};
ghost use Rattle.lc_algebra.specs.Matrix.{Matrix, AreRows};
ghost use Rattle.lc_constructions.specs.Code.{InCode};
ghost use Rattle.lc_constructions.specs.Refusal.{first_refusal};
ghost use Rattle.lc_language.specs.Erasures.{erased_refusals, AgreesOff, Fills, Filling, filled, ambiguous, IsFilling};

/// Several codewords agree with a word off its erasures exactly if one does and some nonzero codeword is 0 off them. So fewer
/// erasures than the minimum distance d leave at most one, and if the word is a codeword that was changed at fewer than d
/// coordinates, all erased, it is that codeword (MacWilliams and Sloane, chapter 1).
pub fn erasures_below_the_distance()
    ensures several { (C : Matrix) (x erased : List ℕ) → AreRows C.field C.columns C.rows →
        IsWord C.field C.columns x →
        IsFilling C x erased ambiguous ↔ (((v : List ℕ) × Fills C x erased v)
        × ((w : List ℕ) × (w ≢ zero_word C.columns) × Fills C (zero_word C.columns) erased w)) }
    ensures one { (C : Matrix) (x erased : List ℕ) (d : ℕ) → AreRows C.field C.columns C.rows →
        IsWord C.field C.columns x → IsDistance C.field C.columns C.rows d →
        first_refusal (erased_refusals C erased) ≡ None → length erased < d →
        IsFilling C x erased ambiguous → ⊥ }
    ensures corrected { (C : Matrix) (x c erased : List ℕ) (d : ℕ) (a : Filling) →
        AreRows C.field C.columns C.rows → IsWord C.field C.columns x →
        IsDistance C.field C.columns C.rows d →
        first_refusal (erased_refusals C erased) ≡ None → length erased < d →
        InCode C c → AgreesOff erased c x → IsFilling C x erased a → a ≡ filled c }
{}
