//! What the parts of a combined code tell of it, as the contracts of functions that do nothing.
ghost use Rattle.std.specs.Prelude.{◌≡◌, ℕ, ◌+◌, ◌-◌, ◌*◌, ◌<◌, ◌≤◌, ◌↔◌, max, List, [], ◌∷◌, ◌++◌, None, IsTrue, length, replicate};
ghost use Rattle.lc_algebra.specs.declared.FieldName.TheVariants.{Gf2};
ghost use Rattle.lc_algebra.specs.Field.{is_symbol, size, neg};
ghost use Rattle.lc_algebra.specs.Word.{IsWord, word_sum, scale};
ghost use Rattle.lc_algebra.specs.Span.{IsWeightBound};
ghost use Rattle.lc_algebra.specs.Matrix.{Matrix, AreRows, IsReduced};
ghost use Rattle.lc_algebra.specs.Divisor.{rounded};
ghost use Rattle.lc_constructions.specs.Code.{InCode, IsCode};
ghost use Rattle.lc_constructions.specs.Combined.{InDual, InExtended, InPunctured, InShortened, InDirectSum, InUuv, InDirectProduct};
ghost use Rattle.lc_constructions.specs.Concatenated.{InConcatenated};
ghost use Rattle.lc_constructions.specs.Refusal.{first_refusal};
ghost use Rattle.lc_constructions.specs.Refusals.{deleted_refusals, concatenated_refusals};

/// The least weights of combined codes. If all nonzero words of C have weight at least d, and those of D at least e, then those of
/// the direct sum have weight at least the smaller of d and e, those of (u | u + v) at least the smaller of 2d and e, and those of
/// a shortened or an extended code of C at least d. Those of a direct product and of a concatenated code have weight at least the
/// product of d and e. Those of C punctured at m coordinates have weight at least d - m, and those of an extended code over 2
/// elements have even weight, so a bound of their weights may be rounded up to a multiple of 2 (MacWilliams and Sloane, chapters 1,
/// 2, 10 and 18).
pub fn combined_codes_are_heavy()
    ensures direct_sum { (C D E : Matrix) (n d e b : ℕ) → IsCode C.field n (InDirectSum C D) E →
        IsWeightBound C.field C.columns C.rows d → IsWeightBound D.field D.columns D.rows e → b ≤ d → b ≤ e →
        IsWeightBound E.field E.columns E.rows b }
    ensures uuv { (C D E : Matrix) (n d e b : ℕ) → C.field ≡ D.field → C.columns ≡ D.columns →
        AreRows C.field C.columns C.rows → AreRows D.field D.columns D.rows → IsCode C.field n (InUuv C D) E →
        IsWeightBound C.field C.columns C.rows d → IsWeightBound D.field D.columns D.rows e → b ≤ 2 * d → b ≤ e →
        IsWeightBound E.field E.columns E.rows b }
    ensures shortened { (C E : Matrix) (coordinates : List ℕ) (n d : ℕ) →
        IsCode C.field n (InShortened C coordinates) E → IsWeightBound C.field C.columns C.rows d →
        IsWeightBound E.field E.columns E.rows d }
    ensures direct_product { (C D E : Matrix) (n d e : ℕ) → C.field ≡ D.field → AreRows C.field C.columns C.rows →
        AreRows D.field D.columns D.rows → IsCode C.field n (InDirectProduct C D) E →
        IsWeightBound C.field C.columns C.rows d → IsWeightBound D.field D.columns D.rows e →
        IsWeightBound E.field E.columns E.rows (d * e) }
    ensures concatenated { (C D E : Matrix) (n d e : ℕ) → IsTrue (is_symbol C.field) →
        AreRows C.field C.columns C.rows → AreRows D.field D.columns D.rows → IsReduced D.columns D.rows →
        first_refusal (concatenated_refusals C D) ≡ None → IsCode D.field n (InConcatenated C D) E →
        IsWeightBound C.field C.columns C.rows d → IsWeightBound D.field D.columns D.rows e →
        IsWeightBound E.field E.columns E.rows (d * e) }
    ensures extended { (C E : Matrix) (n d : ℕ) → AreRows C.field C.columns C.rows → IsCode C.field n (InExtended C) E →
        IsWeightBound C.field C.columns C.rows d → IsWeightBound E.field E.columns E.rows d }
    ensures punctured { (C E : Matrix) (coordinates : List ℕ) (n d : ℕ) → AreRows C.field C.columns C.rows →
        first_refusal (deleted_refusals C coordinates) ≡ None → IsCode C.field n (InPunctured C coordinates) E →
        IsWeightBound C.field C.columns C.rows d →
        IsWeightBound E.field E.columns E.rows (max 1 (d - length coordinates)) }
    ensures extended_evenly { (C E : Matrix) (n d : ℕ) → C.field ≡ Gf2 → AreRows C.field C.columns C.rows →
        IsCode C.field n (InExtended C) E → IsWeightBound E.field E.columns E.rows d →
        IsWeightBound E.field E.columns E.rows (rounded 2 d) }
{}

/// Shortening a code is the dual of puncturing its dual: H is the dual code of C, P is H without these coordinates and S is C
/// shortened at them (MacWilliams and Sloane, chapter 1).
pub fn shortening_is_dual_to_puncturing()
    ensures dual { (C H P S : Matrix) (coordinates : List ℕ) → AreRows C.field C.columns C.rows →
        IsReduced C.columns C.rows → first_refusal (deleted_refusals C coordinates) ≡ None →
        IsCode C.field C.columns (InDual C) H →
        IsCode C.field (C.columns - length coordinates) (InPunctured H coordinates) P →
        IsCode C.field (C.columns - length coordinates) (InShortened C coordinates) S →
        IsCode C.field (C.columns - length coordinates) (InDual P) S }
{}

/// The dual of an extended code: a word w and after it a symbol a are in it exactly if w less a in each symbol is in the dual of
/// the code. So each word of the dual, with 0 after it, is in it, and the word of ones with 1 after it (MacWilliams and Sloane,
/// chapter 1). E is the extended code of C, and D is the dual of E.
pub fn dual_of_an_extended_code()
    ensures dual { (C E D : Matrix) → AreRows C.field C.columns C.rows →
        IsCode C.field (C.columns + 1) (InExtended C) E → IsCode C.field (C.columns + 1) (InDual E) D →
        (w : List ℕ) (a : ℕ) → IsWord C.field C.columns w → a < size C.field →
        InCode D (w ++ a ∷ []) ↔ InDual C (word_sum C.field w (scale C.field (neg C.field a) (replicate C.columns 1))) }
{}

/// The dimension of a direct sum, and of the words u followed by u + v, is the sum of the dimensions of the parts (MacWilliams and
/// Sloane, chapter 2).
pub fn dimensions_of_sums()
    ensures direct_sum { (C D E : Matrix) → C.field ≡ D.field → AreRows C.field C.columns C.rows →
        IsReduced C.columns C.rows → AreRows D.field D.columns D.rows → IsReduced D.columns D.rows →
        IsCode C.field (C.columns + D.columns) (InDirectSum C D) E → length E.rows ≡ length C.rows + length D.rows }
    ensures uuv { (C D E : Matrix) → C.field ≡ D.field → C.columns ≡ D.columns → AreRows C.field C.columns C.rows →
        IsReduced C.columns C.rows → AreRows D.field D.columns D.rows → IsReduced D.columns D.rows →
        IsCode C.field (C.columns + D.columns) (InUuv C D) E → length E.rows ≡ length C.rows + length D.rows }
{}

/// The dimension of a direct product is the product of the dimensions of the parts. That of a concatenated code is the dimension of
/// the outer code times the one of the inner code, which is the degree of the outer field over the inner one (MacWilliams and Sloane,
/// chapters 10 and 18).
pub fn dimensions_of_products()
    ensures direct_product { (C D E : Matrix) → C.field ≡ D.field → AreRows C.field C.columns C.rows →
        IsReduced C.columns C.rows → AreRows D.field D.columns D.rows → IsReduced D.columns D.rows →
        IsCode C.field (C.columns * D.columns) (InDirectProduct C D) E → length E.rows ≡ length C.rows * length D.rows }
    ensures concatenated { (C D E : Matrix) → IsTrue (is_symbol C.field) → AreRows C.field C.columns C.rows →
        IsReduced C.columns C.rows → AreRows D.field D.columns D.rows → IsReduced D.columns D.rows →
        first_refusal (concatenated_refusals C D) ≡ None →
        IsCode D.field (C.columns * D.columns) (InConcatenated C D) E → length E.rows ≡ length C.rows * length D.rows }
{}

/// An extended code has the dimension of its code, and so has a code that is punctured at fewer coordinates than its least weight
/// (MacWilliams and Sloane, chapter 1).
pub fn dimensions_of_changed_codes()
    ensures punctured { (C P : Matrix) (coordinates : List ℕ) (d : ℕ) → AreRows C.field C.columns C.rows →
        IsReduced C.columns C.rows → first_refusal (deleted_refusals C coordinates) ≡ None →
        IsWeightBound C.field C.columns C.rows d → length coordinates < d →
        IsCode C.field (C.columns - length coordinates) (InPunctured C coordinates) P → length P.rows ≡ length C.rows }
    ensures extended { (C E : Matrix) → AreRows C.field C.columns C.rows → IsReduced C.columns C.rows →
        IsCode C.field (C.columns + 1) (InExtended C) E → length E.rows ≡ length C.rows }
{}
