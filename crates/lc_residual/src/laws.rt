//! What residual codes obey, as the contract of a function that does nothing.
ghost use Rattle.std.specs.Prelude.{◌≡◌, ℕ, ◌+◌, ◌-◌, ◌*◌, ◌<◌, ◌≤◌, List, length, sum_by};
ghost use Rattle.lc_algebra.specs.declared.FieldName.{FieldName};
ghost use Rattle.lc_algebra.specs.Field.{size};
ghost use Rattle.lc_algebra.specs.Word.{IsWord, zero_word, word_sum, scale, weight};
ghost use Rattle.lc_algebra.specs.Span.{below, IsWeightBound};
ghost use Rattle.lc_algebra.specs.Matrix.{Matrix, AreRows, IsReduced};
ghost use Rattle.lc_constructions.specs.Code.{InCode, IsCode};
ghost use Rattle.lc_constructions.specs.Combined.{without};
ghost use Rattle.lc_language.specs.Relations.{IsSameCode};
ghost use Rattle.lc_language.specs.Residual.{support, InResidual};

/// R is the residual code of C, over q elements, at the word c of weight w, and no nonzero word of C is lighter than d. The weights of
/// the q words u + a c, of any word u, add up to (q - 1) w and q times the weight of u off the support of c. So each nonzero word of R
/// has weight at least d - w + w/q; and if (q - 1) w is below q d, as for a word of weight d, R has one dimension less than C. If c
/// has weight d, each nonzero word of R has weight at least d/q, the step of the bound of Griesmer. At the zero word R is C
/// (MacWilliams and Sloane, chapter 17).
pub fn residual_codes_keep_their_weights()
    ensures added { (f : FieldName) (n : ℕ) (u c : List ℕ) → IsWord f n u → IsWord f n c →
        sum_by (λ a. weight (word_sum f u (scale f a c))) (below (size f)) ≡
        (size f - 1) * weight c + size f * weight (without (support c) u) }
    ensures whole { (C R : Matrix) → AreRows C.field C.columns C.rows →
        IsCode C.field C.columns (InResidual C (zero_word C.columns)) R → IsSameCode R C }
    ensures bound { (C R : Matrix) (c v : List ℕ) (d : ℕ) → AreRows C.field C.columns C.rows → InCode C c →
        weight c < C.columns → IsWeightBound C.field C.columns C.rows d →
        IsCode C.field (C.columns - weight c) (InResidual C c) R → InCode R v → 0 < weight v →
        size C.field * d ≤ (size C.field - 1) * weight c + size C.field * weight v }
    ensures least { (C R : Matrix) (c v : List ℕ) (d : ℕ) → AreRows C.field C.columns C.rows → InCode C c →
        weight c < C.columns → IsWeightBound C.field C.columns C.rows d → weight c ≡ d →
        IsCode C.field (C.columns - weight c) (InResidual C c) R → InCode R v → 0 < weight v →
        d ≤ size C.field * weight v }
    ensures dimension { (C R : Matrix) (c : List ℕ) (d : ℕ) → AreRows C.field C.columns C.rows →
        IsReduced C.columns C.rows → InCode C c → 0 < weight c → weight c < C.columns →
        IsWeightBound C.field C.columns C.rows d → (size C.field - 1) * weight c < size C.field * d →
        IsCode C.field (C.columns - weight c) (InResidual C c) R → length R.rows + 1 ≡ length C.rows }
{}
