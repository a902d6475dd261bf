//! What the codes of construction X obey, as the contract of a function that does nothing.
ghost use Rattle.std.specs.Prelude.{◌≡◌, ◌↔◌, ℕ, ◌+◌, ◌-◌, ◌≤◌, List, ◌++◌, length};
ghost use Rattle.lc_algebra.specs.Word.{zero_word, word_sum};
ghost use Rattle.lc_algebra.specs.Span.{IsWeightBound};
ghost use Rattle.lc_algebra.specs.Matrix.{Matrix};
ghost use Rattle.lc_constructions.specs.Code.{InCode, IsCode};
ghost use Rattle.lc_language.specs.Relations.{IsSubcode};
ghost use Rattle.lc_language.specs.ConstructionX.{InComplement, InConstructionX};
ghost use Rattle.lc_extend.specs.Told.{AreExtendable};

/// Construction X of a code C, a subcode D and a code E with dim E = dim C - dim D gives a code X of the dimension of C. Its
/// words with a zero tail are those of D, followed by zeros. If no nonzero word of D is lighter than a, none of C lighter than b,
/// and none of E lighter than c, then none of X is lighter than the least of a and b + c. Each word of C is the sum of a word of
/// D and one of the complement, which have only the zero word in common (MacWilliams and Sloane, chapter 18).
pub fn construction_x_extends()
    ensures dimension { (C D E X : Matrix) → AreExtendable C D E →
        IsCode C.field (C.columns + E.columns) (InConstructionX C D E) X → length X.rows ≡ length C.rows }
    ensures zero_tail { (C D E X : Matrix) (u : List ℕ) → AreExtendable C D E →
        IsCode C.field (C.columns + E.columns) (InConstructionX C D E) X → length u ≡ C.columns →
        InCode X (u ++ zero_word E.columns) ↔ InCode D u }
    ensures bound { (C D E X : Matrix) (a b c t : ℕ) → AreExtendable C D E →
        IsCode C.field (C.columns + E.columns) (InConstructionX C D E) X →
        IsWeightBound D.field D.columns D.rows a → IsWeightBound C.field C.columns C.rows b →
        IsWeightBound E.field E.columns E.rows c → t ≤ a → t ≤ b + c →
        IsWeightBound X.field X.columns X.rows t }
    ensures parted { (C D E : Matrix) (w : List ℕ) → AreExtendable C D E → InCode C w →
        (u : List ℕ) × ((v : List ℕ) × InCode D u × InComplement C D v × (w ≡ word_sum C.field u v)) }
    ensures only_zero { (C D E : Matrix) (w : List ℕ) → AreExtendable C D E → InCode D w → InComplement C D w →
        w ≡ zero_word C.columns }
{}
