//! What traces, trace codes and subfield subcodes obey, as the contracts of functions that do nothing.
ghost use Rattle.std.specs.Prelude.{◌≡◌, ◌<◌, ℕ, IsTrue};
ghost use Rattle.lc_algebra.specs.declared.FieldName.{FieldName};
ghost use Rattle.lc_algebra.specs.Field.{size, is_symbol, add, mul};
ghost use Rattle.lc_algebra.specs.Embedding.{IsSubfield, embed};
ghost use Rattle.lc_algebra.specs.Matrix.{Matrix, AreRows, IsReduced};
ghost use Rattle.lc_constructions.specs.Code.{IsCode};
ghost use Rattle.lc_constructions.specs.Combined.{InDual};
ghost use Rattle.lc_language.specs.Trace.{IsTrace, InTrace, InSubfieldSubcode};

/// F is a subfield of the symbol field K. Each element of K has one trace in F, and each element of F is a trace. The trace of a sum is
/// the sum of the traces; that of a multiple by an element of F is the multiple of the trace; and an element all of whose multiples have
/// trace 0 is 0 (MacWilliams and Sloane, chapter 4).
pub fn traces_are_linear_and_onto()
    ensures exists { (F K : FieldName) (a : ℕ) → IsTrue (is_symbol K) → IsSubfield F K → a < size K →
        (b : ℕ) × IsTrace F K a b }
    ensures once { (F K : FieldName) (a b c : ℕ) → IsSubfield F K → IsTrace F K a b → IsTrace F K a c → b ≡ c }
    ensures onto { (F K : FieldName) (b : ℕ) → IsTrue (is_symbol K) → IsSubfield F K → b < size F →
        (a : ℕ) × (a < size K) × IsTrace F K a b }
    ensures sums { (F K : FieldName) (a b c d : ℕ) → IsTrue (is_symbol K) → IsSubfield F K →
        a < size K → c < size K → IsTrace F K a b → IsTrace F K c d → IsTrace F K (add K a c) (add F b d) }
    ensures multiples { (F K : FieldName) (c a b : ℕ) → IsTrue (is_symbol K) → IsSubfield F K →
        c < size F → a < size K → IsTrace F K a b → IsTrace F K (mul K (embed F K c) a) (mul F c b) }
    ensures form { (F K : FieldName) (a : ℕ) → IsTrue (is_symbol K) → IsSubfield F K → a < size K →
        ((x : ℕ) → x < size K → IsTrace F K (mul K x a) 0) → a ≡ 0 }
{}

/// H is the dual of C, and F a subfield of the field of C. The trace code of H to F is the dual of the subfield subcode of C over F
/// (Delsarte; MacWilliams and Sloane, chapter 7).
pub fn subfield_subcodes_are_dual_to_traces()
    ensures dual { (C H S T : Matrix) (F : FieldName) → IsTrue (is_symbol C.field) → IsSubfield F C.field →
        AreRows C.field C.columns C.rows → IsReduced C.columns C.rows → IsCode C.field C.columns (InDual C) H →
        IsCode F C.columns (InSubfieldSubcode C F) S → IsCode F C.columns (InTrace H F) T →
        IsCode F C.columns (InDual S) T }
{}
