//! The laws of the definitions, as the contracts of functions that do nothing: what a reader of the definitions may expect of
//! them, and what the crates above rest on.

ghost use Rattle.std.specs.Prelude.{◌≡◌, ◌≢◌, ℕ, suc, ◌+◌, ◌-◌, ◌*◌, ◌%◌, ◌/◌, ◌<◌, ◌≤◌, ◌↔◌, List, [], ◌∷◌, ◌++◌, length, map, Option, Some, None, IsTrue, Contains, AllPairs, slice_index_or};
ghost use Rattle.lc_algebra.specs.declared.FieldName.{FieldName};
ghost use Rattle.lc_algebra.specs.declared.FieldName.TheVariants.{Gf2};
ghost use Rattle.lc_algebra.specs.Residue.{number};
ghost use Rattle.lc_algebra.specs.Field.{size, is_symbol, IsInverse, HasOrder};
ghost use Rattle.lc_algebra.specs.Polynomial.{value_at, IsPolynomial};
ghost use Rattle.lc_algebra.specs.Embedding.{IsSubfield, embed};
ghost use Rattle.lc_algebra.specs.Word.{Fits, IsWord, zero_word, difference};
ghost use Rattle.lc_algebra.specs.Span.{IsWeightBound};
ghost use Rattle.lc_algebra.specs.Matrix.{Matrix, AreRows};
ghost use Rattle.lc_constructions.specs.Code.{is_length, IsCode, IsClosed};
ghost use Rattle.lc_constructions.specs.Basic.{all_lists, hamming_columns};
ghost use Rattle.lc_constructions.specs.Cyclic.{IsLocatorField, locator_field, IsBchWord, IsReedSolomonWord};
ghost use Rattle.lc_constructions.specs.Alternant.{AlternantForm, IsForm, IsFormOf, inverse, IsAlternantWord, IsGoppaWord, goppa_form, bch_form};
ghost use Rattle.lc_constructions.specs.Goppa.{AreCongruent, AreFractions, fraction_sum, IsGoppaWordByFractions};
ghost use Rattle.lc_constructions.specs.Combined.{InDual, InExtended, InPunctured, InShortened, InEvenWeight, InDirectSum, InUuv, InDirectProduct, InIntersection};
ghost use Rattle.lc_constructions.specs.Concatenated.{IsExpansion, InConcatenated};
ghost use Rattle.lc_constructions.specs.Coset.{AreInOneCoset, IsLeader, syndrome, IsParityCheck, IsLeaderTable};
ghost use Rattle.lc_constructions.specs.Nearest.{IsNearest, IsWithin, IsDecoded};
ghost use Rattle.lc_constructions.specs.Refusals.{degree_over, deleted_refusals};
ghost use Rattle.lc_constructions.specs.Refusal.{first_refusal};

use lc_algebra::FieldName;

/// Each received word of the code's length has exactly one nearest word, and decoding within half of an alternant form's checks
/// has at most one answer. (MacWilliams and Sloane, chapter 1.)
#[tactic(auto, using(crate::proofs::NearestLaws::decoding_has_one_answer_laws))]
pub fn decoding_has_one_answer()
    ensures some_nearest { (C : Matrix) (x : List ℕ) → AreRows C.field C.columns C.rows → length x ≡ C.columns →
        (w : List ℕ) × IsNearest C x w }
    ensures one_nearest { (C : Matrix) (x u v : List ℕ) → AreRows C.field C.columns C.rows →
        IsWord C.field C.columns x → IsNearest C x u → IsNearest C x v → u ≡ v }
    ensures one_decoded { (C : Matrix) (form : AlternantForm) (x : List ℕ) (o p : Option (List ℕ)) →
        IsDecoded C form x o → IsDecoded C form x p → o ≡ p }
{}

/// The words of an alternant form are a linear code, and each nonzero word of the code has weight at least r + 1. So at most one
/// word of the code is within half of r of a received word, and decoding has an answer. (MacWilliams and Sloane, chapter 12.)
pub fn alternant_words_are_heavy()
    ensures closed { (f : FieldName) (form : AlternantForm) (n : ℕ) → IsSubfield f form.locator →
        IsClosed f n (IsAlternantWord f form) }
    ensures form { (f : FieldName) (form : AlternantForm) (C : Matrix) → IsForm f form →
        IsCode f (length form.points) (IsAlternantWord f form) C → IsFormOf C form }
    ensures bound { (C : Matrix) (form : AlternantForm) → IsFormOf C form →
        IsWeightBound C.field C.columns C.rows (form.r + 1) }
    ensures one_within { (C : Matrix) (form : AlternantForm) (x u v : List ℕ) → AreRows C.field C.columns C.rows →
        IsFormOf C form → IsWord C.field C.columns x → IsWithin C x (form.r / 2) u → IsWithin C x (form.r / 2) v →
        u ≡ v }
    ensures some_decoded { (C : Matrix) (form : AlternantForm) (x : List ℕ) → AreRows C.field C.columns C.rows →
        IsFormOf C form → IsWord C.field C.columns x → (o : Option (List ℕ)) × IsDecoded C form x o }
{}

/// The words of each combined code are a linear code: the zero word is one of them, and so are their sums and multiples. The rows
/// of the parts are words over their fields. (MacWilliams and Sloane, chapters 1, 2, 10 and 18.)
pub fn combined_codes_are_linear()
    ensures dual { (C : Matrix) → IsClosed C.field C.columns (InDual C) }
    ensures extended { (C : Matrix) → AreRows C.field C.columns C.rows →
        IsClosed C.field (C.columns + 1) (InExtended C) }
    ensures punctured { (C : Matrix) (coordinates : List ℕ) → AreRows C.field C.columns C.rows →
        first_refusal (deleted_refusals C coordinates) ≡ None →
        IsClosed C.field (C.columns - length coordinates) (InPunctured C coordinates) }
    ensures shortened { (C : Matrix) (coordinates : List ℕ) → AreRows C.field C.columns C.rows →
        first_refusal (deleted_refusals C coordinates) ≡ None →
        IsClosed C.field (C.columns - length coordinates) (InShortened C coordinates) }
    ensures even_weight { (C : Matrix) → AreRows C.field C.columns C.rows → C.field ≡ Gf2 →
        IsClosed C.field C.columns (InEvenWeight C) }
    ensures direct_sum { (C D : Matrix) → AreRows C.field C.columns C.rows → AreRows D.field D.columns D.rows →
        C.field ≡ D.field → IsClosed C.field (C.columns + D.columns) (InDirectSum C D) }
    ensures uuv { (C D : Matrix) → AreRows C.field C.columns C.rows → AreRows D.field D.columns D.rows →
        C.field ≡ D.field → C.columns ≡ D.columns → IsClosed C.field (C.columns + D.columns) (InUuv C D) }
    ensures direct_product { (C D : Matrix) → IsClosed C.field (C.columns * D.columns) (InDirectProduct C D) }
    ensures intersection { (C D : Matrix) → AreRows C.field C.columns C.rows → AreRows D.field D.columns D.rows →
        C.field ≡ D.field → C.columns ≡ D.columns → IsClosed C.field C.columns (InIntersection C D) }
    ensures concatenated { (C D : Matrix) → AreRows C.field C.columns C.rows → AreRows D.field D.columns D.rows →
        IsSubfield D.field C.field → IsClosed D.field (C.columns * D.columns) (InConcatenated C D) }
{}

/// The locator field that the divisibility test finds is the least field that holds the symbol field and an element of order n,
/// and none is found exactly if there is none. (MacWilliams and Sloane, chapters 4 and 7.)
pub fn locator_field_is_least(field: FieldName)
    ensures found { (n : ℕ) (K : FieldName) → 1 ≤ n → (locator_field field n ≡ Some K) ↔ IsLocatorField field n K }
    ensures none { (n : ℕ) → 1 ≤ n →
        (locator_field field n ≡ None) ↔ ((K : FieldName) → IsSubfield field K → (b : ℕ) → HasOrder K b n → ⊥) }
{}

/// The inverse of a nonzero element is an element, and their product is 1. (MacWilliams and Sloane, chapter 3.)
#[tactic(auto, using(crate::proofs::InverseLaws::inverse_is))]
pub fn inverse_inverts(field: FieldName)
    ensures is { (a : ℕ) → a < size field → 0 < a → IsInverse field a (inverse field a) }
{}

/// The code of a BCH, Reed-Solomon or Goppa constructor is the code of the alternant form that is made beside it. So its nonzero
/// words have at least the design distance, d of a BCH or Reed-Solomon code and one more than the degree of a Goppa polynomial,
/// as their weight. (MacWilliams and Sloane, chapters 7, 10 and 12.)
pub fn codes_have_their_forms(field: FieldName, locator: FieldName)
    ensures bch { (n b d : ℕ) (C : Matrix) → IsTrue (is_symbol field) → IsSubfield field locator →
        IsTrue (is_length n) → (size locator - 1) % n ≡ 0 → IsCode field n (IsBchWord field locator n b d) C →
        IsFormOf C (bch_form locator n b d) }
    ensures reed_solomon { (n d : ℕ) (C : Matrix) → IsTrue (is_symbol field) → size field ≡ n + 1 →
        IsTrue (is_length n) → IsCode field n (IsReedSolomonWord field d) C → IsFormOf C (bch_form field n 1 d) }
    ensures goppa { (g points : List ℕ) (C : Matrix) → IsTrue (is_symbol field) → IsSubfield field locator →
        IsTrue (is_length (length points)) → Fits locator points → AllPairs (λ a b. a ≢ b) points →
        ((a : ℕ) → Contains points a → 0 < value_at locator g a) →
        IsCode field (length points) (IsGoppaWord field locator g points) C → IsFormOf C (goppa_form locator g points) }
{}

/// Each coset has exactly one leader, x less the leader of its coset is the word nearest to x, and words of one coset have the same
/// syndrome. So a table of leaders gives the nearest word. (MacWilliams and Sloane, chapter 1.)
pub fn leaders_give_nearest_words()
    ensures some_leader { (C : Matrix) (x : List ℕ) → AreRows C.field C.columns C.rows → IsWord C.field C.columns x →
        (e : List ℕ) × IsLeader C x e }
    ensures one_leader { (C : Matrix) (x d e : List ℕ) → IsLeader C x d → IsLeader C x e → d ≡ e }
    ensures nearest { (C : Matrix) (x e : List ℕ) → AreRows C.field C.columns C.rows → IsWord C.field C.columns x →
        IsLeader C x e → IsNearest C x (difference C.field x e) }
    ensures one_syndrome { (C : Matrix) (checks : List (List ℕ)) (x y : List ℕ) → IsParityCheck C checks →
        IsWord C.field C.columns x → IsWord C.field C.columns y → AreInOneCoset C x y →
        syndrome C.field checks x ≡ syndrome C.field checks y }
    ensures table { (C : Matrix) (checks leaders : List (List ℕ)) (x : List ℕ) → AreRows C.field C.columns C.rows →
        IsLeaderTable C checks leaders → IsWord C.field C.columns x →
        IsNearest C x (difference C.field x
        (slice_index_or leaders (number (size C.field) (syndrome C.field checks x)) [])) }
{}

/// A word is in a Goppa code exactly if the sum of w_i / (x - a_i) is 0 modulo the Goppa polynomial, whichever polynomials are
/// taken for these fractions. The polynomial is given without last zeros and is 0 at no point. (MacWilliams and Sloane, chapter 12.)
pub fn goppa_codes_by_fractions(field: FieldName, locator: FieldName)
    ensures some { (g points w : List ℕ) → IsPolynomial locator g → 0 < length g →
        ((a : ℕ) → Contains points a → 0 < value_at locator g a) →
        IsGoppaWord field locator g points w ↔ IsGoppaWordByFractions field locator g points w }
    ensures any { (g points w : List ℕ) (hs : List (List ℕ)) → IsPolynomial locator g → 0 < length g →
        ((a : ℕ) → Contains points a → 0 < value_at locator g a) → AreFractions locator g points hs →
        IsGoppaWord field locator g points w
        ↔ AreCongruent locator g (fraction_sum locator (map (embed field locator) w) hs) [] }
{}

/// Each element of a symbol field of q^s elements is written over the field of q elements in exactly one way: as the sum of
/// c_i γ^i, i below s. (MacWilliams and Sloane, chapter 10.)
#[tactic(auto, using(crate::proofs::ExpansionLaws::expansion_is_unique_laws))]
pub fn expansion_is_unique(small: FieldName, large: FieldName)
    ensures one { (s a : ℕ) (cs ds : List ℕ) → IsTrue (is_symbol large) →
        degree_over (size small) (size large) ≡ Some s → IsWord small s cs → IsWord small s ds →
        IsExpansion small large a cs → IsExpansion small large a ds → cs ≡ ds }
    ensures some { (s a : ℕ) → IsTrue (is_symbol large) → degree_over (size small) (size large) ≡ Some s →
        a < size large → (cs : List ℕ) × IsWord small s cs × IsExpansion small large a cs }
{}

/// The check columns of a Hamming code with one more check: those that begin with 0 go on with a column, those that begin with 1
/// go on with any list. (MacWilliams and Sloane, chapter 1.)
#[tactic(auto, using(crate::proofs::HammingLaws::hamming_columns_one_more_laws))]
pub fn hamming_columns_one_more()
    ensures none { (q : ℕ) → hamming_columns q 0 ≡ [] }
    ensures more { (q r : ℕ) → 1 < q →
        hamming_columns q (suc r) ≡ map (λ u. 0 ∷ u) (hamming_columns q r) ++ map (λ u. 1 ∷ u) (all_lists q r) }
{}
