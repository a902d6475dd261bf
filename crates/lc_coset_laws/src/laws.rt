//! The laws of nearest words.
//!
//! Each function proves what its clauses say, for every field, every code and every number of blocks, and
//! does nothing when it is run. (Grassl, Searching for linear codes with large minimum distance, for the
//! information sets and their bound; MacWilliams and Sloane, chapter 1, for cosets and nearest words.)

ghost use Rattle.std.specs.Prelude.{◌≡◌, ℕ, ◌+◌, ◌*◌, ◌^◌, ◌≤◌, min, true, List, length, map, Some, Contains};
ghost use Rattle.lc_algebra.specs.Field.{size};
ghost use Rattle.lc_algebra.specs.Word.{IsWord, weight, distance};
ghost use Rattle.lc_algebra.specs.Span.{AreIndependent, InSpan};
ghost use Rattle.lc_algebra.specs.Matrix.{Matrix, AreRows};
ghost use Rattle.lc_enumeration.specs.Message.{vector_of};
ghost use Rattle.lc_enumeration.specs.Search.{set_count, least_of};
ghost use Rattle.lc_enumeration.specs.NearWord.{patterns, pattern_count, coset_word_at, near_from, near_best, levels_done, near_bound, is_near_done, near_answer, NearHolds};

use lc_algebra::FieldName;

/// No word of the code is nearer to x than the lesser of the bound after l blocks and the distance of the
/// best word after them. If all levels of some set are done, or the bound has reached the best distance,
/// none is nearer than the best word. The best word is the word of the code at its place, and more blocks
/// keep it unless they find a better one.
pub fn near_blocks_bound_the_distance()
    ensures least { (C : Matrix) (x : List ℕ) (l : ℕ) (v : List ℕ) → AreRows C.field C.columns C.rows →
        AreIndependent C.field C.columns C.rows → IsWord C.field C.columns x → InSpan C.field C.columns C.rows v →
        min (near_best C x l).weight (near_bound C x l) ≤ distance C.field x v }
    ensures whole { (C : Matrix) (x : List ℕ) (l : ℕ) (v : List ℕ) → AreRows C.field C.columns C.rows →
        AreIndependent C.field C.columns C.rows → IsWord C.field C.columns x → InSpan C.field C.columns C.rows v →
        Contains (levels_done C l) (length C.rows + 1) → (near_best C x l).weight ≤ distance C.field x v }
    ensures done { (C : Matrix) (x : List ℕ) (l : ℕ) (v : List ℕ) → AreRows C.field C.columns C.rows →
        AreIndependent C.field C.columns C.rows → IsWord C.field C.columns x → InSpan C.field C.columns C.rows v →
        is_near_done C x l ≡ true → (near_best C x l).weight ≤ distance C.field x v }
    ensures word { (C : Matrix) (x : List ℕ) (l : ℕ) → AreRows C.field C.columns C.rows →
        (w : List ℕ) × (coset_word_at C x (near_best C x l).place ≡ Some w) × InSpan C.field C.columns C.rows w
        × (distance C.field x w ≡ (near_best C x l).weight) }
    ensures after { (C : Matrix) (x : List ℕ) (l count : ℕ) →
        near_best C x (l + count) ≡ least_of (near_best C x l) (near_from C x l count) }
{}

/// Every answer is true, whatever the budget: its word is in the code and has the distance, no word is nearer
/// than the lower end, and an exact answer's word is nearest. A budget of at least m q^k blocks for m sets, and
/// at most 2^40, gives an exact answer if the code has at most 255 columns.
pub fn near_answers_are_true()
    ensures holds { (C : Matrix) (x : List ℕ) (budget : ℕ) → AreRows C.field C.columns C.rows →
        AreIndependent C.field C.columns C.rows → IsWord C.field C.columns x → NearHolds C x (near_answer C x budget) }
    ensures whole { (C : Matrix) (x : List ℕ) (budget : ℕ) → C.columns ≤ 255 → budget ≤ 2 ^ 40 →
        set_count C * size C.field ^ length C.rows ≤ budget → (near_answer C x budget).exact ≡ true }
{}

/// Each word of length k is the vector of an error pattern of its weight; there are as many patterns of a weight
/// as words of it.
pub fn patterns_reach_each_word(field: FieldName)
    ensures reached { (k : ℕ) (v : List ℕ) → IsWord field k v →
        Contains (map (vector_of k) (patterns k (size field) (weight v))) v }
    ensures count { (k q w : ℕ) → length (patterns k q w) ≡ pattern_count k q w }
{}
