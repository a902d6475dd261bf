//! The laws of a search over its rounds.
//!
//! Each function proves what its clauses say, for every code and every list of rounds, and does nothing when it is run.

ghost use Rattle.std.specs.Prelude.{◌≡◌, ℕ, ◌-◌, ◌*◌, ◌/◌, ◌^◌, ◌≤◌, ◌<◌, length, true, Some, None};
ghost use Rattle.lc_algebra.specs.Field.{size};
ghost use Rattle.lc_algebra.specs.Span.{AreIndependent, IsDistance};
ghost use Rattle.lc_algebra.specs.Matrix.{Matrix, AreRows};
ghost use Rattle.lc_algebra.specs.Divisor.{divisor_of};
ghost use Rattle.lc_enumeration.specs.Search.{Found, Answer, exact, set_count, answer, fits};
ghost use Rattle.lc_enumeration.specs.Records.{found_of};
ghost use Rattle.lc_enumeration.specs.Truth.{HasWord, AnswerHolds};
ghost use Rattle.lc_search.specs.State.{SearchState, first_state, answer_in, after_search_round};
ghost use Rattle.lc_search.specs.Course.{IsTrueState, IsReached};

/// The states of a search after any rounds, whatever their lengths, limits and workers: from a true state, one whose word is the best
/// after no more blocks than the answer has, all are true. The state of a search that starts is true, and so is one that is
/// resumed from a true state.
///
/// In a true state the search is finished exactly with the answer of the definitions, once the blocks are those of the
/// answer. So an exact answer is the minimum distance of the code, a bracket contains it, and in both the word at the place is
/// a nonzero word of the code with the weight. A round of a search that goes on does a block at least, and no more than the
/// answer has; so rounds end at the answer.
pub fn rounds_reach_the_answer()
    ensures first { (C : Matrix) (budget : ℕ) → IsTrueState (first_state C budget) }
    ensures round { (s : SearchState) (longest limit : ℕ) → 0 < length s.code.rows → s.budget ≤ 2 ^ 40 →
        IsTrueState s → answer_in s ≡ None → 1 ≤ longest → 1 ≤ limit →
        IsTrueState (after_search_round s longest limit)
        × (s.progress.blocks < (after_search_round s longest limit).progress.blocks) }
    ensures reached { (s t : SearchState) → 0 < length s.code.rows → s.budget ≤ 2 ^ 40 → IsTrueState s → IsReached s t →
        IsTrueState t }
    ensures answer { (s : SearchState) (a : Answer) → 0 < length s.code.rows → s.budget ≤ 2 ^ 40 → IsTrueState s →
        answer_in s ≡ Some a → a ≡ answer (divisor_of s.code) s.code s.budget }
    ensures holds { (s : SearchState) (a : Answer) → AreRows s.code.field s.code.columns s.code.rows →
        AreIndependent s.code.field s.code.columns s.code.rows → 0 < length s.code.rows → s.budget ≤ 2 ^ 40 →
        IsTrueState s → answer_in s ≡ Some a → AnswerHolds s.code a }
    ensures distance { (s : SearchState) (x : Found) (l : ℕ) → AreRows s.code.field s.code.columns s.code.rows →
        AreIndependent s.code.field s.code.columns s.code.rows → 0 < length s.code.rows → s.budget ≤ 2 ^ 40 →
        IsTrueState s → answer_in s ≡ Some (exact x l) →
        IsDistance s.code.field s.code.columns s.code.rows x.weight × HasWord s.code x }
    ensures whole { (s : SearchState) (a : Answer) → 0 < length s.code.rows → s.code.columns ≤ 255 → s.budget ≤ 2 ^ 40 →
        set_count s.code * ((size s.code.field ^ length s.code.rows - 1) / (size s.code.field - 1)) ≤ s.budget →
        IsTrueState s → answer_in s ≡ Some a → (x : Found) × (l : ℕ) × (a ≡ exact x l) }
{}

/// What a search has for its best word is a word: a record that fits the code has a nonzero word of the code at its place with
/// its weight, and the state after a round of a search whose record fits fits too. So the weight that an answer tells is that
/// of a word of the code, also after a search was resumed from a record that wasn't written by one.
pub fn records_that_fit_have_words()
    ensures word { (C : Matrix) (blocks : ℕ) (x : Found) → AreRows C.field C.columns C.rows →
        AreIndependent C.field C.columns C.rows → fits C blocks x ≡ true → HasWord C x }
    ensures after { (s : SearchState) (longest limit : ℕ) →
        fits s.code s.progress.blocks (found_of s.progress) ≡ true →
        fits s.code (after_search_round s longest limit).progress.blocks
        (found_of (after_search_round s longest limit).progress) ≡ true }
{}
