//! The laws of what a search finds.
//!
//! Each function proves what its clauses say, for every code, and does nothing when it is run.

ghost use Rattle.std.specs.Prelude.{◌≡◌, true, ℕ, ◌^◌, ◌<◌, ◌↔◌, ◌+◌, nat_lt, List, ◌∷◌, length, map, Option, Some, All, Contains};
ghost use Rattle.lc_algebra.specs.Field.{size};
ghost use Rattle.lc_algebra.specs.Span.{InSpan};
ghost use Rattle.lc_algebra.specs.Matrix.{Matrix};
ghost use Rattle.lc_enumeration.specs.Plan.{IsInPhase, block_messages, phase_of};
ghost use Rattle.lc_enumeration.specs.Search.{Found, word_of, block_words, found_from, beats, least_of, least_in, best, board_value};
ghost use Rattle.lc_enumeration.specs.Truth.{IsFoundBetween, IsLeastOf};
ghost use Rattle.lc_enumeration.specs.InformationSet.{is_member, same_word, in_span};
ghost use Rattle.lc_enumeration.specs.Distribution.{IsZeroOn, IsZeroOutside, is_zero_on, is_zero_outside};
ghost use Rattle.lc_enumeration.specs.Records.{Progress, first_progress, rounds, last_state, IsBestAt};

use lc_algebra::FieldName;

/// What is found in some blocks is the weights and places of the words at their places; the words of a
/// block are those of its messages, in the phase that it belongs to.
pub fn found_words_are_at_their_places()
    ensures found { (C : Matrix) (m first count : ℕ) (x : Found) →
        Contains (found_from C m first count) x ↔ IsFoundBetween C m first count x }
    ensures phase { (k q m p b : ℕ) → IsInPhase k q m p b → phase_of k q m b ≡ Some p }
    ensures block { (C : Matrix) (m p b : ℕ) → IsInPhase (length C.rows) (size C.field) m p b →
        block_words C m b ≡ map (word_of C m p) (block_messages (length C.rows) (size C.field) m p b) }
{}

/// The least of some words is one of them that no other beats, and there is only one such. For places
/// below 2^52, a word beats another if and only if its value on the board is less.
pub fn least_word_is_unbeaten()
    ensures least { (a : Found) (others : List Found) → IsLeastOf (a ∷ others) (least_of a others) }
    ensures least_in { (founds : List Found) (x : Found) → least_in founds ≡ Some x → IsLeastOf founds x }
    ensures one { (founds : List Found) (x y : Found) → IsLeastOf founds x → IsLeastOf founds y → x ≡ y }
    ensures board { (a b : Found) → a.place < 2 ^ 52 → b.place < 2 ^ 52 →
        beats a b ≡ nat_lt (board_value a) (board_value b) }
{}

/// Rounds keep the best word: the best after some more blocks is the least of the best before them and of
/// what is found in them. So the states of a search that begins at the best word are the best words
/// after their blocks; the word at place 0 is the best after no blocks.
pub fn rounds_keep_the_best_word()
    ensures after { (C : Matrix) (m l count : ℕ) →
        best C m (l + count) ≡ least_of (best C m l) (found_from C m l count) }
    ensures first { (C : Matrix) → IsBestAt C (first_progress C) }
    ensures rounds { (d : ℕ) (C : Matrix) (budget longest : ℕ) (slice : Option ℕ) (state : Progress) →
        IsBestAt C state →
        All (IsBestAt C) (rounds d C budget longest slice state).states }
    ensures last { (d : ℕ) (C : Matrix) (budget longest : ℕ) (slice : Option ℕ) (state : Progress) → IsBestAt C state →
        IsBestAt C (last_state state (rounds d C budget longest slice state).states) }
{}

/// The tests that the definitions compute with say what they are named for: that a number is in a list,
/// that two words are equal, that a word is one of some rows' words, and that a word is 0 on the
/// coordinates of a set, or outside them.
pub fn tests_are_exact(field: FieldName)
    ensures member { (set : List ℕ) (c : ℕ) → (is_member set c ≡ true) ↔ Contains set c }
    ensures same { (u v : List ℕ) → (same_word u v ≡ true) ↔ (u ≡ v) }
    ensures span { (n : ℕ) (rows : List (List ℕ)) (w : List ℕ) →
        (in_span field n rows w ≡ true) ↔ InSpan field n rows w }
    ensures zero_on { (set w : List ℕ) → (is_zero_on set w ≡ true) ↔ IsZeroOn set w }
    ensures zero_outside { (set w : List ℕ) → (is_zero_outside set w ≡ true) ↔ IsZeroOutside set w }
{}
