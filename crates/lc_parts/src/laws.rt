//! The laws of parts.
//!
//! Each function proves what its clauses say, for every code, and does nothing when it is run.

ghost use Rattle.std.specs.Prelude.{◌≡◌, ℕ, ◌+◌, ◌^◌, ◌<◌, ◌≤◌, true, List, length, map, All};
ghost use Rattle.lc_algebra.specs.Matrix.{Matrix};
ghost use Rattle.lc_algebra.specs.Divisor.{divisor_of};
ghost use Rattle.lc_enumeration.specs.Search.{set_count, found_from, found_first, least_of, best, bound, finished};
ghost use Rattle.lc_enumeration.specs.Records.{Progress, found_of, first_progress, end_of_phase, IsBestAt};
ghost use Rattle.lc_enumeration.specs.Truth.{IsSettled, IsUnderway};
ghost use Rattle.lc_parts.specs.Part.{Part, part_from, part_end, found_in, IsTruePart, facts_of};
ghost use Rattle.lc_parts.specs.Along.{first_by, end_by, bound_by, finished_by, is_answered, after_part, with_part, along};
ghost use Rattle.lc_parts.specs.Cover.{Covers};
ghost use Rattle.lc_parts.specs.Joined.{JoinState, with_lines};

/// True parts have the best word of the blocks that they have, in any order, overlapping and repeated. A true part that begins
/// no later than a best word's blocks end, and ends no earlier, makes the best word of its end with it. The word at place 0 is a
/// true part without a block; and what is found in further blocks makes a true part longer.
pub fn parts_have_the_best_word()
    ensures covered { (C : Matrix) (parts : List Part) (l : ℕ) → All (IsTruePart C) parts → Covers parts l →
        least_of (found_first C (set_count C)) (map found_in parts) ≡ best C (set_count C) l }
    ensures joined { (C : Matrix) (s : Progress) (p : Part) → IsBestAt C s → IsTruePart C p → p.start ≤ s.blocks →
        s.blocks ≤ part_end p → IsBestAt C (after_part s p) }
    ensures begun { (C : Matrix) (start : ℕ) → IsTruePart C (part_from start 0 (found_first C (set_count C))) }
    ensures longer { (C : Matrix) (p : Part) (count : ℕ) → IsTruePart C p → IsTruePart C (part_from p.start
        (p.count + count) (least_of (found_in p) (found_from C (set_count C) (part_end p) count))) }
{}

/// Over the facts of a code the state at the beginning, the ends of phases, the bound and what is answered are those of the code's
/// search.
pub fn facts_are_those_of_the_search()
    ensures first { (C : Matrix) → first_by (facts_of C) ≡ first_progress C }
    ensures end { (C : Matrix) (l : ℕ) → end_by (facts_of C) l ≡ end_of_phase C l }
    ensures bound { (C : Matrix) (l weight : ℕ) → bound_by (facts_of C) l weight ≡ bound (divisor_of C) C l weight }
    ensures finished { (C : Matrix) (budget : ℕ) (s : Progress) →
        finished_by (facts_of C) budget s ≡ finished (divisor_of C) C budget s.blocks (found_of s) }
{}

/// True parts that are taken one after another, in any order, keep a search under way, from its beginning or from any state that
/// is under way; the code has a row, and the budget is at most 2^40 blocks. A state under way that is answered has the answer of the
/// search.
pub fn parts_keep_a_search_under_way()
    ensures one { (C : Matrix) (budget : ℕ) (s : Progress) (p : Part) → 0 < length C.rows → budget ≤ 2 ^ 40 →
        IsUnderway (divisor_of C) C budget s → IsTruePart C p →
        IsUnderway (divisor_of C) C budget (with_part (facts_of C) budget s p) }
    ensures all { (C : Matrix) (budget : ℕ) (s : Progress) (parts : List Part) → 0 < length C.rows → budget ≤ 2 ^ 40 →
        IsUnderway (divisor_of C) C budget s → All (IsTruePart C) parts →
        IsUnderway (divisor_of C) C budget (along (facts_of C) budget s parts) }
    ensures first { (C : Matrix) (budget : ℕ) (parts : List Part) → 0 < length C.rows → budget ≤ 2 ^ 40 →
        All (IsTruePart C) parts →
        IsUnderway (divisor_of C) C budget (along (facts_of C) budget (first_by (facts_of C)) parts) }
    ensures answered { (C : Matrix) (budget : ℕ) (s : Progress) → 0 < length C.rows →
        IsUnderway (divisor_of C) C budget s → is_answered (facts_of C) budget s ≡ true →
        IsSettled (divisor_of C) C budget s }
{}

/// Parts that are joined one after another bring the search as far as `along` says. The script, the facts and the budget stay.
pub fn joined_parts_go_along()
    ensures progress { (s : JoinState) (parts : List Part) →
        (with_lines s parts).progress ≡ along s.facts s.budget s.progress parts }
    ensures kept { (s : JoinState) (parts : List Part) → ((with_lines s parts).facts ≡ s.facts)
        × ((with_lines s parts).budget ≡ s.budget) × ((with_lines s parts).script ≡ s.script) }
{}
