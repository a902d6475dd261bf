//! The laws of the bound of Brouwer and Zimmermann.
//!
//! Each function proves what its clauses say, for every field, every code and every number of blocks, and
//! does nothing when it is run. (Grassl, Searching for linear codes with large minimum distance.)

ghost use Rattle.std.specs.Prelude.{◌≡◌, ◌≢◌, ℕ, ◌-◌, ◌*◌, ◌/◌, ◌<◌, ◌≤◌, min, max, true, false, ◌^◌, List, length, map, Option, Some, None, All, AllPairs, Contains};
ghost use Rattle.lc_algebra.specs.Field.{size};
ghost use Rattle.lc_algebra.specs.Word.{weight};
ghost use Rattle.lc_algebra.specs.Span.{AreIndependent, InSpan, IsDistance};
ghost use Rattle.lc_algebra.specs.Matrix.{Matrix, AreRows, IsSystematic};
ghost use Rattle.lc_algebra.specs.SpanLaws.{restrict};
ghost use Rattle.lc_algebra.specs.Divisor.{IsDivisible, divisor_of, rounded};
ghost use Rattle.lc_enumeration.specs.InformationSet.{systematic};
ghost use Rattle.lc_enumeration.specs.Search.{Found, exact, set_count, generator_at, best, levels_below, bound, is_done, answer, finished};
ghost use Rattle.lc_enumeration.specs.Records.{Progress, Start, SessionStep, found_of, rounds, last_state, fresh_start, session_rounds, IsBestAt};
ghost use Rattle.lc_enumeration.specs.Fitting.{used_start, misfit};
ghost use Rattle.lc_enumeration.specs.Truth.{IsSeenBelow, HasWord, AnswerHolds, IsSettled, AreSettled, IsUnderway, IsTrueStart, IsTrueStep, start_after};
ghost use Rattle.lc_infoset.specs.Bound.{LevelSet, AreLevelSets, IsUnseen, IsNoMultiple, SeenAtLeast, set_bound, set_at};

use lc_algebra::FieldName;

/// A nonzero word of the code that is no combination of up to level rows of each set's matrix has at
/// least the weight that the levels give, and there is none if some level is k. A word that is no
/// multiple of the words of the messages of these levels is no such combination.
pub fn unseen_words_are_heavy(field: FieldName)
    ensures heavy { (n k : ℕ) (rows : List (List ℕ)) (sets : List LevelSet) (c : List ℕ) → AreRows field n rows →
        AreLevelSets field n k rows sets → InSpan field n rows c → 0 < weight c → All (IsUnseen field n c) sets →
        set_bound k sets ≤ weight c }
    ensures none { (n k : ℕ) (rows : List (List ℕ)) (sets : List LevelSet) (c : List ℕ) →
        AreLevelSets field n k rows sets → InSpan field n rows c → 0 < weight c → All (IsUnseen field n c) sets →
        (s : LevelSet) → Contains sets s → k ≤ s.level → ⊥ }
    ensures multiples { (n : ℕ) (c : List ℕ) (s : LevelSet) → IsNoMultiple field n c s → IsUnseen field n c s }
{}

/// If no nonzero word of the messages of the sets' levels is lighter than d, no nonzero word of the code is
/// lighter than d and than what the levels give, also rounded up to a multiple of a number that divides
/// all weights; and if some level is k, none is lighter than d.
pub fn seen_words_bound_the_code(field: FieldName)
    ensures bound { (n k d : ℕ) (rows : List (List ℕ)) (sets : List LevelSet) (c : List ℕ) → AreRows field n rows →
        AreLevelSets field n k rows sets → All (SeenAtLeast field n d) sets → InSpan field n rows c → 0 < weight c →
        min d (set_bound k sets) ≤ weight c }
    ensures rounded { (n k d g : ℕ) (rows : List (List ℕ)) (sets : List LevelSet) (c : List ℕ) → AreRows field n rows →
        AreLevelSets field n k rows sets → All (SeenAtLeast field n d) sets → 0 < g → IsDivisible field n rows g →
        InSpan field n rows c → 0 < weight c → min d (rounded g (max 1 (set_bound k sets))) ≤ weight c }
    ensures whole { (n k d : ℕ) (rows : List (List ℕ)) (sets : List LevelSet) (c : List ℕ) →
        AreLevelSets field n k rows sets → All (SeenAtLeast field n d) sets → InSpan field n rows c → 0 < weight c →
        (s : LevelSet) → Contains sets s → k ≤ s.level → d ≤ weight c }
{}

/// Rows that are independent on a set of as many columns have a systematic matrix on it. The sets of a
/// search on independent rows are such: each has a basis of k columns and a generator that is systematic
/// on it; its fresh columns are some of these, and no two sets share one.
pub fn information_sets_have_generators(field: FieldName)
    ensures systematic { (n : ℕ) (rows : List (List ℕ)) (set : List ℕ) → AreRows field n rows →
        length set ≡ length rows → AreIndependent field (length set) (map (restrict set) rows) →
        IsSystematic field n rows set (systematic field n rows set) }
    ensures generator { (C : Matrix) (j : ℕ) → AreRows C.field C.columns C.rows →
        AreIndependent C.field C.columns C.rows → j < set_count C →
        IsSystematic C.field C.columns C.rows (set_at C j).basis (generator_at C j) }
    ensures dimension { (C : Matrix) (j : ℕ) → AreRows C.field C.columns C.rows →
        AreIndependent C.field C.columns C.rows → j < set_count C → length (set_at C j).basis ≡ length C.rows }
    ensures part { (C : Matrix) (j : ℕ) → j < set_count C → All (Contains (set_at C j).basis) (set_at C j).fresh }
    ensures once { (C : Matrix) (j : ℕ) → j < set_count C → AllPairs (λ a b. a ≢ b) (set_at C j).fresh }
    ensures apart { (C : Matrix) (i j column : ℕ) → i < j → j < set_count C → Contains (set_at C i).fresh column →
        ¬ Contains (set_at C j).fresh column }
{}

/// A nonzero word of the code none of whose multiples is at place 0 or at a place of a block below l has
/// at least the weight of the bound at l, and there is none if some level is k. The number d divides all
/// weights; 1 does. A word that is seen is at least as heavy as the best word; so the lesser of the
/// bound and the best weight is at most every weight.
pub fn search_bounds_the_distance()
    ensures heavy { (d : ℕ) (C : Matrix) (l x : ℕ) (c : List ℕ) → AreRows C.field C.columns C.rows →
        AreIndependent C.field C.columns C.rows → 0 < d → IsDivisible C.field C.columns C.rows d →
        InSpan C.field C.columns C.rows c → 0 < weight c → (IsSeenBelow C l c → ⊥) → bound d C l x ≤ weight c }
    ensures none { (C : Matrix) (l : ℕ) (c : List ℕ) → AreRows C.field C.columns C.rows →
        AreIndependent C.field C.columns C.rows → InSpan C.field C.columns C.rows c → 0 < weight c →
        Contains (levels_below C l) (length C.rows) → (IsSeenBelow C l c → ⊥) → ⊥ }
    ensures seen { (C : Matrix) (l : ℕ) (c : List ℕ) → AreRows C.field C.columns C.rows → 0 < length C.rows →
        InSpan C.field C.columns C.rows c → IsSeenBelow C l c → (best C (set_count C) l).weight ≤ weight c }
    ensures least { (d : ℕ) (C : Matrix) (l : ℕ) (c : List ℕ) → AreRows C.field C.columns C.rows →
        AreIndependent C.field C.columns C.rows → 0 < d → IsDivisible C.field C.columns C.rows d → 0 < length C.rows →
        InSpan C.field C.columns C.rows c → 0 < weight c →
        min (best C (set_count C) l).weight (bound d C l (best C (set_count C) l).weight) ≤ weight c }
{}

/// Every answer of a search is true, whatever the budget: an exact one is the minimum distance, a bracket
/// contains it, and in both the word at the place is a nonzero word of the code with the weight. A budget
/// of at least m (q^k - 1)/(q - 1) blocks for m sets, and at most 2^40, gives an exact answer if the code has a
/// row and at most 255 columns.
pub fn answers_are_true()
    ensures best { (C : Matrix) (l : ℕ) → AreRows C.field C.columns C.rows → AreIndependent C.field C.columns C.rows →
        0 < length C.rows → HasWord C (best C (set_count C) l) }
    ensures done { (d : ℕ) (C : Matrix) (l : ℕ) → AreRows C.field C.columns C.rows →
        AreIndependent C.field C.columns C.rows → 0 < d → IsDivisible C.field C.columns C.rows d → 0 < length C.rows →
        is_done d C l ≡ true → IsDistance C.field C.columns C.rows (best C (set_count C) l).weight }
    ensures holds { (d : ℕ) (C : Matrix) (budget : ℕ) → AreRows C.field C.columns C.rows →
        AreIndependent C.field C.columns C.rows → 0 < d → IsDivisible C.field C.columns C.rows d →
        AnswerHolds C (answer d C budget) }
    ensures own { (C : Matrix) (budget : ℕ) → AreRows C.field C.columns C.rows →
        AreIndependent C.field C.columns C.rows → AnswerHolds C (answer (divisor_of C) C budget) }
    ensures whole { (d : ℕ) (C : Matrix) (budget : ℕ) → 0 < length C.rows → C.columns ≤ 255 → budget ≤ 2 ^ 40 →
        set_count C * ((size C.field ^ length C.rows - 1) / (size C.field - 1)) ≤ budget →
        (x : Found) × (l : ℕ) × (answer d C budget ≡ exact x l) }
    ensures by_one { (C : Matrix) (budget : ℕ) → AreRows C.field C.columns C.rows →
        AreIndependent C.field C.columns C.rows → AnswerHolds C (answer 1 C budget) }
{}

/// With a budget of at most 2^40 blocks, the rounds of a search of a code with a row, from a best word at no
/// more blocks than its answer has, end at the answer: each state on the way is the best after more blocks,
/// and no more than the answer's; and if the slice doesn't stop them, the search is finished with its answer
/// in the last one. If it does, the slice is used up and the search isn't finished.
pub fn rounds_end_at_the_answer()
    ensures underway { (d : ℕ) (C : Matrix) (budget longest : ℕ) (slice : Option ℕ) (s t : Progress) →
        0 < length C.rows →
        budget ≤ 2 ^ 40 → 0 < longest → IsUnderway d C budget s →
        Contains (rounds d C budget longest slice s).states t →
        IsUnderway d C budget t × (s.blocks < t.blocks) }
    ensures settled { (d : ℕ) (C : Matrix) (budget longest : ℕ) (slice : Option ℕ) (s : Progress) → 0 < length C.rows →
        budget ≤ 2 ^ 40 → 0 < longest → IsUnderway d C budget s →
        (rounds d C budget longest slice s).is_stopped ≡ false →
        IsSettled d C budget (last_state s (rounds d C budget longest slice s).states) }
    ensures stopped { (d : ℕ) (C : Matrix) (budget longest : ℕ) (slice : Option ℕ) (s : Progress) → 0 < length C.rows →
        budget ≤ 2 ^ 40 → 0 < longest → IsUnderway d C budget s →
        (rounds d C budget longest slice s).is_stopped ≡ true →
        (finished d C budget (last_state s (rounds d C budget longest slice s).states).blocks
        (found_of (last_state s (rounds d C budget longest slice s).states)) ≡ None)
        × ((rounds d C budget longest slice s).left ≡ Some 0) }
{}

/// With a budget of at most 2^40 blocks and needs that have a row, a session from a true start goes through
/// true steps, and at its end every need is settled with its answer, if the slice doesn't stop it. A fresh
/// start is true, and so is one after a true step; so over any sessions, stops and resumptions every need is
/// settled with its answer.
pub fn true_starts_have_true_steps()
    ensures steps { (divisor : Matrix → ℕ) (needs : List Matrix) (budget longest : ℕ) (slice : Option ℕ) (start : Start)
        (step : SessionStep) → All (λ (C : Matrix). 0 < length C.rows) needs → budget ≤ 2 ^ 40 → 0 < longest →
        IsTrueStart divisor needs budget start →
        Contains (session_rounds divisor needs budget longest slice start).steps step →
        IsTrueStep divisor needs budget step }
    ensures settled { (divisor : Matrix → ℕ) (needs : List Matrix) (budget longest : ℕ) (slice : Option ℕ)
        (start : Start) →
        All (λ (C : Matrix). 0 < length C.rows) needs → budget ≤ 2 ^ 40 → 0 < longest →
        IsTrueStart divisor needs budget start →
        (session_rounds divisor needs budget longest slice start).is_stopped ≡ false →
        AreSettled divisor budget needs (session_rounds divisor needs budget longest slice start).settled }
    ensures stopped { (divisor : Matrix → ℕ) (needs : List Matrix) (budget longest : ℕ) (slice : Option ℕ)
        (start : Start) →
        All (λ (C : Matrix). 0 < length C.rows) needs → budget ≤ 2 ^ 40 → 0 < longest →
        IsTrueStart divisor needs budget start →
        (session_rounds divisor needs budget longest slice start).is_stopped ≡ true →
        (session_rounds divisor needs budget longest slice start).left ≡ Some 0 }
    ensures fresh { (divisor : Matrix → ℕ) (needs : List Matrix) (budget : ℕ) →
        IsTrueStart divisor needs budget fresh_start }
    ensures resumed { (divisor : Matrix → ℕ) (needs : List Matrix) (budget : ℕ) (step : SessionStep) →
        IsTrueStep divisor needs budget step → IsTrueStart divisor needs budget (start_after step) }
{}

/// The records of a true checkpoint fit the needs of the script: there is no misfit. A settled need has the
/// best word after the blocks of its answer.
pub fn true_checkpoints_fit()
    ensures fits { (divisor : Matrix → ℕ) (needs : List Matrix) (budget : ℕ) (start : Start) →
        All (λ (C : Matrix). 0 < length C.rows) needs → IsTrueStart divisor needs budget start →
        misfit divisor needs budget start ≡ None }
    ensures settled { (d : ℕ) (C : Matrix) (budget : ℕ) (s : Progress) → 0 < length C.rows → IsSettled d C budget s →
        IsBestAt C s }
{}

/// A checkpoint of version 1 is true if its records are those of searches with 1 for each divisor. The
/// start that uses it is then true for the codes' own divisors, of whatever needs. A checkpoint of
/// version 2 is used whole.
pub fn version_one_starts_are_true()
    ensures one { (divisor : Matrix → ℕ) (needs : List Matrix) (budget : ℕ) (settled : List Progress)
        (current : Progress) → ((C : Matrix) → 1 ≤ divisor C) →
        IsTrueStart (λ C. 1) needs budget (record { settled = settled; current = Some current }) →
        IsTrueStart divisor needs budget (used_start divisor needs 1 settled current) }
    ensures two { (divisor : Matrix → ℕ) (needs : List Matrix) (settled : List Progress) (current : Progress) →
        used_start divisor needs 2 settled current ≡ record { settled = settled; current = Some current } }
{}
