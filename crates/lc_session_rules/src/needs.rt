//! How a session goes through the needs of its script, and how many needs its bytes have at most.
//!
//! Each function proves what its clauses say, and does nothing when it is run.

ghost use Rattle.std.specs.Prelude.{◌≡◌, ◌<◌, ◌≤◌, ◌^◌, ◌*◌, ◌++◌, ℕ, Bool, false, List, [], ◌∷◌, length, Option, None};
ghost use Rattle.lc_algebra.specs.Matrix.{Matrix};
ghost use Rattle.lc_algebra.specs.Divisor.{divisor_of};
ghost use Rattle.lc_enumeration.specs.Search.{Answer};
ghost use Rattle.lc_enumeration.specs.Records.{Progress, Start, SessionStep, fresh_start, last_state, rounds, session_rounds};
ghost use Rattle.lc_formats.specs.Checkpoint.{Checkpoint};
ghost use Rattle.lc_formats.specs.Truth.{start_of};
ghost use Rattle.lc_language.specs.declared.Call.{Call};
ghost use Rattle.lc_session_rules.specs.Needs.{IsNeeds, MeetsFirst, OneScript, OneStep};
ghost use Rattle.lc_session_rules.specs.Answers.{Settle, answers_of};
ghost use Rattle.lc_session_rules.specs.Slots.{IsTrueCheckpoint};
ghost use Rattle.lc_session_rules.specs.Course.{GoesSo, state_at, steps_at, start_next};

/// A session goes on from need to need. If it is about to search for a need, the steps once that need is met
/// are those before and those of the search; the slice stops it there exactly if it stops the search; and if
/// it doesn't, the session goes on with the state of the search settled. At the end of its needs it is done.
pub fn sessions_go_need_by_need()
    ensures met { (divisor : Matrix → ℕ) (budget longest : ℕ) (begin : List Matrix → Start) (slice : Option ℕ)
        (needs : List Matrix) (C : Matrix) (told : List SessionStep) (now : Start) (left : Option ℕ) →
        GoesSo divisor budget longest begin slice needs (C ∷ []) told now left → length now.settled ≡ length needs →
        ((session_rounds divisor (needs ++ C ∷ []) budget longest slice (begin (needs ++ C ∷ []))).steps
        ≡ told ++ steps_at divisor budget longest C left now)
        × ((session_rounds divisor (needs ++ C ∷ []) budget longest slice (begin (needs ++ C ∷ []))).is_stopped
        ≡ (rounds (divisor C) C budget longest left (state_at C now)).is_stopped) }
    ensures on { (divisor : Matrix → ℕ) (budget longest : ℕ) (begin : List Matrix → Start) (slice : Option ℕ)
        (needs : List Matrix) (C : Matrix) (told : List SessionStep) (now : Start) (left : Option ℕ) →
        GoesSo divisor budget longest begin slice needs (C ∷ []) told now left → length now.settled ≡ length needs →
        (rounds (divisor C) C budget longest left (state_at C now)).is_stopped ≡ false →
        GoesSo divisor budget longest begin slice (needs ++ C ∷ []) []
        (told ++ steps_at divisor budget longest C left now) (start_next divisor budget longest C left now)
        (rounds (divisor C) C budget longest left (state_at C now)).left }
    ensures ends { (divisor : Matrix → ℕ) (budget longest : ℕ) (begin : List Matrix → Start) (slice : Option ℕ)
        (needs : List Matrix) (told : List SessionStep) (now : Start) (left : Option ℕ) →
        GoesSo divisor budget longest begin slice needs [] told now left → length needs ≤ length now.settled →
        session_rounds divisor needs budget longest slice (begin needs)
        ≡ record { steps = told; settled = now.settled; left = left; is_stopped = false } }
{}

/// A session that nothing stopped settles its needs by the answers of the search, if it started afresh or
/// from a true checkpoint whose settled needs are fewer than those of the script.
pub fn unstopped_sessions_answer_by_the_search()
    ensures fresh { (table : List Call) (bytes : List ℕ) (budget longest : ℕ) (needs : List Matrix) (slice : Option ℕ)
        (answers : List Answer) → budget ≤ 2 ^ 40 → 0 < longest → MeetsFirst table bytes needs →
        (session_rounds divisor_of needs budget longest slice fresh_start).is_stopped ≡ false →
        Settle budget needs (session_rounds divisor_of needs budget longest slice fresh_start).settled answers →
        answers ≡ answers_of needs budget }
    ensures resumed { (table : List Call) (bytes : List ℕ) (budget longest : ℕ) (needs : List Matrix) (slice : Option ℕ)
        (answers : List Answer) (p : Checkpoint) → OneScript bytes → OneStep table → budget ≤ 2 ^ 40 → 0 < longest →
        MeetsFirst table bytes needs → length p.settled < length needs → IsTrueCheckpoint table bytes budget p →
        (session_rounds divisor_of needs budget longest slice (start_of needs p)).is_stopped ≡ false →
        Settle budget needs (session_rounds divisor_of needs budget longest slice (start_of needs p)).settled answers →
        answers ≡ answers_of needs budget }
{}

/// A need takes fifteen bytes of a script at least: the name of a query, two parentheses, its arguments and a semicolon. So the
/// needs of a script are at most a fifteenth of its bytes, and no more are met on the way.
pub fn needs_take_bytes()
    ensures script { (table : List Call) (bytes : List ℕ) (needs : List Matrix) → IsNeeds table bytes needs →
        15 * length needs ≤ length bytes }
    ensures front { (table : List Call) (bytes : List ℕ) (front : List Matrix) → MeetsFirst table bytes front →
        15 * length front ≤ length bytes }
{}
