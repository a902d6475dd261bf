//! The laws of joined parts and sessions.
//!
//! Each function proves what its clauses say, and does nothing when it is run.

ghost use Rattle.std.specs.Prelude.{◌≡◌, ℕ, ◌<◌, ◌≤◌, ◌^◌, List, ◌∷◌, length, Some, All};
ghost use Rattle.sha2.specs.Sha256.{sha256};
ghost use Rattle.lc_algebra.specs.Matrix.{Matrix};
ghost use Rattle.lc_algebra.specs.Divisor.{divisor_of};
ghost use Rattle.lc_enumeration.specs.Records.{Progress};
ghost use Rattle.lc_enumeration.specs.Truth.{IsUnderway};
ghost use Rattle.lc_io.specs.Vaults.{Slots};
ghost use Rattle.lc_language.specs.declared.Call.{Call};
ghost use Rattle.lc_session_rules.specs.Options.{resume};
ghost use Rattle.lc_session_rules.specs.Needs.{MeetsFirst};
ghost use Rattle.lc_session_rules.specs.Slots.{IsTrueCheckpoint, AreTrueSlots};
ghost use Rattle.lc_session_rules.specs.Endings.{done};
ghost use Rattle.lc_session_rules.specs.Session.{Outside, IsSession};
ghost use Rattle.lc_session_rules.specs.Promises.{PrintsText};
ghost use Rattle.lc_session_rules.specs.Chain.{IsGround};
ghost use Rattle.lc_parts.specs.Part.{Part, IsTruePart};
ghost use Rattle.lc_part_laws.specs.Point.{joined_state, joined_point, HoldsPoint, HoldsText};

/// The checkpoint of a state of the first search of a script is true if the search is under way and a block is done. So is that of
/// joined true parts that brought the search by a block at least; the budget is at most 2^40 blocks. Slots that hold it, or its text,
/// and no other checkpoint are as `resume` asks for them.
pub fn joined_checkpoints_are_true()
    ensures state { (table : List Call) (bytes : List ℕ) (budget : ℕ) (C : Matrix) (needs : List Matrix)
        (s : Progress) → MeetsFirst table bytes (C ∷ needs) → IsUnderway (divisor_of C) C budget s → 1 ≤ s.blocks →
        IsTrueCheckpoint table bytes budget (joined_point (sha256 bytes) budget s) }
    ensures joined { (table : List Call) (bytes : List ℕ) (budget : ℕ) (C : Matrix) (needs : List Matrix)
        (parts : List Part) → MeetsFirst table bytes (C ∷ needs) → budget ≤ 2 ^ 40 → All (IsTruePart C) parts →
        1 ≤ (joined_state C budget parts).blocks →
        IsTrueCheckpoint table bytes budget (joined_point (sha256 bytes) budget (joined_state C budget parts)) }
    ensures slots { (table : List Call) (bytes : List ℕ) (budget : ℕ) (s : Progress) (slots : Slots) →
        IsTrueCheckpoint table bytes budget (joined_point (sha256 bytes) budget s) →
        HoldsPoint (sha256 bytes) budget s slots → AreTrueSlots table bytes budget slots }
    ensures text { (table : List Call) (bytes : List ℕ) (budget : ℕ) (s : Progress) (slots : Slots) →
        IsGround table bytes budget → IsTrueCheckpoint table bytes budget (joined_point (sha256 bytes) budget s) →
        HoldsText (sha256 bytes) budget s slots → HoldsPoint (sha256 bytes) budget s slots }
{}

/// A session of `resume` that finishes prints the text of its script under its budget, if its slots hold the checkpoint of joined true
/// parts of the first search of the script: whatever the ranges of the parts, in any order, repeated or overlapping, and whoever did
/// them. At least one block is joined.
pub fn joined_parts_print_the_text()
    ensures { (table : List Call) (args : List (List ℕ)) (old new : Outside) (n : ℕ)
        (s : IsSession table args old new (done n)) (C : Matrix) (needs : List Matrix) (parts : List Part)
        (slots : Slots) → s.asked.command ≡ resume → old.vault ≡ Some slots →
        MeetsFirst table s.course.bytes (C ∷ needs) → All (IsTruePart C) parts →
        1 ≤ (joined_state C s.asked.budget parts).blocks →
        HoldsPoint (sha256 s.course.bytes) s.asked.budget (joined_state C s.asked.budget parts) slots →
        PrintsText table s.asked.budget s.course.bytes old.sink new.sink n }
{}
