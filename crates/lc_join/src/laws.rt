//! The laws of joined lines.
//!
//! Each function proves what its clauses say and does nothing when it is run.

ghost use Rattle.std.specs.Prelude.{◌≡◌, ℕ, ◌<◌, ◌≤◌, ◌^◌, List, ◌∷◌, length, All};
ghost use Rattle.std.specs.List.{concat};
ghost use Rattle.sha2.specs.Sha256.{sha256};
ghost use Rattle.lc_algebra.specs.Matrix.{Matrix};
ghost use Rattle.lc_algebra.specs.Divisor.{divisor_of};
ghost use Rattle.lc_enumeration.specs.Search.{answer};
ghost use Rattle.lc_enumeration.specs.Truth.{answer_blocks};
ghost use Rattle.lc_language.specs.declared.Call.{Call};
ghost use Rattle.lc_calls.specs.Built.{built_calls};
ghost use Rattle.lc_session_rules.specs.Needs.{MeetsFirst};
ghost use Rattle.lc_parts.specs.Part.{Part, facts_of};
ghost use Rattle.lc_part_lines.specs.Line.{PartLine};
ghost use Rattle.lc_share.specs.PartSession.{Ends, HasRead};
ghost use Rattle.lc_share.specs.Printed.{IsPrinted};
ghost use Rattle.lc_join.specs.Asked.{asked, join_options};
ghost use Rattle.lc_join.specs.Cover.{CoverBelow, AreEnough, WroteOrFailed};
ghost use Rattle.lc_join.specs.Lines.{Numbered, lines_in, Disagree, HaveSameParts};
ghost use Rattle.lc_join.specs.Joining.{HasText, Lacks};
ghost use Rattle.lc_join.specs.JoinSession.{JoinEnding, IsJoinSession};
ghost use Rattle.lc_join.specs.Meant.{numbered_from, AreMeant, HaveSameTexts};
ghost use Rattle.lc_join.specs.Truth.{IsTrueLine, IsTrueText};

/// The checkpoint of true lines is a true one. The lines are those of the first search of a script, a line for each part, in any
/// order, repeated and overlapping; the budget is at most 2^40 blocks. What the text holds is the answer of the search, and if a
/// block of it is done, the checkpoint is a true one of the script: so a session that goes on from it prints the text of the script.
pub fn joined_lines_are_true()
    ensures truth { (table : List Call) (bytes : List ℕ) (C : Matrix) (needs : List Matrix) (budget : ℕ)
        (lines : List Numbered) (text : List ℕ) → MeetsFirst table bytes (C ∷ needs) → 0 < length C.rows →
        budget ≤ 2 ^ 40 → All (IsTrueLine (sha256 bytes) C) lines → HasText budget lines text →
        IsTrueText table bytes C budget text }
{}

/// Lines that `part` printed are read as they were meant. The texts are what `part` printed of one script, each for some arguments,
/// in any order and repeated; C is the code that the script searches first. In these texts one after another there are as many lines
/// of parts as texts, numbered from 1: each is the line that is meant by its text, and is a true line of the search.
pub fn printed_lines_are_read()
    ensures read { (bytes : List ℕ) (C : Matrix) (needs : List Matrix) (texts : List (List ℕ)) →
        MeetsFirst built_calls bytes (C ∷ needs) → All (IsPrinted built_calls bytes) texts →
        (lines : List PartLine) × AreMeant bytes C lines texts × (lines_in (concat texts) ≡ numbered_from 1 lines)
        × All (IsTrueLine (sha256 bytes) C) (lines_in (concat texts)) }
{}

/// Whatever parts `part` printed of a script, in any order, repeated and overlapping: if `join` makes a text of them under a budget
/// of at most 2^40 blocks, it holds the answer of the first search of the script, and if a block of it is done, it is a true
/// checkpoint of the script.
pub fn joined_parts_of_a_script_are_true()
    ensures truth { (bytes : List ℕ) (C : Matrix) (needs : List Matrix) (texts : List (List ℕ)) (budget : ℕ)
        (text : List ℕ) → MeetsFirst built_calls bytes (C ∷ needs) → All (IsPrinted built_calls bytes) texts →
        budget ≤ 2 ^ 40 → HasText budget (lines_in (concat texts)) text →
        IsTrueText built_calls bytes C budget text }
{}

/// Joins of true lines of a search agree if they have the same parts, in any order and however often, under a budget of at most 2^40
/// blocks: they make the same text, or they lack the same blocks. Texts that `part` printed of a script have the same parts if they
/// are the same, in any order and however often each comes.
pub fn joins_agree()
    ensures text { (digest : List ℕ) (C : Matrix) (budget : ℕ) (lines others : List Numbered) → 0 < length C.rows →
        budget ≤ 2 ^ 40 → All (IsTrueLine digest C) lines → All (IsTrueLine digest C) others →
        HaveSameParts lines others → (text other : List ℕ) → HasText budget lines text →
        HasText budget others other → text ≡ other }
    ensures missing { (digest : List ℕ) (C : Matrix) (budget : ℕ) (lines others : List Numbered) → 0 < length C.rows →
        budget ≤ 2 ^ 40 → All (IsTrueLine digest C) lines → All (IsTrueLine digest C) others →
        HaveSameParts lines others → (a b c d : ℕ) → Lacks budget lines a b → Lacks budget others c d →
        (a ≡ c) × (b ≡ d) }
    ensures alike { (digest : List ℕ) (C : Matrix) (budget : ℕ) (lines others : List Numbered) → 0 < length C.rows →
        budget ≤ 2 ^ 40 → All (IsTrueLine digest C) lines → All (IsTrueLine digest C) others →
        HaveSameParts lines others → (text : List ℕ) (a b : ℕ) → HasText budget lines text →
        Lacks budget others a b → ⊥ }
    ensures printed { (bytes : List ℕ) (C : Matrix) (needs : List Matrix) (texts others : List (List ℕ)) →
        MeetsFirst built_calls bytes (C ∷ needs) → All (IsPrinted built_calls bytes) texts →
        All (IsPrinted built_calls bytes) others → HaveSameTexts texts others →
        HaveSameParts (lines_in (concat texts)) (lines_in (concat others)) }
{}

/// What lines make is determined by the lines and the budget, whether the lines are true or not: they make at most one text, or lack
/// the blocks of one range, and not both.
pub fn joins_are_determined()
    ensures text { (budget : ℕ) (lines : List Numbered) (text other : List ℕ) → HasText budget lines text →
        HasText budget lines other → text ≡ other }
    ensures missing { (budget : ℕ) (lines : List Numbered) (a b c d : ℕ) → Lacks budget lines a b →
        Lacks budget lines c d → (a ≡ c) × (b ≡ d) }
    ensures alike { (budget : ℕ) (lines : List Numbered) (text : List ℕ) (a b : ℕ) → HasText budget lines text →
        Lacks budget lines a b → ⊥ }
{}

/// True lines that have all blocks that a search needs are joined. The lines are true ones of the search of C, at least one, and each
/// block that the search needs for its answer is in a part that ends no later than the block's phase and the budget; other parts do
/// no harm, nor does any order or repetition. The budget is at most 2^40 blocks. Then the lines make the text of a checkpoint, they
/// lack no block, and no two of them disagree; so a session of `join` over them writes a checkpoint, unless the source, the sink or
/// the memory fails or too many bytes come. No search needs a block beyond the budget, so parts that have all blocks of the plan
/// below the budget, each ending within its phase, are always enough. Whoever shares out a search in ranges that lie within its
/// phases can rely on this: once each range is done, `join` finds nothing missing. The lines that `part` prints are true
/// (`printed_lines_are_read`).
pub fn parts_of_all_blocks_are_joined()
    ensures text { (digest : List ℕ) (C : Matrix) (budget : ℕ) (lines : List Numbered) → 0 < length C.rows →
        budget ≤ 2 ^ 40 → AreEnough digest C budget lines → (text : List ℕ) × HasText budget lines text }
    ensures none_missing { (digest : List ℕ) (C : Matrix) (budget : ℕ) (lines : List Numbered) → 0 < length C.rows →
        budget ≤ 2 ^ 40 → AreEnough digest C budget lines → (a b : ℕ) → Lacks budget lines a b → ⊥ }
    ensures none_disagree { (digest : List ℕ) (C : Matrix) (lines : List Numbered) → All (IsTrueLine digest C) lines →
        (i j : ℕ) → Disagree lines i j → ⊥ }
    ensures session { (arguments : List (List ℕ)) (old new : Ends) (ending : JoinEnding) (digest : List ℕ)
        (C : Matrix) (budget : ℕ) → 0 < length C.rows → budget ≤ 2 ^ 40 → join_options arguments ≡ asked budget →
        ((bytes : List ℕ) → HasRead old new bytes → AreEnough digest C budget (lines_in bytes)) →
        IsJoinSession arguments old new ending → WroteOrFailed ending }
    ensures all { (C : Matrix) (budget : ℕ) (parts : List Part) → 0 < length C.rows →
        CoverBelow (facts_of C) budget budget parts →
        CoverBelow (facts_of C) budget (answer_blocks (answer (divisor_of C) C budget)) parts }
{}
