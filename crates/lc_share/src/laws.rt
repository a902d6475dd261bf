//! The law of the lines that `part` prints.
//!
//! The function proves what its clauses say and does nothing when it is run.

ghost use Rattle.std.specs.Prelude.{◌≡◌, ℕ, ◌<◌, ◌≤◌, List, [], ◌∷◌, length};
ghost use Rattle.std.specs.Io.KnownBytes.{Appends};
ghost use Rattle.lc_algebra.specs.Matrix.{Matrix};
ghost use Rattle.lc_language.specs.declared.Call.{Call};
ghost use Rattle.lc_calls.specs.Built.{built_calls};
ghost use Rattle.lc_session_rules.specs.Needs.{MeetsFirst};
ghost use Rattle.lc_part_lines.specs.Line.{PartLine};
ghost use Rattle.lc_share.specs.Asked.{PartAsked, asked, part_options};
ghost use Rattle.lc_share.specs.PartSession.{IsPartText, Ends, printed, IsPartSession, HasRead};
ghost use Rattle.lc_share.specs.Printed.{IsPrinted, IsMeant};

/// A line that `part` prints is in range, so the reader of lines gives it back. The text of a part of a script, for every range of at
/// least one block, is such a line, of a true part of the first search of the script; the command line asks for no other range. So
/// what `part` prints of a script is a line that is meant for the first code that the script searches.
pub fn printed_lines_are_in_range()
    ensures ranged { (table : List Call) (bytes text : List ℕ) (a : PartAsked) → 1 ≤ a.count →
        IsPartText table bytes a text → (C : Matrix) × (l : PartLine) × MeetsFirst table bytes (C ∷ [])
        × (0 < length C.rows) × IsMeant bytes C l text }
    ensures some { (arguments : List (List ℕ)) (a : PartAsked) → part_options arguments ≡ asked a → 1 ≤ a.count }
    ensures meant { (bytes text : List ℕ) (C : Matrix) (needs : List Matrix) →
        MeetsFirst built_calls bytes (C ∷ needs) → IsPrinted built_calls bytes text →
        (l : PartLine) × IsMeant bytes C l text }
    ensures session { (table : List Call) (arguments : List (List ℕ)) (old new : Ends) →
        IsPartSession table arguments old new printed → (bytes text : List ℕ) × HasRead old new bytes
        × IsPrinted table bytes text × Appends old.sink new.sink text }
{}
