//! The law of the lines of parts.
//!
//! The function proves what its clauses say and does nothing when it is run.

ghost use Rattle.std.specs.Prelude.{◌≡◌, ℕ, List};
ghost use Rattle.lc_part_lines.specs.Line.{PartLine, IsInRange, part_line, part_in, line_is};

/// A line that was read is in range, and each line in range is read back from its text.
pub fn lines_are_read_back()
    ensures ranged { (bytes : List ℕ) (l : PartLine) → part_in bytes ≡ line_is l → IsInRange l }
    ensures back { (l : PartLine) → IsInRange l → part_in (part_line l) ≡ line_is l }
{}
