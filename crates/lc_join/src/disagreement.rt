//! The first line that disagrees with an earlier one.
ghost use Rattle.std.specs.Prelude.{◌≡◌, ◌<◌, length, map, None, All, MatchOption};
ghost use Rattle.std.specs.List.{position, AllPairs, HoldsAt};
ghost use Rattle.lc_parts.specs.Joined.{differs_from};
ghost use Rattle.lc_parts.specs.Seen.{part_of};
ghost use Rattle.lc_join.specs.Lines.{Agree, Disagree};
ghost use Rattle.lc_join.specs.Seen.{numbered_of, IsOf};

use crate::lines::Numbered;
use lc_parts::{Joined, Part};

// Whether two parts have one range, and two words.
#[tactic(auto, unfolding(lc_parts::specs::Joined::differs_from))]
fn differ(part: &Part, other: &Part) -> bool
    ensures is { result ≡ differs_from (part_of part.now) (part_of other.now) }
{
    part.start == other.start
        && part.count == other.count
        && !(part.weight == other.weight && part.place == other.place)
}

// The index of the first line that has the part's range, and another word.
fn first_other(lines: &[Numbered], part: &Part) -> Option<usize>
    ensures is { result ≡ position (λ l. differs_from (part_of l.line.part) (part_of part.now)) lines.now }
{
    lines.iter().position(|l| differ(&l.line.part, part))
}

/// The numbers of the first line that disagrees with an earlier one: of the earliest such line, and its own. The search is that of
/// the first line.
pub(crate) fn disagreement(joined: &Joined, lines: &[Numbered]) -> Option<(u64, u64)>
    requires some { 0 < length lines.now }
    requires first { HoldsAt (IsOf joined.now) lines.now 0 }
    ensures is { MatchOption result (AllPairs Agree (map numbered_of lines.now))
        (λ x. Disagree (map numbered_of lines.now) x.0 x.1) }
    ensures one { result ≡ None → All (IsOf joined.now) lines.now }
{
    for i in 0..lines.len() {
        let line = &lines[i].line;
        if !joined.is_of(&line.script, &line.facts) {
            return Some((lines[0].number, lines[i].number));
        }
        let (earlier, _) = lines.split_at(i);
        if let Some(k) = first_other(earlier, &line.part) {
            return Some((lines[k].number, lines[i].number));
        }
    }
    None
}
