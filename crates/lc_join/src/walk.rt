//! How parts are taken until the search is answered or none of them goes on.
ghost use Rattle.std.specs.Prelude.{◌≡◌, false, map};
ghost use Rattle.lc_parts.specs.Along.{first_by, is_answered};
ghost use Rattle.lc_parts.specs.Joined.{with_lines};
ghost use Rattle.lc_join.specs.Lines.{parts_in};
ghost use Rattle.lc_join.specs.Joining.{IsJoined, IsMissing};
ghost use Rattle.lc_join.specs.Seen.{numbered_of};

use crate::lines::Numbered;
use lc_parts::Joined;

// Takes the parts of the lines, one after another.
fn pass(joined: &mut Joined, lines: &[Numbered])
    ensures is { joined.new ≡ with_lines joined.old (parts_in (map numbered_of lines.now)) }
{
    for i in 0..lines.len() {
        joined.take(lines[i].line.part);
    }
}

/// Takes the parts of the lines, from the beginning of the search on, until it is answered or none of them goes on.
pub(crate) fn walk(joined: &mut Joined, lines: &[Numbered])
    requires begun { joined.old.progress ≡ first_by joined.old.facts }
    ensures joined { IsJoined joined.old.facts joined.old.budget (parts_in (map numbered_of lines.now))
        joined.new.progress }
    ensures script { joined.new.script ≡ joined.old.script }
    ensures facts { joined.new.facts ≡ joined.old.facts }
    ensures budget { joined.new.budget ≡ joined.old.budget }
{
    loop {
        let before = joined.blocks();
        pass(joined, lines);
        if joined.blocks() == before {
            return;
        }
    }
}

/// The last block that is missing, if the search isn't answered.
pub(crate) fn last_missing(joined: &Joined, lines: &[Numbered]) -> u64
    requires going { is_answered joined.now.facts joined.now.budget joined.now.progress ≡ false }
    ensures is { IsMissing joined.now.facts joined.now.budget (parts_in (map numbered_of lines.now))
        joined.now.progress result }
{
    let blocks = joined.blocks();
    let mut next = joined.wanted();
    for i in 0..lines.len() {
        let start = lines[i].line.part.start;
        if blocks < start {
            next = next.min(start);
        }
    }
    next - 1
}
