//! The text of a script, from its bytes.
ghost use Rattle.std.specs.Prelude.{◌≡◌, ◌^◌, ◌<◌, ◌≤◌, ℕ, List, [], length, false, is_some, IsOk, MatchResult};
ghost use Rattle.lc_algebra.specs.Matrix.{Matrix};
ghost use Rattle.lc_calls.specs.Built.{built_calls};
ghost use Rattle.lc_session_rules.specs.Needs.{MeetsFirst};
ghost use Rattle.lc_rounds.specs.Surroundings.{seen, seen_after};
ghost use Rattle.lc_rounds.specs.Going.{World, IsRanged, Goes};
ghost use Rattle.lc_text.specs.Text.{Prints, EndsBefore};

use crate::statements::{Text, ended, text_of};
use lc_crew::Crew;
use lc_eval::Machine;
use lc_io::{Gate, Vault, Watcher};
use lc_parse::{ParseRefusal, parse};
use lc_print::fault_line;
use lc_rounds::{Course, Halt, Stop, Surroundings};
use std::thread::Threads;

/// The text that the bytes print as a script, with the rounds of the searches that it asks for. If they are no script it is one
/// fault line, and a statement that is refused ends it with a fault line. No bytes have a text, unless a record
/// is left.
///
/// The session has met no need, and the bytes ask for fewer than 70,000, as scripts of at most
/// 1,048,576 bytes do.
pub fn script_text<R: Threads + Sync, V: Vault, W: Watcher, G: Gate + Sync>(
    crew: &Crew<'_, R, G>,
    surroundings: Surroundings<'_, V, W>,
    course: &mut Course,
    bytes: &[u8],
) -> Result<Text, Halt>
    requires ranged { IsRanged course.old }
    requires unmet { course.old.met ≡ 0 }
    requires few { (needs : List Matrix) → MeetsFirst built_calls bytes.now needs → length needs < 70000 }
    ensures ends { (w : World) → Goes w [] [] course.old (seen V.Vault W.Watcher surroundings.entry) →
        MatchResult result (λ t. Prints w bytes.now t course.new (seen_after V.Vault W.Watcher surroundings.exit))
        (λ halt. EndsBefore w bytes.now course.new (seen_after V.Vault W.Watcher surroundings.exit) halt) }
    ensures nothing { bytes.now ≡ [] → is_some course.old.current ≡ false → IsOk result }
{
    let script = match parse(crew.alloc, bytes) {
        Ok(script) => script,
        Err(ParseRefusal::Fault { number, offset }) => {
            return match fault_line(crew.alloc, number, offset, &[]) {
                Ok(line) => ended(course, line, true),
                Err(_) => Err(Halt::Stop(Stop::NoMemory)),
            };
        }
        Err(ParseRefusal::NoMemory) => return Err(Halt::Stop(Stop::NoMemory)),
    };
    let mut machine = Machine::start(crew.alloc, script);
    text_of(crew, surroundings, course, &mut machine)
}
