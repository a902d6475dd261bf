//! The line of a query, with the rounds of its search.
ghost use Rattle.std.specs.Prelude.{◌≡◌, ◌+◌, ◌<◌, ◌≤◌, List, [], ◌∷◌, ◌++◌, length, IfOk, MatchResult};
ghost use Rattle.lc_algebra.specs.Matrix.{Matrix};
ghost use Rattle.lc_enumeration.specs.Search.{Answer};
ghost use Rattle.lc_eval.specs.Evaluated.{kind_of};
ghost use Rattle.lc_session_rules.specs.Answers.{answer_line};
ghost use Rattle.lc_rounds.specs.Surroundings.{seen, seen_after};
ghost use Rattle.lc_rounds.specs.Going.{World, IsRanged, Goes, Halts};

use crate::lines::line_of;
use lc_code::Code;
use lc_crew::Crew;
use lc_eval::QueryKind;
use lc_io::{Gate, Vault, Watcher};
use lc_rounds::{Course, Halt, Stop, Surroundings, answer_need};
use std::thread::Threads;

/// The line that a query prints of a code, the next need of a session: by the record of a checkpoint, if it has one there, else
/// by its search.
///
/// The code has dimension at least 1, and fewer than 70,000 needs were met.
pub fn need_line<R: Threads + Sync, V: Vault, W: Watcher, G: Gate + Sync>(
    crew: &Crew<'_, R, G>,
    surroundings: Surroundings<'_, V, W>,
    course: &mut Course,
    kind: QueryKind,
    code: &Code,
) -> Result<Vec<u8>, Halt>
    requires rows { 0 < length code.now.rows }
    requires ranged { IsRanged course.old }
    requires few { course.old.met < 70000 }
    ensures goes { MatchResult result (λ line. (a : Answer) × (line.items ≡ answer_line (kind_of kind) code.now a)
        × ((w : World) (needs : List Matrix) (answers : List Answer) →
        Goes w needs answers course.old (seen V.Vault W.Watcher surroundings.entry) →
        Goes w (needs ++ code.now ∷ []) (answers ++ a ∷ []) course.new
        (seen_after V.Vault W.Watcher surroundings.exit)))
        (λ halt. (w : World) (needs : List Matrix) (answers : List Answer) →
        Goes w needs answers course.old (seen V.Vault W.Watcher surroundings.entry) →
        Halts w needs code.now course.new (seen_after V.Vault W.Watcher surroundings.exit) halt) }
    ensures ranged { IfOk result (λ _. IsRanged course.new) }
    ensures same { IfOk result (λ _. course.new.met ≡ course.old.met + 1) }
{
    let found = match answer_need(crew, surroundings, course, code) {
        Ok(found) => found,
        Err(halt) => return Err(halt),
    };
    match line_of(crew.alloc, kind, &found.search, found.answer) {
        Ok(line) => Ok(line),
        Err(_) => Err(Halt::Stop(Stop::NoMemory)),
    }
}
