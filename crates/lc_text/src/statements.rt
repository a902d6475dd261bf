//! The statements of a script, one after another.
ghost use Rattle.std.specs.Prelude.{◌≡◌, ◌+◌, ◌^◌, ◌<◌, ◌≤◌, ℕ, List, [], length, map, take, true, false, is_some, IsOk, MatchResult};
ghost use Rattle.lc_algebra.specs.Matrix.{Matrix};
ghost use Rattle.lc_parse.specs.Views.{statement_of};
ghost use Rattle.lc_calls.specs.Built.{built_calls};
ghost use Rattle.lc_session_rules.specs.Needs.{Needs};
ghost use Rattle.lc_session_rules.specs.Session.{end_number};
ghost use Rattle.lc_rounds.specs.Surroundings.{seen, seen_after};
ghost use Rattle.lc_rounds.specs.Going.{World, IsRanged, Goes};
ghost use Rattle.lc_text.specs.Text.{Finishes, Ends};

use crate::lines::{distribution_line, near_line};
use crate::queries::need_line;
use lc_crew::Crew;
use lc_eval::{Machine, Step};
use lc_io::{Gate, Vault, Watcher};
use lc_rounds::{Course, Halt, Stop, Surroundings};
use std::thread::Threads;

/// The text that a script prints.
#[derive(Drop)]
pub struct Text {
    /// Its lines, one after another.
    pub bytes: Vec<u8>,
    /// Whether a fault ends it.
    pub ends: bool,
}

impl Text {
    /// 1 if a fault ends it, else 0.
    pub fn number(&self) -> u8
        ensures { result ≡ end_number self.now.ends }
    {
        if self.ends { 1 } else { 0 }
    }
}

/// The text, unless a record of the checkpoint is left.
pub(crate) fn ended(course: &Course, bytes: Vec<u8>, ends: bool) -> Result<Text, Halt>
    ensures { MatchResult result (λ t. (is_some course.now.current ≡ false) × (t.bytes.items ≡ bytes.items)
        × (t.ends ≡ ends)) (λ h. (is_some course.now.current ≡ true)
        × (h ≡ Halt.Unfit (length course.now.pace.point.settled.items + 1) 0)) }
{
    if course.current.is_some() {
        return Err(Halt::Unfit {
            told: course.pace.point.settled.len() as u64 + 1,
            found: 0,
        });
    }
    Ok(Text { bytes, ends })
}

/// The text of the statements of a machine that has done none, with the rounds of the searches that they ask for. With no
/// statement, and no record that is left, there is a text.
///
/// The session has met no need, and the statements ask for fewer than 70,000.
pub(crate) fn text_of<R: Threads + Sync, V: Vault, W: Watcher, G: Gate + Sync>(
    crew: &Crew<'_, R, G>,
    surroundings: Surroundings<'_, V, W>,
    course: &mut Course,
    machine: &mut Machine,
) -> Result<Text, Halt>
    requires ranged { IsRanged course.old }
    requires unmet { course.old.met ≡ 0 }
    requires unbound { machine.old.bindings ≡ [] }
    requires few { (n : ℕ) (needs : List Matrix) →
        Needs built_calls [] (take n (map statement_of machine.old.left)) needs → length needs < 70000 }
    ensures ends { (w : World) → Goes w [] [] course.old (seen V.Vault W.Watcher surroundings.entry) →
        MatchResult result (λ t. Finishes w (map statement_of machine.old.left) t course.new
        (seen_after V.Vault W.Watcher surroundings.exit))
        (λ halt. Ends w (map statement_of machine.old.left) course.new
        (seen_after V.Vault W.Watcher surroundings.exit) halt) }
    ensures nothing { machine.old.left ≡ [] → is_some course.old.current ≡ false → IsOk result }
{
    let Surroundings { vault, watchers } = surroundings;
    let budget = course.pace.point.budget;
    let mut bytes = Vec::new(crew.alloc);
    'statements: loop {
        let Ok(step) = machine.step(crew.alloc) else {
            return Err(Halt::Stop(Stop::NoMemory));
        };
        match step {
            Step::Line(line) => {
                if bytes.extend_from_slice(&line).is_err() {
                    return Err(Halt::Stop(Stop::NoMemory));
                }
            }
            Step::Silent => {}
            Step::Need(query) => {
                let lent = Surroundings { vault, watchers };
                let line = match need_line(crew, lent, course, query.kind, &query.code) {
                    Ok(line) => line,
                    Err(halt) => return Err(halt),
                };
                if bytes.extend_from_slice(&line).is_err() {
                    return Err(Halt::Stop(Stop::NoMemory));
                }
            }
            Step::Weights(code) => {
                let Ok(line) = distribution_line(crew.rt, crew.alloc, crew.workers, &code) else {
                    return Err(Halt::Stop(Stop::NoMemory));
                };
                if bytes.extend_from_slice(&line).is_err() {
                    return Err(Halt::Stop(Stop::NoMemory));
                }
            }
            Step::Near(code, word) => {
                let Ok(line) = near_line(crew.rt, crew.alloc, crew.workers, budget, &code, &word)
                else {
                    return Err(Halt::Stop(Stop::NoMemory));
                };
                if bytes.extend_from_slice(&line).is_err() {
                    return Err(Halt::Stop(Stop::NoMemory));
                }
            }
            Step::Fault(line) => {
                if bytes.extend_from_slice(&line).is_err() {
                    return Err(Halt::Stop(Stop::NoMemory));
                }
                return ended(course, bytes, true);
            }
            Step::End => return ended(course, bytes, false),
        }
    }
}
