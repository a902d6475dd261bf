//! The session of `summary`.
ghost use Rattle.std.specs.Prelude.{◌≡◌, ℕ, List, Option};
ghost use Rattle.lc_calls.specs.Built.{built_calls};
ghost use Rattle.lc_session_rules.specs.Options.{settings, options, all_options};
ghost use Rattle.lc_session_rules.specs.Session.{IsSession};
ghost use Rattle.lc_arguments.specs.Asked.{settings_for, IsWithin};
ghost use Rattle.lc_rounds.specs.Surroundings.{seen, seen_after};
ghost use Rattle.lc_text.specs.Worlds.{outside_of};
ghost use Rattle.lc_session.specs.Ending.{ending_of};

use crate::status::Status;
use lc_arguments::{Command, Settings};
use lc_crew::Crew;
use lc_eval::QueryKind;
use lc_io::{Gate, Sink, Vault, Watcher, write_whole};
use lc_rounds::{Surroundings, afresh};
use lc_summary::{summary_code, summary_line};
use lc_text::need_line;
use std::thread::Threads;

/// The session of `summary`: writes the line of the code of a seed. It reads nothing, and leaves the vault as it is.
pub(crate) fn summary<R: Threads + Sync, K: Sink, V: Vault, W: Watcher, G: Gate + Sync>(
    crew: &Crew<'_, R, G>,
    asked: Settings,
    sink: &mut K,
    surroundings: Surroundings<'_, V, W>,
) -> Status
    requires within { IsWithin asked }
    requires sums { asked.command ≡ Command.Summary }
    ensures { (args : List (List ℕ)) (source : Option (List ℕ)) (source_faults : ℕ) →
        options all_options args ≡ settings (settings_for asked) →
        IsSession built_calls args (outside_of source source_faults (K.written sink.old) (K.faults sink.old)
        (seen V.Vault W.Watcher surroundings.entry))
        (outside_of source source_faults (K.written sink.new) (K.faults sink.new)
        (seen_after V.Vault W.Watcher surroundings.exit)) (ending_of result) }
{
    let Ok(code) = summary_code(crew.alloc, asked.number) else {
        return Status::NoMemory { told: 0 };
    };
    let mut course = afresh(crew.alloc, false, asked.round, None, asked.budget, [0; 32]);
    let line = match need_line(crew, surroundings, &mut course, QueryKind::Distance, &code) {
        Ok(line) => line,
        Err(_) => {
            return Status::NoMemory {
                told: course.pace.told,
            };
        }
    };
    let told = course.pace.told;
    let Ok(text) = summary_line(crew.alloc, asked.number, &line, told) else {
        return Status::NoMemory { told };
    };
    match write_whole(sink, &text) {
        Ok(()) => Status::Done(0),
        Err(_) => Status::SinkFault,
    }
}
