//! The sessions of `run` and `resume`.
ghost use Rattle.std.specs.Prelude.{◌≡◌, ◌≢◌, ℕ, List, [], true, false, Some, OnOk, OnErr, MatchResult};
ghost use Rattle.lc_io.specs.Vaults.{WhereTold, empty_slots};
ghost use Rattle.lc_io.specs.Outside.{HasRisen};
ghost use Rattle.lc_calls.specs.Built.{built_calls};
ghost use Rattle.lc_session_rules.specs.Options.{settings, options, all_options};
ghost use Rattle.lc_session_rules.specs.Session.{AreHalfEmptied, IsSession};
ghost use Rattle.lc_arguments.specs.Asked.{settings_for, IsWithin};
ghost use Rattle.lc_rounds.specs.Surroundings.{seen, seen_after};
ghost use Rattle.lc_text.specs.Worlds.{outside_of};
ghost use Rattle.lc_session.specs.Ending.{ending_of};
ghost use Rattle.lc_session.specs.Closing.{Closes, status_of};

use crate::status::Status;
use lc_arguments::{Command, Settings};
use lc_crew::Crew;
use lc_io::{Failed, Gate, Sink, Source, Vault, Watcher, write_whole};
use lc_rounds::{Course, Halt, Stop, Surroundings, afresh, resumed};
use lc_session_rules::needs::needs_take_bytes;
use lc_session_rules::{InputRefusal, input};
use lc_slots::{Found, LoadRefusal, chosen, digest, emptied, is_for};
use lc_text::{Text, script_text};
use std::thread::Threads;

// How a session ends before its script.
fn status_of(course: &Course, halt: Halt) -> Status
    ensures { result ≡ status_of course.now halt }
{
    match halt {
        Halt::Stop(Stop::Paused) => Status::Paused {
            query: course.pace.last.query,
            blocks: course.pace.last.blocks,
        },
        Halt::Stop(Stop::VaultFault) => Status::VaultFault {
            told: course.pace.told,
        },
        Halt::Stop(Stop::NoMemory) => Status::NoMemory {
            told: course.pace.told,
        },
        Halt::Unfit { told, found } => Status::Unfit {
            query: course.met,
            told,
            found,
        },
    }
}

// Writes the text, if there is one.
fn closed<K: Sink>(sink: &mut K, course: &Course, found: Result<Text, Halt>) -> Status
    ensures { Closes found course.now (K.written sink.old) (K.written sink.new) (K.faults sink.old)
        (K.faults sink.new) result }
{
    match found {
        Ok(text) => match write_whole(sink, &text.bytes) {
            Ok(()) => Status::Done(text.number()),
            Err(_) => Status::SinkFault,
        },
        Err(halt) => status_of(course, halt),
    }
}

// Empties the slots, if checkpoints are kept.
fn cleared<V: Vault>(vault: &mut V, keep: bool) -> Result<(), Failed>
    ensures emptied { OnOk result (keep ≡ true → WhereTold (V.contents vault.old) (V.contents vault.new)
        (λ before after. after ≡ empty_slots)) }
    ensures kept { OnOk result (keep ≡ false → V.contents vault.new ≡ V.contents vault.old) }
    ensures half { OnErr result
        ((keep ≡ true) × WhereTold (V.contents vault.old) (V.contents vault.new) AreHalfEmptied) }
    ensures count { MatchResult result (λ _. V.faults vault.new ≡ V.faults vault.old)
        (λ _. HasRisen (V.faults vault.old) (V.faults vault.new)) }
{
    if !keep {
        return Ok(());
    }
    emptied(vault)
}

/// The session of `run`: reads a script, empties the slots if checkpoints are kept, and writes the text of the script. It
/// doesn't end for want of memory if the source tells its bytes and has none.
pub(crate) fn run<R: Threads + Sync, S: Source, K: Sink, V: Vault, W: Watcher, G: Gate + Sync>(
    crew: &Crew<'_, R, G>,
    asked: Settings,
    source: &mut S,
    sink: &mut K,
    surroundings: Surroundings<'_, V, W>,
) -> Status
    requires within { IsWithin asked }
    requires runs { asked.command ≡ Command.Run }
    ensures session { (args : List (List ℕ)) → options all_options args ≡ settings (settings_for asked) →
        IsSession built_calls args (outside_of (S.rest source.old) (S.faults source.old) (K.written sink.old)
        (K.faults sink.old) (seen V.Vault W.Watcher surroundings.entry))
        (outside_of (S.rest source.new) (S.faults source.new) (K.written sink.new) (K.faults sink.new)
        (seen_after V.Vault W.Watcher surroundings.exit)) (ending_of result) }
    ensures nothing { S.rest source.old ≡ Some [] → (told : ℕ) → result ≢ Status.NoMemory told }
{
    let bytes = match input(crew.alloc, source) {
        Ok(bytes) => bytes,
        Err(InputRefusal::Failed) => return Status::SourceFault,
        Err(InputRefusal::TooLong) => return Status::TooLong,
        Err(InputRefusal::NoMemory) => return Status::NoMemory { told: 0 },
    };
    match cleared(surroundings.vault, asked.keep) {
        Ok(()) => {}
        Err(_) => return Status::VaultFault { told: 0 },
    }
    // A script of so many bytes asks for fewer than 70,000 searches.
    needs_take_bytes();
    let mut course = afresh(
        crew.alloc,
        asked.keep,
        asked.round,
        asked.slice,
        asked.budget,
        digest(&bytes),
    );
    let found = script_text(crew, surroundings, &mut course, &bytes);
    closed(sink, &course, found)
}

/// The session of `resume`: reads a script, takes the checkpoint that goes on, and writes the text of the script.
pub(crate) fn resume<R: Threads + Sync, S: Source, K: Sink, V: Vault, W: Watcher, G: Gate + Sync>(
    crew: &Crew<'_, R, G>,
    asked: Settings,
    source: &mut S,
    sink: &mut K,
    surroundings: Surroundings<'_, V, W>,
) -> Status
    requires within { IsWithin asked }
    requires resumes { asked.command ≡ Command.Resume }
    ensures { (args : List (List ℕ)) → options all_options args ≡ settings (settings_for asked) →
        IsSession built_calls args (outside_of (S.rest source.old) (S.faults source.old) (K.written sink.old)
        (K.faults sink.old) (seen V.Vault W.Watcher surroundings.entry))
        (outside_of (S.rest source.new) (S.faults source.new) (K.written sink.new) (K.faults sink.new)
        (seen_after V.Vault W.Watcher surroundings.exit)) (ending_of result) }
{
    let bytes = match input(crew.alloc, source) {
        Ok(bytes) => bytes,
        Err(InputRefusal::Failed) => return Status::SourceFault,
        Err(InputRefusal::TooLong) => return Status::TooLong,
        Err(InputRefusal::NoMemory) => return Status::NoMemory { told: 0 },
    };
    let point = match chosen(crew.alloc, surroundings.vault) {
        Ok(Found::Taken(point)) => point,
        Ok(Found::Nothing) => return Status::NoCheckpoint,
        Ok(Found::Damaged) => return Status::DamagedCheckpoint,
        Err(LoadRefusal::VaultFault) => return Status::VaultFault { told: 0 },
        Err(LoadRefusal::NoMemory) => return Status::NoMemory { told: 0 },
    };
    if !is_for(&digest(&bytes), asked.budget, &point) {
        return Status::OtherScript {
            script: point.script,
            budget: point.budget,
        };
    }
    // A script of so many bytes asks for fewer than 70,000 searches.
    needs_take_bytes();
    let mut course = resumed(asked.keep, asked.round, asked.slice, point);
    let found = script_text(crew, surroundings, &mut course, &bytes);
    closed(sink, &course, found)
}
