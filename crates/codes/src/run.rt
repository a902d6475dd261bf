//! The program over its streams and the slots and watchers that are made for it.
ghost use Rattle.std.specs.Prelude.{◌≡◌};
ghost use Rattle.std.specs.Process.{exit_status};
ghost use Rattle.lc_io.specs.Watchers.{hearing};
ghost use Rattle.codes.specs.declared.texts.TheConstants.{HELP, VERSION};
ghost use Rattle.codes.specs.Program.{notes_of};
ghost use Rattle.codes.specs.Run.{IsRun, ends_of};

use crate::owned::OwnedSurroundings;
use crate::program::{Host, program};
use lc_io::{Folder, NoMemory, Sink, Source, Watcher};
use lc_rounds::Surroundings;
use lc_session::Status;
use std::io::Eprint;
use std::process::{ExitCode, Termination};
use std::thread::Threads;

/// The status with which the program ends. Only `run` makes one, so `main` answers no other.
#[derive(Drop)]
pub(crate) struct Exit {
    status: ExitCode,
}

impl Termination for Exit {
    fn report<R: Eprint>(self, _rt: &R) -> ExitCode
        ensures is { result ≡ self.status }
    {
        self.status
    }
}

/// Runs the program over these streams, and over the slots and watchers that were made for it. If memory ran out when they were
/// made, nothing is read or written, and the status is that of want of memory.
#[tactic(auto, unfolding(lc_session_rules::specs::Endings::ending_number))]
pub(crate) fn run<R: Threads + Sync, S: Source, K: Sink, V: Folder + Drop, W: Watcher, E: Sink>(
    host: &Host<'_, R>,
    source: &mut S,
    sink: &mut K,
    own: &mut Result<OwnedSurroundings<V, W>, NoMemory>,
    errors: &mut E,
) -> Exit
    ensures is { IsRun V.files (hearing W.heard W.coming W.pauses) HELP.now VERSION.now host.now.line own.old own.new
        (ends_of (S.rest source.old) (S.faults source.old) (K.written sink.old) (K.faults sink.old))
        (ends_of (S.rest source.new) (S.faults source.new) (K.written sink.new) (K.faults sink.new))
        (notes_of (E.written errors.old) (E.faults errors.old))
        (notes_of (E.written errors.new) (E.faults errors.new)) (exit_status result.status) }
{
    let Ok(own) = own else {
        return Exit {
            status: ExitCode::from(Status::NoMemory { told: 0 }.number()),
        };
    };
    let surroundings = Surroundings {
        vault: &mut own.vault,
        watchers: &mut own.watchers,
    };
    Exit {
        status: program(host, source, sink, surroundings, errors),
    }
}
