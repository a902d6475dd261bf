//! What the program does with its arguments.
ghost use Rattle.std.specs.Prelude.{◌≡◌};
ghost use Rattle.std.specs.Process.{exit_status};
ghost use Rattle.lc_arguments.specs.Asked.{words_of};
ghost use Rattle.lc_rounds.specs.Surroundings.{seen, seen_after};
ghost use Rattle.lc_text.specs.Worlds.{outside_of};
ghost use Rattle.codes.specs.declared.texts.TheConstants.{HELP, VERSION};
ghost use Rattle.codes.specs.Program.{asked_by, first_asks, IsAnswer, IsEnded, IsNoted, IsProgram, notes_of};

use crate::arguments::CommandLine;
use crate::ending::Ending;
use crate::texts::{HELP, VERSION};
use lc_io::{OpenGate, Sink, Source, Vault, Watcher, write_whole};
use lc_join::join_parts;
use lc_json::is_same;
use lc_rounds::Surroundings;
use lc_session::{Runtime, Status, run_session_over, told_text};
use lc_share::run_part;
use std::alloc::Global;
use std::process::ExitCode;
use std::thread::Threads;

/// What the program is run with, beside its streams, its slots and its watchers: where it takes memory, the handle that starts
/// threads, and the command line.
#[derive(Drop)]
pub(crate) struct Host<'a, R> {
    pub(crate) alloc: Global,
    pub(crate) threads: &'a R,
    pub(crate) line: CommandLine,
}

// What the first argument says of what is asked for.
#[derive(Clone, Copy)]
enum First {
    Part,
    Join,
    Other,
}

// What the first argument is.
#[tactic(auto, unfolding(crate::specs::Program::first_asks))]
fn first_of(arguments: &[String]) -> First
    ensures is { first_asks (words_of arguments.now) ≡ asked_by result }
{
    match arguments.first() {
        Some(first) if is_same(b"part", first.as_bytes()) => First::Part,
        Some(first) if is_same(b"join", first.as_bytes()) => First::Join,
        _ => First::Other,
    }
}

// What the arguments ask for: a text, a part of a search, parts that are joined, or a session, whose searches may start threads.
fn answer<R: Threads + Sync, S: Source, K: Sink, V: Vault, W: Watcher>(
    host: &Host<'_, R>,
    arguments: &[String],
    source: &mut S,
    sink: &mut K,
    surroundings: Surroundings<'_, V, W>,
) -> Ending
    ensures is { IsAnswer HELP.now VERSION.now (words_of arguments.now)
        (outside_of (S.rest source.old) (S.faults source.old) (K.written sink.old) (K.faults sink.old)
        (seen V.Vault W.Watcher surroundings.entry))
        (outside_of (S.rest source.new) (S.faults source.new) (K.written sink.new) (K.faults sink.new)
        (seen_after V.Vault W.Watcher surroundings.exit)) result }
{
    if let Some(status) = told_text(arguments, HELP, VERSION, sink) {
        return Ending::Session(status);
    }
    let (rt, alloc, gate) = (host.threads, host.alloc, &OpenGate);
    let runtime = Runtime { rt, alloc, gate };
    match first_of(arguments) {
        First::Part => Ending::Part(run_part(rt, alloc, arguments, source, sink, gate)),
        First::Join => Ending::Join(join_parts(alloc, arguments, source, sink)),
        First::Other => Ending::Session(run_session_over(
            &runtime,
            arguments,
            source,
            sink,
            surroundings,
        )),
    }
}

// Writes the line of an ending to standard error. A write that fails is passed over.
fn tell<E: Sink>(ending: &Ending, errors: &mut E)
    ensures is { IsNoted ending.now (notes_of (E.written errors.old) (E.faults errors.old))
        (notes_of (E.written errors.new) (E.faults errors.new)) }
{
    let _ = write_whole(errors, ending.line().as_bytes());
}

/// Does what the command line asks for: reads the source, writes the text to the sink, keeps checkpoints in the vault and tells
/// the watchers; then it writes the line of how that ended to standard error, and its number is the status. Without memory for
/// the words nothing is done or written, and the status is that of want of memory.
#[tactic(auto, unfolding(lc_session_rules::specs::Endings::ending_number))]
pub(crate) fn program<R: Threads + Sync, S: Source, K: Sink, V: Vault, W: Watcher, E: Sink>(
    host: &Host<'_, R>,
    source: &mut S,
    sink: &mut K,
    surroundings: Surroundings<'_, V, W>,
    errors: &mut E,
) -> ExitCode
    ensures is { IsProgram HELP.now VERSION.now host.now.line
        (outside_of (S.rest source.old) (S.faults source.old) (K.written sink.old) (K.faults sink.old)
        (seen V.Vault W.Watcher surroundings.entry))
        (outside_of (S.rest source.new) (S.faults source.new) (K.written sink.new) (K.faults sink.new)
        (seen_after V.Vault W.Watcher surroundings.exit))
        (notes_of (E.written errors.old) (E.faults errors.old))
        (notes_of (E.written errors.new) (E.faults errors.new)) (exit_status result) }
{
    let ending = match &host.line {
        CommandLine::Words(words) => answer(host, words, source, sink, surroundings),
        CommandLine::NotUtf8 => Ending::Session(Status::Usage(0)),
        CommandLine::NoMemory => return ExitCode::from(Status::NoMemory { told: 0 }.number()),
    };
    tell(&ending, errors);
    ExitCode::from(ending.number())
}
