//! A session from the arguments and the bytes in to the bytes out.
ghost use Rattle.std.specs.Prelude.{◌≡◌, ◌≢◌, ℕ, [], map, Some};
ghost use Rattle.lc_io.specs.Watchers.{hearing};
ghost use Rattle.lc_calls.specs.Built.{built_calls};
ghost use Rattle.lc_session_rules.specs.Options as line;
ghost use Rattle.lc_session_rules.specs.Options.{Settings, all_options, options, settings};
ghost use Rattle.lc_session_rules.specs.Session.{IsSession};
ghost use Rattle.lc_arguments.specs.Asked.{words_of};
ghost use Rattle.lc_rounds.specs.Way.{around};
ghost use Rattle.lc_rounds.specs.Surroundings.{seen, seen_after};
ghost use Rattle.lc_text.specs.Worlds.{outside_of};
ghost use Rattle.lc_session.specs.Ending.{ending_of};

use crate::check::check;
use crate::scripts::{resume, run};
use crate::status::Status;
use crate::summary::summary;
use lc_arguments::{Command, OptionRefusal, options};
use lc_crew::Crew;
use lc_io::{Gate, Sink, Source, Vault, Watcher};
use lc_rounds::Surroundings;
use std::alloc::Global;
use std::thread::Threads;

/// What a session runs with.
#[derive(Drop)]
pub struct Runtime<'a, R, G> {
    /// What starts the threads of its searches.
    pub rt: &'a R,
    /// What memory comes from.
    pub alloc: Global,
    /// The gate that the workers of its searches pass.
    pub gate: &'a G,
}

/// Runs a session as `run_session` does, over watchers of any type; they and the vault come as one struct.
pub fn run_session_over<
    R: Threads + Sync,
    S: Source,
    K: Sink,
    V: Vault,
    W: Watcher,
    G: Gate + Sync,
>(
    runtime: &Runtime<'_, R, G>,
    arguments: &[String],
    source: &mut S,
    sink: &mut K,
    surroundings: Surroundings<'_, V, W>,
) -> Status
    ensures session { IsSession built_calls (words_of arguments.now)
        (outside_of (S.rest source.old) (S.faults source.old) (K.written sink.old) (K.faults sink.old)
        (seen V.Vault W.Watcher surroundings.entry))
        (outside_of (S.rest source.new) (S.faults source.new) (K.written sink.new) (K.faults sink.new)
        (seen_after V.Vault W.Watcher surroundings.exit)) (ending_of result) }
    ensures nothing { (asked : Settings) → options all_options (words_of arguments.now) ≡ settings asked →
        asked.command ≡ line.run → S.rest source.old ≡ Some [] → (told : ℕ) → result ≢ Status.NoMemory told }
{
    let asked = match options(runtime.alloc, arguments) {
        Ok(asked) => asked,
        Err(OptionRefusal::Usage(index)) => return Status::Usage(index),
        Err(OptionRefusal::NoMemory) => return Status::NoMemory { told: 0 },
    };
    let crew = Crew {
        rt: runtime.rt,
        alloc: runtime.alloc,
        workers: asked.workers,
        gate: runtime.gate,
    };
    match asked.command {
        Command::Run => run(&crew, asked, source, sink, surroundings),
        Command::Resume => resume(&crew, asked, source, sink, surroundings),
        Command::Check => check(runtime.alloc, asked, source, sink),
        Command::Summary => summary(&crew, asked, sink, surroundings),
    }
}

/// Runs a session: `arguments` are those of the command line after the program's name. The first is the
/// command.
///
/// `run` reads a script of at most 1,048,576 bytes from the source, and writes the text that it prints
/// to the sink: a line for each value and each answer, and a fault line if the script or a statement
/// is refused, which ends the text. After the command there may be `workers=N`, N from 1 to 256, for
/// the workers of a search; `budget=N`, N at most 2^40, for the blocks of at most 4,096 words that a search may
/// take, 2^20 without it; `round=N`, N from 1 to 2^20, for the blocks that a round of a search may take,
/// 256 without it; `keep=yes` or `keep=no`; and with `keep=yes` `slice=N`, N from 1 to 2^40, for the
/// blocks that the session may take. They come in any order, each at most once.
///
/// After each round of a search the watchers hear its record. With `keep=yes` a checkpoint is stored
/// before, in slot zero and slot one by turns, and the session pauses once a watcher asks for it or the
/// slice is used up. `run keep=yes` empties both slots first. `resume` goes on from the checkpoint of the
/// greater turn: its settled queries aren't searched again. It has the keys of `run`.
///
/// `check`, alone, reads a certificate of at most 1,048,576 bytes, and writes a line that says whether
/// it proves its distance, or the first reason for which it is rejected. `summary seed=N`, after which
/// there may be `workers=N`, `round=N` and `budget=N`, reads nothing, and writes the line of a code of length 48.
///
/// Nothing is written unless the whole text is ready. `run` of a source that tells its bytes and has none
/// does not end for want of memory. The contract of a session is `IsSession` of `lc_session_rules`: what is read,
/// told, stored and written under each status, and when each of them comes.
pub fn run_session<R: Threads + Sync, S: Source, K: Sink, V: Vault, G: Gate + Sync>(
    rt: &R,
    alloc: Global,
    arguments: &[String],
    source: &mut S,
    sink: &mut K,
    vault: &mut V,
    watchers: &mut Vec<Box<dyn Watcher>>,
    gate: &G,
) -> Status
    ensures session { IsSession built_calls (words_of arguments.now)
        (outside_of (S.rest source.old) (S.faults source.old) (K.written sink.old) (K.faults sink.old)
        (around (V.contents vault.old) (V.faults vault.old)
        (map (hearing (λ w. heard w) (λ w. coming w) (λ w. pauses w)) watchers.old.items)))
        (outside_of (S.rest source.new) (S.faults source.new) (K.written sink.new) (K.faults sink.new)
        (around (V.contents vault.new) (V.faults vault.new)
        (map (hearing (λ w. heard w) (λ w. coming w) (λ w. pauses w)) watchers.new.items))) (ending_of result) }
    // `run` does not end for want of memory if the source tells its bytes and has none.
    ensures nothing { (asked : Settings) → options all_options (words_of arguments.now) ≡ settings asked →
        asked.command ≡ line.run → S.rest source.old ≡ Some [] → (told : ℕ) → result ≢ Status.NoMemory told }
{
    let runtime = Runtime { rt, alloc, gate };
    let surroundings = Surroundings { vault, watchers };
    run_session_over(&runtime, arguments, source, sink, surroundings)
}
