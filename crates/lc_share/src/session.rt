//! A session of `part`, from the arguments and the script in to the line out.
ghost use Rattle.std.specs.Prelude.{◌≡◌, ◌≤◌, IfOk, MatchOption};
ghost use Rattle.sha2.specs.Sha256.{sha256};
ghost use Rattle.lc_formats.specs.Text.{line};
ghost use Rattle.lc_parts.specs.Seen.{part_of, facts_seen};
ghost use Rattle.lc_part_lines.specs.Line.{part_line};
ghost use Rattle.lc_calls.specs.Built.{built_calls};
ghost use Rattle.lc_arguments.specs.Asked.{words_of};
ghost use Rattle.lc_share.specs.PartSession.{IsPartText, HasNoPart, IsPartSession};
ghost use Rattle.lc_share.specs.Found.{IsPartDone};
ghost use Rattle.lc_share.specs.Seen.{asked_of, ends_of, ending_of};

use crate::arguments::{PartAsked, part_options};
use crate::need::first_need;
use crate::status::PartStatus;
use lc_crew::Crew;
use lc_field::NoMemory;
use lc_io::{Gate, Sink, Source, write_whole};
use lc_part_lines::{PartLine, write};
use lc_part_search::{Done, find_part};
use lc_session_rules::{InputRefusal, input};
use lc_slots::digest;
use std::alloc::Global;
use std::thread::Threads;

// The line of a part that was done, with its newline.
fn line_of(alloc: Global, bytes: &[u8], done: Done) -> Result<Vec<u8>, NoMemory>
    ensures is { IfOk result (λ text. text.items ≡ line (part_line (record {
      script = sha256 bytes.now;
      facts = facts_seen done.facts;
      part = part_of done.part;
    }))) }
{
    let Done { facts, part } = done;
    let line = PartLine {
        script: digest(bytes),
        facts,
        part,
    };
    let mut text = write(alloc, &line)?;
    text.push(b'\n')?;
    Ok(text)
}

// The part that is asked for; None if the script has no such part.
fn part_of<R: Threads + Sync, G: Gate + Sync>(
    rt: &R,
    alloc: Global,
    asked: &PartAsked,
    bytes: &[u8],
    gate: &G,
) -> Result<Option<Done>, NoMemory>
    requires workers { (1 ≤ asked.now.workers) × (asked.now.workers ≤ 256) }
    ensures is { IfOk result (λ o. MatchOption o (HasNoPart built_calls bytes.now (asked_of asked.now))
        (IsPartDone built_calls bytes.now (asked_of asked.now))) }
{
    let Some(code) = first_need(alloc, bytes)? else {
        return Ok(None);
    };
    let crew = Crew {
        rt,
        alloc,
        workers: asked.workers,
        gate,
    };
    find_part(&crew, &code, asked.start, asked.count)
}

// The line of the part that is asked for; None if the script has no such part.
fn part_text<R: Threads + Sync, G: Gate + Sync>(
    rt: &R,
    alloc: Global,
    asked: &PartAsked,
    bytes: &[u8],
    gate: &G,
) -> Result<Option<Vec<u8>>, NoMemory>
    requires workers { (1 ≤ asked.now.workers) × (asked.now.workers ≤ 256) }
    ensures is { IfOk result (λ o. MatchOption o (HasNoPart built_calls bytes.now (asked_of asked.now))
        (λ text. IsPartText built_calls bytes.now (asked_of asked.now) text.items)) }
{
    let Some(done) = part_of(rt, alloc, asked, bytes, gate)? else {
        return Ok(None);
    };
    let line = line_of(alloc, bytes, done)?;
    Ok(Some(line))
}

/// Does a part of the first search of a script, and writes its line: `arguments` are those of the command line after the
/// program's name. They are `part`, `from=A`, `count=N`, and then there may be `workers=W`: A is at most 2^40, N 1 to 2^40,
/// and W 1 to 256, and 1 without it.
///
/// It reads a script of at most 1,048,576 bytes from the source, does its statements up to the first that searches, and does
/// the blocks A to A + N - 1 of the plan of that search. The line tells the least of their words and the word at place 0, and
/// what joins it to the lines of other parts; `lc_part_lines` reads it. Nothing is written unless the whole line is ready.
///
/// The contract is `IsPartSession`: what is read and written under each status, and when each of them comes.
pub fn run_part<R: Threads + Sync, S: Source, K: Sink, G: Gate + Sync>(
    rt: &R,
    alloc: Global,
    arguments: &[String],
    source: &mut S,
    sink: &mut K,
    gate: &G,
) -> PartStatus
    ensures session { IsPartSession built_calls (words_of arguments.now)
        (ends_of (S.rest source.old) (S.faults source.old) (K.written sink.old) (K.faults sink.old))
        (ends_of (S.rest source.new) (S.faults source.new) (K.written sink.new) (K.faults sink.new))
        (ending_of result) }
{
    let asked = match part_options(arguments) {
        Ok(asked) => asked,
        Err(index) => return PartStatus::Usage(index),
    };
    let bytes = match input(alloc, source) {
        Ok(bytes) => bytes,
        Err(InputRefusal::Failed) => return PartStatus::SourceFault,
        Err(InputRefusal::TooLong) => return PartStatus::TooLong,
        Err(InputRefusal::NoMemory) => return PartStatus::NoMemory,
    };
    if bytes.is_empty() {
        return PartStatus::NoPart;
    }
    let line = match part_text(rt, alloc, &asked, &bytes, gate) {
        Ok(Some(line)) => line,
        Ok(None) => return PartStatus::NoPart,
        Err(_) => return PartStatus::NoMemory,
    };
    match write_whole(sink, &line) {
        Ok(()) => PartStatus::Printed,
        Err(_) => PartStatus::SinkFault,
    }
}
