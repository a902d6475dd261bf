//! What the watchers of a session hear, and sessions that they pause.
use crate::vaults::{HAMMING, says, words_of};
use lc_io::{
    Advice, MemorySink, MemorySource, MemoryVault, MemoryWatcher, NoMemory, OpenGate, Record,
    Watcher,
};
use lc_session::run_session;
use std::alloc::Global;
use std::test::Fail;
use std::thread::Threads;

// The records of the Hamming code.
const FIRST: Record = Record {
    query: 0,
    blocks: 1,
    bound: 2,
    best: 3,
};

const SECOND: Record = Record {
    query: 0,
    blocks: 2,
    bound: 3,
    best: 3,
};

// What the watchers of a session answer, what the one that is left has heard, and what is said of the status.
struct Row {
    answers: &'static [&'static [Advice]],
    heard: [Option<Record>; 3],
    line: &'static [u8],
}

const GO: Advice = Advice::Go;

const PAUSE: Advice = Advice::Pause;

const LEAVING: Row = Row {
    answers: &[&[GO, GO], &[GO], &[]],
    heard: [Some(FIRST), Some(SECOND), None],
    line: b"",
};

const PAUSED: Row = Row {
    answers: &[&[PAUSE, GO]],
    heard: [Some(FIRST), None, None],
    line: b"codes: paused at query 0 blocks 1\n",
};

const PAUSED_BY_TWO: Row = Row {
    answers: &[&[], &[GO, PAUSE]],
    heard: [Some(FIRST), Some(SECOND), None],
    line: b"codes: paused at query 0 blocks 2\n",
};

const NOT_KEPT: Row = Row {
    answers: &[&[PAUSE, GO]],
    heard: [Some(FIRST), Some(SECOND), None],
    line: b"",
};

// Adds a watcher that answers so.
fn add(
    alloc: Global,
    watchers: &mut Vec<Box<dyn Watcher>>,
    answers: &[Advice],
) -> Result<(), NoMemory> {
    watchers.push(Box::new(alloc, MemoryWatcher::new(alloc, answers)?)?)?;
    Ok(())
}

// Watchers that answer so.
fn watchers_of(
    alloc: Global,
    answers: &[&'static [Advice]],
) -> Result<Vec<Box<dyn Watcher>>, NoMemory> {
    let mut watchers = Vec::new(alloc);
    for advices in answers {
        add(alloc, &mut watchers, advices)?;
    }
    Ok(watchers)
}

fn has_heard(watcher: &Box<dyn Watcher>, heard: &[Option<Record>; 3]) -> bool {
    watcher.heard_at(0) == heard[0]
        && watcher.heard_at(1) == heard[1]
        && watcher.heard_at(2) == heard[2]
}

fn has_one(watchers: &[Box<dyn Watcher>], heard: &[Option<Record>; 3]) -> bool {
    watchers.len() == 1 && has_heard(&watchers[0], heard)
}

// Whether a session with these watchers ends with this line.
fn ends_with<R: Threads + Sync>(
    rt: &R,
    alloc: Global,
    words: &[String],
    source: &mut MemorySource,
    sink: &mut MemorySink,
    vault: &mut MemoryVault,
    watchers: &mut Vec<Box<dyn Watcher>>,
    line: &[u8],
) -> Result<bool, lc_field::NoMemory> {
    let status = run_session(rt, alloc, words, source, sink, vault, watchers, &OpenGate);
    says(alloc, &status, line)
}

fn hears<R: Threads + Sync>(
    rt: &R,
    alloc: Global,
    words: &[String],
    source: &mut MemorySource,
    sink: &mut MemorySink,
    vault: &mut MemoryVault,
    row: &Row,
) -> Result<bool, Fail> {
    let mut watchers = watchers_of(alloc, row.answers)?;
    let ended = ends_with(
        rt,
        alloc,
        words,
        source,
        sink,
        vault,
        &mut watchers,
        row.line,
    )?;
    Ok(ended && has_one(&watchers, &row.heard))
}

fn is_heard<R: Threads + Sync>(
    rt: &R,
    alloc: Global,
    words: &[String],
    sink: &mut MemorySink,
    vault: &mut MemoryVault,
    row: &Row,
) -> Result<bool, Fail> {
    let mut source = MemorySource::new(alloc, HAMMING, 64, &[])?;
    hears(rt, alloc, words, &mut source, sink, vault, row)
}

// Whether sessions over one sink and one vault are heard so.
fn vault_is_heard<R: Threads + Sync>(
    rt: &R,
    alloc: Global,
    words: &[String],
    sink: &mut MemorySink,
    vault: &mut MemoryVault,
    rows: &[&Row],
) -> Result<bool, Fail> {
    for row in rows {
        if !is_heard(rt, alloc, words, sink, vault, row)? {
            return Ok(false);
        }
    }
    Ok(true)
}

// Whether this is so by a sink of its own.
fn sink_is_heard<R: Threads + Sync>(
    rt: &R,
    alloc: Global,
    words: &[String],
    vault: &mut MemoryVault,
    rows: &[&Row],
) -> Result<bool, Fail> {
    let mut sink = MemorySink::new(alloc, 512, 64, &[])?;
    vault_is_heard(rt, alloc, words, &mut sink, vault, rows)
}

// Whether sessions with these arguments, over a vault whose calls of these numbers fail, are heard so.
fn are_heard<R: Threads + Sync>(
    rt: &R,
    alloc: Global,
    words: &[String],
    failing: &[u64],
    rows: &[&Row],
) -> Result<bool, Fail> {
    let mut vault = MemoryVault::new(alloc, 512, failing)?;
    sink_is_heard(rt, alloc, words, &mut vault, rows)
}

#[test]
fn watchers_pause_a_session_that_is_kept(rt: HostRuntime) -> Result<(), Fail> {
    let words = words_of(rt.alloc(), &["run", "keep=yes"])?;
    let rows = [&LEAVING, &PAUSED, &PAUSED_BY_TWO];
    assert!(rt; are_heard(&rt, rt.alloc(), &words, &[], &rows)?);
    Ok(())
}

#[test]
fn watchers_pause_no_other_session(rt: HostRuntime) -> Result<(), Fail> {
    let words = words_of(rt.alloc(), &["run", "keep=no"])?;
    let rows = [&LEAVING, &NOT_KEPT];
    assert!(rt; are_heard(&rt, rt.alloc(), &words, &[1], &rows)?);
    Ok(())
}
