//! Sessions over a vault in memory: slices, calls that fail, and what goes on from there.
use lc_io::{
    Gate, MemorySink, MemorySource, MemoryVault, NoMemory, OpenGate, Slot, Vault, Watcher,
};
use lc_session::{Status, run_session, status_line};
use std::alloc::{AllocError, Global};
use std::test::Fail;
use std::thread::Threads;

// What is said of a status.
pub(crate) type Line = &'static [u8];

// The arguments of a session, its text, and what is said of its status.
pub(crate) type Session = (&'static [&'static str], &'static [u8], Line);

pub(crate) const HAMMING: &[u8] = b"MinimumDistance(HammingCode(3,GF(2)));";

pub(crate) const GOLAY: &[u8] = b"MinimumDistance(BinaryGolayCode());";

pub(crate) const GOLAY_TEXT: &[u8] =
    b"distance 7 word [1,0,0,0,0,0,0,0,0,0,0,0,1,0,1,0,1,1,1,0,0,0,1] blocks 6\n";

pub(crate) const EMPTY: &[u8] = b"";

pub(crate) fn words_of(alloc: Global, texts: &[&str]) -> Result<Vec<String>, AllocError> {
    let mut words = Vec::new(alloc);
    for text in texts {
        words.push(String::from_str(alloc, text)?)?;
    }
    Ok(words)
}

pub(crate) fn says(
    alloc: Global,
    status: &Status,
    line: &[u8],
) -> Result<bool, lc_field::NoMemory> {
    Ok(status_line(alloc, status)?.as_slice() == line)
}

// How a session ends that no watcher hears.
pub(crate) fn status_of<R: Threads + Sync, G: Gate + Sync>(
    rt: &R,
    alloc: Global,
    words: &[String],
    source: &mut MemorySource,
    sink: &mut MemorySink,
    vault: &mut MemoryVault,
    gate: &G,
) -> Status {
    let mut watchers: Vec<Box<dyn Watcher>> = Vec::new(alloc);
    run_session(rt, alloc, words, source, sink, vault, &mut watchers, gate)
}

// The number with which a session ends that keeps nothing and passes this gate.
pub(crate) fn number_of<R: Threads + Sync, G: Gate + Sync>(
    rt: &R,
    alloc: Global,
    words: &[String],
    source: &mut MemorySource,
    sink: &mut MemorySink,
    gate: &G,
) -> Result<u8, NoMemory> {
    let mut vault = MemoryVault::new(alloc, 0, &[])?;
    Ok(status_of(rt, alloc, words, source, sink, &mut vault, gate).number())
}

// Whether a session over this source and this sink ends with this line.
fn ends_with<R: Threads + Sync>(
    rt: &R,
    alloc: Global,
    words: &[String],
    source: &mut MemorySource,
    sink: &mut MemorySink,
    vault: &mut MemoryVault,
    line: &[u8],
) -> Result<bool, lc_field::NoMemory> {
    let status = status_of(rt, alloc, words, source, sink, vault, &OpenGate);
    says(alloc, &status, line)
}

// Whether a session over this source ends with this text and this line.
fn gives<R: Threads + Sync>(
    rt: &R,
    alloc: Global,
    words: &[String],
    source: &mut MemorySource,
    vault: &mut MemoryVault,
    text: &[u8],
    line: &[u8],
) -> Result<bool, Fail> {
    let mut sink = MemorySink::new(alloc, 256, 256, &[])?;
    Ok(ends_with(rt, alloc, words, source, &mut sink, vault, line)? && sink.bytes() == text)
}

fn answers<R: Threads + Sync>(
    rt: &R,
    alloc: Global,
    words: &[String],
    script: &[u8],
    vault: &mut MemoryVault,
    text: &[u8],
    line: &[u8],
) -> Result<bool, Fail> {
    let mut source = MemorySource::new(alloc, script, 64, &[])?;
    gives(rt, alloc, words, &mut source, vault, text, line)
}

// Whether a session with these arguments on this script ends with this text and this line.
pub(crate) fn ends<R: Threads + Sync>(
    rt: &R,
    alloc: Global,
    texts: &[&str],
    script: &[u8],
    vault: &mut MemoryVault,
    text: &[u8],
    line: &[u8],
) -> Result<bool, Fail> {
    let words = words_of(alloc, texts)?;
    answers(rt, alloc, &words, script, vault, text, line)
}

// Whether sessions on this script, one after another on one vault, end so.
pub(crate) fn all_end<R: Threads + Sync>(
    rt: &R,
    alloc: Global,
    script: &[u8],
    vault: &mut MemoryVault,
    sessions: &[Session],
) -> Result<bool, Fail> {
    for (texts, text, line) in sessions {
        if !ends(rt, alloc, texts, script, vault, text, line)? {
            return Ok(false);
        }
    }
    Ok(true)
}

pub(crate) fn holds(vault: &mut MemoryVault, slot: Slot, wanted: &[u8]) -> bool {
    let mut buf = [0; 512];
    match vault.load(slot, &mut buf) {
        Ok(count) => &buf[..count] == wanted,
        Err(_failed) => false,
    }
}

// The sessions of a chain, one after another on one vault.
const CHAIN: [Session; 5] = [
    (
        &["run", "slice=2", "keep=yes"],
        EMPTY,
        b"codes: paused at query 0 blocks 2\n",
    ),
    (
        &["resume", "budget=5"],
        EMPTY,
        b"codes: checkpoint of another script or budget\n",
    ),
    (
        &["resume", "slice=3", "keep=yes", "workers=2"],
        EMPTY,
        b"codes: paused at query 0 blocks 5\n",
    ),
    (&["resume", "keep=yes"], GOLAY_TEXT, b""),
    (&["resume"], GOLAY_TEXT, b""),
];

// The sessions of a chain, each with another longest round.
const ROUNDS: [Session; 3] = [
    (
        &["run", "slice=2", "keep=yes", "round=1"],
        EMPTY,
        b"codes: paused at query 0 blocks 2\n",
    ),
    (
        &["resume", "round=7", "slice=3", "keep=yes", "workers=4"],
        EMPTY,
        b"codes: paused at query 0 blocks 5\n",
    ),
    (&["resume", "keep=yes", "round=1048576"], GOLAY_TEXT, b""),
];

#[test]
fn each_session_has_a_longest_round_of_its_own(rt: HostRuntime) -> Result<(), Fail> {
    let mut vault = MemoryVault::new(rt.alloc(), 512, &[])?;
    assert!(rt; all_end(&rt, rt.alloc(), GOLAY, &mut vault, &ROUNDS)?);
    Ok(())
}

#[test]
fn slices_end_with_the_text(rt: HostRuntime) -> Result<(), Fail> {
    let mut vault = MemoryVault::new(rt.alloc(), 512, &[])?;
    assert!(rt; all_end(&rt, rt.alloc(), GOLAY, &mut vault, &CHAIN)?);
    Ok(())
}

const FAULT: &[u8] = b"codes: vault fault\n";

// A session of which a call of the vault fails.
const FAILING: Session = (&["run", "keep=yes"], EMPTY, FAULT);

const RESUME: &[&str] = &["resume", "keep=yes"];

// A call of the vault that fails in a session, and what `resume` prints after it: the first two empty the slots, the others store
// the six checkpoints.
const AFTER_A_FAULT: [(u64, [Session; 2]); 8] = [
    (1, [FAILING, (RESUME, EMPTY, b"codes: no checkpoint\n")]),
    (2, [FAILING, (RESUME, EMPTY, b"codes: no checkpoint\n")]),
    (
        3,
        [FAILING, (RESUME, EMPTY, b"codes: damaged checkpoint\n")],
    ),
    (4, [FAILING, (RESUME, GOLAY_TEXT, b"")]),
    (5, [FAILING, (RESUME, GOLAY_TEXT, b"")]),
    (6, [FAILING, (RESUME, GOLAY_TEXT, b"")]),
    (7, [FAILING, (RESUME, GOLAY_TEXT, b"")]),
    (8, [FAILING, (RESUME, GOLAY_TEXT, b"")]),
];

// Whether sessions on a vault whose call of this number fails end so.
fn survive<R: Threads + Sync>(
    rt: &R,
    alloc: Global,
    call: u64,
    sessions: &[Session],
) -> Result<bool, Fail> {
    let mut vault = MemoryVault::new(alloc, 512, &[call])?;
    all_end(rt, alloc, GOLAY, &mut vault, sessions)
}

#[test]
fn a_store_that_fails_leaves_the_other_slot(rt: HostRuntime) -> Result<(), Fail> {
    for (call, sessions) in &AFTER_A_FAULT {
        assert!(rt; survive(&rt, rt.alloc(), *call, sessions)?, "call {call}");
    }
    Ok(())
}

// A session that pauses after two rounds, a session of which a load fails, and one that goes on.
const LOADS: [Session; 3] = [
    (
        &["run", "keep=yes", "slice=2"],
        EMPTY,
        b"codes: paused at query 0 blocks 2\n",
    ),
    (RESUME, EMPTY, FAULT),
    (RESUME, GOLAY_TEXT, b""),
];

#[test]
fn a_load_that_fails_changes_no_slot(rt: HostRuntime) -> Result<(), Fail> {
    // the two slots are emptied by the calls 1 and 2, and the two checkpoints are stored by 3 and 4
    for call in [5, 6] {
        assert!(rt; survive(&rt, rt.alloc(), call, &LOADS)?, "call {call}");
    }
    Ok(())
}

// A session that keeps nothing, and one that does.
const KEPT: [Session; 2] = [(&["run"], GOLAY_TEXT, b""), FAILING];

#[test]
fn a_session_that_keeps_nothing_leaves_the_slots(rt: HostRuntime) -> Result<(), Fail> {
    // each call of this vault fails
    let mut vault = MemoryVault::new(rt.alloc(), 512, &[1, 2, 3])?;
    assert!(rt; all_end(&rt, rt.alloc(), GOLAY, &mut vault, &KEPT)?);
    Ok(())
}
