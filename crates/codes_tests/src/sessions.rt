//! Sessions that keep nothing, over sources and sinks in memory, and what is said of statuses.
ghost use Rattle.std.specs.Prelude.{◌≤◌};

use crate::vaults::{HAMMING, Line, Session, all_end, number_of, says, words_of};
use lc_checker::Reason;
use lc_io::{MemorySink, MemorySource, MemoryVault, NoMemory, OpenGate};
use lc_session::Status;
use std::alloc::Global;
use std::test::Fail;
use std::thread::Threads;

const QUERY: &[u8] = b"LeastWord([[1,1,0],[0,1,1]],GF(2));";

// Scripts and what they print.
const SCRIPTS: [(&[u8], &[u8], u8); 4] = [
    (b"", b"", 0),
    (QUERY, b"least 2 word [0,1,1]\n", 0),
    (b"x := 4;\nx; Dimension(C); x;", b"4\nfault 44 at 21\n", 1),
    (b"x; $", b"fault 40 at 3\n", 1),
];

// Whether a session on this script, in pieces of this length, prints this text and ends with a status of this number.
fn prints<R: Threads + Sync>(
    rt: &R,
    alloc: Global,
    words: &[String],
    source: &mut MemorySource,
    text: &[u8],
    number: u8,
) -> Result<bool, NoMemory> {
    let mut sink = MemorySink::new(alloc, 64, 5, &[])?;
    Ok(number_of(rt, alloc, words, source, &mut sink, &OpenGate)? == number && sink.bytes() == text)
}

fn is_answered<R: Threads + Sync>(
    rt: &R,
    alloc: Global,
    words: &[String],
    row: &(&[u8], &[u8], u8),
) -> Result<bool, NoMemory> {
    let mut source = MemorySource::new(alloc, row.0, 7, &[])?;
    prints(rt, alloc, words, &mut source, row.1, row.2)
}

fn are_answered<R: Threads + Sync>(
    rt: &R,
    alloc: Global,
    words: &[String],
) -> Result<bool, NoMemory> {
    for row in &SCRIPTS {
        if !is_answered(rt, alloc, words, row)? {
            return Ok(false);
        }
    }
    Ok(true)
}

#[test]
fn scripts_are_answered(rt: HostRuntime) -> Result<(), Fail> {
    let words = words_of(rt.alloc(), &["run"])?;
    assert!(rt; are_answered(&rt, rt.alloc(), &words)?);
    Ok(())
}

// Whether a session on this script, read at once, prints nothing and ends with a status of this number.
fn ends_as<R: Threads + Sync>(
    rt: &R,
    alloc: Global,
    words: &[String],
    script: &[u8],
    number: u8,
) -> Result<bool, NoMemory> {
    let mut source = MemorySource::new(alloc, script, 65_536, &[])?;
    prints(rt, alloc, words, &mut source, b"", number)
}

// Whether a session on so many spaces ends with a status of this number.
fn spaces_end_as<R: Threads + Sync>(
    rt: &R,
    alloc: Global,
    words: &[String],
    count: usize,
    number: u8,
) -> Result<bool, NoMemory> {
    let spaces = vec![in alloc; b' '; count]?;
    ends_as(rt, alloc, words, &spaces, number)
}

// Whether the longest script is read, and one that is longer is not.
fn longest_is_read<R: Threads + Sync>(
    rt: &R,
    alloc: Global,
    words: &[String],
) -> Result<bool, NoMemory> {
    Ok(
        spaces_end_as(rt, alloc, words, 1_048_577, 12)?
            && spaces_end_as(rt, alloc, words, 1_048_576, 0)?,
    )
}

#[test]
fn the_longest_script_is_read(rt: HostRuntime) -> Result<(), Fail> {
    let words = words_of(rt.alloc(), &["run"])?;
    assert!(rt; longest_is_read(&rt, rt.alloc(), &words)?);
    Ok(())
}

// A script, pieces, a call that fails, and what is written before the call if it is a write.
type Fault = (&'static [u8], usize, u64, &'static [u8]);

static FAULTS: [Fault; 10] = [
    (QUERY, 1, 1, b""),
    (QUERY, 1, 2, b"l"),
    (QUERY, 1, 3, b"le"),
    (QUERY, 1, 4, b"lea"),
    (QUERY, 4, 2, b"leas"),
    (QUERY, 7, 1, b""),
    (QUERY, 7, 2, b"least 2"),
    (QUERY, 7, 3, b"least 2 word ["),
    (HAMMING, 4, 2, b"dist"),
    (HAMMING, 7, 4, b"distance 3 word [1,0,"),
];

// Whether a session whose read of this number fails, in pieces of this length, writes nothing.
fn is_a_source_fault<R: Threads + Sync>(
    rt: &R,
    alloc: Global,
    words: &[String],
    piece: usize,
    row: &Fault,
) -> Result<bool, NoMemory>
    requires { 1 ≤ piece }
{
    let mut source = MemorySource::new(alloc, row.0, piece, &[row.2])?;
    prints(rt, alloc, words, &mut source, b"", 4)
}

// Whether a session whose write of this number fails, in pieces of this length, writes what came before it.
fn is_a_sink_fault<R: Threads + Sync>(
    rt: &R,
    alloc: Global,
    words: &[String],
    source: &mut MemorySource,
    piece: usize,
    row: &Fault,
) -> Result<bool, NoMemory>
    requires { 1 ≤ piece }
{
    let mut sink = MemorySink::new(alloc, 64, piece, &[row.2])?;
    Ok(number_of(rt, alloc, words, source, &mut sink, &OpenGate)? == 5 && sink.bytes() == row.3)
}

fn writes_the_front<R: Threads + Sync>(
    rt: &R,
    alloc: Global,
    words: &[String],
    piece: usize,
    row: &Fault,
) -> Result<bool, NoMemory>
    requires { 1 ≤ piece }
{
    let mut source = MemorySource::new(alloc, row.0, 64, &[])?;
    is_a_sink_fault(rt, alloc, words, &mut source, piece, row)
}

// Whether the faults of the table end a session.
fn are_faults<R: Threads + Sync>(
    rt: &R,
    alloc: Global,
    words: &[String],
) -> Result<bool, NoMemory> {
    for row in &FAULTS {
        let piece = row.1;
        if piece == 0
            || !is_a_source_fault(rt, alloc, words, piece, row)?
            || !writes_the_front(rt, alloc, words, piece, row)?
        {
            return Ok(false);
        }
    }
    Ok(true)
}

#[test]
fn reads_and_writes_that_fail_end_a_session(rt: HostRuntime) -> Result<(), Fail> {
    let words = words_of(rt.alloc(), &["run"])?;
    assert!(rt; are_faults(&rt, rt.alloc(), &words)?);
    Ok(())
}

// Arguments that are refused, and what is said of the first that is.
const REFUSED: [Session; 6] = [
    (&[], b"", b"codes: word 0 refused\n"),
    (&["run", "run"], b"", b"codes: word 1 refused\n"),
    (&["run", "slice=2"], b"", b"codes: word 1 refused\n"),
    (
        &["run", "keep=yes", "keep=no"],
        b"",
        b"codes: word 2 refused\n",
    ),
    (&["check", "run"], b"", b"codes: word 1 refused\n"),
    (&["summary"], b"", b"codes: word 1 refused\n"),
];

#[test]
fn arguments_are_refused(rt: HostRuntime) -> Result<(), Fail> {
    let mut vault = MemoryVault::new(rt.alloc(), 0, &[])?;
    assert!(rt; all_end(&rt, rt.alloc(), QUERY, &mut vault, &REFUSED)?);
    Ok(())
}

const STATUSES: [(Status, u8, Line); 14] = [
    (Status::Done(0), 0, b""),
    (Status::Done(1), 1, b""),
    (Status::Usage(0), 2, b"codes: word 0 refused\n"),
    (
        Status::Paused {
            query: 17,
            blocks: 1 << 40,
        },
        3,
        b"codes: paused at query 17 blocks 1099511627776\n",
    ),
    (Status::SourceFault, 4, b"codes: source fault\n"),
    (Status::SinkFault, 5, b"codes: sink fault\n"),
    (Status::VaultFault { told: 3 }, 6, b"codes: vault fault\n"),
    (Status::NoMemory { told: 3 }, 7, b"codes: no memory\n"),
    (Status::NoCheckpoint, 8, b"codes: no checkpoint\n"),
    (Status::DamagedCheckpoint, 9, b"codes: damaged checkpoint\n"),
    (
        Status::OtherScript {
            script: [0; 32],
            budget: 1,
        },
        10,
        b"codes: checkpoint of another script or budget\n",
    ),
    (Status::Rejected(Reason::NotJson), 11, b"codes: rejected\n"),
    (Status::TooLong, 12, b"codes: input too long\n"),
    (
        Status::Unfit {
            query: 2,
            told: 3,
            found: 0,
        },
        13,
        b"codes: checkpoint does not fit query 2\n",
    ),
];

// Whether a status has this number and this line.
fn is_told(alloc: Global, status: &Status, number: u8, line: &[u8]) -> bool {
    status.number() == number && says(alloc, status, line) == Ok(true)
}

// Whether this is so of all rows.
fn are_told(alloc: Global) -> bool {
    for (status, number, line) in &STATUSES {
        if !is_told(alloc, status, *number, line) {
            return false;
        }
    }
    true
}

#[test]
fn statuses_have_numbers_and_lines(rt: HostRuntime) {
    assert!(rt; are_told(rt.alloc()));
}
