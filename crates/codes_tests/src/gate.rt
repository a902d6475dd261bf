//! The workers and the gate of a session: a round whose reports are held at the gate until its other blocks have come there.
use crate::vaults::{EMPTY, ends, status_of, words_of};
use lc_io::{Gate, MemorySink, MemorySource, MemoryVault, NoMemory};
use lc_share::run_part;
use std::alloc::Global;
use std::sync::atomic::{AtomicBool, AtomicU64, Ordering};
use std::test::Fail;
use std::thread::Threads;

const SCRIPT: &[u8] = b"MinimumDistance(BCHCode(63,7,GF(2)));";

const TEXT: &[u8] =
    b"distance 7 word [0,0,0,0,0,0,0,0,1,0,0,0,0,0,0,0,0,0,0,0,0,0,0,0,0,0,0,0,0,0,0,0,0,0,0,0,0,0,0,0,0,0,0,0,0,1,1,1,0,0,0,1,1,0,0,0,0,1,0,0,0,0,0] blocks 2331\n";

// What another program says of the blocks 2 to 5 of this search.
const PART: &[u8] =
    b"5b1e11c0a7d418eb8606f52abc41dfdf62c81f424f3b74c84d418baaab7a819f {\"count\":4,\"divisor\":1,\"first\":11,\"from\":2,\"k\":45,\"place\":8222,\"q\":2,\"ranks\":[45],\"script\":\"ce2f0aba8993c37a57b962db30b5d15befde834603cde0efad8682181cda2019\",\"version\":1,\"weight\":7}\n";

// What another program says of seed 12. The last of its rounds does three blocks.
const SUMMARY: &[u8] =
    b"summary seed 12 distance 7 word [0,0,1,0,0,0,1,0,0,0,0,0,0,0,1,0,1,1,0,0,0,0,0,1,0,0,0,0,0,0,0,0,0,0,0,0,0,0,0,0,1,0,0,0,0,0,0,0] blocks 9 rounds 7\n";

// A session: its script, its text, and the first and the last block of a round that it does, with the flags of its blocks.
struct Row {
    script: &'static [u8],
    text: &'static [u8],
    first: u64,
    last: u64,
    flags: u64,
}

// The blocks of this round are those of the messages of weight 3.
const SEARCH: Row = Row {
    script: SCRIPT,
    text: TEXT,
    first: 2,
    last: 5,
    flags: 0b11_1100,
};

// A part of the search that has these blocks and no other.
const OF_A_PART: Row = Row {
    script: SCRIPT,
    text: PART,
    first: 2,
    last: 5,
    flags: 0b11_1100,
};

// Those of weight 4 of the first information set.
const OF_A_SEED: Row = Row {
    script: EMPTY,
    text: SUMMARY,
    first: 6,
    last: 8,
    flags: 0b1_1100_0000,
};

// The flags of two workers, whose numbers are 0 and 1.
const BOTH: u64 = 0b11;

// How often a gate looks at the flags.
const TURNS: u64 = 1 << 26;

// How often a session is tried until its other blocks come in time, since a busy machine may not run the other worker meanwhile.
const TRIES: u64 = 200;

// A gate that holds the report of one block, and of the first of the round, until the other blocks of the round have come to it: so
// one worker can't do them all before the other one has started. It keeps whether they came, and which workers did.
#[derive(Drop)]
struct WaitingGate {
    flags: u64,
    held: u64,
    blocks: AtomicU64,
    workers: AtomicU64,
    met: AtomicBool,
}

impl WaitingGate {
    fn holding(row: &Row, held: u64) -> WaitingGate {
        WaitingGate {
            flags: row.flags,
            held,
            blocks: AtomicU64::new(0),
            workers: AtomicU64::new(0),
            met: AtomicBool::new(false),
        }
    }

    // Looks at the flags until all are there.
    fn wait(&self) {
        for _ in 0..TURNS {
            if self.blocks.load(Ordering::SeqCst) == self.flags {
                self.met.store(true, Ordering::SeqCst);
                return;
            }
        }
    }

    // Whether the other blocks came while one was held, and by the workers 0 and 1 alone.
    fn is_met(&self) -> bool {
        self.met.load(Ordering::SeqCst) && self.workers.load(Ordering::SeqCst) == BOTH
    }
}

impl Gate for WaitingGate {
    fn before_report(&self, worker: u32, block: u64) {
        self.workers.fetch_or(1 << worker.min(2), Ordering::SeqCst);
        if block > 63 || self.flags & (1 << block) == 0 {
            return;
        }
        let before = self.blocks.fetch_or(1 << block, Ordering::SeqCst);
        if before == 0 || block == self.held {
            self.wait();
        }
    }
}

// The number with which a session that passes this gate ends. One of `part` has no vault.
fn number<R: Threads + Sync>(
    rt: &R,
    alloc: Global,
    words: &[String],
    source: &mut MemorySource,
    sink: &mut MemorySink,
    vault: &mut MemoryVault,
    gate: &WaitingGate,
) -> u8 {
    match words.first() {
        Some(first) if first.as_str() == "part" => {
            run_part(rt, alloc, words, source, sink, gate).number()
        }
        _ => status_of(rt, alloc, words, source, sink, vault, gate).number(),
    }
}

// Whether a session that passes this gate writes the text and ends with 0.
fn writes_the_text<R: Threads + Sync>(
    rt: &R,
    alloc: Global,
    words: &[String],
    source: &mut MemorySource,
    vault: &mut MemoryVault,
    gate: &WaitingGate,
    text: &[u8],
) -> Result<bool, NoMemory> {
    let mut sink = MemorySink::new(alloc, 512, 64, &[])?;
    Ok(number(rt, alloc, words, source, &mut sink, vault, gate) == 0 && sink.bytes() == text)
}

// Whether it does so on the script of the row.
fn answers<R: Threads + Sync>(
    rt: &R,
    alloc: Global,
    words: &[String],
    vault: &mut MemoryVault,
    gate: &WaitingGate,
    row: &Row,
) -> Result<bool, NoMemory> {
    let mut source = MemorySource::new(alloc, row.script, 64, &[])?;
    writes_the_text(rt, alloc, words, &mut source, vault, gate, row.text)
}

// What is seen of a session: another text than it must write, or the text, and whether two workers came to the gate.
#[derive(Clone, Copy)]
enum Seen {
    Wrong,
    One,
    Two,
}

// What is seen of a session while the report of this block is held.
fn seen_at_the_gate<R: Threads + Sync>(
    rt: &R,
    alloc: Global,
    words: &[String],
    vault: &mut MemoryVault,
    row: &Row,
    held: u64,
) -> Result<Seen, NoMemory> {
    let gate = WaitingGate::holding(row, held);
    if !answers(rt, alloc, words, vault, &gate, row)? {
        return Ok(Seen::Wrong);
    }
    if gate.is_met() {
        return Ok(Seen::Two);
    }
    Ok(Seen::One)
}

// Whether each session writes the text, and two workers come to the gate of one that holds this block.
fn is_passed_by_two<R: Threads + Sync>(
    rt: &R,
    alloc: Global,
    words: &[String],
    vault: &mut MemoryVault,
    row: &Row,
    held: u64,
) -> Result<bool, NoMemory> {
    for _ in 0..TRIES {
        match seen_at_the_gate(rt, alloc, words, vault, row, held)? {
            Seen::Wrong => return Ok(false),
            Seen::Two => return Ok(true),
            Seen::One => (),
        }
    }
    Ok(false)
}

// Whether they come to each gate that holds a block of the round.
fn are_passed_by_two<R: Threads + Sync>(
    rt: &R,
    alloc: Global,
    words: &[String],
    vault: &mut MemoryVault,
    row: &Row,
) -> Result<bool, NoMemory> {
    for held in row.first..=row.last {
        if !is_passed_by_two(rt, alloc, words, vault, row, held)? {
            return Ok(false);
        }
    }
    Ok(true)
}

// Whether they do so of sessions with these arguments.
fn sessions_are_passed_by_two<R: Threads + Sync>(
    rt: &R,
    alloc: Global,
    texts: &[&str],
    vault: &mut MemoryVault,
    row: &Row,
) -> Result<bool, Fail> {
    let words = words_of(alloc, texts)?;
    Ok(are_passed_by_two(rt, alloc, &words, vault, row)?)
}

// A session that starts one worker, or passes another gate, fails for each of the blocks that are held.
#[test]
fn two_workers_come_to_the_gate_of_a_session(rt: HostRuntime) -> Result<(), Fail> {
    let mut vault = MemoryVault::new(rt.alloc(), 0, &[])?;
    assert!(rt;
        sessions_are_passed_by_two(&rt, rt.alloc(), &["run", "workers=2"], &mut vault, &SEARCH)?
    );
    Ok(())
}

#[test]
fn two_workers_come_to_the_gate_of_a_part(rt: HostRuntime) -> Result<(), Fail> {
    let mut vault = MemoryVault::new(rt.alloc(), 0, &[])?;
    assert!(rt;
        sessions_are_passed_by_two(
            &rt,
            rt.alloc(),
            &["part", "from=2", "count=4", "workers=2"],
            &mut vault,
            &OF_A_PART
        )?
    );
    Ok(())
}

#[test]
fn two_workers_come_to_the_gate_of_a_summary(rt: HostRuntime) -> Result<(), Fail> {
    let mut vault = MemoryVault::new(rt.alloc(), 0, &[])?;
    assert!(rt;
        sessions_are_passed_by_two(
            &rt,
            rt.alloc(),
            &["summary", "seed=12", "workers=2"],
            &mut vault,
            &OF_A_SEED
        )?
    );
    Ok(())
}

// Whether a session with one worker does one block of the search, and keeps its checkpoint.
fn pauses<R: Threads + Sync>(rt: &R, alloc: Global, vault: &mut MemoryVault) -> Result<bool, Fail> {
    ends(
        rt,
        alloc,
        &["run", "keep=yes", "slice=1"],
        SCRIPT,
        vault,
        EMPTY,
        b"codes: paused at query 0 blocks 1\n",
    )
}

// The arguments of the session that goes on count, and not those of the one that paused.
#[test]
fn two_workers_come_to_the_gate_of_a_session_that_goes_on(rt: HostRuntime) -> Result<(), Fail> {
    let mut vault = MemoryVault::new(rt.alloc(), 512, &[])?;
    assert!(rt; pauses(&rt, rt.alloc(), &mut vault)?);
    assert!(rt;
        sessions_are_passed_by_two(
            &rt,
            rt.alloc(),
            &["resume", "workers=2"],
            &mut vault,
            &SEARCH
        )?
    );
    Ok(())
}
