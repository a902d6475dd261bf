//! Workers beside each other: a round whose reports are held at the gate until its other blocks have come there.
ghost use Rattle.std.specs.Prelude.{◌<◌, ◌≤◌, length};

use crate::search::run;
use crate::shifts::{BCH_63, code_of};
use lc_code::Code;
use lc_field::NoMemory;
use lc_io::Gate;
use lc_search::{Answer, Search};
use std::alloc::Global;
use std::sync::atomic::{AtomicBool, AtomicU64, Ordering};
use std::test::Fail;
use std::thread::Threads;

// The blocks of the messages of weight 3, which one round does: the first and the last one.
const FIRST: u64 = 2;

const LAST: u64 = 5;

// The flags of these blocks.
const ALL: u64 = 0b11_1100;

// How often a gate looks at the flags.
const TURNS: u64 = 1 << 26;

// How often a search is tried until its other blocks come in time, since a busy machine may not run the other worker meanwhile.
const TRIES: u64 = 200;

// A gate that holds the reports of the blocks with these flags until all of the round have come to it. It keeps whether they came, and
// which workers passed it with a block of the round.
#[derive(Drop)]
struct WaitingGate {
    held: u64,
    flags: AtomicU64,
    workers: AtomicU64,
    met: AtomicBool,
}

impl WaitingGate {
    fn holding(held: u64) -> WaitingGate {
        WaitingGate {
            held,
            flags: AtomicU64::new(0),
            workers: AtomicU64::new(0),
            met: AtomicBool::new(false),
        }
    }

    // Looks at the flags until all are there.
    fn wait(&self) {
        for _ in 0..TURNS {
            if self.flags.load(Ordering::SeqCst) == ALL {
                self.met.store(true, Ordering::SeqCst);
                return;
            }
        }
    }
}

impl Gate for WaitingGate {
    fn before_report(&self, worker: u32, block: u64) {
        if block < FIRST || block > LAST {
            return;
        }
        self.workers.fetch_or(1 << worker.min(63), Ordering::SeqCst);
        self.flags.fetch_or(1 << block, Ordering::SeqCst);
        if self.held & (1 << block) != 0 {
            self.wait();
        }
    }
}

// What a search with so many workers that pass the gate answers.
fn search_through<R: Threads + Sync>(
    rt: &R,
    alloc: Global,
    code: &Code,
    workers: u32,
    gate: &WaitingGate,
) -> Result<Answer, NoMemory>
    requires dimension { 0 < length code.now.rows }
    requires workers { (1 ≤ workers) × (workers ≤ 256) }
{
    let mut search = Search::start(alloc, code, 1 << 20)?;
    run(rt, alloc, &mut search, workers, u64::MAX, gate)
}

// What is seen of a search: another answer than it must have or other workers than it has, or the answer, and whether the other blocks
// came while one was held.
#[derive(Clone, Copy)]
enum Seen {
    Wrong,
    Apart,
    Together,
}

// What is seen of a search with so many workers, whose numbers count from 0, while the reports of these blocks are held.
fn seen_at_the_gate<R: Threads + Sync>(
    rt: &R,
    alloc: Global,
    code: &Code,
    workers: u32,
    held: u64,
) -> Result<Seen, NoMemory>
    requires dimension { 0 < length code.now.rows }
    requires workers { (1 ≤ workers) × (workers ≤ 4) }
{
    let gate = WaitingGate::holding(held);
    let answer = search_through(rt, alloc, code, workers, &gate)?;
    if answer
        != (Answer::Exact {
            weight: 7,
            place: 8,
            blocks: 2_331,
        })
    {
        return Ok(Seen::Wrong);
    }
    if !gate.met.load(Ordering::SeqCst) {
        return Ok(Seen::Apart);
    }
    // one worker may do all blocks before one that is held; if all are held, each is another worker's
    let numbers = gate.workers.load(Ordering::SeqCst);
    if numbers >= 1 << workers || (held == ALL && numbers != (1 << workers) - 1) {
        return Ok(Seen::Wrong);
    }
    Ok(Seen::Together)
}

// Whether each search is so answered, and in one of them the other blocks come while the reports of these are held.
fn come_to_the_gate<R: Threads + Sync>(
    rt: &R,
    alloc: Global,
    code: &Code,
    workers: u32,
    held: u64,
) -> Result<bool, NoMemory>
    requires dimension { 0 < length code.now.rows }
    requires workers { (1 ≤ workers) × (workers ≤ 4) }
{
    for _ in 0..TRIES {
        match seen_at_the_gate(rt, alloc, code, workers, held)? {
            Seen::Wrong => return Ok(false),
            Seen::Together => return Ok(true),
            Seen::Apart => (),
        }
    }
    Ok(false)
}

// A body that does the blocks of a round one after another, or gives each worker blocks of its own beforehand, fails for one
// of the blocks that are held, however often it is tried.
#[test]
fn blocks_come_to_the_gate_while_another_is_held(rt: HostRuntime) -> Result<(), Fail> {
    let code = code_of(&rt, rt.alloc(), &BCH_63)?;
    for held in FIRST..=LAST {
        assert!(rt;
            come_to_the_gate(&rt, rt.alloc(), &code, 2, 1 << held)?,
            "{held}"
        );
    }
    Ok(())
}

// Each of four workers does one of the four blocks while all are held, and they have the numbers 0 to 3. A body that gives two
// workers one number fails.
#[test]
fn four_workers_come_to_the_gate(rt: HostRuntime) -> Result<(), Fail> {
    let code = code_of(&rt, rt.alloc(), &BCH_63)?;
    assert!(rt; come_to_the_gate(&rt, rt.alloc(), &code, 4, ALL)?);
    Ok(())
}
