//! Searches with one worker and with several, by values from a list of all words of the levels that are done, as
//! tools/search_numbers.py prints them.
ghost use Rattle.std.specs.Prelude.{◌≡◌, ◌<◌, ◌≤◌, ◌^◌, length};
ghost use Rattle.lc_search.specs.State.{answer_in};

use crate::shifts::{
    BCH_63, BCH_255, EVEN_SHIFTS, HAMMING, LATE_SHIFTS, RESIDUES, SHIFTS, Shifts, code_of,
};
use lc_code::Code;
use lc_field::NoMemory;
use lc_io::{Advice, Gate, MemoryWatcher, OpenGate, Record};
use lc_search::{Answer, ResumeRefusal, RoundRecord, Search, tell};
use std::alloc::Global;
use std::process::Abort;
use std::sync::atomic::{AtomicU64, Ordering};
use std::test::Fail;
use std::thread::Threads;

// With how many workers each search is done.
const WORKERS: [u32; 7] = [1, 2, 3, 4, 7, 64, 256];

// Does rounds until the search is answered. The workers pass the gate.
pub(crate) fn run<R: Threads + Sync, G: Gate + Sync>(
    rt: &R,
    alloc: Global,
    search: &mut Search,
    workers: u32,
    limit: u64,
    gate: &G,
) -> Result<Answer, NoMemory>
    requires workers { (1 ≤ workers) × (workers ≤ 256) }
    requires limit { 1 ≤ limit }
{
    loop {
        if let Some(answer) = search.finished() {
            return Ok(answer);
        }
        let _record = search.round(rt, alloc, workers, limit, gate)?;
    }
}

// Searches, their budgets, which end inside a phase, and what they answer.
const BRACKETS: [(Shifts, u64, Answer); 3] = [
    (
        RESIDUES,
        20,
        Answer::Bracket {
            low: 9,
            weight: 11,
            place: 5,
            blocks: 20,
        },
    ),
    (
        LATE_SHIFTS,
        102,
        Answer::Bracket {
            low: 6,
            weight: 8,
            place: 415_371,
            blocks: 102,
        },
    ),
    (
        BCH_63,
        300,
        Answer::Bracket {
            low: 5,
            weight: 7,
            place: 8,
            blocks: 300,
        },
    ),
];

// Searches whose budgets are large enough.
const DISTANCES: [(Shifts, u64, Answer); 4] = [
    (
        HAMMING,
        100,
        Answer::Exact {
            weight: 3,
            place: 0,
            blocks: 2,
        },
    ),
    (
        RESIDUES,
        1 << 40,
        Answer::Exact {
            weight: 11,
            place: 5,
            blocks: 34,
        },
    ),
    (
        SHIFTS,
        1 << 20,
        Answer::Exact {
            weight: 11,
            place: 18_835,
            blocks: 31,
        },
    ),
    (
        EVEN_SHIFTS,
        1 << 20,
        Answer::Exact {
            weight: 10,
            place: 45_438,
            blocks: 14,
        },
    ),
];

// Whether a search of the code with so many workers, each round of at most so many blocks, gives this answer.
fn gives<R: Threads + Sync>(
    rt: &R,
    alloc: Global,
    code: &Code,
    budget: u64,
    workers: u32,
    limit: u64,
    answer: &Answer,
) -> Result<bool, NoMemory>
    requires dimension { 0 < length code.now.rows }
    requires budget { budget ≤ 2 ^ 40 }
    requires workers { (1 ≤ workers) × (workers ≤ 256) }
    requires limit { 1 ≤ limit }
{
    let mut search = Search::start(alloc, code, budget)?;
    let found = run(rt, alloc, &mut search, workers, limit, &OpenGate)?;
    Ok(found == *answer)
}

// Whether the search of a code gives its answer, with each number of workers.
fn all_give<R: Threads + Sync>(
    rt: &R,
    alloc: Global,
    code: &Code,
    budget: u64,
    answer: &Answer,
) -> Result<bool, NoMemory>
    requires dimension { 0 < length code.now.rows }
    requires budget { budget ≤ 2 ^ 40 }
{
    for workers in &WORKERS {
        if !gives(rt, alloc, code, budget, *workers, u64::MAX, answer)? {
            return Ok(false);
        }
    }
    Ok(true)
}

// Whether each search gives its answer.
fn give<R: Threads + Sync + Abort>(
    rt: &R,
    alloc: Global,
    rows: &[(Shifts, u64, Answer)],
) -> Result<(), Fail> {
    for (shifts, budget, answer) in rows {
        assert!(rt; *budget <= 1 << 40);
        let code = code_of(rt, alloc, shifts)?;
        assert!(rt; all_give(rt, alloc, &code, *budget, answer)?);
    }
    Ok(())
}

#[test]
fn budgets_end_searches(rt: HostRuntime) -> Result<(), Fail> {
    give(&rt, rt.alloc(), &BRACKETS)
}

#[test]
fn searches_end_at_the_distance(rt: HostRuntime) -> Result<(), Fail> {
    give(&rt, rt.alloc(), &DISTANCES)
}

// How many blocks a round does at most.
const LIMITS: [u64; 4] = [1, 2, 255, 256];

// Whether the search of a code gives its answer, with each of these limits.
fn limits_give<R: Threads + Sync>(
    rt: &R,
    alloc: Global,
    code: &Code,
    budget: u64,
    answer: &Answer,
) -> Result<bool, NoMemory>
    requires dimension { 0 < length code.now.rows }
    requires budget { budget ≤ 2 ^ 40 }
{
    for limit in &LIMITS {
        if !gives(rt, alloc, code, budget, 3, *limit, answer)? {
            return Ok(false);
        }
    }
    Ok(true)
}

#[test]
fn limits_give_equal_answers(rt: HostRuntime) -> Result<(), Fail> {
    let (shifts, budget, answer) = &BRACKETS[2];
    assert!(rt; *budget <= 1 << 40);
    let code = code_of(&rt, rt.alloc(), shifts)?;
    assert!(rt; limits_give(&rt, rt.alloc(), &code, *budget, answer)?);
    Ok(())
}

// Whether a search that has 300 blocks left of a plan that is cut at 2^40, and no better word than the one at place 0, ends
// with the least word of these blocks and the bound of the levels below the cut.
fn ends_at_the_cut<R: Threads + Sync>(
    rt: &R,
    alloc: Global,
    code: &Code,
    workers: u32,
) -> Result<bool, ResumeRefusal>
    requires dimension { 0 < length code.now.rows }
    requires workers { (1 ≤ workers) × (workers ≤ 256) }
{
    let mut search = Search::resume_at(alloc, code, 1 << 40, (1 << 40) - 300, 27, 0)?;
    let found = run(rt, alloc, &mut search, workers, u64::MAX, &OpenGate)?;
    Ok(
        found
            == Answer::Bracket {
                low: 10,
                weight: 20,
                place: 4_503_599_627_147_147,
                blocks: 1 << 40,
            },
    )
}

#[test]
fn a_plan_is_cut(rt: HostRuntime) -> Result<(), Fail> {
    let code = code_of(&rt, rt.alloc(), &BCH_255)?;
    for workers in [1, 64, 256] {
        assert!(rt;
            ends_at_the_cut(&rt, rt.alloc(), &code, workers) == Ok(true),
            "{workers}"
        );
    }
    Ok(())
}

// A gate that counts the reports.
#[derive(Drop)]
struct CountingGate {
    reports: AtomicU64,
}

impl Gate for CountingGate {
    fn before_report(&self, _worker: u32, _block: u64) {
        self.reports.fetch_add(1, Ordering::Relaxed);
    }
}

// Whether a round did so many blocks up to this one, and its board showed as many and this value.
fn is_record(
    record: &RoundRecord,
    done: u64,
    blocks: u64,
    bound: u64,
    best: u64,
    place: u64,
) -> bool
    requires { (best ≤ 255) × (place < 2 ^ 52) }
{
    record.done == done
        && record.blocks == blocks
        && record.bound == bound
        && record.best == best
        && record.closed.count() == done
        && record.closed.claimed() == done
        && record.closed.best() == best * (1 << 52) + place
}

// The records of the first rounds over the quadratic residue code: blocks done, blocks so far, the bound.
const RECORDS: [(u64, u64, u64); 8] = [
    (1, 1, 2),
    (1, 2, 3),
    (1, 3, 4),
    (1, 4, 5),
    (1, 5, 6),
    (1, 6, 7),
    (3, 9, 8),
    (3, 12, 9),
];

// Whether the next round is the one of this record, and its workers passed the gate once for each block so far.
fn is_next<R: Threads + Sync>(
    rt: &R,
    alloc: Global,
    search: &mut Search,
    gate: &CountingGate,
    row: &(u64, u64, u64),
) -> Result<bool, NoMemory> {
    if search.finished().is_some() {
        return Ok(false);
    }
    let record = search.round(rt, alloc, 2, 256, gate)?;
    Ok(
        is_record(&record, row.0, row.1, row.2, 11, 5)
            && gate.reports.load(Ordering::Relaxed) == row.1,
    )
}

// Whether the first rounds are those of the records, and end at level 4 of both sets.
fn rounds_tell<R: Threads + Sync>(
    rt: &R,
    alloc: Global,
    search: &mut Search,
    gate: &CountingGate,
) -> Result<bool, NoMemory> {
    for row in &RECORDS {
        if !is_next(rt, alloc, search, gate, row)? {
            return Ok(false);
        }
    }
    Ok(search.sets().count() == 2 && search.level_of(0) == 4 && search.level_of(1) == 4)
}

// Whether this is so of the rounds of a code.
fn search_tells<R: Threads + Sync>(rt: &R, alloc: Global, code: &Code) -> Result<bool, NoMemory>
    requires dimension { 0 < length code.now.rows }
{
    let gate = CountingGate {
        reports: AtomicU64::new(0),
    };
    let mut search = Search::start(alloc, code, 100)?;
    rounds_tell(rt, alloc, &mut search, &gate)
}

#[test]
fn rounds_tell_what_they_did(rt: HostRuntime) -> Result<(), Fail> {
    let code = code_of(&rt, rt.alloc(), &RESIDUES)?;
    assert!(rt; search_tells(&rt, rt.alloc(), &code)?);
    Ok(())
}

// Records of the Hamming code, and the weight that is found if they don't fit.
const UNFIT: [(u64, u64, u64, u64); 4] = [(0, 2, 0, 3), (2, 4, 0, 3), (1, 3, 4, 0), (0, 3, 1, 3)];

// Why the search of a code with two blocks doesn't go on from a record. None if it does.
fn refusal_of(
    alloc: Global,
    code: &Code,
    blocks: u64,
    weight: u64,
    place: u64,
) -> Option<ResumeRefusal>
    requires dimension { 0 < length code.now.rows }
    requires blocks { blocks ≤ 2 }
{
    match Search::resume_at(alloc, code, 2, blocks, weight, place) {
        Ok(_search) => None,
        Err(refused) => Some(refused),
    }
}

// Whether records of a code that don't fit are refused.
fn are_unfit(alloc: Global, code: &Code) -> bool
    requires dimension { 0 < length code.now.rows }
{
    for (blocks, weight, place, found) in &UNFIT {
        let refusal = ResumeRefusal::Unfit { found: *found };
        if 2 < *blocks || refusal_of(alloc, code, *blocks, *weight, *place) != Some(refusal) {
            return false;
        }
    }
    true
}

// Whether the search of a code goes on from its last record, and is answered at once.
fn is_resumed(alloc: Global, code: &Code) -> bool
    requires dimension { 0 < length code.now.rows }
{
    match Search::resume_at(alloc, code, 2, 2, 3, 1) {
        Ok(search) => {
            search.finished()
                == Some(Answer::Exact {
                    weight: 3,
                    place: 1,
                    blocks: 2,
                })
        }
        Err(_refused) => false,
    }
}

#[test]
fn records_that_fit_are_resumed(rt: HostRuntime) -> Result<(), Fail> {
    let code = code_of(&rt, rt.alloc(), &HAMMING)?;
    assert!(rt; are_unfit(rt.alloc(), &code) && is_resumed(rt.alloc(), &code));
    Ok(())
}

// Adds a watcher that answers so.
fn add(
    alloc: Global,
    watchers: &mut Vec<MemoryWatcher>,
    answers: &[Advice],
) -> Result<(), lc_io::NoMemory> {
    watchers.push(MemoryWatcher::new(alloc, answers)?)?;
    Ok(())
}

// Whether one of three watchers leaves at the first record, and the others at the third; one pauses at the second.
fn leave_in_turn(watchers: &mut Vec<MemoryWatcher>) -> bool {
    let note = Record {
        query: 0,
        blocks: 1,
        bound: 2,
        best: 3,
    };
    !tell(watchers, &note)
        && watchers.len() == 2
        && tell(watchers, &note)
        && watchers.len() == 2
        && !tell(watchers, &note)
        && watchers.is_empty()
}

#[test]
fn watchers_that_leave_are_dropped(rt: HostRuntime) -> Result<(), Fail> {
    let mut watchers = Vec::new(rt.alloc());
    add(rt.alloc(), &mut watchers, &[Advice::Go, Advice::Pause])?;
    add(rt.alloc(), &mut watchers, &[])?;
    add(rt.alloc(), &mut watchers, &[Advice::Go, Advice::Go])?;
    assert!(rt; leave_in_turn(&mut watchers));
    Ok(())
}
