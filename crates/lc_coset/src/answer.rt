//! A word of a code that is nearest to a given word.

ghost use Rattle.std.specs.Prelude.{◌≡◌, ℕ, ◌+◌, ◌-◌, ◌*◌, ◌^◌, ◌<◌, ◌≤◌, suc, true, false, nat_le, min, length, IfOk};
ghost use Rattle.lc_algebra.specs.Field.{size};
ghost use Rattle.lc_algebra.specs.Word.{IsWord};
ghost use Rattle.lc_enumeration.specs.Search.{set_count, ranks_of};
ghost use Rattle.lc_enumeration.specs.NearWord.{near_answer, NearHolds, coset_blocks_before, coset_phases, pattern_count};
ghost use Rattle.lc_coset.specs.Near.{walk_plan};
ghost use Rattle.lc_coset.specs.Phase.{IsFrame, IsGiven, IsPhaseOf, IsBestAt, IsStateAt};
ghost use Rattle.lc_coset.specs.Answer.{near_of, ending_near};

use crate::best::{Best, first_best};
use crate::blocks::CosetPhase;
use crate::bound::bound_at;
use crate::frame::{Frame, Given, lefts_of};
use crate::round::{State, search_phase};
use crate::walk::Room;
use lc_code::Code;
use lc_enumeration::{BLOCK, CUT};
use lc_field::NoMemory;
use lc_infoset::Sets;
use lc_place::Plan;
use lc_vec::Word;
use std::alloc::Global;
use std::thread::Threads;

/// What a search for a nearest word answers.
#[derive(Drop)]
pub struct Near {
    /// Whether no word of the code is nearer to the given word than `word`.
    pub exact: bool,
    /// No word of the code is nearer than this; the distance of `word` if the answer is exact.
    pub low: u64,
    /// The distance of `word` from the given word.
    pub weight: u64,
    /// A word of the code.
    pub word: Word,
    /// How many blocks of at most 4,096 words were done, or the budget if the answer isn't exact.
    pub blocks: u64,
}

/// A word of a code that is nearest to the word `x`, or if the budget is used up before that is known, the nearest one that was
/// found, with a lower bound on the least distance. The answer is the same for any number of workers.
///
/// The code has dimension at least 1, and `x` has its length and is over its field. `budget` is a number of blocks of at most 4,096
/// words, at most 2^40; m q^k blocks, for m information sets of a code of dimension k over q elements, are enough for an exact
/// answer. There are 1 to 256 workers; one worker starts no thread. Refused only if no memory is left. (Grassl, Searching for
/// linear codes with large minimum distance, for the information sets and their bound.)
pub fn nearest<R: Threads + Sync>(
    rt: &R,
    alloc: Global,
    code: &Code,
    x: &[u8],
    budget: u64,
    workers: u32,
) -> Result<Near, NoMemory>
    requires dimension { 0 < length code.now.rows }
    requires word { IsWord code.now.field code.now.columns x.now }
    requires budget { budget ≤ 2 ^ 40 }
    requires workers { (1 ≤ workers) × (workers ≤ 256) }
    ensures is { IfOk result (λ a. near_of a ≡ near_answer code.now x.now budget) }
    ensures holds { IfOk result (λ a. NearHolds code.now x.now (near_of a)) }
{
    let _matrix = code.matrix();
    let given = given_of(alloc, code, x)?;
    let near = near_given(rt, alloc, given, budget, workers)?;
    Ok(near)
}

// The information sets of a code of dimension at least 1, a word, and what the first word of each set leaves of it.
fn given_of(alloc: Global, code: &Code, x: &[u8]) -> Result<Given, NoMemory>
    requires dimension { 0 < length code.now.rows }
    requires word { IsWord code.now.field code.now.columns x.now }
    ensures given { IfOk result (IsGiven code.now x.now) }
{
    let sets = sets_of(alloc, code)?;
    let word = Word::from_slice(alloc, x)?;
    let lefts = lefts_of(alloc, &sets, &word)?;
    Ok(Given { sets, word, lefts })
}

// The information sets of a code of dimension at least 1.
#[tactic(auto, using(lc_algebra::proofs::ReducedLaws::reduced_independent))]
fn sets_of(alloc: Global, code: &Code) -> Result<Sets, NoMemory>
    requires dimension { 0 < length code.now.rows }
    ensures code { IfOk result (λ s. s ≡ code.now) }
{
    let _symbol = code.field();
    let _long = code.length();
    Sets::build(alloc, code.matrix())
}

// The answer for a code and a word.
fn near_given<R: Threads + Sync>(
    rt: &R,
    alloc: Global,
    given: Given,
    budget: u64,
    workers: u32,
) -> Result<Near, NoMemory>
    requires given { IsGiven given.sets given.word given }
    requires word { IsWord given.sets.field given.sets.columns given.word }
    requires budget { budget ≤ 2 ^ 40 }
    requires workers { (1 ≤ workers) × (workers ≤ 256) }
    ensures is { IfOk result (λ a. near_of a ≡ near_answer given.sets given.word budget) }
{
    let _k = given.sets.dimension();
    let best = first_best(alloc, &given.sets, &given.word, &given.lefts)?;
    if best.weight == 0 {
        return Ok(Ending::exact(&best, 0).near(best));
    }
    search_from(rt, alloc, given, best, budget, workers)
}

// The answer by a search, for a first word that differs from the given one.
fn search_from<R: Threads + Sync>(
    rt: &R,
    alloc: Global,
    given: Given,
    best: Best,
    budget: u64,
    workers: u32,
) -> Result<Near, NoMemory>
    requires given { IsGiven given.sets given.word given }
    requires word { IsWord given.sets.field given.sets.columns given.word }
    requires best { IsBestAt given.sets given.word 0 best }
    requires fewer { length given.sets.rows < given.sets.columns }
    requires budget { budget ≤ 2 ^ 40 }
    requires workers { (1 ≤ workers) × (workers ≤ 256) }
    ensures is { IfOk result (λ a. near_of a ≡ near_answer given.sets given.word budget) }
{
    let frame = frame_of(alloc, given)?;
    let mut state = state_of(alloc, &frame, best)?;
    let ending = search(rt, alloc, &frame, &mut state, budget, workers)?;
    Ok(ending.near(state.best))
}

// What all blocks share, with a plan.
fn frame_of(alloc: Global, given: Given) -> Result<Frame, NoMemory>
    requires given { IsGiven given.sets given.word given }
    requires word { IsWord given.sets.field given.sets.columns given.word }
    requires fewer { length given.sets.rows < given.sets.columns }
    ensures frame { IfOk result IsFrame }
    ensures code { IfOk result (λ fr. (fr.sets ≡ given.sets) × (fr.word ≡ given.word)) }
{
    let _k = given.sets.dimension();
    let _n = given.sets.length();
    let plan = plan_of(alloc, &given.sets)?;
    let Given { sets, word, lefts } = given;
    Ok(Frame {
        sets,
        plan,
        word,
        lefts,
    })
}

// The state of a search before its first block.
fn state_of(alloc: Global, frame: &Frame, best: Best) -> Result<State, NoMemory>
    requires best { IsBestAt frame.now.sets frame.now.word 0 best }
    ensures state { IfOk result (IsStateAt frame.now 0) }
{
    let own = Room::new(alloc, &frame.sets)?;
    Ok(State {
        best,
        own,
        spare: Vec::new(alloc),
        led: None,
        tried: false,
    })
}

// A plan that steps through the error patterns: those of level w are messages of level w + 1 of one place more.
#[tactic(auto, using(lc_code::proofs::CoordinateSteps::small_size))]
fn plan_of(alloc: Global, sets: &Sets) -> Result<Plan, NoMemory>
    requires fewer { length sets.now.rows < sets.now.columns }
    ensures plan { IfOk result (λ p. p ≡ walk_plan sets.now) }
{
    let _long = sets.length();
    let places = sets.dimension() + 1;
    Plan::build(alloc, places, sets.field().size() as u64, 1)
}

// How a search ends: whether it is exact, the lower end, and the blocks.
#[derive(Clone, Copy)]
struct Ending {
    exact: bool,
    low: u64,
    blocks: u64,
}

impl Ending {
    // The end after so many blocks, at which no word can be nearer than the best.
    fn exact(best: &Best, blocks: u64) -> Ending
        ensures is { result ≡ record { exact = true; low = best.now.weight; blocks = blocks } }
    {
        Ending {
            exact: true,
            low: best.weight,
            blocks,
        }
    }

    // The answer with the best word.
    fn near(self, best: Best) -> Near
        ensures is { near_of result ≡ ending_near self.exact self.low self.blocks best }
    {
        Near {
            exact: self.exact,
            low: self.low,
            weight: best.weight,
            word: best.word,
            blocks: self.blocks,
        }
    }
}

// Whether all blocks of a phase come before block `last` or end there.
fn ends_by(_frame: &Frame, phase: CosetPhase, last: u64) -> bool
    requires phase { IsPhaseOf _frame.now phase }
    requires last { (phase.first ≤ last) × (last < 2 ^ 40) }
    ensures is { result ≡ nat_le (coset_blocks_before (length _frame.now.sets.rows) (size _frame.now.sets.field)
        (set_count _frame.now.sets) (suc phase.number)) last }
{
    (phase.patterns + (BLOCK - 1)) / BLOCK <= last - phase.first
}

// The phase of a number that begins at block `first`, of which no blocks from the budget on are to be done.
fn phase_of(frame: &Frame, number: usize, first: u64, budget: u64) -> CosetPhase
    requires frame { IsFrame frame.now }
    requires one { number < coset_phases (length frame.now.sets.rows) (set_count frame.now.sets) }
    requires first { first ≡ coset_blocks_before (length frame.now.sets.rows) (size frame.now.sets.field)
        (set_count frame.now.sets) number }
    requires budget { (first ≤ budget) × (budget ≤ 2 ^ 40) }
    ensures phase { IsPhaseOf frame.now result }
    ensures number { (result.number ≡ number) × (result.first ≡ first) }
    ensures blocks { first + result.blocks ≡ min budget
        (coset_blocks_before (length frame.now.sets.rows) (size frame.now.sets.field) (set_count frame.now.sets)
        (suc number)) }
{
    let _some = frame.sets.dimension();
    let m = frame.sets.count();
    let level = number / m;
    let patterns = frame.plan.led_count(level + 1);
    CosetPhase {
        number,
        set: number % m,
        level,
        first,
        patterns,
        blocks: ((patterns + (BLOCK - 1)) / BLOCK).min(budget - first),
    }
}

// Searches phase after phase.
fn search<R: Threads + Sync>(
    rt: &R,
    alloc: Global,
    frame: &Frame,
    state: &mut State,
    budget: u64,
    workers: u32,
) -> Result<Ending, NoMemory>
    requires frame { IsFrame frame.now }
    requires state { IsStateAt frame.now 0 state.old }
    requires budget { budget ≤ 2 ^ 40 }
    requires workers { (1 ≤ workers) × (workers ≤ 256) }
    ensures is { IfOk result (λ e. ending_near e.exact e.low e.blocks state.new.best
        ≡ near_answer frame.now.sets frame.now.word budget) }
{
    let _many = frame.sets.dimension();
    let last = budget.min(CUT - 1);
    let mut blocks: u64 = 0;
    for number in 0..frame.sets.dimension() * frame.sets.count() + 1 {
        let low = bound_at(&frame.sets, number);
        if state.best.weight <= low {
            return Ok(Ending::exact(&state.best, blocks));
        }
        let phase = phase_of(frame, number, blocks, budget);
        search_phase(rt, alloc, frame, phase, workers, state)?;
        if !ends_by(frame, phase, last) {
            return Ok(Ending {
                exact: false,
                low,
                blocks: budget,
            });
        }
        blocks += phase.blocks;
    }
    Ok(Ending::exact(&state.best, blocks))
}
