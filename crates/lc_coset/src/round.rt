//! The rounds of a phase, by workers beside each other.

ghost use Rattle.std.specs.Prelude.{◌≡◌, ℕ, ◌+◌, ◌^◌, ◌<◌, ◌≤◌, length, All, IfOk};
ghost use Rattle.lc_coset.specs.Led.{IsDeskOf};
ghost use Rattle.lc_coset.specs.Phase.{IsFrame, IsPhaseOf, IsStateAt};

use crate::best::{Best, take_best};
use crate::blocks::{CosetPhase, Desk, PhaseBlocks};
use crate::frame::Frame;
use crate::led::{Led, led_of};
use crate::walk::Room;
use lc_crew::{Crew, run_round};
use lc_enumeration::PLACES;
use lc_field::NoMemory;
use lc_infoset::Sets;
use lc_io::{Gate, OpenGate};
use lc_kernel::Scratch;
use std::alloc::Global;
use std::thread::Threads;

// At most so many blocks are done in one round.
const LONGEST_ROUND: u64 = 256;

// The larger code is made before the first phase of which so many blocks are to be done.
const MANY: u64 = 2;

/// What changes in a search: the best word, a room of its own, what the workers of earlier rounds worked in, and the larger code,
/// if it is made, and whether that was tried.
#[derive(Drop)]
pub(crate) struct State {
    pub(crate) best: Best,
    pub(crate) own: Room,
    pub(crate) spare: Vec<Desk>,
    pub(crate) led: Option<Led>,
    pub(crate) tried: bool,
}

/// Does the blocks of a phase that are to be done, in rounds of at most 256, by so many workers.
pub(crate) fn search_phase<R: Threads + Sync>(
    rt: &R,
    alloc: Global,
    frame: &Frame,
    phase: CosetPhase,
    workers: u32,
    state: &mut State,
) -> Result<(), NoMemory>
    requires frame { IsFrame frame.now }
    requires phase { IsPhaseOf frame.now phase }
    requires workers { (1 ≤ workers) × (workers ≤ 256) }
    requires state { IsStateAt frame.now phase.first state.old }
    ensures state { IfOk result (λ _. IsStateAt frame.now (phase.first + phase.blocks) state.new) }
{
    prepare(alloc, frame, phase, state)?;
    let crew = Crew {
        rt,
        alloc,
        workers,
        gate: &OpenGate,
    };
    let mut done: u64 = 0;
    while done < phase.blocks {
        let count = (phase.blocks - done).min(LONGEST_ROUND);
        search_round(&crew, frame, phase, done, count, state)?;
        done += count;
    }
    Ok(())
}

// Does the `count` blocks of a phase after the first `start`.
fn search_round<R: Threads + Sync, G: Gate + Sync>(
    crew: &Crew<'_, R, G>,
    frame: &Frame,
    phase: CosetPhase,
    start: u64,
    count: u64,
    state: &mut State,
) -> Result<(), NoMemory>
    requires frame { IsFrame frame.now }
    requires phase { IsPhaseOf frame.now phase }
    requires count { (1 ≤ count) × (count ≤ 256) }
    requires blocks { start + count ≤ phase.blocks }
    requires state { IsStateAt frame.now (phase.first + start) state.old }
    ensures state { IfOk result (λ _. IsStateAt frame.now (phase.first + start + count) state.new) }
{
    provide(crew.alloc, &frame.sets, &state.led, &mut state.spare)?;
    let blocks = PhaseBlocks {
        frame,
        phase,
        led: &state.led,
    };
    let first = state.best.weight * PLACES + state.best.place;
    let Ok(closed) = run_round(crew, &blocks, start, count, first, &mut state.spare) else {
        return Err(NoMemory);
    };
    let (best, own) = (&mut state.best, &mut state.own);
    take_best(&blocks, start, count, closed.best(), best, own);
    Ok(())
}

// Makes the larger code before the first phase of many blocks.
fn prepare(
    alloc: Global,
    frame: &Frame,
    phase: CosetPhase,
    state: &mut State,
) -> Result<(), NoMemory>
    requires frame { IsFrame frame.now }
    requires state { IsStateAt frame.now phase.first state.old }
    ensures state { IfOk result (λ _. IsStateAt frame.now phase.first state.new) }
{
    if state.tried || phase.blocks < MANY {
        return Ok(());
    }
    state.led = led_of(alloc, &frame.sets, &frame.word, &frame.lefts)?;
    state.spare = Vec::new(alloc);
    state.tried = true;
    Ok(())
}

// Makes what a worker works in if there is none.
fn provide(
    alloc: Global,
    sets: &Sets,
    led: &Option<Led>,
    spare: &mut Vec<Desk>,
) -> Result<(), NoMemory>
    requires spare { All (IsDeskOf sets.now led.now) spare.old.items }
    ensures spare { IfOk result (λ _. All (IsDeskOf sets.now led.now) spare.new.items) }
    ensures some { IfOk result (λ _. 0 < length spare.new.items) }
{
    if spare.is_empty() {
        let desk = desk_of(alloc, sets, led)?;
        spare.push(desk)?;
    }
    Ok(())
}

// What the first worker works in.
fn desk_of(alloc: Global, sets: &Sets, led: &Option<Led>) -> Result<Desk, NoMemory>
    ensures desk { IfOk result (IsDeskOf sets.now led.now) }
{
    let room = Room::new(alloc, sets)?;
    let scratch = match led {
        Some(led) => Some(Scratch::new(alloc, &led.sets)?),
        None => None,
    };
    Ok(Desk { room, scratch })
}
