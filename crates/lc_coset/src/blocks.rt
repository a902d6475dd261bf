//! The blocks of a phase, which the workers of a round do.

ghost use Rattle.std.specs.Prelude.{◌≡◌, ℕ, ◌+◌, ◌-◌, ◌*◌, ◌^◌, ◌<◌, ◌≤◌, Some, length, option_map, IfOk};
ghost use Rattle.lc_enumeration.specs.Search.{least_in, board_value};
ghost use Rattle.lc_enumeration.specs.NearWord.{near_in_block};
ghost use Rattle.lc_crew.specs.Crew.{IsFresh};
ghost use Rattle.lc_coset.specs.Near.{near_value, IsRoomOf};
ghost use Rattle.lc_coset.specs.Phase.{IsFrame, IsPhaseOf, IsFitting};

use crate::frame::Frame;
use crate::led::{Led, has_block, least_led};
use crate::walk::{Room, Walk, go_to, step, value_here};
use lc_crew::{Blocks, NoMemory as CrewNoMemory};
use lc_field::NoMemory;
use lc_kernel::Scratch;
use std::alloc::Global;

/// A phase of a search: the patterns of one level on one set.
#[derive(Clone, Copy)]
pub(crate) struct CosetPhase {
    /// its number, from 0
    pub(crate) number: usize,
    /// the index of the information set, from 0
    pub(crate) set: usize,
    /// how many nonzero entries its patterns have
    pub(crate) level: usize,
    /// its first block
    pub(crate) first: u64,
    /// how many patterns it has, counted up to 2^53
    pub(crate) patterns: u64,
    /// how many of its blocks are to be done
    pub(crate) blocks: u64,
}

/// What a worker works in: a room, and the memory of the kernel if there is a larger code.
#[derive(Drop)]
pub(crate) struct Desk {
    pub(crate) room: Room,
    pub(crate) scratch: Option<Scratch>,
}

/// The blocks of a phase that are to be done, numbered from 0. The value of a block is that of its least pair of a distance and
/// a place.
#[derive(Clone, Copy)]
pub(crate) struct PhaseBlocks<'a> {
    pub(crate) frame: &'a Frame,
    pub(crate) phase: CosetPhase,
    pub(crate) led: &'a Option<Led>,
}

impl<'a> Blocks for PhaseBlocks<'a> {
    type Room = Desk;

    ghost total = { λ s. s.phase.blocks };

    ghost value = { λ s b. near_value s.frame.now.sets s.frame.now.word (s.phase.first + b) };

    // a search for a nearest word counts nothing
    ghost share = { λ s b j. 0 };

    ghost fits = { λ s desk. IsFitting s.frame.now s.phase s.led.now desk };

    ghost tally = { λ s room j. 0 };

    fn value_of(&self, block: u64, desk: &mut Desk) -> u64 {
        value_of_block(self.frame, self.phase, self.led, block, desk)
    }

    fn another(&self, alloc: Global, desk: &Desk) -> Result<Desk, CrewNoMemory> {
        let Ok(other) = another_desk(alloc, self.frame, desk) else {
            return Err(CrewNoMemory);
        };
        Ok(other)
    }
}

// A desk for another worker, with the same tables of the kernel.
fn another_desk(alloc: Global, frame: &Frame, desk: &Desk) -> Result<Desk, NoMemory>
    ensures place { IfOk result (λ d. IsRoomOf frame.now.sets d.room) }
    ensures memory { IfOk result (λ d. d.scratch ≡ desk.now.scratch) }
{
    let room = Room::new(alloc, &frame.sets)?;
    let scratch = match &desk.scratch {
        Some(first) => Some(first.another(alloc)?),
        None => None,
    };
    Ok(Desk { room, scratch })
}

// The least value of a block of a phase, by the larger code if there is one that has the block.
fn value_of_block(
    frame: &Frame,
    phase: CosetPhase,
    led: &Option<Led>,
    block: u64,
    desk: &mut Desk,
) -> u64
    requires fits { IsFitting frame.now phase led.now desk.old }
    requires block { block < phase.blocks }
    ensures fits { IsFitting frame.now phase led.now desk.new }
    ensures is { option_map board_value (least_in (near_in_block frame.now.sets frame.now.word (phase.first + block)))
        ≡ Some result }
{
    if let Some(led) = led {
        if let Some(scratch) = &mut desk.scratch {
            if has_block(led, phase, block) {
                return least_led(led, frame, phase, block, scratch);
            }
        }
    }
    least_of(frame, phase, block, &mut desk.room)
}

/// The least value of a block of a phase: the distance times 2^52 plus the place of the nearest word of the block, the first of
/// these. It takes no memory.
pub(crate) fn least_of(frame: &Frame, phase: CosetPhase, block: u64, room: &mut Room) -> u64
    requires frame { IsFrame frame.now }
    requires phase { IsPhaseOf frame.now phase }
    requires block { block < phase.blocks }
    requires room { IsRoomOf frame.now.sets room.old }
    ensures room { IsRoomOf frame.now.sets room.new }
    ensures is { option_map board_value (least_in (near_in_block frame.now.sets frame.now.word (phase.first + block)))
        ≡ Some result }
{
    let (sets, plan, left) = (&frame.sets, &frame.plan, &frame.lefts[phase.set]);
    let walk = Walk {
        sets,
        set: phase.set,
        left,
    };
    let rank = block * 4096;
    let place = (phase.first + block) * 4096;
    go_to(&walk, plan, phase.level, rank, room);
    let mut least = value_here(room, phase.level, place);
    for offset in 1..(phase.patterns - rank).min(4096) {
        let before = rank + (offset - 1);
        step(&walk, plan, phase.level, before, room);
        least = least.min(value_here(room, phase.level, place + offset));
    }
    least
}
