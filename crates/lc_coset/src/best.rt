//! The best word so far.

ghost use Rattle.std.specs.Prelude.{◌≡◌, ℕ, ◌+◌, ◌*◌, ◌^◌, ◌<◌, ◌≤◌, Some, length, IfOk};
ghost use Rattle.lc_algebra.specs.Word.{IsWord, weight as weight_of};
ghost use Rattle.lc_enumeration.specs.Search.{board_value};
ghost use Rattle.lc_enumeration.specs.NearWord.{near_best, coset_word_at};
ghost use Rattle.lc_coset.specs.Near.{near_left, AreLefts, IsRoomOf};
ghost use Rattle.lc_coset.specs.Phase.{IsFrame, IsPhaseOf, IsPlaceOf, IsBestAt};

use crate::blocks::{CosetPhase, PhaseBlocks};
use crate::frame::Frame;
use crate::walk::{Room, Walk, go_to, top};
use lc_enumeration::PLACES;
use lc_field::NoMemory;
use lc_infoset::Sets;
use lc_vec::{Word, weight};
use std::alloc::Global;

/// The best word so far: its distance from the given word, its place, and the word.
#[derive(Drop)]
pub(crate) struct Best {
    pub(crate) weight: u64,
    pub(crate) place: u64,
    pub(crate) word: Word,
}

/// The best word before any block is done: the first word of the first set.
pub(crate) fn first_best(
    alloc: Global,
    sets: &Sets,
    word: &Word,
    lefts: &[Word],
) -> Result<Best, NoMemory>
    requires word { IsWord sets.now.field sets.now.columns word.now }
    requires lefts { AreLefts sets.now word.now lefts.now }
    ensures best { IfOk result (IsBestAt sets.now word.now 0) }
    ensures weight { IfOk result (λ b. b.weight ≡ weight_of (near_left sets.now word.now 0)) }
{
    let _some = sets.count();
    let _k = sets.dimension();
    let n = sets.length();
    let field = sets.field();
    let left = lefts[0].symbols();
    let mut first = Word::zero(alloc, n)?;
    first.put_sum(field, word.symbols(), left, field.neg(1));
    Ok(Best {
        weight: weight(left) as u64,
        place: 0,
        word: first,
    })
}

/// Takes the best word after `count` blocks of a phase more, which the board has found to have this value. `start` blocks of
/// the phase were done before. It takes no memory.
pub(crate) fn take_best(
    blocks: &PhaseBlocks<'_>,
    start: u64,
    count: u64,
    value: u64,
    best: &mut Best,
    room: &mut Room,
)
    requires frame { IsFrame blocks.now.frame.now }
    requires phase { IsPhaseOf blocks.now.frame.now blocks.now.phase }
    requires blocks { start + count ≤ blocks.now.phase.blocks }
    requires value { value ≡ board_value (near_best blocks.now.frame.now.sets blocks.now.frame.now.word
        (blocks.now.phase.first + start + count)) }
    requires near { (near_best blocks.now.frame.now.sets blocks.now.frame.now.word
        (blocks.now.phase.first + start + count)).place < 2 ^ 52 }
    requires best { IsBestAt blocks.now.frame.now.sets blocks.now.frame.now.word (blocks.now.phase.first + start)
        best.old }
    requires room { IsRoomOf blocks.now.frame.now.sets room.old }
    ensures best { IsBestAt blocks.now.frame.now.sets blocks.now.frame.now.word
        (blocks.now.phase.first + start + count) best.new }
    ensures room { IsRoomOf blocks.now.frame.now.sets room.new }
{
    let place = value % PLACES;
    put_word(blocks.frame, blocks.phase, place, best, room);
    best.weight = value / PLACES;
    best.place = place;
}

// Makes the word of `best` that at a place of a phase, if that isn't its place.
fn put_word(frame: &Frame, phase: CosetPhase, place: u64, best: &mut Best, room: &mut Room)
    requires frame { IsFrame frame.now }
    requires phase { IsPhaseOf frame.now phase }
    requires there { (place ≡ best.old.place → ⊥) → IsPlaceOf frame.now phase place }
    requires kept { coset_word_at frame.now.sets frame.now.word best.old.place ≡ Some best.old.word }
    requires long { length best.old.word ≡ frame.now.sets.columns }
    requires room { IsRoomOf frame.now.sets room.old }
    ensures there { coset_word_at frame.now.sets frame.now.word place ≡ Some best.new.word }
    ensures long { length best.new.word ≡ frame.now.sets.columns }
    ensures room { IsRoomOf frame.now.sets room.new }
{
    if place == best.place {
        return;
    }
    let (sets, plan, left) = (&frame.sets, &frame.plan, &frame.lefts[phase.set]);
    let walk = Walk {
        sets,
        set: phase.set,
        left,
    };
    let rank = place - phase.first * 4096;
    go_to(&walk, plan, phase.level, rank, room);
    let field = sets.field();
    let rest = top(room, phase.level).symbols();
    best.word
        .put_sum(field, frame.word.symbols(), rest, field.neg(1));
}
