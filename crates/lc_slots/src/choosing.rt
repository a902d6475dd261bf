//! The checkpoint that `resume` takes.
ghost use Rattle.std.specs.Prelude.{◌≡◌, ◌<◌, length, vec_len, IfOk, IfSome, MatchResult};
ghost use Rattle.lc_session_rules.specs.Slots.{choice};
ghost use Rattle.lc_slots.specs.Found.{IsChosen, IsInRangeIfTaken, CountsLoad, choice_of};

use crate::reading::{Held, LoadRefusal, held_by};
use lc_checkpoint::Checkpoint;
use lc_io::{NoMemory, Slot, Vault};
use std::alloc::Global;

// One byte more than the longest checkpoint has, so that a longer one is seen to be too long.
const ROOM: usize = 4_194_305;

/// What the slots of a vault hold.
///
/// Contracts see it as `choice_of` it, a `Choice` of `lc_session_rules`.
#[derive(Drop)]
pub enum Found {
    /// Both slots are empty.
    Nothing,
    /// Something was stored, but neither slot holds a checkpoint.
    Damaged,
    /// The checkpoint of the greater turn; that of slot zero if the turns are equal.
    Taken(Checkpoint),
}

// The checkpoint that goes on, of what the two slots hold.
#[tactic(auto, using(crate::proofs::ChoiceLaws::later_of_laws))]
fn later_of(zero: Held, one: Held) -> Found
    ensures { IsChosen zero one result }
{
    match zero {
        Held::Empty => match one {
            Held::Empty => Found::Nothing,
            Held::Refused => Found::Damaged,
            Held::Holds(second) => Found::Taken(second),
        },
        Held::Refused => match one {
            Held::Empty => Found::Damaged,
            Held::Refused => Found::Damaged,
            Held::Holds(second) => Found::Taken(second),
        },
        Held::Holds(first) => match one {
            Held::Empty => Found::Taken(first),
            Held::Refused => Found::Taken(first),
            Held::Holds(second) => greater_turn(first, second),
        },
    }
}

// The checkpoint of the greater turn, the first one if the turns are equal.
#[tactic(auto, using(crate::proofs::ChoiceLaws::greater_turn_laws))]
fn greater_turn(first: Checkpoint, second: Checkpoint) -> Found
    ensures { IsChosen (Held.Holds first) (Held.Holds second) result }
{
    if first.turn < second.turn {
        return Found::Taken(second);
    }
    Found::Taken(first)
}

// What the slots hold. They are loaded into a buffer that is longer than any checkpoint.
fn chosen_by<V: Vault>(alloc: Global, vault: &mut V, buf: &mut [u8]) -> Result<Found, LoadRefusal>
    requires { 4194304 < length buf.old }
    ensures is { IfOk result (λ f. IfSome (V.contents vault.old) (λ slots. choice slots ≡ choice_of f)) }
    ensures ranged { IfOk result (λ f. IsInRangeIfTaken f) }
    ensures same { V.contents vault.new ≡ V.contents vault.old }
    ensures count { MatchResult result (λ _. V.faults vault.new ≡ V.faults vault.old)
        (λ e. CountsLoad e (V.faults vault.old) (V.faults vault.new)) }
{
    let zero = held_by(alloc, vault, Slot::Zero, buf)?;
    let one = held_by(alloc, vault, Slot::One, buf)?;
    Ok(later_of(zero, one))
}

// A buffer of this many bytes.
fn buffer(alloc: Global, room: usize) -> Result<Vec<u8>, NoMemory>
    ensures { IfOk result (λ v. vec_len v ≡ room) }
{
    Ok(vec![in alloc; 0u8; room]?)
}

/// What the slots of a vault hold: no checkpoint at all, or the one that a session goes on from.
///
/// Slot zero is loaded first, then slot one. Refused with `VaultFault` if a load fails, and with `NoMemory` if no memory is
/// left; no slot changes.
pub fn chosen<V: Vault>(alloc: Global, vault: &mut V) -> Result<Found, LoadRefusal>
    ensures is { IfOk result (λ f. IfSome (V.contents vault.old) (λ slots. choice slots ≡ choice_of f)) }
    ensures ranged { IfOk result (λ f. IsInRangeIfTaken f) }
    ensures same { V.contents vault.new ≡ V.contents vault.old }
    ensures count { MatchResult result (λ _. V.faults vault.new ≡ V.faults vault.old)
        (λ e. CountsLoad e (V.faults vault.old) (V.faults vault.new)) }
{
    let mut buf = buffer(alloc, ROOM)?;
    chosen_by(alloc, vault, &mut buf)
}
