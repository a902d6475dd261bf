//! How a checkpoint is kept.
ghost use Rattle.std.specs.Prelude.{◌≡◌, false, length, IsOk, OnOk, IfErr};
ghost use Rattle.hex.specs.Hex.{IsBytes};
ghost use Rattle.lc_formats.specs.Checkpoint.{checkpoint_text, IsWritable};
ghost use Rattle.lc_checkpoint.specs.Seen.{point_of};
ghost use Rattle.lc_session_rules.specs.Slots.{slot_of};
ghost use Rattle.lc_rounds.specs.Step.{PutsIf, PutFails};

use lc_checkpoint::{Checkpoint, encode};
use lc_io::{Slot, Vault};
use std::alloc::Global;

/// Why a checkpoint isn't kept.
#[derive(Clone, Copy, Debug, PartialEq, Eq)]
pub(crate) enum Unkept {
    /// Its store failed.
    VaultFault,
    /// Memory was refused.
    NoMemory,
}

// The slot of a turn: slot Zero for an even one.
pub(crate) fn slot_for(turn: u64) -> Slot
    ensures is { result ≡ slot_of turn }
{
    if turn % 2 == 0 {
        return Slot::Zero;
    }
    Slot::One
}

// Says what the type of bytes says: each is below 256.
fn are_bytes(bytes: &[u8])
    ensures bytes { IsBytes bytes.now }
{}

// Says what the type of a digest says: it has 32 bytes.
pub(crate) fn has_bytes(digest: &[u8; 32])
    ensures long { length digest.now ≡ 32 }
    ensures bytes { IsBytes digest.now }
{
    are_bytes(digest);
}

// Stores the checkpoint in the slot of its turn, if it is to be kept. Else it does nothing.
pub(crate) fn keep_point<V: Vault>(
    alloc: Global,
    vault: &mut V,
    keep: bool,
    point: &Checkpoint,
) -> Result<(), Unkept>
    requires writable { IsWritable (point_of point.now) }
    ensures kept { OnOk result (PutsIf keep (slot_of point.now.turn) (checkpoint_text (point_of point.now))
        (V.contents vault.old) (V.contents vault.new)) }
    ensures quiet { OnOk result (V.faults vault.new ≡ V.faults vault.old) }
    ensures unkept { IfErr result (λ e. PutFails keep (slot_of point.now.turn) (V.contents vault.old)
        (V.contents vault.new) (V.faults vault.old) (V.faults vault.new) e) }
    ensures idle { keep ≡ false → IsOk result }
{
    if !keep {
        return Ok(());
    }
    let Ok(text) = encode(alloc, point) else {
        return Err(Unkept::NoMemory);
    };
    if vault.store(slot_for(point.turn), &text).is_err() {
        return Err(Unkept::VaultFault);
    }
    Ok(())
}
