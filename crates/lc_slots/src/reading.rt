//! What one slot holds.
ghost use Rattle.std.specs.Prelude.{◌≡◌, ◌<◌, length, take, IfOk, IfErr, IsOk, IfSome, MatchResult};
ghost use Rattle.lc_formats.specs.Checkpoint.{checkpoint_in, refused, damaged};
ghost use Rattle.lc_io.specs.Outside.{HasRisen};
ghost use Rattle.lc_io.specs.Vaults.{in_slot};
ghost use Rattle.lc_slots.specs.Found.{IsRead, IsRanged, CountsLoad};
ghost use Rattle.lc_slots.specs.declared.reading.LoadRefusal.TheVariants as refusal;

use lc_checkpoint::{Checkpoint, CheckpointRefusal, decode};
use lc_io::{NoMemory, Slot, Vault};
use std::alloc::{AllocError, Global};

/// Why no checkpoint could be chosen.
#[derive(Clone, Copy, Debug, PartialEq, Eq)]
pub enum LoadRefusal {
    /// A load failed.
    VaultFault,
    /// No memory is left.
    NoMemory,
}

impl From<AllocError> for LoadRefusal {
    ghost from_gives = { λ _ e. e ≡ refusal.NoMemory };

    fn from(_e: AllocError) -> LoadRefusal {
        LoadRefusal::NoMemory
    }
}

impl From<NoMemory> for LoadRefusal {
    ghost from_gives = { λ _ e. e ≡ refusal.NoMemory };

    fn from(_e: NoMemory) -> LoadRefusal {
        LoadRefusal::NoMemory
    }
}

/// What a slot holds.
#[derive(Drop)]
pub(crate) enum Held {
    /// nothing
    Empty,
    /// bytes that are no checkpoint
    Refused,
    /// a checkpoint
    Holds(Checkpoint),
}

// What these bytes are.
#[tactic(auto, using(crate::proofs::ReadLaws::held_in_laws))]
fn held_in(alloc: Global, bytes: &[u8]) -> Result<Held, NoMemory>
    ensures is { IfOk result (λ h. IsRead h bytes.now) }
    ensures ranged { IfOk result (λ h. IsRanged h) }
    ensures damaged { checkpoint_in bytes.now ≡ refused damaged → IsOk result }
{
    if bytes.is_empty() {
        return Ok(Held::Empty);
    }
    match decode(alloc, bytes) {
        Ok(point) => Ok(Held::Holds(point)),
        Err(CheckpointRefusal::Damaged) => Ok(Held::Refused),
        Err(CheckpointRefusal::Version(_)) => Ok(Held::Refused),
        Err(CheckpointRefusal::Shape) => Ok(Held::Refused),
        Err(CheckpointRefusal::NoMemory) => Err(NoMemory),
    }
}

// What a slot holds. It is loaded into a buffer that is longer than any checkpoint.
pub(crate) fn held_by<V: Vault>(
    alloc: Global,
    vault: &mut V,
    slot: Slot,
    buf: &mut [u8],
) -> Result<Held, LoadRefusal>
    requires { 4194304 < length buf.old }
    ensures is { IfOk result (λ h. IfSome (V.contents vault.old) (λ slots. IsRead h (in_slot slot slots))) }
    ensures ranged { IfOk result (λ h. IsRanged h) }
    ensures same { V.contents vault.new ≡ V.contents vault.old }
    ensures count { MatchResult result (λ _. V.faults vault.new ≡ V.faults vault.old)
        (λ e. CountsLoad e (V.faults vault.old) (V.faults vault.new)) }
    ensures damaged { IfSome (V.contents vault.old)
        (λ slots. checkpoint_in (in_slot slot slots) ≡ refused damaged → IfErr result (λ e. e ≡ refusal.VaultFault)) }
{
    match vault.load(slot, buf) {
        Ok(count) => match held_in(alloc, &buf[..count]) {
            Ok(read) => Ok(read),
            Err(_) => Err(LoadRefusal::NoMemory),
        },
        Err(_) => Err(LoadRefusal::VaultFault),
    }
}
