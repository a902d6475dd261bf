// A vault in memory.
ghost use Rattle.std.specs.Prelude.{◌≡◌, ◌⊎◌, ◌<◌, ◌≤◌, ◌↔◌, ◌++◌, ℕ, [], length, take, drop, min, vec_capacity, Some, IfOk, OnOk, OnErr, IsErr, IsOk, MatchResult};
ghost use Rattle.lc_io.specs.Outside.{HasRisen};
ghost use Rattle.lc_io.specs.Memory.{IsFailing, answered, failed, torn_front};
ghost use Rattle.lc_io.specs.Vaults.{empty_slots, in_slot, put, WhereTold, IsPut, IsTorn, Loads};

use crate::calls::Schedule;
use crate::{Failed, NoMemory, Slot, Vault};
use std::alloc::Global;
use std::marker::Model;

/// A vault that keeps its slots in memory, and fails at the calls that it was made to fail at, or without room.
#[derive(Drop)]
pub struct MemoryVault {
    zero: Vec<u8>,
    one: Vec<u8>,
    room: usize,
    calls: Schedule,
}

impl Model for MemoryVault {
    ghost use Rattle.std.specs.Prelude.{◌≤◌, vec_len, vec_capacity};
    ghost use Rattle.lc_io.specs.Memory.{MemorySlots};

    ghost Value = { MemorySlots };

    ghost view = { λ s. record {
      slots = record { zero_slot = s.zero.items; one_slot = s.one.items };
      room = s.room;
      calls = s.calls;
    } };

    ghost invariant = { λ s. (s.room ≤ vec_capacity s.zero) × (s.room ≤ vec_capacity s.one) };
}

// Puts these bytes in the place of those that are there. The caller made room for them.
fn replace(kept: &mut Vec<u8>, bytes: &[u8])
    requires { length bytes.now ≤ vec_capacity kept.old }
    ensures items { kept.new.items ≡ bytes.now }
    ensures room { vec_capacity kept.old ≤ vec_capacity kept.new }
{
    kept.clear();
    if kept.extend_from_slice(bytes).is_err() {
        unreachable!();
    }
}

// Copies as much of the front of `kept` to the front of `buf` as fits. Returns how much.
fn copy_front(kept: &[u8], buf: &mut [u8]) -> usize
    ensures count { result ≡ min (length kept.now) (length buf.old) }
    ensures copied { buf.new ≡ take result kept.now ++ drop result buf.old }
{
    let count = kept.len().min(buf.len());
    buf[..count].copy_from_slice(&kept[..count]);
    count
}

impl MemoryVault {
    /// A vault of two empty slots with room for `room` bytes each. Its loads and stores are counted
    /// together from 1. Those with the numbers in `failing` fail, and so does a store of more than
    /// `room` bytes. A store that fails leaves the first half of its bytes, rounded down, or the
    /// first `room` of them if these are fewer. The number of a call stays at 2^64 - 1. Refused only
    /// for want of memory.
    pub fn new(alloc: Global, room: usize, failing: &[u64]) -> Result<MemoryVault, NoMemory>
        ensures { IfOk result (λ v. v ≡ record {
          slots = empty_slots;
          room = room;
          calls = record { failing = failing.now; number = 1; faults = 0 };
        }) }
    {
        Ok(MemoryVault {
            zero: Vec::with_capacity(alloc, room)?,
            one: Vec::with_capacity(alloc, room)?,
            room,
            calls: Schedule::new(alloc, failing)?,
        })
    }

    // Puts these bytes, which fit, into a slot.
    fn keep(&mut self, slot: Slot, bytes: &[u8])
        requires { length bytes.now ≤ self.old.room }
        ensures { self.new ≡ record self.old { slots = put slot bytes.now self.old.slots } }
    {
        match slot {
            Slot::Zero => replace(&mut self.zero, bytes),
            Slot::One => replace(&mut self.one, bytes),
        }
    }
}

impl Vault for MemoryVault {
    ghost contents = { λ v. Some v.slots };

    ghost faults = { λ v. v.calls.faults };

    /// Fails exactly if the number of the call is one that fails. Takes no memory.
    fn load(&mut self, slot: Slot, buf: &mut [u8]) -> Result<usize, Failed>
        ensures bound { IfOk result (λ n. n ≤ length buf.old) }
        ensures gave { IfOk result (λ n. Loads (Some self.old.slots) slot buf.old buf.new n) }
        ensures same { Some self.new.slots ≡ Some self.old.slots }
        ensures untouched { OnErr result (buf.new ≡ buf.old) }
        ensures count { MatchResult result (λ _. self.new.calls.faults ≡ self.old.calls.faults)
            (λ _. HasRisen self.old.calls.faults self.new.calls.faults) }
        ensures fails { IsErr result ↔ IsFailing self.old.calls }
        ensures always { self.old.calls.failing ≡ [] → IsOk result }
        ensures after { MatchResult result
            (λ _. self.new ≡ record self.old { calls = answered self.old.calls })
            (λ _. self.new ≡ record self.old { calls = failed self.old.calls }) }
    {
        self.calls.count(true)?;
        let kept = match slot {
            Slot::Zero => &self.zero,
            Slot::One => &self.one,
        };
        Ok(copy_front(kept, buf))
    }

    /// Fails exactly if the number of the call is one that fails or the bytes don't fit. Takes
    /// no memory.
    fn store(&mut self, slot: Slot, bytes: &[u8]) -> Result<(), Failed>
        ensures stored { OnOk result
            (WhereTold (Some self.old.slots) (Some self.new.slots) (IsPut slot bytes.now)) }
        ensures torn { OnErr result
            (WhereTold (Some self.old.slots) (Some self.new.slots) (IsTorn slot)) }
        ensures count { MatchResult result (λ _. self.new.calls.faults ≡ self.old.calls.faults)
            (λ _. HasRisen self.old.calls.faults self.new.calls.faults) }
        ensures fails { IsErr result ↔ (IsFailing self.old.calls ⊎ (self.old.room < length bytes.now)) }
        ensures always { self.old.calls.failing ≡ []
            → length bytes.now ≤ self.old.room → IsOk result }
        ensures after { MatchResult result
            (λ _. self.new ≡ record self.old {
              slots = put slot bytes.now self.old.slots;
              calls = answered self.old.calls;
            })
            (λ _. self.new ≡ record self.old {
              slots = put slot (torn_front self.old bytes.now) self.old.slots;
              calls = failed self.old.calls;
            }) }
    {
        if let Err(fault) = self.calls.count(bytes.len() <= self.room) {
            let left = (bytes.len() / 2).min(self.room);
            self.keep(slot, &bytes[..left]);
            return Err(fault);
        }
        self.keep(slot, bytes);
        Ok(())
    }
}
