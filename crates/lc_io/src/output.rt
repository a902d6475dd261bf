// A sink in memory.
ghost use Rattle.std.specs.Prelude.{◌≡◌, ◌⊎◌, ◌<◌, ◌≤◌, ◌↔◌, ◌++◌, ℕ, [], length, take, Some, IfOk, IsOk, IsErr, OnErr, MatchResult};
ghost use Rattle.std.specs.Io.KnownBytes.{Appends, Keeps};
ghost use Rattle.lc_io.specs.Outside.{HasRisen};
ghost use Rattle.lc_io.specs.Memory.{IsFailing, IsFull, answered, failed, write_length};

use crate::calls::Schedule;
use crate::{Failed, NoMemory, Sink};
use std::alloc::Global;
use std::marker::Model;

/// A sink that keeps what it takes, piece by piece, and fails at the calls that it was made to fail at, or without room.
#[derive(Drop)]
pub struct MemorySink {
    taken: Vec<u8>,
    room: usize,
    piece: usize,
    calls: Schedule,
}

impl Model for MemorySink {
    ghost use Rattle.std.specs.Prelude.{◌≤◌, vec_len, vec_capacity};
    ghost use Rattle.lc_io.specs.Memory.{MemoryOutput};

    ghost Value = { MemoryOutput };

    ghost view = { λ s. record { written = s.taken.items; room = s.room; piece = s.piece; calls = s.calls } };

    ghost invariant = { λ s. (vec_len s.taken ≤ s.room) × (s.room ≤ vec_capacity s.taken) × (1 ≤ s.piece) };
}

impl MemorySink {
    /// A sink for `room` bytes that takes at most `piece` of them, at least 1, in one write. Its
    /// calls with the numbers in `failing`, counted from 1, fail and take nothing, and so does one
    /// that finds no room left. The number of a call stays at 2^64 - 1. Refused only for want of
    /// memory.
    pub fn new(
        alloc: Global,
        room: usize,
        piece: usize,
        failing: &[u64],
    ) -> Result<MemorySink, NoMemory>
        requires { 1 ≤ piece }
        ensures { IfOk result (λ s. s ≡ record {
          written = [];
          room = room;
          piece = piece;
          calls = record { failing = failing.now; number = 1; faults = 0 };
        }) }
    {
        Ok(MemorySink {
            taken: Vec::with_capacity(alloc, room)?,
            room,
            piece,
            calls: Schedule::new(alloc, failing)?,
        })
    }

    /// The bytes taken so far. Takes no memory.
    pub fn bytes(&self) -> &[u8]
        ensures { result.now ≡ self.now.written }
    {
        &self.taken
    }
}

impl Sink for MemorySink {
    ghost written = { λ s. Some s.written };

    ghost faults = { λ s. s.calls.faults };

    /// Fails exactly if the number of the call is one that fails or no room is left. Takes no
    /// memory.
    fn write(&mut self, buf: &[u8]) -> Result<usize, Failed>
        ensures bound { IfOk result (λ n. n ≤ length buf.now) }
        ensures some { IfOk result (λ n. 0 < length buf.now → 0 < n) }
        ensures took { IfOk result
            (λ n. Appends (Some self.old.written) (Some self.new.written) (take n buf.now)) }
        ensures failed { OnErr result (Keeps (Some self.old.written) (Some self.new.written)) }
        ensures count { MatchResult result (λ _. self.new.calls.faults ≡ self.old.calls.faults)
            (λ _. HasRisen self.old.calls.faults self.new.calls.faults) }
        ensures fails { IsErr result ↔ (IsFailing self.old.calls ⊎ IsFull self.old) }
        ensures always { self.old.calls.failing ≡ []
            → length self.old.written < self.old.room → IsOk result }
        ensures length { IfOk result (λ n. n ≡ write_length self.old (length buf.now)) }
        ensures after { MatchResult result
            (λ n. self.new ≡ record self.old {
              written = self.old.written ++ take n buf.now;
              calls = answered self.old.calls;
            })
            (λ _. self.new ≡ record self.old { calls = failed self.old.calls }) }
    {
        let left = self.room - self.taken.len();
        self.calls.count(left > 0)?;
        let count = buf.len().min(left).min(self.piece);
        if self.taken.extend_from_slice(&buf[..count]).is_err() {
            unreachable!();
        }
        Ok(count)
    }
}
