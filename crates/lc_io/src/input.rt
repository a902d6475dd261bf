// A source in memory.
ghost use Rattle.std.specs.Prelude.{◌≡◌, ◌<◌, ◌≤◌, ◌↔◌, ◌++◌, ℕ, [], length, take, drop, Some, IfOk, IsOk, IsErr, OnErr, MatchResult};
ghost use Rattle.std.specs.Io.KnownBytes.{Consumes, Keeps, IsAtEnd};
ghost use Rattle.lc_io.specs.Outside.{HasRisen};
ghost use Rattle.lc_io.specs.Memory.{IsFailing, answered, failed, read_length};

use crate::calls::Schedule;
use crate::{Failed, NoMemory, Source};
use std::alloc::Global;
use std::marker::Model;

/// A source that gives the bytes that it was made of, piece by piece, and fails at the calls that it was made to fail at.
#[derive(Drop)]
pub struct MemorySource {
    bytes: Vec<u8>,
    given: usize,
    piece: usize,
    calls: Schedule,
}

impl Model for MemorySource {
    ghost use Rattle.std.specs.Prelude.{◌≤◌, drop, vec_len};
    ghost use Rattle.lc_io.specs.Memory.{MemoryInput};

    ghost Value = { MemoryInput };

    ghost view = { λ s. record { rest = drop s.given s.bytes.items; piece = s.piece; calls = s.calls } };

    ghost invariant = { λ s. (s.given ≤ vec_len s.bytes) × (1 ≤ s.piece) };
}

impl MemorySource {
    /// A source of these bytes that gives at most `piece` of them, at least 1, in one read. Its
    /// calls with the numbers in `failing`, counted from 1, fail and take nothing. The number of a
    /// call stays at 2^64 - 1. Refused only for want of memory.
    pub fn new(
        alloc: Global,
        bytes: &[u8],
        piece: usize,
        failing: &[u64],
    ) -> Result<MemorySource, NoMemory>
        requires { 1 ≤ piece }
        ensures { IfOk result (λ s. s ≡ record {
          rest = bytes.now;
          piece = piece;
          calls = record { failing = failing.now; number = 1; faults = 0 };
        }) }
    {
        Ok(MemorySource {
            bytes: bytes.to_vec(alloc)?,
            given: 0,
            piece,
            calls: Schedule::new(alloc, failing)?,
        })
    }
}

impl Source for MemorySource {
    ghost rest = { λ s. Some s.rest };

    ghost faults = { λ s. s.calls.faults };

    /// Fails exactly if the number of the call is one that fails. Takes no memory.
    fn read(&mut self, buf: &mut [u8]) -> Result<usize, Failed>
        ensures bound { IfOk result (λ n. n ≤ length buf.old) }
        ensures gave { IfOk result
            (λ n. Consumes (Some self.old.rest) (Some self.new.rest) (take n buf.new)) }
        ensures end { IfOk result
            (λ n. n ≡ 0 → 0 < length buf.old → IsAtEnd (Some self.new.rest)) }
        ensures failed { OnErr result (Keeps (Some self.old.rest) (Some self.new.rest)) }
        ensures count { MatchResult result (λ _. self.new.calls.faults ≡ self.old.calls.faults)
            (λ _. HasRisen self.old.calls.faults self.new.calls.faults) }
        ensures fails { IsErr result ↔ IsFailing self.old.calls }
        ensures always { self.old.calls.failing ≡ [] → IsOk result }
        ensures length { IfOk result (λ n. n ≡ read_length self.old (length buf.old)) }
        ensures behind { IfOk result (λ n. drop n buf.new ≡ drop n buf.old) }
        ensures untouched { OnErr result (buf.new ≡ buf.old) }
        ensures after { MatchResult result
            (λ n. self.new ≡ record self.old {
              rest = drop n self.old.rest;
              calls = answered self.old.calls;
            })
            (λ _. self.new ≡ record self.old { calls = failed self.old.calls }) }
    {
        self.calls.count(true)?;
        let rest = &self.bytes[self.given..];
        let count = rest.len().min(buf.len()).min(self.piece);
        buf[..count].copy_from_slice(&rest[..count]);
        self.given += count;
        Ok(count)
    }
}
