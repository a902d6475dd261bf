// The calls of something in memory: which of them fail, and how many did.
ghost use Rattle.std.specs.Prelude.{◌≡◌, ◌⊎◌, ◌↔◌, false, IfOk, OnErr, IsErr, MatchResult};
ghost use Rattle.lc_io.specs.Outside.{HasRisen};
ghost use Rattle.lc_io.specs.Memory.{IsFailing, answered, failed, faulted};

use crate::{Failed, NoMemory};
use std::alloc::Global;
use std::marker::Model;

/// Which calls fail, the number of the next one, and how many have failed.
#[derive(Drop)]
pub(crate) struct Schedule {
    failing: Vec<u64>,
    number: u64,
    faults: u64,
}

impl Model for Schedule {
    ghost use Rattle.lc_io.specs.Memory.{Calls};

    ghost Value = { Calls };

    ghost view = { λ s. record { failing = s.failing.items; number = s.number; faults = s.faults } };
}

impl Schedule {
    /// The calls with these numbers will fail. The next call is the first.
    pub(crate) fn new(alloc: Global, failing: &[u64]) -> Result<Self, NoMemory>
        ensures { IfOk result (λ s. s ≡ record { failing = failing.now; number = 1; faults = 0 }) }
    {
        Ok(Schedule {
            failing: failing.to_vec(alloc)?,
            number: 1,
            faults: 0,
        })
    }

    /// Counts a call, which fails if its number says so or if it can't be answered.
    pub(crate) fn count(&mut self, can: bool) -> Result<(), Failed>
        ensures fails { IsErr result ↔ (IsFailing self.old ⊎ (can ≡ false)) }
        ensures after { MatchResult result (λ _. self.new ≡ answered self.old)
            (λ _. self.new ≡ failed self.old) }
        ensures risen { OnErr result (HasRisen self.old.faults self.new.faults) }
    {
        let number = self.number;
        self.number = number.saturating_add(1);
        if can && !self.failing.contains(&number) {
            return Ok(());
        }
        self.faults = self.faults.saturating_add(1);
        Err(Failed)
    }
    /// Counts a fault of a call whose number is counted already, and which was to give its answer.
    pub(crate) fn fault(&mut self)
        ensures after { self.new ≡ faulted self.old }
        ensures risen { HasRisen self.old.faults self.new.faults }
    {
        self.faults = self.faults.saturating_add(1);
    }
}
