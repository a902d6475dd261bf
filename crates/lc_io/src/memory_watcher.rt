// A watcher in memory.
ghost use Rattle.std.specs.Prelude.{◌≡◌, ◌≤◌, true, [], Some, drop, IfOk, slice_get};
ghost use Rattle.std.specs.Option.{option_and_then};
ghost use Rattle.lc_io.specs.Watchers.{AnswersFrom, HearsUnlessLeft, is_leave, pauses_after};

use crate::{Advice, NoMemory, Record, Watcher};
use std::alloc::Global;
use std::marker::Model;

/// A watcher that keeps what it hears, and answers what it was made of.
#[derive(Drop)]
pub struct MemoryWatcher {
    answers: Vec<Advice>,
    given: usize,
    heard: Vec<Record>,
    pauses: u64,
}

impl Model for MemoryWatcher {
    ghost use Rattle.std.specs.Prelude.{◌≤◌, drop, vec_len, vec_capacity};
    ghost use Rattle.lc_io.specs.Watchers.{MemoryHearing};

    ghost Value = { MemoryHearing };

    ghost view = { λ s. record {
      heard = s.heard.items;
      coming = drop s.given s.answers.items;
      pauses = s.pauses;
    } };

    ghost invariant = { λ s. (s.given ≤ vec_len s.answers)
        × (vec_len s.heard ≤ s.given)
        × (vec_len s.answers ≤ vec_capacity s.heard)
        × (s.pauses ≤ s.given) };
}

impl MemoryWatcher {
    /// A watcher that has heard nothing, and answers these advices in turn and then Leave. It takes
    /// room for as many records here. Refused only for want of memory.
    pub fn new(alloc: Global, answers: &[Advice]) -> Result<MemoryWatcher, NoMemory>
        ensures { IfOk result (λ w. w ≡ record {
          heard = [];
          coming = answers.now;
          pauses = 0;
        }) }
    {
        Ok(MemoryWatcher {
            answers: answers.to_vec(alloc)?,
            given: 0,
            heard: Vec::with_capacity(alloc, answers.len())?,
            pauses: 0,
        })
    }
}

impl Watcher for MemoryWatcher {
    ghost heard = { λ w. Some w.heard };

    ghost coming = { λ w. Some w.coming };

    ghost pauses = { λ w. w.pauses };

    /// Keeps the record, unless the answer is Leave; then what it has heard stays. Takes no memory.
    fn told(&mut self, note: &Record) -> Advice
        ensures coming { AnswersFrom (Some self.old.coming) result (Some self.new.coming) }
        ensures heard { HearsUnlessLeft (Some self.old.heard) note.now result (Some self.new.heard) }
        ensures pauses { self.new.pauses ≡ pauses_after self.old.pauses result }
        ensures left { is_leave result ≡ true → self.new.heard ≡ self.old.heard }
    {
        if self.given == self.answers.len() {
            return Advice::Leave;
        }
        let advice = self.answers[self.given];
        self.given += 1;
        match advice {
            Advice::Go => {}
            Advice::Pause => self.pauses += 1,
            Advice::Leave => return Advice::Leave,
        }
        if self.heard.push(*note).is_err() {
            unreachable!();
        }
        advice
    }

    fn heard_at(&self, at: u64) -> Option<Record> {
        match usize::try_from(at) {
            Ok(at) => self.heard.get(at).copied(),
            Err(_) => None,
        }
    }
}
