// The record of a round, and what a watcher of the records promises.
ghost use Rattle.std.specs.Prelude.{◌≡◌, ℕ, List, Option, slice_get};
ghost use Rattle.std.specs.Option.{option_and_then};
ghost use Rattle.lc_io.specs.Watchers.{AnswersFrom, HearsUnlessLeft, pauses_after};

/// What a session tells after each round of a search.
#[derive(Clone, Copy, Debug, PartialEq, Eq)]
pub struct Record {
    /// The number of the query, counted from 0.
    pub query: u64,
    /// How many of its blocks are done.
    pub blocks: u64,
    /// Each nonzero codeword of which no multiple was seen in these blocks has at least this weight. In a search that started
    /// afresh, or from a true record, the lesser of this and `best` is a lower bound on the minimum distance.
    pub bound: u64,
    /// The weight of the best word so far.
    pub best: u64,
}

/// What a watcher answers to a record.
#[derive(Clone, Copy, Debug, PartialEq, Eq)]
pub enum Advice {
    /// Go on.
    Go,
    /// End the session here, if its checkpoints are kept.
    Pause,
    /// Go on without this watcher.
    Leave,
}

/// Whoever hears the records of a session.
pub trait Watcher: Drop {
    ghost use Rattle.lc_io.specs.declared.watcher.Record.{Record};
    ghost use Rattle.lc_io.specs.declared.watcher.Advice.{Advice};

    /// The records heard, if the watcher discloses them. One that does always does.
    ghost heard: { Self → Option (List Record) };

    /// The advice still to be given, if the watcher discloses it. One that does always does.
    ghost coming: { Self → Option (List Advice) };

    /// How often it has answered Pause.
    ghost pauses: { Self → ℕ };

    /// Hears a record. A watcher that discloses the advice to come returns the next of it, and takes it away; if none is left,
    /// that is Leave.
    fn told(&mut self, note: &Record) -> Advice
        ensures coming { AnswersFrom (coming self.old) result (coming self.new) }
        ensures heard { HearsUnlessLeft (heard self.old) note.now result (heard self.new) }
        ensures pauses { pauses self.new ≡ pauses_after (pauses self.old) result };

    /// Returns the record at this index of those heard, if there is one and they are told.
    fn heard_at(&self, at: u64) -> Option<Record>
        ensures { result ≡ option_and_then (λ notes. slice_get notes at) (heard self.now) };
}

impl Watcher for Box<dyn Watcher> {
    ghost heard = { λ b. (Watcher-box b).heard b.value };

    ghost coming = { λ b. (Watcher-box b).coming b.value };

    ghost pauses = { λ b. (Watcher-box b).pauses b.value };

    fn told(&mut self, note: &Record) -> Advice {
        (**self).told(note)
    }

    fn heard_at(&self, at: u64) -> Option<Record> {
        (**self).heard_at(at)
    }
}
