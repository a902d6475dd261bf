//! The watchers of the program.
ghost use Rattle.std.specs.Prelude.{◌≡◌, ◌≢◌, ◌<◌, ◌↔◌, None, IsOk};
ghost use Rattle.lc_io.specs.Watchers.{AnswersFrom, HearsUnlessLeft, pauses_after};
ghost use Rattle.codes.specs.Lines.{record_line};
ghost use Rattle.codes.specs.Watching.{LooksForStop, pauses_of, WasTold, WritesLine};

use lc_arguments::{Line, push_numbered};
use lc_io::{Advice, Folder, Record, Watcher, WriterSink, write_whole};
use std::io;
use std::io::Write;

// The line of a record.
#[tactic(auto, unfolding(crate::specs::Lines::record_line))]
fn line_of(note: &Record) -> Line
    ensures is { result.bytes ≡ record_line note.now }
{
    let mut line = Line::new();
    push_numbered(&mut line, "query ", note.query);
    push_numbered(&mut line, " blocks ", note.blocks);
    push_numbered(&mut line, " bound ", note.bound);
    push_numbered(&mut line, " best ", note.best);
    line.push_str("\n");
    line
}

/// Writes a line for each record, and leaves after the first write that fails. It takes no memory.
#[derive(Drop)]
pub(crate) struct LineWatcher<W> {
    sink: WriterSink<W>,
}

impl<W: Write + Drop> LineWatcher<W> {
    /// A watcher that writes each line at once.
    pub(crate) fn new(out: W) -> LineWatcher<W>
        ensures is { result.sink ≡ record { inner = out; faults = 0 } }
    {
        LineWatcher {
            sink: WriterSink::new(out),
        }
    }
}

impl<W: Write + Drop> Watcher for LineWatcher<W> {
    ghost use Rattle.std.specs.Prelude.{None};

    ghost heard = { λ w. None };

    ghost coming = { λ w. None };

    ghost pauses = { λ w. 0 };

    fn told(&mut self, note: &Record) -> Advice
        ensures coming { AnswersFrom None result None }
        ensures heard { HearsUnlessLeft None note.now result None }
        ensures pauses { 0 ≡ pauses_after 0 result }
        ensures told { WritesLine W.contents note.now self.old self.new result }
    {
        match write_whole(&mut self.sink, line_of(note).as_bytes()) {
            Ok(()) => Advice::Go,
            Err(_) => Advice::Leave,
        }
    }

    fn heard_at(&self, _at: u64) -> Option<Record> {
        None
    }
}

/// Pauses while there is a file `codes.stop` in its folder.
#[derive(Drop)]
pub(crate) struct StopWatcher<R> {
    folder: R,
    pauses: u64,
}

/// The file that stops a session which keeps its checkpoints.
const STOP_FILE: &str = "codes.stop";

impl<R: Folder + Drop> StopWatcher<R> {
    /// A watcher of this folder, which hasn't paused yet.
    pub(crate) fn new(folder: R) -> StopWatcher<R>
        ensures is { result ≡ record { folder = folder; pauses = 0 } }
    {
        StopWatcher { folder, pauses: 0 }
    }

    // Pauses if the file was found, and as long as the pauses can be counted.
    fn advise(&mut self, found: io::Result<()>) -> Advice
        ensures pauses { self.new.pauses ≡ pauses_after self.old.pauses result }
        ensures stops { (result ≡ Advice.Pause) ↔ (IsOk found × (self.old.pauses < 18446744073709551615)) }
        ensures stays { result ≢ Advice.Leave }
        ensures same { self.new.folder ≡ self.old.folder }
    {
        if found.is_ok() && self.pauses < u64::MAX {
            self.pauses += 1;
            return Advice::Pause;
        }
        Advice::Go
    }
}

impl<R: Folder + Drop> Watcher for StopWatcher<R> {
    ghost use Rattle.std.specs.Prelude.{None};

    ghost heard = { λ w. None };

    ghost coming = { λ w. None };

    ghost pauses = { λ w. w.pauses };

    fn told(&mut self, _note: &Record) -> Advice
        ensures coming { AnswersFrom None result None }
        ensures heard { HearsUnlessLeft None _note.now result None }
        ensures pauses { self.new.pauses ≡ pauses_after self.old.pauses result }
        ensures told { LooksForStop R.files self.old self.new result }
    {
        let found = self.folder.look_for(STOP_FILE);
        self.advise(found)
    }

    fn heard_at(&self, _at: u64) -> Option<Record> {
        None
    }
}

/// One of the two watchers of the program.
#[derive(Drop)]
pub(crate) enum ProgramWatcher<W, R> {
    /// The one that writes a line for each record.
    Lines(LineWatcher<W>),
    /// The one that pauses while there is a file `codes.stop`.
    Stop(StopWatcher<R>),
}

impl<W: Write + Drop, R: Folder + Drop> Watcher for ProgramWatcher<W, R> {
    ghost use Rattle.std.specs.Prelude.{None};
    ghost use Rattle.codes.specs.Watching.{pauses_of};

    ghost heard = { λ w. None };

    ghost coming = { λ w. None };

    ghost pauses = { λ w. pauses_of w };

    fn told(&mut self, note: &Record) -> Advice
        ensures coming { AnswersFrom None result None }
        ensures heard { HearsUnlessLeft None note.now result None }
        ensures pauses { pauses_of self.new ≡ pauses_after (pauses_of self.old) result }
        ensures told { WasTold W.contents R.files note.now self.old self.new result }
    {
        match self {
            ProgramWatcher::Lines(watcher) => watcher.told(note),
            ProgramWatcher::Stop(watcher) => watcher.told(note),
        }
    }

    fn heard_at(&self, _at: u64) -> Option<Record> {
        None
    }
}
