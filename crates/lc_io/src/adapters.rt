// A source of any reader, and a sink of any writer.
ghost use Rattle.std.specs.Prelude.{◌≡◌, ◌<◌, ◌≤◌, length, take, drop, IfOk, IsOk, OnErr, MatchResult};
ghost use Rattle.std.specs.Io.KnownBytes.{Consumes, Appends, Keeps, IsAtEnd};
ghost use Rattle.lc_io.specs.Outside.{HasRisen};

use crate::loops::CHUNK;
use crate::{Failed, Sink, Source};
use std::io::{Read, Write};
use std::marker::Model;

/// A source of what a reader gives. Each of its errors is a fault, also one by which the reader
/// says that it was interrupted.
#[derive(Drop)]
pub struct ReaderSource<R> {
    reader: R,
    faults: u64,
}

impl<R> Model for ReaderSource<R> {
    ghost use Rattle.lc_io.specs.Outside.{Counted};

    ghost Value = { Counted R };

    ghost view = { λ s. record { inner = s.reader; faults = s.faults } };
}

impl<R: Read> ReaderSource<R> {
    /// A source of this reader, which hasn't failed. Takes no memory.
    pub fn new(reader: R) -> ReaderSource<R>
        ensures { result ≡ record { inner = reader; faults = 0 } }
    {
        ReaderSource { reader, faults: 0 }
    }
}

impl<R: Read> Source for ReaderSource<R> {
    ghost rest = { λ s. R.remaining s.inner };

    ghost faults = { λ s. s.faults };

    /// Asks the reader once, unless `buf` is empty. A reader that fails may leave anything in the
    /// bytes that it borrows, so it borrows others than those of `buf`.
    fn read(&mut self, buf: &mut [u8]) -> Result<usize, Failed>
        ensures bound { IfOk result (λ n. n ≤ length buf.old) }
        ensures gave { IfOk result
            (λ n. Consumes (R.remaining self.old.inner) (R.remaining self.new.inner) (take n buf.new)) }
        ensures end { IfOk result
            (λ n. n ≡ 0 → 0 < length buf.old → IsAtEnd (R.remaining self.new.inner)) }
        ensures failed { OnErr result
            (Keeps (R.remaining self.old.inner) (R.remaining self.new.inner)) }
        ensures untouched { OnErr result (buf.new ≡ buf.old) }
        ensures count { MatchResult result (λ _. self.new.faults ≡ self.old.faults)
            (λ _. HasRisen self.old.faults self.new.faults) }
        ensures behind { IfOk result (λ n. drop n buf.new ≡ drop n buf.old) }
        ensures nothing { length buf.old ≡ 0 → IsOk result }
    {
        if buf.is_empty() {
            return Ok(0);
        }
        let mut chunk = [0; CHUNK];
        let room = CHUNK.min(buf.len());
        match self.reader.read(&mut chunk[..room]) {
            Ok(count) => {
                buf[..count].copy_from_slice(&chunk[..count]);
                Ok(count)
            }
            Err(_) => {
                self.faults = self.faults.saturating_add(1);
                Err(Failed)
            }
        }
    }
}

/// A sink of what a writer takes. Each of its errors is a fault, also one by which the writer says
/// that it was interrupted, and so is a write that takes nothing of a nonempty piece.
#[derive(Drop)]
pub struct WriterSink<W> {
    writer: W,
    faults: u64,
}

impl<W> Model for WriterSink<W> {
    ghost use Rattle.lc_io.specs.Outside.{Counted};

    ghost Value = { Counted W };

    ghost view = { λ s. record { inner = s.writer; faults = s.faults } };
}

impl<W: Write> WriterSink<W> {
    /// A sink of this writer, which hasn't failed. Takes no memory.
    pub fn new(writer: W) -> WriterSink<W>
        ensures { result ≡ record { inner = writer; faults = 0 } }
    {
        WriterSink { writer, faults: 0 }
    }

    // The writer.
    pub(crate) fn get_ref(&self) -> &W
        ensures { result.now ≡ self.now.inner }
    {
        &self.writer
    }
}

impl<W: Write> Sink for WriterSink<W> {
    ghost written = { λ s. W.contents s.inner };

    ghost faults = { λ s. s.faults };

    /// Asks the writer once, unless `buf` is empty.
    fn write(&mut self, buf: &[u8]) -> Result<usize, Failed>
        ensures bound { IfOk result (λ n. n ≤ length buf.now) }
        ensures some { IfOk result (λ n. 0 < length buf.now → 0 < n) }
        ensures took { IfOk result
            (λ n. Appends (W.contents self.old.inner) (W.contents self.new.inner) (take n buf.now)) }
        ensures failed { OnErr result
            (Keeps (W.contents self.old.inner) (W.contents self.new.inner)) }
        ensures count { MatchResult result (λ _. self.new.faults ≡ self.old.faults)
            (λ _. HasRisen self.old.faults self.new.faults) }
        ensures nothing { length buf.now ≡ 0 → IsOk result }
    {
        if buf.is_empty() {
            return Ok(0);
        }
        match self.writer.write(buf) {
            Ok(count) if count > 0 => Ok(count),
            _ => {
                self.faults = self.faults.saturating_add(1);
                Err(Failed)
            }
        }
    }
}
