//! The adapters over a reader, a writer and a folder that fail once and then answer, and that count how often they are asked.
use crate::outside::{gives_pieces, takes_pieces};
use lc_io::{
    Failed, FolderVault, ReaderSource, Sink, Slot, Source, Vault, WriterSink, write_whole,
};
use std::alloc::{Allocator, Global};
use std::cell::Cell;
use std::fs::{File, Metadata, OpenOptions};
use std::io::{Read, Write};
use std::rt::Files;
use std::test::Fail;
use std::{fs, io};

// A reader or a writer that moves at most `most` bytes a call, and whose call with the number `failing` fails.
#[derive(Drop)]
struct Faltering<T> {
    inner: T,
    most: usize,
    failing: u64,
    calls: u64,
}

impl<T> Faltering<T> {
    // How many of so many bytes the next call moves.
    fn turn(&mut self, len: usize) -> io::Result<usize> {
        self.calls = self.calls.saturating_add(1);
        if self.calls == self.failing {
            return Err(io::Error::from(io::ErrorKind::Interrupted));
        }
        Ok(len.min(self.most))
    }
}

impl<T: Read> Read for Faltering<T> {
    fn read(&mut self, buf: &mut [u8]) -> io::Result<usize> {
        let len = self.turn(buf.len())?.min(buf.len());
        self.inner.read(&mut buf[..len])
    }
}

impl<T: Write> Write for Faltering<T> {
    fn write(&mut self, buf: &[u8]) -> io::Result<usize> {
        let len = self.turn(buf.len())?.min(buf.len());
        self.inner.write(&buf[..len])
    }

    fn flush(&mut self) -> io::Result<()> {
        Ok(())
    }
}

// Whether a reader that fails at its second call gives these pieces as a source, and nothing for an empty buffer.
fn is_source<R: Read>(reader: &mut R) -> bool {
    let mut source = ReaderSource::new(reader);
    gives_pieces(&mut source) && source.read(&mut []) == Ok(0)
}

#[test]
fn a_source_asks_its_reader_once_a_call(rt: HostRuntime) {
    let mut reader = Faltering {
        inner: b"abcde".as_slice(),
        most: 2,
        failing: 2,
        calls: 0,
    };
    // the end was asked for once, and for the empty buffer nothing
    assert!(rt; is_source(&mut reader) && reader.calls == 5);
}

// Whether a writer that fails at its second call takes these pieces as a sink, and an empty one.
fn is_sink<W: Write>(writer: &mut W) -> bool {
    let mut sink = WriterSink::new(writer);
    takes_pieces(&mut sink) && sink.write(b"") == Ok(0)
}

// Whether a writer to these bytes is asked once a call.
fn is_asked(taken: &mut [u8]) -> bool {
    let mut writer = Faltering {
        inner: taken,
        most: 4,
        failing: 2,
        calls: 0,
    };
    is_sink(&mut writer) && writer.calls == 4
}

#[test]
fn a_sink_asks_its_writer_once_a_call(rt: HostRuntime) {
    let mut taken = [0; 6];
    assert!(rt; is_asked(&mut taken) && &taken == b"leasle");
}

// Whether a writer to these bytes whose third call fails is asked three times.
fn is_left(taken: &mut [u8]) -> bool {
    let mut writer = Faltering {
        inner: taken,
        most: 2,
        failing: 3,
        calls: 0,
    };
    write_whole(&mut WriterSink::new(&mut writer), b"least 2 w") == Err(Failed) && writer.calls == 3
}

#[test]
fn a_line_is_not_written_on_after_a_fault(rt: HostRuntime) {
    let mut taken = [0; 9];
    assert!(rt; is_left(&mut taken) && &taken == b"leas\0\0\0\0\0");
}

// The folder of the tests, of which the call with the number `failing` fails. Opening and renaming count.
#[derive(Drop)]
struct Rough {
    rt: HostRuntime,
    failing: u64,
    calls: Cell<u64>,
}

impl Rough {
    fn turn(&self) -> io::Result<()> {
        self.calls.set(self.calls.get().saturating_add(1));
        if self.calls.get() == self.failing {
            return Err(io::Error::from(io::ErrorKind::Interrupted));
        }
        Ok(())
    }
}

impl Files for Rough {
    type File = File;

    type Dir = <HostRuntime as Files>::Dir;

    fn open_file(&self, how: &OpenOptions, path: &str) -> io::Result<File> {
        self.turn()?;
        self.rt.open_file(how, path)
    }

    fn open_dir(&self, path: &str) -> io::Result<Self::Dir> {
        self.rt.open_dir(path)
    }

    fn metadata(&self, path: &str) -> io::Result<Metadata> {
        self.rt.metadata(path)
    }

    fn symlink_metadata(&self, path: &str) -> io::Result<Metadata> {
        self.rt.symlink_metadata(path)
    }

    fn copy(&self, from: &str, to: &str) -> io::Result<u64> {
        self.rt.copy(from, to)
    }

    fn rename(&self, from: &str, to: &str) -> io::Result<()> {
        self.turn()?;
        self.rt.rename(from, to)
    }

    fn remove_file(&self, path: &str) -> io::Result<()> {
        self.rt.remove_file(path)
    }

    fn create_dir(&self, path: &str) -> io::Result<()> {
        self.rt.create_dir(path)
    }

    fn remove_dir(&self, path: &str) -> io::Result<()> {
        self.rt.remove_dir(path)
    }

    fn remove_dir_all<B: Allocator>(&self, alloc: B, path: &str) -> io::Result<()> {
        self.rt.remove_dir_all(alloc, path)
    }
}

// What a store, a load, a store and a load answer if a call of the folder fails, and how often the folder is asked.
const TURNS: [(u64, [Result<usize, Failed>; 4], u64); 5] = [
    (1, [Err(Failed), Ok(0), Ok(0), Ok(3)], 5),
    (2, [Err(Failed), Ok(0), Ok(0), Ok(3)], 6),
    (3, [Ok(0), Err(Failed), Ok(0), Ok(3)], 6),
    (4, [Ok(0), Ok(3), Err(Failed), Ok(3)], 5),
    (5, [Ok(0), Ok(3), Err(Failed), Ok(3)], 6),
];

fn stored(vault: &mut FolderVault<&Rough>) -> Result<usize, Failed> {
    vault.store(Slot::Zero, b"abc")?;
    Ok(0)
}

fn loaded(vault: &mut FolderVault<&Rough>) -> Result<usize, Failed> {
    vault.load(Slot::Zero, &mut [0; 4])
}

fn answers(vault: &mut FolderVault<&Rough>, wanted: &[Result<usize, Failed>; 4]) -> bool {
    stored(vault) == wanted[0]
        && loaded(vault) == wanted[1]
        && stored(vault) == wanted[2]
        && loaded(vault) == wanted[3]
}

fn are_asked(
    rough: &Rough,
    alloc: Global,
    wanted: &[Result<usize, Failed>; 4],
) -> Result<bool, Fail> {
    let mut vault = FolderVault::new(rough, alloc, "rough.slot0", "rough.slot1")?;
    Ok(answers(&mut vault, wanted))
}

#[test]
fn a_folder_is_asked_once_a_call(rt: HostRuntime) -> Result<(), Fail> {
    for (failing, wanted, calls) in &TURNS {
        let rough = Rough {
            rt: rt.clone()?,
            failing: *failing,
            calls: Cell::new(0),
        };
        assert!(rt; are_asked(&rough, rt.alloc(), wanted)?);
        assert!(rt; rough.calls.get() == *calls);
        fs::remove_file(&rt, "rough.slot0")?;
        let _ = fs::remove_file(&rt, "rough.slot0.new");
    }
    Ok(())
}
