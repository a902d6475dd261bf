//! Sources and sinks: the forms in memory, the adapters, and the two loops over them. The vaults and
//! the watcher in memory.
ghost use Rattle.std.specs.Prelude.{◌≤◌};

use lc_io::{
    Advice, Failed, FolderVault, MemorySink, MemorySource, MemoryVault, MemoryWatcher, NoMemory,
    ReadRefusal, ReaderSource, Record, Sink, Slot, Source, Vault, Watcher, WriterSink,
    read_to_limit, write_whole,
};
use std::alloc::Global;
use std::fs;
use std::test::Fail;

const LINE: &[u8] = b"least 2 word [0,1,1]\n";

// The line without its end.
const FRONT: &[u8] = b"least 2 word [0,1,1]";

// What the reads of five bytes answer, in pieces of two and with a second read that fails, and what the buffer holds after each.
const READS: [(Result<usize, Failed>, &[u8; 3]); 5] = [
    (Ok(2), b"ab."),
    (Err(Failed), b"ab."),
    (Ok(2), b"cd."),
    (Ok(1), b"ed."),
    (Ok(0), b"ed."),
];

// Whether the reads of a source are these.
pub(crate) fn gives_pieces<S: Source>(source: &mut S) -> bool {
    let mut buf = [b'.'; 3];
    for (answer, bytes) in &READS {
        if source.read(&mut buf) != *answer || &buf != *bytes {
            return false;
        }
    }
    true
}

#[test]
fn a_memory_source_gives_pieces_and_fails_where_told(rt: HostRuntime) -> Result<(), Fail> {
    let mut source = MemorySource::new(rt.alloc(), b"abcde", 2, &[2])?;
    assert!(rt; gives_pieces(&mut source));
    Ok(())
}

// What the writes of five bytes answer, in pieces of four and with a second write that fails, if there is room for six.
const WRITES: [Result<usize, Failed>; 4] = [Ok(4), Err(Failed), Ok(2), Err(Failed)];

// Whether the writes of a sink are these.
pub(crate) fn takes_pieces<K: Sink>(sink: &mut K) -> bool {
    for answer in &WRITES {
        if sink.write(b"least") != *answer {
            return false;
        }
    }
    true
}

#[test]
fn a_memory_sink_fails_where_told_and_where_it_is_full(rt: HostRuntime) -> Result<(), Fail> {
    let mut sink = MemorySink::new(rt.alloc(), 6, 4, &[2])?;
    assert!(rt; takes_pieces(&mut sink) && sink.bytes() == b"leasle".as_slice());
    Ok(())
}

// Whether a sink with so much room, in pieces of this length and with these writes that fail, takes these bytes of the line.
fn is_written(
    alloc: Global,
    room: usize,
    piece: usize,
    failing: &[u64],
    answer: Result<(), Failed>,
    bytes: &[u8],
) -> Result<bool, NoMemory>
    requires { 1 ≤ piece }
{
    let mut sink = MemorySink::new(alloc, room, piece, failing)?;
    Ok(write_whole(&mut sink, LINE) == answer && sink.bytes() == bytes)
}

#[test]
fn a_line_is_written_whole_or_up_to_the_fault(rt: HostRuntime) -> Result<(), Fail> {
    assert!(rt; is_written(rt.alloc(), 21, 4, &[], Ok(()), LINE)?);
    assert!(rt; is_written(rt.alloc(), 21, 4, &[2], Err(Failed), b"leas")?);
    assert!(rt; is_written(rt.alloc(), 20, 9, &[], Err(Failed), FRONT)?);
    Ok(())
}

// What is read of the line up to some limits.
const LIMITS: [(usize, &[u8]); 4] = [(0, b""), (20, FRONT), (21, LINE), (22, LINE)];

// Whether these bytes of a source are read up to a limit.
fn gives(alloc: Global, source: &mut MemorySource, limit: usize, wanted: &[u8]) -> bool {
    match read_to_limit(alloc, source, limit) {
        Ok(read) => read.as_slice() == wanted,
        Err(_refusal) => false,
    }
}

// Whether so many bytes of a source are read, which holds more.
fn gives_many(alloc: Global, source: &mut MemorySource, limit: usize) -> bool {
    match read_to_limit(alloc, source, limit) {
        Ok(read) => read.len() == limit,
        Err(_refusal) => false,
    }
}

// Whether these bytes of the line are read up to a limit.
fn line_is_read(alloc: Global, limit: usize, wanted: &[u8]) -> Result<bool, NoMemory> {
    let mut source = MemorySource::new(alloc, LINE, 4, &[])?;
    Ok(gives(alloc, &mut source, limit, wanted))
}

// Whether the line is refused if its first read fails.
fn line_is_refused(alloc: Global) -> Result<bool, NoMemory> {
    let mut failing = MemorySource::new(alloc, LINE, 4, &[1])?;
    match read_to_limit(alloc, &mut failing, 22) {
        Ok(_read) => Ok(false),
        Err(refusal) => Ok(refusal == ReadRefusal::Failed),
    }
}

// Whether the line is read if a call after that which found its end would fail.
fn end_is_found_once(alloc: Global) -> Result<bool, NoMemory> {
    let mut source = MemorySource::new(alloc, LINE, 4, &[8])?;
    Ok(gives(alloc, &mut source, 22, LINE))
}

// Whether all but one of so many spaces are read.
fn spaces_are_read(alloc: Global, spaces: &[u8]) -> Result<bool, NoMemory> {
    let mut source = MemorySource::new(alloc, spaces, 10_000, &[])?;
    Ok(gives_many(alloc, &mut source, 9_999))
}

#[test]
fn a_source_is_read_to_its_end_or_the_limit(rt: HostRuntime) -> Result<(), Fail> {
    for (limit, wanted) in &LIMITS {
        assert!(rt; line_is_read(rt.alloc(), *limit, wanted)?, "at {limit}");
    }
    assert!(rt; line_is_refused(rt.alloc())?);
    assert!(rt; end_is_found_once(rt.alloc())?);
    let spaces = vec![in rt.alloc(); b' '; 10_000]?;
    assert!(rt; spaces_are_read(rt.alloc(), &spaces)?);
    Ok(())
}

#[test]
fn a_reader_is_a_source(rt: HostRuntime) {
    let mut source = ReaderSource::new(b"abc".as_slice());
    let mut buf = [0; 2];
    for (answer, bytes) in [(Ok(2), b"ab"), (Ok(1), b"cb"), (Ok(0), b"cb")] {
        assert!(rt; source.read(&mut buf) == answer && &buf == bytes);
    }
}

// Whether the line is written to a vector.
fn is_taken(written: &mut Vec<u8>) -> bool {
    write_whole(&mut WriterSink::new(written), LINE) == Ok(())
}

// Whether a sink with room for two bytes takes the first of two pieces, and then nothing.
fn is_full(room: &mut [u8]) -> bool {
    let mut sink = WriterSink::new(room);
    sink.write(b"ab") == Ok(2) && sink.write(b"cd") == Err(Failed) && sink.write(b"") == Ok(0)
}

#[test]
fn a_writer_is_a_sink(rt: HostRuntime) {
    let mut written = Vec::new(rt.alloc());
    assert!(rt; is_taken(&mut written) && written.as_slice() == LINE);
    assert!(rt; is_full(&mut [0; 2]));
}

// The first four calls of a session of which the fourth one fails, and two stores that don't fit.
const STORES: [(Slot, &[u8], Result<(), Failed>); 6] = [
    (Slot::Zero, b"", Ok(())),
    (Slot::One, b"", Ok(())),
    (Slot::Zero, b"abcde", Ok(())),
    (Slot::One, b"fghij", Err(Failed)),
    (Slot::Zero, b"abcdef", Ok(())),
    (Slot::Zero, b"klmnopqrstuvwx", Err(Failed)),
];

// What the slot holds after each of them.
const HELD: [&[u8]; 6] = [b"", b"", b"abcde", b"fg", b"abcdef", b"klmnop"];

fn holds(vault: &mut MemoryVault, slot: Slot, wanted: &[u8]) -> bool {
    let mut buf = [0; 8];
    match vault.load(slot, &mut buf) {
        Ok(count) => &buf[..count] == wanted,
        Err(Failed) => false,
    }
}

#[test]
fn a_memory_vault_tears_a_slot_where_told(rt: HostRuntime) -> Result<(), Fail> {
    // the loads between the stores are counted too: the seventh call is the fourth store
    let mut vault = MemoryVault::new(rt.alloc(), 6, &[7])?;
    for (store, held) in STORES.iter().zip(HELD) {
        let answer = vault.store(store.0, store.1);
        assert!(rt; answer == store.2 && holds(&mut vault, store.0, held));
    }
    assert!(rt; holds(&mut vault, Slot::One, b"fg"));
    Ok(())
}

const NOTES: [Record; 2] = [
    Record {
        query: 0,
        blocks: 1,
        bound: 2,
        best: 3,
    },
    Record {
        query: 0,
        blocks: 2,
        bound: 3,
        best: 3,
    },
];

fn answers_to_notes(watcher: &mut MemoryWatcher, wanted: [Advice; 2]) -> bool {
    watcher.told(&NOTES[0]) == wanted[0] && watcher.told(&NOTES[1]) == wanted[1]
}

#[test]
fn a_memory_watcher_answers_in_turn_and_then_leaves(rt: HostRuntime) -> Result<(), Fail> {
    let table: [(&[Advice], [Advice; 2]); 4] = [
        (&[Advice::Go, Advice::Go], [Advice::Go, Advice::Go]),
        (&[Advice::Go], [Advice::Go, Advice::Leave]),
        (&[], [Advice::Leave, Advice::Leave]),
        (&[Advice::Pause, Advice::Go], [Advice::Pause, Advice::Go]),
    ];
    for (answers, wanted) in table {
        let mut watcher = MemoryWatcher::new(rt.alloc(), answers)?;
        assert!(rt; answers_to_notes(&mut watcher, wanted));
    }
    Ok(())
}

#[test]
fn a_memory_watcher_has_heard_what_it_was_told(rt: HostRuntime) -> Result<(), Fail> {
    let mut watcher = MemoryWatcher::new(rt.alloc(), &[Advice::Go, Advice::Pause])?;
    assert!(rt; answers_to_notes(&mut watcher, [Advice::Go, Advice::Pause]));
    for (at, note) in [(0, Some(NOTES[0])), (1, Some(NOTES[1])), (2, None)] {
        assert!(rt; watcher.heard_at(at) == note);
    }
    Ok(())
}

// Whether a vault keeps two slots: it loads what it stored last, and nothing of the other slot.
fn keeps_two_slots<V: Vault>(vault: &mut V) -> bool {
    let mut buf = [b'.'; 4];
    vault.load(Slot::Zero, &mut buf) == Ok(0)
        && vault.store(Slot::Zero, b"abcdef") == Ok(())
        && vault.store(Slot::Zero, b"ghi") == Ok(())
        && vault.load(Slot::One, &mut buf) == Ok(0)
        && vault.load(Slot::Zero, &mut buf) == Ok(3)
        && &buf == b"ghi."
}

// Whether a vault loads nothing, and no store succeeds.
fn fails_to_store<V: Vault>(vault: &mut V) -> bool {
    vault.load(Slot::One, &mut [0; 4]) == Ok(0) && vault.store(Slot::One, b"abc") == Err(Failed)
}

// Whether a vault of two files keeps two slots.
fn are_kept(rt: HostRuntime, alloc: Global) -> Result<bool, NoMemory> {
    let mut vault = FolderVault::new(rt, alloc, "outside.slot0", "outside.slot1")?;
    Ok(keeps_two_slots(&mut vault))
}

#[test]
fn a_folder_vault_keeps_two_files(rt: HostRuntime) -> Result<(), Fail> {
    assert!(rt; are_kept(rt.clone()?, rt.alloc())?);
    fs::remove_file(&rt, "outside.slot0")?;
    Ok(())
}

// Whether a vault of two files in a folder that isn't there fails to store.
fn are_missing(rt: HostRuntime, alloc: Global) -> Result<bool, NoMemory> {
    let mut vault = FolderVault::new(rt, alloc, "no/slot0", "no/slot1")?;
    Ok(fails_to_store(&mut vault))
}

#[test]
fn a_folder_vault_without_a_folder_fails(rt: HostRuntime) -> Result<(), Fail> {
    assert!(rt; are_missing(rt.clone()?, rt.alloc())?);
    Ok(())
}
