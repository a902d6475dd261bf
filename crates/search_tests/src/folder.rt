//! What a vault of two files asks of its folder, call by call, and that it keeps long slots whole.
use lc_io::{Failed, Folder, FolderVault, MemoryFolder, NoMemory, Slot, Vault};
use std::alloc::{Allocator, Global};
use std::cell::Cell;
use std::fs::{File, Metadata, OpenFile, OpenOptions};
use std::io::{Read, Seek, SeekFrom, Write};
use std::rt::Files;
use std::test::Fail;
use std::{fs, io};

// A file of a slot, or the new one that a store makes.
#[derive(Clone, Copy, PartialEq, Eq)]
enum Name {
    Slot,
    New,
}

// What a folder or a file of it is asked.
#[derive(Clone, Copy, PartialEq, Eq)]
enum Call {
    Nothing,
    Remove(Name),
    Open(Name),
    Make(Name),
    Read,
    Write,
    Sync,
    Rename(Name, Name),
}

// The first eight calls, how many there were, and whether the disk can be waited for.
#[derive(Drop)]
struct Calls {
    first: Cell<[Call; 8]>,
    count: Cell<usize>,
    syncs: bool,
}

impl Calls {
    fn new(syncs: bool) -> Calls {
        Calls {
            first: Cell::new([Call::Nothing; 8]),
            count: Cell::new(0),
            syncs,
        }
    }

    fn note(&self, call: Call) {
        let mut first = self.first.get();
        if let Some(place) = first.get_mut(self.count.get()) {
            *place = call;
        }
        self.first.set(first);
        self.count.set(self.count.get().saturating_add(1));
    }
}

fn name_of(path: &str) -> Name {
    if path.ends_with(".new") {
        Name::New
    } else {
        Name::Slot
    }
}

// The folder of the tests, which notes what it and its files are asked.
#[derive(Drop)]
struct NotingFolder<'a> {
    rt: HostRuntime,
    calls: &'a Calls,
}

// A file of that folder.
#[derive(Drop)]
struct NotingFile<'a> {
    file: File,
    calls: &'a Calls,
}

impl Read for NotingFile<'_> {
    fn read(&mut self, buf: &mut [u8]) -> io::Result<usize> {
        self.calls.note(Call::Read);
        self.file.read(buf)
    }
}

impl Write for NotingFile<'_> {
    fn write(&mut self, buf: &[u8]) -> io::Result<usize> {
        self.calls.note(Call::Write);
        self.file.write(buf)
    }

    fn flush(&mut self) -> io::Result<()> {
        Ok(())
    }
}

impl Seek for NotingFile<'_> {
    fn seek(&mut self, to: SeekFrom) -> io::Result<u64> {
        self.file.seek(to)
    }
}

impl OpenFile for NotingFile<'_> {
    fn metadata(&self) -> io::Result<Metadata> {
        self.file.metadata()
    }

    fn set_len(&self, size: u64) -> io::Result<()> {
        self.file.set_len(size)
    }

    fn sync_all(&self) -> io::Result<()> {
        self.calls.note(Call::Sync);
        if !self.calls.syncs {
            return Err(io::Error::from(io::ErrorKind::StorageFull));
        }
        self.file.sync_all()
    }

    fn sync_data(&self) -> io::Result<()> {
        self.file.sync_data()
    }
}

impl<'a> Files for NotingFolder<'a> {
    type File = NotingFile<'a>;

    type Dir = <HostRuntime as Files>::Dir;

    fn open_file(&self, how: &OpenOptions, path: &str) -> io::Result<NotingFile<'a>> {
        self.calls.note(if how.asks_create_new() {
            Call::Make(name_of(path))
        } else {
            Call::Open(name_of(path))
        });
        Ok(NotingFile {
            file: self.rt.open_file(how, path)?,
            calls: self.calls,
        })
    }

    fn open_dir(&self, path: &str) -> io::Result<Self::Dir> {
        self.rt.open_dir(path)
    }

    fn metadata(&self, path: &str) -> io::Result<Metadata> {
        self.rt.metadata(path)
    }

    fn symlink_metadata(&self, path: &str) -> io::Result<Metadata> {
        self.rt.symlink_metadata(path)
    }

    fn copy(&self, from: &str, to: &str) -> io::Result<u64> {
        self.rt.copy(from, to)
    }

    fn rename(&self, from: &str, to: &str) -> io::Result<()> {
        self.calls.note(Call::Rename(name_of(from), name_of(to)));
        self.rt.rename(from, to)
    }

    fn remove_file(&self, path: &str) -> io::Result<()> {
        self.calls.note(Call::Remove(name_of(path)));
        self.rt.remove_file(path)
    }

    fn create_dir(&self, path: &str) -> io::Result<()> {
        self.rt.create_dir(path)
    }

    fn remove_dir(&self, path: &str) -> io::Result<()> {
        self.rt.remove_dir(path)
    }

    fn remove_dir_all<B: Allocator>(&self, alloc: B, path: &str) -> io::Result<()> {
        self.rt.remove_dir_all(alloc, path)
    }
}

// A store and then a load, and what the folder was asked.
const ASKED: [Call; 8] = [
    Call::Remove(Name::New),
    Call::Make(Name::New),
    Call::Write,
    Call::Sync,
    Call::Rename(Name::New, Name::Slot),
    Call::Open(Name::Slot),
    Call::Read,
    Call::Read,
];

fn is_stored_and_loaded<V: Vault>(vault: &mut V) -> bool {
    vault.store(Slot::One, b"abc") == Ok(()) && vault.load(Slot::One, &mut [0; 4]) == Ok(3)
}

fn are_asked(rt: HostRuntime, alloc: Global, calls: &Calls) -> Result<bool, NoMemory> {
    let folder = NotingFolder { rt, calls };
    let mut vault = FolderVault::new(folder, alloc, "noting.slot0", "noting.slot1")?;
    Ok(is_stored_and_loaded(&mut vault))
}

#[test]
fn a_store_makes_a_new_file_writes_it_syncs_it_and_renames_it(rt: HostRuntime) -> Result<(), Fail> {
    let calls = Calls::new(true);
    assert!(rt; are_asked(rt.clone()?, rt.alloc(), &calls)?);
    assert!(rt; calls.first.get() == ASKED && calls.count.get() == 8);
    fs::remove_file(&rt, "noting.slot1")?;
    Ok(())
}

// Whether a store fails, after which the slot is empty.
fn is_unstored<V: Vault>(vault: &mut V) -> bool {
    vault.store(Slot::One, b"abc") == Err(Failed) && vault.load(Slot::One, &mut [0; 4]) == Ok(0)
}

fn is_refused(rt: HostRuntime, alloc: Global, calls: &Calls) -> Result<bool, NoMemory> {
    let folder = NotingFolder { rt, calls };
    let mut vault = FolderVault::new(folder, alloc, "unsynced.slot0", "unsynced.slot1")?;
    Ok(is_unstored(&mut vault))
}

#[test]
fn a_store_fails_if_the_disk_cannot_be_waited_for(rt: HostRuntime) -> Result<(), Fail> {
    let calls = Calls::new(false);
    assert!(rt; is_refused(rt.clone()?, rt.alloc(), &calls)?);
    fs::remove_file(&rt, "unsynced.slot1.new")?;
    Ok(())
}

// Whether a vault keeps these bytes, one piece in each slot, and loads them whole.
fn keeps_long_slots<V: Vault>(vault: &mut V, zero: &[u8], one: &[u8], buf: &mut [u8]) -> bool {
    vault.store(Slot::Zero, zero) == Ok(())
        && vault.store(Slot::One, one) == Ok(())
        && vault.load(Slot::Zero, buf) == Ok(zero.len())
        && buf.starts_with(zero)
        && vault.load(Slot::One, buf) == Ok(one.len())
        && buf.starts_with(one)
}

fn are_long(rt: HostRuntime, alloc: Global, zero: &[u8], one: &[u8]) -> Result<bool, NoMemory> {
    let mut buf = vec![in alloc; 0u8; 300_001]?;
    let mut vault = FolderVault::new(rt, alloc, "long.slot0", "long.slot1")?;
    Ok(keeps_long_slots(&mut vault, zero, one, &mut buf))
}

// So many bytes, none of which repeats a pattern of 4,096.
fn counted(alloc: Global, count: usize) -> Result<Vec<u8>, NoMemory> {
    let mut bytes = Vec::new(alloc);
    for i in 0..count {
        bytes.push((i % 251) as u8)?;
    }
    Ok(bytes)
}

#[test]
fn a_folder_vault_keeps_long_slots_whole(rt: HostRuntime) -> Result<(), Fail> {
    let zero = counted(rt.alloc(), 5000)?;
    let one = counted(rt.alloc(), 300_000)?;
    assert!(rt; are_long(rt.clone()?, rt.alloc(), &zero, &one)?);
    fs::remove_file(&rt, "long.slot0")?;
    fs::remove_file(&rt, "long.slot1")?;
    Ok(())
}

fn finds<R: Folder>(folder: &R, name: &str) -> bool {
    folder.look_for(name).is_ok()
}

#[test]
fn a_folder_finds_a_file_that_is_there(rt: HostRuntime) -> Result<(), Fail> {
    assert!(rt; !finds(&rt, "found.file"));
    fs::File::create(&rt, "found.file")?;
    assert!(rt; finds(&rt, "found.file") && !finds(&rt, "found"));
    fs::remove_file(&rt, "found.file")?;
    Ok(())
}

// The number of a call that fails, whether the second store then fails, and the bytes that its slot has. The first store makes the
// calls 1 to 4, and the second 5 to 8: to remove, make, keep and rename. That there is nothing to remove is no fault.
const FAULTS: [(u64, bool, &[u8]); 5] = [
    (5, false, b"second"),
    (6, true, b"first"),
    (7, true, b"first"),
    (8, true, b"first"),
    (9, false, b"second"),
];

fn has<V: Vault>(vault: &mut V, slot: Slot, bytes: &[u8]) -> bool {
    let mut buf = [0; 8];
    vault.load(slot, &mut buf) == Ok(bytes.len()) && buf.starts_with(bytes)
}

// Whether the second store does so, the third one succeeds, and the other slot stays empty.
fn stores<V: Vault>(vault: &mut V, fails: bool, left: &[u8]) -> bool {
    vault.store(Slot::Zero, b"first") == Ok(())
        && vault.store(Slot::Zero, b"second").is_err() == fails
        && has(vault, Slot::Zero, left)
        && vault.store(Slot::Zero, b"third") == Ok(())
        && has(vault, Slot::Zero, b"third")
        && has(vault, Slot::One, b"")
}

fn are_whole(alloc: Global, call: u64, fails: bool, left: &[u8]) -> Result<bool, NoMemory> {
    let folder = MemoryFolder::new(alloc, &[call])?;
    let mut vault = FolderVault::new(folder, alloc, "a", "b")?;
    Ok(stores(&mut vault, fails, left))
}

#[test]
fn a_store_that_fails_at_a_call_leaves_its_slot_whole_and_the_next_one_succeeds(
    rt: HostRuntime,
) -> Result<(), Fail> {
    for (call, fails, left) in &FAULTS {
        assert!(rt; are_whole(rt.alloc(), *call, *fails, left)?);
    }
    Ok(())
}
