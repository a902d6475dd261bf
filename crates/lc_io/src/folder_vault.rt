// A vault of two files.
ghost use Rattle.std.specs.Prelude.{◌≡◌, ◌<◌, ◌≤◌, length, take, drop, None, IfOk, IsOk, OnOk, OnErr, MatchResult};
ghost use Rattle.std.specs.Io.KnownBytes.{Consumes, IsAtEnd};
ghost use Rattle.lc_io.specs.Outside.{HasRisen};
ghost use Rattle.lc_io.specs.Vaults.{WhereTold, IsPut, IsTorn, Loads};
ghost use Rattle.lc_io.specs.Folders.{AreApart, HasFailed, IsMade, IsPutOrNot, IsReplacedOrNot, IsTouched, Known, LoadsFile, NotFewer, Replaces, next_of, name_among, slots_in};

use crate::{Failed, Folder, NoMemory, ReaderSource, Slot, Source, Vault, read_to_limit};
use std::alloc::Global;
use std::io;
use std::marker::Model;

/// The names of the file of a slot and of the one that a store writes first.
#[derive(Drop)]
struct SlotFile {
    name: String,
    next: String,
}

impl Model for SlotFile {
    ghost use Rattle.std.specs.Prelude.{◌≡◌, ℕ, List, string_bytes};
    ghost use Rattle.lc_io.specs.Folders.{next_of};

    ghost Value = { List ℕ };

    ghost view = { λ s. string_bytes s.name };

    ghost invariant = { λ s. string_bytes s.next ≡ next_of (string_bytes s.name) };
}

impl SlotFile {
    fn new(alloc: Global, name: &str) -> Result<SlotFile, NoMemory>
        ensures { IfOk result (λ s. s ≡ name.now) }
    {
        let mut next = String::from_str(alloc, name)?;
        next.push_str(".new")?;
        Ok(SlotFile {
            name: String::from_str(alloc, name)?,
            next,
        })
    }

    fn name(&self) -> &str
        ensures { result.now ≡ self.now }
    {
        self.name.as_str()
    }

    fn next(&self) -> &str
        ensures { result.now ≡ next_of self.now }
    {
        self.next.as_str()
    }
}

/// A vault that keeps its slots in two files of a folder. A file that isn't there is an empty slot. It tells what its slots hold if its
/// folder tells what its files do.
#[derive(Drop)]
pub struct FolderVault<R> {
    rt: R,
    alloc: Global,
    zero: SlotFile,
    one: SlotFile,
    faults: u64,
}

impl<R> Model for FolderVault<R> {
    ghost use Rattle.lc_io.specs.Folders.{AreApart, FolderSlots};

    ghost Value = { FolderSlots R };

    ghost view = { λ s. record { folder = s.rt; zero = s.zero; one = s.one; faults = s.faults } };

    ghost invariant = { λ s. AreApart s.zero s.one };
}

impl<R: Folder + Drop> FolderVault<R> {
    /// A vault of the files with these names, which hasn't failed. Neither name may be the other, or the other with `.new` at its end.
    /// A store makes a new file whose name has `.new` at its end, and then renames it. Fails only if memory runs out.
    pub fn new(rt: R, alloc: Global, zero: &str, one: &str) -> Result<FolderVault<R>, NoMemory>
        requires { AreApart zero.now one.now }
        ensures { IfOk result (λ v. v ≡ record { folder = rt; zero = zero.now; one = one.now; faults = 0 }) }
    {
        Ok(FolderVault {
            rt,
            alloc,
            zero: SlotFile::new(alloc, zero)?,
            one: SlotFile::new(alloc, one)?,
            faults: 0,
        })
    }
}

// The file of a slot.
fn file_of<'a>(zero: &'a SlotFile, one: &'a SlotFile, slot: Slot) -> &'a SlotFile
    ensures { result.now ≡ name_among slot zero.now one.now }
{
    match slot {
        Slot::Zero => zero,
        Slot::One => one,
    }
}

// Fills the front of `buf` from a source that is read to its end, or until `buf` is full.
fn fill<S: Source>(alloc: Global, source: &mut S, buf: &mut [u8]) -> Result<usize, Failed>
    ensures bound { IfOk result (λ n. n ≤ length buf.old) }
    ensures gave { IfOk result
        (λ n. Consumes (S.rest source.old) (S.rest source.new) (take n buf.new)) }
    ensures whole { IfOk result (λ n. n < length buf.old → IsAtEnd (S.rest source.new)) }
    ensures behind { IfOk result (λ n. drop n buf.new ≡ drop n buf.old) }
    ensures untouched { OnErr result (buf.new ≡ buf.old) }
{
    let Ok(bytes) = read_to_limit(alloc, source, buf.len()) else {
        return Err(Failed);
    };
    buf[..bytes.len()].copy_from_slice(&bytes);
    Ok(bytes.len())
}

// Fills the front of `buf` from a file of the folder. A file that isn't there is empty.
fn load_file<R: Folder>(
    folder: &R,
    alloc: Global,
    name: &str,
    buf: &mut [u8],
) -> Result<usize, Failed>
    ensures bound { IfOk result (λ n. n ≤ length buf.old) }
    ensures gave { IfOk result (λ n. LoadsFile (R.files folder.now) name.now buf.old buf.new n) }
    ensures absent { Known (R.files folder.now) (λ files. files name.now ≡ None → IsOk result) }
    ensures untouched { OnErr result (buf.new ≡ buf.old) }
{
    match folder.open_reader(name) {
        Ok(file) => fill(alloc, &mut ReaderSource::new(file), buf),
        Err(error) if error.kind() == io::ErrorKind::NotFound => Ok(0),
        Err(_) => Err(Failed),
    }
}

// Makes a new file of these bytes, in place of what has the name, waits until the disk has them, and closes it.
#[tactic(auto, using(crate::proofs::FaultLaws::make_file_laws))]
fn make_file<R: Folder>(folder: &mut R, name: &str, bytes: &[u8]) -> Result<(), Failed>
    ensures made { OnOk result (WhereTold (R.files folder.old) (R.files folder.new) (IsMade name.now bytes.now)) }
    ensures torn { OnErr result (WhereTold (R.files folder.old) (R.files folder.new) (IsTouched name.now)) }
    ensures failed { OnErr result (Known (R.files folder.old)
        (λ _. HasFailed (R.faults folder.old) (R.faults folder.new))) }
    ensures counted { OnOk result (NotFewer (R.faults folder.old) (R.faults folder.new)) }
{
    let _ = folder.remove(name);
    let Ok(mut file) = folder.open_writer(name) else {
        return Err(Failed);
    };
    folder.put(&mut file, bytes)?;
    match folder.keep(file) {
        Ok(()) => Ok(()),
        Err(_) => Err(Failed),
    }
}

// Replaces what a file of the folder holds: a file with another name is made first, and then has its name. So a call that fails leaves
// in the file what it had, or all of the bytes.
#[tactic(auto, using(crate::proofs::FolderLaws::replace_laws, crate::proofs::FaultLaws::unmoved))]
fn replace<R: Folder>(folder: &mut R, file: &SlotFile, bytes: &[u8]) -> Result<(), Failed>
    ensures whole { OnOk result (WhereTold (R.files folder.old) (R.files folder.new) (Replaces file.now bytes.now)) }
    ensures torn { OnErr result
        (WhereTold (R.files folder.old) (R.files folder.new) (IsReplacedOrNot file.now bytes.now)) }
    ensures failed { OnErr result (Known (R.files folder.old)
        (λ _. HasFailed (R.faults folder.old) (R.faults folder.new))) }
{
    make_file(folder, file.next(), bytes)?;
    match folder.move_file(file.next(), file.name()) {
        Ok(()) => Ok(()),
        Err(_) => Err(Failed),
    }
}

impl<R: Folder + Drop> Vault for FolderVault<R> {
    ghost contents = { λ v. slots_in v.zero v.one (R.files v.folder) };

    ghost faults = { λ v. v.faults };

    /// Reads the file once. A file that isn't there is no fault.
    fn load(&mut self, slot: Slot, buf: &mut [u8]) -> Result<usize, Failed>
        ensures bound { IfOk result (λ n. n ≤ length buf.old) }
        ensures gave { IfOk result
            (λ n. Loads (slots_in self.old.zero self.old.one (R.files self.old.folder)) slot buf.old buf.new n) }
        ensures same { slots_in self.new.zero self.new.one (R.files self.new.folder)
            ≡ slots_in self.old.zero self.old.one (R.files self.old.folder) }
        ensures untouched { OnErr result (buf.new ≡ buf.old) }
        ensures count { MatchResult result (λ _. self.new.faults ≡ self.old.faults)
            (λ _. HasRisen self.old.faults self.new.faults) }
        ensures absent { Known (R.files self.old.folder)
            (λ files. files (name_among slot self.old.zero self.old.one) ≡ None → IsOk result) }
        ensures folder { self.new.folder ≡ self.old.folder }
        ensures names { (self.new.zero ≡ self.old.zero) × (self.new.one ≡ self.old.one) }
    {
        let file = file_of(&self.zero, &self.one, slot);
        match load_file(&self.rt, self.alloc, file.name(), buf) {
            Ok(count) => Ok(count),
            Err(fault) => {
                self.faults = self.faults.saturating_add(1);
                Err(fault)
            }
        }
    }

    /// Writes the bytes to a new file, waits until they are on the disk, and renames it. A store that fails leaves in the slot what it
    /// had, or all of the bytes. If the folder tells what it holds and counts its faults, it counted one then. No file is touched but
    /// that of the slot and the one that has its name with `.new` at its end, which is gone after a store that didn't fail.
    #[tactic(auto, using(crate::proofs::FolderLaws::whole_slots, crate::proofs::FolderLaws::torn_slots))]
    fn store(&mut self, slot: Slot, bytes: &[u8]) -> Result<(), Failed>
        ensures stored { OnOk result (WhereTold (slots_in self.old.zero self.old.one (R.files self.old.folder))
            (slots_in self.new.zero self.new.one (R.files self.new.folder)) (IsPut slot bytes.now)) }
        ensures torn { OnErr result (WhereTold (slots_in self.old.zero self.old.one (R.files self.old.folder))
            (slots_in self.new.zero self.new.one (R.files self.new.folder)) (IsTorn slot)) }
        ensures whole { OnErr result (WhereTold (slots_in self.old.zero self.old.one (R.files self.old.folder))
            (slots_in self.new.zero self.new.one (R.files self.new.folder)) (IsPutOrNot slot bytes.now)) }
        ensures failed { OnErr result (Known (R.files self.old.folder)
            (λ _. HasFailed (R.faults self.old.folder) (R.faults self.new.folder))) }
        ensures replaced { OnOk result (WhereTold (R.files self.old.folder) (R.files self.new.folder)
            (Replaces (name_among slot self.old.zero self.old.one) bytes.now)) }
        ensures others { OnErr result (WhereTold (R.files self.old.folder) (R.files self.new.folder)
            (IsReplacedOrNot (name_among slot self.old.zero self.old.one) bytes.now)) }
        ensures names { (self.new.zero ≡ self.old.zero) × (self.new.one ≡ self.old.one) }
        ensures count { MatchResult result (λ _. self.new.faults ≡ self.old.faults)
            (λ _. HasRisen self.old.faults self.new.faults) }
    {
        match replace(&mut self.rt, file_of(&self.zero, &self.one, slot), bytes) {
            Ok(()) => Ok(()),
            Err(fault) => {
                self.faults = self.faults.saturating_add(1);
                Err(fault)
            }
        }
    }
}
