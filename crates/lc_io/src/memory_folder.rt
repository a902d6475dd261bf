// A folder in memory.
ghost use Rattle.std.specs.Prelude.{◌≡◌, ◌⊎◌, ◌↔◌, ℕ, List, [], Option, None, Some, true, option_map, OnOk, OnErr, IfOk, IfErr, IsOk, IsErr, IsSome, MatchResult, string_bytes};
ghost use Rattle.std.specs.Io.Cursor.{cursor_remaining};
ghost use Rattle.std_io.specs.IoError.{error_kind};
ghost use Rattle.lc_io.specs.Memory.{IsFailing, answered, failed, faulted};
ghost use Rattle.lc_io.specs.MemoryFolders.{HoldsSame, IsCleared, IsCounted, IsHalfKept, LacksMemory, files_in};
ghost use Rattle.lc_io.specs.Outside.{HasRisen};
ghost use Rattle.lc_io.specs.Vaults.{WhereTold};
ghost use Rattle.lc_io.specs.Folders.{FailsBy, FailsOnlyBy, FailsOr, Has, Known, Lacks, IsMade, IsTouched, IsKept, IsMoved, IsMovedOrNot, IsNew, IsWrittenOn, KeepsName, Opens, TouchesOnly};

use crate::calls::Schedule;
use crate::{Failed, Folder, NewFile, NoMemory};
use std::alloc::Global;
use std::collections::BTreeMap;
use std::io;
use std::io::{Cursor, ErrorKind};
use std::marker::Model;

/// A new file of a folder in memory. It has what the folder wrote to it, and the folder has it once it is kept.
#[derive(Drop)]
pub struct MemoryFile {
    name: String,
    bytes: Vec<u8>,
}

impl Model for MemoryFile {
    ghost use Rattle.std.specs.Prelude.{string_bytes};
    ghost use Rattle.lc_io.specs.Folders.{Written};

    ghost Value = { Written };

    ghost view = { λ f. record { name = string_bytes f.name; bytes = f.bytes.items } };
}

impl NewFile for MemoryFile {
    ghost use Rattle.std.specs.Prelude.{Some};

    ghost written = { λ f. Some f };
}

/// A folder that has its files in memory and tells what they hold. Removing, making, keeping and renaming a file fail at the calls
/// that it was made to fail at, and for want of memory, but for removing, which takes none; removing and renaming also if there is no
/// such file, and making if there is one. Writing to a new file fails for want of memory alone. A call that fails changes nothing, but
/// for one that is to keep a file. A number that fails and want of memory count as faults.
#[derive(Drop)]
pub struct MemoryFolder {
    alloc: Global,
    files: BTreeMap<String, Vec<u8>>,
    calls: Schedule,
}

impl MemoryFolder {
    /// A folder without files. Its removals, makings, keepings and renamings are counted together from 1. Those with the numbers in
    /// `failing` fail. The number of a call stays at 2^64 - 1. Refused only for want of memory.
    pub fn new(alloc: Global, failing: &[u64]) -> Result<MemoryFolder, NoMemory>
        ensures empty { IfOk result (λ s. (name : List ℕ) → files_in s name ≡ None) }
        ensures calls { IfOk result (λ s. s.calls ≡ record { failing = failing.now; number = 1; faults = 0 }) }
    {
        Ok(MemoryFolder {
            alloc,
            files: BTreeMap::new(alloc),
            calls: Schedule::new(alloc, failing)?,
        })
    }

    // Counts a call, which fails if its number says so.
    fn pass(&mut self) -> io::Result<()>
        ensures fails { IsErr result ↔ IsFailing self.old.calls }
        ensures other { FailsOnlyBy ErrorKind.Other result }
        ensures calls { MatchResult result (λ _. self.new.calls ≡ answered self.old.calls)
            (λ _. self.new.calls ≡ failed self.old.calls) }
        ensures risen { OnErr result (HasRisen self.old.calls.faults self.new.calls.faults) }
        ensures same { HoldsSame (files_in self.old) (files_in self.new) }
    {
        match self.calls.count(true) {
            Ok(()) => Ok(()),
            Err(Failed) => Err(io::Error::from(ErrorKind::Other)),
        }
    }

    // Makes a file of these bytes, in place of one that has the name. Fails only if there is none and memory runs out.
    fn set(&mut self, name: String, bytes: Vec<u8>) -> io::Result<()>
        ensures made { OnOk result (IsMade (string_bytes name) bytes.items (files_in self.old) (files_in self.new)) }
        ensures fails { FailsOnlyBy ErrorKind.OutOfMemory result }
        ensures absent { OnErr result (files_in self.old (string_bytes name) ≡ None) }
        ensures same { OnErr result (HoldsSame (files_in self.old) (files_in self.new)) }
        ensures calls { self.new.calls ≡ self.old.calls }
    {
        self.files.insert(name, bytes)?;
        Ok(())
    }

    // Returns what a call came to, of which memory was refused if it failed: then it counts as a fault.
    fn counted<T>(&mut self, came: io::Result<T>) -> io::Result<T>
        ensures is { result ≡ came }
        ensures calls { MatchResult result (λ _. self.new.calls ≡ self.old.calls)
            (λ _. self.new.calls ≡ faulted self.old.calls) }
        ensures risen { OnErr result (HasRisen self.old.calls.faults self.new.calls.faults) }
        ensures same { HoldsSame (files_in self.old) (files_in self.new) }
    {
        if came.is_err() {
            self.calls.fault();
        }
        came
    }

    // Makes a file without bytes, of a name that no file has. Fails only if memory runs out.
    fn make(&mut self, name: &str) -> io::Result<MemoryFile>
        ensures created { IfOk result (λ file. file ≡ record { name = name.now; bytes = [] }) }
        ensures made { OnOk result (IsMade name.now [] (files_in self.old) (files_in self.new)) }
        ensures fails { FailsOnlyBy ErrorKind.OutOfMemory result }
        ensures same { OnErr result (HoldsSame (files_in self.old) (files_in self.new)) }
        ensures calls { self.new.calls ≡ self.old.calls }
    {
        let file = MemoryFile {
            name: String::from_str(self.alloc, name)?,
            bytes: Vec::new(self.alloc),
        };
        self.set(String::from_str(self.alloc, name)?, Vec::new(self.alloc))?;
        Ok(file)
    }

    // Gives a file another name. Fails only if memory runs out.
    fn rename(&mut self, from: &str, to: &str) -> io::Result<()>
        requires { IsSome (files_in self.old from.now) }
        ensures moved { OnOk result (IsMoved from.now to.now (files_in self.old) (files_in self.new)) }
        ensures fails { FailsOnlyBy ErrorKind.OutOfMemory result }
        ensures same { OnErr result (HoldsSame (files_in self.old) (files_in self.new)) }
        ensures calls { self.new.calls ≡ self.old.calls }
    {
        let bytes = self.copied(from)?;
        self.set(String::from_str(self.alloc, to)?, bytes)?;
        if from != to {
            let _ = self.clear(from);
        }
        Ok(())
    }

    // Removes the file with this name, if there is one, and returns its bytes.
    fn clear(&mut self, name: &str) -> Option<Vec<u8>>
        ensures bytes { option_map (λ bytes. bytes.items) result ≡ files_in self.old name.now }
        ensures cleared { IsCleared name.now (files_in self.old) (files_in self.new) }
        ensures calls { self.new.calls ≡ self.old.calls }
    {
        self.files.remove(name)
    }

    // A copy of the bytes of a file. Fails if there is no file, and if memory runs out for the copy.
    #[tactic(auto, using(crate::proofs::MemoryLaws::found))]
    fn copied(&self, name: &str) -> io::Result<Vec<u8>>
        ensures bytes { IfOk result (λ bytes. files_in self.now name.now ≡ Some bytes.items) }
        ensures missing { files_in self.now name.now ≡ None → FailsBy ErrorKind.NotFound result }
        ensures refused { IsSome (files_in self.now name.now) → FailsOnlyBy ErrorKind.OutOfMemory result }
    {
        match self.files.get(name) {
            Some(bytes) => Ok(bytes.to_vec(self.alloc)?),
            None => Err(io::Error::from(ErrorKind::NotFound)),
        }
    }

    // Whether there is a file with this name.
    #[tactic(auto, using(crate::proofs::MemoryLaws::found))]
    fn has(&self, name: &str) -> bool
        ensures is { (result ≡ true) ↔ IsSome (files_in self.now name.now) }
    {
        self.files.get(name).is_some()
    }
}

impl Folder for MemoryFolder {
    ghost use Rattle.lc_io.specs.MemoryFolders.{files_in};

    ghost files = { λ s. Some (files_in s) };

    ghost faults = { λ s. Some s.calls.faults };

    type Reader = Cursor<Vec<u8>>;

    type Writer = MemoryFile;

    /// Fails exactly if there is no such file, or for want of memory.
    fn open_reader(&self, name: &str) -> io::Result<Cursor<Vec<u8>>>
        ensures opened { IfOk result (λ file. Opens (Some (files_in self.now)) name.now
            (cursor_remaining (λ bytes. Some bytes.items) file)) }
        ensures missing { IfErr result (λ error. error_kind error ≡ ErrorKind.NotFound
            → Known (Some (files_in self.now)) (λ contents. contents name.now ≡ None)) }
        ensures absent { Known (Some (files_in self.now)) (λ contents. contents name.now ≡ None
            → FailsBy ErrorKind.NotFound result) }
        ensures refused { IsSome (files_in self.now name.now) → FailsOnlyBy ErrorKind.OutOfMemory result }
    {
        Ok(Cursor::new(self.copied(name)?))
    }

    /// Fails exactly if the number of the call is one that fails, or there is no such file. Takes no memory.
    #[tactic(auto, using(crate::proofs::MemoryLaws::rose_or, crate::proofs::MemoryLaws::same_or))]
    fn remove(&mut self, name: &str) -> io::Result<()>
        ensures others { WhereTold (Some (files_in self.old)) (Some (files_in self.new)) (IsTouched name.now) }
        ensures failing { IsFailing self.old.calls → FailsBy ErrorKind.Other result }
        ensures missing { ¬ (IsFailing self.old.calls) → files_in self.old name.now ≡ None
            → FailsBy ErrorKind.NotFound result }
        ensures always { ¬ (IsFailing self.old.calls) → IsSome (files_in self.old name.now) → IsOk result }
        ensures gone { OnOk result (Lacks (Some (files_in self.new)) name.now) }
        ensures cleared { OnOk result (IsCleared name.now (files_in self.old) (files_in self.new)) }
        ensures same { OnErr result (HoldsSame (files_in self.old) (files_in self.new)) }
        ensures count { MatchResult result (λ _. Some self.new.calls.faults ≡ Some self.old.calls.faults)
            (λ _. FailsOr (Lacks (Some (files_in self.new)) name.now)
            (Some self.old.calls.faults) (Some self.new.calls.faults)) }
        ensures calls { IsCounted ⊥ self.old.calls self.new.calls }
    {
        self.pass()?;
        match self.clear(name) {
            Some(_) => Ok(()),
            None => Err(io::Error::from(ErrorKind::NotFound)),
        }
    }

    /// Fails exactly if the number of the call is one that fails, or there is such a file, or for want of memory.
    #[tactic(auto, using(crate::proofs::MemoryLaws::made_laws))]
    fn open_writer(&mut self, name: &str) -> io::Result<MemoryFile>
        ensures created { IfOk result (λ file. IsNew (Some (files_in self.old)) name.now (Some file)) }
        ensures others { WhereTold (Some (files_in self.old)) (Some (files_in self.new)) (IsTouched name.now) }
        ensures failing { IsFailing self.old.calls → FailsBy ErrorKind.Other result }
        ensures exists { ¬ (IsFailing self.old.calls) → IsSome (files_in self.old name.now)
            → FailsBy ErrorKind.AlreadyExists result }
        ensures refused { ¬ (IsFailing self.old.calls) → files_in self.old name.now ≡ None
            → FailsOnlyBy ErrorKind.OutOfMemory result }
        ensures made { OnOk result (IsMade name.now [] (files_in self.old) (files_in self.new)) }
        ensures same { OnErr result (HoldsSame (files_in self.old) (files_in self.new)) }
        ensures count { MatchResult result (λ _. Some self.new.calls.faults ≡ Some self.old.calls.faults)
            (λ _. FailsOr (Has (Some (files_in self.old)) name.now)
            (Some self.old.calls.faults) (Some self.new.calls.faults)) }
        ensures calls { IsCounted (IsErr result × (files_in self.old name.now ≡ None)) self.old.calls self.new.calls }
    {
        self.pass()?;
        if self.has(name) {
            return Err(io::Error::from(ErrorKind::AlreadyExists));
        }
        let made = self.make(name);
        self.counted(made)
    }

    /// Fails only for want of memory, and never for no bytes. Then nothing is written. The folder has the bytes once the file is kept.
    fn put(&mut self, file: &mut MemoryFile, bytes: &[u8]) -> Result<(), Failed>
        ensures put { OnOk result (WhereTold (Some file.old) (Some file.new) (IsWrittenOn bytes.now)) }
        ensures torn { OnErr result (WhereTold (Some file.old) (Some file.new) KeepsName) }
        ensures others { WhereTold (Some (files_in self.old)) (Some (files_in self.new)) (TouchesOnly (Some file.old)) }
        ensures unwritten { OnErr result (file.new ≡ file.old) }
        ensures nothing { bytes.now ≡ [] → IsOk result }
        ensures same { HoldsSame (files_in self.old) (files_in self.new) }
        ensures count { MatchResult result (λ _. Some self.new.calls.faults ≡ Some self.old.calls.faults)
            (λ _. WhereTold (Some self.old.calls.faults) (Some self.new.calls.faults) HasRisen) }
        ensures calls { MatchResult result (λ _. self.new.calls ≡ self.old.calls)
            (λ _. self.new.calls ≡ faulted self.old.calls) }
    {
        if file.bytes.extend_from_slice(bytes).is_ok() {
            return Ok(());
        }
        self.calls.fault();
        Err(Failed)
    }

    /// Fails exactly if the number of the call is one that fails, or for want of memory, which is taken only if no file has the name
    /// any more. A call that fails by its number leaves the first half of the bytes, rounded down.
    #[tactic(auto, using(crate::proofs::MemoryLaws::still_rose, crate::proofs::MemoryLaws::came_to))]
    fn keep(&mut self, file: MemoryFile) -> io::Result<()>
        ensures kept { OnOk result
            (WhereTold (Some (files_in self.old)) (Some (files_in self.new)) (IsKept (Some file))) }
        ensures others { WhereTold (Some (files_in self.old)) (Some (files_in self.new)) (TouchesOnly (Some file)) }
        ensures failing { IsFailing self.old.calls → IsErr result }
        ensures torn { IfErr result (λ error.
            (IsFailing self.old.calls × IsHalfKept file error (files_in self.old) (files_in self.new))
            ⊎ LacksMemory file error (files_in self.old) (files_in self.new)) }
        ensures count { MatchResult result (λ _. Some self.new.calls.faults ≡ Some self.old.calls.faults)
            (λ _. WhereTold (Some self.old.calls.faults) (Some self.new.calls.faults) HasRisen) }
        ensures calls { IsCounted (IsErr result) self.old.calls self.new.calls }
    {
        let MemoryFile { name, mut bytes } = file;
        if let Err(fault) = self.pass() {
            bytes.truncate(bytes.len() / 2);
            self.set(name, bytes)?;
            return Err(fault);
        }
        let kept = self.set(name, bytes);
        self.counted(kept)
    }

    /// Fails exactly if the number of the call is one that fails, or there is no such file, or for want of memory.
    #[tactic(auto, using(crate::proofs::MemoryLaws::moved_laws))]
    fn move_file(&mut self, from: &str, to: &str) -> io::Result<()>
        ensures moved { OnOk result
            (WhereTold (Some (files_in self.old)) (Some (files_in self.new)) (IsMoved from.now to.now)) }
        ensures torn { OnErr result
            (WhereTold (Some (files_in self.old)) (Some (files_in self.new)) (IsMovedOrNot from.now to.now)) }
        ensures failing { IsFailing self.old.calls → FailsBy ErrorKind.Other result }
        ensures missing { ¬ (IsFailing self.old.calls) → files_in self.old from.now ≡ None
            → FailsBy ErrorKind.NotFound result }
        ensures refused { ¬ (IsFailing self.old.calls) → IsSome (files_in self.old from.now)
            → FailsOnlyBy ErrorKind.OutOfMemory result }
        ensures same { OnErr result (HoldsSame (files_in self.old) (files_in self.new)) }
        ensures count { MatchResult result (λ _. Some self.new.calls.faults ≡ Some self.old.calls.faults)
            (λ _. FailsOr (Lacks (Some (files_in self.old)) from.now)
            (Some self.old.calls.faults) (Some self.new.calls.faults)) }
        ensures calls { IsCounted (IsErr result × IsSome (files_in self.old from.now)) self.old.calls self.new.calls }
    {
        self.pass()?;
        if !self.has(from) {
            return Err(io::Error::from(ErrorKind::NotFound));
        }
        let moved = self.rename(from, to);
        self.counted(moved)
    }

    /// The error says that there is no such file.
    fn look_for(&self, name: &str) -> io::Result<()>
        ensures found { Known (Some (files_in self.now)) (λ contents. IsOk result ↔ IsSome (contents name.now)) }
        ensures missing { FailsOnlyBy ErrorKind.NotFound result }
    {
        if self.has(name) {
            Ok(())
        } else {
            Err(io::Error::from(ErrorKind::NotFound))
        }
    }
}
