// What a folder of files promises, and the folders of the library.
ghost use Rattle.std.specs.Prelude.{◌≡◌, ◌↔◌, ℕ, Option, None, IfOk, IfErr, IsOk, IsSome, OnOk, OnErr, MatchResult};
ghost use Rattle.std.specs.Io.KnownBytes.{Appends};
ghost use Rattle.std_io.specs.IoError.{error_kind};
ghost use Rattle.lc_io.specs.Outside.{AppendsPart, HasRisen};
ghost use Rattle.lc_io.specs.Vaults.{WhereTold};
ghost use Rattle.lc_io.specs.Folders.{Known, Has, Lacks, IsNew, IsWrittenOn, KeepsName, Opens, IsKept, TouchesOnly, IsTouched, IsMoved, IsMovedOrNot, FailsBy, FailsOr};

use crate::{Failed, WriterSink, write_whole};
use std::fs::{Files, OpenFile};
use std::io::{ErrorKind, Read, Write};
use std::{fs, io};

/// A file that was made by a folder and is open for writing. Its folder writes to it.
pub trait NewFile {
    ghost use Rattle.lc_io.specs.Folders.{Written};

    /// Its name and the bytes that were written to it, if it discloses them. One that does always does.
    ghost written: { Self → Option Written };
}

/// A folder of files, by their names. Those of the library, through which the program reaches the files of the current folder, tell
/// nothing of what they hold.
pub trait Folder {
    ghost use Rattle.lc_io.specs.Folders.{Contents};

    /// What the files hold, if the folder discloses it. One that does always does.
    ghost files: { Self → Option Contents };

    /// How often a call has failed for another reason than what the folder holds, if it discloses that. One that does always does.
    ghost faults: { Self → Option ℕ };

    /// A file that is open for reading.
    type Reader: Read + Drop;

    /// A new file that is open for writing.
    type Writer: NewFile + Drop;

    /// Opens a file. If the folder tells what it holds, the reader gives all bytes of the file, and the answer is the error `NotFound`
    /// exactly if there is no file.
    fn open_reader(&self, name: &str) -> io::Result<Self::Reader>
        ensures opened { IfOk result (λ file. Opens (files self.now) name.now (Self.Reader.remaining file)) }
        ensures missing { IfErr result (λ error. error_kind error ≡ ErrorKind.NotFound
            → Known (files self.now) (λ contents. contents name.now ≡ None)) }
        ensures absent { Known (files self.now) (λ contents. contents name.now ≡ None
            → FailsBy ErrorKind.NotFound result) };

    /// Removes what has this name, and changes no other file. If it fails and no fault is counted, nothing has the name.
    fn remove(&mut self, name: &str) -> io::Result<()>
        ensures gone { OnOk result (Lacks (files self.new) name.now) }
        ensures others { WhereTold (files self.old) (files self.new) (IsTouched name.now) }
        ensures count { MatchResult result (λ _. faults self.new ≡ faults self.old)
            (λ _. FailsOr (Lacks (files self.new) name.now) (faults self.old) (faults self.new)) };

    /// Makes a new file, in which nothing is written. It changes no other file. If it fails and no fault is counted, there is a file
    /// of this name.
    fn open_writer(&mut self, name: &str) -> io::Result<Self::Writer>
        ensures created { IfOk result (λ file. IsNew (files self.old) name.now (Self.Writer.written file)) }
        ensures others { WhereTold (files self.old) (files self.new) (IsTouched name.now) }
        ensures count { MatchResult result (λ _. faults self.new ≡ faults self.old)
            (λ _. FailsOr (Has (files self.old) name.now) (faults self.old) (faults self.new)) };

    /// Writes bytes at the end of a file that this folder made, all of them unless it fails. It changes no other file.
    fn put(&mut self, file: &mut Self::Writer, bytes: &[u8]) -> Result<(), Failed>
        ensures put { OnOk result
            (WhereTold (Self.Writer.written file.old) (Self.Writer.written file.new) (IsWrittenOn bytes.now)) }
        ensures torn { OnErr result
            (WhereTold (Self.Writer.written file.old) (Self.Writer.written file.new) KeepsName) }
        ensures others { WhereTold (files self.old) (files self.new)
            (TouchesOnly (Self.Writer.written file.old)) }
        ensures count { MatchResult result (λ _. faults self.new ≡ faults self.old)
            (λ _. WhereTold (faults self.old) (faults self.new) HasRisen) };

    /// Waits until the disk has what was written to a file that this folder made, and closes it: nothing can be written to it
    /// afterwards. Only then does the file have these bytes: one that is not kept may hold any.
    fn keep(&mut self, file: Self::Writer) -> io::Result<()>
        ensures kept { OnOk result
            (WhereTold (files self.old) (files self.new) (IsKept (Self.Writer.written file))) }
        ensures others { WhereTold (files self.old) (files self.new) (TouchesOnly (Self.Writer.written file)) }
        ensures count { MatchResult result (λ _. faults self.new ≡ faults self.old)
            (λ _. WhereTold (faults self.old) (faults self.new) HasRisen) };

    /// Gives the file `from` the name `to`, in place of one that has it. A call that fails has done so all the same, or changes nothing;
    /// if no fault is counted then, there is no file `from`.
    fn move_file(&mut self, from: &str, to: &str) -> io::Result<()>
        ensures moved { OnOk result
            (WhereTold (files self.old) (files self.new) (IsMoved from.now to.now)) }
        ensures torn { OnErr result
            (WhereTold (files self.old) (files self.new) (IsMovedOrNot from.now to.now)) }
        ensures count { MatchResult result (λ _. faults self.new ≡ faults self.old)
            (λ _. FailsOr (Lacks (files self.old) from.now) (faults self.old) (faults self.new)) };

    /// Looks for a file. The answer is an error exactly if there is none, in a folder that tells what it holds.
    fn look_for(&self, name: &str) -> io::Result<()>
        ensures { Known (files self.now) (λ contents. IsOk result ↔ IsSome (contents name.now)) };
}

impl<F: Write> NewFile for WriterSink<F> {
    ghost use Rattle.std.specs.Prelude.{None};

    ghost written = { λ f. None };
}

// Each call is one of the library's, but for `put`, which writes to a new file as to any writer.
impl<R: Files> Folder for R {
    ghost use Rattle.std.specs.Prelude.{None};

    ghost files = { λ r. None };

    ghost faults = { λ r. None };

    type Reader = <R as Files>::File;

    type Writer = WriterSink<<R as Files>::File>;

    fn open_reader(&self, name: &str) -> io::Result<<R as Files>::File> {
        fs::open(self, name)
    }

    fn remove(&mut self, name: &str) -> io::Result<()> {
        fs::remove_file(self, name)
    }

    /// It fails if anything has the name, so that no link is followed.
    fn open_writer(&mut self, name: &str) -> io::Result<WriterSink<<R as Files>::File>> {
        Ok(WriterSink::new(fs::File::create_new(self, name)?))
    }

    fn put(&mut self, file: &mut WriterSink<<R as Files>::File>, bytes: &[u8]) -> Result<(), Failed>
        ensures put { OnOk result (WhereTold None None (IsWrittenOn bytes.now)) }
        ensures torn { OnErr result (WhereTold None None KeepsName) }
        ensures others { WhereTold None None (TouchesOnly None) }
        ensures count { MatchResult result (λ _. ◌≡◌ {A = Option ℕ} None None) (λ _. WhereTold None None HasRisen) }
        ensures whole { OnOk result
            (Appends (R.File.contents file.old.inner) (R.File.contents file.new.inner) bytes.now) }
        ensures part { OnErr result
            (AppendsPart (R.File.contents file.old.inner) (R.File.contents file.new.inner) bytes.now) }
    {
        write_whole(file, bytes)
    }

    fn keep(&mut self, file: WriterSink<<R as Files>::File>) -> io::Result<()> {
        file.get_ref().sync_all()
    }

    fn move_file(&mut self, from: &str, to: &str) -> io::Result<()> {
        fs::rename(self, from, to)
    }

    fn look_for(&self, name: &str) -> io::Result<()> {
        fs::metadata(self, name)?;
        Ok(())
    }
}
