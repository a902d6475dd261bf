//! The arguments of the command line.
ghost use Rattle.std.specs.Prelude.{◌≡◌, ◌≢◌, [], IfOk, IsOk, IsErrAnd, drop};
ghost use Rattle.std.specs.Vec.Iter.{into_iter_items};
ghost use Rattle.std.specs.IoError.{error_kind};
ghost use Rattle.std.specs.declared.io.ErrorKind.TheVariants as kind;
ghost use Rattle.lc_arguments.specs.Asked.{words_of};
ghost use Rattle.codes.specs.CommandLines.{IsLineOf};

use lc_io::NoMemory;
use std::alloc::Global;
use std::env::Args;
use std::io;

/// What is known of the command line.
#[derive(Drop)]
pub(crate) enum CommandLine {
    /// The words after the program's name.
    Words(Vec<String>),
    /// A word isn't UTF-8.
    NotUtf8,
    /// There was no memory for the words.
    NoMemory,
}

// All words but the first, which is the program's name. Never refused if there are none.
fn after_name(alloc: Global, mut all: Args) -> Result<Vec<String>, NoMemory>
    ensures is { IfOk result (λ words. words.items ≡ drop 1 (into_iter_items all)) }
    ensures nothing { drop 1 (into_iter_items all) ≡ [] → IsOk result }
{
    let _name = all.next();
    let mut words = Vec::new(alloc);
    for word in all {
        words.push(word)?;
    }
    Ok(words)
}

/// The command line of the words that the library gives, the program's name first. A program's name alone never gives `NoMemory`.
pub(crate) fn read_line(alloc: Global, read: io::Result<Args>) -> CommandLine
    ensures words { IfOk read (λ all. IsLineOf (words_of (drop 1 (into_iter_items all))) result) }
    ensures nothing { IfOk read (λ all. drop 1 (into_iter_items all) ≡ [] → result ≢ CommandLine.NoMemory) }
    ensures full { IsErrAnd read (λ e. error_kind e ≡ kind.OutOfMemory) → result ≡ CommandLine.NoMemory }
    ensures unread { IsErrAnd read (λ e. error_kind e ≢ kind.OutOfMemory) → result ≡ CommandLine.NotUtf8 }
{
    match read {
        Ok(all) => match after_name(alloc, all) {
            Ok(words) => CommandLine::Words(words),
            Err(NoMemory) => CommandLine::NoMemory,
        },
        Err(error) if error.kind() == io::ErrorKind::OutOfMemory => CommandLine::NoMemory,
        Err(_) => CommandLine::NotUtf8,
    }
}
