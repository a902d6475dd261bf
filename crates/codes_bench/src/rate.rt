//! What a bench answers: a rate, or why there is none.

use lc_code::CodeRefusal;
use lc_field::{FieldRefusal, NoMemory};
use lc_parse::ParseRefusal;
use lc_syndrome::SyndromeRefusal;
use std::alloc::AllocError;
use std::time::Duration;
use std::{fmt, io};

/// Why a bench gave no rate.
#[derive(Drop)]
pub enum Failure {
    /// There is no bench with that name.
    Unknown,
    /// A call refused what it was given.
    Refused,
    /// Memory ran out.
    NoMemory,
    /// The clock, the words or the output couldn't be used.
    Outside(io::Error),
}

impl fmt::Display for Failure {
    fn fmt<W: fmt::Write>(&self, f: &mut fmt::Formatter<W>) -> fmt::Result {
        match self {
            Failure::Unknown => write!(f, "there is no bench with that name"),
            Failure::Refused => write!(f, "a call refused what it was given"),
            Failure::NoMemory => write!(f, "there is no memory"),
            Failure::Outside(error) => write!(f, "{error}"),
        }
    }
}

impl From<io::Error> for Failure {
    fn from(error: io::Error) -> Failure {
        Failure::Outside(error)
    }
}

impl From<AllocError> for Failure {
    fn from(_error: AllocError) -> Failure {
        Failure::NoMemory
    }
}

impl From<NoMemory> for Failure {
    fn from(_error: NoMemory) -> Failure {
        Failure::NoMemory
    }
}

impl From<FieldRefusal> for Failure {
    fn from(_error: FieldRefusal) -> Failure {
        Failure::Refused
    }
}

impl From<CodeRefusal> for Failure {
    fn from(_error: CodeRefusal) -> Failure {
        Failure::Refused
    }
}

impl From<SyndromeRefusal> for Failure {
    fn from(_error: SyndromeRefusal) -> Failure {
        Failure::Refused
    }
}

impl From<ParseRefusal> for Failure {
    fn from(_error: ParseRefusal) -> Failure {
        Failure::Refused
    }
}

/// How much was done in which time.
#[derive(Drop)]
pub struct Rate {
    /// how many were done
    pub count: u64,
    /// what was done, in the plural
    pub what: &'static str,
    /// the time that it took
    pub elapsed: Duration,
}

impl Rate {
    // How many a second.
    fn per_second(&self) -> u128 {
        u128::from(self.count) * 1_000_000_000 / self.elapsed.as_nanos().max(1)
    }
}

impl fmt::Display for Rate {
    fn fmt<W: fmt::Write>(&self, f: &mut fmt::Formatter<W>) -> fmt::Result {
        write!(f, "{} {} a second", self.per_second(), self.what)
    }
}
