use std::alloc::{AllocError, AllocFailed};

/// Why bytes weren't read as a script.
#[derive(Clone, Copy, Debug, PartialEq, Eq)]
pub enum ParseRefusal {
    /// The bytes are no script: the number of the fault (40 a byte that begins no token, 41 a token or an end
    /// that the grammar doesn't allow there, 42 parentheses and brackets nest deeper than 32, 43 a number
    /// above 2^64 - 1), and the offset from which on they can't go on.
    Fault { number: u8, offset: usize },
    /// Memory ran out.
    NoMemory,
}

impl From<AllocError> for ParseRefusal {
    ghost use Rattle.std.specs.Prelude.{◌≡◌};
    ghost use Rattle.lc_parse.specs.declared.refusal.ParseRefusal.TheVariants.{NoMemory};

    ghost from_gives = { λ _ e. e ≡ NoMemory };

    fn from(_error: AllocError) -> ParseRefusal {
        ParseRefusal::NoMemory
    }
}

impl<T: Drop> From<AllocFailed<T>> for ParseRefusal {
    ghost use Rattle.std.specs.Prelude.{◌≡◌};
    ghost use Rattle.lc_parse.specs.declared.refusal.ParseRefusal.TheVariants.{NoMemory};

    ghost from_gives = { λ _ e. e ≡ NoMemory };

    fn from(_error: AllocFailed<T>) -> ParseRefusal {
        ParseRefusal::NoMemory
    }
}
