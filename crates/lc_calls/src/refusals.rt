//! Why an expression has no value.
ghost use Rattle.std.specs.Prelude.{◌≡◌, ◌≢◌, [], Err};
ghost use Rattle.lc_constructions.specs.Refusal.{refusal_values};
ghost use Rattle.lc_language.specs.Evaluation.{refused, refuse_at};
ghost use Rattle.lc_calls.specs.Value.{refused_of};
ghost use Rattle.lc_calls.specs.Made.{IsMade};
ghost use Rattle.lc_calls.specs.declared.refusals.Stop.TheVariants as stop;

use lc_code::CodeRefusal;
use lc_field::NoMemory;
use std::alloc::{AllocError, AllocFailed, Global};

/// No field has this number of elements.
pub const NOT_A_FIELD: u8 = 1;
/// The code has more cosets than a decoder keeps leaders of.
pub const TOO_MANY_COSETS: u8 = 15;
/// There are more words than a query looks at.
pub const TOO_MANY_WORDS: u8 = 16;
/// The code has no alternant form.
pub const NO_FORM: u8 = 18;
/// The word isn't one of the code whose weight is one more than the number of its form's checks.
pub const NOT_ATTAINED: u8 = 19;
/// A name that no value and no call has.
pub const UNKNOWN_NAME: u8 = 44;
/// A value that is not of the kind that is asked for, or a query inside an expression.
pub const MISFIT: u8 = 45;
/// A call with a number of arguments that it doesn't take.
pub const WRONG_COUNT: u8 = 46;
/// The code and its dual have too many words for the numbers of words of each weight.
pub const NO_DISTRIBUTION: u8 = 47;
/// The word is not in the code.
pub const NOT_A_CODEWORD: u8 = 50;
/// The length is no odd prime modulo which the size of the field is a quadratic residue.
pub const NO_RESIDUE_LENGTH: u8 = 53;
/// The second code is not a subcode of the first.
pub const NOT_A_SUBCODE: u8 = 51;

/// A fault of a script.
#[derive(Drop)]
pub struct Refused {
    /// its number
    pub number: u8,
    /// its offset in the bytes of the script
    pub offset: usize,
    /// the numbers that are printed after it
    pub values: Vec<u64>,
}

/// Why an expression has no value.
#[derive(Drop)]
pub enum Stop {
    /// The script has a fault there.
    Refused(Refused),
    /// No memory is left.
    NoMemory,
}

/// The fault with this number at this offset, with no numbers after it.
#[tactic(auto, unfolding(lc_language::specs::Evaluation::refuse_at))]
pub fn fault(alloc: Global, number: u8, offset: usize) -> Refused
    ensures { refused (refused_of result) ≡ refuse_at number offset }
{
    Refused {
        number,
        offset,
        values: Vec::new(alloc),
    }
}

/// The refusal of a constructor of codes, at this offset. If it carries no numbers it takes no memory.
#[tactic(auto, unfolding(crate::proofs::Opened::refusals_of_calls))]
pub fn refused_as(alloc: Global, offset: usize, refusal: CodeRefusal) -> Stop
    ensures is { IsMade (Err refusal) offset (Err result) }
    ensures told { refusal ≢ CodeRefusal.NoMemory → refusal_values refusal ≡ [] → result ≢ Stop.NoMemory }
{
    if refusal == CodeRefusal::NoMemory {
        return Stop::NoMemory;
    }
    match refusal.values(alloc) {
        Ok(values) => Stop::Refused(Refused {
            number: refusal.number(),
            offset,
            values,
        }),
        Err(_) => Stop::NoMemory,
    }
}

impl From<NoMemory> for Stop {
    ghost from_gives = { λ _ e. e ≡ stop.NoMemory };

    fn from(_e: NoMemory) -> Stop {
        Stop::NoMemory
    }
}

impl From<AllocError> for Stop {
    ghost from_gives = { λ _ e. e ≡ stop.NoMemory };

    fn from(_e: AllocError) -> Stop {
        Stop::NoMemory
    }
}

impl<T: Drop> From<AllocFailed<T>> for Stop {
    ghost from_gives = { λ _ e. e ≡ stop.NoMemory };

    fn from(_e: AllocFailed<T>) -> Stop {
        Stop::NoMemory
    }
}
