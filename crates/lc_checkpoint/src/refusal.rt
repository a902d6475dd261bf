//! Why bytes are no checkpoint.
ghost use Rattle.std.specs.Prelude.{◌≡◌};
ghost use Rattle.lc_checkpoint.specs.Reading.{number_of_refusal};
ghost use Rattle.lc_checkpoint.specs.declared.refusal.CheckpointRefusal.TheVariants as refusal;

use lc_field::NoMemory as FieldMemory;
use std::alloc::{AllocError, AllocFailed};

/// Why bytes are no checkpoint.
#[derive(Clone, Copy, Debug, PartialEq, Eq)]
pub enum CheckpointRefusal {
    /// There are fewer than 65 or more than 4,194,304 bytes, or they don't begin with the seal of the rest and a newline.
    Damaged,
    /// The version of the body, which is neither 1 nor 2.
    Version(u64),
    /// The body is no JSON object with a version, a key is missing or foreign, or a value is out of range.
    Shape,
    /// No memory is left.
    NoMemory,
}

impl CheckpointRefusal {
    /// The number of the refusal: 20 for `Damaged`, 21 for `Version`, 22 for `Shape`; `NoMemory` has none, and gives 0.
    #[tactic(auto, unfolding(crate::proofs::Opened::numbers_of_refusals))]
    pub fn number(&self) -> u8
        ensures is { result ≡ number_of_refusal self.now }
    {
        match self {
            CheckpointRefusal::Damaged => 20,
            CheckpointRefusal::Version(_) => 21,
            CheckpointRefusal::Shape => 22,
            CheckpointRefusal::NoMemory => 0,
        }
    }
}

impl From<FieldMemory> for CheckpointRefusal {
    ghost from_gives = { λ _ e. e ≡ refusal.NoMemory };

    fn from(_e: FieldMemory) -> CheckpointRefusal {
        CheckpointRefusal::NoMemory
    }
}

impl From<AllocError> for CheckpointRefusal {
    ghost from_gives = { λ _ e. e ≡ refusal.NoMemory };

    fn from(_e: AllocError) -> CheckpointRefusal {
        CheckpointRefusal::NoMemory
    }
}

impl<T: Drop> From<AllocFailed<T>> for CheckpointRefusal {
    ghost from_gives = { λ _ e. e ≡ refusal.NoMemory };

    fn from(_e: AllocFailed<T>) -> CheckpointRefusal {
        CheckpointRefusal::NoMemory
    }
}
