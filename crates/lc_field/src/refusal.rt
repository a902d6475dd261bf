//! Why a field cannot be had.
ghost use Rattle.std.specs.Prelude.{◌≡◌};
ghost use Rattle.lc_field.specs.declared.refusal.FieldRefusal.TheVariants as refusal;

use std::alloc::{AllocError, AllocFailed};

/// The memory that a call asked for was refused.
#[derive(Clone, Copy, Debug, PartialEq, Eq)]
pub struct NoMemory;

impl<T: Drop> From<AllocFailed<T>> for NoMemory {
    fn from(_e: AllocFailed<T>) -> NoMemory {
        NoMemory
    }
}

impl From<AllocError> for NoMemory {
    fn from(_e: AllocError) -> NoMemory {
        NoMemory
    }
}

/// Why `Field::of` gives no field.
#[derive(Clone, Copy, Debug, PartialEq, Eq)]
pub enum FieldRefusal {
    /// No field of `codes` has this number of elements.
    NotAField,
    /// The memory for the tables was refused.
    NoMemory,
}

impl FieldRefusal {
    /// The number of the refusal, 1 for `NotAField`; lack of memory has none, and gives 0.
    pub fn number(&self) -> u8
        ensures not_a_field { self.now ≡ refusal.NotAField → result ≡ 1 }
        ensures no_memory { self.now ≡ refusal.NoMemory → result ≡ 0 }
    {
        match self {
            FieldRefusal::NotAField => 1,
            FieldRefusal::NoMemory => 0,
        }
    }
}

impl From<NoMemory> for FieldRefusal {
    ghost from_gives = { λ _ e. e ≡ refusal.NoMemory };

    fn from(_e: NoMemory) -> FieldRefusal {
        FieldRefusal::NoMemory
    }
}
