//! Why bytes are no certificate.
ghost use Rattle.std.specs.Prelude.{◌≡◌};
ghost use Rattle.lc_certificate.specs.Reading.{number_of_refusal};
ghost use Rattle.lc_certificate.specs.declared.refusal.CertRefusal.TheVariants as refusal;

use lc_field::NoMemory as FieldMemory;
use std::alloc::{AllocError, AllocFailed};

/// Why bytes are no certificate.
#[derive(Clone, Copy, Debug, PartialEq, Eq)]
pub enum CertRefusal {
    /// They are no JSON value.
    NotJson,
    /// The number of the first rule of shape that is broken, 1 to 12.
    Shape(u32),
    /// The length, the number of rows or the number of sets is above 255.
    Limit,
    /// No memory is left.
    NoMemory,
}

impl CertRefusal {
    /// The number of the refusal: 30 for `NotJson`, 31 for `Shape`, 32 for `Limit`; `NoMemory` has none, and gives 0.
    #[tactic(auto, unfolding(crate::proofs::Opened::numbers_of_refusals))]
    pub fn number(&self) -> u8
        ensures is { result ≡ number_of_refusal self.now }
    {
        match self {
            CertRefusal::NotJson => 30,
            CertRefusal::Shape(_) => 31,
            CertRefusal::Limit => 32,
            CertRefusal::NoMemory => 0,
        }
    }
}

impl From<FieldMemory> for CertRefusal {
    ghost from_gives = { λ _ e. e ≡ refusal.NoMemory };

    fn from(_e: FieldMemory) -> CertRefusal {
        CertRefusal::NoMemory
    }
}

impl From<AllocError> for CertRefusal {
    ghost from_gives = { λ _ e. e ≡ refusal.NoMemory };

    fn from(_e: AllocError) -> CertRefusal {
        CertRefusal::NoMemory
    }
}

impl<T: Drop> From<AllocFailed<T>> for CertRefusal {
    ghost from_gives = { λ _ e. e ≡ refusal.NoMemory };

    fn from(_e: AllocFailed<T>) -> CertRefusal {
        CertRefusal::NoMemory
    }
}
