//! Cyclic codes: by a generator or a check polynomial, Golay codes, and BCH and Reed-Solomon codes with their alternant forms.
#![tactic(auto)]

mod bch_codes;
mod cyclic_codes;
mod fields;
mod forms;
mod generators;
mod golay_codes;
mod laws;
mod reed_solomon_codes;

pub use bch_codes::bch;
pub use cyclic_codes::{check_pol, generator_pol};
pub use golay_codes::{binary_golay, ternary_golay};
pub use laws::{dimensions_of_bch_codes, dimensions_of_cyclic_codes, dimensions_of_golay_codes};
pub use reed_solomon_codes::reed_solomon;
