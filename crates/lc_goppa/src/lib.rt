//! Alternant and Goppa codes, each with its alternant form.
#![tactic(auto)]

mod alternant_codes;
mod goppa_codes;
mod points;
mod polynomials;
mod refusal;

pub use alternant_codes::{alternant, subfield_subcode};
pub use goppa_codes::goppa;
