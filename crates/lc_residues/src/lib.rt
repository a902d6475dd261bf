//! Quadratic residue codes, with their laws.
#![tactic(auto)]

mod codes;
mod laws;
mod periods;
mod residues;

pub use codes::quadratic_residue;
pub use laws::{quadratic_residue_codes, residue_codes_have_their_symmetries};
