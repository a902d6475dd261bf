//! Certificates by construction: that each claim bounds the weights of its code, and that a valid certificate proves its distance.
//! What they are, and when one is valid, is in `lc_formats`.
#![tactic(auto)]

mod checking;
mod claims;
mod kinds;
mod laws;
mod leaves;
mod outcome;

pub use checking::check_built;
pub use laws::{claims_bound_their_codes, valid_trees_prove_the_distance};
