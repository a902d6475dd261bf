//! Residual codes: the words of a code off the support of one of its words.
#![tactic(auto)]

mod codes;
mod laws;

pub use codes::residual;
pub use laws::residual_codes_keep_their_weights;
