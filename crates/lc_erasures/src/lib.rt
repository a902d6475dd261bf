//! Words of which some symbols are unknown.
#![tactic(auto)]

mod erasures;
mod laws;
mod refusal;

pub use erasures::{Filling, fill_erasures};
pub use laws::erasures_below_the_distance;
