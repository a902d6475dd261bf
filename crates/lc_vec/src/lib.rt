//! Words over a field, and the loops on their symbols that everything above runs through.
#![tactic(auto)]

mod slices;
mod word;

pub use slices::{add_scaled, dot, first_nonzero, fits, put_added, put_sum, scale, weight};
pub use word::Word;
