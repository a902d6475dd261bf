//! The summary of a seed: a code over 2 elements of length 48 and dimension 24, and the line that tells how far its search went.
#![tactic(auto)]

mod generated;
mod text;

pub use generated::summary_code;
pub use text::summary_line;
