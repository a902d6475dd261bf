//! The first nonzero word of the span of a few rows, by weight and then lexicographically, by a scan of all its words.
#![tactic(auto)]

mod least;

pub use lc_field::NoMemory;
pub use least::least_word;
