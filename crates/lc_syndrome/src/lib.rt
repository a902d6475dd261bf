//! Decoding by coset leaders: the word of a code nearest to a received word, by a table with an entry for each syndrome.
#![tactic(auto)]

mod leaders;
mod level;
mod refusal;
mod steps;
mod syndromes;

pub use leaders::Leaders;
pub use refusal::SyndromeRefusal;
