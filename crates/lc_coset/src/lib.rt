//! Nearest words in large codes: a word of a code that is nearest to a given word, found by error patterns on the information
//! sets. (Grassl, Searching for linear codes with large minimum distance, for the sets and their bound; MacWilliams and
//! Sloane, chapter 1, for cosets and nearest words.)
//!
//! An error pattern is a few symbols in which the given word and a word of the code differ on a set. For each set the words of
//! the code that differ by no symbol, by one symbol, by two and so on are weighed, in blocks that workers beside each other
//! claim, until no word that wasn't weighed can be nearer.
#![tactic(auto)]

mod answer;
mod best;
mod blocks;
mod bound;
mod frame;
mod led;
mod round;
mod walk;

pub use answer::{Near, nearest};
