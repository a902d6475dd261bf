//! The words that some rows of a matrix span, as lists: of heads and of tails, each word of a code being the sum of one of each. It
//! knows words and rows, but no information set and no plan of a search.
#![tactic(auto)]

mod words;

pub use words::{push_sums, tail_rows, words_of};
