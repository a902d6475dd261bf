//! The kernel of a search: the least word of a block, and the word at a place. (The method is that of Brouwer and Zimmermann,
//! as Grassl describes it.)
#![tactic(auto)]

mod block;
mod fronts;
mod grid;
mod least_word;
mod multiples;
mod part_counts;
mod parts;
mod place;
mod room;
mod runs;
mod scratch;
mod stack;
mod sums;
mod sweeps;
mod table;
mod tails;

pub use least_word::least;
pub use place::word_at;
pub use scratch::Scratch;
pub use stack::Stack;
