//! Weight distributions of codes: how many words of each weight a code has (MacWilliams and Sloane, The Theory of
//! Error-Correcting Codes, chapter 5).
//!
//! Each word of a code is the sum of a word of its first rows, a head, and one of the others, a tail, of which there are at most
//! 4,096. Nonzero multiples have one weight, so of the heads those are taken that begin, in their coefficients, with a 1; the
//! tails alone are the words of the zero head. Heads and tails are tables of words given as bits, 64 columns to a number. The
//! negatives of the tails are the tails again, so it is enough to count the differences of a head and the tails: the weight of
//! one is the number of places at which two entries differ. A block is a head with all tails. Workers beside each other count
//! the blocks, each with counts of its own. If the code has too many words, they count those of its dual, and the distribution
//! is found from its dual's.
#![tactic(auto)]

mod blocks;
mod choice;
mod counted;
mod rooms;
mod walk;
mod words;

pub use choice::distribution;
pub use counted::count_words;
