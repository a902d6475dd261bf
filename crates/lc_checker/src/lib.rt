//! The checker of certificates of a minimum distance.
//!
//! It shares no code with the search but that of fields, words, their bits and matrices: it makes the generator matrix of each set anew and
//! looks at each word that a certificate says was seen. The order of the messages is that of the definitions.
#![tactic(auto)]

mod bits;
mod blocks;
mod checking;
mod cost;
mod heads;
mod reasons;
mod seen;
mod sets;
mod sums;
mod verdict;
mod walk;

pub use checking::{check, checking_cost};
pub use reasons::MOST_WORDS;
pub use verdict::{Reason, Verdict};
