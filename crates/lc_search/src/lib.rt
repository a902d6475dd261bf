//! The search for the minimum distance of a code, in rounds of workers (Grassl, Searching for linear codes with large minimum
//! distance).
#![tactic(auto)]

mod answer;
mod blocks;
pub mod laws;
mod level;
mod parts;
mod resume;
mod round;
mod search;
mod watching;

pub use answer::{Answer, Best, RoundRecord};
pub use blocks::{SearchBlocks, work};
pub use parts::{plan_of, sets_of, weight_at};
pub use resume::ResumeRefusal;
pub use round::{RoundFound, find_in_round};
pub use search::Search;
pub use watching::tell;
