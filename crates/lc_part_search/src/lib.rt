//! One part of a search: the least word of a range of blocks of its plan, by workers beside each other.
#![tactic(auto)]

mod done;
mod part;

pub use done::Done;
pub use part::find_part;
