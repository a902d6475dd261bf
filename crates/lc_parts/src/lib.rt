//! One search in parts, done by many machines: what a part is, and what parts make when they are joined.
#![tactic(auto)]

mod joined;
pub mod laws;
mod part;
mod phase;

pub use joined::Joined;
pub use lc_place::NoMemory;
pub use part::{Facts, Part};
