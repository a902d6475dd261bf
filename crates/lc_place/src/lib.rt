//! The plan of a search: which messages are looked at, for which information set, in which order and in
//! which blocks. Over a phase, `Plan::start_of` and `Plan::step` give each message of the level exactly
//! once and in order. (The method is that of Brouwer and Zimmermann, as Grassl describes it.)
#![tactic(auto)]

mod fill;
mod order;
mod phase;
mod plan;
mod spot;
mod table;

pub use lc_field::NoMemory;
pub use order::move_on;
pub use phase::Phase;
pub use plan::Plan;
pub use spot::Spot;
