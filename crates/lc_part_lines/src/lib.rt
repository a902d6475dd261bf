//! The lines of the parts of a search: how one is written with its seal, and how bytes are read as one.
#![tactic(auto)]

pub mod laws;
mod line;
mod reading;
mod refusal;
mod writing;

pub use line::PartLine;
pub use reading::read;
pub use refusal::LineRefusal;
pub use writing::write;
