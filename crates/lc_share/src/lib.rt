//! One search done on many machines: the session that does a part of it and writes its line.
#![tactic(auto)]

mod arguments;
pub mod laws;
mod need;
mod session;
mod status;

pub use arguments::{value_in, word};
pub use session::run_part;
pub use status::PartStatus;
