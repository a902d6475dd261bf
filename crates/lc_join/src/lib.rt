//! Lines of parts of a search, joined to a checkpoint from which a session goes on.
#![tactic(auto)]

mod arguments;
mod disagreement;
mod joining;
pub mod laws;
mod lines;
mod session;
mod status;
mod walk;

pub use session::join_parts;
pub use status::JoinStatus;
