//! What `codes` means by a session: the arguments of its command line, what it reads, tells, keeps and
//! prints, how it goes from need to need, and how sessions follow one another over the two slots of a vault.
//! The definitions are in `specs/`, and their laws are the contracts of the functions of `laws` and `needs`.
#![tactic(auto)]

pub mod laws;
pub mod needs;
mod reading;

pub use reading::{InputRefusal, input};
