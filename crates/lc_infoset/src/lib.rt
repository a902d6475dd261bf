//! The information sets of a search, and the lower bound that whole levels give on the weights of words not
//! seen. The definitions are in `specs/` and in `lc_enumeration`; the laws are the contracts of the
//! functions of `laws`.
#![tactic(auto)]

mod bound;
mod choose;
mod kept;
pub mod laws;
mod sets;

pub use lc_field::NoMemory;
pub use sets::Sets;
