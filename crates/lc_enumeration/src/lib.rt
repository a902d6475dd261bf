//! What `codes` means by the messages of a weight, the plan by which a search looks at the words of a
//! code, the information sets that it uses, the lower bound that it states, its answer and its rounds; and by
//! weight distributions and the search for a nearest word. The definitions are in `specs/`, and their laws are
//! the contracts of the functions of `laws`.
#![tactic(auto)]

pub mod laws;
mod numbers;

pub use numbers::{BLOCK, CUT, DEFAULT_BUDGET, PLACES};
