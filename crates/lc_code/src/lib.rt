//! Linear codes: sets of words of one length over a symbol field, closed under sums and multiples, each kept as its reduced
//! generator matrix.
#![tactic(auto)]

mod alternant;
mod code;
mod expansion;
mod rows;

pub use alternant::{Alternant, FormedCode, alternant_code, formed};
pub use code::Code;
pub use lc_constructions::CodeRefusal;
pub use rows::{push_left, push_rows};
