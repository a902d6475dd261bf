//! What `codes` means by each code that a script can construct or combine, when a constructor refuses its arguments, and what
//! the word of a code nearest to a received one is. The definitions are in `specs/`; code has the refusals, the
//! lengths, and the test of coordinates that rise.
#![tactic(auto)]

pub mod laws;
mod length;
mod refusal;
mod rising;

pub use length::{LONGEST, is_length};
pub use refusal::CodeRefusal;
pub use rising::is_rising;
