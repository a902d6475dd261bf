//! Reads scripts: bytes to tokens, and tokens to trees.
//!
//! ```text
//! script    = { statement }
//! statement = [ name ":=" ] expr ";"
//! expr      = number | name | name "(" [ expr { "," expr } ] ")" | "[" [ expr { "," expr } ] "]"
//! ```
//!
//! `parse` returns the one script that the bytes are, or the number and the first offset at which they can't
//! go on. `tokens` returns the tokens alone. `lc_grammar` says what these terms mean, and the laws say that
//! every byte string is exactly one script or has exactly one fault, never both.
#![tactic(auto)]

mod laws;
mod reading;
mod refusal;
mod scan;
mod tree;

pub use laws::{one_fault, one_script, script_or_fault, spans_rise};
pub use lc_grammar::{Token, TokenKind};
pub use reading::{parse, tokens};
pub use refusal::ParseRefusal;
pub use scan::value_of;
pub use tree::{Expr, Node, Script, Statement};
