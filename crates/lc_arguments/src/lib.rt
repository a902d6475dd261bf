//! The command line: what its arguments ask for, or the index of the first one that is refused; and lines for standard error.
#![tactic(auto)]

mod arguments;
mod keys;
mod lines;
mod numbers;
mod request;

pub use arguments::{options, parts_of};
pub use lines::{Line, push_numbered, said, usage_line};
pub use numbers::number_within;
pub use request::{Command, OptionRefusal, Settings};
