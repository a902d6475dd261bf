//! The text of a script, statement by statement, with the rounds of its searches.
#![tactic(auto)]

mod lines;
mod queries;
mod script;
mod statements;

pub use queries::need_line;
pub use script::script_text;
pub use statements::Text;
