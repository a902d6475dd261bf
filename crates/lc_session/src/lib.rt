//! A session: the arguments of the command line, the bytes in and the bytes out.
#![tactic(auto)]

mod check;
mod scripts;
mod session;
mod status;
mod summary;
mod texts;

pub use lc_arguments::{Command, OptionRefusal, Settings, options};
pub use session::{Runtime, run_session, run_session_over};
pub use status::{Status, status_line};
pub use texts::told_text;
