//! The certificate of a search that has found the minimum distance, and the line that a session prints of it.
#![tactic(auto)]

mod answered;
mod certificate;
mod claims;
pub mod laws;
mod line;
mod way;

pub use answered::exact_line;
pub use certificate::certificate_of;
pub use line::certificate_line;
pub use way::Way;
