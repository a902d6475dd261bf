//! The answers of the needs of a session: by the records of a checkpoint as far as they go, and then by searches, round by
//! round. After each round the checkpoint is stored, if the session keeps its checkpoints, and then the watchers are told.
#![tactic(auto)]

mod course;
mod keeping;
mod laws;
mod need;
mod pace;
mod records;
mod round;
mod rounds;
mod starting;
mod surroundings;

pub use course::Course;
pub use laws::searches_start_fitting;
pub use need::{Halt, answer_need};
pub use pace::Pace;
pub use records::Answered;
pub use rounds::{Stop, search_need};
pub use starting::{afresh, resumed};
pub use surroundings::Surroundings;
