//! What `run` and `resume` do with the slots of a vault before the first round: `resume` takes the checkpoint that goes on,
//! and `run` empties both slots.
#![tactic(auto)]

mod choosing;
mod emptying;
mod names;
mod reading;

pub use choosing::{Found, chosen};
pub use emptying::emptied;
pub use names::{digest, is_for};
pub use reading::LoadRefusal;
