//! Checkpoints: how one is written with its seal, and how bytes are read as one.
#![tactic(auto)]

mod checkpoint;
mod reading;
mod refusal;
mod seal;
mod writing;

pub use checkpoint::{Checkpoint, LAST_TURN, Settled};
pub use reading::{decode, ranged_at, script_at};
pub use refusal::CheckpointRefusal;
pub use seal::{digest_of, digits_of, seal_of};
pub use writing::encode;
