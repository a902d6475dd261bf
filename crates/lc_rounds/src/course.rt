//! How far a session is in its script.

use crate::pace::Pace;
use lc_checkpoint::Settled;

/// How far a session is in its script.
#[derive(Drop)]
pub struct Course {
    /// How far it is in its rounds. Until the records of a checkpoint are used, all of these are its settled needs.
    pub pace: Pace,
    /// How many queries that search were met.
    pub met: u64,
    /// The version of the checkpoint that is resumed, if one is.
    pub version: u64,
    /// The record of the checkpoint's current need, until it is used.
    pub current: Option<Settled>,
}
