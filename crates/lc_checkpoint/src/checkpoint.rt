//! What a checkpoint holds.

/// The greatest number of a checkpoint.
pub const LAST_TURN: u64 = 1 << 60;

/// How far the search of a settled need went.
///
/// Contracts see it as `settled_of` it, a `Progress` of `lc_enumeration`.
#[derive(Clone, Copy, Debug, PartialEq, Eq)]
pub struct Settled {
    /// How many blocks were done.
    pub blocks: u64,
    /// The least weight that was found, 1 to 255.
    pub weight: u64,
    /// The place of the first word of this weight, below 2^52.
    pub place: u64,
}

/// What a session keeps so that a later one can go on: the settled needs, and how far the search of the current need is.
///
/// Contracts see it as `point_of` it, a `Checkpoint` of `lc_formats`. The number of the current need is the number of the
/// settled ones. Any values may stand in it; `decode` gives one that is in range, and `encode` asks for it.
#[derive(Drop)]
pub struct Checkpoint {
    /// The version of the text: 2 is written, 1 and 2 are read.
    pub version: u64,
    /// The SHA-256 of the script.
    pub script: [u8; 32],
    /// The budget of blocks for each need, at most 2^40.
    pub budget: u64,
    /// The number of the checkpoint, at most 2^60: even ones go to slot zero, odd ones to slot one.
    pub turn: u64,
    /// The settled needs, in order; at most 131,072.
    pub settled: Vec<Settled>,
    /// The blocks of the current need that are done, at most the budget.
    pub blocks: u64,
    /// The least weight that its search has found, 1 to 255.
    pub weight: u64,
    /// The place of the first word of this weight, below 2^52.
    pub place: u64,
}
