//! Numbers that the plan of a search, its rounds and its files share.

/// How many places there are: a message of a level has a place below this. The board of a round holds a word as its weight
/// times this, plus its place.
pub const PLACES: u64 = 1 << 52;

/// How many messages a block has, but the last one of a phase, which has what is left of the level.
pub const BLOCK: u64 = 4096;

/// The bound that no block's number reaches: a budget and a slice have at most this many blocks.
pub const CUT: u64 = 1 << 40;

/// The budget of a search where none is given, in blocks.
pub const DEFAULT_BUDGET: u64 = 1 << 20;
