//! What a search answers, and what a round tells.

use lc_board::RoundResult;

/// What a search answers. What it says of the minimum distance holds of a search that began with no block, or from the record of
/// such a search.
#[derive(Clone, Copy, Debug, PartialEq, Eq)]
pub enum Answer {
    /// The minimum distance.
    Exact {
        /// The minimum distance: the weight of the word at the place.
        weight: u64,
        /// The place of a word of this weight, the first one found.
        place: u64,
        /// How many blocks were done.
        blocks: u64,
    },
    /// Two numbers between which the minimum distance lies.
    Bracket {
        /// The lower end.
        low: u64,
        /// The upper end: the weight of the word at the place.
        weight: u64,
        /// The place of a word of this weight, the first one found.
        place: u64,
        /// How many blocks were done: the budget.
        blocks: u64,
    },
}

/// The best word that a search has found.
#[derive(Clone, Copy, Debug, PartialEq, Eq)]
pub struct Best {
    /// The weight of the word.
    pub weight: u64,
    /// The place of the word.
    pub place: u64,
}

/// What a round tells.
#[derive(Drop)]
pub struct RoundRecord {
    /// The blocks that are done after the round.
    pub blocks: u64,
    /// Each nonzero codeword of which no multiple was seen in these blocks has at least this weight. If the search began with no
    /// block, or from the record of such a search, the lesser of this and `best` is a lower bound on the minimum distance.
    pub bound: u64,
    /// The least weight found so far.
    pub best: u64,
    /// How many blocks this round did.
    pub done: u64,
    /// What the board of the round showed when it was closed.
    pub closed: RoundResult,
}
