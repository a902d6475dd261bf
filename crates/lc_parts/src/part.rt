//! What is said of a part of a search, and of the search that it is part of.

/// A part of a search: a range of blocks of the plan, with the least word found in it.
///
/// Contracts see it as `part_of` it, a `Part` of `specs/Part`. Any values may stand in it.
#[derive(Clone, Copy, Debug, PartialEq, Eq, Drop)]
pub struct Part {
    /// The first block.
    pub start: u64,
    /// How many blocks it has.
    pub count: u64,
    /// The weight of the least word.
    pub weight: u64,
    /// The place of this word.
    pub place: u64,
}

/// What the plan and the bound of a search are made of.
///
/// Contracts see it as `facts_seen` of it, a `Facts` of `specs/Part`. Any values may stand in it.
#[derive(Drop)]
pub struct Facts {
    /// The dimension k of the code.
    pub k: u64,
    /// The size q of the field.
    pub q: u64,
    /// How many fresh columns each information set has.
    pub ranks: Vec<u64>,
    /// The number that divides all weights of the code.
    pub divisor: u64,
    /// The weight of the word at place 0.
    pub first: u64,
}
