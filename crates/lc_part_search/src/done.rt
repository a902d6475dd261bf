//! What a part of a search answers.

use lc_parts::{Facts, Part};

/// A part of the search of a code that was done, with what the plan and the bound of this search are made of.
#[derive(Drop)]
pub struct Done {
    /// What the plan and the bound of the search are made of.
    pub facts: Facts,
    /// The part, with its least word.
    pub part: Part,
}
