//! What the line of a part holds.

use lc_parts::{Facts, Part};

/// A part of the first search of a script, with what the plan and the bound of this search are made of.
///
/// Contracts see it as `line_of` it, a `PartLine` of `specs/Line`. Any values may stand in it; `read` gives one that is in range.
#[derive(Drop)]
pub struct PartLine {
    /// The SHA-256 of the script.
    pub script: [u8; 32],
    /// What the plan and the bound of the search are made of.
    pub facts: Facts,
    /// The part.
    pub part: Part,
}
