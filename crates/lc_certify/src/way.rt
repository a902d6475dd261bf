//! How a certificate proves its distance.

/// How a certificate proves its distance. Contracts see it as `kind_of` it, a `QueryKind` of `lc_language`.
#[derive(Clone, Copy, Debug, PartialEq, Eq)]
pub enum Way {
    /// By the levels of the information sets that the search has done.
    Levels,
    /// By all words of the code.
    Scan,
}
