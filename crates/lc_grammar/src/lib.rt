//! What `codes` means by a script: its tokens, its tree, and the grammar that relates bytes to them;
//! with the laws of that grammar on which the parser rests. The definitions are in `specs/`.
#![tactic(auto)]

/// The kinds of tokens of a script.
#[derive(Clone, Copy, Debug, PartialEq, Eq)]
pub enum TokenKind {
    /// a letter of ASCII, followed by letters, digits and `_`
    Name,
    /// decimal digits
    Number,
    /// `:=`
    Assign,
    /// `(`
    Open,
    /// `)`
    Close,
    /// `[`
    OpenList,
    /// `]`
    CloseList,
    /// `,`
    Comma,
    /// `;`
    End,
}

/// A token of a script: its kind, the offset of its first byte, and the offset after its last byte.
/// Its text is `bytes[start..end]`.
#[derive(Clone, Copy, Debug, PartialEq, Eq)]
pub struct Token {
    pub kind: TokenKind,
    pub start: usize,
    pub end: usize,
}
