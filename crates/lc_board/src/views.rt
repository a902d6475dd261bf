//! What the seats of a board know. No value of these types but `Terms` is made: they are in proofs alone.
use std::collections::LinkedList;

/// What a board is opened with.
#[derive(Clone, Copy)]
pub struct Terms {
    /// The best value before any report.
    pub first: u64,
    /// How many numbers can be drawn, at most 2^40.
    pub count: u64,
}

/// What one seat did.
pub struct Book {
    /// The seat's own number, below 256. The root's is 0.
    pub number: u64,
    /// The numbers that it drew, in rising order.
    pub drawn: LinkedList<u64>,
    /// The numbers that it reported, in the order of its reports, each with its value.
    pub reported: LinkedList<(u64, u64)>,
}

/// What a seat knows. A spent view is that of a seat that joined the root's, and holds nothing.
pub struct View {
    /// Whether the seat joined the root's.
    pub spent: bool,
    /// Whether it is the root's seat. A board has one.
    pub root: bool,
    /// The first value of the board.
    pub first: u64,
    /// The count of the board.
    pub count: u64,
    /// How many seats were made, the root's counted, at most 256. At other seats than the root's 0.
    pub made: u64,
    /// What the seat itself did.
    pub book: Book,
    /// What the seats did that joined the root's. At other seats than the root's nothing.
    pub left: LinkedList<Book>,
}
