//! A board and its seats.
ghost use Rattle.std.specs.Prelude.{◌≡◌, ℕ, ◌+◌, ◌^◌, ◌<◌, ◌≤◌, [], ◌∷◌, map, length, min, true, false, IfOk, IfSome, IfNone, MatchOption, All};
ghost use Rattle.lc_board.specs.Counting.{StandOnce, least};
ghost use Rattle.lc_board.specs.Board.{drawn_numbers, reported_values, HasDrawn, told, split, newcomer, root_view, AllReported, Owes};
ghost use Rattle.lc_board.specs.Seats.{books_of, joined_all};

use crate::NoMemory;
use crate::rule::{Claims, Parts, Reports, Ruled, TakesIn};
use crate::views::{Terms, View};
use atomic_table::{Seat, Shared, Table};
use std::alloc::Global;
use std::marker::Model;

/// The numbers of a round, below its count, and the least of its first value and all that were reported.
#[derive(Drop)]
pub struct Board {
    table: Table<(), View, Terms, Ruled, Global>,
    count: u64,
}

impl Model for Board {
    ghost use Rattle.std.specs.Prelude.{◌≡◌};
    ghost use Rattle.lc_board.specs.Seats.{Opened};

    ghost Value = { Opened };

    ghost view = { λ b. record { table = b.table.shared.table_id; first = b.table.shared.key.first; count = b.table.shared.key.count } };

    ghost invariant = { λ b. (b.count ≡ b.table.shared.key.count) × (b.table.shared.table_id.words ≡ 4) × (b.table.shared.table_id.slots ≡ 0) };
}

/// A seat at a board. Who holds it draws numbers and reports values. It has no bytes.
#[derive(Drop)]
pub struct BoardSeat {
    seat: Seat<(), View>,
}

impl Model for BoardSeat {
    ghost use Rattle.std.specs.Prelude.{◌≡◌, false, []};
    ghost use Rattle.lc_board.specs.Seats.{Seated};

    ghost Value = { Seated };

    ghost view = { λ s. record { table = s.seat.table_id; view = s.seat.me.0 } };

    ghost invariant = { λ s. (s.seat.me.0.spent ≡ false) × (s.seat.me.0.left ≡ []) × (s.seat.me.1 ≡ []) };
}

impl Board {
    /// A board of `count` numbers, at most 2^40, with its root's seat, which draws and reports as any other. `first`, any
    /// number of 64 bits, is the best value before any report. Refused only if no memory is left.
    pub fn open(alloc: Global, count: u64, first: u64) -> Result<(Board, BoardSeat), NoMemory>
        requires { count ≤ 2 ^ 40 }
        ensures board { IfOk result (λ r. (r.0.first ≡ first) × (r.0.count ≡ count)) }
        ensures seat { IfOk result
            (λ r. (r.1.table ≡ r.0.table) × (r.1.view ≡ root_view (record { first = first; count = count }))) }
    {
        let terms = Terms { first, count };
        let (table, seat) = Table::of_words(alloc, &[0, first, first, count], &terms)?;
        Ok((Board { table, count }, BoardSeat { seat }))
    }

    /// Another seat of this board, which has drawn nothing. The root's seat alone makes it, while fewer than 256 were
    /// made, the root's counted. Takes no memory.
    pub fn split(&self, seat: &mut BoardSeat) -> BoardSeat
        requires board { seat.old.table ≡ self.now.table }
        requires root { seat.old.view.root ≡ true }
        requires room { seat.old.view.made < 256 }
        ensures root { (seat.new.table ≡ seat.old.table) × (seat.new.view ≡ split seat.old.view) }
        ensures new { (result.table ≡ seat.old.table) × (result.view ≡ newcomer seat.old.view) }
    {
        let new = self.table.shared.split_seat::<Parts>(&mut seat.seat);
        BoardSeat { seat: new }
    }

    /// Draws a number by one fetch-add, for a seat that has reported each number that it drew. None comes exactly if
    /// the number is at or above the count, and then the seat draws no more. The number exceeds all that this seat drew
    /// before, and no other seat draws it. Takes no memory.
    pub fn claim(&self, seat: &mut BoardSeat) -> Option<u64>
        requires board { seat.old.table ≡ self.now.table }
        requires reported { AllReported seat.old.view.book }
        ensures table { seat.new.table ≡ seat.old.table }
        ensures some { IfSome result (λ x. (x < self.now.count) × HasDrawn seat.old.view x seat.new.view) }
        ensures none { IfNone result ((x : ℕ) × (self.now.count ≤ x) × HasDrawn seat.old.view x seat.new.view) }
    {
        let number = self.table.shared.fetch_add::<Claims>(&mut seat.seat, 0, 1);
        if number < self.count {
            Some(number)
        } else {
            None
        }
    }

    /// Reports a value, any number of 64 bits, for the number that the seat drew last and hasn't reported, by one
    /// fetch-min. Takes no memory.
    pub fn report(&self, seat: &mut BoardSeat, block: u64, value: u64)
        requires board { seat.old.table ≡ self.now.table }
        requires owed { Owes seat.old.view.book block × (block < self.now.count) }
        ensures { (seat.new.table ≡ seat.old.table) × (seat.new.view ≡ told seat.old.view block value) }
    {
        self.table
            .shared
            .fetch_min::<Reports>(&mut seat.seat, 1, value);
    }

    /// Closes the board with its root's seat and all other seats, together as many as were made. The numbers that these
    /// seats drew are those below some `next`, each drawn by exactly one of them. Takes no memory.
    pub fn close(self, root: BoardSeat, seats: Vec<BoardSeat>) -> RoundResult
        requires root { (root.table ≡ self.table) × (root.view.root ≡ true) }
        requires seats { All (λ s. s.table ≡ self.table) seats.items }
        requires all { length seats.items + 1 ≡ root.view.made }
        ensures count { result.count ≡ self.count }
        ensures drawn { (next : ℕ) × StandOnce next (drawn_numbers (books_of root seats.items))
            × (result.claimed ≡ min next self.count) }
        ensures best { result.best ≡ least self.first (reported_values (books_of root seats.items)) }
    {
        let Board { table, count } = self;
        let BoardSeat { seat } = root;
        let all = take_in(&table.shared, seat, seats);
        let closed = table.close_with(all);
        let next = closed.word(0);
        let best = closed.word(1);
        closed.free();
        RoundResult {
            count,
            claimed: if next < count { next } else { count },
            best,
        }
    }
}

// The root's seat takes in all others.
fn take_in(
    table: &Shared<(), View, Terms, Ruled>,
    mut root: Seat<(), View>,
    seats: Vec<BoardSeat>,
) -> Seat<(), View>
    requires root { (root.table_id ≡ table.now.table_id) × (root.me.0.spent ≡ false) × (root.me.0.root ≡ true) }
    requires words { table.now.table_id.words ≡ 4 }
    requires seats { All (λ s. s.table ≡ table.now.table_id) seats.items }
    ensures { (result.table_id ≡ root.table_id) × (result.id ≡ root.id)
        × (result.me.0 ≡ joined_all root.me.0 seats.items) }
{
    for other in seats {
        let BoardSeat { seat } = other;
        table.join_seat::<TakesIn>(&mut root, seat);
    }
    root
}

/// What a board shows when it is closed. Only `Board::close` makes one, and it isn't cloned.
#[derive(Drop)]
pub struct RoundResult {
    count: u64,
    claimed: u64,
    best: u64,
}

impl Model for RoundResult {
    ghost use Rattle.lc_board.specs.Seats.{Closing};

    ghost Value = { Closing };

    ghost view = { λ r. record { count = r.count; claimed = r.claimed; best = r.best } };
}

impl RoundResult {
    /// How many numbers the board had.
    pub fn count(&self) -> u64
        ensures { result ≡ self.now.count }
    {
        self.count
    }

    /// How many of them were drawn.
    pub fn claimed(&self) -> u64
        ensures { result ≡ self.now.claimed }
    {
        self.claimed
    }

    /// The least of the first value and all reported ones.
    pub fn best(&self) -> u64
        ensures { result ≡ self.now.best }
    {
        self.best
    }
}

// Proved only where its argument may go to another thread and be shared with it.
fn crosses_threads<T: Send + Sync>(_value: &T) {}

// Proved only where its argument may go to another thread.
fn moves_to_a_thread<T: Send>(_value: &T) {}

// A board is `Send` and `Sync`, and a seat is `Send`.
fn board_crosses_threads(board: &Board, seat: &BoardSeat) {
    crosses_threads(board);
    moves_to_a_thread(seat);
}
