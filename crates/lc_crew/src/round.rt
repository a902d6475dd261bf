//! One round: so many blocks, by so many workers.
ghost use Rattle.std.specs.Prelude.{◌≡◌, ℕ, ◌+◌, ◌^◌, ◌≤◌, ◌<◌, ◌++◌, ◌∷◌, [], true, length, map, sum_by, vec_capacity, All, IfOk, OnErr};
ghost use Rattle.lc_enumeration.specs.Message.{numbers_from};
ghost use Rattle.lc_crew.specs.Crew.{IsFresh, IsReady, IsDone, IsRootLast, AreNumbered, least_over};

use crate::blocks::Blocks;
use crate::busy::hands;
use crate::crew::Crew;
use crate::halves::{Worker, run_list};
use crate::worker::Round;
use lc_board::{Board, BoardSeat, NoMemory, RoundResult};
use lc_io::Gate;
use std::alloc::Global;
use std::thread::Threads;

// Makes rooms until there are as many as are wanted. There is one.
fn provide<B: Blocks>(
    alloc: Global,
    blocks: &B,
    spare: &mut Vec<B::Room>,
    wanted: u32,
) -> Result<(), NoMemory>
    requires some { 0 < length spare.old.items }
    requires spare { All (IsFresh (B.fits blocks.now) (B.tally blocks.now)) spare.old.items }
    ensures spare { All (IsFresh (B.fits blocks.now) (B.tally blocks.now)) spare.new.items }
    ensures enough { IfOk result (λ _. wanted ≤ length spare.new.items) }
{
    while spare.len() < wanted as usize {
        let room = blocks.another(alloc, &spare[0])?;
        spare.push(room)?;
    }
    Ok(())
}

// As many workers as are wanted, with a seat and a room each. The root's seat is the last one's, whose number is 0.
fn hire<B: Blocks>(
    alloc: Global,
    blocks: &B,
    board: &Board,
    mut root: BoardSeat,
    workers: u32,
    spare: &mut Vec<B::Room>,
) -> Result<Vec<Worker<B::Room>>, NoMemory>
    requires workers { (1 ≤ workers) × (workers ≤ 256) }
    requires table { root.table ≡ board.now.table }
    requires root { (root.view.root ≡ true) × (root.view.made ≡ 1) }
    requires blank { (root.view.book.drawn ≡ []) × (root.view.book.reported ≡ []) }
    requires spare { All (IsFresh (B.fits blocks.now) (B.tally blocks.now)) spare.old.items }
    requires enough { workers ≤ length spare.old.items }
    ensures spare { All (IsFresh (B.fits blocks.now) (B.tally blocks.now)) spare.new.items }
    ensures place { IfOk result (λ _. length spare.new.items + workers ≤ vec_capacity spare.new) }
    ensures count { IfOk result (λ ws. length ws.items ≡ workers) }
    ensures ready { IfOk result (λ ws. All (IsReady (B.fits blocks.now) (B.tally blocks.now) board.now) ws.items) }
    ensures root { IfOk result (λ ws. IsRootLast ws.items) }
    ensures numbers { IfOk result (λ ws. AreNumbered ws.items) }
{
    let mut list = Vec::with_capacity(alloc, workers as usize)?;
    for number in 1..workers {
        let seat = board.split(&mut root);
        let room = take_one(blocks, spare);
        list.push(Worker { number, seat, room })?;
    }
    let room = take_one(blocks, spare);
    list.push(Worker {
        number: 0,
        seat: root,
        room,
    })?;
    Ok(list)
}

// Takes the last room out of a list of rooms.
fn take_one<B: Blocks>(_blocks: &B, spare: &mut Vec<B::Room>) -> B::Room
    requires some { 0 < length spare.old.items }
    requires spare { All (IsFresh (B.fits _blocks.now) (B.tally _blocks.now)) spare.old.items }
    ensures spare { All (IsFresh (B.fits _blocks.now) (B.tally _blocks.now)) spare.new.items }
    ensures fresh { IsFresh (B.fits _blocks.now) (B.tally _blocks.now) result }
    ensures count { length spare.old.items ≡ length spare.new.items + 1 }
    ensures place { vec_capacity spare.new ≡ vec_capacity spare.old }
{
    let Some(room) = spare.pop() else {
        unreachable!()
    };
    room
}

// The seats of the workers, in a list that has place for them. Their rooms go back to the spare ones.
fn dismiss<W: Send + Drop>(
    workers: Vec<Worker<W>>,
    mut seats: Vec<BoardSeat>,
    spare: &mut Vec<W>,
) -> Vec<BoardSeat>
    requires empty { seats.items ≡ [] }
    requires seats { length workers.items ≤ vec_capacity seats }
    requires place { length spare.old.items + length workers.items ≤ vec_capacity spare.old }
    ensures seats { result.items ≡ map (λ w. w.seat) workers.items }
    ensures spare { spare.new.items ≡ spare.old.items ++ map (λ w. w.room) workers.items }
    ensures place { vec_capacity spare.old ≤ vec_capacity spare.new }
{
    for worker in workers {
        let Worker {
            seat,
            room,
            number: _,
        } = worker;
        seats.push(seat).unwrap();
        spare.push(room).unwrap();
    }
    seats
}

// Closes the board with the seats of all workers, for which there is place in `seats`. Their rooms go back to the spare ones.
fn close_all<W: Send + Drop>(
    board: Board,
    mut workers: Vec<Worker<W>>,
    seats: Vec<BoardSeat>,
    spare: &mut Vec<W>,
) -> RoundResult
    requires some { 0 < length workers.items }
    requires table { All (λ w. w.seat.table ≡ board.table) workers.items }
    requires root { IsRootLast workers.items }
    requires seats { (seats.items ≡ []) × (length workers.items ≤ vec_capacity seats) }
    requires place { length spare.old.items + length workers.items ≤ vec_capacity spare.old }
    ensures spare { spare.new.items ≡ spare.old.items ++ map (λ w. w.room) workers.items }
    ensures count { result.count ≡ board.count }
    ensures closed { (tally : W → ℕ → ℕ) (value : ℕ → ℕ) (share : ℕ → ℕ → ℕ) (start : ℕ) →
        All (IsDone tally (λ x. value (start + x)) (λ x. share (start + x)) board) workers.items →
        (result.claimed ≡ board.count) × (result.best ≡ least_over value board.first start board.count)
        × ((j : ℕ) → sum_by (λ w. tally w j) (map (λ w. w.room) workers.items)
        ≡ sum_by (λ b. share b j) (numbers_from start board.count)) }
{
    let Some(last) = workers.pop() else {
        unreachable!()
    };
    let seats = dismiss(workers, seats, spare);
    let Worker {
        seat,
        room,
        number: _,
    } = last;
    spare.push(room).unwrap();
    board.close(seat, seats)
}

/// Does the `count` blocks from `start` on, by the workers of a crew, or by fewer where there are few blocks, and returns what
/// the board shows: the least of `first` and of the values of these blocks. Each block is done once, and the counts of the rooms
/// that are then in `spare` are together what these blocks add.
///
/// Workers are numbered from 0; each passes the gate before each of its reports. One worker starts no thread.
/// `start` plus `count` is at most the number of blocks, which is at most 2^40. `spare` holds rooms that were made for these
/// blocks and whose counts are 0, one at least; those of this round are kept there. All memory is taken before the first claim; if there is
/// none, no block is done.
pub fn run_round<R: Threads + Sync, G: Gate + Sync, B: Blocks + Sync>(
    crew: &Crew<'_, R, G>,
    blocks: &B,
    start: u64,
    count: u64,
    first: u64,
    spare: &mut Vec<B::Room>,
) -> Result<RoundResult, NoMemory>
    requires count { count ≤ 2 ^ 40 }
    requires few { B.total blocks.now ≤ 2 ^ 40 }
    requires blocks { start + count ≤ B.total blocks.now }
    requires some { 0 < length spare.old.items }
    requires spare { All (IsFresh (B.fits blocks.now) (B.tally blocks.now)) spare.old.items }
    ensures spare { All (B.fits blocks.now) spare.new.items }
    ensures count { IfOk result (λ r. r.count ≡ count) }
    ensures claimed { IfOk result (λ r. r.claimed ≡ count) }
    ensures best { IfOk result (λ r. r.best ≡ least_over (B.value blocks.now) first start count) }
    ensures sums { IfOk result
        (λ _. (j : ℕ) → sum_by (λ w. B.tally blocks.now w j) spare.new.items
        ≡ sum_by (λ b. B.share blocks.now b j) (numbers_from start count)) }
    ensures no_memory { OnErr result (All (IsFresh (B.fits blocks.now) (B.tally blocks.now)) spare.new.items) }
{
    let workers = hands(crew.workers, count.max(1));
    let (board, root) = Board::open(crew.alloc, count, first)?;
    let seats = Vec::with_capacity(crew.alloc, workers as usize)?;
    provide(crew.alloc, blocks, spare, workers)?;
    let mut list = hire(crew.alloc, blocks, &board, root, workers, spare)?;
    let round = Round {
        blocks,
        start,
        board: &board,
        gate: crew.gate,
    };
    run_list(crew.rt, &round, &mut list);
    Ok(close_all(board, list, seats, spare))
}
