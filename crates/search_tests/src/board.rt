//! Boards: four threads draw each number once, and the machine of a round event by event.
ghost use Rattle.std.specs.Prelude.{◌≡◌, ◌+◌, ◌<◌, ◌≤◌, length, true, All, IfOk};
ghost use Rattle.std.specs.Thread.{IsSync};
ghost use Rattle.lc_board.specs.Board.{AllReported};

use lc_board::{
    Board, BoardSeat, Event, NoMemory, RoundResult, RoundState, law_of_boards, law_of_rounds,
};
use std::alloc::{AllocError, Global};
use std::test::Fail;
use std::thread::{Threads, join_mut};

const NUMBERS: u64 = 100_000;

// A seat, and how often it drew each number.
#[derive(Drop)]
struct Worker {
    seat: BoardSeat,
    drew: Vec<u8>,
}

fn value_of(number: u64) -> u64 {
    (number ^ 0x5555) | 1_000
}

#[tactic(auto, using(lc_board::proofs::Callers::owes, lc_board::proofs::Callers::settled))]
fn work(board: &Board, worker: &mut Worker)
    requires { (worker.old.seat.table ≡ board.now.table) × AllReported worker.old.seat.view.book }
    ensures { worker.new.seat.table ≡ board.now.table }
{
    for _ in 0..=NUMBERS {
        let Some(number) = board.claim(&mut worker.seat) else {
            return;
        };
        board.report(&mut worker.seat, number, value_of(number));
        if let Some(times) = worker.drew.get_mut(number as usize) {
            *times = times.wrapping_add(1);
        }
    }
}

fn work_all<R: Threads + Sync>(rt: &R, board: &Board, workers: &mut [Worker])
    requires { All (λ w. (w.seat.table ≡ board.now.table) × AllReported w.seat.view.book) workers.old }
    ensures { All (λ w. w.seat.table ≡ board.now.table) workers.new }
{
    if workers.len() < 2 {
        if !workers.is_empty() {
            work(board, &mut workers[0]);
        }
        return;
    }
    let (front, back) = workers.split_at_mut(workers.len() / 2);
    join_mut(
        rt,
        &mut ||
            requires { IsSync R.row × All (λ w. (w.seat.table ≡ board.now.table)
                × AllReported w.seat.view.book) front.now }
            ensures { All (λ w. w.seat.table ≡ board.entry.now.table) front.exit.now }
        { work_all(rt, board, front) },
        &mut ||
            requires { IsSync R.row × All (λ w. (w.seat.table ≡ board.now.table)
                × AllReported w.seat.view.book) back.now }
            ensures { All (λ w. w.seat.table ≡ board.entry.now.table) back.exit.now }
        { work_all(rt, board, back) },
    );
}

// The least value of all numbers, and none stood out.
fn least_value() -> u64 {
    let mut least = u64::MAX;
    for number in 0..NUMBERS {
        least = least.min(value_of(number));
    }
    least
}

fn new_worker(alloc: Global, board: &Board, root: &mut BoardSeat) -> Result<Worker, AllocError>
    requires { (root.old.table ≡ board.now.table) × (root.old.view.root ≡ true) × (root.old.view.made < 256) }
    ensures root { (root.new.table ≡ root.old.table) × (root.new.view.root ≡ true)
        × (root.new.view.made ≡ root.old.view.made + 1) }
    ensures new { IfOk result (λ w. (w.seat.table ≡ board.now.table) × AllReported w.seat.view.book) }
{
    let seat = board.split(root);
    let drew = vec![in alloc; 0; NUMBERS as usize]?;
    Ok(Worker { seat, drew })
}

// Four workers with a seat each.
fn hire(alloc: Global, board: &Board, root: &mut BoardSeat) -> Result<Vec<Worker>, AllocError>
    requires { (root.old.table ≡ board.now.table) × (root.old.view.root ≡ true) × (root.old.view.made ≡ 1) }
    ensures root { (root.new.table ≡ root.old.table) × (root.new.view.root ≡ true) }
    ensures made { IfOk result (λ ws. root.new.view.made ≡ length ws.items + 1) }
    ensures workers { IfOk result (λ ws. All (λ w. (w.seat.table ≡ board.now.table)
        × AllReported w.seat.view.book) ws.items) }
{
    let mut workers = Vec::new(alloc);
    for _ in 0..4u32 {
        workers.push(new_worker(alloc, board, root)?)?;
    }
    Ok(workers)
}

fn run<R: Threads + Sync>(rt: &R, board: &Board, workers: &mut Vec<Worker>)
    requires { All (λ w. (w.seat.table ≡ board.now.table) × AllReported w.seat.view.book) workers.old.items }
    ensures { All (λ w. w.seat.table ≡ board.now.table) workers.new.items
        × (length workers.new.items ≡ length workers.old.items) }
{
    work_all(rt, board, workers.as_mut_slice());
}

fn close_all(
    alloc: Global,
    board: Board,
    root: BoardSeat,
    mut workers: Vec<Worker>,
) -> Result<RoundResult, AllocError>
    requires root { (root.table ≡ board.table) × (root.view.root ≡ true) × (length workers.items + 1 ≡ root.view.made) }
    requires workers { All (λ w. w.seat.table ≡ board.table) workers.items }
{
    let mut seats = Vec::new(alloc);
    while let Some(worker) = workers.pop() {
        let Worker { seat, drew: _ } = worker;
        seats.push(seat)?;
    }
    Ok(board.close(root, seats))
}

// How often the workers drew the number.
fn drawn(workers: &[Worker], number: usize) -> u64 {
    let mut times: u64 = 0;
    for worker in workers {
        times = times.saturating_add(match worker.drew.get(number) {
            Some(once) => u64::from(*once),
            None => 0,
        });
    }
    times
}

// Whether each number was drawn once.
fn are_drawn_once(workers: &[Worker]) -> bool {
    for number in 0..NUMBERS as usize {
        if drawn(workers, number) != 1 {
            return false;
        }
    }
    true
}

// Whether all numbers were drawn, and the least value was reported.
fn is_whole(closed: &RoundResult) -> bool {
    closed.count() == NUMBERS && closed.claimed() == NUMBERS && closed.best() == least_value()
}

// Whether four workers draw each number once, and the board shows it when they and the root are gone.
fn four_draw<R: Threads + Sync>(
    rt: &R,
    alloc: Global,
    board: Board,
    mut root: BoardSeat,
) -> Result<bool, AllocError>
    requires root { (root.table ≡ board.table) × (root.view.root ≡ true) × (root.view.made ≡ 1) }
{
    let mut workers = hire(alloc, &board, &mut root)?;
    run(rt, &board, &mut workers);
    let once = are_drawn_once(&workers);
    let closed = close_all(alloc, board, root, workers)?;
    Ok(once && is_whole(&closed))
}

#[test]
fn four_threads_draw_each_number_once(rt: HostRuntime) -> Result<(), Fail> {
    let alloc = rt.alloc();
    match Board::open(alloc, NUMBERS, u64::MAX) {
        Ok((board, root)) => assert!(rt; four_draw(&rt, alloc, board, root)?),
        Err(_refused) => panic!(rt; "no memory"),
    }
    Ok(())
}

// Whether the answer of an event is this one, and then the next number and the least value are these.
fn is_answered(
    alloc: Global,
    state: &mut RoundState,
    event: Event,
    answer: bool,
    next: u64,
    best: u64,
) -> Result<bool, NoMemory>
    ensures actors { length state.new.actors ≡ length state.old.actors }
{
    let done = state.step(alloc, event)?;
    Ok(done == answer && state.next() == next && state.best() == best)
}

// Events of two actors, whether they are possible, the next number and the least value, and what each actor holds then.
const ROUND: [(Event, bool, u64, u64, Option<u64>, Option<u64>); 9] = [
    (Event::Claim(0), true, 1, 9, Some(0), None),
    (Event::Claim(1), true, 2, 9, Some(0), Some(1)),
    (Event::Claim(0), false, 2, 9, Some(0), Some(1)),
    (Event::Report(1, 7), true, 2, 7, Some(0), None),
    (Event::EndRound, false, 2, 7, Some(0), None),
    (Event::Report(0, 8), true, 2, 7, None, None),
    (Event::Claim(0), true, 3, 7, None, None),
    (Event::EndRound, true, 3, 7, None, None),
    (Event::Kill, false, 3, 7, None, None),
];

// Whether a round of two actors goes so.
fn is_done(alloc: Global, state: &mut RoundState) -> Result<bool, NoMemory>
    requires actors { length state.old.actors ≡ 2 }
{
    for (event, answer, next, best, first, second) in &ROUND {
        if !is_answered(alloc, state, *event, *answer, *next, *best)?
            || state.held(0) != *first
            || state.held(1) != *second
        {
            return Ok(false);
        }
    }
    Ok(state.ended())
}

#[test]
fn a_round_does_what_its_table_says(rt: HostRuntime) -> Result<(), NoMemory> {
    let mut state = RoundState::new(rt.alloc(), 2, 9, 2)?;
    assert!(rt; is_done(rt.alloc(), &mut state)?);
    Ok(())
}

// Events of a round that is killed, whether they are possible, the next number and the least value, and what actor 1 holds then.
const KILLED: [(Event, bool, u64, u64, Option<u64>); 8] = [
    (Event::Claim(1), true, 1, 9, Some(0)),
    (Event::Report(1, 4), true, 1, 4, None),
    (Event::Claim(1), true, 2, 4, Some(1)),
    (Event::Resume, false, 2, 4, Some(1)),
    (Event::Kill, true, 2, 4, Some(1)),
    (Event::Report(1, 3), false, 2, 4, Some(1)),
    (Event::Resume, true, 0, 9, None),
    (Event::Claim(2), false, 0, 9, None),
];

// Whether a round of two actors goes so, and has not ended.
fn is_killed(alloc: Global, state: &mut RoundState) -> Result<bool, NoMemory>
    requires actors { length state.old.actors ≡ 2 }
{
    for (event, answer, next, best, held) in &KILLED {
        if !is_answered(alloc, state, *event, *answer, *next, *best)?
            || state.held(1) != *held
            || state.ended()
        {
            return Ok(false);
        }
    }
    Ok(true)
}

#[test]
fn a_killed_round_begins_again(rt: HostRuntime) -> Result<(), NoMemory> {
    let mut state = RoundState::new(rt.alloc(), 2, 9, 2)?;
    assert!(rt; is_killed(rt.alloc(), &mut state)?);
    Ok(())
}

fn crosses<T: Send>(_value: &T) {}

fn is_shared<T: Send + Sync>(_value: &T) {}

#[test]
fn a_board_that_nobody_draws_from_keeps_its_first_value(rt: HostRuntime) -> Result<(), NoMemory> {
    let alloc = rt.alloc();
    let (board, root) = Board::open(alloc, 3, 5)?;
    is_shared(&board);
    crosses(&root);
    let result = board.close(root, Vec::new(alloc));
    assert!(rt; result.count() == 3 && result.claimed() == 0 && result.best() == 5);
    Ok(())
}

#[test]
fn the_root_draws_until_none_comes(rt: HostRuntime) -> Result<(), NoMemory> {
    let alloc = rt.alloc();
    let (board, mut root) = Board::open(alloc, 1, 8)?;
    let first = board.claim(&mut root);
    assert!(rt; first == Some(0));
    if let Some(number) = first {
        board.report(&mut root, number, 9);
        assert!(rt; board.claim(&mut root).is_none());
    }
    let result = board.close(root, Vec::new(alloc));
    assert!(rt; result.claimed() == 1 && result.best() == 8);
    Ok(())
}
