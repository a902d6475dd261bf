//! The workers of a round, beside each other.
ghost use Rattle.std.specs.Prelude.{◌≡◌, ℕ, ◌+◌, ◌^◌, ◌≤◌, ◌<◌, length, All};
ghost use Rattle.std.specs.Thread.{IsSync};
ghost use Rattle.lc_crew.specs.Crew.{IsReady, IsDone, HaveDone, station};

use crate::blocks::Blocks;
use crate::worker::{Round, work};
use lc_board::BoardSeat;
use lc_io::Gate;
use std::thread::{Threads, join_mut};

/// A worker of a round: its number, its seat at the board, and its room.
#[derive(Drop)]
pub(crate) struct Worker<W> {
    pub(crate) number: u32,
    pub(crate) seat: BoardSeat,
    pub(crate) room: W,
}

// Does a worker's share of the blocks.
fn run<W: Send + Drop, B: Blocks<Room = W>, G: Gate + Sync>(
    round: &Round<'_, B, G>,
    worker: &mut Worker<W>,
)
    requires ready { IsReady (B.fits round.now.blocks.now) (B.tally round.now.blocks.now) round.now.board.now
        worker.old }
    requires blocks { round.now.start + round.now.board.now.count ≤ B.total round.now.blocks.now }
    requires few { B.total round.now.blocks.now ≤ 2 ^ 40 }
    ensures done { IsDone (B.tally round.now.blocks.now)
        (λ x. B.value round.now.blocks.now (round.now.start + x))
        (λ x. B.share round.now.blocks.now (round.now.start + x)) round.now.board.now worker.new }
    ensures room { B.fits round.now.blocks.now worker.new.room }
    ensures station { station worker.new ≡ station worker.old }
{
    work(round, &mut worker.seat, worker.number, &mut worker.room);
}

/// Runs all workers beside each other, each in a thread of its own if one can be made. One worker runs on this thread.
#[cycle(halves)]
pub(crate) fn run_all<
    R: Threads + Sync,
    G: Gate + Sync,
    W: Send + Drop,
    B: Blocks<Room = W> + Sync,
>(rt: &R, round: &Round<'_, B, G>, workers: &mut [Worker<W>])
    requires ready { All (IsReady (B.fits round.now.blocks.now) (B.tally round.now.blocks.now) round.now.board.now)
        workers.old }
    requires blocks { round.now.start + round.now.board.now.count ≤ B.total round.now.blocks.now }
    requires few { B.total round.now.blocks.now ≤ 2 ^ 40 }
    ensures { HaveDone (B.fits round.now.blocks.now) (B.tally round.now.blocks.now)
        (λ x. B.value round.now.blocks.now (round.now.start + x))
        (λ x. B.share round.now.blocks.now (round.now.start + x)) round.now.board.now workers.old workers.new }
{
    if workers.len() < 2 {
        if !workers.is_empty() {
            run(round, &mut workers[0]);
        }
        return;
    }
    let (front, back) = workers.split_at_mut(workers.len() / 2);
    run_both(rt, round, front, back);
}

// Runs two lists of workers beside each other.
#[cycle(halves)]
fn run_both<R: Threads + Sync, G: Gate + Sync, W: Send + Drop, B: Blocks<Room = W> + Sync>(
    rt: &R,
    round: &Round<'_, B, G>,
    front: &mut [Worker<W>],
    back: &mut [Worker<W>],
)
    requires some { (0 < length front.old) × (0 < length back.old) }
    requires front { All (IsReady (B.fits round.now.blocks.now) (B.tally round.now.blocks.now) round.now.board.now)
        front.old }
    requires back { All (IsReady (B.fits round.now.blocks.now) (B.tally round.now.blocks.now) round.now.board.now)
        back.old }
    requires blocks { round.now.start + round.now.board.now.count ≤ B.total round.now.blocks.now }
    requires few { B.total round.now.blocks.now ≤ 2 ^ 40 }
    ensures front { HaveDone (B.fits round.now.blocks.now) (B.tally round.now.blocks.now)
        (λ x. B.value round.now.blocks.now (round.now.start + x))
        (λ x. B.share round.now.blocks.now (round.now.start + x)) round.now.board.now front.old front.new }
    ensures back { HaveDone (B.fits round.now.blocks.now) (B.tally round.now.blocks.now)
        (λ x. B.value round.now.blocks.now (round.now.start + x))
        (λ x. B.share round.now.blocks.now (round.now.start + x)) round.now.board.now back.old back.new }
{
    join_mut(
        rt,
        &mut ||
            requires { IsSync R.row × IsSync G.row × IsSync B.row
                × All (IsReady (B.fits round.now.blocks.now) (B.tally round.now.blocks.now) round.now.board.now)
                front.now
                × (round.now.start + round.now.board.now.count ≤ B.total round.now.blocks.now)
                × (B.total round.now.blocks.now ≤ 2 ^ 40) }
            ensures { HaveDone (B.fits round.entry.now.blocks.now) (B.tally round.entry.now.blocks.now)
                (λ x. B.value round.entry.now.blocks.now (round.entry.now.start + x))
                (λ x. B.share round.entry.now.blocks.now (round.entry.now.start + x)) round.entry.now.board.now
                front.entry.now front.exit.now }
        { run_all(rt, round, front) },
        &mut ||
            requires { IsSync R.row × IsSync G.row × IsSync B.row
                × All (IsReady (B.fits round.now.blocks.now) (B.tally round.now.blocks.now) round.now.board.now)
                back.now
                × (round.now.start + round.now.board.now.count ≤ B.total round.now.blocks.now)
                × (B.total round.now.blocks.now ≤ 2 ^ 40) }
            ensures { HaveDone (B.fits round.entry.now.blocks.now) (B.tally round.entry.now.blocks.now)
                (λ x. B.value round.entry.now.blocks.now (round.entry.now.start + x))
                (λ x. B.share round.entry.now.blocks.now (round.entry.now.start + x)) round.entry.now.board.now
                back.entry.now back.exit.now }
        { run_all(rt, round, back) },
    );
}

/// Runs all workers of a list beside each other.
pub(crate) fn run_list<R: Threads + Sync, G: Gate + Sync, B: Blocks + Sync>(
    rt: &R,
    round: &Round<'_, B, G>,
    workers: &mut Vec<Worker<B::Room>>,
)
    requires ready { All (IsReady (B.fits round.now.blocks.now) (B.tally round.now.blocks.now) round.now.board.now)
        workers.old.items }
    requires blocks { round.now.start + round.now.board.now.count ≤ B.total round.now.blocks.now }
    requires few { B.total round.now.blocks.now ≤ 2 ^ 40 }
    ensures { HaveDone (B.fits round.now.blocks.now) (B.tally round.now.blocks.now)
        (λ x. B.value round.now.blocks.now (round.now.start + x))
        (λ x. B.share round.now.blocks.now (round.now.start + x)) round.now.board.now
        workers.old.items workers.new.items }
{
    run_all(rt, round, workers.as_mut_slice());
}
