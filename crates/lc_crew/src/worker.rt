//! What a worker of a round does.
ghost use Rattle.std.specs.Prelude.{◌≡◌, ℕ, ◌+◌, ◌^◌, ◌≤◌};
ghost use Rattle.lc_board.specs.Board.{AllReported};
ghost use Rattle.lc_crew.specs.Work.{HasWorked};

use crate::blocks::Blocks;
use lc_board::{Board, BoardSeat};
use lc_io::Gate;

/// What the workers of a round share: the blocks, of which the round does those from `start` on, the board that they draw
/// their numbers on, counted from `start`, and the gate that each of them passes before its reports.
#[derive(Drop)]
pub struct Round<'a, B, G> {
    /// The blocks.
    pub blocks: &'a B,
    /// The first block of the round.
    pub start: u64,
    /// The board of the round. Its number x stands for the block `start` + x.
    pub board: &'a Board,
    /// The gate that the workers pass.
    pub gate: &'a G,
}

/// Claims numbers until None comes. For each claimed number x it passes the gate, with the worker's number and the block
/// `start` + x, and then reports x with the value of that block, whose share is added to the counts of the room.
///
/// The seat is one of this board and has reported all that it drew. `start` plus the board's count is at most the number of
/// blocks, which is at most 2^40. The room was made for these blocks, and no count of it is above 2^52. It takes no memory and
/// doesn't wait.
#[tactic(auto, using(crate::proofs::WorkLaws::work_laws))]
pub fn work<B: Blocks, G: Gate + Sync>(
    round: &Round<'_, B, G>,
    seat: &mut BoardSeat,
    worker: u32,
    room: &mut B::Room,
)
    requires seat { (seat.old.table ≡ round.now.board.now.table) × AllReported seat.old.view.book }
    requires blocks { round.now.start + round.now.board.now.count ≤ B.total round.now.blocks.now }
    requires few { B.total round.now.blocks.now ≤ 2 ^ 40 }
    requires room { B.fits round.now.blocks.now room.old }
    requires low { (j : ℕ) → B.tally round.now.blocks.now room.old j ≤ 2 ^ 52 }
    ensures table { seat.new.table ≡ seat.old.table }
    ensures worked { HasWorked (λ x. B.value round.now.blocks.now (round.now.start + x))
        (λ x. B.share round.now.blocks.now (round.now.start + x)) round.now.board.now.count seat.old.view
        (B.tally round.now.blocks.now room.old) seat.new.view (B.tally round.now.blocks.now room.new) }
    ensures room { B.fits round.now.blocks.now room.new }
{
    while let Some(number) = round.board.claim(seat) {
        let block = round.start + number;
        round.gate.before_report(worker, block);
        let value = round.blocks.value_of(block, room);
        round.board.report(seat, number, value);
    }
}
