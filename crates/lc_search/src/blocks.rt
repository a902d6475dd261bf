//! The blocks of a search, which the workers of a round do.
ghost use Rattle.std.specs.Prelude.{◌≡◌, ℕ, ◌+◌, ◌≤◌, ◌<◌};
ghost use Rattle.lc_enumeration.specs.Plan.{total};
ghost use Rattle.lc_board.specs.Board.{AllReported};
ghost use Rattle.lc_kernel.specs.Kernel.{IsPlanOf};
ghost use Rattle.lc_search.specs.Work.{block_value, HasWorked, IsRoomOf};

use lc_board::{Board, BoardSeat};
use lc_crew::{Blocks, NoMemory, Round};
use lc_infoset::Sets;
use lc_io::Gate;
use lc_kernel::{Scratch, least};
use lc_place::Plan;
use std::alloc::Global;

/// The blocks of a plan of the information sets of a code. The value of a block is that of its least word.
#[derive(Clone, Copy)]
pub struct SearchBlocks<'a> {
    /// The information sets of the code.
    pub sets: &'a Sets,
    /// The plan.
    pub plan: &'a Plan,
}

impl<'a> Blocks for SearchBlocks<'a> {
    type Room = Scratch;

    ghost total = { λ s. total s.plan.now.k s.plan.now.q s.plan.now.m };

    ghost value = { λ s b. block_value s.sets.now s.plan.now.m b };

    // a search counts nothing
    ghost share = { λ s b j. 0 };

    ghost fits = { λ s scratch. IsRoomOf s.sets.now s.plan.now scratch };

    ghost tally = { λ s scratch j. 0 };

    #[tactic(auto, using(crate::proofs::WorkLaws::value_is))]
    fn value_of(&self, block: u64, room: &mut Scratch) -> u64 {
        least(self.sets, self.plan, block, room)
    }

    fn another(&self, alloc: Global, room: &Scratch) -> Result<Scratch, NoMemory> {
        let Ok(scratch) = room.another(alloc) else {
            return Err(NoMemory);
        };
        Ok(scratch)
    }
}

/// Claims numbers until None comes. For each claimed number x it passes the gate, with the worker's number and the block
/// `start` + x, and then reports x with the value of the least word of that block.
///
/// The seat is one of this board and has reported all that it drew. `start` plus the board's count is at most the plan's total.
/// The plan is one of these sets, and the scratch was made for them. It takes no memory and doesn't wait.
pub fn work<G: Gate + Sync>(
    sets: &Sets,
    plan: &Plan,
    start: u64,
    board: &Board,
    seat: &mut BoardSeat,
    worker: u32,
    scratch: &mut Scratch,
    gate: &G,
)
    requires plan { IsPlanOf plan.now sets.now }
    requires seat { (seat.old.table ≡ board.now.table) × AllReported seat.old.view.book }
    requires blocks { start + board.now.count ≤ total plan.now.k plan.now.q plan.now.m }
    requires scratch { scratch.old ≡ sets.now }
    ensures table { seat.new.table ≡ seat.old.table }
    ensures worked { HasWorked (λ x. block_value sets.now plan.now.m
        (start + x)) board.now.count seat.old.view seat.new.view }
    ensures scratch { scratch.new ≡ scratch.old }
{
    let round = Round {
        blocks: &SearchBlocks { sets, plan },
        start,
        board,
        gate,
    };
    lc_crew::work(&round, seat, worker, scratch);
}
