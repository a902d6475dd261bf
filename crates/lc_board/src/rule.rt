//! The rule of the table under a board, and what its steps tell.
use crate::views::{Terms, View};
use atomic_table::{Join, Play, Split, TableRule};

pub(crate) struct Ruled;

impl TableRule<(), View, Terms> for Ruled {
    ghost use Rattle.lc_board.specs.Board.{root_view};
    ghost use Rattle.lc_board.specs.Machine.{IsRuled};

    ghost holds = { λ t s. IsRuled t s.words s.views };

    ghost first = { root_view };
}

// One number is drawn.
pub(crate) struct Claims;

impl Play<(), View> for Claims {
    ghost use Rattle.lc_board.specs.Board.{Draws};

    ghost then = { Draws };
}

// A value is reported.
pub(crate) struct Reports;

impl Play<(), View> for Reports {
    ghost use Rattle.lc_board.specs.Board.{Tells};

    ghost then = { Tells };
}

// The root makes another seat.
pub(crate) struct Parts;

impl Split<View> for Parts {
    ghost use Rattle.lc_board.specs.Board.{split, newcomer};

    ghost left = { split };

    ghost right = { newcomer };
}

// The root takes in another seat.
pub(crate) struct TakesIn;

impl Join<View> for TakesIn {
    ghost use Rattle.lc_board.specs.Board.{joined, nothing};

    ghost both = { joined };

    ghost spent = { nothing };
}
