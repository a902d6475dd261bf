//! What holds of boards and rounds, on functions that do nothing.
ghost use Rattle.std.specs.Prelude.{◌↔◌};
ghost use Rattle.atomic_table.specs.Table.{State};
ghost use Rattle.lc_board.specs.declared.views.Terms.{Terms};
ghost use Rattle.lc_board.specs.declared.views.View.{View};
ghost use Rattle.lc_board.specs.Round.{IsAlwaysSound, EndsWithTheLeast};
ghost use Rattle.lc_board.specs.Machine.{OpensUnderTheRule, ClaimKeepsTheRule, ReportKeepsTheRule, SplitKeepsTheRule, JoinKeepsTheRule, ClaimIsAnEvent, ReportIsAnEvent, SplitLeavesTheState, JoinLeavesTheState, OpensAtTheStart, ActorsAreSeats, IsRuled};
ghost use Rattle.lc_board.specs.Sentences.{RuleSays};

use crate::rule::Ruled;
use crate::views::{Terms, View};
use atomic_table::TableRule;

/// In each state that a list of events reaches, held and finished blocks are the numbers below the lesser of next and
/// count, each once, and best is the least of first and the finished values. An ended round has finished each block
/// once, and its best is the least of first and all their values, whatever was killed and resumed before.
pub fn law_of_rounds()
    ensures always { IsAlwaysSound }
    ensures ended { EndsWithTheLeast }
{}

/// The words and views of each board are under the rule. A new board is, and a claim, a report, a split and a join keep
/// it: whatever the order of the steps, it holds between any two, and then each of its sentences does.
///
/// Words and views of a board are at each moment a state of the round machine that events reach: a new board is the
/// starting state, a claim and a report are the events of these names, and a split and a join leave the state. A
/// number below the count that a seat drew and hasn't reported is the block that it holds, and a seat that drew a
/// number at or above the count is past.
pub fn law_of_boards()
    ensures rule { (t : Terms) (s : State (Unit {0}) View) → ⟦<Ruled as TableRule<(), View, Terms>>⟧.holds t s
        ↔ IsRuled t s.words s.views }
    ensures opened { OpensUnderTheRule }
    ensures claimed { ClaimKeepsTheRule }
    ensures reported { ReportKeepsTheRule }
    ensures parted { SplitKeepsTheRule }
    ensures joined { JoinKeepsTheRule }
    ensures sentences { RuleSays }
    ensures start { OpensAtTheStart }
    ensures claim { ClaimIsAnEvent }
    ensures report { ReportIsAnEvent }
    ensures split { SplitLeavesTheState }
    ensures join { JoinLeavesTheState }
    ensures actors { ActorsAreSeats }
{}
