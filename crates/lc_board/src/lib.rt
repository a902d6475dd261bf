//! The one object that the workers of a round share: numbers that they draw, each once, and the least value that they
//! report.
//!
//! A `Board` has four words: a counter, the best value, the first value and the count. A thread acts through a
//! `BoardSeat`, which it can't copy. `open` gives the root's seat, and `split` makes others from it, up to 256 in all.
//! `claim` is a fetch-add on the counter and `report` a fetch-min on the best value: no lock, no memory, no waiting. `close` takes the board apart with all its seats and gives a `RoundResult`, which nothing
//! else makes.
//!
//! What is proved, whatever the order of the steps of all seats:
//!
//! - Between any two steps the rule holds (`specs/Board.antt`, and sentence by sentence `specs/Sentences.antt`): each
//!   number below the counter was drawn by exactly one seat, a seat reports a number that it drew, once, and the best
//!   value is the least of the first one and all that were reported. The counter is at most 256 above the count.
//! - Words and views are a state of the round machine that events reach (`specs/Machine.antt`): a claim and a report are
//!   the events of these names, a split and a join leave the state. `law_of_boards` carries both.
//! - `RoundState` is that machine, one event a step. `law_of_rounds` says what holds after every list of events, kills
//!   and resumptions included.
//!
//! What is not said: that `claim` and `report` are one step each and that none is tried again, which the code shows and
//! no clause counts; that two threads ran at the same time, that each seat gets its share, that anything is fast, and any
//! order between threads but that of the steps. A seat that is dropped makes `close` impossible, and no clause says that a
//! seat comes back.
#![tactic(auto)]

mod board;
mod laws;
mod memory;
mod round;
mod rule;
mod views;

pub use board::{Board, BoardSeat, RoundResult};
pub use laws::{law_of_boards, law_of_rounds};
pub use memory::NoMemory;
pub use round::{Event, RoundState};
