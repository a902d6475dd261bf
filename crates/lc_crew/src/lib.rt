//! One round of workers: so many blocks, each done once, by workers beside each other.
//!
//! What a block is and what it gives is a trait, `Blocks`. A block has a value, and a round gives the least of them; a
//! block also adds to counts that each worker keeps in its room, and after a round the rooms hold the sums. So a round
//! serves a search for a least word, where the value is a weight with a place, and a weight distribution, where the
//! counts are those of the weights.
//!
//! The workers draw the numbers of the blocks on a board of `lc_board` and report the values there. Each runs in a thread
//! of its own if one can be made; one worker starts none.
#![tactic(auto)]

mod blocks;
mod busy;
mod crew;
mod halves;
mod round;
mod worker;

pub use blocks::Blocks;
pub use crew::Crew;
pub use lc_board::{NoMemory, RoundResult};
pub use round::run_round;
pub use worker::{Round, work};
