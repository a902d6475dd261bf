//! Sums of words by their planes of bits, and at how many symbols words differ, for many words at once: 64 symbols of each, and
//! counts that grow from one part of the columns to the next. It knows words, but no information set and no plan of a search.
#![tactic(auto)]

mod adders;
mod counts;
mod halves;
mod planes;

pub use adders::sum_planes;
pub use counts::{add_ones, first_least, put_ones};
pub use halves::{Halves, add_halves, joined, nearest};
pub use planes::{add_apart, gather, pack};
