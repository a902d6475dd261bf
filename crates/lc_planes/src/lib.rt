//! Words as planes of bits, 64 symbols at a time. Over the fields of 2, 4, 8 and 16 elements a sum is an exclusive or, and a weight a
//! count of ones; over every field two words differ at a symbol where one of their planes does. It knows words, but no information
//! set and no plan of a search.
#![tactic(auto)]

mod block;
mod packing;
mod planes;

pub use block::plane_of;
pub use packing::{pack, pack_words, places_apart};
pub use planes::Planes;
