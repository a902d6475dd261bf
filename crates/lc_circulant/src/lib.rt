//! Codes by circulant matrices side by side: the cyclic shift of all parts of a word at once is a word again.
#![tactic(auto)]

mod circulants;
mod laws;
mod refusal;

pub use circulants::{circulant, quasi_cyclic};
pub use laws::circulants_shift;
