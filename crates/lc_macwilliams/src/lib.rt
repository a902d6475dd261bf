//! The laws of weight distributions: how the weights of a code determine those of its dual (MacWilliams and Sloane,
//! chapter 5), the weight distribution of a code from that of its dual, and of which codes it isn't computed.
#![tactic(auto)]

pub mod laws;
mod refusals;
mod solve;

pub use refusals::{DistributionRefusal, has_many_words, refusal};
pub use solve::from_dual;
