//! Matrices over a field: reduced forms, kernels, linear systems, spans, and what divides all weights.
#![tactic(auto)]

mod divisor;
mod forms;
mod kernel;
mod laws;
mod matrix;
mod reduce;
mod solve;

pub use laws::rank_of_kernel;
pub use matrix::Matrix;
