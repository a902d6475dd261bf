//! The plain families of linear codes: codes by a generator or a check matrix, repetition codes, the whole space, the null code,
//! Hamming codes and Reed-Muller codes.
#![tactic(auto)]

mod dimensions;
mod hamming_codes;
mod matrices;
mod reed_muller_codes;
mod refusal;
mod trivial;

pub use dimensions::{
    dimension_of_hamming_codes, dimension_of_reed_muller_codes, dimensions_of_trivial_codes,
};
pub use hamming_codes::hamming;
pub use matrices::{check_mat, generator_mat};
pub use reed_muller_codes::reed_muller;
pub use refusal::check_length;
pub use trivial::{null_code, repetition, whole_space};
