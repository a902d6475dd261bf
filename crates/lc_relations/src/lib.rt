//! What words and codes have to do with each other: syndromes, messages and codewords, sums of words and of codes, and whether one
//! code lies in another, is the same, lies in its dual or is closed under cyclic shifts.
#![tactic(auto)]

mod comparison;
mod encoding;
mod laws;
mod refusal;
mod structure;
mod sums;
mod syndromes;
mod words;

pub use comparison::{is_same_code, is_subcode, lies_in};
pub use encoding::{codeword_of, encode, message_of};
pub use laws::{
    distance_is_a_metric, encoding_is_one_to_one, sums_of_codes, syndromes_tell_cosets,
};
pub use refusal::{are_long, have_elements};
pub use structure::{is_cyclic, is_self_dual, is_self_orthogonal};
pub use sums::{augmented, union_of};
pub use syndromes::syndrome;
pub use words::{add_words, hamming_distance, scale_word};
