//! Worked searches and sessions of the Golay codes, and a weight by bit planes: theorems of `proofs/`, by evaluation of the
//! definitions of `lc_enumeration` and `lc_algebra`. No crate waits for them.
#![tactic(auto)]
