//! The laws of the search for a word of a code that is nearest to a given word, by error patterns on the information
//! sets. The definitions are in `lc_enumeration`; the laws are the contracts of the functions of `laws`.
#![tactic(auto)]

pub mod laws;
