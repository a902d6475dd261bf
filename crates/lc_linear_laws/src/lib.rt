//! The laws of linear maps of words: the words that images of rows generate, words in two parts and the words of two lists of rows,
//! and sets of words over a field that are closed over a smaller one. They are the lemmas of `proofs/`, which the crates of codes that
//! are made of codes cite; the definitions are in `lc_algebra` and `lc_constructions`.
#![tactic(auto)]
