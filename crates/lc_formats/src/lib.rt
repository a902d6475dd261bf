//! What `codes` means by a certificate and by a checkpoint: when one is valid or true, how it is
//! written, and how bytes are read as one. The definitions are in `specs/`, and their laws are the
//! contracts of the functions of `laws`.
#![tactic(auto)]

pub mod laws;
