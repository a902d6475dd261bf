//! What joined parts are for: the checkpoint of their state is true, and a session of `resume` from it prints the text of the script.
#![tactic(auto)]

pub mod laws;
