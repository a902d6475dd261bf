//! Trace codes and subfield subcodes.
#![tactic(auto)]

mod laws;
mod refusal;
mod subfield;
mod trace;

pub use laws::{subfield_subcodes_are_dual_to_traces, traces_are_linear_and_onto};
pub use subfield::subfield_subcode;
pub use trace::trace_code;
