//! Construction X: a code that gets longer, by a tail for each coset of a subcode.
#![tactic(auto)]

mod construction;
mod laws;
mod refusal;
mod rows;

pub use construction::construction_x;
pub use laws::construction_x_extends;
pub use refusal::ExtensionRefusal;
