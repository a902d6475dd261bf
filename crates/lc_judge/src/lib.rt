//! What `check` says of bytes: whether they are a certificate, of either version, that proves its distance.
#![tactic(auto)]

mod judging;

pub use judging::{Judged, judge};
