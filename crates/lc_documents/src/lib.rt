//! Certificates of either version: how bytes are read as one.
#![tactic(auto)]

mod claims;
mod closing;
mod kinds;
mod leaves;
mod limits;
mod lists;
mod reading;

pub use reading::parse_document;
