//! The statement machine: it does the statements of a script one after another, and answers what each prints.
#![tactic(auto)]

mod apply;
mod construction;
mod cyclic;
mod decoding;
mod erasures;
mod evaluate;
mod form_certificates;
mod forms;
mod lines;
mod machine;
mod made;
mod nearest;
mod queries;
mod relations;
mod rows;
mod statement;
mod stock;
mod wide;

pub use lines::nearest_line;
pub use machine::{Machine, Query, QueryKind, Step};
