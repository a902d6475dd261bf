//! The eighteen fields of `codes`: sums, products, powers, inverses and embeddings of their elements, by tables that are
//! made once for each field.
#![tactic(auto)]

mod digits;
mod field;
mod logarithms;
mod pairs;
mod refusal;
mod roots;
mod row;

pub use field::Field;
pub use refusal::{FieldRefusal, NoMemory};
