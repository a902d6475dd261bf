//! Pieces of JSON: reads the numbers, lists and texts of a value by the definitions of `lc_formats`, and writes numbers and
//! lists compactly.
#![tactic(auto)]

mod reading;
mod writing;

pub use reading::{array_at, has_keys, is_same, list_at, number_at, numbers_of, read, text_at};
pub use writing::{push_list, push_number, push_symbols, push_text};
