//! Calls and values of a script: the table of calls, what each takes, the values that names and arguments have, and calls that are
//! bound to their arguments.
#![tactic(auto)]

mod bound;
mod calls;
mod code_value;
mod kinds;
mod laws;
mod lists;
mod names;
mod queries;
mod refusals;
mod table;
mod values;

pub use bound::{Asks, BoundCall, BoundQuery, Means};
pub use calls::bind;
pub use code_value::CodeValue;
pub use kinds::misfit;
pub use laws::{misfits_are_arguments, names_after_an_assignment};
pub use lists::Listed;
pub use names::Names;
pub use queries::bind_query;
pub use refusals::{
    MISFIT, NO_DISTRIBUTION, NO_FORM, NO_RESIDUE_LENGTH, NOT_A_CODEWORD, NOT_A_FIELD,
    NOT_A_SUBCODE, NOT_ATTAINED, Refused, Stop, TOO_MANY_COSETS, TOO_MANY_WORDS, UNKNOWN_NAME,
    WRONG_COUNT, fault, refused_as,
};
pub use table::{Call, QueryCall, Row, row_named};
pub use values::{Binding, Value};
