//! Certificates of a minimum distance: their types, how bytes are read as one, and how one is written.
#![tactic(auto)]

mod certificate;
mod claims;
mod reading;
mod refusal;
mod rows;
mod sets;
mod tree_writing;
mod writing;

pub use certificate::{Certificate, Proof, SetClaim, name_of, size_of};
pub use claims::{Built, Claim, Document, PairKind, PlaceKind};
pub use reading::{
    certificate_from, distance_at, field_at, is_beyond_limit, key_count, parse, parts_of,
    symbol_field,
};
pub use refusal::CertRefusal;
pub use sets::are_set_keys;
pub use tree_writing::write_built;
pub use writing::write;
