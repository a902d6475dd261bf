//! Codes made from codes: extended, punctured and shortened codes, words of even weight, direct sums, (u | u + v), direct products,
//! intersections and concatenated codes.
#![tactic(auto)]

mod concatenation;
mod deleted;
mod extended_codes;
mod laws;
mod products;
mod refusal;
mod subcodes;
mod sums;

pub use concatenation::concatenated;
pub use deleted::{punctured, shortened};
pub use extended_codes::extended;
pub use laws::{
    combined_codes_are_heavy, dimensions_of_changed_codes, dimensions_of_products,
    dimensions_of_sums, dual_of_an_extended_code, shortening_is_dual_to_puncturing,
};
pub use products::direct_product;
pub use subcodes::{even_weight, intersection};
pub use sums::{direct_sum, uuv};
