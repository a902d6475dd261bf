//! Polynomials over the eighteen fields of `codes`: products, quotients and remainders, values, minimal polynomials and
//! cyclotomic sets.
#![tactic(auto)]

mod arithmetic;
mod cyclotomic;
mod divisors;
pub mod laws;
mod minimal_polynomial;
mod poly;

pub use arithmetic::value;
pub use cyclotomic::cyclotomic_set;
pub use divisors::{coefficient_count, divides_x_power_minus_one, trimmed};
pub use minimal_polynomial::minimal;
pub use poly::{Poly, x_power_minus_one};
