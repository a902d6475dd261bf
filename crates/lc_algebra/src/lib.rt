//! What `codes` means by a field, a word, the words of some rows, a minimum distance and a reduced
//! generator matrix. The definitions are in `specs/`. The laws that every crate above cites are in
//! `proofs/`, and are the contracts of the functions of `laws`.
#![tactic(auto)]

pub mod divisor_laws;
pub mod laws;
pub mod span_laws;

/// One of the eighteen fields of `codes`, by its number of elements.
///
/// An element of a field of p^s elements is a polynomial of degree below s over the field of p
/// elements, and is written as the number whose digits in base p are its coefficients, the constant
/// lowest. `specs/Field.antt` has the polynomial of each field and its chosen primitive element. (MacWilliams and Sloane, The Theory of Error-Correcting Codes, chapter 4.)
#[derive(Clone, Copy, Debug, PartialEq, Eq)]
pub enum FieldName {
    Gf2,
    Gf3,
    Gf4,
    Gf5,
    Gf7,
    Gf8,
    Gf9,
    Gf11,
    Gf13,
    Gf16,
    Gf25,
    Gf27,
    Gf32,
    Gf64,
    Gf81,
    Gf128,
    Gf243,
    Gf256,
}
