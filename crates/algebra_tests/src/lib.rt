//! Tests of the crates of fields, words, matrices and polynomials, of codes, of their constructors and of what makes codes of codes,
//! and of the decoders, by values from outside. They stand here so that no crate is proved twice, once with its tests.
#![tactic(auto)]

#[cfg(test)]
mod codes;
#[cfg(test)]
mod combined;
#[cfg(test)]
mod decoding;
#[cfg(test)]
mod families;
#[cfg(test)]
mod fields;
#[cfg(test)]
mod forms;
#[cfg(test)]
mod leaders;
#[cfg(test)]
mod matrices;
#[cfg(test)]
mod planes;
#[cfg(test)]
mod polynomials;
#[cfg(test)]
mod quadratic_residues;
#[cfg(test)]
mod relations;
#[cfg(test)]
mod residuals;
#[cfg(test)]
mod shapes;
#[cfg(test)]
mod shifts;
#[cfg(test)]
mod words;
