//! The algebraic decoder of codes with an alternant form: BCH, Reed-Solomon, Goppa and alternant codes.
//!
//! The syndromes of a received word are the sums of the products of its symbols with the entries of the check rows. If it differs
//! from a word of the code in at most t symbols, a polynomial of degree at most t for which 2 t syndromes recur is 0 at the point of
//! each error: that is the key equation, a linear system (MacWilliams and Sloane, The Theory of Error-Correcting Codes,
//! chapter 12). So the errors are among at most t coordinates, t checks determine them there, and the received word less the errors
//! is tested before it is answered.
#![tactic(auto)]

mod checks;
mod decoder;
mod errors;
mod key;

pub use decoder::decode;
