//! Codes by their constructors, with their lengths and dimensions.
use lc_basic::{
    check_mat, generator_mat, hamming, null_code, reed_muller, repetition, whole_space,
};
use lc_circulant::{circulant, quasi_cyclic};
use lc_code::{Code, CodeRefusal, FormedCode};
use lc_cyclic::{bch, binary_golay, check_pol, generator_pol, reed_solomon, ternary_golay};
use lc_field::{Field, NoMemory};
use lc_goppa::{alternant, goppa};
use std::alloc::Global;
use test_rows::{Rows, has_rows, words_of};

/// A constructor with its arguments, but for the field.
pub enum Made {
    /// The Hamming code with so many checks.
    Hamming(u64),
    /// The repetition code of a length.
    Repetition(u64),
    /// The whole space of a length.
    Whole(u64),
    /// The null code of a length.
    Null(u64),
    /// The binary Reed-Muller code of an order and a number of variables.
    ReedMuller(u64, u64),
    /// The code that a matrix generates.
    Generated(Rows),
    /// The code that a matrix checks.
    Checked(Rows),
    /// The cyclic code of a length that a polynomial generates.
    Cyclic(u64, &'static [u8]),
    /// The cyclic code of a length that a polynomial checks.
    CyclicChecked(u64, &'static [u8]),
    /// The binary Golay code.
    BinaryGolay,
    /// The ternary Golay code.
    TernaryGolay,
    /// The BCH code of a length, a first exponent and a design distance.
    Bch(u64, u64, u64),
    /// The Reed-Solomon code of a length and a design distance.
    ReedSolomon(u64, u64),
    /// The Goppa code of a polynomial and points in the field of 8 elements.
    Goppa(&'static [u8], &'static [u8]),
    /// The alternant code with so many checks, some points and multipliers 1.
    Alternant(u64, &'static [u8]),
    /// The circulant code of a word and a length.
    Circulant(&'static [u8], u64),
    /// The quasi-cyclic code of some words and a length.
    QuasiCyclic(Rows, u64),
}

// The code of a form, or why there is none.
fn unformed(formed: Result<FormedCode, CodeRefusal>) -> Result<Code, CodeRefusal> {
    let formed = formed?;
    Ok(formed.code)
}

// A code that only memory can fail.
fn golay(code: Result<Code, NoMemory>) -> Result<Code, CodeRefusal> {
    Ok(code?)
}

fn generated(alloc: Global, rows: Rows, field: &Field) -> Result<Code, CodeRefusal> {
    let words = words_of(alloc, rows)?;
    generator_mat(alloc, &words, field)
}

fn checked(alloc: Global, rows: Rows, field: &Field) -> Result<Code, CodeRefusal> {
    let words = words_of(alloc, rows)?;
    check_mat(alloc, &words, field)
}

fn goppa_code(
    alloc: Global,
    list: &[u8],
    points: &[u8],
    field: &Field,
) -> Result<FormedCode, CodeRefusal> {
    match Field::of(alloc, 8) {
        Ok(locator) => goppa(alloc, list, points, &locator, field),
        Err(_) => Err(CodeRefusal::NoMemory),
    }
}

fn quasi_cyclic_code(
    alloc: Global,
    rows: Rows,
    n: u64,
    field: &Field,
) -> Result<Code, CodeRefusal> {
    let words = words_of(alloc, rows)?;
    quasi_cyclic(alloc, &words, n, field)
}

// The code over a field, or why there is none.
fn made_in(alloc: Global, field: &Field, made: &Made) -> Result<Code, CodeRefusal> {
    match made {
        Made::Hamming(r) => hamming(alloc, *r, field),
        Made::Repetition(n) => repetition(alloc, *n, field),
        Made::Whole(n) => whole_space(alloc, *n, field),
        Made::Null(n) => null_code(alloc, *n, field),
        Made::ReedMuller(r, m) => reed_muller(alloc, *r, *m),
        Made::Generated(rows) => generated(alloc, rows, field),
        Made::Checked(rows) => checked(alloc, rows, field),
        Made::Cyclic(n, list) => generator_pol(alloc, list, *n, field),
        Made::CyclicChecked(n, list) => check_pol(alloc, list, *n, field),
        Made::BinaryGolay => golay(binary_golay(alloc)),
        Made::TernaryGolay => golay(ternary_golay(alloc)),
        Made::Bch(n, b, d) => unformed(bch(alloc, *n, *b, *d, field)),
        Made::ReedSolomon(n, d) => unformed(reed_solomon(alloc, *n, *d)),
        Made::Goppa(list, points) => unformed(goppa_code(alloc, list, points, field)),
        Made::Alternant(r, points) => {
            unformed(alternant(alloc, *r, points, &[1; 5], field, field))
        }
        Made::Circulant(word, n) => circulant(alloc, word, *n, field),
        Made::QuasiCyclic(rows, n) => quasi_cyclic_code(alloc, rows, *n, field),
    }
}

/// The code over q elements, or why there is none. Refused with `NoMemory` too if there is no field of q elements.
pub fn made_over(alloc: Global, q: u64, made: &Made) -> Result<Code, CodeRefusal> {
    match Field::of(alloc, q) {
        Ok(field) => made_in(alloc, &field, made),
        Err(_) => Err(CodeRefusal::NoMemory),
    }
}

/// The dual of a code, or why there is no code.
pub fn dual(alloc: Global, code: Result<Code, CodeRefusal>) -> Result<Code, CodeRefusal> {
    let code = code?;
    Ok(code.dual(alloc)?)
}

/// A length and a dimension, or why there is no code.
pub type Shape = Result<(usize, usize), CodeRefusal>;

/// The length and the dimension of a code, or why there is none.
pub fn shape(code: Result<Code, CodeRefusal>) -> Shape {
    let code = code?;
    Ok((code.length(), code.dimension()))
}

/// Whether the codes over fields of these sizes have these lengths and dimensions, or are refused so.
pub fn have_shapes(alloc: Global, rows: &[(u64, Made, Shape)]) -> bool {
    for row in rows {
        if shape(made_over(alloc, row.0, &row.1)) != row.2 {
            return false;
        }
    }
    true
}

/// Whether there is a code, and these are its rows.
pub fn is_code(code: Result<Code, CodeRefusal>, rows: Rows) -> bool {
    match code {
        Ok(code) => has_rows(&code, rows),
        Err(_refusal) => false,
    }
}

/// The same of a code that only memory can fail.
pub fn is_made(code: Result<Code, NoMemory>, rows: Rows) -> bool {
    match code {
        Ok(code) => has_rows(&code, rows),
        Err(NoMemory) => false,
    }
}
