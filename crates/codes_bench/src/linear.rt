//! Sums of words, reduced echelon forms and information sets.

ghost use Rattle.std.specs.Prelude.{◌≡◌, ◌<◌, ◌≤◌, length, IfOk};
ghost use Rattle.lc_algebra.specs.Word.{Fits, IsWord};
ghost use Rattle.lc_algebra.specs.Matrix.{AreRows};

use crate::rate::{Failure, Rate};
use crate::words::{random_code, rows, symbols};
use lc_code::Code;
use lc_field::Field;
use lc_infoset::Sets;
use lc_matrix::Matrix;
use lc_vec::add_scaled;
use std::alloc::{AllocGlobal, Global};
use std::rt::Clock;
use std::time::Instant;

/// The length of the words.
const LENGTH: usize = 255;

/// How many rows the matrix has.
const ROWS: usize = 128;

/// How many multiples are added.
const SUMS: u64 = 400_000;

/// How many echelon forms are made.
const FORMS: u64 = 40;

/// How often the information sets are built.
const BUILDS: u64 = 40;

// Adds multiples of a word to another, again and again.
fn add_often(field: &Field, to: &mut [u8], from: &[u8])
    requires to { IsWord field.now LENGTH to.old }
    requires from { IsWord field.now LENGTH from.now }
{
    for _ in 0..SUMS {
        add_scaled(field, to, from, field.primitive());
    }
}

// The rate of `add_scaled` for a word, added to another.
fn add_scaled_from<R: Clock + AllocGlobal>(
    rt: &R,
    field: &Field,
    from: &[u8],
    state: &mut u64,
) -> Result<Rate, Failure>
    requires from { IsWord field.now LENGTH from.now }
{
    let mut to = symbols(rt.alloc(), field, LENGTH, state)?;
    let start = Instant::now(rt)?;
    add_often(field, &mut to, from);
    Ok(Rate {
        count: SUMS * LENGTH as u64,
        what: "symbols",
        elapsed: start.elapsed(rt)?,
    })
}

// The rate of `add_scaled` over the field.
fn add_scaled_over<R: Clock + AllocGlobal>(rt: &R, field: &Field) -> Result<Rate, Failure> {
    let mut state = 1;
    let from = symbols(rt.alloc(), field, LENGTH, &mut state)?;
    add_scaled_from(rt, field, &from, &mut state)
}

/// The rate of `add_scaled` over the field of `q` elements.
pub fn add_scaled_rate<R: Clock + AllocGlobal>(rt: &R, q: u64) -> Result<Rate, Failure> {
    let field = Field::of(rt.alloc(), q)?;
    add_scaled_over(rt, &field)
}

// The matrix of pseudo-random rows over the field.
fn matrix_over(alloc: Global, field: &Field) -> Result<Matrix, Failure> {
    let rows = rows(alloc, field, LENGTH, ROWS)?;
    Ok(Matrix::from_rows(alloc, field, LENGTH, &rows)?)
}

// The same over the field of `q` elements.
fn matrix(alloc: Global, q: u64) -> Result<Matrix, Failure> {
    let field = Field::of(alloc, q)?;
    matrix_over(alloc, &field)
}

/// The rate of `Matrix::echelon` over the field of `q` elements, in rows of the matrix.
pub fn echelon_rate<R: Clock + AllocGlobal>(rt: &R, q: u64) -> Result<Rate, Failure> {
    let matrix = matrix(rt.alloc(), q)?;
    let start = Instant::now(rt)?;
    for _ in 0..FORMS {
        let _form = matrix.echelon(rt.alloc())?;
    }
    Ok(Rate {
        count: FORMS * ROWS as u64,
        what: "rows",
        elapsed: start.elapsed(rt)?,
    })
}

/// The information sets of a code of dimension at least 1.
#[tactic(auto, using(lc_algebra::proofs::ReducedLaws::reduced_independent))]
pub(crate) fn sets_of(alloc: Global, code: &Code) -> Result<Sets, Failure> {
    let _symbol = code.field();
    let _long = code.length();
    if code.dimension() == 0 {
        return Err(Failure::Refused);
    }
    Ok(Sets::build(alloc, code.matrix())?)
}

// The rate of `Sets::build` for the code.
fn infosets_of<R: Clock + AllocGlobal>(rt: &R, code: &Code) -> Result<Rate, Failure> {
    let start = Instant::now(rt)?;
    for _ in 0..BUILDS {
        let _sets = sets_of(rt.alloc(), code)?;
    }
    Ok(Rate {
        count: BUILDS,
        what: "codes",
        elapsed: start.elapsed(rt)?,
    })
}

/// The rate of `Sets::build` over the field of `q` elements, in codes.
pub fn infosets_rate<R: Clock + AllocGlobal>(rt: &R, q: u64) -> Result<Rate, Failure> {
    let code = random_code(rt.alloc(), q, LENGTH, ROWS)?;
    infosets_of(rt, &code)
}
