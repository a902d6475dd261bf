//! Pseudo-random numbers, words and codes.

ghost use Rattle.std.specs.Prelude.{◌≡◌, ◌<◌, ◌≤◌, length, IfOk};
ghost use Rattle.lc_algebra.specs.Field.{size};
ghost use Rattle.lc_algebra.specs.Word.{Fits, IsWord};
ghost use Rattle.lc_algebra.specs.Matrix.{AreRows};

use crate::rate::Failure;
use lc_code::Code;
use lc_field::Field;
use lc_vec::Word;
use std::alloc::{AllocError, Global};

/// Steps a generator of pseudo-random numbers, and answers its new state.
pub(crate) fn step(state: &mut u64) -> u64 {
    *state = state
        .wrapping_mul(6_364_136_223_846_793_005)
        .wrapping_add(1_442_695_040_888_963_407);
    *state
}

// A pseudo-random symbol of the field.
fn symbol(field: &Field, state: &mut u64) -> u8
    ensures element { result < size field.now }
{
    ((step(state) >> 33) % u64::from(field.size())) as u8
}

/// `n` pseudo-random symbols of the field, from a generator that goes on from `state`.
pub(crate) fn symbols(
    alloc: Global,
    field: &Field,
    n: usize,
    state: &mut u64,
) -> Result<Vec<u8>, AllocError>
    ensures word { IfOk result (λ symbols. IsWord field.now n symbols.items) }
{
    let mut symbols = Vec::new(alloc);
    for place in 0..n {
        symbols.push(symbol(field, state))?;
    }
    Ok(symbols)
}

// A pseudo-random word of length `n`.
fn row(alloc: Global, field: &Field, n: usize, state: &mut u64) -> Result<Word, AllocError>
    ensures word { IfOk result (λ row. IsWord field.now n row) }
{
    Ok(Word::from_vec(symbols(alloc, field, n, state)?))
}

/// Pseudo-random rows: `k` words of length `n`.
pub(crate) fn rows(alloc: Global, field: &Field, n: usize, k: usize) -> Result<Vec<Word>, Failure>
    ensures words { IfOk result (λ rows. AreRows field.now n rows.items) }
{
    let mut state = 1;
    let mut rows = Vec::new(alloc);
    for _ in 0..k {
        if rows.push(row(alloc, field, n, &mut state)?).is_err() {
            return Err(Failure::NoMemory);
        }
    }
    Ok(rows)
}

// The code of `k` pseudo-random rows of length `n` over the field.
fn code_over(alloc: Global, field: &Field, n: usize, k: usize) -> Result<Code, Failure> {
    if !field.is_symbol() || n == 0 || n > 255 {
        return Err(Failure::Refused);
    }
    let rows = rows(alloc, field, n, k)?;
    Ok(Code::from_rows(alloc, field, n, &rows)?)
}

/// The code of `k` pseudo-random rows of length `n` over the field of `q` elements.
pub(crate) fn random_code(alloc: Global, q: u64, n: usize, k: usize) -> Result<Code, Failure> {
    let field = Field::of(alloc, q)?;
    code_over(alloc, &field, n, k)
}
