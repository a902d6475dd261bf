//! BCH codes, direct products and concatenated codes.

ghost use Rattle.std.specs.Prelude.{IfOk};
ghost use Rattle.lc_constructions.specs.Alternant.{IsFormOf};

use crate::rate::{Failure, Rate};
use crate::words::random_code;
use lc_code::{Code, FormedCode};
use lc_combine::{concatenated, direct_product};
use lc_cyclic::bch;
use lc_field::Field;
use std::alloc::{AllocGlobal, Global};
use std::rt::Clock;
use std::time::Instant;

/// How many codes are made.
const CODES: u64 = 40;

// The rate at which codes are made since `start`.
fn rate_since<R: Clock>(rt: &R, start: &Instant) -> Result<Rate, Failure> {
    Ok(Rate {
        count: CODES,
        what: "codes",
        elapsed: start.elapsed(rt)?,
    })
}

// The rate of `bch` over the field.
fn bch_over<R: Clock + AllocGlobal>(rt: &R, field: &Field, d: u64) -> Result<Rate, Failure> {
    let start = Instant::now(rt)?;
    for _ in 0..CODES {
        let _code = bch(rt.alloc(), 255, 1, d, field)?;
    }
    rate_since(rt, &start)
}

/// The rate of `bch` for length 255 and design distance `d` over the field of `q` elements, in codes.
pub fn bch_rate<R: Clock + AllocGlobal>(rt: &R, q: u64, d: u64) -> Result<Rate, Failure> {
    let field = Field::of(rt.alloc(), q)?;
    bch_over(rt, &field, d)
}

/// The BCH code over `q` elements of length `n` with design distance `d`, with its alternant form.
pub(crate) fn bch_code(alloc: Global, q: u64, n: u64, d: u64) -> Result<FormedCode, Failure>
    ensures formed { IfOk result (λ c. IsFormOf c.code c.form) }
{
    let field = Field::of(alloc, q)?;
    Ok(bch(alloc, n, 1, d, &field)?)
}

// The rate of `direct_product` for the code and itself.
fn product_of<R: Clock + AllocGlobal>(rt: &R, part: &Code) -> Result<Rate, Failure> {
    let start = Instant::now(rt)?;
    for _ in 0..CODES {
        let _code = direct_product(rt.alloc(), part, part)?;
    }
    rate_since(rt, &start)
}

/// The rate of `direct_product` for a pseudo-random binary code of length 15 and dimension 11 and itself, in codes.
pub fn product_rate<R: Clock + AllocGlobal>(rt: &R) -> Result<Rate, Failure> {
    let part = random_code(rt.alloc(), 2, 15, 11)?;
    product_of(rt, &part)
}

// The rate of `concatenated` for two codes.
fn concatenated_of<R: Clock + AllocGlobal>(
    rt: &R,
    outer: &Code,
    inner: &Code,
) -> Result<Rate, Failure> {
    let start = Instant::now(rt)?;
    for _ in 0..CODES {
        let _code = concatenated(rt.alloc(), outer, inner)?;
    }
    rate_since(rt, &start)
}

// The rate of `concatenated` for an outer code and a pseudo-random binary code of length 17 and dimension 4.
fn concatenated_with<R: Clock + AllocGlobal>(rt: &R, outer: &Code) -> Result<Rate, Failure> {
    let inner = random_code(rt.alloc(), 2, 17, 4)?;
    concatenated_of(rt, outer, &inner)
}

/// The rate of `concatenated` for the Reed-Solomon code of length 15 and dimension 11 and a binary code of length 17, in codes.
pub fn concatenated_rate<R: Clock + AllocGlobal>(rt: &R) -> Result<Rate, Failure> {
    let outer = bch_code(rt.alloc(), 16, 15, 5)?;
    concatenated_with(rt, &outer.code)
}
