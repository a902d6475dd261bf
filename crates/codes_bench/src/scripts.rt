//! Parsing two large scripts.

use crate::rate::{Failure, Rate};
use lc_parse::parse;
use std::alloc::{AllocError, AllocGlobal, Global};
use std::rt::Clock;
use std::time::Instant;

/// The statement that is repeated.
const STATEMENT: &[u8] = b"Weight([]);";

/// How often a script is read.
const PASSES: u64 = 10;

// As many statements as fit into 1,048,576 bytes.
fn weights(alloc: Global) -> Result<Vec<u8>, AllocError> {
    let mut bytes = Vec::with_capacity(alloc, 1_048_576)?;
    for _ in 0..95_325 {
        bytes.extend_from_slice(STATEMENT)?;
    }
    Ok(bytes)
}

// A list of 255 lists of 255 numbers, as a statement.
fn matrix(alloc: Global) -> Result<Vec<u8>, AllocError> {
    let mut bytes = Vec::new(alloc);
    for row in 0..255u64 {
        bytes.push(if row == 0 { b'[' } else { b',' })?;
        for column in 0..255u64 {
            bytes.push(if column == 0 { b'[' } else { b',' })?;
            bytes.push(b'0' + ((row + column) % 10) as u8)?;
        }
        bytes.push(b']')?;
    }
    bytes.extend_from_slice(b"];")?;
    Ok(bytes)
}

// The rate at which a script is parsed.
fn parse_rate<R: Clock + AllocGlobal>(rt: &R, bytes: &[u8]) -> Result<Rate, Failure> {
    let mut count: u64 = 0;
    let start = Instant::now(rt)?;
    for _ in 0..PASSES {
        let _script = parse(rt.alloc(), bytes)?;
        count = count.saturating_add(bytes.len() as u64);
    }
    Ok(Rate {
        count,
        what: "bytes",
        elapsed: start.elapsed(rt)?,
    })
}

/// The rate of `parse` for one statement that is repeated.
pub fn weights_rate<R: Clock + AllocGlobal>(rt: &R) -> Result<Rate, Failure> {
    let bytes = weights(rt.alloc())?;
    parse_rate(rt, &bytes)
}

/// The rate of `parse` for a large list of lists.
pub fn matrix_rate<R: Clock + AllocGlobal>(rt: &R) -> Result<Rate, Failure> {
    let bytes = matrix(rt.alloc())?;
    parse_rate(rt, &bytes)
}
