//! Coset leaders, nearest words by them, and the algebraic decoder.

ghost use Rattle.std.specs.Prelude.{◌≡◌, ◌<◌, length};
ghost use Rattle.lc_algebra.specs.Word.{Fits, IsWord};
ghost use Rattle.lc_algebra.specs.Matrix.{AreRows};
ghost use Rattle.lc_constructions.specs.Alternant.{IsFormOf};

use crate::codes::bch_code;
use crate::rate::{Failure, Rate};
use crate::words::{random_code, rows};
use lc_alternant::decode;
use lc_code::{Code, FormedCode};
use lc_syndrome::Leaders;
use lc_vec::{Word, fits};
use std::alloc::{AllocError, AllocGlobal, Global};
use std::rt::Clock;
use std::time::Instant;

/// How often the leaders are found.
const BUILDS: u64 = 4;

/// How many received words there are.
const RECEIVED: usize = 16;

/// How often each is decoded by coset leaders.
const PASSES: u64 = 20_000;

/// How many words are decoded by the algebraic decoder.
const DECODED: usize = 2_000;

// The rate of `Leaders::build` for a code with 2^20 cosets.
fn leaders_by<R: Clock + AllocGlobal>(rt: &R, code: &Code) -> Result<Rate, Failure> {
    let start = Instant::now(rt)?;
    for _ in 0..BUILDS {
        let _leaders = Leaders::build(rt.alloc(), code)?;
    }
    Ok(Rate {
        count: BUILDS * (1 << 20),
        what: "cosets",
        elapsed: start.elapsed(rt)?,
    })
}

/// The rate of `Leaders::build` for a binary code of length 255 with 2^20 cosets, in cosets.
pub fn leaders_rate<R: Clock + AllocGlobal>(rt: &R) -> Result<Rate, Failure> {
    let code = random_code(rt.alloc(), 2, 255, 235)?;
    leaders_by(rt, &code)
}

// The coset leaders of that code.
fn leaders_of(alloc: Global) -> Result<Leaders, Failure> {
    let code = random_code(alloc, 2, 255, 235)?;
    Ok(Leaders::build(alloc, &code)?)
}

// Decodes each of the words again and again.
fn decode_often(leaders: &Leaders, words: &[Word], out: &mut [u8])
    requires words { AreRows leaders.now.field leaders.now.columns words.now }
    requires length { length out.old ≡ leaders.now.columns }
{
    for _ in 0..PASSES {
        for word in words {
            leaders.nearest(word.symbols(), out);
        }
    }
}

// The rate of `Leaders::nearest` for these words.
fn nearest_of<R: Clock + AllocGlobal>(
    rt: &R,
    leaders: &Leaders,
    words: &[Word],
) -> Result<Rate, Failure>
    requires words { AreRows leaders.now.field leaders.now.columns words.now }
{
    let mut out = vec![in rt.alloc(); 0u8; leaders.code().length()]?;
    let start = Instant::now(rt)?;
    decode_often(leaders, words, &mut out);
    Ok(Rate {
        count: PASSES.saturating_mul(words.len() as u64),
        what: "words",
        elapsed: start.elapsed(rt)?,
    })
}

// The same for pseudo-random words.
fn nearest_by<R: Clock + AllocGlobal>(rt: &R, leaders: &Leaders) -> Result<Rate, Failure> {
    let code = leaders.code();
    let words = rows(rt.alloc(), code.field(), code.length(), RECEIVED)?;
    nearest_of(rt, leaders, &words)
}

/// The rate of `Leaders::nearest` for pseudo-random words and a binary code of length 255 with 2^20 cosets, in words.
pub fn nearest_rate<R: Clock + AllocGlobal>(rt: &R) -> Result<Rate, Failure> {
    let leaders = leaders_of(rt.alloc())?;
    nearest_by(rt, &leaders)
}

// A word of length `n` that is 1 at every coordinate which, with `first` added, is a multiple of `step`, and else 0.
fn received(alloc: Global, n: usize, step: usize, first: usize) -> Result<Vec<u8>, AllocError>
    requires step { 0 < step }
{
    let mut symbols = Vec::new(alloc);
    for place in 0..n {
        let ahead = place.saturating_add(first);
        symbols.push(u8::from(ahead % step == 0))?;
    }
    Ok(symbols)
}

// Whether the word is decoded.
fn is_decoded(alloc: Global, formed: &FormedCode, word: &[u8]) -> Result<bool, Failure>
    requires formed { IsFormOf formed.now.code formed.now.form }
{
    let code = &formed.code;
    if word.len() != code.length() || !fits(code.field(), word) {
        return Err(Failure::Refused);
    }
    Ok(decode(alloc, code, &formed.form, word)?.is_some())
}

// The rate of `decode` for words with an error at each of the multiples of `step`.
fn decode_with<R: Clock + AllocGlobal>(
    rt: &R,
    formed: &FormedCode,
    step: usize,
) -> Result<Rate, Failure>
    requires formed { IsFormOf formed.now.code formed.now.form }
    requires step { 0 < step }
{
    let start = Instant::now(rt)?;
    for first in 0..DECODED {
        let word = received(rt.alloc(), formed.code.length(), step, first)?;
        if !is_decoded(rt.alloc(), formed, &word)? {
            return Err(Failure::Refused);
        }
    }
    Ok(Rate {
        count: DECODED as u64,
        what: "words",
        elapsed: start.elapsed(rt)?,
    })
}

/// The rate of `decode` for the BCH code over `q` elements of length `n` with design distance `d`, in words with as many
/// errors as it corrects.
pub fn decode_rate<R: Clock + AllocGlobal>(
    rt: &R,
    q: u64,
    n: u64,
    d: u64,
) -> Result<Rate, Failure> {
    if d < 3 || n > 255 || n < d {
        return Err(Failure::Refused);
    }
    let formed = bch_code(rt.alloc(), q, n, d)?;
    let errors = (d - 1) / 2;
    decode_with(rt, &formed, n.div_ceil(errors) as usize)
}
