//! Weight distributions of codes over each field, at lengths around the borders of parts of 64 columns and at dimensions around
//! those at which heads begin, counted by one worker and by four, against a plain count; and those of codes of the literature,
//! counted and found from those of their duals.
ghost use Rattle.std.specs.Prelude.{◌<◌, ◌≤◌, length};
ghost use Rattle.lc_constructions.specs.Code.{IsCode};
ghost use Rattle.lc_constructions.specs.Combined.{InDual};
ghost use Rattle.lc_macwilliams.specs.Solving.{IsDualDistribution};

use crate::plain::{Sums, add_row, negative, sums_over, weight_of};
use crate::shapes::{Columns, Shape, shaped};
use lc_code::Code;
use lc_macwilliams::{from_dual, has_many_words, refusal};
use lc_weights::{count_words, distribution};
use std::alloc::Global;
use std::thread::Threads;
use test_rows::generated_by;

// The lengths that are looked at.
static LENGTHS: [usize; 10] = [63, 64, 65, 127, 128, 129, 191, 192, 193, 255];

// The lengths over more than 2 elements, of codes without heads and with heads.
static FEWER_LENGTHS: [usize; 4] = [63, 65, 129, 255];

static FEWEST_LENGTHS: [usize; 2] = [64, 193];

// The dimensions over 2 elements that are looked at together.
static BINARY: [usize; 6] = [1, 2, 11, 12, 13, 16];

// The other fields, and for each a dimension at which the zero word is the only head, and one at which there are more.
static OTHERS: [(u64, usize, usize); 9] = [
    (3, 7, 9),
    (4, 6, 7),
    (5, 5, 6),
    (7, 4, 5),
    (8, 4, 5),
    (9, 3, 4),
    (11, 3, 4),
    (13, 3, 4),
    (16, 3, 4),
];

// Adds a multiple of row i to a word.
fn add_multiple(code: &Code, sums: &Sums, i: usize, c: u8, word: &mut [u8])
    requires row { i < length code.now.rows }
{
    if c != 0 {
        add_row(&sums[(c % 16) as usize], code.row(i), word);
    }
}

// Goes on to the next message, whose first coefficient changes most often, and from its word to that of the next one. After the
// last message it is at the first one again, and false.
fn step(code: &Code, sums: &Sums, message: &mut [u8], word: &mut [u8]) -> bool {
    let q = code.field().size();
    for i in 0..code.dimension().min(message.len()) {
        let old = message[i];
        let next = ((u16::from(old) + 1) % q) as u8;
        add_multiple(code, sums, i, negative(sums, old), word);
        add_multiple(code, sums, i, next, word);
        message[i] = next;
        if next != 0 {
            return true;
        }
    }
    false
}

// Adds to each count how many words have its index as their weight, word by word.
fn add_plainly(code: &Code, sums: &Sums, message: &mut [u8], word: &mut [u8], counts: &mut [u64]) {
    for _message in 0..1u64 << 24 {
        let weight = weight_of(word) as usize;
        if weight < counts.len() {
            counts[weight] = counts[weight].saturating_add(1);
        }
        if !step(code, sums, message, word) {
            return;
        }
    }
}

// How many words of each weight a code of length 255 at most and dimension 16 at most has, at their weights.
fn plain_counts(code: &Code) -> [u64; 256] {
    let mut counts = [0; 256];
    let mut message = [0; 16];
    let mut word = [0; 255];
    let (k, n) = (code.dimension().min(16), code.length().min(255));
    let sums = sums_over(code.field());
    add_plainly(code, &sums, &mut message[..k], &mut word[..n], &mut counts);
    counts
}

// Whether so many workers count this.
fn workers_count<R: Threads + Sync>(
    rt: &R,
    alloc: Global,
    code: &Code,
    workers: u32,
    wanted: &[u64],
) -> bool
    requires workers { (1 ≤ workers) × (workers ≤ 256) }
{
    let None = refusal(code) else {
        return false;
    };
    match distribution(rt, alloc, code, workers) {
        Ok(counts) => {
            counts.len() == code.length().saturating_add(1)
                && wanted.get(..counts.len()) == Some(counts.as_slice())
        }
        Err(_) => false,
    }
}

// Whether one worker and four count what a plain count of a code finds.
fn counts_agree<R: Threads + Sync>(rt: &R, alloc: Global, code: &Code) -> bool {
    let wanted = plain_counts(code);
    workers_count(rt, alloc, code, 1, &wanted) && workers_count(rt, alloc, code, 4, &wanted)
}

// Whether this is so of codes of each of these lengths.
fn lengths_agree<R: Threads + Sync>(
    rt: &R,
    alloc: Global,
    q: u64,
    dimension: usize,
    lengths: &[usize],
) -> bool {
    for length in lengths {
        let shape = Shape {
            length: *length,
            dimension,
            columns: Columns::Dense,
        };
        let Ok(code) = shaped(alloc, q, &shape) else {
            return false;
        };
        if !counts_agree(rt, alloc, &code) {
            return false;
        }
    }
    true
}

#[test]
fn binary_codes_are_counted(rt: HostRuntime) {
    for dimension in &BINARY {
        assert!(rt;
            lengths_agree(&rt, rt.alloc(), 2, *dimension, &LENGTHS),
            "{dimension}"
        );
    }
}

#[test]
fn codes_without_heads_and_with_heads_are_counted(rt: HostRuntime) {
    for row in &OTHERS {
        assert!(rt;
            lengths_agree(&rt, rt.alloc(), row.0, row.1, &FEWER_LENGTHS),
            "{}",
            row.0
        );
        assert!(rt;
            lengths_agree(&rt, rt.alloc(), row.0, row.2, &FEWEST_LENGTHS),
            "{}",
            row.0
        );
    }
}

// The length and the rows of a binary code, its weight distribution, and that of its dual.
type Known = (usize, &'static str, &'static [u64], &'static [u64]);

// The Hamming code and the simplex code, the repetition code and the even words, and the extended Hamming code, which is its own dual
// (MacWilliams and Sloane, chapters 1 and 5).
static KNOWN: [Known; 3] = [
    (
        7,
        "1000011 0100101 0010110 0001111",
        &[1, 0, 0, 7, 7, 0, 0, 1],
        &[1, 0, 0, 0, 7, 0, 0, 0],
    ),
    (5, "11111", &[1, 0, 0, 0, 0, 1], &[1, 0, 10, 0, 5, 0]),
    (
        8,
        "10000111 01001011 00101101 00011110",
        &[1, 0, 0, 0, 14, 0, 0, 0, 1],
        &[1, 0, 0, 0, 14, 0, 0, 0, 1],
    ),
];

// Whether these are the counts of the dual's words, and those of the words of the code are found from them. The code is a short
// binary one.
fn are_found(alloc: Global, code: &Code, counts: &[u64], row: &Known) -> bool
    requires dual { IsDualDistribution code.now counts.now }
{
    if counts != row.3 || code.field().size() != 2 || code.length() > 63 {
        return false;
    }
    match from_dual(alloc, code, counts) {
        Ok(found) => found.as_slice() == row.2,
        Err(_) => false,
    }
}

// The same, and the words of the dual are counted.
#[tactic(auto, using(lc_macwilliams::proofs::DualCounts::dual_counts))]
fn are_found_by_dual<R: Threads + Sync>(
    rt: &R,
    alloc: Global,
    code: &Code,
    dual: &Code,
    row: &Known,
) -> bool
    requires dual { IsCode code.now.field code.now.columns (InDual code.now) dual.now }
{
    let _matrix = code.matrix();
    if has_many_words(dual) {
        return false;
    }
    match count_words(rt, alloc, dual, 1) {
        Ok(counts) => are_found(alloc, code, counts.as_slice(), row),
        Err(_) => false,
    }
}

// The same, and the dual is made.
fn duals_agree<R: Threads + Sync>(rt: &R, alloc: Global, code: &Code, row: &Known) -> bool {
    match code.dual(alloc) {
        Ok(dual) => are_found_by_dual(rt, alloc, code, &dual, row),
        Err(_) => false,
    }
}

// Whether this is so of the code of the row.
fn is_known<R: Threads + Sync>(rt: &R, alloc: Global, row: &Known) -> bool {
    match generated_by(alloc, 2, row.0, row.1) {
        Ok(code) => duals_agree(rt, alloc, &code, row),
        Err(_refusal) => false,
    }
}

#[test]
fn distributions_are_found_from_those_of_duals(rt: HostRuntime) {
    for row in &KNOWN {
        assert!(rt; is_known(&rt, rt.alloc(), row), "length {}", row.0);
    }
}
