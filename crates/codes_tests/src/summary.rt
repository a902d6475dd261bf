//! The code and the line of a summary. The rows, the distance and the word are those of another program.
use lc_code::Code;
use lc_summary::{summary_code, summary_line};
use lc_vec::weight;
use std::test::Fail;

// The weights of the rows of the seeds 0 and 1.
const WEIGHTS: [(u64, [usize; 24]); 2] = [
    (
        0,
        [
            13, 15, 11, 18, 15, 14, 13, 14, 13, 15, 14, 16, 11, 13, 13, 11, 16, 13, 13, 13, 13, 15,
            15, 15,
        ],
    ),
    (
        1,
        [
            14, 18, 15, 11, 20, 14, 14, 12, 13, 12, 14, 14, 18, 11, 17, 14, 12, 11, 14, 14, 13, 18,
            14, 16,
        ],
    ),
];

// The first row of seed 1.
const FIRST: [u8; 48] = [
    1, 0, 0, 0, 0, 0, 0, 0, 0, 0, 0, 0, 0, 0, 0, 0, 0, 0, 0, 0, 0, 0, 0, 0, 0, 1, 1, 0, 0, 1, 1, 1,
    1, 1, 0, 1, 0, 0, 0, 0, 1, 1, 1, 0, 0, 1, 0, 1,
];

// What its search prints, and what the summary is after four rounds.
const LINE: &str =
    "distance 7 word [0,0,0,0,0,0,0,0,0,0,1,0,0,0,0,0,0,1,0,0,0,0,0,0,0,0,0,0,0,1,0,0,0,0,0,1,1,1,0,0,0,0,1,0,0,0,0,0] blocks 6\n";

const SUMMARY: &str =
    "summary seed 1 distance 7 word [0,0,0,0,0,0,0,0,0,0,1,0,0,0,0,0,0,1,0,0,0,0,0,0,0,0,0,0,0,1,0,0,0,0,0,1,1,1,0,0,0,0,1,0,0,0,0,0] blocks 6 rounds 4\n";

// Whether the rows of a code have these weights.
fn has_weights(code: &Code, weights: &[usize]) -> bool {
    if code.dimension() != weights.len() {
        return false;
    }
    for i in 0..code.dimension() {
        if weight(code.row(i)) != weights[i] {
            return false;
        }
    }
    true
}

#[test]
fn weights_of_rows(rt: HostRuntime) -> Result<(), Fail> {
    for (seed, weights) in &WEIGHTS {
        let code = summary_code(rt.alloc(), *seed)?;
        assert!(rt; has_weights(&code, weights));
    }
    Ok(())
}

#[test]
fn first_row_of_a_seed(rt: HostRuntime) -> Result<(), Fail> {
    let code = summary_code(rt.alloc(), 1)?;
    assert!(rt; 0 < code.dimension() && code.row(0) == FIRST.as_slice());
    Ok(())
}

#[test]
fn line_of_a_seed(rt: HostRuntime) -> Result<(), Fail> {
    let line = summary_line(rt.alloc(), 1, LINE.as_bytes(), 4)?;
    assert!(rt; line.as_slice() == SUMMARY.as_bytes());
    Ok(())
}
