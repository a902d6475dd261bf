//! Each line once, as a session prints it.
use lc_field::NoMemory;
use lc_print::{
    accepted_line, bracket_line, certificate_bracket_line, certificate_cost_line,
    certificate_length_line, certificate_none_line, code_line, distance_line, distance_none_line,
    fault_line, field_line, least_line, least_none_line, list_line, many_line, none_line,
    number_line, rejected_line, rows_line, truth_line,
};
use lc_vec::Word;
use std::alloc::{AllocError, Global};
use std::test::Fail;

// Whether there is a line, and this is it.
fn is_line(line: Result<Vec<u8>, NoMemory>, text: &[u8]) -> bool {
    match line {
        Ok(line) => line.as_slice() == text,
        Err(NoMemory) => false,
    }
}

// The rows of a matrix.
static ROWS: [[u64; 2]; 2] = [[1, 0], [0, 1]];

// They as lists.
fn two_rows(alloc: Global) -> Result<Vec<Vec<u64>>, AllocError> {
    let mut rows = Vec::new(alloc);
    for row in &ROWS {
        rows.push(Vec::from_slice(alloc, row)?)?;
    }
    Ok(rows)
}

// Their line.
fn line_of_rows(alloc: Global) -> Result<Vec<u8>, NoMemory> {
    let rows = two_rows(alloc)?;
    rows_line(alloc, &rows)
}

#[test]
fn lines_of_values(rt: HostRuntime) {
    let alloc = rt.alloc();
    assert!(rt; is_line(rows_line(alloc, &[]), b"[]\n"));
    assert!(rt; is_line(line_of_rows(alloc), b"[[1,0],[0,1]]\n"));
    assert!(rt; is_line(number_line(alloc, 12), b"12\n"));
    assert!(rt; is_line(list_line(alloc, &[1, 0, 3]), b"[1,0,3]\n"));
    assert!(rt; is_line(list_line(alloc, &[]), b"[]\n"));
    assert!(rt; is_line(field_line(alloc, 4), b"GF(4)\n"));
    assert!(rt; is_line(code_line(alloc, 7, 4, 2), b"code [7,4] GF(2)\n"));
    assert!(rt; is_line(truth_line(alloc, true), b"true\n"));
    assert!(rt; is_line(truth_line(alloc, false), b"false\n"));
    assert!(rt; is_line(none_line(alloc), b"none\n"));
    assert!(rt; is_line(many_line(alloc), b"many\n"));
}

// The line of a least word.
fn line_of_least(alloc: Global) -> Result<Vec<u8>, NoMemory> {
    let word = Word::from_slice(alloc, &[0, 1, 1])?;
    least_line(alloc, 2, &word)
}

// Whether these are the lines of a distance and of bounds on it, by this word.
fn has_distances(alloc: Global, word: &Word) -> bool {
    is_line(
        distance_line(alloc, 3, word, 2),
        b"distance 3 word [1,0,0,0,0,1,1] blocks 2\n",
    ) && is_line(
        bracket_line(alloc, 1, 3, word, 0),
        b"distance between 1 and 3 word [1,0,0,0,0,1,1] blocks 0\n",
    )
}

// The same for the word, which is made here.
fn are_distances(alloc: Global) -> Result<bool, NoMemory> {
    let word = Word::from_slice(alloc, &[1, 0, 0, 0, 0, 1, 1])?;
    Ok(has_distances(alloc, &word))
}

#[test]
fn lines_of_answers_and_faults(rt: HostRuntime) -> Result<(), Fail> {
    let alloc = rt.alloc();
    assert!(rt; is_line(line_of_least(alloc), b"least 2 word [0,1,1]\n"));
    assert!(rt; is_line(least_none_line(alloc), b"least none\n"));
    assert!(rt; are_distances(alloc)?);
    assert!(rt; is_line(distance_none_line(alloc), b"distance none\n"));
    assert!(rt; is_line(fault_line(alloc, 8, 0, &[1, 2]), b"fault 8 at 0 with 1 2\n"));
    assert!(rt; is_line(fault_line(alloc, 44, 10, &[]), b"fault 44 at 10\n"));
    Ok(())
}

#[test]
fn lines_of_certificates_that_are_none(rt: HostRuntime) {
    let alloc = rt.alloc();
    assert!(rt; is_line(certificate_none_line(alloc), b"certificate none\n"));
    assert!(rt;
        is_line(
            certificate_bracket_line(alloc, 1, 3),
            b"certificate none between 1 and 3\n"
        )
    );
    assert!(rt;
        is_line(
            certificate_cost_line(alloc, 8_589_934_592),
            b"certificate none cost 8589934592\n"
        )
    );
    assert!(rt;
        is_line(
            certificate_length_line(alloc, 1_048_577),
            b"certificate none length 1048577\n"
        )
    );
}

#[test]
fn lines_of_checks(rt: HostRuntime) {
    let alloc = rt.alloc();
    assert!(rt; is_line(accepted_line(alloc, 3), b"accepted distance 3\n"));
    assert!(rt; is_line(rejected_line(alloc, 33, &[]), b"rejected 33\n"));
    assert!(rt; is_line(rejected_line(alloc, 48, &[0, 8]), b"rejected 48 with 0 8\n"));
}
