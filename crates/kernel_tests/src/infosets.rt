//! Tests of information sets and divisors, by values that `tools/information_sets.py` prints from lists of all words.
ghost use Rattle.std.specs.Prelude.{◌≡◌, ◌<◌, length, All};
ghost use Rattle.std.specs.Bool.{OnTrue};
ghost use Rattle.lc_enumeration.specs.Search.{set_count};

use crate::tasks::sets_of;
use lc_code::Code;
use lc_infoset::Sets;
use std::alloc::Global;
use test_rows::{Rows, generated_by, matrix_of, number_of};

// Whether row i of set j is 1 at column i of the basis and 0 at its others. There is a set j and a row i.
fn is_unit(sets: &Sets, j: usize, i: usize) -> bool
    requires set { j < set_count sets.now }
    requires row { i < length sets.now.rows }
{
    let row = sets.row(j, i);
    let basis = sets.basis(j);
    for c in 0..basis.len() {
        if row[basis[c]] != u8::from(c == i) {
            return false;
        }
    }
    true
}

// Whether the rows of set j are the identity on its basis. There is a set j.
fn is_identity(sets: &Sets, j: usize) -> bool
    requires set { j < set_count sets.now }
{
    for i in 0..sets.dimension() {
        if !is_unit(sets, j, i) {
            return false;
        }
    }
    true
}

// Whether these are the columns.
fn are_columns(columns: &[usize], digits: &[u8]) -> bool {
    if columns.len() != digits.len() {
        return false;
    }
    for i in 0..columns.len() {
        if columns[i] != usize::from(number_of(digits[i])) {
            return false;
        }
    }
    true
}

// Whether this is set j, a `/` and its fresh columns, and whether the rows of the set are the identity on it. There is a set j.
fn is_set(sets: &Sets, j: usize, text: &str) -> bool
    requires set { j < set_count sets.now }
{
    match text.split_once('/') {
        Some((basis, fresh)) => {
            are_columns(sets.basis(j), basis.as_bytes())
                && are_columns(sets.fresh(j), fresh.as_bytes())
                && is_identity(sets, j)
        }
        None => false,
    }
}

// Whether these are the sets, in order.
fn has_sets(sets: &Sets, text: &str) -> bool {
    let mut j = 0;
    for set in text.split_whitespace() {
        if sets.count() <= j || !is_set(sets, j, set) {
            return false;
        }
        j += 1;
    }
    j == sets.count()
}

// The size of the field, the length, rows of a code, its information sets with their fresh columns, its divisor, and levels of the
// sets with the bound that they give. Symbols, columns and levels are digits: 0 to 9, and then a to z.
type Row = (u64, usize, &'static str, &'static str, u64, &'static str);

static CODES: [Row; 14] = [
    // Hamming
    (
        2,
        7,
        "1000011 0100101 0010110 0001111",
        "0123/0123 0456/456",
        1,
        "11:3 21:4 22:5",
    ),
    // half
    (
        2,
        6,
        "100010 010001 001011 000111",
        "0123/0123 0245/45",
        1,
        "11:2 21:3 22:4",
    ),
    // one fewer than half
    (
        2,
        5,
        "10001 01001 00101 00011",
        "0123/0123",
        2,
        "1:2 2:4 2:4",
    ),
    // repetition
    (2, 5, "11111", "0/0 1/1 2/2 3/3 4/4", 1, "00000:5"),
    // repetition
    (3, 4, "1111", "0/0 1/1 2/2 3/3", 1, "0000:4"),
    // repetition
    (16, 3, "111", "0/0 1/1 2/2", 1, "000:3"),
    // dimension 1
    (2, 5, "01011", "1/1 3/3 4/4", 1, "000:3"),
    // dimension n
    (4, 3, "100 010 001", "012/012", 1, "1:2 2:3 2:3"),
    // extended Hamming
    (
        2,
        8,
        "10000111 01001011 00101101 00011110",
        "0123/0123 4567/4567",
        4,
        "11:4 21:8 22:8",
    ),
    // even weights
    (2, 4, "1001 0101 0011", "012/012", 2, "1:2 2:4 2:4"),
    // Golay, extended
    (
        2,
        24,
        "\
            100000000000101011100011 \
            010000000000111110010010 \
            001000000000110100101011 \
            000100000000110001110110 \
            000010000000110011011001 \
            000001000000011001101101 \
            000000100000001100110111 \
            000000010000101101111000 \
            000000001000010110111100 \
            000000000100001011011110 \
            000000000010101110001101 \
            000000000001010111000111",
        "0123456789ab/0123456789ab cdefghijklmn/cdefghijklmn",
        4,
        "11:4 21:8 22:8",
    ),
    // ternary Golay
    (
        3,
        11,
        "10000020121 01000012221 00100011101 00010011022 00001021220 00000102122",
        "012345/012345 06789a/6789a",
        1,
        "11:3 21:4 22:5",
    ),
    // ternary Golay, extended
    (
        3,
        12,
        "100000201212 010000122210 001000111011 000100110222 000010212201 000001021221",
        "012345/012345 6789ab/6789ab",
        3,
        "11:6 21:6 22:6",
    ),
    // hexacode
    (
        4,
        6,
        "100122 010212 001221",
        "012/012 345/345",
        1,
        "11:4 21:5 22:6",
    ),
];

// Whether there is one level for each set, each below k.
fn are_levels(sets: &Sets, levels: &[u64]) -> bool
    ensures count { OnTrue result (length levels.now ≡ set_count sets.now) }
    ensures below { OnTrue result (All (λ w. w < length sets.now.rows) levels.now) }
{
    let k = sets.dimension() as u64;
    levels.len() == sets.count() && levels.iter().all(|level| *level < k)
}

// Whether the levels give this bound.
fn has_bound(sets: &Sets, levels: &[u8], bound: u8) -> bool {
    let mut numbers = [0u64; 8];
    let many = levels.len().min(8);
    for i in 0..many {
        numbers[i] = u64::from(number_of(levels[i]));
    }
    are_levels(sets, &numbers[..many]) && sets.bound(&numbers[..many]) == u64::from(bound)
}

// Whether the levels before each `:` give the bound after it.
fn has_bounds(sets: &Sets, text: &str) -> bool {
    for row in text.split_whitespace() {
        match row.as_bytes() {
            [levels @ .., b':', bound] => {
                if !has_bound(sets, levels, number_of(*bound)) {
                    return false;
                }
            }
            _ => return false,
        }
    }
    true
}

// Whether the code has the row's divisor, and sets with that divisor, with their fresh columns and with their bounds.
fn are_sets(alloc: Global, code: &Code, row: &Row) -> bool {
    match sets_of(alloc, code) {
        Some(sets) => {
            code.divisor() == row.4
                && sets.divisor() == row.4
                && has_sets(&sets, row.3)
                && has_bounds(&sets, row.5)
        }
        None => false,
    }
}

// The same of the code of the row.
fn has_row(alloc: Global, row: &Row) -> bool {
    match generated_by(alloc, row.0, row.1, row.2) {
        Ok(code) => are_sets(alloc, &code, row),
        Err(_refusal) => false,
    }
}

#[test]
fn sets_have_their_fresh_columns_divisors_and_bounds(rt: HostRuntime) {
    for row in &CODES {
        assert!(rt; has_row(rt.alloc(), row), "{} {}", row.0, row.1);
    }
}

// The size of the field, the length, some rows, and the number that divides the weights of their words.
static ROWS: [(u64, usize, Rows, u64); 9] = [
    (
        2,
        8,
        &[&[1, 1, 1, 1, 0, 0, 0, 0], &[1, 1, 1, 0, 1, 0, 0, 0]],
        2,
    ),
    (
        2,
        8,
        &[
            &[1, 1, 1, 1, 0, 0, 0, 0],
            &[1, 1, 0, 0, 1, 1, 0, 0],
            &[1, 0, 1, 0, 1, 0, 1, 0],
        ],
        4,
    ),
    (2, 4, &[&[1, 1, 0, 0], &[0, 1, 1, 0]], 2),
    (2, 4, &[&[1, 1, 1, 0], &[0, 1, 1, 1]], 1),
    (3, 4, &[&[1, 1, 1, 0], &[0, 1, 1, 1]], 1),
    (3, 4, &[&[1, 1, 1, 0], &[0, 1, 2, 1]], 3),
    (3, 4, &[&[1, 2, 0, 0]], 1),
    (4, 4, &[&[1, 1, 0, 0]], 1),
    (2, 4, &[&[0, 0, 0, 0]], 4),
];

// Whether the matrix of the rows has this divisor.
fn has_divisor(alloc: Global, q: u64, n: usize, rows: Rows, divisor: u64) -> bool {
    match matrix_of(alloc, q, n, rows) {
        Ok(matrix) => matrix.divisor() == divisor,
        Err(_refusal) => false,
    }
}

#[test]
fn divisors_of_rows(rt: HostRuntime) {
    for row in &ROWS {
        let is_right = has_divisor(rt.alloc(), row.0, row.1, row.2, row.3);
        assert!(rt; is_right, "{} {}", row.0, row.1);
    }
}
