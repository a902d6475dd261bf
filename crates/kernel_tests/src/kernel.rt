//! Tests of the kernel: the least values of blocks of named codes against a plain scan, and words at places.
ghost use Rattle.std.specs.Prelude.{◌≡◌, ◌<◌, ◌≤◌};
ghost use Rattle.lc_enumeration.specs.Plan.{total};
ghost use Rattle.lc_kernel.specs.Kernel.{IsPlanOf};

use crate::blocks::Blocks;
use crate::plain::{Sums, put_word, sums_over};
use crate::shapes::{Columns, FIELDS, Over, Shape};
use crate::tasks::{Task, made_does, shape_does};
use lc_basic::{hamming, reed_muller};
use lc_code::{Code, CodeRefusal};
use lc_field::{Field, NoMemory};
use lc_infoset::Sets;
use lc_kernel::word_at;
use lc_place::{Plan, Spot};
use lc_vec::Word;
use std::alloc::Global;
use test_rows::{Rows, generated};

// The numbers of checks and the sizes of the fields of some Hamming codes.
static HAMMING: [(u64, u64); 8] = [
    (3, 2),
    (4, 2),
    (3, 3),
    (2, 4),
    (2, 5),
    (2, 8),
    (2, 9),
    (2, 11),
];

// The Hamming code with r checks over q elements.
fn hamming_code(alloc: Global, r: u64, q: u64) -> Result<Code, CodeRefusal> {
    match Field::of(alloc, q) {
        Ok(field) => hamming(alloc, r, &field),
        Err(_) => Err(CodeRefusal::NoMemory),
    }
}

#[test]
fn blocks_of_hamming_codes(rt: HostRuntime) {
    for row in &HAMMING {
        let code = hamming_code(rt.alloc(), row.0, row.1);
        assert!(rt;
            made_does(rt.alloc(), code, Task::Least(Blocks::First(12))),
            "{} {}",
            row.0,
            row.1
        );
    }
}

// The orders and the numbers of variables of some Reed-Muller codes, and how many blocks are looked at. The last two have over 64
// columns outside a set, and blocks that begin within a head.
static REED_MULLER: [(u64, u64, u64); 4] = [(2, 5, 40), (3, 6, 12), (1, 7, 12), (2, 7, 12)];

#[test]
fn blocks_of_reed_muller_codes(rt: HostRuntime) {
    for row in &REED_MULLER {
        let code = reed_muller(rt.alloc(), row.0, row.1);
        assert!(rt;
            made_does(rt.alloc(), code, Task::Least(Blocks::First(row.2))),
            "{} {}",
            row.0,
            row.1
        );
    }
}

// Rows of codes over 4 and 7 elements, and their lengths.
static ROWS: [(u64, usize, Rows); 2] = [
    (
        4,
        9,
        &[
            &[1, 0, 0, 0, 1, 2, 3, 1, 0],
            &[0, 1, 0, 0, 3, 3, 0, 2, 1],
            &[0, 0, 1, 0, 2, 0, 1, 1, 3],
            &[0, 0, 0, 1, 1, 1, 2, 0, 2],
        ],
    ),
    (
        7,
        6,
        &[
            &[1, 0, 0, 3, 5, 6],
            &[0, 1, 0, 2, 2, 4],
            &[0, 0, 1, 6, 1, 5],
        ],
    ),
];

#[test]
fn blocks_of_other_codes(rt: HostRuntime) {
    for row in &ROWS {
        let code = generated(rt.alloc(), row.0, row.1, row.2);
        assert!(rt;
            made_does(rt.alloc(), code, Task::Least(Blocks::First(20))),
            "{}",
            row.0
        );
    }
}

// The places of the code of the Hamming row, with the words there: block 0 has the places 0 to 3, and block 1, of the second
// set, begins at 4,096.
static WORDS: [(u64, Option<&[u8]>); 6] = [
    (0, Some(&[1, 0, 0, 0, 0, 1, 1])),
    (3, Some(&[0, 0, 0, 1, 1, 1, 1])),
    (4, None),
    (4095, None),
    (4096, Some(&[1, 1, 1, 0, 0, 0, 0])),
    (4_503_599_627_370_495, None),
];

// Whether this word, or none, is found.
fn is_found(found: Result<Option<Word>, NoMemory>, word: Option<&[u8]>) -> bool {
    match found {
        Ok(Some(found)) => word == Some(found.symbols()),
        Ok(None) => word.is_none(),
        Err(_) => false,
    }
}

// Whether the words of the table are at their places.
pub(crate) fn has_words(alloc: Global, sets: &Sets, plan: &Plan) -> bool
    requires plan { IsPlanOf plan.now sets.now }
{
    for row in &WORDS {
        if !is_found(word_at(alloc, sets, plan, row.0), row.1) {
            return false;
        }
    }
    true
}

#[test]
fn words_at_places(rt: HostRuntime) {
    assert!(rt; made_does(rt.alloc(), hamming_code(rt.alloc(), 3, 2), Task::Words));
}

// Makes a word the last one of a block. False if it can't be made.
fn put_last(
    sets: &Sets,
    sums: &Sums,
    plan: &Plan,
    block: u64,
    spot: &mut Spot,
    word: &mut [u8],
) -> bool
    requires block { block < total plan.now.k plan.now.q plan.now.m }
    requires room { plan.now.k ≤ spot.old.room }
    ensures room { spot.new.room ≡ spot.old.room }
{
    plan.start_of(block, spot);
    for _offset in 1..plan.block_len(block) {
        let _goes_on = plan.next(spot);
    }
    put_word(sets, sums, spot, word)
}

// Whether the last word of a block is at its place, and none after it unless the block is full.
fn has_end(
    alloc: Global,
    sets: &Sets,
    plan: &Plan,
    block: u64,
    spot: &mut Spot,
    word: &mut [u8],
) -> bool
    requires plan { IsPlanOf plan.now sets.now }
    requires block { block < total plan.now.k plan.now.q plan.now.m }
    requires room { plan.now.k ≤ spot.old.room }
    ensures room { spot.new.room ≡ spot.old.room }
{
    let sums = sums_over(sets.field());
    if !put_last(sets, &sums, plan, block, spot, word) {
        return false;
    }
    let many = plan.block_len(block);
    let end = block.saturating_mul(4096).saturating_add(many);
    is_found(
        word_at(alloc, sets, plan, end.saturating_sub(1)),
        Some(word),
    ) && (many == 4096 || is_found(word_at(alloc, sets, plan, end), None))
}

// Whether this is so of the blocks of a level in set 0.
fn has_ends(
    alloc: Global,
    sets: &Sets,
    plan: &Plan,
    level: usize,
    spot: &mut Spot,
    word: &mut [u8],
) -> bool
    requires plan { IsPlanOf plan.now sets.now }
    requires room { plan.now.k ≤ spot.old.room }
{
    for block in 0..plan.total().min(4096) {
        let phase = plan.phase_of(block);
        if phase.level == level
            && phase.set == 0
            && !has_end(alloc, sets, plan, block, spot, word)
        {
            return false;
        }
    }
    true
}

// Whether this is so by a word of its own.
fn spot_has_ends(alloc: Global, sets: &Sets, plan: &Plan, level: usize, spot: &mut Spot) -> bool
    requires plan { IsPlanOf plan.now sets.now }
    requires room { plan.now.k ≤ spot.old.room }
{
    match vec![in alloc; 0u8; sets.length()] {
        Ok(mut word) => has_ends(alloc, sets, plan, level, spot, &mut word),
        Err(_) => false,
    }
}

// Whether the last words of the blocks of a level in set 0 are at their places, and none after them.
pub(crate) fn words_are_at_ends(alloc: Global, sets: &Sets, plan: &Plan, level: usize) -> bool
    requires plan { IsPlanOf plan.now sets.now }
{
    match Spot::new(alloc, sets.dimension()) {
        Ok(mut spot) => spot_has_ends(alloc, sets, plan, level, &mut spot),
        Err(_) => false,
    }
}

// Whether this is so for a code over a field, with two columns outside its sets.
fn field_has_ends(alloc: Global, over: &Over) -> bool {
    let shape = Shape {
        length: over.dimension.saturating_add(2),
        dimension: over.dimension,
        columns: Columns::Dense,
    };
    shape_does(alloc, over.q, &shape, Task::Ends(over.level))
}

#[test]
fn words_at_the_ends_of_blocks(rt: HostRuntime) {
    for over in &FIELDS {
        assert!(rt; field_has_ends(rt.alloc(), over), "{}", over.q);
    }
}
