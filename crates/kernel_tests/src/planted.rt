//! Codes in which one word alone is zero outside the first columns: it is the lightest, and its place is chosen.
ghost use Rattle.std.specs.Prelude.{◌≡◌, ◌<◌, ◌≤◌};
ghost use Rattle.lc_enumeration.specs.Plan.{total};
ghost use Rattle.lc_kernel.specs.Kernel.{IsPlanOf};

use crate::plain::{Sums, negative, sums_over};
use crate::shapes::{Columns, FIELDS, Over, Shape, rows};
use crate::tasks::{Task, made_does};
use lc_code::{Code, CodeRefusal};
use lc_field::{Field, NoMemory};
use lc_infoset::Sets;
use lc_kernel::{Scratch, least};
use lc_place::{Plan, Spot};
use lc_vec::Word;
use std::alloc::Global;
use test_rows::code_of;

// The symbol that the row of the spot's first entry has at a column where the spot's word is zero.
fn opposite(sums: &Sums, words: &[Word], spot: &Spot, column: usize) -> u8 {
    let support = spot.support();
    let coefficients = spot.coefficients();
    let mut sum = 0u8;
    for i in 1..support.len().min(coefficients.len()) {
        if words.len() <= support[i] || words[support[i]].len() <= column {
            return 0;
        }
        let symbol = words[support[i]].symbols()[column];
        let place = (sum % 16) as usize * 16 + (symbol % 16) as usize;
        sum = sums[(coefficients[i] % 16) as usize][place];
    }
    negative(sums, sum)
}

// The row that makes the spot's word zero from column k on, in place of the row `own` of its first entry.
fn planted_row(
    alloc: Global,
    sums: &Sums,
    words: &[Word],
    spot: &Spot,
    own: &Word,
    k: usize,
) -> Result<Word, NoMemory> {
    let mut symbols = own.symbols().to_vec(alloc)?;
    for column in k..symbols.len() {
        symbols[column] = opposite(sums, words, spot, column);
    }
    Ok(Word::from_vec(symbols))
}

// The rows, the spot's first one so replaced.
fn planted_rows(
    alloc: Global,
    sums: &Sums,
    words: &[Word],
    spot: &Spot,
    k: usize,
) -> Result<Vec<Word>, NoMemory> {
    let mut planted = Vec::new(alloc);
    for i in 0..words.len() {
        if spot.support().first() == Some(&i) {
            planted.push(planted_row(alloc, sums, words, spot, &words[i], k)?)?;
        } else {
            planted.push(words[i].copy(alloc)?)?;
        }
    }
    Ok(planted)
}

// The rows of a shape over a field, the spot's first one so replaced.
fn shaped_rows(
    alloc: Global,
    field: &Field,
    shape: &Shape,
    spot: &Spot,
) -> Result<Vec<Word>, NoMemory> {
    let words = rows(alloc, field, shape)?;
    planted_rows(alloc, &sums_over(field), &words, spot, shape.dimension)
}

// The same over q elements.
fn rows_over(alloc: Global, q: u64, shape: &Shape, spot: &Spot) -> Result<Vec<Word>, NoMemory> {
    match Field::of(alloc, q) {
        Ok(field) => shaped_rows(alloc, &field, shape, spot),
        Err(_refusal) => Err(NoMemory),
    }
}

// The code of these rows.
fn planted_code(alloc: Global, q: u64, shape: &Shape, spot: &Spot) -> Result<Code, CodeRefusal> {
    match rows_over(alloc, q, shape, spot) {
        Ok(words) => code_of(alloc, q, shape.length, &words),
        Err(NoMemory) => Err(CodeRefusal::NoMemory),
    }
}

// A planted word: the level, the block, counted from the first one of the level, and the offset.
#[derive(Clone, Copy)]
pub(crate) struct Planted {
    level: usize,
    block: u64,
    offset: u64,
}

// Whether the least value of a block is that of the word at an offset, with no symbol outside the first columns.
fn block_is(sets: &Sets, plan: &Plan, block: u64, planted: Planted, scratch: &mut Scratch) -> bool
    requires plan { IsPlanOf plan.now sets.now }
    requires block { block < total plan.now.k plan.now.q plan.now.m }
    requires scratch { scratch.old ≡ sets.now }
    ensures scratch { scratch.new ≡ sets.now }
{
    let place = block.saturating_mul(4096).saturating_add(planted.offset);
    let weight = (planted.level as u64).saturating_mul(4_503_599_627_370_496);
    least(sets, plan, block, scratch) == weight.saturating_add(place)
}

// Whether this is so of the block of a planted word, in set 0.
fn has_least(sets: &Sets, plan: &Plan, planted: Planted, scratch: &mut Scratch) -> bool
    requires plan { IsPlanOf plan.now sets.now }
    requires scratch { scratch.old ≡ sets.now }
{
    for block in 0..plan.total().min(4096) {
        let phase = plan.phase_of(block);
        if phase.level == planted.level
            && phase.set == 0
            && block == phase.start.saturating_add(planted.block)
        {
            return block_is(sets, plan, block, planted, scratch);
        }
    }
    false
}

// Whether a planted word is the least one of its block.
pub(crate) fn is_least(alloc: Global, sets: &Sets, plan: &Plan, planted: Planted) -> bool
    requires plan { IsPlanOf plan.now sets.now }
{
    match Scratch::new(alloc, sets) {
        Ok(mut scratch) => has_least(sets, plan, planted, &mut scratch),
        Err(_) => false,
    }
}

// Whether this is so for the code with the spot's word planted.
fn spot_is_found(alloc: Global, over: &Over, spot: &Spot, planted: Planted) -> bool {
    let shape = Shape {
        length: over.dimension.saturating_add(20),
        dimension: over.dimension,
        columns: Columns::Dense,
    };
    made_does(
        alloc,
        planted_code(alloc, over.q, &shape, spot),
        Task::Found(planted),
    )
}

// Goes to the message at an offset of a block.
fn go_to(plan: &Plan, block: u64, offset: u64, spot: &mut Spot)
    requires block { block < total plan.now.k plan.now.q plan.now.m }
    requires room { plan.now.k ≤ spot.old.room }
    ensures room { spot.new.room ≡ spot.old.room }
{
    plan.start_of(block, spot);
    for _step in 0..offset {
        let _goes_on = plan.next(spot);
    }
}

// Whether this is so for the word at an offset of a block, in a plan of one set, by this spot.
fn offset_is_found(
    alloc: Global,
    over: &Over,
    plan: &Plan,
    block: u64,
    offset: u64,
    spot: &mut Spot,
) -> bool
    requires block { block < total plan.now.k plan.now.q plan.now.m }
    requires room { plan.now.k ≤ spot.old.room }
    ensures room { spot.new.room ≡ spot.old.room }
{
    go_to(plan, block, offset, spot);
    let planted = Planted {
        level: over.level,
        block: block.saturating_sub(plan.phase_of(block).start),
        offset,
    };
    spot_is_found(alloc, over, spot, planted)
}

// Whether this is so of the first word and the last one of the first block of the level of several, and of its last.
fn plan_is_found(alloc: Global, over: &Over, plan: &Plan, spot: &mut Spot) -> bool
    requires room { plan.now.k ≤ spot.old.room }
{
    for block in 0..plan.total().min(4096) {
        let phase = plan.phase_of(block);
        if phase.level == over.level
            && (block == phase.start || block.saturating_add(1) == phase.end)
        {
            let last = plan.block_len(block).saturating_sub(1);
            if !offset_is_found(alloc, over, plan, block, 0, spot)
                || !offset_is_found(alloc, over, plan, block, last, spot)
            {
                return false;
            }
        }
    }
    true
}

// Whether this is so by a spot of its own.
fn field_is_found(alloc: Global, over: &Over, plan: &Plan) -> bool
    requires room { plan.now.k ≤ 255 }
{
    match Spot::new(alloc, 255) {
        Ok(mut spot) => plan_is_found(alloc, over, plan, &mut spot),
        Err(_) => false,
    }
}

// Whether this is so over the field, in a plan of one set.
fn is_found(alloc: Global, over: &Over) -> bool {
    let k = over.dimension;
    if k < 1 || k > 255 || over.q < 2 || over.q > 16 {
        return false;
    }
    match Plan::build(alloc, k, over.q, 1) {
        Ok(plan) => field_is_found(alloc, over, &plan),
        Err(_) => false,
    }
}

#[test]
fn words_at_the_ends_of_blocks_are_found(rt: HostRuntime) {
    for over in &FIELDS {
        assert!(rt; is_found(rt.alloc(), over), "{}", over.q);
    }
}
