//! The larger code: it has the given word as one row more, and its first messages are the error patterns. So the kernel of a
//! search does the patterns of a block, if these are a whole block of the larger code too.

ghost use Rattle.std.specs.Prelude.{◌≡◌, ℕ, ◌+◌, ◌*◌, ◌/◌, ◌^◌, ◌<◌, ◌≤◌, ◌++◌, [], Some, length, replicate, slice_index, slice_index_or, option_map, IsTrue, IfOk, IfSome};
ghost use Rattle.lc_algebra.specs.Word.{IsWord, zero_word};
ghost use Rattle.lc_enumeration.specs.Plan.{total};
ghost use Rattle.lc_enumeration.specs.Search.{set_count, generator_at, least_in, board_value};
ghost use Rattle.lc_enumeration.specs.NearWord.{near_in_block};
ghost use Rattle.lc_coset.specs.Near.{near_left, AreLefts};
ghost use Rattle.lc_coset.specs.Phase.{IsFrame, IsPhaseOf};
ghost use Rattle.lc_coset.specs.Led.{led_rows, led_code, led_plan, AreLedSets, AreStartsOf, HasRowsTo, HasBlock, IsLed};

use crate::blocks::CosetPhase;
use crate::frame::Frame;
use lc_enumeration::PLACES;
use lc_field::NoMemory;
use lc_infoset::Sets;
use lc_kernel::{Scratch, least};
use lc_matrix::Matrix;
use lc_place::Plan;
use lc_vec::Word;
use std::alloc::Global;

// Information sets are made of words of at most so many symbols.
const LONGEST: usize = 255;

/// The code of the given word, with a one for each information set before it, and of the rows of the code, with as many
/// zeros before them. Its first sets are those of the code, each with one of the ones. A message that begins with 1 at place 0
/// is an error pattern: its word has the ones, and then what the pattern's word leaves of the given word.
#[derive(Drop)]
pub(crate) struct Led {
    /// its information sets
    pub(crate) sets: Sets,
    /// the plan of its messages with its first sets, as many as the code has
    pub(crate) plan: Plan,
    /// the first block of each phase of the plan
    pub(crate) starts: Vec<u64>,
}

// `count` symbols `c`, and then a word.
fn fronted(alloc: Global, count: usize, c: u8, word: &[u8]) -> Result<Word, NoMemory>
    ensures is { IfOk result (λ w. w ≡ replicate count c ++ word.now) }
{
    let mut symbols = vec![in alloc; c; count]?;
    symbols.extend_from_slice(word)?;
    Ok(Word::from_vec(symbols))
}

// The rows of the larger code.
#[tactic(auto, using(crate::proofs::LedWords::led_more, crate::proofs::LedWords::led_all))]
fn rows_of(alloc: Global, sets: &Sets, word: &Word) -> Result<Vec<Word>, NoMemory>
    ensures are { IfOk result (λ rows. rows.items ≡ led_rows (set_count sets.now) word.now sets.now.rows) }
{
    let count = sets.count();
    let code = sets.code();
    let mut rows = Vec::new(alloc);
    rows.push(fronted(alloc, count, 1, word.symbols())?)?;
    for i in 0..sets.dimension() {
        rows.push(fronted(alloc, count, 0, code.row(i))?)?;
    }
    Ok(rows)
}

// The generator matrix of the larger code.
fn matrix_of(alloc: Global, sets: &Sets, word: &Word) -> Result<Matrix, NoMemory>
    requires word { IsWord sets.now.field sets.now.columns word.now }
    ensures is { IfOk result (λ m. m ≡ led_code sets.now word.now) }
{
    let rows = rows_of(alloc, sets, word)?;
    let _k = sets.dimension();
    let columns = sets.count() + sets.length();
    Matrix::from_rows(alloc, sets.field(), columns, &rows)
}

// The information sets of the larger code.
fn sets_of(alloc: Global, sets: &Sets, word: &Word) -> Result<Sets, NoMemory>
    requires word { IsWord sets.now.field sets.now.columns word.now }
    requires short { set_count sets.now + sets.now.columns ≤ 255 }
    ensures code { IfOk result (λ s. s ≡ led_code sets.now word.now) }
{
    let _some = sets.count();
    let _rows = sets.dimension();
    let _symbol = sets.field();
    let matrix = matrix_of(alloc, sets, word)?;
    Sets::build(alloc, &matrix)
}

// True only for a row that is a word with so many symbols `c` before it.
fn is_fronted(alloc: Global, row: &[u8], count: usize, c: u8, word: &[u8]) -> Result<bool, NoMemory>
    ensures so { IfOk result (λ b. IsTrue b → row.now ≡ replicate count c ++ word.now) }
{
    let other = fronted(alloc, count, c, word)?;
    Ok(row == other.symbols())
}

// True only if the rows of set `j` of the larger code, after its first one, are those of the code's set, with zeros before them.
fn has_rows(alloc: Global, led: &Sets, sets: &Sets, j: usize) -> Result<bool, NoMemory>
    requires larger { length led.now.rows ≡ length sets.now.rows + 1 }
    requires set { j < set_count sets.now }
    requires led_set { j < set_count led.now }
    ensures so { IfOk result (λ b. IsTrue b → HasRowsTo led.now sets.now j (length sets.now.rows)) }
{
    for i in 0..sets.dimension() {
        if !is_fronted(alloc, led.row(j, i + 1), sets.count(), 0, sets.row(j, i))? {
            return Ok(false);
        }
    }
    Ok(true)
}

// True only if set `j` of the larger code has the rows that the code's set gives, and the row of `left`, with ones before it.
fn has_set(alloc: Global, led: &Sets, sets: &Sets, left: &Word, j: usize) -> Result<bool, NoMemory>
    requires larger { length led.now.rows ≡ length sets.now.rows + 1 }
    requires set { j < set_count sets.now }
    requires led_set { j < set_count led.now }
    ensures so { IfOk result (λ b. IsTrue b → generator_at led.now j
        ≡ led_rows (set_count sets.now) left.now (generator_at sets.now j)) }
{
    let _code = sets.dimension();
    let _larger = led.dimension();
    if !is_fronted(alloc, led.row(j, 0), sets.count(), 1, left.symbols())? {
        return Ok(false);
    }
    let same = has_rows(alloc, led, sets, j)?;
    Ok(same)
}

// True only if the first sets of the larger code have the rows that the sets of the code give, and what is left of the word.
fn has_sets(
    alloc: Global,
    led: &Sets,
    sets: &Sets,
    word: &Word,
    lefts: &[Word],
) -> Result<bool, NoMemory>
    requires lefts { AreLefts sets.now word.now lefts.now }
    requires larger { length led.now.rows ≡ length sets.now.rows + 1 }
    requires many { set_count sets.now ≤ set_count led.now }
    ensures so { IfOk result (λ b. IsTrue b → AreLedSets sets.now word.now led.now) }
{
    for j in 0..sets.count() {
        if !has_set(alloc, led, sets, &lefts[j], j)? {
            return Ok(false);
        }
    }
    Ok(true)
}

// The first block of each phase of a plan of the larger code.
fn starts_of(alloc: Global, _sets: &Sets, plan: &Plan) -> Result<Vec<u64>, NoMemory>
    requires plan { plan.now ≡ led_plan _sets.now }
    ensures are { IfOk result (λ starts. AreStartsOf plan.now starts.items) }
{
    let mut starts = Vec::new(alloc);
    let mut block: u64 = 0;
    while block < plan.total() {
        starts.push(block)?;
        block = plan.phase_end(block);
    }
    Ok(starts)
}

// The plan of the larger code, with as many sets as the code has.
#[tactic(auto, using(lc_code::proofs::CoordinateSteps::small_size))]
fn plan_of(alloc: Global, sets: &Sets) -> Result<Plan, NoMemory>
    requires fewer { length sets.now.rows < sets.now.columns }
    ensures plan { IfOk result (λ p. p ≡ led_plan sets.now) }
{
    let _long = sets.length();
    let size = sets.field().size() as u64;
    Plan::build(alloc, sets.dimension() + 1, size, sets.count())
}

/// The larger code of a code and a word, of which the first word of each set leaves `lefts`. None if it is longer than 255 or
/// its first sets aren't those of the code.
pub(crate) fn led_of(
    alloc: Global,
    sets: &Sets,
    word: &Word,
    lefts: &[Word],
) -> Result<Option<Led>, NoMemory>
    requires word { IsWord sets.now.field sets.now.columns word.now }
    requires fewer { length sets.now.rows < sets.now.columns }
    requires lefts { AreLefts sets.now word.now lefts.now }
    ensures led { IfOk result (λ o. IfSome o (IsLed sets.now word.now)) }
{
    if sets.count() + sets.length() > LONGEST {
        return Ok(None);
    }
    let led = sets_of(alloc, sets, word)?;
    if led.count() < sets.count() {
        return Ok(None);
    }
    if !has_sets(alloc, &led, sets, word, lefts)? {
        return Ok(None);
    }
    let plan = plan_of(alloc, sets)?;
    let starts = starts_of(alloc, sets, &plan)?;
    Ok(Some(Led {
        sets: led,
        plan,
        starts,
    }))
}

/// True only if a block of a phase has 4,096 patterns, and they are those of a block of the larger code's plan. (A false answer costs
/// time: the block is done pattern by pattern.)
pub(crate) fn has_block(led: &Led, phase: CosetPhase, block: u64) -> bool
    requires small { block ≤ 2 ^ 40 }
    ensures so { IsTrue result → HasBlock led.now phase block }
{
    if phase.number >= led.starts.len() || block >= phase.patterns / 4096 {
        return false;
    }
    let total = led.plan.total();
    let start = led.starts[phase.number];
    start < total && block < total - start
}

/// The least value of such a block: that of the block of the larger code, less the ones, and with the places of the phase.
/// It takes no memory.
pub(crate) fn least_led(
    led: &Led,
    frame: &Frame,
    phase: CosetPhase,
    block: u64,
    scratch: &mut Scratch,
) -> u64
    requires frame { IsFrame frame.now }
    requires phase { IsPhaseOf frame.now phase }
    requires block { block < phase.blocks }
    requires led { IsLed frame.now.sets frame.now.word led.now }
    requires whole { HasBlock led.now phase block }
    requires scratch { scratch.old ≡ led.now.sets }
    ensures scratch { scratch.new ≡ scratch.old }
    ensures is { option_map board_value (least_in (near_in_block frame.now.sets frame.now.word (phase.first + block)))
        ≡ Some result }
{
    let count = frame.sets.count() as u64;
    let at = led.starts[phase.number] + block;
    let value = least(&led.sets, &led.plan, at, scratch);
    value - count * PLACES - at * 4096 + (phase.first + block) * 4096
}
