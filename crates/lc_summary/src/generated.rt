//! The code of a seed.
ghost use Rattle.std.specs.Prelude.{◌≡◌, ◌<◌, IfOk};
ghost use Rattle.lc_algebra.specs.declared.FieldName.TheVariants.{Gf2};
ghost use Rattle.lc_session_rules.specs.Summary.{summary_code, summary_row, summary_rows, generator_words, seeded};

use lc_code::Code;
use lc_field::{Field, FieldRefusal, NoMemory};
use lc_vec::Word;
use rand_core::SeedableRng;
use rand_core::utils::NextWord;
use rand_pcg::Pcg32;
use std::alloc::Global;

// Row `i` of the generator matrix: 1 at coordinate `i` of the first 24, and then the 24 lowest bits of a word of the
// generator, the lowest first.
#[tactic(auto, using(crate::proofs::RowLaws::summary_row_laws))]
fn summary_row(alloc: Global, i: u64, word: u32) -> Result<Word, NoMemory>
    ensures { IfOk result (λ w. w ≡ summary_row i word) }
{
    let mut symbols = Vec::with_capacity(alloc, 48)?;
    for c in 0..24u64 {
        symbols.push(u8::from(i == c))?;
    }
    for j in 0..24u32 {
        symbols.push(((word >> j) % 2) as u8)?;
    }
    Ok(Word::from_vec(symbols))
}

// The 24 rows of the generator matrix of a seed.
fn summary_rows(alloc: Global, seed: u64) -> Result<Vec<Word>, NoMemory>
    ensures { IfOk result (λ rows. rows.items ≡ summary_rows 0 (generator_words 24 (seeded seed))) }
{
    let mut generator = Pcg32::seed_from_u64(seed);
    let mut rows = Vec::with_capacity(alloc, 24)?;
    for i in 0..24u64 {
        rows.push(summary_row(alloc, i, generator.next_word())?)?;
    }
    Ok(rows)
}

// The field of 2 elements.
#[tactic(auto, using(crate::proofs::RowLaws::binary_field_laws))]
fn binary_field(alloc: Global) -> Result<Field, NoMemory>
    ensures { IfOk result (λ f. f ≡ Gf2) }
{
    match Field::of(alloc, 2) {
        Ok(field) => Ok(field),
        Err(FieldRefusal::NotAField) => unreachable!(),
        Err(FieldRefusal::NoMemory) => Err(NoMemory),
    }
}

/// The code over 2 elements of length 48 that the rows of a seed span: row `i` of 24 is 1 at coordinate `i` of the first 24, and
/// its last 24 symbols are the lowest bits of the next word of the generator PCG32 (O'Neill, PCG: a family of simple fast
/// space-efficient statistically good algorithms for random number generation). Refused only for want of memory.
#[tactic(auto, using(crate::proofs::CodeLaws::summary_code_laws))]
pub fn summary_code(alloc: Global, seed: u64) -> Result<Code, NoMemory>
    ensures code { IfOk result (λ c. c ≡ summary_code seed) }
{
    let field = binary_field(alloc)?;
    let rows = summary_rows(alloc, seed)?;
    Code::from_rows(alloc, &field, 48, &rows)
}
