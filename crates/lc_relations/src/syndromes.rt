//! Syndromes.
ghost use Rattle.std.specs.Prelude.{◌≡◌, IfOk};
ghost use Rattle.lc_algebra.specs.Matrix.{Matrix};
ghost use Rattle.lc_algebra.specs.Word.{IsWord};
ghost use Rattle.lc_constructions.specs.Code.{IsCode};
ghost use Rattle.lc_constructions.specs.Combined.{InDual};
ghost use Rattle.lc_constructions.specs.Coset.{syndrome as syndrome_of};

use lc_code::Code;
use lc_field::NoMemory;
use lc_vec::{Word, dot};
use std::alloc::Global;

/// The syndrome of a word: its dots with the rows of the reduced generator matrix of the dual code (MacWilliams and Sloane,
/// chapter 1; GUAVA manual, `Syndrome`).
///
/// The word has as many symbols of the code's field as the code's length.
pub fn syndrome(alloc: Global, code: &Code, word: &[u8]) -> Result<Word, NoMemory>
    requires word { IsWord code.now.field code.now.columns word.now }
    ensures is { IfOk result (λ s. (H : Matrix) × IsCode code.now.field code.now.columns (InDual code.now) H ×
        (s ≡ syndrome_of code.now.field H.rows word.now)) }
{
    let dual = code.dual(alloc)?;
    Ok(dots(alloc, &dual, word)?)
}

// The dots of the word with the rows of a code.
#[tactic(auto, unfolding(lc_constructions::specs::Coset::syndrome))]
fn dots(alloc: Global, code: &Code, word: &[u8]) -> Result<Word, NoMemory>
    requires word { IsWord code.now.field code.now.columns word.now }
    ensures are { IfOk result (λ s. s ≡ syndrome_of code.now.field code.now.rows word.now) }
{
    let mut symbols = Vec::with_capacity(alloc, code.dimension())?;
    for i in 0..code.dimension() {
        symbols.push(dot(code.field(), code.row(i), word))?;
    }
    Ok(Word::from_vec(symbols))
}
