//! Punctured and shortened codes.
ghost use Rattle.std.specs.Prelude.{◌≡◌, ◌+◌, ◌-◌, ◌<◌, ◌++◌, None, take, length, IfOk};
ghost use Rattle.lc_constructions.specs.Code.{IsCode};
ghost use Rattle.lc_constructions.specs.Combined.{without, InPunctured, InShortened};
ghost use Rattle.lc_constructions.specs.Refusal.{first_refusal, IsRefusedAs, RefusesFirst};
ghost use Rattle.lc_constructions.specs.Refusals.{deleted_refusals};
ghost use Rattle.lc_combine.specs.Rows.{punctured_rows};

use crate::refusal::check_deleted;
use lc_code::{Code, CodeRefusal};
use lc_field::NoMemory;
use lc_vec::Word;
use std::alloc::Global;

/// The punctured code: each word of the code without the coordinates in the list, which are those of the code as it came
/// (MacWilliams and Sloane, chapter 1; GUAVA manual, `PuncturedCode`).
///
/// Refused: the coordinates aren't strictly rising, one of them is the length or more, or they are all coordinates, BadPositions.
#[tactic(auto, using(lc_constructions::proofs::RefusalLaws::refused_or_not))]
pub fn punctured(alloc: Global, code: &Code, coordinates: &[u64]) -> Result<Code, CodeRefusal>
    ensures code { IfOk result
        (λ c. IsCode code.now.field (code.now.columns - length coordinates.now)
        (InPunctured code.now coordinates.now) c) }
    ensures refused { IsRefusedAs result (first_refusal (deleted_refusals code.now coordinates.now)) }
    ensures first { RefusesFirst result (first_refusal (deleted_refusals code.now coordinates.now)) }
{
    check_deleted(code, coordinates)?;
    Ok(punctured_words(alloc, code, coordinates)?)
}

#[tactic(auto, using(crate::proofs::DeletedLaws::punctured_words))]
fn punctured_words(alloc: Global, code: &Code, coordinates: &[u64]) -> Result<Code, NoMemory>
    requires fine { first_refusal (deleted_refusals code.now coordinates.now) ≡ None }
    requires count { length coordinates.now < code.now.columns }
    ensures code { IfOk result
        (λ c. IsCode code.now.field (code.now.columns - length coordinates.now)
        (InPunctured code.now coordinates.now) c) }
{
    let _matrix = code.matrix();
    let rows = punctured_rows(alloc, code, coordinates)?;
    Ok(Code::from_rows(
        alloc,
        code.field(),
        code.length() - coordinates.len(),
        &rows,
    )?)
}

/// The shortened code: the words of the code that are 0 at the coordinates in the list, without these coordinates
/// (MacWilliams and Sloane, chapter 1; GUAVA manual, `ShortenedCode`).
///
/// Refused: the coordinates aren't strictly rising, one of them is the length or more, or they are all coordinates, BadPositions.
#[tactic(auto, using(lc_constructions::proofs::RefusalLaws::refused_or_not))]
pub fn shortened(alloc: Global, code: &Code, coordinates: &[u64]) -> Result<Code, CodeRefusal>
    ensures code { IfOk result
        (λ c. IsCode code.now.field (code.now.columns - length coordinates.now)
        (InShortened code.now coordinates.now) c) }
    ensures refused { IsRefusedAs result (first_refusal (deleted_refusals code.now coordinates.now)) }
    ensures first { RefusesFirst result (first_refusal (deleted_refusals code.now coordinates.now)) }
{
    check_deleted(code, coordinates)?;
    Ok(shortened_words(alloc, code, coordinates)?)
}

// The dual of the punctured dual.
#[tactic(auto, using(crate::proofs::DeletedLaws::shortened_words))]
fn shortened_words(alloc: Global, code: &Code, coordinates: &[u64]) -> Result<Code, NoMemory>
    requires fine { first_refusal (deleted_refusals code.now coordinates.now) ≡ None }
    requires count { length coordinates.now < code.now.columns }
    ensures code { IfOk result
        (λ c. IsCode code.now.field (code.now.columns - length coordinates.now)
        (InShortened code.now coordinates.now) c) }
{
    let _matrix = code.matrix();
    let dual = code.dual(alloc)?;
    let checks = punctured_rows(alloc, &dual, coordinates)?;
    Ok(Code::from_checks(
        alloc,
        code.field(),
        code.length() - coordinates.len(),
        &checks,
    )?)
}

// Each row, without these coordinates.
fn punctured_rows(alloc: Global, code: &Code, coordinates: &[u64]) -> Result<Vec<Word>, NoMemory>
    ensures are { IfOk result (λ rows. rows.items ≡ punctured_rows coordinates.now code.now.rows) }
{
    let mut rows = Vec::with_capacity(alloc, code.dimension())?;
    for i in 0..code.dimension() {
        rows.push(without(alloc, code.row(i), coordinates)?)?;
    }
    Ok(rows)
}

// The word without these coordinates.
#[tactic(auto, using(crate::proofs::DeletedLaws::nothing_kept))]
fn without(alloc: Global, word: &[u8], coordinates: &[u64]) -> Result<Word, NoMemory>
    ensures is { IfOk result (λ w. w ≡ without coordinates.now word.now) }
{
    let mut symbols = Vec::with_capacity(alloc, word.len())?;
    for i in 0..word.len() {
        keep(word, coordinates, i, &mut symbols)?;
    }
    Ok(Word::from_vec(symbols))
}

// Takes symbol i, if it isn't at one of these coordinates.
#[tactic(auto, using(crate::proofs::DeletedLaws::keep_laws))]
fn keep(word: &[u8], coordinates: &[u64], i: usize, symbols: &mut Vec<u8>) -> Result<(), NoMemory>
    requires inside { i < length word.now }
    requires state { symbols.old.items ≡ without coordinates.now (take i word.now) }
    ensures state { IfOk result (λ _. symbols.new.items ≡ without coordinates.now (take (i + 1) word.now)) }
{
    if coordinates.contains(&(i as u64)) {
        return Ok(());
    }
    symbols.push(word[i])?;
    Ok(())
}
