//! Extended codes.
ghost use Rattle.std.specs.Prelude.{◌≡◌, ◌+◌, ◌<◌, ◌≤◌, ◌++◌, ◌∷◌, [], IfOk};
ghost use Rattle.lc_algebra.specs.Field.{size, neg};
ghost use Rattle.lc_algebra.specs.Word.{Fits};
ghost use Rattle.lc_constructions.specs.Code.{longest, IsCode};
ghost use Rattle.lc_constructions.specs.Combined.{symbol_sum, InExtended};
ghost use Rattle.lc_constructions.specs.Refusal.{first_refusal, IsRefusedAs, RefusesFirst};
ghost use Rattle.lc_constructions.specs.Refusals.{extended_refusals};
ghost use Rattle.lc_combine.specs.Rows.{extended_rows};

use crate::refusal::check_extended;
use lc_code::{Code, CodeRefusal};
use lc_field::{Field, NoMemory};
use lc_vec::Word;
use std::alloc::Global;

/// The extended code: each word of the code, followed by minus the sum of its symbols, so that all symbols sum to 0
/// (MacWilliams and Sloane, chapter 1; GUAVA manual, `ExtendedCode`).
///
/// Refused: the length of the code is 255, BadLength.
#[tactic(auto, using(lc_constructions::proofs::RefusalLaws::refused_or_not))]
pub fn extended(alloc: Global, code: &Code) -> Result<Code, CodeRefusal>
    ensures code { IfOk result (λ c. IsCode code.now.field (code.now.columns + 1) (InExtended code.now) c) }
    ensures refused { IsRefusedAs result (first_refusal (extended_refusals code.now)) }
    ensures first { RefusesFirst result (first_refusal (extended_refusals code.now)) }
{
    check_extended(code)?;
    Ok(extended_words(alloc, code)?)
}

#[tactic(auto, using(crate::proofs::ExtendedLaws::extended_words_laws))]
fn extended_words(alloc: Global, code: &Code) -> Result<Code, NoMemory>
    requires most { code.now.columns < longest }
    ensures code { IfOk result (λ c. IsCode code.now.field (code.now.columns + 1) (InExtended code.now) c) }
{
    let _matrix = code.matrix();
    let rows = extended_rows(alloc, code)?;
    Ok(Code::from_rows(alloc, code.field(), code.length() + 1, &rows)?)
}

// Each row, with its last symbol.
fn extended_rows(alloc: Global, code: &Code) -> Result<Vec<Word>, NoMemory>
    requires most { code.now.columns < longest }
    ensures are { IfOk result (λ rows. rows.items ≡ extended_rows code.now.field code.now.rows) }
{
    let mut rows = Vec::with_capacity(alloc, code.dimension())?;
    for i in 0..code.dimension() {
        let row = code.row(i);
        let mut symbols = Vec::with_capacity(alloc, code.length() + 1)?;
        symbols.extend_from_slice(row)?;
        symbols.push(last_symbol(code.field(), row))?;
        rows.push(Word::from_vec(symbols))?;
    }
    Ok(rows)
}

// Minus the sum of the symbols.
#[tactic(auto, using(crate::proofs::ExtendedLaws::last_symbol_laws))]
fn last_symbol(field: &Field, word: &[u8]) -> u8
    requires word { Fits field.now word.now }
    ensures is { result ≡ neg field.now (symbol_sum field.now word.now) }
    ensures below { result < size field.now }
{
    let mut sum = 0;
    for i in 0..word.len() {
        sum = field.add(sum, word[i]);
    }
    field.neg(sum)
}
