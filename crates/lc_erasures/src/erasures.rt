//! Filling in the erased symbols of a word.
ghost use Rattle.std.specs.Prelude.{◌≡◌, ◌+◌, ◌<◌, ◌↔◌, [], length, Contains, IsTrue, IfOk};
ghost use Rattle.lc_algebra.specs.Word.{IsWord};
ghost use Rattle.lc_algebra.specs.Matrix.{column};
ghost use Rattle.lc_constructions.specs.Refusal.{first_refusal, IsRefusedAs, RefusesFirst};
ghost use Rattle.lc_language.specs.Erasures.{IsFilling, erased_refusals};
ghost use Rattle.lc_erasures.specs.Filling.{filling_of};
ghost use Rattle.lc_erasures.specs.System.{IsSystem, IsKnown};

use crate::refusal::check_erased;
use lc_code::{Code, CodeRefusal};
use lc_field::NoMemory;
use lc_matrix::Matrix;
use lc_relations::codeword_of;
use lc_vec::Word;
use std::alloc::Global;

/// What filling in the erased symbols of a word gives.
#[derive(Drop)]
pub enum Filling {
    /// the one codeword with the other symbols
    Filled(Word),
    /// no codeword has the other symbols
    Unfilled,
    /// several codewords have them
    Ambiguous,
}

/// The symbols of a word at coordinates that aren't erased, and the columns of the generator matrix there.
#[derive(Drop)]
struct Known {
    columns: Vec<Word>,
    symbols: Vec<u8>,
}

/// The one codeword that agrees with a word at all coordinates but the erased ones, or that there is none, or that there are
/// several (MacWilliams and Sloane, chapter 1, on erasures).
///
/// The word has as many symbols of the code's field as the code's length; those at the erased coordinates aren't looked at. The
/// erased coordinates may be all, or none.
///
/// Refused: the coordinates aren't strictly rising, or one of them is the length or more, BadPositions. Fails if memory runs out.
#[tactic(auto, using(lc_constructions::proofs::RefusalLaws::refused_or_not))]
pub fn fill_erasures(
    alloc: Global,
    code: &Code,
    word: &[u8],
    erased: &[u64],
) -> Result<Filling, CodeRefusal>
    requires word { IsWord code.now.field code.now.columns word.now }
    ensures is { IfOk result (λ a. IsFilling code.now word.now erased.now (filling_of a)) }
    ensures refused { IsRefusedAs result (first_refusal (erased_refusals code.now erased.now)) }
    ensures first { RefusesFirst result (first_refusal (erased_refusals code.now erased.now)) }
{
    check_erased(code, erased)?;
    Ok(filled(alloc, code, word, erased)?)
}

// What the messages of codewords with the known symbols tell.
fn filled(alloc: Global, code: &Code, word: &[u8], erased: &[u64]) -> Result<Filling, NoMemory>
    requires word { IsWord code.now.field code.now.columns word.now }
    ensures is { IfOk result (λ a. IsFilling code.now word.now erased.now (filling_of a)) }
{
    let mut known = Known {
        columns: Vec::new(alloc),
        symbols: Vec::new(alloc),
    };
    push_known(alloc, code, word, erased, &mut known)?;
    let system = Matrix::from_rows(alloc, code.field(), code.dimension(), &known.columns)?;
    solved(alloc, code, word, erased, &system, &known.symbols)
}

// The same from the system of equations of the messages.
fn solved(
    alloc: Global,
    code: &Code,
    _word: &[u8],
    _erased: &[u64],
    system: &Matrix,
    symbols: &[u8],
) -> Result<Filling, NoMemory>
    requires word { IsWord code.now.field code.now.columns _word.now }
    requires field { system.now.field ≡ code.now.field }
    requires columns { system.now.columns ≡ length code.now.rows }
    requires known { IsSystem code.now _word.now _erased.now code.now.columns system.now.rows symbols.now }
    ensures is { IfOk result (λ a. IsFilling code.now _word.now _erased.now (filling_of a)) }
{
    let _matrix = code.matrix();
    let Some(message) = system.solve(alloc, symbols)? else {
        return Ok(Filling::Unfilled);
    };
    let kernel = system.kernel(alloc)?;
    if kernel.rows() > 0 {
        return Ok(Filling::Ambiguous);
    }
    Ok(Filling::Filled(codeword_of(alloc, code, message.symbols())?))
}

// Pushes, for each coordinate that isn't erased, its column of the generator matrix and its symbol of the word.
#[tactic(auto, using(crate::proofs::SystemLaws::system_none))]
fn push_known(
    alloc: Global,
    code: &Code,
    word: &[u8],
    erased: &[u64],
    known: &mut Known,
) -> Result<(), NoMemory>
    requires word { IsWord code.now.field code.now.columns word.now }
    requires columns { known.old.columns.items ≡ [] }
    requires symbols { known.old.symbols.items ≡ [] }
    ensures known { IfOk result
        (λ _. IsSystem code.now word.now erased.now code.now.columns known.new.columns.items known.new.symbols.items) }
{
    let _matrix = code.matrix();
    for c in 0..code.length() {
        push_coordinate(alloc, code, word, erased, c, known)?;
    }
    Ok(())
}

// The same for one coordinate, after those below it.
#[tactic(auto, using(crate::proofs::SystemLaws::system_erased, crate::proofs::SystemLaws::system_more))]
fn push_coordinate(
    alloc: Global,
    code: &Code,
    word: &[u8],
    erased: &[u64],
    c: usize,
    known: &mut Known,
) -> Result<(), NoMemory>
    requires word { IsWord code.now.field code.now.columns word.now }
    requires inside { c < code.now.columns }
    requires known { IsSystem code.now word.now erased.now c known.old.columns.items known.old.symbols.items }
    ensures known { IfOk result
        (λ _. IsSystem code.now word.now erased.now (c + 1) known.new.columns.items known.new.symbols.items) }
{
    let _matrix = code.matrix();
    if is_erased(erased, c) {
        return Ok(());
    }
    known.columns.push(column(alloc, code, c)?)?;
    known.symbols.push(word[c])?;
    Ok(())
}

// Whether coordinate c is erased.
fn is_erased(erased: &[u64], c: usize) -> bool
    ensures is { IsTrue result ↔ Contains erased.now c }
{
    erased.contains(&(c as u64))
}

// Column c of the generator matrix.
fn column(alloc: Global, code: &Code, c: usize) -> Result<Word, NoMemory>
    requires inside { c < code.now.columns }
    ensures is { IfOk result (λ w. w ≡ column code.now.rows c) }
{
    let mut symbols = Vec::with_capacity(alloc, code.dimension())?;
    for i in 0..code.dimension() {
        symbols.push(code.row(i)[c])?;
    }
    Ok(Word::from_vec(symbols))
}
