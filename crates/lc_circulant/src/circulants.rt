//! Circulant and quasi-cyclic codes.
ghost use Rattle.std.specs.Prelude.{◌≡◌, ◌*◌, ◌≤◌, ◌++◌, flat_map, length, IfOk, IsTrue, All};
ghost use Rattle.lc_algebra.specs.Field.{is_symbol};
ghost use Rattle.lc_algebra.specs.Word.{IsWord};
ghost use Rattle.lc_algebra.specs.Matrix.{AreRows};
ghost use Rattle.lc_constructions.specs.Code.{longest, IsCode};
ghost use Rattle.lc_constructions.specs.Basic.{GeneratedBy};
ghost use Rattle.lc_constructions.specs.Refusal.{first_refusal, IsRefusedAs, RefusesFirst};
ghost use Rattle.lc_language.specs.Circulant.{shifted_by, circulant, circulants, circulant_refusals, quasi_cyclic_refusals};

use crate::refusal::{check_circulant, check_quasi_cyclic};
use lc_code::{Code, CodeRefusal};
use lc_field::{Field, NoMemory};
use lc_vec::Word;
use std::alloc::Global;

/// The circulant code of a word `x` of `n` symbols: the code that the n cyclic shifts of the word span, each by one coordinate
/// more to the right (MacWilliams and Sloane, chapter 16).
///
/// It is the smallest cyclic code that contains the word. Refused in this order: the field has more than 16 elements,
/// FieldTooLarge; `n` is 0 or above 255, BadLength; the word hasn't n symbols, LengthsDiffer; a symbol isn't below the size of
/// the field, BadArgument(1). Fails if memory runs out.
#[tactic(auto, using(lc_constructions::proofs::RefusalLaws::refused_or_not))]
pub fn circulant(alloc: Global, x: &[u8], n: u64, field: &Field) -> Result<Code, CodeRefusal>
    ensures code { IfOk result (λ c. IsCode field.now n (GeneratedBy field.now n (circulant n x.now)) c) }
    ensures refused { IsRefusedAs result (first_refusal (circulant_refusals field.now x.now n)) }
    ensures first { RefusesFirst result (first_refusal (circulant_refusals field.now x.now n)) }
{
    check_circulant(field, x, n)?;
    Ok(shifts_of_one(alloc, x, field)?)
}

// The code of the shifts of a word: that of one circulant matrix.
#[tactic(auto, using(crate::proofs::RowLaws::shifts_of_one_laws))]
fn shifts_of_one(alloc: Global, x: &[u8], field: &Field) -> Result<Code, NoMemory>
    requires symbol { IsTrue (is_symbol field.now) }
    requires least { 1 ≤ length x.now }
    requires most { length x.now ≤ longest }
    requires word { IsWord field.now (length x.now) x.now }
    ensures code { IfOk result
        (λ c. IsCode field.now (length x.now)
        (GeneratedBy field.now (length x.now) (circulant (length x.now) x.now)) c) }
{
    let words = vec![in alloc; Word::from_slice(alloc, x)?]?;
    Ok(side_by_side(alloc, &words, x.len(), field)?)
}

/// The quasi-cyclic code of some words of `n` symbols: its generator matrix has the circulant matrices of the words side by side.
/// Row i of it is each word after i cyclic shifts to the right, one after the other (MacWilliams and Sloane, chapter 16; GUAVA
/// manual, `QuasiCyclicCode`).
///
/// Its length is `n` times the number of words. Refused in this order: the field has more than 16 elements, FieldTooLarge; `n` is
/// 0, there is no word, or the length is above 255, BadLength; a word hasn't n symbols, LengthsDiffer; a symbol isn't below the
/// size of the field, BadArgument(1). Fails if memory runs out.
#[tactic(auto, using(lc_constructions::proofs::RefusalLaws::refused_or_not))]
pub fn quasi_cyclic(
    alloc: Global,
    words: &[Word],
    n: u64,
    field: &Field,
) -> Result<Code, CodeRefusal>
    ensures code { IfOk result (λ c. IsCode field.now (length words.now * n)
        (GeneratedBy field.now (length words.now * n) (circulants n words.now)) c) }
    ensures refused { IsRefusedAs result (first_refusal (quasi_cyclic_refusals field.now words.now n)) }
    ensures first { RefusesFirst result (first_refusal (quasi_cyclic_refusals field.now words.now n)) }
{
    check_quasi_cyclic(field, words, n)?;
    Ok(side_by_side(alloc, words, n as usize, field)?)
}

// The code of the circulant matrices of the words, side by side.
#[tactic(auto, using(crate::proofs::RowLaws::side_by_side_laws))]
fn side_by_side(alloc: Global, words: &[Word], n: usize, field: &Field) -> Result<Code, NoMemory>
    requires symbol { IsTrue (is_symbol field.now) }
    requires least { 1 ≤ length words.now * n }
    requires most { length words.now * n ≤ longest }
    requires words { AreRows field.now n words.now }
    ensures code { IfOk result (λ c. IsCode field.now (length words.now * n)
        (GeneratedBy field.now (length words.now * n) (circulants n words.now)) c) }
{
    let rows = circulants(alloc, words, n)?;
    Ok(Code::from_rows(alloc, field, words.len() * n, &rows)?)
}

// The rows of the circulant matrices.
#[tactic(auto, using(crate::proofs::RowLaws::circulants_laws))]
fn circulants(alloc: Global, words: &[Word], n: usize) -> Result<Vec<Word>, NoMemory>
    requires words { All (λ x. length x ≡ n) words.now }
    ensures are { IfOk result (λ rows. rows.items ≡ circulants n words.now) }
{
    let mut rows = Vec::new(alloc);
    for i in 0..n {
        rows.push(circulant_row(alloc, words, n, i)?)?;
    }
    Ok(rows)
}

// Each word after i cyclic shifts, one after the other.
#[tactic(auto, using(crate::proofs::RowLaws::circulant_row_laws))]
fn circulant_row(alloc: Global, words: &[Word], n: usize, i: usize) -> Result<Word, NoMemory>
    requires words { All (λ x. length x ≡ n) words.now }
    requires shift { i ≤ n }
    ensures is { IfOk result (λ w. w ≡ flat_map (shifted_by i) words.now) }
{
    let mut symbols = Vec::new(alloc);
    for word in words {
        push_shifted(word.symbols(), i, &mut symbols)?;
    }
    Ok(Word::from_vec(symbols))
}

// Pushes the word after i cyclic shifts: its last i symbols, and the others after them.
#[tactic(auto, using(crate::proofs::ShiftLaws::shifted_pushed))]
fn push_shifted(word: &[u8], i: usize, symbols: &mut Vec<u8>) -> Result<(), NoMemory>
    requires shift { i ≤ length word.now }
    ensures pushed { IfOk result (λ _. symbols.new.items ≡ symbols.old.items ++ shifted_by i word.now) }
{
    let (front, back) = word.split_at(word.len() - i);
    symbols.extend_from_slice(back)?;
    symbols.extend_from_slice(front)?;
    Ok(())
}
