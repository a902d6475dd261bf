//! Reads lists of numbers of any length.
ghost use Rattle.std.specs.Prelude.{◌≡◌, ◌≤◌, map, codes, Some, option_map, IfOk};
ghost use Rattle.serde_json.specs.View.{view};
ghost use Rattle.lc_constructions.specs.Refusals.{are_elements, have_elements};
ghost use Rattle.lc_formats.specs.Json.{numbers_of, list_at, each, provided};
ghost use Rattle.lc_formats.specs.Check.{rows_at};
ghost use Rattle.lc_formats.specs.Document.{bytes_at, is_tree_word};
ghost use Rattle.lc_json.specs.Inside.{members_in};
ghost use Rattle.lc_documents.specs.Parts.{are_below};

use lc_algebra::FieldName;
use lc_certificate::size_of;
use lc_field::NoMemory;
use lc_json::{array_at, list_at, numbers_of};
use lc_vec::Word;
use serde_json::Value;
use std::alloc::Global;

// The numbers as symbols, if all are below the limit.
#[tactic(auto, using(crate::proofs::ListLaws::symbols_of_laws))]
fn symbols_of(alloc: Global, numbers: &[u64], limit: u64) -> Result<Option<Word>, NoMemory>
    requires limit { limit ≤ 256 }
    ensures is { IfOk result (λ o. o ≡ provided (are_below limit) (Some numbers.now)) }
{
    let mut symbols = Vec::with_capacity(alloc, numbers.len())?;
    for number in numbers {
        if *number >= limit {
            return Ok(None);
        }
        symbols.push(*number as u8)?;
    }
    Ok(Some(Word::from_vec(symbols)))
}

// The list at a key of an object, of numbers of at most 255.
#[tactic(auto, using(crate::proofs::ListLaws::bytes_at_laws))]
pub(crate) fn bytes_at(alloc: Global, object: &Value, key: &str) -> Result<Option<Word>, NoMemory>
    ensures is { IfOk result (λ o. o ≡ bytes_at key.now (members_in (view object.now))) }
{
    let Some(numbers) = list_at(alloc, object, key)? else {
        return Ok(None);
    };
    symbols_of(alloc, &numbers, 256)
}

// The word over the field at `word` of an object: at least one symbol.
#[tactic(auto, using(crate::proofs::ListLaws::tree_word_laws))]
pub(crate) fn tree_word(
    alloc: Global,
    object: &Value,
    field: FieldName,
) -> Result<Option<Word>, NoMemory>
    ensures is { IfOk result
        (λ o. o ≡ provided (is_tree_word field) (list_at (codes "word") (members_in (view object.now)))) }
{
    let Some(numbers) = list_at(alloc, object, "word")? else {
        return Ok(None);
    };
    if numbers.is_empty() {
        return Ok(None);
    }
    symbols_of(alloc, &numbers, size_of(field))
}

// The word over the field that a value lists.
#[tactic(auto, using(crate::proofs::ListLaws::word_of_laws))]
fn word_of(alloc: Global, field: FieldName, value: &Value) -> Result<Option<Word>, NoMemory>
    ensures is { IfOk result (λ o. o ≡ provided (are_elements field) (numbers_of (view value.now))) }
{
    let Some(numbers) = numbers_of(alloc, value)? else {
        return Ok(None);
    };
    symbols_of(alloc, &numbers, size_of(field))
}

// The words over the field that values list.
#[tactic(auto, using(crate::proofs::ListLaws::words_of_laws))]
fn words_of(alloc: Global, field: FieldName, items: &[Value]) -> Result<Option<Vec<Word>>, NoMemory>
    ensures is { IfOk result
        (λ o. option_map (λ v. v.items) o
        ≡ provided (have_elements field) (each (map numbers_of (map view items.now)))) }
{
    let mut words = Vec::with_capacity(alloc, items.len())?;
    for item in items {
        match word_of(alloc, field, item)? {
            Some(word) => words.push(word)?,
            None => return Ok(None),
        }
    }
    Ok(Some(words))
}

// The words over the field at `rows` of an object, of any lengths.
#[tactic(auto, using(crate::proofs::ListLaws::words_at_laws))]
pub(crate) fn words_at(
    alloc: Global,
    object: &Value,
    field: FieldName,
) -> Result<Option<Vec<Word>>, NoMemory>
    ensures is { IfOk result
        (λ o. option_map (λ v. v.items) o ≡ provided (have_elements field) (rows_at (members_in (view object.now)))) }
{
    match array_at(object, "rows") {
        Some(items) => words_of(alloc, field, items),
        None => Ok(None),
    }
}
