//! Reads the rows and the word of a certificate.
ghost use Rattle.std.specs.Prelude.{◌≡◌, ◌<◌, nat_lt, map, option_map, codes, IsSome, IfOk, IfErr};
ghost use Rattle.serde_json.specs.Find.{as_array};
ghost use Rattle.serde_json.specs.View.{view};
ghost use Rattle.lc_algebra.specs.Field.{size};
ghost use Rattle.lc_formats.specs.Json.{plain_number, numbers_of, list_at, each, provided};
ghost use Rattle.lc_formats.specs.Check.{fit, are_rows, rows_at};
ghost use Rattle.lc_json.specs.Inside.{members_in};
ghost use Rattle.lc_certificate.specs.Reading.{HasArray};

use crate::certificate::size_of;
use lc_algebra::FieldName;
use lc_field::NoMemory;
use lc_json::array_at;
use lc_vec::Word;
use serde_json::Value;
use std::alloc::Global;

// The element of the field that a value is.
#[tactic(auto, unfolding(lc_formats::specs::Json::plain_number, lc_formats::specs::Json::provided))]
fn symbol_of(field: FieldName, value: &Value) -> Option<u8>
    ensures is { result ≡ provided (λ a. nat_lt a (size field)) (plain_number (view value.now)) }
{
    match value.as_u64() {
        Some(a) => {
            if a < size_of(field) {
                return Some(a as u8);
            }
            None
        }
        None => None,
    }
}

// The word of length n over the field that a value lists.
#[tactic(auto, using(crate::proofs::RowLaws::word_of_laws))]
fn word_of(
    alloc: Global,
    field: FieldName,
    n: usize,
    value: &Value,
) -> Result<Option<Word>, NoMemory>
    ensures is { IfOk result (λ o. o ≡ provided (fit field n) (numbers_of (view value.now))) }
    ensures needed { IfErr result (λ _. IsSome (as_array (view value.now))) }
{
    let Some(items) = value.as_array() else {
        return Ok(None);
    };
    if items.len() != n {
        return Ok(None);
    }
    let mut symbols = Vec::with_capacity(alloc, n)?;
    for item in items {
        match symbol_of(field, item) {
            Some(symbol) => symbols.push(symbol)?,
            None => return Ok(None),
        }
    }
    Ok(Some(Word::from_vec(symbols)))
}

// The rows that values list: at least one, all of the first one's length, which isn't 0.
#[tactic(auto, using(crate::proofs::RowLaws::rows_of_laws))]
fn rows_of(alloc: Global, field: FieldName, items: &[Value]) -> Result<Option<Vec<Word>>, NoMemory>
    ensures is { IfOk result
        (λ o. option_map (λ v. v.items) o ≡ provided (are_rows field) (each (map numbers_of (map view items.now)))) }
{
    let [first, ..] = items else {
        return Ok(None);
    };
    let Some(front) = first.as_array() else {
        return Ok(None);
    };
    let n = front.len();
    if n == 0 {
        return Ok(None);
    }
    let mut rows = Vec::with_capacity(alloc, items.len())?;
    for item in items {
        match word_of(alloc, field, n, item)? {
            Some(row) => rows.push(row)?,
            None => return Ok(None),
        }
    }
    Ok(Some(rows))
}

// The rows of an object. Memory is taken only for an array.
#[tactic(auto, using(crate::proofs::RowLaws::rows_at_laws))]
pub(crate) fn rows_at(
    alloc: Global,
    object: &Value,
    field: FieldName,
) -> Result<Option<Vec<Word>>, NoMemory>
    ensures is { IfOk result
        (λ o. option_map (λ v. v.items) o ≡ provided (are_rows field) (rows_at (members_in (view object.now)))) }
    ensures needed { IfErr result (λ _. HasArray (codes "rows") (members_in (view object.now))) }
{
    match array_at(object, "rows") {
        Some(items) => rows_of(alloc, field, items),
        None => Ok(None),
    }
}

// The word of length n at a key of an object. Memory is taken only for an array.
#[tactic(auto, using(crate::proofs::RowLaws::word_at_laws))]
pub(crate) fn word_at(
    alloc: Global,
    object: &Value,
    key: &str,
    field: FieldName,
    n: usize,
) -> Result<Option<Word>, NoMemory>
    ensures is { IfOk result (λ o. o ≡ provided (fit field n) (list_at key.now (members_in (view object.now)))) }
    ensures needed { IfErr result (λ _. HasArray key.now (members_in (view object.now))) }
{
    match object.get(key) {
        Some(value) => word_of(alloc, field, n, value),
        None => Ok(None),
    }
}
