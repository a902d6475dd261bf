//! Reads the parts of a JSON value.
ghost use Rattle.std.specs.Prelude.{◌≡◌, ◌==◌, map, Option, None, option_map, option_and_then, IfOk, IsOk};
ghost use Rattle.serde_json.specs.Find.{get_member, as_str, as_array};
ghost use Rattle.serde_json.specs.View.{view};
ghost use Rattle.lc_formats.specs.Text.{same_bytes};
ghost use Rattle.lc_formats.specs.Json.{json_in, number_at, numbers_of, list_at, listed, member_count};
ghost use Rattle.lc_json.specs.Inside.{members_in};

use lc_field::NoMemory;
use serde_json::Value;
use std::alloc::Global;

/// The JSON value that the bytes are; `None` exactly if they are none, as bytes that are not UTF-8 and values that are nested
/// more than 127 deep.
#[tactic(auto, using(crate::proofs::InsideLaws::read_laws))]
pub fn read(alloc: Global, bytes: &[u8]) -> Result<Option<Value>, NoMemory>
    ensures is { IfOk result (λ o. option_map view o ≡ json_in bytes.now) }
{
    match Value::from_slice(alloc, bytes) {
        Ok(value) => Ok(Some(value)),
        Err(error) => {
            if error.is_memory() {
                return Err(NoMemory);
            }
            Ok(None)
        }
    }
}

/// The number at a key of an object, if a whole number of 64 bits stands there. A value that is no object has no keys.
#[tactic(auto, using(crate::proofs::InsideLaws::number_at_laws))]
pub fn number_at(object: &Value, key: &str) -> Option<u64>
    ensures is { result ≡ number_at key.now (members_in (view object.now)) }
{
    match object.get(key) {
        Some(value) => value.as_u64(),
        None => None,
    }
}

/// The text at a key of an object, if a string stands there.
pub fn text_at<'v>(object: &'v Value, key: &str) -> Option<&'v str>
    ensures is { option_map (λ s. s.now) result
        ≡ option_and_then as_str (get_member key.now (members_in (view object.now))) }
{
    match object.get(key) {
        Some(value) => value.as_str(),
        None => None,
    }
}

/// The items of the array at a key of an object, if an array stands there.
#[tactic(auto, using(crate::proofs::InsideLaws::array_found))]
pub fn array_at<'v>(object: &'v Value, key: &str) -> Option<&'v Vec<Value>>
    ensures is { option_map (λ v. map view v.now.items) result
        ≡ option_map listed (option_and_then as_array (get_member key.now (members_in (view object.now)))) }
{
    match object.get(key) {
        Some(value) => value.as_array(),
        None => None,
    }
}

/// The numbers that a value lists, if it is an array of whole numbers of 64 bits.
#[tactic(auto, using(crate::proofs::InsideLaws::numbers_of_laws))]
pub fn numbers_of(alloc: Global, value: &Value) -> Result<Option<Vec<u64>>, NoMemory>
    ensures is { IfOk result (λ o. option_map (λ v. v.items) o ≡ numbers_of (view value.now)) }
    // What is no array takes no memory.
    ensures none { as_array (view value.now) ≡ None → IsOk result }
{
    let Some(items) = value.as_array() else {
        return Ok(None);
    };
    let mut numbers = Vec::with_capacity(alloc, items.len())?;
    for item in items {
        match item.as_u64() {
            Some(number) => numbers.push(number)?,
            None => return Ok(None),
        }
    }
    Ok(Some(numbers))
}

/// The numbers listed at a key of an object, if an array of whole numbers of 64 bits stands there.
#[tactic(auto, using(crate::proofs::InsideLaws::list_at_laws))]
pub fn list_at(alloc: Global, object: &Value, key: &str) -> Result<Option<Vec<u64>>, NoMemory>
    ensures is { IfOk result (λ o. option_map (λ v. v.items) o ≡ list_at key.now (members_in (view object.now))) }
    // Where no array is, it takes no memory.
    ensures none { option_and_then as_array (get_member key.now (members_in (view object.now))) ≡ None → IsOk result }
{
    match object.get(key) {
        Some(value) => numbers_of(alloc, value),
        None => Ok(None),
    }
}

/// Whether an object has `count` keys. A value that is no object has none.
#[tactic(auto, using(crate::proofs::InsideLaws::has_keys_laws))]
pub fn has_keys(object: &Value, count: usize) -> bool
    ensures is { result ≡ (member_count (members_in (view object.now)) == count) }
{
    match object.as_object() {
        Some(members) => members.len() == count,
        None => count == 0,
    }
}

/// Whether two texts are the same, byte by byte.
#[tactic(auto, using(lc_formats::proofs::ByteLaws::same_pointwise))]
pub fn is_same(text: &[u8], other: &[u8]) -> bool
    ensures is { result ≡ same_bytes text.now other.now }
{
    text == other
}
