//! How bytes are read as a checkpoint.
ghost use Rattle.std.specs.Prelude.{◌≡◌, ◌≤◌, ◌==◌, ◌||◌, map, length, codes, Option, option_map, option_and_then, IfOk, IfErr, IfSome, IsErrOf, IsTrue};
ghost use Rattle.serde_json.specs.View.{view};
ghost use Rattle.lc_formats.specs.Json.{number_at, numbers_of, plain_number, each};
ghost use Rattle.lc_formats.specs.Checkpoint.{checkpoint_in, point, refused, damaged, is_whole, number_up_to, triple_of, is_in_range, settled_in, script_in, done_in, state_in, versioned, IsInRange};
ghost use Rattle.lc_json.specs.Inside.{members_in};
ghost use Rattle.lc_checkpoint.specs.Seen.{settled_of, point_of};
ghost use Rattle.lc_checkpoint.specs.Reading.{IsRefusedAs, current_in};

use crate::checkpoint::{Checkpoint, LAST_TURN, Settled};
use crate::refusal::CheckpointRefusal;
use crate::seal::{digest_of, seal_of};
use lc_enumeration::{CUT, PLACES};
use lc_field::NoMemory;
use lc_json::{array_at, has_keys, is_same, number_at, read, text_at};
use serde_json::Value;
use std::alloc::Global;

// Whether the bytes are the seal of the rest, a newline and the rest, and their number is allowed.
#[tactic(auto, using(crate::proofs::PointLaws::is_whole_laws))]
fn is_whole(bytes: &[u8]) -> bool
    ensures is { result ≡ is_whole bytes.now }
    ensures long { IsTrue result → 65 ≤ length bytes.now }
{
    if bytes.len() < 65 || bytes.len() > 4194304 {
        return false;
    }
    let (digits, _) = bytes.split_at(64);
    let (_, body) = bytes.split_at(65);
    if !is_same(digits, &seal_of(body)) {
        return false;
    }
    bytes[64] == b'\n'
}

/// Returns the number at a key of an object, if it is within a range, both ends included.
#[tactic(auto, using(crate::proofs::PointLaws::ranged_at_laws))]
pub fn ranged_at(object: &Value, key: &str, low: u64, high: u64) -> Option<u64>
    ensures is { result ≡ number_up_to low high (number_at key.now (members_in (view object.now))) }
    ensures range { IfSome result (λ n. (low ≤ n) × (n ≤ high)) }
{
    match number_at(object, key) {
        Some(n) => {
            if n < low {
                return None;
            }
            if high < n {
                return None;
            }
            Some(n)
        }
        None => None,
    }
}

/// Returns the digest that an object has at the key `script`, as 64 lower-case hexadecimal digits.
#[tactic(auto, using(crate::proofs::PointLaws::script_at_laws))]
pub fn script_at(object: &Value) -> Option<[u8; 32]>
    ensures is { result ≡ script_in (members_in (view object.now)) }
{
    match text_at(object, "script") {
        Some(text) => digest_of(text.as_bytes()),
        None => None,
    }
}

// The blocks, the weight and the place that three values state.
#[tactic(auto, using(crate::proofs::SettledLaws::triple_from_laws))]
fn triple_from(items: &[Value]) -> Option<Settled>
    ensures is { option_map settled_of result
        ≡ option_and_then triple_of (each (map (λ v. plain_number (view v)) items.now)) }
{
    if items.len() != 3 {
        return None;
    }
    let Some(blocks) = items[0].as_u64() else {
        return None;
    };
    let Some(weight) = items[1].as_u64() else {
        return None;
    };
    let Some(place) = items[2].as_u64() else {
        return None;
    };
    Some(Settled {
        blocks,
        weight,
        place,
    })
}

// The blocks, the weight and the place that an array of three numbers states.
#[tactic(auto, using(crate::proofs::SettledLaws::triple_of_laws))]
fn triple_of(value: &Value) -> Option<Settled>
    ensures is { option_map settled_of result ≡ option_and_then triple_of (numbers_of (view value.now)) }
{
    match value.as_array() {
        Some(items) => triple_from(items),
        None => None,
    }
}

// Whether the numbers of a settled need are in range.
#[tactic(auto, unfolding(crate::proofs::Opened::ranges))]
fn is_in_range(budget: u64, settled: &Settled) -> bool
    ensures is { result ≡ is_in_range budget (settled_of settled.now) }
{
    settled.blocks <= budget
        && (1 <= settled.weight && (settled.weight <= 255 && settled.place < PLACES))
}

// The settled need that an array states, if its numbers are in range.
#[tactic(auto, using(crate::proofs::SettledLaws::settled_in_laws))]
fn settled_in(budget: u64, value: &Value) -> Option<Settled>
    ensures is { option_map settled_of result ≡ settled_in budget (view value.now) }
{
    match triple_of(value) {
        Some(settled) => {
            if is_in_range(budget, &settled) {
                return Some(settled);
            }
            None
        }
        None => None,
    }
}

// The settled needs that arrays state.
#[tactic(auto, using(crate::proofs::SettledLaws::settled_list_laws))]
fn settled_list(
    alloc: Global,
    budget: u64,
    items: &[Value],
) -> Result<Option<Vec<Settled>>, NoMemory>
    ensures is { IfOk result
        (λ o. option_map (λ v. map settled_of v.items) o ≡ each (map (settled_in budget) (map view items.now))) }
{
    let mut settled = Vec::with_capacity(alloc, items.len())?;
    for item in items {
        match settled_in(budget, item) {
            Some(one) => settled.push(one)?,
            None => return Ok(None),
        }
    }
    Ok(Some(settled))
}

// The settled needs of an object, at most 131,072.
#[tactic(auto, using(crate::proofs::SettledLaws::done_at_laws))]
fn done_at(alloc: Global, object: &Value, budget: u64) -> Result<Option<Vec<Settled>>, NoMemory>
    ensures is { IfOk result
        (λ o. option_map (λ v. map settled_of v.items) o ≡ done_in budget (members_in (view object.now))) }
{
    match array_at(object, "done") {
        Some(items) => {
            if items.len() > 131072 {
                return Ok(None);
            }
            settled_list(alloc, budget, items)
        }
        None => Ok(None),
    }
}

// How far the search of the current need is.
#[tactic(auto, using(crate::proofs::PointLaws::current_at_laws))]
fn current_at(object: &Value, budget: u64) -> Option<Settled>
    ensures is { option_map settled_of result ≡ current_in budget (members_in (view object.now)) }
{
    let blocks = ranged_at(object, "blocks", 0, budget)?;
    let weight = ranged_at(object, "weight", 1, 255)?;
    let place = ranged_at(object, "place", 0, PLACES - 1)?;
    Some(Settled {
        blocks,
        weight,
        place,
    })
}

// The checkpoint of this version and budget that an object states.
#[tactic(auto, using(crate::proofs::PointLaws::state_of_laws))]
fn state_of(
    alloc: Global,
    object: &Value,
    version: u64,
    budget: u64,
) -> Result<Option<Checkpoint>, NoMemory>
    ensures is { IfOk result (λ o. option_map point_of o ≡ state_in (members_in (view object.now)) version budget) }
{
    if !has_keys(object, 8) {
        return Ok(None);
    }
    let Some(script) = script_at(object) else {
        return Ok(None);
    };
    let Some(turn) = ranged_at(object, "turn", 0, LAST_TURN) else {
        return Ok(None);
    };
    let Some(current) = current_at(object, budget) else {
        return Ok(None);
    };
    let Some(settled) = done_at(alloc, object, budget)? else {
        return Ok(None);
    };
    Ok(Some(Checkpoint {
        version,
        script,
        budget,
        turn,
        settled,
        blocks: current.blocks,
        weight: current.weight,
        place: current.place,
    }))
}

// Whether a version is read.
fn is_known(version: u64) -> bool
    ensures is { result ≡ ((version == 1) || (version == 2)) }
{
    version == 1 || version == 2
}

// The checkpoint that the body is.
#[tactic(auto, using(crate::proofs::PointLaws::point_from_laws))]
fn point_from(alloc: Global, body: &Value) -> Result<Checkpoint, CheckpointRefusal>
    ensures is { IfOk result
        (λ p. versioned (members_in (view body.now)) (number_at (codes "version") (members_in (view body.now)))
        ≡ point (point_of p)) }
    ensures refused { IfErr result
        (λ e. IsRefusedAs e (versioned (members_in (view body.now))
        (number_at (codes "version") (members_in (view body.now))))) }
{
    let Some(version) = number_at(body, "version") else {
        return Err(CheckpointRefusal::Shape);
    };
    if !is_known(version) {
        return Err(CheckpointRefusal::Version(version));
    }
    let Some(budget) = ranged_at(body, "budget", 0, CUT) else {
        return Err(CheckpointRefusal::Shape);
    };
    match state_of(alloc, body, version, budget)? {
        Some(state) => Ok(state),
        None => Err(CheckpointRefusal::Shape),
    }
}

/// The checkpoint that the bytes are, of version 1 or 2.
///
/// Refused with `Damaged` exactly if there are fewer than 65 or more than 4,194,304 bytes or they don't begin with the 64
/// digits of the SHA-256 (FIPS 180-4) of the rest and a newline; else with `Shape` if the body is no JSON object with a whole
/// number for its version, with `Version` if that is neither 1 nor 2, and with `Shape` if a key is missing or foreign, or a
/// value is out of range. Bytes that are damaged are refused before any memory is taken.
#[tactic(auto, using(crate::proofs::PointLaws::decode_laws))]
pub fn decode(alloc: Global, bytes: &[u8]) -> Result<Checkpoint, CheckpointRefusal>
    ensures is { IfOk result (λ p. checkpoint_in bytes.now ≡ point (point_of p)) }
    ensures refused { IfErr result (λ e. IsRefusedAs e (checkpoint_in bytes.now)) }
    ensures ranged { IfOk result (λ p. IsInRange (point_of p)) }
    ensures damaged { checkpoint_in bytes.now ≡ refused damaged → IsErrOf result CheckpointRefusal.Damaged }
{
    if !is_whole(bytes) {
        return Err(CheckpointRefusal::Damaged);
    }
    let (_, body) = bytes.split_at(65);
    match read(alloc, body)? {
        Some(value) => point_from(alloc, &value),
        None => Err(CheckpointRefusal::Shape),
    }
}
