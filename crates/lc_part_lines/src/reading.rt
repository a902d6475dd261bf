//! How bytes are read as the line of a part.
ghost use Rattle.std.specs.Prelude.{◌≡◌, ◌≤◌, nat_le, length, false, codes, option_map, IfOk, IfSome, IsOk, IsTrue};
ghost use Rattle.std.specs.List.{list_all};
ghost use Rattle.serde_json.specs.View.{view};
ghost use Rattle.lc_formats.specs.Json.{number_at};
ghost use Rattle.lc_json.specs.Inside.{members_in};
ghost use Rattle.lc_parts.specs.Seen.{part_of, facts_seen};
ghost use Rattle.lc_part_lines.specs.Line.{are_ranks, is_headed, size_in, facts_at, part_at, line_in, versioned, part_in, IsInRange};
ghost use Rattle.lc_part_lines.specs.Seen.{line_of, read_of};

use crate::line::PartLine;
use crate::refusal::LineRefusal;
use lc_certificate::symbol_field;
use lc_checkpoint::{ranged_at, script_at, seal_of};
use lc_enumeration::{CUT, PLACES};
use lc_field::NoMemory;
use lc_json::{has_keys, is_same, list_at, number_at, read as read_json};
use lc_parts::{Facts, Part};
use serde_json::Value;
use std::alloc::Global;

// Whether the bytes are the seal of the rest, a blank and the rest.
#[tactic(auto, using(crate::proofs::LineLaws::is_headed_laws))]
fn is_headed(bytes: &[u8]) -> bool
    ensures is { result ≡ is_headed bytes.now }
    ensures long { IsTrue result → 65 ≤ length bytes.now }
{
    if bytes.len() < 65 {
        return false;
    }
    let (digits, _) = bytes.split_at(64);
    let (_, body) = bytes.split_at(65);
    if !is_same(digits, &seal_of(body)) {
        return false;
    }
    bytes[64] == b' '
}

// The size of the field, if it is that of a symbol field.
#[tactic(auto, using(crate::proofs::LineLaws::size_at_laws))]
fn size_at(object: &Value) -> Option<u64>
    ensures is { result ≡ size_in (members_in (view object.now)) }
{
    match number_at(object, "q") {
        Some(q) => {
            let _ = symbol_field(q)?;
            Some(q)
        }
        None => None,
    }
}

// Whether no number is more than k.
fn are_within(k: u64, ranks: &[u64]) -> bool
    ensures is { result ≡ list_all (λ r. nat_le r k) ranks.now }
{
    ranks.iter().all(|r| *r <= k)
}

// Whether these can be the ranks of the sets of a code of dimension k.
#[tactic(auto, using(crate::proofs::LineLaws::are_ranks_laws))]
fn are_ranks(k: u64, ranks: &[u64]) -> bool
    ensures is { result ≡ are_ranks k ranks.now }
{
    if ranks.is_empty() {
        return false;
    }
    ranks[0] == k && (ranks.len() <= 255 && are_within(k, ranks))
}

// What the plan and the bound of the search are made of.
#[tactic(auto, using(crate::proofs::LineLaws::facts_at_laws))]
fn facts_at(alloc: Global, object: &Value) -> Result<Option<Facts>, NoMemory>
    ensures is { IfOk result (λ o. option_map facts_seen o ≡ facts_at (members_in (view object.now))) }
{
    let Some(k) = ranged_at(object, "k", 1, 255) else {
        return Ok(None);
    };
    let Some(q) = size_at(object) else {
        return Ok(None);
    };
    let Some(divisor) = ranged_at(object, "divisor", 1, 255) else {
        return Ok(None);
    };
    let Some(first) = ranged_at(object, "first", 1, 255) else {
        return Ok(None);
    };
    let Some(ranks) = list_at(alloc, object, "ranks")? else {
        return Ok(None);
    };
    if !are_ranks(k, &ranks) {
        return Ok(None);
    }
    Ok(Some(Facts {
        k,
        q,
        ranks,
        divisor,
        first,
    }))
}

// The part.
#[tactic(auto, using(crate::proofs::LineLaws::part_at_laws))]
fn part_at(object: &Value) -> Option<Part>
    ensures is { option_map part_of result ≡ part_at (members_in (view object.now)) }
{
    let Some(start) = ranged_at(object, "from", 0, CUT) else {
        return None;
    };
    let Some(count) = ranged_at(object, "count", 1, CUT) else {
        return None;
    };
    let Some(weight) = ranged_at(object, "weight", 1, 255) else {
        return None;
    };
    let Some(place) = ranged_at(object, "place", 0, PLACES - 1) else {
        return None;
    };
    if CUT < start + count {
        return None;
    }
    Some(Part {
        start,
        count,
        weight,
        place,
    })
}

// The line that an object states.
#[tactic(auto, using(crate::proofs::LineLaws::line_at_laws))]
fn line_at(alloc: Global, object: &Value) -> Result<Option<PartLine>, NoMemory>
    ensures is { IfOk result (λ o. option_map line_of o ≡ line_in (members_in (view object.now))) }
{
    if !has_keys(object, 11) {
        return Ok(None);
    }
    let Some(script) = script_at(object) else {
        return Ok(None);
    };
    let Some(part) = part_at(object) else {
        return Ok(None);
    };
    let Some(facts) = facts_at(alloc, object)? else {
        return Ok(None);
    };
    Ok(Some(PartLine {
        script,
        facts,
        part,
    }))
}

// The line that the body states.
#[tactic(auto, using(crate::proofs::LineLaws::line_of_laws))]
fn line_of(alloc: Global, body: &Value) -> Result<Result<PartLine, LineRefusal>, NoMemory>
    ensures is { IfOk result (λ r. read_of r ≡ versioned (members_in (view body.now))
        (number_at (codes "version") (members_in (view body.now)))) }
{
    let Some(version) = number_at(body, "version") else {
        return Ok(Err(LineRefusal::Shape));
    };
    if version != 1 {
        return Ok(Err(LineRefusal::Version(version)));
    }
    match line_at(alloc, body)? {
        Some(line) => Ok(Ok(line)),
        None => Ok(Err(LineRefusal::Shape)),
    }
}

/// The line of a part that the bytes are, without the newline that ends it. Fails if memory runs out.
///
/// Refused with `Damaged` exactly if there are fewer than 65 bytes or they don't begin with the 64 digits of the SHA-256 (FIPS
/// 180-4) of the rest and a blank; else with `Shape` if the body is no JSON object with a whole number for its version, with
/// `Version` if that isn't 1, and with `Shape` if a key is missing or foreign, or a value is out of range. Bytes that are
/// damaged are refused before any memory is taken.
#[tactic(auto, using(crate::proofs::LineLaws::read_laws))]
pub fn read(alloc: Global, bytes: &[u8]) -> Result<Result<PartLine, LineRefusal>, NoMemory>
    ensures is { IfOk result (λ r. read_of r ≡ part_in bytes.now) }
    ensures ranged { IfOk result (λ r. IfOk r (λ l. IsInRange (line_of l))) }
    ensures damaged { is_headed bytes.now ≡ false → IsOk result }
{
    if !is_headed(bytes) {
        return Ok(Err(LineRefusal::Damaged));
    }
    let (_, body) = bytes.split_at(65);
    match read_json(alloc, body)? {
        Some(value) => line_of(alloc, &value),
        None => Ok(Err(LineRefusal::Shape)),
    }
}
