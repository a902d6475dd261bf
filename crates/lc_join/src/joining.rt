//! What the lines of some bytes make.
ghost use Rattle.std.specs.Prelude.{◌≡◌, ◌<◌, ◌≤◌, ◌^◌, length, map, All, IfOk};
ghost use Rattle.hex.specs.Hex.{IsBytes};
ghost use Rattle.lc_formats.specs.Checkpoint.{checkpoint_text, IsProgress};
ghost use Rattle.lc_parts.specs.Joined.{first_state};
ghost use Rattle.lc_parts.specs.Seen.{facts_seen};
ghost use Rattle.lc_part_lines.specs.Line.{IsInRange};
ghost use Rattle.lc_part_lines.specs.Seen.{line_of};
ghost use Rattle.lc_join.specs.Lines.{lines_in};
ghost use Rattle.lc_part_laws.specs.Point.{joined_point};
ghost use Rattle.lc_join.specs.Seen.{numbered_of, IsOutcome};

use crate::disagreement::disagreement;
use crate::lines::{Numbered, lines_in};
use crate::walk::{last_missing, walk};
use lc_checkpoint::{Checkpoint, encode};
use lc_field::NoMemory;
use lc_part_lines::PartLine;
use lc_parts::{Facts, Joined};
use std::alloc::Global;

/// What lines make.
#[derive(Drop)]
pub(crate) enum Outcome {
    /// The text of a checkpoint.
    Text(Vec<u8>),
    /// Nothing: these blocks are missing, from the first to the last.
    Missing(u64, u64),
    /// Nothing: there is no line of a part.
    NoPart,
    /// Nothing: the lines of these numbers disagree.
    Disagree(u64, u64),
}

// The search that a line is of, before its first part.
fn begun(alloc: Global, line: &PartLine, budget: u64) -> Result<Joined, NoMemory>
    requires ranged { IsInRange (line_of line.now) }
    requires budget { budget ≤ 2 ^ 40 }
    ensures is { IfOk result (λ s. s ≡ first_state line.now.script (facts_seen line.now.facts) budget) }
{
    let ranks = Vec::from_slice(alloc, &line.facts.ranks)?;
    let facts = Facts {
        k: line.facts.k,
        q: line.facts.q,
        ranks,
        divisor: line.facts.divisor,
        first: line.facts.first,
    };
    match Joined::start(alloc, line.script, facts, budget) {
        Ok(joined) => Ok(joined),
        Err(_) => Err(NoMemory),
    }
}

// Says what the type of bytes says: each is below 256.
fn are_bytes(bytes: &[u8])
    ensures bytes { IsBytes bytes.now }
{}

// Says what the type of a digest says.
fn has_bytes(digest: &[u8; 32])
    ensures bytes { IsBytes digest.now }
    ensures long { length digest.now ≡ 32 }
{
    are_bytes(digest);
}

// The text of the checkpoint of a search.
fn text_of(alloc: Global, joined: &Joined, budget: u64) -> Result<Vec<u8>, NoMemory>
    requires budget { budget ≤ 2 ^ 40 }
    requires ranged { IsProgress budget joined.now.progress }
    ensures is { IfOk result
        (λ text. text.items ≡ checkpoint_text (joined_point joined.now.script budget joined.now.progress)) }
{
    let script = *joined.script();
    has_bytes(&script);
    let point = Checkpoint {
        version: 2,
        script,
        budget,
        turn: 0,
        settled: Vec::new(alloc),
        blocks: joined.blocks(),
        weight: joined.weight(),
        place: joined.place(),
    };
    match encode(alloc, &point) {
        Ok(text) => Ok(text),
        Err(_) => Err(NoMemory),
    }
}

// What lines make, the first of which begins the search.
fn made(alloc: Global, budget: u64, lines: &[Numbered]) -> Result<Outcome, NoMemory>
    requires some { 0 < length lines.now }
    requires ranged { All (λ l. IsInRange l.line) (map numbered_of lines.now) }
    requires budget { budget ≤ 2 ^ 40 }
    ensures is { IfOk result (λ o. IsOutcome budget (map numbered_of lines.now) o) }
{
    let mut joined = begun(alloc, &lines[0].line, budget)?;
    if let Some((one, other)) = disagreement(&joined, lines) {
        return Ok(Outcome::Disagree(one, other));
    }
    walk(&mut joined, lines);
    if !joined.is_answered() {
        let last = last_missing(&joined, lines);
        return Ok(Outcome::Missing(joined.blocks(), last));
    }
    let text = text_of(alloc, &joined, budget)?;
    Ok(Outcome::Text(text))
}

/// What the lines of some bytes make. Fails if memory runs out.
pub(crate) fn joined(alloc: Global, budget: u64, bytes: &[u8]) -> Result<Outcome, NoMemory>
    requires few { length bytes.now ≤ 2 ^ 20 }
    requires budget { budget ≤ 2 ^ 40 }
    ensures is { IfOk result (λ o. IsOutcome budget (lines_in bytes.now) o) }
{
    let lines = lines_in(alloc, bytes)?;
    if lines.is_empty() {
        return Ok(Outcome::NoPart);
    }
    made(alloc, budget, &lines)
}
