//! How the line of a part is written.
ghost use Rattle.std.specs.Prelude.{◌≡◌, ◌∷◌, ◌++◌, decimal, OnOk, IfOk};
ghost use Rattle.hex.specs.Hex.{IsBytes};
ghost use Rattle.lc_part_lines.specs.Line.{line_body, part_line};
ghost use Rattle.lc_part_lines.specs.Pieces.{front_text, middle_text, back_text};
ghost use Rattle.lc_part_lines.specs.Seen.{line_of};

use crate::line::PartLine;
use lc_checkpoint::{digits_of, seal_of};
use lc_field::NoMemory;
use lc_json::{push_list, push_number, push_text};
use std::alloc::Global;

// The version of the lines that are written.
const VERSION: u64 = 1;

// A number after its key.
fn push_named(text: &mut Vec<u8>, key: &[u8], n: u64) -> Result<(), NoMemory>
    ensures { OnOk result (text.new.items ≡ text.old.items ++ (key.now ++ decimal n)) }
{
    push_text(text, key)?;
    push_number(text, n)?;
    Ok(())
}

// The body to the value at `k`.
fn push_front(text: &mut Vec<u8>, line: &PartLine) -> Result<(), NoMemory>
    ensures { OnOk result (text.new.items ≡ text.old.items ++ front_text (line_of line.now)) }
{
    push_named(text, b"{\"count\":", line.part.count)?;
    push_named(text, b",\"divisor\":", line.facts.divisor)?;
    push_named(text, b",\"first\":", line.facts.first)?;
    push_named(text, b",\"from\":", line.part.start)?;
    push_named(text, b",\"k\":", line.facts.k)?;
    Ok(())
}

// The body from the key `place` to the value at `ranks`.
fn push_middle(text: &mut Vec<u8>, line: &PartLine) -> Result<(), NoMemory>
    ensures { OnOk result (text.new.items ≡ text.old.items ++ middle_text (line_of line.now)) }
{
    push_named(text, b",\"place\":", line.part.place)?;
    push_named(text, b",\"q\":", line.facts.q)?;
    push_text(text, b",\"ranks\":")?;
    push_list(text, &line.facts.ranks)?;
    Ok(())
}

// The body from the key `script` on.
fn push_back(text: &mut Vec<u8>, line: &PartLine) -> Result<(), NoMemory>
    ensures { OnOk result (text.new.items ≡ text.old.items ++ back_text (line_of line.now)) }
{
    push_text(text, b",\"script\":\"")?;
    push_text(text, &digits_of(&line.script))?;
    push_named(text, b"\",\"version\":", VERSION)?;
    push_named(text, b",\"weight\":", line.part.weight)?;
    push_text(text, b"}")?;
    Ok(())
}

// Says what the type of bytes says: each is below 256.
fn are_bytes(bytes: &[u8])
    ensures bytes { IsBytes bytes.now }
{}

// Says what the type of a digest says.
fn has_bytes(digest: &[u8; 32])
    ensures bytes { IsBytes digest.now }
{
    are_bytes(digest);
}

// The body of a line.
fn body_of(alloc: Global, line: &PartLine) -> Result<Vec<u8>, NoMemory>
    ensures is { IfOk result (λ body. body.items ≡ line_body (line_of line.now)) }
{
    has_bytes(&line.script);
    let mut body = Vec::new(alloc);
    push_front(&mut body, line)?;
    push_middle(&mut body, line)?;
    push_back(&mut body, line)?;
    Ok(body)
}

/// The line of a part, without the newline that ends it: the digits of the SHA-256 (FIPS 180-4) of the body, a blank, and the
/// body, compact JSON with its keys in rising order. Fails if memory runs out.
///
/// A line whose values are in range is read back by `read`.
#[tactic(auto, using(crate::proofs::TextLaws::text_is))]
pub fn write(alloc: Global, line: &PartLine) -> Result<Vec<u8>, NoMemory>
    ensures is { IfOk result (λ text. text.items ≡ part_line (line_of line.now)) }
{
    let body = body_of(alloc, line)?;
    let mut text = Vec::new(alloc);
    push_text(&mut text, &seal_of(&body))?;
    text.push(b' ')?;
    push_text(&mut text, &body)?;
    Ok(text)
}
