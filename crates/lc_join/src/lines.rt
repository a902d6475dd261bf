//! The lines of parts among the lines of some bytes.
ghost use Rattle.std.specs.Prelude.{◌≡◌, ◌==◌, ◌+◌, ◌++◌, ◌<◌, ◌≤◌, ◌^◌, false, [], length, map, option_map, IfOk, OnOk, IsOk};
ghost use Rattle.std.specs.List.{cons_option, position};
ghost use Rattle.lc_part_lines.specs.Line.{is_headed, part_in};
ghost use Rattle.lc_join.specs.Lines.{numbered, lines_in};
ghost use Rattle.lc_join.specs.Seen.{numbered_of};

use lc_field::NoMemory;
use lc_part_lines::{PartLine, read};
use std::alloc::Global;

/// The line of a part, with its number among all lines, counted from 1.
#[derive(Drop)]
pub(crate) struct Numbered {
    pub(crate) number: u64,
    pub(crate) line: PartLine,
}

// The offset of the first newline.
fn newline_in(bytes: &[u8]) -> Option<usize>
    ensures is { result ≡ position (λ b. b == 10) bytes.now }
{
    bytes.iter().position(|b| *b == b'\n')
}

// The line of this number, if it is that of a part. Never refused for bytes that don't begin with their seal.
fn numbered_line(alloc: Global, number: u64, bytes: &[u8]) -> Result<Option<Numbered>, NoMemory>
    ensures is { IfOk result (λ o. option_map numbered_of o ≡ numbered number (part_in bytes.now)) }
    ensures damaged { is_headed bytes.now ≡ false → IsOk result }
{
    match read(alloc, bytes)? {
        Ok(line) => Ok(Some(Numbered { number, line })),
        Err(_) => Ok(None),
    }
}

// Keeps the line of this number if it is that of a part. Never refused for bytes that don't begin with their seal.
#[tactic(auto, using(crate::proofs::LineLaws::only_headed))]
fn keep(alloc: Global, lines: &mut Vec<Numbered>, number: u64, bytes: &[u8]) -> Result<(), NoMemory>
    ensures kept { OnOk result (map numbered_of lines.new.items
        ≡ map numbered_of lines.old.items ++ cons_option (numbered number (part_in bytes.now)) []) }
    ensures damaged { is_headed bytes.now ≡ false → IsOk result }
{
    if let Some(line) = numbered_line(alloc, number, bytes)? {
        lines.push(line)?;
    }
    Ok(())
}

/// The lines of parts in the bytes, of which there are at most 2^20. Fails if memory runs out.
pub(crate) fn lines_in(alloc: Global, bytes: &[u8]) -> Result<Vec<Numbered>, NoMemory>
    requires few { length bytes.now ≤ 2 ^ 20 }
    ensures is { IfOk result (λ lines. map numbered_of lines.items ≡ lines_in bytes.now) }
{
    let mut lines = Vec::new(alloc);
    let mut rest = bytes;
    let mut done = 0;
    while let Some(i) = newline_in(rest) {
        let (line, _) = rest.split_at(i);
        let (_, after) = rest.split_at(i + 1);
        keep(alloc, &mut lines, done + 1, line)?;
        done += 1;
        rest = after;
    }
    keep(alloc, &mut lines, done + 1, rest)?;
    Ok(lines)
}
