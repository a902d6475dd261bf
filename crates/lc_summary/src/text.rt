//! The line of a summary.
ghost use Rattle.std.specs.Prelude.{◌≡◌, ℕ, IfOk};
ghost use Rattle.lc_language.specs.Query.{distance, query_line};
ghost use Rattle.lc_session_rules.specs.Summary.{round_count, summary_code, summary_text};
ghost use Rattle.lc_summary.specs.Line.{summary_line};

use itoa::Buffer;
use lc_field::NoMemory;
use std::alloc::Global;

/// The line of the summary of a seed: the line of the search of its code, without the newline, and the number of rounds that the
/// search took: `summary seed 1 distance 8 word [..] blocks 77 rounds 1`. Refused only for want of memory.
#[tactic(auto, unfolding(crate::proofs::Opened::summary_texts))]
pub fn summary_line(alloc: Global, seed: u64, line: &[u8], rounds: u64) -> Result<Vec<u8>, NoMemory>
    ensures is { IfOk result (λ text. text.items ≡ summary_line seed line.now rounds) }
    ensures summary { IfOk result (λ text. (budget longest : ℕ) →
        line.now ≡ query_line distance (summary_code seed) budget →
        rounds ≡ round_count (summary_code seed) budget longest → text.items ≡ summary_text seed budget longest) }
{
    let mut text = Vec::new(alloc);
    text.extend_from_slice(b"summary seed ")?;
    text.extend_from_slice(Buffer::new().format(seed).as_bytes())?;
    text.extend_from_slice(b" ")?;
    text.extend_from_slice(&line[..line.len().saturating_sub(1)])?;
    text.extend_from_slice(b" rounds ")?;
    text.extend_from_slice(Buffer::new().format(rounds).as_bytes())?;
    text.push(b'\n')?;
    Ok(text)
}
