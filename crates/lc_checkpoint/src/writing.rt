//! How a checkpoint is written.
ghost use Rattle.std.specs.Prelude.{◌≡◌, ◌∷◌, ◌++◌, decimal, map, flat_map, OnOk, IfOk};
ghost use Rattle.lc_formats.specs.Checkpoint.{body_of, checkpoint_text, IsWritable};
ghost use Rattle.lc_checkpoint.specs.Seen.{settled_of, point_of};
ghost use Rattle.lc_checkpoint.specs.Pieces.{settled_text, settled_list_text, front_text, back_text};

use crate::checkpoint::{Checkpoint, Settled};
use crate::seal::{digits_of, seal_of};
use lc_field::NoMemory;
use lc_json::{push_list, push_number, push_text};
use std::alloc::Global;

// A number after its key.
fn push_named(text: &mut Vec<u8>, key: &[u8], n: u64) -> Result<(), NoMemory>
    ensures { OnOk result (text.new.items ≡ text.old.items ++ (key.now ++ decimal n)) }
{
    push_text(text, key)?;
    push_number(text, n)?;
    Ok(())
}

// A settled need as an array of its three numbers.
#[tactic(auto, unfolding(crate::specs::Pieces::settled_text, crate::specs::Seen::settled_of))]
fn push_settled(text: &mut Vec<u8>, settled: &Settled) -> Result<(), NoMemory>
    ensures { OnOk result (text.new.items ≡ text.old.items ++ settled_text (settled_of settled.now)) }
{
    push_list(text, &[settled.blocks, settled.weight, settled.place])?;
    Ok(())
}

// Each settled need with a comma before it.
fn push_led_settled(text: &mut Vec<u8>, settled: &[Settled]) -> Result<(), NoMemory>
    ensures { OnOk result
        (text.new.items ≡ text.old.items ++ flat_map (λ s. 44 ∷ settled_text (settled_of s)) settled.now) }
{
    for one in settled {
        text.push(b',')?;
        push_settled(text, one)?;
    }
    Ok(())
}

// The settled needs as an array.
fn push_settled_list(text: &mut Vec<u8>, settled: &[Settled]) -> Result<(), NoMemory>
    ensures { OnOk result (text.new.items ≡ text.old.items ++ settled_list_text (map settled_of settled.now)) }
{
    let [first, rest @ ..] = settled else {
        push_text(text, b"[]")?;
        return Ok(());
    };
    push_text(text, b"[")?;
    push_settled(text, first)?;
    push_led_settled(text, rest)?;
    push_text(text, b"]")?;
    Ok(())
}

// The body to the value at `place`.
fn push_front(text: &mut Vec<u8>, point: &Checkpoint) -> Result<(), NoMemory>
    ensures { OnOk result (text.new.items ≡ text.old.items ++ front_text (point_of point.now)) }
{
    push_named(text, b"{\"blocks\":", point.blocks)?;
    push_named(text, b",\"budget\":", point.budget)?;
    push_text(text, b",\"done\":")?;
    push_settled_list(text, &point.settled)?;
    push_named(text, b",\"place\":", point.place)?;
    Ok(())
}

// The body from the key `script` on.
fn push_back(text: &mut Vec<u8>, point: &Checkpoint) -> Result<(), NoMemory>
    ensures { OnOk result (text.new.items ≡ text.old.items ++ back_text (point_of point.now)) }
{
    push_text(text, b",\"script\":\"")?;
    push_text(text, &digits_of(&point.script))?;
    push_named(text, b"\",\"turn\":", point.turn)?;
    push_named(text, b",\"version\":", point.version)?;
    push_named(text, b",\"weight\":", point.weight)?;
    push_text(text, b"}")?;
    Ok(())
}

// The body of a checkpoint.
#[tactic(auto, using(crate::proofs::TextLaws::body_halves))]
fn body_of(alloc: Global, point: &Checkpoint) -> Result<Vec<u8>, NoMemory>
    requires writable { IsWritable (point_of point.now) }
    ensures is { IfOk result (λ body. body.items ≡ body_of (point_of point.now)) }
{
    let mut body = Vec::new(alloc);
    push_front(&mut body, point)?;
    push_back(&mut body, point)?;
    Ok(body)
}

/// The text of the checkpoint: the digits of the SHA-256 (FIPS 180-4) of the body, a newline, and the body, compact JSON with its
/// keys in rising order.
///
/// The version is 2, the numbers are in range, and the text has at most 4,194,304 bytes; with fewer than 70,000 settled needs
/// it always has.
#[tactic(auto, using(crate::proofs::TextLaws::text_is))]
pub fn encode(alloc: Global, point: &Checkpoint) -> Result<Vec<u8>, NoMemory>
    requires writable { IsWritable (point_of point.now) }
    ensures is { IfOk result (λ text. text.items ≡ checkpoint_text (point_of point.now)) }
{
    let body = body_of(alloc, point)?;
    let mut text = Vec::new(alloc);
    push_text(&mut text, &seal_of(&body))?;
    text.push(b'\n')?;
    push_text(&mut text, &body)?;
    Ok(text)
}
