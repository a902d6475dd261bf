//! Pieces of compact JSON, each put after a text that has begun. If memory runs out, the text is as before.
ghost use Rattle.std.specs.Prelude.{◌≡◌, [], ◌∷◌, ◌++◌, length, map, take, flat_map, IsOk, OnOk, OnErr, decimal};
ghost use Rattle.lc_formats.specs.Text.{bracketed, numbers_text};

use itoa::{Buffer, Integer};
use lc_field::NoMemory;

/// Puts `piece` after the text. An empty one takes no memory.
pub fn push_text(text: &mut Vec<u8>, piece: &[u8]) -> Result<(), NoMemory>
    ensures is { OnOk result (text.new.items ≡ text.old.items ++ piece.now) }
    ensures kept { OnErr result (text.new.items ≡ text.old.items) }
    ensures nothing { piece.now ≡ [] → IsOk result }
{
    text.extend_from_slice(piece)?;
    Ok(())
}

/// Puts the number after the text, in decimal digits.
pub fn push_number(text: &mut Vec<u8>, n: u64) -> Result<(), NoMemory>
    ensures is { OnOk result (text.new.items ≡ text.old.items ++ decimal n) }
    ensures kept { OnErr result (text.new.items ≡ text.old.items) }
{
    push_text(text, Buffer::new().format(n).as_bytes())?;
    Ok(())
}

// Each number with a comma before it. If memory runs out, a part of them may follow the text.
fn push_led<I: Integer>(text: &mut Vec<u8>, numbers: &[I]) -> Result<(), NoMemory>
    ensures is { OnOk result (text.new.items ≡ text.old.items ++ flat_map (λ n. 44 ∷ I.text n) numbers.now) }
    ensures front { take (length text.old.items) text.new.items ≡ text.old.items }
{
    let mut buffer = Buffer::new();
    for n in numbers {
        text.push(b',')?;
        push_text(text, buffer.format(*n).as_bytes())?;
    }
    Ok(())
}

// A list in brackets, with a comma between each two items. If memory runs out, a part of it may follow the text.
fn push_bracketed<I: Integer>(text: &mut Vec<u8>, list: &[I]) -> Result<(), NoMemory>
    ensures is { OnOk result (text.new.items ≡ text.old.items ++ bracketed (map I.text list.now)) }
    ensures front { take (length text.old.items) text.new.items ≡ text.old.items }
{
    let [first, rest @ ..] = list else {
        push_text(text, b"[]")?;
        return Ok(());
    };
    push_text(text, b"[")?;
    push_text(text, Buffer::new().format(*first).as_bytes())?;
    push_led(text, rest)?;
    push_text(text, b"]")?;
    Ok(())
}

// The same; if memory runs out, the text is as before.
fn push_array<I: Integer>(text: &mut Vec<u8>, list: &[I]) -> Result<(), NoMemory>
    ensures is { OnOk result (text.new.items ≡ text.old.items ++ bracketed (map I.text list.now)) }
    ensures kept { OnErr result (text.new.items ≡ text.old.items) }
{
    let start = text.len();
    let pushed = push_bracketed(text, list);
    if pushed.is_err() {
        text.truncate(start);
    }
    pushed
}

/// Puts the numbers after the text, as a JSON array.
#[tactic(auto, unfolding(lc_formats::specs::Text::numbers_text))]
pub fn push_list(text: &mut Vec<u8>, list: &[u64]) -> Result<(), NoMemory>
    ensures is { OnOk result (text.new.items ≡ text.old.items ++ numbers_text list.now) }
    ensures kept { OnErr result (text.new.items ≡ text.old.items) }
{
    push_array(text, list)
}

/// Puts the symbols of a word after the text, as a JSON array of numbers.
#[tactic(auto, unfolding(lc_formats::specs::Text::numbers_text))]
pub fn push_symbols(text: &mut Vec<u8>, symbols: &[u8]) -> Result<(), NoMemory>
    ensures is { OnOk result (text.new.items ≡ text.old.items ++ numbers_text symbols.now) }
    ensures kept { OnErr result (text.new.items ≡ text.old.items) }
{
    push_array(text, symbols)
}
