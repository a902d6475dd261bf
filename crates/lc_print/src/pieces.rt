//! The pieces that lines are made of, each put after a text that has begun.
ghost use Rattle.std.specs.Prelude.{◌≡◌, ℕ, List, [], ◌∷◌, ◌++◌, map, flat_map, OnOk, decimal};
ghost use Rattle.lc_formats.specs.Text.{line, bracketed, numbers_text, lists_text, with_values};
ghost use Rattle.lc_language.specs.Print.{field_text};

use itoa::{Buffer, Integer};
use lc_field::NoMemory;
use lc_vec::Word;

/// A text that is part of a line.
pub fn push_text(text: &mut Vec<u8>, piece: &[u8]) -> Result<(), NoMemory>
    ensures { OnOk result (text.new.items ≡ text.old.items ++ piece.now) }
{
    text.extend_from_slice(piece)?;
    Ok(())
}

/// A number in decimal digits.
pub fn push_number(text: &mut Vec<u8>, n: u64) -> Result<(), NoMemory>
    ensures { OnOk result (text.new.items ≡ text.old.items ++ decimal n) }
{
    push_text(text, Buffer::new().format(n).as_bytes())?;
    Ok(())
}

/// The newline that ends a line.
#[tactic(auto, unfolding(lc_formats::specs::Text::line))]
pub fn push_newline(text: &mut Vec<u8>) -> Result<(), NoMemory>
    ensures { OnOk result (text.new.items ≡ line text.old.items) }
{
    text.push(b'\n')?;
    Ok(())
}

/// Each number with a byte before it.
fn push_led<I: Integer>(text: &mut Vec<u8>, lead: u8, numbers: &[I]) -> Result<(), NoMemory>
    ensures { OnOk result (text.new.items ≡ text.old.items ++ flat_map (λ n. lead ∷ I.text n) numbers.now) }
{
    let mut buffer = Buffer::new();
    for n in numbers {
        text.push(lead)?;
        push_text(text, buffer.format(*n).as_bytes())?;
    }
    Ok(())
}

/// A list in brackets, with a comma between each two items.
fn push_bracketed<I: Integer>(text: &mut Vec<u8>, list: &[I]) -> Result<(), NoMemory>
    ensures { OnOk result (text.new.items ≡ text.old.items ++ bracketed (map I.text list.now)) }
{
    let [first, rest @ ..] = list else {
        push_text(text, b"[]")?;
        return Ok(());
    };
    push_text(text, b"[")?;
    push_text(text, Buffer::new().format(*first).as_bytes())?;
    push_led(text, b',', rest)?;
    push_text(text, b"]")?;
    Ok(())
}

/// A list of numbers in brackets.
#[tactic(auto, unfolding(lc_formats::specs::Text::numbers_text))]
pub fn push_list(text: &mut Vec<u8>, list: &[u64]) -> Result<(), NoMemory>
    ensures { OnOk result (text.new.items ≡ text.old.items ++ numbers_text list.now) }
{
    push_bracketed(text, list)?;
    Ok(())
}

/// The symbols of a word in brackets.
#[tactic(auto, unfolding(lc_formats::specs::Text::numbers_text))]
pub fn push_word(text: &mut Vec<u8>, word: &Word) -> Result<(), NoMemory>
    ensures { OnOk result (text.new.items ≡ text.old.items ++ numbers_text word.now) }
{
    push_bracketed(text, word.symbols())?;
    Ok(())
}

/// Each row as a list with a comma before it.
fn push_led_rows(text: &mut Vec<u8>, rows: &[Vec<u64>]) -> Result<(), NoMemory>
    ensures { OnOk result (text.new.items
        ≡ text.old.items ++ flat_map (λ row. 44 ∷ numbers_text row.items) rows.now) }
{
    for row in rows {
        text.push(b',')?;
        push_list(text, row)?;
    }
    Ok(())
}

/// The rows in brackets, a list each, with a comma between each two.
pub fn push_rows(text: &mut Vec<u8>, rows: &[Vec<u64>]) -> Result<(), NoMemory>
    ensures { OnOk result (text.new.items ≡ text.old.items ++ lists_text (map (λ row. row.items) rows.now)) }
{
    let [first, rest @ ..] = rows else {
        push_text(text, b"[]")?;
        return Ok(());
    };
    push_text(text, b"[")?;
    push_list(text, first)?;
    push_led_rows(text, rest)?;
    push_text(text, b"]")?;
    Ok(())
}

/// The name of the field of `q` elements.
#[tactic(auto, unfolding(lc_language::specs::Print::field_text))]
pub fn push_field(text: &mut Vec<u8>, q: u64) -> Result<(), NoMemory>
    ensures { OnOk result (text.new.items ≡ text.old.items ++ field_text q) }
{
    push_text(text, b"GF(")?;
    push_number(text, q)?;
    push_text(text, b")")?;
    Ok(())
}

/// What a fault carries: nothing if it carries no numbers, else `with` and each of them after a
/// space.
pub fn push_values(text: &mut Vec<u8>, values: &[u64]) -> Result<(), NoMemory>
    ensures { OnOk result (text.new.items ≡ text.old.items ++ with_values values.now) }
{
    let [first, rest @ ..] = values else {
        return Ok(());
    };
    push_text(text, b" with ")?;
    push_number(text, *first)?;
    push_led(text, b' ', rest)?;
    Ok(())
}
