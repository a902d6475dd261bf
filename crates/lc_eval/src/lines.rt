//! The lines of values, and of nearest words.
ghost use Rattle.std.specs.Prelude.{◌≡◌, IfOk};
ghost use Rattle.lc_formats.specs.Text.{line};
ghost use Rattle.lc_language.specs.Print.{value_line};
ghost use Rattle.lc_language.specs.Query.{near_text};
ghost use Rattle.lc_calls.specs.Value.{value_of};

use lc_calls::Value;
use lc_field::NoMemory;
use lc_json::{push_number, push_symbols, push_text};
use lc_print::{code_line, field_line, list_line, number_line, rows_line, truth_line};
use lc_vec::Word;
use std::alloc::Global;

// The line that a value prints.
#[tactic(auto, unfolding(crate::proofs::Opened::lines_of_values))]
pub(crate) fn value_line(alloc: Global, value: &Value) -> Result<Vec<u8>, NoMemory>
    ensures { IfOk result (λ l. l.items ≡ value_line (value_of value.now)) }
{
    match value {
        Value::Number(n) => Ok(number_line(alloc, *n)?),
        Value::Field(field) => Ok(field_line(alloc, u64::from(field.size()))?),
        Value::Numbers(numbers) => Ok(list_line(alloc, numbers)?),
        Value::Lists(lists) => Ok(rows_line(alloc, lists)?),
        Value::Code(code) => {
            let code = &code.code;
            let size = u64::from(code.field().size());
            Ok(code_line(alloc, code.length(), code.dimension(), size)?)
        }
        Value::Truth(holds) => Ok(truth_line(alloc, *holds)?),
    }
}

/// The line that `NearestWord` prints of an answer: `nearest [1,0,0,0,0,1,1] at 1 blocks 2`, the word, its distance and the number of
/// blocks; or if the answer isn't exact `nearest between 1 and 2 word [1,1,0,0,1,1,0] blocks 1`, the lower end being `low`.
#[tactic(auto, unfolding(crate::proofs::Opened::lines_of_nearest_words))]
pub fn nearest_line(
    alloc: Global,
    exact: bool,
    low: u64,
    distance: u64,
    word: &Word,
    blocks: u64,
) -> Result<Vec<u8>, NoMemory>
    ensures { IfOk result (λ l. l.items
        ≡ line (near_text (record { exact = exact; low = low; weight = distance; word = word.now; blocks = blocks }))) }
{
    let mut text = Vec::new(alloc);
    if exact {
        push_text(&mut text, b"nearest ")?;
        push_symbols(&mut text, word.symbols())?;
        push_text(&mut text, b" at ")?;
        push_number(&mut text, distance)?;
    } else {
        push_text(&mut text, b"nearest between ")?;
        push_number(&mut text, low)?;
        push_text(&mut text, b" and ")?;
        push_number(&mut text, distance)?;
        push_text(&mut text, b" word ")?;
        push_symbols(&mut text, word.symbols())?;
    }
    push_text(&mut text, b" blocks ")?;
    push_number(&mut text, blocks)?;
    push_text(&mut text, b"\n")?;
    Ok(text)
}
