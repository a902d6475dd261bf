//! The lines that a session prints: values, least words, distances and faults, each with its
//! newline, byte for byte as the definitions of `lc_language` say. A call fails only for want of
//! memory.
#![tactic(auto)]

ghost use Rattle.std.specs.Prelude.{◌≡◌, ◌++◌, map, codes, IfOk, OnOk, decimal};
ghost use Rattle.lc_language.specs.Query.{no_certificate_line};
ghost use Rattle.lc_language.specs.Value.{truth, nothing};
ghost use Rattle.lc_formats.specs.Text.{line, numbers_text, lists_text, with_values};
ghost use Rattle.lc_language.specs.Print.{value_line, field_text, code_text, least_line as least_text, least_none_line as least_none_text, distance_line as distance_text, distance_none_line as distance_none_text, bracket_line as bracket_text, fault_line as fault_text, filling_line};
ghost use Rattle.lc_language.specs.Erasures.{ambiguous};

mod pieces;

use lc_field::NoMemory;
use lc_vec::Word;
use pieces::{
    push_field, push_list, push_newline, push_number, push_rows, push_text, push_values, push_word,
};
use std::alloc::Global;

/// The line of a number: `12`.
pub fn number_line(alloc: Global, n: u64) -> Result<Vec<u8>, NoMemory>
    ensures { IfOk result (λ v. v.items ≡ line (decimal n)) }
{
    let mut text = Vec::new(alloc);
    push_number(&mut text, n)?;
    push_newline(&mut text)?;
    Ok(text)
}

/// The line of a list of numbers: `[1,0,3]`, and `[]` for the empty one.
pub fn list_line(alloc: Global, list: &[u64]) -> Result<Vec<u8>, NoMemory>
    ensures { IfOk result (λ v. v.items ≡ line (numbers_text list.now)) }
{
    let mut text = Vec::new(alloc);
    push_list(&mut text, list)?;
    push_newline(&mut text)?;
    Ok(text)
}

/// The line of a list of lists of numbers: `[[1,0],[0,1]]`, and `[]` for the empty one.
pub fn rows_line(alloc: Global, rows: &[Vec<u64>]) -> Result<Vec<u8>, NoMemory>
    ensures { IfOk result (λ v. v.items ≡ line (lists_text (map (λ row. row.items) rows.now))) }
{
    let mut text = Vec::new(alloc);
    push_rows(&mut text, rows)?;
    push_newline(&mut text)?;
    Ok(text)
}

/// The line of a field of `q` elements: `GF(4)`.
pub fn field_line(alloc: Global, q: u64) -> Result<Vec<u8>, NoMemory>
    ensures { IfOk result (λ v. v.items ≡ line (field_text q)) }
{
    let mut text = Vec::new(alloc);
    push_field(&mut text, q)?;
    push_newline(&mut text)?;
    Ok(text)
}

/// The line of a code of length `n` and dimension `k` over the field of `q` elements:
/// `code [7,4] GF(2)`.
#[tactic(auto, unfolding(lc_language::specs::Print::code_text))]
pub fn code_line(alloc: Global, n: usize, k: usize, q: u64) -> Result<Vec<u8>, NoMemory>
    ensures { IfOk result (λ v. v.items ≡ line (code_text n k q)) }
{
    let mut text = Vec::new(alloc);
    push_text(&mut text, b"code [")?;
    push_number(&mut text, n as u64)?;
    push_text(&mut text, b",")?;
    push_number(&mut text, k as u64)?;
    push_text(&mut text, b"] ")?;
    push_field(&mut text, q)?;
    push_newline(&mut text)?;
    Ok(text)
}

// The two bounds of a distance.
fn push_bounds(text: &mut Vec<u8>, low: u64, high: u64) -> Result<(), NoMemory>
    ensures { OnOk result (text.new.items ≡ text.old.items ++ codes " between " ++ decimal low ++ codes " and " ++
        decimal high) }
{
    push_text(text, b" between ")?;
    push_number(text, low)?;
    push_text(text, b" and ")?;
    push_number(text, high)?;
    Ok(())
}

// The line of a text that stands for itself.
fn text_line(alloc: Global, text: &[u8]) -> Result<Vec<u8>, NoMemory>
    ensures { IfOk result (λ v. v.items ≡ line text.now) }
{
    let mut written = Vec::new(alloc);
    push_text(&mut written, text)?;
    push_newline(&mut written)?;
    Ok(written)
}

/// The line of a truth value: `true` or `false`.
#[tactic(auto, unfolding(crate::proofs::Opened::lines_of_values))]
pub fn truth_line(alloc: Global, holds: bool) -> Result<Vec<u8>, NoMemory>
    ensures { IfOk result (λ v. v.items ≡ value_line (truth holds)) }
{
    text_line(alloc, if holds { b"true" } else { b"false" })
}

/// The line of a value that is absent: `none`.
#[tactic(auto, unfolding(crate::proofs::Opened::lines_of_values))]
pub fn none_line(alloc: Global) -> Result<Vec<u8>, NoMemory>
    ensures { IfOk result (λ v. v.items ≡ value_line nothing) }
{
    text_line(alloc, b"none")
}

/// What is printed of erased symbols that several codewords fill: `many`.
#[tactic(auto, unfolding(lc_language::specs::Print::filling_line))]
pub fn many_line(alloc: Global) -> Result<Vec<u8>, NoMemory>
    ensures { IfOk result (λ v. v.items ≡ filling_line ambiguous) }
{
    text_line(alloc, b"many")
}

/// What a search for a least word prints: `least 2 word [0,1,1]`, `d` being the weight of the word.
#[tactic(auto, unfolding(lc_language::specs::Print::least_line))]
pub fn least_line(alloc: Global, d: u64, word: &Word) -> Result<Vec<u8>, NoMemory>
    ensures { IfOk result (λ v. v.items ≡ least_text d word.now) }
{
    let mut text = Vec::new(alloc);
    push_text(&mut text, b"least ")?;
    push_number(&mut text, d)?;
    push_text(&mut text, b" word ")?;
    push_word(&mut text, word)?;
    push_newline(&mut text)?;
    Ok(text)
}

/// What a search for a least word prints of a code that has no word but zero: `least none`.
#[tactic(auto, unfolding(lc_language::specs::Print::least_none_line))]
pub fn least_none_line(alloc: Global) -> Result<Vec<u8>, NoMemory>
    ensures { IfOk result (λ v. v.items ≡ least_none_text) }
{
    text_line(alloc, b"least none")
}

/// What a search for the minimum distance prints of an exact answer, `d` being the weight of the
/// word and `blocks` the number of blocks that were searched:
/// `distance 3 word [1,0,0,0,0,1,1] blocks 2`.
#[tactic(auto, unfolding(lc_language::specs::Print::distance_line))]
pub fn distance_line(alloc: Global, d: u64, word: &Word, blocks: u64) -> Result<Vec<u8>, NoMemory>
    ensures { IfOk result (λ v. v.items ≡ distance_text d word.now blocks) }
{
    let mut text = Vec::new(alloc);
    push_text(&mut text, b"distance ")?;
    push_number(&mut text, d)?;
    push_text(&mut text, b" word ")?;
    push_word(&mut text, word)?;
    push_text(&mut text, b" blocks ")?;
    push_number(&mut text, blocks)?;
    push_newline(&mut text)?;
    Ok(text)
}

/// What a search for the minimum distance prints of bounds, if it ended before the answer was
/// known: `distance between 1 and 3 word [1,0,0,0,0,1,1] blocks 0`, `high` being the weight of the
/// word.
#[tactic(auto, unfolding(lc_language::specs::Print::bracket_line))]
pub fn bracket_line(
    alloc: Global,
    low: u64,
    high: u64,
    word: &Word,
    blocks: u64,
) -> Result<Vec<u8>, NoMemory>
    ensures { IfOk result (λ v. v.items ≡ bracket_text low high word.now blocks) }
{
    let mut text = Vec::new(alloc);
    push_text(&mut text, b"distance")?;
    push_bounds(&mut text, low, high)?;
    push_text(&mut text, b" word ")?;
    push_word(&mut text, word)?;
    push_text(&mut text, b" blocks ")?;
    push_number(&mut text, blocks)?;
    push_newline(&mut text)?;
    Ok(text)
}

/// What a search for the minimum distance prints of a code that has no word but zero:
/// `distance none`.
#[tactic(auto, unfolding(lc_language::specs::Print::distance_none_line))]
pub fn distance_none_line(alloc: Global) -> Result<Vec<u8>, NoMemory>
    ensures { IfOk result (λ v. v.items ≡ distance_none_text) }
{
    text_line(alloc, b"distance none")
}

/// What a query for a certificate prints of a code that has no word but zero: `certificate none`.
pub fn certificate_none_line(alloc: Global) -> Result<Vec<u8>, NoMemory>
    ensures { IfOk result (λ v. v.items ≡ line (codes "certificate none")) }
{
    text_line(alloc, b"certificate none")
}

/// What a query for a certificate prints of bounds, if the search ended before the answer was known:
/// `certificate none between 1 and 3`.
pub fn certificate_bracket_line(alloc: Global, low: u64, high: u64) -> Result<Vec<u8>, NoMemory>
    ensures { IfOk result (λ v. v.items ≡ line
        (codes "certificate none between " ++ decimal low ++ codes " and " ++ decimal high)) }
{
    let mut text = Vec::new(alloc);
    push_text(&mut text, b"certificate none")?;
    push_bounds(&mut text, low, high)?;
    push_newline(&mut text)?;
    Ok(text)
}

/// What a query for a certificate prints if a check would cost too much: `certificate none cost 4294967297`, with the cost.
#[tactic(auto, unfolding(lc_language::specs::Query::no_certificate_line))]
pub fn certificate_cost_line(alloc: Global, cost: u64) -> Result<Vec<u8>, NoMemory>
    ensures { IfOk result (λ v. v.items ≡ no_certificate_line (codes "cost") cost) }
{
    let mut text = Vec::new(alloc);
    push_text(&mut text, b"certificate none cost ")?;
    push_number(&mut text, cost)?;
    push_newline(&mut text)?;
    Ok(text)
}

/// What a query for a certificate prints if its text would be too long: `certificate none length 1048577`, with its length,
/// the newline counted.
#[tactic(auto, unfolding(lc_language::specs::Query::no_certificate_line))]
pub fn certificate_length_line(alloc: Global, length: u64) -> Result<Vec<u8>, NoMemory>
    ensures { IfOk result (λ v. v.items ≡ no_certificate_line (codes "length") length) }
{
    let mut text = Vec::new(alloc);
    push_text(&mut text, b"certificate none length ")?;
    push_number(&mut text, length)?;
    push_newline(&mut text)?;
    Ok(text)
}

/// What `check` prints of a certificate that proves the distance `d`: `accepted distance 3`.
pub fn accepted_line(alloc: Global, d: u64) -> Result<Vec<u8>, NoMemory>
    ensures { IfOk result (λ v. v.items ≡ line (codes "accepted distance " ++ decimal d)) }
{
    let mut text = Vec::new(alloc);
    push_text(&mut text, b"accepted distance ")?;
    push_number(&mut text, d)?;
    push_newline(&mut text)?;
    Ok(text)
}

/// What `check` prints of a certificate that it rejects: the number of the reason, and the numbers that it carries:
/// `rejected 33`, `rejected 38 with 2`.
pub fn rejected_line(alloc: Global, number: u8, values: &[u64]) -> Result<Vec<u8>, NoMemory>
    ensures { IfOk result (λ v. v.items ≡ line (codes "rejected " ++ decimal number ++ with_values values.now)) }
{
    let mut text = Vec::new(alloc);
    push_text(&mut text, b"rejected ")?;
    push_number(&mut text, u64::from(number))?;
    push_values(&mut text, values)?;
    push_newline(&mut text)?;
    Ok(text)
}

/// The line of a fault: its number, its offset in the script, and the numbers that it carries:
/// `fault 44 at 10`, `fault 8 at 0 with 1 2`.
#[tactic(auto, unfolding(lc_language::specs::Print::fault_line))]
pub fn fault_line(
    alloc: Global,
    number: u8,
    offset: usize,
    values: &[u64],
) -> Result<Vec<u8>, NoMemory>
    ensures { IfOk result (λ v. v.items ≡ fault_text number offset values.now) }
{
    let mut text = Vec::new(alloc);
    push_text(&mut text, b"fault ")?;
    push_number(&mut text, u64::from(number))?;
    push_text(&mut text, b" at ")?;
    push_number(&mut text, offset as u64)?;
    push_values(&mut text, values)?;
    push_newline(&mut text)?;
    Ok(text)
}
