//! Direct products.
ghost use Rattle.std.specs.Prelude.{◌≡◌, ◌*◌, ◌<◌, ◌≤◌, ◌++◌, map, take, length, IfOk};
ghost use Rattle.lc_algebra.specs.Field.{size};
ghost use Rattle.lc_algebra.specs.Word.{Fits, scale};
ghost use Rattle.lc_constructions.specs.Code.{longest, IsCode};
ghost use Rattle.lc_constructions.specs.Combined.{tensor, InDirectProduct};
ghost use Rattle.lc_constructions.specs.Refusal.{first_refusal, IsRefusedAs, RefusesFirst};
ghost use Rattle.lc_constructions.specs.Refusals.{direct_product_refusals};
ghost use Rattle.lc_combine.specs.Rows.{product_rows};

use crate::refusal::check_direct_product;
use lc_code::{Code, CodeRefusal};
use lc_field::{Field, NoMemory};
use lc_vec::Word;
use std::alloc::Global;

/// The direct product, or product code: the span of all words with u_i v_j at coordinate i times the length of `b`, plus j, where
/// u is a word of `a` and v one of `b` (MacWilliams and Sloane, chapter 18; GUAVA manual, `DirectProductCode`).
///
/// Refused in this order: the fields differ, FieldsDiffer; the product of the lengths is above 255, BadLength.
#[tactic(auto, using(lc_constructions::proofs::RefusalLaws::refused_or_not))]
pub fn direct_product(alloc: Global, a: &Code, b: &Code) -> Result<Code, CodeRefusal>
    ensures code { IfOk result
        (λ c. IsCode a.now.field (a.now.columns * b.now.columns) (InDirectProduct a.now b.now) c) }
    ensures refused { IsRefusedAs result (first_refusal (direct_product_refusals a.now b.now)) }
    ensures first { RefusesFirst result (first_refusal (direct_product_refusals a.now b.now)) }
{
    check_direct_product(a, b)?;
    Ok(product_words(alloc, a, b)?)
}

fn product_words(alloc: Global, a: &Code, b: &Code) -> Result<Code, NoMemory>
    requires field { a.now.field ≡ b.now.field }
    requires least { 1 ≤ a.now.columns * b.now.columns }
    requires most { a.now.columns * b.now.columns ≤ longest }
    ensures code { IfOk result
        (λ c. IsCode a.now.field (a.now.columns * b.now.columns) (InDirectProduct a.now b.now) c) }
{
    let _first = a.matrix();
    let _second = b.matrix();
    let rows = product_rows(alloc, a, b)?;
    Ok(Code::from_rows(alloc, a.field(), a.length() * b.length(), &rows)?)
}

// The products of each row of the first code with each row of the second one.
fn product_rows(alloc: Global, a: &Code, b: &Code) -> Result<Vec<Word>, NoMemory>
    requires field { a.now.field ≡ b.now.field }
    ensures are { IfOk result (λ rows. rows.items ≡ product_rows a.now b.now) }
{
    let mut rows = Vec::new(alloc);
    for i in 0..a.dimension() {
        push_products(alloc, a.field(), a.row(i), b, &mut rows)?;
    }
    Ok(rows)
}

// Pushes the products of the word with each row of the code.
fn push_products(
    alloc: Global,
    field: &Field,
    word: &[u8],
    b: &Code,
    rows: &mut Vec<Word>,
) -> Result<(), NoMemory>
    requires field { b.now.field ≡ field.now }
    requires word { Fits field.now word.now }
    ensures pushed { IfOk result (λ _. rows.new.items ≡ rows.old.items ++ map (tensor field.now word.now) b.now.rows) }
{
    for j in 0..b.dimension() {
        rows.push(tensor(alloc, field, word, b.row(j))?)?;
    }
    Ok(())
}

// The word of all products of a symbol of the first word and one of the second.
#[tactic(auto, using(crate::proofs::ProductLaws::tensor_laws))]
fn tensor(alloc: Global, field: &Field, first: &[u8], second: &[u8]) -> Result<Word, NoMemory>
    requires first { Fits field.now first.now }
    requires second { Fits field.now second.now }
    ensures is { IfOk result (λ w. w ≡ tensor field.now first.now second.now) }
{
    let mut symbols = Vec::new(alloc);
    for i in 0..first.len() {
        push_multiple(field, first[i], second, &mut symbols)?;
    }
    Ok(Word::from_vec(symbols))
}

// Pushes c times the word.
#[tactic(auto, using(crate::proofs::ProductLaws::push_multiple_laws))]
pub(crate) fn push_multiple(
    field: &Field,
    c: u8,
    word: &[u8],
    symbols: &mut Vec<u8>,
) -> Result<(), NoMemory>
    requires element { c < size field.now }
    requires word { Fits field.now word.now }
    ensures pushed { IfOk result (λ _. symbols.new.items ≡ symbols.old.items ++ scale field.now c word.now) }
{
    for i in 0..word.len() {
        symbols.push(field.mul(c, word[i]))?;
    }
    Ok(())
}
