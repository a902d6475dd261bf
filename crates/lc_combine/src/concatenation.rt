//! Concatenated codes.
ghost use Rattle.std.specs.Prelude.{◌≡◌, ℕ, ◌*◌, ◌<◌, ◌≤◌, ◌++◌, List, Some, length, map, slice_index_or, [], IfOk, IsTrue};
ghost use Rattle.lc_algebra.specs.Field.{shape_of, size, is_symbol};
ghost use Rattle.lc_algebra.specs.Polynomial.{value_at};
ghost use Rattle.lc_algebra.specs.Embedding.{IsSubfield, embed};
ghost use Rattle.lc_algebra.specs.Residue.{digits};
ghost use Rattle.lc_algebra.specs.Word.{Fits, IsWord, zero_word};
ghost use Rattle.lc_algebra.specs.Span.{combine};
ghost use Rattle.lc_constructions.specs.Code.{longest, IsCode};
ghost use Rattle.lc_constructions.specs.Concatenated.{IsExpansion, IsReplaced, IsReplacedWord, InConcatenated};
ghost use Rattle.lc_constructions.specs.Refusal.{first_refusal, IsRefusedAs, RefusesFirst};
ghost use Rattle.lc_constructions.specs.Refusals.{degree_over, concatenated_refusals};
ghost use Rattle.lc_linear_laws.specs.Powers.{power_multiples, outer_rows};
ghost use Rattle.lc_combine.specs.Replaced.{AreReplaced};

use crate::refusal::check_concatenated;
use lc_code::{Code, CodeRefusal};
use lc_field::{Field, NoMemory};
use lc_vec::{Word, add_scaled, scale};
use std::alloc::Global;

/// The concatenated code: each symbol of a word of the outer code, written as the sum of c_i γ^i with c_i in the smaller field and γ
/// the primitive element of the outer field, is replaced by the sum of c_i times row i of the inner code's reduced generator matrix
/// (MacWilliams and Sloane, chapter 10).
///
/// Refused in this order: the size of the outer field isn't a power of the size of the inner one, FieldsDiffer; the dimension of
/// the inner code isn't the exponent, InnerDimension of both; the product of the lengths is above 255, BadLength.
#[tactic(auto, using(lc_constructions::proofs::RefusalLaws::refused_or_not))]
pub fn concatenated(alloc: Global, outer: &Code, inner: &Code) -> Result<Code, CodeRefusal>
    ensures code { IfOk result
        (λ c. IsCode inner.now.field (outer.now.columns * inner.now.columns) (InConcatenated outer.now inner.now) c) }
    ensures refused { IsRefusedAs result (first_refusal (concatenated_refusals outer.now inner.now)) }
    ensures first { RefusesFirst result (first_refusal (concatenated_refusals outer.now inner.now)) }
{
    check_concatenated(outer, inner)?;
    Ok(replaced_words(alloc, outer, inner)?)
}

fn replaced_words(alloc: Global, outer: &Code, inner: &Code) -> Result<Code, NoMemory>
    requires degree { degree_over (size inner.now.field) (size outer.now.field) ≡ Some (length inner.now.rows) }
    requires least { 1 ≤ outer.now.columns * inner.now.columns }
    requires most { outer.now.columns * inner.now.columns ≤ longest }
    ensures code { IfOk result
        (λ c. IsCode inner.now.field (outer.now.columns * inner.now.columns) (InConcatenated outer.now inner.now) c) }
{
    let _first = outer.matrix();
    let _second = inner.matrix();
    let _large = outer.field();
    let rows = replaced_rows(alloc, outer, inner)?;
    Ok(Code::from_rows(alloc, inner.field(), outer.length() * inner.length(), &rows)?)
}

// The replaced words of all multiples of the outer rows by the powers of the primitive element.
#[tactic(auto, using(crate::proofs::ReplacedLaws::replaced_rows_laws))]
fn replaced_rows(alloc: Global, outer: &Code, inner: &Code) -> Result<Vec<Word>, NoMemory>
    requires degree { degree_over (size inner.now.field) (size outer.now.field) ≡ Some (length inner.now.rows) }
    ensures are { IfOk result
        (λ rows. AreReplaced outer.now inner.now
        (outer_rows outer.now.field (length inner.now.rows) outer.now.rows) rows.items) }
{
    let mut rows = Vec::new(alloc);
    for i in 0..outer.dimension() {
        push_multiples(alloc, outer, inner, i, &mut rows)?;
    }
    Ok(rows)
}

// Pushes the replaced words of the multiples of row i.
#[tactic(auto, using(crate::proofs::ReplacedLaws::push_multiples_laws))]
fn push_multiples(
    alloc: Global,
    outer: &Code,
    inner: &Code,
    i: usize,
    rows: &mut Vec<Word>,
) -> Result<(), NoMemory>
    requires degree { degree_over (size inner.now.field) (size outer.now.field) ≡ Some (length inner.now.rows) }
    requires row { i < length outer.now.rows }
    ensures pushed { IfOk result (λ _. (us : List (List ℕ)) → AreReplaced outer.now inner.now us rows.old.items →
        AreReplaced outer.now inner.now
        (us ++ power_multiples outer.now.field (length inner.now.rows)
        (slice_index_or outer.now.rows i [])) rows.new.items) }
{
    let field = outer.field();
    let mut word = Vec::from_slice(alloc, outer.row(i))?;
    for _t in 0..inner.dimension() {
        rows.push(replaced_word(alloc, outer, inner, &word)?)?;
        scale(field, &mut word, field.primitive());
    }
    Ok(())
}

// The word with each symbol replaced.
#[tactic(auto, using(crate::proofs::ReplacedLaws::replaced_word_laws))]
fn replaced_word(alloc: Global, outer: &Code, inner: &Code, word: &[u8]) -> Result<Word, NoMemory>
    requires degree { degree_over (size inner.now.field) (size outer.now.field) ≡ Some (length inner.now.rows) }
    requires word { Fits outer.now.field word.now }
    ensures is { IfOk result (λ w. IsReplacedWord outer.now inner.now word.now w) }
{
    let mut symbols = Vec::new(alloc);
    for i in 0..word.len() {
        let image = replaced(alloc, outer, inner, word[i])?;
        symbols.extend_from_slice(&image)?;
    }
    Ok(Word::from_vec(symbols))
}

// The word that replaces the symbol.
fn replaced(alloc: Global, outer: &Code, inner: &Code, a: u8) -> Result<Vec<u8>, NoMemory>
    requires degree { degree_over (size inner.now.field) (size outer.now.field) ≡ Some (length inner.now.rows) }
    requires element { a < size outer.now.field }
    ensures is { IfOk result (λ v. IsReplaced outer.now inner.now a v.items) }
{
    let x = expansion(outer.field(), inner.field(), inner.dimension(), a);
    let mut image = vec![in alloc; 0u8; inner.length()]?;
    combine(inner, x, &mut image);
    Ok(image)
}

// The number whose s digits, to the base of the smaller size, are the coefficients of the element.
#[tactic(auto, using(crate::proofs::ReplacedLaws::expansion_laws))]
fn expansion(outer: &Field, inner: &Field, s: usize, a: u8) -> u16
    requires degree { degree_over (size inner.now) (size outer.now) ≡ Some s }
    requires symbol { IsTrue (is_symbol outer.now) }
    requires element { a < size outer.now }
    ensures is { IsExpansion inner.now outer.now a (digits (size inner.now) s result) }
{
    for x in 0..outer.size() {
        if value(outer, inner, s, x) == a {
            return x;
        }
    }
    unreachable!()
}

// The value, at the primitive element, of the polynomial whose coefficients are the s digits of x.
#[tactic(auto, using(crate::proofs::ReplacedLaws::value_laws))]
fn value(outer: &Field, inner: &Field, s: usize, x: u16) -> u8
    requires subfield { IsSubfield inner.now outer.now }
    ensures is { result ≡ value_at outer.now (map (embed inner.now outer.now) (digits (size inner.now) s x))
        (shape_of outer.now).primitive }
    ensures below { result < size outer.now }
{
    if s == 0 {
        return 0;
    }
    let q = inner.size();
    let rest = value(outer, inner, s - 1, x / q);
    outer.add(
        outer.embed(inner, (x % q) as u8),
        outer.mul(outer.primitive(), rest),
    )
}

// Adds the multiples of the rows by the digits of x to the zero word.
fn combine(inner: &Code, x: u16, image: &mut [u8])
    requires zero { image.old ≡ zero_word inner.now.columns }
    ensures is { image.new
        ≡ combine inner.now.field inner.now.columns
        (digits (size inner.now.field) (length inner.now.rows) x) inner.now.rows }
{
    let _matrix = inner.matrix();
    let q = inner.field().size();
    let mut rest = x;
    for t in 0..inner.dimension() {
        let row = inner.row(t);
        add_scaled(inner.field(), image, row, (rest % q) as u8);
        rest /= q;
    }
}
