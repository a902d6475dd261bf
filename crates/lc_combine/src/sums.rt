//! Direct sums and the words u followed by u + v.
ghost use Rattle.std.specs.Prelude.{◌≡◌, ◌+◌, ◌≤◌, ◌++◌, IfOk};
ghost use Rattle.lc_constructions.specs.Code.{longest, IsCode};
ghost use Rattle.lc_constructions.specs.Combined.{InDirectSum, InUuv};
ghost use Rattle.lc_constructions.specs.Refusal.{first_refusal, IsRefusedAs, RefusesFirst};
ghost use Rattle.lc_constructions.specs.Refusals.{direct_sum_refusals, uuv_refusals};
ghost use Rattle.lc_combine.specs.Rows.{right_rows, twice_rows, direct_sum_rows, uuv_rows};

use crate::refusal::{check_direct_sum, check_uuv};
use lc_code::{Code, CodeRefusal, push_left};
use lc_field::NoMemory;
use lc_vec::Word;
use std::alloc::Global;

/// The direct sum: all words u followed by v, u a word of `a` and v a word of `b` (MacWilliams and Sloane, chapter 2; GUAVA
/// manual, `DirectSumCode`).
///
/// Refused in this order: the fields differ, FieldsDiffer; the lengths add up to more than 255, BadLength.
#[tactic(auto, using(lc_constructions::proofs::RefusalLaws::refused_or_not))]
pub fn direct_sum(alloc: Global, a: &Code, b: &Code) -> Result<Code, CodeRefusal>
    ensures code { IfOk result (λ c. IsCode a.now.field (a.now.columns + b.now.columns) (InDirectSum a.now b.now) c) }
    ensures refused { IsRefusedAs result (first_refusal (direct_sum_refusals a.now b.now)) }
    ensures first { RefusesFirst result (first_refusal (direct_sum_refusals a.now b.now)) }
{
    check_direct_sum(a, b)?;
    Ok(code_of_sum(alloc, a, b)?)
}

#[tactic(auto, using(crate::proofs::SumLaws::code_of_sum_laws))]
fn code_of_sum(alloc: Global, a: &Code, b: &Code) -> Result<Code, NoMemory>
    requires field { a.now.field ≡ b.now.field }
    requires most { a.now.columns + b.now.columns ≤ longest }
    ensures code { IfOk result (λ c. IsCode a.now.field (a.now.columns + b.now.columns) (InDirectSum a.now b.now) c) }
{
    let rows = sum_rows(alloc, a, b)?;
    let _left = a.matrix();
    let _right = b.matrix();
    Ok(Code::from_rows(alloc, a.field(), a.length() + b.length(), &rows)?)
}

// The rows of both codes, with zeros in the other part.
fn sum_rows(alloc: Global, a: &Code, b: &Code) -> Result<Vec<Word>, NoMemory>
    requires most { a.now.columns + b.now.columns ≤ longest }
    ensures are { IfOk result (λ rows. rows.items ≡ direct_sum_rows a.now b.now) }
{
    let mut rows = Vec::with_capacity(alloc, a.dimension() + b.dimension())?;
    push_left(alloc, a, b.length(), &mut rows)?;
    push_right(alloc, b, a.length(), &mut rows)?;
    Ok(rows)
}

/// The words u followed by u + v, u a word of `a` and v a word of `b` (MacWilliams and Sloane, chapter 2; GUAVA manual, `UUVCode`).
///
/// Refused in this order: the fields differ, FieldsDiffer; the lengths differ, LengthsDiffer; twice the length is above 255,
/// BadLength.
#[tactic(auto, using(lc_constructions::proofs::RefusalLaws::refused_or_not))]
pub fn uuv(alloc: Global, a: &Code, b: &Code) -> Result<Code, CodeRefusal>
    ensures code { IfOk result (λ c. IsCode a.now.field (a.now.columns + b.now.columns) (InUuv a.now b.now) c) }
    ensures refused { IsRefusedAs result (first_refusal (uuv_refusals a.now b.now)) }
    ensures first { RefusesFirst result (first_refusal (uuv_refusals a.now b.now)) }
{
    check_uuv(a, b)?;
    Ok(code_of_uuv(alloc, a, b)?)
}

#[tactic(auto, using(crate::proofs::SumLaws::uuv_words, crate::proofs::SumLaws::uuv_code))]
fn code_of_uuv(alloc: Global, a: &Code, b: &Code) -> Result<Code, NoMemory>
    requires field { a.now.field ≡ b.now.field }
    requires columns { a.now.columns ≡ b.now.columns }
    requires most { a.now.columns + b.now.columns ≤ longest }
    ensures code { IfOk result (λ c. IsCode a.now.field (a.now.columns + b.now.columns) (InUuv a.now b.now) c) }
{
    let rows = uuv_rows(alloc, a, b)?;
    let _left = a.matrix();
    let _right = b.matrix();
    Ok(Code::from_rows(alloc, a.field(), a.length() + b.length(), &rows)?)
}

// Each row of the first code twice, and each row of the second one in the second part.
fn uuv_rows(alloc: Global, a: &Code, b: &Code) -> Result<Vec<Word>, NoMemory>
    requires columns { a.now.columns ≡ b.now.columns }
    requires most { a.now.columns + b.now.columns ≤ longest }
    ensures are { IfOk result (λ rows. rows.items ≡ uuv_rows a.now b.now) }
{
    let mut rows = Vec::with_capacity(alloc, a.dimension() + b.dimension())?;
    push_twice(alloc, a, &mut rows)?;
    push_right(alloc, b, a.length(), &mut rows)?;
    Ok(rows)
}

// Pushes each row of the code, after m zeros.
fn push_right(alloc: Global, b: &Code, m: usize, rows: &mut Vec<Word>) -> Result<(), NoMemory>
    requires most { m + b.now.columns ≤ longest }
    ensures pushed { IfOk result (λ _. rows.new.items ≡ rows.old.items ++ right_rows m b.now.rows) }
{
    for i in 0..b.dimension() {
        let mut symbols = Vec::with_capacity(alloc, m + b.length())?;
        symbols.resize(m, 0)?;
        symbols.extend_from_slice(b.row(i))?;
        rows.push(Word::from_vec(symbols))?;
    }
    Ok(())
}

// Pushes each row of the code, followed by itself.
fn push_twice(alloc: Global, a: &Code, rows: &mut Vec<Word>) -> Result<(), NoMemory>
    requires most { a.now.columns + a.now.columns ≤ longest }
    ensures pushed { IfOk result (λ _. rows.new.items ≡ rows.old.items ++ twice_rows a.now.rows) }
{
    for i in 0..a.dimension() {
        let mut symbols = Vec::with_capacity(alloc, a.length() + a.length())?;
        symbols.extend_from_slice(a.row(i))?;
        symbols.extend_from_slice(a.row(i))?;
        rows.push(Word::from_vec(symbols))?;
    }
    Ok(())
}
