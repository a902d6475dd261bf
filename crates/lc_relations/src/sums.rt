//! Sums of codes.
ghost use Rattle.std.specs.Prelude.{◌≡◌, ◌++◌, IfOk};
ghost use Rattle.lc_algebra.specs.Matrix.{AreRows};
ghost use Rattle.lc_constructions.specs.Code.{IsCode};
ghost use Rattle.lc_constructions.specs.Refusal.{first_refusal, IsRefusedAs, RefusesFirst};
ghost use Rattle.lc_constructions.specs.Refusals.{intersection_refusals};
ghost use Rattle.lc_language.specs.Relations.{InAugmented, InUnion, augmented_refusals};

use crate::refusal::{check_augmented, check_pair};
use lc_code::{Code, CodeRefusal, push_rows};
use lc_field::NoMemory;
use lc_vec::Word;
use std::alloc::Global;

/// The sum of two codes: all sums of a word of `a` and a word of `b`, which is the smallest code with the words of both (GUAVA
/// manual, `UnionCode`).
///
/// Refused in this order: the fields differ, FieldsDiffer; the lengths differ, LengthsDiffer.
#[tactic(auto, using(lc_constructions::proofs::RefusalLaws::refused_or_not))]
pub fn union_of(alloc: Global, a: &Code, b: &Code) -> Result<Code, CodeRefusal>
    ensures code { IfOk result (λ c. IsCode a.now.field a.now.columns (InUnion a.now b.now) c) }
    ensures refused { IsRefusedAs result (first_refusal (intersection_refusals a.now b.now)) }
    ensures first { RefusesFirst result (first_refusal (intersection_refusals a.now b.now)) }
{
    check_pair(a, b)?;
    Ok(code_of_union(alloc, a, b)?)
}

#[tactic(auto, using(crate::proofs::SumLaws::code_of_union_laws))]
fn code_of_union(alloc: Global, a: &Code, b: &Code) -> Result<Code, NoMemory>
    requires field { a.now.field ≡ b.now.field }
    requires columns { a.now.columns ≡ b.now.columns }
    ensures code { IfOk result (λ c. IsCode a.now.field a.now.columns (InUnion a.now b.now) c) }
{
    let _second = b.matrix();
    let mut rows = Vec::new(alloc);
    push_rows(alloc, b, &mut rows)?;
    Ok(code_with_rows(alloc, a, &rows)?)
}

/// The code with further rows: all sums of a word of the code and of multiples of the rows, which need not be independent (GUAVA
/// manual, `AugmentedCode`). There may be no rows.
///
/// Refused in this order: a row hasn't the length of the code, LengthsDiffer; an entry is no element of the code's field,
/// BadArgument(2).
#[tactic(auto, using(lc_constructions::proofs::RefusalLaws::refused_or_not))]
pub fn augmented(alloc: Global, code: &Code, rows: &[Word]) -> Result<Code, CodeRefusal>
    ensures code { IfOk result (λ c. IsCode code.now.field code.now.columns (InAugmented code.now rows.now) c) }
    ensures refused { IsRefusedAs result (first_refusal (augmented_refusals code.now rows.now)) }
    ensures first { RefusesFirst result (first_refusal (augmented_refusals code.now rows.now)) }
{
    check_augmented(code, rows)?;
    Ok(code_with_rows(alloc, code, rows)?)
}

#[tactic(auto, using(crate::proofs::SumLaws::code_with_rows_laws))]
fn code_with_rows(alloc: Global, code: &Code, more: &[Word]) -> Result<Code, NoMemory>
    requires rows { AreRows code.now.field code.now.columns more.now }
    ensures code { IfOk result (λ c. IsCode code.now.field code.now.columns (InAugmented code.now more.now) c) }
{
    let _matrix = code.matrix();
    let mut rows = Vec::new(alloc);
    push_rows(alloc, code, &mut rows)?;
    push_words(alloc, more, &mut rows)?;
    Ok(Code::from_rows(alloc, code.field(), code.length(), &rows)?)
}

// Pushes a copy of each word.
fn push_words(alloc: Global, words: &[Word], rows: &mut Vec<Word>) -> Result<(), NoMemory>
    ensures pushed { IfOk result (λ _. rows.new.items ≡ rows.old.items ++ words.now) }
{
    for word in words {
        rows.push(word.copy(alloc)?)?;
    }
    Ok(())
}
