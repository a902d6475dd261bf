//! Sums and multiples of words, and the distance of two.
ghost use Rattle.std.specs.Prelude.{◌≡◌, ◌<◌, None, IfOk, IsOk};
ghost use Rattle.lc_algebra.specs.Field.{size};
ghost use Rattle.lc_algebra.specs.Word.{Fits, word_sum, scale as multiple_of};
ghost use Rattle.lc_constructions.specs.Refusal.{first_refusal, IsRefusedAs, RefusesFirst};
ghost use Rattle.lc_language.specs.Relations.{hamming_distance, add_refusals, scale_refusals, distance_refusals};

use crate::refusal::{check_add, check_scale};
use lc_code::CodeRefusal;
use lc_field::{Field, NoMemory};
use lc_vec::{Word, scale};
use std::alloc::Global;

/// The sum of two words over the field, symbol by symbol.
///
/// Refused in this order: the field has more than 16 elements, FieldTooLarge; the lengths differ, LengthsDiffer; a symbol of `x` is
/// no element of the field, BadArgument(1); one of `y`, BadArgument(2).
#[tactic(auto, using(lc_constructions::proofs::RefusalLaws::refused_or_not))]
pub fn add_words(alloc: Global, field: &Field, x: &[u8], y: &[u8]) -> Result<Word, CodeRefusal>
    ensures is { IfOk result (λ w. w ≡ word_sum field.now x.now y.now) }
    ensures refused { IsRefusedAs result (first_refusal (add_refusals field.now x.now y.now)) }
    ensures first { RefusesFirst result (first_refusal (add_refusals field.now x.now y.now)) }
{
    check_add(field, x, y)?;
    let mut sum = Word::zero(alloc, x.len())?;
    sum.put_added(field, x, y);
    Ok(sum)
}

/// The multiple of a word by the element `c` of the field.
///
/// Refused in this order: the field has more than 16 elements, FieldTooLarge; `c` is no element of the field, BadArgument(1); a
/// symbol of `x` is none, BadArgument(2).
#[tactic(auto, using(lc_constructions::proofs::RefusalLaws::refused_or_not))]
pub fn scale_word(alloc: Global, field: &Field, c: u8, x: &[u8]) -> Result<Word, CodeRefusal>
    ensures is { IfOk result (λ w. w ≡ multiple_of field.now c x.now) }
    ensures refused { IsRefusedAs result (first_refusal (scale_refusals field.now c x.now)) }
    ensures first { RefusesFirst result (first_refusal (scale_refusals field.now c x.now)) }
{
    check_scale(field, c, x)?;
    Ok(multiple(alloc, field, c, x)?)
}

// The multiple of a word of the field.
fn multiple(alloc: Global, field: &Field, c: u8, x: &[u8]) -> Result<Word, NoMemory>
    requires element { c < size field.now }
    requires word { Fits field.now x.now }
    ensures is { IfOk result (λ w. w ≡ multiple_of field.now c x.now) }
{
    let mut symbols = x.to_vec(alloc)?;
    scale(field, &mut symbols, c);
    Ok(Word::from_vec(symbols))
}

/// The Hamming distance of two lists of numbers: the number of coordinates in which they differ (MacWilliams and Sloane, chapter 1;
/// GUAVA manual, `DistanceCodeword`). No memory is taken, so there is always an answer or a refusal.
///
/// Refused: the lengths differ, LengthsDiffer.
#[tactic(auto, using(crate::proofs::RefusalLaws::distance_laws))]
pub fn hamming_distance(x: &[u64], y: &[u64]) -> Result<usize, CodeRefusal>
    ensures is { IfOk result (λ d. d ≡ hamming_distance x.now y.now) }
    ensures refused { IsRefusedAs result (first_refusal (distance_refusals x.now y.now)) }
    ensures first { RefusesFirst result (first_refusal (distance_refusals x.now y.now)) }
    ensures answered { first_refusal (distance_refusals x.now y.now) ≡ None → IsOk result }
{
    if x.len() != y.len() {
        return Err(CodeRefusal::LengthsDiffer);
    }
    Ok(x.iter().zip(y.iter()).filter(|(a, b)| a != b).count())
}
