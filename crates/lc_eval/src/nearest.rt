//! The query for a nearest word.
ghost use Rattle.std.specs.Prelude.{◌≡◌, length, IfOk};
ghost use Rattle.lc_language.specs.Calls as bound;
ghost use Rattle.lc_language.specs.Query.{near_line};
ghost use Rattle.lc_language.specs.Evaluation.{QueriesTo};
ghost use Rattle.lc_eval.specs.Evaluated.{AffectsOrFails};

use crate::decoding::checked;
use crate::lines::nearest_line;
use crate::statement::Effect;
use lc_calls::Stop;
use lc_code::Code;
use lc_field::NoMemory;
use lc_vec::{Word, weight};
use std::alloc::Global;

// The line for a word and a code of dimension 0, whose one word is zero: it is at the weight of the word.
#[tactic(auto, using(crate::proofs::NearLaws::zero_told))]
fn zero_line(alloc: Global, code: &Code, word: &Word) -> Result<Vec<u8>, NoMemory>
    requires { length code.now.rows ≡ 0 }
    ensures { IfOk result (λ l. l.items ≡ near_line code.now word.now 0) }
{
    let zero = Word::zero(alloc, code.length())?;
    let distance = weight(word.symbols()) as u64;
    nearest_line(alloc, true, distance, distance, &zero, 0)
}

/// A word of a code that is nearest to a list of symbols, for which the caller searches; of a code of dimension 0 it is known at
/// once.
///
/// Refused if the list isn't of the code's length, and then if an entry is no symbol of its field.
#[tactic(auto, using(crate::proofs::NearLaws::near_zero, crate::proofs::NearLaws::near_asked))]
pub(crate) fn nearest_word(
    alloc: Global,
    offset: usize,
    code: &Code,
    list: &[u64],
) -> Result<Effect, Stop>
    ensures { AffectsOrFails result (QueriesTo offset (bound.nearest_word code.now list.now)) }
{
    let word = checked(alloc, offset, code, list)?;
    if code.dimension() == 0 {
        return Ok(Effect::Prints(zero_line(alloc, code, &word)?));
    }
    Ok(Effect::Nears(code.copy(alloc)?, word))
}
