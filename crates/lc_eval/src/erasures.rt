//! The query for a codeword with erased symbols.
ghost use Rattle.std.specs.Prelude.{◌≡◌, IfOk};
ghost use Rattle.lc_language.specs.Calls as bound;
ghost use Rattle.lc_language.specs.Print.{filling_line};
ghost use Rattle.lc_language.specs.Evaluation.{QueriesTo};
ghost use Rattle.lc_erasures.specs.Filling.{filling_of};
ghost use Rattle.lc_eval.specs.Evaluated.{AffectsOrFails};

use crate::decoding::checked;
use crate::rows::list_of;
use crate::statement::Effect;
use lc_calls::{Stop, refused_as};
use lc_code::Code;
use lc_erasures::Filling;
use lc_field::NoMemory;
use lc_print::{list_line, many_line, none_line};
use std::alloc::Global;

// The line of an answer.
#[tactic(auto, unfolding(crate::proofs::Opened::lines_of_fillings))]
fn line_of(alloc: Global, filling: Filling) -> Result<Vec<u8>, NoMemory>
    ensures { IfOk result (λ l. l.items ≡ filling_line (filling_of filling)) }
{
    match filling {
        Filling::Filled(word) => {
            let list = list_of(alloc, word.symbols())?;
            Ok(list_line(alloc, &list)?)
        }
        Filling::Unfilled => Ok(none_line(alloc)?),
        Filling::Ambiguous => Ok(many_line(alloc)?),
    }
}

/// The one word of a code that agrees with a list of symbols at all coordinates but the erased ones, or that there is none, or that
/// there are several.
///
/// Refused if the list isn't of the code's length, then if an entry is no symbol of its field, then if the coordinates don't rise
/// or one is the length or more.
#[tactic(auto, using(crate::proofs::ErasureLaws::erasures_told))]
pub(crate) fn fill_erasures(
    alloc: Global,
    offset: usize,
    code: &Code,
    list: &[u64],
    erased: &[u64],
) -> Result<Effect, Stop>
    ensures { AffectsOrFails result (QueriesTo offset (bound.fill_erasures code.now list.now erased.now)) }
{
    let word = checked(alloc, offset, code, list)?;
    match lc_erasures::fill_erasures(alloc, code, word.symbols(), erased) {
        Ok(filling) => Ok(Effect::Prints(line_of(alloc, filling)?)),
        Err(refusal) => Err(refused_as(alloc, offset, refusal)),
    }
}
