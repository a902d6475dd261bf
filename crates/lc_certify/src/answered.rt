//! The line of a search that has ended with an exact answer.
ghost use Rattle.std.specs.Prelude.{◌≡◌, IfOk};
ghost use Rattle.lc_enumeration.specs.Search.{exact};
ghost use Rattle.lc_enumeration.specs.Truth.{HasWord};
ghost use Rattle.lc_language.specs.Query.{certificate_answer_line};
ghost use Rattle.lc_certify.specs.Claims.{kind_of};

use crate::certificate::certificate_of;
use crate::line::certificate_line;
use crate::way::Way;
use lc_field::NoMemory;
use lc_search::Search;
use std::alloc::Global;

/// The line of the certificate that the code of the search has this weight for its minimum distance, by the word at this
/// place and the blocks that the search has done.
///
/// At the place is a nonzero word of the code with this weight, as there is at that of every answer (`answers_are_true` of
/// `lc_infoset`). That the search has ended isn't tried.
#[tactic(auto, using(crate::proofs::AnswerLaws::there, crate::proofs::AnswerLaws::weighs))]
pub fn exact_line(
    alloc: Global,
    way: Way,
    search: &Search,
    weight: u64,
    place: u64,
) -> Result<Vec<u8>, NoMemory>
    requires word { HasWord search.now.code (record { weight = weight; place = place }) }
    ensures is { IfOk result (λ line. line.items
        ≡ certificate_answer_line (kind_of way) search.now.code
        (exact (record { weight = weight; place = place }) search.now.progress.blocks)) }
{
    let _rows = search.sets().dimension();
    let word = search.word(alloc, place)?;
    let certificate = certificate_of(alloc, way, search, word, weight)?;
    let line = certificate_line(alloc, &certificate)?;
    Ok(line)
}
