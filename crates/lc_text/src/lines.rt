//! The lines of queries that searches answer, that count words, or that look for nearest words.
ghost use Rattle.std.specs.Prelude.{◌≡◌, ◌^◌, ◌<◌, ◌≤◌, Some, None, length, true, IfOk};
ghost use Rattle.lc_algebra.specs.Field.{size};
ghost use Rattle.lc_algebra.specs.Word.{IsWord};
ghost use Rattle.lc_enumeration.specs.Distribution.{distribution_refusal};
ghost use Rattle.lc_enumeration.specs.Search.{fits};
ghost use Rattle.lc_enumeration.specs.Records.{found_of};
ghost use Rattle.lc_language.specs.Query.{distance_answer_line, certificate_answer_line, distribution_line, near_line};
ghost use Rattle.lc_certify.specs.Claims.{kind_of as way_kind};
ghost use Rattle.lc_eval.specs.Evaluated.{kind_of};
ghost use Rattle.lc_search.specs.State.{answer_in, answer_of};
ghost use Rattle.lc_session_rules.specs.Answers.{answer_line};

use lc_certify::{Way, exact_line};
use lc_code::Code;
use lc_coset::nearest;
use lc_eval::{QueryKind, nearest_line};
use lc_field::NoMemory;
use lc_print::{bracket_line, certificate_bracket_line, distance_line, list_line};
use lc_search::{Answer, Search};
use lc_vec::Word;
use lc_weights::distribution;
use std::alloc::Global;
use std::thread::Threads;

// The line that `MinimumDistance` prints of an answer.
fn distance_line_of(alloc: Global, search: &Search, answer: Answer) -> Result<Vec<u8>, NoMemory>
    requires fitting { fits search.now.code search.now.progress.blocks (found_of search.now.progress) ≡ true }
    requires answered { answer_in search.now ≡ Some (answer_of answer) }
    ensures { IfOk result (λ line. line.items ≡ distance_answer_line search.now.code (answer_of answer)) }
{
    let _rows = search.sets().dimension();
    match answer {
        Answer::Exact {
            weight,
            place,
            blocks,
        } => distance_line(alloc, weight, &search.word(alloc, place)?, blocks),
        Answer::Bracket {
            low,
            weight,
            place,
            blocks,
        } => bracket_line(alloc, low, weight, &search.word(alloc, place)?, blocks),
    }
}

// The line that `Certificate` or `ScanCertificate` prints of an answer.
fn certificate_line_of(
    alloc: Global,
    way: Way,
    search: &Search,
    answer: Answer,
) -> Result<Vec<u8>, NoMemory>
    requires fitting { fits search.now.code search.now.progress.blocks (found_of search.now.progress) ≡ true }
    requires answered { answer_in search.now ≡ Some (answer_of answer) }
    ensures { IfOk result (λ line. line.items
        ≡ certificate_answer_line (way_kind way) search.now.code (answer_of answer)) }
{
    let _rows = search.sets().dimension();
    match answer {
        Answer::Exact { weight, place, .. } => Ok(exact_line(alloc, way, search, weight, place)?),
        Answer::Bracket { low, weight, .. } => Ok(certificate_bracket_line(alloc, low, weight)?),
    }
}

/// The line that a query prints of the answer of its search. Refused only for want of memory.
///
/// The search has this answer, and its record fits its code.
#[tactic(auto, unfolding(lc_certify::specs::Claims::kind_of))]
pub(crate) fn line_of(
    alloc: Global,
    kind: QueryKind,
    search: &Search,
    answer: Answer,
) -> Result<Vec<u8>, NoMemory>
    requires fitting { fits search.now.code search.now.progress.blocks (found_of search.now.progress) ≡ true }
    requires answered { answer_in search.now ≡ Some (answer_of answer) }
    ensures { IfOk result (λ line. line.items ≡ answer_line (kind_of kind) search.now.code (answer_of answer)) }
{
    match kind {
        QueryKind::Distance => distance_line_of(alloc, search, answer),
        QueryKind::Levels => certificate_line_of(alloc, Way::Levels, search, answer),
        QueryKind::Scan => certificate_line_of(alloc, Way::Scan, search, answer),
    }
}

/// The line that `WeightDistribution` prints of a code. Refused only for want of memory.
///
/// There are 1 to 256 workers, who count the words, and the weight distribution of the code isn't refused.
#[tactic(auto, unfolding(lc_language::specs::Query::distribution_line))]
pub(crate) fn distribution_line<R: Threads + Sync>(
    rt: &R,
    alloc: Global,
    workers: u32,
    code: &Code,
) -> Result<Vec<u8>, NoMemory>
    requires workers { (1 ≤ workers) × (workers ≤ 256) }
    requires allowed { distribution_refusal (size code.now.field) code.now.columns (length code.now.rows) ≡ None }
    ensures { IfOk result (λ line. line.items ≡ distribution_line code.now) }
{
    let counts = distribution(rt, alloc, code, workers)?;
    list_line(alloc, counts.as_slice())
}

/// The line that `NearestWord` prints of a code and a word. Refused only for want of memory.
///
/// The code has dimension at least 1, and the word has its length and is over its field. The budget is at most 2^40 blocks, and
/// there are 1 to 256 workers, who search.
#[tactic(auto, unfolding(lc_language::specs::Query::near_line))]
pub(crate) fn near_line<R: Threads + Sync>(
    rt: &R,
    alloc: Global,
    workers: u32,
    budget: u64,
    code: &Code,
    word: &Word,
) -> Result<Vec<u8>, NoMemory>
    requires workers { (1 ≤ workers) × (workers ≤ 256) }
    requires budget { budget ≤ 2 ^ 40 }
    requires dimension { 0 < length code.now.rows }
    requires word { IsWord code.now.field code.now.columns word.now }
    ensures { IfOk result (λ line. line.items ≡ near_line code.now word.now budget) }
{
    let near = nearest(rt, alloc, code, word.symbols(), budget, workers)?;
    nearest_line(
        alloc,
        near.exact,
        near.low,
        near.weight,
        &near.word,
        near.blocks,
    )
}
