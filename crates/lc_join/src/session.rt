//! A session of `join`, from the arguments and the lines in to the checkpoint out.
ghost use Rattle.lc_arguments.specs.Asked.{words_of};
ghost use Rattle.lc_share.specs.Seen.{ends_of};
ghost use Rattle.lc_join.specs.JoinSession.{IsJoinSession};
ghost use Rattle.lc_join.specs.Seen.{ending_of};

use crate::arguments::join_options;
use crate::joining::{Outcome, joined};
use crate::status::JoinStatus;
use lc_io::{Sink, Source, write_whole};
use lc_session_rules::{InputRefusal, input};
use std::alloc::Global;

/// Makes a checkpoint of lines that sessions of `part` have printed, and writes it: `arguments` are those of the command line
/// after the program's name. They are `join`, and then there may be `budget=N`, N at most 2^40 and 2^20 without it.
///
/// It reads at most 1,048,576 bytes from the source. A line that isn't that of a part is passed over. The others must be of one
/// search, and those of one range must have one word. From the beginning of the search parts are taken, as often as one goes on, in
/// any order; where the search is answered under the budget, the checkpoint is written that `resume` goes on from. Nothing is
/// written unless the whole checkpoint is ready. The contract is `IsJoinSession`: what is read and written under each status, and
/// when each of them comes.
pub fn join_parts<S: Source, K: Sink>(
    alloc: Global,
    arguments: &[String],
    source: &mut S,
    sink: &mut K,
) -> JoinStatus
    ensures session { IsJoinSession (words_of arguments.now)
        (ends_of (S.rest source.old) (S.faults source.old) (K.written sink.old) (K.faults sink.old))
        (ends_of (S.rest source.new) (S.faults source.new) (K.written sink.new) (K.faults sink.new))
        (ending_of result) }
{
    let budget = match join_options(arguments) {
        Ok(budget) => budget,
        Err(index) => return JoinStatus::Usage(index),
    };
    let bytes = match input(alloc, source) {
        Ok(bytes) => bytes,
        Err(InputRefusal::Failed) => return JoinStatus::SourceFault,
        Err(InputRefusal::TooLong) => return JoinStatus::TooLong,
        Err(InputRefusal::NoMemory) => return JoinStatus::NoMemory,
    };
    if bytes.is_empty() {
        return JoinStatus::NoPart;
    }
    let text = match joined(alloc, budget, &bytes) {
        Ok(Outcome::Text(text)) => text,
        Ok(Outcome::Missing(first, last)) => return JoinStatus::Missing(first, last),
        Ok(Outcome::NoPart) => return JoinStatus::NoPart,
        Ok(Outcome::Disagree(one, other)) => return JoinStatus::Disagree(one, other),
        Err(_) => return JoinStatus::NoMemory,
    };
    match write_whole(sink, &text) {
        Ok(()) => JoinStatus::Printed,
        Err(_) => JoinStatus::SinkFault,
    }
}
