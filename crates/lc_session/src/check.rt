//! The session of `check`.
ghost use Rattle.std.specs.Prelude.{◌≡◌, ℕ, List};
ghost use Rattle.lc_calls.specs.Built.{built_calls};
ghost use Rattle.lc_session_rules.specs.Options.{settings, options, all_options};
ghost use Rattle.lc_session_rules.specs.Session.{IsSession};
ghost use Rattle.lc_arguments.specs.Asked.{settings_for, IsWithin};
ghost use Rattle.lc_rounds.specs.Way.{Around};
ghost use Rattle.lc_text.specs.Worlds.{outside_of};
ghost use Rattle.lc_session.specs.Ending.{ending_of};

use crate::status::Status;
use lc_arguments::{Command, Settings};
use lc_io::{Sink, Source, write_whole};
use lc_judge::{Judged, judge};
use lc_session_rules::{InputRefusal, input};
use std::alloc::Global;

/// The session of `check`: reads a certificate of either version, and writes the line that says whether it is accepted.
pub(crate) fn check<S: Source, K: Sink>(
    alloc: Global,
    _asked: Settings,
    source: &mut S,
    sink: &mut K,
) -> Status
    requires within { IsWithin _asked }
    requires checks { _asked.command ≡ Command.Check }
    ensures { (args : List (List ℕ)) (now : Around) → options all_options args ≡ settings (settings_for _asked) →
        IsSession built_calls args (outside_of (S.rest source.old) (S.faults source.old) (K.written sink.old)
        (K.faults sink.old) now) (outside_of (S.rest source.new) (S.faults source.new) (K.written sink.new)
        (K.faults sink.new) now) (ending_of result) }
{
    let bytes = match input(alloc, source) {
        Ok(bytes) => bytes,
        Err(InputRefusal::Failed) => return Status::SourceFault,
        Err(InputRefusal::TooLong) => return Status::TooLong,
        Err(InputRefusal::NoMemory) => return Status::NoMemory { told: 0 },
    };
    let Ok(judged) = judge(alloc, &bytes) else {
        return Status::NoMemory { told: 0 };
    };
    let Judged { text, reason } = judged;
    match write_whole(sink, &text) {
        Ok(()) => match reason {
            None => Status::Done(0),
            Some(reason) => Status::Rejected(reason),
        },
        Err(_) => Status::SinkFault,
    }
}
