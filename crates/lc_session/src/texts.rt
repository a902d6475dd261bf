//! The texts that arguments ask for in place of a session.
ghost use Rattle.std.specs.Prelude.{◌≡◌, Some, None, MatchOption};
ghost use Rattle.lc_arguments.specs.Asked.{words_of};
ghost use Rattle.lc_session.specs.Texts.{named_text, text_asked, IsTold};

use crate::status::Status;
use lc_io::{Sink, write_whole};
use lc_json::is_same;

// The text that an argument names.
#[tactic(auto, unfolding(crate::specs::Texts::named_text))]
fn text_of<'a>(argument: &str, help: &'a str, version: &'a str) -> Option<&'a str>
    ensures { MatchOption result (named_text help.now version.now argument.now ≡ None)
        (λ text. named_text help.now version.now argument.now ≡ Some text.now) }
{
    if is_same(b"--help", argument.as_bytes()) {
        return Some(help);
    }
    if is_same(b"--version", argument.as_bytes()) {
        return Some(version);
    }
    None
}

/// Writes a text to the sink if the arguments ask for one in place of a session: `help` if the only argument is `--help`, and
/// `version` if it is `--version`. The status is then `Done`, or `SinkFault` if a write failed. For all other arguments, further
/// ones after these among them, nothing is written and the answer is None. It takes no memory.
pub fn told_text<K: Sink>(
    arguments: &[String],
    help: &str,
    version: &str,
    sink: &mut K,
) -> Option<Status>
    ensures { IsTold (text_asked help.now version.now (words_of arguments.now))
        (K.written sink.old) (K.written sink.new) (K.faults sink.old) (K.faults sink.new) result }
{
    if arguments.len() != 1 {
        return None;
    }
    let text = text_of(arguments[0].as_str(), help, version)?;
    match write_whole(sink, text.as_bytes()) {
        Ok(()) => Some(Status::Done(0)),
        Err(_) => Some(Status::SinkFault),
    }
}
