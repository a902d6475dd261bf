//! How a session of `join` ends.
ghost use Rattle.std.specs.Prelude.{◌≡◌, ◌++◌, codes, decimal};
ghost use Rattle.lc_session_rules.specs.Endings.{said};
ghost use Rattle.lc_join.specs.JoinSession.{ending_number, ending_line};
ghost use Rattle.lc_join.specs.Seen.{ending_of};

use lc_arguments::{Line, push_numbered, said, usage_line};

/// How a session of `join` ends.
///
/// Contracts see it as `ending_of` it, a `JoinEnding` of `specs/JoinSession`.
#[derive(Clone, Copy, Debug, PartialEq, Eq, Drop)]
pub enum JoinStatus {
    /// The checkpoint was written.
    Printed,
    /// The arguments of the command line are refused; the index of the first one that is, from 0.
    Usage(usize),
    /// Reading the source failed.
    SourceFault,
    /// Writing to the sink failed.
    SinkFault,
    /// Memory was refused.
    NoMemory,
    /// The source gave more than 1,048,576 bytes.
    TooLong,
    /// Blocks are missing before the search is answered: the first and the last of them.
    Missing(u64, u64),
    /// No line is that of a part.
    NoPart,
    /// The lines of these numbers disagree, counted from 1.
    Disagree(u64, u64),
}

// The line of blocks that are missing.
fn missing_line(first: u64, last: u64) -> Line
    ensures is { result.bytes
        ≡ said (codes "blocks " ++ decimal first ++ codes " to " ++ decimal last ++ codes " are missing") }
{
    let mut text = Line::new();
    push_numbered(&mut text, "blocks ", first);
    push_numbered(&mut text, " to ", last);
    text.push_str(" are missing");
    said(&text)
}

// The line of two lines that disagree.
fn disagree_line(one: u64, other: u64) -> Line
    ensures is { result.bytes
        ≡ said (codes "lines " ++ decimal one ++ codes " and " ++ decimal other ++ codes " disagree") }
{
    let mut text = Line::new();
    push_numbered(&mut text, "lines ", one);
    push_numbered(&mut text, " and ", other);
    text.push_str(" disagree");
    said(&text)
}

impl JoinStatus {
    /// The number with which the program ends: 0 if the checkpoint was written; 2, 4, 5, 7 and 12 as for other sessions; 14 if
    /// blocks are missing, 15 if no line is that of a part, 16 if two lines disagree.
    #[tactic(auto, unfolding(crate::specs::JoinSession::ending_number))]
    pub fn number(&self) -> u8
        ensures is { result ≡ ending_number (ending_of self.now) }
    {
        match self {
            JoinStatus::Printed => 0,
            JoinStatus::Usage(_) => 2,
            JoinStatus::SourceFault => 4,
            JoinStatus::SinkFault => 5,
            JoinStatus::NoMemory => 7,
            JoinStatus::TooLong => 12,
            JoinStatus::Missing(_, _) => 14,
            JoinStatus::NoPart => 15,
            JoinStatus::Disagree(_, _) => 16,
        }
    }
    /// The line of a status, for standard error: nothing for `Printed`; else, with a newline after it, `codes: ` and one of these:
    /// `word N refused`, N being the index of the argument from 0, `source fault`, `sink fault`, `no memory`, `input too long`,
    /// `blocks A to B are missing`, `no such part`, or `lines I and J disagree`.
    #[tactic(auto, unfolding(crate::specs::JoinSession::ending_line))]
    pub fn line(&self) -> Line
        ensures is { result.bytes ≡ ending_line (ending_of self.now) }
    {
        match self {
            JoinStatus::Printed => Line::new(),
            JoinStatus::Usage(index) => usage_line(*index),
            JoinStatus::SourceFault => said("source fault"),
            JoinStatus::SinkFault => said("sink fault"),
            JoinStatus::NoMemory => said("no memory"),
            JoinStatus::TooLong => said("input too long"),
            JoinStatus::Missing(first, last) => missing_line(*first, *last),
            JoinStatus::NoPart => said("no such part"),
            JoinStatus::Disagree(one, other) => disagree_line(*one, *other),
        }
    }
}
