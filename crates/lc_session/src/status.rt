//! How a session ends.
ghost use Rattle.std.specs.Prelude.{◌≡◌, ◌++◌, [], IfOk, IsOk, codes, decimal};
ghost use Rattle.lc_session_rules.specs.Endings.{ending_number, ending_line, said};
ghost use Rattle.lc_session.specs.Ending.{ending_of};

use lc_arguments::{Line, push_numbered, said, usage_line};
use lc_checker::Reason;
use lc_field::NoMemory;
use std::alloc::Global;

/// How a session ends.
///
/// Contracts see it as `ending_of` it, an `Ending` of `lc_session_rules`.
#[derive(Drop)]
pub enum Status {
    /// The whole text was written. The number is 1 if a fault line ends it, else 0.
    Done(u8),
    /// The arguments of the command line are refused; the index of the first one that is, from 0.
    Usage(usize),
    /// Checkpoints are kept, and a watcher paused the session or its slice is used up.
    Paused {
        /// The query that is searched, counted from 0.
        query: u64,
        /// How many of its blocks are done.
        blocks: u64,
    },
    /// Reading the source failed.
    SourceFault,
    /// Writing to the sink failed.
    SinkFault,
    /// A call of the vault failed.
    VaultFault {
        /// How many records were told.
        told: u64,
    },
    /// Memory was refused.
    NoMemory {
        /// How many records were told.
        told: u64,
    },
    /// There is nothing in the slots to resume.
    NoCheckpoint,
    /// There is something in the slots, and no checkpoint.
    DamagedCheckpoint,
    /// The checkpoint is of another script or another budget.
    OtherScript {
        /// The SHA-256 of the script that it is of.
        script: [u8; 32],
        /// Its budget.
        budget: u64,
    },
    /// The certificate is rejected, for this reason. The text was written.
    Rejected(Reason),
    /// The source gave more than 1,048,576 bytes.
    TooLong,
    /// A record of the checkpoint doesn't fit the script, or the script ends before the records do.
    Unfit {
        /// The query of the record, counted from 0; or how many queries there are.
        query: u64,
        /// The weight that the record tells; or how many records there are.
        told: u64,
        /// The weight that is found, 0 if there is no word; or 0.
        found: u64,
    },
}

// The line of a pause at these blocks of a query.
fn pause_line(query: u64, blocks: u64) -> Line
    ensures is { result.bytes ≡ said (codes "paused at query " ++ decimal query ++ codes " blocks " ++ decimal blocks) }
{
    let mut text = Line::new();
    push_numbered(&mut text, "paused at query ", query);
    push_numbered(&mut text, " blocks ", blocks);
    said(&text)
}

// The line of a record that doesn't fit this query.
fn unfit_line(query: u64) -> Line
    ensures is { result.bytes ≡ said (codes "checkpoint does not fit query " ++ decimal query) }
{
    let mut text = Line::new();
    push_numbered(&mut text, "checkpoint does not fit query ", query);
    said(&text)
}

impl Status {
    /// The number with which the program ends: that of `Done`, and 2 to 13 for the others in their order.
    #[tactic(auto, unfolding(lc_session_rules::specs::Endings::ending_number))]
    pub fn number(&self) -> u8
        ensures { result ≡ ending_number (ending_of self.now) }
    {
        match self {
            Status::Done(number) => *number,
            Status::Usage(_) => 2,
            Status::Paused { .. } => 3,
            Status::SourceFault => 4,
            Status::SinkFault => 5,
            Status::VaultFault { .. } => 6,
            Status::NoMemory { .. } => 7,
            Status::NoCheckpoint => 8,
            Status::DamagedCheckpoint => 9,
            Status::OtherScript { .. } => 10,
            Status::Rejected(_) => 11,
            Status::TooLong => 12,
            Status::Unfit { .. } => 13,
        }
    }
    /// The line of a status, for standard error: nothing for `Done`; else, with a newline after it,
    /// `codes: ` and one of these: `word N refused`, N being the index of the argument from 0, `paused at
    /// query Q blocks L`, `source fault`, `sink fault`, `vault fault`, `no memory`, `no checkpoint`,
    /// `damaged checkpoint`, `checkpoint of another script or budget`, `rejected`, `input too long` or
    /// `checkpoint does not fit query Q`.
    #[tactic(auto, unfolding(lc_session_rules::specs::Endings::ending_line))]
    pub fn line(&self) -> Line
        ensures is { result.bytes ≡ ending_line (ending_of self.now) }
    {
        match self {
            Status::Done(_) => Line::new(),
            Status::Usage(index) => usage_line(*index),
            Status::Paused { query, blocks } => pause_line(*query, *blocks),
            Status::SourceFault => said("source fault"),
            Status::SinkFault => said("sink fault"),
            Status::VaultFault { .. } => said("vault fault"),
            Status::NoMemory { .. } => said("no memory"),
            Status::NoCheckpoint => said("no checkpoint"),
            Status::DamagedCheckpoint => said("damaged checkpoint"),
            Status::OtherScript { .. } => said("checkpoint of another script or budget"),
            Status::Rejected(_) => said("rejected"),
            Status::TooLong => said("input too long"),
            Status::Unfit { query, .. } => unfit_line(*query),
        }
    }
}

/// The line of a status, as `Status::line` gives it, in a vector. Refused only for want of memory, and never if the line is empty, as
/// that of `Done` is.
pub fn status_line(alloc: Global, status: &Status) -> Result<Vec<u8>, NoMemory>
    ensures is { IfOk result (λ line. line.items ≡ ending_line (ending_of status.now)) }
    ensures empty { ending_line (ending_of status.now) ≡ [] → IsOk result }
{
    let mut line = Vec::new(alloc);
    line.extend_from_slice(status.line().as_bytes())?;
    Ok(line)
}
