//! How the program ends.
ghost use Rattle.std.specs.Prelude.{◌≡◌};
ghost use Rattle.lc_share.specs.Seen.{ending_of as part_ending};
ghost use Rattle.lc_join.specs.Seen.{ending_of as join_ending};
ghost use Rattle.codes.specs.Endings.{joined, number_of, line_of};

use lc_arguments::Line;
use lc_join::JoinStatus;
use lc_session::Status;
use lc_share::PartStatus;

/// How the program ends.
#[derive(Drop)]
pub(crate) enum Ending {
    /// A text was told, or a session was run.
    Session(Status),
    /// A part of a search was done.
    Part(PartStatus),
    /// Parts were joined.
    Join(JoinStatus),
}

// How a part ends, as one of the endings of a join, which has them all.
fn as_join(status: &PartStatus) -> JoinStatus
    ensures is { join_ending result ≡ joined (part_ending status.now) }
{
    match status {
        PartStatus::Printed => JoinStatus::Printed,
        PartStatus::Usage(index) => JoinStatus::Usage(*index),
        PartStatus::SourceFault => JoinStatus::SourceFault,
        PartStatus::SinkFault => JoinStatus::SinkFault,
        PartStatus::NoMemory => JoinStatus::NoMemory,
        PartStatus::TooLong => JoinStatus::TooLong,
        PartStatus::NoPart => JoinStatus::NoPart,
    }
}

impl Ending {
    /// The number with which the program ends.
    pub(crate) fn number(&self) -> u8
        ensures is { result ≡ number_of self.now }
    {
        match self {
            Ending::Session(status) => status.number(),
            Ending::Part(status) => status.number(),
            Ending::Join(status) => status.number(),
        }
    }

    /// The line of this ending, for standard error; empty if the whole text was written.
    pub(crate) fn line(&self) -> Line
        ensures is { result.bytes ≡ line_of self.now }
    {
        match self {
            Ending::Session(status) => status.line(),
            Ending::Part(status) => as_join(status).line(),
            Ending::Join(status) => status.line(),
        }
    }
}
