//! How a session of `part` ends.
ghost use Rattle.std.specs.Prelude.{◌≡◌};
ghost use Rattle.lc_share.specs.PartSession.{ending_number};
ghost use Rattle.lc_share.specs.Seen.{ending_of};

/// How a session of `part` ends.
///
/// Contracts see it as `ending_of` it, a `PartEnding` of `specs/PartSession`.
#[derive(Clone, Copy, Debug, PartialEq, Eq, Drop)]
pub enum PartStatus {
    /// The line was written.
    Printed,
    /// The arguments of the command line are refused; the index of the first one that is, from 0.
    Usage(usize),
    /// Reading the source failed.
    SourceFault,
    /// Writing to the sink failed.
    SinkFault,
    /// Memory was refused.
    NoMemory,
    /// The source gave more than 1,048,576 bytes.
    TooLong,
    /// The script has no search before its first fault, or the plan of the first one doesn't have all of the blocks.
    NoPart,
}

impl PartStatus {
    /// The number with which the program ends: 0 if the line was written; 2, 4, 5, 7 and 12 as for other sessions; 15 if there
    /// is no such part.
    #[tactic(auto, unfolding(crate::specs::PartSession::ending_number))]
    pub fn number(&self) -> u8
        ensures is { result ≡ ending_number (ending_of self.now) }
    {
        match self {
            PartStatus::Printed => 0,
            PartStatus::Usage(_) => 2,
            PartStatus::SourceFault => 4,
            PartStatus::SinkFault => 5,
            PartStatus::NoMemory => 7,
            PartStatus::TooLong => 12,
            PartStatus::NoPart => 15,
        }
    }
}
