//! What the command line asks for.

/// A command of the program.
#[derive(Clone, Copy, Debug, PartialEq, Eq)]
pub enum Command {
    /// Prints the text of a script.
    Run,
    /// Goes on from the checkpoint that a session kept.
    Resume,
    /// Says whether a certificate is accepted.
    Check,
    /// Prints the summary of a seed.
    Summary,
}

/// What the arguments of the command line ask for.
///
/// Contracts see it as `settings_for` it, the `Settings` of `lc_session_rules`.
#[derive(Clone, Copy, Debug, PartialEq, Eq)]
pub struct Settings {
    /// The command.
    pub command: Command,
    /// How many workers a round has, 1 to 256.
    pub workers: u32,
    /// How many blocks a round has at most, 1 to 2^20.
    pub round: u64,
    /// How many blocks a search may take, at most 2^40.
    pub budget: u64,
    /// How many blocks a session may take before it pauses, 1 to 2^40; None if it takes as many as it needs.
    pub slice: Option<u64>,
    /// Whether a checkpoint is kept after each round.
    pub keep: bool,
    /// The seed of a summary; 0 for another command.
    pub number: u64,
}

/// Why the arguments of the command line are refused.
#[derive(Clone, Copy, Debug, PartialEq, Eq)]
pub enum OptionRefusal {
    /// The index, from 0, of the first argument that is wrong, or that would have to be there.
    Usage(usize),
    /// Memory was refused. (None is taken today.)
    NoMemory,
}
