// The gate before a report.

/// What a worker passes before it reports a block. The workers of a round share one.
pub trait Gate {
    /// Called before each report, with the worker's number and the number of the block in its
    /// search. Returns once the report may be made.
    fn before_report(&self, worker: u32, block: u64);
}

/// A gate that is always open.
#[derive(Clone, Copy, Debug, PartialEq, Eq)]
pub struct OpenGate;

impl Gate for OpenGate {
    /// Does nothing.
    fn before_report(&self, _worker: u32, _block: u64) {}
}
