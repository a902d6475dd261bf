//! Who does a round.
ghost use Rattle.std.specs.Prelude.{◌≤◌};

use std::alloc::Global;

/// Who does a round: the workers, with what starts them, what their memory comes from and the gate that each of them passes
/// before its reports.
#[derive(Drop)]
pub struct Crew<'a, R, G> {
    /// What starts the threads of the workers.
    pub rt: &'a R,
    /// What memory comes from.
    pub alloc: Global,
    /// How many workers a round has, 1 to 256.
    pub workers: u32,
    /// The gate that the workers pass.
    pub gate: &'a G,
    pub ghost some: { 1 ≤ workers },
    pub ghost few: { workers ≤ 256 },
}
