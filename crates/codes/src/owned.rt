//! The vault and the watchers of the program.
ghost use Rattle.std.specs.Prelude.{◌≡◌, ◌∷◌, [], IfOk};
ghost use Rattle.codes.specs.Files.{slot_zero, slot_one};
ghost use Rattle.codes.specs.declared.watchers.ProgramWatcher.TheVariants.{Lines, Stop};

use crate::slots::slots;
use crate::watchers::{LineWatcher, ProgramWatcher, StopWatcher};
use lc_io::{Folder, FolderVault, NoMemory};
use std::alloc::Global;
use std::io::Write;

/// What the sessions of the program have around them: the slots in two files of a folder, and the watchers of their records.
#[derive(Drop)]
pub(crate) struct OwnedSurroundings<V, W> {
    pub(crate) vault: FolderVault<V>,
    pub(crate) watchers: Vec<W>,
}

impl<V: Folder + Drop, L: Write + Drop, F: Folder + Drop> OwnedSurroundings<
    V,
    ProgramWatcher<L, F>,
> {
    /// Slots in the first folder, a watcher that writes the lines of records to `records`, and one that looks in the second folder
    /// for the file that stops a session. Fails only if memory runs out.
    pub(crate) fn new(
        alloc: Global,
        vault: V,
        stops: F,
        records: L,
    ) -> Result<OwnedSurroundings<V, ProgramWatcher<L, F>>, NoMemory>
        ensures vault { IfOk result
            (λ s. s.vault ≡ record { folder = vault; zero = slot_zero; one = slot_one; faults = 0 }) }
        ensures watchers { IfOk result (λ s. s.watchers.items
            ≡ Lines (record { sink = record { inner = records; faults = 0 } })
            ∷ Stop (record { folder = stops; pauses = 0 }) ∷ []) }
    {
        let vault = slots(vault, alloc)?;
        let mut watchers = Vec::with_capacity(alloc, 2)?;
        watchers.push(ProgramWatcher::Lines(LineWatcher::new(records)))?;
        watchers.push(ProgramWatcher::Stop(StopWatcher::new(stops)))?;
        Ok(OwnedSurroundings { vault, watchers })
    }
}
