//! The slots of the program.
ghost use Rattle.std.specs.Prelude.{◌≡◌, IfOk};
ghost use Rattle.codes.specs.Files.{slot_zero, slot_one};

use lc_io::{Folder, FolderVault, NoMemory};
use std::alloc::Global;

/// The files of the two slots.
const SLOT_ZERO: &str = "codes.slot0";

const SLOT_ONE: &str = "codes.slot1";

/// The vault of these two files of a folder. Fails only if memory runs out.
pub(crate) fn slots<R: Folder + Drop>(folder: R, alloc: Global) -> Result<FolderVault<R>, NoMemory>
    ensures is { IfOk result
        (λ vault. vault ≡ record { folder = folder; zero = slot_zero; one = slot_one; faults = 0 }) }
{
    let vault = FolderVault::new(folder, alloc, SLOT_ZERO, SLOT_ONE)?;
    Ok(vault)
}
