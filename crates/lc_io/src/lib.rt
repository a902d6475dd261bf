//! The outside of the workbench: where bytes come from and where they go, where checkpoints are
//! kept, who hears the records of a search, and what a worker passes before it reports.
//!
//! `Source`, `Sink`, `Vault` and `Watcher` say what a call may do. `MemorySource`, `MemorySink`,
//! `MemoryVault`, `MemoryWatcher` and `MemoryFolder` are forms in memory, for tests: what they give, keep and
//! refuse is said when they are made.
//! `ReaderSource` and `WriterSink` are made of any reader and any writer, `FolderVault` of two
//! files of a `Folder`, which is a trait too: it says what opening, making, keeping, renaming and
//! removing a file do, and what the library offers as `Files` is a folder. `read_to_limit` and
//! `write_whole` are the two loops over a source and a sink. `Gate` has no contract; `OpenGate`
//! does nothing.
#![tactic(auto)]

mod adapters;
mod calls;
mod folder;
mod folder_vault;
mod gate;
mod input;
mod loops;
mod memory_folder;
mod memory_vault;
mod memory_watcher;
mod output;
mod outside;
mod vault;
mod watcher;

pub use adapters::{ReaderSource, WriterSink};
pub use folder::{Folder, NewFile};
pub use folder_vault::FolderVault;
pub use gate::{Gate, OpenGate};
pub use input::MemorySource;
pub use loops::{ReadRefusal, read_to_limit, write_whole};
pub use memory_folder::{MemoryFile, MemoryFolder};
pub use memory_vault::MemoryVault;
pub use memory_watcher::MemoryWatcher;
pub use output::MemorySink;
pub use outside::{Failed, NoMemory, Sink, Source};
pub use vault::{Slot, Vault};
pub use watcher::{Advice, Record, Watcher};
