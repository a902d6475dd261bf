//! How many workers a round has work for.
ghost use Rattle.std.specs.Prelude.{◌≡◌, ◌/◌, ◌≤◌, min, max};

// A thread takes longer to start than so many blocks less one take on another.
const WORTH_A_THREAD: u64 = 64;

// So many workers have a thread of their own, however few the blocks are.
const ALWAYS: u64 = 4;

/// How many of the workers a round of so many blocks keeps busy: all, but no more than there are blocks, and above four no more
/// than one for each 64 blocks. So no thread is started that would have next to nothing to do. There are 1 to 256 workers and at
/// least one block.
pub(crate) fn hands(workers: u32, blocks: u64) -> u32
    requires workers { (1 ≤ workers) × (workers ≤ 256) }
    requires some { 1 ≤ blocks }
    ensures some { 1 ≤ result }
    ensures are { result ≡ min workers (min blocks (max 4 (blocks / 64))) }
    ensures few { result ≤ workers }
    ensures busy { result ≤ blocks }
{
    let useful = blocks.min(ALWAYS.max(blocks / WORTH_A_THREAD));
    useful.min(workers as u64) as u32
}
