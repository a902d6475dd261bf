//! The weight distribution of a code, by counting its words or those of its dual.
ghost use Rattle.std.specs.Prelude.{◌≡◌, ◌^◌, ◌<◌, ◌≤◌, length, None, IfOk};
ghost use Rattle.lc_algebra.specs.Field.{size};
ghost use Rattle.lc_enumeration.specs.Distribution.{distribution_of, distribution_refusal};

use crate::counted::count_words;
use lc_code::Code;
use lc_field::NoMemory;
use lc_macwilliams::{from_dual, has_many_words};
use std::alloc::Global;
use std::thread::Threads;

/// The weight distribution of a code: how many of its words have weight 0, 1, and so on up to the length. If the code has
/// more than 2^24 words, those of its dual are counted, and it is found from the distribution of the dual (MacWilliams and
/// Sloane, chapter 5).
///
/// `refusal` of `lc_macwilliams` doesn't refuse the code. There are 1 to 256 workers, who count beside each other. Refused
/// only if no memory is left.
pub fn distribution<R: Threads + Sync>(
    rt: &R,
    alloc: Global,
    code: &Code,
    workers: u32,
) -> Result<Vec<u64>, NoMemory>
    requires built { distribution_refusal (size code.now.field) code.now.columns (length code.now.rows) ≡ None }
    requires workers { (1 ≤ workers) × (workers ≤ 256) }
    ensures is { IfOk result (λ a. a.items ≡ distribution_of code.now) }
{
    if has_many_words(code) {
        return by_dual(rt, alloc, code, workers);
    }
    count_words(rt, alloc, code, workers)
}

// The weight distribution of a code of more than 2^24 words, from that of its dual.
#[tactic(auto, using(lc_macwilliams::proofs::DualCounts::dual_counts))]
fn by_dual<R: Threads + Sync>(
    rt: &R,
    alloc: Global,
    code: &Code,
    workers: u32,
) -> Result<Vec<u64>, NoMemory>
    requires built { distribution_refusal (size code.now.field) code.now.columns (length code.now.rows) ≡ None }
    requires many { 2 ^ 24 < size code.now.field ^ length code.now.rows }
    requires workers { (1 ≤ workers) × (workers ≤ 256) }
    ensures is { IfOk result (λ a. a.items ≡ distribution_of code.now) }
{
    let _matrix = code.matrix();
    let dual = code.dual(alloc)?;
    let counts = count_words(rt, alloc, &dual, workers)?;
    from_dual(alloc, code, counts.as_slice())
}
