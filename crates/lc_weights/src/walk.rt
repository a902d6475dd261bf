//! The words of a block, counted by their weights.
ghost use Rattle.std.specs.Prelude.{◌≡◌, ℕ, ◌+◌, ◌*◌, ◌^◌, ◌<◌, ◌≤◌, ◌==◌, length, slice_index, count_by};
ghost use Rattle.lc_weights.specs.Counts.{apart_count};

use lc_planes::places_apart;

/// Adds to each count how many of some words, given as bits, differ from another at so many places as the count's index.
///
/// There are at most 4,096 words and a count for each number of places. No count is above 2^53. It takes no memory.
pub(crate) fn tally<const P: usize, const N: usize>(
    head: &[[u64; P]; N],
    tails: &[[[u64; P]; N]],
    counts: &mut [u64],
)
    requires parts { N ≤ 4 }
    requires few { length tails.now ≤ 4096 }
    requires long { length counts.old ≡ 64 * N + 1 }
    requires low { (j : ℕ) → slice_index counts.old j ≤ 2 ^ 53 }
    ensures long { length counts.new ≡ length counts.old }
    ensures added { (j : ℕ) → slice_index counts.new j
        ≡ slice_index counts.old j + apart_count P N head.now tails.now j }
{
    for i in 0..tails.len() {
        counts[places_apart(head, &tails[i])] += 1;
    }
}
