//! How many nonzero symbols the words of a run have, and the least of these counts.

ghost use Rattle.std.specs.Prelude.{◌≡◌, ◌≢◌, ℕ, ◌+◌, ◌<◌, ◌≤◌, length, slice_index, bit_xor, count_ones, IfSome, IfNone};
ghost use Rattle.lc_distances.specs.Least.{IsLeastOr, IsFirstLeast};

/// Adds to each count, at most 255, the number of ones of the exclusive or of its sum and the prefix. If these are two words
/// over 2 elements at 64 columns, one bit a symbol, it is the number of columns at which they differ. There are as many sums as
/// counts.
pub fn add_ones(sums: &[u64], prefix: u64, counts: &mut [u32])
    requires lengths { length sums.now ≡ length counts.old }
    requires few { (i : ℕ) → i < length counts.old → slice_index counts.old i ≤ 255 }
    ensures is { (i : ℕ) → i < length counts.old →
        slice_index counts.new i ≡ slice_index counts.old i + count_ones (bit_xor (slice_index sums.now i) prefix) }
{
    for i in 0..counts.len() {
        let ones = (sums[i] ^ prefix).count_ones();
        counts[i] += ones;
    }
}

/// Puts in place of each count the number of ones of the exclusive or of its sum and the prefix. There are as many sums as
/// counts, and what the counts were doesn't matter.
pub fn put_ones(sums: &[u64], prefix: u64, counts: &mut [u32])
    requires lengths { length sums.now ≡ length counts.old }
    ensures is { (i : ℕ) → i < length counts.old →
        slice_index counts.new i ≡ count_ones (bit_xor (slice_index sums.now i) prefix) }
{
    for i in 0..counts.len() {
        counts[i] = (sums[i] ^ prefix).count_ones();
    }
}

/// The least of some counts, each at most 255, and the first index that has it. There is at least one count.
pub fn first_least(counts: &[u32]) -> (u32, usize)
    requires some { 0 < length counts.now }
    requires few { (i : ℕ) → i < length counts.now → slice_index counts.now i ≤ 255 }
    ensures is { IsFirstLeast (length counts.now) (λ i. slice_index counts.now i) result.0 result.1 }
    ensures few { result.0 ≤ 255 }
    ensures inside { result.1 < length counts.now }
{
    let (least, from) = least_piece(counts);
    match place_of(&counts[from..], least) {
        Some(at) => (least, from + at),
        None => (least, 0),
    }
}

// The least of the counts and 256, and an index before which all are greater. (By pieces, since to look for the
// place of a count takes longer than to find the least.)
fn least_piece(counts: &[u32]) -> (u32, usize)
    ensures is { IsLeastOr (length counts.now) (λ i. slice_index counts.now i) 256 result.0 }
    ensures inside { result.1 ≤ length counts.now }
    ensures before { (i : ℕ) → i < result.1 → result.0 < slice_index counts.now i }
{
    let mut least = 256;
    let mut from = 0;
    let mut start = 0;
    while start < counts.len() {
        let end = counts.len().min(start + 256);
        let lesser = least_count(&counts[start..end], least);
        if lesser < least {
            least = lesser;
            from = start;
        }
        start = end;
    }
    (least, from)
}

// The first index of a count.
fn place_of(counts: &[u32], count: u32) -> Option<usize>
    ensures inside { IfSome result (λ at. at < length counts.now) }
    ensures is { IfSome result (λ at. slice_index counts.now at ≡ count) }
    ensures before { IfSome result (λ at. (i : ℕ) → i < at → slice_index counts.now i ≢ count) }
    ensures none { IfNone result ((i : ℕ) → i < length counts.now → slice_index counts.now i ≢ count) }
{
    counts.iter().position(|other| *other == count)
}

/// The least of the counts and a bound.
pub(crate) fn least_count(counts: &[u32], bound: u32) -> u32
    ensures is { IsLeastOr (length counts.now) (λ i. slice_index counts.now i) bound result }
{
    let mut least = bound;
    for i in 0..counts.len() {
        let count = counts[i];
        if count < least {
            least = count;
        }
    }
    least
}
