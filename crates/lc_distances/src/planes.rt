//! The bits of the symbols of words, as numbers, and where words differ.

ghost use Rattle.std.specs.Prelude.{◌≡◌, ℕ, ◌+◌, ◌*◌, ◌/◌, ◌^◌, ◌<◌, ◌≤◌, length, slice_index, bit_or, bit_xor, count_ones};
ghost use Rattle.lc_distances.specs.Planes.{bits_apart};
ghost use Rattle.lc_planes.specs.Planes.{plane, plane_at};

use lc_planes::plane_of;

/// The symbols of a word at some of its columns, at most 64, in the order of the columns, and then zeros.
pub fn gather(word: &[u8], columns: &[usize]) -> [u8; 64]
    requires few { length columns.now ≤ 64 }
    requires inside { (t : ℕ) → t < length columns.now → slice_index columns.now t < length word.now }
    ensures planes { (j : ℕ) → plane j result ≡ plane_at j columns.now word.now }
{
    let mut block = [0; 64];
    for t in 0..columns.len() {
        block[t] = word[columns[t]];
    }
    block
}

/// The first planes, at most 4, of the symbols of a word at some of its columns, at most 64, and then zeros: bit t of a plane is
/// for column t of these.
pub fn pack(word: &[u8], columns: &[usize], planes: usize) -> [u64; 4]
    requires few { length columns.now ≤ 64 }
    requires inside { (t : ℕ) → t < length columns.now → slice_index columns.now t < length word.now }
    requires planes { planes ≤ 4 }
    ensures are { (j : ℕ) → j < planes → slice_index result j ≡ plane_at j columns.now word.now }
    ensures rest { (j : ℕ) → planes ≤ j → j < 4 → slice_index result j ≡ 0 }
{
    let block = gather(word, columns);
    let mut bits = [0; 4];
    for j in 0..planes {
        bits[j] = plane_of(&block, j);
    }
    bits
}

// Adds to each count the number of symbols at which a head differs from a word, by two planes.
#[inline]
fn add_two(ones: &[u64], twos: &[u64], head: &[u64; 4], counts: &mut [u32])
    requires ones { length ones.now ≡ length counts.old }
    requires twos { length twos.now ≡ length counts.old }
    requires few { (i : ℕ) → i < length counts.old → slice_index counts.old i ≤ 255 }
    ensures is { (i : ℕ) → i < length counts.old →
        slice_index counts.new i ≡ slice_index counts.old i + count_ones
        (bit_or (bit_xor (slice_index head.now 1) (slice_index twos.now i))
        (bit_xor (slice_index head.now 0) (slice_index ones.now i))) }
{
    let [p, r, _, _] = *head;
    for i in 0..counts.len() {
        let apart = (r ^ twos[i]) | (p ^ ones[i]);
        let many = apart.count_ones();
        counts[i] += many;
    }
}

// The same by three planes.
#[inline]
fn add_three(ones: &[u64], twos: &[u64], fours: &[u64], head: &[u64; 4], counts: &mut [u32])
    requires ones { length ones.now ≡ length counts.old }
    requires twos { length twos.now ≡ length counts.old }
    requires fours { length fours.now ≡ length counts.old }
    requires few { (i : ℕ) → i < length counts.old → slice_index counts.old i ≤ 255 }
    ensures is { (i : ℕ) → i < length counts.old →
        slice_index counts.new i ≡ slice_index counts.old i + count_ones
        (bit_or (bit_xor (slice_index head.now 2) (slice_index fours.now i))
        (bit_or (bit_xor (slice_index head.now 1) (slice_index twos.now i))
        (bit_xor (slice_index head.now 0) (slice_index ones.now i)))) }
{
    let [p, r, s, _] = *head;
    for i in 0..counts.len() {
        let apart = (s ^ fours[i]) | ((r ^ twos[i]) | (p ^ ones[i]));
        let many = apart.count_ones();
        counts[i] += many;
    }
}

// The same by four planes.
#[inline]
fn add_four(
    ones: &[u64],
    twos: &[u64],
    fours: &[u64],
    eights: &[u64],
    head: &[u64; 4],
    counts: &mut [u32],
)
    requires ones { length ones.now ≡ length counts.old }
    requires twos { length twos.now ≡ length counts.old }
    requires fours { length fours.now ≡ length counts.old }
    requires eights { length eights.now ≡ length counts.old }
    requires few { (i : ℕ) → i < length counts.old → slice_index counts.old i ≤ 255 }
    ensures is { (i : ℕ) → i < length counts.old →
        slice_index counts.new i ≡ slice_index counts.old i + count_ones
        (bit_or (bit_xor (slice_index head.now 3) (slice_index eights.now i))
        (bit_or (bit_xor (slice_index head.now 2) (slice_index fours.now i))
        (bit_or (bit_xor (slice_index head.now 1) (slice_index twos.now i))
        (bit_xor (slice_index head.now 0) (slice_index ones.now i))))) }
{
    let [p, r, s, t] = *head;
    for i in 0..counts.len() {
        let low = (r ^ twos[i]) | (p ^ ones[i]);
        let apart = (t ^ eights[i]) | ((s ^ fours[i]) | low);
        let many = apart.count_ones();
        counts[i] += many;
    }
}

/// Adds to each count, at most 255, the number of symbols at which a word, given by its 2 to 4 planes, differs from one of
/// some words, at most 2^18. The bits are the planes of these words, plane by plane, a number for each word, and count i is for
/// word `start` + i.
#[inline]
pub fn add_apart(
    planes: usize,
    bits: &[u64],
    words: usize,
    start: usize,
    head: &[u64; 4],
    counts: &mut [u32],
)
    requires least { 2 ≤ planes }
    requires most { planes ≤ 4 }
    requires long { length bits.now ≡ planes * words }
    requires room { start + length counts.old ≤ words }
    requires small { words ≤ 2 ^ 18 }
    requires few { (i : ℕ) → i < length counts.old → slice_index counts.old i ≤ 255 }
    ensures is { (i : ℕ) → i < length counts.old →
        slice_index counts.new i ≡ slice_index counts.old i + count_ones
        (bits_apart planes head.now bits.now words (start + i)) }
{
    let many = counts.len();
    let second = words + start;
    let ones = &bits[start..start + many];
    let twos = &bits[second..second + many];
    if planes == 2 {
        add_two(ones, twos, head, counts);
        return;
    }
    let third = words + second;
    let fours = &bits[third..third + many];
    if planes == 3 {
        add_three(ones, twos, fours, head, counts);
        return;
    }
    let fourth = words + third;
    let eights = &bits[fourth..fourth + many];
    add_four(ones, twos, fours, eights, head, counts);
}
