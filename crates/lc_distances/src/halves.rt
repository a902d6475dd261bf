//! Which of some words differs from another at the fewest symbols.

ghost use Rattle.std.specs.Prelude.{◌≡◌, ◌≢◌, ℕ, ◌+◌, ◌-◌, ◌*◌, ◌/◌, ◌%◌, ◌^◌, ◌<◌, ◌≤◌, min, max, [], true, length, slice_index, slice_index_or, bit_or, bit_xor, count_ones};
ghost use Rattle.lc_distances.specs.Halves.{AreHalves, group_heads, tail_apart, symbols_apart};
ghost use Rattle.lc_distances.specs.Least.{IsLeastOr, IsLeastPairOr, IsFirstBelow};

use crate::counts::least_count;
use crate::planes::add_apart;

/// Words as pairs of a head and a tail: word n has head n / `tails` and tail n % `tails`. The tails are some of the words that
/// the bits hold, as those of `add_apart`: the ones from word `start` on.
#[derive(Clone, Copy)]
pub struct Halves<'a> {
    /// How many planes the words have: 2 to 4.
    pub planes: usize,
    /// The planes of the words that the tails are among, plane by plane, a number for each word.
    pub bits: &'a [u64],
    /// How many words these are: at most 2^18.
    pub words: usize,
    /// The first of them that is a tail.
    pub start: usize,
    /// How many tails there are: at least one, and all of them among the words.
    pub tails: usize,
    /// The planes of each head: at most 1,024 heads.
    pub heads: &'a [[u64; 4]],
}

// The number of symbols at which a head differs from a tail, by two planes.
#[inline]
fn apart_two(head: &[u64; 4], one: u64, two: u64) -> u32
    ensures is { result ≡ count_ones
        (bit_or (bit_xor (slice_index head.now 1) two) (bit_xor (slice_index head.now 0) one)) }
{
    ((head[1] ^ two) | (head[0] ^ one)).count_ones()
}

// The least of a bound and of the numbers of symbols at which two heads differ from some tails, by two planes. (A tail is
// read once for both heads, and a loop has half as many jumps.)
#[inline]
fn pair_two(ones: &[u64], twos: &[u64], pair: &[[u64; 4]; 2], bound: u32) -> u32
    requires twos { length twos.now ≡ length ones.now }
    ensures is { IsLeastPairOr 2 (length ones.now)
        (λ h t. count_ones (bit_or (bit_xor (slice_index (slice_index_or pair.now h []) 1) (slice_index twos.now t))
        (bit_xor (slice_index (slice_index_or pair.now h []) 0) (slice_index ones.now t)))) bound result }
{
    let mut least = bound;
    for i in 0..ones.len() {
        let first = apart_two(&pair[0], ones[i], twos[i]);
        let second = apart_two(&pair[1], ones[i], twos[i]);
        least = least.min(first.min(second));
    }
    least
}

// The least of a bound and of the numbers of symbols at which a head differs from some tails, by three planes. (For x86-64-v2
// the planes of two heads, and of what is done with them, would be more than there are registers.)
#[inline]
fn row_three(ones: &[u64], twos: &[u64], fours: &[u64], head: &[u64; 4], bound: u32) -> u32
    requires twos { length twos.now ≡ length ones.now }
    requires fours { length fours.now ≡ length ones.now }
    ensures is { IsLeastOr (length ones.now) (λ i. count_ones
        (bit_or (bit_xor (slice_index head.now 2) (slice_index fours.now i))
        (bit_or (bit_xor (slice_index head.now 1) (slice_index twos.now i))
        (bit_xor (slice_index head.now 0) (slice_index ones.now i))))) bound result }
{
    let mut least = bound;
    for i in 0..ones.len() {
        let apart = (head[2] ^ fours[i]) | ((head[1] ^ twos[i]) | (head[0] ^ ones[i]));
        let many = apart.count_ones();
        if many < least {
            least = many;
        }
    }
    least
}

// The same by four planes.
#[inline]
fn row_four(
    ones: &[u64],
    twos: &[u64],
    fours: &[u64],
    eights: &[u64],
    head: &[u64; 4],
    bound: u32,
) -> u32
    requires twos { length twos.now ≡ length ones.now }
    requires fours { length fours.now ≡ length ones.now }
    requires eights { length eights.now ≡ length ones.now }
    ensures is { IsLeastOr (length ones.now) (λ i. count_ones
        (bit_or (bit_xor (slice_index head.now 3) (slice_index eights.now i))
        (bit_or (bit_xor (slice_index head.now 2) (slice_index fours.now i))
        (bit_or (bit_xor (slice_index head.now 1) (slice_index twos.now i))
        (bit_xor (slice_index head.now 0) (slice_index ones.now i)))))) bound result }
{
    let mut least = bound;
    for i in 0..ones.len() {
        let low = (head[1] ^ twos[i]) | (head[0] ^ ones[i]);
        let apart = (head[3] ^ eights[i]) | ((head[2] ^ fours[i]) | low);
        let many = apart.count_ones();
        if many < least {
            least = many;
        }
    }
    least
}

// The lesser of a number and of the number of symbols at which a head differs from a tail, by two planes.
#[inline]
fn nearer(head: &[u64; 4], one: u64, two: u64, least: u32) -> u32
    ensures is { result ≡ min least (count_ones
        (bit_or (bit_xor (slice_index head.now 1) two) (bit_xor (slice_index head.now 0) one))) }
{
    least.min(apart_two(head, one, two))
}

// The least of a bound and of the numbers of symbols at which some heads differ from four words, their tails, by two
// planes. (Each tail has a least of its own, so that no head waits for the one before it.)
fn rows_by_four(ones: &[u64], twos: &[u64], heads: &[[u64; 4]], bound: u32) -> u32
    requires ones { length ones.now ≡ 4 }
    requires twos { length twos.now ≡ 4 }
    ensures is { IsLeastPairOr (length heads.now) 4
        (λ h t. count_ones (bit_or (bit_xor (slice_index (slice_index_or heads.now h []) 1) (slice_index twos.now t))
        (bit_xor (slice_index (slice_index_or heads.now h []) 0) (slice_index ones.now t)))) bound result }
{
    let mut first = bound;
    let mut second = bound;
    let mut third = bound;
    let mut fourth = bound;
    for row in 0..heads.len() {
        let head = &heads[row];
        first = nearer(head, ones[0], twos[0], first);
        second = nearer(head, ones[1], twos[1], second);
        third = nearer(head, ones[2], twos[2], third);
        fourth = nearer(head, ones[3], twos[3], fourth);
    }
    first.min(second).min(third.min(fourth))
}

// The same for any number of tails, with two heads at a time. (If the number of heads is odd, the last one is looked at twice.)
fn rows_two(ones: &[u64], twos: &[u64], heads: &[[u64; 4]], bound: u32) -> u32
    requires twos { length twos.now ≡ length ones.now }
    ensures is { IsLeastPairOr (length heads.now) (length ones.now)
        (λ h t. count_ones (bit_or (bit_xor (slice_index (slice_index_or heads.now h []) 1) (slice_index twos.now t))
        (bit_xor (slice_index (slice_index_or heads.now h []) 0) (slice_index ones.now t)))) bound result }
{
    if ones.len() == 4 {
        return rows_by_four(ones, twos, heads, bound);
    }
    let mut least = bound;
    let mut row = 0;
    while row < heads.len() {
        let next = (row + 1).min(heads.len() - 1);
        least = pair_two(ones, twos, &[heads[row], heads[next]], least);
        row = next + 1;
    }
    least
}

// The same by three planes, head by head. (Not inlined, its loop has all registers for itself.)
#[inline(never)]
fn rows_three(ones: &[u64], twos: &[u64], fours: &[u64], heads: &[[u64; 4]], bound: u32) -> u32
    requires twos { length twos.now ≡ length ones.now }
    requires fours { length fours.now ≡ length ones.now }
    ensures is { IsLeastPairOr (length heads.now) (length ones.now)
        (λ h t. count_ones (bit_or (bit_xor (slice_index (slice_index_or heads.now h []) 2) (slice_index fours.now t))
        (bit_or (bit_xor (slice_index (slice_index_or heads.now h []) 1) (slice_index twos.now t))
        (bit_xor (slice_index (slice_index_or heads.now h []) 0) (slice_index ones.now t))))) bound result }
{
    let mut least = bound;
    for row in 0..heads.len() {
        least = row_three(ones, twos, fours, &heads[row], least);
    }
    least
}

// The same by four planes.
fn rows_four(
    ones: &[u64],
    twos: &[u64],
    fours: &[u64],
    eights: &[u64],
    heads: &[[u64; 4]],
    bound: u32,
) -> u32
    requires twos { length twos.now ≡ length ones.now }
    requires fours { length fours.now ≡ length ones.now }
    requires eights { length eights.now ≡ length ones.now }
    ensures is { IsLeastPairOr (length heads.now) (length ones.now)
        (λ h t. count_ones (bit_or (bit_xor (slice_index (slice_index_or heads.now h []) 3)
        (slice_index eights.now t)) (bit_or
        (bit_xor (slice_index (slice_index_or heads.now h []) 2) (slice_index fours.now t))
        (bit_or (bit_xor (slice_index (slice_index_or heads.now h []) 1) (slice_index twos.now t))
        (bit_xor (slice_index (slice_index_or heads.now h []) 0) (slice_index ones.now t)))))) bound result }
{
    let mut least = bound;
    for row in 0..heads.len() {
        least = row_four(ones, twos, fours, eights, &heads[row], least);
    }
    least
}

// The same for the tails of some words, by all planes.
fn rows_apart(halves: &Halves<'_>, heads: &[[u64; 4]], bound: u32) -> u32
    requires halves { AreHalves halves.now }
    ensures is { IsLeastPairOr (length heads.now) halves.now.tails
        (λ h t. tail_apart halves.now (slice_index_or heads.now h []) t) bound result }
{
    let Halves {
        planes,
        bits,
        words,
        start,
        tails,
        ..
    } = *halves;
    let second = words + start;
    let ones = &bits[start..start + tails];
    let twos = &bits[second..second + tails];
    if planes == 2 {
        return rows_two(ones, twos, heads, bound);
    }
    let third = words + second;
    let fours = &bits[third..third + tails];
    if planes == 3 {
        return rows_three(ones, twos, fours, heads, bound);
    }
    let fourth = words + third;
    let eights = &bits[fourth..fourth + tails];
    rows_four(ones, twos, fours, eights, heads, bound)
}

// Whether there are some heads, and none of them differs from its tails at fewer symbols than a bound.
fn are_beyond(halves: &Halves<'_>, head: usize, heads: usize, bound: u32) -> bool
    requires halves { AreHalves halves.now }
    requires inside { head + heads ≤ length halves.now.heads.now }
    ensures low { result ≡ true → (i : ℕ) → i < heads * halves.now.tails →
        bound ≤ symbols_apart halves.now (head * halves.now.tails + i) }
    ensures all { 0 < heads → ((i : ℕ) → i < heads * halves.now.tails →
        bound ≤ symbols_apart halves.now (head * halves.now.tails + i)) → result ≡ true }
    ensures some { result ≡ true → 0 < heads }
{
    if heads == 0 {
        return false;
    }
    let least = rows_apart(halves, &halves.heads[head..head + heads], bound);
    if least >= bound {
        return true;
    }
    false
}

// The first index of a count, or how many counts there are.
fn place_of(counts: &[u32], count: u32) -> usize
    ensures inside { result ≤ length counts.now }
    ensures is { result < length counts.now → slice_index counts.now result ≡ count }
    ensures before { (i : ℕ) → i < result → slice_index counts.now i ≢ count }
{
    match counts.iter().position(|other| *other == count) {
        Some(at) => at,
        None => counts.len(),
    }
}

// The least number of symbols at which a head differs from tails from one on, one for each count, and the first of
// them for which it is so: if it is below the bound.
fn first_below(
    halves: &Halves<'_>,
    tail: usize,
    head: &[u64; 4],
    bound: u32,
    counts: &mut [u32],
) -> (u32, usize)
    requires halves { AreHalves halves.now }
    requires room { tail + length counts.old ≤ halves.now.tails }
    ensures is { IsFirstBelow (length counts.old)
        (λ i. tail_apart halves.now head.now (tail + i)) bound result.0 result.1 }
{
    counts.fill(0);
    let start = halves.start + tail;
    add_apart(
        halves.planes,
        halves.bits,
        halves.words,
        start,
        head,
        counts,
    );
    let least = least_count(counts, bound);
    if least >= bound {
        return (bound, 0);
    }
    (least, place_of(counts, least))
}

/// Adds to each count, at most 255, the number of symbols at which the head of a word differs from its tail. There are at most
/// 4,096 counts, and count i is for word `first` + i.
pub fn add_halves(halves: &Halves<'_>, first: usize, counts: &mut [u32])
    requires halves { AreHalves halves.now }
    requires inside { first + length counts.old ≤ length halves.now.heads.now * halves.now.tails }
    requires counts { length counts.old ≤ 4096 }
    requires few { (i : ℕ) → i < length counts.old → slice_index counts.old i ≤ 255 }
    ensures is { (i : ℕ) → i < length counts.old →
        slice_index counts.new i ≡ slice_index counts.old i + symbols_apart halves.now (first + i) }
{
    let Halves {
        planes,
        bits,
        words,
        start,
        tails,
        heads,
    } = *halves;
    let mut head = first / tails;
    let mut tail = first % tails;
    let mut done = 0;
    while done < counts.len() {
        let end = (done + (tails - tail)).min(counts.len());
        let part = &mut counts[done..end];
        add_apart(planes, bits, words, start + tail, &heads[head], part);
        head += 1;
        tail = 0;
        done = end;
    }
}

/// The better of two: the least of the first `done` words with its index `at`, and the least of the words after them with its
/// index `place` among these. If they are equal, the first.
#[inline]
pub fn joined(least: u32, at: usize, other: u32, place: usize, done: usize) -> (u32, usize)
    requires room { done + place ≤ 2 ^ 20 }
    ensures taken { other < least → (result.0 ≡ other) × (result.1 ≡ done + place) }
    ensures kept { least ≤ other → (result.0 ≡ least) × (result.1 ≡ at) }
{
    if other < least {
        return (other, done + place);
    }
    (least, at)
}

// The same as `nearest`, head by head, from a tail of a head on.
fn nearest_by_heads(
    halves: &Halves<'_>,
    head: usize,
    tail: usize,
    bound: u32,
    counts: &mut [u32],
) -> (u32, usize)
    requires halves { AreHalves halves.now }
    requires tail { tail < halves.now.tails }
    requires inside { head * halves.now.tails + tail + length counts.old
        ≤ length halves.now.heads.now * halves.now.tails }
    requires counts { length counts.old ≤ 4096 }
    ensures is { IsFirstBelow (length counts.old)
        (λ i. symbols_apart halves.now (head * halves.now.tails + tail + i)) bound result.0 result.1 }
{
    let tails = halves.tails;
    let mut row = head;
    let mut from = tail;
    let mut least = bound;
    let mut at = 0;
    let mut done = 0;
    while done < counts.len() {
        let end = (done + (tails - from)).min(counts.len());
        let part = &mut counts[done..end];
        let (other, place) = first_below(halves, from, &halves.heads[row], least, part);
        let (best, index) = joined(least, at, other, place, done);
        least = best;
        at = index;
        row += 1;
        from = 0;
        done = end;
    }
    (least, at)
}

// The same, of a part of the words: if `heads` isn't 0, these are all words of so many heads.
fn nearest_in(
    halves: &Halves<'_>,
    head: usize,
    tail: usize,
    heads: usize,
    bound: u32,
    counts: &mut [u32],
) -> (u32, usize)
    requires halves { AreHalves halves.now }
    requires tail { tail < halves.now.tails }
    requires inside { head * halves.now.tails + tail + length counts.old
        ≤ length halves.now.heads.now * halves.now.tails }
    requires counts { length counts.old ≤ 4096 }
    requires whole { 0 < heads → (tail ≡ 0) × (length counts.old ≡ heads * halves.now.tails) }
    ensures is { IsFirstBelow (length counts.old)
        (λ i. symbols_apart halves.now (head * halves.now.tails + tail + i)) bound result.0 result.1 }
{
    if are_beyond(halves, head, heads, bound) {
        return (bound, 0);
    }
    nearest_by_heads(halves, head, tail, bound, counts)
}

// The head and the tail of a word; without a division for the first word.
#[inline]
fn head_and_tail(word: usize, tails: usize) -> (usize, usize)
    requires some { 0 < tails }
    ensures low { result.1 < tails }
    ensures is { result.0 * tails + result.1 ≡ word }
{
    if word == 0 {
        return (0, 0);
    }
    (word / tails, word % tails)
}

// How many heads are looked at together, of so many tails each: 8 or 2 with some 100 to 200 words, or one.
#[inline]
#[tactic(auto, using(crate::proofs::GroupLaws::group_laws))]
fn together(tails: usize) -> usize
    ensures is { result ≡ group_heads tails }
    ensures some { 0 < result }
    ensures few { result ≤ 8 }
{
    if tails <= 16 {
        return 8;
    }
    if tails < 100 {
        return 2;
    }
    1
}

// How many of the words that are left are looked at together, from a tail of a head on: the rest of the head, or some
// whole heads, or all words if these are less than a head's. Before it stands how many whole heads these are, 0 for a
// part of one head.
fn part_of(tail: usize, tails: usize, left: usize) -> (usize, usize)
    requires tail { tail < tails }
    requires few { tails ≤ 2 ^ 18 }
    requires some { 0 < left }
    ensures some { 0 < result.1 }
    ensures within { result.1 ≤ left }
    ensures whole { 0 < result.0 → (tail ≡ 0) × (result.1 ≡ result.0 * tails) }
    ensures part { result.0 ≡ 0 → result.1 ≡ min (tails - tail) left }
    ensures group { tail ≡ 0 → group_heads tails * tails ≤ left → result.0 ≡ group_heads tails }
    ensures rest { tail ≡ 0 → left < group_heads tails * tails → result.0 ≡ left / tails }
{
    if tail > 0 {
        return (0, (tails - tail).min(left));
    }
    if left < tails {
        return (0, left);
    }
    let group = together(tails);
    let many = group * tails;
    if many <= left {
        return (group, many);
    }
    let heads = left / tails;
    (heads, heads * tails)
}

/// The least number of symbols at which the head of a word differs from its tail, among some words, and the first index for
/// which it is so, if it is below the bound; else the bound. There is an index for each of the counts, at most 4,096, which
/// are only room to work in; index i is for word `first` + i.
pub fn nearest(halves: &Halves<'_>, first: usize, bound: u32, counts: &mut [u32]) -> (u32, usize)
    requires halves { AreHalves halves.now }
    requires inside { first + length counts.old ≤ length halves.now.heads.now * halves.now.tails }
    requires counts { length counts.old ≤ 4096 }
    ensures is { IsFirstBelow (length counts.old) (λ i. symbols_apart halves.now (first + i)) bound result.0 result.1 }
{
    let tails = halves.tails;
    let (mut head, mut tail) = head_and_tail(first, tails);
    let mut least = bound;
    let mut at = 0;
    let mut done = 0;
    while done < counts.len() {
        let (heads, many) = part_of(tail, tails, counts.len() - done);
        let end = done + many;
        let part = &mut counts[done..end];
        let (other, index) = nearest_in(halves, head, tail, heads, least, part);
        let (best, next) = joined(least, at, other, index, done);
        least = best;
        at = next;
        head += heads.max(1);
        tail = 0;
        done = end;
    }
    (least, at)
}
