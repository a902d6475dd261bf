//! The weight distribution of a code, by counting its words.
ghost use Rattle.std.specs.Prelude.{◌≡◌, ◌+◌, ◌*◌, ◌^◌, ◌<◌, ◌≤◌, length, All, IfOk};
ghost use Rattle.lc_algebra.specs.Field.{size};
ghost use Rattle.lc_enumeration.specs.Distribution.{count_of_weight, distribution_of};
ghost use Rattle.lc_weights.specs.Counts.{words_counted, AreCounts};

use crate::blocks::CountRoom;
use crate::rooms::{Counted, count_rooms};
use lc_code::Code;
use lc_field::NoMemory;
use std::alloc::Global;
use std::thread::Threads;

/// The weight distribution of a code: how many of its words have weight 0, 1, and so on up to the length. The words are
/// counted by so many workers beside each other; one worker starts no thread (MacWilliams and Sloane, chapter 5).
///
/// The code has at most 2^24 words. There are 1 to 256 workers. Refused only if no memory is left.
#[tactic(auto, using(lc_code::proofs::CoordinateSteps::small_size))]
pub fn count_words<R: Threads + Sync>(
    rt: &R,
    alloc: Global,
    code: &Code,
    workers: u32,
) -> Result<Vec<u64>, NoMemory>
    requires small { size code.now.field ^ length code.now.rows ≤ 2 ^ 24 }
    requires workers { (1 ≤ workers) × (workers ≤ 256) }
    ensures is { IfOk result (λ a. a.items ≡ distribution_of code.now) }
{
    let q = code.field().size();
    if q == 2 {
        return count_by_length::<R, 1>(rt, alloc, code, workers);
    }
    if q <= 4 {
        return count_by_length::<R, 2>(rt, alloc, code, workers);
    }
    count_by_length::<R, 4>(rt, alloc, code, workers)
}

// The weight distribution of a code, whose words are given as bits of so many parts as its length needs.
fn count_by_length<R: Threads + Sync, const P: usize>(
    rt: &R,
    alloc: Global,
    code: &Code,
    workers: u32,
) -> Result<Vec<u64>, NoMemory>
    requires planes { (size code.now.field ≤ 2 ^ P) × (P ≤ 4) }
    requires small { size code.now.field ^ length code.now.rows ≤ 2 ^ 24 }
    requires workers { (1 ≤ workers) × (workers ≤ 256) }
    ensures is { IfOk result (λ a. a.items ≡ distribution_of code.now) }
{
    let n = code.length();
    if n <= 64 {
        return count_in_parts::<R, P, 1>(rt, alloc, code, workers);
    }
    if n <= 128 {
        return count_in_parts::<R, P, 2>(rt, alloc, code, workers);
    }
    count_in_parts::<R, P, 4>(rt, alloc, code, workers)
}

// The weight distribution of a code, whose words are given as P planes of N parts.
fn count_in_parts<R: Threads + Sync, const P: usize, const N: usize>(
    rt: &R,
    alloc: Global,
    code: &Code,
    workers: u32,
) -> Result<Vec<u64>, NoMemory>
    requires planes { (size code.now.field ≤ 2 ^ P) × (P ≤ 4) }
    requires parts { (code.now.columns ≤ 64 * N) × (N ≤ 4) }
    requires small { size code.now.field ^ length code.now.rows ≤ 2 ^ 24 }
    requires workers { (1 ≤ workers) × (workers ≤ 256) }
    ensures is { IfOk result (λ a. a.items ≡ distribution_of code.now) }
{
    let counted = count_rooms::<R, P, N>(rt, alloc, code, workers)?;
    numbers(alloc, code, &counted)
}

// The weight distribution of a code whose words have been counted.
fn numbers(alloc: Global, code: &Code, counted: &Counted) -> Result<Vec<u64>, NoMemory>
    requires small { size code.now.field ^ length code.now.rows ≤ 2 ^ 24 }
    requires counted { AreCounts code.now counted.now.first.items counted.now.rooms.items }
    ensures is { IfOk result (λ a. a.items ≡ distribution_of code.now) }
{
    let n = code.length();
    let mut found: Vec<u64> = Vec::with_capacity(alloc, n + 1)?;
    for j in 0..n + 1 {
        let number = number_of(code, counted.first.as_slice(), counted.rooms.as_slice(), j);
        found.push(number)?;
    }
    Ok(found)
}

// How many words of weight j a code has whose words have been counted: those of the zero head once, and those of each other
// head for all its nonzero multiples.
#[tactic(auto, using(crate::proofs::RoomLaws::number_laws))]
fn number_of(code: &Code, first: &[u64], rooms: &[CountRoom], j: usize) -> u64
    requires small { size code.now.field ^ length code.now.rows ≤ 2 ^ 24 }
    requires counted { AreCounts code.now first.now rooms.now }
    requires weight { j ≤ code.now.columns }
    ensures is { result ≡ count_of_weight code.now.field code.now.columns code.now.rows j }
{
    let q = u64::from(code.field().size());
    first[j] + (q - 1) * sum_of(rooms, j)
}

// How many words of weight j have been counted in these rooms.
fn sum_of(rooms: &[CountRoom], j: usize) -> u64
    requires weight { All (λ room. j < length room.counts.items) rooms.now }
    requires small { words_counted j rooms.now ≤ 2 ^ 24 }
    ensures is { result ≡ words_counted j rooms.now }
{
    let mut sum: u64 = 0;
    for i in 0..rooms.len() {
        sum += rooms[i].counts[j];
    }
    sum
}
