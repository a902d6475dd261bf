//! The rooms of the workers that count the words of a code.
ghost use Rattle.std.specs.Prelude.{◌≡◌, ℕ, suc, ◌+◌, ◌-◌, ◌*◌, ◌^◌, ◌<◌, ◌≤◌, length, take, drop, slice_index, All, sum_by, IfOk};
ghost use Rattle.lc_algebra.specs.Field.{size};
ghost use Rattle.lc_algebra.specs.Span.{words};
ghost use Rattle.lc_enumeration.specs.Message.{numbers_from};
ghost use Rattle.lc_weights.specs.Leads.{leads};
ghost use Rattle.lc_planes.specs.Packing.{ArePacked};
ghost use Rattle.lc_weights.specs.Counts.{apart_count, block_count, words_counted, IsRoomOf, AreCounts};

use crate::blocks::{CountBlocks, CountRoom};
use crate::walk::tally;
use crate::words::leads_of;
use lc_code::Code;
use lc_crew::{Crew, run_round};
use lc_field::NoMemory;
use lc_io::OpenGate;
use lc_planes::{pack, pack_words};
use lc_span::{tail_rows, words_of};
use lc_vec::Word;
use std::alloc::Global;
use std::thread::Threads;

/// How many words of each weight workers have counted: the tails alone, and in rooms the sums of each head and each tail.
#[derive(Drop)]
pub(crate) struct Counted {
    pub(crate) first: Vec<u64>,
    pub(crate) rooms: Vec<CountRoom>,
}

/// What so many workers count of the words of a code.
///
/// The words are given as P planes of N parts, which is enough for the field and the length. The code has at most 2^24
/// words. There are 1 to 256 workers.
pub(crate) fn count_rooms<R: Threads + Sync, const P: usize, const N: usize>(
    rt: &R,
    alloc: Global,
    code: &Code,
    workers: u32,
) -> Result<Counted, NoMemory>
    requires planes { (size code.now.field ≤ 2 ^ P) × (P ≤ 4) }
    requires parts { (code.now.columns ≤ 64 * N) × (N ≤ 4) }
    requires small { size code.now.field ^ length code.now.rows ≤ 2 ^ 24 }
    requires workers { (1 ≤ workers) × (workers ≤ 256) }
    ensures counted { IfOk result (λ c. AreCounts code.now c.first.items c.rooms.items) }
{
    let _matrix = code.matrix();
    let split = split_of(code);
    let heads = heads_of::<P, N>(alloc, code, split)?;
    let tails = tails_of::<P, N>(alloc, code, split)?;
    let word = Word::zero(alloc, code.length())?;
    let zero = pack::<P, N>(word.symbols());
    let first = first_counts(alloc, &zero, tails.as_slice())?;
    let rooms = run_rooms(rt, alloc, heads.as_slice(), tails.as_slice(), workers)?;
    Ok(Counted { first, rooms })
}

// How many of the first rows of a code make up heads: the others, which make up tails, have at most 4,096 words, and as many as may be.
#[tactic(auto, using(lc_code::proofs::CoordinateSteps::small_size))]
fn split_of(code: &Code) -> usize
    ensures most { result ≤ length code.now.rows }
    ensures few { size code.now.field ^ (length code.now.rows - result) ≤ 4096 }
    ensures greatest { 0 < result → 4096 < size code.now.field ^ suc (length code.now.rows - result) }
{
    let k = code.dimension();
    k - tail_rows(code.field().size() as u64, k)
}

// The heads as bits: the words of the first `split` rows whose first coefficient other than 0 is 1.
fn heads_of<const P: usize, const N: usize>(
    alloc: Global,
    code: &Code,
    split: usize,
) -> Result<Vec<[[u64; P]; N]>, NoMemory>
    requires planes { P ≤ 4 }
    requires parts { N ≤ 4 }
    requires split { split ≤ length code.now.rows }
    ensures are { IfOk result
        (λ hs. ArePacked P N (leads code.now.field code.now.columns (take split code.now.rows)) hs.items) }
{
    let list = leads_of(alloc, code, split)?;
    pack_words(alloc, list.as_slice())
}

// The tails as bits: the words of the rows from `split` on.
fn tails_of<const P: usize, const N: usize>(
    alloc: Global,
    code: &Code,
    split: usize,
) -> Result<Vec<[[u64; P]; N]>, NoMemory>
    requires planes { P ≤ 4 }
    requires parts { N ≤ 4 }
    requires split { split ≤ length code.now.rows }
    ensures are { IfOk result
        (λ ts. ArePacked P N (words code.now.field code.now.columns (drop split code.now.rows)) ts.items) }
{
    let list = words_of(alloc, code.matrix(), split, code.dimension())?;
    pack_words(alloc, list.as_slice())
}

// How many tails differ from the zero word at so many places as the count's index.
fn first_counts<const P: usize, const N: usize>(
    alloc: Global,
    zero: &[[u64; P]; N],
    tails: &[[[u64; P]; N]],
) -> Result<Vec<u64>, NoMemory>
    requires parts { N ≤ 4 }
    requires few { length tails.now ≤ 4096 }
    ensures long { IfOk result (λ a. length a.items ≡ 64 * N + 1) }
    ensures are { IfOk result (λ a. (j : ℕ) → slice_index a.items j ≡ apart_count P N zero.now tails.now j) }
{
    let mut counts = vec![in alloc; 0u64; 64 * N + 1]?;
    tally(zero, tails, &mut counts);
    Ok(counts)
}

// The rooms of so many workers, or of one for each head if these are fewer, who have done all blocks of some heads and tails.
fn run_rooms<R: Threads + Sync, const P: usize, const N: usize>(
    rt: &R,
    alloc: Global,
    heads: &[[[u64; P]; N]],
    tails: &[[[u64; P]; N]],
    workers: u32,
) -> Result<Vec<CountRoom>, NoMemory>
    requires workers { (1 ≤ workers) × (workers ≤ 256) }
    requires planes { P ≤ 4 }
    requires parts { N ≤ 4 }
    requires few { length tails.now ≤ 4096 }
    requires heads { length heads.now ≤ 2 ^ 40 }
    ensures rooms { IfOk result (λ rooms. All (IsRoomOf P N (length tails.now)) rooms.items) }
    ensures sums { IfOk result (λ rooms. (j : ℕ) → words_counted j rooms.items
        ≡ sum_by (λ b. block_count P N heads.now tails.now b j) (numbers_from 0 (length heads.now))) }
{
    let mut rooms = Vec::with_capacity(alloc, 1)?;
    let counts = vec![in alloc; 0u64; 64 * N + 1]?;
    rooms.push(CountRoom { counts })?;
    let blocks = CountBlocks { heads, tails };
    let total = heads.len() as u64;
    let crew = Crew {
        rt,
        alloc,
        workers,
        gate: &OpenGate,
    };
    let Ok(_closed) = run_round(&crew, &blocks, 0, total, 0, &mut rooms) else {
        return Err(NoMemory);
    };
    Ok(rooms)
}
