//! A plain scan of blocks: each word as the sum of its chosen rows, weighed. The other tests of the kernel compare with it.
ghost use Rattle.std.specs.Prelude.{◌≡◌, ◌<◌, ◌≤◌};
ghost use Rattle.lc_enumeration.specs.Plan.{total};

use lc_field::Field;
use lc_infoset::Sets;
use lc_place::{Plan, Spot};

// Of an element c and elements a and b the sum of a and c times b, at [c][16 a + b].
pub(crate) type Sums = [[u8; 256]; 16];

// The sums over a field of at most 16 elements.
pub(crate) fn sums_over(field: &Field) -> Sums {
    let size = field.size().min(16) as u8;
    let mut sums = [[0; 256]; 16];
    for c in 0..size {
        for a in 0..size {
            for b in 0..size {
                let place = a as usize * 16 + b as usize;
                sums[c as usize][place] = field.add(a, field.mul(c, b));
            }
        }
    }
    sums
}

// The negative of an element, by the sums: the first element with which its sum is 0.
pub(crate) fn negative(sums: &Sums, element: u8) -> u8 {
    for b in 0..16u8 {
        if sums[1][(element % 16) as usize * 16 + b as usize] == 0 {
            return b;
        }
    }
    0
}

// Adds a multiple of a row to a word, by the sums of its element.
pub(crate) fn add_row(sums: &[u8; 256], row: &[u8], word: &mut [u8]) {
    for column in 0..word.len().min(row.len()) {
        let place = (word[column] % 16) as usize * 16 + (row[column] % 16) as usize;
        word[column] = sums[place];
    }
}

// Makes a word that of the spot: the sum of its multiples of the rows of its set. False if there are no such rows.
pub(crate) fn put_word(sets: &Sets, sums: &Sums, spot: &Spot, word: &mut [u8]) -> bool {
    let support = spot.support();
    let coefficients = spot.coefficients();
    if sets.count() <= spot.set() {
        return false;
    }
    word.fill(0);
    for i in 0..support.len().min(coefficients.len()) {
        if sets.dimension() <= support[i] {
            return false;
        }
        let row = sets.row(spot.set(), support[i]);
        add_row(&sums[(coefficients[i] % 16) as usize], row, word);
    }
    true
}

// The number of nonzero symbols of a word.
pub(crate) fn weight_of(word: &[u8]) -> u64 {
    let mut weight: u64 = 0;
    for column in 0..word.len() {
        if word[column] != 0 {
            weight = weight.saturating_add(1);
        }
    }
    weight
}

// The least of weight times 2^52 plus place over the words of a block. None if they can't be made.
pub(crate) fn plain_least(
    sets: &Sets,
    sums: &Sums,
    plan: &Plan,
    block: u64,
    spot: &mut Spot,
    word: &mut [u8],
) -> Option<u64>
    requires block { block < total plan.now.k plan.now.q plan.now.m }
    requires room { plan.now.k ≤ spot.old.room }
    ensures room { spot.new.room ≡ spot.old.room }
{
    plan.start_of(block, spot);
    let mut place = block.saturating_mul(4096);
    let mut best = u64::MAX;
    for _offset in 0..plan.block_len(block) {
        if !put_word(sets, sums, spot, word) {
            return None;
        }
        let value = weight_of(word).saturating_mul(4_503_599_627_370_496);
        best = best.min(value.saturating_add(place));
        place = place.saturating_add(1);
        let _goes_on = plan.next(spot);
    }
    Some(best)
}
