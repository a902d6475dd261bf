//! Tests of words as planes of bits, beside the same words as symbols.
ghost use Rattle.std.specs.Prelude.{◌≡◌, IsTrue, length};
ghost use Rattle.lc_algebra.specs.Field.{shape_of, is_symbol};
ghost use Rattle.lc_algebra.specs.Word.{Fits};

use lc_field::{Field, NoMemory};
use lc_planes::{Planes, plane_of};
use lc_vec::{fits, put_added, weight};
use std::alloc::Global;

// Whether the word has these symbols, and their weight.
fn has_symbols(planes: &Planes, symbols: &[u8]) -> bool {
    if planes.len() != symbols.len() {
        return false;
    }
    for i in 0..symbols.len() {
        if planes.symbol(i) != symbols[i] {
            return false;
        }
    }
    planes.weight() == weight(symbols)
}

// Whether the word of some symbols has them, and the sum with itself has weight 0.
fn is_undone(alloc: Global, field: &Field, symbols: &[u8]) -> Result<bool, NoMemory>
    requires symbol { IsTrue (is_symbol field.now) }
    requires even { (shape_of field.now).characteristic ≡ 2 }
    requires fits { Fits field.now symbols.now }
{
    let mut planes = Planes::from_symbols(alloc, field, symbols)?;
    let same = Planes::from_symbols(alloc, field, symbols)?;
    let is_kept = has_symbols(&planes, symbols);
    planes.add(&same);
    Ok(is_kept && planes.weight() == 0)
}

// Whether the sum of two words as planes is that of their symbols, which is put into `sum`.
fn is_added(
    alloc: Global,
    field: &Field,
    first: &[u8],
    second: &[u8],
    sum: &mut [u8],
) -> Result<bool, NoMemory>
    requires symbol { IsTrue (is_symbol field.now) }
    requires even { (shape_of field.now).characteristic ≡ 2 }
    requires first { Fits field.now first.now }
    requires second { Fits field.now second.now }
    requires lengths { length first.now ≡ length second.now }
    requires sum { length sum.old ≡ length first.now }
{
    let mut planes = Planes::from_symbols(alloc, field, first)?;
    let other = Planes::from_symbols(alloc, field, second)?;
    planes.add(&other);
    put_added(field, sum, first, second);
    Ok(has_symbols(&planes, sum))
}

// The same, put over another word.
fn is_put(
    alloc: Global,
    field: &Field,
    first: &[u8],
    second: &[u8],
    sum: &[u8],
) -> Result<bool, NoMemory>
    requires symbol { IsTrue (is_symbol field.now) }
    requires even { (shape_of field.now).characteristic ≡ 2 }
    requires first { Fits field.now first.now }
    requires second { Fits field.now second.now }
    requires lengths { length first.now ≡ length second.now }
{
    let planes = Planes::from_symbols(alloc, field, first)?;
    let other = Planes::from_symbols(alloc, field, second)?;
    let mut to = Planes::from_symbols(alloc, field, second)?;
    to.put_added(&planes, &other);
    Ok(has_symbols(&to, sum))
}

// Makes the symbols pseudo-random elements of the field, from a generator that goes on from `state`.
fn fill(field: &Field, symbols: &mut [u8], state: &mut u64) {
    let size = field.size() as u64;
    for i in 0..symbols.len() {
        *state = state
            .wrapping_mul(6_364_136_223_846_793_005)
            .wrapping_add(1_442_695_040_888_963_407);
        symbols[i] = ((*state >> 33) % size) as u8;
    }
}

// Whether so it is of the first n symbols of two words.
fn are_added(alloc: Global, field: &Field, first: &[u8], second: &[u8], sum: &mut [u8]) -> bool {
    if !field.is_symbol() || field.characteristic() != 2 {
        return false;
    }
    if first.len() != second.len() || sum.len() != first.len() {
        return false;
    }
    if !fits(field, first) || !fits(field, second) {
        return false;
    }
    is_undone(alloc, field, first) == Ok(true)
        && is_added(alloc, field, first, second, sum) == Ok(true)
        && is_put(alloc, field, first, second, sum) == Ok(true)
}

// Whether so it is of some pseudo-random words of length n.
fn words_are_added(alloc: Global, field: &Field, n: usize) -> bool {
    let mut first = [0u8; 255];
    let mut second = [0u8; 255];
    let mut sum = [0u8; 255];
    if n > 255 {
        return false;
    }
    let mut state = n as u64;
    for _pair in 0..10 {
        fill(field, &mut first[..n], &mut state);
        fill(field, &mut second[..n], &mut state);
        if !are_added(alloc, field, &first[..n], &second[..n], &mut sum[..n]) {
            return false;
        }
    }
    true
}

static LENGTHS: [usize; 8] = [0, 1, 63, 64, 65, 128, 129, 255];

// Whether so it is of words of these lengths, over the field of q elements.
fn lengths_are_added(alloc: Global, q: u64) -> bool {
    let Ok(field) = Field::of(alloc, q) else {
        return false;
    };
    for n in &LENGTHS {
        if !words_are_added(alloc, &field, *n) {
            return false;
        }
    }
    true
}

#[test]
fn sums_of_planes_are_sums_of_words(rt: HostRuntime) {
    for q in [2, 4, 8, 16] {
        assert!(rt; lengths_are_added(rt.alloc(), q), "over {q}");
    }
}

// Whether the word 0, 1, 2, 3 over 4 elements has weight 3, and its sum with itself weight 0.
fn is_word_of_four(alloc: Global) -> bool {
    let Ok(field) = Field::of(alloc, 4) else {
        return false;
    };
    let word = [0, 1, 2, 3];
    let mut sum = [0; 4];
    weight(&word) == 3 && are_added(alloc, &field, &word, &word, &mut sum) && sum == [0, 0, 0, 0]
}

#[test]
fn the_planes_of_a_word_over_four_elements(rt: HostRuntime) {
    let mut symbols = [0; 64];
    symbols[1] = 1;
    symbols[2] = 2;
    symbols[3] = 3;
    // the planes are 0, 1, 0, 1 and 0, 0, 1, 1, the first symbol's bit being the lowest
    assert!(rt; plane_of(&symbols, 0) == 0b1010);
    assert!(rt; plane_of(&symbols, 1) == 0b1100);
    assert!(rt; plane_of(&symbols, 2) == 0);
    assert!(rt; is_word_of_four(rt.alloc()));
}
