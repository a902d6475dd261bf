//! Nearest words by error patterns, with one worker and with four, as tools/near_numbers.py prints them.
ghost use Rattle.std.specs.Prelude.{◌<◌, ◌≤◌};

use crate::tasks::sets_of;
use lc_code::Code;
use lc_coset::{Near, nearest};
use lc_field::NoMemory;
use lc_infoset::Sets;
use lc_vec::Word;
use std::alloc::Global;
use std::thread::Threads;
use test_rows::{code_of, is_word};

// What is asked: the size of the field, the length, the dimension, the first state of the generator that gives the rows of the code
// and then the word, and the budget in blocks. What is found: 1 if the answer is exact, else 0; the lower end, the distance, the
// blocks, and the mark of the word. Searches that end inside a phase or after one, with and without a larger code.
static CASES: [([u64; 5], [u64; 5]); 20] = [
    (
        [2, 63, 40, 1, 60],
        [0, 5, 6, 60, 16_925_575_001_543_247_707],
    ),
    (
        [2, 64, 40, 2, 60],
        [0, 5, 6, 60, 11_224_189_911_731_682_817],
    ),
    (
        [2, 65, 40, 3, 60],
        [0, 5, 7, 60, 11_290_438_510_438_200_382],
    ),
    (
        [2, 127, 36, 4, 90],
        [0, 15, 29, 90, 13_851_738_509_918_140_635],
    ),
    (
        [2, 200, 40, 5, 70],
        [0, 20, 55, 70, 4_497_794_262_849_740_673],
    ),
    (
        [2, 250, 50, 6, 60],
        [0, 20, 74, 60, 16_040_352_070_777_752_748],
    ),
    (
        [2, 254, 50, 7, 60],
        [0, 20, 76, 60, 2_275_838_450_725_035_572],
    ),
    (
        [2, 255, 60, 8, 40],
        [0, 15, 71, 40, 11_025_919_314_510_724_504],
    ),
    (
        [2, 255, 17, 9, 40],
        [0, 39, 89, 40, 13_666_624_085_120_870_477],
    ),
    (
        [2, 31, 16, 10, 1000],
        [1, 3, 3, 4, 11_927_430_795_535_174_884],
    ),
    (
        [3, 63, 15, 11, 90],
        [1, 22, 22, 88, 6_386_348_409_312_241_628],
    ),
    (
        [3, 40, 20, 12, 70],
        [1, 7, 7, 9, 11_004_778_687_208_621_792],
    ),
    (
        [4, 65, 12, 13, 120],
        [0, 25, 29, 120, 9_900_929_759_252_549_381],
    ),
    (
        [4, 127, 14, 14, 100],
        [0, 38, 65, 100, 16_356_712_165_106_436_955],
    ),
    (
        [9, 64, 8, 15, 60],
        [0, 29, 41, 60, 5_181_387_333_842_254_163],
    ),
    (
        [9, 127, 7, 16, 90],
        [0, 61, 92, 90, 16_127_462_497_000_913_481],
    ),
    (
        [16, 64, 6, 17, 100],
        [0, 34, 46, 100, 15_143_312_797_129_737_254],
    ),
    (
        [16, 30, 8, 18, 60],
        [0, 10, 16, 60, 1_859_740_471_000_531_453],
    ),
    (
        [16, 254, 5, 19, 70],
        [0, 69, 222, 70, 7_727_718_494_185_196_301],
    ),
    (
        [5, 64, 9, 20, 60],
        [0, 31, 35, 60, 15_860_153_560_695_605_434],
    ),
];

// Steps a generator of pseudo-random numbers, and answers a symbol.
fn symbol(q: u64, state: &mut u64) -> u8
    requires field { 0 < q }
    requires small { q ≤ 256 }
{
    *state = state
        .wrapping_mul(6_364_136_223_846_793_005)
        .wrapping_add(1_442_695_040_888_963_407);
    ((*state >> 33) % q) as u8
}

// A word of n such symbols.
fn word(alloc: Global, q: u64, n: u64, state: &mut u64) -> Result<Word, NoMemory>
    requires field { 0 < q }
    requires small { q ≤ 256 }
{
    let mut symbols = Vec::new(alloc);
    for _ in 0..n {
        symbols.push(symbol(q, state))?;
    }
    Ok(Word::from_vec(symbols))
}

// k such words.
fn words(alloc: Global, q: u64, n: u64, k: u64, state: &mut u64) -> Result<Vec<Word>, NoMemory>
    requires field { 0 < q }
    requires small { q ≤ 256 }
{
    let mut words = Vec::new(alloc);
    for _ in 0..k {
        words.push(word(alloc, q, n, state)?)?;
    }
    Ok(words)
}

// The word as a number, in which a changed symbol shows.
fn mark(word: &[u8]) -> u64 {
    let mut number: u64 = 0;
    for symbol in word {
        number = number.wrapping_mul(31).wrapping_add(u64::from(*symbol));
    }
    number
}

// Whether this is the answer.
fn is_found(near: &Near, found: &[u64; 5]) -> bool {
    u64::from(near.exact) == found[0]
        && near.low == found[1]
        && near.weight == found[2]
        && near.blocks == found[3]
        && mark(near.word.symbols()) == found[4]
}

// Whether a search for a word of the code nearest to `x`, with so many workers, gives this answer.
fn finds<R: Threads + Sync>(
    rt: &R,
    alloc: Global,
    code: &Code,
    x: &Word,
    budget: u64,
    workers: u32,
    found: &[u64; 5],
) -> bool {
    if code.dimension() == 0 || workers == 0 || workers > 256 || budget > 1 << 40 {
        return false;
    }
    if !is_word(code.field(), code.length(), x.symbols()) {
        return false;
    }
    match nearest(rt, alloc, code, x.symbols(), budget, workers) {
        Ok(near) => is_found(&near, found),
        Err(_) => false,
    }
}

// The same for the code of these words, with one worker and with four.
fn finds_in<R: Threads + Sync>(
    rt: &R,
    alloc: Global,
    rows: &[Word],
    x: &Word,
    asked: &[u64; 5],
    found: &[u64; 5],
) -> bool {
    match code_of(alloc, asked[0], asked[1] as usize, rows) {
        Ok(code) => {
            finds(rt, alloc, &code, x, asked[4], 1, found)
                && finds(rt, alloc, &code, x, asked[4], 4, found)
        }
        Err(_refusal) => false,
    }
}

// The rows of a case, and after them its word.
fn rows_and_word(alloc: Global, asked: &[u64; 5]) -> Result<Vec<Word>, NoMemory> {
    let q = asked[0].clamp(1, 256);
    let mut state = asked[3];
    words(alloc, q, asked[1], asked[2].saturating_add(1), &mut state)
}

// Whether a case is as the table has it.
fn agrees<R: Threads + Sync>(rt: &R, alloc: Global, asked: &[u64; 5], found: &[u64; 5]) -> bool {
    let Ok(all) = rows_and_word(alloc, asked) else {
        return false;
    };
    match all.split_last() {
        Some((x, rows)) => finds_in(rt, alloc, rows, x, asked, found),
        None => false,
    }
}

#[test]
fn nearest_words_by_error_patterns(rt: HostRuntime) {
    for case in &CASES {
        assert!(rt; agrees(&rt, rt.alloc(), &case.0, &case.1));
    }
}

// A word with `count` symbols `c` before it.
fn fronted(alloc: Global, count: usize, c: u8, word: &[u8]) -> Result<Word, NoMemory> {
    let mut symbols = vec![in alloc; c; count]?;
    symbols.extend_from_slice(word)?;
    Ok(Word::from_vec(symbols))
}

// The rows of a case, with `count` zeros before each, and its word with as many ones before it.
fn larger_rows(alloc: Global, count: usize, all: &[Word]) -> Result<Vec<Word>, NoMemory> {
    let mut larger = Vec::new(alloc);
    for i in 0..all.len() {
        let c = u8::from(i + 1 == all.len());
        larger.push(fronted(alloc, count, c, all[i].symbols())?)?;
    }
    Ok(larger)
}

// Whether the first sets of the larger code are those of the code, each with one of the ones.
fn is_larger(larger: &Sets, sets: &Sets) -> bool {
    let count = sets.count();
    if larger.count() < count {
        return false;
    }
    for j in 0..count {
        let (wide, basis) = (larger.basis(j), sets.basis(j));
        if wide.len() != basis.len() + 1 || wide[0] != j {
            return false;
        }
        for i in 0..basis.len() {
            if wide[i + 1] < count || wide[i + 1] - count != basis[i] {
                return false;
            }
        }
    }
    true
}

// Whether the code is such a larger code of the code with these sets.
fn is_larger_code(alloc: Global, code: &Code, sets: &Sets) -> bool {
    match sets_of(alloc, code) {
        Some(larger) => is_larger(&larger, sets),
        None => false,
    }
}

// The same of the code of these rows.
fn has_larger(alloc: Global, q: u64, columns: usize, rows: &[Word], sets: &Sets) -> bool {
    match code_of(alloc, q, columns, rows) {
        Ok(code) => is_larger_code(alloc, &code, sets),
        Err(_refusal) => false,
    }
}

// Whether the word of a case makes such a larger code of the code with these sets. True if that would have more than 255 columns.
fn sets_grow(alloc: Global, q: u64, sets: &Sets, all: &[Word]) -> bool {
    let columns = sets.count().saturating_add(sets.length());
    if columns > 255 {
        return true;
    }
    match larger_rows(alloc, sets.count(), all) {
        Ok(wide) => has_larger(alloc, q, columns, &wide, sets),
        Err(NoMemory) => false,
    }
}

// The same of a code.
fn code_grows(alloc: Global, q: u64, code: &Code, all: &[Word]) -> bool {
    match sets_of(alloc, code) {
        Some(sets) => sets_grow(alloc, q, &sets, all),
        None => false,
    }
}

// The same of the code of the rows, all words but the last.
fn grows(alloc: Global, q: u64, n: usize, all: &[Word]) -> bool {
    let Some((_x, rows)) = all.split_last() else {
        return false;
    };
    match code_of(alloc, q, n, rows) {
        Ok(code) => code_grows(alloc, q, &code, all),
        Err(_refusal) => false,
    }
}

// Whether the word of a case makes such a larger code of the code.
fn grows_in(alloc: Global, asked: &[u64; 5]) -> bool {
    match rows_and_word(alloc, asked) {
        Ok(all) => grows(alloc, asked[0], asked[1] as usize, &all),
        Err(NoMemory) => false,
    }
}

// `nearest` compares the same sets, and is quick only if they are so.
#[test]
fn larger_codes_have_the_sets_of_the_code(rt: HostRuntime) {
    for case in &CASES {
        assert!(rt; grows_in(rt.alloc(), &case.0));
    }
}
