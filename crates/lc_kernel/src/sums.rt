//! The sums that a stack keeps: as planes of bits over 2, 4, 8 and 16 elements, else as symbols.

ghost use Rattle.std.specs.Prelude.{◌≡◌, ℕ, ◌+◌, ◌<◌, ◌≤◌, IsTrue, [], length, set, slice_index, slice_index_or, IfOk};
ghost use Rattle.std.specs.Arc.{arc_value};
ghost use Rattle.std.specs.List.{Contains};
ghost use Rattle.lc_algebra.specs.Field.{size, shape_of, is_symbol};
ghost use Rattle.lc_algebra.specs.Word.{IsWord, word_sum, zero_word, scale, weight as weight_of};
ghost use Rattle.lc_enumeration.specs.Message.{messages};
ghost use Rattle.lc_enumeration.specs.Search.{set_count, generator_at};
ghost use Rattle.lc_place.specs.Place.{spot_message};
ghost use Rattle.lc_kernel.specs.Sums.{AreFronts, AreMultiples, IsRoom};
ghost use Rattle.lc_kernel.specs.PlaneSums.{symbols_in, words_of, AreOver, ArePlaneMultiples, AreEven, AreKept, AreZeros};

use crate::multiples::{multiple_of, place_in};
use lc_field::NoMemory;
use lc_infoset::Sets;
use lc_matrix::Matrix;
use lc_place::Spot;
use lc_planes::Planes;
use lc_vec::{Word, weight};
use std::alloc::Global;
use std::sync::Arc;

/// The zero word, and then the sums of the fronts of a message.
#[derive(Drop)]
pub(crate) enum Sums {
    /// over a field of odd characteristic
    Symbols(Vec<Word>),
    /// over 2, 4, 8 or 16 elements
    Planes(PlaneSums),
}

/// Such words as planes, and the multiples of the rows of all sets, which stacks share.
#[derive(Drop)]
pub(crate) struct PlaneSums {
    words: Vec<Planes>,
    multiples: Arc<Vec<Planes>>,
}

impl Sums {
    /// Zero words for messages of these sets, whose rows have these multiples.
    pub(crate) fn new(alloc: Global, sets: &Sets, multiples: &[Word]) -> Result<Sums, NoMemory>
        requires multiples { AreMultiples sets.now multiples.now }
        ensures kept { IfOk result (λ s. AreKept sets.now s) }
        ensures zero { IfOk result (λ s. AreZeros sets.now (words_of s)) }
    {
        let n = sets.length();
        let many = sets.dimension() + 1;
        if sets.field().characteristic() != 2 {
            return Ok(Sums::Symbols(zeros(alloc, many, n)?));
        }
        let Ok(multiples) = Arc::new(alloc, planes_of(alloc, sets, multiples)?) else {
            return Err(NoMemory);
        };
        Ok(Sums::Planes(plane_sums(alloc, sets.code(), many, multiples)?))
    }

    /// Zero words for messages of the same sets.
    pub(crate) fn another(&self, alloc: Global, code: &Matrix) -> Result<Sums, NoMemory>
        requires many { length (words_of self.now) ≡ length code.now.rows + 1 }
        requires kept { AreKept code.now self.now }
        ensures kept { IfOk result (λ s. AreKept code.now s) }
        ensures zero { IfOk result (λ s. AreZeros code.now (words_of s)) }
    {
        match self {
            Sums::Symbols(words) => Ok(Sums::Symbols(zeros(alloc, words.len(), code.cols())?)),
            Sums::Planes(sums) => {
                let Ok(multiples) = Arc::try_clone(&sums.multiples) else {
                    return Err(NoMemory);
                };
                let many = sums.words.len();
                Ok(Sums::Planes(plane_sums(alloc, code, many, multiples)?))
            }
        }
    }

    /// Makes the sums of the first `to` entries again, those of the first `from` being there.
    pub(crate) fn refresh(
        &mut self,
        sets: &Sets,
        multiples: &[Word],
        spot: &Spot,
        from: usize,
        to: usize,
    )
        requires kept { AreKept sets.now self.old }
        requires multiples { AreMultiples sets.now multiples.now }
        requires set { spot.now.set < set_count sets.now }
        requires message { Contains (messages (length sets.now.rows) (size sets.now.field) (length spot.now.support))
            (spot_message spot.now) }
        requires room { IsRoom sets.now spot.now (words_of self.old) }
        requires fronts { AreFronts sets.now spot.now from (words_of self.old) }
        requires order { from ≤ to }
        requires inside { to ≤ length spot.now.support }
        ensures kept { AreKept sets.now self.new }
        ensures room { IsRoom sets.now spot.now (words_of self.new) }
        ensures fronts { AreFronts sets.now spot.now to (words_of self.new) }
    {
        match self {
            Sums::Symbols(words) => refresh(sets, multiples, spot, words, from, to),
            Sums::Planes(sums) => {
                refresh_planes(sets, &sums.multiples, spot, &mut sums.words, from, to);
            }
        }
    }

    /// The weight of word `i`, from 0.
    pub(crate) fn weight(&self, i: usize) -> usize
        requires inside { i < length (words_of self.now) }
        ensures is { result ≡ weight_of (slice_index_or (words_of self.now) i []) }
    {
        match self {
            Sums::Symbols(words) => weight(words[i].symbols()),
            Sums::Planes(sums) => sums.words[i].weight(),
        }
    }

    /// Symbol `column` of word `i`, each from 0.
    pub(crate) fn symbol(&self, i: usize, column: usize) -> u8
        requires inside { i < length (words_of self.now) }
        requires column { column < length (slice_index_or (words_of self.now) i []) }
        ensures is { result ≡ slice_index (slice_index_or (words_of self.now) i []) column }
    {
        match self {
            Sums::Symbols(words) => words[i].symbols()[column],
            Sums::Planes(sums) => sums.words[i].symbol(column),
        }
    }
}

/// So many zero words of n symbols.
pub(crate) fn zeros(alloc: Global, many: usize, n: usize) -> Result<Vec<Word>, NoMemory>
    ensures many { IfOk result (λ ws. length ws.items ≡ many) }
    ensures zero { IfOk result (λ ws. (i : ℕ) → i < many → slice_index_or ws.items i [] ≡ zero_word n) }
{
    let mut words = Vec::with_capacity(alloc, many)?;
    for _i in 0..many {
        words.push(Word::zero(alloc, n)?)?;
    }
    Ok(words)
}

// So many zero words as planes, with the multiples of the rows.
fn plane_sums(
    alloc: Global,
    code: &Matrix,
    many: usize,
    multiples: Arc<Vec<Planes>>,
) -> Result<PlaneSums, NoMemory>
    requires symbol { IsTrue (is_symbol code.now.field) }
    requires even { (shape_of code.now.field).characteristic ≡ 2 }
    requires many { many ≡ length code.now.rows + 1 }
    requires multiples { ArePlaneMultiples code.now (arc_value multiples).items }
    ensures even { IfOk result (λ s. AreEven code.now s.words.items (arc_value s.multiples).items) }
    ensures zero { IfOk result (λ s. AreZeros code.now (symbols_in s.words.items)) }
{
    let zero = Word::zero(alloc, code.cols())?;
    let mut words = Vec::with_capacity(alloc, many)?;
    for _i in 0..many {
        words.push(Planes::from_symbols(alloc, code.field(), zero.symbols())?)?;
    }
    Ok(PlaneSums { words, multiples })
}

// The multiples of the rows as planes.
fn planes_of(alloc: Global, sets: &Sets, multiples: &[Word]) -> Result<Vec<Planes>, NoMemory>
    requires even { (shape_of sets.now.field).characteristic ≡ 2 }
    requires multiples { AreMultiples sets.now multiples.now }
    ensures are { IfOk result (λ ps. ArePlaneMultiples sets.now ps.items) }
{
    let mut planes = Vec::with_capacity(alloc, multiples.len())?;
    for i in 0..multiples.len() {
        planes.push(Planes::from_symbols(alloc, sets.field(), multiples[i].symbols())?)?;
    }
    Ok(planes)
}

/// Makes the sums of the first `to` entries again, those of the first `from` being there.
pub(crate) fn refresh(
    sets: &Sets,
    multiples: &[Word],
    spot: &Spot,
    words: &mut [Word],
    from: usize,
    to: usize,
)
    requires multiples { AreMultiples sets.now multiples.now }
    requires set { spot.now.set < set_count sets.now }
    requires message { Contains (messages (length sets.now.rows) (size sets.now.field) (length spot.now.support))
        (spot_message spot.now) }
    requires room { IsRoom sets.now spot.now words.old }
    requires fronts { AreFronts sets.now spot.now from words.old }
    requires order { from ≤ to }
    requires inside { to ≤ length spot.now.support }
    ensures room { IsRoom sets.now spot.now words.new }
    ensures fronts { AreFronts sets.now spot.now to words.new }
{
    let _k = sets.dimension();
    for i in from..to {
        extend(sets, multiples, spot, words, i);
    }
}

// Makes the sum of entry i from the one before it.
fn extend(sets: &Sets, multiples: &[Word], spot: &Spot, words: &mut [Word], i: usize)
    requires multiples { AreMultiples sets.now multiples.now }
    requires set { spot.now.set < set_count sets.now }
    requires entry { i < length spot.now.support }
    requires entries { length spot.now.coefficients ≡ length spot.now.support }
    requires row { slice_index spot.now.support i < length sets.now.rows }
    requires element { (1 ≤ slice_index spot.now.coefficients i)
        × (slice_index spot.now.coefficients i < size sets.now.field) }
    requires many { i + 1 < length words.old }
    requires words { (t : ℕ) → t < length words.old →
        IsWord sets.now.field sets.now.columns (slice_index_or words.old t []) }
    ensures is { words.new ≡ set words.old (i + 1)
        (word_sum sets.now.field (slice_index_or words.old i [])
        (scale sets.now.field (slice_index spot.now.coefficients i)
        (slice_index_or (generator_at sets.now spot.now.set) (slice_index spot.now.support i) []))) }
{
    let other = multiple_of(
        sets,
        multiples,
        spot.set(),
        spot.support()[i],
        spot.coefficients()[i],
    );
    let (before, rest) = words.split_at_mut(i + 1);
    rest[0].put_added(sets.field(), before[i].symbols(), other.symbols());
}

// The same as `refresh`, by planes.
fn refresh_planes(
    sets: &Sets,
    multiples: &[Planes],
    spot: &Spot,
    words: &mut [Planes],
    from: usize,
    to: usize,
)
    requires over { AreOver sets.now words.old }
    requires multiples { ArePlaneMultiples sets.now multiples.now }
    requires set { spot.now.set < set_count sets.now }
    requires message { Contains (messages (length sets.now.rows) (size sets.now.field) (length spot.now.support))
        (spot_message spot.now) }
    requires room { IsRoom sets.now spot.now (symbols_in words.old) }
    requires fronts { AreFronts sets.now spot.now from (symbols_in words.old) }
    requires order { from ≤ to }
    requires inside { to ≤ length spot.now.support }
    ensures over { AreOver sets.now words.new }
    ensures room { IsRoom sets.now spot.now (symbols_in words.new) }
    ensures fronts { AreFronts sets.now spot.now to (symbols_in words.new) }
{
    let _k = sets.dimension();
    for i in from..to {
        extend_planes(sets, multiples, spot, words, i);
    }
}

// The same as `extend`, by planes.
fn extend_planes(sets: &Sets, multiples: &[Planes], spot: &Spot, words: &mut [Planes], i: usize)
    requires over { AreOver sets.now words.old }
    requires multiples { ArePlaneMultiples sets.now multiples.now }
    requires set { spot.now.set < set_count sets.now }
    requires entry { i < length spot.now.support }
    requires entries { length spot.now.coefficients ≡ length spot.now.support }
    requires row { slice_index spot.now.support i < length sets.now.rows }
    requires element { (1 ≤ slice_index spot.now.coefficients i)
        × (slice_index spot.now.coefficients i < size sets.now.field) }
    requires many { i + 1 < length words.old }
    requires words { (t : ℕ) → t < length words.old →
        IsWord sets.now.field sets.now.columns (slice_index_or (symbols_in words.old) t []) }
    ensures is { symbols_in words.new ≡ set (symbols_in words.old) (i + 1)
        (word_sum sets.now.field (slice_index_or (symbols_in words.old) i [])
        (scale sets.now.field (slice_index spot.now.coefficients i)
        (slice_index_or (generator_at sets.now spot.now.set) (slice_index spot.now.support i) []))) }
    ensures over { AreOver sets.now words.new }
{
    let other = planes_at(
        sets,
        multiples,
        spot.set(),
        spot.support()[i],
        spot.coefficients()[i],
    );
    let (before, rest) = words.split_at_mut(i + 1);
    rest[0].put_added(&before[i], other);
}

// The multiple by the nonzero element `c` of row `i` of set `j`.
fn planes_at<'a>(sets: &Sets, multiples: &'a [Planes], j: usize, i: usize, c: u8) -> &'a Planes
    requires multiples { ArePlaneMultiples sets.now multiples.now }
    requires set { j < set_count sets.now }
    requires row { i < length sets.now.rows }
    requires element { (1 ≤ c) × (c < size sets.now.field) }
    ensures is { result.now.symbols ≡ scale sets.now.field c (slice_index_or (generator_at sets.now j) i []) }
    ensures field { result.now.field ≡ sets.now.field }
    ensures word { IsWord sets.now.field sets.now.columns result.now.symbols }
{
    &multiples[place_in(sets, j, i, c)]
}
