//! How the table of coset leaders grows.
ghost use Rattle.std.specs.Prelude.{◌≡◌, ℕ, ◌+◌, ◌<◌, ◌≤◌, ◌^◌, List, [], length, IfOk};
ghost use Rattle.lc_algebra.specs.Field.{size};
ghost use Rattle.lc_syndrome.specs.Syndrome.{syndrome_number, unit};
ghost use Rattle.lc_syndrome.specs.Leading.{HasLeaders};
ghost use Rattle.lc_syndrome.specs.Growth.{IsLevel, IsTable, Grows};

use crate::steps::{Steps, UNKNOWN};
use crate::syndromes::Syndromes;
use lc_field::NoMemory;
use std::alloc::Global;

/// The syndromes of leaders of one weight, the leaders in lexicographic order, and with each the coordinate of the leader's first
/// nonzero symbol.
#[derive(Drop)]
pub(crate) struct Level {
    weight: usize,
    syndromes: Vec<u32>,
    firsts: Vec<u8>,
}

/// A symbol at a coordinate, with the number of the syndrome of the word that has it there and zeros elsewhere.
#[derive(Clone, Copy)]
struct Mark {
    coordinate: usize,
    symbol: u8,
    number: u32,
}

impl Level {
    /// The level of the zero word.
    #[tactic(auto, using(crate::proofs::LevelLaws::level_of_zero))]
    pub(crate) fn first(alloc: Global, syndromes: &Syndromes) -> Result<Level, NoMemory>
        ensures weight { IfOk result (λ l. l.weight ≡ 0) }
        ensures level { IfOk result (λ l. IsLevel syndromes.now 0 l.syndromes.items l.firsts.items) }
    {
        let mut zero = Level {
            weight: 0,
            syndromes: Vec::new(alloc),
            firsts: Vec::new(alloc),
        };
        zero.syndromes.push(0)?;
        zero.firsts.push(syndromes.length() as u8)?;
        Ok(zero)
    }

    /// The level of the next weight, whose leaders go into the table.
    pub(crate) fn next(
        &self,
        alloc: Global,
        syndromes: &Syndromes,
        steps: &mut Steps,
    ) -> Result<Level, NoMemory>
        requires leaders { HasLeaders syndromes.now }
        requires light { self.now.weight < 2 ^ 16 }
        requires level { IsLevel syndromes.now self.now.weight self.now.syndromes.items self.now.firsts.items }
        requires table { IsTable syndromes.now
            (self.now.weight + 1) steps.old.coordinates.items steps.old.symbols.items [] }
        ensures weight { IfOk result (λ l. l.weight ≡ self.now.weight + 1) }
        ensures level { IfOk result (λ l. IsLevel syndromes.now l.weight l.syndromes.items l.firsts.items) }
        ensures table { IfOk result
            (λ l. IsTable syndromes.now (l.weight + 1) steps.new.coordinates.items steps.new.symbols.items []) }
    {
        let n = syndromes.length();
        let mut next = Level {
            weight: self.weight + 1,
            syndromes: Vec::new(alloc),
            firsts: Vec::new(alloc),
        };
        for t in 0..n {
            self.offer_at(syndromes, n - 1 - t, steps, &mut next)?;
        }
        Ok(next)
    }

    // Offers each nonzero symbol at a coordinate, unless each syndrome has its leader.
    #[tactic(auto, unfolding(lc_algebra::specs::Field::is_symbol))]
    fn offer_at(
        &self,
        syndromes: &Syndromes,
        coordinate: usize,
        steps: &mut Steps,
        next: &mut Level,
    ) -> Result<(), NoMemory>
        requires leaders { HasLeaders syndromes.now }
        requires inside { coordinate < syndromes.now.columns }
        requires level { IsLevel syndromes.now self.now.weight self.now.syndromes.items self.now.firsts.items }
        requires state { Grows syndromes.now (coordinate + 1) (size syndromes.now.field) 0 self.now steps.old next.old }
        ensures weight { next.new.weight ≡ next.old.weight }
        ensures state { IfOk result
            (λ _. Grows syndromes.now coordinate (size syndromes.now.field) 0 self.now steps.new next.new) }
    {
        if steps.is_whole() {
            return Ok(());
        }
        let q = syndromes.field().size() as u8;
        for symbol in 1..q {
            let mark = Mark {
                coordinate,
                symbol,
                number: syndromes.of_symbol(coordinate, symbol),
            };
            self.offer_all(syndromes, mark, steps, next)?;
        }
        Ok(())
    }

    // Offers the words that have this symbol before a leader of this level.
    fn offer_all(
        &self,
        syndromes: &Syndromes,
        mark: Mark,
        steps: &mut Steps,
        next: &mut Level,
    ) -> Result<(), NoMemory>
        requires leaders { HasLeaders syndromes.now }
        requires inside { mark.coordinate < syndromes.now.columns }
        requires element { mark.symbol < size syndromes.now.field }
        requires small { mark.symbol < 16 }
        requires nonzero { 0 < mark.symbol }
        requires number { mark.number
            ≡ syndrome_number syndromes.now (unit syndromes.now.columns mark.coordinate mark.symbol) }
        requires level { IsLevel syndromes.now self.now.weight self.now.syndromes.items self.now.firsts.items }
        requires state { Grows syndromes.now mark.coordinate mark.symbol 0 self.now steps.old next.old }
        ensures weight { next.new.weight ≡ next.old.weight }
        ensures state { IfOk result
            (λ _. Grows syndromes.now mark.coordinate (mark.symbol + 1) 0 self.now steps.new next.new) }
    {
        for place in 0..self.syndromes.len() {
            self.offer(syndromes, mark, place, steps, next)?;
        }
        Ok(())
    }

    // Offers one of these words: it is a leader if no word before it has its syndrome.
    #[inline]
    fn offer(
        &self,
        syndromes: &Syndromes,
        mark: Mark,
        place: usize,
        steps: &mut Steps,
        next: &mut Level,
    ) -> Result<(), NoMemory>
        requires leaders { HasLeaders syndromes.now }
        requires inside { mark.coordinate < syndromes.now.columns }
        requires element { mark.symbol < size syndromes.now.field }
        requires small { mark.symbol < 16 }
        requires nonzero { 0 < mark.symbol }
        requires number { mark.number
            ≡ syndrome_number syndromes.now (unit syndromes.now.columns mark.coordinate mark.symbol) }
        requires level { IsLevel syndromes.now self.now.weight self.now.syndromes.items self.now.firsts.items }
        requires place { place < length self.now.syndromes.items }
        requires state { Grows syndromes.now mark.coordinate mark.symbol place self.now steps.old next.old }
        ensures weight { next.new.weight ≡ next.old.weight }
        ensures state { IfOk result
            (λ _. Grows syndromes.now mark.coordinate mark.symbol (place + 1) self.now steps.new next.new) }
    {
        if self.firsts[place] as usize <= mark.coordinate {
            return Ok(());
        }
        let s = syndromes.sum(self.syndromes[place], mark.number) as usize;
        if steps.symbols[s] != UNKNOWN {
            return Ok(());
        }
        next.syndromes.push(s as u32)?;
        next.firsts.push(mark.coordinate as u8)?;
        steps.coordinates[s] = mark.coordinate as u8;
        steps.symbols[s] = mark.symbol;
        Ok(())
    }
}
