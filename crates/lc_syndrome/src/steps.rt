//! The table of coset leaders.
ghost use Rattle.std.specs.Prelude.{◌≡◌, ◌≢◌, ℕ, ◌+◌, ◌<◌, List, [], length, replicate, slice_index, IfOk, IsTrue};
ghost use Rattle.lc_algebra.specs.Word.{IsWord, difference};
ghost use Rattle.lc_syndrome.specs.Syndrome.{syndrome_number, coset_count};
ghost use Rattle.lc_syndrome.specs.Leading.{Leads, HasLeaders};
ghost use Rattle.lc_syndrome.specs.Growth.{unknown, IsTable, IsSteps};

use crate::level::Level;
use crate::syndromes::Syndromes;
use lc_field::NoMemory;
use std::alloc::Global;

/// The symbol at a syndrome that no leader has yet.
pub(crate) const UNKNOWN: u8 = 255;

/// For each syndrome, the coordinate of the first nonzero symbol of its leader, and this symbol; for the zero word its length
/// and 0.
///
/// A leader without one of its symbols is the leader of another coset, so these first symbols determine the whole leader.
#[derive(Drop)]
pub(crate) struct Steps {
    pub(crate) coordinates: Vec<u8>,
    pub(crate) symbols: Vec<u8>,
}

impl Steps {
    /// The steps of all leaders, by rising weight and then lexicographically: the first word with a syndrome is its leader.
    pub(crate) fn build(alloc: Global, syndromes: &Syndromes) -> Result<Steps, NoMemory>
        requires leaders { HasLeaders syndromes.now }
        ensures steps { IfOk result (λ s. IsSteps syndromes.now s.coordinates.items s.symbols.items) }
    {
        let mut steps = Steps::first(alloc, syndromes)?;
        let mut level = Level::first(alloc, syndromes)?;
        for _weight in 0..syndromes.length() {
            if steps.is_whole() {
                return Ok(steps);
            }
            let next = level.next(alloc, syndromes, &mut steps)?;
            level = next;
        }
        Ok(steps)
    }

    /// True only if each syndrome has its leader.
    pub(crate) fn is_whole(&self) -> bool
        ensures whole { IsTrue result → (s : ℕ) → s < length self.now.symbols.items →
            slice_index self.now.symbols.items s ≢ unknown }
    {
        for symbol in self.symbols.iter() {
            if *symbol == UNKNOWN {
                return false;
            }
        }
        true
    }

    /// Takes from the word the leader whose syndrome has this number: from the first nonzero symbol on, what is left of the leader
    /// is the leader of another coset.
    #[tactic(auto, using(crate::proofs::DecodingLaws::correct_laws))]
    pub(crate) fn correct(&self, syndromes: &Syndromes, number: u32, word: &mut [u8])
        requires steps { IsSteps syndromes.now self.now.coordinates.items self.now.symbols.items }
        requires leader { (e : List ℕ) × Leads syndromes.now e × (syndrome_number syndromes.now e ≡ number) }
        requires word { IsWord syndromes.now.field syndromes.now.columns word.old }
        ensures is { (e : List ℕ) → Leads syndromes.now e → syndrome_number syndromes.now e ≡ number →
            word.new ≡ difference syndromes.now.field word.old e }
    {
        let field = syndromes.field();
        let mut rest = number;
        for _taken in 0..word.len() {
            let symbol = self.symbols[rest as usize];
            if symbol == 0 {
                return;
            }
            let coordinate = self.coordinates[rest as usize] as usize;
            let negative = field.neg(symbol);
            word[coordinate] = field.add(word[coordinate], negative);
            rest = syndromes.sum(rest, syndromes.of_symbol(coordinate, negative));
        }
    }

    // The zero word alone.
    #[tactic(auto, using(crate::proofs::LevelLaws::first_laws))]
    fn first(alloc: Global, syndromes: &Syndromes) -> Result<Steps, NoMemory>
        ensures table { IfOk result (λ s. IsTable syndromes.now 1 s.coordinates.items s.symbols.items []) }
    {
        let cosets = syndromes.cosets();
        let mut coordinates = filled(alloc, 0, cosets)?;
        let mut symbols = filled(alloc, UNKNOWN, cosets)?;
        coordinates[0] = syndromes.length() as u8;
        symbols[0] = 0;
        Ok(Steps {
            coordinates,
            symbols,
        })
    }
}

// The list of n times this number.
fn filled(alloc: Global, value: u8, n: usize) -> Result<Vec<u8>, NoMemory>
    ensures are { IfOk result (λ list. list.items ≡ replicate n value) }
{
    Ok(vec![in alloc; value; n]?)
}
