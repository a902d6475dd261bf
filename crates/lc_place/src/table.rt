//! The size of a plan and its tables, in which counts saturate at `MOST`.

ghost use Rattle.std.specs.Prelude.{◌≡◌, ◌+◌, ◌-◌, ◌*◌, ◌^◌, ◌<◌, ◌≤◌, IfOk, length};
ghost use Rattle.lc_place.specs.Tables.{IsTable, choose_entry, power_entry, count_entry, start_entry};

use crate::NoMemory;
use lc_enumeration::{BLOCK, CUT};
use std::alloc::Global;

/// The bound to which numbers are counted: 2^53. A block's number is below 2^40 and a block has 4,096
/// messages, so a message's number in its level is below 2^52.
pub(crate) const MOST: u64 = 9_007_199_254_740_992;

/// The dimension, the size of the field and the number of information sets.
#[derive(Clone, Copy)]
pub(crate) struct Size {
    pub(crate) k: usize,
    pub(crate) q: u64,
    pub(crate) m: usize,
    ghost dimension: { (1 ≤ k) × (k ≤ 255) },
    ghost field: { (2 ≤ q) × (q ≤ 16) },
    ghost sets: { (1 ≤ m) × (m ≤ 255) },
}

/// The entry at `index`, from those before it.
#[tactic(auto, using(crate::proofs::Counting::next_choose_laws))]
fn next_choose(table: &[u64], index: usize) -> u64
    requires small { index < 2 ^ 16 }
    requires before { IsTable choose_entry index table.now }
    ensures { result ≡ choose_entry index }
{
    if index % 256 == 0 {
        return 1;
    }
    if index < 256 {
        return 0;
    }
    (table[index - 257] + table[index - 256]).min(MOST)
}

impl Size {
    /// How many sets of j there are among n, for n up to k, at index 256 n + j.
    #[tactic(auto, using(crate::proofs::Counting::table_more))]
    pub(crate) fn chooses(&self, alloc: Global) -> Result<Vec<u64>, NoMemory>
        ensures { IfOk result (λ t. IsTable choose_entry ((self.now.k + 1) * 256) t.items) }
    {
        let many = (self.k + 1) * 256;
        let mut table: Vec<u64> = Vec::new(alloc);
        for index in 0..many {
            let entry = next_choose(table.as_slice(), index);
            table.push(entry)?;
        }
        Ok(table)
    }

    /// The powers of q - 1 with exponents below k.
    #[tactic(auto, using(crate::proofs::Counting::table_more, crate::proofs::Counting::power_next))]
    pub(crate) fn powers(&self, alloc: Global) -> Result<Vec<u64>, NoMemory>
        ensures { IfOk result (λ t. IsTable (power_entry self.now.q) self.now.k t.items) }
    {
        let base = self.q - 1;
        let mut table = Vec::new(alloc);
        let mut power: u64 = 1;
        for _exponent in 0..self.k {
            table.push(power)?;
            power = power.saturating_mul(base).min(MOST);
        }
        Ok(table)
    }

    /// How many messages each level has, from level 1 on.
    #[tactic(auto, using(crate::proofs::Counting::table_more, crate::proofs::Counting::count_is))]
    pub(crate) fn counts(
        &self,
        alloc: Global,
        chooses: &[u64],
        powers: &[u64],
    ) -> Result<Vec<u64>, NoMemory>
        requires chooses { IsTable choose_entry ((self.now.k + 1) * 256) chooses.now }
        requires powers { IsTable (power_entry self.now.q) self.now.k powers.now }
        ensures { IfOk result (λ t. IsTable (count_entry self.now.k self.now.q) self.now.k t.items) }
    {
        let row = self.k * 256;
        let mut table = Vec::new(alloc);
        for level in 0..self.k {
            let count = chooses[row + (level + 1)]
                .saturating_mul(powers[level])
                .min(MOST);
            table.push(count)?;
        }
        Ok(table)
    }

    /// The first block of each level, from level 1 on, and the block after the last one.
    #[tactic(auto, using(crate::proofs::Counting::table_more, crate::proofs::Counting::start_next))]
    pub(crate) fn starts(&self, alloc: Global, counts: &[u64]) -> Result<Vec<u64>, NoMemory>
        requires { IsTable (count_entry self.now.k self.now.q) self.now.k counts.now }
        ensures { IfOk result (λ t. IsTable (start_entry self.now.k self.now.q self.now.m) (self.now.k + 1) t.items) }
    {
        let mut table = Vec::new(alloc);
        let mut start: u64 = 0;
        for level in 0..self.k {
            table.push(start)?;
            let blocks = (counts[level] + (BLOCK - 1)) / BLOCK;
            start = blocks
                .saturating_mul(self.m as u64)
                .saturating_add(start)
                .min(CUT);
        }
        table.push(start)?;
        Ok(table)
    }
}
