//! Why there is no table of coset leaders.
ghost use Rattle.std.specs.Prelude.{◌≡◌, [], IfOk, IsOk};
ghost use Rattle.lc_syndrome.specs.Refusal.{refusal_number, refusal_values};
ghost use Rattle.lc_syndrome.specs.declared.refusal.SyndromeRefusal.TheVariants as refusal;

use lc_field::NoMemory as FieldMemory;
use std::alloc::Global;

/// Why a code has no table of coset leaders.
#[derive(Clone, Copy, Debug, PartialEq, Eq)]
pub enum SyndromeRefusal {
    /// The code has more than 2^20 cosets: with this number n - k, q^(n - k) of them.
    TooManyCosets(usize),
    /// No memory is left.
    NoMemory,
}

impl SyndromeRefusal {
    /// The number of the refusal, 15 for `TooManyCosets`; `NoMemory` has none, and gives 0.
    #[tactic(auto, unfolding(crate::specs::Refusal::refusal_number))]
    pub fn number(&self) -> u8
        ensures is { result ≡ refusal_number self.now }
    {
        match self {
            SyndromeRefusal::TooManyCosets(_) => 15,
            SyndromeRefusal::NoMemory => 0,
        }
    }

    /// The numbers that the refusal carries, in the order in which they are printed. If it carries none, no memory is taken.
    #[tactic(auto, unfolding(crate::specs::Refusal::refusal_values))]
    pub fn values(&self, alloc: Global) -> Result<Vec<u64>, FieldMemory>
        ensures are { IfOk result (λ values. values.items ≡ refusal_values self.now) }
        ensures none { refusal_values self.now ≡ [] → IsOk result }
    {
        match *self {
            SyndromeRefusal::TooManyCosets(checks) => Ok(vec![in alloc; checks as u64]?),
            SyndromeRefusal::NoMemory => Ok(Vec::new(alloc)),
        }
    }
}

impl From<FieldMemory> for SyndromeRefusal {
    ghost from_gives = { λ _ e. e ≡ refusal.NoMemory };

    fn from(_e: FieldMemory) -> SyndromeRefusal {
        SyndromeRefusal::NoMemory
    }
}
