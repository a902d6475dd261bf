//! The search of a need that a checkpoint has a record of, and of one that it has none of.
ghost use Rattle.std.specs.Prelude.{◌≡◌, ◌^◌, ◌<◌, ◌≤◌, length, IfSome, MatchResult, option_map};
ghost use Rattle.lc_checkpoint.specs.Seen.{settled_of};
ghost use Rattle.lc_rounds.specs.Records.{halt_from, IsPassed, IsNotPassed, IsBegun, IsNotBegun};

use crate::need::Halt;
use crate::rounds::Stop;
use lc_checkpoint::Settled;
use lc_code::Code;
use lc_search::{Answer, ResumeRefusal, Search};
use std::alloc::Global;

/// A search that is answered, and its answer.
#[derive(Drop)]
pub struct Answered {
    /// The search, in the state in which it is answered.
    pub search: Search,
    /// Its answer.
    pub answer: Answer,
}

// Why no search goes on from a record that tells this weight.
fn halt_of(told: u64, refusal: ResumeRefusal) -> Halt
    ensures { result ≡ halt_from told refusal }
{
    match refusal {
        ResumeRefusal::Unfit { found } => Halt::Unfit { told, found },
        ResumeRefusal::NoMemory => Halt::Stop(Stop::NoMemory),
    }
}

/// The search of a need whose record is settled, in the state of that record; or that the record doesn't fit the code, and
/// the weight that is found. No round is done.
///
/// The code has dimension at least 1, the budget is at most 2^40, and the record has at most as many blocks.
#[tactic(auto, using(crate::proofs::RecordLaws::passed_unfit))]
pub(crate) fn passed(
    alloc: Global,
    code: &Code,
    budget: u64,
    kept: Settled,
) -> Result<Answered, Halt>
    requires rows { 0 < length code.now.rows }
    requires budget { budget ≤ 2 ^ 40 }
    requires blocks { kept.blocks ≤ budget }
    ensures { MatchResult result (λ x. IsPassed code.now budget (settled_of kept) x)
        (λ h. IsNotPassed code.now budget (settled_of kept) h) }
{
    let search = match Search::resume_at(
        alloc,
        code,
        budget,
        kept.blocks,
        kept.weight,
        kept.place,
    ) {
        Ok(search) => search,
        Err(refusal) => return Err(halt_of(kept.weight, refusal)),
    };
    match search.finished() {
        Some(answer) => Ok(Answered { search, answer }),
        None => Err(Halt::Unfit {
            told: kept.weight,
            found: kept.weight,
        }),
    }
}

/// The search of a need, in the state of its record if there is one; or that the record doesn't fit the code, and the weight
/// that is found.
///
/// The code has dimension at least 1, the budget is at most 2^40, and the record has at most as many blocks.
#[tactic(auto, using(crate::proofs::RecordLaws::begun_so, crate::proofs::RecordLaws::begun_unfit))]
pub(crate) fn begun(
    alloc: Global,
    code: &Code,
    budget: u64,
    current: Option<Settled>,
) -> Result<Search, Halt>
    requires rows { 0 < length code.now.rows }
    requires budget { budget ≤ 2 ^ 40 }
    requires blocks { IfSome current (λ r. r.blocks ≤ budget) }
    ensures { MatchResult result (λ s. IsBegun code.now budget (option_map settled_of current) s)
        (λ h. IsNotBegun code.now (option_map settled_of current) h) }
{
    let Some(kept) = current else {
        return match Search::start(alloc, code, budget) {
            Ok(search) => Ok(search),
            Err(_) => Err(Halt::Stop(Stop::NoMemory)),
        };
    };
    match Search::resume_at(alloc, code, budget, kept.blocks, kept.weight, kept.place) {
        Ok(search) => Ok(search),
        Err(refusal) => Err(halt_of(kept.weight, refusal)),
    }
}
