//! The code of the first search of a script.
ghost use Rattle.std.specs.Prelude.{◌≡◌, ◌<◌, ℕ, [], ◌∷◌, length, take, map, IfOk, MatchOption};
ghost use Rattle.lc_parse.specs.Views.{statement_of};
ghost use Rattle.lc_calls.specs.Built.{built_calls};
ghost use Rattle.lc_session_rules.specs.Needs.{Needs, IsNeeds, MeetsFirst};

use lc_code::Code;
use lc_eval::{Machine, Step};
use lc_field::NoMemory;
use lc_parse::{ParseRefusal, parse};
use std::alloc::Global;

// The code of the first search of the statements of a machine that has done none; None if there is none before the first fault.
fn need_of(alloc: Global, machine: &mut Machine) -> Result<Option<Code>, NoMemory>
    requires unbound { machine.old.bindings ≡ [] }
    ensures first { IfOk result (λ o. MatchOption o (Needs built_calls [] (map statement_of machine.old.left) [])
        (λ C. (0 < length C.rows)
        × ((n : ℕ) × Needs built_calls [] (take n (map statement_of machine.old.left)) (C ∷ [])))) }
{
    loop {
        let step = machine.step(alloc)?;
        match step {
            Step::Line(_line) => {}
            Step::Silent => {}
            Step::Need(query) => return Ok(Some(query.code)),
            Step::Weights(_code) => {}
            Step::Near(_code, _word) => {}
            Step::Fault(_line) => return Ok(None),
            Step::End => return Ok(None),
        }
    }
}

/// The code of the first search that the bytes ask for as a script; None if there is none before the first fault. Fails if
/// memory runs out.
pub(crate) fn first_need(alloc: Global, bytes: &[u8]) -> Result<Option<Code>, NoMemory>
    ensures first { IfOk result (λ o. MatchOption o (IsNeeds built_calls bytes.now [])
        (λ C. (0 < length C.rows) × MeetsFirst built_calls bytes.now (C ∷ []))) }
{
    let script = match parse(alloc, bytes) {
        Ok(script) => script,
        Err(ParseRefusal::Fault { .. }) => return Ok(None),
        Err(ParseRefusal::NoMemory) => return Err(NoMemory),
    };
    let mut machine = Machine::start(alloc, script);
    need_of(alloc, &mut machine)
}
