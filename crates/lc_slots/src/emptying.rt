//! How `run` empties the slots.
ghost use Rattle.std.specs.Prelude.{◌≡◌, OnErr, OnOk, MatchResult};
ghost use Rattle.lc_io.specs.Outside.{HasRisen};
ghost use Rattle.lc_io.specs.Vaults.{WhereTold, empty_slots};
ghost use Rattle.lc_session_rules.specs.Session.{AreHalfEmptied};

use lc_io::{Failed, Slot, Vault};

/// Empties both slots of a vault, slot zero first.
///
/// A store that fails ends it: then slot zero holds any bytes and slot one is as it was, or slot zero is empty and slot one
/// holds any bytes. Takes no memory.
#[tactic(auto, using(crate::proofs::EmptyLaws::emptied_laws))]
pub fn emptied<V: Vault>(vault: &mut V) -> Result<(), Failed>
    ensures emptied { OnOk result (WhereTold (V.contents vault.old) (V.contents vault.new)
        (λ before after. after ≡ empty_slots)) }
    ensures half { OnErr result (WhereTold (V.contents vault.old) (V.contents vault.new) AreHalfEmptied) }
    ensures count { MatchResult result (λ _. V.faults vault.new ≡ V.faults vault.old)
        (λ _. HasRisen (V.faults vault.old) (V.faults vault.new)) }
{
    match vault.store(Slot::Zero, &[]) {
        Ok(()) => vault.store(Slot::One, &[]),
        Err(fault) => Err(fault),
    }
}
