// What a vault promises.
ghost use Rattle.std.specs.Prelude.{◌≡◌, ◌≤◌, ℕ, length, Option, IfOk, OnOk, OnErr, MatchResult};
ghost use Rattle.lc_io.specs.Outside.{HasRisen};
ghost use Rattle.lc_io.specs.Vaults.{WhereTold, IsPut, IsTorn, Loads};

use crate::Failed;

/// One of the two slots of a vault.
#[derive(Clone, Copy, Debug, PartialEq, Eq)]
pub enum Slot {
    /// The slot of even turns.
    Zero,
    /// The slot of odd turns.
    One,
}

/// Two slots of bytes. A slot in which nothing was ever stored is empty.
pub trait Vault {
    ghost use Rattle.lc_io.specs.Vaults.{Slots};

    /// The bytes of both slots, if the vault discloses them. One that does always does.
    ghost contents: { Self → Option Slots };

    /// How often the vault has failed. It never falls.
    ghost faults: { Self → ℕ };

    /// Copies the front of a slot to the front of `buf`, as much as fits. Returns how many bytes
    /// that was. A call that fails leaves `buf` as it was. No call changes a slot.
    fn load(&mut self, slot: Slot, buf: &mut [u8]) -> Result<usize, Failed>
        ensures bound { IfOk result (λ n. n ≤ length buf.old) }
        ensures gave { IfOk result (λ n. Loads (contents self.old) slot buf.old buf.new n) }
        ensures same { contents self.new ≡ contents self.old }
        ensures untouched { OnErr result (buf.new ≡ buf.old) }
        ensures count { MatchResult result (λ _. faults self.new ≡ faults self.old)
            (λ _. HasRisen (faults self.old) (faults self.new)) };

    /// Replaces the bytes of a slot. A call that fails leaves any bytes in that slot. The other
    /// slot stays as it was.
    fn store(&mut self, slot: Slot, bytes: &[u8]) -> Result<(), Failed>
        ensures stored { OnOk result
            (WhereTold (contents self.old) (contents self.new) (IsPut slot bytes.now)) }
        ensures torn { OnErr result
            (WhereTold (contents self.old) (contents self.new) (IsTorn slot)) }
        ensures count { MatchResult result (λ _. faults self.new ≡ faults self.old)
            (λ _. HasRisen (faults self.old) (faults self.new)) };
}
