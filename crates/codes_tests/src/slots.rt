//! What is found in the slots of a vault. The seals are those of another program.
use lc_io::{MemoryVault, NoMemory, Slot, Vault};
use lc_slots::{Found, chosen, emptied};
use std::alloc::Global;
use std::test::Fail;

// Checkpoints of the turns 3 and 4, and one of version 3.
const THIRD: &str =
    "8a5f1e8385af73711329ddec328c40390c7d9069c72d73440c9d1ba96ab6e45c\n{\"blocks\":2,\"budget\":1048576,\"done\":[],\"place\":0,\"script\":\"abababababababababababababababababababababababababababababababab\",\"turn\":3,\"version\":2,\"weight\":7}";

const FOURTH: &str =
    "777f78321d2f1fe7247c3a24e59c7ed947a9cd72020c2f2fa40cda0409a4fb17\n{\"blocks\":2,\"budget\":1048576,\"done\":[],\"place\":0,\"script\":\"abababababababababababababababababababababababababababababababab\",\"turn\":4,\"version\":2,\"weight\":7}";

const FOREIGN: &str =
    "4928e664e423e1783f123989e526f60bf872d05499f7f78303836cba61fd967a\n{\"blocks\":2,\"budget\":1048576,\"done\":[],\"place\":0,\"script\":\"abababababababababababababababababababababababababababababababab\",\"turn\":5,\"version\":3,\"weight\":7}";

// What the slots hold: the turn of the checkpoint that is taken, 1001 if there is none but something was stored, and 1000 if
// nothing was.
fn turn_of(found: &Found) -> u64 {
    match found {
        Found::Nothing => 1000,
        Found::Damaged => 1001,
        Found::Taken(point) => point.turn,
    }
}

// What is found after these stores.
fn found_after(alloc: Global, zero: &str, one: &str) -> Result<u64, NoMemory> {
    let mut vault = MemoryVault::new(alloc, 1000, &[])?;
    if vault.store(Slot::Zero, zero.as_bytes()).is_err() {
        return Err(NoMemory);
    }
    if vault.store(Slot::One, one.as_bytes()).is_err() {
        return Err(NoMemory);
    }
    match chosen(alloc, &mut vault) {
        Ok(found) => Ok(turn_of(&found)),
        Err(_) => Err(NoMemory),
    }
}

#[test]
fn slots_that_are_found(rt: HostRuntime) -> Result<(), Fail> {
    let cases: [(&str, &str, u64); 7] = [
        ("", "", 1000),
        ("", "x", 1001),
        (FOREIGN, "", 1001),
        (FOURTH, THIRD, 4),
        (THIRD, FOURTH, 4),
        ("x", THIRD, 3),
        (FOURTH, FOREIGN, 4),
    ];
    for (zero, one, turn) in &cases {
        assert!(rt; found_after(rt.alloc(), zero, one)? == *turn);
    }
    Ok(())
}

// What is found once slots that held something are emptied.
fn found_emptied(alloc: Global) -> Result<u64, NoMemory> {
    let mut vault = MemoryVault::new(alloc, 1000, &[])?;
    if vault.store(Slot::One, THIRD.as_bytes()).is_err() {
        return Err(NoMemory);
    }
    if emptied(&mut vault).is_err() {
        return Err(NoMemory);
    }
    match chosen(alloc, &mut vault) {
        Ok(found) => Ok(turn_of(&found)),
        Err(_) => Err(NoMemory),
    }
}

#[test]
fn slots_that_are_emptied(rt: HostRuntime) -> Result<(), Fail> {
    assert!(rt; found_emptied(rt.alloc())? == 1000);
    Ok(())
}
