//! In which order watchers hear a record, how often one that leaves does, and when it is dropped.
use lc_io::{Advice, Record, Watcher};
use lc_search::tell;
use std::alloc::{AllocError, Global};
use std::sync::Arc;
use std::sync::atomic::{AtomicU64, Ordering};
use std::test::Fail;

// The record that they hear.
const NOTE: Record = Record {
    query: 0,
    blocks: 1,
    bound: 2,
    best: 3,
};

// A watcher that stays if as many have heard a record before it as its number says.
#[derive(Drop)]
struct TurnWatcher<'a> {
    before: &'a AtomicU64,
    number: u64,
}

impl<'a> Watcher for TurnWatcher<'a> {
    ghost use Rattle.std.specs.Prelude.{None};

    ghost heard = { λ w. None };

    ghost coming = { λ w. None };

    ghost pauses = { λ w. 0 };

    fn told(&mut self, _note: &Record) -> Advice {
        if self.before.fetch_add(1, Ordering::Relaxed) == self.number {
            return Advice::Go;
        }
        Advice::Leave
    }

    fn heard_at(&self, _at: u64) -> Option<Record> {
        None
    }
}

#[test]
fn watchers_hear_in_their_order(rt: HostRuntime) -> Result<(), Fail> {
    let before = AtomicU64::new(0);
    let mut watchers = Vec::new(rt.alloc());
    for number in 0..5 {
        watchers.push(TurnWatcher {
            before: &before,
            number,
        })?;
    }
    assert!(rt; !tell(&mut watchers, &NOTE) && watchers.len() == 5);
    Ok(())
}

#[test]
fn a_watcher_that_leaves_hears_a_record_once(rt: HostRuntime) -> Result<(), Fail> {
    let before = AtomicU64::new(0);
    let mut watchers = Vec::new(rt.alloc());
    for _each in 0..3 {
        watchers.push(TurnWatcher {
            before: &before,
            number: 9,
        })?;
    }
    assert!(rt; !tell(&mut watchers, &NOTE) && watchers.is_empty());
    assert!(rt; before.load(Ordering::Relaxed) == 3);
    Ok(())
}

// A watcher that stays if no other one holds its value.
#[derive(Drop)]
struct SharingWatcher {
    shared: Arc<u64>,
}

impl Watcher for SharingWatcher {
    ghost use Rattle.std.specs.Prelude.{None};

    ghost heard = { λ w. None };

    ghost coming = { λ w. None };

    ghost pauses = { λ w. 0 };

    fn told(&mut self, _note: &Record) -> Advice {
        if Arc::strong_count(&self.shared) == 1 {
            return Advice::Go;
        }
        Advice::Leave
    }

    fn heard_at(&self, _at: u64) -> Option<Record> {
        None
    }
}

// Adds three watchers that hold one value.
fn add_sharing(alloc: Global, watchers: &mut Vec<SharingWatcher>) -> Result<(), AllocError> {
    let shared = Arc::new(alloc, 0u64)?;
    for _other in 0..2 {
        watchers.push(SharingWatcher {
            shared: shared.clone()?,
        })?;
    }
    watchers.push(SharingWatcher { shared })?;
    Ok(())
}

#[test]
fn a_watcher_that_leaves_is_dropped_at_once(rt: HostRuntime) -> Result<(), Fail> {
    let mut watchers = Vec::new(rt.alloc());
    add_sharing(rt.alloc(), &mut watchers)?;
    assert!(rt; !tell(&mut watchers, &NOTE) && watchers.len() == 1);
    Ok(())
}
