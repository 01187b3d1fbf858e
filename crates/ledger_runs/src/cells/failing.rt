//! A store in memory of which each call fails in turn.

use crate::cells::opened::{NEW, OLD, OPENING, has_count, store};
use pvp_cell::{FileCell, MemStore, OpenFault, Store};
use std::alloc::Global;
use std::test::Fail;
use vr_types::{Boot, BootCell};

/// A save of which a call fails: how many of its calls come before that one, whether it is done all the same, whether the
/// disk has a rename only once the folder is synced; and the counts that are read then, and after a crash of the machine.
type Trial = (u64, bool, bool, u32, u32);

/// The write, the sync of the file, the rename and the sync of the folder.
const TRIALS: &[Trial] = &[
    (0, false, false, OLD, OLD),
    (0, false, true, OLD, OLD),
    (0, true, false, OLD, OLD),
    (0, true, true, OLD, OLD),
    (1, false, false, OLD, OLD),
    (1, false, true, OLD, OLD),
    (1, true, false, OLD, OLD),
    (1, true, true, OLD, OLD),
    (2, false, false, OLD, OLD),
    (2, false, true, OLD, OLD),
    (2, true, false, NEW, NEW),
    (2, true, true, NEW, OLD),
    (3, false, false, NEW, NEW),
    (3, false, true, NEW, OLD),
    (3, true, false, NEW, NEW),
    (3, true, true, NEW, NEW),
];

/// A store with the old count, of which a call fails after an opening and so many calls more.
fn failing(after: u64, takes: bool, lazy: bool) -> MemStore {
    let mut store = store(lazy);
    store.fail_after(OPENING.saturating_add(after), takes);
    store
}

/// Saves a count; whether this save alone of the cell failed, and the cell holds the count.
fn fails_to_save<C: BootCell>(cell: &mut C, boots: u32) -> bool {
    cell.save(Boot { boots }).is_err() && cell.load().boots == boots && cell.failures() == 1
}

/// The store after a save of the new count that failed; `None` where it did not.
fn left_by<S: Store>(alloc: Global, store: S) -> Option<S> {
    match FileCell::open(alloc, store) {
        Ok(mut cell) => {
            if fails_to_save(&mut cell, NEW) {
                Some(cell.into_store())
            } else {
                None
            }
        }
        Err(_) => None,
    }
}

/// Whether a save fails in a store, and this count is then read.
fn reads(alloc: Global, store: MemStore, read: u32) -> bool {
    match left_by(alloc, store) {
        Some(left) => has_count(alloc, left, Ok(read)),
        None => false,
    }
}

/// Whether a save fails in a store, and a crash then leaves this count.
fn keeps(alloc: Global, store: MemStore, kept: u32) -> bool {
    match left_by(alloc, store) {
        Some(left) => has_count(alloc, left.crash(), Ok(kept)),
        None => false,
    }
}

/// Whether a trial comes out as it says.
fn comes_out(alloc: Global, trial: Trial) -> bool {
    let (after, takes, lazy, read, kept) = trial;
    reads(alloc, failing(after, takes, lazy), read)
        && keeps(alloc, failing(after, takes, lazy), kept)
}

#[test]
fn each_call_fails_in_turn(rt: HostRuntime) -> Result<(), Fail> {
    for (at, trial) in TRIALS.iter().enumerate() {
        assert!(rt; comes_out(rt.alloc(), *trial), "trial {at}");
    }
    Ok(())
}

/// Whether a save of which a call fails is the only one that does: the next is done.
fn saves_the_next<C: BootCell>(cell: &mut C) -> bool {
    fails_to_save(cell, NEW) && cell.save(Boot { boots: 9 }).is_ok() && cell.failures() == 1
}

/// Whether a crash leaves that next one.
fn goes_on_after(alloc: Global, after: u64) -> bool {
    match FileCell::open(alloc, failing(after, false, true)) {
        Ok(mut cell) => {
            saves_the_next(&mut cell) && has_count(alloc, cell.into_store().crash(), Ok(9))
        }
        Err(_) => false,
    }
}

#[test]
fn a_cell_goes_on_after_a_save_that_failed(rt: HostRuntime) -> Result<(), Fail> {
    for after in 0..4 {
        assert!(rt; goes_on_after(rt.alloc(), after), "after {after}");
    }
    Ok(())
}

/// Whether an opening of which a call fails reports that of the store.
fn is_not_opened<S: Store>(alloc: Global, store: &mut S) -> bool {
    pvp_cell::settle_cell(alloc, store) == Err(OpenFault::Store)
}

/// Whether an opening of which a call fails leaves the cell.
fn opens_again(alloc: Global, after: u64) -> bool {
    let mut store = store(true);
    store.fail_after(after, true);
    is_not_opened(alloc, &mut store) && has_count(alloc, store.crash(), Ok(OLD))
}

#[test]
fn each_call_of_an_opening_fails_in_turn(rt: HostRuntime) -> Result<(), Fail> {
    for after in 0..OPENING {
        assert!(rt; opens_again(rt.alloc(), after), "after {after}");
    }
    Ok(())
}

/// Saves the next count in a cell of any kind, and returns whether it did.
fn is_raised<C: BootCell>(cell: &mut C) -> bool {
    match cell.load().raised() {
        Some(boot) => cell.save(boot).is_ok(),
        None => false,
    }
}

/// Whether a new cell of any kind saves each count to 9, and reports no failure.
fn saves_all<C: BootCell>(cell: &mut C) -> bool {
    let mut all = cell.load().boots == 0;
    for _ in 1..10 {
        all &= is_raised(cell);
    }
    all && cell.failures() == 0
}

/// Whether a new cell in a store does so, and a crash leaves the last.
fn keeps_all(alloc: Global, store: MemStore) -> bool {
    match FileCell::create(alloc, store) {
        Ok(mut cell) => {
            saves_all(&mut cell) && has_count(alloc, cell.into_store().crash(), Ok(9))
        }
        Err(_) => false,
    }
}

#[test]
fn a_store_that_does_not_fail_saves_all(rt: HostRuntime) -> Result<(), Fail> {
    assert!(rt; keeps_all(rt.alloc(), MemStore::new()));
    Ok(())
}
