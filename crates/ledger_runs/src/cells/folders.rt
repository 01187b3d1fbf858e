//! Cells in folders of the machine.

use self::Deed::{Counts, Dies, Makes, Saves};
use crate::cells::opened::{has_count, is_made};
use pvp_cell::{CutStore, DirStore, FileCell, OpenFault, Store, StoreFault, killed_save};
use std::alloc::Global;
use std::fs;
use std::process::Abort;
use std::rt::Files;
use std::test::Fail;
use vr_types::{Boot, BootCell};

/// What is done with the store of a folder, and what is to come of it.
#[derive(Clone, Copy)]
enum Deed {
    /// Its cell is opened: it has this count, or is refused so.
    Counts(Result<u32, OpenFault>),
    /// The same where the store is cut off from the first call on.
    CountsCutOff(Result<u32, OpenFault>),
    /// A cell is made in it, or is refused with this fault.
    Makes(Option<OpenFault>),
    /// A cell is made in it, and saves this count.
    Saves(u32),
    /// Its cell saves the next count, and is killed after so many calls of that.
    Dies(u64),
}

/// Does what is to be done with a store; whether that comes of it.
fn act<S: Store>(alloc: Global, store: S, deed: Deed) -> bool {
    match deed {
        Deed::Counts(want) => has_count(alloc, store, want),
        Deed::CountsCutOff(want) => has_count(alloc, CutStore::new(store, 0), want),
        Deed::Makes(fault) => is_made(alloc, store, fault),
        Deed::Saves(boots) => is_saved(alloc, store, boots),
        Deed::Dies(calls) => dies(alloc, store, calls),
    }
}

/// Whether a new cell in a store saves a count.
fn is_saved<S: Store>(alloc: Global, store: S, boots: u32) -> bool {
    match FileCell::create(alloc, store) {
        Ok(mut cell) => cell.save(Boot { boots }).is_ok(),
        Err(_) => false,
    }
}

/// Saves the next count in the cell of a store, and is killed after so many calls of that; whether there is a cell.
fn dies<S: Store>(alloc: Global, store: S, calls: u64) -> bool {
    match FileCell::open(alloc, store) {
        Ok(cell) => {
            let boots = cell.load().boots.saturating_add(1);
            killed_save(cell, Boot { boots }, calls);
            true
        }
        Err(_) => false,
    }
}

/// The store of a folder.
fn folder<'a, R: Files + AllocGlobal>(
    rt: &'a R,
    name: &str,
) -> Result<DirStore<&'a R>, StoreFault> {
    DirStore::new(rt, rt.alloc(), name)
}

/// Does what is to be done with the store of a folder; whether that comes of it.
fn acts<R: Files + AllocGlobal>(rt: &R, name: &str, deed: Deed) -> bool {
    match folder(rt, name) {
        Ok(store) => act(rt.alloc(), store, deed),
        Err(_) => false,
    }
}

/// These are done in turn with the store of a folder.
fn act_in<R: Files + Abort + AllocGlobal>(rt: &R, name: &str, deeds: &[Deed]) {
    for (at, deed) in deeds.iter().enumerate() {
        assert!(rt; acts(rt, name, *deed), "deed {at}");
    }
}

#[test]
fn a_cell_is_kept_in_a_folder(rt: HostRuntime) -> Result<(), Fail> {
    const DEEDS: &[Deed] = &[Counts(Err(OpenFault::Lost)), Saves(5)];
    fs::create_dir(&rt, "kept")?;
    act_in(&rt, "kept", DEEDS);
    let bytes = fs::read(&rt, "kept/cell")?;
    assert!(rt; bytes.as_slice() == b"\x00\x00\x00\x05\xff\xff\xff\xfa".as_slice());
    act_in(
        &rt,
        "kept",
        &[Counts(Ok(5)), Makes(Some(OpenFault::Present))],
    );
    Ok(())
}

#[test]
fn a_kill_leaves_a_cell_in_a_folder(rt: HostRuntime) -> Result<(), Fail> {
    const DEEDS: &[Deed] = &[
        Makes(None),
        Dies(0),
        Counts(Ok(0)),
        Dies(1),
        Counts(Ok(0)),
        Dies(2),
        Counts(Ok(0)),
        Dies(3),
        Counts(Ok(1)),
        Dies(4),
        Counts(Ok(2)),
    ];
    fs::create_dir(&rt, "killed")?;
    act_in(&rt, "killed", DEEDS);
    Ok(())
}

#[test]
fn a_damaged_file_is_refused(rt: HostRuntime) -> Result<(), Fail> {
    fs::create_dir(&rt, "damaged")?;
    let damaged = b"\x00\x00\x00\x05\xff\xff\xff\xfb".as_slice();
    fs::write(&rt, "damaged/cell", damaged)?;
    act_in(&rt, "damaged", &[Counts(Err(OpenFault::Damaged))]);
    fs::write(&rt, "damaged/cell", "too long for a cell")?;
    act_in(&rt, "damaged", &[Counts(Err(OpenFault::Length))]);
    Ok(())
}

#[test]
fn a_folder_that_is_not_there_has_no_cell(rt: HostRuntime) -> Result<(), Fail> {
    const DEEDS: &[Deed] = &[
        Makes(Some(OpenFault::Store)),
        Deed::CountsCutOff(Err(OpenFault::Store)),
    ];
    act_in(&rt, "nowhere", DEEDS);
    Ok(())
}
