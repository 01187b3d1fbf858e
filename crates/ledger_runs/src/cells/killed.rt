//! A process that is killed after each call of a save in turn.

use crate::cells::opened::{NEW, OLD, has_count, store};
use pvp_cell::{FileCell, OpenFault, killed_save, open_after_crash, open_after_kill};
use std::alloc::Global;
use std::test::Fail;
use vr_types::{Boot, BootCell};

/// After how many calls, whether the disk has a rename only once the folder is synced, and the counts that are read then,
/// and after a crash of the machine.
const KILLS: &[(u64, bool, u32, u32)] = &[
    (0, false, OLD, OLD),
    (1, false, OLD, OLD),
    (2, false, OLD, OLD),
    (3, false, NEW, NEW),
    (4, false, NEW, NEW),
    (0, true, OLD, OLD),
    (1, true, OLD, OLD),
    (2, true, OLD, OLD),
    (3, true, NEW, OLD),
    (4, true, NEW, NEW),
];

/// The count that is read after a kill.
fn read_after(alloc: Global, calls: u64, lazy: bool) -> Result<u32, OpenFault> {
    let cell = FileCell::open(alloc, store(lazy))?;
    let opened = open_after_kill(alloc, cell, Boot { boots: NEW }, calls)?;
    Ok(opened.load().boots)
}

/// The count that is read after a kill and a crash of the machine.
fn kept_after(alloc: Global, calls: u64, lazy: bool) -> Result<u32, OpenFault> {
    let cell = FileCell::open(alloc, store(lazy))?;
    let opened = open_after_crash(alloc, cell, Boot { boots: NEW }, calls)?;
    Ok(opened.load().boots)
}

/// Whether a save that is killed leaves these counts.
fn leaves(alloc: Global, calls: u64, lazy: bool, read: u32, kept: u32) -> bool {
    read_after(alloc, calls, lazy) == Ok(read) && kept_after(alloc, calls, lazy) == Ok(kept)
}

#[test]
fn a_kill_leaves_the_old_count_or_the_new_one(rt: HostRuntime) -> Result<(), Fail> {
    for (calls, lazy, read, kept) in KILLS {
        assert!(rt;
            leaves(rt.alloc(), *calls, *lazy, *read, *kept),
            "after {calls} calls"
        );
    }
    Ok(())
}

/// Whether a cell that is opened after a kill is on the disk, also where what it reads was not: no later crash takes it back.
fn keeps_what_it_read(alloc: Global) -> Result<bool, OpenFault> {
    let left = killed_save(FileCell::open(alloc, store(true))?, Boot { boots: NEW }, 3);
    let opened = FileCell::open(alloc, left)?;
    Ok(opened.load().boots == NEW && has_count(alloc, opened.into_store().crash(), Ok(NEW)))
}

#[test]
fn what_was_opened_is_kept(rt: HostRuntime) -> Result<(), Fail> {
    assert!(rt; keeps_what_it_read(rt.alloc())?);
    Ok(())
}
