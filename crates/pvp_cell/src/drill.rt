//! What becomes of a cell where the process is killed at any call of a save, and where the machine crashes too.
ghost use Rattle.std.specs.Prelude.{◌≡◌, ◌⊎◌, IfSome, IfOk, IfErr};
ghost use Rattle.pvp_cell.specs.Text.{cell_text};
ghost use Rattle.pvp_cell.specs.Disk.{Has, HasOldOr, Goes, Gets};
ghost use Rattle.pvp_cell.specs.Cut.{cut_disk};
ghost use Rattle.pvp_cell.specs.Memory.{disk_of};
ghost use Rattle.pvp_cell.specs.FileCell.{held_by, store_of, IsStoreFault};

use crate::cut::CutStore;
use crate::fault::OpenFault;
use crate::file_cell::FileCell;
use crate::memory::MemStore;
use crate::store::Store;
use std::alloc::Global;
use vr_types::{Boot, BootCell};

/// The store of a cell after a save by a process that is killed after so many calls of it.
pub fn killed_save<S: Store>(cell: FileCell<S>, boot: Boot, calls: u64) -> S
    ensures { Goes (HasOldOr (cell_text boot)) (S.disk (store_of cell)) (S.disk result) }
{
    let mut dying = cut_off(cell, calls);
    // Whoever is killed does not learn how the save went.
    let _unseen = dying.save(boot);
    dying.into_store().into_inner()
}

/// The same cell over a store that is cut off after so many calls.
fn cut_off<S: Store>(cell: FileCell<S>, calls: u64) -> FileCell<CutStore<S>>
    ensures held { held_by result ≡ held_by cell }
    ensures disk { cut_disk S.disk (store_of result) ≡ S.disk (store_of cell) }
{
    let boot = cell.boot;
    FileCell {
        store: CutStore::new(cell.into_store(), calls),
        boot,
        failures: 0,
    }
}

/// The cell that is opened after that: the old boot or the new one, and never a fault of the text.
pub fn open_after_kill<S: Store>(
    alloc: Global,
    cell: FileCell<S>,
    boot: Boot,
    calls: u64,
) -> Result<FileCell<S>, OpenFault>
    requires { IfSome (S.disk (store_of cell)) (Has (cell_text (held_by cell))) }
    ensures ok { IfOk result (λ opened. IfSome (S.disk (store_of cell))
        (λ _. (held_by opened ≡ held_by cell) ⊎ (held_by opened ≡ boot))) }
    ensures durable { IfOk result (λ opened.
        Gets (cell_text (held_by opened)) (S.disk (store_of cell)) (S.disk (store_of opened))) }
    ensures err { IfErr result (λ fault. IfSome (S.disk (store_of cell))
        (λ _. IsStoreFault fault)) }
{
    FileCell::open(alloc, killed_save(cell, boot, calls))
}

/// The same where the machine crashes as the process is killed.
pub fn open_after_crash(
    alloc: Global,
    cell: FileCell<MemStore>,
    boot: Boot,
    calls: u64,
) -> Result<FileCell<MemStore>, OpenFault>
    requires { Has (cell_text (held_by cell)) (disk_of (store_of cell)) }
    ensures ok { IfOk result (λ opened. (held_by opened ≡ held_by cell) ⊎ (held_by opened ≡ boot)) }
    ensures durable { IfOk result
        (λ opened. Has (cell_text (held_by opened)) (disk_of (store_of opened))) }
    ensures err { IfErr result (λ fault. fault ≡ OpenFault.NoMemory) }
{
    FileCell::open(alloc, killed_save(cell, boot, calls).crash())
}
