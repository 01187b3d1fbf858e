//! What the tests open, and what they look at.

use pvp_cell::{FileCell, MemStore, OpenFault, Store, text_of};
use std::alloc::Global;
use vr_types::{Boot, BootCell};

/// The count that the cells of the tests have at first.
pub const OLD: u32 = 7;

/// The count that is saved then.
pub const NEW: u32 = 8;

/// How many calls an opening takes: it reads, writes, syncs, renames and syncs the folder.
pub const OPENING: u64 = 5;

/// A store with the old count, on a disk that keeps a rename at once, or not.
pub fn store(lazy: bool) -> MemStore {
    let mut store = MemStore::of(&text_of(Boot { boots: OLD }));
    if lazy {
        store.be_lazy();
    }
    store
}

/// Whether the cell of a store has this count, or is refused so.
pub fn has_count<S: Store>(alloc: Global, store: S, want: Result<u32, OpenFault>) -> bool {
    match FileCell::open(alloc, store) {
        Ok(cell) => want == Ok(cell.load().boots),
        Err(fault) => want == Err(fault),
    }
}

/// Whether a cell is made in a store, or is refused with this fault.
pub fn is_made<S: Store>(alloc: Global, store: S, fault: Option<OpenFault>) -> bool {
    FileCell::create(alloc, store).err() == fault
}
