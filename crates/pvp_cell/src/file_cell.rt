//! The boot cell over a store.
ghost use Rattle.std.specs.Prelude.{◌≡◌, ◌⊎◌, ℕ, Ok, Err, None, IfSome, IsSome, IfOk, IfErr, OnOk, OnErr, IsOk, IsErrOf};
ghost use Rattle.vr_types.specs.Cell.{HasRisen, new_cell};
ghost use Rattle.pvp_cell.specs.Text.{cell_text};
ghost use Rattle.pvp_cell.specs.Disk.{HasOldOr, Goes, Gets, Stages, Stays, Publishes, MayPublish, StaysOrSettles, boot_in};
ghost use Rattle.pvp_cell.specs.FileCell.{IsStoreFault};

use crate::fault::OpenFault;
use crate::store::{Store, StoreFault};
use crate::text::{boot_of, text_of};
use std::alloc::Global;
use vr_types::{Boot, BootCell, CellFault};

/// A boot cell that is a file of a store. It keeps what the file holds; after a save that failed it keeps the new value,
/// while the file has the old one or the new one.
#[derive(Drop)]
pub struct FileCell<S: Store> {
    pub(crate) store: S,
    pub(crate) boot: Boot,
    pub(crate) failures: u64,
}

/// What the cell of a store holds.
pub fn read_cell<S: Store>(alloc: Global, store: &mut S) -> Result<Boot, OpenFault>
    ensures ok { IfOk result (λ boot. IfSome (S.disk store.old)
        (λ disk. boot_in disk.shown ≡ Ok boot)) }
    ensures err { IfErr result (λ fault. IfSome (S.disk store.old)
        (λ disk. (boot_in disk.shown ≡ Err fault) ⊎ IsStoreFault fault)) }
    ensures same { S.disk store.new ≡ S.disk store.old }
    ensures count { OnOk result (S.faults store.new ≡ S.faults store.old) }
    ensures cause { IsErrOf result OpenFault.Store →
        HasRisen (S.faults store.old) (S.faults store.new) }
    ensures reliable { S.is_reliable store.old →
        ¬ (IsErrOf result OpenFault.Store) × S.is_reliable store.new }
{
    match store.read(alloc)? {
        None => Err(OpenFault::Lost),
        Some(bytes) => boot_of(&bytes),
    }
}

/// Reads the cell of a store, and saves it anew: what is read may be in the page cache alone, and is not to be relied on
/// before every crash leaves it.
pub fn settle_cell<S: Store>(alloc: Global, store: &mut S) -> Result<Boot, OpenFault>
    ensures ok { IfOk result (λ boot. IfSome (S.disk store.old)
        (λ disk. boot_in disk.shown ≡ Ok boot)) }
    ensures durable { IfOk result (λ boot. Gets (cell_text boot) (S.disk store.old)
        (S.disk store.new)) }
    ensures err { IfErr result (λ fault. IfSome (S.disk store.old)
        (λ disk. (boot_in disk.shown ≡ Err fault) ⊎ IsStoreFault fault)) }
    ensures disk { Goes StaysOrSettles (S.disk store.old) (S.disk store.new) }
    ensures cause { IsErrOf result OpenFault.Store →
        HasRisen (S.faults store.old) (S.faults store.new) }
    ensures reliable { S.is_reliable store.old →
        ¬ (IsErrOf result OpenFault.Store) × S.is_reliable store.new }
{
    let boot = read_cell(alloc, store)?;
    replace(store, boot)?;
    Ok(boot)
}

/// Makes the cell of a site that was never started, where the store has none.
pub fn create_cell<S: Store>(alloc: Global, store: &mut S) -> Result<(), OpenFault>
    ensures ok { OnOk result (Gets (cell_text new_cell) (S.disk store.old) (S.disk store.new)) }
    ensures none { OnOk result (IfSome (S.disk store.old) (λ disk. disk.shown ≡ None)) }
    ensures present { IsErrOf result OpenFault.Present →
        IfSome (S.disk store.old) (λ disk. IsSome disk.shown) }
    // A cell that is there stays as it is.
    ensures same { IfSome (S.disk store.old) (λ disk. IsSome disk.shown →
        S.disk store.new ≡ S.disk store.old) }
    ensures disk { Goes (HasOldOr (cell_text new_cell)) (S.disk store.old) (S.disk store.new) }
    ensures err { IfErr result (λ fault. (fault ≡ OpenFault.Present) ⊎ IsStoreFault fault) }
    ensures cause { IsErrOf result OpenFault.Store →
        HasRisen (S.faults store.old) (S.faults store.new) }
    ensures reliable { S.is_reliable store.old →
        ¬ (IsErrOf result OpenFault.Store) × S.is_reliable store.new }
{
    if store.read(alloc)?.is_some() {
        return Err(OpenFault::Present);
    }
    replace(store, Boot::new())?;
    Ok(())
}

/// Puts the text of a boot in the place of what the store has.
fn replace<S: Store>(store: &mut S, boot: Boot) -> Result<(), StoreFault>
    ensures ok { OnOk result (Gets (cell_text boot) (S.disk store.old) (S.disk store.new)) }
    ensures disk { Goes (HasOldOr (cell_text boot)) (S.disk store.old) (S.disk store.new) }
    ensures cause { OnErr result (HasRisen (S.faults store.old) (S.faults store.new)) }
    ensures reliable { S.is_reliable store.old → IsOk result × S.is_reliable store.new }
{
    stage(store, boot)?;
    publish(store)
}

/// Writes the new file. The disk has its bytes before it is given the name, so that whatever a crash leaves there is whole.
fn stage<S: Store>(store: &mut S, boot: Boot) -> Result<(), StoreFault>
    ensures ok { OnOk result (Goes (Stages (cell_text boot)) (S.disk store.old)
        (S.disk store.new)) }
    ensures staged { OnOk result (IfSome (S.disk store.new) (λ disk. IsSome disk.staged)) }
    ensures err { OnErr result (Goes Stays (S.disk store.old) (S.disk store.new)) }
    ensures count { OnOk result (S.faults store.new ≡ S.faults store.old) }
    ensures cause { OnErr result (HasRisen (S.faults store.old) (S.faults store.new)) }
    ensures reliable { S.is_reliable store.old → IsOk result × S.is_reliable store.new }
{
    store.write(&text_of(boot))?;
    store.sync_file()
}

/// Puts the new file in the place of what is there.
fn publish<S: Store>(store: &mut S) -> Result<(), StoreFault>
    requires { IfSome (S.disk store.old) (λ disk. IsSome disk.staged) }
    ensures ok { OnOk result (Goes Publishes (S.disk store.old) (S.disk store.new)) }
    ensures disk { Goes MayPublish (S.disk store.old) (S.disk store.new) }
    ensures cause { OnErr result (HasRisen (S.faults store.old) (S.faults store.new)) }
    ensures reliable { S.is_reliable store.old → IsOk result × S.is_reliable store.new }
{
    store.rename()?;
    store.sync_folder()
}

impl<S: Store> FileCell<S> {
    ghost use Rattle.pvp_cell.specs.FileCell.{held_by, faults_of, store_of};

    /// The cell of a store that has one.
    pub fn open(alloc: Global, mut store: S) -> Result<Self, OpenFault>
        ensures held { IfOk result (λ cell. IfSome (S.disk store)
            (λ disk. boot_in disk.shown ≡ Ok (held_by cell))) }
        ensures durable { IfOk result (λ cell.
            Gets (cell_text (held_by cell)) (S.disk store) (S.disk (store_of cell))) }
        ensures faults { IfOk result (λ cell. faults_of cell ≡ 0) }
        ensures err { IfErr result (λ fault. IfSome (S.disk store)
            (λ disk. (boot_in disk.shown ≡ Err fault) ⊎ IsStoreFault fault)) }
        ensures reliable { S.is_reliable store →
            ¬ (IsErrOf result OpenFault.Store) × IfOk result
            (λ cell. S.is_reliable (store_of cell)) }
    {
        let boot = settle_cell(alloc, &mut store)?;
        Ok(FileCell {
            store,
            boot,
            failures: 0,
        })
    }

    /// A new cell in a store that has none.
    pub fn create(alloc: Global, mut store: S) -> Result<Self, OpenFault>
        ensures held { IfOk result (λ cell. held_by cell ≡ new_cell) }
        ensures durable { IfOk result (λ cell. Gets (cell_text new_cell) (S.disk store)
            (S.disk (store_of cell))) }
        ensures none { OnOk result (IfSome (S.disk store) (λ disk. disk.shown ≡ None)) }
        ensures faults { IfOk result (λ cell. faults_of cell ≡ 0) }
        ensures present { IsErrOf result OpenFault.Present →
            IfSome (S.disk store) (λ disk. IsSome disk.shown) }
        ensures err { IfErr result (λ fault. (fault ≡ OpenFault.Present) ⊎ IsStoreFault fault) }
        ensures reliable { S.is_reliable store →
            ¬ (IsErrOf result OpenFault.Store) × IfOk result
            (λ cell. S.is_reliable (store_of cell)) }
    {
        create_cell(alloc, &mut store)?;
        Ok(FileCell {
            store,
            boot: Boot::new(),
            failures: 0,
        })
    }

    /// The store, where the cell is no longer used.
    pub fn into_store(self) -> S
        ensures { result ≡ store_of self }
    {
        self.store
    }
}

impl<S: Store> BootCell for FileCell<S> {
    ghost use Rattle.pvp_cell.specs.FileCell.{held_by, faults_of, store_of, Saves};

    ghost held = { held_by };

    ghost faults = { faults_of };

    ghost is_reliable = { λ cell. S.is_reliable (store_of cell) };

    ghost saves = { Saves S.disk };

    fn load(&self) -> Boot {
        self.boot
    }

    fn save(&mut self, boot: Boot) -> Result<(), CellFault>
        ensures ok { OnOk result (held_by self.new ≡ boot) }
        ensures err { OnErr result ((held_by self.new ≡ held_by self.old)
            ⊎ (held_by self.new ≡ boot)) }
        ensures saves { Saves S.disk self.old boot self.new }
        ensures cause { OnErr result (HasRisen (faults_of self.old) (faults_of self.new)) }
        ensures count { OnOk result (faults_of self.new ≡ faults_of self.old) }
        ensures reliable { S.is_reliable (store_of self.old) →
            IsOk result × S.is_reliable (store_of self.new) }
        // At `Ok` every crash leaves exactly the text of this boot; else that, or what it would have left before.
        ensures durable { OnOk result (Gets (cell_text boot) (S.disk (store_of self.old))
            (S.disk (store_of self.new))) }
        ensures disk { Goes (HasOldOr (cell_text boot)) (S.disk (store_of self.old))
            (S.disk (store_of self.new)) }
        // It fails only where the store did.
        ensures blamed { OnErr result
            (HasRisen (S.faults (store_of self.old)) (S.faults (store_of self.new))) }
    {
        let done = replace(&mut self.store, boot);
        self.boot = boot;
        if done.is_err() {
            self.failures = self.failures.saturating_add(1);
            return Err(CellFault);
        }
        Ok(())
    }

    fn failures(&self) -> u64 {
        self.failures
    }
}
