//! A store in memory, which can be made to fail and to crash.
ghost use Rattle.std.specs.Prelude.{◌≡◌, ◌≤◌, ◌↔◌, Some, None, true, false, length, take, OnOk, OnErr, IsOk, IsErr, IsErrOf, if◌then◌else◌};
ghost use Rattle.vr_types.specs.Cell.{HasRisen};

use crate::store::{Store, StoreFault};
use crate::text::TEXT_SIZE;
use std::alloc::Global;

/// How many bytes a file of a store in memory may have.
pub const MOST_BYTES: usize = 16;

/// A file: the first bytes of an array, and whether the disk has them.
#[derive(Clone, Copy, Debug)]
struct StoredFile {
    bytes: [u8; MOST_BYTES],
    size: usize,
    is_synced: bool,
    ghost fits: { size ≤ 16 },
}

impl StoredFile {
    ghost use Rattle.pvp_cell.specs.Disk.{as_synced};
    ghost use Rattle.pvp_cell.specs.Memory.{file_of, landed};

    /// A file of these bytes, which the disk has or has not.
    fn of(bytes: &[u8], is_synced: bool) -> Self
        requires { length bytes.now ≤ MOST_BYTES }
        ensures { file_of result ≡ record { bytes = bytes.now; is_synced = is_synced } }
    {
        let mut page = [0; MOST_BYTES];
        page[..bytes.len()].copy_from_slice(bytes);
        StoredFile {
            bytes: page,
            size: bytes.len(),
            is_synced,
        }
    }

    /// The bytes.
    fn as_slice(&self) -> &[u8]
        ensures { result.now ≡ take self.now.size self.now.bytes }
    {
        &self.bytes[..self.size]
    }

    /// The same file, once the disk has it.
    fn synced(mut self) -> Self
        ensures { file_of result ≡ as_synced (file_of self) }
    {
        self.is_synced = true;
        self
    }

    /// What a crash leaves of it: one that was not synced is emptied.
    fn landed(mut self) -> Self
        ensures { file_of result ≡ landed (file_of self) }
    {
        if !self.is_synced {
            self.size = 0;
        }
        self.synced()
    }
}

/// How a call fails.
#[derive(Clone, Copy, Debug, PartialEq, Eq)]
enum Failing {
    /// It does what it would have done.
    Done,
    /// It does nothing.
    Undone,
}

/// A store in memory.
#[derive(Drop)]
pub struct MemStore {
    kept: Option<StoredFile>,
    shown: Option<StoredFile>,
    staged: Option<StoredFile>,
    /// Whether the disk has a rename only once the folder is synced.
    is_lazy: bool,
    /// Where a call is left to fail, how many come before it.
    before_fault: Option<u64>,
    /// Whether the call that fails is done all the same.
    takes: bool,
    failures: u64,
}

impl MemStore {
    ghost use Rattle.pvp_cell.specs.Disk.{renamed, settled};
    ghost use Rattle.pvp_cell.specs.Memory.{disk_of, store_faults, calls_before_fault, takes_at_fault, is_lazy, after_call, IsReliable, crashed};

    /// A store with nothing under its name, no call of which fails.
    pub fn new() -> Self
        ensures disk { disk_of result ≡ record { kept = None; shown = None; staged = None } }
        ensures reliable { IsReliable result }
        ensures faults { store_faults result ≡ 0 }
    {
        MemStore::holding(None)
    }

    /// A store with these bytes under its name, no call of which fails.
    pub fn of(bytes: &[u8]) -> Self
        requires { length bytes.now ≤ MOST_BYTES }
        ensures disk { let file = Some (record { bytes = bytes.now; is_synced = true }) in
            disk_of result ≡ record { kept = file; shown = file; staged = None } }
        ensures reliable { IsReliable result }
        ensures faults { store_faults result ≡ 0 }
    {
        MemStore::holding(Some(StoredFile::of(bytes, true)))
    }

    fn holding(file: Option<StoredFile>) -> Self
        ensures kept { result.kept ≡ file }
        ensures shown { result.shown ≡ file }
        ensures staged { result.staged ≡ None }
        ensures reliable { result.before_fault ≡ None }
        ensures faults { result.failures ≡ 0 }
    {
        MemStore {
            kept: file,
            shown: file,
            staged: None,
            is_lazy: false,
            before_fault: None,
            takes: false,
            failures: 0,
        }
    }

    /// Has the disk keep a rename only once the folder is synced, and not at once.
    pub fn be_lazy(&mut self)
        ensures lazy { is_lazy self.new ≡ true }
        ensures disk { disk_of self.new ≡ disk_of self.old }
        ensures reliable { IsReliable self.old → IsReliable self.new }
        ensures faults { store_faults self.new ≡ store_faults self.old }
    {
        self.is_lazy = true;
    }

    /// Has the call fail that comes after so many, and no other. It is done all the same where `takes`.
    pub fn fail_after(&mut self, calls: u64, takes: bool)
        ensures before_fault { calls_before_fault self.new ≡ Some calls }
        ensures takes { takes_at_fault self.new ≡ takes }
        ensures disk { disk_of self.new ≡ disk_of self.old }
        ensures faults { store_faults self.new ≡ store_faults self.old }
    {
        self.before_fault = Some(calls);
        self.takes = takes;
    }

    /// The store after a crash of the machine: it has what the disk had, and no call of it fails.
    pub fn crash(self) -> Self
        ensures disk { disk_of result ≡ crashed (disk_of self) }
        ensures reliable { IsReliable result }
    {
        MemStore::holding(self.kept.map(|file| file.landed()))
    }

    /// Whether the next call goes well; counts one that does not.
    fn turn(&mut self) -> Result<(), Failing>
        ensures fails { IsErr result ↔ (calls_before_fault self.old ≡ Some 0) }
        ensures takes { IsErrOf result Failing.Done → takes_at_fault self.old ≡ true }
        ensures takes_not { IsErrOf result Failing.Undone → takes_at_fault self.old ≡ false }
        ensures left { calls_before_fault self.new ≡ after_call (calls_before_fault self.old) }
        ensures kept { self.new.kept ≡ self.old.kept }
        ensures shown { self.new.shown ≡ self.old.shown }
        ensures staged { self.new.staged ≡ self.old.staged }
        ensures cause { OnErr result (HasRisen self.old.failures self.new.failures) }
        ensures count { OnOk result (self.new.failures ≡ self.old.failures) }
        ensures reliable { IsReliable self.old → IsOk result × IsReliable self.new }
    {
        match self.before_fault {
            None => Ok(()),
            Some(0) => {
                self.before_fault = None;
                self.failures = self.failures.saturating_add(1);
                Err(if self.takes {
                    Failing::Done
                } else {
                    Failing::Undone
                })
            }
            Some(left) => {
                self.before_fault = Some(left - 1);
                Ok(())
            }
        }
    }

    /// Gives the name to the new file.
    fn give_name(&mut self)
        ensures disk { let named = renamed (disk_of self.old) in
            disk_of self.new ≡ (if is_lazy self.old then named else settled named) }
        ensures reliable { self.new.before_fault ≡ self.old.before_fault }
        ensures faults { self.new.failures ≡ self.old.failures }
    {
        self.shown = self.staged;
        self.staged = None;
        if !self.is_lazy {
            self.kept = self.shown;
        }
    }
}

impl Store for MemStore {
    ghost use Rattle.pvp_cell.specs.Memory.{disk_of, store_faults, IsReliable};

    ghost disk = { λ store. Some (disk_of store) };

    ghost faults = { store_faults };

    ghost is_reliable = { IsReliable };

    fn read(&mut self, alloc: Global) -> Result<Option<Vec<u8>>, StoreFault> {
        if self.turn().is_err() {
            return Err(StoreFault::Failed);
        }
        match self.shown {
            None => Ok(None),
            Some(file) => Ok(Some(file.as_slice().to_vec(alloc)?)),
        }
    }

    fn write(&mut self, text: &[u8; TEXT_SIZE]) -> Result<(), StoreFault> {
        self.staged = None;
        if self.turn().is_err() {
            return Err(StoreFault::Failed);
        }
        self.staged = Some(StoredFile::of(text, false));
        Ok(())
    }

    fn sync_file(&mut self) -> Result<(), StoreFault> {
        let staged = self.staged.take();
        if self.turn().is_err() {
            return Err(StoreFault::Failed);
        }
        self.staged = staged.map(|file| file.synced());
        Ok(())
    }

    fn rename(&mut self) -> Result<(), StoreFault> {
        match self.turn() {
            Ok(()) => {
                self.give_name();
                Ok(())
            }
            Err(Failing::Done) => {
                self.give_name();
                Err(StoreFault::Failed)
            }
            Err(Failing::Undone) => Err(StoreFault::Failed),
        }
    }

    fn sync_folder(&mut self) -> Result<(), StoreFault> {
        match self.turn() {
            Ok(()) => {
                self.kept = self.shown;
                Ok(())
            }
            Err(Failing::Done) => {
                self.kept = self.shown;
                Err(StoreFault::Failed)
            }
            Err(Failing::Undone) => Err(StoreFault::Failed),
        }
    }
}
