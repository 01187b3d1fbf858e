//! A store that is cut off.
ghost use Rattle.std.specs.Prelude.{◌≡◌, ◌+◌, true, false, OnOk, OnErr};
ghost use Rattle.std.specs.Bool.{OnTrue, OnFalse};
ghost use Rattle.vr_types.specs.Cell.{HasRisen};

use crate::store::{Store, StoreFault};
use crate::text::TEXT_SIZE;
use std::alloc::Global;

/// A store of which so many calls are made, and no more: each later one is refused and does nothing, as if whoever makes
/// them had been killed.
#[derive(Drop)]
pub struct CutStore<S: Drop> {
    inner: S,
    left: u64,
    /// Whether a write or a sync of the new file was refused, so that nothing may be known of that.
    has_dropped: bool,
    failures: u64,
    ghost cut: { has_dropped ≡ true → left ≡ 0 },
}

impl<S: Store> CutStore<S> {
    ghost use Rattle.pvp_cell.specs.Cut.{inner_of, calls_left, cut_disk};

    /// A store that is cut off after so many calls.
    pub fn new(inner: S, calls: u64) -> Self
        ensures inner { inner_of result ≡ inner }
        ensures left { calls_left result ≡ calls }
        ensures disk { cut_disk S.disk result ≡ S.disk inner }
    {
        CutStore {
            inner,
            left: calls,
            has_dropped: false,
            failures: 0,
        }
    }

    /// The store, as the calls left it.
    pub fn into_inner(self) -> S
        ensures { result ≡ inner_of self }
    {
        self.inner
    }

    /// Whether the next call is made; counts one that is refused.
    fn goes_on(&mut self) -> bool
        ensures inner { self.new.inner ≡ self.old.inner }
        ensures dropped { self.new.has_dropped ≡ self.old.has_dropped }
        ensures going { OnTrue result ((self.old.left ≡ self.new.left + 1)
            × (self.new.has_dropped ≡ false)) }
        ensures over { OnFalse result ((self.old.left ≡ 0) × (self.new.left ≡ 0)) }
        ensures count { OnTrue result (self.new.failures ≡ self.old.failures) }
        ensures cause { OnFalse result (HasRisen self.old.failures self.new.failures) }
    {
        if self.left == 0 {
            self.failures = self.failures.saturating_add(1);
            return false;
        }
        self.left -= 1;
        true
    }

    /// Counts a call that failed.
    fn count<T: Drop>(&mut self, done: Result<T, StoreFault>) -> Result<T, StoreFault>
        ensures same { result ≡ done }
        ensures inner { self.new.inner ≡ self.old.inner }
        ensures dropped { self.new.has_dropped ≡ self.old.has_dropped }
        ensures count { OnOk result (self.new.failures ≡ self.old.failures) }
        ensures cause { OnErr result (HasRisen self.old.failures self.new.failures) }
    {
        if done.is_err() {
            self.failures = self.failures.saturating_add(1);
        }
        done
    }
}

impl<S: Store> Store for CutStore<S> {
    ghost use Rattle.pvp_cell.specs.Cut.{cut_disk, cut_faults};

    ghost disk = { cut_disk S.disk };

    ghost faults = { cut_faults };

    ghost is_reliable = { λ _. ⊥ };

    fn read(&mut self, alloc: Global) -> Result<Option<Vec<u8>>, StoreFault> {
        if !self.goes_on() {
            return Err(StoreFault::Failed);
        }
        let done = self.inner.read(alloc);
        self.count(done)
    }

    fn write(&mut self, text: &[u8; TEXT_SIZE]) -> Result<(), StoreFault> {
        if !self.goes_on() {
            self.has_dropped = true;
            return Err(StoreFault::Failed);
        }
        let done = self.inner.write(text);
        self.count(done)
    }

    fn sync_file(&mut self) -> Result<(), StoreFault> {
        if !self.goes_on() {
            self.has_dropped = true;
            return Err(StoreFault::Failed);
        }
        let done = self.inner.sync_file();
        self.count(done)
    }

    fn rename(&mut self) -> Result<(), StoreFault> {
        if !self.goes_on() {
            return Err(StoreFault::Failed);
        }
        let done = self.inner.rename();
        self.count(done)
    }

    fn sync_folder(&mut self) -> Result<(), StoreFault> {
        if !self.goes_on() {
            return Err(StoreFault::Failed);
        }
        let done = self.inner.sync_folder();
        self.count(done)
    }
}
