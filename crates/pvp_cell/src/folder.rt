//! A store that is a folder of the machine.
ghost use Rattle.std.specs.Prelude.{◌≡◌, OnOk, OnErr};
ghost use Rattle.vr_types.specs.Cell.{HasRisen};

use crate::store::{Store, StoreFault};
use crate::text::TEXT_SIZE;
use std::alloc::Global;
use std::fs::{self, OpenFile, OpenOptions};
use std::io::{self, ErrorKind, Read, Write};
use std::rt::Files;

/// The most bytes that are read of a file. No cell has so many, so of a longer file one more is enough.
const MOST_BYTES: u64 = 4096;

/// The files `cell` and `cell.new` of a folder. No contract knows the disk of a machine: that it does what the calls of
/// `Store` say of one that is known is trusted.
#[derive(Drop)]
pub struct DirStore<R: Files + Drop> {
    rt: R,
    folder: String,
    name: String,
    new_name: String,
    /// The new file, between the write and the sync.
    staged: Option<R::File>,
    failures: u64,
}

impl<R: Files + Drop> DirStore<R> {
    /// The store of a folder that is there.
    pub fn new(rt: R, alloc: Global, folder: &str) -> Result<Self, StoreFault> {
        Ok(DirStore {
            rt,
            folder: String::from_str(alloc, folder)?,
            name: format!(in alloc; "{folder}/cell")?,
            new_name: format!(in alloc; "{folder}/cell.new")?,
            staged: None,
            failures: 0,
        })
    }

    /// Counts a call that failed.
    fn count<T: Drop>(&mut self, done: io::Result<T>) -> Result<T, StoreFault>
        ensures cause { OnErr result (HasRisen self.old.failures self.new.failures) }
        ensures count { OnOk result (self.new.failures ≡ self.old.failures) }
    {
        match done {
            Ok(value) => Ok(value),
            Err(fault) => {
                self.failures = self.failures.saturating_add(1);
                Err(match fault.kind() {
                    ErrorKind::OutOfMemory => StoreFault::NoMemory,
                    _ => StoreFault::Failed,
                })
            }
        }
    }
}

/// The bytes of a file; `None` where there is none.
fn read_file<R: Files>(rt: &R, alloc: Global, name: &str) -> io::Result<Option<Vec<u8>>> {
    let file = match fs::open(rt, name) {
        Ok(file) => file,
        Err(fault) if fault.kind() == ErrorKind::NotFound => return Ok(None),
        Err(fault) => return Err(fault),
    };
    let mut bytes = Vec::new(alloc);
    file.take(MOST_BYTES + 1).read_to_end(&mut bytes)?;
    Ok(Some(bytes))
}

/// Writes a file anew, and leaves it open.
fn write_file<R: Files>(rt: &R, name: &str, text: &[u8]) -> io::Result<R::File> {
    let mut file = fs::create(rt, name)?;
    file.write_all(text)?;
    Ok(file)
}

/// Syncs the file that was written.
fn sync_staged<F: OpenFile + Drop>(staged: Option<F>) -> io::Result<()> {
    match staged {
        Some(file) => file.sync_all(),
        None => Err(io::Error::from(ErrorKind::NotFound)),
    }
}

/// Syncs a folder.
fn sync_folder_of<R: Files>(rt: &R, folder: &str) -> io::Result<()> {
    fs::open(rt, folder)?.sync_all()
}

impl<R: Files + Drop> Store for DirStore<R> {
    ghost use Rattle.std.specs.Prelude.{None};

    ghost disk = { λ _. None };

    ghost faults = { λ store. store.failures };

    ghost is_reliable = { λ _. ⊥ };

    fn read(&mut self, alloc: Global) -> Result<Option<Vec<u8>>, StoreFault> {
        let found = read_file(&self.rt, alloc, self.name.as_str());
        self.count(found)
    }

    fn write(&mut self, text: &[u8; TEXT_SIZE]) -> Result<(), StoreFault> {
        self.staged = None;
        let file = write_file(&self.rt, self.new_name.as_str(), text);
        self.staged = Some(self.count(file)?);
        Ok(())
    }

    fn sync_file(&mut self) -> Result<(), StoreFault> {
        let done = sync_staged(self.staged.take());
        self.count(done)
    }

    fn rename(&mut self) -> Result<(), StoreFault> {
        let done = fs::rename(&self.rt, self.new_name.as_str(), self.name.as_str());
        self.count(done)
    }

    fn sync_folder(&mut self) -> Result<(), StoreFault> {
        let done = sync_folder_of(&self.rt, self.folder.as_str());
        self.count(done)
    }
}
