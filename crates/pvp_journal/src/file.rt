//! A log that is a file of the machine.
ghost use Rattle.std.specs.Prelude.{◌≡◌, None};

use crate::log::{Log, LogFault};
use std::fs::OpenFile;
use std::io::{self, ErrorKind, Write};

/// A file, open for appending. No contract knows what a machine's file holds: that appends and syncs do what the calls
/// of `Log` say of a log that is known is trusted.
#[derive(Drop)]
pub struct FileLog<F> {
    file: F,
}

impl<F> FileLog<F> {
    /// The log of a file that was opened for appending.
    pub fn new(file: F) -> Self
        ensures { result.file ≡ file }
    {
        FileLog { file }
    }
}

/// Why a call of a file failed.
fn fault_of(fault: io::Error) -> LogFault {
    match fault.kind() {
        ErrorKind::StorageFull => LogFault::Full,
        _ => LogFault::Failed,
    }
}

impl<F: OpenFile + Write + Drop> Log for FileLog<F> {
    ghost seen = { λ _. None };

    ghost synced = { λ _. 0 };

    fn append(&mut self, bytes: &[u8]) -> Result<(), LogFault> {
        match self.file.write_all(bytes) {
            Ok(()) => Ok(()),
            Err(fault) => Err(fault_of(fault)),
        }
    }

    fn sync(&mut self) -> Result<(), LogFault> {
        match self.file.sync_data() {
            Ok(()) => Ok(()),
            Err(fault) => Err(fault_of(fault)),
        }
    }
}
