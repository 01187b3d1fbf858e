//! A log in memory.
ghost use Rattle.std.specs.Prelude.{◌≡◌, ◌↔◌, ◌==◌, ◌-◌, if◌then◌else◌, Some, None, IsErr, length};

use crate::log::{Log, LogFault};

/// A log in memory, of which at most one call fails.
#[derive(Drop)]
pub struct MemLog {
    bytes: Vec<u8>,
    synced: usize,
    /// Where a call is left to fail, how many come before it.
    before_fault: Option<u64>,
}

impl MemLog {
    /// A log that holds these bytes, all of which outlive a power cut. The call of this number fails, counted from 1, and
    /// no other: at 0 none does.
    pub fn new(bytes: Vec<u8>, failing: u64) -> Self
        ensures bytes { result.bytes ≡ bytes }
        ensures synced { result.synced ≡ length bytes.items }
        ensures before_fault { result.before_fault
            ≡ (if failing == 0 then None else Some (failing - 1)) }
    {
        let synced = bytes.len();
        MemLog {
            bytes,
            synced,
            before_fault: failing.checked_sub(1),
        }
    }

    /// What it holds.
    pub fn bytes(&self) -> &[u8]
        ensures { result.now ≡ self.now.bytes.items }
    {
        self.bytes.as_slice()
    }

    /// How many of its first bytes outlive a power cut.
    pub fn synced_length(&self) -> usize
        ensures { result ≡ self.now.synced }
    {
        self.synced
    }

    /// Begins a call, and fails where it is its turn.
    fn pass(&mut self) -> Result<(), LogFault>
        ensures bytes { self.new.bytes ≡ self.old.bytes }
        ensures synced { self.new.synced ≡ self.old.synced }
        ensures turn { IsErr result ↔ (self.old.before_fault ≡ Some 0) }
    {
        match self.before_fault {
            Some(0) => {
                self.before_fault = None;
                Err(LogFault::Failed)
            }
            Some(left) => {
                self.before_fault = Some(left - 1);
                Ok(())
            }
            None => Ok(()),
        }
    }
}

impl Log for MemLog {
    ghost seen = { λ log. Some log.bytes.items };

    ghost synced = { λ log. log.synced };

    fn append(&mut self, bytes: &[u8]) -> Result<(), LogFault> {
        self.pass()?;
        if self.bytes.extend_from_slice(bytes).is_err() {
            return Err(LogFault::Full);
        }
        Ok(())
    }

    fn sync(&mut self) -> Result<(), LogFault> {
        self.pass()?;
        self.synced = self.synced.max(self.bytes.len());
        Ok(())
    }
}
