//! A device that only grows.
ghost use Rattle.std.specs.Prelude.{◌≡◌, ◌≤◌, ℕ, List, Option, OnOk};
ghost use Rattle.pvp_journal.specs.Log.{Appends, OutlivesAll};

/// Why a log did not take bytes, or did not sync them.
#[derive(Clone, Copy, Debug, PartialEq, Eq)]
pub enum LogFault {
    /// There is no room left on the device.
    Full,
    /// The device failed.
    Failed,
}

/// An append-only device, as a file that is never written twice. A kill of the process leaves all that the log has
/// taken. A power cut leaves a front of it, of at least what was synced.
pub trait Log: Drop {
    /// What a reader finds, where that is known.
    ghost seen: { Self → Option (List ℕ) };

    /// How many of its first bytes outlive a power cut.
    ghost synced: { Self → ℕ };

    /// Puts bytes at the end. After an `Err` a front of them may stand there.
    fn append(&mut self, bytes: &[u8]) -> Result<(), LogFault>
        ensures seen { Appends (seen self.old) bytes.now result (seen self.new) }
        ensures synced { synced self.old ≤ synced self.new };

    /// Has all that was taken outlive a power cut.
    fn sync(&mut self) -> Result<(), LogFault>
        ensures seen { seen self.new ≡ seen self.old }
        ensures synced { synced self.old ≤ synced self.new }
        ensures all { OnOk result (OutlivesAll (seen self.new) (synced self.new)) };
}
