//! What keeps the text of a boot cell: one name, and a new file beside it that takes its place.
ghost use Rattle.std.specs.Prelude.{◌≡◌, ◌⊎◌, ℕ, Option, IfSome, IsSome, IfOk, OnOk, OnErr, IsOk, IsErrOf};
ghost use Rattle.std.specs.Option.{option_map};
ghost use Rattle.vr_types.specs.Cell.{HasRisen};
ghost use Rattle.pvp_cell.specs.Disk.{Disk, written, dropped, synced, renamed, settled, IsFound};

use crate::text::TEXT_SIZE;
use std::alloc::{AllocError, Global};

/// Why a call of a store fails.
#[derive(Clone, Copy, Debug, PartialEq, Eq)]
pub enum StoreFault {
    /// The system refused it.
    Failed,
    /// Memory was refused.
    NoMemory,
}

impl From<AllocError> for StoreFault {
    ghost use Rattle.pvp_cell.specs.declared.store.StoreFault.TheVariants.{NoMemory};

    ghost from_gives = { λ _ told. told ≡ NoMemory };

    fn from(_refused: AllocError) -> StoreFault {
        StoreFault::NoMemory
    }
}

/// A name on a disk, and a new file beside it, by the calls that an operating system has for them. Where the disk is known
/// the clauses say what each call does to it. Where it is not, that the calls do the same is trusted: a rename is one step,
/// bytes that were synced stay, and nobody else writes these files.
pub trait Store: Drop {
    /// The disk behind it, where it is known.
    ghost disk: { Self → Option Disk };

    /// How many calls have failed.
    ghost faults: { Self → ℕ };

    /// Holds of a store no call of which fails.
    ghost is_reliable: { Self → Type 0 };

    /// All bytes under the name; `None` where it has no file.
    fn read(&mut self, alloc: Global) -> Result<Option<Vec<u8>>, StoreFault>
        ensures found { IfOk result (λ found. IfSome (disk self.old)
            (λ disk. IsFound disk.shown found)) }
        ensures same { disk self.new ≡ disk self.old }
        ensures cause { IsErrOf result StoreFault.Failed →
            HasRisen (faults self.old) (faults self.new) }
        ensures count { OnOk result (faults self.new ≡ faults self.old) }
        ensures reliable { is_reliable self.old →
            ¬ (IsErrOf result StoreFault.Failed) × is_reliable self.new };

    /// Writes the new file, in place of one that was left there.
    fn write(&mut self, text: &[u8; TEXT_SIZE]) -> Result<(), StoreFault>
        ensures ok { OnOk result (disk self.new ≡ option_map (written text.now) (disk self.old)) }
        ensures err { OnErr result (disk self.new ≡ option_map dropped (disk self.old)) }
        ensures cause { OnErr result (HasRisen (faults self.old) (faults self.new)) }
        ensures count { OnOk result (faults self.new ≡ faults self.old) }
        ensures reliable { is_reliable self.old → IsOk result × is_reliable self.new };

    /// Waits until the bytes of the new file are on the disk. What a failed sync leaves of them is not known.
    fn sync_file(&mut self) -> Result<(), StoreFault>
        requires { IfSome (disk self.old) (λ disk. IsSome disk.staged) }
        ensures ok { OnOk result (disk self.new ≡ option_map synced (disk self.old)) }
        ensures err { OnErr result (disk self.new ≡ option_map dropped (disk self.old)) }
        ensures cause { OnErr result (HasRisen (faults self.old) (faults self.new)) }
        ensures count { OnOk result (faults self.new ≡ faults self.old) }
        ensures reliable { is_reliable self.old → IsOk result × is_reliable self.new };

    /// Gives the name to the new file. Whether the disk has that at once is open; it may even where the call fails.
    fn rename(&mut self) -> Result<(), StoreFault>
        requires { IfSome (disk self.old) (λ disk. IsSome disk.staged) }
        ensures ok { OnOk result ((disk self.new ≡ option_map renamed (disk self.old))
            ⊎ (disk self.new ≡ option_map (λ disk. settled (renamed disk)) (disk self.old))) }
        ensures err { OnErr result ((disk self.new ≡ disk self.old)
            ⊎ (disk self.new ≡ option_map renamed (disk self.old))
            ⊎ (disk self.new ≡ option_map (λ disk. settled (renamed disk)) (disk self.old))) }
        ensures cause { OnErr result (HasRisen (faults self.old) (faults self.new)) }
        ensures count { OnOk result (faults self.new ≡ faults self.old) }
        ensures reliable { is_reliable self.old → IsOk result × is_reliable self.new };

    /// Waits until the disk has under the name what is read there.
    fn sync_folder(&mut self) -> Result<(), StoreFault>
        ensures ok { OnOk result (disk self.new ≡ option_map settled (disk self.old)) }
        ensures err { OnErr result ((disk self.new ≡ disk self.old)
            ⊎ (disk self.new ≡ option_map settled (disk self.old))) }
        ensures cause { OnErr result (HasRisen (faults self.old) (faults self.new)) }
        ensures count { OnOk result (faults self.new ≡ faults self.old) }
        ensures reliable { is_reliable self.old → IsOk result × is_reliable self.new };
}
