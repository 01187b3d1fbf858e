//! Why bytes are no journal, and why an event has no record.

use pvp_wire::WireFault;
use std::alloc::AllocError;
use std::fmt;

/// What is wrong with bytes that should be a journal.
#[derive(Clone, Copy, Debug, PartialEq, Eq)]
pub enum JournalWhy {
    /// M1: they do not begin with the letters PVPJ.
    Magic,
    /// M2: the version is neither 1 nor 2.
    Version,
    /// M3: the head is cut off, or the flag of its opening is not 0 or 1.
    Head,
    /// M4: a record's length does not have its complement behind it.
    Length,
    /// M5: a record is whole by its length and has another checksum.
    Checksum,
    /// M6: a record has its checksum, but says nothing that an actor may do: this is wrong in it.
    Record(WireFault),
    /// M7: memory was refused for a whole record.
    NoMemory,
}

/// Why bytes are no journal, and at which byte begins what is wrong: the head, at byte 0, or a record.
#[derive(Clone, Copy, Debug, PartialEq, Eq)]
pub struct JournalFault {
    pub why: JournalWhy,
    pub at: usize,
}

/// Why an event has no record.
#[derive(Clone, Copy, Debug, PartialEq, Eq)]
pub enum WriteFault {
    /// M8: it cannot be journaled. What was delivered has no spelling or no stamp, another event has one, or
    /// the record would have more than 4,294,967,295 bytes.
    Unfit,
    /// M9: memory was refused.
    NoMemory,
}

/// Why a journal is not one of a bank's.
#[derive(Clone, Copy, Debug, PartialEq, Eq)]
pub enum EvidenceWhy {
    /// V1: it is of a bank whose setup has another text.
    Setup,
    /// V2: it is of another life of the bank than a journal before it.
    Life,
    /// V3: the bank has no such actor, or it is a site's that opened over no cell, or another's over one.
    Stranger,
    /// V4: a journal before it is the same actor's.
    Twice,
    /// V5: no journal is the actor's.
    Missing,
}

/// Why a journal was not put where it should stand.
#[derive(Clone, Copy, Debug, PartialEq, Eq)]
pub enum ShelfFault {
    /// V6: there is no room left on the device.
    Full,
    /// V7: the folder or the file could not be made or written.
    Failed,
    /// V8: there are files already where new ones are to be put, and they stay as they are.
    Present,
}

/// Writes the code as `M1` to `M7`.
impl fmt::Display for JournalWhy {
    ghost use Rattle.std.specs.Prelude.{Some};
    ghost use Rattle.pvp_journal.specs.Fault.{why_code};

    ghost output = { λ why. Some (why_code why) };

    fn fmt<W: fmt::Write>(&self, f: &mut fmt::Formatter<W>) -> fmt::Result {
        match self {
            JournalWhy::Magic => f.write_str("M1"),
            JournalWhy::Version => f.write_str("M2"),
            JournalWhy::Head => f.write_str("M3"),
            JournalWhy::Length => f.write_str("M4"),
            JournalWhy::Checksum => f.write_str("M5"),
            JournalWhy::Record(_) => f.write_str("M6"),
            JournalWhy::NoMemory => f.write_str("M7"),
        }
    }
}

/// Writes the code as `M8` or `M9`.
impl fmt::Display for WriteFault {
    ghost use Rattle.std.specs.Prelude.{Some};
    ghost use Rattle.pvp_journal.specs.Fault.{write_code};

    ghost output = { λ fault. Some (write_code fault) };

    fn fmt<W: fmt::Write>(&self, f: &mut fmt::Formatter<W>) -> fmt::Result {
        match self {
            WriteFault::Unfit => f.write_str("M8"),
            WriteFault::NoMemory => f.write_str("M9"),
        }
    }
}

/// Writes the code as `V1` to `V5`.
impl fmt::Display for EvidenceWhy {
    ghost use Rattle.std.specs.Prelude.{Some};
    ghost use Rattle.pvp_journal.specs.Fault.{evidence_code};

    ghost output = { λ why. Some (evidence_code why) };

    fn fmt<W: fmt::Write>(&self, f: &mut fmt::Formatter<W>) -> fmt::Result {
        f.write_str(match self {
            EvidenceWhy::Setup => "V1",
            EvidenceWhy::Life => "V2",
            EvidenceWhy::Stranger => "V3",
            EvidenceWhy::Twice => "V4",
            EvidenceWhy::Missing => "V5",
        })
    }
}

/// Writes the code as `V6` to `V8`.
impl fmt::Display for ShelfFault {
    ghost use Rattle.std.specs.Prelude.{Some};
    ghost use Rattle.pvp_journal.specs.Fault.{shelf_code};

    ghost output = { λ fault. Some (shelf_code fault) };

    fn fmt<W: fmt::Write>(&self, f: &mut fmt::Formatter<W>) -> fmt::Result {
        f.write_str(match self {
            ShelfFault::Full => "V6",
            ShelfFault::Failed => "V7",
            ShelfFault::Present => "V8",
        })
    }
}

/// A refusal of memory is M9.
impl From<AllocError> for WriteFault {
    ghost use Rattle.std.specs.Prelude.{◌≡◌};
    ghost use Rattle.pvp_journal.specs.declared.fault.WriteFault.TheVariants.{NoMemory};

    ghost from_gives = { λ _ fault. fault ≡ NoMemory };

    fn from(_refused: AllocError) -> WriteFault {
        WriteFault::NoMemory
    }
}
