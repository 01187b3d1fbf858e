//! Why a process of the bank does not serve, or no longer.

use crate::fault::{FolderWhy, PlaceFault, PlaceWhy};
use pvp_cell::{OpenFault, StoreFault};
use pvp_journal::{EvidenceWhy, JournalFault, JournalWhy, ShelfFault, WriteFault};
use pvp_text::TextFault;
use std::alloc::{AllocError, AllocFailed};
use std::fmt;

/// A file that a process reads.
#[derive(Clone, Copy, Debug, PartialEq, Eq)]
pub enum Paper {
    Setup,
    Peers,
    Keys,
    Journal,
}

/// Why a process does not serve, printed as the line that reports it.
#[derive(Clone, Copy, Debug, PartialEq, Eq)]
pub enum ServeFault {
    /// The setup is no JSON, or breaks a rule.
    Setup(TextFault),
    /// A file could not be read.
    File(Paper),
    /// Q1 to Q5: this line of a peers file or a keys file is wrong.
    Line {
        paper: Paper,
        line: usize,
        why: PlaceWhy,
    },
    /// Q6: there no line is this actor's.
    Missing {
        paper: Paper,
        actor: u16,
    },
    /// X1 to X9, and X12: the actor or its folder is none that can be served.
    Folder(FolderWhy),
    /// M1 to M6: its journal is damaged where the head or record at this byte begins.
    Journal {
        why: JournalWhy,
        at: usize,
    },
    /// V1 to V3: its journal is of another bank or another actor.
    Other(EvidenceWhy),
    /// U1 to U5: its boot cell.
    Cell(OpenFault),
    /// V6 and V7: its journal cannot be written on.
    Log(ShelfFault),
    /// M8: what it took has no text.
    Unfit,
    /// There is no listener to be had at its address, or no thread.
    Net,
    /// Its standard output failed, so an answer is still owed.
    Output,
    /// There is no greater clock.
    Clock,
    NoMemory,
}

impl fmt::Display for ServeFault {
    ghost use Rattle.std.specs.Prelude.{Some};
    ghost use Rattle.pvp_places.specs.Serving.{fault_line};

    ghost output = { λ fault. Some (fault_line fault) };

    fn fmt<W: fmt::Write>(&self, f: &mut fmt::Formatter<W>) -> fmt::Result {
        match self {
            ServeFault::Setup(fault) => write!(f, "fault {fault}"),
            ServeFault::File(_) => f.write_str("fault file"),
            ServeFault::Line { line, why, .. } => write!(f, "fault line {line} {why}"),
            ServeFault::Missing { actor, .. } => write!(f, "fault actor {actor} Q6"),
            ServeFault::Folder(why) => write!(f, "fault data {why}"),
            ServeFault::Journal { why, at } => write!(f, "fault journal 1 {why} {at}"),
            ServeFault::Other(why) => write!(f, "fault journal 1 {why}"),
            ServeFault::Cell(fault) => write!(f, "fault cell {fault}"),
            ServeFault::Log(fault) => write!(f, "fault journals {fault}"),
            ServeFault::Unfit => f.write_str("fault journals M8"),
            ServeFault::Net => f.write_str("fault net"),
            ServeFault::Output => f.write_str("fault output"),
            ServeFault::Clock => f.write_str("fault clock"),
            ServeFault::NoMemory => f.write_str("fault memory"),
        }
    }
}

impl From<AllocError> for ServeFault {
    fn from(_refused: AllocError) -> ServeFault {
        ServeFault::NoMemory
    }
}

impl<T: Drop> From<AllocFailed<T>> for ServeFault {
    fn from(_refused: AllocFailed<T>) -> ServeFault {
        ServeFault::NoMemory
    }
}

impl From<TextFault> for ServeFault {
    fn from(fault: TextFault) -> ServeFault {
        match fault {
            TextFault::NoMemory => ServeFault::NoMemory,
            fault => ServeFault::Setup(fault),
        }
    }
}

impl From<JournalFault> for ServeFault {
    fn from(fault: JournalFault) -> ServeFault {
        match fault.why {
            JournalWhy::NoMemory => ServeFault::NoMemory,
            why => ServeFault::Journal { why, at: fault.at },
        }
    }
}

impl From<WriteFault> for ServeFault {
    ghost use Rattle.std.specs.Prelude.{◌≡◌};
    ghost use Rattle.pvp_places.specs.Told.{write_told};

    ghost from_gives = { λ fault told. told ≡ write_told fault };

    fn from(fault: WriteFault) -> ServeFault {
        match fault {
            WriteFault::Unfit => ServeFault::Unfit,
            WriteFault::NoMemory => ServeFault::NoMemory,
        }
    }
}

impl From<OpenFault> for ServeFault {
    fn from(fault: OpenFault) -> ServeFault {
        match fault {
            OpenFault::NoMemory => ServeFault::NoMemory,
            fault => ServeFault::Cell(fault),
        }
    }
}

impl From<StoreFault> for ServeFault {
    fn from(fault: StoreFault) -> ServeFault {
        match fault {
            StoreFault::NoMemory => ServeFault::NoMemory,
            StoreFault::Failed => ServeFault::Cell(OpenFault::Store),
        }
    }
}

impl From<FolderWhy> for ServeFault {
    fn from(why: FolderWhy) -> ServeFault {
        ServeFault::Folder(why)
    }
}

impl ServeFault {
    /// Why a peers file or a keys file was not read.
    pub fn of_place(paper: Paper, fault: PlaceFault) -> Self {
        match fault {
            PlaceFault::Line { line, why } => ServeFault::Line { paper, line, why },
            PlaceFault::Missing(actor) => ServeFault::Missing { paper, actor },
            PlaceFault::NoMemory => ServeFault::NoMemory,
        }
    }
}
