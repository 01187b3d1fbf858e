//! What is wrong with a file of a process's configuration.
ghost use Rattle.std.specs.Prelude.{◌≡◌};
ghost use Rattle.pvp_places.specs.Reading.{fault_at};

use std::alloc::{AllocError, AllocFailed};
use std::fmt;

/// Why a line of a peers file or of a keys file is refused, or which line is missing.
#[derive(Clone, Copy, Debug, PartialEq, Eq)]
pub enum PlaceWhy {
    /// Q1: a line is not two words with spaces between them.
    Form,
    /// Q2: the bank has no actor of this name that could stand there.
    Name,
    /// Q3: an address is not `HOST:PORT`.
    Address,
    /// Q4: a key is not 64 digits of 0 to 9, and a to f or A to F.
    Key,
    /// Q5: a name stands a second time.
    Twice,
    /// Q6: a name is missing that has to stand there.
    Missing,
}

/// Writes the code as `Q1` to `Q6`.
impl fmt::Display for PlaceWhy {
    ghost use Rattle.std.specs.Prelude.{Some};
    ghost use Rattle.pvp_places.specs.Fault.{place_code};

    ghost output = { λ why. Some (place_code why) };

    fn fmt<W: fmt::Write>(&self, f: &mut fmt::Formatter<W>) -> fmt::Result {
        f.write_str(match self {
            PlaceWhy::Form => "Q1",
            PlaceWhy::Name => "Q2",
            PlaceWhy::Address => "Q3",
            PlaceWhy::Key => "Q4",
            PlaceWhy::Twice => "Q5",
            PlaceWhy::Missing => "Q6",
        })
    }
}

/// Why a line of such a file was not read.
#[derive(Clone, Copy, Debug, PartialEq, Eq)]
pub enum LineFault {
    /// Q1 to Q5: it is wrong.
    Wrong(PlaceWhy),
    NoMemory,
}

impl LineFault {
    /// The same fault of the file, in the line of this number.
    pub fn at(self, line: usize) -> PlaceFault
        ensures { result ≡ fault_at line self }
    {
        match self {
            LineFault::Wrong(why) => PlaceFault::Line { line, why },
            LineFault::NoMemory => PlaceFault::NoMemory,
        }
    }
}

impl From<PlaceWhy> for LineFault {
    ghost use Rattle.std.specs.Prelude.{◌≡◌};
    ghost use Rattle.pvp_places.specs.declared.fault.LineFault.TheVariants.{Wrong};

    ghost from_gives = { λ why told. told ≡ Wrong why };

    fn from(why: PlaceWhy) -> LineFault {
        LineFault::Wrong(why)
    }
}

impl From<AllocError> for LineFault {
    ghost use Rattle.std.specs.Prelude.{◌≡◌};
    ghost use Rattle.pvp_places.specs.declared.fault.LineFault.TheVariants.{NoMemory};

    ghost from_gives = { λ _ told. told ≡ NoMemory };

    fn from(_refused: AllocError) -> LineFault {
        LineFault::NoMemory
    }
}

impl<T: Drop> From<AllocFailed<T>> for LineFault {
    ghost use Rattle.std.specs.Prelude.{◌≡◌};
    ghost use Rattle.pvp_places.specs.declared.fault.LineFault.TheVariants.{NoMemory};

    ghost from_gives = { λ _ told. told ≡ NoMemory };

    fn from(_refused: AllocFailed<T>) -> LineFault {
        LineFault::NoMemory
    }
}

/// Why such a file was not read.
#[derive(Clone, Copy, Debug, PartialEq, Eq)]
pub enum PlaceFault {
    /// Q1 to Q5: the line of this number, counted from 1, is wrong.
    Line { line: usize, why: PlaceWhy },
    /// Q6: no line is this actor's.
    Missing(u16),
    NoMemory,
}

/// Why an actor or its folder is none that a process can serve.
#[derive(Clone, Copy, Debug, PartialEq, Eq)]
pub enum FolderWhy {
    /// X1: the bank has no such actor.
    Actor,
    /// X2: the folder cannot be made, or a file there not be read or written.
    Failed,
    /// X3: another process serves the folder.
    Locked,
    /// X4: of a node's or a client's journal an end may be lost, and it cannot recover from others.
    Unsynced,
    /// X5: the boot cell does not fit the journal.
    Cell,
    /// X6: no actor can have taken what the journal says.
    History,
    /// X7: the site would listen beyond this machine without keys.
    Open,
    /// X8: the folder does not have what `begin` leaves there, so no actor can be served from it.
    Unbegun,
    /// X9: an actor was begun in the folder before.
    Begun,
    /// X12: the window would open beyond this machine.
    Window,
}

/// Writes the code as `X1` to `X9`, and `X12`.
impl fmt::Display for FolderWhy {
    ghost use Rattle.std.specs.Prelude.{Some};
    ghost use Rattle.pvp_places.specs.Fault.{folder_code};

    ghost output = { λ why. Some (folder_code why) };

    fn fmt<W: fmt::Write>(&self, f: &mut fmt::Formatter<W>) -> fmt::Result {
        f.write_str(match self {
            FolderWhy::Actor => "X1",
            FolderWhy::Failed => "X2",
            FolderWhy::Locked => "X3",
            FolderWhy::Unsynced => "X4",
            FolderWhy::Cell => "X5",
            FolderWhy::History => "X6",
            FolderWhy::Open => "X7",
            FolderWhy::Unbegun => "X8",
            FolderWhy::Begun => "X9",
            FolderWhy::Window => "X12",
        })
    }
}

/// Why a terminal does not ask its actor for what a line asks.
#[derive(Clone, Copy, Debug, PartialEq, Eq)]
pub enum TerminalWhy {
    /// X10: the client has used up its share of the log's rows.
    Share,
    /// X11: the rows that the log has left are for what lets money out.
    Full,
}

/// Writes the code as `X10` or `X11`.
impl fmt::Display for TerminalWhy {
    ghost use Rattle.std.specs.Prelude.{Some};
    ghost use Rattle.pvp_places.specs.Fault.{terminal_code};

    ghost output = { λ why. Some (terminal_code why) };

    fn fmt<W: fmt::Write>(&self, f: &mut fmt::Formatter<W>) -> fmt::Result {
        f.write_str(match self {
            TerminalWhy::Share => "X10",
            TerminalWhy::Full => "X11",
        })
    }
}
