//! What ends a run of the program, as it is reported on standard error.

use crate::files::{FileFault, Source, Unread};
use pvp_audit::{EvidenceFault, PutFault};
use pvp_journal::{EvidenceWhy, JournalFault, JournalWhy, ShelfFault};
use pvp_live::LiveFault;
use pvp_text::{LineCode, RunFault, TextFault};
use std::alloc::{AllocError, AllocFailed};
use thiserror::Error;

/// Why a run ended, printed as the line that reports it.
#[derive(Clone, Copy, Debug, PartialEq, Eq, Error)]
pub enum Fault {
    /// The setup is no JSON, or breaks a rule.
    #[error("fault {0}")]
    Setup(TextFault),
    /// A line of the script is faulty.
    #[error("fault line {line} {code}")]
    Line {
        line: u32,
        code: LineCode,
    },
    /// A save is to fail of a site that the setup lacks.
    #[error("error: the setup has no site {0}, of which a save is to fail")]
    NoSuchSite(u16),
    /// A name of `--only`, counted from 1, is no actor's of the setup.
    #[error("error: name {0} of `--only` is no actor of the setup")]
    NotToShow(usize),
    /// A name of `--hide`, counted from 1, is no actor's of the setup.
    #[error("error: name {0} of `--hide` is no actor of the setup")]
    NotToHide(usize),
    /// A file could not be read, and why.
    #[error("fault file")]
    File(Source, Unread),
    /// Standard output could not be written.
    #[error("fault output")]
    Output,
    /// The connections of a live run could not be made.
    #[error("fault net")]
    Net,
    /// E1: a live run lost a seat, or a site of it had not begun with a new cell.
    #[error("fault E1")]
    Seats,
    /// M1 to M6: the journal at a place, counted from 1, is damaged or none, where the head or record at this byte begins.
    #[error("fault journal {place} {why} {at}")]
    Journal {
        place: usize,
        why: JournalWhy,
        at: usize,
    },
    /// V1 to V4: the journal at a place, counted from 1, is not one of the bank's.
    #[error("fault journal {place} {why}")]
    Evidence {
        place: usize,
        why: EvidenceWhy,
    },
    /// V5: no journal is this actor's.
    #[error("fault actor {0} V5")]
    Missing(u16),
    /// V6 to V8: the journals of a live run could not be put into their folder.
    #[error("fault journals {0}")]
    Shelf(ShelfFault),
    /// M8: what an actor took has no text.
    #[error("fault journals M8")]
    Unfit,
    /// Memory was refused, in whichever part.
    #[error("fault memory")]
    NoMemory,
}

impl From<TextFault> for Fault {
    ghost use Rattle.std.specs.Prelude.{◌≡◌};
    ghost use Rattle.pvp_command.specs.Fault.{text_told};

    ghost from_gives = { λ fault told. told ≡ text_told fault };

    fn from(fault: TextFault) -> Fault {
        match fault {
            TextFault::NoMemory => Fault::NoMemory,
            _ => Fault::Setup(fault),
        }
    }
}

impl From<RunFault> for Fault {
    ghost use Rattle.std.specs.Prelude.{◌≡◌};
    ghost use Rattle.pvp_command.specs.Fault.{run_told};

    ghost from_gives = { λ fault told. told ≡ run_told fault };

    fn from(fault: RunFault) -> Fault {
        match fault {
            RunFault::Line(at) => Fault::Line {
                line: at.line,
                code: at.code,
            },
            RunFault::NoMemory => Fault::NoMemory,
            RunFault::Output => Fault::Output,
        }
    }
}

impl From<AllocError> for Fault {
    ghost use Rattle.std.specs.Prelude.{◌≡◌};
    ghost use Rattle.pvp_command.specs.declared.fault.Fault.TheVariants.{NoMemory};

    ghost from_gives = { λ _ told. told ≡ NoMemory };

    fn from(_refused: AllocError) -> Fault {
        Fault::NoMemory
    }
}

impl<T: Drop> From<AllocFailed<T>> for Fault {
    ghost use Rattle.std.specs.Prelude.{◌≡◌};
    ghost use Rattle.pvp_command.specs.declared.fault.Fault.TheVariants.{NoMemory};

    ghost from_gives = { λ _ told. told ≡ NoMemory };

    fn from(_refused: AllocFailed<T>) -> Fault {
        Fault::NoMemory
    }
}

impl Fault {
    ghost use Rattle.std.specs.Prelude.{◌≡◌};
    ghost use Rattle.pvp_command.specs.Fault.{file_told};

    /// Why a file of a command was not read.
    pub fn of_file(source: Source, fault: FileFault) -> Self
        ensures { result ≡ file_told source fault }
    {
        match fault {
            FileFault::Unread(why) => Fault::File(source, why),
            FileFault::NoMemory => Fault::NoMemory,
        }
    }
}

impl Fault {
    ghost use Rattle.std.specs.Prelude.{◌≡◌};
    ghost use Rattle.pvp_command.specs.Fault.{journal_told};

    /// What is wrong with the bytes of the journal at a place.
    pub fn of_journal(place: usize, fault: JournalFault) -> Self
        ensures { result ≡ journal_told place fault }
    {
        match fault.why {
            JournalWhy::NoMemory => Fault::NoMemory,
            why => Fault::Journal {
                place,
                why,
                at: fault.at,
            },
        }
    }
}

impl From<EvidenceFault> for Fault {
    ghost use Rattle.std.specs.Prelude.{◌≡◌};
    ghost use Rattle.pvp_command.specs.Fault.{evidence_told};

    ghost from_gives = { λ fault told. told ≡ evidence_told fault };

    fn from(fault: EvidenceFault) -> Fault {
        match fault {
            EvidenceFault::Journal { place, why } => Fault::Evidence { place, why },
            EvidenceFault::Missing(actor) => Fault::Missing(actor),
            EvidenceFault::NoMemory => Fault::NoMemory,
        }
    }
}

impl From<PutFault> for Fault {
    ghost use Rattle.std.specs.Prelude.{◌≡◌};
    ghost use Rattle.pvp_command.specs.Fault.{put_told};

    ghost from_gives = { λ fault told. told ≡ put_told fault };

    fn from(fault: PutFault) -> Fault {
        match fault {
            PutFault::Shelf(fault) => Fault::Shelf(fault),
            PutFault::Unfit => Fault::Unfit,
            PutFault::NoMemory => Fault::NoMemory,
        }
    }
}

impl From<LiveFault> for Fault {
    ghost use Rattle.std.specs.Prelude.{◌≡◌};
    ghost use Rattle.pvp_command.specs.Fault.{live_told};

    ghost from_gives = { λ fault told. told ≡ live_told fault };

    fn from(fault: LiveFault) -> Fault {
        match fault {
            LiveFault::Net => Fault::Net,
            LiveFault::NoMemory => Fault::NoMemory,
            LiveFault::Seats => Fault::Seats,
        }
    }
}
