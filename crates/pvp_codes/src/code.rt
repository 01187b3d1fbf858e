//! All codes that the program and its parts print.

ghost use Rattle.std.specs.Prelude.{◌≡◌};
ghost use Rattle.pvp_codes.specs.Codes.{audit_code as code_of_test};

use crate::meanings::{
    audit_meaning, cell_meaning, evidence_meaning, folder_meaning, journal_meaning, line_meaning,
    place_meaning, reason_meaning, record_meaning, seats_meaning, shelf_meaning, terminal_meaning,
    text_meaning, wire_meaning,
};
use pvp_cell::OpenFault;
use pvp_journal::{EvidenceWhy, JournalWhy, ShelfFault, WriteFault};
use pvp_places::{FolderWhy, PlaceWhy, TerminalWhy};
use pvp_rooms::AuditTest;
use pvp_text::{LineCode, TextFault};
use pvp_trace::meanings::meaning;
use pvp_types::Reason;
use pvp_wire::WireFault;
use pvp_world::WorldFault;
use std::fmt;

/// A code that the program or one of its parts prints.
#[derive(Clone, Copy, Debug, PartialEq, Eq)]
pub enum Code {
    /// J1, J2 and K1 to K9: of a setup.
    Setup(TextFault),
    /// L1 to L8: of a script's line.
    Line(LineCode),
    /// B1 to B11: of a command that the book refuses.
    Refusal(Reason),
    /// G1 to G5, S1 to S7, N1 to N7 and C1: of a step that is not taken.
    Step(WorldFault),
    /// A1 to A6: of a test of the audit.
    Audit(AuditTest),
    /// F1 to F7: of bytes that are no frame.
    Frame(WireFault),
    /// E1: of a live run whose actors cannot be audited.
    Seats,
    /// M1 to M7: of bytes that are no journal.
    Journal(JournalWhy),
    /// M8 and M9: of an event that has no record.
    Record(WriteFault),
    /// U1 to U6: of a boot cell that is not opened or not made.
    Cell(OpenFault),
    /// V1 to V5: of journals that are not those of one bank.
    Evidence(EvidenceWhy),
    /// V6 to V8: of a journal that is not put where it should stand.
    Shelf(ShelfFault),
    /// Q1 to Q6: of a line of a peers file or a keys file.
    Place(PlaceWhy),
    /// X1 to X9, and X12: of an actor or its folder that no process can serve.
    Folder(FolderWhy),
    /// X10 and X11: of what a terminal asks for.
    Terminal(TerminalWhy),
}

impl Code {
    ghost use Rattle.pvp_codes.specs.Codes.{meaning as meaning_of};

    /// What the code means.
    pub fn meaning(self) -> &'static str
        ensures { result.now ≡ meaning_of self }
    {
        match self {
            Code::Setup(fault) => text_meaning(fault),
            Code::Line(code) => line_meaning(code),
            Code::Refusal(why) => reason_meaning(why),
            Code::Step(fault) => meaning(fault),
            Code::Audit(why) => audit_meaning(why),
            Code::Frame(fault) => wire_meaning(fault),
            Code::Seats => seats_meaning(),
            Code::Journal(why) => journal_meaning(why),
            Code::Record(fault) => record_meaning(fault),
            Code::Cell(fault) => cell_meaning(fault),
            Code::Evidence(why) => evidence_meaning(why),
            Code::Shelf(fault) => shelf_meaning(fault),
            Code::Place(why) => place_meaning(why),
            Code::Folder(why) => folder_meaning(why),
            Code::Terminal(why) => terminal_meaning(why),
        }
    }
}

/// Prints the code, as `K3`.
impl fmt::Display for Code {
    ghost use Rattle.std.specs.Prelude.{Some};
    ghost use Rattle.pvp_codes.specs.Codes.{code_text};

    ghost output = { λ code. Some (code_text code) };

    fn fmt<W: fmt::Write>(&self, f: &mut fmt::Formatter<W>) -> fmt::Result {
        match self {
            Code::Setup(TextFault::NotJson) => f.write_str("J1"),
            Code::Setup(TextFault::BadMember) => f.write_str("J2"),
            Code::Setup(TextFault::NoMemory) => f.write_str("J3"),
            Code::Setup(TextFault::BadSetup(rule)) => write!(f, "{rule}"),
            Code::Line(code) => write!(f, "{code}"),
            Code::Refusal(why) => write!(f, "{why}"),
            Code::Step(fault) => write!(f, "{fault}"),
            Code::Audit(why) => f.write_str(audit_code(*why)),
            Code::Frame(fault) => write!(f, "{fault}"),
            Code::Seats => f.write_str("E1"),
            Code::Journal(why) => write!(f, "{why}"),
            Code::Record(fault) => write!(f, "{fault}"),
            Code::Cell(fault) => write!(f, "{fault}"),
            Code::Evidence(why) => write!(f, "{why}"),
            Code::Shelf(fault) => write!(f, "{fault}"),
            Code::Place(why) => write!(f, "{why}"),
            Code::Folder(why) => write!(f, "{why}"),
            Code::Terminal(why) => write!(f, "{why}"),
        }
    }
}

/// The code of a test of the audit.
fn audit_code(why: AuditTest) -> &'static str
    ensures { result.now ≡ code_of_test why }
{
    match why {
        AuditTest::Stamped => "A1",
        AuditTest::Clock => "A2",
        AuditTest::Answered => "A3",
        AuditTest::End => "A4",
        AuditTest::Receipts => "A5",
        AuditTest::NoMemory => "A6",
    }
}
