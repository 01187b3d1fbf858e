//! The table of all codes, with what each means.

ghost use Rattle.std.specs.Prelude.{◌≡◌, ◌++◌, ◌⊎◌, Err, OnOk, IfErr, string_bytes};
ghost use Rattle.std.specs.Io.KnownBytes.{Appends};
ghost use Rattle.std.specs.List.{flat_map};
ghost use Rattle.pvp_text.specs.declared.book.RunFault.TheVariants.{NoMemory, Output};
ghost use Rattle.pvp_codes.specs.Codes.{code_line, codes_text};

use crate::code::Code;
use pvp_cell::OpenFault;
use pvp_journal::{EvidenceWhy, JournalWhy, ShelfFault, WriteFault};
use pvp_places::{FolderWhy, PlaceWhy, TerminalWhy};
use pvp_rooms::AuditTest;
use pvp_text::book::{RunFault, write_text};
use pvp_text::{LineCode, TextFault};
use pvp_types::{Reason, SetupFault};
use pvp_wire::WireFault;
use pvp_world::WorldFault;
use rtgs_node::NodeFault;
use std::alloc::{AllocError, Global};
use std::io::Write;
use vr_types::SiteFault;

/// All codes, in the order in which they are listed. M6 stands once, whatever is wrong in a record.
const CODES: [Code; 104] = [
    Code::Setup(TextFault::NotJson),
    Code::Setup(TextFault::BadMember),
    Code::Setup(TextFault::BadSetup(SetupFault::SiteCount)),
    Code::Setup(TextFault::BadSetup(SetupFault::CurrencyCount)),
    Code::Setup(TextFault::BadSetup(SetupFault::CurrencyCode)),
    Code::Setup(TextFault::BadSetup(SetupFault::Rate)),
    Code::Setup(TextFault::BadSetup(SetupFault::Haircut)),
    Code::Setup(TextFault::BadSetup(SetupFault::MemberCount)),
    Code::Setup(TextFault::BadSetup(SetupFault::MemberName)),
    Code::Setup(TextFault::BadSetup(SetupFault::ListLength)),
    Code::Setup(TextFault::BadSetup(SetupFault::Limit)),
    Code::Line(LineCode::Byte),
    Code::Line(LineCode::UnknownWord),
    Code::Line(LineCode::WordCount),
    Code::Line(LineCode::Number),
    Code::Line(LineCode::UnknownName),
    Code::Line(LineCode::LineLength),
    Code::Line(LineCode::LineCount),
    Code::Line(LineCode::NoMemory),
    Code::Refusal(Reason::NotYours),
    Code::Refusal(Reason::UnknownMember),
    Code::Refusal(Reason::UnknownCurrency),
    Code::Refusal(Reason::BadAmount),
    Code::Refusal(Reason::Repeated),
    Code::Refusal(Reason::Mismatch),
    Code::Refusal(Reason::UnknownReference),
    Code::Refusal(Reason::Late),
    Code::Refusal(Reason::Short),
    Code::Refusal(Reason::TestFails),
    Code::Refusal(Reason::BankShort),
    Code::Step(WorldFault::NoSuchEnvelope),
    Code::Step(WorldFault::NoSuchActor),
    Code::Step(WorldFault::Outstanding),
    Code::Step(WorldFault::NoMemory),
    Code::Step(WorldFault::Site(SiteFault::NoMemory)),
    Code::Step(WorldFault::Site(SiteFault::CellFault)),
    Code::Step(WorldFault::Site(SiteFault::NotUp)),
    Code::Step(WorldFault::Site(SiteFault::AlreadyUp)),
    Code::Step(WorldFault::Site(SiteFault::ViewsSpent)),
    Code::Step(WorldFault::Site(SiteFault::BootsSpent)),
    Code::Step(WorldFault::Site(SiteFault::NotMine)),
    Code::Step(WorldFault::Node(NodeFault::Short)),
    Code::Step(WorldFault::Node(NodeFault::UnknownMember)),
    Code::Step(WorldFault::Node(NodeFault::BadAmount)),
    Code::Step(WorldFault::Node(NodeFault::NoMemory)),
    Code::Step(WorldFault::Node(NodeFault::Spent)),
    Code::Step(WorldFault::Node(NodeFault::NotMine)),
    Code::Step(WorldFault::Node(NodeFault::Closed)),
    Code::Step(WorldFault::Spent),
    Code::Audit(AuditTest::Stamped),
    Code::Audit(AuditTest::Clock),
    Code::Audit(AuditTest::Answered),
    Code::Audit(AuditTest::End),
    Code::Audit(AuditTest::Receipts),
    Code::Audit(AuditTest::NoMemory),
    Code::Frame(WireFault::Short),
    Code::Frame(WireFault::TooLong),
    Code::Frame(WireFault::Version),
    Code::Frame(WireFault::Kind),
    Code::Frame(WireFault::Field),
    Code::Frame(WireFault::Length),
    Code::Frame(WireFault::NoMemory),
    Code::Seats,
    Code::Journal(JournalWhy::Magic),
    Code::Journal(JournalWhy::Version),
    Code::Journal(JournalWhy::Head),
    Code::Journal(JournalWhy::Length),
    Code::Journal(JournalWhy::Checksum),
    Code::Journal(JournalWhy::Record(WireFault::Field)),
    Code::Journal(JournalWhy::NoMemory),
    Code::Record(WriteFault::Unfit),
    Code::Record(WriteFault::NoMemory),
    Code::Cell(OpenFault::Lost),
    Code::Cell(OpenFault::Length),
    Code::Cell(OpenFault::Damaged),
    Code::Cell(OpenFault::Present),
    Code::Cell(OpenFault::Store),
    Code::Cell(OpenFault::NoMemory),
    Code::Evidence(EvidenceWhy::Setup),
    Code::Evidence(EvidenceWhy::Life),
    Code::Evidence(EvidenceWhy::Stranger),
    Code::Evidence(EvidenceWhy::Twice),
    Code::Evidence(EvidenceWhy::Missing),
    Code::Shelf(ShelfFault::Full),
    Code::Shelf(ShelfFault::Failed),
    Code::Shelf(ShelfFault::Present),
    Code::Place(PlaceWhy::Form),
    Code::Place(PlaceWhy::Name),
    Code::Place(PlaceWhy::Address),
    Code::Place(PlaceWhy::Key),
    Code::Place(PlaceWhy::Twice),
    Code::Place(PlaceWhy::Missing),
    Code::Folder(FolderWhy::Actor),
    Code::Folder(FolderWhy::Failed),
    Code::Folder(FolderWhy::Locked),
    Code::Folder(FolderWhy::Unsynced),
    Code::Folder(FolderWhy::Cell),
    Code::Folder(FolderWhy::History),
    Code::Folder(FolderWhy::Open),
    Code::Folder(FolderWhy::Unbegun),
    Code::Folder(FolderWhy::Begun),
    Code::Terminal(TerminalWhy::Share),
    Code::Terminal(TerminalWhy::Full),
    Code::Folder(FolderWhy::Window),
];

/// Writes a line for each code that the program or one of its parts prints: the code, and what it means. Where memory is
/// refused nothing is written; how much was where the writer fails is not said.
pub fn print_codes<W: Write>(alloc: Global, writer: &mut W) -> Result<(), RunFault>
    ensures written { OnOk result (Appends (W.contents writer.old)
        (W.contents writer.new) codes_text) }
    ensures fault { IfErr result (λ fault. (fault ≡ NoMemory) ⊎ (fault ≡ Output)) }
    ensures no_memory { result ≡ Err NoMemory → writer.new ≡ writer.old }
{
    let mut text = String::new(alloc);
    push_codes(&mut text, &CODES)?;
    write_text(writer, text.as_str())
}

/// Appends a line for each of the codes.
fn push_codes(text: &mut String, codes: &[Code]) -> Result<(), AllocError>
    ensures { OnOk result (string_bytes text.new ≡ string_bytes text.old
        ++ flat_map code_line codes.now) }
{
    for code in codes {
        let meaning = code.meaning();
        write!(text, "{code}  {meaning}\n")?;
    }
    Ok(())
}
