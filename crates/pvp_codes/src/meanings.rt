//! What the codes mean that are printed of setups, scripts, commands, audits, frames, journals and boot cells, in words.
//! What those of a step mean is said in `pvp_trace`.

ghost use Rattle.std.specs.Prelude.{◌≡◌};
ghost use Rattle.pvp_codes.specs.Meanings as spec;

use pvp_cell::OpenFault;
use pvp_journal::{EvidenceWhy, JournalWhy, ShelfFault, WriteFault};
use pvp_places::{FolderWhy, PlaceWhy, ServeFault, TerminalWhy};
use pvp_rooms::AuditTest;
use pvp_text::{LineCode, TextFault};
use pvp_types::{Reason, SetupFault};
use pvp_wire::WireFault;

/// What it means that a setup breaks a rule.
pub fn rule_meaning(fault: SetupFault) -> &'static str
    ensures { result.now ≡ spec.rule_meaning fault }
{
    match fault {
        SetupFault::SiteCount => "the sites are not 3, 5 or 7",
        SetupFault::CurrencyCount => "the currencies are not 1 to 8",
        SetupFault::CurrencyCode => {
            "a currency's code is not three letters A to Z, or stands twice"
        }
        SetupFault::Rate => "a rate is not 1 to 1000000",
        SetupFault::Haircut => "a haircut is not 0 to 9999",
        SetupFault::MemberCount => "the members are not 1 to 64",
        SetupFault::MemberName => {
            "a member's name is not 1 to 8 of A to Z and digits, a letter first, or it stands twice, is OP or is a currency's code"
        }
        SetupFault::ListLength => {
            "a member's short limits or deposits are not one for each currency"
        }
        SetupFault::Limit => {
            "a limit is not 0 to 1000000000000000000, or a deposit is not 0 to 1000000000000000"
        }
    }
}

/// What the fault of a text means that is no setup.
pub fn text_meaning(fault: TextFault) -> &'static str
    ensures { result.now ≡ spec.text_meaning fault }
{
    match fault {
        TextFault::NotJson => "the text is no JSON",
        TextFault::BadMember => {
            "a field of an object is missing or of another type; a number is digits alone, below 2^64"
        }
        TextFault::NoMemory => "memory was refused",
        TextFault::BadSetup(rule) => rule_meaning(rule),
    }
}

/// What the fault of a script's line means.
pub fn line_meaning(code: LineCode) -> &'static str
    ensures { result.now ≡ spec.line_meaning code }
{
    match code {
        LineCode::Byte => "a byte outside 32 to 126",
        LineCode::UnknownWord => {
            "the first word, or a command's, is unknown, or the first word is not of the script's kind"
        }
        LineCode::WordCount => "too many or too few words",
        LineCode::Number => "a number that is malformed or too large for its field",
        LineCode::UnknownName => "a name that nothing has, or that may not stand there",
        LineCode::LineLength => "a line of more than 256 bytes",
        LineCode::LineCount => "more than 65535 lines",
        LineCode::NoMemory => "memory was refused",
    }
}

/// What it means that the book refuses a command so.
pub fn reason_meaning(why: Reason) -> &'static str
    ensures { result.now ≡ spec.reason_meaning why }
{
    match why {
        Reason::NotYours => {
            "the sender is of the wrong kind, or no side of the pair that it takes back"
        }
        Reason::UnknownMember => {
            "the sender or a member that is named is not in the setup, or the other side is the sender itself"
        }
        Reason::UnknownCurrency => "a currency is not in the setup, or is sold for itself",
        Reason::BadAmount => "an amount is not 1 to 1000000000000",
        Reason::Repeated => "this was done already",
        Reason::Mismatch => "the instruction is not the exact mirror of the one that waits",
        Reason::UnknownReference => "there is no such pair or order, or the number is 0",
        Reason::Late => "the pair is settled or taken back",
        Reason::Short => "the sender's balance is below the amount",
        Reason::TestFails => "the sender would fail its tests once the amount is paid out",
        Reason::BankShort => "the bank's figure is below the amount",
    }
}

/// What it means that a test of an audit fails.
pub fn audit_meaning(why: AuditTest) -> &'static str
    ensures { result.now ≡ spec.audit_meaning why }
{
    match why {
        AuditTest::Stamped => {
            "what is delivered is not what its stamp names, or may not come to this actor"
        }
        AuditTest::Clock => "a clock is not above the one before it and above its stamp's",
        AuditTest::Answered => "the event cannot come out as it is recorded",
        AuditTest::End => "the end state does not read like the replay's",
        AuditTest::Receipts => "an event is no seat's next receipt, or a receipt is left over",
        AuditTest::NoMemory => "memory was refused",
    }
}

/// What it means that bytes are no frame.
pub fn wire_meaning(fault: WireFault) -> &'static str
    ensures { result.now ≡ spec.wire_meaning fault }
{
    match fault {
        WireFault::Short => "the bytes end within a frame",
        WireFault::TooLong => "the frame's length is above 4194304",
        WireFault::Version => "the version is not 2",
        WireFault::Kind => "no message has this kind",
        WireFault::Field => "a field has a value that it may not have",
        WireFault::Length => "the fields end before the frame does, or after it",
        WireFault::NoMemory => "memory was refused",
    }
}

/// What it means that the actors of a live run cannot be audited.
pub fn seats_meaning() -> &'static str
    ensures { result.now ≡ spec.seats_meaning }
{
    "a live run lost a seat, or a site of it had not begun with a new cell, so its actors could not be audited"
}

/// What it means that bytes are no journal.
pub fn journal_meaning(why: JournalWhy) -> &'static str
    ensures { result.now ≡ spec.journal_meaning why }
{
    match why {
        JournalWhy::Magic => "the bytes do not begin with PVPJ",
        JournalWhy::Version => "the version is neither 1 nor 2",
        JournalWhy::Head => "the head is cut off, or its opening has another flag",
        JournalWhy::Length => "a record's length does not have its complement behind it",
        JournalWhy::Checksum => "a record has another checksum",
        JournalWhy::Record(_) => "a record says nothing that its actor may do",
        JournalWhy::NoMemory => "memory was refused",
    }
}

/// What it means that an event has no record.
pub fn record_meaning(fault: WriteFault) -> &'static str
    ensures { result.now ≡ spec.record_meaning fault }
{
    match fault {
        WriteFault::Unfit => "an event has no text",
        WriteFault::NoMemory => "memory was refused",
    }
}

/// What it means that a boot cell is not opened or not made.
pub fn cell_meaning(fault: OpenFault) -> &'static str
    ensures { result.now ≡ spec.cell_meaning fault }
{
    match fault {
        OpenFault::Lost => "no boot cell is there",
        OpenFault::Length => "what is there has not the length of a boot cell",
        OpenFault::Damaged => "a boot cell's count and its complement do not fit each other",
        OpenFault::Present => "a boot cell that is to be made is there already",
        OpenFault::Store => "the store of a boot cell failed",
        OpenFault::NoMemory => "memory was refused",
    }
}

/// What it means that journals are not those of one bank.
pub fn evidence_meaning(why: EvidenceWhy) -> &'static str
    ensures { result.now ≡ spec.evidence_meaning why }
{
    match why {
        EvidenceWhy::Setup => "the journal is of a bank whose setup has another text",
        EvidenceWhy::Life => "the journal is of another life of the bank than one before it",
        EvidenceWhy::Stranger => {
            "the bank has no such actor, or it opened over what such an actor does not"
        }
        EvidenceWhy::Twice => "a journal before it is the same actor's",
        EvidenceWhy::Missing => "no journal is the actor's",
    }
}

/// What it means that a journal is not put where it should stand.
pub fn shelf_meaning(fault: ShelfFault) -> &'static str
    ensures { result.now ≡ spec.shelf_meaning fault }
{
    match fault {
        ShelfFault::Full => "there is no room left for a file",
        ShelfFault::Failed => "a file or its folder could not be made or written",
        ShelfFault::Present => "there are files already where new ones are to be put",
    }
}

/// What is wrong with a line of a peers file or a keys file.
pub fn place_meaning(why: PlaceWhy) -> &'static str
    ensures { result.now ≡ spec.place_meaning why }
{
    match why {
        PlaceWhy::Form => "a line is not two words with spaces between them",
        PlaceWhy::Name => "the bank has no actor of this name that may stand here",
        PlaceWhy::Address => "an address is not HOST:PORT with a port from 1 to 65535",
        PlaceWhy::Key => "a key is not 64 digits of 0 to 9, and a to f or A to F",
        PlaceWhy::Twice => "a name stands a second time",
        PlaceWhy::Missing => "the actor has no line, and needs one",
    }
}

/// Why an actor or its folder is none that a process can serve.
pub fn folder_meaning(why: FolderWhy) -> &'static str
    ensures { result.now ≡ spec.folder_meaning why }
{
    match why {
        FolderWhy::Actor => "the bank has no such actor",
        FolderWhy::Failed => "the folder could not be made, or a file there not be read or written",
        FolderWhy::Locked => "another process serves the folder",
        FolderWhy::Unsynced =>
            "the end of the journal may be lost, and a node or a client cannot recover it from others",
        FolderWhy::Cell => "the boot cell and the journal are not of one site",
        FolderWhy::History => "no actor can have taken what the journal tells",
        FolderWhy::Open =>
            "without keys a site listens on this machine alone, unless the network is trusted",
        FolderWhy::Unbegun =>
            "the folder has no actor: `pvpsim begin` makes one, once; one that was lost may not be made anew",
        FolderWhy::Begun => "an actor was begun in the folder before, and may not be begun again",
        FolderWhy::Window => "a window opens at an address of this machine alone",
    }
}

/// Why a terminal does not ask its actor for what a line asks.
pub fn terminal_meaning(why: TerminalWhy) -> &'static str
    ensures { result.now ≡ spec.terminal_meaning why }
{
    match why {
        TerminalWhy::Share =>
            "the client has used up its share of the log's rows: what is left of them is for letting money out",
        TerminalWhy::Full => "the rows that the log has left are for letting money out",
    }
}

/// Why a process does not serve, whatever its code is.
pub fn served_meaning(fault: ServeFault) -> &'static str
    ensures { result.now ≡ spec.served_meaning fault }
{
    match fault {
        ServeFault::Setup(fault) => text_meaning(fault),
        ServeFault::File(_) => "a file that it needs could not be read",
        ServeFault::Line { why, .. } => place_meaning(why),
        ServeFault::Missing { .. } => place_meaning(PlaceWhy::Missing),
        ServeFault::Folder(why) => folder_meaning(why),
        ServeFault::Journal { why, .. } => journal_meaning(why),
        ServeFault::Other(why) => evidence_meaning(why),
        ServeFault::Cell(fault) => cell_meaning(fault),
        ServeFault::Log(fault) => shelf_meaning(fault),
        ServeFault::Unfit => record_meaning(WriteFault::Unfit),
        ServeFault::Output => "standard output could not be written: an answer is still owed",
        ServeFault::Net => "there is no thread to be had, or no listener at the site's address",
        ServeFault::Clock => "there is no greater clock",
        ServeFault::NoMemory => "memory was refused",
    }
}
