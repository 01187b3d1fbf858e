//! Faults on setups and scripts, and on their files, explained.
ghost use Rattle.std.specs.Prelude.{◌≡◌, Some, option_map, IfOk, IfErr, IfSome};
ghost use Rattle.pvp_codes.specs.Explained.{setup_explained};
ghost use Rattle.pvp_command.specs.Explain.{Explains, Hinders, HindersFile, HindersLine, actor_line, folder_line, journal_line, line_of_script, name_of};
ghost use Rattle.pvp_command.specs.Sources.{names_of};
ghost use Rattle.pvp_command.specs.Files.{file_line};
ghost use Rattle.pvp_command.specs.declared.fault.Fault.TheVariants.{NoMemory};
ghost use Rattle.pvp_command.specs.declared.files.Source.TheVariants.{Setup as OfSetup, Journal as OfJournal};

use crate::fault::Fault;
use crate::files::{Files, Source, Unread, read_source};
use pvp_codes::{Code, explain_line, explain_setup};
use pvp_journal::{EvidenceWhy, WriteFault};
use pvp_text::{Kind, LineFault, TextFault, read_setup};
use std::alloc::Global;

/// What a command reads: the names of its files, and of what kind its script is.
#[derive(Clone, Copy, Debug)]
pub struct Sources<'a> {
    pub kind: Kind,
    pub setup: &'a str,
    /// `None` for a command that has no script.
    pub script: Option<&'a str>,
    /// `None` for a command that has no journals.
    pub journals: Option<&'a [&'a str]>,
}

/// What is said of a live run whose connections could not be made.
const NET: &str =
    "net: a listener could not be opened, or a connection not be made, over the loopback of this machine; each actor has a \
listener, each site two connections with each other actor, and each connection two of the files that `ulimit -n` allows\n";

/// The line that explains a fault on a setup or on a script, whose files are read again for it, on a file that was not read,
/// or on the connections of a live run. `None` where the fault is on none of these, and where it is on a script and there is
/// none.
///
/// A fault that has a line and is left without it is answered why: a file cannot be read again, the setup that a script needs
/// does not read any more, or memory was refused.
pub fn explanation_of<F: Files>(
    alloc: Global,
    files: &F,
    sources: Sources<'_>,
    fault: Fault,
) -> Result<Option<Vec<u8>>, Fault>
    ensures ok { IfOk result (λ line.
        Explains (F.known files.now) (names_of sources.entry) fault
        (option_map (λ text. text.items) line)) }
    ensures err { IfErr result (Hinders (F.known files.now) (F.fails files.now)
        (names_of sources.entry) fault) }
{
    match fault {
        Fault::Setup(fault) => explained_setup(alloc, files, sources.setup, fault).map(Some),
        Fault::Line { line, code } => {
            let Some(script) = sources.script else {
                return Ok(None);
            };
            let fault = LineFault { line, code };
            explained_line(alloc, files, sources.kind, sources.setup, script, fault).map(Some)
        }
        Fault::File(source, why) => file_line(alloc, sources, source, why),
        Fault::Net => Ok(Some(Vec::from_slice(alloc, NET.as_bytes())?)),
        Fault::Journal { place, why, .. } => {
            journal_line(alloc, sources, place, Code::Journal(why).meaning())
        }
        Fault::Evidence { place, why } => {
            journal_line(alloc, sources, place, Code::Evidence(why).meaning())
        }
        Fault::Missing(actor) => actor_line(alloc, actor).map(Some),
        Fault::Shelf(fault) => folder_line(alloc, Code::Shelf(fault).meaning()).map(Some),
        Fault::Unfit => folder_line(alloc, Code::Record(WriteFault::Unfit).meaning()).map(Some),
        Fault::NotToShow(_) | Fault::NotToHide(_) => Ok(None),
        Fault::NoSuchSite(_) | Fault::Output | Fault::Seats | Fault::NoMemory => Ok(None),
    }
}

/// The line of a file that was not read: which it is, its name, and why.
fn file_line(
    alloc: Global,
    sources: Sources<'_>,
    source: Source,
    why: Unread,
) -> Result<Option<Vec<u8>>, Fault>
    ensures ok { IfOk result (λ line. option_map (λ text. text.items) line
        ≡ option_map (λ name. file_line source name why)
        (name_of (names_of sources.entry) source)) }
    ensures err { IfErr result (λ fault. fault ≡ NoMemory) }
{
    let told = match (source, sources.script) {
        (Source::Setup, _) => {
            let name = sources.setup;
            format!(in alloc; "setup \"{name}\": {why}\n")?
        }
        (Source::Script, Some(name)) => format!(in alloc; "script \"{name}\": {why}\n")?,
        (Source::Script, None) | (Source::Secret, _) => return Ok(None),
        (Source::Journal(place), _) => match journal_at(sources, place) {
            Some(name) => format!(in alloc; "journal \"{name}\": {why}\n")?,
            None => return Ok(None),
        },
    };
    Ok(Some(told.into_bytes()))
}

/// The name of the journal at a place, counted from 1.
fn journal_at<'a>(sources: Sources<'a>, place: usize) -> Option<&'a str>
    ensures { option_map (λ name. name.now) result ≡ name_of
        (names_of sources.entry) (OfJournal place) }
{
    let name = sources.journals?.get(place.checked_sub(1)?)?;
    Some(*name)
}

/// The line of a journal that is not one of the bank's, or is damaged: its name, and what that means.
fn journal_line(
    alloc: Global,
    sources: Sources<'_>,
    place: usize,
    meaning: &str,
) -> Result<Option<Vec<u8>>, Fault>
    ensures ok { IfOk result (λ line. option_map (λ text. text.items) line
        ≡ option_map (λ name. journal_line name meaning.now)
        (name_of (names_of sources.entry) (OfJournal place))) }
    ensures err { IfErr result (λ fault. fault ≡ NoMemory) }
{
    let Some(name) = journal_at(sources, place) else {
        return Ok(None);
    };
    let told = format!(in alloc; "journal \"{name}\": {meaning}\n")?;
    Ok(Some(told.into_bytes()))
}

/// The line of an actor of whom there is no journal.
fn actor_line(alloc: Global, actor: u16) -> Result<Vec<u8>, Fault>
    ensures ok { IfOk result (λ line. line.items ≡ actor_line actor) }
    ensures err { IfErr result (λ fault. fault ≡ NoMemory) }
{
    let meaning = Code::Evidence(EvidenceWhy::Missing).meaning();
    let told = format!(in alloc; "actor {actor}: {meaning}\n")?;
    Ok(told.into_bytes())
}

/// The line of journals that were not put into their folder.
fn folder_line(alloc: Global, meaning: &str) -> Result<Vec<u8>, Fault>
    ensures ok { IfOk result (λ line. line.items ≡ folder_line meaning.now) }
    ensures err { IfErr result (λ fault. fault ≡ NoMemory) }
{
    let told = format!(in alloc; "folder: {meaning}\n")?;
    Ok(told.into_bytes())
}

/// The line that explains a fault on a setup, whose file is read again for it.
fn explained_setup<F: Files>(
    alloc: Global,
    files: &F,
    setup: &str,
    fault: TextFault,
) -> Result<Vec<u8>, Fault>
    ensures ok { IfOk result (λ text. IfSome (F.known files.now setup.now) (λ bytes.
        text.items ≡ setup_explained fault bytes)) }
    ensures err { IfErr result (HindersFile OfSetup (F.fails files.now setup.now)) }
{
    let bytes = read_source(alloc, files, Source::Setup, setup)?;
    let text = explain_setup(alloc, fault, bytes.as_slice())?;
    Ok(text)
}

/// The line that explains a fault on a script, whose file is read again for it, after its setup's.
fn explained_line<F: Files>(
    alloc: Global,
    files: &F,
    kind: Kind,
    setup: &str,
    script: &str,
    fault: LineFault,
) -> Result<Vec<u8>, Fault>
    ensures ok { IfOk result (λ text. IfSome (F.known files.now setup.now) (λ setup_bytes.
        IfSome (F.known files.now script.now) (λ script_bytes.
        Some text.items ≡ line_of_script fault kind setup_bytes script_bytes))) }
    ensures err { IfErr result (λ why. IfSome (F.known files.now setup.now) (λ bytes.
        HindersLine (F.fails files.now setup.now) bytes (F.fails files.now script.now) why)) }
{
    let bytes = read_source(alloc, files, Source::Setup, setup)?;
    let setup = read_setup(alloc, bytes.as_slice())?;
    let script = read_source(alloc, files, Source::Script, script)?;
    let text = explain_line(alloc, fault, kind, &setup, script.as_slice())?;
    Ok(text)
}
