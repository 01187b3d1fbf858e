//! Banks whose journals are judged.
ghost use Rattle.std.specs.Prelude.{◌≡◌, ◌++◌, OnOk, IfOk, IfErr, IfSome, map, length, string_bytes};
ghost use Rattle.pvp_types.specs.Setup.{IsValid};
ghost use Rattle.pvp_audit.specs.Actors.{AreOfTheBank};
ghost use Rattle.pvp_journal.specs.Bank.{mark_of};
ghost use Rattle.pvp_audit.specs.Cut.{IsGreatestCut};
ghost use Rattle.pvp_command.specs.Audits.{AuditWrites, AuditTells, AuditsBank, BankStops, AreReadFrom, ReadsFile, IsBadFile, IsBadAmong, IsJudgedSo, clock_text, cut_text, event_text, for_text, lack_text, none_text, sent_text, unseen_for, unseen_text, unsent_in, unsent_text};
ghost use Rattle.pvp_command.specs.declared.fault.Fault.TheVariants.{NoMemory};
ghost use Rattle.pvp_command.specs.Lives.{IsFaultless, IsTextFault};

use crate::fault::Fault;
use crate::files::{Files, Source, read_source};
use crate::lives::{Ending, tell};
use pvp_audit::cut::cut;
use pvp_audit::gather::gather;
use pvp_audit::unseen::{unseen_in, with_blanks};
use pvp_audit::{History, Verdict, audit_gathered};
use pvp_journal::{Journal, Left, read_journal};
use pvp_rooms::AuditTest;
use pvp_text::read_setup;
use pvp_trace::names::push_actor;
use pvp_types::Setup;
use pvp_wire::Stamp;
use std::alloc::{AllocError, Global};
use std::io::Write;

/// How journals are audited.
#[derive(Clone, Copy, Debug, PartialEq, Eq)]
pub struct Auditing {
    pub ending: Ending,
    /// Whether their greatest cut is judged in their place.
    pub cuts: bool,
    /// Whether it is told which envelope an A1 is about.
    pub explains: bool,
}

/// The event of an actor, counted from 1, that brings what was not sent so: of an A1.
type Unsent = Option<(u16, usize)>;

/// Judges the journals of the actors of a bank, prints how they were judged as a live run does, and
/// answers the status. A client of whom there is none is taken to have asked for nothing. Torn
/// records, such clients, how many events were cut off, and where that is asked for which envelope
/// an A1 is about, are reported to `err`.
pub fn audit<F: Files, O: Write, E: Write>(
    alloc: Global,
    files: &F,
    how: Auditing,
    setup: &str,
    journals: &[&str],
    out: &mut O,
    err: &mut E,
) -> Result<u8, Fault>
    ensures ok { IfOk result (λ status. IfSome (F.known files.now setup.now) (λ bytes.
        AuditWrites how (F.known files.now) bytes (map (λ name. name.now) journals.now)
        (O.contents out.old) (O.contents out.new) status)) }
    ensures faultless { IfOk result IsFaultless }
    ensures err { IfErr result (λ fault. IfSome (F.known files.now setup.now) (λ bytes.
        AuditTells how (F.known files.now) (F.fails files.now) setup.now bytes
        (map (λ name. name.now) journals.now) out.old out.new fault)) }
{
    let text = read_source(alloc, files, Source::Setup, setup)?;
    let setup = read_setup(alloc, text.as_slice())?;
    let status = audit_bank(
        alloc,
        files,
        how,
        &setup,
        text.as_slice(),
        journals,
        out,
        err,
    )?;
    Ok(status)
}

/// Judges the journals of the actors of a bank with this setup, which has this text.
fn audit_bank<F: Files, O: Write, E: Write>(
    alloc: Global,
    files: &F,
    how: Auditing,
    setup: &Setup,
    text: &[u8],
    journals: &[&str],
    out: &mut O,
    err: &mut E,
) -> Result<u8, Fault>
    requires { IsValid setup.now }
    ensures ok { IfOk result (AuditsBank how (F.known files.now) setup.now (mark_of text.now)
        (map (λ name. name.now) journals.now) (O.contents out.old) (O.contents out.new)) }
    ensures faultless { IfOk result IsFaultless }
    ensures err { IfErr result (BankStops how (F.known files.now)
        (F.fails files.now) setup.now (mark_of text.now)
        (map (λ name. name.now) journals.now) out.old out.new) }
{
    let names = journals;
    let journals = read_journals(alloc, files, names)?;
    tell_torn(err, journals.as_slice());
    let unseen = unseen_for(alloc, how, setup, journals.as_slice())?;
    let journals = with_blanks(alloc, journals, unseen.as_slice())?;
    let histories = gather(alloc, setup, text, journals)?;
    tell_unseen(alloc, err, setup, unseen.as_slice());
    let (status, unsent) = judge_bank(alloc, how, setup, histories, out, err)?;
    if let (true, Some((actor, event))) = (how.explains, unsent) {
        tell_unsent(alloc, files, names, setup, actor, event, err);
    }
    Ok(status)
}

/// The clients of whom there is no journal, and who are taken to have asked for nothing: none where the greatest cut is
/// judged, which would leave out all that they asked for.
fn unseen_for(
    alloc: Global,
    how: Auditing,
    setup: &Setup,
    journals: &[Journal],
) -> Result<Vec<u16>, AllocError>
    requires { IsValid setup.now }
    ensures { IfOk result (λ unseen. unseen.items ≡ unseen_for how setup.now journals.now) }
{
    if how.cuts {
        return Ok(Vec::new(alloc));
    }
    unseen_in(alloc, setup, journals)
}

/// The journals of these names, in order.
fn read_journals<F: Files>(alloc: Global, files: &F, names: &[&str]) -> Result<Vec<Journal>, Fault>
    ensures ok { IfOk result (λ journals.
        AreReadFrom (F.known files.now) (map (λ name. name.now) names.now) journals.items) }
    ensures err { IfErr result (IsBadAmong (F.known files.now) (F.fails files.now)
        (map (λ name. name.now) names.now)) }
{
    let mut journals = Vec::with_capacity(alloc, names.len())?;
    let mut place = 0;
    for name in names {
        place += 1;
        journals.push(read_file(alloc, files, place, *name)?)?;
    }
    Ok(journals)
}

/// The journal of a name, which stands at this place.
fn read_file<F: Files>(alloc: Global, files: &F, place: usize, name: &str) -> Result<Journal, Fault>
    ensures ok { IfOk result (ReadsFile (F.known files.now) name.now) }
    ensures err { IfErr result (IsBadFile (F.known files.now) (F.fails files.now) place name.now) }
{
    let bytes = read_source(alloc, files, Source::Journal(place), name)?;
    match read_journal(alloc, bytes.as_slice()) {
        Ok(journal) => Ok(journal),
        Err(fault) => Err(Fault::of_journal(place, fault)),
    }
}

/// Judges histories of all actors of a bank, or their greatest cut; answers the status, and which event an A1 is about.
fn judge_bank<O: Write, E: Write>(
    alloc: Global,
    how: Auditing,
    setup: &Setup,
    histories: Vec<History>,
    out: &mut O,
    err: &mut E,
) -> Result<(u8, Unsent), Fault>
    requires valid { IsValid setup.now }
    requires bank { AreOfTheBank setup.now histories.items }
    ensures ok { IfOk result (λ told. IsJudgedSo how setup.now histories.items
        (O.contents out.old) (O.contents out.new) told.0) }
    ensures faultless { IfOk result (λ told. IsFaultless told.0) }
    ensures err { IfErr result IsTextFault }
{
    let judged = if how.cuts {
        cut_told(alloc, setup, histories, err)?
    } else {
        histories
    };
    let verdict = audit_gathered(alloc, setup, judged);
    let status = tell(alloc, how.ending, &verdict, out)?;
    Ok((status, unsent_in(&verdict)))
}

/// The event that an A1 is about; none of another verdict.
fn unsent_in(verdict: &Verdict) -> Unsent
    ensures { result ≡ unsent_in verdict.now }
{
    match verdict {
        Verdict::No {
            actor,
            event,
            why: AuditTest::Stamped,
        } => Some((*actor, *event)),
        _ => None,
    }
}

/// Tells which envelope an actor's event brings that no journal of its sender has so. The journals are read again for it;
/// where the actor's is not read now, nothing is told.
fn tell_unsent<F: Files, E: Write>(
    alloc: Global,
    files: &F,
    names: &[&str],
    setup: &Setup,
    actor: u16,
    event: usize,
    err: &mut E,
) {
    for (before, name) in names.iter().enumerate() {
        if let Ok(journal) = read_file(alloc, files, before + 1, *name) {
            if journal.head.actor == actor {
                tell_event(alloc, &journal, setup, event, err);
            }
        }
    }
}

/// Tells which envelope an event of a journal brings.
fn tell_event<E: Write>(
    alloc: Global,
    journal: &Journal,
    setup: &Setup,
    event: usize,
    err: &mut E,
) {
    let Some(entry) = journal.history.get(event.saturating_sub(1)) else {
        return;
    };
    let Some(stamp) = entry.stamp else {
        return;
    };
    let mut text = String::new(alloc);
    let actor = journal.head.actor;
    if push_unsent(&mut text, setup, actor, event, entry.clock, stamp).is_ok() {
        let _ = err.write_all(text.as_str().as_bytes());
    }
}

/// Appends which envelope an event brings.
fn push_unsent(
    text: &mut String,
    setup: &Setup,
    actor: u16,
    event: usize,
    clock: u64,
    stamp: Stamp,
) -> Result<(), AllocError>
    ensures { OnOk result (string_bytes text.new
        ≡ string_bytes text.old ++ unsent_text setup.now actor event clock stamp) }
{
    push_actor(text, setup, actor)?;
    push_event(text, event, clock, stamp.index)?;
    push_lack(text, setup, stamp, actor)
}

/// Appends an event, and the number of the envelope that it brings.
fn push_event(text: &mut String, event: usize, clock: u64, index: u32) -> Result<(), AllocError>
    ensures { OnOk result (string_bytes text.new
        ≡ string_bytes text.old ++ event_text event clock index) }
{
    write!(
        text,
        ": event {event}, at clock {clock}, brings envelope {index}"
    )
}

/// Appends who sent that, and that no journal of the sender has it for this actor.
fn push_lack(text: &mut String, setup: &Setup, stamp: Stamp, actor: u16) -> Result<(), AllocError>
    ensures { OnOk result (string_bytes text.new
        ≡ string_bytes text.old ++ lack_text setup.now stamp actor) }
{
    push_sent(text, setup, stamp)?;
    push_none(text, setup, stamp.actor)?;
    push_for(text, setup, actor)
}

/// Appends who sent an envelope, and when.
fn push_sent(text: &mut String, setup: &Setup, stamp: Stamp) -> Result<(), AllocError>
    ensures { OnOk result (string_bytes text.new
        ≡ string_bytes text.old ++ sent_text setup.now stamp) }
{
    text.push_str(" of what ")?;
    push_actor(text, setup, stamp.actor)?;
    push_clock(text, stamp.clock)
}

/// Appends when it was sent.
fn push_clock(text: &mut String, clock: u64) -> Result<(), AllocError>
    ensures { OnOk result (string_bytes text.new ≡ string_bytes text.old ++ clock_text clock) }
{
    write!(text, " sent at clock {clock}")
}

/// Appends that no journal of this sender has something.
fn push_none(text: &mut String, setup: &Setup, sender: u16) -> Result<(), AllocError>
    ensures { OnOk result (string_bytes text.new
        ≡ string_bytes text.old ++ none_text setup.now sender) }
{
    text.push_str("; no journal of ")?;
    push_actor(text, setup, sender)?;
    Ok(())
}

/// Appends that it is an envelope for this actor.
fn push_for(text: &mut String, setup: &Setup, actor: u16) -> Result<(), AllocError>
    ensures { OnOk result (string_bytes text.new
        ≡ string_bytes text.old ++ for_text setup.now actor) }
{
    text.push_str(" has such an envelope for ")?;
    push_actor(text, setup, actor)?;
    text.push_str("\n")
}

/// The greatest cut of histories; how many events of whom are cut off is reported to `err`.
fn cut_told<E: Write>(
    alloc: Global,
    setup: &Setup,
    histories: Vec<History>,
    err: &mut E,
) -> Result<Vec<History>, Fault>
    ensures ok { IfOk result (λ judged. IsGreatestCut judged.items histories.items) }
    ensures bank { AreOfTheBank setup.now histories.items →
        IfOk result (λ judged. AreOfTheBank setup.now judged.items) }
    ensures err { IfErr result (λ fault. fault ≡ NoMemory) }
{
    let counts = counts_of(alloc, histories.as_slice())?;
    let judged = cut(alloc, histories)?;
    tell_cuts(alloc, err, setup, counts.as_slice(), judged.as_slice());
    Ok(judged)
}

/// How many events each of these histories has.
fn counts_of(alloc: Global, histories: &[History]) -> Result<Vec<usize>, AllocError>
    ensures { IfOk result (λ counts. counts.items ≡ map
        (λ history. length history.entries.items) histories.now) }
{
    let mut counts = Vec::with_capacity(alloc, histories.len())?;
    for history in histories {
        counts.push(history.entries.len())?;
    }
    Ok(counts)
}

/// Tells of each history that had more events how many are cut off.
fn tell_cuts<E: Write>(
    alloc: Global,
    err: &mut E,
    setup: &Setup,
    counts: &[usize],
    histories: &[History],
) {
    for (count, history) in counts.iter().zip(histories) {
        let left = history.entries.len();
        if left < *count {
            tell_cut(alloc, err, setup, history.actor, *count, *count - left);
        }
    }
}

/// Tells how many of an actor's events are cut off.
fn tell_cut<E: Write>(
    alloc: Global,
    err: &mut E,
    setup: &Setup,
    actor: u16,
    count: usize,
    lost: usize,
) {
    let mut text = String::new(alloc);
    if push_cut(&mut text, setup, actor, count, lost).is_ok() {
        let _ = err.write_all(text.as_str().as_bytes());
    }
}

/// Appends how many of an actor's events are cut off.
fn push_cut(
    text: &mut String,
    setup: &Setup,
    actor: u16,
    count: usize,
    lost: usize,
) -> Result<(), AllocError>
    ensures { OnOk result (string_bytes text.new
        ≡ string_bytes text.old ++ cut_text setup.now actor count lost) }
{
    push_actor(text, setup, actor)?;
    write!(text, ": {lost} of {count} events are cut off\n")
}

/// Tells which clients were taken to have asked for nothing, as there is no journal of them.
fn tell_unseen<E: Write>(alloc: Global, err: &mut E, setup: &Setup, clients: &[u16]) {
    for client in clients {
        let mut text = String::new(alloc);
        if push_unseen(&mut text, setup, *client).is_ok() {
            let _ = err.write_all(text.as_str().as_bytes());
        }
    }
}

/// Appends that a client was not seen.
fn push_unseen(text: &mut String, setup: &Setup, client: u16) -> Result<(), AllocError>
    ensures { OnOk result (string_bytes text.new
        ≡ string_bytes text.old ++ unseen_text setup.now client) }
{
    text.push_str("not seen: ")?;
    push_actor(text, setup, client)?;
    text.push_str("\n")
}

/// Tells of each journal whose last record is torn, at which byte that begins.
fn tell_torn<E: Write>(err: &mut E, journals: &[Journal]) {
    for (before, journal) in journals.iter().enumerate() {
        if let Left::Torn(at) = journal.left {
            let _ = write!(err, "journal {} is torn at byte {at}\n", before + 1);
        }
    }
}
