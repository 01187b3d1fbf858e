//! Live runs of banks.
ghost use Rattle.std.specs.Prelude.{◌≡◌, OnOk, IfOk, IfErr, IfSome, option_map};
ghost use Rattle.std.specs.Io.KnownBytes.{Appends};
ghost use Rattle.pvp_types.specs.Setup.{IsValid};
ghost use Rattle.pvp_command.specs.Lives.{LiveWrites, LiveTells, LivesScript, TellsLive, IsTold, IsFaultless, IsTextFault, IsPutFault, KeptIn, LifeStops, ending_text, status_judged};

use crate::fault::Fault;
use crate::files::{Files, Source, read_source};
use pvp_audit::{PutFault, Shelf, Verdict, put_journals};
use pvp_journal::{ShelfFault, bank_of};
use pvp_live::{live as run_live, print_script, print_verdict};
use pvp_parties::Party;
use pvp_play::cells::new_cells;
use pvp_rooms::Closed;
use pvp_text::book::read_lines;
use pvp_text::read_setup;
use pvp_text::script::{Kind, Line};
use pvp_types::Setup;
use std::alloc::Global;
use std::io::{Read, Write, sink};
use std::net::Net;
use std::random::RandomSource;
use std::sync::Wait;
use std::thread::Threads;
use std::time::Clock;

/// The status of a live run whose audit says no.
const AUDIT_NO: u8 = 3;

/// What a live run prints at its end.
#[derive(Clone, Copy, Debug, PartialEq, Eq)]
pub enum Ending {
    /// The books that it left.
    Books,
    /// The script of a play that leaves the same books.
    Script,
}

/// The options of a live run.
#[derive(Clone, Copy, Debug)]
pub struct Told<'a> {
    pub ending: Ending,
    /// Whether it reports what goes on.
    pub verbose: bool,
    /// The folder into which the journals of its actors are put.
    pub journal: Option<&'a str>,
}

/// What a bank is set up with, and the text that says so.
#[derive(Clone, Copy)]
pub(crate) struct Rules<'a> {
    pub setup: &'a Setup,
    pub text: &'a [u8],
}

/// Runs a bank by itself while a script is played, prints how it was judged, and answers the
/// status. Where a folder is named the journals of its actors are put there first. At the end it
/// reports to `err` which lines were refused, and where that is asked for what goes on, while it
/// does.
pub fn live<R, F: Files, K: Shelf, O: Write, E: Write>(
    rt: &R,
    alloc: Global,
    files: &F,
    shelf: &mut K,
    told: Told<'_>,
    setup: &str,
    script: &str,
    out: &mut O,
    err: &mut E,
) -> Result<u8, Fault>
where
    R: Threads + Wait + Clock + Net + RandomSource + Sync,
    R::Stream: Read + Write + Send + Drop,
    ensures ok { IfOk result (λ status. IfSome (F.known files.now setup.now) (λ setup_bytes.
        IfSome (F.known files.now script.now) (λ script_bytes.
        LiveWrites told.entry setup_bytes script_bytes (K.files shelf.old) (K.files shelf.new)
        (O.contents out.old) (O.contents out.new) status))) }
    ensures faultless { IfOk result IsFaultless }
    ensures err { IfErr result (λ fault. IfSome (F.known files.now setup.now) (λ setup_bytes.
        LiveTells (F.fails files.now setup.now) setup_bytes (F.fails files.now script.now)
        (F.known files.now script.now)
        out.old out.new fault)) }
{
    let text = read_source(alloc, files, Source::Setup, setup)?;
    let setup = read_setup(alloc, text.as_slice())?;
    let rules = Rules {
        setup: &setup,
        text: text.as_slice(),
    };
    live_script(rt, alloc, files, shelf, told, rules, script, out, err)
}

/// Judges setup and script of a bank that is to run by itself, and then reports that there is no
/// net.
pub fn without_net<F: Files, O>(
    alloc: Global,
    files: &F,
    setup: &str,
    script: &str,
    _out: &mut O,
) -> Result<u8, Fault>
    ensures never { IfOk result (λ _. ⊥) }
    ensures err { IfErr result (λ fault. IfSome (F.known files.now setup.now) (λ setup_bytes.
        LiveTells (F.fails files.now setup.now) setup_bytes (F.fails files.now script.now)
        (F.known files.now script.now)
        _out.old _out.new fault)) }
    ensures unwritten { _out.new ≡ _out.old }
{
    let setup = read_source(alloc, files, Source::Setup, setup)?;
    let setup = read_setup(alloc, setup.as_slice())?;
    script_without_net(alloc, files, &setup, script, _out)
}

/// Judges the script of such a bank, and then reports that there is no net.
fn script_without_net<F: Files, O>(
    alloc: Global,
    files: &F,
    setup: &Setup,
    script: &str,
    _out: &mut O,
) -> Result<u8, Fault>
    requires { IsValid setup.now }
    ensures never { IfOk result (λ _. ⊥) }
    ensures err { IfErr result (TellsLive (F.fails files.now script.now) setup.now
        (F.known files.now script.now)
        _out.old _out.new) }
    ensures unwritten { _out.new ≡ _out.old }
{
    let script = read_source(alloc, files, Source::Script, script)?;
    let _lines = read_lines(alloc, setup, Kind::Live, script.as_slice())?;
    Err(Fault::Net)
}

/// Runs a bank with these rules by itself while a script is played.
fn live_script<R, F: Files, K: Shelf, O: Write, E: Write>(
    rt: &R,
    alloc: Global,
    files: &F,
    shelf: &mut K,
    told: Told<'_>,
    rules: Rules<'_>,
    script: &str,
    out: &mut O,
    err: &mut E,
) -> Result<u8, Fault>
where
    R: Threads + Wait + Clock + Net + RandomSource + Sync,
    R::Stream: Read + Write + Send + Drop,
    requires { IsValid rules.setup.now }
    ensures ok { IfOk result (λ status. IfSome (F.known files.now script.now) (λ bytes.
        LivesScript told.entry rules.entry.text.now rules.entry.setup.now bytes
        (K.files shelf.old) (K.files shelf.new) (O.contents out.old) (O.contents out.new) status)) }
    ensures faultless { IfOk result IsFaultless }
    ensures err { IfErr result (TellsLive (F.fails files.now script.now) rules.entry.setup.now
        (F.known files.now script.now) out.old out.new) }
{
    let script = read_source(alloc, files, Source::Script, script)?;
    let lines = read_lines(alloc, rules.setup, Kind::Live, script.as_slice())?;
    live_lines(rt, alloc, shelf, told, rules, lines.as_slice(), out, err)
}

/// Runs a bank with these rules by itself while lines are played.
fn live_lines<R, K: Shelf, O: Write, E: Write>(
    rt: &R,
    alloc: Global,
    shelf: &mut K,
    told: Told<'_>,
    rules: Rules<'_>,
    lines: &[Line],
    out: &mut O,
    err: &mut E,
) -> Result<u8, Fault>
where
    R: Threads + Wait + Clock + Net + RandomSource + Sync,
    R::Stream: Read + Write + Send + Drop,
    requires { IsValid rules.setup.now }
    ensures ok { IfOk result (IsTold told.entry rules.entry.text.now rules.entry.setup.now
        (K.files shelf.old) (K.files shelf.new) (O.contents out.old) (O.contents out.new)) }
    ensures faultless { IfOk result IsFaultless }
    ensures err { IfErr result (LifeStops out.old out.new) }
{
    open_folder(shelf, told.journal)?;
    let boots = new_cells(alloc, 2 * rules.setup.faults() + 1, &[])?;
    let lived = if told.verbose {
        run_live(rt, alloc, rules.setup, boots, lines, err)?
    } else {
        run_live(rt, alloc, rules.setup, boots, lines, &mut sink())?
    };
    keep(
        rt,
        alloc,
        shelf,
        told.journal,
        rules,
        lived.closed.as_slice(),
    )?;
    let status = tell(alloc, told.ending, &lived.verdict, out)?;
    if let Some(refused) = lived.refused {
        let _ = write!(err, "{refused}\n");
    }
    Ok(status)
}

/// Makes the folder of journals, where one is named: a run whose journals cannot be put there does not begin.
fn open_folder<K: Shelf>(shelf: &mut K, folder: Option<&str>) -> Result<(), Fault>
    ensures same { K.files shelf.new ≡ K.files shelf.old }
    ensures err { IfErr result IsPutFault }
{
    let Some(folder) = folder else {
        return Ok(());
    };
    match shelf.open(folder) {
        Ok(()) => Ok(()),
        Err(fault) => Err(Fault::from(PutFault::Shelf(fault))),
    }
}

/// Puts the journals of what actors left into a folder, where one is named, as those of a new life of their bank.
fn keep<R: RandomSource, K: Shelf>(
    rt: &R,
    alloc: Global,
    shelf: &mut K,
    folder: Option<&str>,
    rules: Rules<'_>,
    closed: &[Closed<Party>],
) -> Result<(), Fault>
    ensures ok { OnOk result (KeptIn (option_map (λ name. name.now) folder.entry)
        rules.entry.text.now rules.entry.setup.now
        closed.now (K.files shelf.old) (K.files shelf.new)) }
    ensures err { IfErr result IsPutFault }
{
    let Some(folder) = folder else {
        return Ok(());
    };
    let mut life = [0; 16];
    if rt.fill_bytes(&mut life).is_err() {
        return Err(Fault::from(PutFault::Shelf(ShelfFault::Failed)));
    }
    put_journals(
        alloc,
        shelf,
        folder,
        rules.setup,
        bank_of(rules.text, life),
        closed,
    )?;
    Ok(())
}

/// Prints how a run was judged, and answers the status.
pub(crate) fn tell<O: Write>(
    alloc: Global,
    ending: Ending,
    verdict: &Verdict,
    out: &mut O,
) -> Result<u8, Fault>
    ensures text { OnOk result (Appends (O.contents out.old) (O.contents out.new)
        (ending_text ending verdict.now)) }
    ensures status { IfOk result (λ status. status ≡ status_judged verdict.now) }
    ensures faultless { IfOk result IsFaultless }
    ensures err { IfErr result IsTextFault }
{
    match ending {
        Ending::Books => print_verdict(alloc, verdict, out)?,
        Ending::Script => print_script(alloc, verdict, out)?,
    }
    Ok(status_judged(verdict))
}

/// The status of a live run that was judged so.
fn status_judged(verdict: &Verdict) -> u8
    ensures status { result ≡ status_judged verdict.now }
    ensures faultless { IsFaultless result }
{
    match verdict {
        Verdict::Yes(_) => 0,
        Verdict::No { .. } => AUDIT_NO,
    }
}
