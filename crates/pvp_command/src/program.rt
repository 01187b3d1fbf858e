//! The whole program, over its words, its files and its two outputs.

ghost use Rattle.std.specs.Prelude.{◌≡◌, ◌≢◌, ◌≤◌, ◌⊎◌, true, false, OnOk, OnErr, IfOk, IfErr, IfSome};
ghost use Rattle.std.specs.Io.KnownBytes.{Appends};
ghost use Rattle.clap.specs.Values.{kind_of};
ghost use Rattle.clap.specs.declared.error.kind.ErrorKind.TheVariants as refused;
ghost use Rattle.pvp_types.specs.Setup.{IsValid};
ghost use Rattle.pvp_codes.specs.Codes.{codes_text};
ghost use Rattle.pvp_text.specs.declared.script.Kind.TheVariants as kinds;
ghost use Rattle.pvp_text.specs.Script.{script_at};
ghost use Rattle.pvp_command.specs.declared.fault.Fault.TheVariants.{NoMemory, Output};
ghost use Rattle.pvp_command.specs.Fault.{status_told};
ghost use Rattle.pvp_command.specs.Runs.{Writes, Tells, Ends, Stops, IsWritten, HasEnded};
ghost use Rattle.pvp_command.specs.Lives.{IsFaultless};
ghost use Rattle.pvp_command.specs.Request.{CheckWrites, CheckTells, BookWrites, BookTells, BooksScript, PlayWrites, PlayTells, ShowsScript, TellsRun, TellsScript};

use crate::audits::audit;
use crate::explain::{Sources, explanation_of};
use crate::fault::Fault;
use crate::files::{Files, Source, read_source};
use crate::keys::put_keys;
use crate::lives::{live, without_net};
use crate::output::Audience;
use crate::request::{Asked, Request, parse};
use crate::shows::{Show, unknown_in};
use clap::Error;
use clap::error::ErrorKind as Refusal;
use pvp_audit::Shelf;
use pvp_codes::print_codes;
use pvp_picture::frame::Frame;
use pvp_picture::picture::picture;
use pvp_play::{Fail, Telling, play_failing, trace};
use pvp_text::{read_setup, run_book};
use pvp_types::Setup;
use std::alloc::Global;
use std::convert::AsStr;
use std::io::{ErrorKind, Read, Write};
use std::net::Net;
use std::random::RandomSource;
use std::sync::Wait;
use std::thread::Threads;
use std::time::Clock;

/// The status of a run that ended as it should.
const DONE: u8 = 0;

/// The status of a run that a fault ended, which is reported in one line.
const FAULT: u8 = 1;

/// The status of words that ask for nothing that the program does.
const NO_FORM: u8 = 2;

/// Does what the words ask for, and answers the status of the program: 0, or 1 for a fault, or 2
/// for words of no form, for help and for the version, or 3 where an audit says no. Faults, and why
/// words have no form, go to `err`, the journals of a live run and keys to `shelf`, all else to
/// `out`. An actor is served by another call: words that ask for that get `fault net` here. Where
/// the reader of `out` is gone, as that of a closed pipe is, nothing is reported. At 0 and at 3 the
/// whole text of a request is written, where the bytes of its files are known; that it is the
/// request which the words ask for is not said here.
pub fn command_on<R, S: AsStr, F: Files, K: Shelf, O: Write + Audience, E: Write>(
    rt: &R,
    alloc: Global,
    words: &[S],
    files: &F,
    shelf: &mut K,
    out: &mut O,
    err: &mut E,
) -> u8
where
    R: Threads + Wait + Clock + Net + RandomSource + Sync,
    R::Stream: Read + Write + Send + Drop,
    ensures done { IsFaultless result →
        HasEnded (F.known files.now) (K.files shelf.old) (K.files shelf.new)
        (O.contents out.old) (O.contents out.new) result }
    ensures status { result ≤ 3 }
{
    match parse(alloc, words) {
        Ok(Some(Asked { request, explains })) => {
            let told = run_on(rt, alloc, &request, files, shelf, out, err);
            if out.has_left() {
                return status_of(told);
            }
            tell_more(alloc, told, explains, files, request.sources(), err)
        }
        Ok(None) => NO_FORM,
        Err(refusal) => refuse(&refusal, out, err),
    }
}

/// Does what the words ask for as `command_on` does, on a machine without threads and net: a live
/// run whose setup and script read right gets `fault net`.
pub fn command<S: AsStr, F: Files, O: Write + Audience, E: Write>(
    alloc: Global,
    words: &[S],
    files: &F,
    out: &mut O,
    err: &mut E,
) -> u8
    ensures done { IsFaultless result →
        IsWritten (F.known files.now) (O.contents out.old) (O.contents out.new) result }
    ensures status { result ≤ 3 }
{
    match parse(alloc, words) {
        Ok(Some(Asked { request, explains })) => {
            let told = run(alloc, &request, files, out, err);
            if out.has_left() {
                return status_of(told);
            }
            tell_more(alloc, told, explains, files, request.sources(), err)
        }
        Ok(None) => NO_FORM,
        Err(refusal) => refuse(&refusal, out, err),
    }
}

/// Tells why the words ask for nothing, and answers the status. Help and the version, which were asked for, go to `out`, and
/// all else to `err`.
fn refuse<O: Write, E: Write>(refusal: &Error, out: &mut O, err: &mut E) -> u8
    ensures memory { kind_of refusal.now ≡ refused.OutOfMemory → result ≡ 1 }
    ensures help { kind_of refusal.now ≢ refused.OutOfMemory → result ≡ 2 }
    ensures out { kind_of refusal.now ≢ refused.DisplayHelp →
        kind_of refusal.now ≢ refused.DisplayVersion → out.new ≡ out.old }
    ensures err { (kind_of refusal.now ≡ refused.DisplayHelp)
        ⊎ (kind_of refusal.now ≡ refused.DisplayVersion)
        → err.new ≡ err.old }
{
    match refusal.kind() {
        Refusal::OutOfMemory => return tell(Err(Fault::NoMemory), err),
        Refusal::DisplayHelp | Refusal::DisplayVersion => {
            let _ = write!(out, "{refusal}");
        }
        _ => {
            let _ = write!(err, "{refusal}");
        }
    }
    NO_FORM
}

/// Tells a fault, and answers the status of the run.
fn tell<E: Write>(told: Result<u8, Fault>, err: &mut E) -> u8
    ensures ok { IfOk told (λ status. result ≡ status) }
    ensures err { IfErr told (λ fault. result ≡ status_told fault) }
{
    if let Err(fault) = told {
        let _ = write!(err, "{fault}\n");
    }
    status_of(told)
}

/// Prints a fault as `tell` does, and where that is asked for the line that explains it.
fn tell_more<F: Files, E: Write>(
    alloc: Global,
    told: Result<u8, Fault>,
    explains: bool,
    files: &F,
    sources: Option<Sources<'_>>,
    err: &mut E,
) -> u8
    ensures ok { IfOk told (λ status. result ≡ status) }
    ensures err { IfErr told (λ fault. result ≡ status_told fault) }
{
    let status = tell(told, err);
    if let (true, Some(sources), Err(fault)) = (explains, sources, told) {
        if let Ok(Some(line)) = explanation_of(alloc, files, sources, fault) {
            let _ = err.write_all(line.as_slice());
        }
    }
    status
}

/// The status of a run that was asked for.
fn status_of(told: Result<u8, Fault>) -> u8
    ensures ok { IfOk told (λ status. result ≡ status) }
    ensures err { IfErr told (λ fault. result ≡ status_told fault) }
{
    match told {
        Ok(status) => status,
        Err(Fault::NoSuchSite(_)) => NO_FORM,
        Err(Fault::NotToShow(_) | Fault::NotToHide(_)) => NO_FORM,
        Err(_) => FAULT,
    }
}

/// Tells why the words of the command line were not had, and answers the status: 1 where memory was
/// refused, and 2 for a word that is no text, as no form has one.
pub fn no_words<E: Write>(refusal: ErrorKind, err: &mut E) -> u8
    ensures memory { refusal ≡ ErrorKind.OutOfMemory → result ≡ 1 }
    ensures no_text { refusal ≢ ErrorKind.OutOfMemory → result ≡ 2 }
{
    match refusal {
        ErrorKind::OutOfMemory => {
            let _ = write!(err, "{}\n", Fault::NoMemory);
            FAULT
        }
        _ => {
            let _ = err.write_all(b"error: a word is not UTF-8\n");
            NO_FORM
        }
    }
}

/// Does what was asked for on a machine with threads and net, where a bank can run by itself, and answers the status.
fn run_on<R, F: Files, K: Shelf, O: Write, E: Write>(
    rt: &R,
    alloc: Global,
    request: &Request<'_>,
    files: &F,
    shelf: &mut K,
    out: &mut O,
    err: &mut E,
) -> Result<u8, Fault>
where
    R: Threads + Wait + Clock + Net + RandomSource + Sync,
    R::Stream: Read + Write + Send + Drop,
    ensures ok { IfOk result (λ status. IsFaultless status × Ends (F.known files.now) request.now
        (K.files shelf.old) (K.files shelf.new) (O.contents out.old) (O.contents out.new) status) }
    ensures err { IfErr result (Stops (F.known files.now)
        (F.fails files.now) request.now out.old out.new) }
{
    match request {
        Request::Live {
            told,
            setup,
            script,
        } => live(rt, alloc, files, shelf, *told, *setup, *script, out, err),
        Request::Keys {
            setup,
            secret,
            folder,
        } => {
            put_keys(alloc, files, shelf, *setup, *secret, *folder)?;
            Ok(DONE)
        }
        asked => run(alloc, asked, files, out, err),
    }
}

/// Does what was asked for, and answers the status: the setup first, then the script, and the first fault ends it.
fn run<F: Files, O: Write, E: Write>(
    alloc: Global,
    request: &Request<'_>,
    files: &F,
    out: &mut O,
    err: &mut E,
) -> Result<u8, Fault>
    ensures ok { IfOk result (λ status. IsFaultless status
        × Writes (F.known files.now) request.now (O.contents out.old) (O.contents out.new) status) }
    ensures err { IfErr result (Tells (F.known files.now)
        (F.fails files.now) request.now out.old out.new) }
{
    match request {
        Request::Check { setup } => check(alloc, files, *setup, out)?,
        Request::Book { setup, script } => book(alloc, files, *setup, *script, out)?,
        Request::Play {
            show,
            frame,
            setup,
            script,
            fails,
        } => play(
            alloc,
            files,
            *show,
            frame,
            *setup,
            *script,
            fails.as_slice(),
            out,
        )?,
        Request::Live { setup, script, .. } => return without_net(
            alloc, files, *setup, *script, out,
        ),
        Request::Keys { .. } => return Err(Fault::Output),
        Request::Serve(_) => return Err(Fault::Net),
        Request::Audit {
            how,
            setup,
            journals,
        } => return audit(alloc, files, *how, *setup, journals.as_slice(), out, err),
        Request::Codes => codes(alloc, out)?,
    }
    Ok(DONE)
}

/// Tells what each fault code means.
fn codes<O: Write>(alloc: Global, out: &mut O) -> Result<(), Fault>
    ensures ok { OnOk result (Appends (O.contents out.old) (O.contents out.new) codes_text) }
    ensures err { IfErr result (λ fault. (fault ≡ NoMemory) ⊎ (fault ≡ Output)) }
{
    print_codes(alloc, out)?;
    Ok(())
}

/// Tells that a setup meets the rules.
fn check<F: Files, O: Write>(
    alloc: Global,
    files: &F,
    setup: &str,
    out: &mut O,
) -> Result<(), Fault>
    ensures ok { OnOk result (IfSome (F.known files.now setup.now) (λ bytes.
        CheckWrites bytes (O.contents out.old) (O.contents out.new))) }
    ensures err { IfErr result (λ fault. IfSome (F.known files.now setup.now) (λ bytes.
        CheckTells (F.fails files.now setup.now) bytes out.old out.new fault)) }
{
    let bytes = read_source(alloc, files, Source::Setup, setup)?;
    read_setup(alloc, bytes.as_slice())?;
    match out.write_all(b"setup ok\n") {
        Ok(()) => Ok(()),
        Err(_) => Err(Fault::Output),
    }
}

/// Runs a script on one book.
fn book<F: Files, O: Write>(
    alloc: Global,
    files: &F,
    setup: &str,
    script: &str,
    out: &mut O,
) -> Result<(), Fault>
    ensures ok { OnOk result (IfSome (F.known files.now setup.now) (λ setup_bytes.
        IfSome (F.known files.now script.now) (λ script_bytes.
        BookWrites setup_bytes script_bytes (O.contents out.old) (O.contents out.new)))) }
    ensures err { IfErr result (λ fault. IfSome (F.known files.now setup.now) (λ setup_bytes.
        BookTells (F.fails files.now setup.now) setup_bytes (F.fails files.now script.now)
        (F.known files.now script.now)
        out.old out.new fault)) }
{
    let setup = read_source(alloc, files, Source::Setup, setup)?;
    let setup = read_setup(alloc, setup.as_slice())?;
    book_script(alloc, files, &setup, script, out)
}

/// Runs a script on one book of a setup.
fn book_script<F: Files, O: Write>(
    alloc: Global,
    files: &F,
    setup: &Setup,
    script: &str,
    out: &mut O,
) -> Result<(), Fault>
    requires { IsValid setup.now }
    ensures ok { OnOk result (IfSome (F.known files.now script.now) (λ bytes.
        BooksScript setup.now bytes (O.contents out.old) (O.contents out.new))) }
    ensures err { IfErr result (TellsScript (F.fails files.now script.now) kinds.Book setup.now
        (F.known files.now script.now)
        out.old out.new) }
{
    let script = read_source(alloc, files, Source::Script, script)?;
    run_lines(alloc, setup, script.as_slice(), out)
}

/// Runs the lines of a script on one book.
fn run_lines<O: Write>(
    alloc: Global,
    setup: &Setup,
    script: &[u8],
    out: &mut O,
) -> Result<(), Fault>
    requires { IsValid setup.now }
    ensures ok { OnOk result (BooksScript setup.now script.now
        (O.contents out.old) (O.contents out.new)) }
    ensures err { IfErr result
        (TellsRun (script_at kinds.Book setup.now script.now) out.old out.new) }
{
    run_book(alloc, setup, script, out)?;
    Ok(())
}

/// Plays a script in a world, where some saves are to fail.
fn play<F: Files, O: Write>(
    alloc: Global,
    files: &F,
    show: Show,
    frame: &Frame<'_>,
    setup: &str,
    script: &str,
    fails: &[Fail],
    out: &mut O,
) -> Result<(), Fault>
    ensures ok { OnOk result (IfSome (F.known files.now setup.now) (λ setup_bytes.
        IfSome (F.known files.now script.now) (λ script_bytes.
        PlayWrites show setup_bytes frame.now fails.now script_bytes (O.contents out.old)
        (O.contents out.new)))) }
    ensures err { IfErr result (λ fault. IfSome (F.known files.now setup.now) (λ setup_bytes.
        PlayTells (F.fails files.now setup.now) setup_bytes frame.now fails.now (F.fails files.now script.now)
        (F.known files.now script.now)
        out.old out.new fault)) }
{
    let bytes = read_source(alloc, files, Source::Setup, setup)?;
    let bank = read_setup(alloc, bytes.as_slice())?;
    if let Some(fault) = unknown_in(&bank, fails, frame) {
        return Err(fault);
    }
    play_script(alloc, files, show, frame, &bank, script, fails, out)
}

/// Plays a script in a world of a setup, where some saves are to fail, and shows it as it is asked for.
fn play_script<F: Files, O: Write>(
    alloc: Global,
    files: &F,
    show: Show,
    frame: &Frame<'_>,
    setup: &Setup,
    script: &str,
    fails: &[Fail],
    out: &mut O,
) -> Result<(), Fault>
    requires { IsValid setup.now }
    ensures ok { OnOk result (IfSome (F.known files.now script.now) (λ bytes.
        ShowsScript show setup.now fails.now bytes (O.contents out.old) (O.contents out.new))) }
    ensures err { IfErr result (TellsScript (F.fails files.now script.now) kinds.Play setup.now
        (F.known files.now script.now)
        out.old out.new) }
{
    let script = read_source(alloc, files, Source::Script, script)?;
    show_play(alloc, show, frame, setup, script.as_slice(), fails, out)
}

/// Plays the lines of a script, and prints what they print, prints the steps that they try, or draws some of these.
fn show_play<O: Write>(
    alloc: Global,
    show: Show,
    frame: &Frame<'_>,
    setup: &Setup,
    script: &[u8],
    fails: &[Fail],
    out: &mut O,
) -> Result<(), Fault>
    requires { IsValid setup.now }
    ensures ok { OnOk result (ShowsScript show setup.now fails.now script.now
        (O.contents out.old) (O.contents out.new)) }
    ensures err { IfErr result
        (TellsRun (script_at kinds.Play setup.now script.now) out.old out.new) }
{
    match show {
        Show::Told(Telling::Books) => play_failing(alloc, setup, fails, script, out)?,
        Show::Told(Telling::Steps) => trace(alloc, setup, fails, script, out)?,
        Show::Drawn(steps) => picture(alloc, setup, fails, script, steps, frame, out)?,
    }
    Ok(())
}
