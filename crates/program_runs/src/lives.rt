//! Live runs: on a machine without a net, what is reported while one runs, and the script as which
//! one is printed. `.ci/live` runs the program.
ghost use Rattle.std.specs.Prelude.{◌≡◌, length, IfOk};

use crate::files::{SETUP, ends};
use fixtures::{Filed, Fresh};
use pvp_audit::Verdict;
use pvp_live::{Lived, Refused, live, print_script, print_verdict};
use pvp_play::play;
use pvp_text::book::read_lines;
use pvp_text::read_setup;
use pvp_text::script::Kind;
use std::alloc::Global;
use std::io::{Read, Write, sink};
use std::net::Net;
use std::process::Abort;
use std::sync::Wait;
use std::test::Fail;
use std::thread::Threads;
use std::time::Clock;
use vr_types::MemCell;

/// Words of a live run, its script, and what is reported of them without a net.
const WITHOUT_A_NET: &[(&[&str], &str, &str)] = &[
    (
        &["pvpsim", "live", "setup.json", "script.txt"],
        "rest 1\n",
        "fault net\n",
    ),
    (
        &["pvpsim", "live", "setup.json", "script.txt", "--script"],
        "",
        "fault net\n",
    ),
    (
        &["pvpsim", "live", "setup.json", "script.txt"],
        "drain 1\n",
        "fault line 1 L2\n",
    ),
    (
        &["pvpsim", "live", "setup.json", "no such"],
        "",
        "fault file\n",
    ),
];

/// Without a net that is reported, once the setup and the script read right.
#[test]
fn a_net_that_is_not_there(rt: HostRuntime) -> Result<(), Fail> {
    for (words, script, told) in WITHOUT_A_NET {
        ends(&rt, *words, script, 9, (1, *told))?;
    }
    Ok(())
}

/// A run of a bank on threads: pay-ins, a pair that is settled, a pay-out, a crash, a timer and a restart.
const LIVE: &str = "payin ALFA USD 1200\npayin BETA EUR 48\nrest 60\nbeat s0\nrest 60\n\
do ALFA instruct 1 BETA USD 1100 EUR 1000\nrest 60\ndo BETA instruct 1 ALFA EUR 1000 USD 1100\nrest 60\n\
do OP settle 10\nrest 60\nbeat s0\nrest 60\ncrash s0\ntimer s1\nrest 100\ndo ALFA payout USD 100\nrest 60\n\
beat s1\nrestart s0\nrest 100\nbeat s1\nrest 60\n";

/// The same with short rests: what came in time is another thing in each run.
const HASTY: &str = "payin ALFA USD 1200\npayin BETA EUR 48\nrest 4\nbeat s0\nrest 4\n\
do ALFA instruct 1 BETA USD 1100 EUR 1000\nrest 4\ndo BETA instruct 1 ALFA EUR 1000 USD 1100\nrest 4\n\
do OP settle 10\nrest 4\nbeat s0\nrest 4\ncrash s0\ntimer s1\nrest 8\ndo ALFA payout USD 100\nrest 4\n\
beat s1\nrestart s0\nrest 8\nbeat s1\nrest 4\n";

/// What the threads did, played again as the script as which it is printed, gives the books that it
/// left. How the threads' turns fell differs each time, so it is done some times.
#[test]
fn a_run_is_played_again(rt: HostRuntime) -> Result<(), Fail> {
    are_played_again::<_, MemCell>(&rt, LIVE, 3)
}

/// So it is where the sites stand over cells that are files.
#[test]
fn a_run_over_files_is_played_again(rt: HostRuntime) -> Result<(), Fail> {
    are_played_again::<_, Filed>(&rt, LIVE, 3)
}

/// Forty runs with short rests are played again, in four parts, so that each ends in time where the machine has other work:
/// of each two parts one is over cells in memory, and one over cells that are files.
#[test]
fn hasty_runs_are_played_again(rt: HostRuntime) -> Result<(), Fail> {
    are_played_again::<_, MemCell>(&rt, HASTY, 10)
}

#[test]
fn hasty_runs_over_files_are_played_again(rt: HostRuntime) -> Result<(), Fail> {
    are_played_again::<_, Filed>(&rt, HASTY, 10)
}

#[test]
fn more_hasty_runs_are_played_again(rt: HostRuntime) -> Result<(), Fail> {
    are_played_again::<_, MemCell>(&rt, HASTY, 10)
}

#[test]
fn more_hasty_runs_over_files_are_played_again(rt: HostRuntime) -> Result<(), Fail> {
    are_played_again::<_, Filed>(&rt, HASTY, 10)
}

/// Runs the bank so many times, and plays the script of each run.
fn are_played_again<R, C: Fresh + Send>(rt: &R, script: &str, times: u32) -> Result<(), Fail>
where
    R: Abort + AllocGlobal + Threads + Wait + Clock + Net + Sync,
    R::Stream: Read + Write + Send + Drop,
{
    for _ in 0..times {
        played_again::<R, C>(rt, script)?;
    }
    Ok(())
}

/// Runs the bank, and plays the script of it.
fn played_again<R, C: Fresh + Send>(rt: &R, script: &str) -> Result<(), Fail>
where
    R: Abort + AllocGlobal + Threads + Wait + Clock + Net + Sync,
    R::Stream: Read + Write + Send + Drop,
{
    let lived = ran::<R, C, _>(rt, script, &mut sink())?;
    is_played_again(rt, &lived.verdict)
}

/// The script as which a run is printed leaves the books that the run left.
fn is_played_again<R: Abort + AllocGlobal>(rt: &R, verdict: &Verdict) -> Result<(), Fail> {
    let alloc = rt.alloc();
    let mut books: Vec<u8> = Vec::new(alloc);
    let mut script: Vec<u8> = Vec::new(alloc);
    print_verdict(alloc, verdict, &mut books).map_err(|_| Fail::new("the books"))?;
    print_script(alloc, verdict, &mut script).map_err(|_| Fail::new("the script"))?;
    let again = played(alloc, script.as_slice())?;
    assert_eq!(rt; again.as_slice(), books.as_slice());
    Ok(())
}

/// What a live run of a script leaves; what goes on is reported to `notes`.
fn ran<R, C: Fresh + Send, N: Write>(rt: &R, script: &str, notes: &mut N) -> Result<Lived, Fail>
where
    R: AllocGlobal + Threads + Wait + Clock + Net + Sync,
    R::Stream: Read + Write + Send + Drop,
{
    let alloc = rt.alloc();
    let setup = read_setup(alloc, SETUP.as_bytes()).map_err(|_| Fail::new("the setup"))?;
    let lines = read_lines(alloc, &setup, Kind::Live, script.as_bytes()).map_err(|_| Fail::new(
        "the lines",
    ))?;
    let boots = new_boots::<C>(alloc, 2 * setup.faults() + 1)?;
    live(rt, alloc, &setup, boots, lines.as_slice(), notes).map_err(|_| Fail::new("the live run"))
}

/// So many new boot cells.
fn new_boots<C: Fresh>(alloc: Global, count: u16) -> Result<Vec<C>, Fail>
    ensures { IfOk result (λ boots. length boots.items ≡ count) }
{
    let mut boots = Vec::new(alloc);
    for _ in 0..count {
        boots.push(C::fresh(alloc)?)?;
    }
    if boots.len() == usize::from(count) {
        Ok(boots)
    } else {
        Err(Fail::new("the boot cells"))
    }
}

/// What a play of a script prints, and a line that says yes.
fn played(alloc: Global, script: &[u8]) -> Result<Vec<u8>, Fail> {
    let setup = read_setup(alloc, SETUP.as_bytes()).map_err(|_| Fail::new("the setup"))?;
    let mut printed: Vec<u8> = Vec::new(alloc);
    play(alloc, &setup, script, &mut printed).map_err(|_| Fail::new("the play"))?;
    printed.extend_from_slice(b"audit yes\n")?;
    Ok(printed)
}

/// A run in which up to line 5 no actor sends anything, so that all that is reported of these lines
/// is known. Lines 2, 6 and 7 are refused: site 2 is down, there is no site 9, and 0 is no amount.
/// The restart sends 2 RECOVERYs, and from then on it is for the threads what comes when.
const TOLD: &str = "crash s2\nbeat s2\nrest 1\nbeat s1\nrestart s2\ncrash s9\npayin ALFA USD 0\n\
do ALFA payout USD 5\nbeat s0\nrest 30\ntimer s1\nrest 30\ncrash s0\n";

/// What is reported of it, line by line. `#` is a number; of parts between commas that may be
/// worded in several ways each stands behind `|`.
const LINES: &[&str] = &[
    "42 connections between 9 actors",
    "line 1: s2 at clock 1: sends 0",
    "line 1: s0 normal in view 0, s1 normal in view 0, s2 down, 0 frames sent, 0 came",
    "line 2: s2 at clock 2: S3, the site is down",
    "line 2: s0 normal in view 0, s1 normal in view 0, s2 down, 0 frames sent, 0 came",
    "line 3: rests 1 ms",
    "line 3: s0 normal in view 0, s1 normal in view 0, s2 down, 0 frames sent, 0 came",
    "line 4: s1 at clock 1: sends 0",
    "line 4: s0 normal in view 0, s1 normal in view 0, s2 down, 0 frames sent, 0 came",
    "line 5: s2 at clock 3: sends 2",
    "line 5: s0 normal in view 0, s1 normal in view 0, s2 recovering, 0 frames sent, 0 came",
    "line 6: s9: G2, there is no such actor",
    "line 7: USD at clock 1: N3, the amount is not 1 to 1000000000000",
    "line 8: ALFA at clock 1: sends 3",
    "line 9: s0 at clock #: sends 2",
    "line 9: s0 normal in view 0, s1 normal in view 0, s2 recovering|s2 normal in view 0, # frames sent, # came",
    "line 10: rests 30 ms",
    "line 10: s0 normal in view 0, s1 normal in view 0, s2 recovering|s2 normal in view 0, # frames sent, # came",
    "line 11: s1 at clock #: sends 2",
    "line 11: s0 normal in view 0, s1 in change to view 1, s2 recovering|s2 normal in view 0, # frames sent, # came",
    "line 12: rests 30 ms",
    "line 12: s0 normal in view #|line 12: s0 in change to view 1, s1 normal in view 1|s1 in change to view 1, \
s2 recovering|s2 normal in view #|s2 in change to view 1, # frames sent, # came",
    "line 13: s0 at clock #: sends 0",
    "line 13: s0 down, s1 normal in view 1|s1 in change to view 1, \
s2 recovering|s2 normal in view #|s2 in change to view 1, # frames sent, # came",
    "# frames came, and 0 connections broke",
    "# envelopes were sent, and # of them did not come",
    "at the end s0 down, s1 normal in view #|s1 in change to view 1, s2 normal in view #|s2 in change to view 1|s2 recovering",
    "",
];

/// The lines that are reported of a run which is judged yes are these.
fn tells_lines(rt: &impl Abort, told: &str) {
    for (line, wanted) in told.split('\n').zip(LINES) {
        assert!(rt; is_told(line, *wanted), "{line}, not {wanted}");
    }
    assert_eq!(rt; told.split('\n').count(), LINES.len(), "{told}");
}

#[test]
fn tells_what_goes_on(rt: HostRuntime) -> Result<(), Fail> {
    tells::<_, MemCell>(&rt)
}

#[test]
fn tells_what_goes_on_over_files(rt: HostRuntime) -> Result<(), Fail> {
    tells::<_, Filed>(&rt)
}

/// A run over such cells is judged yes, and reports what goes on and which lines were refused.
fn tells<R, C: Fresh + Send>(rt: &R) -> Result<(), Fail>
where
    R: Abort + AllocGlobal + Threads + Wait + Clock + Net + Sync,
    R::Stream: Read + Write + Send + Drop,
{
    let mut notes: Vec<u8> = Vec::new(rt.alloc());
    let lived = ran::<R, C, _>(rt, TOLD, &mut notes)?;
    assert!(rt; matches!(lived.verdict, Verdict::Yes(_)));
    tells_lines(rt, std::str::from_utf8(notes.as_slice())?);
    tells_refused(rt, lived.refused)
}

/// Lines 2, 6 and 7 were refused.
fn tells_refused<R: Abort + AllocGlobal>(rt: &R, refused: Option<Refused>) -> Result<(), Fail> {
    let Some(refused) = refused else {
        return Err(Fail::new("no line was refused"));
    };
    let told = format!(in rt.alloc(); "{refused}")?;
    assert_eq!(rt;
        told.as_str(),
        "3 lines were refused: the first, line 2, S3"
    );
    Ok(())
}

/// Whether a line reads as one of these has it, part by part.
fn is_told(line: &str, wanted: &str) -> bool {
    let mut parts = wanted.split(", ");
    for part in line.split(", ") {
        let Some(ways) = parts.next() else {
            return false;
        };
        if !ways.split('|').any(|way| is_shaped(part, way)) {
            return false;
        }
    }
    parts.next().is_none()
}

/// Whether a text is as this has it, in which `#` is a number.
fn is_shaped(text: &str, shape: &str) -> bool {
    let mut rest = text.as_bytes();
    for byte in shape.as_bytes() {
        match behind(rest, *byte) {
            Some(more) => rest = more,
            None => return false,
        }
    }
    rest.is_empty()
}

/// What stands behind a byte, or behind a number where the byte is `#`.
fn behind(text: &[u8], byte: u8) -> Option<&[u8]> {
    let (first, rest) = text.split_first()?;
    if byte != b'#' {
        return if *first == byte { Some(rest) } else { None };
    }
    let digits = text
        .iter()
        .take_while(|digit| digit.is_ascii_digit())
        .count();
    if digits == 0 {
        None
    } else {
        text.get(digits..)
    }
}
