//! What the words of a command line ask for.

ghost use Rattle.std.specs.Prelude.{◌≡◌, ◌≢◌, true, false, map};
ghost use Rattle.pvp_command.specs.Codes.{asks_for_codes};
ghost use Rattle.pvp_command.specs.Sources.{journals_in, journals_of};

use crate::audits::Auditing;
use crate::explain::Sources;
use crate::fails::read_fails;
use crate::lives::{Ending, Told};
use crate::serves::{NO_TASK, task_at};
use crate::shows::{Show, show_at};
use clap::error::ErrorKind;
use clap::{Arg, ArgAction, ArgMatches, Command, Error};
use pvp_picture::frame::Frame;
use pvp_places::Task;
use pvp_play::{Fail, Telling};
use pvp_text::Kind;
use std::alloc::{AllocError, Global};
use std::convert::AsStr;

/// What the program is asked for, with the names of the files.
#[derive(Debug, Drop)]
pub enum Request<'a> {
    /// Whether a setup meets the rules.
    Check {
        setup: &'a str,
    },
    /// A script, run on one book.
    Book {
        setup: &'a str,
        script: &'a str,
    },
    /// A script, played in a world, how that is to be shown, with what of a picture, and the saves that are to fail there: of
    /// each site one at most.
    Play {
        show: Show,
        frame: Frame<'a>,
        setup: &'a str,
        script: &'a str,
        fails: Vec<Fail>,
    },
    /// A bank that runs by itself while a script is played, and how that is reported.
    Live {
        told: Told<'a>,
        setup: &'a str,
        script: &'a str,
    },
    /// The journals of all actors of a bank, judged, and how.
    Audit {
        how: Auditing,
        setup: &'a str,
        journals: Vec<&'a str>,
    },
    /// Keys files for all actors of a bank, put into a folder.
    Keys {
        setup: &'a str,
        secret: &'a str,
        folder: &'a str,
    },
    /// One actor of a bank, begun, or served as a process of its own.
    Serve(Task<'a>),
    /// What each fault code means.
    Codes,
}

impl Request<'_> {
    ghost use Rattle.std.specs.Prelude.{option_map};
    ghost use Rattle.pvp_command.specs.Sources.{names_of, sources_of};

    /// What it reads; `None` where it reads no file.
    pub fn sources(&self) -> Option<Sources<'_>>
        ensures { option_map names_of result ≡ sources_of self.now }
    {
        let (kind, setup, script) = match self {
            Request::Check { setup } | Request::Audit { setup, .. } | Request::Keys { setup, .. } =>
                (Kind::Book, *setup, None),
            Request::Book { setup, script } => (Kind::Book, *setup, Some(*script)),
            Request::Play { setup, script, .. } => (Kind::Play, *setup, Some(*script)),
            Request::Live { setup, script, .. } => (Kind::Live, *setup, Some(*script)),
            Request::Serve(task) => (Kind::Live, task.setup(), None),
            Request::Codes => return None,
        };
        Some(Sources {
            kind,
            setup,
            script,
            journals: self.journals(),
        })
    }

    /// The journals that it reads; `None` where it reads none.
    fn journals(&self) -> Option<&[&str]>
        ensures { journals_in result ≡ journals_of self.now }
    {
        match self {
            Request::Audit { journals, .. } => Some(journals.as_slice()),
            _ => None,
        }
    }
}

/// A request, and whether a fault is to be explained.
#[derive(Debug, Drop)]
pub struct Asked<'a> {
    pub request: Request<'a>,
    pub explains: bool,
}

/// The request that the words are, the program's own name first.
pub fn parse<'a, S: AsStr>(alloc: Global, words: &'a [S]) -> Result<Option<Asked<'a>>, Error> {
    if asks_for_codes(words) {
        let request = Request::Codes;
        return Ok(Some(Asked {
            request,
            explains: false,
        }));
    }
    let mut program = program(alloc)?;
    let matches = program.try_get_matches_from_mut(words)?;
    let Some((name, inner)) = matches.subcommand() else {
        return Ok(None);
    };
    let explains = has_explain(inner);
    match parse_command(alloc, &mut program, name, inner)? {
        Some(request) => Ok(Some(Asked { request, explains })),
        None => Ok(None),
    }
}

/// Whether these words ask for explanations.
fn has_explain(words: &ArgMatches<'_>) -> bool {
    words.get_flag("explain") && !words.get_flag("no-explain")
}

/// The request that the words of a command are.
fn parse_command<'a>(
    alloc: Global,
    program: &mut Command<'a>,
    name: &str,
    words: &ArgMatches<'a>,
) -> Result<Option<Request<'a>>, Error> {
    match name {
        "check" => Ok(words.get_str("setup").map(|setup| Request::Check { setup })),
        "book" => match (words.get_str("setup"), words.get_str("script")) {
            (Some(setup), Some(script)) => Ok(Some(Request::Book { setup, script })),
            _ => Ok(None),
        },
        "play" => parse_play(
            alloc,
            program,
            Show::Told(Telling::Books),
            Frame::whole(alloc),
            words,
        ),
        "trace" => parse_trace(alloc, program, words),
        "live" => Ok(parse_live(words)),
        "audit" => parse_audit(alloc, words),
        "keys" => Ok(parse_keys(words)),
        "begin" | "serve" => match task_at(name, words) {
            Some(task) => Ok(Some(Request::Serve(task))),
            None => Err(program.error(ErrorKind::ValueValidation, NO_TASK)?),
        },
        _ => Ok(None),
    }
}

/// The live run that the words are.
fn parse_live<'a>(words: &ArgMatches<'a>) -> Option<Request<'a>> {
    let setup = words.get_str("setup")?;
    let script = words.get_str("script")?;
    let told = Told {
        ending: ending_at(words),
        verbose: words.get_flag("verbose"),
        journal: words.get_str("journal"),
    };
    Some(Request::Live {
        told,
        setup,
        script,
    })
}

/// What a run is to print at its end.
fn ending_at(words: &ArgMatches<'_>) -> Ending {
    if words.get_flag("script-again") {
        Ending::Script
    } else {
        Ending::Books
    }
}

/// The audit that the words are.
fn parse_audit<'a>(alloc: Global, words: &ArgMatches<'a>) -> Result<Option<Request<'a>>, Error> {
    let (Some(setup), Some(names)) = (words.get_str("setup"), words.get_strs("journal")) else {
        return Ok(None);
    };
    let how = Auditing {
        ending: ending_at(words),
        cuts: words.get_flag("cut"),
        explains: has_explain(words),
    };
    Ok(Some(Request::Audit {
        how,
        setup,
        journals: Vec::from_slice(alloc, names)?,
    }))
}

/// The keys that the words are.
fn parse_keys<'a>(words: &ArgMatches<'a>) -> Option<Request<'a>> {
    Some(Request::Keys {
        setup: words.get_str("setup")?,
        secret: words.get_str("secret")?,
        folder: words.get_str("into").unwrap_or("keys"),
    })
}

/// Whether the words ask what the fault codes mean: `help codes` after the program's own name. The reader of the words has
/// a `help` of its own, which takes the names of commands alone.
fn asks_for_codes<S: AsStr>(words: &[S]) -> bool
    ensures { result ≡ asks_for_codes (map S.text words.now) }
{
    match words {
        [_, first, second] => first.as_str() == "help" && second.as_str() == "codes",
        _ => false,
    }
}

/// The trace that the words are: of steps in words, or as a picture.
fn parse_trace<'a>(
    alloc: Global,
    program: &mut Command<'a>,
    words: &ArgMatches<'a>,
) -> Result<Option<Request<'a>>, Error> {
    let frame = frame_at(alloc, words)?;
    let picture = words.get_flag("svg");
    if !picture && !frame.is_whole() {
        return Err(program.error(ErrorKind::ValueValidation, NO_PICTURE)?);
    }
    match show_at(picture, words.get_str("from"), words.get_str("to")) {
        Some(show) => parse_play(alloc, program, show, frame, words),
        None => Err(program.error(ErrorKind::ValueValidation, NO_STEPS)?),
    }
}

/// What of a picture the words ask for, beside its steps.
fn frame_at<'a>(alloc: Global, words: &ArgMatches<'a>) -> Result<Frame<'a>, AllocError> {
    Ok(Frame {
        title: words.get_str("title"),
        only: Vec::from_slice(alloc, words.get_strs("only").unwrap_or(&[]))?,
        hide: Vec::from_slice(alloc, words.get_strs("hide").unwrap_or(&[]))?,
    })
}

/// The play that the words are, and the saves that they want to fail.
fn parse_play<'a>(
    alloc: Global,
    program: &mut Command<'a>,
    show: Show,
    frame: Frame<'a>,
    words: &ArgMatches<'a>,
) -> Result<Option<Request<'a>>, Error> {
    let (Some(setup), Some(script)) = (words.get_str("setup"), words.get_str("script")) else {
        return Ok(None);
    };
    match read_fails(alloc, words.get_strs("fail").unwrap_or(&[]))? {
        Some(fails) => Ok(Some(Request::Play {
            show,
            frame,
            setup,
            script,
            fails,
        })),
        None => Err(program.error(ErrorKind::ValueValidation, NO_FAILS)?),
    }
}

/// What stands at the end of each help text.
const MORE: &str =
    "`pvpsim help codes` prints every fault code and what it means. Setups, scripts, printed text, fault codes and \
statuses are described in docs/formats.md, the rules of settlement in docs/settlement.md, and examples/ has commented scripts.";

const SETUP_HELP: &str =
    "A setup: a JSON file with the sites, the currencies and the members of the bank";

const SCRIPT_HELP: &str = "A script: a text file with one statement a line";

const EXPLAIN_HELP: &str =
    "After a fault prints a second line, which says what is wrong and, where it can, in which part, line or file";

const NO_EXPLAIN_HELP: &str = "Prints no second line, even with `--explain`";

const FAIL_HELP: &str =
    "Makes a save of a site's boot cell fail; may be given once for each site. SITE is the number of a site, AT counts its saves \
from 1 and is at most 65535, and KEEP says what the cell then holds: `new` the new count, `old` the one before. Numbers have no leading zero";

/// The error for words that name no saves.
const NO_FAILS: &str =
    "`--fail` takes SITE:AT:KEEP, and each site once: SITE and AT are numbers up to 65535 without a leading zero, AT is \
not 0, and KEEP is `new` or `old`";

const AGAIN_HELP: &str =
    "If the audit says yes, prints the run as a script for `play` in place of the books: a line for each step that was taken, in one order that explains the run";

const VERBOSE_HELP: &str =
    "Reports on standard error while the bank runs: the connections, each line and its outcome, the status and view of each site, and the frames";

const SVG_HELP: &str =
    "Writes one picture in place of the text, an SVG that loads nothing: a lifeline for each actor, and an arrow for each envelope";

const FROM_HELP: &str =
    "With --svg: the first step to draw, by its number in the trace; without it step 1";

const TO_HELP: &str = "With --svg: the last step to draw; without it at most 60 are drawn";

const TITLE_HELP: &str = "With --svg: the heading of the picture, in place of `A run of the bank`";

const ONLY_HELP: &str =
    "With --svg: the actors to draw, by their names in scripts, as `USD,ALFA,s0`; an envelope is drawn if both of its actors are";

const HIDE_HELP: &str = "With --svg: the actors not to draw";

/// The error for words that say what to draw where nothing is drawn.
const NO_PICTURE: &str = "`--title`, `--only` and `--hide` need `--svg`";

/// The error for words that name no steps.
const NO_STEPS: &str =
    "`--from` and `--to` need `--svg` and take the number of a step, from 1 to 4294967295 without a leading zero, \
and the last step is not before the first";

const CHECK_ABOUT: &str =
    "Checks whether a setup meets the rules: prints `setup ok`, or the first rule that is broken";

const BOOK_ABOUT: &str =
    "Runs a script on one book: prints the answer to each command, and the book where the script asks";

const PLAY_ABOUT: &str =
    "Plays a script in a world of all sites, nodes and clients, with lost, repeated and reordered messages, crashes and \
restarts: prints refused steps, and the books where the script asks";

const TRACE_ABOUT: &str =
    "Plays a script as `play` does, and prints each step that it tries, its outcome, and the envelopes that it sent, \
by their numbers";

const JOURNAL_HELP: &str =
    "Writes a journal of each actor, NAME.journal, with all that it took, into this folder, which is new or empty; \
`audit` judges them";

const JOURNALS_HELP: &str =
    "A journal of each actor of the bank, in any order; a client that asked for nothing may have none";

const CUT_HELP: &str =
    "Judges the greatest part of the journals in which all that came to an actor was sent by its sender: for journals that were \
copied while the bank ran, or one of which was truncated; reports on standard error how many events are cut off";

const AUDIT_ABOUT: &str =
    "Judges the journals of the actors of a bank: if together they are one legal run, prints the books and `audit yes`, else the first test that fails";

const KEYS_ABOUT: &str =
    "Makes a keys file for each actor of a bank, NAME.keys, from a secret of the bank, and window.tokens for those who read its windows";

const SECRET_HELP: &str =
    "A file with the bank's secret: use at least 32 random bytes, and keep it apart from the bank, as who has it can speak for every actor";

const INTO_HELP: &str = "The folder for the keys files, new or empty; without it `keys`";

const SERVE_ABOUT: &str =
    "Serves one actor of a bank as a process: takes events from other processes and the terminal, writes them into its journal, and only then sends what they caused";

const BEGIN_ABOUT: &str =
    "Begins one actor of a bank, once in its life: makes the folder from which `serve` serves it. If it was interrupted, run it again; it refuses a folder \
in which an actor was begun. Never begin an actor again that lost its folder: docs/operating.md says what to do";

const LIFE_HELP: &str =
    "The peers file; needed if it has a line `bank NAME`, which names this life of the bank";

const SITE_HELP: &str = "The site of this number";

const NODE_HELP: &str =
    "The node of this currency: it takes `payin MEMBER CCY AMT` and `close MEMBER CCY` at the terminal";

const CLIENT_HELP: &str =
    "OP or the member of this name: it takes commands at the terminal, as after `do NAME` in a script, and prints the number and the answer of each";

const PEERS_HELP: &str =
    "The peers file: a line `s0 HOST:PORT` for each site, and `bank NAME` to name this life of the bank";

const DATA_HELP: &str = "The folder of the actor, with its journal";

const KEYS_HELP: &str =
    "The keys that the actor shares with others: a line `NAME HEX` for each, whose frames are then tagged";

const BEAT_HELP: &str = "Milliseconds from beat to beat, 5 to 60000; without it 50";

const PATIENCE_HELP: &str =
    "For at least how many beats a site hears nothing from the primary before its timer runs out, 2 to 1000; without it 6";

const SYNC_HELP: &str =
    "Syncs each batch of the journal to the device before anything of it is sent, so that the actor restarts after a power cut as after a kill";

const STAY_HELP: &str = "Keeps serving after standard input has ended, until it is killed";

const TRUST_HELP: &str = "Lets a site listen beyond this machine without keys";

const HTTP_HELP: &str =
    "Shows the actor over HTTP, at an address of this machine alone or, with tokens, any: where it stands, metrics, and at a site the book and a console";

const HTTP_PEERS_HELP: &str =
    "The windows of other actors, between commas, which the console reads, and whose pages may read this one";

const HTTP_TOKEN_HELP: &str =
    "The tokens of those who may read the window: a line `NAME HEX` for each, of whom OP reads all and a member its own part of the book";

const LIVE_ABOUT: &str =
    "Runs a bank on threads while a script is played, with streams over this machine's loopback: if its run was legal, prints the books and `audit yes`, else the first test that fails";

/// The forms of the program's words.
fn program<'a>(alloc: Global) -> Result<Command<'a>, AllocError> {
    Command::new(alloc, "pvpsim")
        .about("A settlement bank for payment-versus-payment foreign exchange")
        .version("0.1.0")
        .after_help(MORE)
        .subcommand_required(true)
        .subcommand(with_setup(alloc, "check", CHECK_ABOUT)?)?
        .subcommand(with_script(alloc, "book", BOOK_ABOUT)?)?
        .subcommand(with_fails(alloc, "play", PLAY_ABOUT)?)?
        .subcommand(with_picture(alloc)?)?
        .subcommand(with_ending(alloc)?)?
        .subcommand(with_journals(alloc)?)?
        .subcommand(with_secret(alloc)?)?
        .subcommand(with_beginning(alloc)?)?
        .subcommand(with_order(alloc)?)
}

/// A command that takes a setup.
fn with_setup<'a>(alloc: Global, name: &'a str, about: &'a str) -> Result<Command<'a>, AllocError> {
    Command::new(alloc, name)
        .about(about)
        .after_help(MORE)
        .arg(file(alloc, "setup", SETUP_HELP))?
        .arg(flag(alloc, "explain", EXPLAIN_HELP))?
        .arg(flag(alloc, "no-explain", NO_EXPLAIN_HELP))
}

/// One that takes a script too.
fn with_script<'a>(
    alloc: Global,
    name: &'a str,
    about: &'a str,
) -> Result<Command<'a>, AllocError> {
    with_setup(alloc, name, about)?.arg(file(alloc, "script", SCRIPT_HELP))
}

/// One that takes saves that are to fail too.
fn with_fails<'a>(alloc: Global, name: &'a str, about: &'a str) -> Result<Command<'a>, AllocError> {
    with_script(alloc, name, about)?.arg(fail(alloc))
}

/// The trace, which may ask for a picture too.
fn with_picture<'a>(alloc: Global) -> Result<Command<'a>, AllocError> {
    with_fails(alloc, "trace", TRACE_ABOUT)?
        .arg(flag(alloc, "svg", SVG_HELP))?
        .arg(step(alloc, "from", FROM_HELP))?
        .arg(step(alloc, "to", TO_HELP))?
        .arg(value(alloc, "title", "TEXT", TITLE_HELP))?
        .arg(actors(alloc, "only", ONLY_HELP))?
        .arg(actors(alloc, "hide", HIDE_HELP))
}

/// The live run, which may be printed as a script.
fn with_ending<'a>(alloc: Global) -> Result<Command<'a>, AllocError> {
    with_script(alloc, "live", LIVE_ABOUT)?
        .arg(flag(alloc, "script-again", AGAIN_HELP).long("script"))?
        .arg(flag(alloc, "verbose", VERBOSE_HELP))?
        .arg(folder(alloc))
}

/// The audit, which takes journals.
fn with_journals<'a>(alloc: Global) -> Result<Command<'a>, AllocError> {
    with_setup(alloc, "audit", AUDIT_ABOUT)?
        .arg(journals(alloc))?
        .arg(flag(alloc, "script-again", AGAIN_HELP).long("script"))?
        .arg(flag(alloc, "cut", CUT_HELP))
}

/// The making of keys.
fn with_secret<'a>(alloc: Global) -> Result<Command<'a>, AllocError> {
    with_setup(alloc, "keys", KEYS_ABOUT)?
        .arg(file(alloc, "secret", SECRET_HELP))?
        .arg(value(alloc, "into", "DIR", INTO_HELP))
}

/// A command that names one actor and its folder.
fn with_actor<'a>(
    alloc: Global,
    name: &'a str,
    about: &'a str,
    peers: Arg<'a>,
) -> Result<Command<'a>, AllocError> {
    with_setup(alloc, name, about)?
        .arg(value(alloc, "site", "I", SITE_HELP))?
        .arg(value(alloc, "node", "CCY", NODE_HELP))?
        .arg(value(alloc, "client", "NAME", CLIENT_HELP))?
        .arg(peers)?
        .arg(value(alloc, "data", "DIR", DATA_HELP).required(true))
}

/// The beginning of one actor.
fn with_beginning<'a>(alloc: Global) -> Result<Command<'a>, AllocError> {
    let peers = value(alloc, "peers", "FILE", LIFE_HELP);
    with_actor(alloc, "begin", BEGIN_ABOUT, peers)
}

/// The serving of one actor.
fn with_order<'a>(alloc: Global) -> Result<Command<'a>, AllocError> {
    let peers = value(alloc, "peers", "FILE", PEERS_HELP).required(true);
    with_actor(alloc, "serve", SERVE_ABOUT, peers)?
        .arg(value(alloc, "keys", "FILE", KEYS_HELP))?
        .arg(value(alloc, "beat", "MS", BEAT_HELP))?
        .arg(value(alloc, "patience", "N", PATIENCE_HELP))?
        .arg(flag(alloc, "sync", SYNC_HELP))?
        .arg(flag(alloc, "stay", STAY_HELP))?
        .arg(flag(alloc, "trust-network", TRUST_HELP))?
        .arg(value(alloc, "http", "HOST:PORT", HTTP_HELP))?
        .arg(value(alloc, "http-peers", "HOST:PORT,..", HTTP_PEERS_HELP))?
        .arg(value(alloc, "http-token", "FILE", HTTP_TOKEN_HELP))
}

/// A word of a command that stands behind a name.
fn value<'a>(alloc: Global, name: &'a str, word: &'a str, help: &'a str) -> Arg<'a> {
    Arg::new(alloc, name)
        .long(name)
        .value_name(word)
        .help(help)
        .action(ArgAction::Set)
}

/// A file that has to be named.
fn file<'a>(alloc: Global, id: &'a str, help: &'a str) -> Arg<'a> {
    Arg::new(alloc, id)
        .help(help)
        .required(true)
        .action(ArgAction::Set)
}

/// Files that have to be named, one or more.
fn journals<'a>(alloc: Global) -> Arg<'a> {
    Arg::new(alloc, "journal")
        .help(JOURNALS_HELP)
        .required(true)
        .num_args(1..)
        .action(ArgAction::Append)
}

/// A folder that may be named.
fn folder<'a>(alloc: Global) -> Arg<'a> {
    Arg::new(alloc, "journal")
        .long("journal")
        .value_name("DIR")
        .help(JOURNAL_HELP)
        .action(ArgAction::Set)
}

/// A word that is there or not.
fn flag<'a>(alloc: Global, name: &'a str, help: &'a str) -> Arg<'a> {
    Arg::new(alloc, name)
        .long(name)
        .help(help)
        .action(ArgAction::SetTrue)
}

/// A save that is to fail.
fn fail<'a>(alloc: Global) -> Arg<'a> {
    Arg::new(alloc, "fail")
        .long("fail")
        .value_name("SITE:AT:KEEP")
        .help(FAIL_HELP)
        .action(ArgAction::Append)
}

/// Actors that may be named.
fn actors<'a>(alloc: Global, id: &'a str, help: &'a str) -> Arg<'a> {
    Arg::new(alloc, id)
        .long(id)
        .value_name("WHO,..")
        .value_delimiter(',')
        .help(help)
        .action(ArgAction::Append)
}

/// A step that may be named.
fn step<'a>(alloc: Global, id: &'a str, help: &'a str) -> Arg<'a> {
    Arg::new(alloc, id)
        .long(id)
        .value_name("STEP")
        .help(help)
        .action(ArgAction::Set)
}
