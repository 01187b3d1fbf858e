//! Files that are not read, and writers that fail.
use pvp_command::{FileFault, Files, Piped, Source, Unread, command, no_words};
use std::alloc::Global;
use std::io;
use std::io::{ErrorKind, Write};
use std::process::Abort;
use std::test::Fail;

/// The setup of the worked scripts: three currencies, and two members with equal limits.
pub const SETUP: &str = "{\"sites\":3,
 \"currencies\":[{\"code\":\"EUR\",\"rate\":110,\"haircut\":500},
  {\"code\":\"USD\",\"rate\":100,\"haircut\":0},{\"code\":\"JPY\",\"rate\":1,\"haircut\":1000}],
 \"members\":[{\"name\":\"ALFA\",\"aggregate\":150000,\"short\":[1000,1000,100000],
   \"deposit\":[10000,10000,1000000]},
  {\"name\":\"BETA\",\"aggregate\":150000,\"short\":[1000,1000,100000],
   \"deposit\":[10000,10000,1000000]}]}";

/// The setup and a script, and a file for which there is no memory; any other name is of no file.
#[derive(Drop)]
pub struct Script<'a> {
    pub text: &'a str,
}

impl Files for Script<'_> {
    ghost use Rattle.std.specs.Prelude.{None};

    ghost known = { λ _ _. None };

    ghost fails = { λ _ _ _. Unit {0} };

    fn read(&self, alloc: Global, _source: Source, name: &str) -> Result<Vec<u8>, FileFault> {
        let text = match name {
            "setup.json" => SETUP,
            "script.txt" => self.text,
            "too large" => return Err(FileFault::NoMemory),
            _ => return Err(FileFault::Unread(Unread::Missing)),
        };
        Vec::from_slice(alloc, text.as_bytes()).map_err(|_| FileFault::NoMemory)
    }
}

/// A writer that takes some writes, and fails from then on.
#[derive(Drop)]
struct Failing {
    left: u32,
    with: ErrorKind,
}

impl Write for Failing {
    fn write(&mut self, buf: &[u8]) -> io::Result<usize> {
        if self.left == 0 {
            return Err(io::Error::from(self.with));
        }
        self.left -= 1;
        Ok(buf.len())
    }

    fn flush(&mut self) -> io::Result<()> {
        Ok(())
    }
}

/// Runs the program over a writer that takes so many writes, and compares its status and what it
/// reports.
pub fn ends<R: Abort + AllocGlobal>(
    rt: &R,
    words: &[&str],
    script: &str,
    left: u32,
    want: (u8, &str),
) -> Result<(), Fail> {
    let with = ErrorKind::Other;
    ends_over(rt, words, script, Failing { left, with }, want)
}

/// Runs the program over a writer, and compares its status and what it reports.
fn ends_over<R: Abort + AllocGlobal>(
    rt: &R,
    words: &[&str],
    script: &str,
    out: Failing,
    (status, told): (u8, &str),
) -> Result<(), Fail> {
    let alloc = rt.alloc();
    let mut out = Piped::new(out);
    let mut err: Vec<u8> = Vec::new(alloc);
    let got = command(alloc, words, &Script { text: script }, &mut out, &mut err);
    assert_eq!(rt;
        (got, err.as_slice()),
        (status, told.as_bytes()),
        "of {script}"
    );
    Ok(())
}

/// Words, a script, and in how many writes the program prints.
const PRINTS: &[(&[&str], &str, u32)] = &[
    (&["pvpsim", "check", "setup.json"], "", 1),
    (
        &["pvpsim", "book", "setup.json", "script.txt"],
        "print\nprint\nprint\n",
        3,
    ),
    (
        &["pvpsim", "play", "setup.json", "script.txt"],
        "print\ntimer s9\nprint\n",
        3,
    ),
    (
        &["pvpsim", "trace", "setup.json", "script.txt"],
        "beat s1\nprint\nbeat s2\n",
        2,
    ),
    (
        &["pvpsim", "trace", "setup.json", "script.txt", "--svg"],
        "beat s1\nprint\nbeat s2\n",
        1,
    ),
    (&["pvpsim", "help", "codes"], "", 1),
];

/// A writer that fails at any of these writes is reported; one that takes them all is not.
#[test]
fn tells_that_the_writer_failed(rt: HostRuntime) -> Result<(), Fail> {
    for (words, script, writes) in PRINTS {
        for left in 0..*writes {
            ends(&rt, *words, *script, left, (1, "fault output\n"))?;
        }
        ends(&rt, *words, *script, *writes, (0, ""))?;
    }
    Ok(())
}

/// A writer whose reader has left fails too, and nothing is reported.
#[test]
fn tells_nothing_to_a_reader_who_has_left(rt: HostRuntime) -> Result<(), Fail> {
    for (words, script, writes) in PRINTS {
        for left in 0..*writes {
            let with = ErrorKind::BrokenPipe;
            ends_over(&rt, *words, *script, Failing { left, with }, (1, ""))?;
        }
    }
    Ok(())
}

/// Words of which a file has no memory, and words of no file, with what is reported of them.
const UNREAD: &[(&[&str], &str)] = &[
    (&["pvpsim", "check", "too large"], "fault memory\n"),
    (&["pvpsim", "check", "no such"], "fault file\n"),
    (
        &["pvpsim", "book", "setup.json", "too large"],
        "fault memory\n",
    ),
    (
        &["pvpsim", "play", "setup.json", "too large"],
        "fault memory\n",
    ),
    (
        &[
            "pvpsim",
            "trace",
            "setup.json",
            "too large",
            "--svg",
            "--fail",
            "1:1:new",
        ],
        "fault memory\n",
    ),
];

#[test]
fn tells_a_file_for_which_there_is_no_memory(rt: HostRuntime) -> Result<(), Fail> {
    for (words, told) in UNREAD {
        ends(&rt, *words, "", 9, (1, *told))?;
    }
    Ok(())
}

#[test]
fn tells_why_words_were_not_had(rt: HostRuntime) -> Result<(), Fail> {
    let cases = [
        (ErrorKind::OutOfMemory, 1, "fault memory\n"),
        (ErrorKind::InvalidData, 2, "error: a word is not UTF-8\n"),
    ];
    for (refusal, status, told) in cases {
        let mut err: Vec<u8> = Vec::new(rt.alloc());
        assert_eq!(rt; no_words(refusal, &mut err), status);
        assert_eq!(rt; err.as_slice(), told.as_bytes());
    }
    Ok(())
}
