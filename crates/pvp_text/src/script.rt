//! Scripts: texts whose lines each ask for one thing.
//!
//! A line ends with LF, which the last may lack, so after an LF at the end no further line begins.
//! Lines are counted from 1. A line whose first byte is `#` and one without words are skipped, but
//! counted. Words are parted by one or more spaces.
//!
//! The table of `Word` has each form of these:
//!
//! ```text
//! do WHO instruct REF OTHER SELL AMT BUY AMT
//! do WHO rescind REF
//! do WHO settle MOST
//! do WHO fund CCY PAY MEMBER AMT
//! do WHO payout CCY AMT
//! do WHO paid CCY OUT
//! do WHO returned CCY OUT
//! print                       Book, Play
//! payin MEMBER CCY AMT        Play, Live
//! close MEMBER CCY            Play, Live
//! beat ACTOR                  Play, Live
//! timer SITE                  Play, Live
//! crash SITE                  Play, Live
//! restart SITE                Play, Live
//! deliver E                   Play
//! drain N                     Play
//! skip N                      Play
//! cut ACTOR                   Play
//! heal ACTOR                  Play
//! chaos SEED COUNT            Play
//! rest MS                     Live
//! ```
//!
//! A number is decimal digits without a leading zero, but for `0` itself: of 64 bits for AMT and SEED, up
//! to 1,000,000 for COUNT, and of 32 bits otherwise.
//!
//! WHO, OTHER and MEMBER are a client: `OP` for the operator, a member's name, or a currency's code for
//! its node. CCY, SELL and BUY are a currency's code. Each of them may be `@` and its number instead, up
//! to 65535 for a client and up to 255 for a currency, in the setup or not. In a play and in a live run
//! the nodes send their own commands: there a currency's code is no WHO, though a node's number is read.
//!
//! SITE is `s` and a site's number up to 255. ACTOR is a client or a site, and `@` names an actor
//! by its number: that of a client is its own, and that of site K is 200 + K. What begins with `@`,
//! or with `s` where a site may stand, is judged as a number: `@200` is no SITE, and as malformed
//! as `s256`.
ghost use Rattle.std.specs.Prelude.{◌≡◌, ◌≤◌, Some, length};
ghost use Rattle.pvp_text.specs.Script.{script_where, lines_at, of_line, line_fault_is_memory, lines_in};
ghost use Rattle.pvp_text.specs.ScriptTable.{prints, has_actors, kind_text};
ghost use Rattle.pvp_text.specs.Reading.{Reads};
ghost use Rattle.pvp_text.specs.ScriptWords.{lines};
ghost use Rattle.pvp_text.specs.declared.script.LineCode.TheVariants.{NoMemory};

mod fields;
mod reading;
mod statements;
mod table;
mod words;

use crate::script::reading::read_line;
pub use fields::{Value, WordFault, amount, value_of};
use pvp_types::{Setup, Step};
use std::alloc::{AllocFailed, Global};
use std::fmt;
pub use table::{Field, Form, Kinds, Row, Word, commands, firsts};
pub use words::{cut, next_line, next_word};

/// What a script is run on, which decides what lines it may have.
#[derive(Clone, Copy, Debug, PartialEq, Eq)]
pub enum Kind {
    /// One book: `do` and `print`.
    Book,
    /// A bank of actors, whose envelopes go as the script says.
    Play,
    /// A bank of actors whose envelopes go by themselves.
    Live,
}

impl Kind {
    /// Whether a script of this kind may have `print`.
    fn prints(self) -> bool
        ensures { result ≡ prints self }
    {
        match self {
            Kind::Book | Kind::Play => true,
            Kind::Live => false,
        }
    }

    /// Whether a script of this kind may have the lines that give actors events.
    fn has_actors(self) -> bool
        ensures { result ≡ has_actors self }
    {
        match self {
            Kind::Book => false,
            Kind::Play | Kind::Live => true,
        }
    }
}

/// Says which kind it is.
impl fmt::Display for Kind {
    ghost output = { λ kind. Some (kind_text kind) };

    fn fmt<W: fmt::Write>(&self, f: &mut fmt::Formatter<W>) -> fmt::Result {
        f.write_str(match self {
            Kind::Book => "a book",
            Kind::Play => "a play",
            Kind::Live => "a live run",
        })
    }
}

/// What one line asks for.
#[derive(Clone, Copy, Debug, PartialEq, Eq)]
pub enum Statement {
    /// A step, of which a script of one book has a client's command alone.
    Do(Step),
    /// To print the book.
    Print,
    /// Envelopes arrive for so many turns.
    Drain { turns: u32 },
    /// So many envelopes are passed over.
    Skip { envelopes: u32 },
    /// An actor is cut off.
    Cut { actor: u16 },
    /// An actor is cut off no longer.
    Heal { actor: u16 },
    /// So many turns go as the seed has it.
    Chaos { seed: u64, turns: u32 },
    /// So much time passes.
    Rest { milliseconds: u32 },
}

/// A line that asks for something, and its number.
#[derive(Clone, Copy, Debug, PartialEq, Eq)]
pub struct Line {
    pub number: u32,
    pub statement: Statement,
}

/// What is wrong with a line.
#[derive(Clone, Copy, Debug, PartialEq, Eq)]
pub enum LineCode {
    /// L1: a byte is outside 32..=126.
    Byte,
    /// L2: the first word, or a command's, is unknown or not of this kind.
    UnknownWord,
    /// L3: the line has more or fewer words than its form.
    WordCount,
    /// L4: a number is malformed or too large for its field.
    Number,
    /// L5: no client, member, currency or site has this name.
    UnknownName,
    /// L6: the line is longer than 256 bytes.
    LineLength,
    /// L7: the script has more than 65,535 lines.
    LineCount,
    /// L8: memory to keep the line was refused.
    NoMemory,
}

/// Writes the code as `L1` to `L8`.
impl fmt::Display for LineCode {
    ghost use Rattle.std.specs.Prelude.{Some};
    ghost use Rattle.pvp_text.specs.Script.{line_code_text};

    ghost output = { λ code. Some (line_code_text code) };

    fn fmt<W: fmt::Write>(&self, f: &mut fmt::Formatter<W>) -> fmt::Result {
        f.write_str(match self {
            LineCode::Byte => "L1",
            LineCode::UnknownWord => "L2",
            LineCode::WordCount => "L3",
            LineCode::Number => "L4",
            LineCode::UnknownName => "L5",
            LineCode::LineLength => "L6",
            LineCode::LineCount => "L7",
            LineCode::NoMemory => "L8",
        })
    }
}

/// The line that could not be read, and why.
#[derive(Clone, Copy, Debug, PartialEq, Eq)]
pub struct LineFault {
    pub line: u32,
    pub code: LineCode,
}

/// L8, at the line that memory had no room for.
impl From<AllocFailed<Line>> for LineFault {
    ghost from_gives = { λ refused fault. fault ≡ record {
      line = refused.value.number;
      code = NoMemory;
    } };

    fn from(refused: AllocFailed<Line>) -> LineFault {
        LineFault {
            line: refused.value.number,
            code: LineCode::NoMemory,
        }
    }
}

/// How many lines a script may have.
const LINES: usize = 65_535;

/// The lines of a script that are not skipped, in their order. An `Err` has L7 and line 65,536
/// where there are too many lines, and else the first faulty line and the first of its faults in
/// the order L6, L1, L2, L3, L4, L5. L8 may stand in place of the lines, or of a fault, at a line
/// before it that asks for something: such a line is kept, which alone takes memory. So it never
/// stands in place of L7.
#[tactic(auto, unfolding(crate::specs::Script::script_where))]
pub fn read_script(
    alloc: Global,
    setup: &Setup,
    kind: Kind,
    bytes: &[u8],
) -> Result<Vec<Line>, LineFault>
    ensures { Reads lines_in line_fault_is_memory result
        (λ refused. script_where refused kind setup.now bytes.now) }
{
    if count_lines(bytes) > LINES {
        return Err(LineFault {
            line: LINES as u32 + 1,
            code: LineCode::LineCount,
        });
    }
    read_lines(alloc, setup, kind, bytes)
}

fn count_lines(text: &[u8]) -> usize
    ensures { result ≡ length (lines text.now) }
{
    let mut count = 0;
    let mut rest = text;
    while let Some((_, after)) = next_line(rest) {
        count += 1;
        rest = after;
    }
    count
}

fn read_lines(alloc: Global, setup: &Setup, kind: Kind, text: &[u8]) -> Result<Vec<Line>, LineFault>
    requires { length (lines text.now) ≤ 65535 }
    ensures { Reads lines_in line_fault_is_memory result
        (λ refused. lines_at refused kind setup.now 1 (lines text.now)) }
{
    let mut found = Vec::new(alloc);
    let mut number = 1;
    let mut rest = text;
    while let Some((line, after)) = next_line(rest) {
        if let Some(statement) = of_line(number, read_line(kind, setup, line))? {
            found.push(Line { number, statement })?;
        }
        number += 1;
        rest = after;
    }
    Ok(found)
}

fn of_line<T>(line: u32, said: Result<T, LineCode>) -> Result<T, LineFault>
    ensures { result ≡ of_line line said }
{
    said.map_err(|code| LineFault { line, code })
}
