//! Which word of a script's line breaks the rule of the line's fault, and why.

ghost use Rattle.std.specs.Prelude.{◌≡◌, Some, None, IfNone, IfSome};
ghost use Rattle.pvp_text.specs.ScriptWords.{words};
ghost use Rattle.pvp_codes.specs.Broken as spec;
ghost use Rattle.pvp_codes.specs.Near.{near_word};
ghost use Rattle.pvp_text.specs.ScriptTable as table;

use crate::near::{near_command, near_first};
use pvp_text::{
    Field, Kind, Kinds, LineCode, Value, Word, WordFault, commands, firsts, next_word, value_of,
};
use pvp_types::Setup;
use std::fmt;

/// Why a word may not stand where it does.
#[derive(Clone, Copy, Debug, PartialEq, Eq)]
pub enum Breach {
    /// It begins no line of any script; and which word does that is one slip away, where one is.
    BeginsNoLine(Option<Word>),
    /// It begins lines of these kinds of script, and this script is of another.
    OtherKind(Kinds, Kind),
    /// It is no command; and which command is one slip away, where one is.
    NoCommand(Option<Word>),
    /// It may not stand in its form.
    Wrong(WordFault),
}

/// Says in words why the word may not stand there.
impl fmt::Display for Breach {
    ghost output = { λ why. Some (spec.why_text why) };

    fn fmt<W: fmt::Write>(&self, f: &mut fmt::Formatter<W>) -> fmt::Result {
        match self {
            Breach::BeginsNoLine(None) => f.write_str("begins no line of such a script"),
            Breach::BeginsNoLine(Some(near)) => {
                write!(f, "begins no line of such a script: did you mean {near}?")
            }
            Breach::OtherKind(kinds, kind) => { write!(f, "is a line of {kinds}, not of {kind}") }
            Breach::NoCommand(None) => f.write_str("is no command"),
            Breach::NoCommand(Some(near)) => write!(f, "is no command: did you mean {near}?"),
            Breach::Wrong(fault) => write!(f, "{fault}"),
        }
    }
}

/// The first word of a line that breaks the rule of a code, and why; the line's form is given.
// the lemma is for the loop's end, where no word is left
#[tactic(auto, using(crate::proofs::BrokenWords::none_left))]
pub fn first_broken<'a>(
    code: LineCode,
    kind: Kind,
    setup: &Setup,
    form: &[Field],
    line: &'a [u8],
) -> Option<(&'a [u8], Breach)>
    ensures none { IfNone result (spec.first_broken (spec.breaks code kind setup.now) form.now
        (words line.now) ≡ None) }
    ensures some { IfSome result (λ x. spec.first_broken (spec.breaks code kind setup.now) form.now
        (words line.now) ≡ Some (x.0.now, x.1)) }
{
    let mut rest = line;
    for field in form {
        let Some((word, after)) = next_word(rest) else {
            return None;
        };
        if let Some(why) = breaks(code, kind, setup, *field, word) {
            return Some((word, why));
        }
        rest = after;
    }
    None
}

/// Why a word breaks the rule of a code where it stands.
fn breaks(code: LineCode, kind: Kind, setup: &Setup, field: Field, word: &[u8]) -> Option<Breach>
    ensures { result ≡ spec.breaks code kind setup.now field word.now }
{
    match code {
        LineCode::UnknownWord => unknown_word(kind, field, word),
        LineCode::Number => number_fault(value_of(kind, setup, field, word)),
        LineCode::UnknownName => name_fault(value_of(kind, setup, field, word)),
        LineCode::Byte
        | LineCode::WordCount
        | LineCode::LineLength
        | LineCode::LineCount
        | LineCode::NoMemory => None,
    }
}

/// Why a word is unknown that is to name a form.
fn unknown_word(kind: Kind, field: Field, word: &[u8]) -> Option<Breach>
    ensures { result ≡ spec.unknown_word kind field word.now }
{
    match field {
        Field::First => unknown_first(kind, word),
        Field::Command => unknown_command(word),
        _ => None,
    }
}

/// Why a first word is unknown: it begins lines of other kinds of script, or of none.
fn unknown_first(kind: Kind, word: &[u8]) -> Option<Breach>
    ensures { result ≡ spec.unknown_first kind (table.find_word word.now table.firsts)
        (near_word word.now table.firsts) }
{
    match Word::find_word(word, firsts()) {
        Some(known) => other_kind(known.row().kinds, kind),
        None => Some(Breach::BeginsNoLine(near_first(word))),
    }
}

/// Why a first word is unknown in a kind of script, given those that have its lines.
fn other_kind(kinds: Kinds, kind: Kind) -> Option<Breach>
    ensures { result ≡ spec.other_kind kinds kind }
{
    if kinds.has(kind) {
        return None;
    }
    Some(Breach::OtherKind(kinds, kind))
}

/// Why a command is unknown.
fn unknown_command(word: &[u8]) -> Option<Breach>
    ensures { result ≡ spec.unknown_command (table.find_word word.now table.commands)
        (near_word word.now table.commands) }
{
    match Word::find_word(word, commands()) {
        Some(_) => None,
        None => Some(Breach::NoCommand(near_command(word))),
    }
}

/// Why a word is a malformed number, or one too large.
fn number_fault(said: Result<Value, WordFault>) -> Option<Breach>
    ensures { result ≡ spec.number_fault said }
{
    match said {
        Err(fault) if !fault.is_of_name() => Some(Breach::Wrong(fault)),
        _ => None,
    }
}

/// Why a word is a name that nothing has which may stand there.
fn name_fault(said: Result<Value, WordFault>) -> Option<Breach>
    ensures { result ≡ spec.name_fault said }
{
    match said {
        Err(fault) if fault.is_of_name() => Some(Breach::Wrong(fault)),
        _ => None,
    }
}
