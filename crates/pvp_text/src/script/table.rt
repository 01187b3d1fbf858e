//! The forms of a script's lines, in one table: of each the word by which it is known, the kinds of
//! script that have it, and what each word of its lines is to be. Scripts are read by it, and their
//! faults explained.
ghost use Rattle.std.specs.Prelude.{◌≡◌, ◌≤◌, Some, length};
ghost use Rattle.pvp_text.specs.ScriptTable as spec;
ghost use Rattle.pvp_text.specs.ScriptWords.{words};

use crate::script::Kind;
use crate::script::words::{is, next_word};
use Field::{Actor, Amount, Client, Command, Currency, First, Number, Sender, Site, Turns};
use Kinds::{All, BookOrPlay, Live, Play, PlayOrLive};
use std::fmt;

/// What a word of a line is to be.
#[derive(Clone, Copy, Debug, PartialEq, Eq)]
pub enum Field {
    /// The first word.
    First,
    /// The word of a command.
    Command,
    /// A number of 64 bits.
    Amount,
    /// A number of 32 bits.
    Number,
    /// How many turns chaos takes: up to 1,000,000.
    Turns,
    /// A client that sends a command.
    Sender,
    /// A client.
    Client,
    Currency,
    /// A client or a site.
    Actor,
    Site,
}

/// The kinds of script that have lines of a form.
#[derive(Clone, Copy, Debug, PartialEq, Eq)]
pub enum Kinds {
    All,
    BookOrPlay,
    PlayOrLive,
    Play,
    Live,
}

impl Kinds {
    /// Whether a kind is one of these.
    pub fn has(self, kind: Kind) -> bool
        ensures { result ≡ spec.has self kind }
    {
        match self {
            Kinds::All => true,
            Kinds::BookOrPlay => kind.prints(),
            Kinds::PlayOrLive => kind.has_actors(),
            Kinds::Play => kind.prints() && kind.has_actors(),
            Kinds::Live => !kind.prints(),
        }
    }
}

/// Says which kinds these are.
impl fmt::Display for Kinds {
    ghost output = { λ kinds. Some (spec.kinds_text kinds) };

    fn fmt<W: fmt::Write>(&self, f: &mut fmt::Formatter<W>) -> fmt::Result {
        f.write_str(match self {
            Kinds::All => "any script",
            Kinds::BookOrPlay => "a book or a play",
            Kinds::PlayOrLive => "a play or a live run",
            Kinds::Play => "a play",
            Kinds::Live => "a live run",
        })
    }
}

/// A word by which the form of a line is known: its first one or, behind `do` and who sends it, a
/// command.
#[derive(Clone, Copy, Debug, PartialEq, Eq)]
pub enum Word {
    Do,
    Print,
    PayIn,
    Close,
    Beat,
    Timer,
    Crash,
    Restart,
    Deliver,
    Drain,
    Skip,
    Cut,
    Heal,
    Chaos,
    Rest,
    Instruct,
    Rescind,
    Settle,
    Fund,
    PayOut,
    Paid,
    Returned,
}

/// A row of the table.
#[derive(Clone, Copy, Debug)]
pub struct Row {
    /// The word.
    pub text: &'static str,
    /// The kinds of script that have its lines.
    pub kinds: Kinds,
    /// What each word of its lines is to be.
    pub fields: &'static [Field],
}

impl Row {
    /// A row of these.
    fn of(text: &'static str, kinds: Kinds, fields: &'static [Field]) -> Self
        ensures { (result.text.now ≡ text.now) × (result.kinds ≡ kinds)
            × (result.fields.now ≡ fields.now) }
    {
        Row {
            text,
            kinds,
            fields,
        }
    }
}

impl Word {
    /// The first of these words that is written so.
    pub fn find_word(text: &[u8], words: &[Word]) -> Option<Self>
        ensures { result ≡ spec.find_word text.now words.now }
    {
        words.iter().copied().find(|one| is(text, one.row().text))
    }

    /// Its row of the table.
    pub fn row(self) -> Row
        ensures text { result.text.now ≡ spec.text_of self }
        ensures kinds { result.kinds ≡ spec.kinds_of self }
        ensures fields { result.fields.now ≡ spec.fields_of self }
    {
        match self {
            Word::Do => Row::of("do", All, &[First, Sender, Command]),
            Word::Print => Row::of("print", BookOrPlay, &[First]),
            Word::PayIn => Row::of("payin", PlayOrLive, &[First, Client, Currency, Amount]),
            Word::Close => Row::of("close", PlayOrLive, &[First, Client, Currency]),
            Word::Beat => Row::of("beat", PlayOrLive, &[First, Actor]),
            Word::Timer => Row::of("timer", PlayOrLive, &[First, Site]),
            Word::Crash => Row::of("crash", PlayOrLive, &[First, Site]),
            Word::Restart => Row::of("restart", PlayOrLive, &[First, Site]),
            Word::Deliver => Row::of("deliver", Play, &[First, Number]),
            Word::Drain => Row::of("drain", Play, &[First, Number]),
            Word::Skip => Row::of("skip", Play, &[First, Number]),
            Word::Cut => Row::of("cut", Play, &[First, Actor]),
            Word::Heal => Row::of("heal", Play, &[First, Actor]),
            Word::Chaos => Row::of("chaos", Play, &[First, Amount, Turns]),
            Word::Rest => Row::of("rest", Live, &[First, Number]),
            Word::Instruct => Row::of(
                "instruct",
                All,
                &[
                    First, Sender, Command, Number, Client, Currency, Amount, Currency, Amount,
                ],
            ),
            Word::Rescind => Row::of("rescind", All, &[First, Sender, Command, Number]),
            Word::Settle => Row::of("settle", All, &[First, Sender, Command, Number]),
            Word::Fund => Row::of(
                "fund",
                All,
                &[First, Sender, Command, Currency, Number, Client, Amount],
            ),
            Word::PayOut => Row::of("payout", All, &[First, Sender, Command, Currency, Amount]),
            Word::Paid => Row::of("paid", All, &[First, Sender, Command, Currency, Number]),
            Word::Returned => Row::of("returned", All, &[First, Sender, Command, Currency, Number]),
        }
    }
}

/// Writes the word.
impl fmt::Display for Word {
    ghost output = { λ word. Some (spec.text_of word) };

    fn fmt<W: fmt::Write>(&self, f: &mut fmt::Formatter<W>) -> fmt::Result {
        f.write_str(self.row().text)
    }
}

/// The words that begin lines.
pub fn firsts() -> &'static [Word]
    ensures { result.now ≡ spec.firsts }
{
    &[
        Word::Do,
        Word::Print,
        Word::PayIn,
        Word::Close,
        Word::Beat,
        Word::Timer,
        Word::Crash,
        Word::Restart,
        Word::Deliver,
        Word::Drain,
        Word::Skip,
        Word::Cut,
        Word::Heal,
        Word::Chaos,
        Word::Rest,
    ]
}

/// The words of commands.
pub fn commands() -> &'static [Word]
    ensures { result.now ≡ spec.commands }
{
    &[
        Word::Instruct,
        Word::Rescind,
        Word::Settle,
        Word::Fund,
        Word::PayOut,
        Word::Paid,
        Word::Returned,
    ]
}

/// What the words of a line say about its form.
#[derive(Clone, Copy, Debug, PartialEq, Eq)]
pub enum Form {
    /// It is that of this word.
    Of(Word),
    /// The line begins with `do`, and has no command.
    NoCommand,
    /// The first word begins no line.
    NoLine,
    /// There are too few words to know.
    TooFew,
}

impl Form {
    /// The form of a line with these words, for any kind of script.
    pub fn of(line: &[u8]) -> Self
        ensures { result ≡ spec.form_of (words line.now) }
    {
        let Some((first, rest)) = next_word(line) else {
            return Form::TooFew;
        };
        match Word::find_word(first, firsts()) {
            Some(Word::Do) => Form::of_command(rest),
            Some(word) => Form::Of(word),
            None => Form::NoLine,
        }
    }

    /// The form of a line with this sender and command.
    fn of_command(rest: &[u8]) -> Self
        ensures { result ≡ spec.command_form (words rest.now) }
    {
        let Some((_, rest)) = next_word(rest) else {
            return Form::TooFew;
        };
        let Some((command, _)) = next_word(rest) else {
            return Form::TooFew;
        };
        match Word::find_word(command, commands()) {
            Some(word) => Form::Of(word),
            None => Form::NoCommand,
        }
    }

    /// What each word of the line is to be, as far as the form is known.
    pub fn fields(self) -> &'static [Field]
        ensures { result.now ≡ spec.form_fields self }
    {
        match self {
            Form::Of(word) => word.row().fields,
            Form::NoCommand => Word::Do.row().fields,
            Form::NoLine => &[First],
            Form::TooFew => &[],
        }
    }
}
