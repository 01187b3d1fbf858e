//! What a line says, given the values of its words.
ghost use Rattle.std.specs.Prelude.{◌≡◌, slice_index_or};
ghost use Rattle.pvp_text.specs.declared.script.fields.Value.TheVariants.{None as Nothing};
ghost use Rattle.pvp_text.specs.Script.{statement_of, step_of, command_of};

use crate::script::Statement;
use crate::script::fields::Value;
use crate::script::table::Word;
use pvp_types::{Cmd, Instruction, Step};

/// What a line of this word's form says. Each value stands at the place of its word, and the first
/// word's place is 0.
pub fn statement(word: Word, values: &[Value]) -> Statement
    ensures { result ≡ statement_of word values.now }
{
    match word {
        Word::Print => Statement::Print,
        Word::Drain => Statement::Drain {
            turns: at(values, 1).number(),
        },
        Word::Skip => Statement::Skip {
            envelopes: at(values, 1).number(),
        },
        Word::Cut => Statement::Cut {
            actor: at(values, 1).actor(),
        },
        Word::Heal => Statement::Heal {
            actor: at(values, 1).actor(),
        },
        Word::Chaos => Statement::Chaos {
            seed: at(values, 1).amount(),
            turns: at(values, 2).number(),
        },
        Word::Rest => Statement::Rest {
            milliseconds: at(values, 1).number(),
        },
        _ => Statement::Do(step(word, values)),
    }
}

/// The step of any other line.
fn step(word: Word, values: &[Value]) -> Step
    ensures { result ≡ step_of word values.now }
{
    match word {
        Word::Deliver => Step::Deliver(at(values, 1).number() as usize),
        Word::PayIn => Step::PayIn {
            member: at(values, 1).actor(),
            ccy: at(values, 2).currency(),
            amt: at(values, 3).amount(),
        },
        Word::Close => Step::Close {
            member: at(values, 1).actor(),
            ccy: at(values, 2).currency(),
        },
        Word::Beat => Step::Beat(at(values, 1).actor()),
        Word::Timer => Step::Timer(at(values, 1).actor()),
        Word::Crash => Step::Crash(at(values, 1).actor()),
        Word::Restart => Step::Restart(at(values, 1).actor()),
        _ => Step::Submit {
            client: at(values, 1).actor(),
            cmd: command(word, values),
        },
    }
}

/// The command of a line that has one.
fn command(word: Word, values: &[Value]) -> Cmd
    ensures { result ≡ command_of word values.now }
{
    match word {
        Word::Rescind => Cmd::Rescind {
            reference: at(values, 3).number(),
        },
        Word::Settle => Cmd::Settle {
            most: at(values, 3).number(),
        },
        Word::Fund => Cmd::Fund {
            ccy: at(values, 3).currency(),
            pay: at(values, 4).number(),
            member: at(values, 5).actor(),
            amt: at(values, 6).amount(),
        },
        Word::PayOut => Cmd::PayOut {
            ccy: at(values, 3).currency(),
            amt: at(values, 4).amount(),
        },
        Word::Paid => Cmd::Paid {
            ccy: at(values, 3).currency(),
            out: at(values, 4).number(),
        },
        Word::Returned => Cmd::Returned {
            ccy: at(values, 3).currency(),
            out: at(values, 4).number(),
        },
        _ => Cmd::Instruct(Instruction {
            reference: at(values, 3).number(),
            other: at(values, 4).actor(),
            sell: at(values, 5).currency(),
            sell_amt: at(values, 6).amount(),
            buy: at(values, 7).currency(),
            buy_amt: at(values, 8).amount(),
        }),
    }
}

/// What the word at a place says; no value where there is none.
fn at(values: &[Value], place: usize) -> Value
    ensures { result ≡ slice_index_or values.now place Nothing }
{
    match values.get(place) {
        Some(value) => *value,
        None => Value::None,
    }
}
