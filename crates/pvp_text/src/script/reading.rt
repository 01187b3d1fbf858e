//! What a line says.
ghost use Rattle.std.specs.Prelude.{◌≡◌, ◌≤◌, length};
ghost use Rattle.std.specs.List.{list_all};
ghost use Rattle.pvp_text.specs.Script.{known_in, line_values, statement_at, line_at, is_printable};
ghost use Rattle.pvp_text.specs.ScriptFields.{values_in, graver_fault, values_or_fault};
ghost use Rattle.pvp_text.specs.ScriptWords.{words};

use crate::script::fields::{Value, WordFault, value_of};
use crate::script::statements::statement;
use crate::script::table::{Field, Form, Word};
use crate::script::words::next_word;
use crate::script::{Kind, LineCode, Statement};
use arrayvec::ArrayVec;
use pvp_types::Setup;

/// How many bytes a line may have.
const LINE_BYTES: usize = 256;

/// How many words the longest form has.
const WORDS: usize = 9;

/// What the words of a line say, in their order.
type Values = ArrayVec<Value, WORDS>;

/// What a line says; `None` where it is skipped.
#[tactic(auto, unfolding(crate::specs::Script::line_at))]
pub fn read_line(kind: Kind, setup: &Setup, line: &[u8]) -> Result<Option<Statement>, LineCode>
    ensures { result ≡ line_at kind setup.now line.now }
{
    if next_word(line).is_none() || line[0] == b'#' {
        return Ok(None);
    }
    if line.len() > LINE_BYTES {
        return Err(LineCode::LineLength);
    }
    if !are_printable(line) {
        return Err(LineCode::Byte);
    }
    Ok(Some(read_statement(kind, setup, line)?))
}

fn are_printable(line: &[u8]) -> bool
    ensures { result ≡ list_all is_printable line.now }
{
    line.iter().all(|b| (32..=126).contains(b))
}

/// What the words of a line say: first its form is found, then its words are counted, then their
/// numbers are read and their names looked up.
#[tactic(auto, unfolding(crate::specs::Script::statement_at))]
fn read_statement(kind: Kind, setup: &Setup, line: &[u8]) -> Result<Statement, LineCode>
    ensures { result ≡ statement_at kind setup.now (words line.now) }
{
    let word = known_word(kind, Form::of(line))?;
    let values = read_words(kind, setup, word.row().fields, line)?;
    Ok(statement(word, values.as_slice()))
}

/// The word of a form, where scripts of this kind have its lines.
fn known_word(kind: Kind, form: Form) -> Result<Word, LineCode>
    ensures { result ≡ known_in kind form }
{
    match form {
        Form::Of(word) if word.row().kinds.has(kind) => Ok(word),
        Form::Of(_) | Form::NoCommand | Form::NoLine => Err(LineCode::UnknownWord),
        Form::TooFew => Err(LineCode::WordCount),
    }
}

/// What the words of a line say, which are to be as many as these. A malformed number is reported
/// before a name that nothing has, wherever they stand.
fn read_words(kind: Kind, setup: &Setup, fields: &[Field], line: &[u8]) -> Result<Values, LineCode>
    requires { length fields.now ≤ 9 }
    ensures { values_in result ≡ line_values kind setup.now fields.now (words line.now) }
{
    let mut values = Values::new();
    let mut fault = None;
    let mut rest = line;
    for field in fields {
        let Some((word, after)) = next_word(rest) else {
            return Err(LineCode::WordCount);
        };
        match value_of(kind, setup, *field, word) {
            Ok(value) => values.push(value),
            Err(found) => fault = Some(graver_fault(fault, found)),
        }
        rest = after;
    }
    if next_word(rest).is_some() {
        return Err(LineCode::WordCount);
    }
    end(fault, values)
}

/// Which of two faults of a line's words is reported: the one that was before, if any, and the one
/// that was found.
fn graver_fault(before: Option<WordFault>, found: WordFault) -> WordFault
    ensures { result ≡ graver_fault before found }
{
    match before {
        Some(before) if !before.is_of_name() => before,
        _ => found,
    }
}

/// All values, where no word has a fault.
fn end(fault: Option<WordFault>, values: Values) -> Result<Values, LineCode>
    ensures { values_in result ≡ values_or_fault fault values.items }
{
    match fault {
        None => Ok(values),
        Some(fault) => Err(fault.code()),
    }
}
