//! Faults of setups and of scripts in words, with what broke the rule.

ghost use Rattle.std.specs.Prelude.{◌≡◌, ◌++◌, [], ◌<◌, length, Some, None, nat_lt, codes, IfOk, IfSome, OnOk};
ghost use Rattle.std.specs.List.{list_all};
ghost use Rattle.pvp_types.specs.Setup.{is_between};
ghost use Rattle.pvp_text.specs.ScriptWords.{words};
ghost use Rattle.pvp_text.specs.SetupText.{parts_where};
ghost use Rattle.pvp_codes.specs.Parts.{currency_fault, member_fault, first_part};
ghost use Rattle.pvp_codes.specs.Tree.{wrong_in};
ghost use Rattle.pvp_codes.specs.Explained as spec;

use crate::broken::{Breach, first_broken};
use crate::meanings::{line_meaning, text_meaning};
use crate::parts::{first_currency, first_member};
use crate::tree::{Fault, Flaw, check_text};
use pvp_text::{Field, Form, Kind, LineCode, LineFault, TextFault, cut, next_word, read_parts};
use pvp_types::{Setup, SetupFault};
use std::alloc::{AllocError, Global};

/// The fault of a setup in words, as a line: of a rule that the text breaks, which currency or member breaks it first and
/// how, or how many there are; of a part that is missing or of the wrong type, the path to the first in the order of
/// reading, with places in lists counted from 0, and what is wrong; else the rule.
///
/// The text is read again for it.
pub fn explain_setup(alloc: Global, fault: TextFault, bytes: &[u8]) -> Result<Vec<u8>, AllocError>
    ensures { IfOk result (λ text. text.items ≡ spec.setup_explained fault bytes.now) }
{
    let mut text = Vec::new(alloc);
    match fault {
        TextFault::BadSetup(rule) => push_broken_part(alloc, &mut text, rule, bytes)?,
        TextFault::BadMember => push_wrong_part(alloc, &mut text, bytes)?,
        TextFault::NotJson | TextFault::NoMemory => push_alone(&mut text, fault)?,
    }
    text.extend_from_slice(b"\n")?;
    Ok(text)
}

/// Appends the rule of a setup.
fn push_alone(text: &mut Vec<u8>, fault: TextFault) -> Result<(), AllocError>
    ensures { OnOk result (text.new.items ≡ text.old.items ++ spec.alone_told fault) }
{
    push(text, "setup: ")?;
    push(text, text_meaning(fault))
}

/// Appends which part of a text is missing or of the wrong type, and how.
fn push_wrong_part(alloc: Global, text: &mut Vec<u8>, bytes: &[u8]) -> Result<(), AllocError>
    ensures { OnOk result (text.new.items ≡ text.old.items
        ++ spec.wrong_told (wrong_in bytes.now)) }
{
    match check_text(alloc, bytes) {
        Ok(()) => push_alone(text, TextFault::BadMember),
        Err(Fault::Wrong { path, flaw }) => push_wrong(alloc, text, path.as_bytes(), flaw),
        Err(Fault::NoMemory) => Err(AllocError),
    }
}

/// Appends the path to a part, which begins with a dot where it is not that of the whole text, and what is wrong with it.
fn push_wrong(alloc: Global, text: &mut Vec<u8>, path: &[u8], flaw: Flaw) -> Result<(), AllocError>
    ensures { OnOk result (text.new.items ≡ text.old.items
        ++ spec.wrong_told (Some (path.now, flaw))) }
{
    let reason = format!(in alloc; "{flaw}")?;
    push(text, "setup: ")?;
    match path {
        [] => push(text, "the text is ")?,
        [_, path @ ..] => {
            text.extend_from_slice(path)?;
            push(text, ": ")?;
        }
    }
    push(text, reason.as_str())
}

/// Appends which part of a text broke a rule, and how; the rule where the text has no parts.
#[tactic(auto, unfolding(pvp_text::specs::SetupText::parts_where))]
fn push_broken_part(
    alloc: Global,
    text: &mut Vec<u8>,
    rule: SetupFault,
    bytes: &[u8],
) -> Result<(), AllocError>
    ensures { OnOk result (text.new.items ≡ text.old.items
        ++ spec.broken_part_told rule (parts_where None bytes.now)) }
{
    match read_parts(alloc, bytes) {
        Ok(parts) => push_part(alloc, text, rule, &parts),
        Err(TextFault::NoMemory) => Err(AllocError),
        Err(_) => push_alone(text, TextFault::BadSetup(rule)),
    }
}

/// Appends which part of a setup broke a rule, and how.
fn push_part(
    alloc: Global,
    text: &mut Vec<u8>,
    rule: SetupFault,
    setup: &Setup,
) -> Result<(), AllocError>
    ensures { OnOk result (text.new.items ≡ text.old.items ++ spec.part_told rule setup.now) }
{
    match rule {
        SetupFault::SiteCount => push_amount(alloc, text, rule, setup.sites),
        SetupFault::CurrencyCount => push_amount(alloc, text, rule, setup.currencies.len() as u64),
        SetupFault::MemberCount => push_amount(alloc, text, rule, setup.members.len() as u64),
        SetupFault::CurrencyCode | SetupFault::Rate | SetupFault::Haircut => {
            push_currency(alloc, text, rule, setup)
        }
        SetupFault::MemberName | SetupFault::ListLength | SetupFault::Limit => {
            push_member(alloc, text, rule, setup)
        }
    }
}

/// Appends a rule, and how many there are.
fn push_amount(
    alloc: Global,
    text: &mut Vec<u8>,
    rule: SetupFault,
    amount: u64,
) -> Result<(), AllocError>
    ensures { OnOk result (text.new.items ≡ text.old.items ++ spec.amount_told rule amount) }
{
    let more = format!(in alloc; ": {amount}")?;
    push_alone(text, TextFault::BadSetup(rule))?;
    push(text, more.as_str())
}

/// Appends which currency breaks a rule, and how; the rule where none does.
fn push_currency(
    alloc: Global,
    text: &mut Vec<u8>,
    rule: SetupFault,
    setup: &Setup,
) -> Result<(), AllocError>
    ensures { OnOk result (text.new.items ≡ text.old.items
        ++ spec.currency_told rule (first_part (currency_fault rule) [] setup.now.currencies)) }
{
    let Some((place, currency, why)) = first_currency(rule, setup.currencies.as_slice()) else {
        return push_alone(text, TextFault::BadSetup(rule));
    };
    let number = format!(in alloc; "currency {place}")?;
    let reason = format!(in alloc; ": {why}")?;
    push(text, number.as_str())?;
    push_name(text, currency.code.as_str())?;
    push(text, reason.as_str())
}

/// Appends which member breaks a rule, and how; the rule where none does.
fn push_member(
    alloc: Global,
    text: &mut Vec<u8>,
    rule: SetupFault,
    setup: &Setup,
) -> Result<(), AllocError>
    ensures { OnOk result (text.new.items ≡ text.old.items
        ++ spec.member_told rule (first_part (member_fault rule setup.now) [] setup.now.members)) }
{
    let Some((place, member, why)) = first_member(rule, setup) else {
        return push_alone(text, TextFault::BadSetup(rule));
    };
    let number = format!(in alloc; "member {}", place + 1)?;
    let reason = format!(in alloc; ": {why}")?;
    push(text, number.as_str())?;
    push_name(text, member.name.as_str())?;
    push(text, reason.as_str())
}

/// Appends a name, quoted, where it can be shown.
fn push_name(text: &mut Vec<u8>, name: &str) -> Result<(), AllocError>
    ensures { OnOk result (text.new.items ≡ text.old.items ++ spec.name_told name.now) }
{
    if is_shown(name.as_bytes()) {
        push(text, " \"")?;
        push(text, name)?;
        push(text, "\"")?;
    }
    Ok(())
}

/// The fault of a script in words, as a line: the number of its line, and the first word that broke the rule, where one
/// did and can be printed; else the rule, and the line where its words are at fault and can be printed. Of a byte that is no
/// printed character it has the column, counted from 1, and of a line that is too long how long it is.
///
/// The script's kind and its setup are those that it was read with.
pub fn explain_line(
    alloc: Global,
    fault: LineFault,
    kind: Kind,
    setup: &Setup,
    script: &[u8],
) -> Result<Vec<u8>, AllocError>
    ensures { IfOk result (λ text. text.items ≡ spec.line_explained fault
        kind setup.now script.now) }
{
    let number = fault.line;
    let text = format!(in alloc; "line {number}: ")?;
    let mut bytes = text.into_bytes();
    let line = line_of(number, script);
    push_line(alloc, &mut bytes, fault.code, kind, setup, line)?;
    bytes.extend_from_slice(b"\n")?;
    Ok(bytes)
}

/// Appends what is said of a line: its words where they are at fault and can be shown, else the
/// rule.
fn push_line(
    alloc: Global,
    text: &mut Vec<u8>,
    code: LineCode,
    kind: Kind,
    setup: &Setup,
    line: &[u8],
) -> Result<(), AllocError>
    ensures { OnOk result (text.new.items ≡ text.old.items
        ++ spec.line_told code kind setup.now line.now) }
{
    if is_of_words(code) && is_shown(line) {
        match first_broken(code, kind, setup, Form::of(line).fields(), line) {
            Some((word, why)) => push_broken(alloc, text, word, why),
            None => push_rule(alloc, text, code, line),
        }
    } else {
        push_bytes(alloc, text, code, line)
    }
}

/// Appends what is said of a line that does not concern a word of it.
fn push_bytes(
    alloc: Global,
    text: &mut Vec<u8>,
    code: LineCode,
    line: &[u8],
) -> Result<(), AllocError>
    ensures { OnOk result (text.new.items ≡ text.old.items ++ spec.bytes_told code line.now) }
{
    match code {
        LineCode::Byte => push_unprinted(alloc, text, line),
        LineCode::LineLength => push_length(alloc, text, code, line.len()),
        _ => push(text, line_meaning(code)),
    }
}

/// Appends which byte of a line is the first that is no printed character.
fn push_unprinted(alloc: Global, text: &mut Vec<u8>, line: &[u8]) -> Result<(), AllocError>
    ensures { OnOk result (text.new.items ≡ text.old.items
        ++ spec.unprinted_told line.now (spec.first_unprinted line.now)) }
{
    match first_unprinted(line) {
        Some(place) => {
            let column = place + 1;
            push_byte(alloc, text, line[place], column, column == line.len())
        }
        None => push(text, line_meaning(LineCode::Byte)),
    }
}

/// Appends in which column a byte stands, and what it is.
fn push_byte(
    alloc: Global,
    text: &mut Vec<u8>,
    byte: u8,
    column: usize,
    is_last: bool,
) -> Result<(), AllocError>
    ensures { OnOk result (text.new.items ≡ text.old.items ++ spec.byte_told byte column is_last) }
{
    let name = byte_name(byte, is_last);
    let told = format!(in alloc; "byte {byte} at column {column}: {name}")?;
    push(text, told.as_str())
}

/// Appends the rule of a line, and how long the line is.
fn push_length(
    alloc: Global,
    text: &mut Vec<u8>,
    code: LineCode,
    count: usize,
) -> Result<(), AllocError>
    ensures { OnOk result (text.new.items ≡ text.old.items ++ spec.length_told code count) }
{
    let more = format!(in alloc; ": {count}")?;
    push(text, line_meaning(code))?;
    push(text, more.as_str())
}

/// What a byte is that is no printed character.
fn byte_name(byte: u8, is_last: bool) -> &'static str
    ensures { result.now ≡ spec.byte_name byte is_last }
{
    match byte {
        b'\t' => "a tab",
        b'\r' if is_last => "a Windows line end",
        _ => "outside 32 to 126",
    }
}

/// Where the first byte of a line stands that is no printed character.
fn first_unprinted(line: &[u8]) -> Option<usize>
    ensures place { result ≡ spec.first_unprinted line.now }
    ensures within { IfSome result (λ place. place < length line.now) }
{
    line.iter().position(|byte| !(32..=126).contains(byte))
}

/// Appends a word that is quoted, and why it may not stand where it does.
fn push_broken(
    alloc: Global,
    text: &mut Vec<u8>,
    word: &[u8],
    why: Breach,
) -> Result<(), AllocError>
    ensures { OnOk result (text.new.items ≡ text.old.items ++ spec.broken_told (word.now, why)) }
{
    let reason = format!(in alloc; "{why}")?;
    text.extend_from_slice(b"\"")?;
    text.extend_from_slice(word)?;
    text.extend_from_slice(b"\" ")?;
    push(text, reason.as_str())
}

/// Appends the rule of a line's words, and the line.
fn push_rule(
    alloc: Global,
    text: &mut Vec<u8>,
    code: LineCode,
    line: &[u8],
) -> Result<(), AllocError>
    ensures { OnOk result (text.new.items ≡ text.old.items ++ spec.rule_told code (words line.now)
        ++ codes ": " ++ line.now) }
{
    match code {
        LineCode::WordCount => push_count(alloc, text, Form::of(line).fields(), line)?,
        _ => push(text, line_meaning(code))?,
    }
    text.extend_from_slice(b": ")?;
    text.extend_from_slice(line)?;
    Ok(())
}

/// Appends which it is of too many or too few words, and how many the form has where that is known.
fn push_count(
    alloc: Global,
    text: &mut Vec<u8>,
    form: &[Field],
    line: &[u8],
) -> Result<(), AllocError>
    ensures { OnOk result (text.new.items ≡ text.old.items
        ++ spec.count_told form.now (words line.now)) }
{
    match form {
        [] => push(text, "too few words"),
        [_, ..] => push_counted(alloc, text, form.len(), line),
    }
}

/// Appends which it is of too many or too few words, and how many the form has.
fn push_counted(
    alloc: Global,
    text: &mut Vec<u8>,
    count: usize,
    line: &[u8],
) -> Result<(), AllocError>
    ensures { OnOk result (text.new.items ≡ text.old.items
        ++ spec.counted_told count (words line.now)) }
{
    let which = which(count, line);
    let told = format!(in alloc; "{which}, the form has {count}")?;
    push(text, told.as_str())
}

/// Which it is of too many or too few words, where the form has so many.
fn which(count: usize, line: &[u8]) -> &'static str
    ensures { result.now ≡ spec.which_told count (words line.now) }
{
    if has_more(count, line) {
        "too many words"
    } else {
        "too few words"
    }
}

/// Whether a line has more words than this.
fn has_more(count: usize, line: &[u8]) -> bool
    ensures { result ≡ nat_lt count (length (words line.now)) }
{
    let mut rest = line;
    for _passed in 0..count {
        match next_word(rest) {
            Some((_, after)) => rest = after,
            None => return false,
        }
    }
    next_word(rest).is_some()
}

fn push(text: &mut Vec<u8>, more: &str) -> Result<(), AllocError>
    ensures { OnOk result (text.new.items ≡ text.old.items ++ more.now) }
{
    text.extend_from_slice(more.as_bytes())?;
    Ok(())
}

/// Whether a fault is of a line's words.
fn is_of_words(code: LineCode) -> bool
    ensures { result ≡ spec.is_of_words code }
{
    match code {
        LineCode::UnknownWord | LineCode::WordCount | LineCode::Number | LineCode::UnknownName =>
            true,
        LineCode::Byte | LineCode::LineLength | LineCode::LineCount | LineCode::NoMemory => false,
    }
}

/// Whether a text can be shown on a line of its own.
fn is_shown(text: &[u8]) -> bool
    ensures { result ≡ spec.is_shown text.now }
{
    (1..=256).contains(&text.len()) && are_printed(text)
}

/// Whether each byte is a printed character.
fn are_printed(text: &[u8]) -> bool
    ensures { result ≡ list_all (is_between 32 126) text.now }
{
    text.iter().all(|byte| (32..=126).contains(byte))
}

/// The line of a number, counted from 1; nothing where there is none.
fn line_of(number: u32, text: &[u8]) -> &[u8]
    ensures { result.now ≡ spec.line_of number text.now }
{
    let mut rest = text;
    for _passed in 0..number.saturating_sub(1) {
        rest = cut(rest, b'\n').1;
    }
    cut(rest, b'\n').0
}
