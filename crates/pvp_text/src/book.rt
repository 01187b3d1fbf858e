//! A script run on one book, and what it prints.

ghost use Rattle.std.specs.Prelude.{◌≡◌, ◌+◌, ◌<◌, ◌≤◌, ◌++◌, ◌∷◌, length, decimal, string_bytes, OnOk, IfErr};
ghost use Rattle.pvp_book.specs.Ledger.{pairs_in};
ghost use Rattle.std.specs.Io.KnownBytes.{Appends};
ghost use Rattle.pvp_types.specs.Setup.{IsValid};
ghost use Rattle.pvp_text.specs.declared.book.RunFault.TheVariants.{NoMemory, Output};
ghost use Rattle.pvp_text.specs.declared.script.Kind.TheVariants as kinds;
ghost use Rattle.pvp_text.specs.Script.{script_where};
ghost use Rattle.pvp_text.specs.BookText.{balances_text, counts_text, figures_text, member_line, member_lines, block, statement_text, after_statement, LinesEnd, RunEnds, ReadEnds};

use crate::script::{Kind, Line, LineCode, LineFault, Statement, read_script};
use pvp_book::{Book, PairState};
use pvp_types::{Member, Setup, Step};
use std::alloc::{AllocError, Global};
use std::io::Write;

/// Why a script was not run to its end.
#[derive(Clone, Copy, Debug, PartialEq, Eq)]
pub enum RunFault {
    /// The script's first faulty line. Nothing was run or written.
    Line(LineFault),
    /// Memory was refused.
    NoMemory,
    /// The writer failed.
    Output,
}

impl From<AllocError> for RunFault {
    ghost from_gives = { λ _ fault. fault ≡ NoMemory };

    fn from(_refused: AllocError) -> RunFault {
        RunFault::NoMemory
    }
}

/// Runs a script on a book of its own, and writes what its lines print.
///
/// The script is read whole first, so that a faulty one writes nothing, and its first faulty line
/// is reported, or that memory was refused to keep a line before that. Where memory is refused in
/// the run, what was written is what the script's first lines print, and not all of it. How much
/// was written where the writer fails is not said.
pub fn run_book<W: Write>(
    alloc: Global,
    setup: &Setup,
    script: &[u8],
    writer: &mut W,
) -> Result<(), RunFault>
    requires { IsValid setup.now }
    ensures { RunEnds W.contents setup.now
        (λ refused. script_where refused kinds.Book setup.now script.now)
        result writer.old writer.new }
{
    let lines = read_lines(alloc, setup, Kind::Book, script)?;
    let mut book = Book::fresh(alloc, setup)?;
    run_lines(alloc, &mut book, lines.as_slice(), writer)
}

/// The lines of a script of a kind; else its faulty line, or that memory was refused to keep one before that.
pub fn read_lines(
    alloc: Global,
    setup: &Setup,
    kind: Kind,
    script: &[u8],
) -> Result<Vec<Line>, RunFault>
    ensures { ReadEnds result (λ refused. script_where refused kind setup.now script.now) }
{
    match read_script(alloc, setup, kind, script) {
        Ok(lines) => Ok(lines),
        Err(fault) if fault.code == LineCode::NoMemory => Err(RunFault::NoMemory),
        Err(fault) => Err(RunFault::Line(fault)),
    }
}

/// Runs lines on a book, and writes what they print.
fn run_lines<W: Write>(
    alloc: Global,
    book: &mut Book,
    lines: &[Line],
    writer: &mut W,
) -> Result<(), RunFault>
    requires { book.old.applied + length lines.now ≤ 65535 }
    ensures { LinesEnd book.old lines.now result (W.contents writer.old) (W.contents writer.new) }
{
    let mut text = String::new(alloc);
    for line in lines {
        text.clear();
        push_statement(&mut text, book, line.statement)?;
        write_text(writer, text.as_str())?;
    }
    Ok(())
}

/// Writes a text.
pub fn write_text<W: Write>(writer: &mut W, text: &str) -> Result<(), RunFault>
    ensures written { OnOk result (Appends (W.contents writer.old)
        (W.contents writer.new) text.now) }
    ensures fault { IfErr result (λ fault. fault ≡ Output) }
{
    match writer.write_all(text.as_bytes()) {
        Ok(()) => Ok(()),
        Err(_) => Err(RunFault::Output),
    }
}

/// Runs one line on a book, and appends what it prints. A line that no script of one book has does
/// nothing.
fn push_statement(
    text: &mut String,
    book: &mut Book,
    statement: Statement,
) -> Result<(), AllocError>
    requires { book.old.applied < 65535 }
    ensures printed { OnOk result (string_bytes text.new
        ≡ string_bytes text.old ++ statement_text book.old statement) }
    ensures after { OnOk result (book.new ≡ after_statement book.old statement) }
{
    match statement {
        Statement::Do(Step::Submit { client, cmd }) => {
            let reply = book.apply(client, cmd)?;
            let row = book.applied();
            write!(text, "{row} {reply}\n")
        }
        Statement::Print => push_block(text, "", book),
        _ => Ok(()),
    }
}

/// Appends the block of a book: its members' balances, its pairs, its figures and its open orders. Each line
/// begins with the indent.
pub fn push_block(text: &mut String, indent: &str, book: &Book) -> Result<(), AllocError>
    ensures { OnOk result (string_bytes text.new
        ≡ string_bytes text.old ++ block indent.now book.now) }
{
    push_members(text, indent, book)?;
    write!(text, "{indent}pairs")?;
    push_counts(text, book)?;
    write!(text, "\n{indent}figure")?;
    push_figures(text, book)?;
    let orders = book.open_count();
    write!(text, "\n{indent}open {orders}\n")
}

/// Appends how many pairs are in each state.
fn push_counts(text: &mut String, book: &Book) -> Result<(), AllocError>
    ensures { OnOk result (string_bytes text.new ≡ string_bytes text.old ++ counts_text book.now) }
{
    push_count(text, book, PairState::Unmatched)?;
    push_count(text, book, PairState::Matched)?;
    push_count(text, book, PairState::Settled)?;
    push_count(text, book, PairState::Rescinded)
}

/// Appends how many pairs are in a state.
fn push_count(text: &mut String, book: &Book, state: PairState) -> Result<(), AllocError>
    ensures { OnOk result (string_bytes text.new
        ≡ string_bytes text.old ++ 32 ∷ decimal
        (length (pairs_in book.now.setup book.now.entries state))) }
{
    let count = book.pairs(state);
    write!(text, " {count}")
}

/// Appends a line for each member, with its name and balances.
fn push_members(text: &mut String, indent: &str, book: &Book) -> Result<(), AllocError>
    ensures { OnOk result (string_bytes text.new
        ≡ string_bytes text.old ++ member_lines indent.now book.now) }
{
    for (place, member) in book.setup().members.as_slice().iter().enumerate() {
        push_member(text, indent, book, place as u16 + 1, member)?;
    }
    Ok(())
}

/// Appends a member's name and balances.
fn push_member(
    text: &mut String,
    indent: &str,
    book: &Book,
    m: u16,
    member: &Member,
) -> Result<(), AllocError>
    ensures { OnOk result (string_bytes text.new
        ≡ string_bytes text.old ++ member_line indent.now book.now (m, member.now)) }
{
    text.push_str(indent)?;
    text.push_str(member.name.as_str())?;
    push_balances(text, book, m)?;
    text.push_str("\n")
}

/// Appends a member's balance in each currency.
fn push_balances(text: &mut String, book: &Book, m: u16) -> Result<(), AllocError>
    ensures { OnOk result (string_bytes text.new
        ≡ string_bytes text.old ++ balances_text book.now m (length book.now.setup.currencies)) }
{
    let currencies = book.setup().currency_count();
    for c in 0..currencies {
        let balance = book.balance(m, c);
        write!(text, " {balance}")?;
    }
    Ok(())
}

/// Appends the bank's figure in each currency.
fn push_figures(text: &mut String, book: &Book) -> Result<(), AllocError>
    ensures { OnOk result (string_bytes text.new
        ≡ string_bytes text.old ++ figures_text book.now (length book.now.setup.currencies)) }
{
    let currencies = book.setup().currency_count();
    for c in 0..currencies {
        let figure = book.figure(c);
        write!(text, " {figure}")?;
    }
    Ok(())
}
