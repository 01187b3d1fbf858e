//! A script played in a new world, and what its lines print.
ghost use Rattle.std.specs.Prelude.{◌≡◌, ◌≢◌, ◌<◌, ◌⊎◌, ◌++◌, [], None, length, string_bytes, IfOk, OnOk, OnErr};
ghost use Rattle.pvp_types.specs.Setup.{IsValid};
ghost use Rattle.pvp_text.specs.declared.script.Kind.TheVariants as kinds;
ghost use Rattle.pvp_text.specs.Script.{script_where};
ghost use Rattle.pvp_play.specs.Notes.{notes};
ghost use Rattle.pvp_play.specs.Passing.{passing_text};
ghost use Rattle.pvp_play.specs.Player.{beginning};
ghost use Rattle.pvp_play.specs.Lines.{no_notes, Does, Stops, refused_text, print_text, steps_text, line_text, Prints, PlaysLine, LineStops, LinesEnd, IsOpening, PlayEnds};

use crate::books::push_books;
use crate::cells::{Fail, new_cells};
use crate::chaos::rage;
use crate::notes::{Telling, push_notes};
use crate::passing::push_passing;
use crate::player::Player;
use pvp_text::book::{read_lines, write_text};
use pvp_text::{Kind, Line, RunFault, Statement};
use pvp_types::Setup;
use pvp_world::{World, WorldFault};
use std::alloc::{AllocError, Global};
use std::io::Write;
use vr_types::{BootCell, MemCell};

/// Plays a script in a new world of the setup, over new cells no save of which fails, and writes what its lines print: it
/// is `play_failing` with nothing that is to fail.
pub fn play<W: Write>(
    alloc: Global,
    setup: &Setup,
    script: &[u8],
    writer: &mut W,
) -> Result<(), RunFault>
    requires { IsValid setup.now }
    ensures { PlayEnds W.contents setup.now [] Telling.Books
        (λ refused. script_where refused kinds.Play setup.now script.now)
        result writer.old writer.new }
{
    play_failing(alloc, setup, &[], script, writer)
}

/// Plays a script in a new world of the setup, over new cells some of whose saves are to fail, and writes what its lines
/// print. What is to fail of a site that the setup lacks never does, and of a site that is named twice the first counts.
///
/// The script is read whole first, so that a faulty one writes nothing, and its first faulty line
/// is reported, or that memory was refused to keep a line before that. A line that is refused, or
/// that refuses its step, prints so, and the play goes on; but where memory is refused it ends, and
/// what was written is what the script's first lines print, and not all of it. How much was written
/// where the writer fails is not said.
pub fn play_failing<W: Write>(
    alloc: Global,
    setup: &Setup,
    fails: &[Fail],
    script: &[u8],
    writer: &mut W,
) -> Result<(), RunFault>
    requires { IsValid setup.now }
    ensures { PlayEnds W.contents setup.now fails.now Telling.Books
        (λ refused. script_where refused kinds.Play setup.now script.now)
        result writer.old writer.new }
{
    play_telling(alloc, setup, fails, Telling::Books, script, writer)
}

/// Plays a script as `play_failing` does, and in place of what its lines print writes each step that they try, what came
/// of it, and what it sent; of a cut, a heal and a skip what it did; and which envelopes a drain passed over at a cut.
/// Steps are numbered from 1; a line that is refused and tries no step, as a cut, prints what it prints in a play. Memory
/// is refused for the notes of steps too.
pub fn trace<W: Write>(
    alloc: Global,
    setup: &Setup,
    fails: &[Fail],
    script: &[u8],
    writer: &mut W,
) -> Result<(), RunFault>
    requires { IsValid setup.now }
    ensures { PlayEnds W.contents setup.now fails.now Telling.Steps
        (λ refused. script_where refused kinds.Play setup.now script.now)
        result writer.old writer.new }
{
    play_telling(alloc, setup, fails, Telling::Steps, script, writer)
}

/// Plays a script in a new world of the setup, and writes what its lines print.
fn play_telling<W: Write>(
    alloc: Global,
    setup: &Setup,
    fails: &[Fail],
    telling: Telling,
    script: &[u8],
    writer: &mut W,
) -> Result<(), RunFault>
    requires { IsValid setup.now }
    ensures { PlayEnds W.contents setup.now fails.now telling
        (λ refused. script_where refused kinds.Play setup.now script.now)
        result writer.old writer.new }
{
    let lines = read_lines(alloc, setup, Kind::Play, script)?;
    let mut player = new_player(alloc, setup, fails, telling)?;
    play_lines(alloc, telling, &mut player, lines.as_slice(), writer)
}

/// A player of a new world of the setup, over new cells some of whose saves are to fail.
fn new_player(
    alloc: Global,
    setup: &Setup,
    fails: &[Fail],
    telling: Telling,
) -> Result<Player<MemCell>, AllocError>
    requires { IsValid setup.now }
    ensures { IfOk result (IsOpening setup.now fails.now telling) }
{
    let cells = new_cells(alloc, 2 * setup.faults() + 1, fails)?;
    let world = World::new(alloc, setup, cells)?;
    Ok(player_of(alloc, world, telling))
}

/// A player of a world, who makes the notes that are printed.
fn player_of<C: BootCell>(alloc: Global, world: World<C>, telling: Telling) -> Player<C>
    ensures { result ≡ beginning (no_notes telling) world }
{
    match telling {
        Telling::Books => Player::new(alloc, world),
        Telling::Steps => Player::with_record(alloc, world),
    }
}

/// Plays lines, and writes what they print.
fn play_lines<C: BootCell, W: Write>(
    alloc: Global,
    telling: Telling,
    player: &mut Player<C>,
    lines: &[Line],
    writer: &mut W,
) -> Result<(), RunFault>
    ensures { LinesEnd C.BootCell telling player.old lines.now player.new result
        (W.contents writer.old) (W.contents writer.new) }
{
    for line in lines {
        player.world().is_proved();
        let text = play_line(alloc, telling, player, *line)?;
        write_text(writer, text.as_str())?;
    }
    player.world().is_proved();
    Ok(())
}

/// Plays a line, and answers what it prints. `Err` where memory is refused.
fn play_line<C: BootCell>(
    alloc: Global,
    telling: Telling,
    player: &mut Player<C>,
    line: Line,
) -> Result<String, AllocError>
    ensures played { IfOk result (λ text.
        PlaysLine C.BootCell telling line player.old player.new (string_bytes text)) }
    ensures stopped { OnErr result (LineStops C.BootCell telling line player.old player.new) }
{
    let before = player.notes().len();
    let from = player.cursor();
    let told = do_line(alloc, player, line.statement)?;
    match telling {
        Telling::Books => books_told(alloc, player.world(), line, told),
        Telling::Steps => line_told(alloc, player, line, told, before, from),
    }
}

/// What a line prints where books are asked for. `Err` where memory is refused.
fn books_told<C: BootCell>(
    alloc: Global,
    world: &World<C>,
    line: Line,
    told: Option<WorldFault>,
) -> Result<String, AllocError>
    ensures text { IfOk result (λ text. string_bytes text
        ≡ refused_text line.number told ++ print_text C.held line.statement world.now) }
    ensures stopped { OnErr result ((told ≢ None) ⊎ (line.statement ≡ Statement.Print)) }
{
    let mut text = refused_text(alloc, line.number, told)?;
    push_print(&mut text, line.statement, world)?;
    Ok(text)
}

/// What a line prints where steps are asked for: its steps, and what it did to the cuts, and to the
/// cursor that stood at `from` before it. `Err` where memory is refused.
fn line_told<C: BootCell>(
    alloc: Global,
    player: &Player<C>,
    line: Line,
    told: Option<WorldFault>,
    before: usize,
    from: usize,
) -> Result<String, AllocError>
    ensures text { IfOk result (λ text. string_bytes text
        ≡ steps_text player.now.world line.number told before (notes player.now.noted)
        ++ passing_text line.statement told from player.now) }
    ensures stopped { OnErr result ((told ≢ None) ⊎ (before < length (notes player.now.noted))
        ⊎ (passing_text line.statement told from player.now ≢ [])) }
{
    let mut text = steps_told(alloc, player, line.number, told, before)?;
    push_passing(alloc, &mut text, player, line.statement, told, from)?;
    Ok(text)
}

/// The steps of a line: those that were noted after so many before it, or, where it tried none, what
/// was refused. `Err` where memory is refused.
fn steps_told<C: BootCell>(
    alloc: Global,
    player: &Player<C>,
    number: u32,
    told: Option<WorldFault>,
    before: usize,
) -> Result<String, AllocError>
    ensures text { IfOk result (λ text. string_bytes text
        ≡ steps_text player.now.world number told before (notes player.now.noted)) }
    ensures stopped { OnErr result ((told ≢ None) ⊎ (before < length (notes player.now.noted))) }
{
    let noted = player.notes();
    if before >= noted.len() {
        return refused_text(alloc, number, told);
    }
    let mut text = String::new(alloc);
    push_notes(&mut text, player.world(), before, noted)?;
    Ok(text)
}

/// Does what a line says, and answers why it was refused, if it was. `Err` where memory is refused; of a line of several
/// steps those before that one are then done.
pub fn do_line<C: BootCell>(
    alloc: Global,
    player: &mut Player<C>,
    statement: Statement,
) -> Result<Option<WorldFault>, AllocError>
    ensures done { IfOk result (Does C.BootCell statement player.old player.new) }
    ensures stopped { OnErr result (Stops C.BootCell statement player.old player.new) }
{
    match statement {
        Statement::Do(step) => player.step(alloc, step),
        Statement::Drain { turns } => {
            player.drain(alloc, turns)?;
            Ok(None)
        }
        Statement::Skip { envelopes } => {
            player.skip(envelopes);
            Ok(None)
        }
        Statement::Cut { actor } => player.cut(actor),
        Statement::Heal { actor } => Ok(player.heal(actor)),
        Statement::Chaos { seed, turns } => {
            rage(alloc, player, seed, turns)?;
            Ok(None)
        }
        Statement::Print | Statement::Rest { .. } => Ok(None),
    }
}

/// What a line prints of what was refused.
fn refused_text(alloc: Global, number: u32, told: Option<WorldFault>) -> Result<String, AllocError>
    ensures text { IfOk result (λ text. string_bytes text ≡ refused_text number told) }
    ensures stopped { OnErr result (told ≢ None) }
{
    let mut text = String::new(alloc);
    if let Some(fault) = told {
        write!(text, "refused {number} {fault}\n")?;
    }
    Ok(text)
}

/// Appends the books, where a line asks for them.
fn push_print<C: BootCell>(
    text: &mut String,
    statement: Statement,
    world: &World<C>,
) -> Result<(), AllocError>
    ensures printed { OnOk result (string_bytes text.new
        ≡ string_bytes text.old ++ print_text C.held statement world.now) }
    ensures stopped { OnErr result (statement ≡ Statement.Print) }
{
    match statement {
        Statement::Print => push_books(text, world),
        _ => Ok(()),
    }
}
