//! A run that was judged, as the script of a play.
ghost use Rattle.std.specs.Prelude.{◌≡◌, ◌⊎◌, ◌++◌, [], Err, OnOk, IfErr, false, slice_get, string_bytes};
ghost use Rattle.std.specs.Option.{option_map_or};
ghost use Rattle.std.specs.List.{flat_map, list_any};
ghost use Rattle.std.specs.Io.KnownBytes.{Appends};
ghost use Rattle.pvp_text.specs.declared.book.RunFault.TheVariants.{NoMemory, Output};
ghost use Rattle.pvp_live.specs.Scripts.{script_text, lines_text, line_text, asked_text, is_fall};

use crate::told::push_verdict;
use pvp_audit::Verdict;
use pvp_text::book::{RunFault, write_text};
use pvp_trace::attempt::push_step;
use pvp_types::Step;
use pvp_world::{Move, Trail, World};
use std::alloc::{AllocError, Global};
use std::io::Write;
use vr_types::MemCell;

/// How many steps a script has room for, beside its last two lines.
const MOST_STEPS: usize = 65_533;

/// Writes the run of a Yes as the script of a play: a line for each step in the order of the merged list, `print`, and the
/// comment `# audit yes`. Where a site fell, or where there are more steps than a script has lines, a comment says so in
/// place of the lines. A No is written as `print_verdict` does. Where memory is refused nothing is written; how much was
/// where the writer fails is not said.
pub fn print_script<W: Write>(
    alloc: Global,
    verdict: &Verdict,
    writer: &mut W,
) -> Result<(), RunFault>
    ensures written { OnOk result
        (Appends (W.contents writer.old) (W.contents writer.new) (script_text verdict.now)) }
    ensures fault { IfErr result (λ fault. (fault ≡ NoMemory) ⊎ (fault ≡ Output)) }
    ensures no_memory { result ≡ Err NoMemory → writer.new ≡ writer.old }
{
    let mut text = String::new(alloc);
    push_script(&mut text, verdict)?;
    write_text(writer, text.as_str())
}

/// Appends the script of a Yes, or the line of a No.
fn push_script(text: &mut String, verdict: &Verdict) -> Result<(), AllocError>
    ensures { OnOk result (string_bytes text.new ≡ string_bytes text.old
        ++ script_text verdict.now) }
{
    match verdict {
        Verdict::Yes(world) => {
            push_lines(text, world)?;
            text.push_str("# audit yes\n")
        }
        Verdict::No { .. } => push_verdict(text, verdict),
    }
}

/// Appends the lines of a run's steps, or why there are none.
fn push_lines(text: &mut String, world: &World<MemCell>) -> Result<(), AllocError>
    ensures { OnOk result (string_bytes text.new ≡ string_bytes text.old
        ++ lines_text world.now.setup world.now.trail) }
{
    if has_fall(world.trail()) {
        return text.push_str("# a site fell, and no line of a script asks for that\n");
    }
    if world.trail().len() > MOST_STEPS {
        return text.push_str("# there are more steps than a script has lines\n");
    }
    push_moves(text, world)?;
    text.push_str("print\n")
}

/// Whether a site fell.
fn has_fall(trail: &Trail) -> bool
    ensures { result ≡ list_any is_fall trail.now.items }
{
    let mut found = false;
    for at in 0..trail.len() {
        let falls = is_fall_at(trail, at);
        found = found || falls;
    }
    found
}

/// Whether the move at a place, counted from 0, is a site's fall.
fn is_fall_at(trail: &Trail, at: usize) -> bool
    ensures { result ≡ option_map_or is_fall (slice_get trail.now.items at) false }
{
    match trail.get(at) {
        Some(step) => is_fall(step),
        None => false,
    }
}

/// Whether it is a site's fall.
fn is_fall(step: Move) -> bool
    ensures { result ≡ is_fall step }
{
    match step {
        Move::Takes(_) => false,
        Move::Falls(..) => true,
    }
}

/// Appends the line of each step.
fn push_moves(text: &mut String, world: &World<MemCell>) -> Result<(), AllocError>
    ensures { OnOk result (string_bytes text.new ≡ string_bytes text.old
        ++ flat_map (line_text world.now.setup) world.now.trail) }
{
    for at in 0..world.trail().len() {
        push_move(text, world, at)?;
    }
    Ok(())
}

/// Appends the line of the step at a place of the trail, counted from 0.
fn push_move(text: &mut String, world: &World<MemCell>, at: usize) -> Result<(), AllocError>
    ensures { OnOk result (string_bytes text.new ≡ string_bytes text.old
        ++ option_map_or (line_text world.now.setup) (slice_get world.now.trail at) []) }
{
    match world.trail().get(at) {
        Some(step) => push_line(text, world, step),
        None => Ok(()),
    }
}

/// Appends the line of a step.
fn push_line(text: &mut String, world: &World<MemCell>, step: Move) -> Result<(), AllocError>
    ensures { OnOk result (string_bytes text.new ≡ string_bytes text.old
        ++ line_text world.now.setup step) }
{
    match step {
        Move::Takes(step) => {
            push_asked(text, world, step)?;
            text.push_str("\n")
        }
        Move::Falls(..) => Ok(()),
    }
}

/// Appends what the line of a step asks for.
fn push_asked(text: &mut String, world: &World<MemCell>, step: Step) -> Result<(), AllocError>
    ensures { OnOk result (string_bytes text.new ≡ string_bytes text.old
        ++ asked_text world.now.setup step) }
{
    match step {
        Step::Deliver(number) => write!(text, "deliver {number}"),
        _ => push_step(text, world, step),
    }
}
