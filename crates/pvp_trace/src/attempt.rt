//! Steps that were tried, in words: what each was, what came of it, what it changed of its site, and what it sent.

ghost use Rattle.std.specs.Prelude.{◌≡◌, ◌++◌, string_bytes, OnOk};
ghost use Rattle.pvp_types.specs.declared.step.Step.TheVariants.{Deliver};
ghost use Rattle.pvp_world.specs.Steps.{TellsFailures};
ghost use Rattle.pvp_trace.specs.Attempts.{Attempts, fell_by, cell_of, step_text, kind_text, came_text, fell_text, sent_line, sent_text, told_text, attempt_text};

use crate::meanings::{meaning, reason};
use crate::messages::{kind_name, push_envelope};
use crate::names::{push_actor, push_currency};
use crate::stand::{Stand, push_changes, site_of, stand_at};
use crate::words::{push_amount, push_command};
use pvp_types::Step;
use pvp_world::{Move, Report, Trail, World, WorldFault};
use std::alloc::{AllocError, Global};
use vr_types::{Boot, BootCell, SiteFault};

/// A step that was tried in a world, and what came of it.
#[derive(Clone, Copy, Debug, PartialEq, Eq)]
pub struct Attempt {
    pub step: Step,
    /// What it led to, or why it was refused.
    pub result: Result<Report, WorldFault>,
    /// What the boot cell of the site that fell by it holds, where one did.
    pub fell: Option<Boot>,
    /// Where the site of the step stood before it; `None` where it is of no site of the world.
    pub was: Option<Stand>,
    /// Where that site stands after it.
    pub now: Option<Stand>,
    /// How many envelopes the post had before it.
    pub before: usize,
    /// How many it had after it.
    pub after: usize,
}

/// Tries a step in a world, as `World::apply` does, and returns the outcome.
pub fn try_step<C: BootCell>(alloc: Global, world: &mut World<C>, step: Step) -> Attempt
    ensures attempts { Attempts C.held world.old world.new step result }
    ensures tells { TellsFailures C.BootCell world.old world.new step result.result }
{
    let site = site_of(world, step);
    let was = stand_at(world, site);
    let before = world.post_len();
    let result = world.apply(alloc, step);
    Attempt {
        step,
        result,
        fell: fell_by(result, world.trail()),
        was,
        now: stand_at(world, site),
        before,
        after: world.post_len(),
    }
}

/// What the cell holds of the site that fell by a step, where it ended as a fall.
fn fell_by(came: Result<Report, WorldFault>, trail: &Trail) -> Option<Boot>
    ensures { result ≡ fell_by came trail.now.items }
{
    match came {
        Err(WorldFault::Site(SiteFault::NoMemory | SiteFault::CellFault)) => cell_of(trail.last()),
        _ => None,
    }
}

/// What the cell holds of the site of which a move is the fall.
fn cell_of(last: Option<Move>) -> Option<Boot>
    ensures { result ≡ cell_of last }
{
    match last {
        Some(Move::Falls(_, cell)) => Some(cell),
        Some(Move::Takes(_)) | None => None,
    }
}

/// Appends a step that was tried: its number among those that were, what it was, and what came of it; then a line for each
/// change of where its site stands, and for each envelope that it sent.
pub fn push_attempt<C: BootCell>(
    text: &mut String,
    world: &World<C>,
    number: usize,
    attempt: Attempt,
) -> Result<(), AllocError>
    ensures { OnOk result (string_bytes text.new
        ≡ string_bytes text.old ++ attempt_text world.now.setup world.now.post number attempt) }
{
    push_told(text, world, number, attempt)?;
    push_changes(text, attempt.was, attempt.now)?;
    push_sent(text, world, attempt)
}

/// Appends the number of a step, what it was, and what came of it.
fn push_told<C: BootCell>(
    text: &mut String,
    world: &World<C>,
    number: usize,
    attempt: Attempt,
) -> Result<(), AllocError>
    ensures { OnOk result (string_bytes text.new
        ≡ string_bytes text.old ++ told_text world.now.setup world.now.post number attempt) }
{
    write!(text, "{number}  ")?;
    push_step(text, world, attempt.step)?;
    push_kind(text, world, attempt.step)?;
    push_came(text, attempt.result)?;
    push_fell(text, attempt)?;
    text.push_str("\n")
}

/// Appends a step as the script's line that asks for it; of a delivery it says to whom it goes.
pub fn push_step<C: BootCell>(
    text: &mut String,
    world: &World<C>,
    step: Step,
) -> Result<(), AllocError>
    ensures { OnOk result (string_bytes text.new
        ≡ string_bytes text.old ++ step_text world.now.setup world.now.post step) }
{
    let setup = world.setup();
    match step {
        Step::Deliver(number) => push_delivery(text, world, number),
        Step::PayIn { ccy, member, amt } => {
            text.push_str("payin ")?;
            push_actor(text, setup, member)?;
            text.push_str(" ")?;
            push_amount(text, setup, ccy, amt)
        }
        Step::Close { ccy, member } => {
            text.push_str("close ")?;
            push_actor(text, setup, member)?;
            text.push_str(" ")?;
            push_currency(text, setup, ccy)
        }
        Step::Submit { client, cmd } => {
            text.push_str("do ")?;
            push_actor(text, setup, client)?;
            text.push_str(" ")?;
            push_command(text, setup, cmd)
        }
        Step::Beat(actor) => {
            text.push_str("beat ")?;
            push_actor(text, setup, actor)
        }
        Step::Timer(site) => write!(text, "timer s{site}"),
        Step::Crash(site) => write!(text, "crash s{site}"),
        Step::Restart(site) => write!(text, "restart s{site}"),
    }
}

/// Appends a delivery, and to whom it goes where an envelope has the number.
fn push_delivery<C: BootCell>(
    text: &mut String,
    world: &World<C>,
    number: usize,
) -> Result<(), AllocError>
    ensures { OnOk result (string_bytes text.new
        ≡ string_bytes text.old ++ step_text world.now.setup world.now.post (Deliver number)) }
{
    write!(text, "deliver {number}")?;
    match world.envelope(number) {
        Some(envelope) => {
            text.push_str(" to ")?;
            push_actor(text, world.setup(), envelope.to)
        }
        None => Ok(()),
    }
}

/// Appends the kind of the message that a step delivers, where it does.
fn push_kind<C: BootCell>(text: &mut String, world: &World<C>, step: Step) -> Result<(), AllocError>
    ensures { OnOk result (string_bytes text.new ≡ string_bytes text.old
        ++ kind_text world.now.post step) }
{
    let Step::Deliver(number) = step else {
        return Ok(());
    };
    match world.envelope(number) {
        Some(envelope) => {
            text.push_str(", ")?;
            text.push_str(kind_name(&envelope.msg))
        }
        None => Ok(()),
    }
}

/// Appends why a site dropped a step, or why it was refused.
fn push_came(text: &mut String, came: Result<Report, WorldFault>) -> Result<(), AllocError>
    ensures { OnOk result (string_bytes text.new ≡ string_bytes text.old ++ came_text came) }
{
    match came {
        Ok(report) => match report.dropped {
            Some(why) => {
                let reason = reason(why);
                write!(text, ": dropped, {reason}")
            }
            None => Ok(()),
        },
        Err(fault) => {
            let meaning = meaning(fault);
            write!(text, ": {fault}, {meaning}")
        }
    }
}

/// Appends what the boot cell of a site that fell holds.
fn push_fell(text: &mut String, attempt: Attempt) -> Result<(), AllocError>
    ensures { OnOk result (string_bytes text.new ≡ string_bytes text.old ++ fell_text attempt) }
{
    match attempt.fell {
        Some(boot) => {
            let boots = boot.boots;
            write!(text, ", its cell holds {boots}")
        }
        None => Ok(()),
    }
}

/// Appends a line for each envelope that a step sent.
fn push_sent<C: BootCell>(
    text: &mut String,
    world: &World<C>,
    attempt: Attempt,
) -> Result<(), AllocError>
    ensures { OnOk result (string_bytes text.new
        ≡ string_bytes text.old ++ sent_text world.now.setup world.now.post attempt) }
{
    for place in attempt.before..attempt.after {
        push_sent_line(text, world, place + 1)?;
    }
    Ok(())
}

/// Appends the line of the envelope of a number, where there is one.
fn push_sent_line<C: BootCell>(
    text: &mut String,
    world: &World<C>,
    number: usize,
) -> Result<(), AllocError>
    ensures { OnOk result (string_bytes text.new
        ≡ string_bytes text.old ++ sent_line world.now.setup world.now.post number) }
{
    match world.envelope(number) {
        Some(envelope) => {
            write!(text, "   {number}  ")?;
            push_envelope(text, world.setup(), envelope)?;
            text.push_str("\n")
        }
        None => Ok(()),
    }
}
