//! What a line that tries no step did to the cuts and the cursor, and what a drain passed over, in words.
ghost use Rattle.std.specs.Prelude.{◌≡◌, ◌≢◌, ◌++◌, [], None, string_bytes, OnOk, OnErr};
ghost use Rattle.pvp_play.specs.Passing.{taken_text, skip_text, held_back, held_text, passing_text};

use crate::player::Player;
use pvp_text::Statement;
use pvp_trace::names::push_actor;
use pvp_types::Setup;
use pvp_world::WorldFault;
use std::alloc::{AllocError, Global};
use vr_types::BootCell;

/// Appends what a line did to the cuts, and to the cursor that stood at `from` before it: whom it cut off or healed, which
/// envelopes it skipped, and which a drain passed over at a cut. `Err` where memory is refused, and there is something to
/// tell.
pub fn push_passing<C: BootCell>(
    alloc: Global,
    text: &mut String,
    player: &Player<C>,
    statement: Statement,
    told: Option<WorldFault>,
    from: usize,
) -> Result<(), AllocError>
    ensures text { OnOk result (string_bytes text.new
        ≡ string_bytes text.old ++ passing_text statement told from player.now) }
    ensures stopped { OnErr result (passing_text statement told from player.now ≢ []) }
{
    match statement {
        Statement::Cut { actor } => push_taken(text, player.world().setup(), "cut", actor, told),
        Statement::Heal { actor } => push_taken(text, player.world().setup(), "heal", actor, told),
        Statement::Skip { .. } => push_skipped(text, from, player.cursor()),
        Statement::Drain { .. } => push_held(alloc, text, player, from),
        _ => Ok(()),
    }
}

/// Appends whom a line cut off or healed, where it was not refused.
fn push_taken(
    text: &mut String,
    setup: &Setup,
    word: &str,
    actor: u16,
    told: Option<WorldFault>,
) -> Result<(), AllocError>
    ensures text { OnOk result (string_bytes text.new
        ≡ string_bytes text.old ++ taken_text setup.now word.now actor told) }
    ensures stopped { OnErr result (told ≡ None) }
{
    if told.is_some() {
        return Ok(());
    }
    text.push_str(word)?;
    text.push_str(" ")?;
    push_actor(text, setup, actor)?;
    text.push_str("\n")
}

/// Appends which envelopes the cursor was moved over.
fn push_skipped(text: &mut String, from: usize, to: usize) -> Result<(), AllocError>
    ensures text { OnOk result (string_bytes text.new
        ≡ string_bytes text.old ++ skip_text from to) }
    ensures stopped { OnErr result (skip_text from to ≢ []) }
{
    if from >= to {
        return Ok(());
    }
    let first = from + 1;
    if first == to {
        write!(text, "skip {first}\n")
    } else {
        write!(text, "skip {first} to {to}\n")
    }
}

/// Appends the numbers of the envelopes that the cursor passed over at a cut.
fn push_held<C: BootCell>(
    alloc: Global,
    text: &mut String,
    player: &Player<C>,
    from: usize,
) -> Result<(), AllocError>
    ensures text { OnOk result (string_bytes text.new
        ≡ string_bytes text.old ++ held_text (held_back from player.now)) }
    ensures stopped { OnErr result (held_text (held_back from player.now) ≢ []) }
{
    let numbers = player.held_back(alloc, from)?;
    push_numbers(text, numbers.as_slice())
}

/// Appends the numbers of envelopes that a cut held back, where there are some.
fn push_numbers(text: &mut String, numbers: &[usize]) -> Result<(), AllocError>
    ensures text { OnOk result (string_bytes text.new ≡ string_bytes text.old
        ++ held_text numbers.now) }
    ensures stopped { OnErr result (held_text numbers.now ≢ []) }
{
    let Some((first, others)) = numbers.split_first() else {
        return Ok(());
    };
    write!(text, "held back by a cut: {first}")?;
    for number in others {
        write!(text, ", {number}")?;
    }
    text.push_str("\n")
}
