//! Notes of the steps that were tried, and their text.
ghost use Rattle.std.specs.Prelude.{◌≡◌, ◌≢◌, ◌+◌, ◌<◌, ◌≤◌, ◌∷◌, ◌++◌, [], None, length, IfSome, OnOk, OnErr, option_map, string_bytes, vec_len, vec_capacity};
ghost use Rattle.pvp_play.specs.Notes.{with_notes, notes_text};

use pvp_trace::Attempt;
use pvp_trace::attempt::push_attempt;
use pvp_world::World;
use std::alloc::AllocError;
use vr_types::BootCell;

/// What the lines of a script print.
#[derive(Clone, Copy, Debug, PartialEq, Eq)]
pub enum Telling {
    /// What was refused, and the books where a line asks for them.
    Books,
    /// Each step that was tried, what came of it, and what it sent.
    Steps,
}

/// Makes room for one more note, where notes are made. `Err` where memory is refused.
pub fn make_room(noted: &mut Option<Vec<Attempt>>) -> Result<(), AllocError>
    ensures same { option_map (λ v. v.items) noted.new ≡ option_map (λ v. v.items) noted.old }
    ensures room { OnOk result (IfSome noted.new (λ v. vec_len v < vec_capacity v)) }
    ensures noting { OnErr result (option_map (λ v. v.items) noted.old ≢ None) }
{
    match noted {
        Some(attempts) => attempts.reserve(1),
        None => Ok(()),
    }
}

/// Notes a step that was tried, where notes are made.
pub fn note(noted: &mut Option<Vec<Attempt>>, attempt: Attempt)
    requires { IfSome noted.old (λ v. vec_len v < vec_capacity v) }
    ensures { option_map (λ v. v.items) noted.new ≡ with_notes
        (option_map (λ v. v.items) noted.old) (attempt ∷ []) }
{
    if let Some(attempts) = noted {
        attempts.push_reserved(attempt);
    }
}

/// Appends the steps that were noted after so many before them, numbered on from these.
pub fn push_notes<C: BootCell>(
    text: &mut String,
    world: &World<C>,
    before: usize,
    noted: &[Attempt],
) -> Result<(), AllocError>
    requires { before ≤ length noted.now }
    ensures { OnOk result (string_bytes text.new
        ≡ string_bytes text.old ++ notes_text world.now.setup world.now.post before noted.now) }
{
    for place in before..noted.len() {
        push_attempt(text, world, place + 1, noted[place])?;
    }
    Ok(())
}
