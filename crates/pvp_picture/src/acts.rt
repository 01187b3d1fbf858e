//! Steps that deliver nothing: a dot at whose turn it was, or a cross where nothing came of it.

use crate::arrows::{cross_class, push_cross};
use crate::layout::Sheet;
use crate::scene::{Ending, ShownStep};
use std::alloc::AllocError;

/// Writes the sign of a step that delivers nothing, where the actor whose turn it was has a lifeline.
pub fn push_act(
    text: &mut String,
    sheet: &Sheet,
    x: usize,
    step: &ShownStep,
) -> Result<(), AllocError> {
    if step.delivers.is_some() {
        return Ok(());
    }
    let Some(y) = turn_row(sheet, step) else {
        return Ok(());
    };
    match step.ending {
        Ending::Taken => push_dot(text, dot_class(step), x, y),
        Ending::Dropped(_) | Ending::Refused(_) => {
            push_cross(text, cross_class(step.ending), x, y)
        }
    }
}

/// How far from the top the lifeline stands of whoever's turn a step is.
fn turn_row(sheet: &Sheet, step: &ShownStep) -> Option<usize> {
    sheet.row_of(step.actor?)
}

/// The class of the dot of a step.
fn dot_class(step: &ShownStep) -> &'static str {
    if step.crashes { "crash" } else { "dot" }
}

/// Writes a dot.
pub fn push_dot(text: &mut String, class: &str, x: usize, y: usize) -> Result<(), AllocError> {
    write!(
        text,
        "<circle class=\"{class}\" cx=\"{x}\" cy=\"{y}\" r=\"4.5\"/>\n"
    )
}
