//! What the signs of the picture mean, in words.

use crate::acts::push_dot;
use crate::arrows::{push_cross, push_ring};
use crate::layout::Stroke;
use crate::lifeline::{push_band, push_line, push_square, push_words};
use std::alloc::AllocError;

/// How far from the left signs and words of the two columns stand, and how far one line is from the next.
const SIGN: usize = 14;

const WORDS: usize = 70;

const SIGN_TOO: usize = 490;

const WORDS_TOO: usize = 546;

const LINE: usize = 22;

/// Writes the legend, so far from the top.
pub fn push_legend(text: &mut String, top: usize) -> Result<(), AllocError> {
    push_statuses(text, top)?;
    push_envelopes(text, top)?;
    push_signs(text, top)?;
    push_reasons(
        text,
        top.saturating_add(LINE.saturating_mul(9)).saturating_add(8),
    )
}

/// A level line before the words of a column.
fn sample(x: usize, y: usize) -> Stroke {
    Stroke {
        x1: x,
        y1: y,
        x2: x.saturating_add(42),
        y2: y,
    }
}

/// Writes the styles of lifelines, dots and a band.
fn push_statuses(text: &mut String, top: usize) -> Result<(), AllocError> {
    push_status(
        text,
        top,
        0,
        "normal",
        "a site that is normal; between two thin lines, the primary of its view",
    )?;
    push_lead(text, top)?;
    push_status(
        text,
        top,
        1,
        "change",
        "a site that takes part in a change of view",
    )?;
    push_status(
        text,
        top,
        2,
        "recovering",
        "a site that recovers: it asks the others",
    )?;
    push_status(text, top, 3, "down", "a site that is down")?;
    push_status(text, top, 4, "plain", "a client or a node")?;
    push_dots(text, top.saturating_add(LINE.saturating_mul(5)))?;
    let low = top.saturating_add(LINE.saturating_mul(7));
    push_band(text, SIGN, SIGN.saturating_add(42), low)?;
    push_below(text, WORDS, low, "an actor that is cut off from all others")
}

/// Writes what dots mean.
fn push_dots(text: &mut String, y: usize) -> Result<(), AllocError> {
    let low = y.saturating_add(LINE);
    push_dot(text, "dot", SIGN.saturating_add(21), y)?;
    push_below(
        text,
        WORDS,
        y,
        "a step that delivers nothing; its name stands above",
    )?;
    push_dot(text, "crash", SIGN.saturating_add(21), low)?;
    push_below(text, WORDS, low, "a crash")
}

/// Writes the two thin lines of a primary.
fn push_lead(text: &mut String, top: usize) -> Result<(), AllocError> {
    push_line(text, "lead", sample(SIGN, top.saturating_sub(6)))?;
    push_line(text, "lead", sample(SIGN, top.saturating_add(6)))
}

/// Writes a style of lifelines, and what it means.
fn push_status(
    text: &mut String,
    top: usize,
    place: usize,
    class: &str,
    words: &str,
) -> Result<(), AllocError> {
    let y = top.saturating_add(LINE.saturating_mul(place));
    push_line(text, class, sample(SIGN, y))?;
    push_below(text, WORDS, y, words)
}

/// Writes words of the legend, at the height of their sign.
fn push_below(text: &mut String, x: usize, y: usize, words: &str) -> Result<(), AllocError> {
    push_words(text, "legend", x, y.saturating_add(4), words)
}

/// Writes the signs of envelopes.
fn push_envelopes(text: &mut String, top: usize) -> Result<(), AllocError> {
    push_status_too(
        text,
        top,
        0,
        "arrow",
        "an envelope, from the step that sent it (its kind) to the step that delivered it (its number)",
    )?;
    push_crosses(text, top)?;
    push_rings(text, top)?;
    push_status_too(
        text,
        top,
        5,
        "later",
        "an envelope that a step after these delivers; those of steps before come from the left edge",
    )
}

/// Writes what crosses mean.
fn push_crosses(text: &mut String, top: usize) -> Result<(), AllocError> {
    let x = SIGN_TOO.saturating_add(42);
    push_status_too(
        text,
        top,
        1,
        "dropped",
        "an envelope that came and was dropped, as the protocol has it: a cross, and why",
    )?;
    push_cross(text, "faint", x, top.saturating_add(LINE))?;
    push_status_too(
        text,
        top,
        2,
        "lost",
        "what went wrong is red: an envelope or a step that was refused, and its code",
    )?;
    push_cross(text, "cross", x, top.saturating_add(LINE.saturating_mul(2)))
}

/// Writes what rings mean.
fn push_rings(text: &mut String, top: usize) -> Result<(), AllocError> {
    let x = SIGN_TOO.saturating_add(42);
    push_status_too(
        text,
        top,
        3,
        "gone",
        "an envelope that was lost; skip: a line passed over it, cut: a cut held it up",
    )?;
    push_ring(text, "wrong", x, top.saturating_add(LINE.saturating_mul(3)))?;
    push_status_too(text, top, 4, "stub", "an envelope that no step delivered")?;
    push_ring(text, "ring", x, top.saturating_add(LINE.saturating_mul(4)))
}

/// Writes the signs of rows and saves.
fn push_signs(text: &mut String, top: usize) -> Result<(), AllocError> {
    push_tick(text, top.saturating_add(LINE.saturating_mul(6)))?;
    push_save(text, top.saturating_add(LINE.saturating_mul(7)))?;
    push_below(
        text,
        WORDS_TOO,
        top.saturating_add(LINE.saturating_mul(8)),
        "the whole of a message is shown where the pointer rests on it",
    )
}

/// Writes a style of envelopes, and what it means.
fn push_status_too(
    text: &mut String,
    top: usize,
    place: usize,
    class: &str,
    words: &str,
) -> Result<(), AllocError> {
    let y = top.saturating_add(LINE.saturating_mul(place));
    push_line(text, class, sample(SIGN_TOO, y))?;
    push_below(text, WORDS_TOO, y, words)
}

/// Writes what a tick means.
fn push_tick(text: &mut String, y: usize) -> Result<(), AllocError> {
    let x = SIGN_TOO.saturating_add(21);
    let tick = Stroke {
        x1: x,
        y1: y.saturating_sub(8),
        x2: x,
        y2: y.saturating_add(8),
    };
    push_line(text, "tick", tick)?;
    push_below(
        text,
        WORDS_TOO,
        y,
        "rows executed, with their places; at the first site that does, what they came to",
    )
}

/// Writes what a square means.
fn push_save(text: &mut String, y: usize) -> Result<(), AllocError> {
    push_square(text, SIGN_TOO.saturating_add(16), y.saturating_sub(5))?;
    push_below(
        text,
        WORDS_TOO,
        y,
        "a save of the boot cell, and what it then holds",
    )
}

/// Writes why a site drops an envelope, word by word.
fn push_reasons(text: &mut String, y: usize) -> Result<(), AllocError> {
    let low = y.saturating_add(18);
    push_words(
        text,
        "legend",
        SIGN,
        y.saturating_add(2),
        "Why dropped. status: the site's status takes no part in it; view: it is of another view; backup: another site is the primary;",
    )?;
    push_words(
        text,
        "legend",
        SIGN,
        low,
        "known: the site has it already; stale: it is of an earlier time, or does not fit the log; full: the log is full. Codes such as S3: pvpsim trace says them in words.",
    )
}
