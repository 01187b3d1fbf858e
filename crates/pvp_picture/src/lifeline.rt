//! The lifelines of actors: a site's has the style of its status from step to step.

use crate::escape::push_escaped;
use crate::labels::status_name;
use crate::layout::{LEFT, NAMES, Sheet, Stroke, place_of};
use crate::scene::{Actor, Cut, Snapshot};
use std::alloc::AllocError;

/// How far a band reaches above and below its lifeline.
const BAND: usize = 14;

/// Writes a band behind the lifeline of each actor that is cut off, from step to step.
pub fn push_cuts(text: &mut String, sheet: &Sheet) -> Result<(), AllocError> {
    for cut in sheet.scene.cuts.iter() {
        if let Some(place) = place_of(sheet.scene.actors.as_slice(), Some(cut.actor)) {
            push_cut(text, sheet, sheet.row(place), *cut)?;
        }
    }
    Ok(())
}

/// Writes the band of a cut, where it is among the steps that are shown.
fn push_cut(text: &mut String, sheet: &Sheet, y: usize, cut: Cut) -> Result<(), AllocError> {
    let start = sheet.behind(cut.after);
    let end = match cut.until {
        Some(until) => sheet.behind(until),
        None => sheet.lifeline_end(),
    };
    if start < end {
        push_band(text, start, end, y)?;
    }
    Ok(())
}

/// Writes a band along a line.
pub fn push_band(text: &mut String, start: usize, end: usize, y: usize) -> Result<(), AllocError> {
    let top = y.saturating_sub(BAND);
    let wide = end.saturating_sub(start);
    let high = BAND.saturating_mul(2);
    write!(
        text,
        "<rect class=\"apart\" x=\"{start}\" y=\"{top}\" width=\"{wide}\" height=\"{high}\"/>\n"
    )
}

/// Writes every lifeline, with its actor's name.
pub fn push_lifelines(text: &mut String, sheet: &Sheet) -> Result<(), AllocError> {
    for (place, actor) in sheet.scene.actors.iter().enumerate() {
        push_lifeline(text, sheet, sheet.row(place), actor)?;
    }
    Ok(())
}

/// Writes the lifeline of an actor.
fn push_lifeline(
    text: &mut String,
    sheet: &Sheet,
    y: usize,
    actor: &Actor,
) -> Result<(), AllocError> {
    push_words(
        text,
        "actor",
        NAMES,
        y.saturating_add(5),
        actor.name.as_str(),
    )?;
    match actor.site {
        Some(site) => push_statuses(text, sheet, site, y),
        None => push_line(text, "plain", level(LEFT, sheet.lifeline_end(), y)),
    }
}

/// A level line.
fn level(x1: usize, x2: usize, y: usize) -> Stroke {
    Stroke {
        x1,
        y1: y,
        x2,
        y2: y,
    }
}

/// Writes a line of a class.
pub fn push_line(text: &mut String, class: &str, line: Stroke) -> Result<(), AllocError> {
    let x1 = line.x1;
    let y1 = line.y1;
    let x2 = line.x2;
    let y2 = line.y2;
    write!(
        text,
        "<line class=\"{class}\" x1=\"{x1}\" y1=\"{y1}\" x2=\"{x2}\" y2=\"{y2}\"/>\n"
    )
}

/// Writes the lifeline of a site, piece by piece.
fn push_statuses(
    text: &mut String,
    sheet: &Sheet,
    site: usize,
    y: usize,
) -> Result<(), AllocError> {
    let mut start = LEFT;
    let mut last = sheet.scene.opening.get(site).copied();
    for (place, step) in sheet.scene.steps.iter().enumerate() {
        let next = step.snapshots.get(site).copied();
        if next != last {
            push_piece(text, last, start, sheet.column(place), y)?;
            start = sheet.column(place);
            last = next;
        }
    }
    push_piece(text, last, start, sheet.lifeline_end(), y)
}

/// Writes a piece of a site's lifeline, along which the site stands so.
fn push_piece(
    text: &mut String,
    snapshot: Option<Snapshot>,
    start: usize,
    end: usize,
    y: usize,
) -> Result<(), AllocError> {
    let Some(snapshot) = snapshot else {
        return Ok(());
    };
    if snapshot.leads {
        push_line(text, "lead", level(start, end, y.saturating_sub(6)))?;
        push_line(text, "lead", level(start, end, y.saturating_add(6)))?;
    }
    push_line(text, status_name(snapshot.status), level(start, end, y))
}

/// Writes the marks of each site, at the steps where it executes rows or saves its cell.
pub fn push_all_marks(text: &mut String, sheet: &Sheet) -> Result<(), AllocError> {
    for (place, actor) in sheet.scene.actors.iter().enumerate() {
        if let Some(site) = actor.site {
            push_marks_of(text, sheet, site, sheet.row(place))?;
        }
    }
    Ok(())
}

/// Writes the marks of a site.
fn push_marks_of(
    text: &mut String,
    sheet: &Sheet,
    site: usize,
    y: usize,
) -> Result<(), AllocError> {
    let mut last = sheet.scene.opening.get(site).copied();
    for (place, step) in sheet.scene.steps.iter().enumerate() {
        let next = step.snapshots.get(site).copied();
        if let (Some(old), Some(new)) = (last, next) {
            push_mark(text, sheet.column(place), y, (old, new))?;
        }
        last = next;
    }
    Ok(())
}

/// Writes a tick where a step executed rows, and a square where it saved the cell.
fn push_mark(
    text: &mut String,
    x: usize,
    y: usize,
    snapshots: (Snapshot, Snapshot),
) -> Result<(), AllocError> {
    let (old, new) = snapshots;
    if new.done > old.done {
        let tick = upright_line(x, y.saturating_sub(9), y.saturating_add(9));
        push_line(text, "tick", tick)?;
    }
    if new.boots != old.boots {
        push_square(text, x.saturating_sub(5), y.saturating_sub(5))?;
    }
    Ok(())
}

/// An upright line.
fn upright_line(x: usize, y1: usize, y2: usize) -> Stroke {
    Stroke {
        x1: x,
        y1,
        x2: x,
        y2,
    }
}

/// Writes the square of a save.
pub fn push_square(text: &mut String, x: usize, y: usize) -> Result<(), AllocError> {
    write!(
        text,
        "<rect class=\"save\" x=\"{x}\" y=\"{y}\" width=\"10\" height=\"10\"/>\n"
    )
}

/// Writes words at a point.
pub fn push_words(
    text: &mut String,
    class: &str,
    x: usize,
    y: usize,
    words: &str,
) -> Result<(), AllocError> {
    write!(text, "<text class=\"{class}\" x=\"{x}\" y=\"{y}\">")?;
    push_escaped(text, words)?;
    text.push_str("</text>\n")
}
