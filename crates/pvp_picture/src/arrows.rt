//! Envelopes: an arrow for each way that one went, and a stub for one that never came.

use crate::escape::push_escaped;
use crate::labels::Side;
use crate::layout::{Sheet, Stroke, line_at, shown_end};
use crate::lifeline::push_line;
use crate::scene::{Ending, Flight, Passed};
use pvp_trace::meanings::{meaning, reason};
use std::alloc::AllocError;

/// How far from a lifeline an arrow ends.
const GAP: usize = 10;

/// How far a stub ends above the foot of its words.
const MIDDLE: usize = 4;

/// Writes all envelopes.
pub fn push_flights(text: &mut String, sheet: &Sheet) -> Result<(), AllocError> {
    for flight in sheet.scene.flights.iter() {
        push_flight(text, sheet, flight)?;
    }
    Ok(())
}

/// Writes one way of an envelope, where both of its actors have a lifeline.
fn push_flight(text: &mut String, sheet: &Sheet, flight: &Flight) -> Result<(), AllocError> {
    let Some(stroke) = stroke_of(sheet, flight) else {
        return Ok(());
    };
    text.push_str("<g>")?;
    push_words_of(text, flight)?;
    match shown_end(sheet.scene, flight) {
        Some(_came) => push_arrow(text, flight.ending, stroke)?,
        None => push_stub(text, flight, stroke)?,
    }
    text.push_str("</g>\n")
}

/// Writes what a browser shows of an envelope under the pointer: its number, the whole message, and what came of it.
fn push_words_of(text: &mut String, flight: &Flight) -> Result<(), AllocError> {
    let number = flight.number;
    write!(text, "<title>{number}  ")?;
    push_escaped(text, flight.words.as_str())?;
    push_ways(text, flight)?;
    push_ending(text, flight.ending)?;
    text.push_str("</title>\n")
}

/// Appends by which steps an envelope was sent and delivered, and why it was passed over.
fn push_ways(text: &mut String, flight: &Flight) -> Result<(), AllocError> {
    let sent = flight.sent;
    write!(text, "; sent in step {sent}")?;
    match flight.came {
        Some(came) => write!(text, ", delivered in step {came}")?,
        None => text.push_str(", never delivered")?,
    }
    match flight.passed {
        Some(Passed::Skipped) => text.push_str(", skipped by a line"),
        Some(Passed::HeldBack) => text.push_str(", held back by a cut"),
        None => Ok(()),
    }
}

/// Appends why a step was dropped or refused, in words.
pub fn push_ending(text: &mut String, ending: Ending) -> Result<(), AllocError> {
    match ending {
        Ending::Taken => Ok(()),
        Ending::Dropped(why) => {
            text.push_str("; dropped: ")?;
            text.push_str(reason(why))
        }
        Ending::Refused(fault) => {
            write!(text, "; refused {fault}: ")?;
            text.push_str(meaning(fault))
        }
    }
}

/// Where the arrow or the stub of an envelope goes from and to.
fn stroke_of(sheet: &Sheet, flight: &Flight) -> Option<Stroke> {
    let from = sheet.row_of(flight.from)?;
    let to = sheet.row_of(flight.to)?;
    let x1 = sheet.column_of(flight.sent);
    let side = side_of(flight);
    let (x2, y2) = match shown_end(sheet.scene, flight) {
        Some(came) => (sheet.column_of(came), beside(to, side)),
        None => (x1, stub_end(from, side, flight.rank)),
    };
    Some(Stroke {
        x1,
        y1: from,
        x2,
        y2,
    })
}

/// On which side of its sender's lifeline an envelope leaves.
pub fn side_of(flight: &Flight) -> Side {
    if flight.from > flight.to {
        Side::Above
    } else {
        Side::Below
    }
}

/// Short of a lifeline, for an arrow that left its own on this side.
fn beside(to: usize, side: Side) -> usize {
    match side {
        Side::Above => to.saturating_add(GAP),
        Side::Below => to.saturating_sub(GAP),
    }
}

/// How far from the top a stub ends, which so many stubs of its step stand before: beside its words.
fn stub_end(from: usize, side: Side, rank: usize) -> usize {
    line_at(from, side, rank.saturating_add(1)).saturating_sub(MIDDLE)
}

/// Writes the arrow of an envelope that came, with a cross where nothing came of it.
fn push_arrow(text: &mut String, ending: Ending, stroke: Stroke) -> Result<(), AllocError> {
    match ending {
        Ending::Taken => push_line(text, "arrow", stroke),
        Ending::Dropped(_) | Ending::Refused(_) => push_crossed(text, ending, stroke),
    }
}

/// Writes a line that ends in a cross.
fn push_crossed(text: &mut String, ending: Ending, stroke: Stroke) -> Result<(), AllocError> {
    let class = if ending.is_wrong() { "lost" } else { "dropped" };
    push_line(text, class, stroke)?;
    push_cross(text, cross_class(ending), stroke.x2, stroke.y2)
}

/// The class of the cross for what came of a step.
pub fn cross_class(ending: Ending) -> &'static str {
    if ending.is_wrong() { "cross" } else { "faint" }
}

/// Writes a cross.
pub fn push_cross(text: &mut String, class: &str, x: usize, y: usize) -> Result<(), AllocError> {
    let left = x.saturating_sub(5);
    let right = x.saturating_add(5);
    let top = y.saturating_sub(5);
    let low = y.saturating_add(5);
    write!(
        text,
        "<path class=\"{class}\" d=\"M{left} {top}L{right} {low}M{left} {low}L{right} {top}\"/>\n"
    )
}

/// Writes the stub of an envelope that no step which is shown delivered, towards the one that it is for: a ring where no step
/// ever did, and an arrow where a later one does.
fn push_stub(text: &mut String, flight: &Flight, stub: Stroke) -> Result<(), AllocError> {
    if flight.came.is_some() {
        return push_line(text, "later", stub);
    }
    if flight.is_lost() {
        push_line(text, "gone", stub)?;
        return push_ring(text, "wrong", stub.x2, stub.y2);
    }
    push_line(text, "stub", stub)?;
    push_ring(text, "ring", stub.x2, stub.y2)
}

/// Writes a ring.
pub fn push_ring(text: &mut String, class: &str, x: usize, y: usize) -> Result<(), AllocError> {
    write!(
        text,
        "<circle class=\"{class}\" cx=\"{x}\" cy=\"{y}\" r=\"3\"/>\n"
    )
}
