//! Where things stand in the picture, in its own units: all numbers are whole, and stop at the greatest. How far steps and
//! lifelines stand from one another follows from what is written there, so that no words stand over others.

use crate::labels::{Label, Look, SIZE, Side, Spot, width_of};
use crate::piles::labels_of;
use crate::scene::{Actor, Flight, Scene};
use std::alloc::{AllocError, Global};

/// How far from the left edge actors' names stand, and the lifelines begin.
pub const NAMES: usize = 14;

pub const LEFT: usize = 90;

/// How far one step stands from the next where there are many steps, and where there are few.
const NARROW: usize = 34;

const BROAD: usize = 60;

/// How far few steps reach together, and how far the first stands from where the lifelines begin.
const SPAN: usize = 800;

const FIRST: usize = 50;

/// How far one line of words stands from the next.
const LINE: usize = 12;

/// How far the first line of words stands from its lifeline, above it and below it.
const ABOVE: usize = 9;

const BELOW: usize = 17;

/// How far words stand beside their step, and from words that end before them.
const ASIDE: usize = 6;

const GAP: usize = 7;

/// How much room a lifeline has above it and below it at the least, and beside its labels.
const ROOM: usize = 42;

const MARGIN: usize = 16;

/// How many lines of a side have a track of their own.
const LINES: usize = 24;

/// How the heading looks, and how far from the top it stands, and the names of steps below it may.
pub const HEADING: Look = Look {
    class: "heading",
    size: 17,
    is_bold: true,
};

pub const HEADING_FOOT: usize = 28;

const HEADING_ROOM: usize = 48;

/// How far above the room of the first lifeline the steps' names end.
const SILL: usize = 12;

/// How many signs of a step are shown above it.
pub const MOST_SIGNS: usize = 44;

/// What stands below the last lifeline's room: the legend.
const LEGEND: usize = 256;

/// How wide the picture is at least, so that the legend has room.
const LEAST_WIDTH: usize = 1080;

/// How far a lifeline goes on after the last step.
const TAIL: usize = 60;

/// A line between two points, each as how far it is from the left and from the top.
#[derive(Clone, Copy, Debug, PartialEq, Eq)]
pub struct Stroke {
    pub x1: usize,
    pub y1: usize,
    pub x2: usize,
    pub y2: usize,
}

/// A scene, and where all of it stands.
#[derive(Drop)]
pub struct Sheet<'a> {
    pub scene: &'a Scene,
    pub labels: Vec<Label>,
    /// How far from the left each step stands.
    pub columns: Vec<usize>,
    /// How far from the top each lifeline stands.
    pub rows: Vec<usize>,
    /// How far from the top the steps' names begin, which lean upwards.
    pub sill: usize,
    /// How far from the top the legend begins.
    pub legend: usize,
    pub width: usize,
}

impl Sheet<'_> {
    /// How high the picture is.
    pub fn height(&self) -> usize {
        self.legend.saturating_add(LEGEND)
    }

    /// How far from the left the so many-th step that is shown stands, counted from 0.
    pub fn column(&self, place: usize) -> usize {
        self.columns.get(place).copied().unwrap_or(LEFT)
    }

    /// How far from the left the step of a number stands: at the left edge where it comes before those that are shown.
    pub fn column_of(&self, number: usize) -> usize {
        match number.saturating_sub(self.scene.earlier).checked_sub(1) {
            Some(place) => self.column(place),
            None => LEFT,
        }
    }

    /// How far from the left it is half a step after so many steps: at the left edge where all of them come before those
    /// that are shown, and where the lifelines end where it would be further.
    pub fn behind(&self, steps: usize) -> usize {
        let end = self.lifeline_end();
        let Some(place) = steps.saturating_sub(self.scene.earlier).checked_sub(1) else {
            return LEFT;
        };
        let here = self.columns.get(place).copied().unwrap_or(end);
        let next = self
            .columns
            .get(place.saturating_add(1))
            .copied()
            .unwrap_or(end);
        here.saturating_add(next.saturating_sub(here) / 2)
    }

    /// How far from the left the lifelines end.
    pub fn lifeline_end(&self) -> usize {
        end_after(self.columns.as_slice())
    }

    /// How far from the top the so many-th lifeline stands, counted from 0.
    pub fn row(&self, place: usize) -> usize {
        self.rows.get(place).copied().unwrap_or(self.sill)
    }

    /// How far from the top an actor's lifeline stands, where it has one.
    pub fn row_of(&self, actor: u16) -> Option<usize> {
        Some(self.row(place_of(self.scene.actors.as_slice(), Some(actor))?))
    }

    /// How far from the left and from the top a label stands.
    pub fn spot(&self, label: Label) -> (usize, usize) {
        let x = match label.spot.step {
            None => NAMES,
            Some(step) => if label.spot.ends {
                self.column(step).saturating_sub(ASIDE)
            } else {
                self.column(step).saturating_add(ASIDE)
            },
        };
        (
            x,
            line_at(self.row(label.spot.row), label.spot.side, label.spot.line),
        )
    }
}

/// How far from the top the words of a line stand beside a lifeline.
pub fn line_at(row: usize, side: Side, line: usize) -> usize {
    let offset = LINE.saturating_mul(line);
    match side {
        Side::Above => row.saturating_sub(ABOVE).saturating_sub(offset),
        Side::Below => row.saturating_add(BELOW).saturating_add(offset),
    }
}

/// Where an actor's lifeline is among them all, where there is the actor and it has one.
pub fn place_of(actors: &[Actor], number: Option<u16>) -> Option<usize> {
    let number = number?;
    actors.iter().position(|actor| actor.number == number)
}

/// The step among those that are shown by which an envelope came, if one did.
pub fn shown_end(scene: &Scene, flight: &Flight) -> Option<usize> {
    let last = scene.earlier.saturating_add(scene.steps.len());
    match flight.came {
        Some(came) if came <= last => Some(came),
        _ => None,
    }
}

/// Where lifelines end after these steps.
fn end_after(columns: &[usize]) -> usize {
    columns.last().copied().unwrap_or(LEFT).saturating_add(TAIL)
}

/// Finds a place for all of a scene, below a heading.
pub fn lay_out<'a>(
    alloc: Global,
    scene: &'a Scene,
    heading: &str,
) -> Result<Sheet<'a>, AllocError> {
    let labels = labels_of(alloc, scene)?;
    let names = longest_name(scene);
    let mut tracks = Tracks::new(alloc, scene.actors.len())?;
    let columns = columns_of(alloc, scene, labels.as_slice(), &mut tracks)?;
    // a name leans by 30 degrees from upright: so high it is, and so far it reaches to the right
    let sill = HEADING_ROOM.saturating_add(names.saturating_mul(87) / 100);
    let mut rows = Vec::new(alloc);
    let low = push_rows(
        &mut rows,
        labels.as_slice(),
        scene.actors.len(),
        sill.saturating_add(SILL),
    )?;
    let leaning = end_after(columns.as_slice())
        .saturating_sub(TAIL)
        .saturating_add(names / 2);
    let width = tracks
        .end()
        .max(leaning)
        .max(NAMES.saturating_add(width_of(heading, HEADING)))
        .max(end_after(columns.as_slice()))
        .saturating_add(MARGIN)
        .max(LEAST_WIDTH);
    Ok(Sheet {
        scene,
        labels,
        columns,
        rows,
        sill,
        legend: low.saturating_add(MARGIN).saturating_add(LINE),
        width,
    })
}

/// How long the longest name of a step is.
fn longest_name(scene: &Scene) -> usize {
    let mut longest = 0;
    for step in scene.steps.iter() {
        longest = longest.max(name_width(step.short.as_str()));
    }
    longest
}

/// How long the name of a step is, with its number: of a cut one as of the longest.
fn name_width(short: &str) -> usize {
    let look = Look {
        class: "",
        size: SIZE,
        is_bold: false,
    };
    let most = SIZE.saturating_mul(MOST_SIGNS).saturating_mul(66) / 100;
    width_of(short, look)
        .min(most)
        .saturating_add(SIZE.saturating_mul(4))
}

/// Adds how far from the top each lifeline stands, from the first on; answers where the room of the last one ends.
fn push_rows(
    rows: &mut Vec<usize>,
    labels: &[Label],
    count: usize,
    top: usize,
) -> Result<usize, AllocError> {
    let mut low = top;
    for row in 0..count {
        let y = low.saturating_add(room(labels, row, Side::Above));
        rows.push(y)?;
        low = y.saturating_add(room(labels, row, Side::Below));
    }
    Ok(low)
}

/// How much room a lifeline has on a side.
fn room(labels: &[Label], row: usize, side: Side) -> usize {
    let mut lines: usize = 0;
    for label in labels {
        if label.spot.row == row && label.spot.side == side {
            lines = lines.max(label.spot.line.saturating_add(1));
        }
    }
    LINE.saturating_mul(lines).saturating_add(MARGIN).max(ROOM)
}

/// Adds how far from the left each step stands: where its labels stand clear of those before.
fn columns_of(
    alloc: Global,
    scene: &Scene,
    labels: &[Label],
    tracks: &mut Tracks,
) -> Result<Vec<usize>, AllocError> {
    let mut columns = Vec::new(alloc);
    let mut from = run_end(labels, 0, None);
    tracks.take(labels, 0, from, NAMES);
    let apart = step_of(scene.steps.len());
    let mut x = LEFT.saturating_add(FIRST);
    for place in 0..scene.steps.len() {
        let end = run_end(labels, from, Some(place));
        x = tracks.least(labels, from, end, x);
        tracks.take(labels, from, end, x);
        columns.push(x)?;
        x = x.saturating_add(apart);
        from = end;
    }
    Ok(columns)
}

/// How far one of so many steps stands from the next at the least.
fn step_of(count: usize) -> usize {
    match SPAN.checked_div(count) {
        Some(share) => share.max(NARROW).min(BROAD),
        None => BROAD,
    }
}

/// Where the labels of a step end that begin at a place.
fn run_end(labels: &[Label], from: usize, step: Option<usize>) -> usize {
    for at in from..labels.len() {
        match labels.get(at) {
            Some(label) if label.spot.step == step => {}
            _ => return at,
        }
    }
    labels.len().max(from)
}

/// How far from the left the words reach that are written so far: of each lifeline, side and line.
#[derive(Drop)]
struct Tracks {
    ends: Vec<usize>,
}

impl Tracks {
    /// Tracks with no words, beside so many lifelines.
    fn new(alloc: Global, rows: usize) -> Result<Self, AllocError> {
        let mut ends = Vec::new(alloc);
        for _track in 0..rows.saturating_mul(2).saturating_mul(LINES) {
            ends.push(0)?;
        }
        Ok(Tracks { ends })
    }

    /// The track of a label.
    fn track(spot: Spot) -> usize {
        let side = match spot.side {
            Side::Above => 0,
            Side::Below => 1,
        };
        spot.row
            .saturating_mul(2)
            .saturating_add(side)
            .saturating_mul(LINES)
            .saturating_add(spot.line.min(LINES - 1))
    }

    /// How far from the left a step stands at the least that has these labels, from `x` on.
    fn least(&self, labels: &[Label], from: usize, end: usize, x: usize) -> usize {
        let mut least = x;
        for at in from..end {
            if let Some(label) = labels.get(at) {
                least = least.max(self.least_of(*label));
            }
        }
        least
    }

    /// How far from the left a step stands at the least that has this label.
    fn least_of(&self, label: Label) -> usize {
        let end = self
            .ends
            .get(Tracks::track(label.spot))
            .copied()
            .unwrap_or(0);
        if label.spot.ends {
            end.saturating_add(GAP)
                .saturating_add(ASIDE)
                .saturating_add(label.width)
        } else {
            end.saturating_add(GAP).saturating_sub(ASIDE)
        }
    }

    /// Writes these labels at a step that stands so far from the left.
    fn take(&mut self, labels: &[Label], from: usize, end: usize, x: usize) {
        for at in from..end {
            if let Some(label) = labels.get(at) {
                self.take_one(*label, x);
            }
        }
    }

    /// Writes a label at a step that stands so far from the left.
    fn take_one(&mut self, label: Label, x: usize) {
        let reach = if label.spot.ends {
            x
        } else {
            x.saturating_add(ASIDE).saturating_add(label.width)
        };
        if let Some(end) = self.ends.get_mut(Tracks::track(label.spot)) {
            *end = reach.max(*end);
        }
    }

    /// How far from the left any words reach.
    fn end(&self) -> usize {
        let mut most = 0;
        for end in self.ends.iter() {
            most = most.max(*end);
        }
        most
    }
}
