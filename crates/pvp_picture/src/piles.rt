//! Which labels stand where: at each step two piles beside the lifeline of whoever's turn it is, from it outwards.

use crate::arrows::side_of;
use crate::labels::{Label, Said, Side, Spot, look_of, push_said, width_of};
use crate::layout::{place_of, shown_end};
use crate::scene::{Ending, Flight, Scene, ShownStep, Snapshot};
use std::alloc::{AllocError, Global};
use vr_types::Status;

/// How many rows of a step are told one by one.
const MOST_ROWS: usize = 6;

/// How many lines beside a lifeline have no long words.
const SHORT: usize = 2;

/// How many lines of each side are written.
#[derive(Clone, Copy, Debug, PartialEq, Eq)]
struct Piles {
    step: Option<usize>,
    row: usize,
    above: usize,
    below: usize,
}

impl Piles {
    /// Piles with no line yet.
    fn new(step: Option<usize>, row: usize) -> Self {
        Piles {
            step,
            row,
            above: 0,
            below: 0,
        }
    }

    /// Leaves the first lines of a side to what is short.
    fn keep_off(&mut self, side: Side) {
        match side {
            Side::Above => self.above = self.above.max(SHORT),
            Side::Below => self.below = self.below.max(SHORT),
        }
    }

    /// Puts a label onto the pile of a side.
    fn push(&mut self, labels: &mut Vec<Label>, side: Side, said: Said) -> Result<(), AllocError> {
        let line = match side {
            Side::Above => self.above,
            Side::Below => self.below,
        };
        let spot = Spot {
            step: self.step,
            row: self.row,
            side,
            line,
            ends: false,
        };
        push_label(labels, spot, said)?;
        match side {
            Side::Above => self.above = self.above.saturating_add(1),
            Side::Below => self.below = self.below.saturating_add(1),
        }
        Ok(())
    }
}

/// The side from which no envelope comes at a step.
fn news_side(step: &ShownStep) -> Side {
    if step.from_below {
        Side::Above
    } else {
        Side::Below
    }
}

/// Adds a label that is not measured yet.
fn push_label(labels: &mut Vec<Label>, spot: Spot, said: Said) -> Result<(), AllocError> {
    labels.push(Label {
        spot,
        said,
        width: 0,
    })?;
    Ok(())
}

/// All labels of a scene, those below names first, then step by step.
pub fn labels_of(alloc: Global, scene: &Scene) -> Result<Vec<Label>, AllocError> {
    let mut labels = Vec::new(alloc);
    push_openings(&mut labels, scene)?;
    let mut flight = 0;
    for place in 0..scene.steps.len() {
        push_step(&mut labels, scene, place)?;
        flight = push_stubs(&mut labels, scene, place, flight)?;
    }
    measure(alloc, scene, labels.as_mut_slice())?;
    Ok(labels)
}

/// Measures labels.
fn measure(alloc: Global, scene: &Scene, labels: &mut [Label]) -> Result<(), AllocError> {
    let mut words = String::new(alloc);
    for label in labels {
        words.clear();
        push_said(&mut words, scene, *label)?;
        label.width = width_of(words.as_str(), look_of(label.said));
    }
    Ok(())
}

/// Adds how the sites stood at first, below their names.
fn push_openings(labels: &mut Vec<Label>, scene: &Scene) -> Result<(), AllocError> {
    for (row, actor) in scene.actors.iter().enumerate() {
        if let Some(snapshot) = opening_of(scene, actor.site) {
            push_status(labels, &mut Piles::new(None, row), Side::Below, snapshot)?;
        }
    }
    Ok(())
}

/// How a site stood at first.
fn opening_of(scene: &Scene, site: Option<usize>) -> Option<Snapshot> {
    scene.opening.get(site?).copied()
}

/// Adds the labels of a step, where the actor whose turn it was has a lifeline.
fn push_step(labels: &mut Vec<Label>, scene: &Scene, place: usize) -> Result<(), AllocError> {
    let Some(step) = scene.steps.get(place) else {
        return Ok(());
    };
    let Some(row) = place_of(scene.actors.as_slice(), step.actor) else {
        return Ok(());
    };
    let mut piles = Piles::new(Some(place), row);
    if comes_from_shown(scene, step) {
        push_came(labels, &mut piles, step)?;
    }
    push_news(labels, &mut piles, scene, place)?;
    push_sendings(labels, &mut piles, step)?;
    push_rows(labels, &mut piles, step)
}

/// Whether a step delivers nothing, or an envelope whose sender has a lifeline.
fn comes_from_shown(scene: &Scene, step: &ShownStep) -> bool {
    step.delivers.is_none() || place_of(scene.actors.as_slice(), step.sender).is_some()
}

/// Adds the number of the envelope that came, and why nothing came of it, on the side from which it comes.
fn push_came(
    labels: &mut Vec<Label>,
    piles: &mut Piles,
    step: &ShownStep,
) -> Result<(), AllocError> {
    let side = if step.from_below {
        Side::Below
    } else {
        Side::Above
    };
    if step.ending != Ending::Taken {
        piles.push(labels, side, Said::Came(step.ending))?;
    }
    match step.delivers {
        Some(number) => piles.push(labels, side, Said::Number(number)),
        None => Ok(()),
    }
}

/// Adds what a step changed at its site, on the side from which no envelope comes.
fn push_news(
    labels: &mut Vec<Label>,
    piles: &mut Piles,
    scene: &Scene,
    place: usize,
) -> Result<(), AllocError> {
    let Some(step) = scene.steps.get(place) else {
        return Ok(());
    };
    let Some((old, new)) = snapshots_at(scene, piles.row, place) else {
        return Ok(());
    };
    let side = news_side(step);
    let known = new.done.saturating_sub(told_count(step));
    push_known(labels, piles, side, old.done, known)?;
    if new.boots != old.boots {
        piles.push(labels, side, Said::Cell(new.boots))?;
    }
    if old.status != new.status || old.view != new.view || old.leads != new.leads {
        push_status(labels, piles, side, new)?;
    }
    Ok(())
}

/// Adds the rows that a step executed, from one count to another, but for those that are told one by one.
fn push_known(
    labels: &mut Vec<Label>,
    piles: &mut Piles,
    side: Side,
    before: usize,
    after: usize,
) -> Result<(), AllocError> {
    if before < after {
        let first = before.saturating_add(1);
        piles.push(labels, side, Said::Rows { first, last: after })?;
    }
    Ok(())
}

/// How many rows of a step are told one by one: those that no site executed before, unless they are many.
fn told_count(step: &ShownStep) -> usize {
    if step.rows.len() <= MOST_ROWS {
        step.rows.len()
    } else {
        0
    }
}

/// Adds the rows that a step executed and none before it, further out than what is short, so that this has room at the steps
/// beside it.
fn push_rows(
    labels: &mut Vec<Label>,
    piles: &mut Piles,
    step: &ShownStep,
) -> Result<(), AllocError> {
    let side = news_side(step);
    let count = told_count(step);
    piles.keep_off(side);
    for place in 0..count {
        // what stands above is read from the top too
        let next = match side {
            Side::Above => count.saturating_sub(place).saturating_sub(1),
            Side::Below => place,
        };
        piles.push(labels, side, Said::Row(next))?;
    }
    Ok(())
}

/// How the site with a lifeline stood before and after a step.
fn snapshots_at(scene: &Scene, row: usize, place: usize) -> Option<(Snapshot, Snapshot)> {
    let site = scene.actors.get(row)?.site?;
    let new = scene.steps.get(place)?.snapshots.get(site)?;
    let old = match place.checked_sub(1) {
        Some(before) => scene.steps.get(before)?.snapshots.get(site)?,
        None => scene.opening.get(site)?,
    };
    Some((*old, *new))
}

/// Adds a snapshot's status, and where it runs its view, and whether it leads: from the top to the bottom.
fn push_status(
    labels: &mut Vec<Label>,
    piles: &mut Piles,
    side: Side,
    snapshot: Snapshot,
) -> Result<(), AllocError> {
    let status = Said::Status(snapshot.status);
    match side {
        Side::Above => {
            push_leads(labels, piles, side, snapshot)?;
            push_view(labels, piles, side, snapshot)?;
            piles.push(labels, side, status)
        }
        Side::Below => {
            piles.push(labels, side, status)?;
            push_view(labels, piles, side, snapshot)?;
            push_leads(labels, piles, side, snapshot)
        }
    }
}

/// Adds a snapshot's view, where the site runs.
fn push_view(
    labels: &mut Vec<Label>,
    piles: &mut Piles,
    side: Side,
    snapshot: Snapshot,
) -> Result<(), AllocError> {
    match snapshot.status {
        Status::Normal | Status::Change => piles.push(labels, side, Said::View(snapshot.view)),
        Status::Recovering | Status::Down => Ok(()),
    }
}

/// Adds that a site leads, where it does.
fn push_leads(
    labels: &mut Vec<Label>,
    piles: &mut Piles,
    side: Side,
    snapshot: Snapshot,
) -> Result<(), AllocError> {
    if snapshot.leads {
        piles.push(labels, side, Said::Leads)?;
    }
    Ok(())
}

/// Adds what a step sent, on the side to which the first of each kind goes.
fn push_sendings(
    labels: &mut Vec<Label>,
    piles: &mut Piles,
    step: &ShownStep,
) -> Result<(), AllocError> {
    for (place, sending) in step.sendings.iter().enumerate() {
        let side = if sending.upwards {
            Side::Above
        } else {
            Side::Below
        };
        piles.push(labels, side, Said::Sending(place))?;
    }
    Ok(())
}

/// Adds the labels of the envelopes that a step sent and that no step which is shown delivers. The envelopes before `from`
/// are of steps before; answers where those of the next step begin.
fn push_stubs(
    labels: &mut Vec<Label>,
    scene: &Scene,
    place: usize,
    from: usize,
) -> Result<usize, AllocError> {
    let number = scene.earlier.saturating_add(place).saturating_add(1);
    for at in from..scene.flights.len() {
        let Some(flight) = scene.flights.get(at) else {
            return Ok(at);
        };
        match shown_end(scene, flight) {
            Some(came) => if came > number {
                return Ok(at);
            },
            None => if flight.sent > number {
                return Ok(at);
            } else {
                push_stub(labels, scene, place, flight)?;
            },
        }
    }
    Ok(scene.flights.len())
}

/// Adds the label of an envelope that no step which is shown delivers, to the left of its stub.
fn push_stub(
    labels: &mut Vec<Label>,
    scene: &Scene,
    place: usize,
    flight: &Flight,
) -> Result<(), AllocError> {
    let actors = scene.actors.as_slice();
    let (Some(row), Some(_)) = (
        place_of(actors, Some(flight.from)),
        place_of(actors, Some(flight.to)),
    ) else {
        return Ok(());
    };
    let spot = Spot {
        step: Some(place),
        row,
        side: side_of(flight),
        line: flight.rank.saturating_add(1),
        ends: true,
    };
    let said = Said::Stub {
        number: flight.number,
        passed: flight.passed,
        lost: flight.is_lost(),
    };
    push_label(labels, spot, said)
}
