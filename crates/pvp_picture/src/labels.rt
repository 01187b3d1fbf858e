//! The words that stand beside lifelines: what each says, and how it looks.

use crate::escape::push_escaped;
use crate::scene::{Ending, Passed, Scene};
use std::alloc::AllocError;
use vr_types::{Status, Why};

/// What a label says.
#[derive(Clone, Copy, Debug, PartialEq, Eq)]
pub enum Said {
    /// The number of an envelope that came.
    Number(usize),
    /// Why nothing came of a step.
    Came(Ending),
    /// Which rows were executed.
    Rows {
        first: usize,
        last: usize,
    },
    /// A row that no site executed before, and what it came to, by its place among those of its step.
    Row(usize),
    /// What a boot cell holds.
    Cell(u32),
    Status(Status),
    View(u32),
    /// That a site leads.
    Leads,
    /// Envelopes of one kind that a step sent, by their place among its sendings.
    Sending(usize),
    /// The number of an envelope that no step which is shown delivers, and why it was passed over.
    Stub {
        number: usize,
        passed: Option<Passed>,
        lost: bool,
    },
}

/// On which side of its lifeline a label stands.
#[derive(Clone, Copy, Debug, PartialEq, Eq)]
pub enum Side {
    Above,
    Below,
}

/// Where a label stands.
#[derive(Clone, Copy, Debug, PartialEq, Eq)]
pub struct Spot {
    /// The place of its step among those that are shown; `None` where it stands below an actor's name.
    pub step: Option<usize>,
    /// The place of its lifeline.
    pub row: usize,
    pub side: Side,
    /// How many lines are between it and the lifeline.
    pub line: usize,
    /// Whether it ends at its step, where others begin.
    pub ends: bool,
}

/// Words beside a lifeline.
#[derive(Clone, Copy, Debug, PartialEq, Eq)]
pub struct Label {
    pub spot: Spot,
    pub said: Said,
    /// How wide they are, once that was measured.
    pub width: usize,
}

/// The look of words, which is their class.
#[derive(Clone, Copy, Debug, PartialEq, Eq)]
pub struct Look {
    pub class: &'static str,
    /// The size of the letters.
    pub size: usize,
    pub is_bold: bool,
}

/// How large most words are.
pub const SIZE: usize = 11;

/// How large the kinds of messages are.
const SMALL: usize = 9;

/// How a label looks.
pub fn look_of(said: Said) -> Look {
    let class = class_of(said);
    Look {
        class,
        size: if class == "kind" { SMALL } else { SIZE },
        is_bold: class == "number" || class == "why" || class == "leads",
    }
}

/// The class of a label.
fn class_of(said: Said) -> &'static str {
    match said {
        Said::Number(_) => "number",
        Said::Came(ending) => why_class(ending.is_wrong()),
        Said::Rows { .. } => "row",
        Said::Row(_) => "money",
        Said::Cell(_) => "cell",
        Said::Status(Status::Down) => "why",
        Said::Status(_) | Said::View(_) => "status",
        Said::Leads => "leads",
        Said::Sending(_) => "kind",
        Said::Stub { lost, .. } => if lost { "why" } else { "number" },
    }
}

/// The class of the words for what came of a step.
fn why_class(is_wrong: bool) -> &'static str {
    if is_wrong { "why" } else { "usual" }
}

/// Appends what a label says.
pub fn push_said(text: &mut String, scene: &Scene, label: Label) -> Result<(), AllocError> {
    match label.said {
        Said::Number(number) => write!(text, "{number}"),
        Said::Came(ending) => push_came(text, ending),
        Said::Rows { first, last } => push_span(text, first, last),
        Said::Cell(boots) => write!(text, "cell {boots}"),
        Said::Status(status) => text.push_str(status_name(status)),
        Said::View(view) => write!(text, "view {view}"),
        Said::Leads => text.push_str("PRIMARY"),
        Said::Row(place) => push_found(text, row_at(scene, label, place)),
        Said::Sending(place) => push_found(text, sending_at(scene, label, place)),
        Said::Stub { number, passed, .. } => {
            write!(text, "{number}")?;
            text.push_str(passed_name(passed))
        }
    }
}

/// Appends why nothing came of a step.
fn push_came(text: &mut String, ending: Ending) -> Result<(), AllocError> {
    match ending {
        Ending::Taken => Ok(()),
        Ending::Dropped(why) => text.push_str(why_name(why)),
        Ending::Refused(fault) => write!(text, "{fault}"),
    }
}

/// Appends the rows from one to another.
fn push_span(text: &mut String, first: usize, last: usize) -> Result<(), AllocError> {
    if first >= last {
        write!(text, "row {last}")
    } else {
        write!(text, "rows {first}-{last}")
    }
}

/// A row that the step of a label executed.
fn row_at(scene: &Scene, label: Label, place: usize) -> Option<&str> {
    let step = scene.steps.get(label.spot.step?)?;
    Some(step.rows.get(place)?.as_str())
}

/// What the step of a label sent.
fn sending_at(scene: &Scene, label: Label, place: usize) -> Option<&str> {
    let step = scene.steps.get(label.spot.step?)?;
    Some(step.sendings.get(place)?.words.as_str())
}

/// Appends words, if there are any.
fn push_found(text: &mut String, words: Option<&str>) -> Result<(), AllocError> {
    match words {
        Some(words) => push_escaped(text, words),
        None => Ok(()),
    }
}

/// Why an envelope was passed over, in one word.
fn passed_name(passed: Option<Passed>) -> &'static str {
    match passed {
        Some(Passed::Skipped) => " skip",
        Some(Passed::HeldBack) => " cut",
        None => "",
    }
}

/// The name of a status, which is also the class of its lifeline.
pub fn status_name(status: Status) -> &'static str {
    match status {
        Status::Normal => "normal",
        Status::Change => "change",
        Status::Recovering => "recovering",
        Status::Down => "down",
    }
}

/// Why a site dropped an event, in one word.
fn why_name(why: Why) -> &'static str {
    match why {
        Why::Status => "status",
        Why::View => "view",
        Why::NotPrimary => "backup",
        Why::Known => "known",
        Why::Stale => "stale",
        Why::Full => "full",
    }
}

/// How wide words of a look are, by an estimate: about as in the widest of the letters that the picture asks for.
pub fn width_of(words: &str, look: Look) -> usize {
    let mut hundredths: usize = 0;
    for sign in words.chars() {
        hundredths = hundredths.saturating_add(sign_width(sign));
    }
    let per_size = if look.is_bold { 112 } else { 100 };
    hundredths
        .saturating_mul(look.size)
        .saturating_mul(per_size)
        / 10_000
}

/// How wide a sign is, in hundredths of the letters' size.
fn sign_width(sign: char) -> usize {
    match sign {
        ' ' | ',' | '.' | ':' | ';' | '-' | 'i' | 'j' | 'l' | 'f' | 'r' | 't' | 'I' | 'J' => 42,
        'm' | 'w' | 'M' | 'W' | '@' => 99,
        'A'..='Z' => 79,
        '\u{80}'..='\u{10ffff}' => 100,
        _ => 65,
    }
}
