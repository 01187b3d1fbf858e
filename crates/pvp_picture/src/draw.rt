//! The whole picture of a scene.

use crate::acts::push_act;
use crate::arrows::{push_ending, push_flights};
use crate::escape::{push_cut, push_escaped};
use crate::labels::{Label, look_of, push_said};
use crate::layout::{HEADING, HEADING_FOOT, MOST_SIGNS, NAMES, Sheet, Stroke, lay_out};
use crate::legend::push_legend;
use crate::lifeline::{push_all_marks, push_cuts, push_lifelines, push_line, push_words};
use crate::scene::{Scene, ShownStep};
use std::alloc::{AllocError, Global};

/// How far a step's name begins above the line that leads down from it.
const RISE: usize = 6;

/// How far above the legend those lines end.
const FOOT: usize = 30;

/// The look of each class. Statuses differ in dashes and in lightness, and every one is also told in words.
const STYLE: &str = "<style>
text{font-family:'DejaVu Sans',Verdana,sans-serif;font-size:11px;fill:#111;paint-order:stroke;stroke:#fff;stroke-width:3px}
.heading{font-size:17px;font-weight:bold}
.actor{font-size:14px;font-weight:bold}
.number{font-weight:bold}
.status{fill:#333}
.kind{font-size:9px;fill:#333}
.money{fill:#00406b}
.leads{font-weight:bold}
.why{fill:#8a0000;font-weight:bold}
.usual{fill:#707070}
.dot{fill:#111}
.crash{fill:#8a0000}
.plain{stroke:#555;stroke-width:1.5}
.normal{stroke:#00406b;stroke-width:6}
.change{stroke:#c05a00;stroke-width:6;stroke-dasharray:10 4}
.recovering{stroke:#7fb8e6;stroke-width:6;stroke-dasharray:3 3}
.down{stroke:#999;stroke-width:2;stroke-dasharray:2 7}
.lead{stroke:#00406b;stroke-width:1.5}
.guide{stroke:#e4e4e4;stroke-width:1}
.apart{fill:#f0e2bd;stroke:#b89a4a;stroke-width:1;stroke-dasharray:1 3}
.tick{stroke:#000;stroke-width:2.5}
.save{fill:#fff;stroke:#000;stroke-width:2}
.arrow{stroke:#333;stroke-width:1.3;marker-end:url(#head)}
.lost{stroke:#8a0000;stroke-width:1.3;stroke-dasharray:6 3}
.cross{stroke:#8a0000;stroke-width:2.5;fill:none}
.dropped{stroke:#9a9a9a;stroke-width:1.1;stroke-dasharray:6 3}
.faint{stroke:#8c8c8c;stroke-width:1.5;fill:none}
.stub{stroke:#333;stroke-width:1.3;stroke-dasharray:2 2}
.later{stroke:#333;stroke-width:1.3;stroke-dasharray:2 2;marker-end:url(#head)}
.ring{fill:#fff;stroke:#333;stroke-width:1.3}
.gone{stroke:#8a0000;stroke-width:1.3;stroke-dasharray:2 2}
.wrong{fill:#fff;stroke:#8a0000;stroke-width:2}
</style>
";

/// The head of an arrow.
const HEAD: &str =
    "<defs><marker id=\"head\" viewBox=\"0 0 10 10\" refX=\"8\" refY=\"5\" markerWidth=\"8\" markerHeight=\"8\" orient=\"auto\"><path d=\"M0 1L9 5L0 9z\" fill=\"#333\"/></marker></defs>
";

/// The picture of a scene, as one SVG that stands alone, below a title of its own where there is one. `Err` where memory is
/// refused.
pub fn picture_of(alloc: Global, scene: &Scene, title: Option<&str>) -> Result<String, AllocError> {
    let heading = heading_of(alloc, scene, title)?;
    let sheet = lay_out(alloc, scene, heading.as_str())?;
    let mut text = String::new(alloc);
    push_opening(&mut text, &sheet)?;
    push_words(
        &mut text,
        HEADING.class,
        NAMES,
        HEADING_FOOT,
        heading.as_str(),
    )?;
    push_guides(&mut text, &sheet)?;
    push_cuts(&mut text, &sheet)?;
    push_lifelines(&mut text, &sheet)?;
    push_flights(&mut text, &sheet)?;
    push_names(&mut text, &sheet)?;
    push_all_marks(&mut text, &sheet)?;
    push_labels(&mut text, &sheet)?;
    push_legend(&mut text, sheet.legend)?;
    text.push_str("</svg>\n")?;
    Ok(text)
}

/// Writes what stands before all else: how large the picture is, its looks and its ground.
fn push_opening(text: &mut String, sheet: &Sheet) -> Result<(), AllocError> {
    let width = sheet.width;
    let height = sheet.height();
    text.push_str("<svg xmlns=\"http://www.w3.org/2000/svg\" role=\"img\"")?;
    write!(
        text,
        " width=\"{width}\" height=\"{height}\" viewBox=\"0 0 {width} {height}\">\n"
    )?;
    text.push_str(STYLE)?;
    text.push_str(HEAD)?;
    write!(
        text,
        "<rect width=\"{width}\" height=\"{height}\" fill=\"#fff\"/>\n"
    )
}

/// What stands above a picture: its title, and which steps of how many are shown.
fn heading_of(alloc: Global, scene: &Scene, title: Option<&str>) -> Result<String, AllocError> {
    let mut heading = String::new(alloc);
    push_title(&mut heading, title.unwrap_or("A run of the bank"))?;
    heading.push_str(": ")?;
    push_which(&mut heading, scene)?;
    Ok(heading)
}

/// Appends a title, but for signs that no XML may have.
fn push_title(text: &mut String, title: &str) -> Result<(), AllocError> {
    for sign in title.chars() {
        if sign >= ' ' && !matches!(sign, '\u{fffe}' | '\u{ffff}') {
            text.push(sign)?;
        }
    }
    Ok(())
}

/// Appends which steps are shown, and how many are not.
fn push_which(text: &mut String, scene: &Scene) -> Result<(), AllocError> {
    let shown = scene.steps.len();
    let first = scene.earlier.saturating_add(1);
    let last = scene.earlier.saturating_add(shown);
    let total = last.saturating_add(scene.later);
    if shown == 0 {
        write!(text, "no step of {total}")?;
    } else {
        write!(text, "steps {first} to {last} of {total}")?;
    }
    push_more(text, scene.earlier, " before them")?;
    push_more(text, scene.later, " after them")
}

/// Appends how many more steps there are, where there are some.
fn push_more(text: &mut String, count: usize, side: &str) -> Result<(), AllocError> {
    if count == 0 {
        return Ok(());
    }
    write!(text, ", {count} more")?;
    text.push_str(side)
}

/// Writes a pale line below the name of each step, down to the last lifeline.
fn push_guides(text: &mut String, sheet: &Sheet) -> Result<(), AllocError> {
    for x in sheet.columns.iter() {
        push_line(
            text,
            "guide",
            Stroke {
                x1: *x,
                y1: sheet.sill.saturating_add(RISE),
                x2: *x,
                y2: sheet.legend.saturating_sub(FOOT),
            },
        )?;
    }
    Ok(())
}

/// Writes the names of steps, and the signs of those that deliver nothing.
fn push_names(text: &mut String, sheet: &Sheet) -> Result<(), AllocError> {
    for (place, step) in sheet.scene.steps.iter().enumerate() {
        let x = sheet.column(place);
        push_name(text, x, sheet.sill, step)?;
        push_act(text, sheet, x, step)?;
    }
    Ok(())
}

/// Writes the name of a step, leaning, with all of it under the pointer.
fn push_name(text: &mut String, x: usize, y: usize, step: &ShownStep) -> Result<(), AllocError> {
    let number = step.number;
    write!(
        text,
        "<g transform=\"translate({x} {y}) rotate(-60)\"><text>"
    )?;
    push_step_title(text, step)?;
    write!(text, "<tspan font-weight=\"bold\">{number}</tspan> ")?;
    push_cut(text, step.short.as_str(), MOST_SIGNS)?;
    text.push_str("</text></g>\n")
}

/// Writes all labels, over all lines.
fn push_labels(text: &mut String, sheet: &Sheet) -> Result<(), AllocError> {
    for label in sheet.labels.iter() {
        push_label(text, sheet, *label)?;
    }
    Ok(())
}

/// Writes a label.
fn push_label(text: &mut String, sheet: &Sheet, label: Label) -> Result<(), AllocError> {
    let (x, y) = sheet.spot(label);
    let class = look_of(label.said).class;
    write!(text, "<text class=\"{class}\" x=\"{x}\" y=\"{y}\"")?;
    text.push_str(if label.spot.ends {
        " text-anchor=\"end\">"
    } else {
        ">"
    })?;
    push_said(text, sheet.scene, label)?;
    text.push_str("</text>\n")
}

/// Writes what a browser shows of a step under the pointer.
fn push_step_title(text: &mut String, step: &ShownStep) -> Result<(), AllocError> {
    let number = step.number;
    write!(text, "<title>step {number}: ")?;
    push_escaped(text, step.words.as_str())?;
    push_ending(text, step.ending)?;
    text.push_str("</title>")
}
