//! How a play is to be shown.
ghost use Rattle.std.specs.Prelude.{◌≡◌, ◌<◌, length, option_map, position, IfSome};
ghost use Rattle.pvp_command.specs.Shows.{step_at, step_or, last_at, show_at, are_in_order, is_unknown, first_unknown, unknown_name, unknown_in};

use crate::fails::unknown_site;
use crate::fault::Fault;
use pvp_picture::frame::Frame;
use pvp_picture::picture::Steps;
use pvp_places::actor_named;
use pvp_play::{Fail, Telling};
use pvp_text::amount;
use pvp_types::Setup;

/// How a play is to be shown.
#[derive(Clone, Copy, Debug, PartialEq, Eq)]
pub enum Show {
    /// What its lines print, or each step that they try.
    Told(Telling),
    /// A picture of some of its steps.
    Drawn(Steps),
}

/// How a trace is to be shown where a picture is asked for or not, and where these words name its first step and its last.
/// `None` where a step is named and no picture is asked for, where a word is no number of 32 bits without a leading zero,
/// where the first is 0, and where the last comes before the first.
pub fn show_at(picture: bool, from: Option<&str>, to: Option<&str>) -> Option<Show>
    ensures { result ≡ show_at picture (option_map (λ word. word.now) from.entry)
        (option_map (λ word. word.now) to.entry) }
{
    if !picture {
        return match (from, to) {
            (None, None) => Some(Show::Told(Telling::Steps)),
            _ => None,
        };
    }
    let steps = Steps {
        from: step_or_first(from)?,
        to: last_at(to)?,
    };
    if are_in_order(steps) {
        Some(Show::Drawn(steps))
    } else {
        None
    }
}

/// The step that a word names, or the first where there is no word; `None` where a word names none.
fn step_or_first(word: Option<&str>) -> Option<u32>
    ensures { result ≡ step_or 1 (option_map (λ word. word.now) word.entry) }
{
    match word {
        Some(word) => step_at(word),
        None => Some(1),
    }
}

/// The last step that a word names, which is none where there is no word; `None` where a word names none.
fn last_at(word: Option<&str>) -> Option<Option<u32>>
    ensures { result ≡ last_at (option_map (λ word. word.now) word.entry) }
{
    match word {
        Some(word) => step_at(word).map(Some),
        None => Some(None),
    }
}

/// The step that a word names.
fn step_at(word: &str) -> Option<u32>
    ensures { result ≡ step_at word.now }
{
    let number = amount(word.as_bytes()).ok()?;
    u32::try_from(number).ok()
}

/// Whether there is such a first step, and the last one does not come before it.
fn are_in_order(steps: Steps) -> bool
    ensures { result ≡ are_in_order steps }
{
    steps.from > 0 && steps.to.map_or(true, |last| steps.from <= last)
}

/// What the words of a play name and a setup lacks, as a fault: a site of which a save is to fail, or else an actor.
pub fn unknown_in(setup: &Setup, fails: &[Fail], frame: &Frame<'_>) -> Option<Fault>
    ensures { result ≡ unknown_in setup.now fails.now frame.now }
{
    match unknown_site(setup, fails) {
        Some(site) => Some(Fault::NoSuchSite(site)),
        None => unknown_name(setup, frame),
    }
}

/// The first name of a picture's that is no actor's of a setup, as a fault.
fn unknown_name(setup: &Setup, frame: &Frame<'_>) -> Option<Fault>
    ensures { result ≡ unknown_name setup.now frame.now }
{
    match first_unknown(setup, frame.only.as_slice()) {
        Some(place) => Some(Fault::NotToShow(place)),
        None => first_unknown(setup, frame.hide.as_slice()).map(Fault::NotToHide),
    }
}

/// The place of the first of these names that is no actor's of a setup, counted from 1.
fn first_unknown(setup: &Setup, names: &[&str]) -> Option<usize>
    ensures { result ≡ first_unknown setup.now names.now }
{
    match unknown_at(setup, names) {
        Some(before) => Some(before + 1),
        None => None,
    }
}

/// How many names stand before the first of them that is no actor's of a setup.
fn unknown_at(setup: &Setup, names: &[&str]) -> Option<usize>
    ensures at { result ≡ position (λ name. is_unknown setup.now name.now) names.now }
    ensures bound { IfSome result (λ before. before < length names.now) }
{
    names.iter().position(|name| is_unknown(setup, *name))
}

/// Whether a name is no actor's of a setup.
fn is_unknown(setup: &Setup, name: &str) -> bool
    ensures { result ≡ is_unknown setup.now name.now }
{
    actor_named(setup, name.as_bytes()).is_none()
}
