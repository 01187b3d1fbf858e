//! Reports of a live run, line by line while it runs. Who reads them may be slow or gone: what
//! cannot be written is left out.

ghost use Rattle.std.specs.Prelude.{◌≡◌, ◌++◌, true, OnOk, option_copied, string_bytes};
ghost use Rattle.std.specs.List.{flat_map};
ghost use Rattle.pvp_live.specs.Notes.{count_text, effect_text, end_text, frames_text, look_text, refusal_text, sighting_text, sites_text};
ghost use Rattle.pvp_live.specs.Counts.{ended_text, left_text, lost_text, separator, sightings, stands_text};
ghost use Rattle.pvp_live.specs.Outcomes.{answer_text, clock_text, posted_text};

use crate::board::Frames;
use crate::counts::{broken_count, came_in_all, frames_taken, sent_in_all};
use crate::effects::{Effect, line_effect};
use crate::sighting::{Sighting, sighting_of};
use pvp_links::Peer;
use pvp_parties::{Party, PartyOf, PartyOutcome};
use pvp_rooms::{Answer, Closed};
use pvp_trace::meanings::{meaning, reason};
use pvp_trace::names::push_actor;
use pvp_types::Setup;
use pvp_world::WorldFault;
use std::alloc::{AllocError, Global};
use std::io::Write;
use vr_types::{BootCell, Status};

/// Tells that all connections are made.
pub fn tell_connected<N: Write>(notes: &mut N, actors: usize, streams: usize) {
    let _ = write!(notes, "{streams} connections between {actors} actors\n");
}

/// Tells that a line lets time pass.
pub fn tell_rest<N: Write>(notes: &mut N, line: u32, milliseconds: u32) {
    let _ = write!(notes, "line {line}: rests {milliseconds} ms\n");
}

/// Reports the outcome of the event that a line posted at an actor; where there is none, there is
/// no such actor.
pub fn tell_posted<N: Write>(
    alloc: Global,
    notes: &mut N,
    setup: &Setup,
    line: u32,
    actor: u16,
    answer: Option<&Answer<PartyOutcome>>,
) {
    let mut text = String::new(alloc);
    if push_posted(&mut text, setup, line, actor, answer).is_ok() {
        let _ = notes.write_all(text.as_str().as_bytes());
    }
}

/// Tells behind a line where the sites stood as they were looked at, and how many frames went over the streams so far.
pub fn tell_sites<N: Write>(
    alloc: Global,
    notes: &mut N,
    setup: &Setup,
    line: u32,
    looks: &[Option<Sighting>],
    frames: Frames,
) {
    let mut text = String::new(alloc);
    if push_sites(&mut text, setup, line, looks, frames).is_ok() {
        let _ = notes.write_all(text.as_str().as_bytes());
    }
}

/// Tells how many envelopes were sent in all, how many of these did not come, and where each site stands at the end.
pub fn tell_left<N: Write>(alloc: Global, notes: &mut N, setup: &Setup, closed: &[Closed<Party>]) {
    let mut text = String::new(alloc);
    if push_left(&mut text, setup, closed).is_ok() {
        let _ = notes.write_all(text.as_str().as_bytes());
    }
}

/// Tells how many frames were taken over all streams, and how many of these ended before their end.
pub fn tell_ends<N: Write, C: BootCell, S, G>(
    alloc: Global,
    notes: &mut N,
    peers: &[Peer<'_, PartyOf<C>, S, G>],
) {
    let mut text = String::new(alloc);
    if push_ended(&mut text, frames_taken(peers), broken_count(peers)).is_ok() {
        let _ = notes.write_all(text.as_str().as_bytes());
    }
}

/// Appends how many frames were taken, and how many streams ended before their end.
fn push_ended(text: &mut String, frames: usize, broken: usize) -> Result<(), AllocError>
    ensures { OnOk result (string_bytes text.new ≡ string_bytes text.old
        ++ ended_text frames broken) }
{
    write!(
        text,
        "{frames} frames came, and {broken} connections broke\n"
    )
}

/// Appends where the sites stood behind a line, and how many frames went over the streams.
fn push_sites(
    text: &mut String,
    setup: &Setup,
    line: u32,
    looks: &[Option<Sighting>],
    frames: Frames,
) -> Result<(), AllocError>
    ensures { OnOk result (string_bytes text.new
        ≡ string_bytes text.old ++ sites_text setup.now line looks.now frames) }
{
    write!(text, "line {line}: ")?;
    push_looks(text, setup, looks)?;
    push_frames(text, frames)
}

/// Appends what each look showed.
fn push_looks(
    text: &mut String,
    setup: &Setup,
    looks: &[Option<Sighting>],
) -> Result<(), AllocError>
    ensures { OnOk result (string_bytes text.new
        ≡ string_bytes text.old ++ flat_map (look_text setup.now) looks.now) }
{
    for look in looks {
        push_look(text, setup, *look)?;
    }
    Ok(())
}

/// Appends what one of several looks showed.
fn push_look(text: &mut String, setup: &Setup, look: Option<Sighting>) -> Result<(), AllocError>
    ensures { OnOk result (string_bytes text.new ≡ string_bytes text.old
        ++ look_text setup.now look) }
{
    let Some(sighting) = look else {
        return Ok(());
    };
    push_sighting(text, setup, sighting)?;
    text.push_str(", ")
}

/// Appends a site's status.
fn push_sighting(text: &mut String, setup: &Setup, sighting: Sighting) -> Result<(), AllocError>
    ensures { OnOk result (string_bytes text.new
        ≡ string_bytes text.old ++ sighting_text setup.now sighting) }
{
    push_actor(text, setup, sighting.actor)?;
    text.push_str(" ")?;
    push_end(text, sighting.status, sighting.view)
}

/// Appends how many frames went over the streams.
fn push_frames(text: &mut String, frames: Frames) -> Result<(), AllocError>
    ensures { OnOk result (string_bytes text.new ≡ string_bytes text.old ++ frames_text frames) }
{
    let Frames { sent, came } = frames;
    write!(text, "{sent} frames sent, {came} came\n")
}

/// Appends how many envelopes were sent and how many of them did not come, and where each site stands at the end.
fn push_left(text: &mut String, setup: &Setup, closed: &[Closed<Party>]) -> Result<(), AllocError>
    ensures { OnOk result (string_bytes text.new ≡ string_bytes text.old
        ++ left_text setup.now closed.now) }
{
    let sent = sent_in_all(closed);
    let lost = sent.saturating_sub(came_in_all(closed));
    push_lost(text, sent, lost)?;
    text.push_str("at the end ")?;
    push_ends(text, setup, closed)
}

/// Appends how many envelopes were sent, and how many of them did not come.
fn push_lost(text: &mut String, sent: usize, lost: usize) -> Result<(), AllocError>
    ensures { OnOk result (string_bytes text.new ≡ string_bytes text.old ++ lost_text sent lost) }
{
    write!(
        text,
        "{sent} envelopes were sent, and {lost} of them did not come\n"
    )
}

/// Appends where each site stands at the end.
fn push_ends(text: &mut String, setup: &Setup, closed: &[Closed<Party>]) -> Result<(), AllocError>
    ensures { OnOk result (string_bytes text.new
        ≡ string_bytes text.old ++ stands_text setup.now true (sightings closed.now)) }
{
    let mut is_first = true;
    for one in closed {
        if let Some(sighting) = sighting_of(&one.end) {
            push_next(text, setup, is_first, sighting)?;
            is_first = false;
        }
    }
    text.push_str("\n")
}

/// Appends a site's status, the first of several or another.
fn push_next(
    text: &mut String,
    setup: &Setup,
    is_first: bool,
    sighting: Sighting,
) -> Result<(), AllocError>
    ensures { OnOk result (string_bytes text.new
        ≡ string_bytes text.old ++ separator is_first ++ sighting_text setup.now sighting) }
{
    if !is_first {
        text.push_str(", ")?;
    }
    push_sighting(text, setup, sighting)
}

/// Appends where a site of this status and view stands.
fn push_end(text: &mut String, status: Status, view: u32) -> Result<(), AllocError>
    ensures { OnOk result (string_bytes text.new ≡ string_bytes text.old ++ end_text status view) }
{
    match status {
        Status::Normal => write!(text, "normal in view {view}"),
        Status::Change => write!(text, "in change to view {view}"),
        Status::Recovering => text.push_str("recovering"),
        Status::Down => text.push_str("down"),
    }
}

/// Appends the outcome of the event that a line posted.
fn push_posted(
    text: &mut String,
    setup: &Setup,
    line: u32,
    actor: u16,
    answer: Option<&Answer<PartyOutcome>>,
) -> Result<(), AllocError>
    ensures { OnOk result (string_bytes text.new ≡ string_bytes text.old
        ++ posted_text setup.now line actor (option_copied answer.entry)) }
{
    write!(text, "line {line}: ")?;
    push_actor(text, setup, actor)?;
    push_answer(text, answer)?;
    text.push_str("\n")
}

/// Appends at which clock an event was taken, if it was, and what it did.
fn push_answer(text: &mut String, answer: Option<&Answer<PartyOutcome>>) -> Result<(), AllocError>
    ensures { OnOk result (string_bytes text.new ≡ string_bytes text.old
        ++ answer_text (option_copied answer.entry)) }
{
    push_clock(text, answer)?;
    text.push_str(": ")?;
    push_effect(text, line_effect(answer))
}

/// Appends at which clock an event was taken, if it was.
fn push_clock(text: &mut String, answer: Option<&Answer<PartyOutcome>>) -> Result<(), AllocError>
    ensures { OnOk result (string_bytes text.new ≡ string_bytes text.old
        ++ clock_text (option_copied answer.entry)) }
{
    match answer {
        Some(Answer::Done { clock, .. }) => write!(text, " at clock {clock}"),
        Some(Answer::NoMemory | Answer::ClockSpent) | None => Ok(()),
    }
}

/// Appends what an event did.
fn push_effect(text: &mut String, effect: Effect) -> Result<(), AllocError>
    ensures { OnOk result (string_bytes text.new ≡ string_bytes text.old ++ effect_text effect) }
{
    match effect {
        Effect::Sent(count) => push_count(text, count),
        Effect::Dropped(why) => {
            let reason = reason(why);
            write!(text, "dropped, {reason}")
        }
        Effect::Refused(fault) => push_fault(text, fault),
        Effect::ClockSpent => text.push_str("there is no greater clock"),
    }
}

/// Appends how many envelopes were sent.
fn push_count(text: &mut String, count: usize) -> Result<(), AllocError>
    ensures { OnOk result (string_bytes text.new ≡ string_bytes text.old ++ count_text count) }
{
    write!(text, "sends {count}")
}

/// Appends a refusal, by its code and what that means.
fn push_fault(text: &mut String, fault: WorldFault) -> Result<(), AllocError>
    ensures { OnOk result (string_bytes text.new ≡ string_bytes text.old ++ refusal_text fault) }
{
    let meaning = meaning(fault);
    write!(text, "{fault}, {meaning}")
}
