//! The greatest cut of histories that were copied while their actors still ran, or one of which was
//! truncated.
ghost use Rattle.std.specs.Prelude.{◌≡◌, ◌<◌, ◌≤◌, IfOk, length, map, false, true};
ghost use Rattle.pvp_types.specs.declared.setup.Setup.{Setup};
ghost use Rattle.pvp_audit.specs.Actors.{AreOfTheBank};
ghost use Rattle.pvp_audit.specs.Cut.{IsGreatestCut, IsShortened, AreShortened, covered_front, event_count, is_covered, reach_in, reach_of};

use crate::history::History;
use pvp_journal::Entry;
use std::alloc::{AllocError, Global};

/// How far the history of an actor goes.
#[derive(Clone, Copy)]
struct Reach {
    actor: u16,
    clock: u64,
}

/// Cuts off the ends of histories so that of each envelope which came to an actor the sender's history is there up to the
/// clock at which it was sent, and cuts off no more than that takes. What an actor sent that has no history here stays.
pub fn cut(alloc: Global, histories: Vec<History>) -> Result<Vec<History>, AllocError>
    ensures greatest { IfOk result (λ cut. IsGreatestCut cut.items histories.items) }
    // Of the histories of a bank's actors it leaves one of each.
    ensures bank { (setup : Setup) → AreOfTheBank setup histories.items →
        IfOk result (λ cut. AreOfTheBank setup cut.items) }
{
    let mut cut = histories;
    loop {
        let reaches = reaches_of(alloc, cut.as_slice())?;
        if !shorten_all(cut.as_mut_slice(), reaches.as_slice()) {
            return Ok(cut);
        }
    }
}

/// How far each of these histories goes.
fn reaches_of(alloc: Global, histories: &[History]) -> Result<Vec<Reach>, AllocError>
    ensures { IfOk result (λ reaches. reaches.items ≡ map reach_in histories.now) }
{
    let mut reaches = Vec::with_capacity(alloc, histories.len())?;
    for history in histories {
        reaches.push(Reach {
            actor: history.actor,
            clock: reach_of(history.entries.as_slice()),
        })?;
    }
    Ok(reaches)
}

/// The greatest clock of these events; 0 where there is none.
fn reach_of(entries: &[Entry]) -> u64
    ensures { result ≡ reach_of entries.now }
{
    let mut clock = 0;
    for entry in entries {
        clock = entry.clock.max(clock);
    }
    clock
}

/// Cuts each history before its first event that is not covered, and answers whether one was cut.
fn shorten_all(histories: &mut [History], reaches: &[Reach]) -> bool
    ensures fronts { AreShortened reaches.now histories.old histories.new }
    ensures fewer { result ≡ true → event_count histories.new < event_count histories.old }
    ensures same { result ≡ false → histories.new ≡ histories.old }
{
    let mut is_cut = false;
    for history in histories {
        if shorten(history, reaches) {
            is_cut = true;
        }
    }
    is_cut
}

/// Cuts a history before its first event that is not covered, and answers whether there is one.
fn shorten(history: &mut History, reaches: &[Reach]) -> bool
    ensures front { IsShortened reaches.now history.old history.new }
    ensures fewer { result ≡ true →
        length history.new.entries.items < length history.old.entries.items }
    ensures same { result ≡ false → history.new ≡ history.old }
{
    let covered = covered_front(history.entries.as_slice(), reaches);
    if covered == history.entries.len() {
        return false;
    }
    history.entries.truncate(covered);
    true
}

/// How many events come before the first that is not covered.
fn covered_front(entries: &[Entry], reaches: &[Reach]) -> usize
    ensures value { result ≡ covered_front reaches.now entries.now }
    ensures within { result ≤ length entries.now }
{
    for (at, entry) in entries.iter().enumerate() {
        if !is_covered(entry, reaches) {
            return at;
        }
    }
    entries.len()
}

/// Whether an event delivered nothing, or its sender's history goes as far as the clock at which that was sent.
fn is_covered(entry: &Entry, reaches: &[Reach]) -> bool
    ensures { result ≡ is_covered reaches.now entry.now }
{
    let Some(stamp) = entry.stamp else {
        return true;
    };
    reaches.iter().all(|reach| reach.actor != stamp.actor || stamp.clock <= reach.clock)
}
