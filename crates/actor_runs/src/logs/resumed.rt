//! The history of a room whose process was killed is replayed.

use crate::journals::again::commits;
use crate::logs::rooms::{Operator, operator, settle, written};
use fixtures::setup::three_currencies;
use pvp_journal::{Entry, Replayed, Summary, Untold, read_journal, replay};
use pvp_parties::{Party, PartyOutcome};
use pvp_rooms::CameOf;
use std::alloc::Global;
use std::process::Abort;
use std::test::Fail;
use vr_types::Why;

/// The operator's room after two requests, the second of which is refused.
fn worked(alloc: Global) -> Result<Operator, Fail> {
    let (room, _first) = settle(alloc, operator(alloc, 0)?, 0)?;
    let (room, _second) = settle(alloc, room, 0)?;
    Ok(room)
}

/// The history in a room's log.
fn history_of(alloc: Global, room: &Operator) -> Result<Vec<Entry>, Fail> {
    match read_journal(alloc, room.log().bytes()) {
        Ok(journal) => Ok(journal.history),
        Err(_) => Err(Fail::new("damaged")),
    }
}

/// The history that a worked room wrote.
fn worked_history(alloc: Global) -> Result<Vec<Entry>, Fail> {
    let (room, _letters) = written(alloc, worked(alloc)?, true)?;
    history_of(alloc, &room)
}

/// How a journal says that an event came out.
#[derive(Clone, Copy)]
pub(crate) enum Came {
    /// So many envelopes were sent, and this is why the event was dropped.
    Sent(u8, Option<Why>),
    /// A site sent so many COMMITs, all of which stand there.
    Commits(usize),
    Stray,
}

/// The summary that says so.
pub(crate) fn summary_of(alloc: Global, came: Came) -> Result<Summary, Fail> {
    Ok(match came {
        Came::Sent(count, dropped) => Summary::Sent { count, dropped },
        Came::Commits(count) => Summary::Whole(PartyOutcome::OfSite(CameOf::Did {
            sent: commits(alloc, count)?,
            dropped: None,
        })),
        Came::Stray => Summary::Whole(PartyOutcome::Stray),
    })
}

/// Has the event at a place come out so.
pub(crate) fn alter_at(
    alloc: Global,
    entries: &mut [Entry],
    at: usize,
    came: Came,
) -> Result<(), Fail> {
    let summary = summary_of(alloc, came)?;
    if let Some(entry) = entries.get_mut(at) {
        entry.outcome = summary;
    }
    Ok(())
}

/// Gives no event a clock above this.
fn lower(history: &mut [Entry], clocks: u64) {
    for entry in history {
        entry.clock = entry.clock.min(clocks);
    }
}

/// The event at a place came out so.
type Other = (usize, Came);

/// Gives no event a clock above this, and has some come out otherwise.
fn alter(alloc: Global, history: &mut [Entry], clocks: u64, others: &[Other]) -> Result<(), Fail> {
    lower(history, clocks);
    for (at, came) in others {
        alter_at(alloc, history, *at, *came)?;
    }
    Ok(())
}

/// The last clock of such a history, once it was altered so; `None` where it cannot have come so.
fn clock_after(alloc: Global, clocks: u64, others: &[Other]) -> Result<Option<u64>, Fail> {
    let mut history = worked_history(alloc)?;
    alter(alloc, history.as_mut_slice(), clocks, others)?;
    again(alloc, history.as_slice())
}

/// The last clock of a history of the operator; `None` where it cannot have come so.
pub(crate) fn again(alloc: Global, history: &[Entry]) -> Result<Option<u64>, Fail> {
    let actor = Party::client(&three_currencies(alloc)?, 0)?;
    match replay(alloc, actor, history, &mut Untold)? {
        Some(again) => Ok(Some(clock_of(again))),
        None => Ok(None),
    }
}

/// The last clock of what was replayed.
pub(crate) fn clock_of<A: Drop>(again: Replayed<A>) -> u64 {
    again.clock
}

/// The history of the operator, altered so, is replayed up to this clock; `None` where it cannot
/// have come so.
fn comes_to<R: Abort + AllocGlobal>(
    rt: &R,
    clocks: u64,
    others: &[Other],
    want: Option<u64>,
) -> Result<(), Fail> {
    assert_eq!(rt; clock_after(rt.alloc(), clocks, others)?, want);
    Ok(())
}

#[test]
fn a_history_is_taken_again(rt: HostRuntime) -> Result<(), Fail> {
    comes_to(&rt, 2, &[], Some(2))?;
    comes_to(&rt, 2, &[(0, Came::Sent(3, None))], Some(2))
}

#[test]
fn an_altered_outcome_cannot_have_come_so(rt: HostRuntime) -> Result<(), Fail> {
    comes_to(&rt, 2, &[(1, Came::Stray)], None)?;
    comes_to(&rt, 2, &[(1, Came::Sent(0, None))], None)
}

/// The first request goes to three sites.
#[test]
fn an_altered_count_cannot_have_come_so(rt: HostRuntime) -> Result<(), Fail> {
    for count in [0, 2, 4, 255] {
        comes_to(&rt, 2, &[(0, Came::Sent(count, None))], None)?;
    }
    Ok(())
}

#[test]
fn what_was_not_dropped_cannot_have_come_so(rt: HostRuntime) -> Result<(), Fail> {
    comes_to(&rt, 2, &[(0, Came::Sent(3, Some(Why::Status)))], None)
}

#[test]
fn clocks_that_stand_still_cannot_have_come_so(rt: HostRuntime) -> Result<(), Fail> {
    comes_to(&rt, 1, &[], None)
}
