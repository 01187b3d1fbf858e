//! A room over a log, one call of which may fail.

use fixtures::setup::three_currencies;
use headline::ClientEvent;
use pvp_journal::{
    Head, JournalRoom, Journaled, Left, Log, LogFault, MemLog, Posted, Version, WriteFault,
    read_journal, write_head,
};
use pvp_parties::{Party, PartyEvent};
use pvp_rooms::Input;
use pvp_types::Cmd;
use pvp_wire::Stamp;
use std::alloc::Global;
use std::process::Abort;
use std::test::Fail;

/// The operator's room.
pub(crate) type Operator = JournalRoom<Party, MemLog>;

/// A log with the head of the operator's journal, of which the call of this number fails, and the checksum of that.
fn log_of_operator(alloc: Global, failing: u64) -> Result<(MemLog, u64), Fail> {
    let head = Head {
        version: Version::Two,
        actor: 0,
        opening: None,
        bank: [7; 32],
    };
    let mut bytes = Vec::new(alloc);
    let sum = write_head(alloc, &head, &mut bytes)?;
    Ok((MemLog::new(bytes, failing), sum))
}

/// The operator's room, over a log of which the call of this number fails.
pub(crate) fn operator(alloc: Global, failing: u64) -> Result<Operator, Fail> {
    let (log, sum) = log_of_operator(alloc, failing)?;
    let actor = Party::client(&three_currencies(alloc)?, 0)?;
    Ok(JournalRoom::new(alloc, 0, None, actor, log, sum))
}

/// A stamp of this clock; at 0 there is none.
fn stamp_of(clock: u64) -> Option<Stamp> {
    let stamp = Stamp {
        actor: 1,
        clock,
        index: 0,
    };
    if clock == 0 { None } else { Some(stamp) }
}

/// The operator asks for a settlement; at another clock than 0 that has a stamp, which no request has.
fn request(clock: u64) -> Input<PartyEvent> {
    Input {
        event: PartyEvent::OfClient(ClientEvent::Submits(Cmd::Settle { most: 1 })),
        stamp: stamp_of(clock),
    }
}

/// The operator's room takes such a request.
pub(crate) fn settle(
    alloc: Global,
    room: Operator,
    clock: u64,
) -> Result<(Operator, Posted), Fail> {
    match room.step(alloc, request(clock)) {
        Ok(stepped) => Ok(stepped),
        Err(_) => Err(Fail::new("it has no text")),
    }
}

/// How many events the journal has, and whether nothing is left behind them.
fn events_in(alloc: Global, room: &Operator) -> Option<(usize, Left)> {
    match read_journal(alloc, room.log().bytes()) {
        Ok(journal) => Some((journal.history.len(), journal.left)),
        Err(_) => None,
    }
}

/// The room once its batch is written, and synced where asked, and how much then leaves it.
pub(crate) fn written<A: Journaled, L: Log>(
    alloc: Global,
    room: JournalRoom<A, L>,
    syncs: bool,
) -> Result<(JournalRoom<A, L>, usize), Fail> {
    match room.flush(alloc, syncs) {
        Ok((room, letters)) => Ok((room, letters.len())),
        Err(_) => Err(Fail::new("the log failed")),
    }
}

/// A room answered so, and then has this clock.
fn answered(rt: &impl Abort, room: &Operator, posted: Posted, want: (Posted, u64)) {
    assert_eq!(rt; (posted, room.clock()), want);
}

/// An event waits in a room, and nothing of it is in the log.
fn waits(rt: &impl Abort, alloc: Global, room: &Operator) {
    assert_eq!(rt; room.is_flushed(), false);
    assert_eq!(rt; events_in(alloc, room), Some((0, Left::Nothing)));
}

/// The room of one that waits.
fn waiting(rt: &impl Abort, alloc: Global) -> Result<Operator, Fail> {
    let (room, posted) = settle(alloc, operator(alloc, 0)?, 0)?;
    answered(rt, &room, posted, (Posted::Done(1), 1));
    waits(rt, alloc, &room);
    Ok(room)
}

/// So many events are in the log of a room, and as many were handed out.
fn stand_written(rt: &impl Abort, alloc: Global, flushed: &(Operator, usize), count: usize) {
    let (room, letters) = flushed;
    assert_eq!(rt; *letters, count);
    assert_eq!(rt; events_in(alloc, room), Some((count, Left::Nothing)));
}

/// Nothing of a room waits, and all of its log is synced.
fn is_synced(rt: &impl Abort, room: &Operator) {
    assert_eq!(rt; room.is_flushed(), true);
    assert_eq!(rt; room.log().synced_length(), room.log().bytes().len());
}

#[test]
fn what_waits_is_handed_out_once_it_is_written(rt: HostRuntime) -> Result<(), Fail> {
    let alloc = rt.alloc();
    let flushed = written(alloc, waiting(&rt, alloc)?, true)?;
    stand_written(&rt, alloc, &flushed, 1);
    is_synced(&rt, &flushed.0);
    Ok(())
}

/// The room that took a request and refused another.
fn refusing(rt: &impl Abort, alloc: Global) -> Result<Operator, Fail> {
    let (room, _first) = settle(alloc, operator(alloc, 0)?, 0)?;
    let (room, posted) = settle(alloc, room, 0)?;
    answered(rt, &room, posted, (Posted::Done(2), 2));
    Ok(room)
}

#[test]
fn a_refused_event_is_written_too(rt: HostRuntime) -> Result<(), Fail> {
    let alloc = rt.alloc();
    let flushed = written(alloc, refusing(&rt, alloc)?, false)?;
    stand_written(&rt, alloc, &flushed, 2);
    Ok(())
}

/// Why a batch is not written where the log's call of this number fails.
fn refusal(alloc: Global, failing: u64) -> Result<Option<LogFault>, Fail> {
    let (room, _posted) = settle(alloc, operator(alloc, failing)?, 0)?;
    Ok(room.flush(alloc, true).err())
}

#[test]
fn nothing_is_handed_out_after_a_refusal(rt: HostRuntime) -> Result<(), Fail> {
    for failing in 1..=2 {
        let refused = refusal(rt.alloc(), failing)?;
        assert_eq!(rt; refused, Some(LogFault::Failed), "at call {failing}");
    }
    Ok(())
}

#[test]
fn a_clock_is_spent(rt: HostRuntime) -> Result<(), Fail> {
    let alloc = rt.alloc();
    let (room, posted) = settle(alloc, operator(alloc, 0)?, u64::MAX)?;
    answered(&rt, &room, posted, (Posted::ClockSpent, 0));
    Ok(())
}

#[test]
fn a_request_with_a_stamp_has_no_text(rt: HostRuntime) -> Result<(), Fail> {
    let alloc = rt.alloc();
    let refused = operator(alloc, 0)?.step(alloc, request(7)).err();
    assert_eq!(rt; refused, Some(WriteFault::Unfit));
    Ok(())
}
