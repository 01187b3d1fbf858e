//! Frames that were worked by hand from the formats, byte by byte, as they are written and read.

use self::Worked::{Answer, Change, Commits, Fund, Order, Regained, Returned, Vote};
use crate::wire::sent::{comes_back, is_frame, known, rows, settle, stamped};
use fixtures::frames::{ANSWER, CHANGE, COMMIT, KINDS, ORDER, REGAINED, REQUEST, VOTE};
use pvp_types::{Cmd, PayOrder, Reason, Reply};
use pvp_wire::Message;
use std::alloc::{AllocError, Global};
use std::process::Abort;
use std::test::Fail;
use vr_types::{
    Commit, DoViewChangeOf, MsgOf, RecoveryResponseOf, ReplyOf, RequestOf, RowsOf, StartViewChange,
    StateOf,
};

/// REQUEST 2 of USD's node: its order 1 could not be paid. To site 0, clock 2, index 0.
const RETURNED: [u8; 32] = [
    0, 0, 0, 28, 2, 1, 0, 102, 0, 0, 0, 0, 0, 0, 0, 2, 0, 0, 0, 0, 0, 200, 0, 0, 0, 2, 7, 1, 0, 0,
    0, 1,
];

/// What a worked frame says.
#[derive(Clone, Copy)]
enum Worked {
    Fund,
    Returned,
    Commits,
    Change,
    Vote,
    Regained,
    Answer,
    Order,
}

/// Messages, each with the two actors between whom it goes, its clock and index, and its frame.
const FRAMES: &[(Worked, (u16, u16), (u64, u32), &[u8])] = &[
    (Fund, (102, 200), (1, 0), &REQUEST),
    (Returned, (102, 200), (2, 0), &RETURNED),
    (Commits, (200, 201), (5, 0), &COMMIT),
    (Change, (202, 201), (2, 1), &CHANGE),
    (Vote, (202, 201), (3, 0), &VOTE),
    (Regained, (200, 202), (4, 1), &REGAINED),
    (Answer, (200, 1), (7, 0), &ANSWER),
    (Order, (200, 102), (7, 2), &ORDER),
];

fn request(number: u32, cmd: Cmd) -> Message {
    MsgOf::Request(RequestOf { number, cmd })
}

fn vote(alloc: Global) -> Result<Message, AllocError> {
    Ok(MsgOf::DoViewChange(DoViewChangeOf {
        view: 2,
        last_normal: 1,
        done: 0,
        rows: rows(alloc, settle(), 1)?,
        known: known(&[1, 0, 0]),
    }))
}

fn regained(alloc: Global) -> Message {
    MsgOf::RecoveryResponse(RecoveryResponseOf {
        view: 2,
        nonce: 1,
        state: Some(StateOf {
            done: 0,
            rows: RowsOf::new(alloc),
        }),
        known: known(&[0, 0, 1]),
    })
}

/// The message itself.
fn message_of(alloc: Global, worked: Worked) -> Result<Message, AllocError> {
    Ok(match worked {
        Fund => request(
            1,
            Cmd::Fund {
                ccy: 1,
                pay: 1,
                member: 1,
                amt: 1200,
            },
        ),
        Returned => request(2, Cmd::Returned { ccy: 1, out: 1 }),
        Commits => MsgOf::Commit(Commit { view: 0, done: 1 }),
        Change => MsgOf::StartViewChange(StartViewChange {
            view: 2,
            known: known(&[0, 0, 0]),
        }),
        Vote => vote(alloc)?,
        Regained => regained(alloc),
        Answer => MsgOf::Reply(ReplyOf {
            view: 0,
            number: 3,
            reply: Reply::No(Reason::BankShort),
        }),
        Order => MsgOf::PayOrder(PayOrder {
            ccy: 1,
            out: 1,
            member: 1,
            amt: 200,
        }),
    })
}

/// Whether a message between two actors, with this clock and index, is spelled by these bytes.
fn is_spelled(
    alloc: Global,
    worked: Worked,
    (from, to): (u16, u16),
    (clock, index): (u64, u32),
    bytes: &[u8],
) -> Result<bool, Fail> {
    let msg = message_of(alloc, worked)?;
    is_frame(
        alloc,
        &stamped(from, clock, index, to, msg),
        bytes.len(),
        bytes,
    )
}

fn spells<R: Abort + AllocGlobal>(rt: &R) -> Result<(), Fail> {
    for (at, (worked, ends, stamp, bytes)) in FRAMES.iter().enumerate() {
        let is_right = is_spelled(rt.alloc(), *worked, *ends, *stamp, *bytes)?;
        assert!(rt; is_right, "frame {at}");
    }
    Ok(())
}

#[test]
fn worked_messages_are_spelled_so(rt: HostRuntime) -> Result<(), Fail> {
    spells(&rt)
}

/// Bytes are one frame, which is written as it is read.
fn come_back<R: Abort + AllocGlobal>(rt: &R, bytes: &[u8]) -> Result<(), Fail> {
    assert!(rt; comes_back(rt.alloc(), bytes)?);
    Ok(())
}

#[test]
fn a_frame_of_each_kind_is_written_as_it_is_read(rt: HostRuntime) -> Result<(), Fail> {
    for bytes in KINDS {
        come_back(&rt, bytes)?;
    }
    come_back(&rt, &RETURNED)
}
