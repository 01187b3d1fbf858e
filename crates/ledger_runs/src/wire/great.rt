//! The greatest frames.

use crate::wire::sent::{self, frame, known, row, rows, stamped};
use pvp_wire::Message;
use std::alloc::{AllocError, Global};
use std::process::Abort;
use std::test::Fail;
use vr_types::{DoViewChangeOf, MsgOf, RecoveryResponseOf, StartViewOf, StateOf};

/// As many rows as a log has.
const MOST_ROWS: usize = 65_535;

/// How many bytes as many rows take with their count, each an Instruct.
const MOST_BYTES: usize = 2 + MOST_ROWS * 31;

/// The frame of a message.
fn frame_of(alloc: Global, msg: Message) -> Result<Vec<u8>, Fail> {
    frame(alloc, &stamped(200, 1, 0, 201, msg))
}

/// How long a message's frame is, and whether that is read and written again the same.
fn written(alloc: Global, msg: Message) -> Result<(usize, bool), Fail> {
    let bytes = frame_of(alloc, msg)?;
    Ok((bytes.len(), sent::comes_back(alloc, bytes.as_slice())?))
}

/// Writes a message, reads it and writes it again.
fn comes_back<R: Abort + AllocGlobal>(rt: &R, msg: Message, length: usize) -> Result<(), Fail> {
    assert!(rt; written(rt.alloc(), msg)? == (length, true));
    Ok(())
}

#[test]
fn a_view_starts_with_a_whole_log(rt: HostRuntime) -> Result<(), Fail> {
    let start = MsgOf::StartView(StartViewOf {
        view: 1,
        done: 0,
        rows: rows(rt.alloc(), row(), MOST_ROWS)?,
    });
    comes_back(&rt, start, 22 + 6 + MOST_BYTES)
}

/// No frame is longer.
#[test]
fn a_state_has_a_whole_log_and_seven_sites(rt: HostRuntime) -> Result<(), Fail> {
    let alloc = rt.alloc();
    let regained = MsgOf::RecoveryResponse(RecoveryResponseOf {
        view: 1,
        nonce: 1,
        state: Some(StateOf {
            done: 0,
            rows: rows(alloc, row(), MOST_ROWS)?,
        }),
        known: known(&[1, 2, 3, 4, 5, 6, 7]),
    });
    comes_back(&rt, regained, 2_031_649)
}

/// Votes of so many rows, and how long their frames are: about where pages of rows begin and end, and a whole log.
const VOTES: [(usize, usize); 7] = [
    (0, 47),
    (1, 78),
    (63, 2_000),
    (64, 2_031),
    (65, 2_062),
    (128, 4_015),
    (MOST_ROWS, 2_031_632),
];

/// A vote of so many rows.
fn vote(alloc: Global, count: usize) -> Result<Message, AllocError> {
    Ok(MsgOf::DoViewChange(DoViewChangeOf {
        view: 2,
        last_normal: 1,
        done: 0,
        rows: rows(alloc, row(), count)?,
        known: known(&[1, 2, 3]),
    }))
}

#[test]
fn votes_of_whole_pages_and_of_more(rt: HostRuntime) -> Result<(), Fail> {
    for (count, length) in VOTES {
        comes_back(&rt, vote(rt.alloc(), count)?, length)?;
    }
    Ok(())
}
