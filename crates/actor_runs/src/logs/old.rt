//! The operator comes back to a journal of version 1 that was worked by hand.

use crate::journals::sealed::journal_behind;
use crate::logs::back::{back, bytes_of, told_of};
use crate::logs::resumed::again;
use crate::logs::rooms::Operator;
use headline::ClientEvent;
use pvp_journal::{Left, read_journal};
use pvp_parties::PartyEvent;
use pvp_rooms::Input;
use std::alloc::Global;
use std::process::Abort;
use std::test::Fail;

/// The head of the operator, of a bank whose id is 32 sevens.
const HEAD: [u8; 40] = [
    80, 86, 80, 74, 1, 0, 0, 0, 7, 7, 7, 7, 7, 7, 7, 7, 7, 7, 7, 7, 7, 7, 7, 7, 7, 7, 7, 7, 7, 7,
    7, 7, 7, 7, 7, 7, 7, 7, 7, 7,
];

/// At clock 1 it asks to settle 1 at most, and sends request 1 to each of three sites.
const ASKED: [u8; 138] = [
    0, 0, 0, 0, 0, 0, 0, 1, 12, 0, 0, 0, 27, 2, 1, 0, 0, 0, 0, 0, 0, 0, 0, 0, 1, 0, 0, 0, 0, 0,
    200, 0, 0, 0, 0, 4, 0, 0, 0, 1, 6, 0, 0, 0, 3, 0, 0, 0, 27, 2, 1, 0, 0, 0, 0, 0, 0, 0, 0, 0, 1,
    0, 0, 0, 0, 0, 200, 0, 0, 0, 1, 4, 0, 0, 0, 1, 0, 0, 0, 27, 2, 1, 0, 0, 0, 0, 0, 0, 0, 0, 0, 1,
    0, 0, 0, 1, 0, 201, 0, 0, 0, 1, 4, 0, 0, 0, 1, 0, 0, 0, 27, 2, 1, 0, 0, 0, 0, 0, 0, 0, 0, 0, 1,
    0, 0, 0, 2, 0, 202, 0, 0, 0, 1, 4, 0, 0, 0, 1,
];

/// At clock 2 it asks so again, which it refuses: it still waits.
const REFUSED: [u8; 42] = [
    0, 0, 0, 0, 0, 0, 0, 2, 12, 0, 0, 0, 27, 2, 1, 0, 0, 0, 0, 0, 0, 0, 0, 0, 2, 0, 0, 0, 0, 0,
    200, 0, 0, 0, 0, 4, 0, 0, 0, 1, 7, 1,
];

/// A beat at clock 3, at which it sends the three again, as version 2 has it.
const BEAT: [u8; 12] = [0, 0, 0, 0, 0, 0, 0, 3, 11, 9, 3, 0];

/// What it sent, with another byte at a place.
fn asked_with(at: usize, byte: u8) -> [u8; 138] {
    let mut asked = ASKED;
    if let Some(place) = asked.get_mut(at) {
        *place = byte;
    }
    asked
}

/// The last clock of the history of the journal in these bytes; `None` where it cannot have come so.
fn clock_of(alloc: Global, bytes: &[u8]) -> Result<Option<u64>, Fail> {
    match read_journal(alloc, bytes) {
        Ok(journal) => again(alloc, journal.history.as_slice()),
        Err(_) => Err(Fail::new("damaged")),
    }
}

/// The operator that asked so comes back at this clock; `None` where it cannot have.
fn comes_to<R: Abort + AllocGlobal>(rt: &R, asked: &[u8], want: Option<u64>) -> Result<(), Fail> {
    let bytes = journal_behind(rt.alloc(), &HEAD, &[asked, &REFUSED])?;
    assert_eq!(rt; clock_of(rt.alloc(), bytes.as_slice())?, want, "{asked:?}");
    Ok(())
}

#[test]
fn an_old_journal_is_taken_again(rt: HostRuntime) -> Result<(), Fail> {
    comes_to(&rt, &ASKED, Some(2))
}

/// The first request asks for more, the second goes to the first site, the third has another number.
#[test]
fn an_altered_envelope_cannot_have_come_so(rt: HostRuntime) -> Result<(), Fail> {
    for (at, byte) in [(75, 2), (97, 200), (132, 2)] {
        comes_to(&rt, &asked_with(at, byte), None)?;
    }
    Ok(())
}

/// The operator's room takes a beat.
fn beaten(alloc: Global, room: Operator) -> Result<Operator, Fail> {
    let input = Input {
        event: PartyEvent::OfClient(ClientEvent::Beats),
        stamp: None,
    };
    match room.step(alloc, input) {
        Ok((room, _)) => Ok(room),
        Err(_) => Err(Fail::new("it has no text")),
    }
}

/// The journal of the operator that came back to this one and took a beat.
fn gone_on(alloc: Global, old: &[u8]) -> Result<Vec<u8>, Fail> {
    let room = beaten(alloc, back(alloc, old)?)?;
    bytes_of(alloc, room)
}

/// The old journal goes on as this, and the operator comes back to it again.
fn goes_on<R: Abort + AllocGlobal>(rt: &R, old: &[u8], want: &[u8]) -> Result<(), Fail> {
    let found = gone_on(rt.alloc(), old)?;
    assert!(rt; found.as_slice() == want);
    assert_eq!(rt;
        told_of(rt.alloc(), found.as_slice())?,
        (3, Left::Nothing, 3)
    );
    Ok(())
}

#[test]
fn an_old_journal_goes_on(rt: HostRuntime) -> Result<(), Fail> {
    let old = journal_behind(rt.alloc(), &HEAD, &[&ASKED, &REFUSED])?;
    let want = journal_behind(rt.alloc(), &HEAD, &[&ASKED, &REFUSED, &BEAT])?;
    goes_on(&rt, old.as_slice(), want.as_slice())
}
