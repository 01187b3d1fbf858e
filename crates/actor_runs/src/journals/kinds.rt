//! Each kind of event and of summary, read from bytes that were worked by hand, and written again.

use crate::journals::again::{comes_back, sent_at};
use crate::journals::sealed::{Answer, HEAD, journal_of, sum_of, told};
use headline::ClientEvent;
use pvp_journal::{JournalWhy, Taken, write_record};
use pvp_parties::PartyEvent;
use pvp_wire::WireFault;
use rtgs_node::NodeEvent;
use std::alloc::Global;
use std::process::Abort;
use std::test::Fail;
use vr_types::EventOf;

/// A site at clock 5: a COMMIT comes from it to site 1, whose stamp is its own; it sends one envelope.
pub const DELIVERED: [u8; 40] = [
    0, 0, 0, 0, 0, 0, 0, 5, 1, 0, 0, 0, 24, 2, 4, 0, 200, 0, 0, 0, 0, 0, 0, 0, 5, 0, 0, 0, 0, 0,
    201, 0, 0, 0, 0, 0, 1, 9, 1, 0,
];

/// At clock 6 a timer fires; nothing is sent, as its status does not take part.
pub const TIMER: [u8; 12] = [0, 0, 0, 0, 0, 0, 0, 6, 2, 9, 0, 1];

/// A beat; nothing is sent, and nothing was dropped.
const BEAT: [u8; 12] = [0, 0, 0, 0, 0, 0, 0, 7, 3, 9, 0, 0];

/// A crash, which is refused: the site is down.
pub const CRASH: [u8; 11] = [0, 0, 0, 0, 0, 0, 0, 8, 4, 2, 3];

/// A restart, at which the site falls, as its cell does not save; it then holds 9 boots.
pub const RESTART: [u8; 15] = [0, 0, 0, 0, 0, 0, 0, 9, 5, 3, 2, 0, 0, 0, 9];

/// A node's order comes, 1 of USD: 200 for member 1. It sends two envelopes.
const ORDERED: [u8; 49] = [
    0, 0, 0, 0, 0, 0, 0, 5, 6, 0, 0, 0, 33, 2, 13, 0, 200, 0, 0, 0, 0, 0, 0, 0, 7, 0, 0, 0, 2, 0,
    102, 1, 0, 0, 0, 1, 0, 1, 0, 0, 0, 0, 0, 0, 0, 200, 9, 2, 0,
];

/// A node's beat, which it refuses: short.
pub const NODE_BEAT: [u8; 11] = [0, 0, 0, 0, 0, 0, 0, 5, 7, 5, 1];

/// A pay-in of 1200 for member 1, at which nothing is sent.
const PAY_IN: [u8; 22] = [
    0, 0, 0, 0, 0, 0, 0, 5, 8, 0, 1, 0, 0, 0, 0, 0, 0, 4, 176, 9, 0, 0,
];

/// Member 2's account is closed, at which nothing is sent.
const CLOSING: [u8; 14] = [0, 0, 0, 0, 0, 0, 0, 5, 9, 0, 2, 9, 0, 0];

/// A client's answer comes, to request 3 of member 1; nothing is sent.
const ANSWERED: [u8; 44] = [
    0, 0, 0, 0, 0, 0, 0, 5, 10, 0, 0, 0, 28, 2, 12, 0, 200, 0, 0, 0, 0, 0, 0, 0, 7, 0, 0, 0, 0, 0,
    1, 0, 0, 0, 0, 0, 0, 0, 3, 5, 11, 9, 0, 0,
];

/// A client's beat, which it refuses: it still waits.
pub const CLIENT_BEAT: [u8; 11] = [0, 0, 0, 0, 0, 0, 0, 5, 11, 7, 1];

/// A client asks to settle 8 at most, as a request of number 0 to site 0 with its own stamp; and a stray.
pub const SUBMITTED: [u8; 41] = [
    0, 0, 0, 0, 0, 0, 0, 5, 12, 0, 0, 0, 27, 2, 1, 0, 200, 0, 0, 0, 0, 0, 0, 0, 5, 0, 0, 0, 0, 0,
    200, 0, 0, 0, 0, 4, 0, 0, 0, 8, 8,
];

/// All of them.
pub const KINDS: [&[u8]; 12] = [
    &DELIVERED,
    &TIMER,
    &BEAT,
    &CRASH,
    &RESTART,
    &ORDERED,
    &NODE_BEAT,
    &PAY_IN,
    &CLOSING,
    &ANSWERED,
    &CLIENT_BEAT,
    &SUBMITTED,
];

#[test]
fn each_kind_comes_back(rt: HostRuntime) -> Result<(), Fail> {
    let alloc = rt.alloc();
    let bytes = journal_of(alloc, &KINDS)?;
    assert!(rt; comes_back(alloc, bytes.as_slice(), KINDS.len())?);
    Ok(())
}

/// A beat at clock 5, and the outcome of this tag with this number in it; a site's and a client's faults, and a node's.
fn numbered(tag: u8, number: u8) -> [u8; 11] {
    [0, 0, 0, 0, 0, 0, 0, 5, 3, tag, number]
}

/// A beat at clock 5 at which a site fell by the fault of this number; its cell then holds 9 boots.
fn fallen(number: u8) -> [u8; 15] {
    [0, 0, 0, 0, 0, 0, 0, 5, 3, 3, number, 0, 0, 0, 9]
}

/// A beat at clock 5 at which so many envelopes were sent, and the number of why it was dropped.
pub fn summed(count: u8, why: u8) -> [u8; 12] {
    [0, 0, 0, 0, 0, 0, 0, 5, 3, 9, count, why]
}

/// Whether a journal of one record comes back, where what that says is known; or else a field is
/// reported that has a value which it may not have.
fn is_right(alloc: Global, bytes: &[u8], known: bool) -> Result<bool, Fail> {
    if known {
        comes_back(alloc, bytes, 1)
    } else {
        Ok(told(alloc, bytes) == Answer::Fault(JournalWhy::Record(WireFault::Field), 44))
    }
}

/// A record that says these bytes comes back, or says nothing: a field has a value that it may not have.
fn is_known<R: Abort + AllocGlobal>(rt: &R, body: &[u8], known: bool) -> Result<(), Fail> {
    let bytes = journal_of(rt.alloc(), &[body])?;
    let is_right = is_right(rt.alloc(), bytes.as_slice(), known)?;
    assert!(rt; is_right, "{body:?}");
    Ok(())
}

#[test]
fn each_number_of_a_fault_comes_back(rt: HostRuntime) -> Result<(), Fail> {
    for number in 0..9 {
        is_known(&rt, &numbered(2, number), number >= 1 && number <= 7)?;
        is_known(&rt, &fallen(number), number >= 1 && number <= 7)?;
        is_known(&rt, &numbered(5, number), number >= 1 && number <= 7)?;
        is_known(&rt, &numbered(7, number), number >= 1 && number <= 3)?;
    }
    Ok(())
}

/// Of what was sent at most 255 stands there, and six numbers say why an event was dropped.
#[test]
fn each_summary_comes_back(rt: HostRuntime) -> Result<(), Fail> {
    for why in 0..9 {
        is_known(&rt, &summed(0, why), why <= 6)?;
        is_known(&rt, &summed(1, why), why <= 6)?;
        is_known(&rt, &summed(255, why), why <= 6)?;
    }
    Ok(())
}

#[test]
fn other_tags_say_nothing(rt: HostRuntime) -> Result<(), Fail> {
    for tag in [0, 13, 255] {
        is_known(&rt, &[0, 0, 0, 0, 0, 0, 0, 5, tag, 8], false)?;
    }
    for tag in [0, 10, 255] {
        is_known(&rt, &[0, 0, 0, 0, 0, 0, 0, 5, 3, tag], false)?;
    }
    Ok(())
}

/// A beat of each kind of actor, by the tag of that.
fn beat_of(tag: u8) -> PartyEvent {
    match tag {
        3 => PartyEvent::OfSite(EventOf::Beat),
        7 => PartyEvent::OfNode(NodeEvent::Beats),
        _ => PartyEvent::OfClient(ClientEvent::Beats),
    }
}

/// The beat of this tag at clock 5, at which an actor sent so many envelopes.
fn beaten(alloc: Global, tag: u8, count: usize) -> Result<Taken, Fail> {
    let event = beat_of(tag);
    let outcome = sent_at(alloc, &event, count, None)?;
    Ok(Taken {
        event,
        stamp: None,
        clock: 5,
        outcome,
    })
}

/// Writes the record of such a beat behind a head without records.
fn put_beaten(alloc: Global, tag: u8, count: usize, out: &mut Vec<u8>) -> Result<(), Fail> {
    let taken = beaten(alloc, tag, count)?;
    match write_record(alloc, 200, sum_of(0, &HEAD), &taken, out) {
        Ok(_) => Ok(()),
        Err(_) => Err(Fail::new("it has no record")),
    }
}

/// A head, and the record of such a beat.
fn written(alloc: Global, tag: u8, count: usize) -> Result<Vec<u8>, Fail> {
    let mut out = Vec::from_slice(alloc, &HEAD)?;
    put_beaten(alloc, tag, count, &mut out)?;
    Ok(out)
}

/// Of so many envelopes that were sent at the beat of this tag its record says this.
fn is_counted<R: Abort + AllocGlobal>(rt: &R, tag: u8, count: usize, want: u8) -> Result<(), Fail> {
    let found = written(rt.alloc(), tag, count)?;
    let body = [0, 0, 0, 0, 0, 0, 0, 5, tag, 9, want, 0];
    let wanted = journal_of(rt.alloc(), &[&body])?;
    assert!(rt; found.as_slice() == wanted.as_slice(), "{count} at {tag}");
    Ok(())
}

/// How many envelopes are sent, and what a record says of that: 255 are as many or more.
const COUNTS: [(usize, u8); 6] = [
    (0, 0),
    (3, 3),
    (254, 254),
    (255, 255),
    (256, 255),
    (300, 255),
];

#[test]
fn more_than_255_are_summed_up_as_255(rt: HostRuntime) -> Result<(), Fail> {
    for (count, want) in COUNTS {
        is_counted(&rt, 3, count, want)?;
        is_counted(&rt, 7, count, want)?;
        is_counted(&rt, 11, count, want)?;
    }
    Ok(())
}
