//! Frames and pings, whole, cut and wrong.

use crate::intake::worked::{COMMIT, COMMIT_TAG, KEY, PING, PING_TAG, altered, link};
use pvp_links::{Intake, Link, LinkFault, Piece};
use pvp_wire::WireFault;
use std::alloc::Global;
use std::process::Abort;
use std::test::Fail;

/// What is found at the front.
#[derive(Clone, Copy, Debug, PartialEq, Eq)]
pub enum Heard {
    /// More bytes are wanted.
    Nothing,
    Ping,
    /// A frame whose sender had this clock.
    Frame(u64),
    Wrong(LinkFault),
}

/// What an intake finds next.
fn next(intake: &mut Intake, alloc: Global, link: &Link) -> Heard {
    match intake.next(alloc, link) {
        Ok(None) => Heard::Nothing,
        Ok(Some(Piece::Ping)) => Heard::Ping,
        Ok(Some(Piece::Frame(arrival))) => Heard::Frame(arrival.stamped_envelope().stamp.clock),
        Err(fault) => Heard::Wrong(fault),
    }
}

/// What is found at the front of two pieces of a stream, one after the other.
fn found_in(alloc: Global, front: &[u8], back: &[u8], link: &Link) -> Result<Heard, Fail> {
    let mut intake = Intake::new(alloc);
    intake.push(front)?;
    intake.push(back)?;
    Ok(next(&mut intake, alloc, link))
}

/// An intake finds this next.
pub fn is_next<R: Abort + AllocGlobal>(rt: &R, intake: &mut Intake, link: &Link, want: Heard) {
    assert_eq!(rt; next(intake, rt.alloc(), link), want);
}

/// At the front of two pieces of a stream, one after the other, this is found.
fn is_found<R: Abort + AllocGlobal>(
    rt: &R,
    front: &[u8],
    back: &[u8],
    link: &Link,
    want: Heard,
) -> Result<(), Fail> {
    assert_eq!(rt; found_in(rt.alloc(), front, back, link)?, want);
    Ok(())
}

/// Fronts of a stream without a key, and what is found there.
const FRONTS: &[(&[u8], Heard)] = &[
    (&[], Heard::Nothing),
    (&[0, 0, 0], Heard::Nothing),
    (&PING, Heard::Ping),
    (&[0, 0, 0, 0, 9], Heard::Ping),
    (&[0, 0, 0, 1], Heard::Wrong(LinkFault::Length)),
    (&[0, 0, 0, 17], Heard::Wrong(LinkFault::Length)),
    (&[0, 0, 0, 18], Heard::Nothing),
    (&[0, 64, 0, 0], Heard::Nothing),
    (&[0, 64, 0, 1], Heard::Wrong(LinkFault::Length)),
    (&COMMIT, Heard::Frame(5)),
];

#[test]
fn finds_each_front(rt: HostRuntime) -> Result<(), Fail> {
    let link = link(201, 200, None)?;
    for (bytes, want) in FRONTS {
        is_found(&rt, *bytes, &[], &link, *want)?;
    }
    Ok(())
}

/// A place of the COMMIT, the byte that is put there, and what is found then.
const ALTERED: &[(usize, u8, Heard)] = &[
    (3, 23, Heard::Wrong(LinkFault::Wire(WireFault::Length))),
    (4, 3, Heard::Wrong(LinkFault::Wire(WireFault::Version))),
    (5, 0, Heard::Wrong(LinkFault::Wire(WireFault::Kind))),
    (7, 99, Heard::Wrong(LinkFault::Wire(WireFault::Field))),
    (7, 202, Heard::Wrong(LinkFault::Sender)),
    (21, 202, Heard::Wrong(LinkFault::Receiver)),
    (15, 6, Heard::Frame(6)),
];

/// Of the COMMIT with this byte there, and this behind it, this is found.
fn is_found_altered<R: Abort + AllocGlobal>(
    rt: &R,
    (at, byte): (usize, u8),
    back: &[u8],
    link: &Link,
    want: Heard,
) -> Result<(), Fail> {
    let found = found_in(rt.alloc(), &altered(at, byte), back, link)?;
    assert_eq!(rt; found, want, "{byte} at {at}");
    Ok(())
}

#[test]
fn tells_each_fault(rt: HostRuntime) -> Result<(), Fail> {
    let link = link(201, 200, None)?;
    for (at, byte, want) in ALTERED {
        is_found_altered(&rt, (*at, *byte), &[], &link, *want)?;
    }
    Ok(())
}

/// What is found where the tag is another.
const ANOTHER_TAG: Heard = Heard::Wrong(LinkFault::Tag);

/// The tag is looked at behind the length, and before anything is decoded: so whatever is altered
/// is reported as the tag.
#[test]
fn a_tag_comes_first(rt: HostRuntime) -> Result<(), Fail> {
    let link = link(201, 200, KEY)?;
    for (at, byte, _) in ALTERED {
        is_found_altered(&rt, (*at, *byte), &COMMIT_TAG, &link, ANOTHER_TAG)?;
    }
    let length = Heard::Wrong(LinkFault::Length);
    is_found(&rt, &[0, 0, 0, 17], &COMMIT_TAG, &link, length)
}

#[test]
fn tagged_pieces_are_found(rt: HostRuntime) -> Result<(), Fail> {
    let link = link(201, 200, KEY)?;
    is_found(&rt, &PING, &PING_TAG, &link, Heard::Ping)?;
    is_found(&rt, &COMMIT, &COMMIT_TAG, &link, Heard::Frame(5))?;
    is_found(&rt, &PING, &COMMIT_TAG, &link, ANOTHER_TAG)
}

/// What was recorded means nothing as a later text, over another stream, or sent back to who sent it.
#[test]
fn what_was_recorded_is_no_piece(rt: HostRuntime) -> Result<(), Fail> {
    let link = link(201, 200, KEY)?;
    let mut later = link;
    later.advance();
    is_found(&rt, &COMMIT, &COMMIT_TAG, &later, ANOTHER_TAG)?;
    is_found(&rt, &COMMIT, &COMMIT_TAG, &link.over(&[5; 32]), ANOTHER_TAG)?;
    sent_back(&rt)
}

fn sent_back<R: Abort + AllocGlobal>(rt: &R) -> Result<(), Fail> {
    is_found(rt, &COMMIT, &COMMIT_TAG, &link(200, 201, KEY)?, ANOTHER_TAG)
}

/// The tag of the COMMIT with one bit of one byte altered.
fn altered_tag(at: usize) -> [u8; 16] {
    let mut tag = COMMIT_TAG;
    if at < 16 {
        tag[at] ^= 1;
    }
    tag
}

/// A tag whose byte there is altered is found to be another.
fn byte_counts<R: Abort + AllocGlobal>(rt: &R, link: &Link, at: usize) -> Result<(), Fail> {
    let found = found_in(rt.alloc(), &COMMIT, &altered_tag(at), link)?;
    assert_eq!(rt; found, ANOTHER_TAG, "at {at}");
    Ok(())
}

/// A tag with one bit altered, in any byte, is another.
#[test]
fn each_byte_of_a_tag_counts(rt: HostRuntime) -> Result<(), Fail> {
    let link = link(201, 200, KEY)?;
    for at in 0..16 {
        byte_counts(&rt, &link, at)?;
    }
    Ok(())
}

/// Of bytes that come one by one, nothing is found.
fn are_waited_for<R: Abort + AllocGlobal>(
    rt: &R,
    intake: &mut Intake,
    link: &Link,
    bytes: &[u8],
) -> Result<(), Fail> {
    for byte in bytes {
        intake.push(&[*byte])?;
        is_next(rt, intake, link, Heard::Nothing);
    }
    Ok(())
}

/// The COMMIT and its tag come byte by byte.
fn comes_cut<R: Abort + AllocGlobal>(rt: &R, intake: &mut Intake, link: &Link) -> Result<(), Fail> {
    are_waited_for(rt, intake, link, &COMMIT)?;
    are_waited_for(rt, intake, link, &COMMIT_TAG[..15])?;
    intake.push(&COMMIT_TAG[15..])?;
    is_next(rt, intake, link, Heard::Frame(5));
    is_next(rt, intake, link, Heard::Nothing);
    Ok(())
}

/// A frame that comes byte by byte is found with its last one.
#[test]
fn a_cut_frame_is_waited_for(rt: HostRuntime) -> Result<(), Fail> {
    let link = link(201, 200, KEY)?;
    let mut intake = Intake::new(rt.alloc());
    comes_cut(&rt, &mut intake, &link)
}

/// A COMMIT, a ping and a COMMIT come at once, and another when the first is found.
fn come_at_once<R: Abort + AllocGlobal>(
    rt: &R,
    intake: &mut Intake,
    link: &Link,
) -> Result<(), Fail> {
    intake.push(&COMMIT)?;
    intake.push(&PING)?;
    intake.push(&altered(15, 6))?;
    is_next(rt, intake, link, Heard::Frame(5));
    intake.push(&altered(15, 7))?;
    is_next(rt, intake, link, Heard::Ping);
    is_next(rt, intake, link, Heard::Frame(6));
    is_next(rt, intake, link, Heard::Frame(7));
    Ok(())
}

/// A wrong length comes, and is reported twice.
fn comes_wrong<R: Abort + AllocGlobal>(
    rt: &R,
    intake: &mut Intake,
    link: &Link,
) -> Result<(), Fail> {
    intake.push(&[0, 0, 0, 1])?;
    is_next(rt, intake, link, Heard::Wrong(LinkFault::Length));
    is_next(rt, intake, link, Heard::Wrong(LinkFault::Length));
    Ok(())
}

/// Pieces that came at once are found one by one, also where more come in between; a fault is
/// reported again and again.
#[test]
fn pieces_are_found_in_order(rt: HostRuntime) -> Result<(), Fail> {
    let link = link(201, 200, None)?;
    let mut intake = Intake::new(rt.alloc());
    come_at_once(&rt, &mut intake, &link)?;
    comes_wrong(&rt, &mut intake, &link)
}
