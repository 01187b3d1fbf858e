//! Records of version 1, put together from the format: they have all that was sent, in frames.

use crate::journals::sealed::seal;
use pvp_book::Book;
use pvp_journal::{Head, Taken, write_head, write_record};
use pvp_links::Served;
use pvp_parties::{Party, PartyOutcome};
use pvp_rooms::CameOf;
use pvp_wire::{Stamp, Stamped, encode, wireable};
use std::alloc::Global;
use std::test::Fail;
use vr_types::Envelope;

/// What the record of an event says, without what stands before and behind that.
fn body_of(alloc: Global, me: u16, taken: &Taken) -> Result<Vec<u8>, Fail> {
    let mut record = Vec::new(alloc);
    match write_record(alloc, me, 0, taken, &mut record) {
        Ok(_) => inner(alloc, record.as_slice()),
        Err(_) => Err(Fail::new("it has no record")),
    }
}

/// A record without its length, the complement of that, and its checksum.
fn inner(alloc: Global, record: &[u8]) -> Result<Vec<u8>, Fail> {
    if record.len() < 16 {
        return Err(Fail::new("it is too short"));
    }
    Ok(Vec::from_slice(alloc, &record[8..record.len() - 8])?)
}

/// The tag of all that was sent in version 1; `None` where nothing was done.
fn tag_of(outcome: &PartyOutcome) -> Option<u8> {
    match outcome {
        PartyOutcome::OfSite(CameOf::Did { .. }) => Some(1),
        PartyOutcome::OfNode(Ok(_)) => Some(4),
        PartyOutcome::OfClient(Ok(_)) => Some(6),
        _ => None,
    }
}

/// Puts the frame of an envelope with this stamp at the end of bytes.
fn put_frame(
    alloc: Global,
    stamp: Stamp,
    envelope: &Envelope<Book>,
    out: &mut Vec<u8>,
) -> Result<(), Fail> {
    let stamped = Stamped {
        stamp,
        envelope: envelope.copy(alloc)?,
    };
    if !wireable(&stamped) {
        return Err(Fail::new("it has no frame"));
    }
    encode(&stamped, out)?;
    Ok(())
}

/// Puts how many envelopes an actor sent at a clock, and their frames, at the end of bytes.
fn put_sent(
    alloc: Global,
    actor: u16,
    clock: u64,
    sent: &[Envelope<Book>],
    out: &mut Vec<u8>,
) -> Result<(), Fail> {
    let Ok(count) = u32::try_from(sent.len()) else {
        return Err(Fail::new("they are too many"));
    };
    out.extend_from_slice(&count.to_be_bytes())?;
    let mut index = 0u32;
    for envelope in sent {
        let stamp = Stamp {
            actor,
            clock,
            index,
        };
        put_frame(alloc, stamp, envelope, out)?;
        index = index.saturating_add(1);
    }
    Ok(())
}

/// What a record says of an event, with all that was sent, behind this tag, in the place of its summary. That has three
/// bytes, the last of which says why a site dropped the event.
fn with_all_sent(
    alloc: Global,
    me: u16,
    taken: &Taken,
    tag: u8,
    body: &[u8],
) -> Result<Vec<u8>, Fail> {
    if body.len() < 3 {
        return Err(Fail::new("it is too short"));
    }
    let mut out = Vec::from_slice(alloc, &body[..body.len() - 3])?;
    let sent = Party::sent_envelopes(&taken.outcome);
    out.push(tag)?;
    put_sent(alloc, me, taken.clock, sent, &mut out)?;
    if tag == 1 {
        out.push(body[body.len() - 1])?;
    }
    Ok(out)
}

/// What a record of version 1 says of an event that an actor took.
pub fn old_body(alloc: Global, me: u16, taken: &Taken) -> Result<Vec<u8>, Fail> {
    let body = body_of(alloc, me, taken)?;
    match tag_of(&taken.outcome) {
        Some(tag) => with_all_sent(alloc, me, taken, tag, body.as_slice()),
        None => Ok(body),
    }
}

/// The journal of this head, with a record of version 1 for each event.
pub fn old_journal(alloc: Global, head: &Head, history: &[Taken]) -> Result<Vec<u8>, Fail> {
    let mut out = Vec::new(alloc);
    let mut sum = write_head(alloc, head, &mut out)?;
    for taken in history {
        let body = old_body(alloc, head.actor, taken)?;
        sum = seal(alloc, sum, body.as_slice(), &mut out)?;
    }
    Ok(out)
}
