//! An envelope of each kind of message, put into an outbox and read from its receiver's stream.

use crate::live::common::{Open, alone, connected, serve};
use crate::live::frames::{ANSWER, CHANGE, COMMIT, ORDER, REGAINED, REQUEST, VOTE};
use pvp_book::Book;
use pvp_links::{Connected, Incoming, Outbox, Peer, Player, Sending};
use pvp_wire::{Stamp, Stamped, decode};
use std::alloc::Global;
use std::io::{self, Read, Write};
use std::net::Net;
use std::process::Abort;
use std::sync::Wait;
use std::test::Fail;
use std::thread::Threads;
use vr_site::Replica;
use vr_types::{Envelope, MemCell};

/// PREPARE of view 1: place 2, 1 row executed, a Settle of 8. From site 0 to site 1, clock 5, index 0.
const PREPARE: [u8; 41] = [
    0, 0, 0, 37, 2, 2, 0, 200, 0, 0, 0, 0, 0, 0, 0, 5, 0, 0, 0, 0, 0, 201, 0, 0, 0, 1, 0, 2, 0, 1,
    0, 0, 0, 0, 0, 1, 4, 0, 0, 0, 8,
];

/// PREPAREOK of view 1, place 2, from site 1 to site 0, clock 6, index 0.
const ACCEPTED: [u8; 28] = [
    0, 0, 0, 24, 2, 3, 0, 201, 0, 0, 0, 0, 0, 0, 0, 6, 0, 0, 0, 0, 0, 200, 0, 0, 0, 1, 0, 2,
];

/// STARTVIEW of view 1, nothing executed, one row: a Settle of 8. From site 1 to site 0, clock 7, index 0.
const OPENED: [u8; 41] = [
    0, 0, 0, 37, 2, 7, 0, 201, 0, 0, 0, 0, 0, 0, 0, 7, 0, 0, 0, 0, 0, 200, 0, 0, 0, 1, 0, 0, 0, 1,
    0, 0, 0, 0, 0, 1, 4, 0, 0, 0, 8,
];

/// GETSTATE of view 1 for the rows after the first, from site 0 to site 1, clock 8, index 0.
const ASKED: [u8; 28] = [
    0, 0, 0, 24, 2, 8, 0, 200, 0, 0, 0, 0, 0, 0, 0, 8, 0, 0, 0, 0, 0, 201, 0, 0, 0, 1, 0, 1,
];

/// NEWSTATE of view 1: after the first row one more, a Settle of 8, 1 executed. From site 1 to site 0, clock 9, index 0.
const TOLD: [u8; 43] = [
    0, 0, 0, 39, 2, 9, 0, 201, 0, 0, 0, 0, 0, 0, 0, 9, 0, 0, 0, 0, 0, 200, 0, 0, 0, 1, 0, 1, 0, 1,
    0, 1, 0, 0, 0, 0, 0, 1, 4, 0, 0, 0, 8,
];

/// RECOVERY with nonce 3, from site 2 to site 0, clock 10, index 0.
const RESTARTED: [u8; 26] = [
    0, 0, 0, 22, 2, 10, 0, 202, 0, 0, 0, 0, 0, 0, 0, 10, 0, 0, 0, 0, 0, 200, 0, 0, 0, 3,
];

/// A frame of each kind, in order of their numbers.
const KINDS: [&[u8]; 13] = [
    &REQUEST, &PREPARE, &ACCEPTED, &COMMIT, &CHANGE, &VOTE, &OPENED, &ASKED, &TOLD, &RESTARTED,
    &REGAINED, &ANSWER, &ORDER,
];

/// The same frame as that of the first envelope of its step.
fn first_of_step(alloc: Global, frame: &[u8]) -> Result<Vec<u8>, Fail> {
    let mut bytes = Vec::from_slice(alloc, frame)?;
    for byte in bytes.as_mut_slice().iter_mut().skip(16).take(4) {
        *byte = 0;
    }
    Ok(bytes)
}

/// A player that puts into the outbox what an actor sent in one step.
#[derive(Drop)]
struct Hands<'a, R> {
    rt: &'a R,
    alloc: Global,
    stamp: Stamp,
    sent: Vec<Envelope<Book>>,
}

impl<R: Wait> Player for Hands<'_, R> {
    ghost plays = { λ old new puts. Unit {0} };

    fn play<O: Outbox>(&mut self, out: &mut O) {
        let Stamp { actor, clock, .. } = self.stamp;
        out.put(self.rt, self.alloc, actor, clock, self.sent.as_slice());
    }
}

/// The hands that put the only envelope of a frame.
fn hands_of<'a, R>(rt: &'a R, alloc: Global, frame: &[u8]) -> Result<Hands<'a, R>, Fail> {
    let (Stamped { envelope, stamp }, _) = decode(alloc, frame)?;
    let sent = alone(alloc, envelope)?;
    Ok(Hands {
        rt,
        alloc,
        stamp,
        sent,
    })
}

/// The numbers of the two actors of a frame's envelope, from whom it goes and to whom.
fn ends_of(alloc: Global, frame: &[u8]) -> Result<(u16, u16), Fail> {
    let (Stamped { envelope, .. }, _) = decode(alloc, frame)?;
    Ok((envelope.from, envelope.to))
}

/// No peers.
type NoPeers<'a, S> = [Peer<'a, Replica<Book, MemCell>, S, Open>; 0];

/// A frame's envelope is put into the outbox of these streams, which are then closed.
fn put_out<R>(rt: &R, frame: &[u8], outgoing: Vec<Sending<R::Stream>>) -> Result<(), Fail>
where
    R: Threads + Wait + Net + Sync + AllocGlobal,
    R::Stream: Read + Write + Send + Drop,
{
    let mut peers: NoPeers<'_, R::Stream> = [];
    let mut hands = hands_of(rt, rt.alloc(), frame)?;
    serve(rt, &mut peers, outgoing, &mut hands)
}

/// What a stream has, to its end.
fn read_whole<S: Read>(alloc: Global, stream: &mut S) -> io::Result<Vec<u8>> {
    let mut all = Vec::new(alloc);
    let mut buffer = [0u8; 512];
    for _ in 0..100 {
        let got = stream.read(&mut buffer)?;
        if got == 0 {
            break;
        }
        all.extend_from_slice(&buffer[..got])?;
    }
    Ok(all)
}

/// A stream has these bytes and no more.
fn has<R: Abort, S: Read>(rt: &R, alloc: Global, stream: &mut S, bytes: &[u8]) -> Result<(), Fail> {
    let found = read_whole(alloc, stream)?;
    assert!(rt; found.as_slice() == bytes, "{bytes:?}");
    Ok(())
}

/// The stream to this actor has these bytes, and each other has none.
fn stand_there<R: Abort, S: Read>(
    rt: &R,
    alloc: Global,
    incoming: &mut [Incoming<S>],
    actor: u16,
    bytes: &[u8],
) -> Result<(), Fail> {
    for end in incoming {
        let want = if end.to == actor { bytes } else { &[] };
        has(rt, alloc, &mut end.stream, want)?;
    }
    Ok(())
}

/// The reading ends of the streams between two actors, of which the one has put this frame's envelope into the outbox.
fn put_between<R>(rt: &R, actors: [u16; 2], frame: &[u8]) -> Result<Vec<Incoming<R::Stream>>, Fail>
where
    R: Threads + Wait + Net + Sync + AllocGlobal,
    R::Stream: Read + Write + Send + Drop,
{
    let Connected { incoming, outgoing } = connected(rt, rt.alloc(), &actors)?;
    put_out(rt, frame, outgoing)?;
    Ok(incoming)
}

/// Connects the two actors of an envelope, puts it into the outbox, and finds its frame once.
fn goes_through<R>(rt: &R, frame: &[u8]) -> Result<(), Fail>
where
    R: Abort + Threads + Wait + Net + Sync + AllocGlobal,
    R::Stream: Read + Write + Send + Drop,
{
    let (from, to) = ends_of(rt.alloc(), frame)?;
    let mut incoming = put_between(rt, [from.min(to), from.max(to)], frame)?;
    stand_there(rt, rt.alloc(), incoming.as_mut_slice(), to, frame)
}

/// So it does as the first envelope of its step.
fn comes_through<R>(rt: &R, frame: &[u8]) -> Result<(), Fail>
where
    R: Abort + Threads + Wait + Net + Sync + AllocGlobal,
    R::Stream: Read + Write + Send + Drop,
{
    let bytes = first_of_step(rt.alloc(), frame)?;
    goes_through(rt, bytes.as_slice())
}

/// So does each of these.
fn come_through<R>(rt: &R, frames: &[&[u8]]) -> Result<(), Fail>
where
    R: Abort + Threads + Wait + Net + Sync + AllocGlobal,
    R::Stream: Read + Write + Send + Drop,
{
    for frame in frames {
        comes_through(rt, frame)?;
    }
    Ok(())
}

#[test]
fn each_kind_of_message_comes_through(rt: HostRuntime) -> Result<(), Fail> {
    come_through(&rt, &KINDS)
}
