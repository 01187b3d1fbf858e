//! Sites at work over sockets of this machine.
ghost use Rattle.std.specs.Prelude.{◌≡◌, []};

use crate::live::common::{Open, connected, peer_of, serve, sites};
use crate::live::frames::REQUEST;
use pvp_links::{Connected, Incoming, Outbox, Outgoing, Peer, Player, Sending, Served};
use pvp_rooms::{Actor, ActorCell, Seat};
use pvp_types::Reply;
use pvp_wire::{Feeder, Stamped};
use std::alloc::Global;
use std::io::{self, Read, Write};
use std::net::{Net, OpenStream, SocketAddr};
use std::process::Abort;
use std::sync::Wait;
use std::test::Fail;
use std::thread::Threads;
use std::time::Duration;
use vr_types::{MsgOf, ReplyOf};

/// USD's node as seen from outside: it asks site 0 over one stream, which it then closes, and is answered over another.
#[derive(Drop)]
struct Asker<S> {
    alloc: Global,
    request: Option<S>,
    answers: S,
    /// What was answered first.
    answered: Option<Reply>,
}

impl<S: Read + Write + OpenStream + Drop> Asker<S> {
    fn ask(&mut self) -> io::Result<Option<Reply>> {
        self.answers
            .set_read_timeout(Some(Duration::from_secs(20)))?;
        if let Some(mut request) = self.request.take() {
            request.write_all(&REQUEST)?;
        }
        first_read(self.alloc, &mut self.answers)
    }
}

/// The first reply that comes over a stream.
fn first_read<S: Read>(alloc: Global, answers: &mut S) -> io::Result<Option<Reply>> {
    let mut feeder = Feeder::new(alloc);
    let mut buffer = [0u8; 512];
    for _ in 0..100 {
        let got = answers.read(&mut buffer)?;
        let Ok(frames) = feeder.feed(&buffer[..got]) else {
            return Ok(None);
        };
        if let Some(reply) = first_reply(frames.as_slice()) {
            return Ok(Some(reply));
        }
    }
    Ok(None)
}

impl<S: Read + Write + OpenStream + Drop> Player for Asker<S> {
    ghost plays = { λ old new puts. puts ≡ [] };

    fn play<O: Outbox>(&mut self, _out: &mut O) {
        self.answered = self.ask().unwrap_or(None);
    }
}

/// What the first answer among these says, where it answers request 1.
fn first_reply(frames: &[Stamped]) -> Option<Reply> {
    frames.iter().find_map(|frame| match &frame.envelope.msg {
        MsgOf::Reply(
            ReplyOf {
                number: 1,
                reply,
                ..
            },
        ) => Some(*reply),
        _ => None,
    })
}

/// The streams of two sites, and those of the asker, each with the other end's owner left out.
#[derive(Drop)]
struct Parts<S> {
    incoming: Vec<Incoming<S>>,
    outgoing: Vec<Sending<S>>,
    request: Option<S>,
    answers: Option<S>,
}

impl<S: Drop> Parts<S> {
    fn new(alloc: Global) -> Self {
        Parts {
            incoming: Vec::new(alloc),
            outgoing: Vec::new(alloc),
            request: None,
            answers: None,
        }
    }

    /// Takes a reading end.
    fn take_incoming(&mut self, incoming: Incoming<S>) -> Result<(), Fail> {
        match incoming {
            Incoming {
                from: 200,
                to: 102,
                stream,
            } => self.answers = Some(stream),
            Incoming { to: 102, .. } => {}
            other => self.incoming.push(other)?,
        }
        Ok(())
    }

    /// Takes the writing ends of an actor.
    fn take_outgoing(&mut self, sending: Sending<S>) -> Result<(), Fail> {
        if sending.actor == 102 {
            self.request = first_stream(sending.streams);
        } else {
            self.outgoing.push(sending)?;
        }
        Ok(())
    }

    fn take_all_incoming(&mut self, incoming: Vec<Incoming<S>>) -> Result<(), Fail> {
        for one in incoming {
            self.take_incoming(one)?;
        }
        Ok(())
    }

    fn take_all_outgoing(&mut self, outgoing: Vec<Sending<S>>) -> Result<(), Fail> {
        for one in outgoing {
            self.take_outgoing(one)?;
        }
        Ok(())
    }

    /// Takes what was connected.
    fn take(&mut self, connected: Connected<S>) -> Result<(), Fail> {
        self.take_all_incoming(connected.incoming)?;
        self.take_all_outgoing(connected.outgoing)
    }
}

/// Splits what was connected among the sites and the asker.
fn split<S: Drop>(alloc: Global, connected: Connected<S>) -> Result<Parts<S>, Fail> {
    let mut parts = Parts::new(alloc);
    parts.take(connected)?;
    Ok(parts)
}

/// The stream to site 0.
fn first_stream<S: Drop>(streams: Vec<Outgoing<S>>) -> Option<S> {
    streams
        .into_iter()
        .find(|out| out.to == 200)
        .map(|out| out.stream)
}

/// An asker over its two streams.
fn asker_of<S: Drop>(
    alloc: Global,
    request: Option<S>,
    answers: Option<S>,
) -> Result<Asker<S>, Fail> {
    match answers {
        Some(answers) => Ok(Asker {
            alloc,
            request,
            answers,
            answered: None,
        }),
        None => Err(Fail::new("a stream to the asker")),
    }
}

/// A site, and those of its seats that no stream has yet.
#[derive(Drop)]
struct Host<'a, A: Actor> {
    cell: &'a ActorCell<A>,
    seats: &'a mut Vec<Seat<A::Event, A::Outcome>>,
}

/// A peer of a site over a stream, from one of its seats.
fn peer_at<'a, A: Actor, S: Drop>(
    host: &mut Host<'a, A>,
    reader: S,
) -> Result<Peer<'a, A, S, Open>, Fail> {
    match host.seats.pop() {
        Some(seat) => Ok(peer_of(host.cell, seat, reader, Open)),
        None => Err(Fail::new("a seat")),
    }
}

/// A peer for each of these streams, at the first site or the second.
fn peers_of<'a, A: Actor, S: Drop>(
    alloc: Global,
    first: &mut Host<'a, A>,
    second: &mut Host<'a, A>,
    incoming: Vec<Incoming<S>>,
) -> Result<Vec<Peer<'a, A, S, Open>>, Fail> {
    let mut peers = Vec::new(alloc);
    for Incoming { to, stream, .. } in incoming {
        let peer = if to == 200 {
            peer_at(first, stream)?
        } else {
            peer_at(second, stream)?
        };
        peers.push(peer)?;
    }
    Ok(peers)
}

/// Four peers at work while an asker asks, who is answered that it is done.
fn answer<A, R>(
    rt: &R,
    peers: &mut [Peer<'_, A, R::Stream, Open>],
    outgoing: Vec<Sending<R::Stream>>,
    asker: &mut Asker<R::Stream>,
) -> Result<(), Fail>
where
    A: Served + Send,
    A::Opening: Send,
    A::Event: Send,
    A::Outcome: Send,
    R: Abort + Threads + Wait + Net + Sync + AllocGlobal,
    R::Stream: Read + Write + OpenStream + Send + Drop,
{
    assert_eq!(rt; peers.len(), 4);
    serve(rt, peers, outgoing, asker)?;
    assert!(rt; asker.answered == Some(Reply::Done));
    Ok(())
}

/// Two sites commit what the asker asks over these streams.
fn commit_over<'a, A, R>(
    rt: &R,
    first: &mut Host<'a, A>,
    second: &mut Host<'a, A>,
    parts: Parts<R::Stream>,
) -> Result<(), Fail>
where
    A: Served + Send,
    A::Opening: Send,
    A::Event: Send,
    A::Outcome: Send,
    R: Abort + Threads + Wait + Net + Sync + AllocGlobal,
    R::Stream: Read + Write + OpenStream + Send + Drop,
{
    let mut asker = asker_of(rt.alloc(), parts.request, parts.answers)?;
    let mut peers = peers_of(rt.alloc(), first, second, parts.incoming)?;
    answer(rt, peers.as_mut_slice(), parts.outgoing, &mut asker)
}

/// Two sites of three commit a request, over sockets.
fn commit<R>(rt: &R) -> Result<(), Fail>
where
    R: Abort + Threads + Wait + Net + Sync + AllocGlobal,
    R::Stream: Read + Write + OpenStream + Send + Drop,
{
    let (first, mut first_seats) = sites(rt.alloc(), 0, 2)?;
    let (second, mut second_seats) = sites(rt.alloc(), 1, 2)?;
    let parts = split(rt.alloc(), connected(rt, rt.alloc(), &[102, 200, 201])?)?;
    let mut one = Host {
        cell: &first,
        seats: &mut first_seats,
    };
    let mut other = Host {
        cell: &second,
        seats: &mut second_seats,
    };
    commit_over(rt, &mut one, &mut other, parts)
}

/// A request is committed by two sites of three, over sockets.
#[test]
fn a_request_is_committed_over_sockets(rt: HostRuntime) -> Result<(), Fail> {
    commit(&rt)
}

/// A net on which a stranger comes to each listener before whoever is awaited, and leaves at once.
#[derive(Drop)]
struct Crowded<'a, R> {
    net: &'a R,
}

impl<R: Net> Net for Crowded<'_, R> {
    type Stream = R::Stream;

    type Listener = R::Listener;

    fn bind(&self, addr: SocketAddr) -> io::Result<R::Listener> {
        self.net.bind(addr)
    }

    fn connect(&self, addr: SocketAddr) -> io::Result<R::Stream> {
        let _stranger = self.net.connect(addr)?;
        self.net.connect(addr)
    }
}

/// The byte that an actor writes.
fn byte_of(actor: u16) -> u8 {
    if actor == 102 { 1 } else { 2 }
}

/// An actor writes its byte to each of its streams.
fn write_to_each<S: Write>(streams: &mut [Outgoing<S>], byte: u8) -> io::Result<()> {
    for out in streams {
        out.stream.write_all(&[byte])?;
    }
    Ok(())
}

/// Each actor writes its byte to each of its streams.
fn write_all_bytes<S: Write>(outgoing: &mut [Sending<S>]) -> io::Result<()> {
    for sending in outgoing {
        write_to_each(sending.streams.as_mut_slice(), byte_of(sending.actor))?;
    }
    Ok(())
}

/// The byte that comes out of a reading end, or 0.
fn heard<S: Read>(stream: &mut S) -> io::Result<u8> {
    let mut byte = [0u8; 1];
    let got = stream.read(&mut byte)?;
    Ok(if got == 1 { byte[0] } else { 0 })
}

/// At six reading ends the byte comes out of the actor that writes there.
fn are_heard<R: Abort, S: Read>(rt: &R, incoming: &mut [Incoming<S>]) -> Result<(), Fail> {
    assert_eq!(rt; incoming.len(), 6);
    for end in incoming {
        assert_eq!(rt; heard(&mut end.stream)?, byte_of(end.from));
    }
    Ok(())
}

/// What each of three actors writes comes out at its own ends.
fn come_out<R: Abort + Net + AllocGlobal>(rt: &R) -> Result<(), Fail> {
    let crowded = Crowded { net: rt };
    let mut connected = connected(&crowded, rt.alloc(), &[102, 200, 201])?;
    write_all_bytes(connected.outgoing.as_mut_slice())?;
    are_heard(rt, connected.incoming.as_mut_slice())
}

/// A stranger's connection is neither taken nor the end of the others: what each actor writes comes out at its own ends.
#[test]
fn strangers_are_let_go(rt: HostRuntime) -> Result<(), Fail> {
    come_out(&rt)
}
