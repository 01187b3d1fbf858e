//! A stream between two actors: one thread reads it, another writes it.
ghost use Rattle.std.specs.Prelude.{◌≡◌, ◌+◌, ◌++◌, None, Some, OnOk, OnErr, min, nat_lt, if◌then◌else◌};
ghost use Rattle.pvp_links.specs.Sealing.{next, sealed_text};
ghost use Rattle.vr_types.specs.Actors.{id_of};
ghost use Rattle.pvp_serve.specs.Lanes.{is_beyond, piece_text};

use crate::host::Wires;
use crate::inbox::{Inbox, tell};
use crate::lanes::{Outgoing, lane_to};
use crate::ticking::latest_clock;
use crossbeam_channel::Sender;
use pvp_links::{Hearer, Intake, Link, LinkEnd, Piece, hear_all, put_frame, put_ping};
use std::alloc::{AllocError, Global};
use std::io::{self, Write};
use std::net::{Shutdown, TcpStream};
use std::sync::atomic::{AtomicBool, Ordering};
use std::sync::{Arc, Wait};
use std::thread;
use std::time::{Clock, Duration, Instant};
use vr_types::{ActorId, MsgOf};

/// How many bytes go in one write, or a few more.
const MOST_BYTES: usize = 65_536;

/// How long a write may wait for room before its stream is given up.
const WRITE_SECONDS: u64 = 10;

/// Has a stream send at once what is written, and give up a write for which no room comes.
pub fn settle(stream: &TcpStream) -> io::Result<()> {
    stream.set_nodelay(true)?;
    stream.set_write_timeout(Some(Duration::from_secs(WRITE_SECONDS)))
}

/// Tells the loop that a stream stands. Answers the frames that are to go over it, and where its reader sees that it was let go;
/// `None` where the process ends, or memory is refused.
pub fn announce<R: Wires>(
    rt: R,
    inbox: &Sender<Inbox>,
    peer: u16,
    stream: u64,
) -> Option<(Outgoing, Arc<AtomicBool, Global>)> {
    let (lane, outgoing) = lane_to(rt.alloc(), peer, stream).ok()?;
    let ended = outgoing.ended().ok()?;
    if !tell(&rt, inbox, Inbox::Came(lane)) {
        return None;
    }
    Some((outgoing, ended))
}

/// Writes what comes until the lane is dropped or a write fails, and then closes the stream.
pub fn write_all<R: Wires>(rt: R, stream: TcpStream, link: Link, outgoing: Outgoing) {
    let mut stream = stream;
    let mut link = link;
    let mut bytes: Vec<u8> = Vec::new(rt.alloc());
    for _ in rt.forever() {
        let Some(frame) = outgoing.next(rt) else {
            break;
        };
        bytes.clear();
        if gather(rt, &mut link, frame, &outgoing, &mut bytes).is_err()
            || stream.write_all(bytes.as_slice()).is_err()
        {
            break;
        }
    }
    outgoing.ends();
    let _closed = stream.shutdown(Shutdown::Both);
}

/// Puts a frame and those that wait behind it into one write.
fn gather<R: Wires>(
    rt: R,
    link: &mut Link,
    first: Vec<u8>,
    outgoing: &Outgoing,
    bytes: &mut Vec<u8>,
) -> Result<(), AllocError> {
    put(link, first.as_slice(), bytes)?;
    for _ in rt.forever() {
        if bytes.len() >= MOST_BYTES {
            break;
        }
        let Some(frame) = outgoing.try_next(rt) else {
            break;
        };
        put(link, frame.as_slice(), bytes)?;
    }
    Ok(())
}

/// Puts a frame there, or a ping where it is empty, as the next text of the link.
fn put(link: &mut Link, frame: &[u8], bytes: &mut Vec<u8>) -> Result<(), AllocError>
    ensures put { OnOk result (
        bytes.new.items ≡ bytes.old.items ++ sealed_text link.old (piece_text frame.now)) }
    ensures counted { OnOk result (link.new ≡ next link.old) }
    ensures refused { OnErr result (bytes.new.items ≡ bytes.old.items) }
{
    if frame.is_empty() {
        put_ping(link, bytes)?;
    } else {
        put_frame(link, frame, bytes)?;
    }
    link.advance();
    Ok(())
}

/// How many pieces of a client or a node are handed on one after another before its stream rests: many more than any that waits
/// for its answers sends. What it sends meanwhile waits in the system's buffers, so a flood takes no time from others.
const MOST_PIECES: u32 = 96;

/// How long it rests then, and how long it takes for the count to begin anew.
const REST_MS: u64 = 15;

/// How long it rests at first. By then one that has taken its place ends it, so that calling again and again gains nothing.
const FIRST_REST_MS: u64 = 50;

/// How many pieces of a stream were handed on since a time.
#[derive(Clone, Copy)]
struct Rate {
    since: Option<Instant>,
    count: u32,
}

impl Rate {
    /// None was handed on.
    fn new() -> Self
        ensures { result ≡ record { since = None; count = 0 } }
    {
        Rate {
            since: None,
            count: 0,
        }
    }

    /// A piece is handed on now, where the time in which they are counted is over or not. Answers whether that makes too many.
    fn counts(&mut self, now: Instant, is_over: bool) -> bool
        ensures since { self.new.since ≡ (if is_over then Some now else self.old.since) }
        ensures count { self.new.count ≡ (if is_over then 1 else
            min (self.old.count + 1) 4294967295) }
        ensures many { result ≡ nat_lt MOST_PIECES self.new.count }
    {
        if is_over {
            self.since = Some(now);
            self.count = 0;
        }
        self.count = self.count.saturating_add(1);
        self.count > MOST_PIECES
    }

    /// Whether the time in which pieces are counted is over.
    fn is_over(&self, now: Instant) -> bool {
        match self.since {
            Some(since) => now.duration_since(since) >= Duration::from_millis(REST_MS),
            None => true,
        }
    }
}

/// Who hands what comes over a link to the loop, with the time at which it came.
#[derive(Drop)]
struct ToLoop<'a, R: Clock + Drop> {
    clock: R,
    rate: Rate,
    peer: u16,
    inbox: &'a Sender<Inbox>,
    /// Whether another stream of the peer has taken the place of this one.
    ended: &'a AtomicBool,
}

impl<R: Clock + Drop> ToLoop<'_, R> {
    /// A client's or a node's stream rests where too many pieces came of it one after another.
    fn rests(&mut self) {
        if let ActorId::Site(_) = ActorId::of(self.peer) {
            return;
        }
        let Ok(now) = Instant::now(&self.clock) else {
            return;
        };
        let is_over = self.rate.is_over(now);
        if self.rate.counts(now, is_over) {
            thread::sleep(&self.clock, Duration::from_millis(REST_MS));
        }
    }
}

/// Nothing more is wanted once the loop has ended, or where memory is refused, nor of a client or a node that says something
/// else than a REQUEST, which may be long.
impl<R: Clock + Drop> Hearer for ToLoop<'_, R> {
    /// Nothing is known of what has come through.
    ghost got = { λ to all. Unit {0} };

    fn hear<T: Wait>(&mut self, rt: &T, piece: Piece) -> bool {
        if is_beyond(self.peer, &piece) || self.ended.load(Ordering::SeqCst) {
            return false;
        }
        let item = match piece {
            Piece::Ping => Inbox::Ping(self.peer),
            Piece::Frame(arrival) => Inbox::Frame(arrival, latest_clock(&self.clock)),
        };
        self.rests();
        tell(rt, self.inbox, item)
    }
}

/// Whether a piece is none that an actor says to a site: a client or a node says REQUESTs alone. All else is said by sites.
fn is_beyond(peer: u16, piece: &Piece) -> bool
    ensures { result ≡ is_beyond (id_of peer) piece.now }
{
    let (ActorId::Client(_) | ActorId::Node(_), Piece::Frame(arrival)) = (ActorId::of(peer), piece)
    else {
        return false;
    };
    !matches!(&arrival.stamped_envelope().envelope.msg, MsgOf::Request(_))
}

/// Reads a stream to its end, or to what is none of its link's, and hands each frame and ping to
/// the loop; then reports that the stream has ended, and why.
pub fn read_all<R: Wires>(
    rt: R,
    stream: TcpStream,
    number: u64,
    link: Link,
    intake: Intake,
    inbox: Sender<Inbox>,
    ended: Arc<AtomicBool, Global>,
) {
    let mut stream = stream;
    let peer = link.peer();
    if !matches!(ActorId::of(peer), ActorId::Site(_)) {
        thread::sleep(&rt, Duration::from_millis(FIRST_REST_MS));
    }
    let mut to_loop = ToLoop {
        clock: rt,
        rate: Rate::new(),
        peer,
        inbox: &inbox,
        ended: &ended,
    };
    let end = hear_all(&rt, rt.alloc(), &link, intake, &mut stream, &mut to_loop);
    let _closed = stream.shutdown(Shutdown::Both);
    tell_gone(rt, &inbox, peer, number, end);
}

/// Tells the loop that a stream of which it knows has ended, and why.
pub fn tell_gone<R: Wires>(rt: R, inbox: &Sender<Inbox>, peer: u16, stream: u64, end: LinkEnd) {
    let _told = tell(&rt, inbox, Inbox::Gone { peer, stream, end });
}
