//! Frames on their way to the streams of an actor.
ghost use Rattle.std.specs.Prelude.{
  ◌≡◌,
  ◌+◌,
  ◌-◌,
  ◌^◌,
  [],
  ◌∷◌,
  None,
  IfOk,
  IfErr,
  OnOk,
  OnErr,
  is_some,
  length,
  min,
  option_copied,
};
ghost use Rattle.std.specs.List.{list_any};
ghost use Rattle.pvp_places.specs.declared.serving.ServeFault.TheVariants.{NoMemory};
ghost use Rattle.pvp_links.specs.Puts.{Put};
ghost use Rattle.pvp_rooms.specs.Gates.{Hears};
ghost use Rattle.pvp_serve.specs.Lanes.{
  is_stream,
  is_to,
  lane_for,
  lane_to,
  lanes_to_others,
  with_lane,
  without_lane,
};

use crate::host::Wires;
use crossbeam_channel::{Receiver, Sender, unbounded};
use pvp_book::Book;
use pvp_links::Outbox;
use pvp_places::ServeFault;
use pvp_wire::{Stamp, Stamped, encode, wireable};
use std::alloc::{AllocError, Global};
use std::sync::atomic::{AtomicBool, AtomicU64, Ordering};
use std::sync::{Arc, Wait};
use vr_types::{ActorId, Envelope};

/// How many bytes may wait for a stream before further frames are lost.
const MOST_WAITING: u64 = 1 << 24;

/// How much a frame that waits counts: its bytes, and what a ping takes too.
fn weight(frame: &[u8]) -> u64
    ensures { result ≡ min (length frame.now + 32) (2 ^ 64 - 1) }
{
    (frame.len() as u64).saturating_add(32)
}

/// The way to one stream, as the loop has it. Once it is dropped the stream ends.
#[derive(Drop)]
pub struct Lane {
    pub peer: u16,
    /// The number of the stream, by which its end is distinguished from that of a later one.
    pub stream: u64,
    to: Sender<Vec<u8>>,
    waiting: Arc<AtomicU64, Global>,
}

/// The other end, as the stream's writer has it.
#[derive(Drop)]
pub struct Outgoing {
    from: Receiver<Vec<u8>>,
    waiting: Arc<AtomicU64, Global>,
    /// Whether the lane was let go, which the stream's reader looks at.
    ended: Arc<AtomicBool, Global>,
}

/// A lane to a peer, and its other end.
pub fn lane_to(alloc: Global, peer: u16, stream: u64) -> Result<(Lane, Outgoing), AllocError>
    ensures peer { IfOk result (λ made. made.0.peer ≡ peer) }
    ensures stream { IfOk result (λ made. made.0.stream ≡ stream) }
{
    let (to, from) = unbounded(alloc)?;
    let waiting = Arc::new(alloc, AtomicU64::new(0))?;
    let theirs = Arc::try_clone(&waiting)?;
    let lane = Lane {
        peer,
        stream,
        to,
        waiting,
    };
    Ok((
        lane,
        Outgoing {
            from,
            waiting: theirs,
            ended: Arc::new(alloc, AtomicBool::new(false))?,
        },
    ))
}

impl Lane {
    /// How many bytes wait for its stream.
    pub fn waiting_bytes(&self) -> u64 {
        self.waiting.load(Ordering::SeqCst)
    }

    /// Whether it is to this actor.
    fn is_to(&self, peer: u16) -> bool
        ensures { result ≡ is_to peer self.now }
    {
        self.peer == peer
    }

    /// Whether it is this actor's stream of this number.
    fn is_stream(&self, peer: u16, stream: u64) -> bool
        ensures { result ≡ is_stream peer stream self.now }
    {
        self.is_to(peer) && self.stream == stream
    }

    /// Hands a frame to the stream; an empty one is a ping. Where too much waits, or memory is refused, it is lost.
    fn send<T: Wait>(&self, rt: &T, frame: Vec<u8>) {
        let size = weight(&frame);
        if self.waiting.load(Ordering::SeqCst) >= MOST_WAITING {
            return;
        }
        self.waiting.fetch_add(size, Ordering::SeqCst);
        let _lost = self.to.send(rt, frame);
    }

    /// Hands an envelope to the stream. One without a spelling is lost, and one for whose copy memory is refused.
    fn send_stamped<T: Wait>(
        &self,
        rt: &T,
        alloc: Global,
        stamp: Stamp,
        envelope: &Envelope<Book>,
    ) {
        let Ok(envelope) = envelope.copy(alloc) else {
            return;
        };
        let stamped = Stamped { stamp, envelope };
        let mut frame = Vec::new(alloc);
        if wireable(&stamped) && encode(&stamped, &mut frame).is_ok() {
            self.send(rt, frame);
        }
    }
}

/// The streams of an actor that stand, as its loop reaches them: at most one to each peer.
#[derive(Drop)]
pub struct Lanes {
    all: Vec<Lane>,
    /// Where alone mail goes while a stream stands there: the site that answered a client last.
    favoured: Option<u16>,
}

impl Lanes {
    /// No stream.
    pub fn new(alloc: Global) -> Self
        ensures all { result.all.items ≡ [] }
        ensures favoured { result.favoured ≡ None }
    {
        Lanes {
            all: Vec::new(alloc),
            favoured: None,
        }
    }

    /// Envelopes go to this site only, or to each receiver again. Those kept from others are lost,
    /// and a beat sends them again.
    pub fn favours(&mut self, site: Option<u16>)
        ensures { self.new ≡ record self.old { favoured = site } }
    {
        self.favoured = site;
    }

    /// A stream is open. An earlier one between the same two is dropped. `Err` where memory is
    /// refused: then there is none.
    pub fn meets(&mut self, lane: Lane) -> Result<(), ServeFault>
        ensures stands { OnOk result (self.new.all.items ≡ with_lane lane self.old.all.items) }
        ensures refused { IfErr result (λ fault. (fault ≡ NoMemory)
            × (self.new.all.items ≡ lanes_to_others lane.peer self.old.all.items)) }
        ensures favoured { self.new.favoured ≡ self.old.favoured }
    {
        match self.stand(lane) {
            Ok(()) => Ok(()),
            Err(_) => Err(ServeFault::NoMemory),
        }
    }

    fn stand(&mut self, lane: Lane) -> Result<(), AllocError>
        ensures stands { OnOk result (self.new.all.items ≡ with_lane lane self.old.all.items) }
        ensures refused { OnErr result (
            self.new.all.items ≡ lanes_to_others lane.peer self.old.all.items) }
        ensures favoured { self.new.favoured ≡ self.old.favoured }
    {
        let peer = lane.peer;
        self.all.retain(|other| !other.is_to(peer));
        self.all.push(lane)?;
        Ok(())
    }

    /// A stream has ended. Answers whether it was the one that stands between the two.
    pub fn loses(&mut self, peer: u16, stream: u64) -> bool
        ensures stood { result ≡ list_any (is_stream peer stream) self.old.all.items }
        ensures all { self.new.all.items ≡ without_lane peer stream self.old.all.items }
        ensures favoured { self.new.favoured ≡ self.old.favoured }
    {
        let stood = self.has_stream(peer, stream);
        self.all.retain(|other| !other.is_stream(peer, stream));
        stood
    }

    fn has_stream(&self, peer: u16, stream: u64) -> bool
        ensures { result ≡ list_any (is_stream peer stream) self.now.all.items }
    {
        self.all
            .as_slice()
            .iter()
            .any(|lane| lane.is_stream(peer, stream))
    }

    /// The streams that stand, in the order in which they came to stand.
    pub fn all(&self) -> &[Lane]
        ensures { result.now ≡ self.now.all.items }
    {
        self.all.as_slice()
    }

    /// Says to the other sites that this one serves its view, which is no event.
    pub fn ping_sites<T: Wait>(&self, rt: &T, alloc: Global) {
        for lane in self.all.as_slice() {
            if let ActorId::Site(_) = ActorId::of(lane.peer) {
                lane.send(rt, Vec::new(alloc));
            }
        }
    }

    /// Says to an actor, where a stream stands to it, that the log is full, which is no event.
    pub fn ping<T: Wait>(&self, rt: &T, alloc: Global, peer: u16) {
        if let Some(lane) = self.lane(peer) {
            lane.send(rt, Vec::new(alloc));
        }
    }

    /// Says to all clients and nodes to which a stream stands that the log is full, which is no event.
    pub fn ping_others<T: Wait>(&self, rt: &T, alloc: Global) {
        for lane in self.all.as_slice() {
            if let ActorId::Client(_) | ActorId::Node(_) = ActorId::of(lane.peer) {
                lane.send(rt, Vec::new(alloc));
            }
        }
    }

    /// The stream over which mail for a peer goes.
    fn lane_for(&self, peer: u16) -> Option<&Lane>
        ensures { option_copied result ≡ lane_for peer self.now }
    {
        match self.favoured {
            Some(site) if site != peer && self.has_lane(site) => None,
            _ => self.lane(peer),
        }
    }

    /// Whether a stream stands to an actor.
    fn has_lane(&self, peer: u16) -> bool
        ensures { result ≡ is_some (lane_to peer self.now.all.items) }
    {
        self.lane(peer).is_some()
    }

    /// The stream that stands to an actor.
    fn lane(&self, peer: u16) -> Option<&Lane>
        ensures { option_copied result ≡ lane_to peer self.now.all.items }
    {
        self.all.as_slice().iter().find(|lane| lane.is_to(peer))
    }
}

/// An envelope to whose receiver no stream stands is lost.
impl Outbox for Lanes {
    /// Nothing is known of what has come through.
    ghost got = { λ lanes all. Unit {0} };

    fn put<T: Wait>(
        &mut self,
        rt: &T,
        alloc: Global,
        actor: u16,
        clock: u64,
        sent: &[Envelope<Book>],
    )
        ensures hears { Hears {X = Put} (λ lanes all. Unit {0}) self.old self.new
            (record { actor = actor; clock = clock; sent = sent.now } ∷ []) }
        ensures streams { self.new ≡ self.old }
    {
        let mut index = 0u32;
        for envelope in sent {
            let stamp = Stamp {
                actor,
                clock,
                index,
            };
            if let Some(lane) = self.lane_for(envelope.to) {
                lane.send_stamped(rt, alloc, stamp, envelope);
            }
            index = index.saturating_add(1);
        }
    }
}

impl Outgoing {
    /// The next frame; `None` once the lane is dropped.
    pub fn next<R: Wires>(&self, rt: R) -> Option<Vec<u8>> {
        match self.from.recv(&rt) {
            Ok(frame) => Some(self.release_frame(frame)),
            Err(_) => None,
        }
    }

    /// The next frame, where one waits.
    pub fn try_next<R: Wires>(&self, rt: R) -> Option<Vec<u8>> {
        match self.from.try_recv(&rt) {
            Ok(frame) => Some(self.release_frame(frame)),
            Err(_) => None,
        }
    }

    /// Where the stream's reader sees that the lane was let go.
    pub fn ended(&self) -> Result<Arc<AtomicBool, Global>, AllocError> {
        Arc::try_clone(&self.ended)
    }

    /// The lane was let go, or a write failed.
    pub fn ends(&self) {
        self.ended.store(true, Ordering::SeqCst);
    }

    fn release_frame(&self, frame: Vec<u8>) -> Vec<u8> {
        self.waiting.fetch_sub(weight(&frame), Ordering::SeqCst);
        frame
    }
}
