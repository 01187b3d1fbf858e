//! Sites at work at once.
ghost use Rattle.std.specs.Prelude.{◌≡◌, []};

use crate::live::common::{Open, peer_of, serve, site, site_over, sites};
use crate::live::frames::{COMMIT, Pieces, REQUEST, commit_with};
use fixtures::setup::three_currencies;
use pvp_book::Book;
use pvp_links::{Outbox, Peer, PeerEnd, Player, Sending, Served, StreamEnd};
use pvp_rooms::{Actor, ActorCell, Answer, Gate, Input, Room, Seat, SiteCell, SiteSeat};
use pvp_types::{Cmd, Step};
use pvp_wire::{Stamp, Stamped, decode};
use pvp_world::World;
use std::alloc::Global;
use std::io::Read;
use std::process::Abort;
use std::sync::Wait;
use std::sync::atomic::{AtomicU64, Ordering};
use std::test::Fail;
use std::thread::{self, Threads};
use std::time::{Clock, Duration};
use vr_site::Replica;
use vr_types::{
    Boot, BootCell, Envelope, EventOf, MemCell, MsgOf, PrepareOf, Recovery, RequestOf, Status,
};

/// A player that does nothing.
#[derive(Drop)]
struct Idle;

impl Player for Idle {
    ghost plays = { λ old new puts. puts ≡ [] };

    fn play<O: Outbox>(&mut self, _out: &mut O) {}
}

/// Holds the steps of sites 0 and 1 until both are in it.
#[derive(Drop)]
struct Both<R> {
    clock: R,
    /// How many steps of each have come in.
    first: AtomicU64,
    second: AtomicU64,
    /// How many steps were let through though the other did not come.
    gave_up: AtomicU64,
}

impl<R: Clock> Both<R> {
    /// A step of this site comes in, and waits for the other's.
    fn hold(&self, actor: u16) {
        if actor == 200 {
            self.first.fetch_add(1, Ordering::SeqCst);
        } else {
            self.second.fetch_add(1, Ordering::SeqCst);
        }
        for _ in 0..10_000 {
            let first = self.first.load(Ordering::SeqCst);
            let second = self.second.load(Ordering::SeqCst);
            if first > 0 && second > 0 {
                return;
            }
            thread::sleep(&self.clock, Duration::from_millis(1));
        }
        self.gave_up.fetch_add(1, Ordering::SeqCst);
    }
}

/// One worker's way in.
#[derive(Drop)]
struct Held<'a, R> {
    both: &'a Both<R>,
}

impl<R: Clock> Gate for Held<'_, R> {
    ghost heard = { λ gate all. Unit {0} };

    fn enter<A: Actor>(&mut self, actor: u16, _room: &Room<A>) {
        self.both.hold(actor);
    }

    fn leave<A: Actor>(&mut self, _actor: u16, _room: &Room<A>, _answer: &Answer<A::Outcome>) {}
}

/// Writers for these actors, which write to no one.
fn nowhere(alloc: Global, actors: &[u16]) -> Result<Vec<Sending<Vec<u8>>>, Fail> {
    let mut outgoing = Vec::new(alloc);
    for actor in actors {
        outgoing.push(Sending {
            actor: *actor,
            streams: Vec::new(alloc),
        })?;
    }
    Ok(outgoing)
}

/// Peers of these actors are at work, and nobody else.
fn serve_alone<A, S, G, R>(
    rt: &R,
    peers: &mut [Peer<'_, A, S, G>],
    actors: &[u16],
) -> Result<(), Fail>
where
    A: Served + Send,
    A::Opening: Send,
    A::Event: Send,
    A::Outcome: Send,
    S: Read + Send,
    G: Gate + Send,
    R: Threads + Wait + Sync + AllocGlobal,
{
    let outgoing = nowhere(rt.alloc(), actors)?;
    serve(rt, peers, outgoing, &mut Idle)
}

/// A peer of each of two sites, at a stream of one frame, whose steps are held.
fn at_gate<'a, A: Actor, R: Clock>(
    alloc: Global,
    first: &'a ActorCell<A>,
    first_seat: Seat<A::Event, A::Outcome>,
    second: &'a ActorCell<A>,
    second_seat: Seat<A::Event, A::Outcome>,
    frames: &'a [[u8; 28]; 2],
    both: &'a Both<R>,
) -> Result<Vec<Peer<'a, A, Pieces<'a>, Held<'a, R>>>, Fail> {
    let (at_first, at_second) = (Held { both }, Held { both });
    let (first_frame, second_frame) = (Pieces::whole(&frames[0]), Pieces::whole(&frames[1]));
    let mut peers = Vec::new(alloc);
    peers.push(peer_of(first, first_seat, first_frame, at_first))?;
    peers.push(peer_of(second, second_seat, second_frame, at_second))?;
    Ok(peers)
}

/// No step was let through though the other did not come.
fn has_met<R>(rt: &impl Abort, both: &Both<R>) {
    assert_eq!(rt; both.gave_up.load(Ordering::SeqCst), 0);
}

/// Each of these peers took its only frame.
fn each_took_one<A: Actor, S, G>(rt: &impl Abort, peers: &[Peer<'_, A, S, G>]) {
    let want = PeerEnd {
        frames: 1,
        why: StreamEnd::End,
    };
    for peer in peers {
        assert!(rt; peer.end == Some(want));
        assert_eq!(rt; peer.seat.receipts().len(), 1);
    }
}

/// Two sites, each with its seat, take a step each, which is held until the other has come to its own.
fn meet<A, R>(
    rt: &R,
    first: &ActorCell<A>,
    first_seat: Seat<A::Event, A::Outcome>,
    second: &ActorCell<A>,
    second_seat: Seat<A::Event, A::Outcome>,
) -> Result<(), Fail>
where
    A: Served + Send,
    A::Opening: Send,
    A::Event: Send,
    A::Outcome: Send,
    R: Abort + Clock + Threads + Wait + Sync + AllocGlobal,
{
    let frames = [commit_with(20, &[0, 200]), COMMIT];
    let both = Both {
        clock: rt,
        first: AtomicU64::new(0),
        second: AtomicU64::new(0),
        gave_up: AtomicU64::new(0),
    };
    let alloc = rt.alloc();
    let mut peers = at_gate(
        alloc,
        first,
        first_seat,
        second,
        second_seat,
        &frames,
        &both,
    )?;
    serve_alone(rt, peers.as_mut_slice(), &[200, 201])?;
    has_met(rt, &both);
    each_took_one(rt, peers.as_slice());
    Ok(())
}

/// The first two sites do so.
fn sites_meet<R>(rt: &R) -> Result<(), Fail>
where
    R: Abort + Clock + Threads + Wait + Sync + AllocGlobal,
{
    let (first, first_seat) = site(rt.alloc(), 0)?;
    let (second, second_seat) = site(rt.alloc(), 1)?;
    meet(rt, &first, first_seat, &second, second_seat)
}

/// The steps of two sites are each held until the other has come to its own.
#[test]
fn two_sites_at_once(rt: HostRuntime) -> Result<(), Fail> {
    sites_meet(&rt)
}

/// Counts the steps that come in while another is in.
#[derive(Drop)]
struct Alone<R> {
    clock: R,
    inside: AtomicU64,
    met: AtomicU64,
}

/// One worker's way in.
#[derive(Drop)]
struct Door<'a, R> {
    alone: &'a Alone<R>,
}

impl<R: Clock> Gate for Door<'_, R> {
    ghost heard = { λ gate all. Unit {0} };

    fn enter<A: Actor>(&mut self, _actor: u16, _room: &Room<A>) {
        let others = self.alone.inside.fetch_add(1, Ordering::SeqCst);
        if others > 0 {
            self.alone.met.fetch_add(1, Ordering::SeqCst);
        }
        thread::sleep(&self.alone.clock, Duration::from_millis(20));
    }

    fn leave<A: Actor>(&mut self, _actor: u16, _room: &Room<A>, _answer: &Answer<A::Outcome>) {
        self.alone.inside.fetch_sub(1, Ordering::SeqCst);
    }
}

/// A peer of an actor from each of these seats, at a stream of this frame.
fn at_door<'a, A: Actor, R: Clock>(
    alloc: Global,
    cell: &'a ActorCell<A>,
    seats: Vec<Seat<A::Event, A::Outcome>>,
    frame: &'a [u8],
    alone: &'a Alone<R>,
) -> Result<Vec<Peer<'a, A, Pieces<'a>, Door<'a, R>>>, Fail> {
    let mut peers = Vec::new(alloc);
    for seat in seats {
        let gate = Door { alone };
        peers.push(peer_of(cell, seat, Pieces::whole(frame), gate))?;
    }
    Ok(peers)
}

/// Each step was in alone, and has gone.
fn none_met<R>(rt: &impl Abort, alone: &Alone<R>) {
    assert_eq!(rt; alone.met.load(Ordering::SeqCst), 0);
    assert_eq!(rt; alone.inside.load(Ordering::SeqCst), 0);
}

/// The first site takes a frame from each of its seats at once, and its gate lets one step in at a time.
fn take_turns<A, R>(
    rt: &R,
    cell: &ActorCell<A>,
    seats: Vec<Seat<A::Event, A::Outcome>>,
) -> Result<(), Fail>
where
    A: Served + Send,
    A::Opening: Send,
    A::Event: Send,
    A::Outcome: Send,
    R: Abort + Clock + Threads + Wait + Sync + AllocGlobal,
{
    let frame = commit_with(20, &[0, 200]);
    let alone = Alone {
        clock: rt,
        inside: AtomicU64::new(0),
        met: AtomicU64::new(0),
    };
    let mut peers = at_door(rt.alloc(), cell, seats, &frame, &alone)?;
    serve_alone(rt, peers.as_mut_slice(), &[200])?;
    none_met(rt, &alone);
    Ok(())
}

/// It has two seats.
fn two_take_turns<R>(rt: &R) -> Result<(), Fail>
where
    R: Abort + Clock + Threads + Wait + Sync + AllocGlobal,
{
    let (cell, seats) = sites(rt.alloc(), 0, 2)?;
    take_turns(rt, &cell, seats)
}

/// Two streams of one site are posted at once, and its gate lets one step in at a time.
#[test]
fn one_site_takes_one_step_at_a_time(rt: HostRuntime) -> Result<(), Fail> {
    two_take_turns(&rt)
}

/// How an event comes out that an actor takes.
fn outcome_of<A: Actor, R: Wait + AllocGlobal>(
    rt: &R,
    cell: &ActorCell<A>,
    seat: &mut Seat<A::Event, A::Outcome>,
    event: A::Event,
    stamp: Option<Stamp>,
) -> Result<A::Outcome, Fail> {
    match cell.post(rt, rt.alloc(), seat, Input { event, stamp }, &mut Open) {
        Answer::Done { outcome, .. } => Ok(outcome),
        _ => Err(Fail::new("an answer")),
    }
}

/// The request in its frame.
fn request(alloc: Global) -> Result<Stamped, Fail> {
    let (request, _) = decode(alloc, &REQUEST)?;
    Ok(request)
}

/// What a request asks.
fn asked_in(envelope: &Envelope<Book>) -> Result<RequestOf<Cmd>, Fail> {
    match &envelope.msg {
        MsgOf::Request(asked) => Ok(*asked),
        _ => Err(Fail::new("a request")),
    }
}

/// It was taken, however it came out.
fn is_taken<O: Drop>(came: Result<O, Fail>) -> Result<(), Fail> {
    came?;
    Ok(())
}

/// A request is taken.
fn takes<R: Wait + AllocGlobal>(
    rt: &R,
    cell: &SiteCell<Book, MemCell>,
    seat: &mut SiteSeat<Book>,
    request: Stamped,
) -> Result<(), Fail> {
    let Stamped { envelope, stamp } = request;
    is_taken(outcome_of(rt, cell, seat, EventOf::Deliver(envelope), Some(stamp)))
}

/// Two of these envelopes have a row for what a request asks.
fn are_prepared(rt: &impl Abort, sent: &[Envelope<Book>], asked: RequestOf<Cmd>) {
    let mut found = 0u32;
    for envelope in sent {
        if let MsgOf::Prepare(PrepareOf { row, .. }) = &envelope.msg {
            assert!(rt; row.client == 102 && row.number == asked.number && row.cmd == asked.cmd);
            found = found.saturating_add(1);
        }
    }
    assert_eq!(rt; found, 2);
}

/// After a request, a site's beat sends its row.
fn sends_the_row<R: Abort + Wait + AllocGlobal>(
    rt: &R,
    cell: &SiteCell<Book, MemCell>,
    seat: &mut SiteSeat<Book>,
) -> Result<(), Fail> {
    let request = request(rt.alloc())?;
    let asked = asked_in(&request.envelope)?;
    takes(rt, cell, seat, request)?;
    let outcome = outcome_of(rt, cell, seat, EventOf::Beat, None)?;
    are_prepared(
        rt,
        Replica::<Book, MemCell>::sent_envelopes(&outcome),
        asked,
    );
    Ok(())
}

/// The bank before anything was done, over new cells.
fn opening_world(alloc: Global) -> Result<World<MemCell>, Fail> {
    let mut cells = Vec::new(alloc);
    cells.push(MemCell::new())?;
    cells.push(MemCell::new())?;
    cells.push(MemCell::new())?;
    Ok(World::new(alloc, &three_currencies(alloc)?, cells)?)
}

/// In place of its beat site 0 falls over what its cell held at first, and is down.
fn falls_at_its_beat(rt: &impl Abort, alloc: Global, world: &mut World<MemCell>) {
    let opening = MemCell::new().load();
    assert!(rt; world.fall(alloc, Step::Beat(200), opening) == Ok(()));
    assert!(rt; world.site(0).map(|site| site.status()) == Some(Status::Down));
}

/// So it does in the opening world.
fn falls_at_first<R: Abort + AllocGlobal>(rt: &R) -> Result<(), Fail> {
    falls_at_its_beat(rt, rt.alloc(), &mut opening_world(rt.alloc())?);
    Ok(())
}

/// What a site sends after a request and a beat has the request's row, and a world takes that
/// site's fall in place of a beat.
#[test]
fn reply_is_real(rt: HostRuntime) -> Result<(), Fail> {
    falls_at_first(&rt)?;
    let (cell, mut seat) = site(rt.alloc(), 0)?;
    sends_the_row(&rt, &cell, &mut seat)
}

/// A cell that holds so many boots.
fn cell_with(boots: u32) -> Result<MemCell, Fail> {
    let mut held = MemCell::new();
    match held.save(Boot { boots }) {
        Ok(()) => Ok(held),
        Err(_) => Err(Fail::new("a save")),
    }
}

/// Both others are asked with the fifth boot.
fn ask_with_the_fifth(rt: &impl Abort, sent: &[Envelope<Book>]) {
    assert_eq!(rt; sent.len(), 2);
    for envelope in sent {
        assert!(rt; matches!(&envelope.msg, MsgOf::Recovery(Recovery { nonce: 5 })));
    }
}

/// A site that is restarted asks so.
fn asks_with_the_fifth<R: Abort + Wait + AllocGlobal>(
    rt: &R,
    cell: &SiteCell<Book, MemCell>,
    seat: &mut SiteSeat<Book>,
) -> Result<(), Fail> {
    let outcome = outcome_of(rt, cell, seat, EventOf::Restart, None)?;
    ask_with_the_fifth(rt, Replica::<Book, MemCell>::sent_envelopes(&outcome));
    Ok(())
}

/// What an actor was opened over that is closed with its only seat.
fn opening_of<A: Actor>(
    alloc: Global,
    cell: ActorCell<A>,
    seat: Seat<A::Event, A::Outcome>,
) -> Result<A::Opening, Fail> {
    let mut seats = Vec::new(alloc);
    seats.push(seat)?;
    match cell.close(seats) {
        Ok(closed) => Ok(closed.opening),
        Err(_) => Err(Fail::new("all seats")),
    }
}

/// A site that is opened over a cell which holds four boots asks with the fifth, and leaves what it was opened over.
#[test]
fn a_site_is_opened_over_its_cell(rt: HostRuntime) -> Result<(), Fail> {
    let (cell, mut seat) = site_over(rt.alloc(), 1, cell_with(4)?)?;
    asks_with_the_fifth(&rt, &cell, &mut seat)?;
    assert_eq!(rt; opening_of(rt.alloc(), cell, seat)?, Boot { boots: 4 });
    Ok(())
}
