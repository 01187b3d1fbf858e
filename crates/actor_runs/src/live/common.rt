//! New sites, and a gate and an outbox that do nothing.
ghost use Rattle.std.specs.Prelude.{◌≤◌};

use fixtures::setup::three_currencies;
use pvp_book::Book;
use pvp_links::{
    Connected, Outbox, Peer, Player, Sending, Served, Writer, Writers, connect_all, serve_streams,
};
use pvp_rooms::{Actor, ActorCell, Answer, Gate, Room, Seat, SiteCell, SiteSeat};
use std::alloc::Global;
use std::io::{Read, Write};
use std::net::Net;
use std::sync::Wait;
use std::test::Fail;
use std::thread::Threads;
use vr_types::{Config, Envelope, MemCell};

/// A gate that anyone may pass.
#[derive(Drop)]
pub struct Open;

impl Gate for Open {
    ghost heard = { λ gate all. Unit {0} };

    fn enter<A: Actor>(&mut self, _actor: u16, _room: &Room<A>) {}

    fn leave<A: Actor>(&mut self, _actor: u16, _room: &Room<A>, _answer: &Answer<A::Outcome>) {}
}

/// An outbox that loses all.
#[derive(Drop)]
pub struct Lost;

impl Outbox for Lost {
    ghost got = { λ outbox all. Unit {0} };

    fn put<T: Wait>(
        &mut self,
        _rt: &T,
        _alloc: Global,
        _actor: u16,
        _clock: u64,
        _sent: &[Envelope<Book>],
    ) {}
}

/// A list of one.
pub fn alone<T: Drop>(alloc: Global, one: T) -> Result<Vec<T>, Fail> {
    let mut all = Vec::new(alloc);
    all.push(one)?;
    Ok(all)
}

/// A stream for each pair of these actors of which the one may send to the other.
pub fn connected<N: Net>(
    net: &N,
    alloc: Global,
    actors: &[u16],
) -> Result<Connected<N::Stream>, Fail> {
    match connect_all(net, alloc, actors) {
        Ok(connected) => Ok(connected),
        Err(_) => Err(Fail::new("the net")),
    }
}

/// A writer for each actor over its streams.
fn writers_of<S: Write + Drop>(
    alloc: Global,
    out: &mut Writers,
    outgoing: Vec<Sending<S>>,
) -> Result<Vec<Writer<S>>, Fail> {
    let mut writers = Vec::new(alloc);
    for Sending { actor, streams } in outgoing {
        writers.push(out.add(alloc, actor, streams)?)?;
    }
    Ok(writers)
}

/// A peer of an actor from this seat, over a stream.
pub fn peer_of<'a, A: Actor, S, G>(
    cell: &'a ActorCell<A>,
    seat: Seat<A::Event, A::Outcome>,
    reader: S,
    gate: G,
) -> Peer<'a, A, S, G> {
    Peer {
        cell,
        seat,
        reader,
        gate,
        end: None,
    }
}

/// Peers are at work, with a writer for each actor over its streams, while a player plays.
pub fn serve<A, R, W, G, P, T>(
    rt: &T,
    peers: &mut [Peer<'_, A, R, G>],
    outgoing: Vec<Sending<W>>,
    player: &mut P,
) -> Result<(), Fail>
where
    A: Served + Send,
    A::Opening: Send,
    A::Event: Send,
    A::Outcome: Send,
    R: Read + Send,
    W: Write + Send + Drop,
    G: Gate + Send,
    P: Player,
    T: Threads + Wait + Sync + AllocGlobal,
{
    let mut out = Writers::new(rt.alloc());
    let mut writers = writers_of(rt.alloc(), &mut out, outgoing)?;
    serve_streams(rt, rt.alloc(), peers, writers.as_mut_slice(), &out, player);
    Ok(())
}

/// A new site of three, with one seat.
pub fn site(alloc: Global, me: u16) -> Result<(SiteCell<Book, MemCell>, SiteSeat<Book>), Fail>
    requires { me ≤ 2 }
{
    site_over(alloc, me, MemCell::new())
}

/// A site of three over this cell, with one seat.
pub fn site_over(
    alloc: Global,
    me: u16,
    held: MemCell,
) -> Result<(SiteCell<Book, MemCell>, SiteSeat<Book>), Fail>
    requires { me ≤ 2 }
{
    let (cell, mut seats) = sites_over(alloc, me, held, 1)?;
    match seats.pop() {
        Some(seat) => Ok((cell, seat)),
        None => Err(Fail::new("a seat")),
    }
}

/// A new site of three, with so many seats.
pub fn sites(
    alloc: Global,
    me: u16,
    seats: u16,
) -> Result<(SiteCell<Book, MemCell>, Vec<SiteSeat<Book>>), Fail>
    requires { me ≤ 2 }
{
    sites_over(alloc, me, MemCell::new(), seats)
}

/// A site of three over this cell, with so many seats.
fn sites_over(
    alloc: Global,
    me: u16,
    held: MemCell,
    seats: u16,
) -> Result<(SiteCell<Book, MemCell>, Vec<SiteSeat<Book>>), Fail>
    requires { me ≤ 2 }
{
    let setup = three_currencies(alloc)?;
    let config = Config { f: 1, me };
    let made = SiteCell::<Book, MemCell>::new(alloc, config, setup, held, seats)?;
    Ok(made)
}
