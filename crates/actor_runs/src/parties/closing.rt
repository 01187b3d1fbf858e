//! Cells that are closed with a wrong list of seats.
use self::Move::{AsideBack, OwnAside, StrangeIn, StrangeOut};
use crate::parties::common::{Place, close};
use pvp_parties::{Party, PartyEvent};
use pvp_rooms::{Actor, ActorCell, CloseFault, Closed, Seat};
use std::mem;
use std::process::Abort;
use std::sync::Wait;
use std::test::Fail;
use vr_types::EventOf;

/// Seats in three piles: those with which a cell is to be closed, another actor's, and those that were put aside.
#[derive(Drop)]
struct Piles<S> {
    own: Vec<S>,
    strange: Vec<S>,
    aside: Vec<S>,
}

/// The last seat of one pile goes to another.
#[derive(Clone, Copy)]
enum Move {
    OwnAside,
    AsideBack,
    StrangeIn,
    StrangeOut,
}

impl<S: Drop> Piles<S> {
    fn make_all(&mut self, moves: &[Move]) -> Result<(), Fail> {
        for one in moves {
            self.make(*one)?;
        }
        Ok(())
    }

    fn make(&mut self, one: Move) -> Result<(), Fail> {
        match one {
            OwnAside => move_last(&mut self.own, &mut self.aside),
            AsideBack => move_last(&mut self.aside, &mut self.own),
            StrangeIn => move_last(&mut self.strange, &mut self.own),
            StrangeOut => move_last(&mut self.own, &mut self.strange),
        }
    }
}

fn move_last<S: Drop>(from: &mut Vec<S>, to: &mut Vec<S>) -> Result<(), Fail> {
    if let Some(seat) = from.pop() {
        to.push(seat)?;
    }
    Ok(())
}

/// These are seats of these actors, with these numbers.
fn are_seats<E, O>(rt: &impl Abort, seats: &[Seat<E, O>], want: &[(u16, u16)]) {
    assert_eq!(rt; seats.len(), want.len());
    for (seat, named) in seats.iter().zip(want) {
        assert_eq!(rt; (seat.actor(), seat.number()), *named);
    }
}

/// What came back is the first site's cell with these seats, in order of their numbers.
fn is_whole<A: Actor>(rt: &impl Abort, back: &CloseFault<A>, want: &[(u16, u16)]) {
    assert_eq!(rt; back.cell.number(), 200);
    are_seats(rt, back.seats.as_slice(), want);
}

/// After these moves a cell is not closed with its pile of seats, and comes back with just these.
fn comes_back<A: Actor, R: Abort + AllocGlobal>(
    rt: &R,
    cell: ActorCell<A>,
    piles: &mut Piles<Seat<A::Event, A::Outcome>>,
    moves: &[Move],
    want: &[(u16, u16)],
) -> Result<ActorCell<A>, Fail> {
    piles.make_all(moves)?;
    match cell.close(mem::replace(&mut piles.own, Vec::new(rt.alloc()))) {
        Ok(_) => Err(Fail::new("E1")),
        Err(back) => {
            is_whole(rt, &back, want);
            let CloseFault { cell, seats } = back;
            piles.own = seats;
            Ok(cell)
        }
    }
}

/// How many events an actor took.
fn count_of<A: Actor>(closed: &Closed<A>) -> usize {
    closed.history.len()
}

/// After these moves a cell is closed with its pile of seats, which are these, and left a record of one event.
fn is_closed<A: Actor, R: Abort + AllocGlobal>(
    rt: &R,
    cell: ActorCell<A>,
    piles: &mut Piles<Seat<A::Event, A::Outcome>>,
    moves: &[Move],
    want: &[(u16, u16)],
) -> Result<(), Fail> {
    piles.make_all(moves)?;
    let own = mem::replace(&mut piles.own, Vec::new(rt.alloc()));
    let closed = close(cell, own)?;
    are_seats(rt, closed.seats.as_slice(), want);
    assert_eq!(rt; count_of(&closed), 1);
    Ok(())
}

/// A seat is missing; there is one too many; another actor's stands in its place. With its own the cell is then closed.
fn each_is_tried<A: Actor, R: Abort + AllocGlobal>(
    rt: &R,
    cell: ActorCell<A>,
    piles: &mut Piles<Seat<A::Event, A::Outcome>>,
) -> Result<(), Fail> {
    let want = [(200, 0), (200, 1), (201, 2)];
    let cell = comes_back(rt, cell, piles, &[OwnAside], &[(200, 0)])?;
    let cell = comes_back(rt, cell, piles, &[StrangeIn, AsideBack], &want)?;
    let moves = [OwnAside, OwnAside, StrangeIn];
    let cell = comes_back(rt, cell, piles, &moves, &[(200, 0), (201, 1)])?;
    is_closed(
        rt,
        cell,
        piles,
        &[StrangeOut, AsideBack],
        &[(200, 0), (200, 1)],
    )
}

/// Each is tried with an actor, once this had come to it, and another's seats.
fn are_tried<A: Actor, R: Abort + AllocGlobal>(
    rt: &R,
    came: Result<(), Fail>,
    place: Place<A>,
    strange: Vec<Seat<A::Event, A::Outcome>>,
) -> Result<(), Fail> {
    came?;
    let (cell, own) = place.apart();
    let mut piles = Piles {
        own,
        strange,
        aside: Vec::new(rt.alloc()),
    };
    each_is_tried(rt, cell, &mut piles)
}

/// The first site with its two seats, after a beat, and three seats of the second.
fn sites_are_tried<R: Abort + Wait + AllocGlobal>(rt: &R) -> Result<(), Fail> {
    let (_, strange) = Place::<Party>::site_with_seats(rt.alloc(), 1, 3)?.apart();
    let mut site = Place::<Party>::site_with_seats(rt.alloc(), 0, 2)?;
    let came = site.take(rt, PartyEvent::OfSite(EventOf::Beat));
    are_tried(rt, came, site, strange)
}

#[test]
fn a_wrong_list_of_seats_comes_back(rt: HostRuntime) -> Result<(), Fail> {
    sites_are_tried(&rt)
}
