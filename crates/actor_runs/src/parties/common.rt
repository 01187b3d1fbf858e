//! Actors of a bank with their seats, and what is judged of what they left.
use fixtures::Fresh;
use fixtures::setup::three_currencies;
use pvp_audit::{Verdict, audit, in_memory};
use pvp_book::Book;
use pvp_links::Served;
use pvp_parties::{Party, PartyOf, client_cell, node_cell, site_cell};
use pvp_rooms::{Actor, ActorCell, Answer, Closed, Finding, Gate, Input, Room, Seat};
use pvp_wire::Stamp;
use std::alloc::Global;
use std::mem;
use std::process::Abort;
use std::sync::Wait;
use std::test::Fail;
use vr_types::Envelope;

/// An actor, by its number among those of its kind.
#[derive(Clone, Copy)]
enum Who {
    Client(u16),
    Node(u8),
    Site(u16),
}

/// The actors of the bank: the operator and two members, three nodes, three sites.
const ACTORS: [Who; 9] = [
    Who::Client(0),
    Who::Client(1),
    Who::Client(2),
    Who::Node(0),
    Who::Node(1),
    Who::Node(2),
    Who::Site(0),
    Who::Site(1),
    Who::Site(2),
];

/// A gate that anyone may pass.
#[derive(Drop)]
pub struct Open;

impl Gate for Open {
    ghost heard = { λ gate all. Unit {0} };

    fn enter<A: Actor>(&mut self, _actor: u16, _room: &Room<A>) {}

    fn leave<A: Actor>(&mut self, _actor: u16, _room: &Room<A>, _answer: &Answer<A::Outcome>) {}
}

/// An actor and its seats.
#[derive(Drop)]
pub struct Place<A: Actor> {
    cell: ActorCell<A>,
    seats: Vec<Seat<A::Event, A::Outcome>>,
}

impl<C: Fresh> Place<PartyOf<C>> {
    /// A new actor with one seat.
    fn of(alloc: Global, actor: Who) -> Result<Self, Fail> {
        match actor {
            Who::Client(number) => Self::client_of(alloc, number),
            Who::Node(ccy) => Self::node_of(alloc, ccy),
            Who::Site(me) => Self::site(alloc, me),
        }
    }

    pub fn client(alloc: Global) -> Result<Self, Fail> {
        Self::client_of(alloc, 0)
    }

    fn client_of(alloc: Global, number: u16) -> Result<Self, Fail> {
        let setup = three_currencies(alloc)?;
        if number > setup.member_count() {
            return Err(Fail::new("no such client"));
        }
        let (cell, seats) = client_cell(alloc, &setup, number, 1)?;
        Ok(Place { cell, seats })
    }

    pub fn node(alloc: Global) -> Result<Self, Fail> {
        Self::node_of(alloc, 0)
    }

    fn node_of(alloc: Global, ccy: u8) -> Result<Self, Fail> {
        let setup = three_currencies(alloc)?;
        if ccy >= setup.currency_count() {
            return Err(Fail::new("no such currency"));
        }
        let (cell, seats) = node_cell(alloc, &setup, ccy, 1)?;
        Ok(Place { cell, seats })
    }

    pub fn site(alloc: Global, me: u16) -> Result<Self, Fail> {
        Self::site_with_seats(alloc, me, 1)
    }

    pub fn site_with_seats(alloc: Global, me: u16, seats: u16) -> Result<Self, Fail> {
        Self::site_over(alloc, me, C::fresh(alloc)?, seats)
    }

    pub fn site_over(alloc: Global, me: u16, held: C, seats: u16) -> Result<Self, Fail> {
        let setup = three_currencies(alloc)?;
        if me > 2 * setup.faults() {
            return Err(Fail::new("no such site"));
        }
        let (cell, seats) = site_cell(alloc, &setup, me, held, seats)?;
        Ok(Place { cell, seats })
    }
}

impl<A: Actor> Place<A> {
    /// Posts an event from the first seat, and answers the clock at which it was taken and how it came out.
    pub fn post<R: Wait + AllocGlobal>(
        &mut self,
        rt: &R,
        event: A::Event,
        stamp: Option<Stamp>,
    ) -> Result<(u64, A::Outcome), Fail> {
        self.post_from(rt, 0, event, stamp)
    }

    /// The same from any seat.
    pub fn post_from<R: Wait + AllocGlobal>(
        &mut self,
        rt: &R,
        seat: usize,
        event: A::Event,
        stamp: Option<Stamp>,
    ) -> Result<(u64, A::Outcome), Fail> {
        let Some(seat) = self.seats.get_mut(seat) else {
            return Err(Fail::new("a seat"));
        };
        let input = Input { event, stamp };
        taken(self.cell.post(rt, rt.alloc(), seat, input, &mut Open))
    }

    /// Posts an event from the first seat, whatever comes of it.
    pub fn take<R: Wait + AllocGlobal>(&mut self, rt: &R, event: A::Event) -> Result<(), Fail> {
        let_go(self.post(rt, event, None))
    }

    /// Its cell and its seats.
    pub fn apart(self) -> (ActorCell<A>, Vec<Seat<A::Event, A::Outcome>>) {
        let Place { cell, seats } = self;
        (cell, seats)
    }

    pub fn close(self) -> Result<Closed<A>, Fail> {
        let Place { cell, seats } = self;
        close(cell, seats)
    }
}

impl<A: Served> Place<A> {
    /// Delivers the first envelope that an actor sent at a clock.
    pub fn deliver<R: Wait + AllocGlobal>(
        &mut self,
        rt: &R,
        actor: u16,
        took: Result<(u64, A::Outcome), Fail>,
    ) -> Result<(u64, A::Outcome), Fail> {
        self.deliver_as(rt, actor, took, 0)
    }

    /// Delivers the first envelope that an actor sent at a clock, stamped as the one of this place.
    pub fn deliver_as<R: Wait + AllocGlobal>(
        &mut self,
        rt: &R,
        actor: u16,
        took: Result<(u64, A::Outcome), Fail>,
        index: u32,
    ) -> Result<(u64, A::Outcome), Fail> {
        let (clock, outcome) = took?;
        let envelope = first_letter::<A>(rt.alloc(), &outcome)?;
        let stamp = Stamp {
            actor,
            clock,
            index,
        };
        self.post(rt, A::deliver(envelope), Some(stamp))
    }
}

/// What an actor left, with all its seats.
pub fn close<A: Actor>(
    cell: ActorCell<A>,
    seats: Vec<Seat<A::Event, A::Outcome>>,
) -> Result<Closed<A>, Fail> {
    match cell.close(seats) {
        Ok(closed) => Ok(closed),
        Err(_) => Err(Fail::new("all seats")),
    }
}

/// What an actor left, once this had come to it.
pub fn close_after<A: Actor>(came: Result<(), Fail>, place: Place<A>) -> Result<Closed<A>, Fail> {
    came?;
    place.close()
}

/// A value, once this had come to it.
pub fn after<T: Drop>(came: Result<(), Fail>, value: T) -> Result<T, Fail> {
    came?;
    Ok(value)
}

/// At which clock an event was taken, and how it came out.
fn taken<O: Drop>(answer: Answer<O>) -> Result<(u64, O), Fail> {
    match answer {
        Answer::Done { clock, outcome } => Ok((clock, outcome)),
        Answer::NoMemory => Err(Fail::new("memory")),
        Answer::ClockSpent => Err(Fail::new("clock")),
    }
}

/// That it was taken, and not how it came out.
pub fn let_go<T: Drop>(came: Result<T, Fail>) -> Result<(), Fail> {
    came?;
    Ok(())
}

/// The first envelope that an outcome sent.
pub fn first_letter<A: Served>(
    alloc: Global,
    outcome: &A::Outcome,
) -> Result<Envelope<Book>, Fail> {
    match A::sent_envelopes(outcome).get(0) {
        Some(envelope) => Ok(envelope.copy(alloc)?),
        None => Err(Fail::new("an envelope")),
    }
}

/// What a whole bank leaves in which nothing happens but what these actors left, each in its place.
pub fn bank_around<C: Fresh>(
    alloc: Global,
    some: Result<Vec<Closed<PartyOf<C>>>, Fail>,
) -> Result<Vec<Closed<PartyOf<C>>>, Fail> {
    let mut closed = Vec::new(alloc);
    let came = put_around(alloc, &mut closed, some);
    after(came, closed)
}

fn put_around<C: Fresh>(
    alloc: Global,
    closed: &mut Vec<Closed<PartyOf<C>>>,
    some: Result<Vec<Closed<PartyOf<C>>>, Fail>,
) -> Result<(), Fail> {
    let some = some?;
    let came = put_all_at_rest(alloc, closed);
    put_in_places(came, closed.as_mut_slice(), some)
}

/// Puts what actors left in the places of what others of their numbers left, once those are there.
fn put_in_places<A: Actor>(
    came: Result<(), Fail>,
    closed: &mut [Closed<A>],
    some: Vec<Closed<A>>,
) -> Result<(), Fail> {
    came?;
    for one in some {
        put_in_place(closed, one);
    }
    Ok(())
}

/// Puts what an actor left in the place of what another of its number left.
pub fn put_in_place<A: Actor>(closed: &mut [Closed<A>], mut one: Closed<A>) {
    for place in closed {
        if place.number == one.number {
            mem::swap(place, &mut one);
        }
    }
}

/// A list gets one more, once that is made.
pub fn add<T: Drop>(all: &mut Vec<T>, one: Result<T, Fail>) -> Result<(), Fail> {
    all.push(one?)?;
    Ok(())
}

/// A list of one.
pub fn alone<T: Drop>(alloc: Global, one: Result<T, Fail>) -> Result<Vec<T>, Fail> {
    let mut all = Vec::new(alloc);
    add(&mut all, one)?;
    Ok(all)
}

/// A list without its last.
pub fn without_last<T: Drop>(all: Result<Vec<T>, Fail>) -> Result<Vec<T>, Fail> {
    let mut all = all?;
    all.pop();
    Ok(all)
}

/// What all actors of a bank leave to whom nothing happened: clients, nodes, sites.
fn put_all_at_rest<C: Fresh>(
    alloc: Global,
    closed: &mut Vec<Closed<PartyOf<C>>>,
) -> Result<(), Fail> {
    for actor in ACTORS {
        add(closed, at_rest(Place::<PartyOf<C>>::of(alloc, actor)))?;
    }
    Ok(())
}

/// What an actor leaves to whom nothing happened.
pub fn at_rest<A: Actor>(place: Result<Place<A>, Fail>) -> Result<Closed<A>, Fail> {
    place?.close()
}

/// A verdict of the bank around what some actors left says this, whatever boot cells they have.
pub fn are_judged<R: Abort + AllocGlobal, C: Fresh>(
    rt: &R,
    some: Result<Vec<Closed<PartyOf<C>>>, Fail>,
    verdict: Finding,
) -> Result<(), Fail> {
    let closed = in_memory(rt.alloc(), bank_around(rt.alloc(), some)?)?;
    is_judged_whole(rt, closed.as_slice(), verdict)
}

/// A verdict of a whole bank says this.
pub fn is_judged_whole<R: Abort + AllocGlobal>(
    rt: &R,
    closed: &[Closed<Party>],
    verdict: Finding,
) -> Result<(), Fail> {
    assert_eq!(rt; judged_whole(rt.alloc(), closed)?, verdict);
    Ok(())
}

/// What a verdict says of a whole bank.
fn judged_whole(alloc: Global, closed: &[Closed<Party>]) -> Result<Finding, Fail> {
    match audit(alloc, &three_currencies(alloc)?, closed) {
        Ok(verdict) => Ok(verdict_in(&verdict)),
        Err(_) => Err(Fail::new("the actors of the bank")),
    }
}

fn verdict_in(verdict: &Verdict) -> Finding {
    match verdict {
        Verdict::Yes(_) => Finding::Yes,
        Verdict::No { actor, event, why } => Finding::No {
            actor: *actor,
            event: *event,
            why: *why,
        },
    }
}
