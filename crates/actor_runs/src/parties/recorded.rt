//! What an actor left whose last event is recorded with an outcome that it can have, or with one that it cannot.
use self::Came::{
    ClientRefused, ClientSent, Drops, Fell, NodeRefused, NodeSent, SiteRefused, SiteSent, Strays,
};
use self::Took::{Asks, Beats, Crashes, PaysIn, Restarts, SaysAgain};
use crate::parties::common::{Place, after, alone, are_judged, close_after};
use headline::{ClientEvent, ClientFault};
use pvp_parties::{Party, PartyEvent, PartyOutcome};
use pvp_rooms::{Actor, AuditTest, CameOf, Closed, Finding, Recorded, Seat};
use pvp_types::Cmd;
use rtgs_node::{NodeEvent, NodeFault};
use std::alloc::Global;
use std::process::Abort;
use std::sync::Wait;
use std::test::Fail;
use vr_types::{Boot, EventOf, SentOf, SiteFault, Why};

/// What happens to an actor.
#[derive(Clone, Copy)]
enum Took {
    /// A client asks for a settlement run.
    Asks,
    /// A client sends again what may have been lost.
    SaysAgain,
    /// ALFA pays so much in at a node.
    PaysIn(u64),
    /// A site beats.
    Beats,
    /// A site crashes.
    Crashes,
    /// A site is restarted.
    Restarts,
}

/// How that is recorded. What is recorded as sent is nothing.
#[derive(Clone, Copy)]
enum Came {
    ClientSent,
    ClientRefused(ClientFault),
    NodeSent,
    NodeRefused(NodeFault),
    SiteSent,
    Drops(Why),
    SiteRefused(SiteFault),
    /// Over a cell that then counts so many restarts.
    Fell(SiteFault, u32),
    Strays,
}

/// What an actor took, and how one more event is then recorded.
#[derive(Clone, Copy)]
struct Row(&'static [Took], Took, Came);

/// The event itself.
fn event_of(took: Took) -> PartyEvent {
    match took {
        Asks => PartyEvent::OfClient(ClientEvent::Submits(Cmd::Settle { most: 1 })),
        SaysAgain => PartyEvent::OfClient(ClientEvent::Beats),
        PaysIn(amt) => PartyEvent::OfNode(NodeEvent::PaysIn { member: 1, amt }),
        Beats => PartyEvent::OfSite(EventOf::Beat),
        Crashes => PartyEvent::OfSite(EventOf::Crash),
        Restarts => PartyEvent::OfSite(EventOf::Restart),
    }
}

/// The outcome itself.
fn outcome_of(alloc: Global, came: Came) -> PartyOutcome {
    let sent = SentOf::new(Vec::new(alloc));
    match came {
        ClientSent => PartyOutcome::OfClient(Ok(sent)),
        ClientRefused(why) => PartyOutcome::OfClient(Err(why)),
        NodeSent => PartyOutcome::OfNode(Ok(sent)),
        NodeRefused(why) => PartyOutcome::OfNode(Err(why)),
        SiteSent => PartyOutcome::OfSite(CameOf::Did {
            sent,
            dropped: None,
        }),
        Drops(why) => PartyOutcome::OfSite(CameOf::Did {
            sent,
            dropped: Some(why),
        }),
        SiteRefused(why) => PartyOutcome::OfSite(CameOf::Refused(why)),
        Fell(why, boots) => PartyOutcome::OfSite(CameOf::Fell {
            why,
            cell: Boot { boots },
        }),
        Strays => PartyOutcome::Stray,
    }
}

/// An event that came out so, at this clock.
fn recorded(
    alloc: Global,
    clock: u64,
    took: Took,
    came: Came,
) -> Recorded<PartyEvent, PartyOutcome> {
    Recorded {
        event: event_of(took),
        stamp: None,
        clock,
        outcome: outcome_of(alloc, came),
    }
}

/// Puts one more record behind what an actor left, and its receipt into a seat of its own.
fn put<A: Actor>(
    left: &mut Closed<A>,
    mine: Recorded<A::Event, A::Outcome>,
    receipt: Recorded<A::Event, A::Outcome>,
) -> Result<(), Fail> {
    left.history.push(mine)?;
    put_receipt(left, receipt)
}

/// Puts a receipt into a seat of its own.
fn put_receipt<A: Actor>(
    left: &mut Closed<A>,
    receipt: Recorded<A::Event, A::Outcome>,
) -> Result<(), Fail> {
    let mut receipts = Vec::new(*left.history.allocator());
    receipts.push(receipt)?;
    left.seats
        .push(Seat::with_receipts(left.number, 1, receipts))?;
    Ok(())
}

/// A new actor of this number: the operator, EUR's node or the first site.
fn opened(alloc: Global, actor: u16) -> Result<Place<Party>, Fail> {
    match actor {
        0 => Place::client(alloc),
        101 => Place::node(alloc),
        _ => Place::site(alloc, 0),
    }
}

/// What a new actor leaves that took these.
fn left<R: Wait + AllocGlobal>(rt: &R, actor: u16, took: &[Took]) -> Result<Closed<Party>, Fail> {
    let mut place = opened(rt.alloc(), actor)?;
    let came = take_all(rt, &mut place, took);
    close_after(came, place)
}

/// An actor takes these one after another, whatever comes of them.
fn take_all<R: Wait + AllocGlobal>(
    rt: &R,
    place: &mut Place<Party>,
    took: &[Took],
) -> Result<(), Fail> {
    for one in took {
        place.take(rt, event_of(*one))?;
    }
    Ok(())
}

/// Puts the last record of a row behind what each actor left.
fn put_last(alloc: Global, some: &mut [Closed<Party>], row: &Row) -> Result<(), Fail> {
    let Row(before, took, came) = *row;
    let clock = before.len() as u64 + 1;
    for one in some {
        let mine = recorded(alloc, clock, took, came);
        put(one, mine, recorded(alloc, clock, took, came))?;
    }
    Ok(())
}

/// An actor that left what a row says is judged so in its bank.
fn row_is<R: Abort + Wait + AllocGlobal>(
    rt: &R,
    actor: u16,
    row: &Row,
    told: Finding,
) -> Result<(), Fail> {
    let mut some = alone(rt.alloc(), left(rt, actor, row.0))?;
    let came = put_last(rt.alloc(), some.as_mut_slice(), row);
    are_judged(rt, after(came, some), told)
}

/// The last record of each row is one that its actor can have.
fn are_right<R: Abort + Wait + AllocGlobal>(rt: &R, actor: u16, rows: &[Row]) -> Result<(), Fail> {
    for row in rows {
        row_is(rt, actor, row, Finding::Yes)?;
    }
    Ok(())
}

/// The last record of each row is one that its actor cannot have.
fn are_wrong<R: Abort + Wait + AllocGlobal>(rt: &R, actor: u16, rows: &[Row]) -> Result<(), Fail> {
    for row in rows {
        let told = Finding::No {
            actor,
            event: row.0.len() + 1,
            why: AuditTest::Answered,
        };
        row_is(rt, actor, row, told)?;
    }
    Ok(())
}

/// It asks while it waits for an answer, or wants memory.
#[test]
fn a_client_can_refuse(rt: HostRuntime) -> Result<(), Fail> {
    const ROWS: &[Row] = &[
        Row(&[Asks], Asks, ClientRefused(ClientFault::Outstanding)),
        Row(&[], Asks, ClientRefused(ClientFault::NoMemory)),
        Row(&[Asks], Asks, ClientRefused(ClientFault::NoMemory)),
        Row(&[], SaysAgain, ClientSent),
    ];
    are_right(&rt, 0, ROWS)
}

/// It asks three sites where it waits for no answer.
#[test]
fn a_client_cannot_have_done_so(rt: HostRuntime) -> Result<(), Fail> {
    const ROWS: &[Row] = &[
        Row(&[], Asks, ClientSent),
        Row(&[Asks], Asks, ClientSent),
        Row(&[], Asks, ClientRefused(ClientFault::Outstanding)),
        Row(&[Asks], Asks, ClientRefused(ClientFault::Spent)),
        Row(&[], Asks, NodeSent),
        Row(&[], Asks, Strays),
        Row(&[], Beats, ClientSent),
    ];
    are_wrong(&rt, 0, ROWS)
}

/// A pay-in of nothing has no amount, and one of 10,001 is more than ALFA has.
#[test]
fn a_node_can_refuse(rt: HostRuntime) -> Result<(), Fail> {
    const ROWS: &[Row] = &[
        Row(&[], PaysIn(0), NodeRefused(NodeFault::BadAmount)),
        Row(&[], PaysIn(10_001), NodeRefused(NodeFault::Short)),
        Row(&[PaysIn(1)], PaysIn(10_000), NodeRefused(NodeFault::Short)),
        Row(&[], PaysIn(5), NodeRefused(NodeFault::NoMemory)),
    ];
    are_right(&rt, 101, ROWS)
}

/// It sends three sites the notice of a pay-in that it can take.
#[test]
fn a_node_cannot_have_done_so(rt: HostRuntime) -> Result<(), Fail> {
    const ROWS: &[Row] = &[
        Row(&[], PaysIn(5), NodeSent),
        Row(&[], PaysIn(0), NodeSent),
        Row(&[], PaysIn(5), NodeRefused(NodeFault::Short)),
        Row(&[], PaysIn(0), NodeRefused(NodeFault::Short)),
        Row(&[], PaysIn(5), ClientSent),
        Row(&[], PaysIn(5), Strays),
        Row(&[], Beats, NodeSent),
    ];
    are_wrong(&rt, 101, ROWS)
}

/// It is up, or falls at a restart over what its cell held or what the restart saves.
#[test]
fn a_site_can_refuse_and_fall(rt: HostRuntime) -> Result<(), Fail> {
    const ROWS: &[Row] = &[
        Row(&[], Restarts, SiteRefused(SiteFault::AlreadyUp)),
        Row(&[Crashes], Beats, SiteRefused(SiteFault::NotUp)),
        Row(&[Crashes], Restarts, Fell(SiteFault::CellFault, 0)),
        Row(&[Crashes], Restarts, Fell(SiteFault::NoMemory, 0)),
    ];
    are_right(&rt, 200, ROWS)
}

/// It takes a beat at which it sends to two others, refuses a restart while it is up, and falls
/// over no other value.
#[test]
fn a_site_cannot_have_done_so(rt: HostRuntime) -> Result<(), Fail> {
    const ROWS: &[Row] = &[
        Row(&[], Beats, SiteSent),
        Row(&[], Crashes, Drops(Why::Known)),
        Row(&[], Restarts, SiteSent),
        Row(&[Crashes], Beats, SiteSent),
        Row(&[], Beats, SiteRefused(SiteFault::NotUp)),
        Row(&[], Beats, SiteRefused(SiteFault::NoMemory)),
        Row(&[], Restarts, SiteRefused(SiteFault::NotUp)),
        Row(&[], Beats, Fell(SiteFault::NotUp, 0)),
        Row(&[], Beats, Fell(SiteFault::NoMemory, 1)),
        Row(&[], Restarts, Fell(SiteFault::NoMemory, 0)),
        Row(&[Crashes], Restarts, Fell(SiteFault::CellFault, 2)),
        Row(&[], Beats, NodeSent),
        Row(&[], Beats, Strays),
        Row(&[], PaysIn(5), SiteSent),
    ];
    are_wrong(&rt, 200, ROWS)
}

/// A client said again at these clocks what was lost, which was nothing.
fn again(alloc: Global, clocks: &[u64]) -> Result<Vec<Recorded<PartyEvent, PartyOutcome>>, Fail> {
    let mut all = Vec::new(alloc);
    for clock in clocks {
        all.push(recorded(alloc, *clock, SaysAgain, ClientSent))?;
    }
    Ok(all)
}

/// What an actor left becomes these records, with no seat.
fn put_history<A: Actor>(
    one: &mut Closed<A>,
    history: Result<Vec<Recorded<A::Event, A::Outcome>>, Fail>,
) -> Result<(), Fail> {
    one.history = history?;
    one.seats.clear();
    Ok(())
}

/// One more seat, of a number, has these receipts.
fn put_seat<A: Actor>(
    one: &mut Closed<A>,
    number: u16,
    receipts: Result<Vec<Recorded<A::Event, A::Outcome>>, Fail>,
) -> Result<(), Fail> {
    let seat = Seat::with_receipts(one.number, number, receipts?);
    one.seats.push(seat)?;
    Ok(())
}

/// What an actor left becomes records of these clocks, with receipts of these from two seats.
fn retime(
    alloc: Global,
    one: &mut Closed<Party>,
    history: &[u64],
    seats: [&[u64]; 2],
) -> Result<(), Fail> {
    let [first, second] = seats;
    put_history(one, again(alloc, history))?;
    put_seat(one, 0, again(alloc, first))?;
    put_seat(one, 1, again(alloc, second))
}

/// What each of these left becomes records of the clocks 1, 2 and 1, with receipts of 1, and of 1 and 2.
fn retime_each(alloc: Global, some: &mut [Closed<Party>]) -> Result<(), Fail> {
    for one in some {
        retime(alloc, one, &[1, 2, 1], [&[1], &[1, 2]])?;
    }
    Ok(())
}

/// What a client left of whom it is recorded so.
fn retimed<R: Wait + AllocGlobal>(rt: &R) -> Result<Vec<Closed<Party>>, Fail> {
    let mut some = alone(rt.alloc(), left(rt, 0, &[]))?;
    let came = retime_each(rt.alloc(), some.as_mut_slice());
    after(came, some)
}

/// Of two receipts of one record the first seat's goes first, though the other's would leave each
/// its own: what then is no seat's next is reported before the clock that stands still.
#[test]
fn a_receipt_is_missed_before_a_clock_is(rt: HostRuntime) -> Result<(), Fail> {
    let told = Finding::No {
        actor: 0,
        event: 2,
        why: AuditTest::Receipts,
    };
    are_judged(&rt, retimed(&rt), told)
}
