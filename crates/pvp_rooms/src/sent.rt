//! The test A1 of one envelope: whether its stamp's actor sent it then, in this place.
ghost use Rattle.std.specs.Prelude.{◌≡◌, ◌↔◌, IsTrue, length};
ghost use Rattle.pvp_rooms.specs.Histories.{IsRising};
ghost use Rattle.pvp_rooms.specs.Runs.{AreInOrder};
ghost use Rattle.pvp_rooms.specs.Verdicts.{ClocksRise};
ghost use Rattle.pvp_rooms.specs.Named.{IsPlaceOf, IsSentBy, IsSent, IsNamed};

use crate::audited::Audited;
use crate::{Closed, Recorded};
use pvp_wire::Stamp;

/// Where the event of this clock stands in a history, if anywhere. As clocks rise, it is found by halving.
pub fn place_at<E, O>(history: &[Recorded<E, O>], clock: u64) -> usize
    requires { IsRising history.now 0 }
    ensures { IsPlaceOf (λ r. r.clock) history.now clock result }
{
    history.partition_point(|r| r.clock < clock)
}

/// Where the actor of this number stands, if anywhere. As numbers rise, it is found by halving.
pub fn place_of<A: Audited>(closed: &[Closed<A>], number: u16) -> usize
    requires { AreInOrder closed.now }
    ensures { IsPlaceOf (λ c. c.number) closed.now number result }
{
    closed.partition_point(|one| one.number < number)
}

/// Whether one of the first events of an actor has the stamp's clock, and sent at its place what this event delivers.
fn is_sent_by<A: Audited>(one: &Closed<A>, upto: usize, stamp: Stamp, event: &A::Event) -> bool
    requires { IsRising one.now.history.items 0 }
    ensures { IsTrue result ↔ IsSentBy A.delivers A.sent
        one.now.history.items upto stamp event.now }
{
    let history = one.history.as_slice();
    let place = place_at(history, stamp.clock);
    match history.get(place) {
        Some(r) if place < upto && r.clock == stamp.clock => {
            A::is_sent(event, &r.outcome, stamp.index as usize)
        }
        _ => false,
    }
}

/// Whether the actor of the stamp's number sent so what this event delivers.
fn is_sent<A: Audited>(closed: &[Closed<A>], at: &[usize], stamp: Stamp, event: &A::Event) -> bool
    requires same { length at.now ≡ length closed.now }
    requires order { AreInOrder closed.now }
    requires clocks { ClocksRise closed.now }
    ensures { IsTrue result ↔ IsSent A.delivers A.sent closed.now at.now stamp event.now }
{
    let place = place_of(closed, stamp.actor);
    match closed.get(place) {
        Some(one) if one.number == stamp.actor => is_sent_by::<A>(one, at[place], stamp, event),
        _ => false,
    }
}

/// Whether an event delivers nothing, or what its stamp names.
pub fn is_named<A: Audited>(
    closed: &[Closed<A>],
    at: &[usize],
    actor: &A,
    event: &Recorded<A::Event, A::Outcome>,
) -> bool
    requires same { length at.now ≡ length closed.now }
    requires order { AreInOrder closed.now }
    requires clocks { ClocksRise closed.now }
    ensures { IsTrue result ↔ IsNamed A.delivers A.sent A.is_for closed.now
        at.now actor.now event.now }
{
    if !A::is_delivery(&event.event) {
        return true;
    }
    match event.stamp {
        None => false,
        Some(stamp) => {
            actor.is_for(&event.event) && is_sent::<A>(closed, at, stamp, &event.event)
        }
    }
}
