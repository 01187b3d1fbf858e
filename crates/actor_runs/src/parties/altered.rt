//! What one site left, altered in one place after the run, and where the verdict of its bank finds it.
use self::Other::{Beaten, Crashed};
use self::Swap::{Ends, Events, Seats};
use crate::parties::common::{Place, add, after, alone, are_judged, at_rest, close_after, let_go};
use fixtures::{Filed, Fresh};
use pvp_parties::{PartyEvent, PartyOf};
use pvp_rooms::{Actor, AuditTest, Closed, Finding};
use std::mem;
use std::process::Abort;
use std::sync::Wait;
use std::test::Fail;
use vr_types::{EventOf, MemCell};

/// What of two runs changes places.
#[derive(Clone, Copy)]
enum Swap {
    /// The ends.
    Ends,
    /// The last events.
    Events,
    /// The last seats, with all of their receipts.
    Seats,
}

/// What a site with two seats left that took a beat from each of these seats.
fn beaten<R: Wait + AllocGlobal, C: Fresh>(
    rt: &R,
    me: u16,
    seats: &[usize],
) -> Result<Closed<PartyOf<C>>, Fail> {
    let mut place = Place::<PartyOf<C>>::site_with_seats(rt.alloc(), me, 2)?;
    let came = beats(rt, &mut place, seats);
    close_after(came, place)
}

/// A site takes a beat from each of these seats.
fn beats<R: Wait + AllocGlobal, C: Fresh>(
    rt: &R,
    place: &mut Place<PartyOf<C>>,
    seats: &[usize],
) -> Result<(), Fail> {
    for seat in seats {
        let_go(place.post_from(rt, *seat, PartyEvent::OfSite(EventOf::Beat), None))?;
    }
    Ok(())
}

/// Another run of a site.
#[derive(Clone, Copy)]
enum Other {
    /// A site of this number with two seats took a beat from each of these.
    Beaten(u16, &'static [usize]),
    /// The first site crashed.
    Crashed,
}

/// What the site of another run left.
fn left<R: Wait + AllocGlobal, C: Fresh>(rt: &R, other: Other) -> Result<Closed<PartyOf<C>>, Fail> {
    match other {
        Beaten(me, seats) => beaten(rt, me, seats),
        Crashed => crashed(rt),
    }
}

fn put_beside<R: Wait + AllocGlobal, C: Fresh>(
    rt: &R,
    both: &mut Vec<Closed<PartyOf<C>>>,
    other: Other,
) -> Result<(), Fail> {
    add(both, beaten(rt, 0, &[0, 1]))?;
    add(both, left(rt, other))
}

/// What the first site left after a beat from each of its seats, and what another run of a site left.
fn beside<R: Wait + AllocGlobal, C: Fresh>(
    rt: &R,
    other: Other,
) -> Result<Vec<Closed<PartyOf<C>>>, Fail> {
    let mut both = Vec::new(rt.alloc());
    let came = put_beside(rt, &mut both, other);
    after(came, both)
}

/// The first of two runs, once what these are has changed places between them.
fn swapped<A: Actor>(
    both: Result<Vec<Closed<A>>, Fail>,
    swaps: &[Swap],
) -> Result<Vec<Closed<A>>, Fail> {
    let mut both = both?;
    swap_all(both.as_mut_slice(), swaps);
    both.truncate(1);
    Ok(both)
}

/// What these are of two runs changes places.
fn swap_all<A: Actor>(both: &mut [Closed<A>], swaps: &[Swap]) {
    if let [one, other] = both {
        for swap in swaps {
            swap_one(one, other, *swap);
        }
    }
}

fn swap_one<A: Actor>(one: &mut Closed<A>, other: &mut Closed<A>, swap: Swap) {
    match swap {
        Ends => mem::swap(&mut one.end, &mut other.end),
        Events => swap_last(&mut one.history, &mut other.history),
        Seats => swap_last(&mut one.seats, &mut other.seats),
    }
}

fn swap_last<T>(one: &mut Vec<T>, other: &mut Vec<T>) {
    if let (Some(mine), Some(theirs)) = (one.last_mut(), other.last_mut()) {
        mem::swap(mine, theirs);
    }
}

/// Once these have changed places between the first site and another run, its event of this place fails this test, where
/// the site is judged in its bank.
fn site_fails<R: Abort + Wait + AllocGlobal>(
    rt: &R,
    other: Other,
    swaps: &[Swap],
    event: usize,
    why: AuditTest,
) -> Result<(), Fail> {
    let told = Finding::No {
        actor: 200,
        event,
        why,
    };
    are_judged(rt, swapped(beside::<R, MemCell>(rt, other), swaps), told)?;
    are_judged(rt, swapped(beside::<R, Filed>(rt, other), swaps), told)
}

/// The receipt of the second beat is that of another site's, which sent nothing.
#[test]
fn another_receipt_is_told(rt: HostRuntime) -> Result<(), Fail> {
    site_fails(&rt, Beaten(1, &[0, 1]), &[Seats], 2, AuditTest::Receipts)
}

/// The second beat has clock 1, as one that was the first of another run.
#[test]
fn a_clock_that_stands_still_is_told(rt: HostRuntime) -> Result<(), Fail> {
    site_fails(&rt, Beaten(0, &[1]), &[Seats, Events], 2, AuditTest::Clock)
}

/// The second beat sent nothing, as a backup's.
#[test]
fn missing_envelopes_are_told(rt: HostRuntime) -> Result<(), Fail> {
    site_fails(
        &rt,
        Beaten(1, &[0, 1]),
        &[Seats, Events],
        2,
        AuditTest::Answered,
    )
}

/// What the first site left that crashed.
fn crashed<R: Wait + AllocGlobal, C: Fresh>(rt: &R) -> Result<Closed<PartyOf<C>>, Fail> {
    let mut place = Place::<PartyOf<C>>::site(rt.alloc(), 0)?;
    let came = place.take(rt, PartyEvent::OfSite(EventOf::Crash));
    close_after(came, place)
}

/// The end is that of the same site after a crash.
#[test]
fn another_end_is_told(rt: HostRuntime) -> Result<(), Fail> {
    site_fails(&rt, Crashed, &[Ends], 0, AuditTest::End)
}

/// What a backup left that took a beat of a first site, sent at clock 5.
fn reached<R: Wait + AllocGlobal, C: Fresh>(rt: &R) -> Result<Closed<PartyOf<C>>, Fail> {
    let mut backup = Place::<PartyOf<C>>::site(rt.alloc(), 1)?;
    let came = reach(rt, Place::<PartyOf<C>>::site(rt.alloc(), 0), &mut backup);
    close_after(came, backup)
}

fn reach<R: Wait + AllocGlobal, C: Fresh>(
    rt: &R,
    primary: Result<Place<PartyOf<C>>, Fail>,
    backup: &mut Place<PartyOf<C>>,
) -> Result<(), Fail> {
    let beat = primary?.post(rt, PartyEvent::OfSite(EventOf::Beat), None);
    let_go(backup.deliver(rt, 200, at_clock_5(beat)))
}

/// What came, as if it had been taken at clock 5.
fn at_clock_5<O: Drop>(came: Result<(u64, O), Fail>) -> Result<(u64, O), Fail> {
    let (_, outcome) = came?;
    Ok((5, outcome))
}

fn put_strangers<R: Wait + AllocGlobal, C: Fresh>(
    rt: &R,
    both: &mut Vec<Closed<PartyOf<C>>>,
) -> Result<(), Fail> {
    add(both, at_rest(Place::<PartyOf<C>>::site(rt.alloc(), 0)))?;
    add(both, reached(rt))
}

/// What a first site left to which nothing happened, and a backup that took a beat of another first site.
fn strangers<R: Wait + AllocGlobal, C: Fresh>(rt: &R) -> Result<Vec<Closed<PartyOf<C>>>, Fail> {
    let mut both = Vec::new(rt.alloc());
    let came = put_strangers(rt, &mut both);
    after(came, both)
}

/// What is delivered was sent by a first site that is not the one whose history is judged: that one took nothing.
#[test]
fn a_stamp_of_no_event_is_told(rt: HostRuntime) -> Result<(), Fail> {
    let told = Finding::No {
        actor: 201,
        event: 1,
        why: AuditTest::Stamped,
    };
    are_judged(&rt, strangers::<_, MemCell>(&rt), told)?;
    are_judged(&rt, strangers::<_, Filed>(&rt), told)
}

/// What an actor left, but for what stands behind the first event of its history.
fn shortened<A: Actor>(left: Result<Closed<A>, Fail>) -> Result<Closed<A>, Fail> {
    let mut left = left?;
    left.history.truncate(1);
    Ok(left)
}

/// A receipt is left over, since the history has lost its last event: that is of no event.
#[test]
fn a_left_over_receipt_is_told(rt: HostRuntime) -> Result<(), Fail> {
    let told = Finding::No {
        actor: 200,
        event: 0,
        why: AuditTest::Receipts,
    };
    let left = shortened(beaten::<_, MemCell>(&rt, 0, &[0, 1]));
    are_judged(&rt, alone(rt.alloc(), left), told)?;
    let left = shortened(beaten::<_, Filed>(&rt, 0, &[0, 1]));
    are_judged(&rt, alone(rt.alloc(), left), told)
}
