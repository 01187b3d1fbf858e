//! The test A5: the receipts of an actor's seats are its history.
ghost use Rattle.std.specs.Prelude.{◌≡◌, ◌≢◌, ℕ, ◌+◌, ◌<◌, ◌≤◌, ◌↔◌, IsTrue, IfOk, IfSome, IfNone, Option, Some, length, slice_get, slice_index, replicate};
ghost use Rattle.pvp_rooms.specs.Seats.{Held};
ghost use Rattle.pvp_rooms.specs.Verdicts.{AreReceived, ReceiptsFail};
ghost use Rattle.pvp_rooms.specs.Together.{IsNext};

use crate::audited::Audited;
use crate::{Recorded, Seat};
use pvp_wire::Stamp;
use std::alloc::{AllocError, Global};

/// Tests that the receipts of the seats, in each seat's order, are together the history.
/// Otherwise it answers the number of the first event that is no seat's next receipt, or 0 where receipts are left over.
pub fn first_unreceipted<A: Audited>(
    alloc: Global,
    history: &[Recorded<A::Event, A::Outcome>],
    seats: &[Seat<A::Event, A::Outcome>],
) -> Result<Option<usize>, AllocError>
    ensures none { IfOk result (λ found. IfNone found (AreReceived history.now seats.now)) }
    ensures some { IfOk result (λ found.
        IfSome found (λ event. ReceiptsFail history.now seats.now event)) }
{
    let mut at = zeros(alloc, seats.len())?;
    let mut done = 0;
    while done < history.len() {
        match next_seat::<A>(seats, at.as_slice(), &history[done]) {
            None => return Ok(Some(done + 1)),
            Some(k) => at[k] += 1,
        }
        done += 1;
    }
    for k in 0..seats.len() {
        if at[k] != seats[k].receipts().len() {
            return Ok(Some(0));
        }
    }
    Ok(None)
}

/// So many zeros. `Err` where memory is refused.
pub fn zeros(alloc: Global, n: usize) -> Result<Vec<usize>, AllocError>
    ensures { IfOk result (λ at. at.items ≡ replicate n 0) }
{
    Ok(vec![in alloc; 0usize; n]?)
}

/// The lowest seat whose next receipt is this event.
fn next_seat<A: Audited>(
    seats: &[Seat<A::Event, A::Outcome>],
    at: &[usize],
    event: &Recorded<A::Event, A::Outcome>,
) -> Option<usize>
    requires { length at.now ≡ length seats.now }
    ensures next { IfSome result (λ k. IsNext seats.now at.now event.now k) }
    ensures lowest { IfSome result (λ k. (j : ℕ) → j < k → ¬ IsNext seats.now at.now event.now j) }
    ensures none { IfNone result ((j : ℕ) → ¬ IsNext seats.now at.now event.now j) }
{
    for k in 0..seats.len() {
        let receipts = seats[k].receipts();
        if at[k] < receipts.len() && same_recorded::<A>(&receipts[at[k]], event) {
            return Some(k);
        }
    }
    None
}

/// Whether two records say the same.
pub fn same_recorded<A: Audited>(
    a: &Recorded<A::Event, A::Outcome>,
    b: &Recorded<A::Event, A::Outcome>,
) -> bool
    ensures { IsTrue result ↔ (a.now ≡ b.now) }
{
    a.clock == b.clock
        && same_stamp(a.stamp, b.stamp)
        && A::same_event(&a.event, &b.event)
        && A::same_outcome(&a.outcome, &b.outcome)
}

fn same_stamp(a: Option<Stamp>, b: Option<Stamp>) -> bool
    ensures { IsTrue result ↔ (a ≡ b) }
{
    match (a, b) {
        (None, None) => true,
        (Some(x), Some(y)) => x.actor == y.actor && x.clock == y.clock && x.index == y.index,
        (None, Some(_)) => false,
        (Some(_), None) => false,
    }
}
