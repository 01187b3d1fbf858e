//! The tests of an audit, and those that look at one actor alone.
ghost use Rattle.std.specs.Prelude.{IfOk, IfSome, IfNone};
ghost use Rattle.pvp_rooms.specs.Alone.{AloneNo};
ghost use Rattle.pvp_rooms.specs.Verdicts.{HoldOfAll, IsAlone, HasRisingClocks, ClocksRise, ClockFails, FailsAlone};

use crate::Closed;
use crate::audited::Audited;
use crate::clocks::check_clocks;
use crate::receipts::first_unreceipted;
use std::alloc::{AllocError, Global};

/// Which test of an audit fails.
#[derive(Clone, Copy, Debug, PartialEq, Eq)]
pub enum AuditTest {
    /// A1: what is delivered is not what its stamp names, or may not come to this actor.
    Stamped,
    /// A2: a clock is not above the one before it and above its stamp's.
    Clock,
    /// A3: the event cannot come out as it is recorded.
    Answered,
    /// A4: the end state does not read like the replay's.
    End,
    /// A5: an event is no seat's next receipt, or a receipt is left over.
    Receipts,
    /// A6: memory was refused.
    NoMemory,
}

/// What an audit says, in definitions and tests. Calls answer a `Verdict` of `pvp_audit`.
#[derive(Clone, Copy, Debug, PartialEq, Eq)]
pub enum Finding {
    /// All that the actors left is one run.
    Yes,
    /// This test fails at this event of this actor, counted from 1, or at 0 where it is of no event.
    No {
        actor: u16,
        event: usize,
        why: AuditTest,
    },
}

/// The first actor, in order, whose clocks do not rise, and the event, counted from 1.
pub fn first_clock<A: Audited>(closed: &[Closed<A>]) -> Option<(u16, usize)>
    ensures some { IfSome result (λ at. FailsAlone HasRisingClocks closed.now at.0
        (λ c. ClockFails c.history.items at.1)) }
    ensures none { IfNone result (ClocksRise closed.now) }
{
    for k in 0..closed.len() {
        let one = &closed[k];
        if let Err(at) = check_clocks(one.history.as_slice()) {
            return Some((one.number, at + 1));
        }
    }
    None
}

/// The first actor, in order, of which a test of its own fails, the event, counted from 1 or 0 where it is of none, and
/// the test: its receipts are tested before its clocks. `Err` where memory is refused.
pub fn first_alone<A: Audited>(
    alloc: Global,
    closed: &[Closed<A>],
) -> Result<Option<(u16, usize, AuditTest)>, AllocError>
    ensures some { IfOk result (λ found. IfSome found (λ no. AloneNo closed.now no.0 no.1 no.2)) }
    ensures none { IfOk result (λ found. IfNone found (HoldOfAll closed.now (λ _ c. IsAlone c))) }
{
    for k in 0..closed.len() {
        let one = &closed[k];
        match first_unreceipted::<A>(alloc, one.history.as_slice(), one.seats.as_slice()) {
            Err(refused) => return Err(refused),
            Ok(Some(event)) => return Ok(Some((one.number, event, AuditTest::Receipts))),
            Ok(None) => {}
        }
        if let Err(at) = check_clocks(one.history.as_slice()) {
            return Ok(Some((one.number, at + 1, AuditTest::Clock)));
        }
    }
    Ok(None)
}
