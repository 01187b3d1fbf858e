//! What a journal says of how an event came out. What an actor sent is not written down: whoever takes the event again
//! finds it.
ghost use Rattle.std.specs.Prelude.{◌≡◌, ◌↔◌, IfOk, IfSome, IsTrue, Option};
ghost use Rattle.vr_types.specs.declared.cell.Boot.{Boot as AnyBoot};
ghost use Rattle.pvp_parties.specs.Made.{memory};
ghost use Rattle.pvp_parties.specs.Parties.{PartyState, Opens, Shows};
ghost use Rattle.pvp_journal.specs.declared.summary.Summary.TheVariants.{Sent as SentSo};
ghost use Rattle.pvp_journal.specs.Summaries.{IsWant, Retakes, SumsUp, count_of, summary_of};

use crate::sent::BankEnvelope;
use headline::ClientFault;
use pvp_parties::{Party, PartyEvent, PartyOutcome};
use pvp_rooms::{Actor, CameOf, Recorded};
use rtgs_node::NodeFault;
use std::alloc::{AllocError, Global};
use vr_types::{Why, is_same_why};

/// An event that an actor took, at which clock, and how it came out.
pub type Taken = Recorded<PartyEvent, PartyOutcome>;

/// What a journal says of how an event came out.
#[derive(Drop)]
pub enum Summary {
    /// All of it. Version 1 has each outcome so, and version 2 those of events at which nothing was done.
    Whole(PartyOutcome),
    /// The actor took its step: how many envelopes it sent, where 255 stands for as many or more, and why it dropped the
    /// event.
    Sent { count: u8, dropped: Option<Why> },
}

/// How many envelopes were sent: 255 stands for as many or more.
pub(crate) fn count_of(sent: &[BankEnvelope]) -> u8
    ensures { result ≡ count_of sent.now }
{
    sent.len().min(255) as u8
}

/// Takes an event again of which a journal says that so much was sent, and answers how it came out. `None` where it cannot
/// have come out so, `Err` where memory is refused: then the actor may only be dropped.
pub fn take_again(
    actor: &mut Party,
    alloc: Global,
    event: &PartyEvent,
    count: u8,
    dropped: Option<Why>,
) -> Result<Option<PartyOutcome>, AllocError>
    ensures step { IfOk result (λ found. (x : PartyState) → Shows memory actor.old x →
        Retakes x event.now (SentSo count dropped) found (Shows memory actor.new)) }
    ensures summed { IfOk result (λ found. IfSome found (SumsUp (SentSo count dropped))) }
    ensures opens { (opening : Option AnyBoot) (x : PartyState) → Opens actor.new opening x →
        Opens actor.old opening x }
{
    let copy = Party::copy_event(alloc, event)?;
    let outcome = actor.take(alloc, copy);
    if is_want(&outcome) {
        return Err(AllocError);
    }
    if !sums_up(count, dropped, &outcome) {
        return Ok(None);
    }
    Ok(Some(outcome))
}

/// Whether an outcome is summed up so.
fn sums_up(count: u8, dropped: Option<Why>, outcome: &PartyOutcome) -> bool
    ensures { IsTrue result ↔ (summary_of outcome.now ≡ SentSo count dropped) }
{
    match outcome {
        PartyOutcome::OfSite(CameOf::Did { sent, dropped: why }) => {
            count_of(sent.as_slice()) == count && is_same_why(*why, dropped)
        }
        PartyOutcome::OfNode(Ok(sent)) => count_of(sent.as_slice()) == count && dropped.is_none(),
        PartyOutcome::OfClient(Ok(sent)) => {
            count_of(sent.as_slice()) == count && dropped.is_none()
        }
        _ => false,
    }
}

/// Whether an outcome is a fall, or that memory was refused.
fn is_want(outcome: &PartyOutcome) -> bool
    ensures { IsTrue result ↔ IsWant outcome.now }
{
    match outcome {
        PartyOutcome::OfSite(CameOf::Fell { .. }) => true,
        PartyOutcome::OfNode(Err(NodeFault::NoMemory)) => true,
        PartyOutcome::OfClient(Err(ClientFault::NoMemory)) => true,
        _ => false,
    }
}
