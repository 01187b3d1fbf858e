//! What an event delivers, and what an outcome sent.
ghost use Rattle.std.specs.Prelude.{◌≡◌, option_map, slice_get};
ghost use Rattle.pvp_parties.specs.Parties.{delivers, sent_envelopes};

use crate::party::{PartyEvent, PartyOutcome};
use headline::ClientEvent;
use pvp_book::Book;
use pvp_rooms::CameOf;
use rtgs_node::NodeEvent;
use vr_types::{Envelope, EventOf};

/// What an event delivers.
pub fn letter_of(event: &PartyEvent) -> Option<&Envelope<Book>>
    ensures { option_map (λ lent. lent.now) result ≡ delivers event.now }
{
    match event {
        PartyEvent::OfSite(EventOf::Deliver(envelope)) => Some(envelope),
        PartyEvent::OfNode(NodeEvent::Takes(envelope)) => Some(envelope),
        PartyEvent::OfClient(ClientEvent::Takes(envelope)) => Some(envelope),
        _ => None,
    }
}

/// What an outcome sent at a place, counted from 0.
pub fn letter_at(outcome: &PartyOutcome, at: usize) -> Option<&Envelope<Book>>
    ensures { option_map (λ lent. lent.now) result ≡ slice_get (sent_envelopes outcome.now) at }
{
    match outcome {
        PartyOutcome::OfSite(CameOf::Did { sent, .. }) => sent.get(at),
        PartyOutcome::OfNode(Ok(sent)) => sent.get(at),
        PartyOutcome::OfClient(Ok(sent)) => sent.get(at),
        _ => None,
    }
}
