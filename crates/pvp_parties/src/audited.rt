//! An actor of the bank whose history can be replayed.
ghost use Rattle.std.specs.Prelude.{◌≡◌, ◌↔◌, IsTrue};

use crate::letters::{letter_at, letter_of};
use crate::party::{Party, PartyEvent, PartyOf, PartyOutcome};
use crate::told::{
    same_came, same_client_event, same_client_told, same_node_event, same_node_told,
    same_site_event,
};
use pvp_book::Book;
use pvp_rooms::Audited;
use std::alloc::{AllocError, Global};
use vr_types::is_same_envelope;

impl Audited for Party {
    ghost use Rattle.rtgs_node.specs.Node.{Envelope};
    ghost use Rattle.pvp_parties.specs.Parties.{delivers, sent_envelopes, is_for};

    ghost Letter = { Envelope };

    ghost delivers = { delivers };

    ghost sent = { sent_envelopes };

    ghost is_for = { is_for };

    fn follow(
        &mut self,
        alloc: Global,
        event: &PartyEvent,
        outcome: &PartyOutcome,
    ) -> Result<bool, AllocError> {
        match self {
            PartyOf::Site(site) => match event {
                PartyEvent::OfSite(event) => match outcome {
                    PartyOutcome::OfSite(came) => site.follow(alloc, event, came),
                    _ => Ok(false),
                },
                _ => Ok(is_stray(outcome)),
            },
            PartyOf::Node(node) => match event {
                PartyEvent::OfNode(event) => match outcome {
                    PartyOutcome::OfNode(told) => node.follow(alloc, event, told),
                    _ => Ok(false),
                },
                _ => Ok(is_stray(outcome)),
            },
            PartyOf::Client(client) => match event {
                PartyEvent::OfClient(event) => match outcome {
                    PartyOutcome::OfClient(told) => client.follow(alloc, event, told),
                    _ => Ok(false),
                },
                _ => Ok(is_stray(outcome)),
            },
        }
    }

    fn same_event(a: &PartyEvent, b: &PartyEvent) -> bool {
        match (a, b) {
            (PartyEvent::OfSite(x), PartyEvent::OfSite(y)) => same_site_event(x, y),
            (PartyEvent::OfNode(x), PartyEvent::OfNode(y)) => same_node_event(x, y),
            (PartyEvent::OfClient(x), PartyEvent::OfClient(y)) => same_client_event(x, y),
            _ => false,
        }
    }

    fn same_outcome(a: &PartyOutcome, b: &PartyOutcome) -> bool {
        match (a, b) {
            (PartyOutcome::OfSite(x), PartyOutcome::OfSite(y)) => same_came(x, y),
            (PartyOutcome::OfNode(x), PartyOutcome::OfNode(y)) => same_node_told(x, y),
            (PartyOutcome::OfClient(x), PartyOutcome::OfClient(y)) => same_client_told(x, y),
            (PartyOutcome::Stray, PartyOutcome::Stray) => true,
            _ => false,
        }
    }

    fn is_delivery(event: &PartyEvent) -> bool {
        letter_of(event).is_some()
    }

    fn is_for(&self, event: &PartyEvent) -> bool {
        match (self, letter_of(event)) {
            (PartyOf::Client(client), Some(letter)) => letter.to == client.number(),
            _ => true,
        }
    }

    fn is_sent(event: &PartyEvent, outcome: &PartyOutcome, at: usize) -> bool {
        match (letter_of(event), letter_at(outcome, at)) {
            (Some(letter), Some(found)) => is_same_envelope::<Book>(letter, found),
            _ => false,
        }
    }
}

/// Whether an event came out as a stray.
fn is_stray(outcome: &PartyOutcome) -> bool
    ensures { IsTrue result ↔ (outcome.now ≡ PartyOutcome.Stray) }
{
    match outcome {
        PartyOutcome::Stray => true,
        _ => false,
    }
}
