//! How envelopes come to an actor of the bank.
use crate::party::{PartyEvent, PartyOf, PartyOutcome};
use headline::ClientEvent;
use pvp_book::Book;
use pvp_links::Served;
use pvp_rooms::CameOf;
use rtgs_node::NodeEvent;
use vr_types::{ActorId, BootCell, Envelope, EventOf};

impl<C: BootCell> Served for PartyOf<C> {
    ghost use Rattle.pvp_parties.specs.Parties.{delivery_event, sent_envelopes};

    ghost delivery = { delivery_event };

    ghost sent = { sent_envelopes };

    /// It comes as to the kind of actor that it is addressed to: to one of another kind it is a stray.
    fn deliver(envelope: Envelope<Book>) -> PartyEvent {
        match ActorId::of(envelope.to) {
            ActorId::Site(_) => PartyEvent::OfSite(EventOf::Deliver(envelope)),
            ActorId::Node(_) => PartyEvent::OfNode(NodeEvent::Takes(envelope)),
            ActorId::Client(_) => PartyEvent::OfClient(ClientEvent::Takes(envelope)),
        }
    }

    fn sent_envelopes(outcome: &PartyOutcome) -> &[Envelope<Book>] {
        match outcome {
            PartyOutcome::OfSite(CameOf::Did { sent, .. }) => sent.as_slice(),
            PartyOutcome::OfNode(Ok(sent)) => sent.as_slice(),
            PartyOutcome::OfClient(Ok(sent)) => sent.as_slice(),
            _ => &[],
        }
    }
}
