//! Actors to which the bank's envelopes are delivered.
ghost use Rattle.std.specs.Prelude.{◌≡◌, List};
ghost use Rattle.rtgs_node.specs.Node.{Envelope as AnyEnvelope};

use headline::{ClientEvent, ClientFault};
use pvp_book::Book;
use pvp_rooms::{Actor, Came, CameOf, Told};
use pvp_world::Client;
use rtgs_node::{Node, NodeEvent, NodeFault};
use vr_site::Replica;
use vr_types::{BootCell, Envelope, Event, EventOf};

/// An actor at which frames can be posted.
pub trait Served: Actor {
    /// The event by which an envelope comes.
    ghost delivery: { AnyEnvelope → Self.Event };

    /// What was sent where an event came out so.
    ghost sent: { Self.Outcome → List AnyEnvelope };

    fn deliver(envelope: Envelope<Book>) -> Self::Event
        ensures { result ≡ delivery envelope };

    fn sent_envelopes(outcome: &Self::Outcome) -> &[Envelope<Book>]
        ensures { result.now ≡ sent outcome.now };
}

impl<C: BootCell> Served for Replica<Book, C> {
    ghost use Rattle.vr_types.specs.declared.event.EventOf.TheVariants.{Deliver};
    ghost use Rattle.pvp_links.specs.Sent.{sent_by_site};

    ghost delivery = { λ envelope. Deliver envelope };

    ghost sent = { λ came. sent_by_site came };

    fn deliver(envelope: Envelope<Book>) -> Event<Book> {
        EventOf::Deliver(envelope)
    }

    fn sent_envelopes(came: &Came<Book>) -> &[Envelope<Book>] {
        match came {
            CameOf::Did { sent, .. } => sent.as_slice(),
            CameOf::Refused(_) | CameOf::Fell { .. } => &[],
        }
    }
}

impl Served for Node {
    ghost use Rattle.rtgs_node.specs.declared.event.NodeEvent.TheVariants as node;
    ghost use Rattle.pvp_links.specs.Sent.{sent_as_told};

    ghost delivery = { λ envelope. node.Takes envelope };

    ghost sent = { λ told. sent_as_told told };

    fn deliver(envelope: Envelope<Book>) -> NodeEvent {
        NodeEvent::Takes(envelope)
    }

    fn sent_envelopes(told: &Told<NodeFault>) -> &[Envelope<Book>] {
        match told {
            Ok(sent) => sent.as_slice(),
            Err(_) => &[],
        }
    }
}

impl Served for Client {
    ghost use Rattle.headline.specs.declared.step.ClientEvent.TheVariants as client;
    ghost use Rattle.pvp_links.specs.Sent.{sent_as_told};

    ghost delivery = { λ envelope. client.Takes envelope };

    ghost sent = { λ told. sent_as_told told };

    fn deliver(envelope: Envelope<Book>) -> ClientEvent {
        ClientEvent::Takes(envelope)
    }

    fn sent_envelopes(told: &Told<ClientFault>) -> &[Envelope<Book>] {
        match told {
            Ok(sent) => sent.as_slice(),
            Err(_) => &[],
        }
    }
}
