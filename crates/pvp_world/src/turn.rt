//! Which actor a step is for.
ghost use Rattle.std.specs.Prelude.{◌≡◌};
ghost use Rattle.vr_types.specs.declared.event.EventOf.TheVariants.{Beat};
ghost use Rattle.rtgs_node.specs.declared.event.NodeEvent.TheVariants as node;
ghost use Rattle.headline.specs.declared.step.ClientEvent.TheVariants as client;
ghost use Rattle.headline.specs.Bank.{turn_of, delivery};

use headline::{ClientEvent, Turn};
use pvp_book::Book;
use rtgs_node::NodeEvent;
use vr_types::{ActorId, Envelope, EventOf};

/// An envelope comes to the actor that it is addressed to.
pub fn delivery(envelope: Envelope<Book>) -> Turn
    ensures { result ≡ delivery envelope }
{
    match ActorId::of(envelope.to) {
        ActorId::Site(site) => Turn::OfSite(site, EventOf::Deliver(envelope)),
        ActorId::Node(ccy) => Turn::OfNode(ccy, NodeEvent::Takes(envelope)),
        ActorId::Client(client) => Turn::OfClient(client, ClientEvent::Takes(envelope)),
    }
}

/// It is time for an actor to send again what may have been lost.
pub fn beat(actor: u16) -> Turn
    ensures { result ≡ turn_of actor Beat node.Beats client.Beats }
{
    match ActorId::of(actor) {
        ActorId::Site(site) => Turn::OfSite(site, EventOf::Beat),
        ActorId::Node(ccy) => Turn::OfNode(ccy, NodeEvent::Beats),
        ActorId::Client(client) => Turn::OfClient(client, ClientEvent::Beats),
    }
}
