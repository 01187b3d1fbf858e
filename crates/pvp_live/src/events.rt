//! What a line of a live script posts, and at which actor.
ghost use Rattle.std.specs.Prelude.{◌≡◌};
ghost use Rattle.vr_types.specs.Actors.{number_of};
ghost use Rattle.vr_types.specs.declared.actors.ActorId.TheVariants.{Node, Site};
ghost use Rattle.pvp_live.specs.Events.{statement_post, beat_at};

use headline::ClientEvent;
use pvp_book::Book;
use pvp_parties::PartyEvent;
use pvp_text::script::Statement;
use pvp_types::Step;
use rtgs_node::NodeEvent;
use vr_types::{ActorId, Event, EventOf};

/// An event for the actor of a number.
#[derive(Drop)]
pub struct Post {
    pub actor: u16,
    pub event: PartyEvent,
}

/// What a line posts; a line of another kind of script, and one by which time passes, posts nothing.
pub fn statement_post(statement: Statement) -> Option<Post>
    ensures { result ≡ statement_post statement }
{
    let Statement::Do(step) = statement else {
        return None;
    };
    Some(match step {
        Step::Submit { client, cmd } => Post {
            actor: client,
            event: PartyEvent::OfClient(ClientEvent::Submits(cmd)),
        },
        Step::PayIn { ccy, member, amt } => at_node(ccy, NodeEvent::PaysIn { member, amt }),
        Step::Close { ccy, member } => at_node(ccy, NodeEvent::Closes(member)),
        Step::Beat(actor) => beat_at(actor),
        Step::Timer(site) => at_site(site, EventOf::Timer),
        Step::Crash(site) => at_site(site, EventOf::Crash),
        Step::Restart(site) => at_site(site, EventOf::Restart),
        Step::Deliver(_) => return None,
    })
}

/// An event for the node of a currency.
fn at_node(ccy: u8, event: NodeEvent) -> Post
    ensures { result ≡ record { actor = number_of (Node ccy); event = PartyEvent.OfNode event } }
{
    Post {
        actor: ActorId::Node(u16::from(ccy)).number(),
        event: PartyEvent::OfNode(event),
    }
}

/// An event for a site.
fn at_site(site: u16, event: Event<Book>) -> Post
    ensures { result ≡ record { actor = number_of (Site site); event = PartyEvent.OfSite event } }
{
    Post {
        actor: ActorId::Site(site).number(),
        event: PartyEvent::OfSite(event),
    }
}

/// A beat of the actor of a number.
fn beat_at(actor: u16) -> Post
    ensures { result ≡ beat_at actor }
{
    let event = match ActorId::of(actor) {
        ActorId::Site(_) => PartyEvent::OfSite(EventOf::Beat),
        ActorId::Node(_) => PartyEvent::OfNode(NodeEvent::Beats),
        ActorId::Client(_) => PartyEvent::OfClient(ClientEvent::Beats),
    };
    Post { actor, event }
}
