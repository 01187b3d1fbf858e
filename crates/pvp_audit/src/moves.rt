//! Which move of a world an event of an actor was.
ghost use Rattle.std.specs.Prelude.{◌≡◌};
ghost use Rattle.pvp_audit.specs.Moves.{move_of, site_step, node_step, client_step, currency_of_node};

use headline::{ClientEvent, Move};
use pvp_book::Book;
use pvp_parties::{PartyEvent, PartyOutcome};
use pvp_rooms::{CameOf, Recorded};
use pvp_types::Step;
use rtgs_node::NodeEvent;
use vr_types::{Event, EventOf, FIRST_NODE, FIRST_SITE};

/// The move that an event of an actor was, where it was one; an event that was refused is none. `number` is that of the
/// envelope that the event delivers.
pub fn move_of(
    actor: u16,
    taken: &Recorded<PartyEvent, PartyOutcome>,
    number: usize,
) -> Option<Move>
    ensures { result ≡ move_of actor taken.now number }
{
    match (&taken.event, &taken.outcome) {
        (PartyEvent::OfSite(event), PartyOutcome::OfSite(came)) => {
            let step = site_step(actor, event, number);
            match came {
                CameOf::Did { .. } => Some(Move::Takes(step)),
                CameOf::Fell { cell, .. } => Some(Move::Falls(step, *cell)),
                CameOf::Refused(_) => None,
            }
        }
        (PartyEvent::OfNode(event), PartyOutcome::OfNode(Ok(_))) => {
            Some(Move::Takes(node_step(actor, event, number)))
        }
        (PartyEvent::OfClient(event), PartyOutcome::OfClient(Ok(_))) => {
            Some(Move::Takes(client_step(actor, event, number)))
        }
        _ => None,
    }
}

/// The step that an event of a site is.
pub fn site_step(actor: u16, event: &Event<Book>, number: usize) -> Step
    ensures { result ≡ site_step actor event.now number }
{
    let site = actor.saturating_sub(FIRST_SITE);
    match event {
        EventOf::Deliver(_) => Step::Deliver(number),
        EventOf::Timer => Step::Timer(site),
        EventOf::Beat => Step::Beat(actor),
        EventOf::Crash => Step::Crash(site),
        EventOf::Restart => Step::Restart(site),
    }
}

/// The step that an event of a node is.
pub fn node_step(actor: u16, event: &NodeEvent, number: usize) -> Step
    ensures { result ≡ node_step actor event.now number }
{
    let ccy = currency_of_node(actor);
    match event {
        NodeEvent::PaysIn { member, amt } => Step::PayIn {
            ccy,
            member: *member,
            amt: *amt,
        },
        NodeEvent::Closes(member) => Step::Close {
            ccy,
            member: *member,
        },
        NodeEvent::Takes(_) => Step::Deliver(number),
        NodeEvent::Beats => Step::Beat(actor),
    }
}

/// The step that an event of a client is.
pub fn client_step(actor: u16, event: &ClientEvent, number: usize) -> Step
    ensures { result ≡ client_step actor event.now number }
{
    match event {
        ClientEvent::Submits(cmd) => Step::Submit {
            client: actor,
            cmd: *cmd,
        },
        ClientEvent::Takes(_) => Step::Deliver(number),
        ClientEvent::Beats => Step::Beat(actor),
    }
}

/// The currency of a node's number.
pub fn currency_of_node(number: u16) -> u8
    ensures { result ≡ currency_of_node number }
{
    u8::try_from(number.saturating_sub(FIRST_NODE)).unwrap_or(u8::MAX)
}
