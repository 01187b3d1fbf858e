//! What a record says happened.
ghost use Rattle.std.specs.Prelude.{◌≡◌};
ghost use Rattle.vr_types.specs.declared.event.EventOf.TheVariants.{Deliver};
ghost use Rattle.rtgs_node.specs.declared.event.NodeEvent.TheVariants as node_event;
ghost use Rattle.headline.specs.declared.step.ClientEvent.TheVariants as client_event;
ghost use Rattle.pvp_parties.specs.declared.party.PartyEvent.TheVariants.{OfSite, OfNode, OfClient};
ghost use Rattle.pvp_wire.specs.Reading.{Finds};
ghost use Rattle.pvp_journal.specs.Reading.{Tells, delivered_at, command_in, submitted_at, pays_in_at, closes_at, submits_at, event_at};

use crate::sent::{BankEnvelope, sent_at, stamped_at};
use headline::ClientEvent;
use pvp_parties::PartyEvent;
use pvp_types::Cmd;
use pvp_wire::{Stamp, WireFault, u16_at, u64_at};
use rtgs_node::NodeEvent;
use std::alloc::Global;
use vr_types::{EventOf, FIRST_SITE, MsgOf, RequestOf};

/// What happened, and the stamp of what was delivered.
pub(crate) type Happened = (PartyEvent, Option<Stamp>);

/// An event: its tag, then its fields.
#[tactic(auto, unfolding(crate::specs::Reading::event_at))]
pub(crate) fn event_at(
    alloc: Global,
    me: u16,
    clock: u64,
    bytes: &[u8],
) -> Result<(Happened, &[u8]), WireFault>
    ensures { Tells (λ x. (x.0, x.1.now)) result (event_at me clock bytes.now) }
{
    match bytes {
        [] => Err(WireFault::Length),
        [1, rest @ ..] => to_site(alloc, rest),
        [2, rest @ ..] => Ok(((PartyEvent::OfSite(EventOf::Timer), None), rest)),
        [3, rest @ ..] => Ok(((PartyEvent::OfSite(EventOf::Beat), None), rest)),
        [4, rest @ ..] => Ok(((PartyEvent::OfSite(EventOf::Crash), None), rest)),
        [5, rest @ ..] => Ok(((PartyEvent::OfSite(EventOf::Restart), None), rest)),
        [6, rest @ ..] => to_node(alloc, rest),
        [7, rest @ ..] => Ok(((PartyEvent::OfNode(NodeEvent::Beats), None), rest)),
        [8, rest @ ..] => pays_in_at(rest),
        [9, rest @ ..] => closes_at(rest),
        [10, rest @ ..] => to_client(alloc, rest),
        [11, rest @ ..] => Ok(((PartyEvent::OfClient(ClientEvent::Beats), None), rest)),
        [12, rest @ ..] => submits_at(alloc, me, clock, rest),
        [_, ..] => Err(WireFault::Field),
    }
}

/// What was delivered to a site.
fn to_site(alloc: Global, bytes: &[u8]) -> Result<(Happened, &[u8]), WireFault>
    ensures { Tells (λ x. (x.0, x.1.now)) result
        (delivered_at (λ envelope. OfSite (Deliver envelope)) bytes.now) }
{
    let (stamped, rest) = stamped_at(alloc, bytes)?;
    let event = PartyEvent::OfSite(EventOf::Deliver(stamped.envelope));
    Ok(((event, Some(stamped.stamp)), rest))
}

/// What was delivered to a node.
fn to_node(alloc: Global, bytes: &[u8]) -> Result<(Happened, &[u8]), WireFault>
    ensures { Tells (λ x. (x.0, x.1.now)) result
        (delivered_at (λ envelope. OfNode (node_event.Takes envelope)) bytes.now) }
{
    let (stamped, rest) = stamped_at(alloc, bytes)?;
    let event = PartyEvent::OfNode(NodeEvent::Takes(stamped.envelope));
    Ok(((event, Some(stamped.stamp)), rest))
}

/// What was delivered to a client.
fn to_client(alloc: Global, bytes: &[u8]) -> Result<(Happened, &[u8]), WireFault>
    ensures { Tells (λ x. (x.0, x.1.now)) result
        (delivered_at (λ envelope. OfClient (client_event.Takes envelope)) bytes.now) }
{
    let (stamped, rest) = stamped_at(alloc, bytes)?;
    let event = PartyEvent::OfClient(ClientEvent::Takes(stamped.envelope));
    Ok(((event, Some(stamped.stamp)), rest))
}

/// A pay-in at a node.
fn pays_in_at(bytes: &[u8]) -> Result<(Happened, &[u8]), WireFault>
    ensures { Finds (λ x. (x.0, x.1.now)) result (pays_in_at bytes.now) }
{
    let (member, rest) = u16_at(bytes)?;
    let (amt, rest) = u64_at(rest)?;
    Ok((
        (PartyEvent::OfNode(NodeEvent::PaysIn { member, amt }), None),
        rest,
    ))
}

/// That a member's account at a node is closed.
fn closes_at(bytes: &[u8]) -> Result<(Happened, &[u8]), WireFault>
    ensures { Finds (λ x. (x.0, x.1.now)) result (closes_at bytes.now) }
{
    let (member, rest) = u16_at(bytes)?;
    Ok(((PartyEvent::OfNode(NodeEvent::Closes(member)), None), rest))
}

/// That a client asks for something.
fn submits_at(
    alloc: Global,
    me: u16,
    clock: u64,
    bytes: &[u8],
) -> Result<(Happened, &[u8]), WireFault>
    ensures { Tells (λ x. (x.0, x.1.now)) result (submits_at me clock bytes.now) }
{
    let (cmd, rest) = submitted_at(alloc, me, clock, bytes)?;
    Ok((
        (PartyEvent::OfClient(ClientEvent::Submits(cmd)), None),
        rest,
    ))
}

/// What a client asks for: a command, in a request of number 0 to the first site.
#[tactic(auto, unfolding(crate::specs::Reading::submitted_at))]
fn submitted_at(alloc: Global, me: u16, clock: u64, bytes: &[u8]) -> Result<(Cmd, &[u8]), WireFault>
    ensures { Tells (λ x. (x.0, x.1.now)) result (submitted_at me clock bytes.now) }
{
    let (envelope, rest) = sent_at(alloc, me, clock, 0, bytes)?;
    let cmd = command_in(&envelope)?;
    Ok((cmd, rest))
}

/// The command of such a request.
fn command_in(envelope: &BankEnvelope) -> Result<Cmd, WireFault>
    ensures { Finds (λ x. x) result (command_in envelope.now.to envelope.now.msg) }
{
    match &envelope.msg {
        MsgOf::Request(RequestOf { number: 0, cmd }) if envelope.to == FIRST_SITE => Ok(*cmd),
        _ => Err(WireFault::Field),
    }
}
