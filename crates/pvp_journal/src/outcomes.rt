//! How a record says that an event came out.
ghost use Rattle.std.specs.Prelude.{◌≡◌};
ghost use Rattle.pvp_wire.specs.Reading.{Finds};
ghost use Rattle.pvp_journal.specs.Reading.{Tells, site_fault_at, node_fault_at, client_fault_at, why_at, did_at, refused_at, fell_at, node_told_at, node_refused_at, client_told_at, client_refused_at, outcome_at, summed_at, summary_at};

use crate::sent::all_sent_at;
use crate::summary::Summary;
use headline::ClientFault;
use pvp_parties::PartyOutcome;
use pvp_rooms::CameOf;
use pvp_wire::{WireFault, u32_at};
use rtgs_node::NodeFault;
use std::alloc::Global;
use vr_types::{Boot, SiteFault, Why};

/// A summary: its tag, then its fields.
#[tactic(auto, unfolding(crate::specs::Reading::summary_at))]
pub(crate) fn summary_at(
    alloc: Global,
    me: u16,
    clock: u64,
    bytes: &[u8],
) -> Result<(Summary, &[u8]), WireFault>
    ensures { Tells (λ x. (x.0, x.1.now)) result (summary_at me clock bytes.now) }
{
    match bytes {
        [] => Err(WireFault::Length),
        [9, rest @ ..] => summed_at(rest),
        [_, ..] => {
            let (outcome, rest) = outcome_at(alloc, me, clock, bytes)?;
            Ok((Summary::Whole(outcome), rest))
        }
    }
}

/// How much was sent, and why the event was dropped.
fn summed_at(bytes: &[u8]) -> Result<(Summary, &[u8]), WireFault>
    ensures { Finds (λ x. (x.0, x.1.now)) result (summed_at bytes.now) }
{
    let [count, rest @ ..] = bytes else {
        return Err(WireFault::Length);
    };
    let (dropped, rest) = why_at(rest)?;
    Ok((
        Summary::Sent {
            count: *count,
            dropped,
        },
        rest,
    ))
}

/// An outcome: its tag, then its fields.
#[tactic(auto, unfolding(crate::specs::Reading::outcome_at))]
fn outcome_at(
    alloc: Global,
    me: u16,
    clock: u64,
    bytes: &[u8],
) -> Result<(PartyOutcome, &[u8]), WireFault>
    ensures { Tells (λ x. (x.0, x.1.now)) result (outcome_at me clock bytes.now) }
{
    match bytes {
        [] => Err(WireFault::Length),
        [1, rest @ ..] => did_at(alloc, me, clock, rest),
        [2, rest @ ..] => refused_at(rest),
        [3, rest @ ..] => fell_at(rest),
        [4, rest @ ..] => node_told_at(alloc, me, clock, rest),
        [5, rest @ ..] => node_refused_at(rest),
        [6, rest @ ..] => client_told_at(alloc, me, clock, rest),
        [7, rest @ ..] => client_refused_at(rest),
        [8, rest @ ..] => Ok((PartyOutcome::Stray, rest)),
        [_, ..] => Err(WireFault::Field),
    }
}

/// That a site took its step: what it sent, and why it dropped the event, if it did.
fn did_at(
    alloc: Global,
    me: u16,
    clock: u64,
    bytes: &[u8],
) -> Result<(PartyOutcome, &[u8]), WireFault>
    ensures { Tells (λ x. (x.0, x.1.now)) result (did_at me clock bytes.now) }
{
    let (sent, rest) = all_sent_at(alloc, me, clock, bytes)?;
    let (dropped, rest) = why_at(rest)?;
    Ok((PartyOutcome::OfSite(CameOf::Did { sent, dropped }), rest))
}

/// That a site refused the event.
fn refused_at(bytes: &[u8]) -> Result<(PartyOutcome, &[u8]), WireFault>
    ensures { Finds (λ x. (x.0, x.1.now)) result (refused_at bytes.now) }
{
    let (fault, rest) = site_fault_at(bytes)?;
    Ok((PartyOutcome::OfSite(CameOf::Refused(fault)), rest))
}

/// That a site fell, and what its cell then held.
fn fell_at(bytes: &[u8]) -> Result<(PartyOutcome, &[u8]), WireFault>
    ensures { Finds (λ x. (x.0, x.1.now)) result (fell_at bytes.now) }
{
    let (why, rest) = site_fault_at(bytes)?;
    let (boots, rest) = u32_at(rest)?;
    let cell = Boot { boots };
    Ok((PartyOutcome::OfSite(CameOf::Fell { why, cell }), rest))
}

/// What a node sent.
fn node_told_at(
    alloc: Global,
    me: u16,
    clock: u64,
    bytes: &[u8],
) -> Result<(PartyOutcome, &[u8]), WireFault>
    ensures { Tells (λ x. (x.0, x.1.now)) result (node_told_at me clock bytes.now) }
{
    let (sent, rest) = all_sent_at(alloc, me, clock, bytes)?;
    Ok((PartyOutcome::OfNode(Ok(sent)), rest))
}

/// That a node refused the event.
fn node_refused_at(bytes: &[u8]) -> Result<(PartyOutcome, &[u8]), WireFault>
    ensures { Finds (λ x. (x.0, x.1.now)) result (node_refused_at bytes.now) }
{
    let (fault, rest) = node_fault_at(bytes)?;
    Ok((PartyOutcome::OfNode(Err(fault)), rest))
}

/// What a client sent.
fn client_told_at(
    alloc: Global,
    me: u16,
    clock: u64,
    bytes: &[u8],
) -> Result<(PartyOutcome, &[u8]), WireFault>
    ensures { Tells (λ x. (x.0, x.1.now)) result (client_told_at me clock bytes.now) }
{
    let (sent, rest) = all_sent_at(alloc, me, clock, bytes)?;
    Ok((PartyOutcome::OfClient(Ok(sent)), rest))
}

/// That a client refused the event.
fn client_refused_at(bytes: &[u8]) -> Result<(PartyOutcome, &[u8]), WireFault>
    ensures { Finds (λ x. (x.0, x.1.now)) result (client_refused_at bytes.now) }
{
    let (fault, rest) = client_fault_at(bytes)?;
    Ok((PartyOutcome::OfClient(Err(fault)), rest))
}

/// A site's fault, by the number of its code.
#[tactic(auto, unfolding(crate::specs::Reading::site_fault_at))]
fn site_fault_at(bytes: &[u8]) -> Result<(SiteFault, &[u8]), WireFault>
    ensures { Finds (λ x. (x.0, x.1.now)) result (site_fault_at bytes.now) }
{
    match bytes {
        [] => Err(WireFault::Length),
        [1, rest @ ..] => Ok((SiteFault::NoMemory, rest)),
        [2, rest @ ..] => Ok((SiteFault::CellFault, rest)),
        [3, rest @ ..] => Ok((SiteFault::NotUp, rest)),
        [4, rest @ ..] => Ok((SiteFault::AlreadyUp, rest)),
        [5, rest @ ..] => Ok((SiteFault::ViewsSpent, rest)),
        [6, rest @ ..] => Ok((SiteFault::BootsSpent, rest)),
        [7, rest @ ..] => Ok((SiteFault::NotMine, rest)),
        [_, ..] => Err(WireFault::Field),
    }
}

/// A node's fault, by the number of its code.
#[tactic(auto, unfolding(crate::specs::Reading::node_fault_at))]
fn node_fault_at(bytes: &[u8]) -> Result<(NodeFault, &[u8]), WireFault>
    ensures { Finds (λ x. (x.0, x.1.now)) result (node_fault_at bytes.now) }
{
    match bytes {
        [] => Err(WireFault::Length),
        [1, rest @ ..] => Ok((NodeFault::Short, rest)),
        [2, rest @ ..] => Ok((NodeFault::UnknownMember, rest)),
        [3, rest @ ..] => Ok((NodeFault::BadAmount, rest)),
        [4, rest @ ..] => Ok((NodeFault::NoMemory, rest)),
        [5, rest @ ..] => Ok((NodeFault::Spent, rest)),
        [6, rest @ ..] => Ok((NodeFault::NotMine, rest)),
        [7, rest @ ..] => Ok((NodeFault::Closed, rest)),
        [_, ..] => Err(WireFault::Field),
    }
}

/// A client's fault, by its number.
#[tactic(auto, unfolding(crate::specs::Reading::client_fault_at))]
fn client_fault_at(bytes: &[u8]) -> Result<(ClientFault, &[u8]), WireFault>
    ensures { Finds (λ x. (x.0, x.1.now)) result (client_fault_at bytes.now) }
{
    match bytes {
        [] => Err(WireFault::Length),
        [1, rest @ ..] => Ok((ClientFault::Outstanding, rest)),
        [2, rest @ ..] => Ok((ClientFault::Spent, rest)),
        [3, rest @ ..] => Ok((ClientFault::NoMemory, rest)),
        [_, ..] => Err(WireFault::Field),
    }
}

/// 0, or why an event was dropped.
#[tactic(auto, unfolding(crate::specs::Reading::why_at))]
fn why_at(bytes: &[u8]) -> Result<(Option<Why>, &[u8]), WireFault>
    ensures { Finds (λ x. (x.0, x.1.now)) result (why_at bytes.now) }
{
    match bytes {
        [] => Err(WireFault::Length),
        [0, rest @ ..] => Ok((None, rest)),
        [1, rest @ ..] => Ok((Some(Why::Status), rest)),
        [2, rest @ ..] => Ok((Some(Why::View), rest)),
        [3, rest @ ..] => Ok((Some(Why::NotPrimary), rest)),
        [4, rest @ ..] => Ok((Some(Why::Known), rest)),
        [5, rest @ ..] => Ok((Some(Why::Stale), rest)),
        [6, rest @ ..] => Ok((Some(Why::Full), rest)),
        [_, ..] => Err(WireFault::Field),
    }
}
