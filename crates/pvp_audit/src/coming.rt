//! Whether an event comes out at a world's actor as it is recorded.
ghost use Rattle.std.specs.Prelude.{◌≡◌, ◌⊎◌, ◌↔◌, ◌<◌, ◌≤◌, ◌-◌, IsTrue, [], None, Some, true, IfOk, OnOk, Err, slice_get};
ghost use Rattle.vr_types.specs.MemoryCell.{held_by};
ghost use Rattle.vr_types.specs.Handling.{refusal};
ghost use Rattle.rtgs_node.specs.Node.{Envelope as AnyEnvelope};
ghost use Rattle.rtgs_node.specs.declared.event.NodeEvent.TheVariants.{Takes as ToNode};
ghost use Rattle.headline.specs.declared.step.ClientEvent.TheVariants.{Takes as ToClient};
ghost use Rattle.pvp_world.specs.World.{IsProved};
ghost use Rattle.pvp_world.specs.Steps.{AreReliable};
ghost use Rattle.vr_site.specs.Replica.{site_shown};
ghost use Rattle.pvp_parties.specs.declared.party.PartyEvent.TheVariants as happens;
ghost use Rattle.pvp_parties.specs.declared.party.PartyOutcome.TheVariants as came_as;
ghost use Rattle.pvp_parties.specs.Alike.{Site};
ghost use Rattle.pvp_parties.specs.Made.{memory};
ghost use Rattle.pvp_parties.specs.Parties.{delivers, is_for};
ghost use Rattle.pvp_audit.specs.Banked.{IsOfBank};
ghost use Rattle.pvp_audit.specs.Coming.{ComesSo, SiteComes, NodeComes, ClientComes};
ghost use Rattle.pvp_audit.specs.Moves.{move_of, move_by};
ghost use Rattle.pvp_audit.specs.Retold.{Names, GoesBy};

use crate::asking::{falls_so, refuses_so, takes_so};
use crate::moves::{client_step, node_step, site_step};
use headline::{ClientEvent, ClientFault};
use pvp_book::Book;
use pvp_parties::{Party, PartyEvent, PartyOutcome};
use pvp_rooms::{Came, CameOf, Closed, Recorded, Told};
use pvp_world::{World, WorldFault};
use rtgs_node::{NodeEvent, NodeFault};
use std::alloc::{AllocError, Global};
use vr_types::{Event, FIRST_NODE, FIRST_SITE, MemCell, SiteFault, is_same_fault};

/// The world takes an event of an actor as its next move, where it was one, and says whether it comes out as it is
/// recorded. `number` is that of what it delivers. After a no the world may only be dropped; so after `Err`, where memory
/// is refused.
pub fn comes_so(
    alloc: Global,
    world: &mut World<MemCell>,
    one: &Closed<Party>,
    taken: &Recorded<PartyEvent, PartyOutcome>,
    number: usize,
) -> Result<bool, AllocError>
    requires bank { IsOfBank world.old.setup one.now }
    requires named { Names world.old.post number taken.now.event }
    requires mine { (delivers taken.now.event ≡ None)
        ⊎ (is_for one.now.end taken.now.event ≡ true) }
    requires reliable { AreReliable memory world.old }
    ensures so { IfOk result (ComesSo world.old one.now.end taken.now) }
    ensures goes { IfOk result (λ can. IsTrue can →
        GoesBy held_by world.old world.new (move_of one.now.number taken.now number)) }
    ensures proved { OnOk result (IsProved held_by world.new) }
    ensures reliable { OnOk result (AreReliable memory world.new) }
{
    world.is_proved();
    let (actor, event, outcome) = (one.number, &taken.event, &taken.outcome);
    match &one.end {
        Party::Site(_) => match (event, outcome) {
            (PartyEvent::OfSite(event), PartyOutcome::OfSite(came)) => {
                site_comes(alloc, world, actor, event, came, number)
            }
            (PartyEvent::OfSite(_), _) => Ok(false),
            _ => Ok(is_stray(outcome)),
        },
        Party::Node(_) => match (event, outcome) {
            (PartyEvent::OfNode(event), PartyOutcome::OfNode(told)) => {
                node_comes(alloc, world, actor, event, told, number)
            }
            (PartyEvent::OfNode(_), _) => Ok(false),
            _ => Ok(is_stray(outcome)),
        },
        Party::Client(_) => match (event, outcome) {
            (PartyEvent::OfClient(event), PartyOutcome::OfClient(told)) => {
                client_comes(alloc, world, actor, event, told, number)
            }
            (PartyEvent::OfClient(_), _) => Ok(false),
            _ => Ok(is_stray(outcome)),
        },
    }
}

/// Whether nothing was done, as the event is of another kind of actor.
fn is_stray(outcome: &PartyOutcome) -> bool
    ensures { IsTrue result ↔ (outcome.now ≡ PartyOutcome.Stray) }
{
    match outcome {
        PartyOutcome::Stray => true,
        _ => false,
    }
}

/// Takes an event of a site in the world, and says whether it came out as it is recorded.
fn site_comes(
    alloc: Global,
    world: &mut World<MemCell>,
    actor: u16,
    event: &Event<Book>,
    came: &Came<Book>,
    number: usize,
) -> Result<bool, AllocError>
    requires site { FIRST_SITE ≤ actor }
    requires named { Names world.old.post number (happens.OfSite event.now) }
    requires reliable { AreReliable memory world.old }
    ensures so { IfOk result (SiteComes world.old (actor - FIRST_SITE) event.now came.now) }
    ensures goes { IfOk result (λ can. IsTrue can → GoesBy held_by world.old world.new
        (move_by actor (happens.OfSite event.now) (came_as.OfSite came.now) number)) }
    ensures proved { OnOk result (IsProved held_by world.new) }
    ensures reliable { OnOk result (AreReliable memory world.new) }
{
    world.is_proved();
    let step = site_step(actor, event, number);
    let refused = refused_by(world, actor, event);
    match came {
        CameOf::Refused(why) => Ok(is_refusal(refused, *why)),
        CameOf::Did { sent, dropped } => match refused {
            Some(_) => Ok(false),
            None => takes_so(alloc, world, step, sent.as_slice(), *dropped),
        },
        CameOf::Fell { why, cell } => {
            if !is_of_fall(*why) {
                return Ok(false);
            }
            match refused {
                Some(_) => Ok(false),
                None => falls_so(alloc, world, step, *cell),
            }
        }
    }
}

/// Takes an event of a node in the world, and says whether it came out as it is recorded.
fn node_comes(
    alloc: Global,
    world: &mut World<MemCell>,
    actor: u16,
    event: &NodeEvent,
    told: &Told<NodeFault>,
    number: usize,
) -> Result<bool, AllocError>
    requires first { FIRST_NODE ≤ actor }
    requires last { actor < FIRST_SITE }
    requires named { Names world.old.post number (happens.OfNode event.now) }
    requires reliable { AreReliable memory world.old }
    ensures so { IfOk result (NodeComes world.old (actor - FIRST_NODE) event.now told.now) }
    ensures goes { IfOk result (λ can. IsTrue can → GoesBy held_by world.old world.new
        (move_by actor (happens.OfNode event.now) (came_as.OfNode told.now) number)) }
    ensures proved { OnOk result (IsProved held_by world.new) }
    ensures reliable { OnOk result (AreReliable memory world.new) }
{
    world.is_proved();
    if !is_to(actor, event) {
        return Ok(is_refused_elsewhere(told));
    }
    let step = node_step(actor, event, number);
    match told {
        Ok(sent) => takes_so(alloc, world, step, sent.as_slice(), None),
        Err(fault) => {
            if is_want(*fault) {
                return Ok(true);
            }
            refuses_so(alloc, world, step, WorldFault::Node(*fault))
        }
    }
}

/// Takes an event of a client, to which what comes is addressed, in the world, and says whether it
/// came out as it is recorded.
fn client_comes(
    alloc: Global,
    world: &mut World<MemCell>,
    actor: u16,
    event: &ClientEvent,
    told: &Told<ClientFault>,
    number: usize,
) -> Result<bool, AllocError>
    requires last { actor < FIRST_NODE }
    requires named { Names world.old.post number (happens.OfClient event.now) }
    requires mine { (letter : AnyEnvelope) → event.now ≡ ToClient letter → letter.to ≡ actor }
    requires reliable { AreReliable memory world.old }
    ensures so { IfOk result (ClientComes world.old actor event.now told.now) }
    ensures goes { IfOk result (λ can. IsTrue can → GoesBy held_by world.old world.new
        (move_by actor (happens.OfClient event.now) (came_as.OfClient told.now) number)) }
    ensures proved { OnOk result (IsProved held_by world.new) }
    ensures reliable { OnOk result (AreReliable memory world.new) }
{
    world.is_proved();
    let step = client_step(actor, event, number);
    match told {
        Ok(sent) => takes_so(alloc, world, step, sent.as_slice(), None),
        Err(fault) => {
            if is_clients_want(*fault) {
                return Ok(true);
            }
            refuses_so(alloc, world, step, WorldFault::of_client(*fault))
        }
    }
}

/// Why the site of an actor's number refuses an event, where it does.
fn refused_by(world: &World<MemCell>, actor: u16, event: &Event<Book>) -> Option<SiteFault>
    ensures { (v : Site) → slice_get world.now.sites (actor - FIRST_SITE) ≡ Some v →
        result ≡ refusal v.f v.me (site_shown held_by v []) event.now }
{
    match world.site(actor.saturating_sub(FIRST_SITE)) {
        Some(site) => site.refuses(event),
        None => None,
    }
}

/// Whether a refusal is for this.
fn is_refusal(refused: Option<SiteFault>, why: SiteFault) -> bool
    ensures { IsTrue result ↔ (refused ≡ Some why) }
{
    match refused {
        None => false,
        Some(found) => is_same_fault(found, why),
    }
}

/// Whether a site falls for this.
fn is_of_fall(why: SiteFault) -> bool
    ensures { IsTrue result ↔ ((why ≡ SiteFault.NoMemory) ⊎ (why ≡ SiteFault.CellFault)) }
{
    match why {
        SiteFault::NoMemory | SiteFault::CellFault => true,
        _ => false,
    }
}

/// Whether a node refused for lack of memory.
fn is_want(fault: NodeFault) -> bool
    ensures { IsTrue result ↔ (fault ≡ NodeFault.NoMemory) }
{
    match fault {
        NodeFault::NoMemory => true,
        _ => false,
    }
}

/// Whether a client refused for lack of memory.
fn is_clients_want(fault: ClientFault) -> bool
    ensures { IsTrue result ↔ (fault ≡ ClientFault.NoMemory) }
{
    match fault {
        ClientFault::NoMemory => true,
        _ => false,
    }
}

/// Whether what comes to a node is addressed to it.
fn is_to(actor: u16, event: &NodeEvent) -> bool
    ensures { IsTrue result ↔
        ((letter : AnyEnvelope) → event.now ≡ ToNode letter → letter.to ≡ actor) }
{
    match event {
        NodeEvent::Takes(letter) => letter.to == actor,
        _ => true,
    }
}

/// Whether a node refused what is addressed to another, or was refused memory.
fn is_refused_elsewhere(told: &Told<NodeFault>) -> bool
    ensures { IsTrue result ↔
        ((told.now ≡ Err NodeFault.NoMemory) ⊎ (told.now ≡ Err NodeFault.NotMine)) }
{
    match told {
        Err(NodeFault::NoMemory) => true,
        Err(NodeFault::NotMine) => true,
        _ => false,
    }
}
