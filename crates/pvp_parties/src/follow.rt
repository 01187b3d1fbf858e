//! Taking an event again that came out so.
ghost use Rattle.std.specs.Prelude.{◌≡◌, ◌⊎◌, ◌↔◌, IsTrue, IfOk, Ok, Err};
ghost use Rattle.pvp_rooms.specs.Runs.{Follows};
ghost use Rattle.pvp_rooms.specs.Nodes as nodes;
ghost use Rattle.pvp_rooms.specs.Clients as clients;
ghost use Rattle.pvp_rooms.specs.Sites.{SiteState, Comes, Shows, after};
ghost use Rattle.pvp_rooms.specs.declared.site.CameOf.TheVariants.{Did, Refused, Fell};
ghost use Rattle.headline.specs.Machine.{book};
ghost use Rattle.pvp_types.specs.declared.command.Cmd.{Cmd};
ghost use Rattle.pvp_book.specs.Ledger.{Ledger};
ghost use Rattle.vr_types.specs.declared.event.EventOf.TheVariants.{Restart};
ghost use Rattle.pvp_parties.specs.Made.{memory};

use crate::told::{same_client_fault, same_node_fault};
use headline::{ClientEvent, ClientFault};
use pvp_book::Book;
use pvp_rooms::{Actor, Came, CameOf, Told};
use pvp_world::Client;
use rtgs_node::{Node, NodeEvent, NodeFault};
use std::alloc::{AllocError, Global};
use vr_site::Replica;
use vr_types::{
    Boot, Event, EventOf, MemCell, Sent, SiteFault, Why, is_same_boot, is_same_fault, is_same_sent,
    is_same_why,
};

/// Takes an event at a node that came out so, and says whether it can. After `Err` or a no the node may only be dropped.
pub fn follow_node(
    node: &mut Node,
    alloc: Global,
    event: &NodeEvent,
    told: &Told<NodeFault>,
) -> Result<bool, AllocError>
    ensures { IfOk result (λ can. Follows nodes.Comes nodes.after node.old event.now told.now
        (λ y. y ≡ node.new) can) }
{
    match told {
        Ok(sent) => follow_node_step(node, alloc, event, sent),
        Err(fault) => follow_node_refusal(node, alloc, event, *fault),
    }
}

/// Takes an event at a node, and says whether this is what it sends.
fn follow_node_step(
    node: &mut Node,
    alloc: Global,
    event: &NodeEvent,
    sent: &Sent<Book>,
) -> Result<bool, AllocError>
    ensures { IfOk result (λ can. Follows nodes.Comes nodes.after node.old event.now (Ok sent.now)
        (λ y. y ≡ node.new) can) }
{
    let copy = Node::copy_event(alloc, event)?;
    match node.handle(copy) {
        Ok(found) => Ok(is_same_sent::<Book>(found.as_slice(), sent.as_slice())),
        Err(NodeFault::NoMemory) => Err(AllocError),
        Err(_) => Ok(false),
    }
}

/// Takes an event at a node, and says whether it can refuse it so. Lack of memory may always be.
fn follow_node_refusal(
    node: &mut Node,
    alloc: Global,
    event: &NodeEvent,
    fault: NodeFault,
) -> Result<bool, AllocError>
    ensures { IfOk result (λ can. Follows nodes.Comes nodes.after node.old event.now (Err fault)
        (λ y. y ≡ node.new) can) }
{
    if same_node_fault(fault, NodeFault::NoMemory) {
        return Ok(true);
    }
    let copy = Node::copy_event(alloc, event)?;
    match node.handle(copy) {
        Ok(_) => Ok(false),
        Err(NodeFault::NoMemory) => Err(AllocError),
        Err(found) => Ok(same_node_fault(found, fault)),
    }
}

/// Takes an event at a client that came out so, and says whether it can. After `Err` or a no the client may only be
/// dropped.
pub fn follow_client(
    client: &mut Client,
    alloc: Global,
    event: &ClientEvent,
    told: &Told<ClientFault>,
) -> Result<bool, AllocError>
    ensures { IfOk result (λ can. Follows clients.Comes clients.after client.old event.now told.now
        (λ y. y ≡ client.new) can) }
{
    match told {
        Ok(sent) => follow_client_step(client, alloc, event, sent),
        Err(fault) => follow_client_refusal(client, alloc, event, *fault),
    }
}

/// Takes an event at a client, and says whether this is what it sends.
fn follow_client_step(
    client: &mut Client,
    alloc: Global,
    event: &ClientEvent,
    sent: &Sent<Book>,
) -> Result<bool, AllocError>
    ensures { IfOk result (λ can. Follows clients.Comes clients.after client.old event.now
        (Ok sent.now) (λ y. y ≡ client.new) can) }
{
    let copy = Client::copy_event(alloc, event)?;
    match client.handle(alloc, copy) {
        Ok(found) => Ok(is_same_sent::<Book>(found.as_slice(), sent.as_slice())),
        Err(ClientFault::NoMemory) => Err(AllocError),
        Err(_) => Ok(false),
    }
}

/// Takes an event at a client, and says whether it can refuse it so. Lack of memory may always be.
fn follow_client_refusal(
    client: &mut Client,
    alloc: Global,
    event: &ClientEvent,
    fault: ClientFault,
) -> Result<bool, AllocError>
    ensures { IfOk result (λ can. Follows clients.Comes clients.after client.old event.now
        (Err fault) (λ y. y ≡ client.new) can) }
{
    if same_client_fault(fault, ClientFault::NoMemory) {
        return Ok(true);
    }
    let copy = Client::copy_event(alloc, event)?;
    match client.handle(alloc, copy) {
        Ok(_) => Ok(false),
        Err(ClientFault::NoMemory) => Err(AllocError),
        Err(found) => Ok(same_client_fault(found, fault)),
    }
}

/// Takes an event at a site that came out so, and says whether it can. After `Err` or a no the site may only be dropped.
pub fn follow_site(
    site: &mut Replica<Book, MemCell>,
    alloc: Global,
    event: &Event<Book>,
    came: &Came<Book>,
) -> Result<bool, AllocError>
    ensures { IfOk result (λ can. (x : SiteState Ledger Cmd) → Shows book memory site.old x →
        Follows (Comes book) after x event.now came.now (Shows book memory site.new) can) }
{
    match came {
        CameOf::Did { sent, dropped } => follow_step(site, alloc, event, sent, *dropped),
        CameOf::Refused(why) => Ok(is_refusal(site, event, *why)),
        CameOf::Fell { why, cell } => follow_fall(site, alloc, event, *why, *cell),
    }
}

/// Whether a site refuses an event so.
fn is_refusal(site: &Replica<Book, MemCell>, event: &Event<Book>, why: SiteFault) -> bool
    ensures { (x : SiteState Ledger Cmd) → Shows book memory site.now x →
        IsTrue result ↔ Comes book x event.now (Refused why) }
{
    match site.refuses(event) {
        None => false,
        Some(found) => is_same_fault(found, why),
    }
}

/// Takes an event at a site, and says whether it drops it so and this is what it sends.
fn follow_step(
    site: &mut Replica<Book, MemCell>,
    alloc: Global,
    event: &Event<Book>,
    sent: &Sent<Book>,
    dropped: Option<Why>,
) -> Result<bool, AllocError>
    ensures { IfOk result (λ can. (x : SiteState Ledger Cmd) → Shows book memory site.old x →
        Follows (Comes book) after x event.now (Did sent.now dropped)
        (Shows book memory site.new) can) }
{
    if site.refuses(event).is_some() {
        return Ok(false);
    }
    let copy = event.copy(alloc)?;
    match site.handle(alloc, copy) {
        Ok(out) => Ok(
            is_same_why(out.dropped, dropped)
                && is_same_sent::<Book>(out.sent.as_slice(), sent.as_slice()),
        ),
        Err(_) => Err(AllocError),
    }
}

/// Says whether a site can fall so at an event, over a cell that holds this, and lets it fall. What the event saves is
/// found by taking it; a restart that saved nothing is not taken.
fn follow_fall(
    site: &mut Replica<Book, MemCell>,
    alloc: Global,
    event: &Event<Book>,
    why: SiteFault,
    cell: Boot,
) -> Result<bool, AllocError>
    ensures { IfOk result (λ can. (x : SiteState Ledger Cmd) → Shows book memory site.old x →
        Follows (Comes book) after x event.now (Fell why cell) (Shows book memory site.new) can) }
{
    if !is_of_fall(why) {
        return Ok(false);
    }
    let None = site.refuses(event) else {
        return Ok(false);
    };
    if is_unsaved_restart(event, cell, site.boot()) {
        site.fall();
        return Ok(true);
    }
    let copy = event.copy(alloc)?;
    let Ok(_out) = site.handle(alloc, copy) else {
        return Err(AllocError);
    };
    site.fall();
    Ok(is_same_boot(cell, site.boot()))
}

/// Whether a site falls for this.
fn is_of_fall(why: SiteFault) -> bool
    ensures { IsTrue result ↔ ((why ≡ SiteFault.NoMemory) ⊎ (why ≡ SiteFault.CellFault)) }
{
    match why {
        SiteFault::NoMemory | SiteFault::CellFault => true,
        _ => false,
    }
}

/// Whether an event is a restart that left the cell as it was.
fn is_unsaved_restart(event: &Event<Book>, cell: Boot, held: Boot) -> bool
    ensures { IsTrue result ↔ ((event.now ≡ Restart) × (cell ≡ held)) }
{
    match event {
        EventOf::Restart => is_same_boot(cell, held),
        _ => false,
    }
}
