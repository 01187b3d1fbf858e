//! Whether two events, or their outcomes, are the same.
ghost use Rattle.std.specs.Prelude.{◌≡◌, ◌↔◌, IsTrue};

use headline::{ClientEvent, ClientFault};
use pvp_book::Book;
use pvp_rooms::{Came, CameOf, Told};
use rtgs_node::{NodeEvent, NodeFault};
use vr_types::{
    Event, EventOf, is_same, is_same_boot, is_same_envelope, is_same_fault, is_same_sent,
    is_same_why,
};

/// Whether two events of sites are the same.
pub fn same_site_event(a: &Event<Book>, b: &Event<Book>) -> bool
    ensures { IsTrue result ↔ (a.now ≡ b.now) }
{
    match (a, b) {
        (EventOf::Deliver(x), EventOf::Deliver(y)) => is_same_envelope::<Book>(x, y),
        (EventOf::Timer, EventOf::Timer) => true,
        (EventOf::Beat, EventOf::Beat) => true,
        (EventOf::Crash, EventOf::Crash) => true,
        (EventOf::Restart, EventOf::Restart) => true,
        _ => false,
    }
}

/// Whether two events of nodes are the same.
pub fn same_node_event(a: &NodeEvent, b: &NodeEvent) -> bool
    ensures { IsTrue result ↔ (a.now ≡ b.now) }
{
    match (a, b) {
        (
            NodeEvent::PaysIn { member, amt },
            NodeEvent::PaysIn {
                member: other,
                amt: paid,
            },
        ) => *member == *other && *amt == *paid,
        (NodeEvent::Closes(member), NodeEvent::Closes(other)) => *member == *other,
        (NodeEvent::Takes(x), NodeEvent::Takes(y)) => is_same_envelope::<Book>(x, y),
        (NodeEvent::Beats, NodeEvent::Beats) => true,
        _ => false,
    }
}

/// Whether two events of clients are the same.
pub fn same_client_event(a: &ClientEvent, b: &ClientEvent) -> bool
    ensures { IsTrue result ↔ (a.now ≡ b.now) }
{
    match (a, b) {
        (ClientEvent::Submits(x), ClientEvent::Submits(y)) => is_same::<Book>(*x, *y),
        (ClientEvent::Takes(x), ClientEvent::Takes(y)) => is_same_envelope::<Book>(x, y),
        (ClientEvent::Beats, ClientEvent::Beats) => true,
        _ => false,
    }
}

/// Whether two outcomes at a site are the same.
pub fn same_came(a: &Came<Book>, b: &Came<Book>) -> bool
    ensures { IsTrue result ↔ (a.now ≡ b.now) }
{
    match (a, b) {
        (
            CameOf::Did { sent, dropped },
            CameOf::Did {
                sent: also,
                dropped: other,
            },
        ) => is_same_why(*dropped, *other)
            && is_same_sent::<Book>(sent.as_slice(), also.as_slice()),
        (CameOf::Refused(x), CameOf::Refused(y)) => is_same_fault(*x, *y),
        (
            CameOf::Fell { why, cell },
            CameOf::Fell {
                why: other,
                cell: left,
            },
        ) => is_same_fault(*why, *other) && is_same_boot(*cell, *left),
        _ => false,
    }
}

/// Whether two outcomes at a node are the same.
pub fn same_node_told(a: &Told<NodeFault>, b: &Told<NodeFault>) -> bool
    ensures { IsTrue result ↔ (a.now ≡ b.now) }
{
    match (a, b) {
        (Ok(x), Ok(y)) => is_same_sent::<Book>(x.as_slice(), y.as_slice()),
        (Err(x), Err(y)) => same_node_fault(*x, *y),
        _ => false,
    }
}

/// Whether two faults of a node are the same.
pub fn same_node_fault(a: NodeFault, b: NodeFault) -> bool
    ensures { IsTrue result ↔ (a ≡ b) }
{
    a == b
}

/// Whether two outcomes at a client are the same.
pub fn same_client_told(a: &Told<ClientFault>, b: &Told<ClientFault>) -> bool
    ensures { IsTrue result ↔ (a.now ≡ b.now) }
{
    match (a, b) {
        (Ok(x), Ok(y)) => is_same_sent::<Book>(x.as_slice(), y.as_slice()),
        (Err(x), Err(y)) => same_client_fault(*x, *y),
        _ => false,
    }
}

/// Whether two faults of a client are the same.
pub fn same_client_fault(a: ClientFault, b: ClientFault) -> bool
    ensures { IsTrue result ↔ (a ≡ b) }
{
    a == b
}
