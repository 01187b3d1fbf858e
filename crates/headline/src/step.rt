//! Moves, the events of clients, and whose turn a step is.

use pvp_book::Book;
use pvp_types::{Cmd, Step};
use rtgs_node::NodeEvent;
use vr_types::{Boot, Envelope, Event};

/// A step that was taken, or the fall of a site in place of a step that was tried.
#[derive(Clone, Copy, Debug, PartialEq, Eq)]
pub enum Move {
    /// The step was taken.
    Takes(Step),
    /// The site is down, over a cell that holds this value.
    Falls(Step, Boot),
}

/// What may happen to a client.
#[derive(Drop)]
pub enum ClientEvent {
    /// It makes this request.
    Submits(Cmd),
    /// An envelope arrives.
    Takes(Envelope<Book>),
    /// It is time to send again what may have been lost.
    Beats,
}

/// Why a client did not handle an event. It is then unchanged.
#[derive(Clone, Copy, Debug, PartialEq, Eq)]
pub enum ClientFault {
    /// It still waits for the answer to its last request.
    Outstanding,
    /// C1: there is no greater request number.
    Spent,
    /// Memory was refused.
    NoMemory,
}

/// Which actor a step is for, and what happens to it: a site or a client by its number, a node by its currency.
#[derive(Drop)]
pub enum Turn {
    /// A site, by its number among the sites.
    OfSite(u16, Event<Book>),
    /// The node of this currency.
    OfNode(u16, NodeEvent),
    /// A client, by its number.
    OfClient(u16, ClientEvent),
}
