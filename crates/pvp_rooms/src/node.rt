//! A node as an actor.
ghost use Rattle.std.specs.Prelude.{◌≡◌, ◌<◌, length, IfOk, OnErr};
ghost use Rattle.pvp_book.specs.Ledger.{node_of};
ghost use Rattle.pvp_rooms.specs.Closing.{fresh_seats};

use crate::actor::Actor;
use crate::cell::ActorCell;
use crate::message::Copies;
use crate::requests::{SentRoom, Told, refusal_copies};
use crate::seat::Seat;
use pvp_book::node_of;
use pvp_types::Setup;
use rtgs_node::{Node, NodeEvent, NodeFault};
use std::alloc::{AllocError, Global};
use vr_types::SentOf;

impl Actor for Node {
    ghost use Rattle.rtgs_node.specs.Shown.{ShownNode};
    ghost use Rattle.pvp_rooms.specs.Histories.{Takes};
    ghost use Rattle.pvp_rooms.specs.Nodes.{Opens, Comes, Reads, Tells, Brings, after};

    /// It opens as its setup says.
    type Opening = ();

    type Event = NodeEvent;

    type Outcome = Told<NodeFault>;

    ghost State = { ShownNode };

    ghost opens = { λ v opening x. Opens v x };

    ghost shows = { λ v x. x ≡ v };

    ghost comes = { Comes };

    ghost after = { after };

    ghost reads = { Reads };

    ghost tells = { Tells };

    ghost brings = { Brings };

    fn take(&mut self, _alloc: Global, event: NodeEvent) -> Told<NodeFault>
        ensures step { (x : ShownNode) → x ≡ self.old →
            Takes Comes after x event result (λ y. y ≡ self.new) }
        ensures opens { (opening : Unit {0}) (x : ShownNode) → Opens self.new x → Opens self.old x }
        ensures told { Tells self.old self.new event result }
    {
        match self.handle(event) {
            Ok(sent) => Ok(SentOf::new(sent)),
            Err(fault) => Err(fault),
        }
    }

    fn take_copied(
        &mut self,
        alloc: Global,
        event: NodeEvent,
    ) -> Result<Copies<Told<NodeFault>>, AllocError>
        ensures step { IfOk result (λ copies. (x : ShownNode) → x ≡ self.old →
            Takes Comes after x event copies.answered (λ y. y ≡ self.new)) }
        ensures opens { (opening : Unit {0}) (x : ShownNode) → Opens self.new x → Opens self.old x }
        ensures recorded { IfOk result (λ copies. copies.recorded ≡ copies.answered) }
        ensures receipted { IfOk result (λ copies. copies.receipted ≡ copies.answered) }
        ensures err { OnErr result (self.new ≡ self.old) }
        ensures told { IfOk result (λ copies. Tells self.old self.new event copies.answered) }
    {
        let room = SentRoom::new(alloc, self.setup().faults())?;
        Ok(match Actor::take(self, alloc, event) {
            Ok(sent) => room.copies(alloc, sent),
            Err(fault) => refusal_copies(fault),
        })
    }

    fn copy_event(alloc: Global, event: &NodeEvent) -> Result<NodeEvent, AllocError> {
        Ok(match event {
            NodeEvent::PaysIn { member, amt } => NodeEvent::PaysIn {
                member: *member,
                amt: *amt,
            },
            NodeEvent::Closes(member) => NodeEvent::Closes(*member),
            NodeEvent::Takes(envelope) => NodeEvent::Takes(envelope.copy(alloc)?),
            NodeEvent::Beats => NodeEvent::Beats,
        })
    }
}

/// A node behind a lock of its own.
pub type NodeCell = ActorCell<Node>;

/// A seat at a node.
pub type NodeSeat = Seat<NodeEvent, Told<NodeFault>>;

impl ActorCell<Node> {
    ghost use Rattle.pvp_types.specs.Setup.{IsValid};

    /// The node of a currency, and its seats. It shares nothing with any other. `Err` where memory is refused.
    pub fn new(
        alloc: Global,
        setup: &Setup,
        ccy: u8,
        seats: u16,
    ) -> Result<(Self, Vec<NodeSeat>), AllocError>
        requires valid { IsValid setup.now }
        requires known { ccy < length setup.now.currencies }
        ensures place { IfOk result (λ made.
            made.0 ≡ record { number = node_of ccy; seats = seats }) }
        ensures seats { IfOk result (λ made. made.1.items ≡ fresh_seats seats (node_of ccy)) }
    {
        let node = Node::new(alloc, setup, ccy)?;
        ActorCell::around(alloc, node_of(ccy), (), node, seats)
    }
}
