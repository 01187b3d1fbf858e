//! A client as an actor.
ghost use Rattle.std.specs.Prelude.{◌≡◌, ◌≤◌, length, IfOk, OnErr};
ghost use Rattle.pvp_rooms.specs.Closing.{fresh_seats};

use crate::actor::Actor;
use crate::cell::ActorCell;
use crate::message::Copies;
use crate::requests::{SentRoom, Told, refusal_copies};
use crate::seat::Seat;
use headline::{ClientEvent, ClientFault};
use pvp_types::Setup;
use pvp_world::Client;
use std::alloc::{AllocError, Global};
use vr_types::SentOf;

impl Actor for Client {
    ghost use Rattle.pvp_world.specs.Client.{ShownClient};
    ghost use Rattle.pvp_rooms.specs.Histories.{Takes};
    ghost use Rattle.pvp_rooms.specs.Clients.{Opens, Comes, Reads, Tells, Brings, after};

    /// It opens as one that has asked for nothing.
    type Opening = ();

    type Event = ClientEvent;

    type Outcome = Told<ClientFault>;

    ghost State = { ShownClient };

    ghost opens = { λ v opening x. Opens v x };

    ghost shows = { λ v x. x ≡ v };

    ghost comes = { Comes };

    ghost after = { after };

    ghost reads = { Reads };

    ghost tells = { Tells };

    ghost brings = { Brings };

    fn take(&mut self, alloc: Global, event: ClientEvent) -> Told<ClientFault>
        ensures step { (x : ShownClient) → x ≡ self.old →
            Takes Comes after x event result (λ y. y ≡ self.new) }
        ensures opens { (opening : Unit {0}) (x : ShownClient) → Opens self.new x →
            Opens self.old x }
        ensures told { Tells self.old self.new event result }
    {
        match self.handle(alloc, event) {
            Ok(sent) => Ok(SentOf::new(sent)),
            Err(fault) => Err(fault),
        }
    }

    fn take_copied(
        &mut self,
        alloc: Global,
        event: ClientEvent,
    ) -> Result<Copies<Told<ClientFault>>, AllocError>
        ensures step { IfOk result (λ copies. (x : ShownClient) → x ≡ self.old →
            Takes Comes after x event copies.answered (λ y. y ≡ self.new)) }
        ensures opens { (opening : Unit {0}) (x : ShownClient) → Opens self.new x →
            Opens self.old x }
        ensures recorded { IfOk result (λ copies. copies.recorded ≡ copies.answered) }
        ensures receipted { IfOk result (λ copies. copies.receipted ≡ copies.answered) }
        ensures err { OnErr result (self.new ≡ self.old) }
        ensures told { IfOk result (λ copies. Tells self.old self.new event copies.answered) }
    {
        let room = SentRoom::new(alloc, self.faults())?;
        Ok(match Actor::take(self, alloc, event) {
            Ok(sent) => room.copies(alloc, sent),
            Err(fault) => refusal_copies(fault),
        })
    }

    fn copy_event(alloc: Global, event: &ClientEvent) -> Result<ClientEvent, AllocError> {
        Ok(match event {
            ClientEvent::Submits(cmd) => ClientEvent::Submits(*cmd),
            ClientEvent::Takes(envelope) => ClientEvent::Takes(envelope.copy(alloc)?),
            ClientEvent::Beats => ClientEvent::Beats,
        })
    }
}

/// A client behind a lock of its own.
pub type ClientCell = ActorCell<Client>;

/// A seat at a client.
pub type ClientSeat = Seat<ClientEvent, Told<ClientFault>>;

impl ActorCell<Client> {
    ghost use Rattle.pvp_types.specs.Setup.{IsValid};

    /// The client of this number, 0 for the operator or a member's, and its seats. It shares nothing with any other.
    /// `Err` where memory is refused.
    pub fn new(
        alloc: Global,
        setup: &Setup,
        number: u16,
        seats: u16,
    ) -> Result<(Self, Vec<ClientSeat>), AllocError>
        requires valid { IsValid setup.now }
        requires known { number ≤ length setup.now.members }
        ensures place { IfOk result (λ made. made.0 ≡ record { number = number; seats = seats }) }
        ensures seats { IfOk result (λ made. made.1.items ≡ fresh_seats seats number) }
    {
        let client = Client::new(setup, number);
        ActorCell::around(alloc, number, (), client, seats)
    }
}
