//! An actor of the bank, with what it was made from.
ghost use Rattle.std.specs.Prelude.{◌≡◌, ◌*◌, ◌<◌, ◌≤◌, length, IfOk, OnErr};
ghost use Rattle.pvp_rooms.specs.Runs.{Follows};
ghost use Rattle.pvp_types.specs.Setup.{IsValid, faults};
ghost use Rattle.pvp_book.specs.Ledger.{Ledger, node_of};
ghost use Rattle.vr_types.specs.Group.{actor_of};
ghost use Rattle.pvp_types.specs.declared.command.Cmd.{Cmd as AnyCmd};
ghost use Rattle.headline.specs.Machine.{book};
ghost use Rattle.pvp_rooms.specs.Histories.{Takes};
ghost use Rattle.pvp_rooms.specs.Nodes as nodes;
ghost use Rattle.pvp_rooms.specs.Clients as clients;
ghost use Rattle.pvp_rooms.specs.Sites as sites;
ghost use Rattle.pvp_parties.specs.Made.{memory, made_site, made_node, made_client, made_over};

use crate::follow::{follow_client, follow_node, follow_site};
use headline::{ClientEvent, ClientFault};
use pvp_book::Book;
use pvp_rooms::{Actor, Came, Copies, Told};
use pvp_types::Setup;
use pvp_world::Client;
use rtgs_node::{Node, NodeEvent, NodeFault};
use std::alloc::{AllocError, Global};
use std::marker::Model;
use vr_site::Replica;
use vr_types::{Boot, BootCell, Config, Event, FIRST_NODE, FIRST_SITE, MemCell};

/// An actor, with its bank's setup and its place among the actors of its kind.
#[derive(Drop)]
pub struct Placed<A: Actor> {
    setup: Setup,
    place: u16,
    actor: A,
}

impl<A: Actor> Model for Placed<A> {
    ghost use Rattle.pvp_types.specs.Setup.{IsValid};
    ghost use Rattle.std.specs.Prelude.{◌≤◌};
    ghost use Rattle.pvp_parties.specs.Made.{Made};

    ghost Value = { Made A };

    ghost view = { λ a. record { setup = a.setup; place = a.place; now = a.actor } };

    ghost invariant = { λ a. IsValid a.setup × (a.place ≤ 100) };
}

/// A site of the bank, over a cell of this kind.
pub type SiteParty<C> = Placed<Replica<Book, C>>;

/// A node of the bank.
pub type NodeParty = Placed<Node>;

/// A client of the bank.
pub type ClientParty = Placed<Client>;

impl<A: Actor> Placed<A> {
    /// Takes an event, and answers how it came out.
    pub fn take(&mut self, alloc: Global, event: A::Event) -> A::Outcome
        ensures step { (x : A.State) → A.shows self.old.now x →
            Takes A.comes A.after x event result (A.shows self.new.now) }
        ensures kept { self.new ≡ record self.old { now = self.new.now } }
        ensures told { A.tells self.old.now self.new.now event result }
    {
        self.actor.take(alloc, event)
    }

    /// Takes an event, and answers three times how it came out. Where memory for the copies is refused, a site falls, and
    /// any other is as it was.
    pub fn take_copied(
        &mut self,
        alloc: Global,
        event: A::Event,
    ) -> Result<Copies<A::Outcome>, AllocError>
        ensures step { IfOk result (λ copies. (x : A.State) → A.shows self.old.now x →
            Takes A.comes A.after x event copies.answered (A.shows self.new.now)) }
        ensures kept { self.new ≡ record self.old { now = self.new.now } }
        ensures recorded { IfOk result (λ copies. copies.recorded ≡ copies.answered) }
        ensures receipted { IfOk result (λ copies. copies.receipted ≡ copies.answered) }
        ensures err { OnErr result (self.new ≡ self.old) }
        ensures told { IfOk result (λ copies.
            A.tells self.old.now self.new.now event copies.answered) }
    {
        self.actor.take_copied(alloc, event)
    }

    /// What its bank was set up with.
    pub fn setup(&self) -> &Setup
        ensures { result.now ≡ self.now.setup }
    {
        &self.setup
    }

    /// The actor itself.
    pub fn actor(&self) -> &A
        ensures { result.now ≡ self.now.now }
    {
        &self.actor
    }
}

impl<C: BootCell> Placed<Replica<Book, C>> {
    /// The site of this place in its group, over a cell. `Err` where memory is refused.
    pub fn new(alloc: Global, setup: &Setup, me: u16, cell: C) -> Result<Self, AllocError>
        requires valid { IsValid setup.now }
        requires known { me ≤ 2 * faults setup.now }
        ensures setup { IfOk result (λ made. made.setup ≡ setup.now) }
        ensures place { IfOk result (λ made. made.place ≡ me) }
        ensures opens { IfOk result (λ made. (x : sites.SiteState Ledger AnyCmd) →
            sites.Opens book (made_site made) (C.held cell) x →
            sites.Shows book C.BootCell made.now x) }
    {
        let f = setup.faults();
        let config = Config { f, me };
        Ok(Placed {
            setup: setup.copy()?,
            place: me,
            actor: Replica::new(alloc, config, setup.copy()?, cell)?,
        })
    }

    /// Its number as an actor.
    pub fn number(&self) -> u16
        ensures { result ≡ actor_of self.now.place }
    {
        FIRST_SITE + self.place
    }

    /// What its cell holds.
    pub fn held_boot(&self) -> Boot
        ensures { result ≡ C.held self.now.now.cell }
    {
        self.actor.boot()
    }

    /// The same site over another cell, which holds what its own does.
    pub fn over<D: BootCell>(self, cell: D) -> SiteParty<D>
        requires { D.held cell ≡ C.held self.now.cell }
        ensures { result ≡ made_over self cell }
    {
        Placed {
            setup: self.setup,
            place: self.place,
            actor: self.actor.over(cell),
        }
    }
}

impl Placed<Replica<Book, MemCell>> {
    /// Takes an event that came out so, and says whether it can. After `Err` or a no it may only be dropped.
    pub fn follow(
        &mut self,
        alloc: Global,
        event: &Event<Book>,
        came: &Came<Book>,
    ) -> Result<bool, AllocError>
        ensures step { IfOk result (λ can. (x : sites.SiteState Ledger AnyCmd) →
            sites.Shows book memory self.old.now x →
            Follows (sites.Comes book) sites.after x event.now came.now
            (sites.Shows book memory self.new.now) can) }
        ensures kept { self.new ≡ record self.old { now = self.new.now } }
    {
        follow_site(&mut self.actor, alloc, event, came)
    }
}

impl Placed<Node> {
    /// The node of a currency. `Err` where memory is refused.
    pub fn new(alloc: Global, setup: &Setup, ccy: u8) -> Result<Self, AllocError>
        requires valid { IsValid setup.now }
        requires known { ccy < length setup.now.currencies }
        ensures setup { IfOk result (λ made. made.setup ≡ setup.now) }
        ensures place { IfOk result (λ made. made.place ≡ ccy) }
        ensures opens { IfOk result (λ made. nodes.Opens (made_node made) made.now) }
    {
        Ok(Placed {
            setup: setup.copy()?,
            place: u16::from(ccy),
            actor: Node::new(alloc, setup, ccy)?,
        })
    }

    /// Its number as an actor.
    pub fn number(&self) -> u16
        ensures { result ≡ node_of self.now.place }
    {
        FIRST_NODE + self.place
    }

    /// Takes an event that came out so, and says whether it can. After `Err` or a no it may only be dropped.
    pub fn follow(
        &mut self,
        alloc: Global,
        event: &NodeEvent,
        told: &Told<NodeFault>,
    ) -> Result<bool, AllocError>
        ensures step { IfOk result (λ can.
            Follows nodes.Comes nodes.after self.old.now event.now told.now
            (λ y. y ≡ self.new.now) can) }
        ensures kept { self.new ≡ record self.old { now = self.new.now } }
    {
        follow_node(&mut self.actor, alloc, event, told)
    }
}

impl Placed<Client> {
    /// The client of this number, 0 for the operator or a member's. `Err` where memory is refused.
    pub fn new(setup: &Setup, number: u16) -> Result<Self, AllocError>
        requires valid { IsValid setup.now }
        requires known { number ≤ length setup.now.members }
        ensures setup { IfOk result (λ made. made.setup ≡ setup.now) }
        ensures place { IfOk result (λ made. made.place ≡ number) }
        ensures opens { IfOk result (λ made. clients.Opens (made_client made) made.now) }
    {
        Ok(Placed {
            setup: setup.copy()?,
            place: number,
            actor: Client::new(setup, number),
        })
    }

    /// Its number as an actor.
    pub fn number(&self) -> u16
        ensures { result ≡ self.now.place }
    {
        self.place
    }

    /// Takes an event that came out so, and says whether it can. After `Err` or a no it may only be dropped.
    pub fn follow(
        &mut self,
        alloc: Global,
        event: &ClientEvent,
        told: &Told<ClientFault>,
    ) -> Result<bool, AllocError>
        ensures step { IfOk result (λ can.
            Follows clients.Comes clients.after self.old.now event.now told.now
            (λ y. y ≡ self.new.now) can) }
        ensures kept { self.new ≡ record self.old { now = self.new.now } }
    {
        follow_client(&mut self.actor, alloc, event, told)
    }
}
