//! An actor of the bank, of any kind.
ghost use Rattle.std.specs.Prelude.{◌≡◌, ◌*◌, ◌<◌, ◌≤◌, length, IfOk, IfSome};
ghost use Rattle.pvp_types.specs.Setup.{IsValid, faults};

use crate::made::{ClientParty, NodeParty, SiteParty};
use headline::{ClientEvent, ClientFault};
use pvp_book::Book;
use pvp_rooms::{Actor, Came, Copies, Told};
use pvp_types::Setup;
use pvp_world::Client;
use rtgs_node::{Node, NodeEvent, NodeFault};
use std::alloc::{AllocError, Global};
use vr_site::Replica;
use vr_types::{Boot, BootCell, Event, MemCell};

/// An actor of the bank, of whose sites the boot cells are of this kind.
#[derive(Drop)]
pub enum PartyOf<C: BootCell> {
    Site(SiteParty<C>),
    Node(NodeParty),
    Client(ClientParty),
}

/// An actor of the bank whose boot cell, where it has one, is in memory.
pub type Party = PartyOf<MemCell>;

/// What may happen to an actor of the bank.
#[derive(Drop)]
pub enum PartyEvent {
    OfSite(Event<Book>),
    OfNode(NodeEvent),
    OfClient(ClientEvent),
}

/// How an event came out at an actor of the bank.
#[derive(Drop)]
pub enum PartyOutcome {
    OfSite(Came<Book>),
    OfNode(Told<NodeFault>),
    OfClient(Told<ClientFault>),
    /// The event is of another kind of actor; nothing was done.
    Stray,
}

impl<C: BootCell> Actor for PartyOf<C> {
    ghost use Rattle.pvp_parties.specs.Parties.{PartyState, Opens, Shows, Comes, Reads, Tells, Brings, after};

    /// What a site's cell held; a node and a client open over nothing.
    type Opening = Option<Boot>;

    type Event = PartyEvent;

    type Outcome = PartyOutcome;

    ghost State = { PartyState };

    ghost opens = { Opens };

    ghost shows = { Shows C.BootCell };

    ghost comes = { Comes };

    ghost after = { after };

    ghost reads = { Reads C.BootCell };

    ghost tells = { λ old new event told. Tells C.BootCell told old new event };

    ghost brings = { Brings };

    /// An event of another kind of actor is a stray.
    fn take(&mut self, alloc: Global, event: PartyEvent) -> PartyOutcome {
        match self {
            PartyOf::Site(site) => match event {
                PartyEvent::OfSite(event) => PartyOutcome::OfSite(site.take(alloc, event)),
                _ => PartyOutcome::Stray,
            },
            PartyOf::Node(node) => match event {
                PartyEvent::OfNode(event) => PartyOutcome::OfNode(node.take(alloc, event)),
                _ => PartyOutcome::Stray,
            },
            PartyOf::Client(client) => match event {
                PartyEvent::OfClient(event) => PartyOutcome::OfClient(client.take(alloc, event)),
                _ => PartyOutcome::Stray,
            },
        }
    }

    fn take_copied(
        &mut self,
        alloc: Global,
        event: PartyEvent,
    ) -> Result<Copies<PartyOutcome>, AllocError> {
        match self {
            PartyOf::Site(site) => match event {
                PartyEvent::OfSite(event) => Ok(of_site(site.take_copied(alloc, event)?)),
                _ => Ok(stray_copies()),
            },
            PartyOf::Node(node) => match event {
                PartyEvent::OfNode(event) => Ok(of_node(node.take_copied(alloc, event)?)),
                _ => Ok(stray_copies()),
            },
            PartyOf::Client(client) => match event {
                PartyEvent::OfClient(event) => Ok(of_client(client.take_copied(alloc, event)?)),
                _ => Ok(stray_copies()),
            },
        }
    }

    fn copy_event(alloc: Global, event: &PartyEvent) -> Result<PartyEvent, AllocError> {
        Ok(match event {
            PartyEvent::OfSite(event) => {
                PartyEvent::OfSite(Replica::<Book, C>::copy_event(alloc, event)?)
            }
            PartyEvent::OfNode(event) => PartyEvent::OfNode(Node::copy_event(alloc, event)?),
            PartyEvent::OfClient(event) => {
                PartyEvent::OfClient(Client::copy_event(alloc, event)?)
            }
        })
    }
}

/// The outcome of an event at a site, for answer, history and receipt.
fn of_site(copies: Copies<Came<Book>>) -> Copies<PartyOutcome>
    ensures answered { result.answered ≡ PartyOutcome.OfSite copies.answered }
    ensures recorded { result.recorded ≡ PartyOutcome.OfSite copies.recorded }
    ensures receipted { result.receipted ≡ PartyOutcome.OfSite copies.receipted }
{
    let Copies {
        answered,
        recorded,
        receipted,
    } = copies;
    Copies {
        answered: PartyOutcome::OfSite(answered),
        recorded: PartyOutcome::OfSite(recorded),
        receipted: PartyOutcome::OfSite(receipted),
    }
}

/// The outcome of an event at a node, for answer, history and receipt.
fn of_node(copies: Copies<Told<NodeFault>>) -> Copies<PartyOutcome>
    ensures answered { result.answered ≡ PartyOutcome.OfNode copies.answered }
    ensures recorded { result.recorded ≡ PartyOutcome.OfNode copies.recorded }
    ensures receipted { result.receipted ≡ PartyOutcome.OfNode copies.receipted }
{
    let Copies {
        answered,
        recorded,
        receipted,
    } = copies;
    Copies {
        answered: PartyOutcome::OfNode(answered),
        recorded: PartyOutcome::OfNode(recorded),
        receipted: PartyOutcome::OfNode(receipted),
    }
}

/// The outcome of an event at a client, for answer, history and receipt.
fn of_client(copies: Copies<Told<ClientFault>>) -> Copies<PartyOutcome>
    ensures answered { result.answered ≡ PartyOutcome.OfClient copies.answered }
    ensures recorded { result.recorded ≡ PartyOutcome.OfClient copies.recorded }
    ensures receipted { result.receipted ≡ PartyOutcome.OfClient copies.receipted }
{
    let Copies {
        answered,
        recorded,
        receipted,
    } = copies;
    Copies {
        answered: PartyOutcome::OfClient(answered),
        recorded: PartyOutcome::OfClient(recorded),
        receipted: PartyOutcome::OfClient(receipted),
    }
}

/// The outcome of a stray, for answer, history and receipt.
fn stray_copies() -> Copies<PartyOutcome>
    ensures answered { result.answered ≡ PartyOutcome.Stray }
    ensures recorded { result.recorded ≡ PartyOutcome.Stray }
    ensures receipted { result.receipted ≡ PartyOutcome.Stray }
{
    Copies {
        answered: PartyOutcome::Stray,
        recorded: PartyOutcome::Stray,
        receipted: PartyOutcome::Stray,
    }
}

impl<C: BootCell> PartyOf<C> {
    ghost use Rattle.std.specs.Prelude.{Option, Some, None};
    ghost use Rattle.vr_types.specs.Group.{actor_of};
    ghost use Rattle.pvp_book.specs.Ledger.{node_of};
    ghost use Rattle.pvp_parties.specs.Parties.{PartyState, Opens, Shows, held_of, number_of, party_over, setup_of};

    /// The site of this place in its group, over a cell. `Err` where memory is refused.
    pub fn site(alloc: Global, setup: &Setup, me: u16, cell: C) -> Result<Self, AllocError>
        requires valid { IsValid setup.now }
        requires known { me ≤ 2 * faults setup.now }
        ensures number { IfOk result (λ party. number_of party ≡ actor_of me) }
        ensures setup { IfOk result (λ party. setup_of party ≡ setup.now) }
        ensures opens { IfOk result (λ party. (x : PartyState) →
            Opens party (Some (C.held cell)) x → Shows C.BootCell party x) }
    {
        Ok(PartyOf::Site(SiteParty::<C>::new(alloc, setup, me, cell)?))
    }

    /// The node of a currency. `Err` where memory is refused.
    pub fn node(alloc: Global, setup: &Setup, ccy: u8) -> Result<Self, AllocError>
        requires valid { IsValid setup.now }
        requires known { ccy < length setup.now.currencies }
        ensures number { IfOk result (λ party. number_of party ≡ node_of ccy) }
        ensures setup { IfOk result (λ party. setup_of party ≡ setup.now) }
        ensures opens { IfOk result (λ party. (x : PartyState) → Opens party None x →
            Shows C.BootCell party x) }
    {
        Ok(PartyOf::Node(NodeParty::new(alloc, setup, ccy)?))
    }

    /// The client of this number, 0 for the operator or a member's. `Err` where memory is refused.
    pub fn client(setup: &Setup, number: u16) -> Result<Self, AllocError>
        requires valid { IsValid setup.now }
        requires known { number ≤ length setup.now.members }
        ensures number { IfOk result (λ party. number_of party ≡ number) }
        ensures setup { IfOk result (λ party. setup_of party ≡ setup.now) }
        ensures opens { IfOk result (λ party. (x : PartyState) → Opens party None x →
            Shows C.BootCell party x) }
    {
        Ok(PartyOf::Client(ClientParty::new(setup, number)?))
    }

    /// What its bank was set up with.
    pub fn setup(&self) -> &Setup
        ensures { result.now ≡ setup_of self.now }
    {
        match self {
            PartyOf::Site(site) => site.setup(),
            PartyOf::Node(node) => node.setup(),
            PartyOf::Client(client) => client.setup(),
        }
    }

    /// Its number as an actor.
    pub fn number(&self) -> u16
        ensures { result ≡ number_of self.now }
    {
        match self {
            PartyOf::Site(site) => site.number(),
            PartyOf::Node(node) => node.number(),
            PartyOf::Client(client) => client.number(),
        }
    }

    /// What a site's cell holds; a node and a client have none.
    pub fn held_boot(&self) -> Option<Boot>
        ensures { result ≡ held_of C.BootCell self.now }
    {
        match self {
            PartyOf::Site(site) => Some(site.held_boot()),
            _ => None,
        }
    }

    /// The same actor over another cell, which holds what a site's own does. A node and a client have none, and are the
    /// same over any.
    pub fn over<D: BootCell>(self, cell: D) -> PartyOf<D>
        requires { IfSome (held_of C.BootCell self) (λ own. D.held cell ≡ own) }
        ensures is { result ≡ party_over self cell }
        ensures number { number_of result ≡ number_of self }
        ensures setup { setup_of result ≡ setup_of self }
        ensures shows { (x : PartyState) → Shows C.BootCell self x → Shows D.BootCell result x }
        ensures opens { (opening : Option Boot) (x : PartyState) → Opens result opening x →
            Opens self opening x }
    {
        match self {
            PartyOf::Site(site) => PartyOf::Site(site.over(cell)),
            PartyOf::Node(node) => PartyOf::Node(node),
            PartyOf::Client(client) => PartyOf::Client(client),
        }
    }
}
