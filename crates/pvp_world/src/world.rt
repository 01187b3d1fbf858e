//! The world of a bank: the calls that take steps, and what can be read of it.
ghost use Rattle.std.specs.Prelude.{◌≡◌, ◌≢◌, ◌+◌, ◌*◌, ◌<◌, ◌==◌, ◌-◌, ◌≤◌, [], true, false, None, Some, Err, List, length, map, slice_get, if◌then◌else◌, IfOk, OnOk, IfErr, OnErr, option_map, vec_len, vec_capacity, min, count_by, is_some, IsTrue, ◌↔◌};
ghost use Rattle.vr_types.specs.Site.{is_running};
ghost use Rattle.pvp_world.specs.Progress.{may_be_open};

mod falls;

use crate::client::Client;
use crate::fault::WorldFault;
use crate::opening::{clients_of, held_by, nodes_of, sites_over};
use crate::post::{MOST_SENT, is_fall, put_in_room, serve};
use crate::report::Report;
use crate::trail::Trail;
use crate::turn::{beat, delivery};
use headline::{ClientEvent, Move, Turn};
use pvp_book::Book;
use pvp_types::{Setup, Step};
use rtgs_node::{Node, NodeEvent};
use std::alloc::{AllocError, Global};
use std::marker::Model;
use vr_site::Replica;
use vr_types::{Boot, BootCell, Envelope, Event, EventOf, MAX_ROWS, Status};

/// The bank in its world: 2f+1 sites over their boot cells, a node for each currency, the clients, and the post, which
/// has every envelope that was ever sent, numbered from 1. The trail has what was done.
#[derive(Drop)]
pub struct World<C: BootCell> {
    setup: Setup,
    /// What the sites' cells held at first.
    opening: Vec<Boot>,
    sites: Vec<Replica<Book, C>>,
    /// By currency.
    nodes: Vec<Node>,
    /// The operator, then the members.
    clients: Vec<Client>,
    post: Vec<Envelope<Book>>,
    trail: Trail,
}

impl<C: BootCell> Model for World<C> {
    ghost use Rattle.pvp_types.specs.Setup.{IsValid};
    ghost use Rattle.pvp_world.specs.World.{ShownWorld, IsAt, world_of};

    ghost Value = { ShownWorld C };

    ghost view = { λ a. world_of a.setup a.opening.items a.sites.items a.nodes.items a.clients.items
        a.post.items a.trail.items };

    ghost invariant = { λ a. IsValid a.setup × IsAt C.held
        (world_of a.setup a.opening.items a.sites.items a.nodes.items a.clients.items
        a.post.items a.trail.items) };
}

impl<C: BootCell> World<C> {
    ghost use Rattle.pvp_types.specs.Setup.{IsValid, faults};
    ghost use Rattle.rtgs_node.specs.declared.event.NodeEvent.{NodeEvent as AnyNodeEvent};
    ghost use Rattle.headline.specs.declared.step.Turn.TheVariants.{OfSite, OfNode, OfClient};
    ghost use Rattle.headline.specs.Bank.{turn};
    ghost use Rattle.pvp_world.specs.World.{IsAt, IsProved};
    ghost use Rattle.pvp_world.specs.Progress.{CanGoOn, GoesOn, can_go_on, unanswered_count, still_asked, has_room};
    ghost use Rattle.std.specs.List.{list_all};
    ghost use Rattle.pvp_world.specs.Steps.{Applies, AreTaken, IsStopped, AreReliable, TellsFailures, failures, has_number, has_actor, IsWhy, is_world_fall, InTurn};
    ghost use Rattle.pvp_world.specs.declared.fault.WorldFault.TheVariants.{Site as OfSiteFault, NoMemory as OutOfMemory};
    ghost use Rattle.vr_types.specs.declared.event.SiteFault.TheVariants.{CellFault};

    /// The world of a setup over one cell for each site, before anything was done: a site over a new cell is normal
    /// with an empty log; over any other cell it is down. `Err` where memory is refused.
    pub fn new(alloc: Global, setup: &Setup, cells: Vec<C>) -> Result<Self, AllocError>
        requires valid { IsValid setup.now }
        requires sites { length cells.items ≡ 2 * faults setup.now + 1 }
        ensures setup { IfOk result (λ world. world.setup ≡ setup.now) }
        ensures opening { IfOk result (λ world. world.opening ≡ map C.held cells.items) }
        ensures cells { IfOk result (λ world. map (λ site. site.cell) world.sites ≡ cells.items) }
        ensures trail { IfOk result (λ world. world.trail ≡ []) }
        ensures headline { IfOk result (IsProved C.held) }
    {
        let opening = held_by(alloc, cells.as_slice())?;
        let world = World {
            setup: setup.copy()?,
            opening,
            sites: sites_over(alloc, setup, cells)?,
            nodes: nodes_of(alloc, setup)?,
            clients: clients_of(alloc, setup)?,
            post: Vec::new(alloc),
            trail: Trail::new(alloc),
        };
        world.is_proved();
        Ok(world)
    }

    /// Takes a step: `NoSuchEnvelope` and `NoSuchActor` are tested first, then the actor handles its event. Answers
    /// what it sent, and why a site dropped the event, if it did. After an `Err` the world is as it was, except after
    /// a site's `NoMemory` or `CellFault`: then that site is down, and the trail has its fall; `CellFault` says that a
    /// save of its cell failed. An event that a site drops or refuses, and a crash, never end in this way. A step that
    /// was taken is on the trail.
    pub fn apply(&mut self, alloc: Global, step: Step) -> Result<Report, WorldFault>
        ensures applies { Applies C.held self.old self.new step result }
        ensures headline { IsProved C.held self.new }
        ensures tells { TellsFailures C.BootCell self.old self.new step result }
    {
        let result = self.take(alloc, step);
        self.is_proved();
        result
    }

    /// Takes steps one after another, up to the first that is not taken; the trail then has those before it, and,
    /// after a site's `NoMemory` or `CellFault`, that site's fall.
    pub fn run(&mut self, alloc: Global, steps: &[Step]) -> Result<(), WorldFault>
        ensures taken { OnOk result (AreTaken self.old self.new steps.now) }
        ensures stopped { IfErr result (IsStopped C.BootCell self.old self.new steps.now) }
        ensures headline { IsProved C.held self.new }
        ensures counted { result ≢ Err (OfSiteFault CellFault) →
            failures C.BootCell self.new ≡ failures C.BootCell self.old }
        ensures reliable { AreReliable C.BootCell self.old →
            AreReliable C.BootCell self.new × (result ≢ Err (OfSiteFault CellFault)) }
    {
        self.is_proved();
        for step in steps {
            if let Err(fault) = self.apply(alloc, *step) {
                return Err(fault);
            }
        }
        Ok(())
    }

    /// The headline for what the world shows, and for any two moments of its trail. It does nothing.
    pub fn is_proved(&self)
        ensures { IsProved C.held self.now }
    {
        let _ = &self.setup;
        headline::headline_and_replies();
        headline::one_bank();
    }

    /// Whether the bank has what it needs to go on: more sites run than may fail at once, no site's view is near its
    /// end, and each log has room for what is open and one row more: two rows for each client that waits, one for each
    /// notice without an answer, each open order and each row that is not executed. If it has, the trail is no dead end: by deliveries,
    /// beats, timers and restarts alone the bank can go on until its sites work in one view with one log, which begins
    /// with all that any site ever executed; each request and each notice is answered, each order is done or returned,
    /// and reported to the book; and nothing is on the way: each node's account is the figure of that log's book.
    pub fn can_go_on(&self) -> bool
        ensures is { result ≡ can_go_on self.now }
        ensures exact { IsTrue result ↔ CanGoOn self.now }
        ensures goes_on { IsTrue result → GoesOn self.now }
    {
        let _ = &self.setup;
        headline::one_bank();
        headline::progress();
        self.has_needs()
    }

    /// What the bank was set up with.
    pub fn setup(&self) -> &Setup
        ensures same { result.now ≡ self.now.setup }
        ensures valid { IsValid result.now }
    {
        &self.setup
    }

    /// A site, by its number.
    pub fn site(&self, site: u16) -> Option<&Replica<Book, C>>
        ensures { option_map (λ lent. lent.now) result ≡ slice_get self.now.sites site }
    {
        self.sites.get(usize::from(site))
    }

    /// A currency's node.
    pub fn node(&self, ccy: u8) -> Option<&Node>
        ensures { option_map (λ lent. lent.now) result ≡ slice_get self.now.nodes ccy }
    {
        self.nodes.get(usize::from(ccy))
    }

    /// A client, by its number: 0 for the operator, or a member's.
    pub fn client(&self, client: u16) -> Option<&Client>
        ensures { option_map (λ lent. lent.now) result ≡ slice_get self.now.clients client }
    {
        self.clients.get(usize::from(client))
    }

    /// How many envelopes were sent.
    pub fn post_len(&self) -> usize
        ensures { result ≡ length self.now.post }
    {
        self.post.len()
    }

    /// An envelope, by its number, counted from 1.
    pub fn envelope(&self, number: usize) -> Option<&Envelope<Book>>
        ensures { option_map (λ lent. lent.now) result
            ≡ (if number == 0 then None else slice_get self.now.post (number - 1)) }
    {
        self.post.get(number.checked_sub(1)?)
    }

    /// What was done: the steps that were taken, and the falls of sites.
    pub fn trail(&self) -> &Trail
        ensures { result.now.items ≡ self.now.trail }
    {
        &self.trail
    }

    /// Whether most sites run, and each site has room.
    fn has_needs(&self) -> bool
        ensures { result ≡ can_go_on self.now }
    {
        running_count(self.sites.as_slice()) > usize::from(self.setup.faults()) && self.have_room()
    }

    /// Whether each site has room.
    fn have_room(&self) -> bool
        ensures { result ≡ list_all (has_room self.now) self.now.sites }
    {
        let asked = self.still_asked();
        self.sites.iter().all(|site| self.has_room(site, asked))
    }

    /// How many rows are still to come of what was asked; if there are more than a log has room for, one more than that.
    fn still_asked(&self) -> usize
        ensures { result ≡ min (still_asked self.now) (MAX_ROWS + 1) }
    {
        let waiting = waiting_count(self.clients.as_slice()).min(MAX_ROWS + 1);
        (2 * waiting + self.unanswered_count()).min(MAX_ROWS + 1)
    }

    /// How many notices of nodes are not answered; if there are more than a log has room for, one more than that.
    fn unanswered_count(&self) -> usize
        ensures { result ≡ min (unanswered_count self.now) (MAX_ROWS + 1) }
    {
        let mut count = 0;
        for node in &self.nodes {
            count = (count + node.unanswered_count()).min(MAX_ROWS + 1);
        }
        count
    }

    /// Whether a site's view is not near its end, and its log has room for what is open.
    fn has_room(&self, site: &Replica<Book, C>, asked: usize) -> bool
        requires { asked ≡ min (still_asked self.now) (MAX_ROWS + 1) }
        ensures { result ≡ has_room self.now site.now }
    {
        let sites = 2 * u64::from(self.setup.faults()) + 1;
        let rows = site.log_len();
        u64::from(site.view()) + 2 * sites <= u64::from(u32::MAX)
            && rows <= MAX_ROWS
            && rows + may_be_open(site) + asked < MAX_ROWS
    }

    /// Takes a step.
    fn take(&mut self, alloc: Global, step: Step) -> Result<Report, WorldFault>
        ensures applies { Applies C.held self.old self.new step result }
        ensures tells { TellsFailures C.BootCell self.old self.new step result }
    {
        match self.turn(alloc, step)? {
            Turn::OfSite(site, event) => self.at_site(alloc, step, site, event),
            Turn::OfNode(ccy, event) => self.at_node(step, ccy, event),
            Turn::OfClient(client, event) => self.at_client(alloc, step, client, event),
        }
    }

    /// The actor that a step is for, which is there, and its event; else why there is none.
    fn turn(&self, alloc: Global, step: Step) -> Result<Turn, WorldFault>
        ensures is { IfOk result (λ t. turn self.now.post step ≡ Some t) }
        ensures there { IfOk result (λ t. has_actor self.now t ≡ true) }
        ensures fault { IfErr result (IsWhy C.held self.now step) }
        ensures stays { IfErr result (λ fault. is_world_fall fault ≡ false) }
    {
        let turn = match step {
            Step::Deliver(number) => return self.arrival(alloc, number),
            Step::PayIn { ccy, member, amt } => {
                Turn::OfNode(u16::from(ccy), NodeEvent::PaysIn { member, amt })
            }
            Step::Close { ccy, member } => Turn::OfNode(u16::from(ccy), NodeEvent::Closes(member)),
            Step::Submit { client, cmd } => Turn::OfClient(client, ClientEvent::Submits(cmd)),
            Step::Beat(actor) => beat(actor),
            Step::Timer(site) => Turn::OfSite(site, EventOf::Timer),
            Step::Crash(site) => Turn::OfSite(site, EventOf::Crash),
            Step::Restart(site) => Turn::OfSite(site, EventOf::Restart),
        };
        if !self.has_actor(&turn) {
            return Err(WorldFault::NoSuchActor);
        }
        Ok(turn)
    }

    /// The turn of the actor that the envelope of a number is addressed to.
    fn arrival(&self, alloc: Global, number: usize) -> Result<Turn, WorldFault>
        ensures is { IfOk result (λ t. turn self.now.post (Step.Deliver number) ≡ Some t) }
        ensures there { IfOk result (λ t. has_actor self.now t ≡ true) }
        ensures fault { IfErr result (IsWhy C.held self.now (Step.Deliver number)) }
        ensures stays { IfErr result (λ fault. is_world_fall fault ≡ false) }
    {
        let Some(envelope) = self.envelope(number) else {
            return Err(WorldFault::NoSuchEnvelope);
        };
        if !self.has_number(envelope.to) {
            return Err(WorldFault::NoSuchActor);
        }
        match envelope.copy(alloc) {
            Ok(copy) => Ok(delivery(copy)),
            Err(_) => Err(WorldFault::NoMemory),
        }
    }

    /// Whether the actor of a number is there: a client's from 0, a node's from 101, a site's from 200.
    pub fn has_number(&self, actor: u16) -> bool
        ensures { result ≡ has_number self.now actor }
    {
        self.has_actor(&beat(actor))
    }

    /// Whether the actor of a turn is there.
    fn has_actor(&self, turn: &Turn) -> bool
        ensures { result ≡ has_actor self.now turn.now }
    {
        match turn {
            Turn::OfSite(site, _) => usize::from(*site) < self.sites.len(),
            Turn::OfNode(ccy, _) => usize::from(*ccy) < self.nodes.len(),
            Turn::OfClient(client, _) => usize::from(*client) < self.clients.len(),
        }
    }

    /// A site handles its event. Room for the step or the fall is made on the trail before the site is asked.
    fn at_site(
        &mut self,
        alloc: Global,
        step: Step,
        site: u16,
        event: Event<Book>,
    ) -> Result<Report, WorldFault>
        requires turn { turn self.old.post step ≡ Some (OfSite site event) }
        requires there { site < length self.old.sites }
        ensures applies { Applies C.held self.old self.new step result }
        ensures tells { TellsFailures C.BootCell self.old self.new step result }
    {
        let Ok(()) = self.trail.reserve() else {
            return Err(WorldFault::NoMemory);
        };
        let site = &mut self.sites[usize::from(site)];
        match serve(alloc, site, event, &mut self.post) {
            Ok(report) => {
                self.trail.push(Move::Takes(step));
                Ok(report)
            }
            Err(fault) => {
                if is_fall(fault) {
                    let cell = site.boot();
                    self.trail.push(Move::Falls(step, cell));
                }
                Err(WorldFault::Site(fault))
            }
        }
    }

    /// A node handles its event. Room is made on the trail and on the post before the node is asked.
    fn at_node(&mut self, step: Step, ccy: u16, event: NodeEvent) -> Result<Report, WorldFault>
        requires turn { turn self.old.post step ≡ Some (OfNode ccy event) }
        requires there { ccy < length self.old.nodes }
        ensures applies { Applies C.held self.old self.new step result }
        ensures sites { self.new.sites ≡ self.old.sites }
        ensures no_cell_fault { result ≢ Err (OfSiteFault CellFault) }
    {
        let Ok(()) = make_room(&mut self.trail, &mut self.post) else {
            return Err(WorldFault::NoMemory);
        };
        match self.nodes[usize::from(ccy)].handle(event) {
            Ok(sent) => {
                self.trail.push(Move::Takes(step));
                Ok(put_in_room(&mut self.post, sent))
            }
            Err(fault) => Err(WorldFault::Node(fault)),
        }
    }

    /// A client handles its event. Room is made on the trail and on the post before the client is asked.
    fn at_client(
        &mut self,
        alloc: Global,
        step: Step,
        client: u16,
        event: ClientEvent,
    ) -> Result<Report, WorldFault>
        requires turn { turn self.old.post step ≡ Some (OfClient client event) }
        requires there { client < length self.old.clients }
        ensures applies { Applies C.held self.old self.new step result }
        ensures sites { self.new.sites ≡ self.old.sites }
        ensures no_cell_fault { result ≢ Err (OfSiteFault CellFault) }
    {
        let Ok(()) = make_room(&mut self.trail, &mut self.post) else {
            return Err(WorldFault::NoMemory);
        };
        match self.clients[usize::from(client)].handle(alloc, event) {
            Ok(sent) => {
                self.trail.push(Move::Takes(step));
                Ok(put_in_room(&mut self.post, sent))
            }
            Err(fault) => Err(WorldFault::of_client(fault)),
        }
    }
}

/// Whether a site runs: it is normal, or in a view change.
fn runs<C: BootCell>(site: &Replica<Book, C>) -> bool
    ensures { result ≡ is_running site.now.volatile.status }
{
    matches!(site.status(), Status::Normal | Status::Change)
}

/// How many of these sites run.
fn running_count<C: BootCell>(sites: &[Replica<Book, C>]) -> usize
    ensures { result ≡ count_by (λ site. is_running site.volatile.status) sites.now }
{
    let mut count = 0;
    for site in sites {
        if runs(site) {
            count += 1;
        }
    }
    count
}

/// How many of these clients wait for an answer.
fn waiting_count(clients: &[Client]) -> usize
    ensures { result ≡ count_by (λ client. is_some client.client.waiting) clients.now }
{
    let mut count = 0;
    for client in clients {
        if client.is_waiting() {
            count += 1;
        }
    }
    count
}

/// How many orders may be open in a site's log: those of its book, and one for each row that it has not executed. If
/// there are more than a log has room for, one more than that.
fn may_be_open<C: BootCell>(site: &Replica<Book, C>) -> usize
    ensures { result ≡ min (may_be_open site.now) (MAX_ROWS + 1) }
{
    let rows = site.log_len();
    let count = match site.machine() {
        Some(book) => {
            let rest = rows.saturating_sub(site.done());
            book.open_count().saturating_add(rest)
        }
        None => rows,
    };
    count.min(MAX_ROWS + 1)
}

/// Makes room for one move and for all that a node or a client sends at once. `Err` where memory is refused.
fn make_room(trail: &mut Trail, post: &mut Vec<Envelope<Book>>) -> Result<(), AllocError>
    ensures moves { trail.new.items ≡ trail.old.items }
    ensures envelopes { post.new.items ≡ post.old.items }
    ensures room { OnOk result (0 < trail.new.room) }
    ensures post_room { OnOk result (vec_len post.new + 7 ≤ vec_capacity post.new) }
{
    trail.reserve()?;
    post.reserve(MOST_SENT)
}
