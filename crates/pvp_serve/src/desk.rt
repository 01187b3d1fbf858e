//! A node or a client that is served: what its loop keeps beside the actor, and what it does with what comes.
ghost use Rattle.std.specs.Prelude.{
  ◌≡◌,
  ◌⊎◌,
  true,
  ◌∷◌,
  [],
  None,
  false,
  IfErr,
  IfNone,
  IfOk,
  IfSome,
  IsOk,
  IsSome,
  IsTrue,
  OnErr,
  OnOk,
};
ghost use Rattle.vr_types.specs.Actors.{id_of};
ghost use Rattle.rtgs_node.specs.declared.event.NodeEvent.TheVariants as node_event;
ghost use Rattle.headline.specs.declared.step.ClientEvent.TheVariants as client_event;
ghost use Rattle.pvp_parties.specs.declared.party.PartyEvent.TheVariants.{OfClient, OfNode};
ghost use Rattle.pvp_places.specs.declared.serving.ServeFault.TheVariants.{NoMemory};
ghost use Rattle.pvp_journal.specs.Rooms.{bank_texts};
ghost use Rattle.pvp_serve.specs.Desks.{
  BeatsClient,
  BeatsNode,
  IsElseAsAfter,
  IsElseAsItWas,
  after_hearing,
  awaits,
  comes_to_actor,
  event_of,
  full_after,
  is_busy,
  is_done,
  is_node,
  lanes_after,
  last_may_say_more,
  last_told,
  made,
  may_say_more,
  next_wait,
  refusal,
  waits_told,
};
ghost use Rattle.pvp_serve.specs.Serving.{Comes, IsSafeIn, lost_with, request_in};
ghost use Rattle.pvp_serve.specs.Terminals.{
  AsksAll,
  AsksUntil,
  Beats,
  Handles,
  IsAsItWas,
  IsDone,
  IsDoneUnless,
  IsEventLost,
  IsLineDone,
  IsLineLost,
  IsNotPaid,
  IsPutBehind,
  IsTrouble,
  IsUnbeaten,
  IsUndone,
  IsUnhandled,
  IsUnsaid,
  IsUnserved,
  Pays,
  TakesItem,
  asked_next,
  after_hearing_if,
};

use crate::admission::refusal_of;
use crate::answers::{Told, last_told, tell_outcome, tell_owed, tell_refusal};
use crate::heading::{Heading, Level};
use crate::host::Host;
use crate::inbox::Inbox;
use crate::lanes::Lanes;
use crate::lines::event_of;
use crate::serving::{Request, Serving};
use crate::telling::tell_unshown;
use headline::ClientEvent;
use pvp_book::Book;
use pvp_journal::{Letter, Log};
use pvp_links::Arrival;
use pvp_parties::{PartyEvent, PartyOf, PartyOutcome};
use pvp_places::{ServeFault, TerminalWhy};
use pvp_rooms::Actor;
use pvp_types::{Reply, Setup};
use rtgs_node::NodeEvent;
use std::alloc::Global;
use std::collections::VecDeque;
use vr_types::{ActorId, BootCell, Envelope, MsgOf};

/// At every which tick a client that waits says so.
const TELLING_TICKS: u32 = 100;

/// A line that was read at the terminal, and its number there, counted from 1.
#[derive(Drop)]
struct Asked {
    number: u32,
    text: Vec<u8>,
}

/// What a node's or a client's loop keeps beside the actor itself.
#[derive(Drop)]
pub struct TerminalDesk {
    setup: Setup,
    lines: VecDeque<Asked>,
    /// How many lines came.
    number: u32,
    /// Whether its answer is awaited, or its beat may say something.
    waits: bool,
    ended: bool,
    stays: bool,
    /// How many beats a client has waited.
    ticks: u32,
    /// The number and the answer of a request, where it came and is not printed yet.
    owes: Option<(u32, Reply)>,
    /// How many requests its actor had made as a site reported that the log is full; `None` where
    /// none did.
    full: Option<u32>,
}

impl TerminalDesk {
    /// The desk of an actor that was asked for nothing at this terminal.
    pub fn new(alloc: Global, setup: Setup, stays: bool, request: Option<Request>) -> Self
        ensures waits { result.waits ≡ awaits request }
        ensures lines { result.lines.items ≡ [] }
        ensures rest { result ≡ record {
          setup = setup;
          lines = result.lines;
          number = 0;
          waits = result.waits;
          ended = false;
          stays = stays;
          ticks = 0;
          owes = None;
          full = None;
        } }
    {
        TerminalDesk {
            setup,
            lines: VecDeque::new(alloc),
            number: 0,
            waits: awaits(request),
            ended: false,
            stays,
            ticks: 0,
            owes: None,
            full: None,
        }
    }

    /// Whether nothing is left to be done at this terminal.
    fn is_done(&self, request: Option<Request>) -> bool
        ensures { result ≡ is_done request self.now }
    {
        self.ended && !self.stays && !self.is_busy(request) && self.lines.is_empty()
    }

    /// Takes an envelope. A client asks next the site that answered it; and a node may have something to say from now on.
    fn take_frame<R: Host, C: BootCell, L: Log>(
        &mut self,
        rt: R,
        serving: &mut Serving<C, L, Lanes>,
        arrival: Arrival,
        latest: u64,
    ) -> Result<(), ServeFault>
        ensures comes { Comes ⟦<PartyOf<C> as Actor>⟧ bank_texts L.seen latest arrival.stamped
            serving.old.room serving.new.room result }
        ensures desk { self.new ≡ after_hearing_if result (request_in serving.new.room) self.old }
        ensures rest { serving.new ≡ record serving.old {
          room = serving.new.room;
          out = record serving.old.out {
            favoured = asked_next (id_of serving.old.me) arrival.stamped.envelope
                serving.old.out.favoured;
          };
          lost = lost_with latest arrival.stamped.stamp serving.old.lost;
        } }
    {
        asks_next(serving, &arrival.stamped_envelope().envelope);
        serving.take_frame(rt.alloc(), arrival, latest)?;
        self.hears(serving.request());
        Ok(())
    }

    /// A client whose answer came owes it to the terminal.
    fn hears(&mut self, request: Option<Request>)
        ensures { self.new ≡ after_hearing request self.old }
    {
        let Some(request) = request else {
            self.waits = true;
            return;
        };
        if let (Some(reply), true) = (request.answer, self.waits) {
            self.waits = false;
            self.ticks = 0;
            self.owes = Some((request.number, reply));
        }
    }

    /// A tick goes by: what may have been lost is said again. An idle actor writes nothing.
    fn tick<R: Host, C: BootCell, L: Log>(
        &mut self,
        rt: R,
        serving: &mut Serving<C, L, Lanes>,
    ) -> Result<(), ServeFault>
        ensures beats { OnOk result (
            Beats ⟦<PartyOf<C> as Actor>⟧ bank_texts L.seen (id_of serving.old.me)
            (record { desk = self.old; room = serving.old.room })
            (record { desk = self.new; room = serving.new.room })) }
        ensures idle { self.old.waits ≡ false → IsOk result × (serving.new ≡ serving.old) }
        ensures early { IsTrue self.old.waits → is_node (id_of serving.old.me) ≡ false →
            self.old.ticks ≡ 0 → IsOk result × (serving.new ≡ serving.old) }
        ensures refused { IfErr result (λ fault.
            IsUnbeaten ⟦<PartyOf<C> as Actor>⟧ bank_texts L.seen
            (id_of serving.old.me) serving.old.room serving.new.room fault) }
        ensures stays { OnErr result (self.new ≡ self.old) }
        ensures rest { IsElseAsItWas serving.old serving.new }
    {
        if !self.waits {
            return Ok(());
        }
        match ActorId::of(serving.me()) {
            ActorId::Node(_) => self.beat_node(rt, serving),
            // The tick that follows a request is too early.
            _ if self.ticks == 0 => {
                self.ticks = 1;
                Ok(())
            }
            _ => self.beat_client(rt, serving),
        }
    }

    /// A node beats, and waits on where that sent something.
    fn beat_node<R: Host, C: BootCell, L: Log>(
        &mut self,
        rt: R,
        serving: &mut Serving<C, L, Lanes>,
    ) -> Result<(), ServeFault>
        ensures beats { OnOk result (BeatsNode ⟦<PartyOf<C> as Actor>⟧ bank_texts L.seen
            serving.old.room serving.new.room self.new.waits) }
        ensures refused { IfErr result (λ fault. IsUndone ⟦<PartyOf<C> as Actor>⟧ bank_texts L.seen
            (OfNode node_event.Beats) serving.old.room serving.new.room fault) }
        ensures desk { self.new ≡ record self.old { waits = self.new.waits } }
        ensures stays { OnErr result (self.new ≡ self.old) }
        ensures rest { IsElseAsItWas serving.old serving.new }
    {
        serving.take_event(rt.alloc(), PartyEvent::OfNode(NodeEvent::Beats))?;
        let letters = serving.flush(&rt, rt.alloc(), false)?;
        self.waits = has_sent(letters.as_slice());
        Ok(())
    }

    /// A client says its request again, to all sites.
    fn beat_client<R: Host, C: BootCell, L: Log>(
        &mut self,
        rt: R,
        serving: &mut Serving<C, L, Lanes>,
    ) -> Result<(), ServeFault>
        ensures beats { OnOk result (BeatsClient ⟦<PartyOf<C> as Actor>⟧ bank_texts L.seen
            serving.old.room serving.new.room) }
        ensures to_all { OnOk result (serving.new.out.favoured ≡ None) }
        ensures refused { IfErr result (λ fault.
            IsUnsaid ⟦<PartyOf<C> as Actor>⟧ bank_texts L.seen (OfClient client_event.Beats)
            serving.old.room serving.new.room fault) }
        ensures desk { OnOk result (self.new
            ≡ record self.old { ticks = next_wait self.old.ticks }) }
        ensures stays { OnErr result (self.new ≡ self.old) }
        ensures rest { IsElseAsItWas serving.old serving.new }
    {
        let _letters = serving.flush(&rt, rt.alloc(), false)?;
        serving.out_mut().favours(None);
        serving.take_event(rt.alloc(), PartyEvent::OfClient(ClientEvent::Beats))?;
        self.tell_waiting(rt, serving.me(), serving.request());
        Ok(())
    }

    /// Reports from time to time that a client waits.
    fn tell_waiting<R: Host>(&mut self, rt: R, me: u16, request: Option<Request>)
        ensures { self.new ≡ record self.old { ticks = next_wait self.old.ticks } }
    {
        self.ticks = self.ticks.saturating_add(1);
        if self.ticks < TELLING_TICKS {
            return;
        }
        self.ticks = 0;
        if let Some(request) = request {
            let number = request.number;
            let head = Heading::new(&rt, rt.alloc(), &self.setup, me, Level::Warn);
            let _told = eprintln!(rt; "{head}waits {number}");
        }
    }

    /// A site pings a client or a node where the log is full: that is printed once.
    fn tell_full<R: Host>(&mut self, rt: R, me: u16, request: Option<Request>)
        ensures { self.new ≡ full_after request self.old }
    {
        if self.full.is_some() {
            return;
        }
        self.full = Some(made(request));
        let head = Heading::new(&rt, rt.alloc(), &self.setup, me, Level::Warn);
        let _told = eprintln!(rt; "{head}full");
    }

    /// Why this terminal does not ask for an event of its actor, whose last request this is.
    fn refusal(&self, me: u16, request: Option<Request>, event: &PartyEvent) -> Option<TerminalWhy>
        ensures { result ≡ refusal me self.now request event.now }
    {
        match (event, request) {
            (PartyEvent::OfClient(ClientEvent::Submits(cmd)), Some(request)) => {
                let members = self.setup.members.len();
                refusal_of(me, self.full, members, request.number, *cmd)
            }
            (PartyEvent::OfNode(NodeEvent::PaysIn { .. }), _) if self.full.is_some() => {
                Some(TerminalWhy::Full)
            }
            _ => None,
        }
    }

    /// Asks for what is next, one at a time.
    fn ask<R: Host, C: BootCell, L: Log>(
        &mut self,
        rt: R,
        serving: &mut Serving<C, L, Lanes>,
    ) -> Result<(), ServeFault>
        ensures asks { OnOk result (
            AsksAll ⟦<PartyOf<C> as Actor>⟧ bank_texts L.seen
            (IsSafeIn L.seen L.synced serving.old.syncs) serving.old.me
            (record { desk = self.old; room = serving.old.room })
            (record { desk = self.new; room = serving.new.room })) }
        ensures refused { IfErr result (λ fault.
            AsksUntil ⟦<PartyOf<C> as Actor>⟧ bank_texts L.seen
            (IsSafeIn L.seen L.synced serving.old.syncs) serving.old.me
            (record { desk = self.old; room = serving.old.room })
            (record { desk = self.new; room = serving.new.room }) fault) }
        ensures rest { IsElseAsItWas serving.old serving.new }
    {
        for _ in 0..self.lines.len() {
            let Some(asked) = self.next_line(serving.request()) else {
                break;
            };
            self.ask_one(rt, serving, &asked)?;
        }
        Ok(())
    }

    /// The line that is next; `None` where an answer is awaited or no line waits.
    fn next_line(&mut self, request: Option<Request>) -> Option<Asked>
        ensures next { IfSome result (λ asked. (is_busy request self.old.waits ≡ false)
            × (self.old.lines.items ≡ asked ∷ self.new.lines.items)) }
        ensures none { IfNone result ((self.new ≡ self.old)
            × ((is_busy request self.old.waits ≡ true) ⊎ (self.old.lines.items ≡ []))) }
        ensures rest { self.new ≡ record self.old { lines = self.new.lines } }
    {
        if self.is_busy(request) || self.lines.is_empty() {
            return None;
        }
        self.lines.pop_front()
    }

    /// Whether a client waits for an answer.
    fn is_busy(&self, request: Option<Request>) -> bool
        ensures { result ≡ is_busy request self.now.waits }
    {
        request.is_some() && self.waits
    }

    /// Does what a line asks for, or reports what is wrong with it.
    fn ask_one<R: Host, C: BootCell, L: Log>(
        &mut self,
        rt: R,
        serving: &mut Serving<C, L, Lanes>,
        asked: &Asked,
    ) -> Result<(), ServeFault>
        ensures done { OnOk result (
            IsLineDone ⟦<PartyOf<C> as Actor>⟧ bank_texts L.seen
            (IsSafeIn L.seen L.synced serving.old.syncs) serving.old.me
            (event_of self.old.setup serving.old.me asked.now.text.items)
            serving.old.room serving.new.room self.old self.new) }
        ensures refused { IfErr result (λ fault.
            IsLineLost ⟦<PartyOf<C> as Actor>⟧ bank_texts L.seen serving.old.me self.old
            (event_of self.old.setup serving.old.me asked.now.text.items)
            serving.old.room serving.new.room fault) }
        ensures stays { OnErr result (self.new ≡ self.old) }
        ensures rest { IsElseAsItWas serving.old serving.new }
    {
        let alloc = rt.alloc();
        let Ok(read) = event_of(alloc, &self.setup, serving.me(), asked.text.as_slice()) else {
            return Err(ServeFault::NoMemory);
        };
        match read {
            Ok(None) => Ok(()),
            Ok(Some(event)) => self.ask_for(rt, serving, event),
            Err(code) => {
                let number = asked.number;
                let head = Heading::new(&rt, alloc, &self.setup, serving.me(), Level::Warn);
                let _told = eprintln!(rt; "{head}fault line {number} {code}");
                Ok(())
            }
        }
    }

    /// Does what a line asks for, unless it is refused.
    fn ask_for<R: Host, C: BootCell, L: Log>(
        &mut self,
        rt: R,
        serving: &mut Serving<C, L, Lanes>,
        event: PartyEvent,
    ) -> Result<(), ServeFault>
        ensures done { OnOk result (
            IsDoneUnless ⟦<PartyOf<C> as Actor>⟧ bank_texts L.seen
            (IsSafeIn L.seen L.synced serving.old.syncs)
            (refusal serving.old.me self.old (request_in serving.old.room) event) event
            serving.old.room serving.new.room self.old self.new) }
        ensures refused { IfErr result (λ fault.
            IsEventLost ⟦<PartyOf<C> as Actor>⟧ bank_texts L.seen
            (refusal serving.old.me self.old (request_in serving.old.room) event) event
            serving.old.room serving.new.room fault) }
        ensures stays { OnErr result (self.new ≡ self.old) }
        ensures rest { IsElseAsItWas serving.old serving.new }
    {
        if let Some(why) = self.refusal(serving.me(), serving.request(), &event) {
            return tell_refusal(rt, why);
        }
        self.do_asked(rt, serving, event)
    }

    /// Does what was asked for, and prints the outcome.
    fn do_asked<R: Host, C: BootCell, L: Log>(
        &mut self,
        rt: R,
        serving: &mut Serving<C, L, Lanes>,
        event: PartyEvent,
    ) -> Result<(), ServeFault>
        ensures done { OnOk result (
            IsDone ⟦<PartyOf<C> as Actor>⟧ bank_texts L.seen
            (IsSafeIn L.seen L.synced serving.old.syncs) event
            serving.old.room serving.new.room self.old self.new) }
        ensures refused { IfErr result (λ fault.
            IsUnserved ⟦<PartyOf<C> as Actor>⟧ bank_texts L.seen event
            serving.old.room serving.new.room fault) }
        ensures stays { OnErr result (self.new ≡ self.old) }
        ensures rest { IsElseAsItWas serving.old serving.new }
    {
        serving.take_event(rt.alloc(), event)?;
        let letters = serving.flush(&rt, rt.alloc(), true)?;
        let told = last_told(letters.as_slice());
        tell_owed(rt, self.owes)?;
        tell_outcome(rt, told)?;
        self.owes = None;
        self.waits = waits_told(serving.request(), told);
        Ok(())
    }

    /// Takes what came.
    fn handle<R: Host, C: BootCell, L: Log>(
        &mut self,
        rt: R,
        serving: &mut Serving<C, L, Lanes>,
        item: Inbox,
    ) -> Result<(), ServeFault>
        ensures handles { OnOk result (
            Handles ⟦<PartyOf<C> as Actor>⟧ bank_texts L.seen serving.old.me item
            (record { desk = self.old; room = serving.old.room })
            (record { desk = self.new; room = serving.new.room })) }
        ensures refused { IfErr result (λ fault.
            IsUnhandled ⟦<PartyOf<C> as Actor>⟧ bank_texts L.seen serving.old.me item
            serving.old.room serving.new.room fault) }
        ensures stays { OnErr result (IsAsItWas self.old self.new) }
        ensures rest { IsElseAsAfter item serving.old serving.new }
        ensures streams { comes_to_actor item ≡ false → OnOk result (serving.new.out.all.items
            ≡ lanes_after item serving.old.out.all.items) }
    {
        match item {
            Inbox::Frame(arrival, latest) => self.take_frame(rt, serving, arrival, latest),
            Inbox::Tick => self.tick(rt, serving),
            Inbox::Came(lane) => serving.out_mut().meets(lane),
            Inbox::Gone { peer, stream, .. } => {
                let _stood = serving.out_mut().loses(peer, stream);
                Ok(())
            }
            Inbox::Ping(_) => {
                self.tell_full(rt, serving.me(), serving.request());
                Ok(())
            }
            Inbox::Unshown { peer, why } => {
                tell_unshown(rt, &self.setup, serving.me(), peer, why);
                Ok(())
            }
            Inbox::Away(_) | Inbox::Look(_) => Ok(()),
            Inbox::Line(text) => self.take_line(text),
            Inbox::End => {
                self.ended = true;
                Ok(())
            }
        }
    }

    /// A line came, which waits for its turn.
    fn take_line(&mut self, text: Vec<u8>) -> Result<(), ServeFault>
        ensures waits { OnOk result (IsPutBehind text self.old self.new) }
        ensures refused { IfErr result (λ fault. fault ≡ NoMemory) }
        ensures stays { OnErr result (IsAsItWas self.old self.new) }
    {
        let number = self.number.saturating_add(1);
        let Ok(()) = self.lines.push_back(Asked { number, text }) else {
            return Err(ServeFault::NoMemory);
        };
        self.number = number;
        Ok(())
    }

    /// Tells the answer that is owed, once all that was taken is in the journal.
    fn pay_answer<R: Host, C: BootCell, L: Log>(
        &mut self,
        rt: R,
        serving: &mut Serving<C, L, Lanes>,
    ) -> Result<(), ServeFault>
        ensures pays { OnOk result (
            Pays ⟦<PartyOf<C> as Actor>⟧ bank_texts L.seen
            (IsSafeIn L.seen L.synced serving.old.syncs) self.old.owes
            (record { desk = self.old; room = serving.old.room })
            (record { desk = self.new; room = serving.new.room })) }
        ensures refused { IfErr result (λ fault. IsSome self.old.owes
            × IsNotPaid ⟦<PartyOf<C> as Actor>⟧ bank_texts L.seen
            serving.old.room serving.new.room fault) }
        ensures stays { OnErr result (self.new ≡ self.old) }
        ensures rest { IsElseAsItWas serving.old serving.new }
    {
        if self.owes.is_some() {
            let _letters = serving.flush(&rt, rt.alloc(), true)?;
            tell_owed(rt, self.owes)?;
            self.owes = None;
        }
        Ok(())
    }

    /// Takes what came. `false` where the process is to end.
    pub fn take<R: Host, C: BootCell, L: Log>(
        &mut self,
        rt: R,
        serving: &mut Serving<C, L, Lanes>,
        item: Inbox,
    ) -> Result<bool, ServeFault>
        ensures takes { IfOk result (λ goes_on.
            TakesItem ⟦<PartyOf<C> as Actor>⟧ bank_texts L.seen
            (IsSafeIn L.seen L.synced serving.old.syncs) serving.old.me item
            (record { desk = self.old; room = serving.old.room })
            (record { desk = self.new; room = serving.new.room }) goes_on) }
        ensures refused { IfErr result (λ fault.
            IsTrouble ⟦<PartyOf<C> as Actor>⟧ bank_texts L.seen
            (IsSafeIn L.seen L.synced serving.old.syncs) serving.old.me item
            (record { desk = self.old; room = serving.old.room })
            (record { desk = self.new; room = serving.new.room }) fault) }
        ensures rest { IsElseAsAfter item serving.old serving.new }
    {
        self.handle(rt, serving, item)?;
        self.ask(rt, serving)?;
        self.pay_answer(rt, serving)?;
        Ok(!self.is_done(serving.request()))
    }
}

/// A client asks next the site that answered it, and that alone.
fn asks_next<C: BootCell, L: Log>(serving: &mut Serving<C, L, Lanes>, envelope: &Envelope<Book>)
    ensures { serving.new ≡ record serving.old {
      out = record serving.old.out {
        favoured = asked_next (id_of serving.old.me) envelope.now serving.old.out.favoured;
      };
    } }
{
    let ActorId::Client(_) = ActorId::of(serving.me()) else {
        return;
    };
    if let MsgOf::Reply(_) = &envelope.msg {
        serving.out_mut().favours(Some(envelope.from));
    }
}

/// How many requests of its own an actor made.
fn made(request: Option<Request>) -> u32
    ensures { result ≡ made request }
{
    match request {
        Some(request) => request.number,
        None => 0,
    }
}

/// Whether a client waits for an answer; of a node whether its beat may say something, which is so at the start.
fn awaits(request: Option<Request>) -> bool
    ensures { result ≡ awaits request }
{
    match request {
        Some(request) => request.number > 0 && request.answer.is_none(),
        None => true,
    }
}

/// Whether an answer is awaited once that was printed: of a client that may not ask, what was before.
fn waits_told(request: Option<Request>, told: Told) -> bool
    ensures { result ≡ waits_told request told true }
{
    match told {
        Told::Misplaced => awaits(request),
        _ => true,
    }
}

/// Whether the last event sent anything.
fn has_sent(letters: &[Letter<PartyOutcome>]) -> bool
    ensures { result ≡ last_may_say_more letters.now }
{
    match letters.last() {
        Some(letter) => may_say_more(&letter.outcome),
        None => true,
    }
}

/// Whether an actor may have more to say after an event that came out so: a node has not whose beat sent nothing.
fn may_say_more(outcome: &PartyOutcome) -> bool
    ensures { result ≡ may_say_more outcome.now }
{
    match outcome {
        PartyOutcome::OfNode(Ok(sent)) => !sent.is_empty(),
        _ => true,
    }
}
