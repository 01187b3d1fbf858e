//! An actor that is served: its room, and where what it sends goes.
ghost use Rattle.std.specs.Prelude.{
  ◌≡◌,
  ◌≢◌,
  true,
  false,
  [],
  Some,
  None,
  IfOk,
  IfErr,
  OnOk,
  OnErr,
  IsOk,
  IsTrue,
  option_copied,
  option_map,
};
ghost use Rattle.std.specs.Borrow.{Lends, sem};
ghost use Rattle.std.specs.List.{list_any};
ghost use Rattle.pvp_rooms.specs.Gates.{Hears};
ghost use Rattle.pvp_journal.specs.Rooms.{bank_texts};
ghost use Rattle.pvp_serve.specs.contracts.serving.Serving.{the_row};
ghost use Rattle.pvp_serve.specs.Serving.{
  Comes,
  HasFlushed,
  IsIdle,
  IsRefused,
  IsUnwritten,
  OutlivesIn,
  TakesIn,
  has_orders_in,
  is_far,
  leaves,
  lost_with,
  nonce_in,
  own_input,
  puts_in,
  puts_of,
  request_in,
  seen_in,
  sends,
  standing_in,
  waiting_in,
};

use crate::admission::Seen;
use crate::written::{Written, put_back, write_in};
use pvp_journal::{JournalRoom, Journaled, Letter, Log, Posted};
use pvp_links::{Arrival, Outbox, Served};
use pvp_parties::{Party, PartyEvent, PartyOf, PartyOutcome};
use pvp_places::ServeFault;
use pvp_rooms::{Actor, Input};
use pvp_types::Reply;
use pvp_wire::{Stamp, Stamped};
use std::alloc::Global;
use std::sync::Wait;
use vr_types::{ActorId, BootCell, Status};

/// Below which clock a site's frames are accepted: far beyond what any actor reaches, and far from
/// the end of clocks.
const SITE_CLOCKS: u64 = 1 << 63;

/// Frames that were dropped because their clocks were too far ahead.
#[derive(Clone, Copy, Debug)]
pub struct Lost {
    pub count: u64,
    /// Who stamped the last of them.
    pub last: Option<u16>,
}

/// The last request of a client.
#[derive(Clone, Copy, Debug)]
pub struct Request {
    /// 0 before the first.
    pub number: u32,
    pub answer: Option<Reply>,
}

/// A site's status.
#[derive(Clone, Copy, Debug)]
pub struct Standing {
    pub status: Status,
    pub view: u32,
    /// How many rows its log has, and how many of them it has executed.
    pub log: usize,
    pub done: usize,
}

/// An actor, its journal, and where what it sends goes.
#[derive(Drop)]
pub struct Serving<C: BootCell, L: Log, O: Outbox + Drop> {
    me: u16,
    syncs: bool,
    /// It is gone once it could not be written.
    room: Option<JournalRoom<PartyOf<C>, L>>,
    out: O,
    /// The frames that were dropped because their clocks were too far ahead.
    lost: Lost,
}

impl<C: BootCell, L: Log, O: Outbox + Drop> Serving<C, L, O> {
    /// A room that is served.
    pub fn new(me: u16, syncs: bool, room: JournalRoom<PartyOf<C>, L>, out: O) -> Self
        ensures { result ≡ record {
          me = me;
          syncs = syncs;
          room = Some room;
          out = out;
          lost = record { count = 0; last = None };
        } }
    {
        Serving {
            me,
            syncs,
            room: Some(room),
            out,
            lost: Lost {
                count: 0,
                last: None,
            },
        }
    }

    /// The number of the actor.
    pub fn me(&self) -> u16
        ensures { result ≡ self.now.me }
    {
        self.me
    }

    /// Where what the actor sends goes.
    pub fn out(&self) -> &O
        ensures { result.now ≡ self.now.out }
    {
        &self.out
    }

    /// Where what the actor sends goes, to be changed.
    pub fn out_mut(&mut self) -> &mut O
        ensures* writes_back { sem 𝓛 (Lends (the_row C.row L.row O.row C.BootCell L.Log) O.row
            self.entry result (λ out. record self.entry.now { out = out })) }
        ensures value { result.now ≡ self.old.out }
    {
        &mut self.out
    }

    /// The actor, as its history has left it; `None` where its room is gone.
    pub fn actor(&self) -> Option<&PartyOf<C>>
        ensures { option_copied result ≡ option_map (λ room. room.actor) self.now.room }
    {
        match &self.room {
            Some(room) => Some(room.actor()),
            None => None,
        }
    }

    /// The last request of the client that is served; `None` of another actor, or where the room is gone.
    pub fn request(&self) -> Option<Request>
        ensures { result ≡ request_in self.now.room }
    {
        let Some(PartyOf::Client(party)) = self.actor() else {
            return None;
        };
        let client = party.actor();
        Some(Request {
            number: client.number(),
            answer: client.answer(),
        })
    }

    /// The status of the site that is served; `None` of another actor, or where the room is gone.
    pub fn standing(&self) -> Option<Standing>
        ensures { result ≡ standing_in self.now.room }
    {
        let Some(PartyOf::Site(party)) = self.actor() else {
            return None;
        };
        let site = party.actor();
        Some(Standing {
            status: site.status(),
            view: site.view(),
            log: site.log_len(),
            done: site.done(),
        })
    }

    /// Whether the site that is served holds orders that are neither paid nor returned.
    pub fn has_orders(&self) -> bool
        ensures { result ≡ has_orders_in C.held self.now.room }
    {
        let Some(PartyOf::Site(party)) = self.actor() else {
            return false;
        };
        match party.actor().machine() {
            Some(book) => book.open(0).is_some(),
            None => false,
        }
    }

    /// What the site that is served knows as a request of a client comes; `None` of another actor, or where the room is gone.
    pub fn seen_of(&self, client: u16) -> Option<Seen>
        ensures { result ≡ seen_in C.held client self.now.room }
    {
        let Some(PartyOf::Site(party)) = self.actor() else {
            return None;
        };
        let site = party.actor();
        let orders = match site.machine() {
            Some(book) => book.open_count(),
            None => 0,
        };
        Some(Seen {
            log: site.log_len(),
            done: site.done(),
            newest: site.newest(client),
            answered: site.answered(client),
            orders,
        })
    }

    /// How often the site was restarted that is served, by its cell; 0 of another actor, or where the room is gone.
    pub fn nonce(&self) -> u32
        ensures { result ≡ nonce_in C.held self.now.room }
    {
        match self.actor() {
            Some(PartyOf::Site(party)) => party.held_boot().boots,
            _ => 0,
        }
    }

    /// What waits for a flush, in order; nothing where the room is gone.
    pub fn waiting_letters(&self) -> &[Letter<PartyOutcome>]
        ensures { result.now ≡ waiting_in self.now.room }
    {
        match &self.room {
            Some(room) => room.waiting_letters(),
            None => &[],
        }
    }

    /// The frames that were dropped because their clocks were too far ahead.
    pub fn lost(&self) -> Lost
        ensures { result ≡ self.now.lost }
    {
        self.lost
    }
}

impl<C: BootCell, L: Log, O: Outbox + Drop> Serving<C, L, O> {
    /// Takes an envelope that came, with its stamp, and sees to it that what it sends waits for
    /// `flush`. With a clock beyond what is accepted from who stamped it, it is dropped: of a site
    /// below 2^63, of a client or a node up to this clock. So whoever pushes the clocks of a bank
    /// gets no further than the time, and frames of a site that heard of it are accepted by all
    /// others.
    pub fn take_frame(
        &mut self,
        alloc: Global,
        arrival: Arrival,
        latest: u64,
    ) -> Result<(), ServeFault>
        ensures comes { Comes ⟦<PartyOf<C> as Actor>⟧ bank_texts L.seen latest arrival.stamped
            self.old.room self.new.room result }
        ensures rest { self.new ≡ record self.old {
          room = self.new.room;
          lost = lost_with latest arrival.stamped.stamp self.old.lost;
        } }
    {
        let Stamped { stamp, envelope } = arrival.into_stamped();
        let is_far = self.counts(stamp, latest);
        let input = Input {
            event: PartyOf::<C>::deliver(envelope),
            stamp: Some(stamp),
        };
        step_unless(is_far, &mut self.room, alloc, input)
    }

    /// Whether a frame of this stamp is dropped because its clock is too far ahead, which is
    /// counted.
    pub fn counts(&mut self, stamp: Stamp, latest: u64) -> bool
        ensures far { result ≡ is_far latest stamp }
        ensures lost { self.new ≡ record self.old {
          lost = lost_with latest stamp self.old.lost;
        } }
    {
        let is_far = is_far(latest, stamp);
        if is_far {
            self.lost.count = self.lost.count.saturating_add(1);
            self.lost.last = Some(stamp.actor);
        }
        is_far
    }

    /// Takes an event of its own. What it sends waits for `flush`.
    pub fn take_event(&mut self, alloc: Global, event: PartyEvent) -> Result<(), ServeFault>
        ensures takes { OnOk result
            (TakesIn ⟦<PartyOf<C> as Actor>⟧ bank_texts L.seen (own_input event)
            self.old.room self.new.room) }
        ensures refused { IfErr result (λ fault. IsRefused None self.old.room self.new.room fault) }
        ensures rest { self.new ≡ record self.old { room = self.new.room } }
    {
        step_in(&mut self.room, alloc, Input { event, stamp: None })
    }

    /// Writes what was taken into the journal, has it synced where asked and where something
    /// leaves, and only then hands out what it caused. Something leaves where an event sent
    /// something, and where what was taken is printed at the terminal. Answers how the events came
    /// out. After `Err` the room is gone, and nothing of the batch was handed out.
    pub fn flush<T: Wait>(
        &mut self,
        rt: &T,
        alloc: Global,
        is_told: bool,
    ) -> Result<Vec<Letter<PartyOutcome>>, ServeFault>
        ensures written { IfOk result (λ letters.
            HasFlushed ⟦<PartyOf<C> as Actor>⟧ bank_texts L.seen
            self.old.room self.new.room letters.items) }
        ensures letters { IfOk result (λ letters. letters.items ≡ waiting_in self.old.room) }
        ensures idle { IsIdle self.old.room → IsOk result × (self.new ≡ self.old) }
        ensures refused { IfErr result (λ fault. IsUnwritten self.old.room fault) }
        ensures gone { OnErr result (self.new.room ≡ None) }
        ensures silent { OnErr result (self.new.out ≡ self.old.out) }
        ensures synced { IfOk result (λ letters. IsTrue self.old.syncs → letters.items ≢ [] →
            leaves is_told letters.items ≡ true → OutlivesIn L.seen L.synced self.new.room) }
        ensures handed { Hears O.got self.old.out self.new.out (puts_of self.old.me result) }
        ensures rest { self.new ≡ record self.old { room = self.new.room; out = self.new.out } }
    {
        let syncs = self.syncs && leaves(is_told, self.waiting_letters());
        let written = write_in(&mut self.room, alloc, syncs)?;
        if written.letters().is_empty() {
            return Ok(written.into_letters());
        }
        self.hand_out(rt, alloc, &written);
        Ok(written.into_letters())
    }

    /// Hands out what the events of a written batch sent, in order.
    fn hand_out<T: Wait>(&mut self, rt: &T, alloc: Global, written: &Written<PartyOutcome>)
        ensures handed { Hears O.got self.old.out self.new.out
            (puts_in self.old.me written.now.letters.items) }
        ensures rest { self.new ≡ record self.old { out = self.new.out } }
    {
        let letters = written.letters();
        for letter in letters {
            let sent = PartyOf::<C>::sent_envelopes(&letter.outcome);
            self.out.put(rt, alloc, self.me, letter.clock, sent);
        }
    }
}

/// Whether a stamp's clock is too far ahead, where clients and nodes are accepted up to this one.
fn is_far(latest: u64, stamp: Stamp) -> bool
    ensures { result ≡ is_far latest stamp }
{
    match ActorId::of(stamp.actor) {
        ActorId::Site(_) => stamp.clock >= SITE_CLOCKS,
        _ => stamp.clock > latest,
    }
}

/// Takes an input in the room that stands here, unless it is lost.
fn step_unless<A: Journaled, L: Log>(
    is_lost: bool,
    stands: &mut Option<JournalRoom<A, L>>,
    alloc: Global,
    input: Input<A::Event>,
) -> Result<(), ServeFault>
    ensures lost { IsTrue is_lost → IsOk result × (stands.new ≡ stands.old) }
    ensures takes { is_lost ≡ false → OnOk result (TakesIn A.Actor A.texts L.seen input
        stands.old stands.new) }
    ensures refused { IfErr result (λ fault. IsRefused input.stamp stands.old stands.new fault) }
{
    if is_lost {
        return Ok(());
    }
    step_in(stands, alloc, input)
}

/// Takes an input in the room that stands here. The room is gone where its record cannot be written.
fn step_in<A: Journaled, L: Log>(
    stands: &mut Option<JournalRoom<A, L>>,
    alloc: Global,
    input: Input<A::Event>,
) -> Result<(), ServeFault>
    ensures takes { OnOk result (TakesIn A.Actor A.texts L.seen input stands.old stands.new) }
    ensures refused { IfErr result (λ fault. IsRefused input.stamp stands.old stands.new fault) }
{
    let Some(room) = stands.take() else {
        return Err(ServeFault::Unfit);
    };
    let (room, posted) = room.step(alloc, input)?;
    put_back(stands, room);
    match posted {
        Posted::Done(_) => Ok(()),
        Posted::NoMemory => Err(ServeFault::NoMemory),
        Posted::ClockSpent => Err(ServeFault::Clock),
    }
}

/// Whether something leaves: what happened is printed, or an event sent something.
fn leaves(is_told: bool, letters: &[Letter<PartyOutcome>]) -> bool
    ensures { result ≡ leaves is_told letters.now }
{
    is_told || send_any(letters)
}

fn send_any(letters: &[Letter<PartyOutcome>]) -> bool
    ensures { result ≡ list_any sends letters.now }
{
    letters.iter().any(|letter| sends(letter))
}

/// Whether an event sent something.
fn sends(letter: &Letter<PartyOutcome>) -> bool
    ensures { result ≡ sends letter.now }
{
    !Party::sent_envelopes(&letter.outcome).is_empty()
}
