//! One actor whose history is in its journal and not in memory.
ghost use Rattle.std.specs.Prelude.{◌≡◌, ◌==◌, Err, IfOk, IfSome, OnOk, IsTrue, length};
ghost use Rattle.pvp_parties.specs.Parties.{held_of};
ghost use Rattle.pvp_journal.specs.Log.{OutlivesAll, with_more};
ghost use Rattle.pvp_journal.specs.declared.fault.WriteFault.TheVariants.{Unfit};
ghost use Rattle.pvp_journal.specs.Rooms.{Flushes, HasNoText, Keeps, Notes, Past, Steps, bank_texts};
ghost use Rattle.pvp_journal.specs.Resumed.{IsAgain, resumed_room, room_over};

use crate::WriteFault;
use crate::journaled::Journaled;
use crate::log::{Log, LogFault};
use crate::resume::Replayed;
use pvp_parties::{PartyEvent, PartyOf, PartyOutcome};
use pvp_rooms::{Actor, Audited, Input, Recorded, next_clock};
use std::alloc::Global;
use std::marker::Model;
use vr_types::BootCell;

/// What came of an event, and at which clock: of what it sent the receivers hear once its record is written.
#[derive(Drop)]
pub struct Letter<O> {
    pub clock: u64,
    pub outcome: O,
}

/// Whether an event was taken.
#[derive(Clone, Copy, Debug, PartialEq, Eq)]
pub enum Posted {
    /// It was taken at this clock, and its record is in the batch.
    Done(u64),
    /// Memory was refused, and nothing has changed.
    NoMemory,
    /// There is no greater clock, and nothing has changed.
    ClockSpent,
}

/// An actor, its clock, and the batch of what it took since its log was last written. In clauses it keeps a history,
/// which log and batch spell. What the batch sent waits in the room; only `flush` hands it out.
#[derive(Drop)]
pub struct JournalRoom<A: Journaled, L: Log> {
    number: u16,
    opening: A::Opening,
    actor: A,
    clock: u64,
    log: L,
    /// The checksum of the last record.
    sum: u64,
    /// The records that are not written yet.
    batch: Vec<u8>,
    waiting: Vec<Letter<A::Outcome>>,
}

impl<A: Journaled, L: Log> Model for JournalRoom<A, L> {
    ghost use Rattle.pvp_journal.specs.Rooms.{Held, Keeps, Past};

    ghost Value = { Held A.Opening A A.Outcome L };

    ghost view = { λ a. record {
      number = a.number;
      opening = a.opening;
      actor = a.actor;
      clock = a.clock;
      log = a.log;
      sum = a.sum;
      batch = a.batch.items;
      waiting = a.waiting.items;
    } };

    ghost invariant = { λ a. (past : Past A.Event A.Outcome)
        × Keeps A.Actor A.texts L.seen
        (record {
          number = a.number;
          opening = a.opening;
          actor = a.actor;
          clock = a.clock;
          log = a.log;
          sum = a.sum;
          batch = a.batch.items;
          waiting = a.waiting.items;
        }) past };
}

impl<A: Journaled, L: Log> JournalRoom<A, L> {
    ghost use Rattle.std.specs.Prelude.{List, []};
    ghost use Rattle.pvp_rooms.specs.declared.message.Recorded.{Recorded};
    ghost use Rattle.pvp_journal.specs.Rooms.{past_of};

    /// The room of an actor of this number that opens over this, at clock 0, over a log that has the head of its journal,
    /// with this checksum, and no record. It takes no memory.
    pub fn new(alloc: Global, number: u16, opening: A::Opening, actor: A, log: L, sum: u64) -> Self
        requires { (x : A.State) → A.opens actor opening x → A.shows actor x }
        ensures keeps { Keeps A.Actor A.texts L.seen result (past_of [] (L.seen log) sum) }
        ensures number { result.number ≡ number }
        ensures opening { result.opening ≡ opening }
        ensures log { result.log ≡ log }
    {
        JournalRoom {
            number,
            opening,
            actor,
            clock: 0,
            log,
            sum,
            batch: Vec::new(alloc),
            waiting: Vec::new(alloc),
        }
    }

    /// The room of an actor that replayed a history, over the log that holds the journal of it, which has this checksum. It
    /// takes no memory.
    pub fn resume(
        alloc: Global,
        number: u16,
        opening: A::Opening,
        again: Replayed<A>,
        log: L,
        sum: u64,
    ) -> Self
        requires { (history : List (Recorded A.Event A.Outcome))
            × IsAgain A.Actor opening again history }
        ensures is { result ≡ resumed_room number opening again log sum }
        ensures keeps { (history : List (Recorded A.Event A.Outcome)) →
            IsAgain A.Actor opening again history →
            Keeps A.Actor A.texts L.seen result (past_of history (L.seen log) sum) }
    {
        JournalRoom {
            number,
            opening,
            actor: again.actor,
            clock: again.clock,
            log,
            sum,
            batch: Vec::new(alloc),
            waiting: Vec::new(alloc),
        }
    }

    /// The actor, as its history has left it.
    pub fn actor(&self) -> &A
        ensures { result.now ≡ self.now.actor }
    {
        &self.actor
    }

    /// The clock of the last event that was taken; 0 before the first.
    pub fn clock(&self) -> u64
        ensures { result ≡ self.now.clock }
    {
        self.clock
    }

    /// The log, as it was last written.
    pub fn log(&self) -> &L
        ensures { result.now ≡ self.now.log }
    {
        &self.log
    }

    /// What waits for a flush, in order.
    pub fn waiting_letters(&self) -> &[Letter<A::Outcome>]
        ensures { result.now ≡ self.now.waiting }
    {
        self.waiting.as_slice()
    }

    /// Whether nothing waits for a flush.
    pub fn is_flushed(&self) -> bool
        ensures { result ≡ (length self.now.waiting == 0) }
    {
        self.waiting.is_empty()
    }

    /// Takes an event as `Room::step` does, but that its record goes into the batch, and what it sent waits. `Err` where
    /// the record cannot be written: then the actor is ahead of its journal, and the room is gone, with all that waited.
    pub fn step(self, alloc: Global, input: Input<A::Event>) -> Result<(Self, Posted), WriteFault>
        ensures ok { IfOk result (λ after.
            Steps A.Actor A.texts L.seen input self after.0 after.1) }
        ensures unfit { result ≡ Err Unfit → HasNoText A.Actor A.fits input self }
    {
        let mut room = self;
        let Some(clock) = next_clock(room.clock, input.stamp) else {
            return Ok((room, Posted::ClockSpent));
        };
        if room.waiting.reserve(1).is_err() {
            return Ok((room, Posted::NoMemory));
        }
        let Ok(event) = A::copy_event(alloc, &input.event) else {
            return Ok((room, Posted::NoMemory));
        };
        let stamp = input.stamp;
        let entry = Recorded {
            event,
            stamp,
            clock,
            outcome: room.actor.take(alloc, input.event),
        };
        room.sum = A::write(alloc, room.number, room.sum, &entry, &mut room.batch)?;
        room.clock = clock;
        room.waiting.push_reserved(Letter {
            clock,
            outcome: entry.outcome,
        });
        Ok((room, Posted::Done(clock)))
    }

    /// Writes the batch, has the log sync it where asked, and then hands out what waited, in order. `Err` where the log
    /// refuses: then the room is gone, and nothing of the batch is ever handed out.
    pub fn flush(
        self,
        alloc: Global,
        syncs: bool,
    ) -> Result<(Self, Vec<Letter<A::Outcome>>), LogFault>
        ensures flushes { IfOk result (λ after.
            Flushes A.Actor A.texts L.seen self after.0 after.1.items) }
        ensures letters { IfOk result (λ after. after.1.items ≡ self.waiting) }
        ensures synced { IfOk result (λ after. IsTrue syncs →
            OutlivesAll (L.seen after.0.log) (L.synced after.0.log)) }
    {
        let JournalRoom {
            number,
            opening,
            actor,
            clock,
            mut log,
            sum,
            batch,
            waiting,
        } = self;
        write_batch(&mut log, batch.as_slice(), syncs)?;
        let room = JournalRoom {
            number,
            opening,
            actor,
            clock,
            log,
            sum,
            batch: Vec::new(alloc),
            waiting: Vec::new(alloc),
        };
        Ok((room, waiting))
    }
}

impl<A: Journaled + Audited, L: Log> JournalRoom<A, L> {
    /// Notes an event without a stamp that came out so, as one that the actor took: its record goes into the batch, and what
    /// it sent waits. `None` where it cannot have come out so, or there is no greater clock; `Err` where memory is refused or
    /// the record cannot be written. After `None` and `Err` the room is gone, with all that waited.
    pub fn note(
        self,
        alloc: Global,
        event: A::Event,
        outcome: A::Outcome,
    ) -> Result<Option<Self>, WriteFault>
        ensures { IfOk result (λ found. Notes A.Actor A.texts L.seen event outcome self found) }
    {
        let mut ahead = self;
        let Some(next) = next_clock(ahead.clock, None) else {
            return Ok(None);
        };
        ahead.waiting.reserve(1)?;
        if !ahead.actor.follow(alloc, &event, &outcome)? {
            return Ok(None);
        }
        let entry = Recorded {
            event,
            stamp: None,
            clock: next,
            outcome,
        };
        ahead.sum = A::write(alloc, ahead.number, ahead.sum, &entry, &mut ahead.batch)?;
        ahead.clock = next;
        ahead.waiting.push_reserved(Letter {
            clock: next,
            outcome: entry.outcome,
        });
        Ok(Some(ahead))
    }
}

impl<C: BootCell, L: Log> JournalRoom<PartyOf<C>, L> {
    /// The same room, of its actor over another cell, which holds what a site's own does.
    pub fn over<D: BootCell>(self, cell: D) -> JournalRoom<PartyOf<D>, L>
        requires { IfSome (held_of C.BootCell self.actor) (λ own. D.held cell ≡ own) }
        ensures is { result ≡ room_over self cell }
        ensures keeps { (past : Past PartyEvent PartyOutcome) →
            Keeps ⟦<PartyOf<C> as Actor>⟧ bank_texts L.seen self past →
            Keeps ⟦<PartyOf<D> as Actor>⟧ bank_texts L.seen result past }
    {
        let JournalRoom {
            number,
            opening,
            actor,
            clock,
            log,
            sum,
            batch,
            waiting,
        } = self;
        JournalRoom {
            number,
            opening,
            actor: actor.over(cell),
            clock,
            log,
            sum,
            batch,
            waiting,
        }
    }
}

/// Puts a batch into a log, and has it synced where asked.
fn write_batch<L: Log>(log: &mut L, batch: &[u8], syncs: bool) -> Result<(), LogFault>
    ensures seen { OnOk result (L.seen log.new ≡ with_more (L.seen log.old) batch.now) }
    ensures synced { OnOk result (IsTrue syncs → OutlivesAll (L.seen log.new) (L.synced log.new)) }
{
    log.append(batch)?;
    if syncs {
        log.sync()?;
    }
    Ok(())
}
