//! Coming back: a history is replayed, which is no event, and its room goes on.
ghost use Rattle.std.specs.Prelude.{◌≡◌, List, Option, IfOk, IfSome, IfNone};
ghost use Rattle.vr_types.specs.declared.cell.Boot.{Boot as AnyBoot};
ghost use Rattle.pvp_rooms.specs.Histories.{IsRising, last_clock, stamp_clock};
ghost use Rattle.pvp_parties.specs.Parties.{PartyState, Opens};
ghost use Rattle.pvp_journal.specs.Journals.{IsRead};
ghost use Rattle.pvp_journal.specs.Summaries.{Taken};
ghost use Rattle.pvp_journal.specs.declared.journal.Left.TheVariants.{Nothing};
ghost use Rattle.pvp_wire.specs.Fits.{IsBytes};
ghost use Rattle.pvp_journal.specs.Rooms.{Keeps, bank_texts, past_of};
ghost use Rattle.pvp_journal.specs.Resumed.{ComesAgain, IsAgain, IsAgainOf, IsOpened, Replays, in_memory, resumed_room};

use crate::log::Log;
use crate::room::JournalRoom;
use crate::{Entry, Journal, Summary, take_again};
use pvp_parties::{Party, PartyEvent};
use pvp_rooms::{Audited, Recorded};
use pvp_wire::Stamp;
use std::alloc::{AllocError, Global};

/// An actor that replayed a history, and the last clock of that; 0 where it is empty.
#[derive(Drop)]
pub struct Replayed<A> {
    pub actor: A,
    pub clock: u64,
}

/// Hears how far a history was replayed.
pub trait Pace {
    /// So many events of all were taken.
    fn passes(&mut self, taken: usize, all: usize);
}

/// Nobody hears it.
#[derive(Drop)]
pub struct Untold;

impl Pace for Untold {
    fn passes(&mut self, _taken: usize, _all: usize) {}
}

/// Takes the events of a journal again at the actor as it opened, and reports its progress. `None` where an event cannot
/// come out as the journal says, or a clock is not above the one before it and its stamp's; `Err` where memory is refused.
pub fn replay<P: Pace>(
    alloc: Global,
    actor: Party,
    entries: &[Entry],
    pace: &mut P,
) -> Result<Option<Replayed<Party>>, AllocError>
    ensures found { IfOk result (λ found. Replays actor entries.now found) }
    ensures again { IfOk result (λ found. IfSome found (λ again. (opening : Option AnyBoot) →
        IsOpened in_memory actor opening → IsAgainOf opening again entries.now)) }
{
    let Some(clock) = rising_clock(entries) else {
        return Ok(None);
    };
    let mut actor = actor;
    let mut taken = 0usize;
    for entry in entries {
        pace.passes(taken, entries.len());
        taken = taken.saturating_add(1);
        if !comes_again(alloc, &mut actor, &entry.event, &entry.outcome)? {
            return Ok(None);
        }
    }
    Ok(Some(Replayed { actor, clock }))
}

/// Takes an event again, and says whether it can have come out as its journal says. After a no or `Err`, where memory is
/// refused, the actor may only be dropped.
fn comes_again(
    alloc: Global,
    actor: &mut Party,
    event: &PartyEvent,
    summary: &Summary,
) -> Result<bool, AllocError>
    ensures so { IfOk result (ComesAgain actor.old event.now summary.now actor.new) }
    ensures opens { (opening : Option AnyBoot) (x : PartyState) → Opens actor.new opening x →
        Opens actor.old opening x }
{
    match summary {
        Summary::Whole(outcome) => actor.follow(alloc, event, outcome),
        Summary::Sent { count, dropped } => {
            Ok(take_again(actor, alloc, event, *count, *dropped)?.is_some())
        }
    }
}

/// The last clock of a history, 0 where it is empty; `None` where a clock is not above the one before it and its stamp's.
pub fn rising_clock<E, O>(history: &[Recorded<E, O>]) -> Option<u64>
    ensures rising { IfSome result (λ clock. IsRising history.now 0) }
    ensures last { IfSome result (λ clock. last_clock history.now 0 ≡ clock) }
    ensures none { IfNone result (¬ IsRising history.now 0) }
{
    let mut last = 0;
    for r in history {
        if r.clock <= last || r.clock <= clock_of(r.stamp) {
            return None;
        }
        last = r.clock;
    }
    Some(last)
}

/// The clock of a stamp, 0 for none.
fn clock_of(stamp: Option<Stamp>) -> u64
    ensures { result ≡ stamp_clock stamp }
{
    stamp.map_or(0, |stamp| stamp.clock)
}

/// The room of an actor of the bank that comes back to its journal, all of which was read from these bytes, over a log that
/// holds them: its history is one of which the journal has the entries.
pub fn come_back<L: Log>(
    alloc: Global,
    bytes: &[u8],
    journal: &Journal,
    again: Replayed<Party>,
    log: L,
) -> JournalRoom<Party, L>
    requires read { IsRead bytes.now journal.now }
    requires whole { journal.now.left ≡ Nothing }
    requires again { IsAgainOf journal.now.head.opening again journal.now.history.items }
    requires log { IfSome (L.seen log) (λ held. held ≡ bytes.now) }
    ensures is { let head = journal.now.head in
        result ≡ resumed_room head.actor head.opening again log journal.now.sum }
    ensures keeps { (history : List Taken) →
        IsAgain in_memory journal.now.head.opening again history →
        Keeps in_memory bank_texts L.seen result (past_of history (L.seen log) journal.now.sum) }
{
    are_bytes(bytes);
    JournalRoom::resume(
        alloc,
        journal.head.actor,
        journal.head.opening,
        again,
        log,
        journal.sum,
    )
}

/// Each byte is below 256. A clause has that of a byte once it is read.
fn are_bytes(bytes: &[u8])
    ensures { IsBytes bytes.now }
{
    for byte in bytes {
        prove!(*byte <= 255);
    }
}
