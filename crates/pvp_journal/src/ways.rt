//! How a site comes back whose process was gone. Its cell outlives a power cut, which the end of
//! its journal may not, and a restart saves before it is recorded: so the cell may be ahead of the
//! journal.
ghost use Rattle.std.specs.Prelude.{◌≡◌, ◌↔◌, [], ◌∷◌, IsTrue, IfOk, IfSome, None, Some};
ghost use Rattle.pvp_parties.specs.Made.{memory};
ghost use Rattle.pvp_parties.specs.Parties.{held_of};
ghost use Rattle.pvp_journal.specs.Rooms.{GoesOn, bank_texts};
ghost use Rattle.pvp_journal.specs.Resumed.{IsWay, a_fall, boots_known, crash_of, events_back, falls_between, is_again, is_up, way_back};

use crate::WriteFault;
use crate::journaled::Journaled;
use crate::log::Log;
use crate::room::{JournalRoom, Posted};
use pvp_parties::{Party, PartyEvent, PartyOf, PartyOutcome};
use pvp_rooms::{Actor, Audited, CameOf, Input};
use std::alloc::Global;
use vr_types::{Boot, BootCell, EventOf, SiteFault, Status};

/// How a site comes back that replayed its journal.
#[derive(Clone, Copy, Debug, PartialEq, Eq)]
pub enum WayBack {
    /// It is as it was, and goes on: nothing of its journal is missing.
    Again,
    /// Its journal may miss events, which others may have seen: it crashes, and restarts.
    Restarts,
    /// Restarts saved its cell and are not recorded: each of them fell, and it restarts again.
    FellAndRestarts,
}

/// Why a site cannot come back.
#[derive(Clone, Copy, Debug, PartialEq, Eq)]
pub enum RestartFault {
    /// Its cell and its journal are not those of one site that comes back this way. A node and a client only go on.
    Misfit,
    /// There is no greater clock.
    ClockSpent,
    /// Memory was refused, or a record cannot be written.
    Unwritten(WriteFault),
}

/// How a site comes back, by what its journal and its cell say of its boots, and by whether the journal is trusted to be
/// whole. `None` where the two are not of one site.
pub fn way_back(known: Boot, held: Boot, trusted: bool) -> Option<WayBack>
    ensures { result ≡ way_back known held trusted }
{
    if held.boots == known.boots {
        return Some(if trusted {
            WayBack::Again
        } else {
            WayBack::Restarts
        });
    }
    if held.boots > known.boots {
        return Some(WayBack::FellAndRestarts);
    }
    None
}

/// Brings an actor back that replayed its journal over a cell in memory: what is missing of a
/// site's history goes behind it, and its cell stands where the one in memory stood. Whether the
/// restart succeeds, its record says.
pub fn restart<C: BootCell, L: Log>(
    alloc: Global,
    room: JournalRoom<Party, L>,
    cell: C,
    way: WayBack,
) -> Result<JournalRoom<PartyOf<C>, L>, RestartFault>
    ensures way { IfOk result (λ back. IsWay way (held_of memory room.actor) (C.held cell)) }
    ensures goes_on { IfOk result (λ back.
        GoesOn ⟦<Party as Actor>⟧ ⟦<PartyOf<C> as Actor>⟧ bank_texts L.seen room back
        (events_back way (is_up room.actor) (held_of memory room.actor) (C.held cell))) }
{
    let held = cell.load();
    let known = room.actor().held_boot();
    if !is_way(way, known, held) {
        return Err(RestartFault::Misfit);
    }
    match way {
        WayBack::Again => over_same(room, cell),
        WayBack::Restarts => {
            let down = room_after_crash(alloc, room)?;
            let over = over_same(down, cell)?;
            room_after_event(alloc, over, PartyEvent::OfSite(EventOf::Restart))
        }
        WayBack::FellAndRestarts => {
            let down = room_after_crash(alloc, room)?;
            let fell = room_after_falls(alloc, down, boots_known(known, held), held.boots)?;
            let over = over_same(fell, cell)?;
            room_after_event(alloc, over, PartyEvent::OfSite(EventOf::Restart))
        }
    }
}

/// Whether this is a way back for an actor whose own cell holds this, over one that holds that.
fn is_way(way: WayBack, known: Option<Boot>, held: Boot) -> bool
    ensures { IsTrue result ↔ IsWay way known held }
{
    match known {
        Some(known) => match way_back(known, held, is_again(way)) {
            Some(found) => found == way,
            None => false,
        },
        None => is_again(way),
    }
}

/// Whether an actor goes on as if nothing had been.
fn is_again(way: WayBack) -> bool
    ensures { result ≡ is_again way }
{
    match way {
        WayBack::Again => true,
        _ => false,
    }
}

/// The room over a cell that holds what a site's own does; another is refused.
fn over_same<C: BootCell, L: Log>(
    room: JournalRoom<Party, L>,
    cell: C,
) -> Result<JournalRoom<PartyOf<C>, L>, RestartFault>
    ensures { IfOk result (λ over.
        GoesOn ⟦<Party as Actor>⟧ ⟦<PartyOf<C> as Actor>⟧ bank_texts L.seen room over []) }
{
    if !is_same(room.actor().held_boot(), cell.load()) {
        return Err(RestartFault::Misfit);
    }
    Ok(room.over(cell))
}

/// Whether a cell, where there is one, holds this.
fn is_same(own: Option<Boot>, held: Boot) -> bool
    ensures { IsTrue result ↔ IfSome own (λ own. held ≡ own) }
{
    match own {
        Some(own) => held == own,
        None => true,
    }
}

/// The room once its site is down.
fn room_after_crash<L: Log>(
    alloc: Global,
    room: JournalRoom<Party, L>,
) -> Result<JournalRoom<Party, L>, RestartFault>
    ensures { IfOk result (λ down.
        GoesOn ⟦<Party as Actor>⟧ ⟦<Party as Actor>⟧ bank_texts L.seen room down
        (crash_of (is_up room.actor))) }
{
    if is_up(room.actor()) {
        return room_after_event(alloc, room, PartyEvent::OfSite(EventOf::Crash));
    }
    Ok(room)
}

/// Whether an actor is a site that is not down.
fn is_up(actor: &Party) -> bool
    ensures { result ≡ is_up actor.now }
{
    match actor {
        PartyOf::Site(site) => match site.actor().status() {
            Status::Down => false,
            _ => true,
        },
        _ => false,
    }
}

/// Of how many boots an actor knows that comes over a cell which holds this: who has no cell has missed none.
fn boots_known(known: Option<Boot>, held: Boot) -> u32
    ensures { result ≡ boots_known known held }
{
    match known {
        Some(known) => known.boots,
        None => held.boots,
    }
}

/// The room once each restart of its site behind so many boots, up to so many, has fallen.
fn room_after_falls<L: Log>(
    alloc: Global,
    room: JournalRoom<Party, L>,
    known: u32,
    held: u32,
) -> Result<JournalRoom<Party, L>, RestartFault>
    ensures { IfOk result (λ fell.
        GoesOn ⟦<Party as Actor>⟧ ⟦<Party as Actor>⟧ bank_texts L.seen room fell
        (falls_between known held)) }
{
    let mut room = room;
    for boots in known..held {
        room = room_after_fall(alloc, room, Boot { boots: boots + 1 })?;
    }
    Ok(room)
}

/// The room once a restart of its site has fallen, over a cell that holds this.
fn room_after_fall<L: Log>(
    alloc: Global,
    room: JournalRoom<Party, L>,
    held: Boot,
) -> Result<JournalRoom<Party, L>, RestartFault>
    ensures { IfOk result (λ fell.
        GoesOn ⟦<Party as Actor>⟧ ⟦<Party as Actor>⟧ bank_texts L.seen room
        fell (a_fall held ∷ [])) }
{
    let outcome = PartyOutcome::OfSite(CameOf::Fell {
        why: SiteFault::CellFault,
        cell: held,
    });
    room_after_note(alloc, room, PartyEvent::OfSite(EventOf::Restart), outcome)
}

/// The room once an event is noted that came out so.
fn room_after_note<A: Journaled + Audited, L: Log>(
    alloc: Global,
    room: JournalRoom<A, L>,
    event: A::Event,
    outcome: A::Outcome,
) -> Result<JournalRoom<A, L>, RestartFault>
    ensures { IfOk result (λ after. GoesOn A.Actor A.Actor A.texts L.seen room after
        (record { event = event; came = Some outcome } ∷ [])) }
{
    match room.note(alloc, event, outcome) {
        Ok(Some(after)) => Ok(after),
        Ok(None) => Err(RestartFault::Misfit),
        Err(fault) => Err(RestartFault::Unwritten(fault)),
    }
}

/// The room once its actor took an event without a stamp, however it came out.
fn room_after_event<A: Journaled, L: Log>(
    alloc: Global,
    room: JournalRoom<A, L>,
    event: A::Event,
) -> Result<JournalRoom<A, L>, RestartFault>
    ensures { IfOk result (λ after. GoesOn A.Actor A.Actor A.texts L.seen room after
        (record { event = event; came = None } ∷ [])) }
{
    match room.step(alloc, Input { event, stamp: None }) {
        Ok((after, Posted::Done(_))) => Ok(after),
        Ok((_, Posted::ClockSpent)) => Err(RestartFault::ClockSpent),
        Ok((_, Posted::NoMemory)) => Err(RestartFault::Unwritten(WriteFault::NoMemory)),
        Err(fault) => Err(RestartFault::Unwritten(fault)),
    }
}
