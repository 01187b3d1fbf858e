//! Actors that come back to their journals, and sites that restart at that.
ghost use Rattle.std.specs.Prelude.{◌≡◌, IfOk, None, Some};
ghost use Rattle.pvp_journal.specs.Journals.{IsRead};
ghost use Rattle.pvp_journal.specs.Resumed.{IsAgainOf};

use crate::logs::resumed::clock_of;
use crate::logs::rooms::{Operator, operator, settle, written};
use fixtures::setup::three_currencies;
use headline::{ClientEvent, ClientFault};
use pvp_journal::{
    Entry, Head, Journal, JournalRoom, Journaled, Left, Log, MemLog, Replayed, RestartFault,
    Summary, Untold, Version, WayBack, come_back, read_journal, replay, restart, take_again,
    way_back, write_head,
};
use pvp_parties::{Party, PartyEvent, PartyOutcome};
use pvp_rooms::{Audited, CameOf};
use pvp_types::Cmd;
use std::alloc::Global;
use std::process::Abort;
use std::test::Fail;
use vr_types::{Boot, EnvelopeOf, EventOf, MemCell, MsgOf, SiteFault};

/// An event of a site's journal, as far as these tests have it.
#[derive(Clone, Copy, Debug, PartialEq, Eq)]
enum Said {
    /// It crashed.
    Crashed,
    /// A restart fell as its cell failed, which then held so many boots.
    Fell(u32),
    /// It restarted, and asks both others, by this number, for what it missed.
    Asked(u32),
    Other,
}

/// What an entry of a site's journal says, whose event the site takes again.
fn told(alloc: Global, site: &mut Party, entry: &Entry) -> Result<Said, Fail> {
    match &entry.outcome {
        Summary::Whole(outcome) => told_whole(alloc, site, &entry.event, outcome),
        Summary::Sent { count, dropped } => {
            match take_again(site, alloc, &entry.event, *count, *dropped)? {
                Some(outcome) => Ok(told_event(&entry.event, &outcome)),
                None => Ok(Said::Other),
            }
        }
    }
}

/// What an event says that came out so, where it can have.
fn told_whole(
    alloc: Global,
    site: &mut Party,
    event: &PartyEvent,
    outcome: &PartyOutcome,
) -> Result<Said, Fail> {
    if site.follow(alloc, event, outcome)? {
        Ok(told_event(event, outcome))
    } else {
        Ok(Said::Other)
    }
}

/// What an event of a site says that came out so.
fn told_event(event: &PartyEvent, outcome: &PartyOutcome) -> Said {
    match (event, outcome) {
        (PartyEvent::OfSite(EventOf::Crash), PartyOutcome::OfSite(came)) => told_crash(came),
        (PartyEvent::OfSite(EventOf::Restart), PartyOutcome::OfSite(came)) => told_restart(came),
        _ => Said::Other,
    }
}

fn told_crash<C: Copy, R: Copy, O: Copy>(came: &CameOf<C, R, O>) -> Said {
    match came {
        CameOf::Did {
            sent,
            dropped: None,
        } if sent.is_empty() => Said::Crashed,
        _ => Said::Other,
    }
}

fn told_restart<C: Copy, R: Copy, O: Copy>(came: &CameOf<C, R, O>) -> Said {
    match came {
        CameOf::Fell {
            why: SiteFault::CellFault,
            cell,
        } => Said::Fell(cell.boots),
        CameOf::Did {
            sent,
            dropped: None,
        } => asked(sent.as_slice()),
        _ => Said::Other,
    }
}

/// RECOVERY from the first site to both others, and nothing else, by its number.
fn asked<C, R, O>(sent: &[EnvelopeOf<C, R, O>]) -> Said {
    match sent {
        [first, second] => match (&first.msg, &second.msg) {
            (MsgOf::Recovery(one), MsgOf::Recovery(two))
                if one.nonce == two.nonce
                    && (first.from, first.to, second.from, second.to) == (200, 201, 200, 202) => {
                Said::Asked(one.nonce)
            }
            _ => Said::Other,
        },
        _ => Said::Other,
    }
}

/// The journal of the first site, which opened over this, with no record.
fn opened(alloc: Global, boot: Boot) -> Result<Vec<u8>, Fail> {
    let head = Head {
        version: Version::Two,
        actor: 200,
        opening: Some(boot),
        bank: [7; 32],
    };
    let mut bytes = Vec::new(alloc);
    write_head(alloc, &head, &mut bytes)?;
    Ok(bytes)
}

/// The journal in these bytes.
fn journal_in(alloc: Global, bytes: &[u8]) -> Result<Journal, Fail>
    ensures { IfOk result (λ journal. IsRead bytes.now journal) }
{
    match read_journal(alloc, bytes) {
        Ok(journal) => Ok(journal),
        Err(_) => Err(Fail::new("damaged")),
    }
}

/// The operator or the first site, after the events of its journal.
fn again(alloc: Global, journal: &Journal) -> Result<Replayed<Party>, Fail>
    ensures { IfOk result (λ again. IsAgainOf journal.now.head.opening again
        journal.now.history.items) }
{
    match journal.head.opening {
        None => operator_again(alloc, journal.history.as_slice()),
        Some(boot) => site_again(alloc, boot, journal.history.as_slice()),
    }
}

/// The operator after the events of these entries.
fn operator_again(alloc: Global, entries: &[Entry]) -> Result<Replayed<Party>, Fail>
    ensures { IfOk result (λ again. IsAgainOf None again entries.now) }
{
    let actor = Party::client(&three_currencies(alloc)?, 0)?;
    match replay(alloc, actor, entries, &mut Untold)? {
        Some(again) => Ok(again),
        None => Err(Fail::new("it cannot have come so")),
    }
}

/// The first site, which opened over this, after the events of these entries.
fn site_again(alloc: Global, boot: Boot, entries: &[Entry]) -> Result<Replayed<Party>, Fail>
    ensures { IfOk result (λ again. IsAgainOf (Some boot) again entries.now) }
{
    let actor = Party::site(alloc, &three_currencies(alloc)?, 0, MemCell::of(boot))?;
    match replay(alloc, actor, entries, &mut Untold)? {
        Some(again) => Ok(again),
        None => Err(Fail::new("it cannot have come so")),
    }
}

/// A log that holds these bytes.
fn log_of(alloc: Global, bytes: &[u8]) -> Result<MemLog, Fail>
    ensures { IfOk result (λ log. log.bytes.items ≡ bytes.now) }
{
    let mut copy = Vec::new(alloc);
    copy.extend_from_slice(bytes)?;
    Ok(MemLog::new(copy, 0))
}

/// The room of the actor whose journal these bytes are, over a log that holds them.
pub(crate) fn back(alloc: Global, bytes: &[u8]) -> Result<Operator, Fail> {
    let journal = journal_in(alloc, bytes)?;
    back_to(alloc, bytes, &journal)
}

/// The room of the actor whose journal was read from these bytes.
fn back_to(alloc: Global, bytes: &[u8], journal: &Journal) -> Result<Operator, Fail>
    requires { IsRead bytes.now journal.now }
{
    let Left::Nothing = journal.left else {
        return Err(Fail::new("torn"));
    };
    let log = log_of(alloc, bytes)?;
    let again = again(alloc, journal)?;
    Ok(come_back(alloc, bytes, journal, again, log))
}

/// The bytes of a room's log once all of it is written.
pub(crate) fn bytes_of(alloc: Global, room: Operator) -> Result<Vec<u8>, Fail> {
    let (room, _letters) = written(alloc, room, true)?;
    copy_of(alloc, room.log().bytes())
}

fn copy_of(alloc: Global, bytes: &[u8]) -> Result<Vec<u8>, Fail> {
    let mut copy = Vec::new(alloc);
    copy.extend_from_slice(bytes)?;
    Ok(copy)
}

/// The first site's room, over a cell in memory that holds so many boots.
fn site(alloc: Global, boots: u32) -> Result<Operator, Fail> {
    back(alloc, opened(alloc, Boot { boots })?.as_slice())
}

/// How the site of a room comes back over a cell, by what its own holds and what that holds.
fn way_of(known: u32, held: u32, trusted: bool) -> Option<WayBack> {
    way_back(Boot { boots: known }, Boot { boots: held }, trusted)
}

/// What a site's journal says at the end that comes back so.
fn comes(alloc: Global, room: Operator, cell: MemCell, way: WayBack) -> Result<Vec<Said>, Fail> {
    match restart(alloc, room, cell, way) {
        Ok(room) => all_told(alloc, bytes_of(alloc, room)?.as_slice()),
        Err(_) => Err(Fail::new("it did not come back")),
    }
}

/// What the records of the first site's journal say.
fn all_told(alloc: Global, bytes: &[u8]) -> Result<Vec<Said>, Fail> {
    let journal = journal_in(alloc, bytes)?;
    told_since(alloc, journal.head.opening, journal.history.as_slice())
}

/// What entries of the first site say, which opened over this.
fn told_since(alloc: Global, opening: Option<Boot>, entries: &[Entry]) -> Result<Vec<Said>, Fail> {
    let Some(boot) = opening else {
        return Err(Fail::new("a site"));
    };
    let mut site = Party::site(alloc, &three_currencies(alloc)?, 0, MemCell::of(boot))?;
    told_in(alloc, &mut site, entries)
}

/// What entries say, whose clocks rise by one from 1.
fn told_in(alloc: Global, site: &mut Party, entries: &[Entry]) -> Result<Vec<Said>, Fail> {
    let mut found = Vec::new(alloc);
    let mut before = 0;
    for entry in entries {
        let said = told(alloc, site, entry)?;
        found.push(if entry.clock.checked_sub(before) == Some(1) {
            said
        } else {
            Said::Other
        })?;
        before = entry.clock;
    }
    Ok(found)
}

/// A site whose own cell holds this and whose cell holds that comes back so; `None` where the two are not of one site.
fn goes<R: Abort>(rt: &R, (known, held): (u32, u32), trusted: bool, want: Option<WayBack>) {
    assert_eq!(rt; way_of(known, held, trusted), want);
}

#[test]
fn a_way_back_goes_by_the_boots_and_by_trust(rt: HostRuntime) -> Result<(), Fail> {
    goes(&rt, (3, 3), true, Some(WayBack::Again));
    goes(&rt, (3, 3), false, Some(WayBack::Restarts));
    goes(&rt, (3, 4), true, Some(WayBack::FellAndRestarts));
    goes(&rt, (3, 4), false, Some(WayBack::FellAndRestarts));
    goes(&rt, (3, 5), true, Some(WayBack::FellAndRestarts));
    goes(&rt, (3, 5), false, Some(WayBack::FellAndRestarts));
    goes(&rt, (3, 2), true, None);
    goes(&rt, (u32::MAX, 0), false, None);
    Ok(())
}

/// A site that opened over so many boots comes back so over a cell, and its journal then says this.
fn comes_so<R: Abort + AllocGlobal>(
    rt: &R,
    boots: u32,
    cell: MemCell,
    way: WayBack,
    want: &[Said],
) -> Result<(), Fail> {
    let found = comes(rt.alloc(), site(rt.alloc(), boots)?, cell, way)?;
    assert_eq!(rt; found.as_slice(), want);
    Ok(())
}

#[test]
fn a_trusted_site_goes_on(rt: HostRuntime) -> Result<(), Fail> {
    comes_so(&rt, 0, MemCell::new(), WayBack::Again, &[])
}

#[test]
fn a_site_crashes_and_restarts(rt: HostRuntime) -> Result<(), Fail> {
    let says = [Said::Crashed, Said::Asked(1)];
    comes_so(&rt, 0, MemCell::new(), WayBack::Restarts, &says)
}

#[test]
fn a_restart_that_was_not_recorded_fell(rt: HostRuntime) -> Result<(), Fail> {
    let cell = MemCell::of(Boot { boots: 1 });
    let says = [Said::Crashed, Said::Fell(1), Said::Asked(2)];
    comes_so(&rt, 0, cell, WayBack::FellAndRestarts, &says)
}

#[test]
fn each_restart_that_was_not_recorded_fell(rt: HostRuntime) -> Result<(), Fail> {
    let cell = MemCell::of(Boot { boots: 3 });
    let says = [
        Said::Crashed,
        Said::Fell(1),
        Said::Fell(2),
        Said::Fell(3),
        Said::Asked(4),
    ];
    comes_so(&rt, 0, cell, WayBack::FellAndRestarts, &says)
}

#[test]
fn a_site_that_is_down_only_restarts(rt: HostRuntime) -> Result<(), Fail> {
    let cell = MemCell::of(Boot { boots: 5 });
    comes_so(&rt, 5, cell, WayBack::Restarts, &[Said::Asked(6)])
}

#[test]
fn a_save_that_fails_is_recorded(rt: HostRuntime) -> Result<(), Fail> {
    let cell = MemCell::failing(1, false);
    let says = [Said::Crashed, Said::Fell(0)];
    comes_so(&rt, 0, cell, WayBack::Restarts, &says)
}

/// Why a room does not come back so; `None` where it does.
fn fault_of(alloc: Global, room: Operator, boots: u32, way: WayBack) -> Option<RestartFault> {
    match restart(alloc, room, MemCell::of(Boot { boots }), way) {
        Ok(_) => None,
        Err(fault) => Some(fault),
    }
}

/// A room does not come back so over a cell of so many boots, for this reason; `None` where it does.
fn fails<R: Abort + AllocGlobal>(
    rt: &R,
    room: Operator,
    boots: u32,
    way: WayBack,
    want: Option<RestartFault>,
) {
    assert_eq!(rt; fault_of(rt.alloc(), room, boots, way), want);
}

#[test]
fn a_cell_of_another_site_is_refused(rt: HostRuntime) -> Result<(), Fail> {
    let misfit = Some(RestartFault::Misfit);
    for way in [WayBack::Again, WayBack::Restarts, WayBack::FellAndRestarts] {
        fails(&rt, site(rt.alloc(), 3)?, 2, way, misfit);
    }
    Ok(())
}

#[test]
fn a_site_whose_cell_is_ahead_does_not_just_go_on(rt: HostRuntime) -> Result<(), Fail> {
    let misfit = Some(RestartFault::Misfit);
    for way in [WayBack::Again, WayBack::Restarts] {
        fails(&rt, site(rt.alloc(), 0)?, 2, way, misfit);
    }
    Ok(())
}

#[test]
fn a_client_never_restarts(rt: HostRuntime) -> Result<(), Fail> {
    let misfit = Some(RestartFault::Misfit);
    fails(&rt, operator(rt.alloc(), 0)?, 0, WayBack::Restarts, misfit);
    fails(&rt, operator(rt.alloc(), 0)?, 9, WayBack::Again, None);
    Ok(())
}

/// The journal of the operator, who took a request and comes back to take another.
fn worked_twice(alloc: Global) -> Result<Vec<u8>, Fail> {
    let (room, _first) = settle(alloc, operator(alloc, 0)?, 0)?;
    let room = back(alloc, bytes_of(alloc, room)?.as_slice())?;
    let (room, _second) = settle(alloc, room, 0)?;
    bytes_of(alloc, room)
}

/// The room over another cell, which holds what its own does.
fn over_another(room: Operator) -> Operator {
    match room.actor().held_boot() {
        Some(own) => room.over(MemCell::of(own)),
        None => room.over(MemCell::new()),
    }
}

/// The journal of the operator, whose room is over another cell between two requests.
fn worked_over_another(alloc: Global) -> Result<Vec<u8>, Fail> {
    let (room, _first) = settle(alloc, operator(alloc, 0)?, 0)?;
    let (room, _second) = settle(alloc, over_another(room), 0)?;
    bytes_of(alloc, room)
}

/// How many records these bytes have, what is left behind them, and the last clock of the history that they are.
pub(crate) fn told_of(alloc: Global, bytes: &[u8]) -> Result<(usize, Left, u64), Fail> {
    let journal = journal_in(alloc, bytes)?;
    let clock = last_clock(alloc, &journal)?;
    Ok((journal.history.len(), journal.left, clock))
}

/// The last clock of a history that was replayed.
fn last_clock(alloc: Global, journal: &Journal) -> Result<u64, Fail> {
    Ok(clock_of(again(alloc, journal)?))
}

/// In these bytes stand two records and nothing else, and the last clock of the history that they are is 2.
fn has_two_records<R: Abort + AllocGlobal>(rt: &R, bytes: &[u8]) -> Result<(), Fail> {
    assert_eq!(rt; told_of(rt.alloc(), bytes)?, (2, Left::Nothing, 2));
    Ok(())
}

#[test]
fn what_comes_back_goes_on(rt: HostRuntime) -> Result<(), Fail> {
    let bytes = worked_twice(rt.alloc())?;
    has_two_records(&rt, bytes.as_slice())
}

/// What the site of a room holds.
fn holds<R: Abort>(rt: &R, room: &Operator, want: Option<Boot>) {
    assert_eq!(rt; room.actor().held_boot(), want);
}

#[test]
fn a_room_over_another_cell_goes_on(rt: HostRuntime) -> Result<(), Fail> {
    let bytes = worked_over_another(rt.alloc())?;
    has_two_records(&rt, bytes.as_slice())?;
    let site = over_another(site(rt.alloc(), 4)?);
    holds(&rt, &site, Some(Boot { boots: 4 }));
    Ok(())
}

/// The clock of the operator's room once it noted a request that came out so; `None` where it cannot have.
fn clock_noted(alloc: Global, outcome: PartyOutcome) -> Result<Option<u64>, Fail> {
    let asks = ClientEvent::Submits(Cmd::Settle { most: 1 });
    clock_after(
        alloc,
        operator(alloc, 0)?,
        PartyEvent::OfClient(asks),
        outcome,
    )
}

/// The clock of a room once it noted an event that came out so; `None` where it cannot have.
fn clock_after<A: Audited + Journaled, L: Log>(
    alloc: Global,
    room: JournalRoom<A, L>,
    event: A::Event,
    outcome: A::Outcome,
) -> Result<Option<u64>, Fail> {
    match room.note(alloc, event, outcome) {
        Ok(Some(room)) => Ok(Some(room.clock())),
        Ok(None) => Ok(None),
        Err(_) => Err(Fail::new("it has no text")),
    }
}

/// A request of the operator that came out so is noted at this clock; `None` where it cannot have.
fn is_noted<R: Abort + AllocGlobal>(
    rt: &R,
    outcome: PartyOutcome,
    want: Option<u64>,
) -> Result<(), Fail> {
    assert_eq!(rt; clock_noted(rt.alloc(), outcome)?, want);
    Ok(())
}

#[test]
fn what_can_have_come_so_is_noted(rt: HostRuntime) -> Result<(), Fail> {
    let refused = PartyOutcome::OfClient(Err(ClientFault::NoMemory));
    is_noted(&rt, refused, Some(1))?;
    is_noted(&rt, PartyOutcome::Stray, None)
}
