//! What is done before an actor is served: from its folder to its room.
ghost use Rattle.std.specs.Prelude.{◌≡◌, None, Some, IfOk, IfErr, IsTrue};
ghost use Rattle.pvp_types.specs.Setup.{IsValid};
ghost use Rattle.pvp_journal.specs.Journals.{IsRead};
ghost use Rattle.pvp_journal.specs.declared.journal.Left.TheVariants.{Nothing};
ghost use Rattle.pvp_journal.specs.Log.{OutlivesAll};
ghost use Rattle.pvp_journal.specs.Resumed.{IsAgainOf, IsOpened};
ghost use Rattle.pvp_serve.specs.Serving.{log_told};
ghost use Rattle.pvp_serve.specs.Opening.{
  IsDamaged,
  IsUntorn,
  begins_so,
  came_again,
  came_back,
  cell_stands,
  journal_told,
  kept_of,
  may_begin,
  may_serve,
  restart_told,
  serves_so,
  wrong_in,
};

use crate::folder::{
    Marked, is_whole, mark_in, mark_written, may_begin, may_serve, open_journal, put_in, put_mark,
    read_in,
};
use crate::host::Host;
use crate::lanes::Lanes;
use crate::reading::Reading;
use crate::serving::Serving;
use pvp_cell::{DirStore, FileCell, OpenFault, create_cell, read_cell, settle_cell};
use pvp_journal::{
    Entry, EvidenceWhy, FileLog, Head, Journal, JournalFault, JournalRoom, JournalWhy, Journaled,
    Left, Log, LogFault, Pace, Replayed, RestartFault, ShelfFault, Version, WayBack, come_back,
    read_journal, replay, restart, way_back, write_head,
};
use pvp_parties::{Party, PartyOf};
use pvp_places::{FolderWhy, Mark, ServeFault};
use pvp_rooms::Actor;
use pvp_types::Setup;
use std::alloc::{AllocError, Global};
use std::fs::File;
use vr_types::{ActorId, Boot, BootCell, MemCell};

/// The boot cell of a site that is served.
pub type SiteCell<R> = FileCell<DirStore<R>>;

/// The room of an actor that is served.
pub type Room<C> = JournalRoom<PartyOf<C>, FileLog<File>>;

/// An actor that is served, over a file of its folder and the streams of the process.
pub type Process<C> = Serving<C, FileLog<File>, Lanes>;

/// Whom a room is opened for, and where.
#[derive(Drop)]
pub struct Place<'a> {
    pub setup: &'a Setup,
    pub bank: [u8; 32],
    pub me: u16,
    pub folder: &'a str,
    pub syncs: bool,
    ghost valid: { IsValid setup.now },
}

impl<'a> Place<'a> {
    /// The place of an actor of a bank, whose folder this is.
    pub fn new(setup: &'a Setup, bank: [u8; 32], me: u16, folder: &'a str, syncs: bool) -> Self
        requires { IsValid setup.now }
        ensures setup { result.setup.now ≡ setup.now }
        ensures bank { result.bank ≡ bank }
        ensures me { result.me ≡ me }
        ensures folder { result.folder.now ≡ folder.now }
        ensures syncs { result.syncs ≡ syncs }
    {
        Place {
            setup,
            bank,
            me,
            folder,
            syncs,
        }
    }
}

/// Begins the actor of a place, once in its life: leaves in its folder what it is served from, synced. The mark says that it
/// is being begun until all stands there, so where this was cut off it can be said again. `Err` with X9 where an actor was begun
/// there before.
pub fn begin<R: Host>(rt: R, place: &Place<'_>) -> Result<(), ServeFault> {
    let has_files = has_cell(rt, place)? || read_in(rt, place.folder, "journal")?.is_some();
    require_unbegun(mark_in(rt, place.folder)?, has_files)?;
    put_mark(rt, place.folder, Mark::Begun)?;
    let opening = match ActorId::of(place.me) {
        ActorId::Site(_) => Some(new_cell(rt, place)?),
        _ => None,
    };
    let (_size, _sum) = put_head(rt, place, opening)?;
    put_mark(rt, place.folder, Mark::Synced)
}

/// The boot cell of a site that is being begun, on its disk.
fn new_cell<R: Host>(rt: R, place: &Place<'_>) -> Result<Boot, ServeFault> {
    let alloc = rt.alloc();
    let mut store = DirStore::new(rt, alloc, place.folder)?;
    match settle_cell(alloc, &mut store) {
        Err(OpenFault::Lost) => create_cell(alloc, &mut store)?,
        Err(fault) => return Err(fault.into()),
        Ok(boot) => return Ok(boot),
    }
    Ok(Boot::new())
}

/// Whether a folder has a boot cell.
fn has_cell<R: Host>(rt: R, place: &Place<'_>) -> Result<bool, ServeFault> {
    let mut store = DirStore::new(rt, rt.alloc(), place.folder)?;
    stands(read_cell(rt.alloc(), &mut store))
}

/// Whether a boot cell stands that was read so, whole or damaged.
fn stands(read: Result<Boot, OpenFault>) -> Result<bool, ServeFault>
    ensures { result ≡ cell_stands read }
{
    match read {
        Err(OpenFault::Lost) => Ok(false),
        Err(OpenFault::Store) => Err(ServeFault::Cell(OpenFault::Store)),
        Err(OpenFault::NoMemory) => Err(ServeFault::NoMemory),
        _ => Ok(true),
    }
}

/// Nothing, where an actor may be begun in a folder of such a mark, with files or without; else `Err` with X9.
fn require_unbegun(mark: Marked, has_files: bool) -> Result<(), ServeFault>
    ensures { result ≡ begins_so (may_begin mark has_files) }
{
    if may_begin(mark, has_files) {
        Ok(())
    } else {
        Err(ServeFault::Folder(FolderWhy::Begun))
    }
}

/// Nothing, where an actor may be served from such a folder; else `Err` with X8.
fn require_begun(mark: Marked, has_files: bool) -> Result<(), ServeFault>
    ensures { result ≡ serves_so (may_serve mark has_files) }
{
    if may_serve(mark, has_files) {
        Ok(())
    } else {
        Err(ServeFault::Folder(FolderWhy::Unbegun))
    }
}

/// The room of a site: as its journal left it, or by a crash and a restart where that may not be whole.
pub fn open_site<R: Host>(
    rt: R,
    place: &Place<'_>,
    site: u16,
) -> Result<Room<SiteCell<R>>, ServeFault> {
    let journal = read_in(rt, place.folder, "journal")?;
    let has_files = journal.is_some() || has_cell(rt, place)?;
    require_begun(mark_in(rt, place.folder)?, has_files)?;
    let store = DirStore::new(rt, rt.alloc(), place.folder)?;
    match journal {
        None => open_forgetful(rt, place, site, store),
        Some(bytes) => open_again(rt, place, bytes, store),
    }
}

/// The room of a node or of a client, as its journal left it.
pub fn open_other<R: Host>(rt: R, place: &Place<'_>) -> Result<Room<MemCell>, ServeFault> {
    let journal = read_in(rt, place.folder, "journal")?;
    require_begun(mark_in(rt, place.folder)?, journal.is_some())?;
    match journal {
        None => Err(ServeFault::Folder(FolderWhy::Unbegun)),
        Some(bytes) => open_same(rt, place, bytes),
    }
}

/// Writes what a room took as it was opened, and only then marks its folder for what is written from now on. What it sent is
/// lost, as no stream stands yet.
pub fn settle<R: Host, A: Journaled, L: Log>(
    rt: R,
    place: &Place<'_>,
    opened: Result<JournalRoom<A, L>, ServeFault>,
) -> Result<JournalRoom<A, L>, ServeFault>
    ensures synced { IfOk result (λ room. IsTrue place.now.syncs →
        OutlivesAll (L.seen room.log) (L.synced room.log)) }
{
    match opened?.flush(rt.alloc(), place.syncs) {
        Ok((room, _letters)) => mark_room(rt, place, room),
        Err(fault) => Err(log_fault(fault)),
    }
}

/// Marks the folder of a room. A folder whose batches are synced is marked so only where all that
/// was written outlives the machine: a site that came back by less would have forgotten what it
/// sent.
fn mark_room<R: Host, A: Journaled, L: Log>(
    rt: R,
    place: &Place<'_>,
    room: JournalRoom<A, L>,
) -> Result<JournalRoom<A, L>, ServeFault>
    requires { IsTrue place.now.syncs → OutlivesAll (L.seen room.log) (L.synced room.log) }
    ensures { IfOk result (λ marked. marked ≡ room) }
{
    match mark_written(rt, place.folder, place.syncs) {
        Ok(()) => Ok(room),
        Err(fault) => Err(fault),
    }
}

/// Why a journal cannot be written on.
pub fn log_fault(fault: LogFault) -> ServeFault
    ensures { result ≡ log_told fault }
{
    ServeFault::Log(match fault {
        LogFault::Full => ShelfFault::Full,
        LogFault::Failed => ShelfFault::Failed,
    })
}

/// Why a site does not come back.
fn fault_of(fault: RestartFault) -> ServeFault
    ensures { result ≡ restart_told fault }
{
    match fault {
        RestartFault::Misfit => ServeFault::Folder(FolderWhy::Cell),
        RestartFault::ClockSpent => ServeFault::Clock,
        RestartFault::Unwritten(fault) => fault.into(),
    }
}

/// The room of a site that has a cell and no journal: it has forgotten what it sent, and restarts.
fn open_forgetful<R: Host>(
    rt: R,
    place: &Place<'_>,
    site: u16,
    store: DirStore<R>,
) -> Result<Room<SiteCell<R>>, ServeFault> {
    let alloc = rt.alloc();
    let cell = FileCell::open(alloc, store)?;
    let boot = cell.load();
    let (log, sum) = begin_journal(rt, place, Some(boot))?;
    match new_site(alloc, place, site, MemCell::of(boot), log, sum) {
        Ok(room) => restart_result(restart(alloc, room, cell, WayBack::Restarts)),
        Err(fault) => Err(fault),
    }
}

/// The room of a site that replayed its journal, over its own cell.
fn open_again<R: Host>(
    rt: R,
    place: &Place<'_>,
    bytes: Vec<u8>,
    store: DirStore<R>,
) -> Result<Room<SiteCell<R>>, ServeFault> {
    let alloc = rt.alloc();
    let bytes = drop_torn_record(alloc, bytes)?;
    let cell = FileCell::open(alloc, store)?;
    let is_whole = is_whole(rt, place.folder)?;
    match again(rt, place, bytes.as_slice()) {
        Ok(room) => bring_back(alloc, is_whole, room, cell),
        Err(fault) => Err(fault),
    }
}

/// The room of a node or a client that replayed its journal, which has to be whole.
fn open_same<R: Host>(
    rt: R,
    place: &Place<'_>,
    bytes: Vec<u8>,
) -> Result<Room<MemCell>, ServeFault> {
    let bytes = drop_torn_record(rt.alloc(), bytes)?;
    require_whole(rt, place, again(rt, place, bytes.as_slice()))
}

/// What was found in a folder, whose journal has to be whole.
fn require_whole<R: Host, T: Drop>(
    rt: R,
    place: &Place<'_>,
    found: Result<T, ServeFault>,
) -> Result<T, ServeFault> {
    let found = found?;
    match is_whole(rt, place.folder)? {
        true => Ok(found),
        false => Err(ServeFault::Folder(FolderWhy::Unsynced)),
    }
}

/// The way back of a site over its own cell. Where there is none, the cell is reported.
fn bring_back<C: BootCell>(
    alloc: Global,
    is_whole: bool,
    room: Room<MemCell>,
    cell: C,
) -> Result<Room<C>, ServeFault> {
    let held = cell.load();
    let known = room.actor().held_boot().unwrap_or(held);
    let way = way_back(known, held, is_whole).unwrap_or(WayBack::Again);
    restart_result(restart(alloc, room, cell, way))
}

/// What came back, or the fault that is reported instead.
fn restart_result<T>(came: Result<T, RestartFault>) -> Result<T, ServeFault>
    ensures { result ≡ came_back came }
{
    match came {
        Ok(back) => Ok(back),
        Err(fault) => Err(fault_of(fault)),
    }
}

/// The room of a site that opens over a cell, at a new journal.
fn new_site<C: BootCell>(
    alloc: Global,
    place: &Place<'_>,
    site: u16,
    cell: C,
    log: FileLog<File>,
    sum: u64,
) -> Result<Room<C>, ServeFault> {
    let opening = Some(cell.load());
    let party = site_party(alloc, place, site, cell)?;
    Ok(JournalRoom::new(alloc, place.me, opening, party, log, sum))
}

/// The site of this number, over a cell.
fn site_party<C: BootCell>(
    alloc: Global,
    place: &Place<'_>,
    site: u16,
    cell: C,
) -> Result<PartyOf<C>, ServeFault>
    ensures { IfOk result (λ party. IsOpened ⟦<PartyOf<C> as Actor>⟧ party (Some (C.held cell))) }
{
    if site > 2 * place.setup.faults() {
        return Err(ServeFault::Folder(FolderWhy::Actor));
    }
    Ok(PartyOf::site(alloc, place.setup, site, cell)?)
}

/// The node or the client of a place.
fn other_party(alloc: Global, place: &Place<'_>) -> Result<Party, ServeFault>
    ensures { IfOk result (λ party. IsOpened ⟦<Party as Actor>⟧ party None) }
{
    match ActorId::of(place.me) {
        ActorId::Node(ccy) if ccy < u16::from(place.setup.currency_count()) => {
            Ok(PartyOf::node(alloc, place.setup, ccy as u8)?)
        }
        ActorId::Client(client) if client <= place.setup.member_count() => {
            Ok(PartyOf::client(place.setup, client)?)
        }
        _ => Err(ServeFault::Folder(FolderWhy::Actor)),
    }
}

/// Begins a journal of an actor that opens over this, and answers its log and its checksum. The mark goes before the journal,
/// so a journal that a kill leaves here can be trusted.
fn begin_journal<R: Host>(
    rt: R,
    place: &Place<'_>,
    opening: Option<Boot>,
) -> Result<(FileLog<File>, u64), ServeFault> {
    mark_written(rt, place.folder, place.syncs)?;
    let (size, sum) = put_head(rt, place, opening)?;
    let file = open_journal(rt, place.folder, size)?;
    Ok((FileLog::new(file), sum))
}

/// Puts the journal of an actor there that opens over this and took nothing, and answers its size and its checksum.
fn put_head<R: Host>(
    rt: R,
    place: &Place<'_>,
    opening: Option<Boot>,
) -> Result<(usize, u64), ServeFault> {
    let alloc = rt.alloc();
    let head = Head {
        version: Version::Two,
        actor: place.me,
        opening,
        bank: place.bank,
    };
    let mut bytes = Vec::new(alloc);
    let sum = write_head(alloc, &head, &mut bytes)?;
    put_in(rt, place.folder, "journal", bytes.as_slice())?;
    Ok((bytes.len(), sum))
}

/// The bytes of a journal without the record that was cut off at their end.
fn drop_torn_record(alloc: Global, bytes: Vec<u8>) -> Result<Vec<u8>, ServeFault>
    ensures kept { IfOk result (λ kept. IsUntorn bytes.items kept.items) }
    ensures refused { IfErr result (λ fault. IsDamaged bytes.items fault) }
{
    let journal = journal_of(alloc, bytes.as_slice())?;
    Ok(kept_of(bytes, journal.left))
}

/// The journal that these bytes are.
fn journal_of(alloc: Global, bytes: &[u8]) -> Result<Journal, ServeFault>
    ensures read { IfOk result (λ journal. IsRead bytes.now journal) }
    ensures refused { IfErr result (λ fault. IsDamaged bytes.now fault) }
{
    match read_journal(alloc, bytes) {
        Ok(journal) => Ok(journal),
        Err(fault) => Err(journal_fault(fault)),
    }
}

/// Why a journal is not read, as the fault that is reported.
fn journal_fault(fault: JournalFault) -> ServeFault
    ensures { result ≡ journal_told fault }
{
    match fault.why {
        JournalWhy::NoMemory => ServeFault::NoMemory,
        why => ServeFault::Journal { why, at: fault.at },
    }
}

/// What is kept of the bytes of a journal that was read so far.
fn kept_of(bytes: Vec<u8>, left: Left) -> Vec<u8>
    ensures { result.items ≡ kept_of bytes.items left }
{
    let mut bytes = bytes;
    if let Left::Torn(at) = left {
        bytes.truncate(at);
    }
    bytes
}

/// What is wrong with the head of a journal in this place.
fn wrong_in(place: &Place<'_>, head: &Head) -> Option<EvidenceWhy>
    ensures { result ≡ wrong_in place.now.bank place.now.me head.now }
{
    if head.bank[..16] != place.bank[..16] {
        return Some(EvidenceWhy::Setup);
    }
    if head.bank != place.bank {
        return Some(EvidenceWhy::Life);
    }
    if head.actor != place.me {
        return Some(EvidenceWhy::Stranger);
    }
    None
}

/// The room of an actor that replayed the journal in these bytes in memory.
fn again<R: Host>(rt: R, place: &Place<'_>, bytes: &[u8]) -> Result<Room<MemCell>, ServeFault> {
    let journal = journal_of(rt.alloc(), bytes)?;
    again_in(rt, place, bytes, &journal)
}

/// That room, of the journal that was read from these bytes: it has to be this actor's, and whole.
fn again_in<R: Host>(
    rt: R,
    place: &Place<'_>,
    bytes: &[u8],
    journal: &Journal,
) -> Result<Room<MemCell>, ServeFault>
    requires { IsRead bytes.now journal.now }
{
    if let Some(why) = wrong_in(place, &journal.head) {
        return Err(ServeFault::Other(why));
    }
    match journal.left {
        Left::Nothing => again_at(rt, place, bytes, journal),
        Left::Torn(at) => Err(ServeFault::Journal {
            why: JournalWhy::Length,
            at,
        }),
    }
}

/// That room, of a whole journal of this actor, whose records are all replayed.
fn again_at<R: Host>(
    rt: R,
    place: &Place<'_>,
    bytes: &[u8],
    journal: &Journal,
) -> Result<Room<MemCell>, ServeFault>
    requires read { IsRead bytes.now journal.now }
    requires whole { journal.now.left ≡ Nothing }
{
    let file = open_journal(rt, place.folder, bytes.len())?;
    let mut reading = Reading::new(rt, place.setup, place.me, bytes.len());
    match again_of(rt.alloc(), place, journal, &mut reading) {
        Ok(again) => Ok(come_back(rt.alloc(), bytes, journal, again, FileLog::new(file))),
        Err(fault) => Err(fault),
    }
}

/// The actor of a place after the events of its journal.
fn again_of<P: Pace>(
    alloc: Global,
    place: &Place<'_>,
    journal: &Journal,
    pace: &mut P,
) -> Result<Replayed<Party>, ServeFault>
    ensures { IfOk result (λ again. IsAgainOf journal.now.head.opening again
        journal.now.history.items) }
{
    let entries = journal.history.as_slice();
    match journal.head.opening {
        Some(boot) => site_again(alloc, place, boot, entries, pace),
        None => other_again(alloc, place, entries, pace),
    }
}

/// The node or the client of a place after the events of a journal.
fn other_again<P: Pace>(
    alloc: Global,
    place: &Place<'_>,
    entries: &[Entry],
    pace: &mut P,
) -> Result<Replayed<Party>, ServeFault>
    ensures { IfOk result (λ again. IsAgainOf None again entries.now) }
{
    if let ActorId::Site(_) = ActorId::of(place.me) {
        return Err(ServeFault::Other(EvidenceWhy::Stranger));
    }
    let party = other_party(alloc, place)?;
    replay_result(replay(alloc, party, entries, pace))
}

/// The site of a place after the events of a journal.
fn site_again<P: Pace>(
    alloc: Global,
    place: &Place<'_>,
    boot: Boot,
    entries: &[Entry],
    pace: &mut P,
) -> Result<Replayed<Party>, ServeFault>
    ensures { IfOk result (λ again. IsAgainOf (Some boot) again entries.now) }
{
    let ActorId::Site(site) = ActorId::of(place.me) else {
        return Err(ServeFault::Other(EvidenceWhy::Stranger));
    };
    let party = site_party(alloc, place, site, MemCell::of(boot))?;
    replay_result(replay(alloc, party, entries, pace))
}

/// The actor that replayed its history, or the fault that is reported instead.
fn replay_result<T>(came: Result<Option<T>, AllocError>) -> Result<T, ServeFault>
    ensures { result ≡ came_again came }
{
    match came {
        Ok(Some(again)) => Ok(again),
        Ok(None) => Err(ServeFault::Folder(FolderWhy::History)),
        Err(_) => Err(ServeFault::NoMemory),
    }
}
