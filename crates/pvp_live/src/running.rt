//! A live run, from the first connection to the verdict.
ghost use Rattle.std.specs.Prelude.{◌≡◌, ◌+◌, ◌*◌, length, IfErr, IfOk, IsPermutation, OnOk};
ghost use Rattle.pvp_types.specs.Setup.{IsValid, faults};
ghost use Rattle.pvp_audit.specs.Banked.{IsTheBank};
ghost use Rattle.pvp_live.specs.Bank.{BeganNew, numbers_of};
ghost use Rattle.pvp_live.specs.Faults.{AreWanting, Ends, IsLate};
ghost use Rattle.pvp_live.specs.Playing.{IsTally, WasTallied};
ghost use Rattle.pvp_live.specs.Seating.{AreNew, Keeps, TakesBack, TakesOne};
ghost use Rattle.pvp_live.specs.Told.{WasJudged};

use crate::actors::{Bank, began_new, numbers_of};
use crate::board::{Board, Counter};
use crate::notes::{tell_connected, tell_ends, tell_left};
use crate::player::{LinePlayer, place_of};
use crate::refusals::Refused;
use pvp_audit::{NotTheBank, Verdict, audit, in_memory};
use pvp_links::{
    Connected, Incoming, NetFault, Peer, Sending, Writer, Writers, connect_all, serve_streams,
};
use pvp_parties::{Party, PartyCellOf, PartyOf, PartySeat};
use pvp_rooms::Closed;
use pvp_text::script::Line;
use pvp_types::Setup;
use std::alloc::{AllocError, AllocFailed, Global};
use std::io::{Read, Write};
use std::net::Net;
use std::sync::Wait;
use std::thread::Threads;
use std::time::Clock;
use vr_types::BootCell;

/// Why there is no verdict.
#[derive(Clone, Copy, Debug, PartialEq, Eq)]
pub enum LiveFault {
    /// A listener could not be opened, or a connection not be made.
    Net,
    /// Memory was refused.
    NoMemory,
    /// E1: a seat was lost, or a site had not begun with a new cell.
    Seats,
}

/// A seat or a cell is not where it has to be.
#[derive(Clone, Copy, Debug, PartialEq, Eq)]
struct Misplaced;

impl From<AllocError> for LiveFault {
    ghost use Rattle.std.specs.Prelude.{◌≡◌};
    ghost use Rattle.pvp_live.specs.declared.running.LiveFault.TheVariants.{NoMemory};

    ghost from_gives = { λ _ told. told ≡ NoMemory };

    fn from(_refused: AllocError) -> Self {
        LiveFault::NoMemory
    }
}

/// A refusal of memory is reported as that.
impl<T: Drop> From<AllocFailed<T>> for LiveFault {
    ghost use Rattle.std.specs.Prelude.{◌≡◌};
    ghost use Rattle.pvp_live.specs.declared.running.LiveFault.TheVariants.{NoMemory};

    ghost from_gives = { λ _ told. told ≡ NoMemory };

    fn from(_refused: AllocFailed<T>) -> Self {
        LiveFault::NoMemory
    }
}

impl From<NetFault> for LiveFault {
    ghost use Rattle.std.specs.Prelude.{◌≡◌};
    ghost use Rattle.pvp_live.specs.Faults.{net_told};

    ghost from_gives = { λ fault told. told ≡ net_told fault };

    fn from(fault: NetFault) -> Self {
        match fault {
            NetFault::Net => LiveFault::Net,
            NetFault::NoMemory => LiveFault::NoMemory,
        }
    }
}

impl From<Misplaced> for LiveFault {
    ghost use Rattle.std.specs.Prelude.{◌≡◌};
    ghost use Rattle.pvp_live.specs.declared.running.LiveFault.TheVariants.{Seats};

    ghost from_gives = { λ _ told. told ≡ Seats };

    fn from(_seat: Misplaced) -> Self {
        LiveFault::Seats
    }
}

/// What a live run leaves.
#[derive(Drop)]
pub struct Lived {
    /// What its actors left, each site read over a cell in memory that holds what its own does.
    pub closed: Vec<Closed<Party>>,
    /// How that was judged.
    pub verdict: Verdict,
    /// Which lines of its script were refused.
    pub refused: Option<Refused>,
}

/// Runs a bank by itself while a script is played, and judges what its actors did. Each site stands
/// over one of these boot cells, in their order, of which each has to be new. Each actor has a lock
/// of its own and a stream from each other that may send to it. At the script's end the writers
/// stop, all workers end, and the actors are judged; a refused step of the script stands in the
/// history, and which lines were refused is reported beside the verdict. What goes on is reported
/// to `notes` while it runs.
pub fn live<R, C: BootCell + Send, N: Write>(
    rt: &R,
    alloc: Global,
    setup: &Setup,
    boots: Vec<C>,
    lines: &[Line],
    notes: &mut N,
) -> Result<Lived, LiveFault>
where
    R: Threads + Wait + Clock + Net + Sync,
    R::Stream: Read + Write + Send + Drop,
    requires valid { IsValid setup.now }
    requires sites { length boots.items ≡ 2 * faults setup.now + 1 }
    ensures judged { IfOk result (λ lived. WasJudged setup.now lived.closed.items lived.verdict) }
    ensures tally { IfOk result (λ lived. WasTallied lines.now lived.closed.items lived.refused) }
    ensures fault { IfErr result (Ends R.Stream (numbers_of setup.now) notes.old notes.new) }
{
    let actors = numbers_of(alloc, setup)?;
    let connected = connect_all(rt, alloc, actors.as_slice())?;
    tell_connected(notes, actors.len(), connected.incoming.len());
    live_connected(rt, alloc, setup, boots, connected, lines, notes)
}

/// Runs the bank over these connections.
fn live_connected<R, C: BootCell + Send, N: Write>(
    rt: &R,
    alloc: Global,
    setup: &Setup,
    boots: Vec<C>,
    connected: Connected<R::Stream>,
    lines: &[Line],
    notes: &mut N,
) -> Result<Lived, LiveFault>
where
    R: Threads + Wait + Clock + Net + Sync,
    R::Stream: Read + Write + Send + Drop,
    requires valid { IsValid setup.now }
    requires sites { length boots.items ≡ 2 * faults setup.now + 1 }
    ensures judged { IfOk result (λ lived. WasJudged setup.now lived.closed.items lived.verdict) }
    ensures tally { IfOk result (λ lived. WasTallied lines.now lived.closed.items lived.refused) }
    ensures late { IfErr result IsLate }
{
    let Bank { cells, own, seats } = Bank::open(alloc, setup, boots)?;
    let script = Script {
        setup,
        lines,
        notes: &mut *notes,
    };
    let Played { seats, refused } = run(
        rt,
        alloc,
        cells.as_slice(),
        own,
        seats,
        connected,
        script,
    )?;
    let closed = in_memory(alloc, close_all(alloc, cells, seats)?)?;
    tell_left(alloc, notes, setup, closed.as_slice());
    let verdict = judge_left(alloc, setup, closed.as_slice())?;
    Ok(Lived {
        closed,
        verdict,
        refused,
    })
}

/// Judges what all actors left. `Err` exactly where these are not the bank's, or a site had not begun with a new cell.
fn judge_left(alloc: Global, setup: &Setup, closed: &[Closed<Party>]) -> Result<Verdict, Misplaced>
    requires { IsValid setup.now }
    ensures judged { IfOk result (WasJudged setup.now closed.now) }
    ensures stranger { IfErr result (λ _.
        IsTheBank setup.now closed.now → BeganNew setup.now closed.now → ⊥) }
{
    if !began_new(closed) {
        return Err(Misplaced);
    }
    match audit(alloc, setup, closed) {
        Ok(verdict) => Ok(verdict),
        Err(NotTheBank) => Err(Misplaced),
    }
}

/// The lines to play, and who hears what goes on.
#[derive(Drop)]
struct Script<'a, N> {
    setup: &'a Setup,
    lines: &'a [Line],
    notes: &'a mut N,
}

/// What is left once a script was played and all workers ended.
#[derive(Drop)]
struct Played {
    /// By cell.
    seats: Vec<Vec<PartySeat>>,
    /// Which lines were refused.
    refused: Option<Refused>,
}

/// Plays the script from seats of the player's own while all workers are at work, and answers the seats of each cell.
fn run<R, C: BootCell + Send, N: Write>(
    rt: &R,
    alloc: Global,
    cells: &[PartyCellOf<C>],
    own: Vec<PartySeat>,
    mut seats: Vec<Vec<PartySeat>>,
    connected: Connected<R::Stream>,
    script: Script<'_, N>,
) -> Result<Played, LiveFault>
where
    R: Threads + Wait + Clock + Net + Sync,
    R::Stream: Read + Write + Send + Drop,
    requires { AreNew cells.now own.items }
    ensures tally { IfOk result (λ played.
        IsTally cells.now script.entry.lines.now played.refused played.seats.items) }
    ensures late { IfErr result IsLate }
{
    let Connected { incoming, outgoing } = connected;
    let mut out = Writers::new(alloc);
    let mut writers = writers_of(alloc, &mut out, outgoing)?;
    let board = Board::new(&out);
    let mut peers = peers_of(alloc, cells, seats.as_mut_slice(), incoming, &board)?;
    let Script {
        setup,
        lines,
        notes,
    } = script;
    let mut player = LinePlayer {
        rt,
        alloc,
        setup,
        notes,
        cells,
        seats: own,
        lines,
        board: &board,
        refused: None,
    };
    serve_streams(
        rt,
        alloc,
        peers.as_mut_slice(),
        writers.as_mut_slice(),
        &out,
        &mut player,
    );
    let LinePlayer {
        seats: own,
        notes,
        refused,
        ..
    } = player;
    tell_ends(alloc, notes, peers.as_slice());
    give_back(cells, &mut seats, own)?;
    give_back(cells, &mut seats, seats_of(alloc, peers)?)?;
    Ok(Played { seats, refused })
}

/// A writer for each actor over its streams.
fn writers_of<S: Write + Drop>(
    alloc: Global,
    out: &mut Writers,
    outgoing: Vec<Sending<S>>,
) -> Result<Vec<Writer<S>>, AllocError> {
    let mut writers = Vec::with_capacity(alloc, outgoing.len())?;
    for sending in outgoing {
        let Sending { actor, streams } = sending;
        writers.push(out.add(alloc, actor, streams)?)?;
    }
    Ok(writers)
}

/// A peer for each incoming stream, at the cell of its reader, with a seat of that cell.
fn peers_of<'a, S: Drop, C: BootCell>(
    alloc: Global,
    cells: &'a [PartyCellOf<C>],
    seats: &mut [Vec<PartySeat>],
    incoming: Vec<Incoming<S>>,
    board: &'a Board<'a>,
) -> Result<Vec<Peer<'a, PartyOf<C>, S, Counter<'a>>>, LiveFault>
    ensures { IfErr result IsLate }
{
    let mut peers = Vec::with_capacity(alloc, incoming.len())?;
    for stream in incoming {
        let Incoming { to, stream, .. } = stream;
        let (cell, seat) = seat_at(cells, seats, to)?;
        peers.push(Peer {
            cell,
            seat,
            reader: stream,
            gate: Counter::new(board),
            end: None,
        })?;
    }
    Ok(peers)
}

/// The cell of the actor of a number, and a seat there that is free.
fn seat_at<'a, C: BootCell>(
    cells: &'a [PartyCellOf<C>],
    seats: &mut [Vec<PartySeat>],
    actor: u16,
) -> Result<(&'a PartyCellOf<C>, PartySeat), Misplaced> {
    let place = place_of(cells, actor).ok_or(Misplaced)?;
    let cell = cells.get(place).ok_or(Misplaced)?;
    let free = seats.get_mut(place).ok_or(Misplaced)?;
    let seat = free.pop().ok_or(Misplaced)?;
    Ok((cell, seat))
}

/// The seats of peers.
fn seats_of<S: Drop, C: BootCell>(
    alloc: Global,
    peers: Vec<Peer<'_, PartyOf<C>, S, Counter<'_>>>,
) -> Result<Vec<PartySeat>, AllocError> {
    let mut seats = Vec::with_capacity(alloc, peers.len())?;
    for peer in peers {
        let Peer { seat, .. } = peer;
        seats.push(seat)?;
    }
    Ok(seats)
}

/// Gives seats back, each to its cell.
fn give_back<C: BootCell>(
    cells: &[PartyCellOf<C>],
    seats: &mut Vec<Vec<PartySeat>>,
    given: Vec<PartySeat>,
) -> Result<(), LiveFault>
    ensures back { OnOk result (TakesBack seats.old.items given.items seats.new.items) }
    ensures late { IfErr result IsLate }
{
    for seat in given {
        put_back(cells, seats, seat)?;
    }
    Ok(())
}

/// Gives a seat back to its cell.
fn put_back<C: BootCell>(
    cells: &[PartyCellOf<C>],
    seats: &mut Vec<Vec<PartySeat>>,
    seat: PartySeat,
) -> Result<(), LiveFault>
    ensures back { OnOk result (TakesOne seats.old.items seat seats.new.items) }
    ensures late { IfErr result IsLate }
{
    let place = place_of(cells, seat.actor()).ok_or(Misplaced)?;
    if place >= seats.len() {
        return Err(Misplaced.into());
    }
    seats[place].push(seat)?;
    Ok(())
}

/// Closes each cell with its seats.
fn close_all<C: BootCell>(
    alloc: Global,
    cells: Vec<PartyCellOf<C>>,
    seats: Vec<Vec<PartySeat>>,
) -> Result<Vec<Closed<PartyOf<C>>>, LiveFault>
    ensures kept { IfOk result (λ closed. Keeps seats.items closed.items) }
    ensures late { IfErr result IsLate }
{
    let mut closed = Vec::with_capacity(alloc, cells.len())?;
    let mut cells = cells.into_iter();
    for own in seats {
        let cell = cells.next().ok_or(Misplaced)?;
        closed.push(close_one(cell, own)?)?;
    }
    Ok(closed)
}

/// Closes a cell with its seats. `Err` only where these are not all its seats, each once.
fn close_one<C: BootCell>(
    cell: PartyCellOf<C>,
    seats: Vec<PartySeat>,
) -> Result<Closed<PartyOf<C>>, Misplaced>
    ensures kept { IfOk result (λ closed. IsPermutation seats.items closed.seats.items) }
    ensures wanting { IfErr result (λ _. AreWanting cell seats.items) }
{
    match cell.close(seats) {
        Ok(closed) => Ok(closed),
        Err(_) => Err(Misplaced),
    }
}
