//! Which requests of clients and nodes a primary admits. What it does not admit is lost, and does
//! not come into the journal: a flood ends there, and the log ends in order.
ghost use Rattle.std.specs.Prelude.{◌≡◌};
ghost use Rattle.pvp_serve.specs.Admission.{
  admission,
  admission_of_known,
  admission_of_new,
  count_of,
  counted,
  ends_order,
  flood_after,
  free_rows,
  fresh_quota,
  has_room,
  has_used_up,
  is_early,
  is_full_at,
  is_late,
  is_shut,
  late_share,
  lets_out,
  quota_after,
  quota_ticked,
  refusal_of,
  rows_of,
  share_for,
  share_of,
};

use crate::serving::Lost;
use pvp_places::TerminalWhy;
use pvp_types::Cmd;
use vr_types::{ActorId, MAX_ROWS, MOST_MEMBERS};

/// How many rows at the log's end are for what lets money out and for what nodes say.
const RESERVE: usize = 8192;

/// How many of them clients share.
const LATE_ROWS: usize = 4096;

/// So many rows before the reserve the log is reported to clients and nodes as full.
const WARNED: usize = 1024;

/// How many requests of a client or a node may not be executed yet: who waits for its answers has one.
const PENDING: u32 = 2;

/// In how many ticks a known request is answered again once.
const KNOWN_TICKS: u32 = 20;

/// How many known requests of one client or node are no flood in that time: who waits says its request once a beat.
const MOST_KNOWN: u16 = 256;

/// Below which number all clients and nodes are.
const PLACES: usize = 109;

/// What becomes of an envelope at the door.
#[derive(Clone, Copy, Debug, PartialEq, Eq)]
pub enum Admission {
    /// It is taken.
    Takes,
    /// It is taken into the reserve.
    Late,
    /// It is taken, to be answered again.
    Again,
    /// The log has no row for it, or the rules would drop it: it is lost.
    Loses,
    /// It is known: it is lost.
    Known,
    /// Its sender does not wait for its answers: it is lost.
    Floods,
}

impl Admission {
    /// Whether it is lost.
    pub fn is_shut(self) -> bool
        ensures { result ≡ is_shut self }
    {
        matches!(
            self,
            Admission::Loses | Admission::Known | Admission::Floods
        )
    }

    /// The requests that were lost in floods, with this one of an actor.
    pub fn flood_after(self, actor: u16, lost: Lost) -> Lost
        ensures { result ≡ flood_after self actor lost }
    {
        match self {
            Admission::Floods => Lost {
                count: lost.count.saturating_add(1),
                last: Some(actor),
            },
            _ => lost,
        }
    }
}

/// What a site knows as a request of a client comes.
#[derive(Clone, Copy, Debug)]
pub struct Seen {
    /// How many rows its log has, and how many of them it has executed.
    pub log: usize,
    pub done: usize,
    /// The number of the client's newest row, and of its newest executed row; 0 for none.
    pub newest: u32,
    pub answered: u32,
    /// How many orders are open.
    pub orders: usize,
}

/// What is counted of each client and node.
#[derive(Clone, Copy)]
pub struct Quota {
    /// Known requests of late.
    known: [u16; PLACES],
    /// Requests that were taken into the reserve.
    late: [u16; PLACES],
    /// How many ticks went by since the count of known requests began.
    ticks: u32,
}

impl Quota {
    /// Nothing was counted.
    pub fn new() -> Self
        ensures { result ≡ fresh_quota }
    {
        Quota {
            known: [0; PLACES],
            late: [0; PLACES],
            ticks: 0,
        }
    }

    /// How many known requests of an actor came of late, and how many were taken into the reserve.
    pub fn counts(&self, actor: u16) -> (u16, u16)
        ensures known { result.0 ≡ count_of self.now.known actor }
        ensures late { result.1 ≡ count_of self.now.late actor }
    {
        let known = count_of(&self.known, actor);
        (known, count_of(&self.late, actor))
    }

    /// A request of an actor came, of which this became.
    pub fn notes(&mut self, admission: Admission, actor: u16)
        ensures { self.new ≡ quota_after admission actor self.old }
    {
        match admission {
            Admission::Late => count_one(&mut self.late, actor),
            Admission::Again | Admission::Known => count_one(&mut self.known, actor),
            _ => {}
        }
    }

    /// A tick goes by.
    pub fn tick(&mut self)
        ensures { self.new ≡ quota_ticked self.old }
    {
        if self.ticks < KNOWN_TICKS - 1 {
            self.ticks += 1;
        } else {
            self.known = [0; PLACES];
            self.ticks = 0;
        }
    }
}

/// How many of an actor were counted; the most where it is no client and no node.
fn count_of(counts: &[u16], actor: u16) -> u16
    ensures { result ≡ count_of counts.now actor }
{
    counts.get(usize::from(actor)).copied().unwrap_or(u16::MAX)
}

/// One more of an actor is counted.
fn count_one(counts: &mut [u16; PLACES], actor: u16)
    ensures { counts.new ≡ counted actor counts.old }
{
    let place = usize::from(actor);
    if place < PLACES {
        let count = count_of(counts, actor);
        counts[place] = count.saturating_add(1);
    }
}

/// What becomes of a request of a client or a node, of a bank with so many members, of whom so many known requests came of late
/// and so many were taken into the reserve.
pub fn admit(
    who: ActorId,
    members: usize,
    seen: Seen,
    counts: (u16, u16),
    number: u32,
    cmd: Cmd,
) -> Admission
    ensures { result ≡ admission who members seen counts.0 counts.1 number cmd }
{
    if number > seen.newest {
        admit_new(who, members, seen, counts.1, number, cmd)
    } else {
        admit_known(seen, counts.0, number)
    }
}

/// What becomes of a request that is new.
fn admit_new(
    who: ActorId,
    members: usize,
    seen: Seen,
    late: u16,
    number: u32,
    cmd: Cmd,
) -> Admission
    ensures { result ≡ admission_of_new who members seen late number cmd }
{
    if number.saturating_sub(seen.answered) > PENDING {
        Admission::Floods
    } else if !has_room(who, seen, cmd) {
        Admission::Loses
    } else if is_early(who, members, seen, number) {
        Admission::Takes
    } else if is_late(who, members, late, cmd) {
        Admission::Late
    } else {
        Admission::Loses
    }
}

/// What becomes of a request that is known.
fn admit_known(seen: Seen, known: u16, number: u32) -> Admission
    ensures { result ≡ admission_of_known seen known number }
{
    if number == seen.newest && seen.answered == number && known == 0 && number > 0 {
        Admission::Again
    } else if known < MOST_KNOWN {
        Admission::Known
    } else {
        Admission::Floods
    }
}

/// Whether the log has room for a command.
fn has_room(who: ActorId, seen: Seen, cmd: Cmd) -> bool
    ensures { result ≡ has_room who seen cmd }
{
    if ends_order(who, cmd) {
        return seen.log < MAX_ROWS;
    }
    rows_of(cmd) <= free_rows(seen)
}

/// How many rows are free, beside those that are spoken for.
fn free_rows(seen: Seen) -> usize
    ensures { result ≡ free_rows seen }
{
    MAX_ROWS
        .saturating_sub(seen.log)
        .saturating_sub(seen.orders)
        .saturating_sub(seen.log.saturating_sub(seen.done))
}

/// How many rows a command takes.
fn rows_of(cmd: Cmd) -> usize
    ensures { result ≡ rows_of cmd }
{
    match cmd {
        Cmd::PayOut { .. } => 2,
        _ => 1,
    }
}

/// A client's share of the rows before the reserve, in a bank of so many members.
fn share_of(members: usize) -> usize
    ensures { result ≡ share_of members }
{
    (MAX_ROWS - RESERVE) / (members.min(usize::from(MOST_MEMBERS)) + 1)
}

/// A client's share of the reserve.
fn late_share(members: usize) -> usize
    ensures { result ≡ late_share members }
{
    LATE_ROWS / (members.min(usize::from(MOST_MEMBERS)) + 1)
}

/// Whether a request is within its sender's share of the rows before the reserve.
fn is_early(who: ActorId, members: usize, seen: Seen, number: u32) -> bool
    ensures { result ≡ is_early who members seen number }
{
    match who {
        ActorId::Client(client) => {
            seen.log < MAX_ROWS - RESERVE && (client == 0 || number as usize <= share_of(members))
        }
        _ => true,
    }
}

/// Whether a request is within its sender's share of the reserve.
fn is_late(who: ActorId, members: usize, late: u16, cmd: Cmd) -> bool
    ensures { result ≡ is_late who members late cmd }
{
    match who {
        ActorId::Client(client) => {
            (lets_out(cmd) || late == 0) && (client == 0 || usize::from(late) < late_share(members))
        }
        _ => false,
    }
}

/// Whether a client's command lets money out, or settles what waits.
fn lets_out(cmd: Cmd) -> bool
    ensures { result ≡ lets_out cmd }
{
    matches!(
        cmd,
        Cmd::Rescind { .. } | Cmd::Settle { .. } | Cmd::PayOut { .. }
    )
}

/// Whether a node's command ends an order.
fn ends_order(who: ActorId, cmd: Cmd) -> bool
    ensures { result ≡ ends_order who cmd }
{
    matches!(
        (who, cmd),
        (ActorId::Node(_), Cmd::Paid { .. } | Cmd::Returned { .. })
    )
}

/// Whether a log of so many rows is full but for its reserve, or will be soon.
pub fn is_full_at(log: usize) -> bool
    ensures { result ≡ is_full_at log }
{
    log >= MAX_ROWS - RESERVE - WARNED
}

/// Why a client of a bank with so many members, whose last request has this number, may not ask for
/// a command, where it knows that the log was full when it had made so many requests, or does not.
pub fn refusal_of(
    client: u16,
    full: Option<u32>,
    members: usize,
    number: u32,
    cmd: Cmd,
) -> Option<TerminalWhy>
    ensures { result ≡ refusal_of client full members number cmd }
{
    if full.is_some() && !lets_out(cmd) {
        Some(TerminalWhy::Full)
    } else if client != 0 && has_used_up(full, members, number, cmd) {
        Some(TerminalWhy::Share)
    } else {
        None
    }
}

/// Whether a client has used up its shares.
fn has_used_up(full: Option<u32>, members: usize, number: u32, cmd: Cmd) -> bool
    ensures { result ≡ has_used_up full members number cmd }
{
    let is_used = number as usize >= share_for(members, cmd);
    match full {
        None => is_used,
        Some(full) => is_used || late_share(members) < number.saturating_sub(full) as usize + 2,
    }
}

/// A client's share in what commands like this one may take.
fn share_for(members: usize, cmd: Cmd) -> usize
    ensures { result ≡ share_for members cmd }
{
    if lets_out(cmd) {
        share_of(members) + late_share(members)
    } else {
        share_of(members)
    }
}
