//! Reading a journal.
ghost use Rattle.std.specs.Prelude.{◌≡◌, ◌-◌, length, if◌then◌else◌};
ghost use Rattle.pvp_journal.specs.declared.journal.Left.TheVariants.{Nothing, Torn};
ghost use Rattle.pvp_journal.specs.Reading.{Tells, entry_at, body_at};
ghost use Rattle.pvp_journal.specs.Journals.{ReadsJournal, ReadsRecords, KeepsEntry};

use crate::events::event_at;
use crate::fault::{JournalFault, JournalWhy};
use crate::front::{Front, front_at};
use crate::head::{Head, head_at};
use crate::outcomes::summary_at;
use crate::summary::Summary;
use crate::sums::checksum;
use pvp_parties::PartyEvent;
use pvp_rooms::Recorded;
use pvp_wire::{WireFault, u64_at};
use std::alloc::Global;

/// What a journal keeps of an event: the event, the stamp of what was delivered, the clock, and a summary of how it came
/// out.
pub type Entry = Recorded<PartyEvent, Summary>;

/// What is left of a journal's bytes behind its last whole record.
#[derive(Clone, Copy, Debug, PartialEq, Eq)]
pub enum Left {
    Nothing,
    /// A record that was cut off as it was written. It begins at this byte.
    Torn(usize),
}

/// A journal that was read.
#[derive(Drop)]
pub struct Journal {
    pub head: Head,
    pub history: Vec<Entry>,
    pub left: Left,
    /// The checksum of the last whole record, or of the head where there is none. The next record goes on from it.
    pub sum: u64,
}

/// The records behind a head, up to where a reader stopped.
#[derive(Drop)]
struct Records<'a> {
    history: Vec<Entry>,
    sum: u64,
    rest: &'a [u8],
    torn: bool,
}

/// Why a reader stopped, and how many bytes were then left.
#[derive(Clone, Copy)]
struct Stop {
    why: JournalWhy,
    left: usize,
}

/// Reads a journal: its head, and its records up to the end of the bytes, or to a record that their end cuts off.
///
/// Of several faults the first is returned, with the byte at which the head or the record begins
/// that is at fault. So what stands behind a damaged record is never taken for a torn end. Memory
/// is taken for whole records alone, so M7 comes only where one stands.
pub fn read_journal(alloc: Global, bytes: &[u8]) -> Result<Journal, JournalFault>
    ensures { ReadsJournal bytes.now result }
{
    let (head, rest) = match head_at(bytes) {
        Ok(found) => found,
        Err(why) => return Err(JournalFault { why, at: 0 }),
    };
    let before = checksum(0, &bytes[..bytes.len().saturating_sub(rest.len())]);
    match read_records(alloc, head.actor, before, rest) {
        Ok(records) => Ok(journal_of(head, records, bytes.len())),
        Err(stop) => Err(JournalFault {
            why: stop.why,
            at: bytes.len().saturating_sub(stop.left),
        }),
    }
}

/// The journal of a head and its records, which so many bytes have.
fn journal_of(head: Head, records: Records<'_>, all: usize) -> Journal
    ensures head { result.head ≡ head }
    ensures history { result.history.items ≡ records.entry.history.items }
    ensures sum { result.sum ≡ records.entry.sum }
    ensures left { result.left ≡
        (if records.entry.torn then Torn (all - length records.entry.rest.now) else Nothing) }
{
    let left = if records.torn {
        Left::Torn(all.saturating_sub(records.rest.len()))
    } else {
        Left::Nothing
    };
    Journal {
        head,
        history: records.history,
        left,
        sum: records.sum,
    }
}

/// Reads the records behind a head, or behind a record, with this checksum.
fn read_records(alloc: Global, me: u16, before: u64, bytes: &[u8]) -> Result<Records<'_>, Stop>
    ensures { ReadsRecords me (record { sum = before; bytes = bytes.now }) result }
{
    let mut history = Vec::new(alloc);
    let mut sum = before;
    let mut rest = bytes;
    loop {
        let piece = match front_at(sum, rest) {
            Ok(Front::Whole(piece)) => piece,
            Ok(Front::Torn) => return Ok(Records {
                history,
                sum,
                rest,
                torn: true,
            }),
            Ok(Front::Empty) => return Ok(Records {
                history,
                sum,
                rest,
                torn: false,
            }),
            Err(why) => return Err(Stop {
                why,
                left: rest.len(),
            }),
        };
        if let Err(why) = keep_entry(alloc, me, piece.body, &mut history) {
            return Err(Stop {
                why,
                left: rest.len(),
            });
        }
        sum = piece.sum;
        rest = piece.after;
    }
}

/// Keeps what a whole record says.
fn keep_entry(
    alloc: Global,
    me: u16,
    body: &[u8],
    history: &mut Vec<Entry>,
) -> Result<(), JournalWhy>
    ensures { KeepsEntry me body.now history.old.items result history.new.items }
{
    match body_at(alloc, me, body) {
        Err(WireFault::NoMemory) => Err(JournalWhy::NoMemory),
        Err(fault) => Err(JournalWhy::Record(fault)),
        Ok(entry) => match history.push(entry) {
            Ok(()) => Ok(()),
            Err(_) => Err(JournalWhy::NoMemory),
        },
    }
}

/// What a record says, all of these bytes.
#[tactic(auto, unfolding(crate::specs::Reading::body_at))]
fn body_at(alloc: Global, me: u16, bytes: &[u8]) -> Result<Entry, WireFault>
    ensures { Tells (λ x. x) result (body_at me bytes.now) }
{
    let (entry, rest) = entry_at(alloc, me, bytes)?;
    if !rest.is_empty() {
        return Err(WireFault::Length);
    }
    Ok(entry)
}

/// The clock, the event and the summary in front.
#[tactic(auto, unfolding(crate::specs::Reading::entry_at))]
fn entry_at(alloc: Global, me: u16, bytes: &[u8]) -> Result<(Entry, &[u8]), WireFault>
    ensures { Tells (λ x. (x.0, x.1.now)) result (entry_at me bytes.now) }
{
    let (clock, rest) = u64_at(bytes)?;
    let ((event, stamp), rest) = event_at(alloc, me, clock, rest)?;
    let (outcome, rest) = summary_at(alloc, me, clock, rest)?;
    let entry = Recorded {
        event,
        stamp,
        clock,
        outcome,
    };
    Ok((entry, rest))
}
