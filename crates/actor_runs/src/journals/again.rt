//! Journals that were read, written again.

use pvp_book::Book;
use pvp_journal::{
    Entry, Head, Journal, Left, Summary, Taken, read_journal, write_head, write_record,
};
use pvp_parties::{PartyEvent, PartyOutcome};
use pvp_rooms::{CameOf, Recorded};
use std::alloc::Global;
use std::test::Fail;
use vr_types::{Commit, Envelope, EnvelopeOf, MsgOf, Sent, SentOf, Why};

/// A COMMIT of site 0 to site 1.
fn commit() -> Envelope<Book> {
    EnvelopeOf {
        from: 200,
        to: 201,
        msg: MsgOf::Commit(Commit { view: 0, done: 1 }),
    }
}

/// So many times that COMMIT.
pub fn commits(alloc: Global, count: usize) -> Result<Sent<Book>, Fail> {
    let mut sent = Vec::new(alloc);
    for _ in 0..count {
        sent.push(commit())?;
    }
    Ok(SentOf::new(sent))
}

/// How an event came out at an actor of its kind that sent so many COMMITs.
pub fn sent_at(
    alloc: Global,
    event: &PartyEvent,
    count: usize,
    dropped: Option<Why>,
) -> Result<PartyOutcome, Fail> {
    let sent = commits(alloc, count)?;
    Ok(match event {
        PartyEvent::OfSite(_) => PartyOutcome::OfSite(CameOf::Did { sent, dropped }),
        PartyEvent::OfNode(_) => PartyOutcome::OfNode(Ok(sent)),
        PartyEvent::OfClient(_) => PartyOutcome::OfClient(Ok(sent)),
    })
}

/// An outcome of an event that has this summary.
fn outcome_of(alloc: Global, event: &PartyEvent, summary: Summary) -> Result<PartyOutcome, Fail> {
    match summary {
        Summary::Whole(outcome) => Ok(outcome),
        Summary::Sent { count, dropped } => sent_at(alloc, event, usize::from(count), dropped),
    }
}

/// An event that was taken, of which this is the entry.
pub fn taken_of(alloc: Global, entry: Entry) -> Result<Taken, Fail> {
    let Recorded {
        event,
        stamp,
        clock,
        outcome: summary,
    } = entry;
    let outcome = outcome_of(alloc, &event, summary)?;
    Ok(Recorded {
        event,
        stamp,
        clock,
        outcome,
    })
}

/// Writes the record of an event of which this is the entry, and answers its checksum.
fn write_again(
    alloc: Global,
    me: u16,
    before: u64,
    entry: Entry,
    out: &mut Vec<u8>,
) -> Result<u64, Fail> {
    match write_record(alloc, me, before, &taken_of(alloc, entry)?, out) {
        Ok(sum) => Ok(sum),
        Err(_) => Err(Fail::new("it has no record")),
    }
}

/// Writes a journal of these entries, and answers the checksum that the next record goes on from.
fn write_all(
    alloc: Global,
    head: &Head,
    history: Vec<Entry>,
    out: &mut Vec<u8>,
) -> Result<u64, Fail> {
    let mut sum = write_head(alloc, head, out)?;
    for entry in history {
        sum = write_again(alloc, head.actor, sum, entry, out)?;
    }
    Ok(sum)
}

/// Whether a journal of these entries is written as these bytes, with this checksum.
fn is_written(
    alloc: Global,
    head: &Head,
    history: Vec<Entry>,
    bytes: &[u8],
    sum: u64,
) -> Result<bool, Fail> {
    let mut out = Vec::new(alloc);
    let last = write_all(alloc, head, history, &mut out)?;
    Ok(last == sum && out.as_slice() == bytes)
}

/// The journal of so many records in bytes with nothing left; `None` where there is no such.
pub fn whole_journal(alloc: Global, bytes: &[u8], count: usize) -> Option<Journal> {
    let journal = read_journal(alloc, bytes).ok()?;
    let is_whole = journal.history.len() == count && journal.left == Left::Nothing;
    is_whole.then_some(journal)
}

/// Whether bytes are a journal of so many records with nothing left, which is written as it is read.
pub fn comes_back(alloc: Global, bytes: &[u8], count: usize) -> Result<bool, Fail> {
    let Some(journal) = whole_journal(alloc, bytes, count) else {
        return Ok(false);
    };
    let Journal {
        head,
        history,
        sum,
        ..
    } = journal;
    is_written(alloc, &head, history, bytes, sum)
}

/// The head of a journal of so many records, and the checksum that the next one goes on from.
fn ends_of(alloc: Global, bytes: &[u8], count: usize) -> Option<(Head, u64)> {
    let journal = whole_journal(alloc, bytes, count)?;
    Some((journal.head, journal.sum))
}

/// Whether two journals have so many records, and what the one says is written as the other.
pub fn is_written_as(alloc: Global, old: &[u8], new: &[u8], count: usize) -> Result<bool, Fail> {
    let Some((head, sum)) = ends_of(alloc, new, count) else {
        return Ok(false);
    };
    let Some(journal) = whole_journal(alloc, old, count) else {
        return Ok(false);
    };
    let Journal { history, .. } = journal;
    is_written(alloc, &head, history, new, sum)
}
