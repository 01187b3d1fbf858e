//! Records of version 1, which have all that was sent: they are read, and written again with summaries.

use crate::journals::again::{is_written_as, taken_of, whole_journal};
use crate::journals::kinds::{
    CLIENT_BEAT, CRASH, KINDS, NODE_BEAT, RESTART, SUBMITTED, TIMER, summed,
};
use crate::journals::sealed::{Answer, OLD_HEAD, journal_behind, journal_of, reads_as, told};
use crate::journals::whole::old_body;
use pvp_journal::{Entry, Journal, JournalWhy, Left, Summary};
use pvp_wire::WireFault;
use std::alloc::Global;
use std::process::Abort;
use std::test::Fail;

/// A site at clock 5: a COMMIT comes from it to site 1, whose stamp is its own; it sends the same.
const DELIVERED: [u8; 71] = [
    0, 0, 0, 0, 0, 0, 0, 5, 1, 0, 0, 0, 24, 2, 4, 0, 200, 0, 0, 0, 0, 0, 0, 0, 5, 0, 0, 0, 0, 0,
    201, 0, 0, 0, 0, 0, 1, 1, 0, 0, 0, 1, 0, 0, 0, 24, 2, 4, 0, 200, 0, 0, 0, 0, 0, 0, 0, 5, 0, 0,
    0, 0, 0, 201, 0, 0, 0, 0, 0, 1, 0,
];

/// At clock 6 a timer fires; nothing is sent, as its status does not take part.
const OLD_TIMER: [u8; 15] = [0, 0, 0, 0, 0, 0, 0, 6, 2, 1, 0, 0, 0, 0, 1];

/// A beat; nothing is sent, and nothing was dropped.
const BEAT: [u8; 15] = [0, 0, 0, 0, 0, 0, 0, 7, 3, 1, 0, 0, 0, 0, 0];

/// A node's order comes, 1 of USD: 200 for member 1. It sends two frames, with its own stamp of clock 5.
const ORDERED: [u8; 107] = [
    0, 0, 0, 0, 0, 0, 0, 5, 6, 0, 0, 0, 33, 2, 13, 0, 200, 0, 0, 0, 0, 0, 0, 0, 7, 0, 0, 0, 2, 0,
    102, 1, 0, 0, 0, 1, 0, 1, 0, 0, 0, 0, 0, 0, 0, 200, 4, 0, 0, 0, 2, 0, 0, 0, 24, 2, 4, 0, 200,
    0, 0, 0, 0, 0, 0, 0, 5, 0, 0, 0, 0, 0, 201, 0, 0, 0, 0, 0, 1, 0, 0, 0, 24, 2, 4, 0, 200, 0, 0,
    0, 0, 0, 0, 0, 5, 0, 0, 0, 1, 0, 201, 0, 0, 0, 0, 0, 1,
];

/// A pay-in of 1200 for member 1, at which nothing is sent.
const PAY_IN: [u8; 24] = [
    0, 0, 0, 0, 0, 0, 0, 5, 8, 0, 1, 0, 0, 0, 0, 0, 0, 4, 176, 4, 0, 0, 0, 0,
];

/// Member 2's account is closed, at which nothing is sent.
const CLOSING: [u8; 16] = [0, 0, 0, 0, 0, 0, 0, 5, 9, 0, 2, 4, 0, 0, 0, 0];

/// A client's answer comes, to request 3 of member 1; nothing is sent.
const ANSWERED: [u8; 46] = [
    0, 0, 0, 0, 0, 0, 0, 5, 10, 0, 0, 0, 28, 2, 12, 0, 200, 0, 0, 0, 0, 0, 0, 0, 7, 0, 0, 0, 0, 0,
    1, 0, 0, 0, 0, 0, 0, 0, 3, 5, 11, 6, 0, 0, 0, 0,
];

/// The kinds as version 1 has them, in the same order; those at which nothing was done are the same in both.
const OLD_KINDS: [&[u8]; 12] = [
    &DELIVERED,
    &OLD_TIMER,
    &BEAT,
    &CRASH,
    &RESTART,
    &ORDERED,
    &NODE_BEAT,
    &PAY_IN,
    &CLOSING,
    &ANSWERED,
    &CLIENT_BEAT,
    &SUBMITTED,
];

/// An entry is of an event of which a record of version 1 says these bytes.
fn says<R: Abort + AllocGlobal>(rt: &R, entry: Entry, want: &[u8]) -> Result<(), Fail> {
    let taken = taken_of(rt.alloc(), entry)?;
    let body = old_body(rt.alloc(), 200, &taken)?;
    assert!(rt; body.as_slice() == want, "{want:?}");
    Ok(())
}

/// The entry of a journal that has one record.
fn entry_in(alloc: Global, bytes: &[u8]) -> Result<Entry, Fail> {
    let Some(journal) = whole_journal(alloc, bytes, 1) else {
        return Err(Fail::new("it is not whole"));
    };
    let Journal { mut history, .. } = journal;
    match history.pop() {
        Some(entry) => Ok(entry),
        None => Err(Fail::new("an entry")),
    }
}

/// An entry says all of how its event came out, and a record of version 1 says these bytes of that.
fn says_all<R: Abort + AllocGlobal>(rt: &R, entry: Entry, want: &[u8]) -> Result<(), Fail> {
    assert!(rt; matches!(&entry.outcome, Summary::Whole(_)), "{want:?}");
    says(rt, entry, want)
}

/// All that a record of version 1 says is read, each frame of what was sent too.
fn is_read<R: Abort + AllocGlobal>(rt: &R, body: &[u8]) -> Result<(), Fail> {
    let bytes = journal_behind(rt.alloc(), &OLD_HEAD, &[body])?;
    says_all(rt, entry_in(rt.alloc(), bytes.as_slice())?, body)
}

#[test]
fn each_old_kind_is_read(rt: HostRuntime) -> Result<(), Fail> {
    for body in OLD_KINDS {
        is_read(&rt, body)?;
    }
    Ok(())
}

/// What these records of version 1 say is written again as these.
fn are_summed_up<R: Abort + AllocGlobal>(rt: &R, old: &[&[u8]], new: &[&[u8]]) -> Result<(), Fail> {
    let read = journal_behind(rt.alloc(), &OLD_HEAD, old)?;
    let wanted = journal_of(rt.alloc(), new)?;
    let (read, wanted) = (read.as_slice(), wanted.as_slice());
    assert!(rt;
        is_written_as(rt.alloc(), read, wanted, new.len())?,
        "{old:?}"
    );
    Ok(())
}

#[test]
fn each_old_kind_is_summed_up(rt: HostRuntime) -> Result<(), Fail> {
    are_summed_up(&rt, &OLD_KINDS, &KINDS)
}

/// A beat at clock 5 at which nothing was sent, and the number of why it was dropped.
fn dropped(why: u8) -> [u8; 15] {
    [0, 0, 0, 0, 0, 0, 0, 5, 3, 1, 0, 0, 0, 0, why]
}

/// A record of version 1 that says these bytes has a field with a value that it may not have.
fn is_unknown<R: Abort + AllocGlobal>(rt: &R, body: &[u8]) -> Result<(), Fail> {
    let bytes = journal_behind(rt.alloc(), &OLD_HEAD, &[body])?;
    let want = Answer::Fault(JournalWhy::Record(WireFault::Field), 44);
    assert_eq!(rt; told(rt.alloc(), bytes.as_slice()), want, "{body:?}");
    Ok(())
}

#[test]
fn each_old_number_of_why_is_read(rt: HostRuntime) -> Result<(), Fail> {
    for why in 0..7 {
        are_summed_up(&rt, &[&dropped(why)], &[&summed(0, why)])?;
    }
    is_unknown(&rt, &dropped(7))?;
    is_unknown(&rt, &dropped(8))
}

/// A journal of version 1 goes on with records of version 2.
#[test]
fn an_old_journal_has_records_of_both(rt: HostRuntime) -> Result<(), Fail> {
    let bytes = journal_behind(rt.alloc(), &OLD_HEAD, &[&OLD_TIMER, &TIMER, &DELIVERED])?;
    reads_as(&rt, bytes.as_slice(), Answer::Read(3, Left::Nothing));
    Ok(())
}

/// A journal of version 1 that has one record is torn where it ends within that.
fn is_torn_within<R: Abort + AllocGlobal>(rt: &R, bytes: &[u8]) {
    for size in OLD_HEAD.len() + 1..bytes.len() {
        reads_as(rt, &bytes[..size], Answer::Read(0, Left::Torn(44)));
    }
}

#[test]
fn an_old_record_is_cut_at_each_byte(rt: HostRuntime) -> Result<(), Fail> {
    let bytes = journal_behind(rt.alloc(), &OLD_HEAD, &[&DELIVERED])?;
    is_torn_within(&rt, bytes.as_slice());
    Ok(())
}
