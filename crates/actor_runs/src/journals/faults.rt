//! Bytes that are no journal, and events that have no record.

use crate::journals::kinds::TIMER;
use crate::journals::sealed::{
    Answer, HEAD, OLD_HEAD, journal_behind, reads_as, seal, sum_of, told,
};
use pvp_journal::{JournalWhy, Left, Taken, WriteFault, write_record};
use pvp_parties::{PartyEvent, PartyOutcome};
use pvp_wire::{Stamp, WireFault};
use std::alloc::Global;
use std::process::Abort;
use std::test::Fail;
use vr_types::EventOf;

/// Bytes that begin with no head, and the fault of each.
const NO_HEADS: &[(&[u8], JournalWhy)] = &[
    (&[], JournalWhy::Magic),
    (b"PVPK", JournalWhy::Magic),
    (b"PVPJ", JournalWhy::Version),
    (&[80, 86, 80, 74, 0, 0], JournalWhy::Version),
    (&[80, 86, 80, 74, 3, 0], JournalWhy::Version),
    (&[80, 86, 80, 74, 1, 0], JournalWhy::Head),
    (&[80, 86, 80, 74, 2, 0], JournalWhy::Head),
    (
        &[80, 86, 80, 74, 1, 0, 200, 2, 0, 0, 0, 0],
        JournalWhy::Head,
    ),
    (
        &[80, 86, 80, 74, 2, 0, 200, 2, 0, 0, 0, 0],
        JournalWhy::Head,
    ),
];

/// What a record says that says nothing, and what is wrong in it.
const NO_ENTRIES: &[(&[u8], WireFault)] = &[
    // no clock
    (&[0, 0, 0, 0, 0, 0, 5], WireFault::Length),
    // no outcome
    (&[0, 0, 0, 0, 0, 0, 0, 5, 3], WireFault::Length),
    // a byte behind the outcome
    (&[0, 0, 0, 0, 0, 0, 0, 5, 3, 8, 0], WireFault::Length),
    // a summary without a count
    (&[0, 0, 0, 0, 0, 0, 0, 5, 3, 9], WireFault::Length),
    // one that does not say why the event was dropped
    (&[0, 0, 0, 0, 0, 0, 0, 5, 3, 9, 2], WireFault::Length),
    // a byte behind it
    (&[0, 0, 0, 0, 0, 0, 0, 5, 3, 9, 2, 0, 0], WireFault::Length),
    // a delivery without a frame
    (&[0, 0, 0, 0, 0, 0, 0, 5, 1, 0, 0, 0], WireFault::Short),
    // one of another version
    (
        &[
            0, 0, 0, 0, 0, 0, 0, 5, 1, 0, 0, 0, 24, 3, 4, 0, 200, 0, 0, 0, 0, 0, 0, 0, 5, 0, 0, 0,
            0, 0, 201, 0, 0, 0, 0, 0, 1, 8,
        ],
        WireFault::Version,
    ),
    // what was sent has the stamp of another clock
    (
        &[
            0, 0, 0, 0, 0, 0, 0, 6, 3, 4, 0, 0, 0, 1, 0, 0, 0, 24, 2, 4, 0, 200, 0, 0, 0, 0, 0, 0,
            0, 5, 0, 0, 0, 0, 0, 201, 0, 0, 0, 0, 0, 1,
        ],
        WireFault::Field,
    ),
    // a command as a request of number 1
    (
        &[
            0, 0, 0, 0, 0, 0, 0, 5, 12, 0, 0, 0, 27, 2, 1, 0, 200, 0, 0, 0, 0, 0, 0, 0, 5, 0, 0, 0,
            0, 0, 200, 0, 0, 0, 1, 4, 0, 0, 0, 8, 8,
        ],
        WireFault::Field,
    ),
    // a command as a request to site 1
    (
        &[
            0, 0, 0, 0, 0, 0, 0, 5, 12, 0, 0, 0, 27, 2, 1, 0, 200, 0, 0, 0, 0, 0, 0, 0, 5, 0, 0, 0,
            0, 0, 201, 0, 0, 0, 0, 4, 0, 0, 0, 8, 8,
        ],
        WireFault::Field,
    ),
];

/// Bytes that begin with no head have this fault.
fn is_no_head<R: Abort + AllocGlobal>(rt: &R, bytes: &[u8], why: JournalWhy) {
    assert_eq!(rt; told(rt.alloc(), bytes), Answer::Fault(why, 0), "{bytes:?}");
}

#[test]
fn tells_each_fault_of_a_head(rt: HostRuntime) -> Result<(), Fail> {
    for (bytes, why) in NO_HEADS {
        is_no_head(&rt, *bytes, *why);
    }
    Ok(())
}

/// A second record with these bytes has this fault behind this head.
fn is_no_entry<R: Abort + AllocGlobal>(
    rt: &R,
    head: &[u8],
    body: &[u8],
    why: WireFault,
) -> Result<(), Fail> {
    let bytes = journal_behind(rt.alloc(), head, &[&TIMER, body])?;
    let want = Answer::Fault(JournalWhy::Record(why), 72);
    assert_eq!(rt; told(rt.alloc(), bytes.as_slice()), want, "{body:?}");
    Ok(())
}

#[test]
fn tells_each_fault_of_a_record(rt: HostRuntime) -> Result<(), Fail> {
    for (body, why) in NO_ENTRIES {
        is_no_entry(&rt, &HEAD, *body, *why)?;
        is_no_entry(&rt, &OLD_HEAD, *body, *why)?;
    }
    Ok(())
}

/// Behind this head a record is read; another that goes on from another checksum is damaged.
fn are_damaged<R: Abort + AllocGlobal>(rt: &R, bytes: &mut Vec<u8>) -> Result<(), Fail> {
    let sum = seal(rt.alloc(), sum_of(0, &HEAD), &TIMER, bytes)?;
    reads_as(rt, bytes.as_slice(), Answer::Read(1, Left::Nothing));
    seal(rt.alloc(), sum ^ 1, &TIMER, bytes)?;
    reads_as(
        rt,
        bytes.as_slice(),
        Answer::Fault(JournalWhy::Checksum, 72),
    );
    Ok(())
}

/// Two records, of which the second goes on from another checksum than the first one's.
#[test]
fn records_of_two_journals_are_damaged(rt: HostRuntime) -> Result<(), Fail> {
    let mut bytes = Vec::from_slice(rt.alloc(), &HEAD)?;
    are_damaged(&rt, &mut bytes)
}

/// An event of a site with this stamp, which is a stray.
fn stray(event: PartyEvent, stamp: Option<Stamp>) -> Taken {
    Taken {
        event,
        stamp,
        clock: 5,
        outcome: PartyOutcome::Stray,
    }
}

/// What writing its record returns, and how many bytes there are then.
fn tells(alloc: Global, taken: &Taken) -> (Option<WriteFault>, usize) {
    let mut bytes = Vec::new(alloc);
    let fault = write_record(alloc, 200, 0, taken, &mut bytes).err();
    (fault, bytes.len())
}

/// Writing the record of a timer with this stamp returns this, and then there are so many bytes.
fn is_written<R: Abort + AllocGlobal>(
    rt: &R,
    stamp: Option<Stamp>,
    want: (Option<WriteFault>, usize),
) {
    let taken = stray(PartyEvent::OfSite(EventOf::Timer), stamp);
    assert_eq!(rt; tells(rt.alloc(), &taken), want);
}

#[test]
fn only_a_delivery_has_a_stamp(rt: HostRuntime) -> Result<(), Fail> {
    let stamp = Stamp {
        actor: 200,
        clock: 4,
        index: 0,
    };
    is_written(&rt, Some(stamp), (Some(WriteFault::Unfit), 0));
    is_written(&rt, None, (None, 26));
    Ok(())
}
