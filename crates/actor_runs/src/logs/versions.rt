//! A bank that is judged by its journals, the first of which are of version 1 and the others of version 2.

use crate::journals::whole::old_journal;
use crate::logs::histories::judged;
use crate::logs::resumed::{Came, alter_at};
use crate::parties::bank::answered;
use crate::parties::common::bank_around;
use pvp_audit::History;
use pvp_journal::{Head, Journal, Left, Taken, Version, read_journal, write_journal};
use pvp_parties::Party;
use pvp_rooms::{AuditTest, Closed, Finding};
use std::alloc::Global;
use std::process::Abort;
use std::sync::Wait;
use std::test::Fail;
use vr_types::{MemCell, Why};

/// The journal of this head, of version 2.
fn new_journal(alloc: Global, head: &Head, history: &[Taken]) -> Result<Vec<u8>, Fail> {
    let mut out = Vec::new(alloc);
    match write_journal(alloc, head, history, &mut out) {
        Ok(()) => Ok(out),
        Err(_) => Err(Fail::new("it has no text")),
    }
}

/// The journal of what an actor left, in this version.
fn journal_of(alloc: Global, version: Version, left: &Closed<Party>) -> Result<Vec<u8>, Fail> {
    let head = Head {
        version,
        actor: left.number,
        opening: left.opening,
        bank: [7; 32],
    };
    match version {
        Version::One => old_journal(alloc, &head, left.history.as_slice()),
        Version::Two => new_journal(alloc, &head, left.history.as_slice()),
    }
}

/// The history that the journal in these bytes has.
fn history_in(alloc: Global, bytes: &[u8]) -> Result<History, Fail> {
    match read_journal(alloc, bytes) {
        Ok(
            Journal {
                head,
                history,
                left: Left::Nothing,
                ..
            },
        ) => Ok(History {
            actor: head.actor,
            opening: head.opening,
            entries: history,
        }),
        _ => Err(Fail::new("damaged")),
    }
}

/// The history of what an actor left, read from its journal in this version.
fn history_of(alloc: Global, version: Version, left: &Closed<Party>) -> Result<History, Fail> {
    let bytes = journal_of(alloc, version, left)?;
    history_in(alloc, bytes.as_slice())
}

/// The histories of a bank, the journals of whose first so many actors are of version 1.
fn histories_of(alloc: Global, left: &[Closed<Party>], old: usize) -> Result<Vec<History>, Fail> {
    let mut all = Vec::new(alloc);
    for one in left {
        let version = if all.len() < old {
            Version::One
        } else {
            Version::Two
        };
        all.push(history_of(alloc, version, one)?)?;
    }
    Ok(all)
}

/// Has the first event of the first site come out so, where anything is altered. It took the operator's request, and sent a
/// row of it to both others.
fn alter(alloc: Global, histories: &mut [History], other: Option<Came>) -> Result<(), Fail> {
    let (Some(came), Some(history)) = (other, histories.get_mut(6)) else {
        return Ok(());
    };
    alter_at(alloc, history.entries.as_mut_slice(), 0, came)
}

/// How a bank is judged that left this, the journals of whose first so many actors are of version 1, once that event came
/// out so.
fn judged_as(
    alloc: Global,
    left: &[Closed<Party>],
    old: usize,
    other: Option<Came>,
) -> Result<Option<Finding>, Fail> {
    let mut histories = histories_of(alloc, left, old)?;
    alter(alloc, histories.as_mut_slice(), other)?;
    judged(alloc, histories)
}

/// A bank whose operator was answered is judged so.
fn is_judged<R: Abort + Wait + AllocGlobal>(
    rt: &R,
    old: usize,
    other: Option<Came>,
    want: Finding,
) -> Result<(), Fail> {
    let left = bank_around(rt.alloc(), answered::<_, MemCell>(rt))?;
    let found = judged_as(rt.alloc(), left.as_slice(), old, other)?;
    assert_eq!(rt; found, Some(want), "{old} are old");
    Ok(())
}

/// None, some or all of the nine journals are of version 1.
#[test]
fn journals_of_both_versions_are_one_run(rt: HostRuntime) -> Result<(), Fail> {
    for old in 0..=9 {
        is_judged(&rt, old, None, Finding::Yes)?;
    }
    Ok(())
}

/// The first event of the first site cannot have come so, in journals of either version.
fn cannot_have_come<R: Abort + Wait + AllocGlobal>(rt: &R, came: Came) -> Result<(), Fail> {
    let told = Finding::No {
        actor: 200,
        event: 1,
        why: AuditTest::Answered,
    };
    is_judged(rt, 9, Some(came), told)?;
    is_judged(rt, 0, Some(came), told)
}

/// A record of version 1 says what was sent: two COMMITs are not the two that were.
#[test]
fn another_envelope_is_told(rt: HostRuntime) -> Result<(), Fail> {
    cannot_have_come(&rt, Came::Commits(2))?;
    cannot_have_come(&rt, Came::Commits(0))
}

#[test]
fn another_summary_is_told(rt: HostRuntime) -> Result<(), Fail> {
    for count in [0, 1, 3, 255] {
        cannot_have_come(&rt, Came::Sent(count, None))?;
    }
    cannot_have_come(&rt, Came::Sent(2, Some(Why::Known)))
}

/// The summary of what came is that of the run.
#[test]
fn the_right_summary_is_that_of_the_run(rt: HostRuntime) -> Result<(), Fail> {
    let came = Some(Came::Sent(2, None));
    is_judged(&rt, 9, came, Finding::Yes)?;
    is_judged(&rt, 0, came, Finding::Yes)
}
