//! The histories of a whole bank, judged.

use crate::logs::resumed::{Came, summary_of};
use fixtures::setup::three_currencies;
use headline::ClientEvent;
use pvp_audit::{History, Verdict, audit_histories};
use pvp_parties::PartyEvent;
use pvp_rooms::{AuditTest, Finding, Recorded};
use std::alloc::Global;
use std::process::Abort;
use std::test::Fail;
use vr_types::{ActorId, Boot, Why};

/// The actors of the bank: the operator and two members, three nodes, three sites.
const ACTORS: [ActorId; 9] = [
    ActorId::Client(0),
    ActorId::Client(1),
    ActorId::Client(2),
    ActorId::Node(0),
    ActorId::Node(1),
    ActorId::Node(2),
    ActorId::Site(0),
    ActorId::Site(1),
    ActorId::Site(2),
];

/// The empty history of an actor.
fn nothing_of(alloc: Global, actor: ActorId) -> History {
    History {
        actor: actor.number(),
        opening: match actor {
            ActorId::Site(_) => Some(Boot::new()),
            _ => None,
        },
        entries: Vec::new(alloc),
    }
}

/// The empty histories of these actors.
fn at_rest(alloc: Global, actors: &[ActorId]) -> Result<Vec<History>, Fail> {
    let mut histories = Vec::new(alloc);
    for actor in actors {
        histories.push(nothing_of(alloc, *actor))?;
    }
    Ok(histories)
}

/// How histories are judged: yes, or by which test not, or as no bank's.
pub(crate) fn judged(alloc: Global, histories: Vec<History>) -> Result<Option<Finding>, Fail> {
    let setup = three_currencies(alloc)?;
    Ok(match audit_histories(alloc, &setup, histories) {
        Ok(Verdict::Yes(_)) => Some(Finding::Yes),
        Ok(Verdict::No { actor, event, why }) => Some(Finding::No { actor, event, why }),
        Err(_) => None,
    })
}

/// How the empty histories of these actors are judged.
fn judged_at_rest(alloc: Global, actors: &[ActorId]) -> Result<Option<Finding>, Fail> {
    judged(alloc, at_rest(alloc, actors)?)
}

/// How a bank at rest is judged but for one event of its first member: a beat at this clock, which came out so.
fn judged_with_a_beat(alloc: Global, clock: u64, came: Came) -> Result<Option<Finding>, Fail> {
    let mut histories = at_rest(alloc, &ACTORS)?;
    if let Some(history) = histories.get_mut(1) {
        history.entries.push(Recorded {
            event: PartyEvent::OfClient(ClientEvent::Beats),
            stamp: None,
            clock,
            outcome: summary_of(alloc, came)?,
        })?;
    }
    judged(alloc, histories)
}

/// The empty histories of these actors are judged so, or as no bank's.
fn are_judged<R: Abort + AllocGlobal>(
    rt: &R,
    actors: &[ActorId],
    want: Option<Finding>,
) -> Result<(), Fail> {
    assert_eq!(rt; judged_at_rest(rt.alloc(), actors)?, want);
    Ok(())
}

#[test]
fn a_bank_that_did_nothing_is_one_run(rt: HostRuntime) -> Result<(), Fail> {
    are_judged(&rt, &ACTORS, Some(Finding::Yes))
}

#[test]
fn an_actor_is_missing(rt: HostRuntime) -> Result<(), Fail> {
    are_judged(&rt, &ACTORS[1..], None)
}

#[test]
fn a_stranger_is_no_actor_of_the_bank(rt: HostRuntime) -> Result<(), Fail> {
    are_judged(&rt, &[ActorId::Site(3)], None)?;
    are_judged(&rt, &[ActorId::Node(3)], None)?;
    are_judged(&rt, &[ActorId::Client(3)], None)
}

/// A bank at rest but for a beat of its first member is judged so.
fn is_judged<R: Abort + AllocGlobal>(
    rt: &R,
    clock: u64,
    came: Came,
    want: Finding,
) -> Result<(), Fail> {
    assert_eq!(rt; judged_with_a_beat(rt.alloc(), clock, came)?, Some(want));
    Ok(())
}

/// A bank at rest but for a beat of its first member is judged as no run, by this test.
fn is_no_run<R: Abort + AllocGlobal>(
    rt: &R,
    clock: u64,
    came: Came,
    why: AuditTest,
) -> Result<(), Fail> {
    let no = Finding::No {
        actor: 1,
        event: 1,
        why,
    };
    is_judged(rt, clock, came, no)
}

/// The first test that fails is reported, of a clock that does not rise and of what cannot come out
/// so.
#[test]
fn a_history_that_cannot_be_is_told(rt: HostRuntime) -> Result<(), Fail> {
    is_no_run(&rt, 0, Came::Stray, AuditTest::Clock)?;
    is_no_run(&rt, 1, Came::Stray, AuditTest::Answered)
}

/// A client that waits for nothing sends nothing at a beat, and drops none.
#[test]
fn a_summary_is_judged(rt: HostRuntime) -> Result<(), Fail> {
    is_judged(&rt, 1, Came::Sent(0, None), Finding::Yes)?;
    is_no_run(&rt, 1, Came::Sent(1, None), AuditTest::Answered)?;
    is_no_run(&rt, 1, Came::Sent(0, Some(Why::Known)), AuditTest::Answered)
}
