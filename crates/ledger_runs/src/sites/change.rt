//! Timer, STARTVIEWCHANGE, DOVIEWCHANGE, STARTVIEW, and what a site in change does at a beat.

use crate::sites::events::Ballot;
use crate::sites::events::Comes::{
    Beat, DoViewChange, Prepare, Response, StartView, StartViewChange, Timer,
};
use crate::sites::trial::Shows::{Change, ChangeKnows, Normal, NormalKnows};
use crate::sites::trial::Step::{Drops, HasNumber, Leads, Refuses, Takes};
use crate::sites::trial::{Sent, Step, run};
use fixtures::Said;
use std::test::Fail;
use vr_types::{SiteFault, Why};

const NONE: [u32; 3] = [0, 0, 0];

/// A vote with an empty log.
const EMPTY: Ballot = Ballot {
    last_normal: 0,
    done: 0,
    numbers: &[],
};

#[test]
fn timer_starts_the_next_view(rt: HostRuntime) -> Result<(), Fail> {
    const FIRST: &[Sent] = &[
        (200, Said::StartViewChange(1, NONE)),
        (202, Said::StartViewChange(1, NONE)),
    ];
    const SECOND: &[Sent] = &[
        (200, Said::StartViewChange(2, NONE)),
        (202, Said::StartViewChange(2, NONE)),
    ];
    const STEPS: &[Step] = &[
        Leads(Timer, FIRST, Change(1, 0, 0)),
        Leads(Beat, FIRST, Change(1, 0, 0)),
        Leads(Timer, SECOND, Change(2, 0, 0)),
    ];
    run(&rt, 1, STEPS)
}

#[test]
fn greatest_view_is_not_passed(rt: HostRuntime) -> Result<(), Fail> {
    const VIEW: u32 = u32::MAX;
    const TOLD: &[Sent] = &[
        (200, Said::StartViewChange(VIEW, NONE)),
        (202, Said::StartViewChange(VIEW, NONE)),
        (200, Said::DoViewChange(VIEW, 0, 0, 0, NONE)),
    ];
    const STEPS: &[Step] = &[
        Leads(
            StartViewChange(201, 202, VIEW, &NONE),
            TOLD,
            Change(VIEW, 0, 0),
        ),
        Refuses(Timer, SiteFault::ViewsSpent),
    ];
    run(&rt, 1, STEPS)
}

#[test]
fn backup_votes_once_and_says_it_again(rt: HostRuntime) -> Result<(), Fail> {
    const TOLD: &[Sent] = &[
        (201, Said::StartViewChange(1, NONE)),
        (202, Said::StartViewChange(1, NONE)),
        (201, Said::DoViewChange(1, 0, 0, 0, NONE)),
    ];
    const STEPS: &[Step] = &[
        Leads(StartViewChange(200, 201, 1, &NONE), TOLD, Change(1, 0, 0)),
        Leads(Beat, TOLD, Change(1, 0, 0)),
        Leads(StartViewChange(200, 201, 1, &NONE), &[], Change(1, 0, 0)),
        Leads(StartViewChange(200, 202, 1, &NONE), &[], Change(1, 0, 0)),
    ];
    run(&rt, 0, STEPS)
}

#[test]
fn what_a_sender_knew_is_learnt_and_told(rt: HostRuntime) -> Result<(), Fail> {
    const KNOWS: [u32; 3] = [0, 4, 2];
    const TOLD: &[Sent] = &[
        (201, Said::StartViewChange(1, KNOWS)),
        (202, Said::StartViewChange(1, KNOWS)),
        (201, Said::DoViewChange(1, 0, 0, 0, KNOWS)),
    ];
    const AGAIN: &[Sent] = &[
        (201, Said::StartViewChange(1, [0, 4, 5])),
        (202, Said::StartViewChange(1, [0, 4, 5])),
        (201, Said::DoViewChange(1, 0, 0, 0, [0, 4, 5])),
    ];
    const STEPS: &[Step] = &[
        Leads(
            StartViewChange(200, 201, 1, &KNOWS),
            TOLD,
            ChangeKnows(1, 0, 0, KNOWS),
        ),
        Drops(StartViewChange(200, 202, 1, &[0, 0, 1]), Why::Stale),
        Leads(
            StartViewChange(200, 202, 1, &[0, 3, 5]),
            &[],
            ChangeKnows(1, 0, 0, [0, 4, 5]),
        ),
        Leads(Beat, AGAIN, ChangeKnows(1, 0, 0, [0, 4, 5])),
    ];
    run(&rt, 0, STEPS)
}

#[test]
fn start_of_a_view_comes_too_late(rt: HostRuntime) -> Result<(), Fail> {
    const STEPS: &[Step] = &[
        Drops(StartViewChange(200, 201, 0, &NONE), Why::Status),
        Takes(Timer),
        Drops(StartViewChange(200, 201, 0, &NONE), Why::View),
    ];
    run(&rt, 0, STEPS)
}

#[test]
fn vector_has_an_entry_for_each_site(rt: HostRuntime) -> Result<(), Fail> {
    const STEPS: &[Step] = &[
        Refuses(
            StartViewChange(200, 201, 1, &[0, 0, 0, 0]),
            SiteFault::NotMine,
        ),
        Refuses(Response(200, 201, 0, 0, &[]), SiteFault::NotMine),
    ];
    run(&rt, 0, STEPS)
}

/// After its own timer a site takes what another says of the view, and that one's vote, in either
/// order: the first sends nothing, and the second opens the view.
#[test]
fn two_votes_open_a_view(rt: HostRuntime) -> Result<(), Fail> {
    const OPENS: &[Sent] = &[
        (200, Said::StartView(1, 0, 0)),
        (202, Said::StartView(1, 0, 0)),
    ];
    const VOTE_LAST: &[Step] = &[
        Takes(Timer),
        Leads(StartViewChange(201, 200, 1, &NONE), &[], Change(1, 0, 0)),
        Leads(
            DoViewChange(201, 200, 1, EMPTY, &NONE),
            OPENS,
            Normal(1, 0, 0),
        ),
        Drops(DoViewChange(201, 202, 1, EMPTY, &NONE), Why::Status),
        Drops(StartViewChange(201, 202, 1, &NONE), Why::Status),
    ];
    const VOTE_FIRST: &[Step] = &[
        Takes(Timer),
        Leads(
            DoViewChange(201, 200, 1, EMPTY, &NONE),
            &[],
            Change(1, 0, 0),
        ),
        Leads(StartViewChange(201, 200, 1, &NONE), OPENS, Normal(1, 0, 0)),
    ];
    run(&rt, 1, VOTE_LAST)?;
    run(&rt, 1, VOTE_FIRST)
}

#[test]
fn vote_that_comes_first_is_kept(rt: HostRuntime) -> Result<(), Fail> {
    const TOLD: &[Sent] = &[
        (200, Said::StartViewChange(1, NONE)),
        (202, Said::StartViewChange(1, NONE)),
    ];
    const OPENS: &[Sent] = &[
        (200, Said::StartView(1, 0, 0)),
        (202, Said::StartView(1, 0, 0)),
    ];
    const STEPS: &[Step] = &[
        Leads(
            DoViewChange(201, 200, 1, EMPTY, &NONE),
            TOLD,
            Change(1, 0, 0),
        ),
        Leads(
            DoViewChange(201, 200, 1, EMPTY, &NONE),
            &[],
            Change(1, 0, 0),
        ),
        Leads(StartViewChange(201, 202, 1, &NONE), OPENS, Normal(1, 0, 0)),
    ];
    run(&rt, 1, STEPS)
}

#[test]
fn log_of_the_later_view_is_taken(rt: HostRuntime) -> Result<(), Fail> {
    const VOTE: Ballot = Ballot {
        last_normal: 3,
        done: 1,
        numbers: &[9],
    };
    const OPENS: &[Sent] = &[
        (200, Said::StartView(4, 1, 1)),
        (202, Said::StartView(4, 1, 1)),
        (5, Said::Reply(4, 9, 10)),
    ];
    const STEPS: &[Step] = &[
        Takes(Prepare(201, 200, 0, 1, 0)),
        Takes(Prepare(201, 200, 0, 2, 0)),
        Takes(StartViewChange(201, 200, 4, &NONE)),
        Leads(
            DoViewChange(201, 200, 4, VOTE, &NONE),
            OPENS,
            Normal(4, 1, 1),
        ),
        HasNumber(1, Some(9)),
    ];
    run(&rt, 1, STEPS)
}

#[test]
fn vote_of_an_earlier_boot_is_given_up(rt: HostRuntime) -> Result<(), Fail> {
    const KNOWS: [u32; 3] = [1, 0, 0];
    const OPENS: &[Sent] = &[
        (200, Said::StartView(1, 0, 0)),
        (202, Said::StartView(1, 0, 0)),
    ];
    const STEPS: &[Step] = &[
        Takes(DoViewChange(201, 200, 1, EMPTY, &NONE)),
        Leads(
            StartViewChange(201, 202, 1, &KNOWS),
            &[],
            ChangeKnows(1, 0, 0, KNOWS),
        ),
        Drops(DoViewChange(201, 200, 1, EMPTY, &NONE), Why::Stale),
        Leads(
            DoViewChange(201, 202, 1, EMPTY, &KNOWS),
            OPENS,
            NormalKnows(1, 0, 0, KNOWS, 0),
        ),
    ];
    run(&rt, 1, STEPS)
}

#[test]
fn vote_is_for_the_primary_of_its_view(rt: HostRuntime) -> Result<(), Fail> {
    const STEPS: &[Step] = &[
        Drops(DoViewChange(202, 200, 1, EMPTY, &NONE), Why::NotPrimary),
        Takes(Timer),
        Drops(DoViewChange(202, 200, 0, EMPTY, &NONE), Why::View),
    ];
    run(&rt, 2, STEPS)
}

#[test]
fn log_of_a_new_view_is_taken(rt: HostRuntime) -> Result<(), Fail> {
    const TOLD: &[Sent] = &[(201, Said::PrepareOk(1, 2))];
    const STEPS: &[Step] = &[
        Takes(StartViewChange(202, 201, 1, &NONE)),
        Leads(StartView(202, 201, 1, 1, &[1, 2]), TOLD, Normal(1, 2, 1)),
        Drops(StartView(202, 201, 1, 1, &[1, 2]), Why::Known),
        Leads(StartView(202, 200, 3, 2, &[1, 2]), &[], Normal(3, 2, 2)),
        Drops(StartView(202, 201, 1, 1, &[1, 2]), Why::View),
        Drops(StartView(202, 200, 4, 1, &[1, 2]), Why::NotPrimary),
    ];
    run(&rt, 2, STEPS)
}

#[test]
fn log_without_the_executed_rows_is_not_taken(rt: HostRuntime) -> Result<(), Fail> {
    const STEPS: &[Step] = &[
        Takes(Prepare(202, 200, 0, 1, 1)),
        Drops(StartView(202, 201, 1, 1, &[8]), Why::Stale),
        Drops(StartView(202, 201, 1, 0, &[]), Why::Stale),
    ];
    run(&rt, 2, STEPS)
}
