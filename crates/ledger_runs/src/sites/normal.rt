//! REQUEST, PREPARE, PREPAREOK, COMMIT, and what a normal site does at a beat.

use crate::sites::events::Comes::{
    Beat, Commit, PayOrder, Prepare, PrepareOk, Reply, Request, StartViewChange, Timer, Total,
};
use crate::sites::trial::Shows::{Change, Normal};
use crate::sites::trial::Step::{Drops, HasNumber, Leads, Refuses, Takes};
use crate::sites::trial::{Sent, Step, run};
use fixtures::Said;
use std::test::Fail;
use vr_types::{SiteFault, Why};

#[test]
fn request_is_prepared_executed_and_answered(rt: HostRuntime) -> Result<(), Fail> {
    const PREPARES: &[Sent] = &[
        (201, Said::Prepare(0, 1, 0, 1)),
        (202, Said::Prepare(0, 1, 0, 1)),
    ];
    const REPLY: &[Sent] = &[(5, Said::Reply(0, 1, 10))];
    const STEPS: &[Step] = &[
        Leads(Request(200, 1), PREPARES, Normal(0, 1, 0)),
        Leads(PrepareOk(200, 201, 0, 1), REPLY, Normal(0, 1, 1)),
        Leads(PrepareOk(200, 202, 0, 1), &[], Normal(0, 1, 1)),
        Leads(Request(200, 1), REPLY, Normal(0, 1, 1)),
        HasNumber(0, None),
        HasNumber(1, Some(1)),
        HasNumber(2, None),
    ];
    run(&rt, 0, STEPS)
}

#[test]
fn request_that_is_known_is_dropped(rt: HostRuntime) -> Result<(), Fail> {
    const PREPARES: &[Sent] = &[
        (201, Said::Prepare(0, 2, 0, 2)),
        (202, Said::Prepare(0, 2, 0, 2)),
    ];
    const STEPS: &[Step] = &[
        Takes(Request(200, 1)),
        Drops(Request(200, 1), Why::Known),
        Drops(Request(200, 0), Why::Known),
        Leads(Total(200, 2), PREPARES, Normal(0, 2, 0)),
        Drops(Request(200, 1), Why::Known),
    ];
    run(&rt, 0, STEPS)
}

#[test]
fn request_is_for_the_normal_primary_alone(rt: HostRuntime) -> Result<(), Fail> {
    const STEPS: &[Step] = &[
        Drops(Request(201, 1), Why::NotPrimary),
        Takes(Timer),
        Drops(Request(201, 1), Why::Status),
    ];
    run(&rt, 1, STEPS)
}

#[test]
fn acknowledgement_counts_no_further_than_the_log(rt: HostRuntime) -> Result<(), Fail> {
    const REPLY: &[Sent] = &[(5, Said::Reply(0, 1, 10))];
    const PREPARES: &[Sent] = &[
        (201, Said::Prepare(0, 2, 1, 2)),
        (202, Said::Prepare(0, 2, 1, 2)),
    ];
    const STEPS: &[Step] = &[
        Takes(Request(200, 1)),
        Leads(PrepareOk(200, 201, 0, 9), REPLY, Normal(0, 1, 1)),
        Leads(Request(200, 2), PREPARES, Normal(0, 2, 1)),
        Leads(PrepareOk(200, 202, 0, 1), &[], Normal(0, 2, 1)),
    ];
    run(&rt, 0, STEPS)
}

#[test]
fn acknowledgement_is_for_the_primary_of_its_view(rt: HostRuntime) -> Result<(), Fail> {
    const PRIMARY: &[Step] = &[
        Takes(Request(200, 1)),
        Drops(PrepareOk(200, 201, 1, 1), Why::View),
    ];
    run(&rt, 0, PRIMARY)?;
    const BACKUP: &[Step] = &[
        Drops(PrepareOk(201, 202, 0, 1), Why::NotPrimary),
        Takes(Timer),
        Drops(PrepareOk(201, 202, 1, 1), Why::Status),
    ];
    run(&rt, 1, BACKUP)
}

#[test]
fn backup_takes_rows_and_executes_what_is_committed(rt: HostRuntime) -> Result<(), Fail> {
    const FIRST: &[Sent] = &[(200, Said::PrepareOk(0, 1))];
    const SECOND: &[Sent] = &[(200, Said::PrepareOk(0, 2))];
    const STEPS: &[Step] = &[
        Leads(Prepare(201, 200, 0, 1, 0), FIRST, Normal(0, 1, 0)),
        Leads(Prepare(201, 200, 0, 1, 0), FIRST, Normal(0, 1, 0)),
        Leads(Prepare(201, 200, 0, 2, 1), SECOND, Normal(0, 2, 1)),
        Leads(Commit(201, 200, 0, 2), &[], Normal(0, 2, 2)),
        Leads(Commit(201, 200, 0, 1), &[], Normal(0, 2, 2)),
        Leads(Beat, &[], Normal(0, 2, 2)),
    ];
    run(&rt, 1, STEPS)
}

#[test]
fn backup_asks_for_what_it_lacks(rt: HostRuntime) -> Result<(), Fail> {
    const LACKS: &[Sent] = &[(200, Said::GetState(0, 0))];
    const MORE: &[Sent] = &[(200, Said::GetState(0, 1))];
    const STEPS: &[Step] = &[
        Leads(Prepare(201, 200, 0, 3, 0), LACKS, Normal(0, 0, 0)),
        Leads(Commit(201, 200, 0, 1), LACKS, Normal(0, 0, 0)),
        Takes(Prepare(201, 200, 0, 1, 0)),
        Leads(Prepare(201, 200, 0, 3, 1), MORE, Normal(0, 1, 1)),
        Leads(Commit(201, 200, 0, 2), MORE, Normal(0, 1, 1)),
    ];
    run(&rt, 1, STEPS)
}

#[test]
fn site_that_lags_asks_for_the_view(rt: HostRuntime) -> Result<(), Fail> {
    const LATER: &[Sent] = &[(201, Said::GetState(1, 0))];
    const STEPS: &[Step] = &[
        Takes(Prepare(202, 200, 0, 1, 0)),
        Leads(Prepare(202, 201, 1, 4, 3), LATER, Normal(0, 1, 0)),
        Leads(Commit(202, 201, 1, 3), LATER, Normal(0, 1, 0)),
        Takes(StartViewChange(202, 201, 1, &[0, 0, 0])),
        Leads(Prepare(202, 201, 1, 4, 3), LATER, Change(1, 1, 0)),
        Leads(Commit(202, 201, 1, 3), LATER, Change(1, 1, 0)),
    ];
    run(&rt, 2, STEPS)
}

#[test]
fn rows_come_from_the_primary_of_their_view(rt: HostRuntime) -> Result<(), Fail> {
    const STEPS: &[Step] = &[
        Drops(Prepare(202, 201, 0, 1, 0), Why::NotPrimary),
        Drops(Commit(202, 201, 0, 1), Why::NotPrimary),
        Takes(Timer),
        Drops(Prepare(202, 200, 0, 1, 0), Why::View),
        Drops(Commit(202, 200, 0, 1), Why::View),
    ];
    run(&rt, 2, STEPS)
}

#[test]
fn primary_tells_at_a_beat(rt: HostRuntime) -> Result<(), Fail> {
    const AGAIN: &[Sent] = &[
        (201, Said::Prepare(0, 1, 0, 1)),
        (202, Said::Prepare(0, 1, 0, 1)),
    ];
    const COMMITS: &[Sent] = &[(201, Said::Commit(0, 1)), (202, Said::Commit(0, 1))];
    const STEPS: &[Step] = &[
        Takes(Request(200, 1)),
        Leads(Beat, AGAIN, Normal(0, 1, 0)),
        Takes(PrepareOk(200, 201, 0, 1)),
        Leads(Beat, COMMITS, Normal(0, 1, 1)),
    ];
    run(&rt, 0, STEPS)
}

#[test]
fn only_what_may_come_is_taken(rt: HostRuntime) -> Result<(), Fail> {
    const STEPS: &[Step] = &[
        Refuses(Request(201, 1), SiteFault::NotMine),
        Refuses(PrepareOk(200, 65, 0, 1), SiteFault::NotMine),
        Refuses(PrepareOk(200, 99, 0, 1), SiteFault::NotMine),
        Refuses(PrepareOk(200, 200, 0, 1), SiteFault::NotMine),
        Refuses(PrepareOk(200, 203, 0, 1), SiteFault::NotMine),
        Refuses(Reply(200, 201), SiteFault::NotMine),
        Refuses(PayOrder(200, 201), SiteFault::NotMine),
    ];
    run(&rt, 0, STEPS)
}
