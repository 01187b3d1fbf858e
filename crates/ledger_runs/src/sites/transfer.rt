//! GETSTATE and NEWSTATE.

use crate::sites::events::Comes::{GetState, NewState, Prepare, Request, StartViewChange, Timer};
use crate::sites::trial::Shows::Normal;
use crate::sites::trial::Step::{Drops, HasNumber, Leads, Takes};
use crate::sites::trial::{Sent, Step, run};
use fixtures::Said;
use std::test::Fail;
use vr_types::Why;

#[test]
fn primary_sends_the_rows_behind(rt: HostRuntime) -> Result<(), Fail> {
    const ALL: &[Sent] = &[(202, Said::NewState(0, 0, 0, 2))];
    const LAST: &[Sent] = &[(202, Said::NewState(0, 1, 0, 1))];
    const NONE: &[Sent] = &[(202, Said::NewState(0, 2, 0, 0))];
    const STEPS: &[Step] = &[
        Takes(Request(200, 1)),
        Takes(Request(200, 2)),
        Leads(GetState(200, 202, 0, 0), ALL, Normal(0, 2, 0)),
        Leads(GetState(200, 202, 0, 1), LAST, Normal(0, 2, 0)),
        Leads(GetState(200, 202, 0, 2), NONE, Normal(0, 2, 0)),
        Drops(GetState(200, 202, 0, 3), Why::Stale),
        Drops(GetState(200, 202, 1, 0), Why::View),
    ];
    run(&rt, 0, STEPS)
}

#[test]
fn state_is_told_by_the_normal_primary_alone(rt: HostRuntime) -> Result<(), Fail> {
    const STEPS: &[Step] = &[
        Drops(GetState(201, 202, 0, 0), Why::NotPrimary),
        Takes(Timer),
        Drops(GetState(201, 202, 1, 0), Why::Status),
    ];
    run(&rt, 1, STEPS)
}

#[test]
fn lagging_site_takes_the_state(rt: HostRuntime) -> Result<(), Fail> {
    const TOLD: &[Sent] = &[(201, Said::PrepareOk(1, 4))];
    const STEPS: &[Step] = &[
        Drops(NewState(202, 1, 1, 3, &[2, 3, 4]), Why::Stale),
        Leads(NewState(202, 1, 0, 3, &[1, 2, 3, 4]), TOLD, Normal(1, 4, 3)),
    ];
    run(&rt, 2, STEPS)
}

#[test]
fn state_inside_a_view_makes_the_log_longer(rt: HostRuntime) -> Result<(), Fail> {
    const TOLD: &[Sent] = &[(201, Said::PrepareOk(1, 3))];
    const STEPS: &[Step] = &[
        Takes(NewState(202, 1, 0, 0, &[1])),
        Leads(NewState(202, 1, 1, 1, &[2, 3]), TOLD, Normal(1, 3, 1)),
        Leads(NewState(202, 1, 2, 4, &[3, 4]), &[], Normal(1, 4, 4)),
        Drops(NewState(202, 1, 2, 4, &[3, 4]), Why::Stale),
        Drops(NewState(202, 1, 5, 4, &[6, 7]), Why::Stale),
    ];
    run(&rt, 2, STEPS)
}

#[test]
fn rows_that_are_not_executed_are_not_kept(rt: HostRuntime) -> Result<(), Fail> {
    const TOLD: &[Sent] = &[(201, Said::PrepareOk(1, 3))];
    const STEPS: &[Step] = &[
        Takes(Prepare(202, 200, 0, 1, 1)),
        Takes(Prepare(202, 200, 0, 2, 1)),
        Drops(NewState(202, 1, 2, 1, &[3]), Why::Stale),
        Leads(NewState(202, 1, 1, 2, &[8, 9]), TOLD, Normal(1, 3, 2)),
        HasNumber(1, Some(1)),
        HasNumber(2, Some(8)),
    ];
    run(&rt, 2, STEPS)
}

#[test]
fn site_in_change_takes_the_state_of_its_view(rt: HostRuntime) -> Result<(), Fail> {
    const TOLD: &[Sent] = &[(201, Said::PrepareOk(1, 1))];
    const STEPS: &[Step] = &[
        Takes(StartViewChange(202, 201, 1, &[0, 0, 0])),
        Leads(NewState(202, 1, 0, 0, &[1]), TOLD, Normal(1, 1, 0)),
        Takes(Timer),
        Drops(NewState(202, 1, 0, 0, &[1]), Why::View),
        Drops(NewState(202, 2, 0, 0, &[1]), Why::NotPrimary),
    ];
    run(&rt, 2, STEPS)
}
