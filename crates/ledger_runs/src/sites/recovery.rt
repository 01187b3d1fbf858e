//! Crash, Restart, RECOVERY, RECOVERYRESPONSE, and what a recovering site does at a beat.

use crate::sites::events::Comes::{
    Beat, Commit, Crash, Prepare, PrepareOk, Recovery, Request, Response, Restart, StartViewChange,
    StateResponse, Timer,
};
use crate::sites::trial::Shows::{Down, NormalKnows, Recovering};
use crate::sites::trial::Step::{Drops, Falls, HasNumber, Is, Leads, Refuses, Takes};
use crate::sites::trial::{Sent, Shows, Step, run, run_over};
use fixtures::Said;
use std::test::Fail;
use vr_types::{Boot, BootCell, MemCell, SiteFault, Why};

const NONE: [u32; 3] = [0, 0, 0];

#[test]
fn crashed_site_is_down(rt: HostRuntime) -> Result<(), Fail> {
    const STEPS: &[Step] = &[
        Refuses(Restart, SiteFault::AlreadyUp),
        Leads(Crash, &[], Down(0)),
        Refuses(Crash, SiteFault::NotUp),
        Refuses(Beat, SiteFault::NotUp),
        Refuses(Timer, SiteFault::NotUp),
        Refuses(Request(200, 1), SiteFault::NotUp),
    ];
    run(&rt, 0, STEPS)
}

/// Site 2 recovers with 1 as its number, and with 2.
const AS_1: Shows = Recovering([0, 0, 1], 1);

const AS_2: Shows = Recovering([0, 0, 2], 2);

const ASKS_AS_1: &[Sent] = &[(200, Said::Recovery(1)), (201, Said::Recovery(1))];

const ASKS_AS_2: &[Sent] = &[(200, Said::Recovery(2)), (201, Said::Recovery(2))];

#[test]
fn restarted_site_asks_with_the_next_number(rt: HostRuntime) -> Result<(), Fail> {
    const STEPS: &[Step] = &[
        Takes(Crash),
        Leads(Restart, ASKS_AS_1, AS_1),
        Leads(Beat, ASKS_AS_1, AS_1),
        Refuses(Restart, SiteFault::AlreadyUp),
        Takes(Crash),
        Leads(Restart, ASKS_AS_2, AS_2),
    ];
    run(&rt, 2, STEPS)
}

/// Site 2 falls by the failed save of its first restart. Its cell then counts none, and it recovers by the next restart.
const KEEPS_THE_OLD: &[Step] = &[
    Takes(Crash),
    Falls(Restart, SiteFault::CellFault, 0),
    Leads(Restart, ASKS_AS_1, AS_1),
];

/// The same over a cell that holds the new value after a save that failed.
const KEEPS_THE_NEW: &[Step] = &[
    Takes(Crash),
    Falls(Restart, SiteFault::CellFault, 1),
    Leads(Restart, ASKS_AS_2, AS_2),
];

#[test]
fn failed_save_leaves_the_site_down(rt: HostRuntime) -> Result<(), Fail> {
    run_over(&rt, 2, MemCell::failing(1, false), KEEPS_THE_OLD)?;
    run_over(&rt, 2, MemCell::failing(1, true), KEEPS_THE_NEW)
}

#[test]
fn greatest_number_is_not_passed(rt: HostRuntime) -> Result<(), Fail> {
    let mut cell = MemCell::new();
    cell.save(Boot { boots: u32::MAX })?;
    const STEPS: &[Step] = &[Is(Down(u32::MAX)), Refuses(Restart, SiteFault::BootsSpent)];
    run_over(&rt, 2, cell, STEPS)
}

#[test]
fn primary_alone_answers_with_its_state(rt: HostRuntime) -> Result<(), Fail> {
    const KNOWS: [u32; 3] = [0, 0, 1];
    const STATE: &[Sent] = &[(202, Said::RecoveryResponse(0, 1, Some((1, 1)), KNOWS))];
    const VIEW: &[Sent] = &[(202, Said::RecoveryResponse(0, 1, None, KNOWS))];
    const PRIMARY: &[Step] = &[
        Takes(Request(200, 1)),
        Takes(PrepareOk(200, 201, 0, 1)),
        Leads(Recovery(200, 202, 1), STATE, NormalKnows(0, 1, 1, KNOWS, 0)),
    ];
    run(&rt, 0, PRIMARY)?;
    const BACKUP: &[Step] = &[
        Leads(Recovery(201, 202, 1), VIEW, NormalKnows(0, 0, 0, KNOWS, 0)),
        Leads(Recovery(201, 202, 1), VIEW, NormalKnows(0, 0, 0, KNOWS, 0)),
        Drops(Recovery(201, 202, 0), Why::Stale),
        Takes(Timer),
        Drops(Recovery(201, 202, 2), Why::Status),
    ];
    run(&rt, 1, BACKUP)
}

#[test]
fn state_is_regained_from_two(rt: HostRuntime) -> Result<(), Fail> {
    const KNOWS: [u32; 3] = [0, 0, 1];
    const STEPS: &[Step] = &[
        Takes(Crash),
        Takes(Restart),
        Drops(StateResponse(202, 200, 0, 2, &KNOWS), Why::Stale),
        Leads(StateResponse(202, 200, 0, 1, &KNOWS), &[], AS_1),
        Drops(StateResponse(202, 200, 0, 1, &KNOWS), Why::Known),
        Leads(
            Response(202, 201, 0, 1, &KNOWS),
            &[],
            NormalKnows(0, 1, 1, KNOWS, 1),
        ),
        HasNumber(1, Some(1)),
        Drops(Response(202, 201, 0, 1, &KNOWS), Why::Status),
    ];
    run(&rt, 2, STEPS)
}

#[test]
fn response_of_a_later_view_replaces_the_earlier(rt: HostRuntime) -> Result<(), Fail> {
    const KNOWS: [u32; 3] = [0, 0, 1];
    const STEPS: &[Step] = &[
        Takes(Crash),
        Takes(Restart),
        Leads(Response(202, 201, 0, 1, &KNOWS), &[], AS_1),
        Leads(Response(202, 201, 3, 1, &KNOWS), &[], AS_1),
        Drops(Response(202, 201, 2, 1, &KNOWS), Why::Known),
        Leads(
            StateResponse(202, 200, 3, 1, &KNOWS),
            &[],
            NormalKnows(3, 1, 1, KNOWS, 1),
        ),
    ];
    run(&rt, 2, STEPS)
}

#[test]
fn response_of_an_earlier_boot_is_given_up(rt: HostRuntime) -> Result<(), Fail> {
    const KNOWS: [u32; 3] = [1, 0, 1];
    const STEPS: &[Step] = &[
        Takes(Crash),
        Takes(Restart),
        Takes(StateResponse(202, 200, 0, 1, &[0, 0, 1])),
        Leads(Response(202, 201, 0, 1, &KNOWS), &[], Recovering(KNOWS, 1)),
        Drops(StateResponse(202, 200, 0, 1, &[0, 0, 1]), Why::Stale),
        Leads(
            StateResponse(202, 200, 0, 1, &KNOWS),
            &[],
            NormalKnows(0, 1, 1, KNOWS, 1),
        ),
    ];
    run(&rt, 2, STEPS)
}

#[test]
fn recovering_site_takes_no_part(rt: HostRuntime) -> Result<(), Fail> {
    const STEPS: &[Step] = &[
        Takes(Crash),
        Takes(Restart),
        Drops(Timer, Why::Status),
        Drops(StartViewChange(202, 200, 3, &NONE), Why::Status),
        Drops(Recovery(202, 201, 1), Why::Status),
        Drops(Prepare(202, 200, 0, 1, 0), Why::Status),
        Drops(Commit(202, 200, 0, 0), Why::Status),
        Drops(Commit(202, 201, 0, 1), Why::NotPrimary),
        Drops(Request(202, 1), Why::Status),
    ];
    run(&rt, 2, STEPS)
}
