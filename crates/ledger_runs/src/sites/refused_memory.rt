//! Each kind of event where memory is refused: the site is down, its cell as before or as the event saves it. With ample
//! memory each is handled; a run with the Nth request for memory refused shows the rest.

use crate::sites::events::Ballot;
use crate::sites::events::Comes::{
    Beat, Commit, Crash, DoViewChange, GetState, NewState, Prepare, PrepareOk, Recovery, Request,
    Response, Restart, StartView, StartViewChange, StateResponse, Timer,
};
use crate::sites::trial::Step::Stands;
use crate::sites::trial::{Step, run};
use std::test::Fail;

const NONE: [u32; 3] = [0, 0, 0];

#[test]
fn primary_stands_or_is_down(rt: HostRuntime) -> Result<(), Fail> {
    const STEPS: &[Step] = &[
        Stands(Request(200, 1), 0),
        Stands(PrepareOk(200, 201, 0, 1), 0),
        Stands(Request(200, 1), 0),
        Stands(Beat, 0),
        Stands(Recovery(200, 202, 1), 0),
        Stands(GetState(200, 202, 0, 0), 0),
    ];
    run(&rt, 0, STEPS)
}

#[test]
fn backup_stands_or_is_down(rt: HostRuntime) -> Result<(), Fail> {
    const STEPS: &[Step] = &[
        Stands(Prepare(201, 200, 0, 1, 0), 0),
        Stands(Commit(201, 200, 0, 1), 0),
        Stands(Recovery(201, 202, 1), 0),
        Stands(Prepare(201, 200, 0, 3, 0), 0),
    ];
    run(&rt, 1, STEPS)
}

#[test]
fn lagging_site_stands_or_is_down(rt: HostRuntime) -> Result<(), Fail> {
    const STEPS: &[Step] = &[
        Stands(Prepare(202, 201, 1, 4, 3), 0),
        Stands(NewState(202, 1, 0, 3, &[1, 2, 3, 4]), 0),
    ];
    run(&rt, 2, STEPS)
}

#[test]
fn new_primary_stands_or_is_down(rt: HostRuntime) -> Result<(), Fail> {
    const VOTE: Ballot = Ballot {
        last_normal: 0,
        done: 1,
        numbers: &[1],
    };
    const STEPS: &[Step] = &[
        Stands(Timer, 0),
        Stands(StartViewChange(201, 200, 1, &NONE), 0),
        Stands(Beat, 0),
        Stands(DoViewChange(201, 200, 1, VOTE, &NONE), 0),
    ];
    run(&rt, 1, STEPS)
}

#[test]
fn backup_of_a_new_view_stands_or_is_down(rt: HostRuntime) -> Result<(), Fail> {
    const STEPS: &[Step] = &[
        Stands(StartViewChange(202, 201, 1, &NONE), 0),
        Stands(StartView(202, 201, 1, 1, &[1]), 0),
    ];
    run(&rt, 2, STEPS)
}

#[test]
fn restarted_site_stands_or_is_down(rt: HostRuntime) -> Result<(), Fail> {
    const STEPS: &[Step] = &[
        Stands(Crash, 0),
        Stands(Restart, 1),
        Stands(Beat, 1),
        Stands(StateResponse(202, 200, 0, 1, &[0, 0, 1]), 1),
        Stands(Response(202, 201, 0, 1, &[0, 0, 1]), 1),
    ];
    run(&rt, 2, STEPS)
}
