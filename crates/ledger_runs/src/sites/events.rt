//! Events of three sites, whose actors are 200 to 202, and of client 5. A test writes them in numbers alone, as constants
//! that own nothing: so its proof has nothing to drop.

use fixtures::{Ask, Tally};
use std::alloc::{AllocError, Global};
use vr_types::{
    Commit, DoViewChangeOf, EnvelopeOf, Event, EventOf, GetState, Known, MOST_SITES, Msg, MsgOf,
    NewStateOf, PrepareOf, PrepareOk, Recovery, RecoveryResponseOf, ReplyOf, RequestOf, RowOf,
    RowsOf, StartViewChange, StartViewOf, StateOf,
};

/// An event, unless memory for it was refused.
pub type Given = Result<Event<Tally>, AllocError>;

/// What comes to a site: of a message its receiver, its sender, and its content. Rows are given by
/// the numbers of client 5's requests, and boots by a number for each site.
#[derive(Clone, Copy)]
pub enum Comes {
    Timer,
    Beat,
    Crash,
    Restart,
    /// Client 5's request to add 3, to this receiver: the number.
    Request(u16, u32),
    /// Client 5's request for the sum, to this receiver: the number.
    Total(u16, u32),
    /// The view, the place, how many rows are executed. The row is the request that has the place's number.
    Prepare(u16, u16, u32, u16, u16),
    /// The view, the place.
    PrepareOk(u16, u16, u32, u16),
    /// The view, how many rows are executed.
    Commit(u16, u16, u32, u16),
    /// The view, the boots.
    StartViewChange(u16, u16, u32, &'static [u32]),
    /// The view, the vote, the boots.
    DoViewChange(u16, u16, u32, Ballot, &'static [u32]),
    /// The view, how many rows are executed, the rows.
    StartView(u16, u16, u32, u16, &'static [u32]),
    /// The view, the rows that its sender already has.
    GetState(u16, u16, u32, u16),
    /// Of site 1, to this receiver: the view, the rows before those sent, how many are executed,
    /// the rows.
    NewState(u16, u32, u16, u16, &'static [u32]),
    /// The nonce.
    Recovery(u16, u16, u32),
    /// The view, the nonce, the boots.
    Response(u16, u16, u32, u32, &'static [u32]),
    /// The same with a state of one row, which is executed.
    StateResponse(u16, u16, u32, u32, &'static [u32]),
    /// The answer 10 to request 1 in view 0.
    Reply(u16, u16),
    PayOrder(u16, u16),
}

/// A vote: its last normal view, how many rows are executed, and the numbers of its rows.
#[derive(Clone, Copy)]
pub struct Ballot {
    pub last_normal: u32,
    pub done: u16,
    pub numbers: &'static [u32],
}

impl Comes {
    /// The event itself.
    pub fn given(self, alloc: Global) -> Given {
        match self {
            Comes::Timer => Ok(EventOf::Timer),
            Comes::Beat => Ok(EventOf::Beat),
            Comes::Crash => Ok(EventOf::Crash),
            Comes::Restart => Ok(EventOf::Restart),
            Comes::Request(to, number) => request(to, number, Ask::Add(3)),
            Comes::Total(to, number) => request(to, number, Ask::Total),
            Comes::Prepare(to, from, view, place, done) => prepare(to, from, view, place, done),
            Comes::PrepareOk(to, from, view, place) => prepare_ok(to, from, view, place),
            Comes::Commit(to, from, view, done) => commit(to, from, view, done),
            Comes::StartViewChange(to, from, view, boots) => {
                start_view_change(to, from, view, boots)
            }
            Comes::DoViewChange(to, from, view, vote, boots) => {
                do_view_change(alloc, to, from, view, vote, boots)
            }
            Comes::StartView(to, from, view, done, numbers) => {
                start_view(alloc, to, from, view, done, numbers)
            }
            Comes::GetState(to, from, view, base) => get_state(to, from, view, base),
            Comes::NewState(to, view, base, done, numbers) => {
                new_state(alloc, to, view, base, done, numbers)
            }
            Comes::Recovery(to, from, nonce) => recovery(to, from, nonce),
            Comes::Response(to, from, view, nonce, boots) => {
                response(to, from, view, nonce, boots)
            }
            Comes::StateResponse(to, from, view, nonce, boots) => {
                state_response(alloc, to, from, view, nonce, boots)
            }
            Comes::Reply(to, from) => reply(to, from),
            Comes::PayOrder(to, from) => message(to, from, MsgOf::PayOrder(())),
        }
    }
}

/// A message comes.
fn message(site: u16, from: u16, msg: Msg<Tally>) -> Given {
    Ok(EventOf::Deliver(EnvelopeOf {
        from,
        to: site,
        msg,
    }))
}

/// Client 5's request to add 3, as a row.
pub fn row(number: u32) -> RowOf<Ask> {
    RowOf {
        client: 5,
        number,
        cmd: Ask::Add(3),
    }
}

/// The rows of client 5's requests of these numbers.
pub fn rows(alloc: Global, numbers: &[u32]) -> Result<RowsOf<Ask>, AllocError> {
    let mut rows = RowsOf::new(alloc);
    for number in numbers {
        if rows.len() < 10 {
            rows.push(row(*number))?;
        }
    }
    Ok(rows)
}

/// What is known of boots, a number for each site: of seven at most.
pub fn known(boots: &[u32]) -> Known {
    let mut known = Known::new();
    for boot in boots {
        if known.len() < usize::from(MOST_SITES) {
            known.push(*boot);
        }
    }
    known
}

fn request(site: u16, number: u32, cmd: Ask) -> Given {
    message(site, 5, MsgOf::Request(RequestOf { number, cmd }))
}

fn prepare(site: u16, from: u16, view: u32, place: u16, done: u16) -> Given {
    let row = row(u32::from(place));
    let prepare = PrepareOf {
        view,
        place,
        done,
        row,
    };
    message(site, from, MsgOf::Prepare(prepare))
}

fn prepare_ok(site: u16, from: u16, view: u32, place: u16) -> Given {
    message(site, from, MsgOf::PrepareOk(PrepareOk { view, place }))
}

fn commit(site: u16, from: u16, view: u32, done: u16) -> Given {
    message(site, from, MsgOf::Commit(Commit { view, done }))
}

fn start_view_change(site: u16, from: u16, view: u32, boots: &[u32]) -> Given {
    let known = known(boots);
    message(
        site,
        from,
        MsgOf::StartViewChange(StartViewChange { view, known }),
    )
}

fn do_view_change(
    alloc: Global,
    site: u16,
    from: u16,
    view: u32,
    vote: Ballot,
    boots: &[u32],
) -> Given {
    let Ballot {
        last_normal,
        done,
        numbers,
    } = vote;
    let change = DoViewChangeOf {
        view,
        last_normal,
        done,
        rows: rows(alloc, numbers)?,
        known: known(boots),
    };
    message(site, from, MsgOf::DoViewChange(change))
}

fn start_view(alloc: Global, site: u16, from: u16, view: u32, done: u16, numbers: &[u32]) -> Given {
    let rows = rows(alloc, numbers)?;
    let opening = StartViewOf { view, done, rows };
    message(site, from, MsgOf::StartView(opening))
}

fn get_state(site: u16, from: u16, view: u32, base: u16) -> Given {
    message(site, from, MsgOf::GetState(GetState { view, base }))
}

fn new_state(alloc: Global, site: u16, view: u32, base: u16, done: u16, numbers: &[u32]) -> Given {
    let state = NewStateOf {
        view,
        base,
        done,
        rows: rows(alloc, numbers)?,
    };
    message(site, 201, MsgOf::NewState(state))
}

fn recovery(site: u16, from: u16, nonce: u32) -> Given {
    message(site, from, MsgOf::Recovery(Recovery { nonce }))
}

/// RECOVERYRESPONSE without a state.
fn response(site: u16, from: u16, view: u32, nonce: u32, boots: &[u32]) -> Given {
    let response = RecoveryResponseOf {
        view,
        nonce,
        state: None,
        known: known(boots),
    };
    message(site, from, MsgOf::RecoveryResponse(response))
}

/// RECOVERYRESPONSE with a state of one row, which is executed.
fn state_response(
    alloc: Global,
    site: u16,
    from: u16,
    view: u32,
    nonce: u32,
    boots: &[u32],
) -> Given {
    let state = Some(StateOf {
        done: 1,
        rows: rows(alloc, &[1])?,
    });
    let response = RecoveryResponseOf {
        view,
        nonce,
        state,
        known: known(boots),
    };
    message(site, from, MsgOf::RecoveryResponse(response))
}

fn reply(site: u16, from: u16) -> Given {
    let reply = ReplyOf {
        view: 0,
        number: 1,
        reply: 10,
    };
    message(site, from, MsgOf::Reply(reply))
}
