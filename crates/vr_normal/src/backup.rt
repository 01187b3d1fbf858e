//! What a backup does with PREPARE and COMMIT.
ghost use Rattle.std.specs.Prelude.{◌≡◌, ◌+◌, ◌==◌, ◌||◌, ◌++◌, ◌∷◌, [], nat_lt, length, IfOk, OnOk, if◌then◌else◌};
ghost use Rattle.vr_types.specs.Group.{primary};
ghost use Rattle.vr_types.specs.Normal.{on_prepare, on_commit, prepares};
ghost use Rattle.vr_types.specs.Site.{is_change};
ghost use Rattle.vr_types.specs.Step.{asks_state};
ghost use Rattle.vr_log.specs.Kept.{IsKept, IsReady};
ghost use Rattle.vr_log.specs.Outcomes.{Sends};
ghost use Rattle.vr_log.specs.Running.{StaysSound, FollowsRule};

use std::alloc::{AllocError, Global};
use vr_log::send::{
    acknowledge_log, changes_view, dropped, mail_to, primary_of, sends_one, silent,
};
use vr_log::{Kept, Running};
use vr_types::{
    Commit, Config, GetState, Machine, MsgOf, Outcome, OutcomeOf, PrepareOf, Row, Status, Why,
};

/// PREPARE: the next row goes into the log, rows that are committed are executed, and the log is acknowledged to the
/// primary.
pub fn prepare<M: Machine>(
    alloc: Global,
    config: Config,
    running: &mut Running<M>,
    from: u16,
    msg: PrepareOf<M::Cmd>,
) -> Result<Outcome<M>, AllocError>
    requires { IsReady M.Machine running.old.kept }
    ensures sound { OnOk result (StaysSound M.Machine config.f running.old running.new) }
    ensures status { running.new.status ≡ running.old.status }
    ensures view { running.new.view ≡ running.old.view }
    ensures step { FollowsRule M.Machine config running.old running.new result
        (λ site. on_prepare config.f config.me site from msg) }
{
    if primary_of(config, msg.view) != from {
        return Ok(dropped(alloc, Why::NotPrimary));
    }
    if msg.view < running.view {
        return Ok(dropped(alloc, Why::View));
    }
    if lags(running.status, running.view, msg.view) {
        return ask_state(alloc, config, msg.view, running.kept.done);
    }
    take_row(alloc, config, running, msg)
}

/// COMMIT: rows that are committed are executed.
pub fn commit<M: Machine>(
    alloc: Global,
    config: Config,
    running: &mut Running<M>,
    from: u16,
    msg: Commit,
) -> Result<Outcome<M>, AllocError>
    requires { IsReady M.Machine running.old.kept }
    ensures sound { OnOk result (StaysSound M.Machine config.f running.old running.new) }
    ensures status { running.new.status ≡ running.old.status }
    ensures view { running.new.view ≡ running.old.view }
    ensures step { FollowsRule M.Machine config running.old running.new result
        (λ site. on_commit config.f config.me site from msg) }
{
    if primary_of(config, msg.view) != from {
        return Ok(dropped(alloc, Why::NotPrimary));
    }
    if msg.view < running.view {
        return Ok(dropped(alloc, Why::View));
    }
    if lags(running.status, running.view, msg.view) {
        return ask_state(alloc, config, msg.view, running.kept.done);
    }
    let len = running.kept.log.len() as u16;
    running.kept.advance(msg.done)?;
    if len < msg.done {
        ask_state(alloc, config, running.view, len)
    } else {
        Ok(silent(alloc))
    }
}

/// Puts the row into the log where its place is the next one, executes what is committed, and acknowledges the log.
/// Where a row before it is missing, it asks for the state in place of the acknowledgement.
fn take_row<M: Machine>(
    alloc: Global,
    config: Config,
    running: &mut Running<M>,
    msg: PrepareOf<M::Cmd>,
) -> Result<Outcome<M>, AllocError>
    requires { IsReady M.Machine running.old.kept }
    ensures sound { OnOk result (StaysSound M.Machine config.f running.old running.new) }
    ensures status { running.new.status ≡ running.old.status }
    ensures view { running.new.view ≡ running.old.view }
    ensures step { FollowsRule M.Machine config running.old running.new result
        (λ site. prepares config.f config.me site msg) }
{
    let len = running.kept.log.len();
    append_next(&mut running.kept, msg.place, msg.row)?;
    running.kept.advance(msg.done)?;
    if len + 1 < msg.place as usize {
        ask_state(alloc, config, running.view, len as u16)
    } else {
        acknowledge_log(alloc, config, running.view, running.kept.log.len() as u16)
    }
}

/// Puts the row at the log's end where its place is the next one. After an `Err` this may only be dropped.
fn append_next<M: Machine>(kept: &mut Kept<M>, place: u16, row: Row<M>) -> Result<(), AllocError>
    requires { IsReady M.Machine kept.old }
    ensures log { OnOk result
        (kept.new.log ≡ (if place == length kept.old.log + 1 then kept.old.log ++ row ∷ []
        else kept.old.log)) }
    ensures done { kept.new.done ≡ kept.old.done }
    ensures ready { OnOk result (IsReady M.Machine kept.new) }
    ensures kept { OnOk result ((start : M) → IsKept M.Machine start kept.old →
        IsKept M.Machine start kept.new) }
{
    if place as usize != kept.log.len() + 1 {
        return Ok(());
    }
    kept.append(row)?;
    Ok(())
}

/// Whether the site must ask for the state before it can take a message of view `other`: that view is later than its
/// own, or it is in change.
fn lags(status: Status, view: u32, other: u32) -> bool
    ensures { result ≡ (nat_lt view other || is_change status) }
{
    view < other || changes_view(status)
}

/// GETSTATE for the rows after the first ones, to the primary of a view.
fn ask_state<C: Drop, R: Drop, O: Drop>(
    alloc: Global,
    config: Config,
    view: u32,
    base: u16,
) -> Result<OutcomeOf<C, R, O>, AllocError>
    ensures { IfOk result (λ out. Sends out (asks_state config.f config.me view base)) }
{
    let msg = MsgOf::GetState(GetState { view, base });
    sends_one(alloc, mail_to(config, primary_of(config, view), msg))
}
