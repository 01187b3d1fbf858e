//! What a site does with GETSTATE and NEWSTATE.
ghost use Rattle.std.specs.Prelude.{◌≡◌, ◌+◌, ◌*◌, ◌≤◌, IsTrue, OnOk, List, length};
ghost use Rattle.vr_types.specs.declared.cell.Boot.{Boot};
ghost use Rattle.vr_types.specs.Site.{Ack};
ghost use Rattle.vr_types.specs.Transfer.{on_get_state, on_new_state};
ghost use Rattle.vr_log.specs.Kept.{IsReady};
ghost use Rattle.vr_log.specs.Running.{site_of, StaysSound, FollowsRule, FollowsChoice};
ghost use Rattle.vr_change.specs.Fits.{rows_fit};

use crate::taking::{is_normal_in, take_log};
use std::alloc::{AllocError, Global};
use vr_log::Running;
use vr_log::send::{dropped, mail_to, primary_of, runs_normally, sends_one};
use vr_types::{Config, GetState, MAX_ROWS, Machine, MsgOf, NewStateOf, Outcome, Why};

/// GETSTATE: the primary of the view sends the rows after the first `base`.
pub fn get_state<M: Machine>(
    alloc: Global,
    config: Config,
    running: &Running<M>,
    from: u16,
    msg: GetState,
) -> Result<Outcome<M>, AllocError>
    requires { from ≤ 2 * config.f }
    ensures { FollowsRule M.Machine config running.now running.now result
        (λ site. on_get_state config.f config.me site from msg) }
{
    if !runs_normally(running.status) {
        return Ok(dropped(alloc, Why::Status));
    }
    if msg.view != running.view {
        return Ok(dropped(alloc, Why::View));
    }
    if primary_of(config, running.view) != config.me {
        return Ok(dropped(alloc, Why::NotPrimary));
    }
    if running.kept.log.len() < msg.base as usize {
        return Ok(dropped(alloc, Why::Stale));
    }
    let state = MsgOf::NewState(NewStateOf {
        view: running.view,
        base: msg.base,
        done: running.kept.done,
        rows: running.kept.log.copy_from(alloc, msg.base as usize)?,
    });
    sends_one(alloc, mail_to(config, from, state))
}

/// NEWSTATE: the site puts the rows after the first `base` of its log, and is normal in their view.
pub fn new_state<M: Machine>(
    alloc: Global,
    config: Config,
    running: &mut Running<M>,
    from: u16,
    msg: NewStateOf<M::Cmd>,
) -> Result<Outcome<M>, AllocError>
    requires { IsReady M.Machine running.old.kept }
    ensures sound { OnOk result (StaysSound M.Machine config.f running.old running.new) }
    ensures later { running.old.view ≤ running.new.view }
    ensures step { FollowsChoice M.Machine config running.old running.new result
        (λ choose site. on_new_state choose config.f config.me site from msg) }
{
    if primary_of(config, msg.view) != from {
        return Ok(dropped(alloc, Why::NotPrimary));
    }
    if msg.view < running.view {
        return Ok(dropped(alloc, Why::View));
    }
    let base = msg.base as usize;
    if !fits(running, msg.view, base, msg.rows.len()) {
        return Ok(dropped(alloc, Why::Stale));
    }
    take_log(alloc, config, running, msg.view, base, msg.done, msg.rows)
}

/// Whether a number of rows after the first `base` fits the log.
fn fits<M: Machine>(running: &Running<M>, view: u32, base: usize, rows: usize) -> bool
    requires ready { IsReady M.Machine running.now.kept }
    requires base { base ≤ MAX_ROWS }
    requires rows { rows ≤ MAX_ROWS }
    ensures fit { (acks : List Ack) (cell : Boot) →
        result ≡ rows_fit (site_of running.now acks cell) view base rows }
    ensures base { IsTrue result → base ≤ length running.now.kept.log }
    ensures few { IsTrue result → base + rows ≤ MAX_ROWS }
{
    let end = base + rows;
    let len = running.kept.log.len();
    let done = running.kept.done as usize;
    if end > MAX_ROWS {
        return false;
    }
    if is_normal_in(running, view) {
        base <= len && len < end
    } else {
        base <= done && done <= end
    }
}
