//! What a running site does with a message and at a beat.
ghost use Rattle.std.specs.Prelude.{◌≡◌, ◌+◌, ◌*◌, OnOk, length, true};
ghost use Rattle.vr_types.specs.Group.{may_send};
ghost use Rattle.vr_types.specs.Handling.{on_message, on_beat};
ghost use Rattle.vr_log.specs.Kept.{IsReady};
ghost use Rattle.vr_log.specs.Running.{StaysSound, FollowsRule, FollowsChoice};

use crate::addressing::site_number;
use std::alloc::{AllocError, Global};
use vr_log::send::{changes_view, dropped, silent};
use vr_log::{Running, StartOf, VoteOf};
use vr_types::{Config, Machine, Msg, MsgOf, Outcome, RowOf, Why};

/// What a running site does with a message of an actor that may send it. The log in a message is moved, not copied.
pub(crate) fn serve<M: Machine>(
    alloc: Global,
    config: Config,
    running: &mut Running<M>,
    from: u16,
    msg: Msg<M>,
) -> Result<Outcome<M>, AllocError>
    requires ready { IsReady M.Machine running.old.kept }
    requires sites { length running.old.acked.items ≡ 2 * config.f + 1 }
    requires known { length running.old.known ≡ 2 * config.f + 1 }
    requires may_come { may_send config.f config.me from msg ≡ true }
    ensures sound { OnOk result (StaysSound M.Machine config.f running.old running.new) }
    ensures step { FollowsChoice M.Machine config running.old running.new result
        (λ choose site. on_message choose config.f config.me site from msg) }
{
    let site = site_number(from);
    match msg {
        MsgOf::Request(request) => {
            let row = RowOf {
                client: from,
                number: request.number,
                cmd: request.cmd,
            };
            vr_normal::request(alloc, config, running, row)
        }
        MsgOf::Prepare(prepare) => vr_normal::prepare(alloc, config, running, site, prepare),
        MsgOf::PrepareOk(ok) => vr_normal::prepare_ok(alloc, config, running, site, ok),
        MsgOf::Commit(commit) => vr_normal::commit(alloc, config, running, site, commit),
        MsgOf::StartViewChange(change) => {
            let start = StartOf {
                from: site,
                known: change.known,
            };
            vr_change::start_view_change(alloc, config, running, change.view, start)
        }
        MsgOf::DoViewChange(change) => {
            let vote = VoteOf {
                from: site,
                last_normal: change.last_normal,
                done: change.done,
                log: change.rows,
                known: change.known,
            };
            vr_change::do_view_change(alloc, config, running, change.view, vote)
        }
        MsgOf::StartView(opening) => vr_change::start_view(alloc, config, running, site, opening),
        MsgOf::GetState(wanted) => vr_change::get_state(alloc, config, running, site, wanted),
        MsgOf::NewState(state) => vr_change::new_state(alloc, config, running, site, state),
        MsgOf::Recovery(recovery) => vr_recover::recovery(alloc, config, running, site, recovery),
        MsgOf::RecoveryResponse(_) => Ok(dropped(alloc, Why::Status)),
        // These two only go to clients: no actor may send a site one.
        MsgOf::Reply(_) => Ok(silent(alloc)),
        MsgOf::PayOrder(_) => Ok(silent(alloc)),
    }
}

/// What a running site sends again at a beat.
pub(crate) fn beat<M: Machine>(
    alloc: Global,
    config: Config,
    running: &Running<M>,
) -> Result<Outcome<M>, AllocError>
    requires { IsReady M.Machine running.now.kept }
    ensures { FollowsRule M.Machine config running.now running.now result
        (λ site. on_beat config.f config.me site running.now.status) }
{
    if changes_view(running.status) {
        vr_change::beat_in_change(alloc, config, running)
    } else {
        vr_normal::beat(alloc, config, running)
    }
}
