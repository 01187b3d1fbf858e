//! What a recovering site does with a message.
ghost use Rattle.std.specs.Prelude.{◌≡◌, ◌==◌, List, true, IfOk, if◌then◌else◌};
ghost use Rattle.vr_types.specs.Choice.{Choice, IsRight};
ghost use Rattle.vr_types.specs.Group.{may_send, primary};
ghost use Rattle.vr_types.specs.Handling.{on_message};
ghost use Rattle.vr_types.specs.Site.{Ack};
ghost use Rattle.vr_recover.specs.Progress.{FollowsProgress, IsSoundProgress};
ghost use Rattle.vr_recover.specs.Recovering.{IsSoundRecovering, recovering_site};

use crate::addressing::site_number;
use std::alloc::{AllocError, Global};
use vr_log::send::primary_of;
use vr_recover::{Progress, Recovering, ResponseOf, take_response};
use vr_types::{Boot, Config, Machine, Msg, MsgOf, Why};

/// What a recovering site does with a message of an actor that may send it: responses are taken, and all else is
/// dropped.
pub(crate) fn await_state<M: Machine>(
    alloc: Global,
    config: Config,
    setup: &M::Setup,
    boot: Boot,
    recovering: &mut Recovering<M>,
    from: u16,
    msg: Msg<M>,
) -> Result<Progress<M>, AllocError>
    requires setup { M.admits setup.now }
    requires sound { IsSoundRecovering config.f recovering.old }
    requires may_come { may_send config.f config.me from msg ≡ true }
    ensures sound { IfOk result (λ progress.
        IsSoundProgress M.Machine (M.start setup.now) config.f recovering.new progress) }
    ensures step { (choose : Choice M.Cmd) (acks : List Ack) → IsRight config.f choose →
        FollowsProgress recovering.new acks boot result
        (on_message choose config.f config.me (recovering_site recovering.old acks boot) from msg) }
{
    let site = site_number(from);
    match msg {
        MsgOf::RecoveryResponse(msg) => {
            let response = ResponseOf {
                from: site,
                view: msg.view,
                state: msg.state,
                known: msg.known,
            };
            take_response(alloc, config, setup, boot, recovering, msg.nonce, response)
        }
        MsgOf::Prepare(msg) => Ok(Progress::Dropped(why_of(config, site, msg.view))),
        MsgOf::Commit(msg) => Ok(Progress::Dropped(why_of(config, site, msg.view))),
        MsgOf::StartView(msg) => Ok(Progress::Dropped(why_of(config, site, msg.view))),
        MsgOf::NewState(msg) => Ok(Progress::Dropped(why_of(config, site, msg.view))),
        _ => Ok(Progress::Dropped(Why::Status)),
    }
}

/// Why a recovering site drops a message that only the primary of a view may send: `NotPrimary` where another site
/// sent it, else `Status`.
fn why_of(config: Config, from: u16, view: u32) -> Why
    ensures { result ≡ (if primary config.f view == from then Why.Status else Why.NotPrimary) }
{
    if primary_of(config, view) == from {
        Why::Status
    } else {
        Why::NotPrimary
    }
}
