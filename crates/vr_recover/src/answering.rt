//! What a running site answers to RECOVERY, and the RECOVERY that a recovering site sends.
ghost use Rattle.std.specs.Prelude.{◌≡◌, ◌+◌, ◌*◌, ◌≤◌, length, List, IfOk, OnOk};
ghost use Rattle.vr_types.specs.declared.cell.Boot.{Boot};
ghost use Rattle.vr_types.specs.Group.{to_all};
ghost use Rattle.vr_types.specs.Recovery.{on_recovery, state_of_view};
ghost use Rattle.vr_types.specs.Site.{Ack};
ghost use Rattle.vr_log.specs.Outcomes.{Sends};
ghost use Rattle.vr_log.specs.Running.{site_of, StaysSound, FollowsRule};

use std::alloc::{AllocError, Global};
use vr_log::Running;
use vr_log::send::{News, dropped, mail_to, primary_of, runs_normally, sends_one, tell_all};
use vr_types::{
    Config, Machine, MsgOf, Outcome, OutcomeOf, Recovery, RecoveryResponseOf, State, StateOf, Why,
};

/// RECOVERY at a running site: a normal one notes the boot of its sender and answers with its view and the boot
/// numbers that it knows; the primary of the view adds its log and its commit-number. A RECOVERY of an earlier boot
/// than is known is dropped as `Stale`. After an `Err` the site may only be dropped.
pub fn recovery<M: Machine>(
    alloc: Global,
    config: Config,
    running: &mut Running<M>,
    from: u16,
    msg: Recovery,
) -> Result<Outcome<M>, AllocError>
    requires from { from ≤ 2 * config.f }
    requires known { length running.old.known ≡ 2 * config.f + 1 }
    ensures sound { OnOk result (StaysSound M.Machine config.f running.old running.new) }
    ensures status { running.new.status ≡ running.old.status }
    ensures view { running.new.view ≡ running.old.view }
    ensures step { FollowsRule M.Machine config running.old running.new result
        (λ site. on_recovery config.f config.me site from msg) }
{
    if !runs_normally(running.status) {
        return Ok(dropped(alloc, Why::Status));
    }
    if msg.nonce < running.known.get(from) {
        return Ok(dropped(alloc, Why::Stale));
    }
    running.known.note(from, msg.nonce);
    let response = MsgOf::RecoveryResponse(RecoveryResponseOf {
        view: running.view,
        nonce: msg.nonce,
        state: state_of_its_view(alloc, config, running)?,
        known: running.known,
    });
    sends_one(alloc, mail_to(config, from, response))
}

/// The state of a running site's view, which only its primary gives. The log is copied once.
fn state_of_its_view<M: Machine>(
    alloc: Global,
    config: Config,
    running: &Running<M>,
) -> Result<Option<State<M>>, AllocError>
    ensures { IfOk result (λ state. (acks : List Ack) (cell : Boot) →
        state ≡ state_of_view config.f config.me (site_of running.now acks cell)) }
{
    if primary_of(config, running.view) != config.me {
        return Ok(None);
    }
    let rows = running.kept.log.copy_from(alloc, 0)?;
    Ok(Some(StateOf {
        done: running.kept.done,
        rows,
    }))
}

/// RECOVERY to all other sites, as a site sends it at its restart and again at each beat while it recovers. The nonce
/// is the count of its restarts.
pub fn ask_all<C: Copy + Drop, R: Drop, O: Drop>(
    alloc: Global,
    config: Config,
    nonce: u32,
) -> Result<OutcomeOf<C, R, O>, AllocError>
    ensures { IfOk result
        (λ out. Sends out (to_all config.f config.me (MsgOf.Recovery (record { nonce = nonce })))) }
{
    let sent = tell_all(alloc, config, News::<C>::Recovery(Recovery { nonce }))?;
    Ok(OutcomeOf {
        sent,
        dropped: None,
    })
}
