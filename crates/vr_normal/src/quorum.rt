//! What the primary of a view does with a PREPAREOK.
ghost use Rattle.std.specs.Prelude.{◌≡◌, ◌+◌, ◌*◌, ◌≤◌, IsTrue, OnOk, length};
ghost use Rattle.vr_types.specs.Choice.{IsLargest};
ghost use Rattle.vr_types.specs.Normal.{on_prepare_ok, with_ack};
ghost use Rattle.vr_types.specs.Step.{executes_and_answers};
ghost use Rattle.vr_log.specs.Kept.{IsReady};
ghost use Rattle.vr_log.specs.Running.{StaysSound, FollowsChoice};
ghost use Rattle.vr_normal.specs.Support.{has_support};

use std::alloc::{AllocError, Global};
use vr_log::Running;
use vr_log::send::{dropped, primary_of, runs_normally, send_replies};
use vr_types::{Config, Machine, Outcome, OutcomeOf, PrepareOk, Why};

/// PREPAREOK: the rows that f different other sites have acknowledged are executed, and their clients are answered.
pub fn prepare_ok<M: Machine>(
    alloc: Global,
    config: Config,
    running: &mut Running<M>,
    from: u16,
    msg: PrepareOk,
) -> Result<Outcome<M>, AllocError>
    requires ready { IsReady M.Machine running.old.kept }
    requires sites { length running.old.acked.items ≡ 2 * config.f + 1 }
    requires from { from ≤ 2 * config.f }
    ensures sound { OnOk result (StaysSound M.Machine config.f running.old running.new) }
    ensures status { running.new.status ≡ running.old.status }
    ensures view { running.new.view ≡ running.old.view }
    ensures step { FollowsChoice M.Machine config running.old running.new result
        (λ choose site. on_prepare_ok choose config.f config.me site from msg) }
{
    if !runs_normally(running.status) {
        return Ok(dropped(alloc, Why::Status));
    }
    if msg.view != running.view {
        return Ok(dropped(alloc, Why::View));
    }
    if primary_of(config, running.view) != config.me {
        return Ok(dropped(alloc, Why::NotPrimary));
    }
    acknowledge(alloc, config, running, from, msg.place)
}

/// Notes a site's acknowledgement, executes up to the commit place, and answers the clients.
fn acknowledge<M: Machine>(
    alloc: Global,
    config: Config,
    running: &mut Running<M>,
    from: u16,
    place: u16,
) -> Result<Outcome<M>, AllocError>
    requires ready { IsReady M.Machine running.old.kept }
    requires sites { length running.old.acked.items ≡ 2 * config.f + 1 }
    requires from { from ≤ 2 * config.f }
    ensures sound { OnOk result (StaysSound M.Machine config.f running.old running.new) }
    ensures status { running.new.status ≡ running.old.status }
    ensures view { running.new.view ≡ running.old.view }
    ensures step { FollowsChoice M.Machine config running.old running.new result
        (λ choose site. let y = with_ack from place site in executes_and_answers
        (choose.commit_place config.me y.collected.acks) y) }
{
    let len = running.kept.log.len() as u16;
    let before = running.acked[from as usize];
    running.acked[from as usize] = before.max(place.min(len));
    let upto = commit_place(config, running.acked.as_slice());
    let answers = running.kept.execute(alloc, upto)?;
    let mut sent = Vec::new(alloc);
    send_replies(config, running.view, answers.as_slice(), &mut sent)?;
    Ok(OutcomeOf {
        sent,
        dropped: None,
    })
}

/// The largest place that at least f different other sites have acknowledged: one of the places that a site named, or
/// 0.
fn commit_place(config: Config, acked: &[u16]) -> u16
    requires { length acked.now ≡ 2 * config.f + 1 }
    ensures { IsLargest (λ n. IsTrue (has_support config.f config.me acked.now n)) result }
{
    let mut place: u16 = 0;
    for candidate in acked {
        if *candidate > place && is_supported(config, acked, *candidate) {
            place = *candidate;
        }
    }
    place
}

/// Whether at least f different other sites have acknowledged this place.
fn is_supported(config: Config, acked: &[u16], place: u16) -> bool
    requires { length acked.now ≡ 2 * config.f + 1 }
    ensures { result ≡ has_support config.f config.me acked.now place }
{
    let mut count: u16 = 0;
    for site in 0..2 * config.f + 1 {
        if site != config.me && place <= acked[site as usize] {
            count += 1;
        }
    }
    config.f <= count
}
