//! What a recovering site does with a RECOVERYRESPONSE.
ghost use Rattle.std.specs.Prelude.{◌≡◌, ◌+◌, ◌*◌, length, List, IfOk};
ghost use Rattle.vr_types.specs.Choice.{Choice, IsRight};
ghost use Rattle.vr_types.specs.Recovery.{on_recovery_response, regains};
ghost use Rattle.vr_types.specs.Site.{Ack};
ghost use Rattle.vr_recover.specs.Progress.{FollowsProgress, IsSoundProgress};
ghost use Rattle.vr_recover.specs.Recovering.{response_of, responses_of, IsSoundRecovering, recovering_site};

use crate::recovering::{Recovering, ResponseOf, has_as_late, keep, learn, take_regained};
use crate::regaining::regain;
use std::alloc::{AllocError, Global};
use vr_log::Running;
use vr_types::{Boot, Config, Machine, Why};

/// The result of a response.
#[derive(Drop)]
pub enum Progress<M: Machine> {
    /// It was dropped, and nothing changed.
    Dropped(Why),
    /// It is kept, and the site is still recovering.
    Waits,
    /// The state is regained: the site is normal.
    Regained(Running<M>),
}

/// RECOVERYRESPONSE at a recovering site, whose cell holds `boot`: the site learns the boot numbers that the sender
/// knew, gives up the responses that these show to be of an earlier boot, and keeps the response. If this regains the
/// state, the site is normal with it. A response to another recovery of the site, or of an earlier boot of its sender
/// than is known, is dropped as `Stale`; it is dropped as `Known` where a response of the same site, of that view or a
/// later one, is kept. After an `Err` the site may only be dropped.
pub fn take_response<M: Machine>(
    alloc: Global,
    config: Config,
    setup: &M::Setup,
    boot: Boot,
    recovering: &mut Recovering<M>,
    nonce: u32,
    response: ResponseOf<M::Cmd>,
) -> Result<Progress<M>, AllocError>
    requires setup { M.admits setup.now }
    requires sound { IsSoundRecovering config.f recovering.old }
    requires told { length response.known ≡ 2 * config.f + 1 }
    ensures sound { IfOk result (λ progress.
        IsSoundProgress M.Machine (M.start setup.now) config.f recovering.new progress) }
    ensures step { (choose : Choice M.Cmd) (acks : List Ack) → IsRight config.f choose →
        FollowsProgress recovering.new acks boot result
        (on_recovery_response choose (recovering_site recovering.old acks boot) nonce
        (response_of response)) }
{
    if nonce != boot.boots {
        return Ok(Progress::Dropped(Why::Stale));
    }
    if recovering.known.is_outdated(response.from, &response.known) {
        return Ok(Progress::Dropped(Why::Stale));
    }
    if has_as_late(recovering.responses.as_slice(), &response) {
        return Ok(Progress::Dropped(Why::Known));
    }
    learn(recovering, &response.known);
    keep(&mut recovering.responses, response)?;
    regain_where_due(alloc, config, setup, boot, recovering)
}

/// Regains the state, where the kept responses give one.
fn regain_where_due<M: Machine>(
    alloc: Global,
    config: Config,
    setup: &M::Setup,
    boot: Boot,
    recovering: &mut Recovering<M>,
) -> Result<Progress<M>, AllocError>
    requires setup { M.admits setup.now }
    requires sound { IsSoundRecovering config.f recovering.old }
    ensures sound { IfOk result (λ progress.
        IsSoundProgress M.Machine (M.start setup.now) config.f recovering.new progress) }
    ensures step { (choose : Choice M.Cmd) (acks : List Ack) → IsRight config.f choose →
        FollowsProgress recovering.new acks boot result
        (regains (recovering_site recovering.old acks boot)
        (choose.regained (responses_of recovering.old.responses.items))) }
{
    match take_regained(config, &mut recovering.responses) {
        Some((view, state)) => {
            let running = regain(alloc, config, setup, view, state, recovering.known)?;
            Ok(Progress::Regained(running))
        }
        None => Ok(Progress::Waits),
    }
}
