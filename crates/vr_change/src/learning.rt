//! What a site learns of boot numbers, and what it gives up by that.
ghost use Rattle.std.specs.Prelude.{◌≡◌, ℕ, ◌≤◌, List, length};
ghost use Rattle.vr_types.specs.declared.cell.Boot.{Boot};
ghost use Rattle.vr_types.specs.Site.{Ack};
ghost use Rattle.vr_types.specs.Step.{greater, learns};
ghost use Rattle.vr_log.specs.Running.{IsRunning, StaysSound, site_of};
ghost use Rattle.vr_change.specs.Ballot.{is_left as stays};

use vr_log::Running;
use vr_types::{Known, Machine};

/// Whether a collected message is left as the site learns what it was told now: it is not of an earlier boot of its
/// sender than is known then.
pub fn is_left<M: Machine>(running: &Running<M>, told: &Known, from: u16, sent: &Known) -> bool
    ensures { result ≡ stays running.now.known told.now from sent.now }
{
    !running.known.is_outdated(from, sent) && !told.is_outdated(from, sent)
}

/// The site learns what a sender knew, and gives up each collected message that this shows to be outdated. It takes no
/// memory.
pub fn learn<M: Machine>(running: &mut Running<M>, told: &Known)
    requires { length told.now ≤ length running.old.known }
    ensures status { running.new.status ≡ running.old.status }
    ensures view { running.new.view ≡ running.old.view }
    ensures kept { running.new.kept ≡ running.old.kept }
    ensures known { running.new.known ≡ greater running.old.known told.now }
    ensures sound { (f : ℕ) → StaysSound M.Machine f running.old running.new }
    ensures running { (start : M) (f : ℕ) (acks : List Ack) →
        IsRunning M.Machine start f running.old acks →
        IsRunning M.Machine start f running.new acks }
    ensures site { (acks : List Ack) (cell : Boot) →
        site_of running.new acks cell ≡ learns told.now (site_of running.old acks cell) }
{
    running.known.learn(told);
    let known = &running.known;
    running
        .starts
        .retain(|start| !known.is_outdated(start.from, &start.known));
    running
        .votes
        .retain(|vote| !known.is_outdated(vote.from, &vote.known));
}
