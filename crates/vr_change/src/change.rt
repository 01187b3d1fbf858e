//! The start of a change of view, and what a site in change sends.
ghost use Rattle.std.specs.Prelude.{◌≡◌, ◌+◌, ◌*◌, ◌<◌, ◌≤◌, ◌∷◌, [], false, IfOk, OnOk, List};
ghost use Rattle.vr_types.specs.declared.cell.Boot.{Boot};
ghost use Rattle.vr_types.specs.Change.{on_timer, beats_in_change, sends_vote};
ghost use Rattle.vr_types.specs.Group.{mail, to_all};
ghost use Rattle.vr_types.specs.Cell.{max_number};
ghost use Rattle.vr_types.specs.Site.{Ack};
ghost use Rattle.vr_log.specs.Running.{site_of, StaysSound, FollowsRule};
ghost use Rattle.vr_change.specs.Parts.{GivesUpCollected};

use std::alloc::{AllocError, Global};
use vr_log::Running;
use vr_log::send::{News, mail_to, primary_of, tell_all};
use vr_types::{
    Config, DoViewChangeOf, Envelope, Machine, MsgOf, Outcome, OutcomeOf, StartViewChange, Status,
};

/// Timer: the change to the next view begins, and STARTVIEWCHANGE goes to all others.
pub fn timer<M: Machine>(
    alloc: Global,
    config: Config,
    running: &mut Running<M>,
) -> Result<Outcome<M>, AllocError>
    requires { running.old.view < max_number }
    ensures sound { OnOk result (StaysSound M.Machine config.f running.old running.new) }
    ensures later { running.old.view ≤ running.new.view }
    ensures step { FollowsRule M.Machine config running.old running.new result
        (λ site. on_timer config.f config.me site) }
{
    let view = running.view + 1;
    start_change(running, view);
    let sent = tell_change(alloc, config, running)?;
    Ok(OutcomeOf {
        sent,
        dropped: None,
    })
}

/// Beat of a site in change: it sends again what it has sent for its view.
pub fn beat_in_change<M: Machine>(
    alloc: Global,
    config: Config,
    running: &Running<M>,
) -> Result<Outcome<M>, AllocError>
    ensures { FollowsRule M.Machine config running.now running.now result
        (λ site. beats_in_change config.f config.me site) }
{
    let mut sent = tell_change(alloc, config, running)?;
    if running.voted && primary_of(config, running.view) != config.me {
        sent.push(own_vote(alloc, config, running)?)?;
    }
    Ok(OutcomeOf {
        sent,
        dropped: None,
    })
}

/// The site's own DOVIEWCHANGE, to the primary of its view.
pub fn own_vote<M: Machine>(
    alloc: Global,
    config: Config,
    running: &Running<M>,
) -> Result<Envelope<M>, AllocError>
    ensures { IfOk result (λ mail. (acks : List Ack) (cell : Boot) →
        mail ∷ [] ≡ sends_vote config.f config.me (site_of running.now acks cell)) }
{
    let msg = MsgOf::DoViewChange(DoViewChangeOf {
        view: running.view,
        last_normal: running.last_normal,
        done: running.kept.done,
        rows: running.kept.log.copy_from(alloc, 0)?,
        known: running.known,
    });
    Ok(mail_to(config, primary_of(config, running.view), msg))
}

/// STARTVIEWCHANGE of the site's view, with what the site knows, to every other site in ascending order.
pub fn tell_change<M: Machine>(
    alloc: Global,
    config: Config,
    running: &Running<M>,
) -> Result<Vec<Envelope<M>>, AllocError>
    ensures { IfOk result (λ sent. sent.items ≡ to_all config.f config.me
        (MsgOf.StartViewChange (record { view = running.now.view; known = running.now.known }))) }
{
    let change = StartViewChange {
        view: running.view,
        known: running.known,
    };
    tell_all(alloc, config, News::<M::Cmd>::StartViewChange(change))
}

/// The site takes part in the change to a view, and gives up what it collected.
pub fn start_change<M: Machine>(running: &mut Running<M>, view: u32)
    ensures { GivesUpCollected (record running.old { status = Status.Change; view = view })
        running.new }
{
    running.status = Status::Change;
    running.view = view;
    give_up_collected(running);
}

/// Gives up what was collected in the view.
pub fn give_up_collected<M: Machine>(running: &mut Running<M>)
    ensures { GivesUpCollected running.old running.new }
{
    running.acked.fill(0);
    running.starts.clear();
    running.voted = false;
    running.votes.clear();
}
