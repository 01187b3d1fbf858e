//! The opening of a view: the site learns the boot numbers in the message that came, takes the log that goes before
//! all others, sends it to all others, and answers the clients.
ghost use Rattle.std.specs.Prelude.{◌≡◌, ◌≢◌, ◌<◌, ◌≤◌, ◌*◌, ◌++◌, ◌∷◌, [], false, IfOk, OnOk, List, length, map, slice_get, Some};
ghost use Rattle.vr_types.specs.declared.cell.Boot.{Boot};
ghost use Rattle.vr_types.specs.Change.{opened_with, own_vote};
ghost use Rattle.vr_types.specs.Group.{mail, to_all};
ghost use Rattle.vr_types.specs.Site.{Ack, Vote, has_vote};
ghost use Rattle.vr_log.specs.Kept.{IsReady};
ghost use Rattle.vr_log.specs.Running.{IsRunning, IsSound, Follows, site_of, vote_of, StaysSound, FollowsChoice};
ghost use Rattle.vr_types.specs.Step.{learns};
ghost use Rattle.vr_change.specs.Ballot.{votes_left};
ghost use Rattle.vr_change.specs.Parts.{opens_with, opens_by};

use crate::ballot::{Claim, best, best_before, most_done};
use crate::taking::be_normal;
use std::alloc::{AllocError, Global};
use std::mem;
use vr_log::send::{dropped, mail_to, send_replies};
use vr_log::{Running, VoteOf};
use vr_types::{
    Config, Envelope, Known, Machine, MsgOf, Outcome, OutcomeOf, RowsOf, StartViewOf, Why,
};

/// Opens the view with the votes that are kept.
pub fn open_with_kept<M: Machine>(
    alloc: Global,
    config: Config,
    running: &mut Running<M>,
    told: &Known,
    sent: Vec<Envelope<M>>,
) -> Result<Outcome<M>, AllocError>
    requires ready { IsReady M.Machine running.old.kept }
    requires known { length told.now ≤ length running.old.known }
    requires some { votes_left running.old.known told.now (map vote_of running.old.votes.items)
        ≢ [] }
    ensures sound { OnOk result (StaysSound M.Machine config.f running.old running.new) }
    ensures later { running.old.view ≤ running.new.view }
    ensures step { FollowsChoice M.Machine config running.old running.new result
        (λ choose site. opens_by choose config.f config.me told.now site sent.items
        (votes_left running.old.known told.now (map vote_of running.old.votes.items))) }
{
    let done = most_done(running, told);
    match best(running, told) {
        Some(at) => open_with_vote(alloc, config, running, told, at, done, sent),
        None => unreachable!(),
    }
}

/// Opens the view with the votes that are kept and a new one, whose site has none among them.
pub fn open_with_new<M: Machine>(
    alloc: Global,
    config: Config,
    running: &mut Running<M>,
    vote: VoteOf<M::Cmd>,
    sent: Vec<Envelope<M>>,
) -> Result<Outcome<M>, AllocError>
    requires ready { IsReady M.Machine running.old.kept }
    requires known { length vote.known ≤ length running.old.known }
    requires new { has_vote (votes_left running.old.known vote.known
        (map vote_of running.old.votes.items)) vote.from ≡ false }
    ensures sound { OnOk result (StaysSound M.Machine config.f running.old running.new) }
    ensures later { running.old.view ≤ running.new.view }
    ensures step { FollowsChoice M.Machine config running.old running.new result
        (λ choose site. opens_by choose config.f config.me vote.known site sent.items
        (votes_left running.old.known vote.known (map vote_of running.old.votes.items)
        ++ vote_of vote ∷ [])) }
{
    let new = Claim::of(&vote);
    let VoteOf {
        done,
        log,
        known,
        ..
    } = vote;
    let done = most_done(running, &known).max(done);
    match best_before(running, &known, new) {
        Some(at) => open_with_vote(alloc, config, running, &known, at, done, sent),
        None => open_with_rows(alloc, config, running, &known, log, done, sent),
    }
}

/// Opens the view with the votes that are kept and the site's own, which is not among them. Where its own log goes
/// before the others, the log stays.
pub fn open_with_own<M: Machine>(
    alloc: Global,
    config: Config,
    running: &mut Running<M>,
    told: &Known,
    sent: Vec<Envelope<M>>,
) -> Result<Outcome<M>, AllocError>
    requires ready { IsReady M.Machine running.old.kept }
    requires known { length told.now ≤ length running.old.known }
    requires new { has_vote (votes_left running.old.known told.now
        (map vote_of running.old.votes.items)) config.me ≡ false }
    ensures sound { OnOk result (StaysSound M.Machine config.f running.old running.new) }
    ensures later { running.old.view ≤ running.new.view }
    ensures step { FollowsChoice M.Machine config running.old running.new result
        (λ choose site. opens_by choose config.f config.me told.now site sent.items
        (votes_left running.old.known told.now (map vote_of running.old.votes.items)
        ++ own_vote config.me (learns told.now site) ∷ [])) }
{
    let own = Claim {
        from: config.me,
        last_normal: running.last_normal,
        rows: running.kept.log.len(),
    };
    let done = most_done(running, told).max(running.kept.done);
    match best_before(running, told, own) {
        Some(at) => open_with_vote(alloc, config, running, told, at, done, sent),
        None => open(alloc, config, running, told, done, sent),
    }
}

/// Opens the view with the log of the vote at an index, where that begins with what the site executed.
pub fn open_with_vote<M: Machine>(
    alloc: Global,
    config: Config,
    running: &mut Running<M>,
    told: &Known,
    at: usize,
    done: u16,
    sent: Vec<Envelope<M>>,
) -> Result<Outcome<M>, AllocError>
    requires ready { IsReady M.Machine running.old.kept }
    requires known { length told.now ≤ length running.old.known }
    requires at { at < length running.old.votes.items }
    ensures sound { OnOk result (StaysSound M.Machine config.f running.old running.new) }
    ensures later { running.old.view ≤ running.new.view }
    ensures step { (vote : Vote M.Cmd) →
        slice_get (map vote_of running.old.votes.items) at ≡ Some vote →
        FollowsChoice M.Machine config running.old running.new result
        (λ choose site. opens_with choose config.f config.me site (learns told.now site) sent.items
        vote.log done) }
{
    if !running.kept.keeps_executed(0, &running.votes[at].log) {
        return Ok(dropped(alloc, Why::Stale));
    }
    let mut votes = mem::replace(&mut running.votes, Vec::new(alloc));
    let vote = votes.swap_remove(at);
    running.kept.take_rows(0, vote.log)?;
    open(alloc, config, running, told, done, sent)
}

/// Opens the view with these rows, where they begin with what the site executed.
pub fn open_with_rows<M: Machine>(
    alloc: Global,
    config: Config,
    running: &mut Running<M>,
    told: &Known,
    rows: RowsOf<M::Cmd>,
    done: u16,
    sent: Vec<Envelope<M>>,
) -> Result<Outcome<M>, AllocError>
    requires ready { IsReady M.Machine running.old.kept }
    requires known { length told.now ≤ length running.old.known }
    ensures sound { OnOk result (StaysSound M.Machine config.f running.old running.new) }
    ensures later { running.old.view ≤ running.new.view }
    ensures step { FollowsChoice M.Machine config running.old running.new result
        (λ choose site. opens_with choose config.f config.me site (learns told.now site) sent.items
        rows done) }
{
    if !running.kept.keeps_executed(0, &rows) {
        return Ok(dropped(alloc, Why::Stale));
    }
    let _len = rows.len();
    running.kept.take_rows(0, rows)?;
    open(alloc, config, running, told, done, sent)
}

/// Opens the view with the log that the site has: it learns what it was told, is normal in the view, executes to the
/// largest commit-number of the votes, and sends STARTVIEW to all others; then the clients are answered.
pub fn open<M: Machine>(
    alloc: Global,
    config: Config,
    running: &mut Running<M>,
    told: &Known,
    done: u16,
    mut sent: Vec<Envelope<M>>,
) -> Result<Outcome<M>, AllocError>
    requires ready { IsReady M.Machine running.old.kept }
    requires known { length told.now ≤ length running.old.known }
    ensures sound { OnOk result ((start : M) → IsSound M.Machine start config.f running.old →
        IsSound M.Machine start config.f running.new) }
    ensures later { running.old.view ≤ running.new.view }
    ensures step { (start : M) (acks : List Ack) (cell : Boot) →
        IsRunning M.Machine start config.f running.old acks →
        Follows M.Machine start config.f config.me running.new result (
        opened_with config.f config.me running.old.kept.log done
        (record {
          site = learns told.now (site_of running.old acks cell);
          sent = sent.items;
        })) }
{
    let view = running.view;
    let answers = running.kept.execute(alloc, done)?;
    running.known.learn(told);
    be_normal(running, view);
    tell_view(alloc, config, running, &mut sent)?;
    send_replies(config, view, answers.as_slice(), &mut sent)?;
    Ok(OutcomeOf {
        sent,
        dropped: None,
    })
}

/// Adds STARTVIEW of the site's view to every other site, in ascending order.
fn tell_view<M: Machine>(
    alloc: Global,
    config: Config,
    running: &Running<M>,
    sent: &mut Vec<Envelope<M>>,
) -> Result<(), AllocError>
    ensures { OnOk result (sent.new.items ≡ sent.old.items
        ++ to_all config.f config.me
        (MsgOf.StartView (record {
          view = running.now.view;
          done = running.now.kept.done;
          rows = running.now.kept.log;
        }))) }
{
    for site in 0..2 * config.f + 1 {
        if site != config.me {
            sent.push(view_mail(alloc, config, running, site)?)?;
        }
    }
    Ok(())
}

/// STARTVIEW of the site's view to a site.
fn view_mail<M: Machine>(
    alloc: Global,
    config: Config,
    running: &Running<M>,
    site: u16,
) -> Result<Envelope<M>, AllocError>
    requires { site ≤ 2 * config.f }
    ensures { IfOk result (λ sent. sent ≡ mail config.me site
        (MsgOf.StartView (record {
          view = running.now.view;
          done = running.now.kept.done;
          rows = running.now.kept.log;
        }))) }
{
    let msg = MsgOf::StartView(StartViewOf {
        view: running.view,
        done: running.kept.done,
        rows: running.kept.log.copy_from(alloc, 0)?,
    });
    Ok(mail_to(config, site, msg))
}
