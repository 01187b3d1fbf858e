//! What a site does with STARTVIEWCHANGE and DOVIEWCHANGE.
ghost use Rattle.std.specs.Prelude.{◌≡◌, ◌≢◌, ℕ, ◌<◌, ◌≤◌, ◌==◌, ◌&&◌, false, IfOk, OnOk, OnErr, List, length, map};
ghost use Rattle.vr_types.specs.declared.cell.Boot.{Boot};
ghost use Rattle.vr_types.specs.Change.{on_start_view_change, on_do_view_change, is_to_vote, with_start, with_vote, own_vote as vote_made};
ghost use Rattle.vr_types.specs.Choice.{Choice};
ghost use Rattle.vr_types.specs.Group.{primary};
ghost use Rattle.vr_types.specs.Site.{Ack, Start, is_normal};
ghost use Rattle.vr_types.specs.Step.{does, learns};
ghost use Rattle.vr_log.specs.Kept.{IsReady};
ghost use Rattle.vr_log.specs.Outcomes.{Sends};
ghost use Rattle.vr_log.specs.Running.{IsRunning, site_of, start_of, vote_of, StaysSound, FollowsRule, FollowsChoice};
ghost use Rattle.vr_change.specs.Ballot.{with_starter, with_ballot};
ghost use Rattle.vr_change.specs.Parts.{IsPart, gathered, starts_learnt, start_goes_on, vote_goes_on};

use crate::ballot::{
    enough_started, enough_voted, has_started, has_vote_left, has_voted, votes_now,
};
use crate::change::{own_vote, start_change, tell_change};
use crate::learning::learn;
use crate::opening::{open_with_kept, open_with_new, open_with_own};
use crate::taking::is_normal_in;
use std::alloc::{AllocError, Global};
use vr_log::send::{dropped, primary_of};
use vr_log::{Running, StartOf, VoteOf};
use vr_types::{Config, Envelope, EnvelopeOf, Known, Machine, Outcome, OutcomeOf, Why};

/// STARTVIEWCHANGE: the site learns what the sender knew, takes part in the change to the view, votes once f others
/// take part, and opens the view where it is its primary and can.
pub fn start_view_change<M: Machine>(
    alloc: Global,
    config: Config,
    running: &mut Running<M>,
    view: u32,
    start: StartOf,
) -> Result<Outcome<M>, AllocError>
    requires ready { IsReady M.Machine running.old.kept }
    requires known { length start.known ≤ length running.old.known }
    ensures sound { OnOk result (StaysSound M.Machine config.f running.old running.new) }
    ensures later { running.old.view ≤ running.new.view }
    ensures step { FollowsChoice M.Machine config running.old running.new result
        (λ choose site. on_start_view_change choose config.f config.me site view (start_of start)) }
{
    if view < running.view {
        return Ok(dropped(alloc, Why::View));
    }
    if is_normal_in(running, view) {
        return Ok(dropped(alloc, Why::Status));
    }
    if running.known.is_outdated(start.from, &start.known) {
        return Ok(dropped(alloc, Why::Stale));
    }
    let sent = start_later(alloc, config, running, view, &start.known)?;
    if primary_of(config, view) == config.me {
        lead(alloc, config, running, start, sent)
    } else {
        follow(alloc, config, running, start, sent)
    }
}

/// DOVIEWCHANGE: the primary of the view learns what the voter knew, takes part in the change to the view, keeps the vote,
/// and opens the view where it can.
pub fn do_view_change<M: Machine>(
    alloc: Global,
    config: Config,
    running: &mut Running<M>,
    view: u32,
    vote: VoteOf<M::Cmd>,
) -> Result<Outcome<M>, AllocError>
    requires ready { IsReady M.Machine running.old.kept }
    requires known { length vote.known ≤ length running.old.known }
    ensures sound { OnOk result (StaysSound M.Machine config.f running.old running.new) }
    ensures later { running.old.view ≤ running.new.view }
    ensures step { FollowsChoice M.Machine config running.old running.new result
        (λ choose site. on_do_view_change choose config.f config.me site view (vote_of vote)) }
{
    if view < running.view {
        return Ok(dropped(alloc, Why::View));
    }
    if primary_of(config, view) != config.me {
        return Ok(dropped(alloc, Why::NotPrimary));
    }
    if is_normal_in(running, view) {
        return Ok(dropped(alloc, Why::Status));
    }
    if running.known.is_outdated(vote.from, &vote.known) {
        return Ok(dropped(alloc, Why::Stale));
    }
    let sent = start_later(alloc, config, running, view, &vote.known)?;
    take_vote(alloc, config, running, vote, sent)
}

/// If the view is later than the site's, the site learns what was told and starts the change to it. Answers the
/// messages that go to all others.
fn start_later<M: Machine>(
    alloc: Global,
    config: Config,
    running: &mut Running<M>,
    view: u32,
    told: &Known,
) -> Result<Vec<Envelope<M>>, AllocError>
    requires known { length told.now ≤ length running.old.known }
    requires later { running.old.view ≤ view }
    requires change { (is_normal running.old.status && (view == running.old.view)) ≡ false }
    ensures err { OnErr result (running.old.view < view) }
    ensures view { running.new.view ≡ view }
    ensures kept { running.new.kept ≡ running.old.kept }
    ensures known { length running.new.known ≡ length running.old.known }
    ensures change { is_normal running.new.status ≡ false }
    ensures sound { StaysSound M.Machine config.f running.old running.new }
    ensures part { IfOk result (λ sent. (start : M) (acks : List Ack) (cell : Boot) →
        IsRunning M.Machine start config.f running.old acks →
        IsPart M.Machine start config.f running.new sent.items
        (starts_learnt config.f config.me view told.now (site_of running.old acks cell))) }
{
    if view == running.view {
        return Ok(Vec::new(alloc));
    }
    learn(running, told);
    start_change(running, view);
    tell_change(alloc, config, running)
}

/// A site that is not the primary keeps a STARTVIEWCHANGE, and sends its vote where it is due.
fn follow<M: Machine>(
    alloc: Global,
    config: Config,
    running: &mut Running<M>,
    start: StartOf,
    mut sent: Vec<Envelope<M>>,
) -> Result<Outcome<M>, AllocError>
    requires known { length start.known ≤ length running.old.known }
    requires other { primary config.f running.old.view ≢ config.me }
    ensures sound { OnOk result (StaysSound M.Machine config.f running.old running.new) }
    ensures later { running.old.view ≤ running.new.view }
    ensures step { (choose : Choice M.Cmd) → FollowsRule M.Machine config running.old running.new
        result
        (λ site. start_goes_on choose config.f config.me (start_of start) site sent.items) }
{
    let votes = is_due(config, running, &start.known, start.from);
    learn(running, &start.known);
    keep_start(running, start)?;
    if !votes {
        return Ok(handled(sent));
    }
    running.voted = true;
    sent.push(own_vote(alloc, config, running)?)?;
    Ok(handled(sent))
}

/// The primary keeps a STARTVIEWCHANGE, makes its own vote where it is due, and opens the view where it can.
fn lead<M: Machine>(
    alloc: Global,
    config: Config,
    running: &mut Running<M>,
    start: StartOf,
    sent: Vec<Envelope<M>>,
) -> Result<Outcome<M>, AllocError>
    requires ready { IsReady M.Machine running.old.kept }
    requires known { length start.known ≤ length running.old.known }
    requires change { is_normal running.old.status ≡ false }
    requires mine { primary config.f running.old.view ≡ config.me }
    ensures sound { OnOk result (StaysSound M.Machine config.f running.old running.new) }
    ensures later { running.old.view ≤ running.new.view }
    ensures step { FollowsChoice M.Machine config running.old running.new result
        (λ choose site. start_goes_on choose config.f config.me (start_of start) site sent.items) }
{
    let told = &start.known;
    let votes = is_due(config, running, told, start.from);
    let has_own = has_vote_left(running, told, config.me);
    if !votes && !has_own {
        return wait(alloc, config, running, start, votes, sent);
    }
    if !enough_voted(config, running, told, config.me) {
        return wait(alloc, config, running, start, votes, sent);
    }
    if has_own {
        open_with_kept(alloc, config, running, told, sent)
    } else {
        open_with_own(alloc, config, running, told, sent)
    }
}

/// Whether the site's own vote is due, with the STARTVIEWCHANGE that comes.
fn is_due<M: Machine>(config: Config, running: &Running<M>, told: &Known, from: u16) -> bool
    ensures { (start : Start) (acks : List Ack) (cell : Boot) → start.from ≡ from →
        result ≡ is_to_vote config.f config.me
        (with_start start (learns told.now (site_of running.now acks cell))) }
{
    enough_started(config, running, told, from) && !running.voted
}

/// Keeps a STARTVIEWCHANGE, one of each site. An `Err` leaves the running state as it was.
fn keep_start<M: Machine>(running: &mut Running<M>, start: StartOf) -> Result<(), AllocError>
    ensures stays { running.new ≡ record running.old { starts = running.new.starts } }
    ensures starts { OnOk result (map start_of running.new.starts.items
        ≡ with_starter (map start_of running.old.starts.items) (start_of start)) }
{
    if !has_started(running.starts.as_slice(), start.from) {
        running.starts.push(start)?;
    }
    Ok(())
}

/// The primary learns what a STARTVIEWCHANGE tells, and keeps it, with its own vote if it votes; the view is not
/// opened.
fn wait<M: Machine>(
    alloc: Global,
    config: Config,
    running: &mut Running<M>,
    start: StartOf,
    votes: bool,
    sent: Vec<Envelope<M>>,
) -> Result<Outcome<M>, AllocError>
    requires { length start.known ≤ length running.old.known }
    ensures sound { OnOk result (StaysSound M.Machine config.f running.old running.new) }
    ensures later { running.old.view ≤ running.new.view }
    ensures step { FollowsRule M.Machine config running.old running.new result
        (λ site. does (gathered votes config.me (start_of start) (learns start.known site))
        sent.items) }
{
    learn(running, &start.known);
    keep_start(running, start)?;
    if !votes {
        return Ok(handled(sent));
    }
    running.voted = true;
    keep_own_vote(alloc, config, running)?;
    Ok(handled(sent))
}

/// Keeps the site's own vote, unless one of its own is kept already. After an `Err` the running state may only be
/// dropped.
fn keep_own_vote<M: Machine>(
    alloc: Global,
    config: Config,
    running: &mut Running<M>,
) -> Result<(), AllocError>
    ensures stays { running.new ≡ record running.old { votes = running.new.votes } }
    ensures votes { OnOk result ((acks : List Ack) (cell : Boot) →
        map vote_of running.new.votes.items ≡ with_ballot (map vote_of running.old.votes.items)
        (vote_made config.me (site_of running.old acks cell))) }
{
    if has_voted(running.votes.as_slice(), config.me) {
        return Ok(());
    }
    let vote = VoteOf {
        from: config.me,
        last_normal: running.last_normal,
        done: running.kept.done,
        log: running.kept.log.copy_from(alloc, 0)?,
        known: running.known,
    };
    running.votes.push(vote)?;
    Ok(())
}

/// The primary takes a vote, and opens the view where it can.
fn take_vote<M: Machine>(
    alloc: Global,
    config: Config,
    running: &mut Running<M>,
    vote: VoteOf<M::Cmd>,
    sent: Vec<Envelope<M>>,
) -> Result<Outcome<M>, AllocError>
    requires ready { IsReady M.Machine running.old.kept }
    requires known { length vote.known ≤ length running.old.known }
    requires change { is_normal running.old.status ≡ false }
    requires mine { primary config.f running.old.view ≡ config.me }
    ensures sound { OnOk result (StaysSound M.Machine config.f running.old running.new) }
    ensures later { running.old.view ≤ running.new.view }
    ensures step { FollowsChoice M.Machine config running.old running.new result
        (λ choose site. vote_goes_on choose config.f config.me (vote_of vote) site sent.items) }
{
    let told = &vote.known;
    if !votes_now(running, told, vote.from, config.me) {
        return keep_vote(running, vote, sent);
    }
    if !enough_voted(config, running, told, vote.from) {
        return keep_vote(running, vote, sent);
    }
    if has_vote_left(running, told, vote.from) {
        open_with_kept(alloc, config, running, told, sent)
    } else {
        open_with_new(alloc, config, running, vote, sent)
    }
}

/// The primary learns what a vote tells, and keeps it if it is the first of its site; the view is not opened.
fn keep_vote<M: Machine>(
    running: &mut Running<M>,
    vote: VoteOf<M::Cmd>,
    sent: Vec<Envelope<M>>,
) -> Result<Outcome<M>, AllocError>
    requires { length vote.known ≤ length running.old.known }
    ensures sound { OnOk result ((f : ℕ) → StaysSound M.Machine f running.old running.new) }
    ensures later { running.old.view ≤ running.new.view }
    ensures step { (config : Config) → FollowsRule M.Machine config running.old running.new result
        (λ site. does (with_vote (vote_of vote) (learns vote.known site)) sent.items) }
{
    learn(running, &vote.known);
    if has_voted(running.votes.as_slice(), vote.from) {
        return Ok(handled(sent));
    }
    running.votes.push(vote)?;
    Ok(handled(sent))
}

/// The event is handled, and this is sent.
fn handled<C, R, O>(sent: Vec<EnvelopeOf<C, R, O>>) -> OutcomeOf<C, R, O>
    ensures { Sends result sent.items }
{
    OutcomeOf {
        sent,
        dropped: None,
    }
}
