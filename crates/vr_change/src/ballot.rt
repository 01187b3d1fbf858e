//! The messages that a change of view collects, and what they decide. A message is left if it is not outdated once the
//! site has learnt what it was told; only messages that are left count.
ghost use Rattle.std.specs.Prelude.{◌≡◌, ◌<◌, ◌==◌, ◌&&◌, ◌||◌, ◌++◌, ◌∷◌, [], not, nat_lt, nat_le, length, map, max, fold, count_by, slice_get, Some, None, IfSome, MatchOption};
ghost use Rattle.vr_types.specs.Choice.{IsPick};
ghost use Rattle.vr_types.specs.Group.{sites, others};
ghost use Rattle.vr_types.specs.Site.{Vote, has_start, has_vote};
ghost use Rattle.vr_log.specs.Running.{start_of, vote_of};
ghost use Rattle.vr_change.specs.Ballot.{claim, is_left as stays, starts_left, votes_left, vote_at, goes_past};

use crate::learning::is_left;
use vr_log::{Running, StartOf, VoteOf};
use vr_types::{Config, Known, Machine};

/// What decides between a vote and others.
#[derive(Clone, Copy)]
pub struct Claim {
    pub from: u16,
    pub last_normal: u32,
    /// How many rows its log has.
    pub rows: usize,
}

impl Claim {
    ghost use Rattle.vr_change.specs.Ballot.{claim, claims_before};

    /// The claim of a vote.
    pub fn of<C: Copy>(vote: &VoteOf<C>) -> Self
        ensures { result ≡ claim (vote_of vote.now) }
    {
        Claim {
            from: vote.from,
            last_normal: vote.last_normal,
            rows: vote.log.len(),
        }
    }

    /// Whether its vote goes before another: it was last normal in a later view; or in the same, and its log is
    /// longer; or both are the same, and its site is lower.
    pub fn goes_before(self, other: Claim) -> bool
        ensures { result ≡ claims_before self other }
    {
        if self.last_normal != other.last_normal {
            return other.last_normal < self.last_normal;
        }
        if self.rows != other.rows {
            return other.rows < self.rows;
        }
        self.from < other.from
    }
}

/// Whether a vote of this site is kept.
pub fn has_voted<C>(votes: &[VoteOf<C>], site: u16) -> bool
    ensures { result ≡ has_vote (map vote_of votes.now) site }
{
    votes.iter().any(|vote| vote.from == site)
}

/// Whether a STARTVIEWCHANGE of this site is kept.
pub fn has_started(starts: &[StartOf], site: u16) -> bool
    ensures { result ≡ has_start (map start_of starts.now) site }
{
    starts.iter().any(|start| start.from == site)
}

/// Whether a vote of this site is left.
pub fn has_vote_left<M: Machine>(running: &Running<M>, told: &Known, site: u16) -> bool
    ensures { result ≡ has_vote (votes_left running.now.known told.now
        (map vote_of running.now.votes.items)) site }
{
    running.votes.iter().any(|vote| vote.from == site
        && is_left(running, told, vote.from, &vote.known))
}

/// Whether a STARTVIEWCHANGE of this site is left.
fn has_start_left<M: Machine>(running: &Running<M>, told: &Known, site: u16) -> bool
    ensures { result ≡ has_start (starts_left running.now.known told.now
        (map start_of running.now.starts.items)) site }
{
    running.starts.iter().any(|start| start.from == site
        && is_left(running, told, start.from, &start.known))
}

/// Whether a vote of this site is left, or comes now.
pub fn votes_now<M: Machine>(running: &Running<M>, told: &Known, from: u16, site: u16) -> bool
    ensures { result
        ≡ (has_vote (votes_left running.now.known told.now (map vote_of running.now.votes.items))
        site || (from == site)) }
{
    has_vote_left(running, told, site) || from == site
}

/// Whether the votes of f+1 sites or more are left, with the one that comes now.
pub fn enough_voted<M: Machine>(
    config: Config,
    running: &Running<M>,
    told: &Known,
    from: u16,
) -> bool
    ensures { result ≡ nat_lt config.f
        (count_by
        (λ j. has_vote (votes_left running.now.known told.now (map vote_of running.now.votes.items))
        j || (from == j)) (sites config.f)) }
{
    let mut count: u16 = 0;
    for site in 0..2 * config.f + 1 {
        if votes_now(running, told, from, site) {
            count += 1;
        }
    }
    config.f < count
}

/// Whether at least f others take part in the change, counting the one whose message comes now.
pub fn enough_started<M: Machine>(
    config: Config,
    running: &Running<M>,
    told: &Known,
    from: u16,
) -> bool
    ensures { result ≡ nat_le config.f
        (count_by
        (λ j. has_start (starts_left running.now.known told.now
        (map start_of running.now.starts.items)) j || (from == j)) (others config.f config.me)) }
{
    let mut count: u16 = 0;
    for site in 0..2 * config.f + 1 {
        if takes_part(config, running, told, from, site) {
            count += 1;
        }
    }
    config.f <= count
}

/// Whether a site is another one that takes part in the change.
fn takes_part<M: Machine>(
    config: Config,
    running: &Running<M>,
    told: &Known,
    from: u16,
    site: u16,
) -> bool
    ensures { result ≡ (not (site == config.me)
        && (has_start (starts_left running.now.known told.now
        (map start_of running.now.starts.items)) site || (from == site))) }
{
    site != config.me && (has_start_left(running, told, site) || from == site)
}

/// The index of the vote that goes before all others that are left, if any is left.
pub fn best<M: Machine>(running: &Running<M>, told: &Known) -> Option<usize>
    ensures { let votes = map vote_of running.now.votes.items in
        let left = votes_left running.now.known told.now votes in
        MatchOption result (left ≡ []) (λ at. (at < length running.now.votes.items)
        × IfSome (slice_get votes at) (IsPick left)) }
{
    let mut best = None;
    for at in 0..running.votes.len() {
        if goes_next(running, told, best, at) {
            best = Some(at);
        }
    }
    best
}

/// Whether the vote at an index is left, and goes before the best so far.
fn goes_next<M: Machine>(running: &Running<M>, told: &Known, best: Option<usize>, at: usize) -> bool
    requires at { at < length running.now.votes.items }
    requires best { IfSome best (λ best. best < length running.now.votes.items) }
    ensures { (vote : Vote M.Cmd) → slice_get (map vote_of running.now.votes.items) at ≡ Some vote →
        result ≡ (stays running.now.known told.now vote.from vote.known
        && goes_past vote (vote_at (map vote_of running.now.votes.items) best)) }
{
    let vote = &running.votes[at];
    if !is_left(running, told, vote.from, &vote.known) {
        return false;
    }
    match best {
        Some(best) => Claim::of(vote).goes_before(Claim::of(&running.votes[best])),
        None => true,
    }
}

/// The index of the vote that goes before all others that are left and before one of this claim; `None` where that one
/// goes before all.
pub fn best_before<M: Machine>(running: &Running<M>, told: &Known, new: Claim) -> Option<usize>
    ensures within { IfSome result (λ at. at < length running.now.votes.items) }
    ensures pick { (vote : Vote M.Cmd) → claim vote ≡ new →
        let votes = map vote_of running.now.votes.items in
        let ballot = votes_left running.now.known told.now votes ++ vote ∷ [] in
        MatchOption result (IsPick ballot vote)
        (λ at. IfSome (slice_get votes at) (IsPick ballot)) }
{
    let at = best(running, told)?;
    if new.goes_before(Claim::of(&running.votes[at])) {
        None
    } else {
        Some(at)
    }
}

/// The largest commit-number of the votes that are left; 0 if there are none.
pub fn most_done<M: Machine>(running: &Running<M>, told: &Known) -> u16
    ensures { result ≡ fold (λ most vote. max most vote.done) 0
        (votes_left running.now.known told.now (map vote_of running.now.votes.items)) }
{
    let mut most = 0;
    for vote in &running.votes {
        if is_left(running, told, vote.from, &vote.known) {
            most = most.max(vote.done);
        }
    }
    most
}
