//! How many envelopes were sent in a run, and how many of them came.
ghost use Rattle.std.specs.Prelude.{◌≡◌, length, option_to_list};
ghost use Rattle.pvp_live.specs.Counts.{broken_count, came_in_all, came_to, frames_at, frames_taken, is_broken, sent_by, sent_in_all};

use pvp_links::{Peer, PeerEnd, Served, StreamEnd};
use pvp_parties::{Party, PartyEvent, PartyOf, PartyOutcome};
use pvp_rooms::{Closed, Recorded};
use vr_types::BootCell;

/// How many envelopes these actors sent in all.
pub fn sent_in_all(closed: &[Closed<Party>]) -> usize
    ensures { result ≡ sent_in_all closed.now }
{
    let mut sent: usize = 0;
    for one in closed {
        sent = sent.saturating_add(sent_by(one));
    }
    sent
}

/// How many envelopes an actor sent in all.
fn sent_by(closed: &Closed<Party>) -> usize
    ensures { result ≡ sent_by closed.now }
{
    let mut sent: usize = 0;
    for recorded in closed.history.as_slice() {
        sent = sent.saturating_add(Party::sent_envelopes(&recorded.outcome).len());
    }
    sent
}

/// How many envelopes came to these actors in all.
pub fn came_in_all(closed: &[Closed<Party>]) -> usize
    ensures { result ≡ came_in_all closed.now }
{
    let mut came: usize = 0;
    for one in closed {
        came = came.saturating_add(came_to(one));
    }
    came
}

/// How many envelopes came to an actor: those of its events that have a stamp.
fn came_to(closed: &Closed<Party>) -> usize
    ensures { result ≡ came_to closed.now }
{
    let mut came: usize = 0;
    for recorded in closed.history.as_slice() {
        came = came.saturating_add(came_by(recorded));
    }
    came
}

/// How many envelopes came by an event: one where it has a stamp.
fn came_by(recorded: &Recorded<PartyEvent, PartyOutcome>) -> usize
    ensures { result ≡ length (option_to_list recorded.now.stamp) }
{
    match recorded.stamp {
        Some(_) => 1,
        None => 0,
    }
}

/// How many frames were taken over all these streams.
pub fn frames_taken<C: BootCell, S, G>(peers: &[Peer<'_, PartyOf<C>, S, G>]) -> usize
    ensures { result ≡ frames_taken peers.now }
{
    let mut frames: usize = 0;
    for peer in peers {
        frames = frames.saturating_add(frames_at(peer.end));
    }
    frames
}

/// How many frames were taken of a stream that ended so.
fn frames_at(end: Option<PeerEnd>) -> usize
    ensures { result ≡ frames_at end }
{
    match end {
        Some(end) => end.frames,
        None => 0,
    }
}

/// How many of these streams ended before their end.
pub fn broken_count<C: BootCell, S, G>(peers: &[Peer<'_, PartyOf<C>, S, G>]) -> usize
    ensures { result ≡ broken_count peers.now }
{
    peers.iter().filter(|peer| is_broken(peer.end)).count()
}

/// Whether a stream ended before its end.
fn is_broken(end: Option<PeerEnd>) -> bool
    ensures { result ≡ is_broken end }
{
    match end {
        Some(
            PeerEnd {
                why: StreamEnd::End,
                ..
            },
        ) => false,
        Some(_) | None => true,
    }
}
