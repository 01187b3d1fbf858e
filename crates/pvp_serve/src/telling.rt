//! What a site reports to its operator: changes on standard error, and its status on standard
//! output where asked.
ghost use Rattle.std.specs.Prelude.{◌≡◌, length};
ghost use Rattle.pvp_serve.specs.Telling.{
  ended_after,
  fresh_teller,
  is_to_tell,
  status_word,
  stood_after,
  stood_at,
  told_after,
  turned_away,
};

use crate::admission::is_full_at;
use crate::heading::{Heading, Level};
use crate::host::Host;
use crate::lanes::Lane;
use crate::serving::{Lost, Standing};
use pvp_links::{LinkEnd, LinkFault};
use pvp_trace::names::push_actor;
use pvp_types::Setup;
use std::alloc::{AllocError, Global};
use std::net::SocketAddr;
use vr_types::Status;

/// After how many ticks it reports what was turned away or lost since.
const TELLING_TICKS: u32 = 100;

/// What is reported of a site's status.
#[derive(Clone, Copy, Debug, PartialEq, Eq)]
struct Stood {
    status: Status,
    view: u32,
    is_full: bool,
}

/// Who was turned away: why, from where it called, and whom it said to be, where it came so far.
#[derive(Clone, Copy)]
pub struct TurnedAway {
    pub why: LinkFault,
    pub from: SocketAddr,
    pub said: Option<u16>,
}

/// What a site has reported, so that it does not report it again.
#[derive(Drop)]
pub struct Teller {
    setup: Setup,
    stood: Option<Stood>,
    /// The stream that ended last with something wrong: whose, and why.
    ended: Option<(u16, LinkFault)>,
    /// How many streams were turned away, and whose the last was, where it is known and not reported yet.
    away: u64,
    last: Option<TurnedAway>,
    /// What was reported of them and of lost frames.
    told: Tally,
    ticks: u32,
}

/// How many streams were turned away, and how many frames were lost for clocks too far ahead, and
/// in floods of one sender.
#[derive(Clone, Copy, Debug, PartialEq, Eq)]
struct Tally {
    away: u64,
    lost: u64,
    flood: u64,
}

impl Teller {
    /// That of a site of a bank of this setup, which has reported nothing.
    pub fn new(setup: Setup) -> Self
        ensures { result ≡ fresh_teller setup }
    {
        Teller {
            setup,
            stood: None,
            ended: None,
            away: 0,
            last: None,
            told: Tally {
                away: 0,
                lost: 0,
                flood: 0,
            },
            ticks: 0,
        }
    }

    /// A stream was turned away that a stranger opened.
    pub fn turns_away(&mut self, who: Option<TurnedAway>)
        ensures { self.new ≡ turned_away who self.old }
    {
        self.away = self.away.saturating_add(1);
        self.last = who;
    }

    /// A stream has ended: what was wrong with it is reported, but not the same twice in a row.
    pub fn ends<R: Host>(&mut self, rt: R, me: u16, peer: u16, end: LinkEnd)
        ensures { self.new ≡ record self.old { ended = ended_after peer end self.old.ended } }
    {
        let LinkEnd::Wrong(why) = end else {
            return;
        };
        if self.ended == Some((peer, why)) {
            return;
        }
        self.ended = Some((peer, why));
        let name = self.name_of(rt.alloc(), peer);
        let head = self.heading(rt, me, Level::Warn);
        let _told = eprintln!(rt; "{head}stream of {} ends: {why}", name.as_str());
    }

    /// A site that was called time and again does not show itself: that is reported.
    pub fn tells_unshown<R: Host>(&self, rt: R, me: u16, peer: u16, why: LinkFault) {
        tell_unshown(rt, &self.setup, me, peer, why);
    }

    /// A tick: from time to time it reports how many streams were turned away, and how many frames
    /// were lost as their clocks were too far ahead or too many came from one, where that is more
    /// than was reported; and how many were skipped by then.
    pub fn ticks<R: Host>(&mut self, rt: R, me: u16, lost: Lost, flood: Lost, passed: u64)
        ensures { self.new ≡ told_after self.old lost.count flood.count }
    {
        let (away, far, many) = (self.away, lost.count, flood.count);
        if !self.is_to_tell(far, many) {
            self.ticks = self.ticks.saturating_add(1);
            return;
        }
        self.ticks = 0;
        self.told = Tally {
            away,
            lost: far,
            flood: many,
        };
        let head = self.heading(rt, me, Level::Warn);
        let _told = eprintln!(rt;
            "{head}turned away {away} streams, lost {far} frames of far clocks and {many} in floods, passed over {passed}"
        );
        if let Some(last) = self.last {
            self.tells_last(rt, me, last);
        }
        self.last = None;
        self.names(rt, me, "far clock", lost.last);
        self.names(rt, me, "flood", flood.last);
    }

    /// Tells who was turned away last.
    fn tells_last<R: Host>(&self, rt: R, me: u16, last: TurnedAway) {
        let head = self.heading(rt, me, Level::Warn);
        let TurnedAway { why, from, said } = last;
        let Some(said) = said else {
            let _told = eprintln!(rt; "{head}turned away the last: {why}, from {from}");
            return;
        };
        let name = self.name_of(rt.alloc(), said);
        let _told = eprintln!(rt;
            "{head}turned away the last: {why}, from {from} as {}",
            name.as_str()
        );
    }

    /// Names whose the last frame was that was lost so.
    fn names<R: Host>(&self, rt: R, me: u16, what: &str, last: Option<u16>) {
        if let Some(last) = last {
            let name = self.name_of(rt.alloc(), last);
            let head = self.heading(rt, me, Level::Warn);
            let _told = eprintln!(rt; "{head}the last {what} was of {}", name.as_str());
        }
    }

    /// What a line of this site begins with now.
    fn heading<R: Host>(&self, rt: R, me: u16, level: Level) -> Heading {
        Heading::new(&rt, rt.alloc(), &self.setup, me, level)
    }

    /// The name of an actor, or as much of it as memory holds.
    fn name_of(&self, alloc: Global, actor: u16) -> String {
        let mut name = String::new(alloc);
        let _named = push_actor(&mut name, &self.setup, actor);
        name
    }

    /// Whether it is time to report how many streams were turned away and how many frames were
    /// lost.
    fn is_to_tell(&self, lost: u64, flood: u64) -> bool
        ensures { result ≡ is_to_tell self.now lost flood }
    {
        let Tally { away, .. } = self.told;
        let is_told = self.away == away && lost == self.told.lost && flood == self.told.flood;
        self.ticks.saturating_add(1) >= TELLING_TICKS && !is_told
    }

    /// How many members the bank has.
    pub fn members(&self) -> usize
        ensures { result ≡ length self.now.setup.members }
    {
        self.setup.members.len()
    }

    /// Reports the site's status, where it has changed.
    pub fn stands<R: Host>(&mut self, rt: R, me: u16, standing: Option<Standing>)
        ensures { self.new ≡ record self.old { stood = stood_after standing self.old.stood } }
    {
        let Some(standing) = standing else {
            return;
        };
        let now = stood_at(standing);
        if self.stood == Some(now) {
            return;
        }
        self.stood = Some(now);
        let Standing { view, log, .. } = standing;
        let word = word_of(standing.status);
        let full = if now.is_full { " full" } else { "" };
        let head = self.heading(rt, me, Level::Info);
        let _told = eprintln!(rt; "{head}{word} view {view} log {log}{full}");
    }

    /// Prints the site's status, and who has a stream to it.
    pub fn answers<R: Host>(&self, rt: R, standing: Option<Standing>, lanes: &[Lane]) {
        let Some(
            Standing {
                status,
                view,
                log,
                done,
            },
        ) = standing
        else {
            return;
        };
        let word = word_of(status);
        if let Ok(peers) = self.peers_of(rt.alloc(), lanes) {
            let _told = println!(rt;
                "{word} view {view} log {log} done {done} hears{}",
                peers.as_str()
            );
        }
    }

    /// The names of those who have a stream, each behind a space.
    fn peers_of(&self, alloc: Global, lanes: &[Lane]) -> Result<String, AllocError> {
        let mut names = String::new(alloc);
        for lane in lanes {
            names.push_str(" ")?;
            push_actor(&mut names, &self.setup, lane.peer)?;
        }
        Ok(names)
    }
}

/// What is reported of a site's status.
fn stood_at(standing: Standing) -> Stood
    ensures { result ≡ stood_at standing }
{
    Stood {
        status: standing.status,
        view: standing.view,
        is_full: is_full_at(standing.log),
    }
}

/// The word for a site's status.
fn word_of(status: Status) -> &'static str
    ensures { result.now ≡ status_word status }
{
    match status {
        Status::Normal => "normal",
        Status::Change => "change",
        Status::Recovering => "recovering",
        Status::Down => "down",
    }
}

/// Reports that a site that was called time and again does not show itself, the last time for this reason.
pub fn tell_unshown<R: Host>(rt: R, setup: &Setup, me: u16, peer: u16, why: LinkFault) {
    let mut name = String::new(rt.alloc());
    let _named = push_actor(&mut name, setup, peer);
    let head = Heading::new(&rt, rt.alloc(), setup, me, Level::Warn);
    let _told = eprintln!(rt; "{head}no stream to {}: {why}", name.as_str());
}
