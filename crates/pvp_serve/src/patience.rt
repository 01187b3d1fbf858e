//! When a site beats, and when its timer runs out.
ghost use Rattle.std.specs.Prelude.{◌≡◌, ◌-◌, ◌==◌, ◌/◌, ◌+◌, max, if◌then◌else◌};
ghost use Rattle.pvp_serve.specs.Patience.{
  after_tick,
  again_due,
  calm_with,
  change_with,
  counts,
  doubled,
  due,
  first_pause,
  fresh_patience,
  halved,
  has_asked,
  has_failed,
  has_led,
  heard_site,
  is_calm,
  is_left,
  is_new,
  is_out,
  left_with,
  limit_as,
  most_change,
  most_wait,
  primary_due,
  regarded,
  repeated,
  same_after,
  same_status,
  seen,
  spread,
  ticks_for,
  ticks_in,
  wait_with,
  waited,
  waiting_due,
};

use vr_types::Status;

/// For how many beats after its last change a primary reports its status.
const BEATS_AFTER: u32 = 6;

/// After how many ticks a recovering site asks again for the first time: each answer may be a whole log.
const RECOVERING_TICKS: u32 = 8;

/// How many ticks a primary whose stream has ended is given to be heard over another.
const TICKS_LEFT: u32 = 2;

/// The longest that a backup waits for a silent primary, before chance adds to it, in milliseconds.
const MOST_WAIT_MS: u32 = 2_000;

/// The longest that a site waits for the view that it changes to, before chance adds to it, in milliseconds.
const MOST_CHANGE_MS: u32 = 10_000;

/// How many rows of a log a busy machine sends, keeps and reads in a millisecond.
const ROWS_A_MS: u64 = 20;

/// What a site looks like at a tick.
#[derive(Clone, Copy, Debug)]
pub struct Look {
    pub status: Status,
    pub view: u32,
    /// The primary of its view, as an actor, and whether it is that itself.
    pub primary: u16,
    pub is_primary: bool,
    /// How many rows its log has, and how many of them it has executed.
    pub log: usize,
    pub done: usize,
    /// Whether rows wait for their acknowledgements, or orders for their nodes.
    pub owes: bool,
}

/// What a site does at a tick.
#[derive(Clone, Copy, Debug, PartialEq, Eq)]
pub enum Due {
    Nothing,
    /// It comes up again.
    Restart,
    Beat,
    /// It says that it serves its view, which is no event.
    Ping,
    /// It has not heard of its primary for too long, or its view did not become normal.
    Timer,
}

/// What a site knows of time. What it waits in change doubles with each view that does not become normal, and what it waits
/// for a silent primary where that one was alive; both halve for each such time in which a view stays normal.
#[derive(Debug, Drop)]
pub struct Patience {
    /// How many ticks it waits at the least, and how many milliseconds a tick is.
    least: u32,
    beat: u32,
    /// How many ticks it waits for a silent primary, and for the view that it changes to, before chance adds to it.
    wait: u32,
    change: u32,
    /// The number that was drawn last, from 0 to 255, and how many ticks it waits this time.
    drawn: u8,
    limit: u32,
    /// How many ticks went by since its primary was heard of.
    quiet: u32,
    /// For how many ticks its view has stayed normal since one of its waits was halved.
    calm: u32,
    /// Whether another site was heard since its timer ran out last.
    heard: bool,
    /// The primary of the view that it left last, until that was heard or a view has stayed normal.
    left: Option<u16>,
    /// How many ticks lie between two times that it says the same, and how many are left.
    pause: u32,
    rest: u32,
    /// How many ticks are left until it may ask for a state again.
    lag: u32,
    /// How it stood at the last tick.
    status: Status,
    view: u32,
    /// How many rows were executed at the last beat, and how many ticks since then had nothing new.
    done: usize,
    same: u32,
}

impl Patience {
    /// That of a site that waits so many ticks at the least, each of so many milliseconds.
    pub fn new(least: u32, beat: u32) -> Self
        ensures { result ≡ fresh_patience least beat }
    {
        Patience {
            least,
            beat,
            wait: least,
            change: least,
            drawn: 0,
            limit: least,
            quiet: 0,
            calm: 0,
            heard: true,
            left: None,
            pause: 0,
            rest: 0,
            lag: 0,
            status: Status::Down,
            view: 0,
            done: 0,
            same: 0,
        }
    }

    /// The primary of its view serves it.
    pub fn hears(&mut self)
        ensures { self.new ≡ record self.old { quiet = 0 } }
    {
        self.quiet = 0;
    }

    /// Another site is heard. Where it is the primary whose view was left, that one was alive.
    pub fn hears_site(&mut self, site: u16)
        ensures { self.new ≡ heard_site site self.old }
    {
        self.heard = true;
        if self.is_left(site) {
            self.wait = doubled(self.wait, self.most_wait());
            self.left = None;
        }
    }

    fn is_left(&self, site: u16) -> bool
        ensures { result ≡ is_left self.now site }
    {
        match self.left {
            Some(left) => left == site,
            None => false,
        }
    }

    /// A stream to another actor stands: what was said before did not go over it, so a primary says it again at the next
    /// tick, and so does any site to which the stream is one to another site.
    pub fn meets(&mut self, is_site: bool)
        ensures { self.new ≡ record self.old {
          same = 0;
          rest = if is_site then 0 else self.old.rest;
        } }
    {
        self.same = 0;
        if is_site {
            self.rest = 0;
        }
    }

    /// The stream of the primary has ended: it is given a little longer.
    pub fn misses(&mut self)
        ensures { self.new ≡ record self.old {
          quiet = max self.old.quiet
              (self.old.limit - TICKS_LEFT);
        } }
    {
        self.quiet = self.quiet.max(self.limit.saturating_sub(TICKS_LEFT));
    }

    /// How long it waits the next time, by a number drawn from 0 to 255.
    pub fn draws(&mut self, drawn: u8)
        ensures { self.new ≡ record self.old { drawn = drawn } }
    {
        self.drawn = drawn;
    }

    /// Whether it may ask for a state: the one that it asked for may have come by now.
    pub fn may_ask(&self) -> bool
        ensures { result ≡ (self.now.lag == 0) }
    {
        self.lag == 0
    }

    /// It asks for a state, behind a log of so many rows.
    pub fn asks(&mut self, rows: usize)
        ensures { self.new ≡ has_asked rows self.old }
    {
        self.lag = ticks_for(rows, self.beat);
    }

    /// A tick goes by at a site that looks so.
    pub fn tick(&mut self, look: Look) -> Due
        ensures due { result ≡ due self.old look }
        ensures after { self.new ≡ after_tick self.old look }
    {
        self.sees(look);
        match look.status {
            Status::Down => Due::Restart,
            Status::Normal if look.is_primary => self.leads(look),
            Status::Normal => self.waits(look, Due::Nothing),
            Status::Change => {
                let again = self.repeats();
                self.waits(look, again)
            }
            Status::Recovering => self.repeats(),
        }
    }

    /// Sees how the site stands.
    fn sees(&mut self, look: Look)
        ensures { self.new ≡ seen self.old look }
    {
        self.regards(look);
        self.limit = self.limit_in(look);
    }

    fn regards(&mut self, look: Look)
        ensures { self.new ≡ regarded self.old look }
    {
        let (is_new, is_calm, calm) = (self.is_new(look), self.is_calm(look), self.calm_with(look));
        let (wait, change) = (self.wait_with(look), self.change_with(look));
        self.wait = wait;
        self.change = change;
        self.calm = if is_calm { 0 } else { calm };
        if is_calm {
            self.left = None;
        }
        self.rest = self.rest.saturating_sub(1);
        self.lag = self.lag.saturating_sub(1);
        if is_new {
            self.quiet = 0;
            self.pause = self.first_pause(look);
            self.rest = self.pause;
        }
        self.status = look.status;
        self.view = look.view;
    }

    /// Whether it stands in another view than at the last tick, or otherwise in it.
    fn is_new(&self, look: Look) -> bool
        ensures { result ≡ is_new self.now look }
    {
        !(same_status(self.status, look.status) && look.view == self.view)
    }

    /// Whether the view that it changed to at the last tick did not become normal.
    fn has_failed(&self, look: Look) -> bool
        ensures { result ≡ has_failed self.now look }
    {
        matches!((self.status, look.status), (Status::Change, Status::Change))
            && look.view != self.view
    }

    /// For how many ticks its view has stayed normal.
    fn calm_with(&self, look: Look) -> u32
        ensures { result ≡ calm_with self.now look }
    {
        match look.status {
            Status::Normal if !self.is_new(look) => self.calm.saturating_add(1),
            _ => 0,
        }
    }

    /// Whether its view has stayed normal for as long as it waits at the least.
    fn is_calm(&self, look: Look) -> bool
        ensures { result ≡ is_calm self.now look }
    {
        matches!(look.status, Status::Normal) && self.wait.max(self.change) <= self.calm_with(look)
    }

    /// How long it waits for a silent primary from now on.
    fn wait_with(&self, look: Look) -> u32
        ensures { result ≡ wait_with self.now look }
    {
        if self.is_calm(look) {
            halved(self.wait, self.least)
        } else {
            self.wait
        }
    }

    /// How long it waits for the view that it changes to, from now on.
    fn change_with(&self, look: Look) -> u32
        ensures { result ≡ change_with self.now look }
    {
        if self.has_failed(look) {
            doubled(self.change, self.most_change())
        } else if self.is_calm(look) {
            halved(self.change, self.least)
        } else {
            self.change
        }
    }

    /// After how many ticks it says again for the first time what it said as it came to stand so.
    fn first_pause(&self, look: Look) -> u32
        ensures { result ≡ first_pause self.now look }
    {
        match look.status {
            Status::Recovering => RECOVERING_TICKS,
            _ => ticks_for(look.log, self.beat),
        }
    }

    /// How long it waits, where it stands so.
    fn limit_in(&self, look: Look) -> u32
        ensures { result ≡ limit_as look.status self.now look }
    {
        match look.status {
            Status::Normal => spread(self.wait, self.wait / 2 + 1, self.drawn),
            Status::Change => {
                let long = self.change.max(ticks_for(look.log, self.beat));
                spread(long, long, self.drawn)
            }
            _ => self.limit,
        }
    }

    fn most_wait(&self) -> u32
        ensures { result ≡ most_wait self.now }
    {
        self.least.max(ticks_in(MOST_WAIT_MS, self.beat))
    }

    fn most_change(&self) -> u32
        ensures { result ≡ most_change self.now }
    {
        self.least.max(ticks_in(MOST_CHANGE_MS, self.beat))
    }

    /// Whether it has waited for as long as it does, with the tick that comes.
    fn is_out(&self, look: Look) -> bool
        ensures { result ≡ is_out self.now look }
    {
        self.counts(look) && (self.limit == 0 || self.limit - 1 <= self.quiet)
    }

    /// Whether its ticks count: in change they do once another site was heard.
    fn counts(&self, look: Look) -> bool
        ensures { result ≡ counts self.now look }
    {
        !matches!(look.status, Status::Change) || self.heard
    }

    /// Its timer, where it has waited long enough, and else this.
    fn waits(&mut self, look: Look, otherwise: Due) -> Due
        ensures due { result ≡ waiting_due self.old look otherwise }
        ensures after { self.new ≡ waited self.old look }
    {
        if !self.is_out(look) {
            if self.counts(look) {
                self.quiet = self.quiet.saturating_add(1);
            }
            return otherwise;
        }
        self.quiet = 0;
        self.heard = false;
        if matches!(look.status, Status::Normal) {
            self.left = Some(look.primary);
        }
        Due::Timer
    }

    /// What it said is said again once its pause is over, and then after one twice as long.
    fn repeats(&mut self) -> Due
        ensures due { result ≡ again_due self.old }
        ensures after { self.new ≡ repeated self.old }
    {
        if self.rest != 0 {
            return Due::Nothing;
        }
        self.pause = doubled(self.pause, self.most_change());
        self.rest = self.pause;
        Due::Beat
    }

    /// A beat where it may have something to say, and else a ping.
    fn leads(&mut self, look: Look) -> Due
        ensures due { result ≡ primary_due self.old look }
        ensures after { self.new ≡ has_led self.old look }
    {
        if look.owes || look.done != self.done {
            self.done = look.done;
            self.same = 0;
        } else {
            self.same = self.same.saturating_add(1);
        }
        if self.same < BEATS_AFTER {
            Due::Beat
        } else {
            Due::Ping
        }
    }
}

/// Whether two statuses are the same.
fn same_status(one: Status, other: Status) -> bool
    ensures { result ≡ same_status one other }
{
    matches!(
        (one, other),
        (Status::Normal, Status::Normal)
            | (Status::Change, Status::Change)
            | (Status::Recovering, Status::Recovering)
            | (Status::Down, Status::Down)
    )
}

/// How many ticks so many milliseconds are.
fn ticks_in(ms: u32, beat: u32) -> u32
    ensures { result ≡ ticks_in ms beat }
{
    ms / beat.max(1)
}

/// How long a log of so many rows may take to be sent, kept and read, and a tick more.
fn ticks_for(rows: usize, beat: u32) -> u32
    ensures { result ≡ ticks_for rows beat }
{
    let ticks = rows as u64 / ROWS_A_MS / u64::from(beat.max(1)) + 1;
    ticks.min(u64::from(u32::MAX)) as u32
}

/// Twice as long, and no longer than this.
fn doubled(ticks: u32, most: u32) -> u32
    ensures { result ≡ doubled ticks most }
{
    ticks.saturating_add(ticks).min(most)
}

/// Half as long, and no shorter than this.
fn halved(ticks: u32, least: u32) -> u32
    ensures { result ≡ halved ticks least }
{
    (ticks / 2).max(least)
}

/// So long, and of so much more the part that a number drawn from 0 to 255 gives.
fn spread(ticks: u32, more: u32, drawn: u8) -> u32
    ensures { result ≡ spread ticks more drawn }
{
    let part = u64::from(more) * u64::from(drawn) / 256;
    ticks.saturating_add(part as u32)
}
