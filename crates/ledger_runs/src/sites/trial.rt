//! A site under test, and what it shows.

ghost use Rattle.std.specs.Prelude.{◌≤◌};

use crate::sites::events::Comes;
use fixtures::{Said, Tally, said_by};
use std::alloc::{AllocError, Global};
use std::process::Abort;
use std::test::Fail;
use vr_site::Replica;
use vr_types::{Config, MemCell, Outcome, SiteFault, Status, Why};

/// What the reading calls show of a site of three.
#[derive(Clone, Copy, Debug, PartialEq, Eq)]
struct SiteReading {
    status: Status,
    view: u32,
    rows: usize,
    done: usize,
    known: [u32; 3],
    boots: u32,
    /// The sum, where there is a machine.
    total: Option<u64>,
}

/// What a site of three is to show.
#[derive(Clone, Copy)]
pub enum Shows {
    /// It is normal: the view, how many rows there are, how many of them are executed. It knows of no boots.
    Normal(u32, usize, usize),
    /// The same, where it knows these boots, over a cell that counts so many restarts.
    NormalKnows(u32, usize, usize, [u32; 3], u32),
    /// It is in change: the view, how many rows there are, how many of them are executed. It knows of no boots.
    Change(u32, usize, usize),
    /// The same, where it knows these boots.
    ChangeKnows(u32, usize, usize, [u32; 3]),
    /// It recovers, and has lost all but its cell, which counts so many restarts; it knows these boots.
    Recovering([u32; 3], u32),
    /// It is down, and has lost all but its cell, which counts so many restarts.
    Down(u32),
}

impl Shows {
    /// What the reading calls are to show.
    fn shown(self) -> SiteReading {
        match self {
            Shows::Normal(view, rows, done) => running(Status::Normal, view, rows, done),
            Shows::NormalKnows(view, rows, done, known, boots) => SiteReading {
                known,
                boots,
                ..running(Status::Normal, view, rows, done)
            },
            Shows::Change(view, rows, done) => running(Status::Change, view, rows, done),
            Shows::ChangeKnows(view, rows, done, known) => SiteReading {
                known,
                ..running(Status::Change, view, rows, done)
            },
            Shows::Recovering(known, boots) => lost(Status::Recovering, known, boots),
            Shows::Down(boots) => lost(Status::Down, [0, 0, 0], boots),
        }
    }
}

/// A site that runs in a view, with this many rows, of which so many are executed: each of them adds 3 to a sum that
/// starts at 7. It knows of no boots.
fn running(status: Status, view: u32, rows: usize, done: usize) -> SiteReading {
    SiteReading {
        status,
        view,
        rows,
        done,
        known: [0, 0, 0],
        boots: 0,
        total: Some(7u64.saturating_add((done as u64).saturating_mul(3))),
    }
}

/// A site that recovers or is down, which has lost all but its cell.
fn lost(status: Status, known: [u32; 3], boots: u32) -> SiteReading {
    SiteReading {
        status,
        view: 0,
        rows: 0,
        done: 0,
        known,
        boots,
        total: None,
    }
}

/// What is sent, and the actor that it goes to.
pub type Sent = (u16, Said<u64>);

/// What a site is given or asked, and what is to come of it.
#[derive(Clone, Copy)]
pub enum Step {
    /// The event leads to whatever it does.
    Takes(Comes),
    /// The event is handled, sends just this, and leaves this site.
    Leads(Comes, &'static [Sent], Shows),
    /// The event is dropped for this reason, and the site shows what it did.
    Drops(Comes, Why),
    /// The event is refused with this fault, and the site shows what it did.
    Refuses(Comes, SiteFault),
    /// The site falls by the event with this fault, over a cell that then counts so many restarts.
    Falls(Comes, SiteFault, u32),
    /// The event is handled, or the site falls by it for lack of memory; its cell then counts so
    /// many restarts, or as many as before.
    Stands(Comes, u32),
    /// The site shows this.
    Is(Shows),
    /// The request in a row, counted from 1, has this number.
    HasNumber(usize, Option<u32>),
}

/// A new site of three goes these steps.
pub fn run<R: Abort + AllocGlobal>(rt: &R, me: u16, steps: &[Step]) -> Result<(), Fail>
    requires { me ≤ 2 }
{
    run_over(rt, me, MemCell::new(), steps)
}

/// A site of three over this cell goes these steps.
pub fn run_over<R: Abort + AllocGlobal>(
    rt: &R,
    me: u16,
    cell: MemCell,
    steps: &[Step],
) -> Result<(), Fail>
    requires { me ≤ 2 }
{
    Trial::over(rt.alloc(), me, cell)?.go(rt, steps);
    Ok(())
}

/// A site of three, whose sum starts at 7.
#[derive(Drop)]
struct Trial {
    alloc: Global,
    site: Replica<Tally, MemCell>,
}

impl Trial {
    /// Over this cell.
    fn over(alloc: Global, me: u16, cell: MemCell) -> Result<Self, AllocError>
        requires { me ≤ 2 }
    {
        Ok(Trial {
            alloc,
            site: Replica::new(alloc, Config { f: 1, me }, 7, cell)?,
        })
    }

    /// Goes steps in turn, each of which is as it says and leaves what is to be shown.
    fn go(&mut self, rt: &impl Abort, steps: &[Step]) {
        for (at, step) in steps.iter().enumerate() {
            let (is_right, shown) = self.goes(*step);
            assert!(rt; (is_right, self.shown()) == (true, shown), "step {at}");
        }
    }

    /// Goes a step: whether it is as it says, and what the site is to show after it.
    fn goes(&mut self, step: Step) -> (bool, SiteReading) {
        let before = self.shown();
        match step {
            Step::Takes(event) => (self.takes(event), self.shown()),
            Step::Leads(event, sent, shows) => (self.leads(event, sent), shows.shown()),
            Step::Drops(event, why) => (self.drops(event, why), before),
            Step::Refuses(event, fault) => (self.refuses(event, fault), before),
            Step::Falls(event, fault, boots) => {
                (self.fails(event, fault), Shows::Down(boots).shown())
            }
            Step::Stands(event, boots) => (self.stands(event, boots), self.shown()),
            Step::Is(shows) => (true, shows.shown()),
            Step::HasNumber(place, number) => (self.number(place) == number, before),
        }
    }

    /// What the reading calls show.
    fn shown(&self) -> SiteReading {
        SiteReading {
            status: self.site.status(),
            view: self.site.view(),
            rows: self.site.log_len(),
            done: self.site.done(),
            known: [self.site.known(0), self.site.known(1), self.site.known(2)],
            boots: self.site.boot().boots,
            total: self.site.machine().map(|machine| machine.total()),
        }
    }

    /// The number of the request in a row, counted from 1.
    fn number(&self, place: usize) -> Option<u32> {
        self.site.row(place).map(|row| row.number)
    }

    /// What comes of an event; `None` where memory for it was refused.
    fn given(&mut self, comes: Comes) -> Option<Result<Outcome<Tally>, SiteFault>> {
        let event = comes.given(self.alloc).ok()?;
        Some(self.site.handle(self.alloc, event))
    }

    /// Whether the event is handled, or its fault.
    fn ended(&mut self, event: Comes) -> Option<Result<(), SiteFault>> {
        match self.given(event)? {
            Ok(_) => Some(Ok(())),
            Err(fault) => Some(Err(fault)),
        }
    }

    /// Takes an event: it is right whatever it leads to.
    fn takes(&mut self, event: Comes) -> bool {
        let _ = self.given(event);
        true
    }

    /// Whether the event is handled and sends just this.
    fn leads(&mut self, event: Comes, sent: &[Sent]) -> bool {
        match self.given(event) {
            Some(Ok(out)) => says(&out, sent),
            _ => false,
        }
    }

    /// Whether the event is dropped for this reason.
    fn drops(&mut self, event: Comes, why: Why) -> bool {
        match self.given(event) {
            Some(Ok(out)) => is_dropped(&out, why),
            _ => false,
        }
    }

    /// Whether the event ends with this fault.
    fn fails(&mut self, event: Comes, fault: SiteFault) -> bool {
        self.ended(event) == Some(Err(fault))
    }

    /// Whether the site says that it refuses the event with this fault, and then does.
    fn refuses(&mut self, event: Comes, fault: SiteFault) -> bool {
        self.says_why(event) == Some(fault) && self.fails(event, fault)
    }

    /// Why the site says that it refuses an event, where it does.
    fn says_why(&self, event: Comes) -> Option<SiteFault> {
        let event = event.given(self.alloc).ok()?;
        self.site.refuses(&event)
    }

    /// Whether the event is handled over a cell that then counts so many restarts, or the site is
    /// down for lack of memory.
    fn stands(&mut self, event: Comes, boots: u32) -> bool {
        let before = self.site.boot().boots;
        if self.site.status() == Status::Down && before == boots {
            return true;
        }
        match self.ended(event) {
            Some(Ok(())) => self.site.boot().boots == boots,
            Some(Err(SiteFault::NoMemory)) => {
                let kept = self.site.boot().boots;
                (kept == before || kept == boots) && self.site.status() == Status::Down
            }
            Some(Err(_)) => false,
            None => true,
        }
    }
}

/// Whether just this is sent.
fn says(out: &Outcome<Tally>, sent: &[Sent]) -> bool {
    out.dropped.is_none()
        && out.sent.len() == sent.len()
        && out.sent.iter().zip(sent).all(|(envelope, wanted)| (envelope.to, said_by(&envelope.msg))
            == *wanted)
}

fn is_dropped(out: &Outcome<Tally>, why: Why) -> bool {
    out.dropped == Some(why) && out.sent.is_empty()
}
