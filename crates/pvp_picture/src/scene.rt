//! What happened in a run, as data: a picture is drawn from it alone.

ghost use Rattle.std.specs.Prelude.{◌≡◌};
ghost use Rattle.pvp_picture.specs.Scene.{is_wrong};

use pvp_world::WorldFault;
use vr_types::{Status, Why};

/// How a site stands after a step, as far as it is drawn.
#[derive(Clone, Copy, Debug, PartialEq, Eq)]
pub struct Snapshot {
    pub status: Status,
    pub view: u32,
    /// Whether it is the primary of its view, and normal in it.
    pub leads: bool,
    /// How many rows it has executed.
    pub done: usize,
    /// What its boot cell holds.
    pub boots: u32,
}

/// What came of a step.
#[derive(Clone, Copy, Debug, PartialEq, Eq)]
pub enum Ending {
    Taken,
    /// A site dropped the event.
    Dropped(Why),
    /// The step was refused, or the site fell.
    Refused(WorldFault),
}

impl Ending {
    /// Whether something went wrong: what a site drops is as the protocol has it, unless its log is full.
    pub fn is_wrong(self) -> bool
        ensures { result ≡ is_wrong self }
    {
        match self {
            Ending::Taken => false,
            Ending::Dropped(why) => why == Why::Full,
            Ending::Refused(_) => true,
        }
    }
}

/// An actor that has a lifeline.
#[derive(Debug, Drop)]
pub struct Actor {
    pub number: u16,
    pub name: String,
    /// Its number among the sites, where it is one.
    pub site: Option<usize>,
}

/// A step that is shown.
#[derive(Debug, Drop)]
pub struct ShownStep {
    /// Its number among all that were tried, from 1.
    pub number: usize,
    /// Whose turn it was, where there was one.
    pub actor: Option<u16>,
    /// What it was, in few words and in all.
    pub short: String,
    pub words: String,
    pub ending: Ending,
    /// Whether it is a crash.
    pub crashes: bool,
    /// The number of the envelope that it delivers, where it does.
    pub delivers: Option<usize>,
    /// Who sent that envelope, where there is one.
    pub sender: Option<u16>,
    /// Whether it delivers an envelope of an actor whose lifeline stands below.
    pub from_below: bool,
    /// The rows that it executed and no step before it, in words, each with what it came to.
    pub rows: Vec<String>,
    /// What it sent to actors that are to be shown, each kind once.
    pub sendings: Vec<Sending>,
    /// Where each site stands after it.
    pub snapshots: Vec<Snapshot>,
}

/// Envelopes of one kind that a step sent.
#[derive(Debug, Drop)]
pub struct Sending {
    /// Whether the first of them goes to an actor whose lifeline stands above.
    pub upwards: bool,
    /// Their kind; of orders all that they say.
    pub words: String,
}

/// A stretch of a run in which an actor is cut off.
#[derive(Clone, Copy, Debug, PartialEq, Eq)]
pub struct Cut {
    pub actor: u16,
    /// How many steps were tried before it began.
    pub after: usize,
    /// How many before it ended; `None` where it did not.
    pub until: Option<usize>,
}

impl Cut {
    /// Whether it is of this actor and has not ended.
    pub fn is_open(&self, actor: u16) -> bool {
        self.actor == actor && self.until.is_none()
    }
}

/// Why a play passed over an envelope.
#[derive(Clone, Copy, Debug, PartialEq, Eq)]
pub enum Passed {
    /// A line skipped it.
    Skipped,
    /// A cut held it up when all before it had been gone through.
    HeldBack,
}

/// An envelope on one of its ways.
#[derive(Debug, Drop)]
pub struct Flight {
    /// Its number.
    pub number: usize,
    pub from: u16,
    pub to: u16,
    /// The number of the step that sent it.
    pub sent: usize,
    /// The number of the step that delivered it; `None` where none ever did.
    pub came: Option<usize>,
    /// What came of that step.
    pub ending: Ending,
    /// Why the play passed over it, where it did.
    pub passed: Option<Passed>,
    /// How many envelopes of the same step stand as stubs before it.
    pub rank: usize,
    /// The whole message, and between whom.
    pub words: String,
}

impl Flight {
    /// Whether the play passed over it, and no step ever delivered it.
    pub fn is_lost(&self) -> bool {
        self.came.is_none() && self.passed.is_some()
    }
}

/// A run, or some steps of it.
#[derive(Debug, Drop)]
pub struct Scene {
    /// Clients and nodes that took part, then the sites, but for those that are not to be shown.
    pub actors: Vec<Actor>,
    /// Where each site stands before the first step that is shown.
    pub opening: Vec<Snapshot>,
    pub steps: Vec<ShownStep>,
    pub flights: Vec<Flight>,
    pub cuts: Vec<Cut>,
    /// How many steps were tried before those that are shown, and how many after.
    pub earlier: usize,
    pub later: usize,
}
