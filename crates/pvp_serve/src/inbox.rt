//! What comes to the loop of a process.

use crate::lanes::Lane;
use crate::telling::TurnedAway;
use crossbeam_channel::Sender;
use pvp_links::{Arrival, LinkEnd, LinkFault};
use pvp_window::Look;
use std::sync::Wait;

/// What the loop takes, one after another.
#[derive(Drop)]
pub enum Inbox {
    /// An envelope that came over a link, and up to which clock a client or a node was accepted
    /// then.
    Frame(Arrival, u64),
    /// This site serves its view; to a client or a node it says that the log is full.
    Ping(u16),
    /// A stream between this actor and another stands, and frames can be sent over it.
    Came(Lane),
    /// The stream of this number, of this actor, has ended.
    Gone {
        peer: u16,
        stream: u64,
        end: LinkEnd,
    },
    /// A stream that a stranger opened was turned away; `None` where there were too many.
    Away(Option<TurnedAway>),
    /// A site that was called time and again does not show itself, the last time for this reason.
    Unshown {
        peer: u16,
        why: LinkFault,
    },
    /// A beat of the clock.
    Tick,
    /// Somebody asks to see something of the actor. The loop answers once its batch is written.
    Look(Look),
    /// A line of the terminal.
    Line(Vec<u8>),
    /// The terminal has ended.
    End,
}

impl From<Look> for Inbox {
    fn from(look: Look) -> Inbox {
        Inbox::Look(look)
    }
}

/// Sends to a loop. `false` where it has ended or memory is refused: then the item is lost.
pub fn tell<T: Wait, M: Drop>(rt: &T, inbox: &Sender<M>, item: M) -> bool {
    inbox.send(rt, item).is_ok()
}
