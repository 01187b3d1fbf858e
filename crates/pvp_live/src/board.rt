//! How many frames go over the streams of a run, counted while it runs.
ghost use Rattle.std.specs.Prelude.{◌≤◌};

use pvp_links::Writers;
use pvp_rooms::{Actor, Answer, Gate, Room};
use std::sync::atomic::{AtomicU64, Ordering};

/// Where the frames of a run are counted. Nobody waits for who reads it.
#[derive(Drop)]
pub struct Board<'a> {
    /// They count what they write.
    writers: &'a Writers,
    came: AtomicU64,
}

/// How many frames went over the streams so far.
#[derive(Clone, Copy, Debug, PartialEq, Eq)]
pub struct Frames {
    /// Those that were written to their ends.
    pub sent: u64,
    /// Those that were posted at their actors.
    pub came: u64,
}

impl<'a> Board<'a> {
    /// The board of these writers, on which nothing came yet. It takes no memory.
    pub fn new(writers: &'a Writers) -> Self {
        Board {
            writers,
            came: AtomicU64::new(0),
        }
    }

    /// The frames so far. One that came was written, also where that is not counted yet.
    pub fn frames(&self) -> Frames
        ensures { result.came ≤ result.sent }
    {
        let came = self.came.load(Ordering::SeqCst);
        let sent = self.writers.written_count();
        Frames {
            sent: sent.max(came),
            came,
        }
    }
}

/// The gate of one worker: it counts on the board what the worker posts.
#[derive(Drop)]
pub struct Counter<'a> {
    board: &'a Board<'a>,
}

impl<'a> Counter<'a> {
    /// A gate that counts on this board.
    pub fn new(board: &'a Board<'a>) -> Self {
        Counter { board }
    }
}

impl Gate for Counter<'_> {
    /// What it counts stands with what others count, so of its own share nothing is known.
    ghost heard = { λ counter all. Unit {0} };

    fn enter<A: Actor>(&mut self, _actor: u16, _room: &Room<A>) {}

    fn leave<A: Actor>(&mut self, _actor: u16, _room: &Room<A>, _answer: &Answer<A::Outcome>) {
        self.board.came.fetch_add(1, Ordering::SeqCst);
    }
}
