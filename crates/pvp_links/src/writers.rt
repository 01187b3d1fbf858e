//! What actors send, on its way to the writers.

use crate::Outbox;
use crate::frame::{Frame, Order};
use crossbeam_channel::{SendError, Sender};
use pvp_book::Book;
use pvp_wire::{Stamp, Stamped};
use std::alloc::Global;
use std::sync::Wait;
use std::sync::atomic::{AtomicU64, Ordering};
use std::thread;
use vr_types::Envelope;

/// One actor's writer, as others reach it.
#[derive(Drop)]
pub(crate) struct Lane {
    pub(crate) actor: u16,
    pub(crate) to: Sender<Order>,
}

/// The writers of all actors, as others reach them. Nothing blocks on them: their channels have no bound.
#[derive(Drop)]
pub struct Writers {
    pub(crate) lanes: Vec<Lane>,
    /// How many frames they wrote.
    pub(crate) written: AtomicU64,
}

impl Writers {
    /// How many frames were written so far, each to its end, whether or not its receiver took it. One that is written may
    /// not be counted yet.
    pub fn written_count(&self) -> u64 {
        self.written.load(Ordering::SeqCst)
    }

    /// Counts a frame that was written to its end.
    pub(crate) fn count_written(&self) {
        self.written.fetch_add(1, Ordering::SeqCst);
    }

    /// Tells each writer to stop, again where memory for that is refused.
    pub(crate) fn stop<T: Wait>(&self, rt: &T) {
        for lane in self.lanes.as_slice() {
            stop_one(rt, &lane.to);
        }
    }

    fn lane(&self, actor: u16) -> Option<&Lane> {
        self.lanes
            .as_slice()
            .iter()
            .find(|lane| lane.actor == actor)
    }
}

/// The writers of all actors, as one worker reaches them.
#[derive(Drop)]
pub struct Outlet<'a> {
    pub writers: &'a Writers,
}

/// An envelope without a spelling, one for whose copy memory is refused, and one that the channel does not take are lost.
impl Outbox for Outlet<'_> {
    /// Nothing is known of what has come through.
    ghost got = { λ outlet all. Unit {0} };

    fn put<T: Wait>(
        &mut self,
        rt: &T,
        alloc: Global,
        actor: u16,
        clock: u64,
        sent: &[Envelope<Book>],
    ) {
        let Some(lane) = self.writers.lane(actor) else {
            return;
        };
        let mut index = 0u32;
        for envelope in sent {
            let stamp = Stamp {
                actor,
                clock,
                index,
            };
            send_one(rt, alloc, &lane.to, stamp, envelope);
            index = index.saturating_add(1);
        }
    }
}

/// Sends a copy of an envelope to a writer.
fn send_one<T: Wait>(
    rt: &T,
    alloc: Global,
    to: &Sender<Order>,
    stamp: Stamp,
    envelope: &Envelope<Book>,
) {
    let Ok(envelope) = envelope.copy(alloc) else {
        return;
    };
    if let Some(frame) = Frame::new(Stamped { stamp, envelope }) {
        let _lost = to.send(rt, Order::Send(frame));
    }
}

/// Tells a writer to stop, as often as memory for that is refused.
fn stop_one<T: Wait>(rt: &T, to: &Sender<Order>) {
    for _ in rt.forever() {
        match to.send(rt, Order::Stop) {
            Err(SendError::OutOfMemory(_)) => thread::yield_now(),
            Ok(()) | Err(SendError::Disconnected(_)) => break,
        }
    }
}
