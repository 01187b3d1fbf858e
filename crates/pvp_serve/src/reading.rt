//! How a start reports its progress in the journal that it reads.

use crate::heading::{Heading, Level};
use pvp_journal::Pace;
use pvp_types::Setup;
use std::alloc::AllocGlobal;
use std::io::Eprint;
use std::time::{Clock, Duration, Instant};

/// So often the clock is looked at.
const EVERY: usize = 1024;

/// Tells on standard error how far the reading of a journal has come, each second that it takes.
#[derive(Drop)]
pub struct Reading<'a, R> {
    rt: R,
    setup: &'a Setup,
    me: u16,
    megabytes: usize,
    told: Option<Instant>,
}

impl<'a, R: Clock + Eprint + AllocGlobal + Copy + Drop> Reading<'a, R> {
    /// That of a journal of so many bytes of an actor of a bank of this setup, which begins now.
    pub fn new(rt: R, setup: &'a Setup, me: u16, bytes: usize) -> Self {
        Reading {
            rt,
            setup,
            me,
            megabytes: bytes / 1_000_000,
            told: Instant::now(&rt).ok(),
        }
    }

    /// Whether a second went by since the last word, or since the start.
    fn is_due(&mut self) -> bool {
        let (Some(told), Ok(now)) = (self.told, Instant::now(&self.rt)) else {
            return false;
        };
        let is_due = now.duration_since(told) >= Duration::from_secs(1);
        if is_due {
            self.told = Some(now);
        }
        is_due
    }
}

impl<R: Clock + Eprint + AllocGlobal + Copy + Drop> Pace for Reading<'_, R> {
    fn passes(&mut self, taken: usize, all: usize) {
        if taken % EVERY == 0 && self.is_due() {
            let (rt, whole) = (self.rt, self.megabytes);
            let read = whole.saturating_mul(taken) / all.max(1);
            let head = Heading::new(&rt, rt.alloc(), self.setup, self.me, Level::Info);
            let _told = eprintln!(rt; "{head}reads its journal: {read} of {whole} MB");
        }
    }
}
