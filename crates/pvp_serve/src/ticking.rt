//! What comes to the loop from its own machine: beats of the clock, the time, and lines of the
//! terminal.

use crate::host::Wires;
use crate::inbox::{Inbox, tell};
use crossbeam_channel::Sender;
use std::io::BufRead;
use std::thread;
use std::time::{Clock, Duration, SystemTime, UNIX_EPOCH};

/// How far ahead of the time a client or a node may be, in microseconds: a day.
const AHEAD_US: u64 = 86_400_000_000;

/// Up to which clock frames of a client or a node are accepted now: the microseconds since 1970 by
/// the date of this machine, and a day more. An actor's clock counts its events, so no honest one
/// comes near it, however long it spoke alone.
pub fn latest_clock<R: Clock>(clock: &R) -> u64 {
    let Ok(now) = SystemTime::now(clock) else {
        return AHEAD_US;
    };
    match now.duration_since(UNIX_EPOCH) {
        Ok(since) => u64::try_from(since.as_micros())
            .unwrap_or(u64::MAX)
            .saturating_add(AHEAD_US),
        Err(_) => AHEAD_US,
    }
}

/// Puts a tick into the inbox every so many milliseconds. It ends with the process.
pub fn tick<R: Wires>(rt: R, every: u32, inbox: Sender<Inbox>) {
    for _ in rt.forever() {
        thread::sleep(&rt, Duration::from_millis(u64::from(every)));
        if !tell(&rt, &inbox, Inbox::Tick) {
            break;
        }
    }
}

/// Puts the lines of the terminal into the inbox, of any bytes, and then their end. A line ends with a line feed, and a
/// carriage return before it is no part of it.
pub fn read_lines<R: Wires, L: BufRead + Drop>(rt: R, terminal: L, inbox: Sender<Inbox>) {
    let alloc = rt.alloc();
    for line in terminal.split(alloc, b'\n') {
        let Ok(mut line) = line else {
            break;
        };
        if line.last() == Some(&b'\r') {
            line.pop();
        }
        if !tell(&rt, &inbox, Inbox::Line(line)) {
            return;
        }
    }
    let _told = tell(&rt, &inbox, Inbox::End);
}
