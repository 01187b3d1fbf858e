//! What is posted at an actor, and what comes of it.

use pvp_wire::Stamp;

/// An event that is posted at an actor. Where it delivers an envelope that was sent, the stamp says which.
#[derive(Drop)]
pub struct Input<E> {
    pub event: E,
    pub stamp: Option<Stamp>,
}

/// An event that an actor took, at which clock, and how it came out.
#[derive(Drop)]
pub struct Recorded<E, O> {
    pub event: E,
    pub stamp: Option<Stamp>,
    pub clock: u64,
    pub outcome: O,
}

/// What is reported of an event that was posted.
#[derive(Drop)]
pub enum Answer<O> {
    /// The actor took it at this clock, and it came out so.
    Done { clock: u64, outcome: O },
    /// A growth was refused; nothing was taken.
    NoMemory,
    /// There is no greater clock; nothing was taken.
    ClockSpent,
}

/// The outcome of an event, for answer, history and receipt.
#[derive(Drop)]
pub struct Copies<O> {
    /// For the answer.
    pub answered: O,
    /// For the history.
    pub recorded: O,
    /// For the receipt.
    pub receipted: O,
}
