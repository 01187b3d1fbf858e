//! What it is to be an actor.
ghost use Rattle.std.specs.Prelude.{◌≡◌, IfOk, OnErr};
ghost use Rattle.pvp_rooms.specs.Histories.{Takes};

use crate::message::Copies;
use std::alloc::{AllocError, Global};

/// Something that takes one event after another. Its state is known to clauses alone.
pub trait Actor: Drop {
    /// What it is opened over, besides what it was made from.
    type Opening: Copy;

    type Event: Drop;

    /// How an event comes out: what it sent, or why it was refused, or that the actor fell.
    type Outcome: Drop;

    /// What its states are.
    ghost State: { Type 0 };

    /// Holds of the states in which this actor opens.
    ghost opens: { Self → Self.Opening → Self.State → Type 0 };

    /// Whether the actor shows this state.
    ghost shows: { Self → Self.State → Type 0 };

    /// Whether an event can come out so in a state.
    ghost comes: { Self.State → Self.Event → Self.Outcome → Type 0 };

    /// The state after an event that came out so.
    ghost after: { Self.State → Self.Event → Self.Outcome → Self.State };

    /// Whether what the actor's reading calls show is of this state.
    ghost reads: { Self → Self.State → Type 0 };

    /// Whether an event that came out so may leave an actor that was as the first as the second: a
    /// fall and a lack of memory have their cause.
    ghost tells: { Self → Self → Self.Event → Self.Outcome → Type 0 };

    /// Whether the event brings something that a copy of it takes memory for.
    ghost brings: { Self.Event → Type 0 };

    /// Takes an event, and answers how it came out.
    fn take(&mut self, alloc: Global, event: Self::Event) -> Self::Outcome
        ensures step { (x : Self.State) → shows self.old x →
            Takes comes after x event result (shows self.new) }
        ensures opens { (opening : Self.Opening) (x : Self.State) → opens self.new opening x →
            opens self.old opening x }
        ensures told { tells self.old self.new event result };

    /// Takes an event, and answers three times how it came out. Where memory for the copies is refused, an actor that
    /// can fall does so; any other is as it was, and says so by `Err`.
    fn take_copied(
        &mut self,
        alloc: Global,
        event: Self::Event,
    ) -> Result<Copies<Self::Outcome>, AllocError>
        ensures step { IfOk result (λ copies. (x : Self.State) → shows self.old x →
            Takes comes after x event copies.answered (shows self.new)) }
        ensures opens { (opening : Self.Opening) (x : Self.State) → opens self.new opening x →
            opens self.old opening x }
        ensures recorded { IfOk result (λ copies. copies.recorded ≡ copies.answered) }
        ensures receipted { IfOk result (λ copies. copies.receipted ≡ copies.answered) }
        ensures err { OnErr result (self.new ≡ self.old) }
        ensures told { IfOk result (λ copies. tells self.old self.new event copies.answered) };

    /// A copy of the event. `Err` where memory is refused, which only what the event brings takes.
    fn copy_event(alloc: Global, event: &Self::Event) -> Result<Self::Event, AllocError>
        ensures copy { IfOk result (λ copy. copy ≡ event.now) }
        ensures brings { OnErr result (brings event.now) };
}
