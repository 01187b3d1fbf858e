//! What an actor needs so that its history can be replayed and its envelopes found.
ghost use Rattle.std.specs.Prelude.{◌≡◌, Option, List, Bool, IfOk, IsTrue, ◌↔◌};
ghost use Rattle.pvp_rooms.specs.Runs.{Follows, Sends, is_some};

use crate::Actor;
use std::alloc::{AllocError, Global};

/// An actor whose history can be replayed, by `follow`, and whose outcomes say what they sent.
pub trait Audited: Actor {
    /// What is sent and delivered.
    ghost Letter: { Type 0 };

    /// What an event delivers.
    ghost delivers: { Self.Event → Option Self.Letter };

    /// What an outcome sent.
    ghost sent: { Self.Outcome → List Self.Letter };

    /// Whether what an event delivers may come to this actor.
    ghost is_for: { Self → Self.Event → Bool };

    /// Takes an event that came out so, and says whether it can. After `Err` or a no it may only be dropped.
    fn follow(
        &mut self,
        alloc: Global,
        event: &Self::Event,
        outcome: &Self::Outcome,
    ) -> Result<bool, AllocError>
        ensures step { IfOk result (λ r. (x : Self.State) → Self.shows self.old x →
            Follows Self.comes Self.after x event.now outcome.now (Self.shows self.new) r) }
        ensures opens { (opening : Self.Opening) (x : Self.State) → Self.opens self.new opening x →
            Self.opens self.old opening x };

    fn same_event(a: &Self::Event, b: &Self::Event) -> bool
        ensures { IsTrue result ↔ (a.now ≡ b.now) };

    fn same_outcome(a: &Self::Outcome, b: &Self::Outcome) -> bool
        ensures { IsTrue result ↔ (a.now ≡ b.now) };

    /// Whether an event delivers something.
    fn is_delivery(event: &Self::Event) -> bool
        ensures { result ≡ is_some (delivers event.now) };

    fn is_for(&self, event: &Self::Event) -> bool
        ensures { result ≡ is_for self.now event.now };

    /// Whether an event delivers what an outcome sent at this place.
    fn is_sent(event: &Self::Event, outcome: &Self::Outcome, at: usize) -> bool
        ensures { IsTrue result ↔ Sends delivers sent event.now outcome.now at };
}
