//! An actor with its clock and its history.
ghost use Rattle.std.specs.Prelude.{◌≡◌, ◌++◌, ◌∷◌, [], IfOk};
ghost use Rattle.pvp_rooms.specs.Rooms.{Told, clock_after, receipts_after};
ghost use Rattle.pvp_rooms.specs.Closing.{IsSeen};

use crate::actor::Actor;
use crate::message::{Answer, Input, Recorded};
use crate::sight::Sight;
use pvp_wire::Stamp;
use std::alloc::Global;
use std::marker::Model;

/// An actor, its clock, and the history of what it took since it was opened.
#[derive(Drop)]
pub struct Room<A: Actor> {
    opening: A::Opening,
    actor: A,
    clock: u64,
    history: Vec<Recorded<A::Event, A::Outcome>>,
}

impl<A: Actor> Model for Room<A> {
    ghost use Rattle.pvp_rooms.specs.Rooms.{ShownRoom, IsRoom};

    ghost Value = { ShownRoom A.Opening A A.Event A.Outcome };

    ghost view = { λ a. record {
      opening = a.opening;
      actor = a.actor;
      clock = a.clock;
      history = a.history.items;
    } };

    ghost invariant = { λ a. IsRoom A.Actor
        (record {
          opening = a.opening;
          actor = a.actor;
          clock = a.clock;
          history = a.history.items;
        }) };
}

impl<A: Actor> Room<A> {
    ghost use Rattle.pvp_rooms.specs.Rooms.{IsRoom};

    /// The room of an actor that opens over this, at clock 0 with an empty history. It takes no memory.
    pub fn new(alloc: Global, opening: A::Opening, actor: A) -> Self
        requires { (x : A.State) → A.opens actor opening x → A.shows actor x }
        ensures { result ≡ record { opening = opening; actor = actor; clock = 0; history = [] } }
    {
        Room {
            opening,
            actor,
            clock: 0,
            history: Vec::new(alloc),
        }
    }

    /// Takes an event: the clock becomes the greater of its own and the stamp's, plus 1; the actor handles the event;
    /// and event, stamp, clock and outcome go on the history. After `ClockSpent`, which is tested first, and `NoMemory`
    /// the room is as it was: room on the history and the copies of the input are made before the actor's step.
    pub fn step(&mut self, alloc: Global, input: Input<A::Event>) -> Answer<A::Outcome>
        ensures { Told A.Actor input self.old self.new result }
    {
        let mut receipts = Vec::new(alloc);
        self.step_with_receipt(alloc, input, &mut receipts)
    }

    /// Takes an event as `step` does, and of each that was taken puts a receipt at the end of these.
    pub fn step_with_receipt(
        &mut self,
        alloc: Global,
        input: Input<A::Event>,
        receipts: &mut Vec<Recorded<A::Event, A::Outcome>>,
    ) -> Answer<A::Outcome>
        ensures told { Told A.Actor input self.old self.new result }
        ensures receipts { receipts.new.items ≡ receipts_after input receipts.old.items result }
        ensures was { IsRoom A.Actor self.old }
        ensures sound { IsRoom A.Actor self.new }
    {
        let Some(clock) = next_clock(self.clock, input.stamp) else {
            return Answer::ClockSpent;
        };
        if self.history.reserve(1).is_err() || receipts.reserve(1).is_err() {
            return Answer::NoMemory;
        }
        let Ok(kept) = A::copy_event(alloc, &input.event) else {
            return Answer::NoMemory;
        };
        let Ok(noted) = A::copy_event(alloc, &input.event) else {
            return Answer::NoMemory;
        };
        let stamp = input.stamp;
        let Ok(copies) = self.actor.take_copied(alloc, input.event) else {
            return Answer::NoMemory;
        };
        self.clock = clock;
        self.history.push_reserved(Recorded {
            event: kept,
            stamp,
            clock,
            outcome: copies.recorded,
        });
        receipts.push_reserved(Recorded {
            event: noted,
            stamp,
            clock,
            outcome: copies.receipted,
        });
        Answer::Done {
            clock,
            outcome: copies.answered,
        }
    }

    /// Lends the actor to what looks at it.
    pub fn show<S: Sight<A>>(&self, sight: &mut S)
        ensures { IsSeen A.Actor S.sees sight.new }
    {
        sight.see(&self.actor);
    }

    /// Hands out the opening, the history and the actor.
    pub fn into_parts(self) -> (A::Opening, Vec<Recorded<A::Event, A::Outcome>>, A)
        ensures opening { result.0 ≡ self.opening }
        ensures history { result.1.items ≡ self.history }
        ensures actor { result.2 ≡ self.actor }
        ensures sound { IsRoom A.Actor self }
    {
        let Room {
            opening,
            actor,
            clock: _,
            history,
        } = self;
        (opening, history, actor)
    }
}

/// The clock after an event with this stamp: the greater of its own and the stamp's, plus 1; `None` where that is no clock.
pub fn next_clock(own: u64, stamp: Option<Stamp>) -> Option<u64>
    ensures { result ≡ clock_after own stamp }
{
    let other = stamp.map_or(0, |stamp| stamp.clock);
    own.max(other).checked_add(1)
}
