//! An actor behind its lock, and what it leaves when it is closed.
ghost use Rattle.std.specs.Prelude.{◌≡◌, ◌≢◌, ◌≤◌, ◌⊎◌, length, IfOk, IfErr, IsPermutation, true, false};
ghost use Rattle.std.specs.List.Sorted.{IsNonDecreasingBy};
ghost use Rattle.pvp_rooms.specs.Seats.{AnswersStep};
ghost use Rattle.pvp_rooms.specs.Rooms.{receipts_after};
ghost use Rattle.pvp_rooms.specs.Gates.{Hears, passage};
ghost use Rattle.pvp_rooms.specs.Closing.{IsClosed, IsSeen, are_complete, fresh_seats};

use crate::actor::Actor;
use crate::gate::Gate;
use crate::message::{Answer, Input, Recorded};
use crate::room::Room;
use crate::seat::Seat;
use crate::sight::Sight;
use std::alloc::{AllocError, Global};
use std::marker::Model;
use std::sync::{Mutex, Wait};

/// An actor behind a lock of its own, which it shares with no other. That the actor is the replay
/// of its history is so whenever the lock is acquired.
#[derive(Drop)]
pub struct ActorCell<A: Actor> {
    number: u16,
    /// How many seats it has.
    seats: u16,
    room: Mutex<Room<A>>,
}

impl<A: Actor> Model for ActorCell<A> {
    ghost use Rattle.pvp_rooms.specs.Seats.{Place};

    ghost Value = { Place };

    ghost view = { λ a. record { number = a.number; seats = a.seats } };
}

/// What an actor left.
#[derive(Drop)]
pub struct Closed<A: Actor> {
    pub number: u16,
    /// What it was opened over.
    pub opening: A::Opening,
    /// All that it took.
    pub history: Vec<Recorded<A::Event, A::Outcome>>,
    /// In order of their numbers.
    pub seats: Vec<Seat<A::Event, A::Outcome>>,
    pub end: A,
}

/// E1: a seat is missing, stands twice or is another actor's. The cell and the seats are handed back.
#[derive(Drop)]
pub struct CloseFault<A: Actor> {
    pub cell: ActorCell<A>,
    pub seats: Vec<Seat<A::Event, A::Outcome>>,
}

impl<A: Actor> ActorCell<A> {
    /// A cell of this number for an actor that opens over this, and its seats, in order of their numbers. `Err` where
    /// memory is refused.
    pub fn around(
        alloc: Global,
        number: u16,
        opening: A::Opening,
        actor: A,
        seats: u16,
    ) -> Result<(Self, Vec<Seat<A::Event, A::Outcome>>), AllocError>
        requires { (x : A.State) → A.opens actor opening x → A.shows actor x }
        ensures place { IfOk result (λ made. made.0 ≡ record { number = number; seats = seats }) }
        ensures seats { IfOk result (λ made. made.1.items ≡ fresh_seats seats number) }
    {
        let mut all = Vec::with_capacity(alloc, usize::from(seats))?;
        for seat in 0..seats {
            all.push(Seat::new(alloc, number, seat))?;
        }
        let cell = ActorCell {
            number,
            seats,
            room: Mutex::new(Room::new(alloc, opening, actor)),
        };
        Ok((cell, all))
    }

    /// The number of its actor.
    pub fn number(&self) -> u16
        ensures { result ≡ self.now.number }
    {
        self.number
    }

    /// Posts an event from a seat: once the lock is acquired the gate is entered, the room steps,
    /// and the gate is left. The seat gets a receipt of what was taken; after any other answer its
    /// receipts are as they were.
    pub fn post<R: Wait, G: Gate>(
        &self,
        rt: &R,
        alloc: Global,
        seat: &mut Seat<A::Event, A::Outcome>,
        input: Input<A::Event>,
        gate: &mut G,
    ) -> Answer<A::Outcome>
        ensures receipts { seat.new
            ≡ record seat.old { receipts = receipts_after input seat.old.receipts result } }
        ensures step { AnswersStep A.Actor input result }
        ensures passed { Hears G.heard gate.old gate.new (passage self.now.number result) }
    {
        let mut room = self.room.lock(rt);
        gate.enter(self.number, &*room);
        let answer = room.step_with_receipt(alloc, input, &mut seat.receipts);
        gate.leave(self.number, &*room, &answer);
        answer
    }

    /// Looks at the actor, once the lock is acquired: as a history of its own leaves it, and as it
    /// stays. It takes no memory.
    pub fn look<R: Wait, S: Sight<A>>(&self, rt: &R, sight: &mut S)
        ensures { IsSeen A.Actor S.sees sight.new }
    {
        let room = self.room.lock(rt);
        room.show(sight);
    }

    /// Hands out what the actor left, where these are all its seats, each once; else E1, with cell and seats handed
    /// back. It takes no memory.
    pub fn close(self, seats: Vec<Seat<A::Event, A::Outcome>>) -> Result<Closed<A>, CloseFault<A>>
        ensures number { IfOk result (λ closed. closed.number ≡ self.number) }
        ensures seats { IfOk result (λ closed. IsPermutation seats.items closed.seats.items) }
        ensures all { IfOk result (λ closed. length closed.seats.items ≡ self.seats) }
        ensures each { IfOk result (λ closed. are_complete closed.seats.items self.number 0
            ≡ true) }
        ensures room { IfOk result (λ closed.
            IsClosed A.Actor closed.opening closed.history.items closed.end) }
        ensures cell { IfErr result (λ fault. fault.cell ≡ self) }
        ensures back { IfErr result (λ fault. IsPermutation seats.items fault.seats.items) }
        // In order of their numbers, the seats are too few, too many, or not each of this actor once.
        ensures in_order { IfErr result (λ fault.
            IsNonDecreasingBy (λ seat. seat.number) fault.seats.items) }
        ensures wanting { IfErr result (λ fault. (length fault.seats.items ≢ self.seats)
            ⊎ (are_complete fault.seats.items self.number 0 ≡ false)) }
    {
        let mut seats = seats;
        seats.sort_unstable_by_key(|seat| seat.number());
        if seats.len() != usize::from(self.seats) || !are_complete(seats.as_slice(), self.number) {
            return Err(CloseFault { cell: self, seats });
        }
        let ActorCell {
            number,
            seats: _,
            room,
        } = self;
        let (opening, history, end) = room.into_inner().into_parts();
        Ok(Closed {
            number,
            opening,
            history,
            seats,
            end,
        })
    }
}

/// Whether these are all seats of this actor, numbered from 0, in order.
fn are_complete<E, O>(seats: &[Seat<E, O>], actor: u16) -> bool
    requires { length seats.now ≤ 65535 }
    ensures { result ≡ are_complete seats.now actor 0 }
{
    let mut next = 0u16;
    for seat in seats {
        if seat.actor() != actor || seat.number() != next {
            return false;
        }
        next += 1;
    }
    true
}
