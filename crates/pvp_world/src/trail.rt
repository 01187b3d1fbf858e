//! The trail of a world: what was done there, in little memory.
ghost use Rattle.std.specs.Prelude.{◌≡◌, ◌-◌, ◌<◌, ◌==◌, ◌++◌, ◌∷◌, [], length, slice_get, OnOk};

use headline::Move;
use pvp_types::Step;
use std::alloc::{AllocError, Global};
use std::marker::Model;

/// The moves that were made in a world, in their order. Most are deliveries, and a delivery takes a fifth of the
/// memory of any other move. In clauses it is the list of the moves, and the number of moves that there is still room
/// for.
#[derive(Drop)]
pub struct Trail {
    entries: Vec<TrailEntry>,
    /// The moves that are not deliveries, in their order.
    others: Vec<Move>,
}

/// A move as it is stored on a trail.
#[derive(Clone, Copy)]
enum TrailEntry {
    /// The delivery of the envelope of this number.
    Delivery(usize),
    /// The move at this place among the others.
    Other(usize),
}

impl Model for Trail {
    ghost use Rattle.std.specs.Prelude.{map};
    ghost use Rattle.std.specs.List.{AllByRecursion};
    ghost use Rattle.pvp_world.specs.Trail.{Moves, IsThere, move_of, room_in};

    ghost Value = { Moves };

    ghost view = { λ a. record {
      items = map (move_of a.others.items) a.entries.items;
      room = room_in a.entries a.others;
    } };

    ghost invariant = { λ a. AllByRecursion (IsThere a.others.items) a.entries.items };
}

impl Trail {
    ghost use Rattle.headline.specs.declared.step.Move.TheVariants.{Takes};
    ghost use Rattle.pvp_types.specs.declared.step.Step.TheVariants.{Deliver};

    /// A trail with no move. It takes no memory.
    pub fn new(alloc: Global) -> Self
        ensures { result.items ≡ [] }
    {
        Trail {
            entries: Vec::new(alloc),
            others: Vec::new(alloc),
        }
    }

    /// How many moves were made.
    pub fn len(&self) -> usize
        ensures { result ≡ length self.now.items }
    {
        self.entries.len()
    }

    /// Whether none was made.
    pub fn is_empty(&self) -> bool
        ensures { result ≡ (length self.now.items == 0) }
    {
        self.entries.is_empty()
    }

    /// The move at a place, counted from 0.
    pub fn get(&self, at: usize) -> Option<Move>
        ensures { result ≡ slice_get self.now.items at }
    {
        match *self.entries.get(at)? {
            TrailEntry::Delivery(number) => Some(Move::Takes(Step::Deliver(number))),
            TrailEntry::Other(place) => Some(self.others[place]),
        }
    }

    /// The last move.
    pub fn last(&self) -> Option<Move>
        ensures { result ≡ slice_get self.now.items (length self.now.items - 1) }
    {
        self.get(self.len().saturating_sub(1))
    }

    /// Makes room for one more move. `Err` where memory is refused.
    pub fn reserve(&mut self) -> Result<(), AllocError>
        ensures items { self.new.items ≡ self.old.items }
        ensures room { OnOk result (0 < self.new.room) }
    {
        self.entries.reserve(1)?;
        self.others.reserve(1)
    }

    /// Puts a move at the end, where there must be room.
    pub fn push(&mut self, made: Move)
        requires { 0 < self.old.room }
        ensures { self.new.items ≡ self.old.items ++ made ∷ [] }
    {
        match made {
            Move::Takes(Step::Deliver(number)) => self.push_delivery(number),
            other => self.push_other(other),
        }
    }

    /// Puts the delivery of the envelope of a number at the end.
    fn push_delivery(&mut self, number: usize)
        requires { 0 < self.old.room }
        ensures { self.new.items ≡ self.old.items ++ Takes (Deliver number) ∷ [] }
    {
        self.entries.push_reserved(TrailEntry::Delivery(number));
    }

    /// Puts a move that is not a delivery at the end.
    fn push_other(&mut self, made: Move)
        requires { 0 < self.old.room }
        ensures { self.new.items ≡ self.old.items ++ made ∷ [] }
    {
        let place = self.others.len();
        self.others.push_reserved(made);
        self.entries.push_reserved(TrailEntry::Other(place));
    }
}
