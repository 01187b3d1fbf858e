//! Seats, from which events are posted, with their receipts.
ghost use Rattle.std.specs.Prelude.{◌≡◌, []};

use crate::message::Recorded;
use std::alloc::Global;
use std::marker::Model;

/// A place from which events are posted at one actor, with a receipt of each that was taken, in order.
#[derive(Drop)]
pub struct Seat<E, O> {
    actor: u16,
    number: u16,
    pub(crate) receipts: Vec<Recorded<E, O>>,
}

impl<E, O> Model for Seat<E, O> {
    ghost use Rattle.pvp_rooms.specs.Seats.{Held};

    ghost Value = { Held E O };

    ghost view = { λ a. record {
      actor = a.actor;
      number = a.number;
      receipts = a.receipts.items;
    } };
}

impl<E, O> Seat<E, O> {
    /// A seat of this number at an actor, with no receipts. It takes no memory.
    pub(crate) fn new(alloc: Global, actor: u16, number: u16) -> Self
        ensures { result ≡ record { actor = actor; number = number; receipts = [] } }
    {
        Seat {
            actor,
            number,
            receipts: Vec::new(alloc),
        }
    }

    /// A seat of this number at an actor that holds these receipts, as they stand in what the actor left.
    pub fn with_receipts(actor: u16, number: u16, receipts: Vec<Recorded<E, O>>) -> Self
        ensures { result ≡ record { actor = actor; number = number; receipts = receipts.items } }
    {
        Seat {
            actor,
            number,
            receipts,
        }
    }

    /// The number of the actor.
    pub fn actor(&self) -> u16
        ensures { result ≡ self.now.actor }
    {
        self.actor
    }

    /// The seat's number among those of its actor, counted from 0.
    pub fn number(&self) -> u16
        ensures { result ≡ self.now.number }
    {
        self.number
    }

    /// What was taken of what was posted from here, in order.
    pub fn receipts(&self) -> &[Recorded<E, O>]
        ensures { result.now ≡ self.now.receipts }
    {
        self.receipts.as_slice()
    }
}
