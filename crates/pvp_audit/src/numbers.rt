//! Which number on the post an envelope has that a stamp names.
ghost use Rattle.std.specs.Prelude.{◌≡◌, ℕ, [], ◌∷◌, ◌++◌, IfOk, OnOk, OnErr, IfSome, IfNone, replicate, slice_set};
ghost use Rattle.pvp_rooms.specs.Runs.{AreInOrder};
ghost use Rattle.pvp_rooms.specs.Verdicts.{ClocksRise};
ghost use Rattle.pvp_audit.specs.Numbered.{noted_of, IsEventOf, IsNumber, NamesNone, IsFound};

use pvp_rooms::sent::{place_at, place_of};
use pvp_rooms::{Audited, Closed};
use pvp_wire::Stamp;
use std::alloc::{AllocError, Global};
use std::marker::Model;

/// Of each actor and each event that the world took, the number of the first envelope that it sent.
#[derive(Drop)]
pub struct Numbers {
    firsts: Vec<Vec<usize>>,
}

impl Model for Numbers {
    ghost use Rattle.std.specs.Prelude.{ℕ, List, map};

    ghost Value = { List (List ℕ) };

    ghost view = { λ numbers. map (λ events. events.items) numbers.firsts.items };
}

impl Numbers {
    /// Of so many actors, before any event. `Err` where memory is refused.
    pub fn new(alloc: Global, actors: usize) -> Result<Self, AllocError>
        ensures { IfOk result (λ numbers. numbers ≡ replicate actors []) }
    {
        let mut firsts = Vec::with_capacity(alloc, actors)?;
        for _ in 0..actors {
            firsts.push(Vec::new(alloc))?;
        }
        Ok(Numbers { firsts })
    }

    /// What the next event of the actor at a place sends is numbered from here. `Err` where memory is refused; the
    /// numbers are then as they were.
    pub fn note(&mut self, place: usize, first: usize) -> Result<(), AllocError>
        ensures ok { OnOk result (self.new ≡ slice_set self.old place
            (noted_of self.old place ++ first ∷ [])) }
        ensures err { OnErr result (self.new ≡ self.old) }
    {
        if let Some(events) = self.firsts.get_mut(place) {
            events.push(first)?;
        }
        Ok(())
    }

    /// The number of the envelope that a stamp names, as far as events were noted; 0 where it names none.
    pub fn find<A: Audited>(&self, closed: &[Closed<A>], stamp: Option<Stamp>) -> usize
        requires order { AreInOrder closed.now }
        requires clocks { ClocksRise closed.now }
        ensures { IsFound closed.now self.now stamp result }
    {
        match stamp {
            None => 0,
            Some(stamp) => self.number_by_stamp(closed, stamp).unwrap_or(0),
        }
    }

    /// The number of the envelope that a stamp names.
    fn number_by_stamp<A: Audited>(&self, closed: &[Closed<A>], stamp: Stamp) -> Option<usize>
        requires order { AreInOrder closed.now }
        requires clocks { ClocksRise closed.now }
        ensures some { IfSome result (IsNumber closed.now self.now stamp) }
        ensures none { IfNone result (NamesNone closed.now self.now stamp) }
    {
        let (place, event) = event_of(closed, stamp)?;
        let first = *self.firsts.get(place)?.get(event)?;
        first.checked_add(stamp.index as usize)
    }
}

/// The place of the actor that a stamp names, and in its history that of the event.
fn event_of<A: Audited>(closed: &[Closed<A>], stamp: Stamp) -> Option<(usize, usize)>
    requires order { AreInOrder closed.now }
    requires clocks { ClocksRise closed.now }
    ensures some { IfSome result (λ at. IsEventOf closed.now stamp at.0 at.1) }
    ensures none { IfNone result ((by place : ℕ) → ¬ IsEventOf closed.now stamp by place) }
{
    let place = place_of(closed, stamp.actor);
    let one = closed.get(place)?;
    if one.number != stamp.actor {
        return None;
    }
    let history = one.history.as_slice();
    let event = place_at(history, stamp.clock);
    if history.get(event)?.clock != stamp.clock {
        return None;
    }
    Some((place, event))
}
