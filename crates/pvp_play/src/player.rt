//! A player of a world: what is tried there, which envelopes come next, and who is cut off.
ghost use Rattle.std.specs.Prelude.{◌≡◌, ◌≢◌, [], None, Some, Err, IfOk, OnOk, OnErr, is_some, option_map};
ghost use Rattle.pvp_play.specs.Player.{cut_without, refusal_in};
ghost use Rattle.pvp_world.specs.declared.fault.WorldFault.TheVariants.{NoMemory};

use crate::notes::{make_room, note};
use pvp_book::Book;
use pvp_trace::{Attempt, try_step};
use pvp_types::Step;
use pvp_world::{Report, World, WorldFault};
use std::alloc::{AllocError, Global};
use std::marker::Model;
use vr_types::{BootCell, Envelope};

/// A world, how far its post was gone through, and the actors that are cut off.
#[derive(Drop)]
pub struct Player<C: BootCell> {
    world: World<C>,
    /// The number of the envelope up to which the post was gone through.
    cursor: usize,
    cut: Vec<u16>,
    /// The steps that were tried, where they are noted.
    noted: Option<Vec<Attempt>>,
}

impl<C: BootCell> Model for Player<C> {
    ghost use Rattle.std.specs.Prelude.{option_map};
    ghost use Rattle.pvp_play.specs.Player.{Position};

    ghost Value = { Position C };

    ghost view = { λ a. record {
      world = a.world;
      cursor = a.cursor;
      cut = a.cut.items;
      noted = option_map (λ v. v.items) a.noted;
    } };
}

impl<C: BootCell> Player<C> {
    ghost use Rattle.pvp_play.specs.Player.{beginning, Tries, Wants, Drains, DrainStops, is_open, is_among, after_skip, cut_off, with_cut, unknown_actor, CutStops};
    ghost use Rattle.pvp_play.specs.Notes.{notes};
    ghost use Rattle.pvp_play.specs.Passing.{is_held, held_back};
    ghost use Rattle.pvp_play.specs.Turns.{DrainsTo, WantsTo, next_open};

    /// A player of a world at the beginning of its post, who cuts off no one and notes nothing.
    pub fn new(alloc: Global, world: World<C>) -> Self
        ensures { result ≡ beginning None world }
    {
        Player {
            world,
            cursor: 0,
            cut: Vec::new(alloc),
            noted: None,
        }
    }

    /// A player of a world at the beginning of its post, who cuts off no one and notes each step that is tried.
    pub fn with_record(alloc: Global, world: World<C>) -> Self
        ensures { result ≡ beginning (Some []) world }
    {
        Player {
            world,
            cursor: 0,
            cut: Vec::new(alloc),
            noted: Some(Vec::new(alloc)),
        }
    }

    /// The world.
    pub fn world(&self) -> &World<C>
        ensures { result.now ≡ self.now.world }
    {
        &self.world
    }

    /// The number of the envelope up to which the post was gone through.
    pub fn cursor(&self) -> usize
        ensures { result ≡ self.now.cursor }
    {
        self.cursor
    }

    /// The steps that were tried, in their order; none where they are not noted.
    pub fn notes(&self) -> &[Attempt]
        ensures { result.now ≡ notes self.now.noted }
    {
        match &self.noted {
            Some(attempts) => attempts.as_slice(),
            None => &[],
        }
    }

    /// Tries a step and notes it, where steps are noted, and answers why it was refused, if it was. `Err` where memory is
    /// refused.
    pub fn step(&mut self, alloc: Global, step: Step) -> Result<Option<WorldFault>, AllocError>
        ensures tried { IfOk result (Tries C.BootCell self.old self.new step) }
        ensures wants { OnErr result (Wants self.old self.new step) }
    {
        if self.noted.is_none() {
            return refusal_in(self.world.apply(alloc, step));
        }
        make_room(&mut self.noted)?;
        let attempt = try_step(alloc, &mut self.world, step);
        let told = refusal_in(attempt.result)?;
        note(&mut self.noted, attempt);
        Ok(told)
    }

    /// Delivers the next envelopes that no cut holds up, so many at most. `Err` where memory is refused.
    pub fn drain(&mut self, alloc: Global, turns: u32) -> Result<(), AllocError>
        ensures drained { OnOk result (Drains C.BootCell turns self.old self.new) }
        ensures stopped { OnErr result (DrainStops C.BootCell turns self.old self.new) }
    {
        for turn in 0..turns {
            if !self.drain_one(alloc)? {
                return Ok(());
            }
        }
        Ok(())
    }

    /// Delivers the next envelope that no cut holds up, and answers whether there was one. `Err` where memory is refused.
    fn drain_one(&mut self, alloc: Global) -> Result<bool, AllocError>
        ensures drained { OnOk result (DrainsTo C.BootCell self.old self.new (next_open self.old)) }
        ensures wants { OnErr result (WantsTo self.old self.new (next_open self.old)) }
        ensures there { IfOk result (λ found. found ≡ is_some (next_open self.old)) }
    {
        let Some(number) = self.next_open() else {
            self.cursor = self.world.post_len();
            return Ok(false);
        };
        let _told = self.step(alloc, Step::Deliver(number))?;
        self.cursor = number;
        Ok(true)
    }

    /// The number of the next envelope that no cut holds up.
    fn next_open(&self) -> Option<usize>
        ensures { result ≡ next_open self.now }
    {
        for place in self.cursor..self.world.post_len() {
            let envelope = self.world.envelope(place + 1)?;
            if self.is_open(envelope) {
                return Some(place + 1);
            }
        }
        None
    }

    /// The numbers of the envelopes after a place, up to the cursor, that a cut holds up. `Err` where memory is refused.
    pub fn held_back(&self, alloc: Global, from: usize) -> Result<Vec<usize>, AllocError>
        ensures held { IfOk result (λ numbers. numbers.items ≡ held_back from self.now) }
        ensures stopped { OnErr result (held_back from self.now ≢ []) }
    {
        let mut numbers = Vec::new(alloc);
        for place in from..self.cursor {
            if self.is_held(place + 1) {
                numbers.push(place + 1)?;
            }
        }
        Ok(numbers)
    }

    /// Whether a cut holds up the envelope of a number.
    fn is_held(&self, number: usize) -> bool
        ensures { result ≡ is_held self.now.cut self.now.world.post number }
    {
        match self.world.envelope(number) {
            Some(envelope) => !self.is_open(envelope),
            None => false,
        }
    }

    /// Whether none of the actors that an envelope goes between is cut off.
    fn is_open(&self, envelope: &Envelope<Book>) -> bool
        ensures { result ≡ is_open self.now.cut envelope.now }
    {
        self.cut.is_empty() || !self.is_cut(envelope.from) && !self.is_cut(envelope.to)
    }

    /// Whether an actor is cut off.
    fn is_cut(&self, actor: u16) -> bool
        ensures { result ≡ is_among self.now.cut actor }
    {
        self.cut.as_slice().contains(&actor)
    }

    /// Passes over the next envelopes, so many at most.
    pub fn skip(&mut self, envelopes: u32)
        ensures { self.new ≡ after_skip self.old envelopes }
    {
        let end = self.world.post_len();
        self.cursor = self.cursor.saturating_add(envelopes as usize).min(end);
    }

    /// Cuts an actor off. Answers why it was refused, if it was; `Err` where memory is refused.
    pub fn cut(&mut self, actor: u16) -> Result<Option<WorldFault>, AllocError>
        ensures after { OnOk result (self.new ≡ with_cut self.old actor
            (cut_off self.old.cut actor)) }
        ensures stopped { OnErr result (CutStops self.old self.new actor) }
        ensures told { IfOk result (λ told. told ≡ unknown_actor self.old actor) }
    {
        if !self.world.has_number(actor) {
            return Ok(Some(WorldFault::NoSuchActor));
        }
        if !self.is_cut(actor) {
            self.cut.push(actor)?;
        }
        Ok(None)
    }

    /// Cuts an actor off no longer. Answers why it was refused, if it was.
    pub fn heal(&mut self, actor: u16) -> Option<WorldFault>
        ensures after { self.new ≡ with_cut self.old actor (cut_without self.old.cut actor) }
        ensures told { result ≡ unknown_actor self.old actor }
    {
        if !self.world.has_number(actor) {
            return Some(WorldFault::NoSuchActor);
        }
        remove_actor(&mut self.cut, actor);
        None
    }
}

/// Why a step was refused, if it was. `Err` where memory was.
fn refusal_in(came: Result<Report, WorldFault>) -> Result<Option<WorldFault>, AllocError>
    ensures told { IfOk result (λ told. (told ≡ refusal_in came) × (told ≢ Some NoMemory)) }
    ensures wants { OnErr result (came ≡ Err NoMemory) }
{
    match came {
        Ok(_) => Ok(None),
        Err(WorldFault::NoMemory) => Err(AllocError),
        Err(fault) => Ok(Some(fault)),
    }
}

/// Takes an actor out of those that are cut off.
fn remove_actor(cut: &mut Vec<u16>, actor: u16)
    ensures { cut.new.items ≡ cut_without cut.old.items actor }
{
    cut.retain(|a| *a != actor);
}
