//! The envelopes that one step sent.
ghost use Rattle.std.specs.Prelude.{◌≡◌, ◌==◌, IfOk, length, slice_get, option_map};

use crate::machine::Machine;
use crate::message::EnvelopeOf;
use std::alloc::{AllocError, Global};
use std::marker::Model;

/// What a step sent, in order. In clauses it is the list of the envelopes.
#[derive(Drop)]
pub struct SentOf<C, R, O> {
    envelopes: Vec<EnvelopeOf<C, R, O>>,
}

/// What a step of a machine's site sent.
pub type Sent<M> = SentOf<<M as Machine>::Cmd, <M as Machine>::Reply, <M as Machine>::Order>;

impl<C, R, O> Model for SentOf<C, R, O> {
    ghost use Rattle.std.specs.Prelude.{List};
    ghost use Rattle.vr_types.specs.declared.message.EnvelopeOf.{EnvelopeOf};

    ghost Value = { List (EnvelopeOf C R O) };

    ghost view = { λ a. a.envelopes.items };
}

impl<C: Copy, R: Copy, O: Copy> SentOf<C, R, O> {
    /// Holds these envelopes, which are moved.
    pub fn new(envelopes: Vec<EnvelopeOf<C, R, O>>) -> Self
        ensures { result ≡ envelopes.items }
    {
        SentOf { envelopes }
    }

    /// How many envelopes there are.
    pub fn len(&self) -> usize
        ensures { result ≡ length self.now }
    {
        self.envelopes.len()
    }

    /// Whether nothing was sent.
    pub fn is_empty(&self) -> bool
        ensures { result ≡ (length self.now == 0) }
    {
        self.envelopes.is_empty()
    }

    /// The envelope at an index, counted from 0.
    pub fn get(&self, at: usize) -> Option<&EnvelopeOf<C, R, O>>
        ensures { option_map (λ lent. lent.now) result ≡ slice_get self.now at }
    {
        self.envelopes.get(at)
    }

    /// The envelopes as a slice.
    pub fn as_slice(&self) -> &[EnvelopeOf<C, R, O>]
        ensures { result.now ≡ self.now }
    {
        self.envelopes.as_slice()
    }

    /// A copy of the envelopes. `Err` where memory is refused.
    pub fn copy(&self, alloc: Global) -> Result<Self, AllocError>
        ensures { IfOk result (λ copy. copy ≡ self.now) }
    {
        let mut envelopes = Vec::with_capacity(alloc, self.envelopes.len())?;
        for envelope in &self.envelopes {
            envelopes.push(envelope.copy(alloc)?)?;
        }
        Ok(SentOf { envelopes })
    }
}
