//! What a writer receives.
ghost use Rattle.std.specs.Prelude.{◌≡◌, true, IfSome};
ghost use Rattle.pvp_wire.specs.Spelling.{is_wireable};

use pvp_wire::{Stamped, wireable};

/// An envelope that has a spelling.
#[derive(Drop)]
pub struct Frame {
    stamped: Stamped,
    ghost spelled: { is_wireable stamped ≡ true },
}

impl Frame {
    /// `None` where the envelope has no spelling.
    pub fn new(stamped: Stamped) -> Option<Self>
        ensures { IfSome result (λ frame. frame.stamped ≡ stamped) }
    {
        if !wireable(&stamped) {
            return None;
        }
        Some(Frame { stamped })
    }

    pub fn stamped_envelope(&self) -> &Stamped
        ensures is { result.now ≡ self.now.stamped }
        ensures spelled { is_wireable result.now ≡ true }
    {
        &self.stamped
    }
}

/// What a writer does next.
#[derive(Drop)]
pub enum Order {
    /// It writes a frame to the stream of its receiver.
    Send(Frame),
    /// It closes its streams, and ends.
    Stop,
}
