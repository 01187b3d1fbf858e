//! Where what actors send goes.
ghost use Rattle.std.specs.Prelude.{List, [], ◌∷◌};
ghost use Rattle.pvp_rooms.specs.Gates.{Hears};
ghost use Rattle.pvp_links.specs.Puts.{Put};

use pvp_book::Book;
use std::alloc::Global;
use std::sync::Wait;
use vr_types::Envelope;

/// Takes what actors send, to hand it on. What it does not take is lost. Each worker has an outbox of its own.
pub trait Outbox {
    /// Whether this may be all that was put into it so far, in order.
    ghost got: { Self → List Put → Type 0 };

    /// An actor sent these, in this order, in its step of this clock.
    fn put<T: Wait>(
        &mut self,
        rt: &T,
        alloc: Global,
        actor: u16,
        clock: u64,
        sent: &[Envelope<Book>],
    )
        ensures { Hears got self.old self.new
            (record { actor = actor; clock = clock; sent = sent.now } ∷ []) };
}
