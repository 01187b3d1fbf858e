//! What an actor shows while it is at work.

use crate::actor::Actor;

/// What looks at an actor from under its lock.
pub trait Sight<A: Actor> {
    /// Whether this is what is seen of such an actor.
    ghost sees: { A → Self → Type 0 };

    /// Looks at the actor.
    fn see(&mut self, actor: &A)
        ensures { sees actor.now self.new };
}
