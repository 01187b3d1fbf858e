//! What hears of an actor's steps as they begin and end.
ghost use Rattle.std.specs.Prelude.{List, [], ◌∷◌};
ghost use Rattle.pvp_rooms.specs.Gates.{Passing, Enters, Hears, left_with};

use crate::actor::Actor;
use crate::message::Answer;
use crate::room::Room;

/// What is called as a step begins and as it ends. The room is lent from under its lock, so no other step of that actor
/// is under way. Each worker has a gate of its own.
pub trait Gate {
    /// Whether this may be all that it heard so far, in order.
    ghost heard: { Self → List Passing → Type 0 };

    /// The step of this actor begins.
    fn enter<A: Actor>(&mut self, actor: u16, room: &Room<A>)
        ensures { Hears heard self.old self.new (Enters actor ∷ []) };

    /// The step of this actor has ended, with this answer.
    fn leave<A: Actor>(&mut self, actor: u16, room: &Room<A>, answer: &Answer<A::Outcome>)
        ensures { Hears heard self.old self.new (left_with actor answer.now ∷ []) };
}
