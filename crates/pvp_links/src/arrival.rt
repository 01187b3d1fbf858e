//! What came over a link, taken apart.
ghost use Rattle.std.specs.Prelude.{◌≡◌, true};
ghost use Rattle.pvp_links.specs.Links.{talks};

use crate::link::Link;
use pvp_wire::Stamped;

/// An envelope that came over a link: its frame had the link's tag, it is from the link's peer and to this end.
#[derive(Drop)]
pub struct Arrival {
    me: u16,
    peer: u16,
    stamped: Stamped,
    ghost sender: { stamped.envelope.from ≡ peer },
    ghost receiver: { stamped.envelope.to ≡ me },
    ghost may: { talks peer me ≡ true },
}

impl Arrival {
    /// An envelope that came over this link.
    pub(crate) fn new(stamped: Stamped, link: &Link) -> Self
        requires sender { stamped.envelope.from ≡ link.now.peer }
        requires receiver { stamped.envelope.to ≡ link.now.me }
        ensures stamped { result.stamped ≡ stamped }
        ensures ends { result.me ≡ link.now.me × result.peer ≡ link.now.peer }
    {
        Arrival {
            me: link.me(),
            peer: link.peer(),
            stamped,
        }
    }

    /// What came.
    pub fn stamped_envelope(&self) -> &Stamped
        ensures is { result.now ≡ self.now.stamped }
        ensures sender { result.now.envelope.from ≡ self.now.peer }
        ensures receiver { result.now.envelope.to ≡ self.now.me }
    {
        &self.stamped
    }

    /// What came, by value.
    pub fn into_stamped(self) -> Stamped
        ensures is { result ≡ self.stamped }
        ensures sender { result.envelope.from ≡ self.peer }
        ensures receiver { result.envelope.to ≡ self.me }
    {
        self.stamped
    }

    /// The number of the actor to which it came.
    pub fn me(&self) -> u16
        ensures is { result ≡ self.now.me }
        ensures may { talks self.now.peer result ≡ true }
    {
        self.me
    }

    /// The number of the actor from which it came.
    pub fn peer(&self) -> u16
        ensures is { result ≡ self.now.peer }
        ensures may { talks result self.now.me ≡ true }
    {
        self.peer
    }
}

/// What stands at the front of what came.
#[derive(Drop)]
pub enum Piece {
    /// The peer lives.
    Ping,
    /// The peer says something.
    Frame(Arrival),
}
